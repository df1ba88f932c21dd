//! The frame of a request, in a buffer that has room for it. Each call answers with the place behind what it put.

ghost use Rattle.std.specs.Prelude.{◌≡◌, ◌≤◌, ◌<◌, ◌+◌, ◌*◌, ◌^◌, ◌++◌, IsTrue, length, take};
ghost use Rattle.std.specs.Int.RustNames.{bit_and};
ghost use Rattle.fk_wire.specs.Fields.{HaveNames, InRange, sizes, spellings, u64};
ghost use Rattle.fk_wire.specs.Faults.{FitsFrame};
ghost use Rattle.fk_wire.specs.Opcodes.{code_of, minor_knows};
ghost use Rattle.fk_wire.specs.Pairs.{forget_ones, pairs_in};
ghost use Rattle.fk_wire.specs.Requests.{WrittenAt, batch_forget, create, getattr, header, init, known_flags, mkdir};
ghost use Rattle.fk_wire.specs.Requests.{opcode_of, range, release, rename, request_body, request_content};
ghost use Rattle.fk_wire.specs.Requests.{request_message};
ghost use Rattle.fk_wire.specs.declared.opcode.Minor.{Minor};

use crate::request_fields::known_bits;
use crate::room::{put_bytes, put_name, put_two_u32, put_two_u64, put_u64};
use fk_wire::{InitFlags, Minor, Pairs, Request, RequestBody};

/// A `struct fuse_in_header`.
#[tactic(auto, using(std::proofs::Common::append_assoc))]
fn put_header(out: &mut [u8], len: u32, code: u32, unique: u64, nodeid: u64) -> usize
    requires { 40 ≤ length out.old }
    ensures items { take result out.new ≡ spellings (header len code unique (u64 nodeid)) }
    ensures place { result ≡ 40 }
    ensures len { length out.new ≡ length out.old }
{
    let place = put_two_u32(out, 0, len, code);
    let place = put_two_u64(out, place, unique, nodeid);
    let place = put_two_u32(out, place, 0, 0);
    put_two_u32(out, place, 0, 0)
}

/// A `struct fuse_read_in` or a `struct fuse_write_in`.
#[tactic(auto, using(std::proofs::Common::append_assoc))]
fn put_range(out: &mut [u8], place: usize, fh: u64, offset: u64, size: u32) -> usize
    requires { place + 40 ≤ length out.old }
    ensures items { take result out.new ≡ take place out.old ++ spellings (range fh offset size) }
    ensures place { result ≡ place + 40 }
    ensures len { length out.new ≡ length out.old }
    ensures fits { InRange (range fh offset size) }
{
    let place = put_two_u64(out, place, fh, offset);
    let place = put_two_u32(out, place, size, 0);
    let place = put_u64(out, place, 0);
    put_two_u32(out, place, 0, 0)
}

/// Each a `struct fuse_forget_one`.
#[tactic(auto, using(std::proofs::Common::append_assoc))]
fn put_pairs(out: &mut [u8], place: usize, pairs: Pairs<'_>) -> usize
    requires { place + 16 * length (pairs_in pairs) ≤ length out.old }
    ensures items { take result out.new ≡ take place out.old ++ spellings (forget_ones (pairs_in pairs.entry)) }
    ensures fits { InRange (forget_ones (pairs_in pairs.entry)) }
    ensures place { result ≡ place + 16 * length (pairs_in pairs.entry) }
    ensures len { length out.new ≡ length out.old }
{
    let mut place = place;
    'pairs: for (nodeid, nlookup) in pairs {
        place = put_two_u64(out, place, nodeid, nlookup);
    }
    place
}

/// A `struct fuse_getattr_in`.
#[tactic(auto, using(std::proofs::Common::append_assoc))]
fn put_getattr(out: &mut [u8], place: usize) -> usize
    requires { place + 16 ≤ length out.old }
    ensures items { take result out.new ≡ take place out.old ++ spellings (request_body getattr) }
    ensures place { result ≡ place + 16 }
    ensures len { length out.new ≡ length out.old }
{
    let place = put_two_u32(out, place, 0, 0);
    put_u64(out, place, 0)
}

/// A `struct fuse_mkdir_in`, and the name.
#[tactic(auto, using(std::proofs::Common::append_assoc))]
fn put_mkdir(out: &mut [u8], place: usize, name: &[u8]) -> usize
    requires { place + (8 + (length name.now + 1)) ≤ length out.old }
    ensures items { take result out.new ≡ take place out.old ++ spellings (request_body (mkdir name.now)) }
    ensures place { result ≡ place + (8 + (length name.now + 1)) }
    ensures len { length out.new ≡ length out.old }
{
    let place = put_two_u32(out, place, 493, 0);
    put_name(out, place, name)
}

/// A `struct fuse_rename_in`, and the two names.
#[tactic(auto, using(std::proofs::Common::append_assoc))]
fn put_rename(out: &mut [u8], place: usize, newdir: u64, old: &[u8], new: &[u8]) -> usize
    requires { place + (8 + (length old.now + 1) + (length new.now + 1)) ≤ length out.old }
    ensures items { take result out.new ≡ take place out.old ++ spellings
        (request_body (rename newdir old.now new.now)) }
    ensures place { result ≡ place + (8 + (length old.now + 1) + (length new.now + 1)) }
    ensures len { length out.new ≡ length out.old }
{
    let place = put_u64(out, place, newdir);
    let place = put_name(out, place, old);
    put_name(out, place, new)
}

/// A `struct fuse_release_in`.
#[tactic(auto, using(std::proofs::Common::append_assoc))]
fn put_release(out: &mut [u8], place: usize, fh: u64) -> usize
    requires { place + 24 ≤ length out.old }
    ensures items { take result out.new ≡ take place out.old ++ spellings (request_body (release fh)) }
    ensures place { result ≡ place + 24 }
    ensures len { length out.new ≡ length out.old }
{
    let place = put_u64(out, place, fh);
    let place = put_two_u32(out, place, 0, 0);
    put_u64(out, place, 0)
}

/// A `struct fuse_init_in`.
#[tactic(auto, using(std::proofs::Common::append_assoc, fk_wire::proofs::Masks::and_again))]
fn put_init(out: &mut [u8], place: usize, major: u32, minor: u32, flags: InitFlags) -> usize
    requires { place + 16 ≤ length out.old }
    ensures items { take result out.new ≡ take place out.old ++ spellings
        (request_body (init major minor (bit_and flags.0 known_flags))) }
    ensures fits { InRange (request_body (init major minor (bit_and flags.0 known_flags))) }
    ensures place { result ≡ place + 16 }
    ensures len { length out.new ≡ length out.old }
{
    let place = put_two_u32(out, place, major, minor);
    put_two_u32(out, place, 0, known_bits(flags))
}

/// A `struct fuse_create_in`, and the name.
#[tactic(auto, using(std::proofs::Common::append_assoc))]
fn put_create(out: &mut [u8], place: usize, name: &[u8]) -> usize
    requires { place + (16 + (length name.now + 1)) ≤ length out.old }
    ensures items { take result out.new ≡ take place out.old ++ spellings (request_body (create name.now)) }
    ensures place { result ≡ place + (16 + (length name.now + 1)) }
    ensures len { length out.new ≡ length out.old }
{
    let place = put_two_u32(out, place, 0, 33188);
    let place = put_two_u32(out, place, 0, 0);
    put_name(out, place, name)
}

/// A `struct fuse_batch_forget_in`, and the pairs.
#[tactic(auto, using(std::proofs::Common::append_assoc))]
fn put_batch_forget(out: &mut [u8], place: usize, pairs: Pairs<'_>) -> usize
    requires few { length (pairs_in pairs) < 2 ^ 32 }
    requires room { place + (8 + 16 * length (pairs_in pairs)) ≤ length out.old }
    ensures items { take result out.new ≡ take place out.old ++ spellings
        (request_body (batch_forget (pairs_in pairs.entry))) }
    ensures fits { InRange (request_body (batch_forget (pairs_in pairs.entry))) }
    ensures place { result ≡ place + (8 + 16 * length (pairs_in pairs.entry)) }
    ensures len { length out.new ≡ length out.old }
{
    let place = put_two_u32(out, place, pairs.count_left() as u32, 0);
    put_pairs(out, place, pairs)
}

/// The body of a request.
#[tactic(auto, using(std::proofs::Common::append_assoc, fk_wire::proofs::Frames::sizes_of_forgets))]
fn put_body(out: &mut [u8], place: usize, body: &RequestBody<'_>) -> usize
    requires room { place + sizes (request_body (request_content body.now)) ≤ length out.old }
    requires small { sizes (request_body (request_content body.now)) ≤ 4136 }
    ensures items { take result out.new ≡ take place out.old ++ spellings
        (request_body (request_content body.now)) }
    ensures fits { InRange (request_body (request_content body.now)) }
    ensures place { result ≡ place + sizes (request_body (request_content body.now)) }
    ensures len { length out.new ≡ length out.old }
{
    match body {
        RequestBody::Lookup { name } | RequestBody::Unlink { name } | RequestBody::Rmdir { name } =>
            put_name(out, place, name),
        RequestBody::Forget { nlookup } => put_u64(out, place, *nlookup),
        RequestBody::Getattr => put_getattr(out, place),
        RequestBody::Mkdir { name } => put_mkdir(out, place, name),
        RequestBody::Rename { newdir, old, new } => put_rename(out, place, *newdir, old, new),
        RequestBody::Link { oldnodeid, name } => {
            let place = put_u64(out, place, *oldnodeid);
            put_name(out, place, name)
        }
        RequestBody::Open => put_two_u32(out, place, 0, 0),
        RequestBody::Read { fh, offset, size } => put_range(out, place, *fh, *offset, *size),
        RequestBody::Write { fh, offset, bytes } => {
            let place = put_range(out, place, *fh, *offset, bytes.len() as u32);
            put_bytes(out, place, bytes)
        }
        RequestBody::Release { fh } => put_release(out, place, *fh),
        RequestBody::Init {
            major,
            minor,
            flags,
        } => put_init(out, place, *major, *minor, *flags),
        RequestBody::Readdir { offset, size } | RequestBody::Readdirplus { offset, size } => {
            put_range(out, place, 0, *offset, *size)
        }
        RequestBody::Create { name } => put_create(out, place, name),
        RequestBody::Interrupt { unique } => put_u64(out, place, *unique),
        RequestBody::BatchForget { pairs } => put_batch_forget(out, place, *pairs),
    }
}

/// Writes the frame of a request, which has a spelling, into a buffer of its length.
pub(crate) fn put_request(out: &mut [u8], version: Minor, code: u32, request: &Request<'_>)
    requires size { length out.old ≡ 40 + sizes (request_body (request_content request.now.body)) }
    requires code { code ≡ code_of (opcode_of (request_content request.now.body)) }
    requires known { IsTrue (minor_knows version (opcode_of (request_content request.now.body))) }
    requires fits { FitsFrame (request_message request.now) }
    requires named { HaveNames (request_body (request_content request.now.body)) }
    ensures { WrittenAt version (request_message request.now) out.new }
{
    let len = out.len() as u32;
    let place = put_header(out, len, code, request.unique, request.nodeid);
    let _ = put_body(out, place, &request.body);
}
