//! The bodies of requests' frames, by opcode: read from a frame, and written at the end of a vector.

ghost use Rattle.std.specs.Prelude.{◌≡◌, ◌≢◌, ◌≤◌, ◌<◌, ◌+◌, ◌*◌, ◌^◌, ◌++◌, ◌↔◌, IfOk, IfErr, IsTrue, ℕ};
ghost use Rattle.std.specs.Prelude.{if◌then◌else◌, length, vec_len, vec_capacity};
ghost use Rattle.std.specs.Int.RustNames.{bit_and};
ghost use Rattle.fk_wire.specs.Fields.{InRange, HaveNames, sizes, spellings};
ghost use Rattle.fk_wire.specs.Pairs.{pairs_in, forget_ones};
ghost use Rattle.fk_wire.specs.Requests.{IsBodyOf, request_content, request_body, range, known_flags};
ghost use Rattle.fk_wire.specs.Requests.{getattr, mkdir, rename, release, init, create, batch_forget};
ghost use Rattle.fk_wire.specs.Opcodes.{shape_of, exactly, name_after};
ghost use Rattle.fk_wire.specs.Faults.{BodyFaultIs};
ghost use Rattle.fk_wire.specs.declared.opcode.Opcode.{Opcode};

use crate::fault::WireFault;
use crate::flags::{InitFlags, offered};
use crate::opcode::{Opcode, name_place};
use crate::pairs::Pairs;
use crate::request::RequestBody;
use crate::room::{put_bytes, put_name, put_two_u32, put_two_u64, put_u32, put_u64};
use crate::shapes::{fixed, one_name, two_names, with_bytes, with_pairs};
use byteorder::{ByteOrder, LittleEndian};
use fk_fields::{is_name, u32_at, u64_at};
use std::alloc::Allocator;

// ---- read

/// The body of a frame that ends with its one name. The name is looked at in one place for all six
/// opcodes, so that there is one copy of it in the reader.
#[inline(always)]
fn named_body(opcode: Opcode, bytes: &[u8], place: usize) -> Result<RequestBody<'_>, WireFault>
    requires { shape_of opcode ≡ name_after place }
    ensures ok { IfOk result (IsBodyOf opcode bytes.now) }
    ensures err { IfErr result (BodyFaultIs (shape_of opcode) bytes.now) }
{
    let name = one_name(bytes, place)?;
    Ok(match opcode {
        Opcode::Lookup => RequestBody::Lookup { name },
        Opcode::Mkdir => RequestBody::Mkdir { name },
        Opcode::Unlink => RequestBody::Unlink { name },
        Opcode::Rmdir => RequestBody::Rmdir { name },
        Opcode::Link => {
            let oldnodeid = u64_at(bytes, 40);
            RequestBody::Link { oldnodeid, name }
        }
        // No other opcode has such a body.
        _ => RequestBody::Create { name },
    })
}

/// `struct fuse_rename_in` and the two names.
#[inline(always)]
fn rename_body(bytes: &[u8]) -> Result<RequestBody<'_>, WireFault>
    ensures ok { IfOk result (IsBodyOf Opcode.Rename bytes.now) }
    ensures err { IfErr result (BodyFaultIs (shape_of Opcode.Rename) bytes.now) }
{
    let (old, new) = two_names(bytes, 48)?;
    let newdir = u64_at(bytes, 40);
    Ok(RequestBody::Rename { newdir, old, new })
}

/// `struct fuse_read_in`.
#[inline(always)]
fn read_body(bytes: &[u8]) -> Result<RequestBody<'_>, WireFault>
    ensures ok { IfOk result (IsBodyOf Opcode.Read bytes.now) }
    ensures err { IfErr result (BodyFaultIs (shape_of Opcode.Read) bytes.now) }
{
    fixed(bytes, 80)?;
    let fh = u64_at(bytes, 40);
    let offset = u64_at(bytes, 48);
    let size = u32_at(bytes, 56);
    Ok(RequestBody::Read { fh, offset, size })
}

/// `struct fuse_write_in` and the data.
#[inline(always)]
fn write_body(bytes: &[u8]) -> Result<RequestBody<'_>, WireFault>
    ensures ok { IfOk result (IsBodyOf Opcode.Write bytes.now) }
    ensures err { IfErr result (BodyFaultIs (shape_of Opcode.Write) bytes.now) }
{
    let data = with_bytes(bytes)?;
    let fh = u64_at(bytes, 40);
    let offset = u64_at(bytes, 48);
    Ok(RequestBody::Write {
        fh,
        offset,
        bytes: data,
    })
}

/// `struct fuse_release_in`.
#[inline(always)]
fn release_body(bytes: &[u8]) -> Result<RequestBody<'_>, WireFault>
    ensures ok { IfOk result (IsBodyOf Opcode.Release bytes.now) }
    ensures err { IfErr result (BodyFaultIs (shape_of Opcode.Release) bytes.now) }
{
    fixed(bytes, 64)?;
    let fh = u64_at(bytes, 40);
    Ok(RequestBody::Release { fh })
}

/// `struct fuse_init_in`.
#[inline(always)]
fn init_body(bytes: &[u8]) -> Result<RequestBody<'_>, WireFault>
    ensures ok { IfOk result (IsBodyOf Opcode.Init bytes.now) }
    ensures err { IfErr result (BodyFaultIs (shape_of Opcode.Init) bytes.now) }
{
    fixed(bytes, 56)?;
    let major = u32_at(bytes, 40);
    let minor = u32_at(bytes, 44);
    let flags = offered(u32_at(bytes, 52));
    Ok(RequestBody::Init {
        major,
        minor,
        flags,
    })
}

/// `struct fuse_read_in` of a READDIR, or with `plus` of a READDIRPLUS.
#[inline(always)]
fn list_body(plus: bool, bytes: &[u8]) -> Result<RequestBody<'_>, WireFault>
    ensures ok { IfOk result (IsBodyOf (if plus then Opcode.Readdirplus else Opcode.Readdir) bytes.now) }
    ensures err { IfErr result (BodyFaultIs (exactly 80) bytes.now) }
{
    fixed(bytes, 80)?;
    let offset = u64_at(bytes, 48);
    let size = u32_at(bytes, 56);
    Ok(if plus {
        RequestBody::Readdirplus { offset, size }
    } else {
        RequestBody::Readdir { offset, size }
    })
}

/// `struct fuse_batch_forget_in` and the pairs.
#[inline(always)]
fn batch_forget_body(bytes: &[u8]) -> Result<RequestBody<'_>, WireFault>
    ensures ok { IfOk result (IsBodyOf Opcode.BatchForget bytes.now) }
    ensures err { IfErr result (BodyFaultIs (shape_of Opcode.BatchForget) bytes.now) }
{
    let pairs = with_pairs(bytes)?;
    Ok(RequestBody::BatchForget { pairs })
}

/// The body of a frame under this opcode, which is none of those of `named_body`.
#[inline(always)]
fn other_body(opcode: Opcode, bytes: &[u8]) -> Result<RequestBody<'_>, WireFault>
    requires { (place : ℕ) → shape_of opcode ≢ name_after place }
    ensures ok { IfOk result (IsBodyOf opcode bytes.now) }
    ensures err { IfErr result (BodyFaultIs (shape_of opcode) bytes.now) }
{
    match opcode {
        Opcode::Forget => {
            fixed(bytes, 48)?;
            let nlookup = u64_at(bytes, 40);
            Ok(RequestBody::Forget { nlookup })
        }
        Opcode::Getattr => {
            fixed(bytes, 56)?;
            Ok(RequestBody::Getattr)
        }
        Opcode::Open => {
            fixed(bytes, 48)?;
            Ok(RequestBody::Open)
        }
        Opcode::Interrupt => {
            fixed(bytes, 48)?;
            let unique = u64_at(bytes, 40);
            Ok(RequestBody::Interrupt { unique })
        }
        Opcode::Rename => rename_body(bytes),
        Opcode::Read => read_body(bytes),
        Opcode::Write => write_body(bytes),
        Opcode::Release => release_body(bytes),
        Opcode::Init => init_body(bytes),
        Opcode::Readdir => list_body(false, bytes),
        Opcode::Readdirplus => list_body(true, bytes),
        Opcode::BatchForget => batch_forget_body(bytes),
        _ => Err(WireFault::Body),
    }
}

/// The body of a frame under this opcode.
#[inline(always)]
pub(crate) fn body_of(opcode: Opcode, bytes: &[u8]) -> Result<RequestBody<'_>, WireFault>
    ensures ok { IfOk result (IsBodyOf opcode bytes.now) }
    ensures err { IfErr result (BodyFaultIs (shape_of opcode) bytes.now) }
{
    match name_place(opcode) {
        Some(place) => named_body(opcode, bytes, place),
        None => other_body(opcode, bytes),
    }
}

// ---- written

/// How many bytes the body takes, or too many.
#[tactic(auto, using(crate::proofs::Frames::sizes_of_forgets))]
pub(crate) fn body_size(body: &RequestBody<'_>) -> usize
    ensures small { result ≤ 4136 → result ≡ sizes (request_body (request_content body.now)) }
    ensures large { 4136 < result → 4136 < sizes (request_body (request_content body.now)) }
{
    match body {
        RequestBody::Lookup { name } | RequestBody::Unlink { name } | RequestBody::Rmdir { name } =>
            name.len() + 1,
        RequestBody::Mkdir { name } | RequestBody::Link { name, .. } => 8 + (name.len() + 1),
        RequestBody::Create { name } => 16 + (name.len() + 1),
        RequestBody::Rename { old, new, .. } => (8 + (old.len() + 1)).saturating_add(new.len() + 1),
        RequestBody::Forget { .. } | RequestBody::Open | RequestBody::Interrupt { .. } => 8,
        RequestBody::Getattr | RequestBody::Init { .. } => 16,
        RequestBody::Release { .. } => 24,
        RequestBody::Read { .. } | RequestBody::Readdir { .. } | RequestBody::Readdirplus { .. } =>
            40,
        RequestBody::Write { bytes, .. } => 40 + bytes.len(),
        RequestBody::BatchForget { pairs } => 8 + 16 * pairs.count_left(),
    }
}

/// Whether each name is one.
#[tactic(auto, using(crate::proofs::Frames::forgets_are_named))]
pub(crate) fn has_names(body: &RequestBody<'_>) -> bool
    ensures { IsTrue result ↔ HaveNames (request_body (request_content body.now)) }
{
    match body {
        RequestBody::Lookup { name }
        | RequestBody::Unlink { name }
        | RequestBody::Rmdir { name }
        | RequestBody::Mkdir { name }
        | RequestBody::Link { name, .. }
        | RequestBody::Create { name } => is_name(name),
        RequestBody::Rename { old, new, .. } => is_name(old) && is_name(new),
        RequestBody::Forget { .. }
        | RequestBody::Open
        | RequestBody::Interrupt { .. }
        | RequestBody::Getattr
        | RequestBody::Init { .. }
        | RequestBody::Release { .. }
        | RequestBody::Read { .. }
        | RequestBody::Readdir { .. }
        | RequestBody::Readdirplus { .. }
        | RequestBody::Write { .. }
        | RequestBody::BatchForget { .. } => true,
    }
}

/// A `struct fuse_read_in` or a `struct fuse_write_in`.
#[tactic(auto, using(std::proofs::Common::append_assoc))]
fn put_range<A: Allocator>(out: &mut Vec<u8, A>, fh: u64, offset: u64, size: u32)
    requires { vec_len out.old + 40 ≤ vec_capacity out.old }
    ensures items { out.new.items ≡ out.old.items ++ spellings (range fh offset size) }
    ensures len { vec_len out.new ≡ vec_len out.old + 40 }
    ensures capacity { vec_capacity out.old ≤ vec_capacity out.new }
    ensures fits { InRange (range fh offset size) }
{
    let mut buf = [0u8; 40];
    LittleEndian::write_u64(&mut buf, fh);
    LittleEndian::write_u64(&mut buf[8..], offset);
    LittleEndian::write_u32(&mut buf[16..], size);
    put_bytes(out, &buf);
}

/// Each a `struct fuse_forget_one`.
fn put_pairs<A: Allocator>(out: &mut Vec<u8, A>, pairs: Pairs<'_>)
    requires { vec_len out.old + 16 * length (pairs_in pairs) ≤ vec_capacity out.old }
    ensures items { out.new.items ≡ out.old.items ++ spellings (forget_ones (pairs_in pairs.entry)) }
    ensures fits { InRange (forget_ones (pairs_in pairs.entry)) }
{
    'pairs: for (nodeid, nlookup) in pairs {
        put_two_u64(out, nodeid, nlookup);
    }
}

/// A `struct fuse_getattr_in`.
#[tactic(auto, using(std::proofs::Common::append_assoc))]
fn put_getattr<A: Allocator>(out: &mut Vec<u8, A>)
    requires { vec_len out.old + 16 ≤ vec_capacity out.old }
    ensures { out.new.items ≡ out.old.items ++ spellings (request_body getattr) }
{
    put_two_u64(out, 0, 0);
}

/// A `struct fuse_mkdir_in`, and the name.
#[tactic(auto, using(std::proofs::Common::append_assoc))]
fn put_mkdir<A: Allocator>(out: &mut Vec<u8, A>, name: &[u8])
    requires { vec_len out.old + (8 + (length name.now + 1)) ≤ vec_capacity out.old }
    ensures { out.new.items ≡ out.old.items ++ spellings (request_body (mkdir name.now)) }
{
    put_two_u32(out, 493, 0);
    put_name(out, name);
}

/// A `struct fuse_rename_in`, and the two names.
#[tactic(auto, using(std::proofs::Common::append_assoc))]
fn put_rename<A: Allocator>(out: &mut Vec<u8, A>, newdir: u64, old: &[u8], new: &[u8])
    requires { vec_len out.old + (8 + (length old.now + 1) + (length new.now + 1)) ≤ vec_capacity out.old }
    ensures { out.new.items ≡ out.old.items ++ spellings (request_body (rename newdir old.now new.now)) }
{
    put_u64(out, newdir);
    put_name(out, old);
    put_name(out, new);
}

/// A `struct fuse_release_in`.
#[tactic(auto, using(std::proofs::Common::append_assoc))]
fn put_release<A: Allocator>(out: &mut Vec<u8, A>, fh: u64)
    requires { vec_len out.old + 24 ≤ vec_capacity out.old }
    ensures { out.new.items ≡ out.old.items ++ spellings (request_body (release fh)) }
{
    put_u64(out, fh);
    put_two_u32(out, 0, 0);
    put_u64(out, 0);
}

/// A `struct fuse_init_in`.
#[tactic(auto, using(std::proofs::Common::append_assoc))]
fn put_init<A: Allocator>(out: &mut Vec<u8, A>, major: u32, minor: u32, flags: InitFlags)
    requires { vec_len out.old + 16 ≤ vec_capacity out.old }
    ensures items { out.new.items ≡ out.old.items ++ spellings
        (request_body (init major minor (bit_and flags.0 known_flags))) }
    ensures fits { InRange (request_body (init major minor (bit_and flags.0 known_flags))) }
{
    put_u32(out, major);
    put_u32(out, minor);
    put_u32(out, 0);
    put_u32(out, flags.known());
}

/// A `struct fuse_create_in`, and the name.
#[tactic(auto, using(std::proofs::Common::append_assoc))]
fn put_create<A: Allocator>(out: &mut Vec<u8, A>, name: &[u8])
    requires { vec_len out.old + (16 + (length name.now + 1)) ≤ vec_capacity out.old }
    ensures { out.new.items ≡ out.old.items ++ spellings (request_body (create name.now)) }
{
    put_two_u32(out, 0, 33188);
    put_two_u32(out, 0, 0);
    put_name(out, name);
}

/// A `struct fuse_batch_forget_in`, and the pairs.
#[tactic(auto, using(std::proofs::Common::append_assoc))]
fn put_batch_forget<A: Allocator>(out: &mut Vec<u8, A>, pairs: Pairs<'_>)
    requires few { length (pairs_in pairs) < 2 ^ 32 }
    requires room { vec_len out.old + (8 + 16 * length (pairs_in pairs)) ≤ vec_capacity out.old }
    ensures items { out.new.items ≡ out.old.items ++ spellings (request_body (batch_forget (pairs_in pairs.entry))) }
    ensures fits { InRange (request_body (batch_forget (pairs_in pairs.entry))) }
{
    put_u32(out, pairs.count_left() as u32);
    put_u32(out, 0);
    put_pairs(out, pairs);
}

/// Writes the body at the end.
#[tactic(auto, using(std::proofs::Common::append_assoc, crate::proofs::Frames::sizes_of_forgets))]
pub(crate) fn put_body<A: Allocator>(out: &mut Vec<u8, A>, body: &RequestBody<'_>)
    requires room { vec_len out.old + sizes (request_body (request_content body.now)) ≤ vec_capacity out.old }
    requires small { sizes (request_body (request_content body.now)) ≤ 4136 }
    ensures items { out.new.items ≡ out.old.items ++ spellings (request_body (request_content body.now)) }
    ensures fits { InRange (request_body (request_content body.now)) }
{
    match body {
        RequestBody::Lookup { name } | RequestBody::Unlink { name } | RequestBody::Rmdir { name } =>
            put_name(out, name),
        RequestBody::Forget { nlookup } => put_u64(out, *nlookup),
        RequestBody::Getattr => put_getattr(out),
        RequestBody::Mkdir { name } => put_mkdir(out, name),
        RequestBody::Rename { newdir, old, new } => put_rename(out, *newdir, old, new),
        RequestBody::Link { oldnodeid, name } => {
            put_u64(out, *oldnodeid);
            put_name(out, name);
        }
        RequestBody::Open => put_two_u32(out, 0, 0),
        RequestBody::Read { fh, offset, size } => put_range(out, *fh, *offset, *size),
        RequestBody::Write { fh, offset, bytes } => {
            put_range(out, *fh, *offset, bytes.len() as u32);
            put_bytes(out, bytes);
        }
        RequestBody::Release { fh } => put_release(out, *fh),
        RequestBody::Init {
            major,
            minor,
            flags,
        } => put_init(out, *major, *minor, *flags),
        RequestBody::Readdir { offset, size } | RequestBody::Readdirplus { offset, size } => {
            put_range(out, 0, *offset, *size)
        }
        RequestBody::Create { name } => put_create(out, name),
        RequestBody::Interrupt { unique } => put_u64(out, *unique),
        RequestBody::BatchForget { pairs } => put_batch_forget(out, *pairs),
    }
}
