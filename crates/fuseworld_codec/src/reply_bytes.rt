//! The frame of a reply, in a buffer that has room for it. Each call answers with the place behind what it put.

ghost use Rattle.std.specs.Prelude.{◌≡◌, ◌≤◌, ◌<◌, ◌+◌, ◌++◌, [], IsTrue, false, length, take};
ghost use Rattle.std.specs.Int.RustNames.{bit_and};
ghost use Rattle.fk_wire.specs.Fields.{InRange, sizes, spellings};
ghost use Rattle.fk_wire.specs.Entries.{attr_fields, entry_content, entry_fields};
ghost use Rattle.fk_wire.specs.Requests.{known_flags};
ghost use Rattle.fk_wire.specs.Replies.{IsErrorNumber, WrittenReplyAt, init_end, init_fields, kind_of_content};
ghost use Rattle.fk_wire.specs.Replies.{knows_kind, open_fields, reply_body, reply_content, reply_message};
ghost use Rattle.fk_wire.specs.ReplyFaults.{FitsReply};
ghost use Rattle.fk_wire.specs.Dirents.{dirent_fields, direntpluses, dirents};
ghost use Rattle.fk_wire.specs.Records.{dirent_content, pluses_in, records_in};
ghost use Rattle.fk_wire.specs.declared.opcode.Minor.{Minor};

use crate::reply_checks::{error_word, init_size};
use crate::request_fields::known_bits;
use crate::room::{put_bytes, put_two_u32, put_two_u64, put_u32, put_u64, put_zeros, put_zeros88};
use fk_wire::{
    Attr, Dirent, DirentPlus, Entry, InitFlags, Minor, Records, RecordsPlus, Reply, ReplyBody,
};

/// A `struct fuse_attr`.
#[tactic(auto, using(std::proofs::Common::append_assoc))]
fn put_attr(out: &mut [u8], place: usize, attr: &Attr) -> usize
    requires { place + 88 ≤ length out.old }
    ensures items { take result out.new ≡ take place out.old ++ spellings (attr_fields attr.now []) }
    ensures place { result ≡ place + 88 }
    ensures len { length out.new ≡ length out.old }
    ensures fits { InRange (attr_fields attr.now []) }
{
    let place = put_two_u64(out, place, attr.ino, attr.size);
    let place = put_two_u64(out, place, 0, 0);
    let place = put_two_u64(out, place, 0, 0);
    let place = put_two_u32(out, place, 0, 0);
    let place = put_two_u32(out, place, 0, attr.mode);
    let place = put_two_u32(out, place, attr.nlink, 0);
    let place = put_two_u32(out, place, 0, 0);
    put_two_u32(out, place, 4096, 0)
}

/// A `struct fuse_entry_out`.
#[tactic(auto, using(std::proofs::Common::append_assoc))]
fn put_entry(out: &mut [u8], place: usize, entry: &Entry) -> usize
    requires { place + 128 ≤ length out.old }
    ensures items { take result out.new ≡ take place out.old ++ spellings
        (entry_fields (entry_content entry.now) []) }
    ensures place { result ≡ place + 128 }
    ensures len { length out.new ≡ length out.old }
    ensures fits { InRange (entry_fields (entry_content entry.now) []) }
{
    if entry.nodeid == 0 {
        let place = put_two_u64(out, place, 0, 0);
        let place = put_two_u64(out, place, entry.entry_valid, 0);
        let place = put_two_u32(out, place, entry.entry_valid_nsec, 0);
        put_zeros88(out, place)
    } else {
        let place = put_two_u64(out, place, entry.nodeid, entry.generation);
        let place = put_two_u64(out, place, entry.entry_valid, 0);
        let place = put_two_u32(out, place, entry.entry_valid_nsec, 0);
        put_attr(out, place, &entry.attr)
    }
}

/// A `struct fuse_open_out`.
#[tactic(auto, using(std::proofs::Common::append_assoc))]
fn put_open(out: &mut [u8], place: usize, fh: u64) -> usize
    requires { place + 16 ≤ length out.old }
    ensures items { take result out.new ≡ take place out.old ++ spellings (open_fields fh) }
    ensures place { result ≡ place + 16 }
    ensures len { length out.new ≡ length out.old }
    ensures fits { InRange (open_fields fh) }
{
    let place = put_u64(out, place, fh);
    put_two_u32(out, place, 0, 0)
}

/// The end of a `struct fuse_init_out`, which 7.15 does not have.
#[tactic(auto, using(std::proofs::Common::append_assoc))]
fn put_init_end(out: &mut [u8], place: usize) -> usize
    requires { place + 40 ≤ length out.old }
    ensures items { take result out.new ≡ take place out.old ++ spellings (init_end false) }
    ensures place { result ≡ place + 40 }
    ensures len { length out.new ≡ length out.old }
{
    let place = put_u32(out, place, 1);
    let place = put_zeros(out, place, 2);
    let place = put_zeros(out, place, 2);
    let place = put_two_u32(out, place, 0, 0);
    let place = put_two_u32(out, place, 0, 0);
    let place = put_two_u32(out, place, 0, 0);
    put_two_u32(out, place, 0, 0)
}

/// A `struct fuse_init_out`.
#[tactic(auto, using(std::proofs::Common::append_assoc, fk_wire::proofs::Masks::and_again))]
fn put_init(out: &mut [u8], place: usize, major: u32, minor: u32, flags: InitFlags) -> usize
    requires { place + sizes (init_fields major minor (bit_and flags.0 known_flags)) ≤ length out.old }
    ensures items { take result out.new ≡ take place out.old ++ spellings
        (init_fields major minor (bit_and flags.0 known_flags)) }
    ensures place { result ≡ place + sizes (init_fields major minor (bit_and flags.0 known_flags)) }
    ensures len { length out.new ≡ length out.old }
    ensures fits { InRange (init_fields major minor (bit_and flags.0 known_flags)) }
{
    let place = put_two_u32(out, place, major, minor);
    let place = put_two_u32(out, place, 0, known_bits(flags));
    let place = put_zeros(out, place, 2);
    let place = put_zeros(out, place, 2);
    let place = put_u32(out, place, 4096);
    if init_size(major, minor) == 64 {
        put_init_end(out, place)
    } else {
        place
    }
}

/// A `struct fuse_dirent` with its name and padding.
#[tactic(auto, using(std::proofs::Common::append_assoc))]
fn put_dirent(out: &mut [u8], place: usize, dirent: &Dirent<'_>) -> usize
    requires room { place + sizes (dirent_fields (dirent_content dirent.now) []) ≤ length out.old }
    requires short { length dirent.now.name.now ≤ 255 }
    ensures items { take result out.new ≡ take place out.old ++ spellings
        (dirent_fields (dirent_content dirent.now) []) }
    ensures place { result ≡ place + sizes (dirent_fields (dirent_content dirent.now) []) }
    ensures len { length out.new ≡ length out.old }
    ensures fits { InRange (dirent_fields (dirent_content dirent.now) []) }
{
    let len = dirent.name.len();
    let place = put_two_u64(out, place, dirent.ino, dirent.off);
    let place = put_two_u32(out, place, len as u32, dirent.kind);
    let place = put_bytes(out, place, dirent.name);
    put_zeros(out, place, (8 - len % 8) % 8)
}

/// Records, one after the other.
#[tactic(auto, using(std::proofs::Common::append_assoc))]
fn put_dirents(out: &mut [u8], place: usize, records: Records<'_>) -> usize
    requires { place + sizes (dirents (records_in records)) ≤ length out.old }
    ensures items { take result out.new ≡ take place out.old ++ spellings (dirents (records_in records.entry)) }
    ensures place { result ≡ place + sizes (dirents (records_in records.entry)) }
    ensures len { length out.new ≡ length out.old }
    ensures fits { InRange (dirents (records_in records.entry)) }
{
    let mut place = place;
    'records: for dirent in records {
        place = put_dirent(out, place, &dirent);
    }
    place
}

/// An entry and a record.
fn put_pair(out: &mut [u8], place: usize, pair: &DirentPlus<'_>) -> usize
    requires room { place + (128 + sizes (dirent_fields (dirent_content pair.now.dirent) [])) ≤ length out.old }
    requires short { length pair.now.dirent.name.now ≤ 255 }
    ensures items { take result out.new ≡ (take place out.old ++ spellings
        (entry_fields (entry_content pair.now.entry_out) [])) ++ spellings
        (dirent_fields (dirent_content pair.now.dirent) []) }
    ensures place { result ≡ place + (128 + sizes (dirent_fields (dirent_content pair.now.dirent) [])) }
    ensures len { length out.new ≡ length out.old }
    ensures fits { InRange (entry_fields (entry_content pair.now.entry_out) [])
        × InRange (dirent_fields (dirent_content pair.now.dirent) []) }
{
    let place = put_entry(out, place, &pair.entry_out);
    put_dirent(out, place, &pair.dirent)
}

/// Pairs of an entry and a record, one after the other.
fn put_direntpluses(out: &mut [u8], place: usize, records: RecordsPlus<'_>) -> usize
    requires { place + sizes (direntpluses (pluses_in records)) ≤ length out.old }
    ensures items { take result out.new ≡ take place out.old ++ spellings
        (direntpluses (pluses_in records.entry)) }
    ensures place { result ≡ place + sizes (direntpluses (pluses_in records.entry)) }
    ensures len { length out.new ≡ length out.old }
    ensures fits { InRange (direntpluses (pluses_in records.entry)) }
{
    let mut place = place;
    'pairs: for pair in records {
        place = put_pair(out, place, &pair);
    }
    place
}

/// The body of a reply.
#[tactic(auto, using(std::proofs::Common::append_assoc, fk_wire::proofs::Spelled::written_entries))]
fn put_body(out: &mut [u8], place: usize, body: &ReplyBody<'_>) -> usize
    requires { place + sizes (reply_body (reply_content body.now)) ≤ length out.old }
    ensures items { take result out.new ≡ take place out.old ++ spellings
        (reply_body (reply_content body.now)) }
    ensures place { result ≡ place + sizes (reply_body (reply_content body.now)) }
    ensures len { length out.new ≡ length out.old }
    ensures fits { InRange (reply_body (reply_content body.now)) }
{
    match body {
        ReplyBody::Empty => place,
        ReplyBody::Entry { entry } => put_entry(out, place, entry),
        ReplyBody::Attr { attr } => {
            let place = put_u64(out, place, 0);
            let place = put_two_u32(out, place, 0, 0);
            put_attr(out, place, attr)
        }
        ReplyBody::Open { fh } => put_open(out, place, *fh),
        ReplyBody::Bytes { bytes } => put_bytes(out, place, bytes),
        ReplyBody::Write { size } => put_two_u32(out, place, *size, 0),
        ReplyBody::Init {
            major,
            minor,
            flags,
        } => put_init(out, place, *major, *minor, *flags),
        ReplyBody::Create { entry, fh } => {
            let place = put_entry(out, place, entry);
            put_open(out, place, *fh)
        }
        ReplyBody::Records { records } => put_dirents(out, place, *records),
        ReplyBody::RecordsPlus { records } => put_direntpluses(out, place, *records),
    }
}

/// Writes the frame of a reply, which has a spelling, into a buffer of its length.
pub(crate) fn put_reply(out: &mut [u8], version: Minor, reply: &Reply<'_>)
    requires size { length out.old ≡ 16 + sizes (reply_body (reply_content reply.now.body)) }
    requires error { IsErrorNumber reply.now.error }
    requires known { IsTrue (knows_kind version (kind_of_content (reply_content reply.now.body))) }
    requires fits { FitsReply (reply_message reply.now) }
    ensures { WrittenReplyAt version (reply_message reply.now) out.new }
{
    let len = out.len() as u32;
    let word = error_word(reply.error);
    let place = put_u32(out, 0, len);
    let place = put_u32(out, place, word);
    let place = put_u64(out, place, reply.unique);
    let _ = put_body(out, place, &reply.body);
}
