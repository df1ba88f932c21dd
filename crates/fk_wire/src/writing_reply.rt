//! Replies as frames.

ghost use Rattle.std.specs.Prelude.{◌≡◌, ◌≢◌, ◌≤◌, ◌<◌, ◌+◌, ◌^◌, ◌++◌, ◌↔◌, ℕ, List, [], false, length};
ghost use Rattle.std.specs.Prelude.{IsTrue, OnOk, OnErr, IfErr, vec_len, vec_capacity};
ghost use Rattle.std.specs.Int.{cast_unsigned, w32};
ghost use Rattle.std.specs.Int.RustNames.{bit_and};
ghost use Rattle.fk_wire.specs.Fields.{InRange, bytes_of, sizes, spellings};
ghost use Rattle.fk_wire.specs.Requests.{known_flags};
ghost use Rattle.fk_wire.specs.Replies.{ReplyMessage, WrittenReply, WrittenReplyAt, GoesWith, SpellsReplyAt};
ghost use Rattle.fk_wire.specs.Replies.{IsReplyContent, reply_body, open_fields, init_fields, init_end, reply_content};
ghost use Rattle.fk_wire.specs.Replies.{kind_of_content, knows_kind, reply_message};
ghost use Rattle.fk_wire.specs.ReplyFaults.{ReplyRefusalIs, ReplyRefusalIsAt};
ghost use Rattle.fk_wire.specs.declared.reply.ReplyKind.TheVariants.{Empty as EmptyKind};
ghost use Rattle.fk_wire.specs.declared.fault.WireFault.TheVariants.{Memory as MemoryFault};
ghost use Rattle.fk_wire.specs.declared.opcode.Opcode.{Opcode};
ghost use Rattle.fk_wire.specs.declared.opcode.Minor.{Minor};

use crate::directory::{put_direntpluses, put_dirents};
use crate::entry::{is_timed, put_attr, put_entry};
use crate::fault::WireFault;
use crate::flags::InitFlags;
use crate::limits::{MAX_FRAME, is_error_number};
use crate::opcode::{Minor, Opcode, served_minor};
use crate::reading_reply::init_size;
use crate::reply::{Reply, ReplyBody};
use crate::room::{put_bytes, put_two_u32, put_u32, put_u64, put_zeros};
use byteorder::{ByteOrder, LittleEndian};
use std::alloc::Allocator;

/// The error number as the header has it.
pub(crate) fn error_word(error: i32) -> u32
    ensures { result ≡ cast_unsigned w32 error }
{
    error.cast_unsigned()
}

fn is_empty(body: &ReplyBody<'_>) -> bool
    ensures { IsTrue result ↔ (kind_of_content (reply_content body.now) ≡ EmptyKind) }
{
    matches!(body, ReplyBody::Empty)
}

/// Whether the minor version knows an opcode whose replies have such a body.
fn is_known_body(minor: Minor, body: &ReplyBody<'_>) -> bool
    ensures { IsTrue result ↔ IsTrue (knows_kind minor (kind_of_content (reply_content body.now))) }
{
    match minor {
        Minor::M31 => true,
        Minor::M15 => !matches!(body, ReplyBody::RecordsPlus { .. }),
    }
}

/// Whether the nanoseconds of the entries are less than a second.
#[tactic(auto, using(crate::proofs::RecordLists::pluses_are_timed))]
fn has_times(body: &ReplyBody<'_>) -> bool
    ensures { IsTrue result ↔ IsReplyContent (reply_content body.now) }
{
    match body {
        ReplyBody::Entry { entry } | ReplyBody::Create { entry, .. } => is_timed(entry),
        _ => true,
    }
}

/// How many bytes the body takes.
#[tactic(auto, using(crate::proofs::Spelled::sizes_of_entry))]
fn reply_size(body: &ReplyBody<'_>) -> usize
    ensures { result ≡ sizes (reply_body (reply_content body.now)) }
{
    match body {
        ReplyBody::Empty => 0,
        ReplyBody::Entry { .. } => 128,
        ReplyBody::Attr { .. } => 104,
        ReplyBody::Open { .. } => 16,
        ReplyBody::Bytes { bytes } => bytes.len(),
        ReplyBody::Write { .. } => 8,
        ReplyBody::Init { major, minor, .. } => init_size(*major, *minor) - 16,
        ReplyBody::Create { .. } => 144,
        ReplyBody::Records { records } => records.byte_len(),
        ReplyBody::RecordsPlus { records } => records.byte_len(),
    }
}

#[tactic(auto, using(std::proofs::Common::append_assoc))]
fn put_open<A: Allocator>(out: &mut Vec<u8, A>, fh: u64)
    requires { vec_len out.old + 16 ≤ vec_capacity out.old }
    ensures items { out.new.items ≡ out.old.items ++ spellings (open_fields fh) }
    ensures fits { InRange (open_fields fh) }
{
    put_u64(out, fh);
    put_two_u32(out, 0, 0);
}

/// The end of an INIT reply, which 7.15 does not have.
#[tactic(auto, using(std::proofs::Common::append_assoc))]
fn put_init_end<A: Allocator>(out: &mut Vec<u8, A>)
    requires { vec_len out.old + 40 ≤ vec_capacity out.old }
    ensures { out.new.items ≡ out.old.items ++ spellings (init_end false) }
{
    put_u32(out, 1);
    put_zeros(out, 2);
    put_zeros(out, 2);
    put_u32(out, 0);
    put_u32(out, 0);
    put_u32(out, 0);
    put_u32(out, 0);
    put_u32(out, 0);
    put_u32(out, 0);
    put_u32(out, 0);
    put_u32(out, 0);
}

#[tactic(auto, using(std::proofs::Common::append_assoc))]
fn put_init<A: Allocator>(out: &mut Vec<u8, A>, major: u32, minor: u32, flags: InitFlags)
    requires { vec_len out.old + sizes (init_fields major minor (bit_and flags.0 known_flags)) ≤ vec_capacity out.old }
    ensures items { out.new.items ≡ out.old.items ++ spellings (init_fields major minor (bit_and flags.0 known_flags)) }
    ensures fits { InRange (init_fields major minor (bit_and flags.0 known_flags)) }
{
    put_u32(out, major);
    put_u32(out, minor);
    put_u32(out, 0);
    put_u32(out, flags.known());
    put_zeros(out, 2);
    put_zeros(out, 2);
    put_u32(out, 4096);
    if init_size(major, minor) == 80 {
        put_init_end(out);
    }
}

#[tactic(auto, using(std::proofs::Common::append_assoc, crate::proofs::Spelled::written_entries))]
fn put_reply_body<A: Allocator>(out: &mut Vec<u8, A>, body: &ReplyBody<'_>)
    requires { vec_len out.old + sizes (reply_body (reply_content body.now)) ≤ vec_capacity out.old }
    ensures items { out.new.items ≡ out.old.items ++ spellings (reply_body (reply_content body.now)) }
    ensures fits { InRange (reply_body (reply_content body.now)) }
{
    match body {
        ReplyBody::Empty => {}
        ReplyBody::Entry { entry } => put_entry(out, entry),
        ReplyBody::Attr { attr } => {
            put_u64(out, 0);
            put_two_u32(out, 0, 0);
            put_attr(out, attr);
        }
        ReplyBody::Open { fh } => put_open(out, *fh),
        ReplyBody::Bytes { bytes } => put_bytes(out, bytes),
        ReplyBody::Write { size } => {
            put_u32(out, *size);
            put_u32(out, 0);
        }
        ReplyBody::Init {
            major,
            minor,
            flags,
        } => put_init(out, *major, *minor, *flags),
        ReplyBody::Create { entry, fh } => {
            put_entry(out, entry);
            put_open(out, *fh);
        }
        ReplyBody::Records { records } => put_dirents(out, *records),
        ReplyBody::RecordsPlus { records } => put_direntpluses(out, *records),
    }
}

/// A `struct fuse_out_header`.
#[inline(always)]
fn put_header<A: Allocator>(out: &mut Vec<u8, A>, len: u32, word: u32, unique: u64)
    requires { vec_len out.old + 16 ≤ vec_capacity out.old }
    ensures items { out.new.items ≡ out.old.items ++ (bytes_of 4 len ++ bytes_of 4 word ++ bytes_of 8 unique) }
    ensures fits { unique < 2 ^ 64 }
    ensures len { vec_len out.new ≡ vec_len out.old + 16 }
    ensures capacity { vec_capacity out.old ≤ vec_capacity out.new }
{
    let mut buf = [0u8; 16];
    LittleEndian::write_u32(&mut buf, len);
    LittleEndian::write_u32(&mut buf[4..], word);
    LittleEndian::write_u64(&mut buf[8..], unique);
    put_bytes(out, &buf);
}

/// Appends the frame of a reply, of 7.31.
///
/// # Errors
///
/// The first of `ErrorRange`, `Opcode`, `Body` and `Memory` that applies. The vector is as before.
pub fn write_reply<A: Allocator>(out: &mut Vec<u8, A>, reply: &Reply<'_>) -> Result<(), WireFault>
    ensures ok { OnOk result ((frame : List ℕ) × WrittenReply (reply_message reply.now) frame
        × (out.new.items ≡ out.old.items ++ frame)) }
    ensures err { OnErr result (out.new.items ≡ out.old.items) }
    ensures fault { IfErr result (ReplyRefusalIs (reply_message reply.now)) }
    // Where the vector has room, memory does not run out.
    ensures room { vec_len out.old + (16 + sizes (reply_body (reply_content reply.now.body))) ≤ vec_capacity out.old
        → result ≢ Err MemoryFault }
{
    write_reply_at(served_minor(), out, reply)
}

/// Appends the frame of a reply of a minor version, as `write_reply` does.
///
/// # Errors
///
/// As `write_reply`; `Opcode` also for a body that only replies to opcodes have which the version does
/// not know.
#[tactic(auto, using(crate::proofs::ReplyNames::names_hold))]
pub fn write_reply_at<A: Allocator>(
    minor: Minor,
    out: &mut Vec<u8, A>,
    reply: &Reply<'_>,
) -> Result<(), WireFault>
    ensures ok { OnOk result ((frame : List ℕ) × WrittenReplyAt minor (reply_message reply.now) frame
        × (out.new.items ≡ out.old.items ++ frame)) }
    ensures err { OnErr result (out.new.items ≡ out.old.items) }
    ensures fault { IfErr result (ReplyRefusalIsAt minor (reply_message reply.now)) }
    ensures room { vec_len out.old + (16 + sizes (reply_body (reply_content reply.now.body))) ≤ vec_capacity out.old
        → result ≢ Err MemoryFault }
{
    if !is_error_number(reply.error) {
        return Err(WireFault::ErrorRange);
    }
    if !is_known_body(minor, &reply.body) {
        return Err(WireFault::Opcode);
    }
    let word = error_word(reply.error);
    if word != 0 && !is_empty(&reply.body) {
        return Err(WireFault::Body);
    }
    if !has_times(&reply.body) {
        return Err(WireFault::Body);
    }
    let size = reply_size(&reply.body);
    if size > MAX_FRAME - 16 {
        return Err(WireFault::Body);
    }
    out.reserve(16 + size).map_err(|_| WireFault::Memory)?;
    put_header(out, 16 + size as u32, word, reply.unique);
    put_reply_body(out, &reply.body);
    Ok(())
}

/// Every frame in which a reply is written spells that reply, under each opcode that it goes with.
pub fn written_reply_is_spelled()
    ensures { (minor : Minor) (o : Opcode) (t : ReplyMessage) (bytes : List ℕ) → GoesWith minor o t
        → WrittenReplyAt minor t bytes → SpellsReplyAt minor o bytes t }
{}
