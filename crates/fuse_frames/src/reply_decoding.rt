//! What the bytes of a reply say.

ghost use Rattle.std.specs.Prelude.{◌≡◌, false, pos, IfSome, IfNone, MatchOption};
ghost use Rattle.fk_wire.specs.Entries.{entry_content};
ghost use Rattle.fk_wire.specs.Replies.{ReplyContent, IsErrorNumber, reply_content, entry_reply, create_reply};
ghost use Rattle.fk_wire.specs.ReplyFaults.{IsReplyHead};
ghost use Rattle.fuse_spec.specs.Kernel.Messages.{WireReply, asks};
ghost use Rattle.fuse_spec.specs.Files.Operations as reply;
ghost use Rattle.fuse_spec.specs.Kernel.Replies.{goes_with};
ghost use Rattle.fuse_frames.specs.ReplyTies.{wire_body, wire_said, no_entry};
ghost use Rattle.fuse_frames.specs.RequestTies.{asked_opcode};
ghost use Rattle.fuse_spec.specs.Files.Operations.{operation_of};
ghost use Rattle.fuse_frames.specs.DecodedReplies.{Says, IsNoReply};
ghost use Rattle.fuse_frames.specs.ReplyDecoding.{decoded_wire_of, LastsADay, SaysTo, is_within_request};

use crate::operations::opcode_asked;
use crate::reply::Reply;
use crate::reply_body::{attributes_of, entry_named, milliseconds};
use fk_wire::{Opcode, Records, RecordsPlus, ReplyBody, ReplyHead, read_reply_body};
use fuse_spec::{Attributes, Entry, Kind, Operation};

/// What a reply says, borrowed from its frame.
pub type DecodedReply<'a> = Reply<Entry, Records<'a>, RecordsPlus<'a>, &'a [u8]>;

/// No file, where an entry names none.
fn no_file() -> Entry
    ensures { result ≡ no_entry }
{
    Entry {
        nodeid: 0,
        generation: 0,
        attributes: Attributes {
            kind: Kind::Other,
            ino: 0,
            size: 0,
            nlink: 0,
        },
    }
}

/// What an entry says: with node id 0 the name is missing.
fn said_by_entry(entry: &fk_wire::Entry) -> DecodedReply<'static>
    ensures wire { wire_body (entry_reply (entry_content entry.now)) ≡ decoded_wire_of result }
    ensures day { LastsADay result }
{
    let valid_ms = milliseconds(entry.entry_valid, entry.entry_valid_nsec);
    if entry.nodeid == 0 {
        return Reply::Negative { valid_ms };
    }
    let file = entry_named(entry);
    Reply::Entry { file, valid_ms }
}

/// What an entry with a file handle says.
fn said_by_create(entry: &fk_wire::Entry, fh: u64) -> DecodedReply<'static>
    ensures wire { wire_body (create_reply (entry_content entry.now) fh) ≡ decoded_wire_of result }
    ensures day { LastsADay result }
{
    let valid_ms = milliseconds(entry.entry_valid, entry.entry_valid_nsec);
    let file = if entry.nodeid == 0 {
        no_file()
    } else {
        entry_named(entry)
    };
    Reply::Created { file, valid_ms, fh }
}

/// What a body says.
#[inline(always)]
fn decode_body(body: ReplyBody<'_>) -> DecodedReply<'_>
    ensures wire { wire_body (reply_content body.entry) ≡ decoded_wire_of result }
    ensures day { LastsADay result }
{
    match body {
        ReplyBody::Empty => Reply::Done,
        ReplyBody::Entry { entry } => said_by_entry(&entry),
        ReplyBody::Attr { attr } => Reply::Attributes(attributes_of(&attr)),
        ReplyBody::Open { fh } => Reply::Opened { fh },
        ReplyBody::Bytes { bytes } => Reply::Content(bytes),
        ReplyBody::Write { size } => Reply::Written { size },
        ReplyBody::Init {
            major,
            minor,
            flags,
        } => Reply::Agreed {
            major,
            minor,
            flags,
        },
        ReplyBody::Create { entry, fh } => said_by_create(&entry, fh),
        ReplyBody::Records { records } => Reply::Listed(records),
        ReplyBody::RecordsPlus { records } => Reply::ListedPlus(records),
    }
}

/// The error number that stands in a reply, if it is not 0.
#[inline(always)]
fn failure(error: i32) -> Option<u32>
    requires { IsErrorNumber error }
    ensures { MatchOption result (error ≡ pos 0) (λ errno. (content : ReplyContent)
        → wire_said error content ≡ reply.failed errno) }
{
    if error == 0 {
        return None;
    }
    Some(error.unsigned_abs())
}

/// What the bytes, whose head was read, say to a request of this opcode, if they are a reply to it.
#[inline(always)]
pub fn decode_reply<'a>(
    opcode: Opcode,
    head: ReplyHead,
    bytes: &'a [u8],
) -> Option<DecodedReply<'a>>
    requires { IsReplyHead bytes.now head }
    ensures said { IfSome result (λ said. Says opcode bytes.now (decoded_wire_of said)) }
    ensures day { IfSome result LastsADay }
    ensures none { IfNone result (IsNoReply opcode bytes.now) }
{
    let Ok(body) = read_reply_body(head, opcode, bytes) else {
        return None;
    };
    if let Some(errno) = failure(head.error) {
        return Some(Reply::Failed { errno });
    }
    Some(decode_body(body))
}

/// Whether a body in a frame of this many bytes is no longer than was asked, nor says that more was written than was
/// sent.
#[inline(always)]
fn is_within_asked(asked: &Operation<&[u8]>, len: usize, body: &ReplyBody<'_>) -> bool
    ensures { result ≡ is_within_request (operation_of (λ s. s.now) asked.now) len (reply_content body.now) }
{
    match asked {
        Operation::Readdir { size, .. }
        | Operation::Readdirplus { size, .. }
        | Operation::Read { size, .. } => len.saturating_sub(16) <= *size as usize,
        Operation::Write { bytes, .. } => match body {
            ReplyBody::Write { size } => *size as usize <= bytes.len(),
            _ => true,
        },
        _ => true,
    }
}

/// What the bytes, whose head was read, say to what a call asked, if they are a reply that goes with it.
#[inline(always)]
pub fn reply_to_call<'a>(
    asked: &Operation<&[u8]>,
    head: ReplyHead,
    bytes: &'a [u8],
) -> Option<DecodedReply<'a>>
    requires { IsReplyHead bytes.now head }
    ensures said { IfSome result (SaysTo (operation_of (λ s. s.now) asked.now) bytes.now) }
    ensures none { IfNone result ((wire : WireReply)
        → Says (asked_opcode (asks (operation_of (λ s. s.now) asked.now))) bytes.now wire
        → goes_with (operation_of (λ s. s.now) asked.now) wire ≡ false) }
{
    let Ok(body) = read_reply_body(head, opcode_asked(asked), bytes) else {
        return None;
    };
    if let Some(errno) = failure(head.error) {
        return Some(Reply::Failed { errno });
    }
    if !is_within_asked(asked, bytes.len(), &body) {
        return None;
    }
    Some(decode_body(body))
}
