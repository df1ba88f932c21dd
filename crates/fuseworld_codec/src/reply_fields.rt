//! A reply that was read, in the struct that crosses to C.

ghost use Rattle.std.specs.Prelude.{◌≡◌, ◌≤◌, length};
ghost use Rattle.fk_wire.specs.Fields.{ReadsAs};
ghost use Rattle.fk_wire.specs.Entries.{entry_content};
ghost use Rattle.fk_wire.specs.Replies.{HasReplyNames, IsReplyContent, reply_body, reply_content, reply_message};
ghost use Rattle.fuseworld_codec.specs.ReplyStructs.{HasReplyPlace, IsReplyStruct, attr_said, counted_reply};
ghost use Rattle.fuseworld_codec.specs.ReplyStructs.{entry_said, no_entry, reply_head};

use crate::layout::{FlatAttr, FlatEntry, FlatReply};
use crate::request_fields::known_bits;
use fk_wire::{Attr, Entry, Reply, ReplyBody};

/// No attributes.
const NO_ATTR: FlatAttr = FlatAttr {
    ino: 0,
    size: 0,
    mode: 0,
    nlink: 0,
};

/// No entry.
const NO_ENTRY: FlatEntry = FlatEntry {
    nodeid: 0,
    generation: 0,
    entry_valid: 0,
    entry_valid_nsec: 0,
    padding: 0,
    attr: NO_ATTR,
};

fn flat_attr(attr: Attr) -> FlatAttr
    ensures { attr_said result ≡ attr }
{
    FlatAttr {
        ino: attr.ino,
        size: attr.size,
        mode: attr.mode,
        nlink: attr.nlink,
    }
}

pub(crate) fn flat_entry(entry: Entry) -> FlatEntry
    ensures says { entry_said result ≡ entry_content entry }
    ensures padding { result.padding ≡ 0 }
{
    FlatEntry {
        nodeid: entry.nodeid,
        generation: entry.generation,
        entry_valid: entry.entry_valid,
        entry_valid_nsec: entry.entry_valid_nsec,
        padding: 0,
        attr: flat_attr(entry.attr),
    }
}

/// A struct of this opcode, with the reply's unique and error, that says nothing more.
fn plain(opcode: u32, reply: &Reply<'_>) -> FlatReply
    ensures { result ≡ reply_head opcode reply.now.unique reply.now.error }
{
    FlatReply {
        unique: reply.unique,
        error: reply.error,
        opcode,
        entry: NO_ENTRY,
        fh: 0,
        data_offset: 0,
        data_length: 0,
        size: 0,
        major: 0,
        minor: 0,
        flags: 0,
    }
}

/// The struct of a reply whose data follow its header.
fn with_data(opcode: u32, reply: &Reply<'_>, len: usize) -> FlatReply
    ensures { result ≡ record (reply_head opcode reply.now.unique reply.now.error) {
      data_offset = 16;
      data_length = len;
    } }
{
    FlatReply {
        data_offset: 16,
        data_length: len,
        ..plain(opcode, reply)
    }
}

/// The struct of a reply with an entry, an open file or both.
fn with_entry(opcode: u32, reply: &Reply<'_>, entry: FlatEntry, fh: u64) -> FlatReply
    ensures { result ≡ record (reply_head opcode reply.now.unique reply.now.error) { entry = entry; fh = fh } }
{
    FlatReply {
        entry,
        fh,
        ..plain(opcode, reply)
    }
}

/// An entry of which only the attributes count.
fn only_attr(attr: Attr) -> FlatEntry
    ensures says { attr_said result.attr ≡ attr }
    ensures others { result ≡ record no_entry { attr = result.attr } }
{
    FlatEntry {
        attr: flat_attr(attr),
        ..NO_ENTRY
    }
}

/// The struct of a reply whose frame the bytes are.
#[tactic(auto, using(crate::proofs::Places::reply_places, fk_wire::proofs::Masks::and_again))]
pub(crate) fn flat_of(opcode: u32, reply: &Reply<'_>, frame: &[u8]) -> FlatReply
    requires length { 16 ≤ length frame.now }
    requires entries { IsReplyContent (reply_content reply.now.body) }
    requires names { HasReplyNames (reply_content reply.now.body) }
    requires body { ReadsAs 16 (reply_body (reply_content reply.now.body)) frame.now }
    ensures says { IsReplyStruct result frame.now (reply_message reply.now) }
    ensures opcode { result.opcode ≡ opcode }
    ensures place { HasReplyPlace result frame.now }
    ensures others { result ≡ counted_reply (reply_content reply.now.body) result }
{
    match reply.body {
        ReplyBody::Empty => plain(opcode, reply),
        ReplyBody::Entry { entry } => with_entry(opcode, reply, flat_entry(entry), 0),
        ReplyBody::Attr { attr } => with_entry(opcode, reply, only_attr(attr), 0),
        ReplyBody::Open { fh } => with_entry(opcode, reply, NO_ENTRY, fh),
        ReplyBody::Bytes { bytes } => with_data(opcode, reply, bytes.len()),
        ReplyBody::Write { size } => FlatReply {
            size,
            ..plain(opcode, reply)
        },
        ReplyBody::Init {
            major,
            minor,
            flags,
        } => FlatReply {
            major,
            minor,
            flags: known_bits(flags),
            ..plain(opcode, reply)
        },
        ReplyBody::Create { entry, fh } => with_entry(opcode, reply, flat_entry(entry), fh),
        ReplyBody::Records { .. } | ReplyBody::RecordsPlus { .. } => {
            with_data(opcode, reply, frame.len() - 16)
        }
    }
}
