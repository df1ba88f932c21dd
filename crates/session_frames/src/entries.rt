//! The acts of entries.

ghost use Rattle.std.specs.Prelude.{◌≡◌, ◌++◌, IfOk, OnOk, flat_map, map};
ghost use Rattle.fuse_replies.specs.Record.{entry_record_content};
ghost use Rattle.fuse_replies.specs.Records.{entry_records_in};
ghost use Rattle.fuse_sessions.specs.ReplyActs as words;
ghost use Rattle.session_frames.specs.Offsets.{AreOffsets};

use crate::listings::{Offsets, no_offsets, with_offset};
use crate::writing::write;
use fuse_protocol::Opcode;
use fuse_replies::{Attributes, Entry, EntryRecord, EntryRecords};
use fuse_sessions::{Act, Asked, Fault, File};
use std::alloc::{AllocError, Allocator};

/// The type's bits of a mode (stat(2)).
const TYPE_BITS: u32 = 0o170000;

/// The kind of a file.
pub(crate) fn kind_of(attributes: &Attributes) -> u32
    ensures { result ≡ words.kind_of attributes.now }
{
    attributes.mode & TYPE_BITS
}

/// Whether a file has this kind.
fn is_kind(kind: u32) -> bool
    ensures { result ≡ words.is_kind kind }
{
    kind == 0o010000
        || kind == 0o020000
        || kind == 0o040000
        || kind == 0o060000
        || kind == 0o100000
        || kind == 0o120000
        || kind == 0o140000
}

/// What must stay as it is while the node of an entry is counted.
fn file_of(entry: &Entry) -> File
    ensures { result ≡ words.file_of entry.now }
{
    File {
        generation: entry.generation,
        kind: kind_of(&entry.attributes),
        ino: entry.attributes.ino,
    }
}

/// Whether the file of an entry is of the kind that its request makes.
fn is_made(asked: &Asked, entry: &Entry) -> bool
    ensures { result ≡ words.is_made asked.now entry.now }
{
    asked.makes == 0 || asked.makes == u64::from(kind_of(&entry.attributes))
}

/// Whether Linux counts the node of an entry for certain.
fn is_counted(asked: &Asked, entry: &Entry) -> bool
    ensures { result ≡ words.is_counted asked.now entry.now }
{
    is_kind(kind_of(&entry.attributes)) && is_made(asked, entry) && entry.attributes.size < 1 << 63
}

/// Whether Linux opens the file of an entry that it created.
pub(crate) fn is_opened(asked: &Asked, entry: &Entry) -> bool
    ensures { result ≡ words.is_opened asked.now entry.now }
{
    is_counted(asked, entry) && entry.nodeid != 0 && entry.nodeid != 1
}

/// Whether an entry of node 0 may stand in a reply to a request of an opcode.
fn may_be_missing(opcode: Opcode) -> bool
    ensures { result ≡ words.may_be_missing opcode }
{
    matches!(opcode, Opcode::Lookup | Opcode::Readdirplus)
}

/// The kind of an entry's file.
fn write_kind<A: Allocator + Copy>(
    acts: &mut Vec<Act, A>,
    asked: &Asked,
    entry: &Entry,
) -> Result<(), AllocError>
    ensures { OnOk result (acts.new.items ≡ acts.old.items ++ words.kind_acts asked.now entry.now) }
{
    if !is_kind(kind_of(&entry.attributes)) {
        write(acts, Act::Faulty(Fault::EntryOfNoKind))
    } else if !is_made(asked, entry) {
        write(acts, Act::Faulty(Fault::EntryOfAnotherKind))
    } else {
        Ok(())
    }
}

/// An entry of a node that is neither 0 nor the root.
fn write_gift<A: Allocator + Copy>(
    acts: &mut Vec<Act, A>,
    certain: bool,
    asked: &Asked,
    entry: &Entry,
) -> Result<(), AllocError>
    ensures { OnOk result (acts.new.items ≡ acts.old.items ++ words.gift_acts certain asked.now entry.now) }
{
    write_kind(acts, asked, entry)?;
    let gives = Act::Gives {
        nodeid: entry.nodeid,
        file: file_of(entry),
        is_certain: certain && is_counted(asked, entry),
    };
    write(acts, gives)
}

/// An entry of the root.
fn write_root<A: Allocator + Copy>(acts: &mut Vec<Act, A>, asked: &Asked) -> Result<(), AllocError>
    ensures { OnOk result (acts.new.items ≡ acts.old.items ++ words.root_acts asked.now) }
{
    if asked.is_dots {
        Ok(())
    } else {
        write(acts, Act::Faulty(Fault::EntryOfTheRoot))
    }
}

/// An entry in a reply to a request of an opcode. Whether Linux comes to it is certain, or not.
pub(crate) fn write_entry<A: Allocator + Copy>(
    acts: &mut Vec<Act, A>,
    certain: bool,
    opcode: Opcode,
    asked: &Asked,
    entry: &Entry,
) -> Result<(), AllocError>
    ensures { OnOk result (acts.new.items ≡ acts.old.items ++ words.entry_acts certain opcode asked.now entry.now) }
{
    if entry.nodeid == 1 {
        write_root(acts, asked)
    } else if entry.nodeid != 0 {
        write_gift(acts, certain, asked, entry)
    } else if may_be_missing(opcode) {
        Ok(())
    } else {
        write(acts, Act::Faulty(Fault::EntryOfNoNode))
    }
}

/// A record of a listing with its entry.
fn write_record<A: Allocator + Copy>(
    acts: &mut Vec<Act, A>,
    certain: bool,
    asked: &Asked,
    listed: &EntryRecord<'_>,
) -> Result<(), AllocError>
    ensures { OnOk result (acts.new.items
        ≡ acts.old.items ++ words.record_acts certain asked.now (entry_record_content listed.now)) }
{
    let name = listed.record.name;
    if name == b".".as_slice() || name == b"..".as_slice() {
        Ok(())
    } else {
        write_entry(acts, certain, Opcode::Readdirplus, asked, &listed.entry)
    }
}

/// The records of a listing. Returns what their offsets come to.
pub(crate) fn write_records<A: Allocator + Copy>(
    acts: &mut Vec<Act, A>,
    certain: bool,
    asked: &Asked,
    records: EntryRecords<'_>,
) -> Result<Offsets, AllocError>
    ensures acts { OnOk result (acts.new.items
        ≡ acts.old.items ++ flat_map (words.record_acts certain asked.now) (entry_records_in records.entry)) }
    ensures offsets { IfOk result (λ o. AreOffsets o (map (λ r. r.said.off) (entry_records_in records.entry))) }
{
    let mut offsets = no_offsets();
    let mut left = records;
    'records: while let Some(record) = left.next() {
        offsets = with_offset(offsets, record.record.off);
        write_record(acts, certain, asked, &record)?;
    }
    Ok(offsets)
}
