//! What a reply says, in words.

ghost use Rattle.std.specs.Prelude.{◌≡◌, ◌++◌, OnOk, codes, flat_map};
ghost use Rattle.std.specs.Io.KnownBytes.{Appends};
ghost use Rattle.fuse_replies.specs.Record.{entry_record_content, record_content};
ghost use Rattle.fuse_replies.specs.Records.{entry_records_in, records_in};
ghost use Rattle.fuse_replies.specs.Replies.{answer_content, reply_message};
ghost use Rattle.frame_words.specs.Replies.{answer_words, attributes_words, entry_record_words, entry_words, found_words, init_reply_words, missing_words, mode_word, opened_words, record_words, reply_words, result_words, type_word, validity_words};

use crate::errors::write_error;
use crate::init_flags::write_init_flags;
use crate::words::{write_data, write_number};
use fuse_protocol::{InitReply, Opcode};
use fuse_replies::{
    Answer, Attributes, Entry, EntryRecord, EntryRecords, Opened, Record, Records, Reply, Validity,
};
use fuse_text::print_name;
use std::io;
use std::io::Write;

/// The type bits of a mode: octal 0170000.
const TYPE_BITS: u32 = 61440;

/// The kind of a file, by the four type bits.
#[tactic(auto, unfolding(crate::specs::Replies::type_word))]
fn word_of_type(kind: u32) -> &'static str
    ensures { result.now ≡ type_word kind }
{
    match kind {
        1 => "fifo",
        2 => "char",
        4 => "dir",
        6 => "block",
        8 => "file",
        10 => "link",
        12 => "socket",
        _ => "unknown",
    }
}

/// The kind of a file, by its mode.
fn word_of_mode(mode: u32) -> &'static str
    ensures { result.now ≡ mode_word mode }
{
    word_of_type((mode & TYPE_BITS) / 4096)
}

/// Writes ` KIND ino INO size SIZE nlink NLINK`.
#[tactic(auto, unfolding(crate::specs::Replies::attributes_words))]
fn write_attributes<W: Write>(out: &mut W, attributes: Attributes) -> io::Result<()>
    ensures { OnOk result (Appends (W.contents out.old) (W.contents out.new) (attributes_words attributes)) }
{
    let kind = word_of_mode(attributes.mode);
    write!(out, " {kind}")?;
    write_number(out, "ino", attributes.ino)?;
    write_number(out, "size", attributes.size)?;
    write_number(out, "nlink", u64::from(attributes.nlink))
}

/// Writes ` valid MS ms`.
#[tactic(auto, unfolding(crate::specs::Replies::validity_words))]
fn write_validity<W: Write>(out: &mut W, validity: Validity) -> io::Result<()>
    ensures { OnOk result (Appends (W.contents out.old) (W.contents out.new) (validity_words validity)) }
{
    let valid = u128::from(validity.seconds) * 1000 + u128::from(validity.nanoseconds / 1_000_000);
    write!(out, " valid {valid} ms")
}

/// Writes ` entry node 0 valid MS ms`.
#[tactic(auto, unfolding(crate::specs::Replies::missing_words))]
fn write_missing<W: Write>(out: &mut W, entry: Entry) -> io::Result<()>
    ensures { OnOk result (Appends (W.contents out.old) (W.contents out.new) (missing_words entry)) }
{
    out.write_all(b" entry node 0")?;
    write_validity(out, entry.name_validity)
}

/// Writes an entry's node, for how long its name is valid, and the file's attributes.
#[tactic(auto, unfolding(crate::specs::Replies::found_words))]
fn write_found<W: Write>(out: &mut W, entry: Entry) -> io::Result<()>
    ensures { OnOk result (Appends (W.contents out.old) (W.contents out.new) (found_words entry)) }
{
    out.write_all(b" entry")?;
    write_number(out, "node", entry.nodeid)?;
    write_number(out, "generation", entry.generation)?;
    write_validity(out, entry.name_validity)?;
    write_attributes(out, entry.attributes)
}

/// Writes an entry, of a missing name its validity alone.
fn write_entry<W: Write>(out: &mut W, entry: Entry) -> io::Result<()>
    ensures { OnOk result (Appends (W.contents out.old) (W.contents out.new) (entry_words entry)) }
{
    if entry.nodeid == 0 {
        write_missing(out, entry)
    } else {
        write_found(out, entry)
    }
}

/// Writes ` fh FH`.
fn write_opened<W: Write>(out: &mut W, opened: Opened) -> io::Result<()>
    ensures { OnOk result (Appends (W.contents out.old) (W.contents out.new) (opened_words opened)) }
{
    write_number(out, "fh", opened.handle)
}

/// Writes ` NAME:OFF:KIND`.
fn write_record<W: Write>(out: &mut W, listed: Record<'_>) -> io::Result<()>
    ensures { OnOk result (Appends (W.contents out.old) (W.contents out.new) (record_words (record_content listed.entry))) }
{
    let off = listed.off;
    let kind = word_of_type(listed.kind);
    out.write_all(b" ")?;
    print_name(out, listed.name)?;
    write!(out, ":{off}:{kind}")
}

/// Writes each record.
fn write_records<W: Write>(out: &mut W, records: Records<'_>) -> io::Result<()>
    ensures { OnOk result (Appends (W.contents out.old) (W.contents out.new)
        (flat_map record_words (records_in records.entry))) }
{
    for listed in records {
        write_record(out, listed)?;
    }
    Ok(())
}

/// Writes a record and its entry.
fn write_entry_record<W: Write>(out: &mut W, pair: EntryRecord<'_>) -> io::Result<()>
    ensures { OnOk result (Appends (W.contents out.old) (W.contents out.new)
        (entry_record_words (entry_record_content pair.entry))) }
{
    write_record(out, pair.record)?;
    write_entry(out, pair.entry)
}

/// Writes each record and its entry.
fn write_entry_records<W: Write>(out: &mut W, records: EntryRecords<'_>) -> io::Result<()>
    ensures { OnOk result (Appends (W.contents out.old) (W.contents out.new)
        (flat_map entry_record_words (entry_records_in records.entry))) }
{
    for pair in records {
        write_entry_record(out, pair)?;
    }
    Ok(())
}

/// Writes what INIT agrees on.
#[tactic(auto, unfolding(crate::specs::Replies::init_reply_words))]
fn write_init_reply<W: Write>(out: &mut W, init: InitReply) -> io::Result<()>
    ensures { OnOk result (Appends (W.contents out.old) (W.contents out.new) (init_reply_words init)) }
{
    write_number(out, "major", u64::from(init.major))?;
    write_number(out, "minor", u64::from(init.minor))?;
    write_number(out, "max_write", u64::from(init.max_write))?;
    write_init_flags(out, init.flags)
}

/// Writes what a reply says, each word after a space.
fn write_answer<W: Write>(out: &mut W, answer: Answer<'_>) -> io::Result<()>
    ensures { OnOk result (Appends (W.contents out.old) (W.contents out.new) (answer_words (answer_content answer.entry))) }
{
    match answer {
        Answer::Failed(_) | Answer::Done => out.write_all(b""),
        Answer::Entry(entry) => write_entry(out, entry),
        Answer::Attributes(valid) => {
            out.write_all(b" attr")?;
            write_attributes(out, valid.attributes)
        }
        Answer::Opened(opened) => write_opened(out, opened),
        Answer::Created(entry, opened) => {
            write_entry(out, entry)?;
            write_opened(out, opened)
        }
        Answer::Number(number) => write_number(out, "size", number),
        Answer::Bytes(bytes) => write_data(out, bytes),
        Answer::Records(records) => write_records(out, records),
        Answer::EntryRecords(records) => write_entry_records(out, records),
        Answer::Init(init) => write_init_reply(out, init),
    }
}

/// Writes the name of the error, or 0.
fn write_result<W: Write>(out: &mut W, answer: &Answer<'_>) -> io::Result<()>
    ensures { OnOk result (Appends (W.contents out.old) (W.contents out.new) (result_words (answer_content answer.now))) }
{
    match answer {
        Answer::Failed(errno) => write_error(out, *errno),
        _ => out.write_all(b"0"),
    }
}

/// Writes `OPNAME UNIQUE ERROR LEN` of a reply to a request of an opcode, in a frame of so many bytes, and then what it
/// says, each word after a space. The error is 0 or has its name.
///
/// # Errors
///
/// Where `out` refuses.
pub(crate) fn write_reply<W: Write>(
    out: &mut W,
    opcode: Opcode,
    reply: &Reply<'_>,
    len: usize,
) -> io::Result<()>
    ensures { OnOk result (Appends (W.contents out.old) (W.contents out.new)
        (reply_words opcode (reply_message reply.now) len)) }
{
    let name = opcode.name();
    let unique = reply.unique;
    write!(out, "{name} {unique} ")?;
    write_result(out, &reply.answer)?;
    write!(out, " {len}")?;
    write_answer(out, reply.answer)
}
