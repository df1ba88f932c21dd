//! Records as the lines that are printed.

ghost use Rattle.std.specs.Prelude.{◌≡◌, ◌+◌, ◌≤◌, ◌++◌, ◌↔◌, [], All, IsTrue, OnErr, OnOk};
ghost use Rattle.std.specs.Prelude.{codes, decimal, flat_map, length, map, option_copied};
ghost use Rattle.std.specs.Io.KnownBytes.{Appends};
ghost use Rattle.fk_syscalls.specs.Listings.{listed_dirent};
ghost use Rattle.fuse_text.specs.HexTexts.{hex_or_none};
ghost use Rattle.fw_script.specs.Chunks.{AppendsBut};
ghost use Rattle.fuse_text.specs.Outputs.{AppendsSome};
ghost use Rattle.fw_script.specs.Records.{answer_text, event_text, frame_text, outcome_line, put_text, record_text};
ghost use Rattle.fw_script.specs.Records.{attributes_words, kind_word, listed_words, refusal_name, refusal_number};
ghost use Rattle.fw_script.specs.Records.{shown_byte};

use crate::chunk::Chunk;
use crate::print::{
    name_of_refusal, number_of_refusal, put_attributes, put_kind_word, put_outcome_line,
};
use fuse_text::{OutputRefused, ShortText, write_hex, write_hex_or_none, write_text};
use fw_world::{Answer, Attributes, Kind, ListedName, Listing, Outcome, Record, Refusal};
use std::alloc::Allocator;
use std::io::Write;

/// The most bytes of a listed name that is written at once.
const SHORT: usize = 64;

/// How a byte of a name is printed: `?` stands for one outside 33 to 126.
fn shown(byte: u8) -> u8
    ensures { result ≡ shown_byte byte }
{
    if 33 <= byte && byte <= 126 {
        byte
    } else {
        b'?'
    }
}

/// Whether each byte of a name is printed as it is.
fn is_shown_as_is(name: &[u8]) -> bool
    ensures { IsTrue result ↔ All (λ byte. shown_byte byte ≡ byte) name.now }
{
    name.iter().all(|byte| shown(*byte) == *byte)
}

/// Writes a name.
fn write_name<W: Write>(out: &mut W, name: &[u8]) -> Result<(), OutputRefused>
    ensures ok { OnOk result (Appends (W.contents out.old) (W.contents out.new) (map shown_byte name.now)) }
    ensures refused { OnErr result (AppendsSome (W.contents out.old) (W.contents out.new) (map shown_byte name.now)) }
{
    if is_shown_as_is(name) {
        return write_text(out, name);
    }
    for byte in name {
        write_text(out, &[shown(*byte)])?;
    }
    Ok(())
}

/// Puts what follows a listed name, as `:OFF:KIND`, into a text.
#[inline(always)]
fn put_place(text: &mut ShortText, offset: u64, kind: Kind)
    requires { text.old ≡ [] }
    ensures text { text.new ≡ codes ":" ++ decimal offset ++ codes ":" ++ kind_word kind }
    ensures room { length text.new ≤ 36 }
{
    put_kind_word(text, kind);
    text.put_byte(b':');
    text.put_number(offset);
    text.put_byte(b':');
}

/// Writes what follows a listed name, as `:OFF:KIND`.
fn write_place<W: Write>(out: &mut W, offset: u64, kind: Kind) -> Result<(), OutputRefused>
    ensures ok { OnOk result (Appends (W.contents out.old) (W.contents out.new)
        (codes ":" ++ decimal offset ++ codes ":" ++ kind_word kind)) }
    ensures refused { OnErr result (AppendsSome (W.contents out.old) (W.contents out.new)
        (codes ":" ++ decimal offset ++ codes ":" ++ kind_word kind)) }
{
    let mut text = ShortText::new();
    put_place(&mut text, offset, kind);
    write_text(out, text.bytes())
}

/// Writes a listed name, as ` NAME:OFF:KIND`, whose name is not short or is not printed as it is.
#[cold]
fn write_long<W: Write>(out: &mut W, listed: &ListedName<'_>) -> Result<(), OutputRefused>
    ensures ok { OnOk result (Appends (W.contents out.old) (W.contents out.new) (listed_words (listed_dirent listed.now))) }
    ensures refused { OnErr result (AppendsSome (W.contents out.old) (W.contents out.new) (listed_words (listed_dirent listed.now))) }
{
    write_text(out, b" ")?;
    write_name(out, listed.name)?;
    write_place(out, listed.offset, listed.kind)
}

/// Writes what a chunk holds, and empties it.
#[cold]
fn write_chunk<W: Write>(out: &mut W, chunk: &mut Chunk) -> Result<(), OutputRefused>
    ensures ok { OnOk result (Appends (W.contents out.old) (W.contents out.new) chunk.old) }
    ensures empty { OnOk result (chunk.new ≡ []) }
    ensures refused { OnErr result (AppendsSome (W.contents out.old) (W.contents out.new) chunk.old) }
{
    write_text(out, chunk.bytes())?;
    chunk.clear();
    Ok(())
}

/// Makes room in a chunk for this many bytes, by writing what it holds where they lack it.
#[inline(always)]
fn make_room<W: Write>(out: &mut W, chunk: &mut Chunk, len: usize) -> Result<(), OutputRefused>
    requires { len ≤ 512 }
    ensures ok { OnOk result (AppendsBut (W.contents out.old) (W.contents out.new) chunk.old chunk.new) }
    ensures room { OnOk result (len + length chunk.new ≤ 512) }
    ensures refused { OnErr result (AppendsSome (W.contents out.old) (W.contents out.new) chunk.old) }
{
    if len <= chunk.room() {
        return Ok(());
    }
    write_chunk(out, chunk)
}

/// Puts a text last into a chunk, which is written before where it lacks the room.
#[inline(always)]
fn put_last<W: Write>(out: &mut W, chunk: &mut Chunk, text: &[u8]) -> Result<(), OutputRefused>
    requires { length text.now ≤ 512 }
    ensures ok { OnOk result (AppendsBut (W.contents out.old) (W.contents out.new) (chunk.old ++ text.now) chunk.new) }
    ensures refused { OnErr result (AppendsSome (W.contents out.old) (W.contents out.new) (chunk.old ++ text.now)) }
{
    make_room(out, chunk, text.len())?;
    chunk.append(text);
    Ok(())
}

/// Writes what a chunk holds, and then a listed name that is not short or is not printed as it is.
#[cold]
fn put_long<W: Write>(
    out: &mut W,
    chunk: &mut Chunk,
    listed: &ListedName<'_>,
) -> Result<(), OutputRefused>
    ensures ok { OnOk result (AppendsBut (W.contents out.old) (W.contents out.new)
        (chunk.old ++ listed_words (listed_dirent listed.now)) chunk.new) }
    ensures refused { OnErr result (AppendsSome (W.contents out.old) (W.contents out.new)
        (chunk.old ++ listed_words (listed_dirent listed.now))) }
{
    write_chunk(out, chunk)?;
    write_long(out, listed)
}

/// Puts a listed name, as ` NAME:OFF:KIND`, into a chunk. Most are short, and are put at once.
#[inline(always)]
fn put_listed<W: Write>(
    out: &mut W,
    chunk: &mut Chunk,
    listed: &ListedName<'_>,
) -> Result<(), OutputRefused>
    ensures ok { OnOk result (AppendsBut (W.contents out.old) (W.contents out.new)
        (chunk.old ++ listed_words (listed_dirent listed.now)) chunk.new) }
    ensures refused { OnErr result (AppendsSome (W.contents out.old) (W.contents out.new)
        (chunk.old ++ listed_words (listed_dirent listed.now))) }
{
    let name = listed.name;
    if name.len() > SHORT {
        return put_long(out, chunk, listed);
    }
    if !is_shown_as_is(name) {
        return put_long(out, chunk, listed);
    }
    let mut text = ShortText::new();
    put_place(&mut text, listed.offset, listed.kind);
    text.put(name);
    text.put_byte(b' ');
    put_last(out, chunk, text.bytes())
}

/// Puts listed names one after another into a chunk, which is written each time that it is full.
#[inline(always)]
fn put_listing<A: Allocator, W: Write>(
    out: &mut W,
    chunk: &mut Chunk,
    names: &Listing<A>,
) -> Result<(), OutputRefused>
    ensures ok { OnOk result (AppendsBut (W.contents out.old) (W.contents out.new)
        (chunk.old ++ flat_map listed_words names.now) chunk.new) }
    ensures refused { OnErr result (AppendsSome (W.contents out.old) (W.contents out.new)
        (chunk.old ++ flat_map listed_words names.now)) }
{
    for listed in names.iter() {
        put_listed(out, chunk, &listed)?;
    }
    Ok(())
}

/// Puts what an answered call's line begins with before a text.
fn put_call(text: &mut ShortText, call: u64)
    requires { length text.old ≤ 81 }
    ensures { text.new ≡ codes "answer " ++ decimal call ++ codes " " ++ text.old }
{
    text.put_byte(b' ');
    text.put_number(call);
    text.put(b"answer ");
}

/// Writes what an answered call's line begins with, and a word.
fn write_start<W: Write>(out: &mut W, call: u64, word: &[u8]) -> Result<(), OutputRefused>
    requires { length word.now ≤ 2 }
    ensures ok { OnOk result (Appends (W.contents out.old) (W.contents out.new)
        (codes "answer " ++ decimal call ++ codes " " ++ word.now)) }
    ensures refused { OnErr result (AppendsSome (W.contents out.old) (W.contents out.new)
        (codes "answer " ++ decimal call ++ codes " " ++ word.now)) }
{
    let mut text = ShortText::new();
    text.put(word);
    put_call(&mut text, call);
    write_text(out, text.bytes())
}

/// Writes the line of a call that is answered with attributes.
fn write_attributes<W: Write>(
    out: &mut W,
    call: u64,
    attributes: Attributes,
) -> Result<(), OutputRefused>
    ensures ok { OnOk result (Appends (W.contents out.old) (W.contents out.new)
        (codes "answer " ++ decimal call ++ codes " " ++ attributes_words attributes ++ codes "\n")) }
    ensures refused { OnErr result (AppendsSome (W.contents out.old) (W.contents out.new)
        (codes "answer " ++ decimal call ++ codes " " ++ attributes_words attributes ++ codes "\n")) }
{
    let mut text = ShortText::new();
    text.put_byte(b'\n');
    put_attributes(&mut text, attributes);
    put_call(&mut text, call);
    write_text(out, text.bytes())
}

/// Writes the line of a call that is answered with a word and a number after it.
fn write_counted<W: Write>(
    out: &mut W,
    call: u64,
    word: &[u8],
    number: u64,
) -> Result<(), OutputRefused>
    requires { length word.now ≤ 2 }
    ensures ok { OnOk result (Appends (W.contents out.old) (W.contents out.new)
        (codes "answer " ++ decimal call ++ codes " " ++ word.now ++ decimal number ++ codes "\n")) }
    ensures refused { OnErr result (AppendsSome (W.contents out.old) (W.contents out.new)
        (codes "answer " ++ decimal call ++ codes " " ++ word.now ++ decimal number ++ codes "\n")) }
{
    let mut text = ShortText::new();
    text.put_byte(b'\n');
    text.put_number(number);
    text.put(word);
    put_call(&mut text, call);
    write_text(out, text.bytes())
}

/// Puts what the line of a call that is answered with listed names begins with into a chunk.
#[inline(always)]
fn put_start(chunk: &mut Chunk, call: u64)
    requires { chunk.old ≡ [] }
    ensures { chunk.new ≡ codes "answer " ++ decimal call ++ codes " 0" }
{
    let mut text = ShortText::new();
    text.put_byte(b'0');
    put_call(&mut text, call);
    chunk.append(text.bytes());
}

/// Writes the line of a call that is answered with listed names.
fn write_names<A: Allocator, W: Write>(
    out: &mut W,
    call: u64,
    names: &Listing<A>,
) -> Result<(), OutputRefused>
    ensures ok { OnOk result (Appends (W.contents out.old) (W.contents out.new)
        (codes "answer " ++ decimal call ++ codes " " ++ (codes "0" ++ flat_map listed_words names.now) ++ codes "\n")) }
    ensures refused { OnErr result (AppendsSome (W.contents out.old) (W.contents out.new)
        (codes "answer " ++ decimal call ++ codes " " ++ (codes "0" ++ flat_map listed_words names.now) ++ codes "\n")) }
{
    let mut chunk = Chunk::new();
    put_start(&mut chunk, call);
    put_listing(out, &mut chunk, names)?;
    put_last(out, &mut chunk, b"\n")?;
    write_text(out, chunk.bytes())
}

/// Writes the line of a call that is answered with bytes.
fn write_content<W: Write>(out: &mut W, call: u64, bytes: &[u8]) -> Result<(), OutputRefused>
    ensures ok { OnOk result (Appends (W.contents out.old) (W.contents out.new)
        (codes "answer " ++ decimal call ++ codes " " ++ (codes "0 " ++ hex_or_none bytes.now) ++ codes "\n")) }
    ensures refused { OnErr result (AppendsSome (W.contents out.old) (W.contents out.new)
        (codes "answer " ++ decimal call ++ codes " " ++ (codes "0 " ++ hex_or_none bytes.now) ++ codes "\n")) }
{
    write_start(out, call, b"0 ")?;
    write_hex_or_none(out, bytes)?;
    write_text(out, b"\n")
}

/// Writes the line of an answered call.
fn write_answered<A: Allocator, W: Write>(
    out: &mut W,
    call: u64,
    answer: &Answer<A>,
) -> Result<(), OutputRefused>
    ensures ok { OnOk result (Appends (W.contents out.old) (W.contents out.new) (answer_text call answer.now)) }
    ensures refused { OnErr result (AppendsSome (W.contents out.old) (W.contents out.new) (answer_text call answer.now)) }
{
    match answer {
        Answer::Done => write_start(out, call, b"0\n"),
        Answer::Attributes(attributes) => write_attributes(out, call, *attributes),
        Answer::Listing(names) => write_names(out, call, names),
        Answer::Content(bytes) => write_content(out, call, bytes.as_slice()),
        Answer::Written { size } => write_counted(out, call, b"0 ", u64::from(*size)),
        Answer::Failed { errno } => write_counted(out, call, b"", u64::from(*errno)),
    }
}

/// Writes the line of a refused event.
fn write_refused<W: Write>(out: &mut W, refusal: Refusal) -> Result<(), OutputRefused>
    ensures ok { OnOk result (Appends (W.contents out.old) (W.contents out.new)
        (codes "refused " ++ decimal (refusal_number refusal) ++ codes " " ++ refusal_name refusal ++ codes "\n")) }
    ensures refused { OnErr result (AppendsSome (W.contents out.old) (W.contents out.new)
        (codes "refused " ++ decimal (refusal_number refusal) ++ codes " " ++ refusal_name refusal ++ codes "\n")) }
{
    let mut text = ShortText::new();
    text.put_byte(b'\n');
    text.put(name_of_refusal(refusal).as_bytes());
    text.put_byte(b' ');
    text.put_number(u64::from(number_of_refusal(refusal)));
    text.put(b"refused ");
    write_text(out, text.bytes())
}

/// Writes the line of an outcome.
#[inline(always)]
fn write_outcome<W: Write>(out: &mut W, outcome: Outcome) -> Result<(), OutputRefused>
    ensures ok { OnOk result (Appends (W.contents out.old) (W.contents out.new) (outcome_line outcome ++ codes "\n")) }
    ensures refused { OnErr result (AppendsSome (W.contents out.old) (W.contents out.new) (outcome_line outcome ++ codes "\n")) }
{
    let mut text = ShortText::new();
    text.put_byte(b'\n');
    put_outcome_line(&mut text, outcome);
    write_text(out, text.bytes())
}

/// Writes a record's line.
pub fn write_record<A: Allocator, W: Write>(
    out: &mut W,
    record: &Record<A>,
) -> Result<(), OutputRefused>
    ensures ok { OnOk result (Appends (W.contents out.old) (W.contents out.new) (record_text «record».now)) }
    ensures refused { OnErr result (AppendsSome (W.contents out.old) (W.contents out.new) (record_text «record».now)) }
{
    match record {
        Record::Outcome(outcome) => write_outcome(out, *outcome),
        Record::Refused(refusal) => write_refused(out, *refusal),
        Record::LinkLost => write_text(out, b"link lost\n"),
        Record::Answered { call, answer } => write_answered(out, *call, answer),
    }
}

/// Writes the line of a frame that was put.
fn write_frame<W: Write>(out: &mut W, frame: &[u8]) -> Result<(), OutputRefused>
    ensures ok { OnOk result (Appends (W.contents out.old) (W.contents out.new) (frame_text frame.now)) }
    ensures refused { OnErr result (AppendsSome (W.contents out.old) (W.contents out.new) (frame_text frame.now)) }
{
    write_text(out, b"frame ")?;
    write_hex(out, frame)?;
    write_text(out, b"\n")
}

/// Writes the lines of answers, of which most events have none.
fn write_answers<A: Allocator, W: Write>(
    out: &mut W,
    answers: &[Record<A>],
) -> Result<(), OutputRefused>
    ensures ok { OnOk result (Appends (W.contents out.old) (W.contents out.new) (flat_map record_text answers.now)) }
    ensures refused { OnErr result (AppendsSome (W.contents out.old) (W.contents out.new) (flat_map record_text answers.now)) }
{
    for answer in answers {
        write_record(out, answer)?;
    }
    Ok(())
}

/// Writes the line of an event's first record. Most are outcomes, whose writing is inlined here.
#[inline(always)]
fn write_first<A: Allocator, W: Write>(out: &mut W, first: &Record<A>) -> Result<(), OutputRefused>
    ensures ok { OnOk result (Appends (W.contents out.old) (W.contents out.new) (record_text first.now)) }
    ensures refused { OnErr result (AppendsSome (W.contents out.old) (W.contents out.new) (record_text first.now)) }
{
    match first {
        Record::Outcome(outcome) => write_outcome(out, *outcome),
        _ => write_record(out, first),
    }
}

/// Writes the line of a frame that was put, if there is one.
#[inline(always)]
fn write_put<W: Write>(out: &mut W, frame: Option<&[u8]>) -> Result<(), OutputRefused>
    ensures ok { OnOk result (Appends (W.contents out.old) (W.contents out.new) (put_text (option_copied frame.entry))) }
    ensures refused { OnErr result (AppendsSome (W.contents out.old) (W.contents out.new) (put_text (option_copied frame.entry))) }
{
    match frame {
        Some(frame) => write_frame(out, frame),
        None => Ok(()),
    }
}

/// Writes the line of an event's first record, that of the frame that was put, if there is one, and those of the
/// answers.
#[inline(always)]
fn write_lines<A: Allocator, W: Write>(
    out: &mut W,
    first: &Record<A>,
    frame: Option<&[u8]>,
    answers: &[Record<A>],
) -> Result<(), OutputRefused>
    ensures ok { OnOk result (Appends (W.contents out.old) (W.contents out.new)
        (record_text first.now ++ put_text (option_copied frame.entry) ++ flat_map record_text answers.now)) }
    ensures refused { OnErr result (AppendsSome (W.contents out.old) (W.contents out.new)
        (record_text first.now ++ put_text (option_copied frame.entry) ++ flat_map record_text answers.now)) }
{
    write_first(out, first)?;
    write_put(out, frame)?;
    write_answers(out, answers)
}

/// Writes the lines of an event's records, and after the first that of the frame that was put, if there is one.
#[inline(always)]
pub(crate) fn write_event<A: Allocator, W: Write>(
    out: &mut W,
    records: &[Record<A>],
    frame: Option<&[u8]>,
) -> Result<(), OutputRefused>
    ensures ok { OnOk result (Appends (W.contents out.old) (W.contents out.new)
        (event_text records.now (option_copied frame.entry))) }
    ensures refused { OnErr result (AppendsSome (W.contents out.old) (W.contents out.new)
        (event_text records.now (option_copied frame.entry))) }
{
    let Some((first, answers)) = records.split_first() else {
        return Ok(());
    };
    write_lines(out, first, frame, answers)
}
