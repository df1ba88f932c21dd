//! Outcomes, attributes and refusals as words.

ghost use Rattle.std.specs.Prelude.{◌≡◌, ◌+◌, ◌≤◌, ◌++◌, codes, decimal, length};
ghost use Rattle.fw_world.specs.declared.event.Outcome.TheVariants as outcome;
ghost use Rattle.fk_wire.specs.Opcodes.{name_of};
ghost use Rattle.fw_script.specs.Records.{attributes_words, effect_word, kind_word, outcome_line, refusal_name};
ghost use Rattle.fw_script.specs.Records.{refusal_number, result_number, taken_word};

use fk_wire::Opcode;
use fuse_text::ShortText;
use fw_world::{Attributes, IntrEffect, Kind, Outcome, Refusal, Taken, WriteResult};

/// Puts what became of a taken request, in one word, before a text.
#[inline(always)]
fn put_taken_word(text: &mut ShortText, taken: Taken)
    requires { length text.old ≤ 60 }
    ensures text { text.new ≡ taken_word taken ++ text.old }
    ensures room { length text.new ≤ 14 + length text.old }
{
    match taken {
        Taken::Held => text.put(b"held"),
        Taken::Forgot => text.put(b"forgot"),
        Taken::Marked => text.put(b"marked"),
        Taken::Ignored => text.put(b"ignored"),
        Taken::Again => text.put(b"again"),
    }
}

/// What a signal did, in one word.
pub fn word_of_effect(effect: IntrEffect) -> &'static str
    ensures word { result.now ≡ effect_word effect }
    ensures short { length result.now ≤ 14 }
{
    match effect {
        IntrEffect::Dequeued => "dequeued",
        IntrEffect::Flagged => "flagged",
        IntrEffect::Queued => "queued",
        IntrEffect::None => "none",
    }
}

/// Puts the result of a reply's write as its error number, 0, ENOENT or EINVAL, before a text.
#[inline(always)]
fn put_result_number(text: &mut ShortText, written: WriteResult)
    requires { length text.old ≤ 60 }
    ensures text { text.new ≡ result_number written ++ text.old }
    ensures room { length text.new ≤ 14 + length text.old }
{
    match written {
        WriteResult::Accepted => text.put(b"0"),
        WriteResult::NoEntry => text.put(b"2"),
        WriteResult::Invalid => text.put(b"22"),
    }
}

/// The kind of a file, in one word.
pub fn word_of_kind(kind: Kind) -> &'static str
    ensures word { result.now ≡ kind_word kind }
    ensures short { length result.now ≤ 14 }
{
    match kind {
        Kind::Directory => "dir",
        Kind::Regular => "file",
        Kind::Other => "other",
    }
}

/// Puts the kind of a file, in one word, before a text.
#[inline(always)]
pub(crate) fn put_kind_word(text: &mut ShortText, kind: Kind)
    requires { length text.old ≤ 100 }
    ensures text { text.new ≡ kind_word kind ++ text.old }
    ensures room { length text.new ≤ 14 + length text.old }
{
    match kind {
        Kind::Directory => text.put(b"dir"),
        Kind::Regular => text.put(b"file"),
        Kind::Other => text.put(b"other"),
    }
}

/// The number of a refusal.
pub fn number_of_refusal(refusal: Refusal) -> u8
    ensures { result ≡ refusal_number refusal }
{
    refusal as u8
}

/// The name of a refusal.
pub fn name_of_refusal(refusal: Refusal) -> &'static str
    ensures word { result.now ≡ refusal_name refusal }
    ensures short { length result.now ≤ 14 }
{
    match refusal {
        Refusal::NoMemory => "NoMemory",
        Refusal::NoSuch => "NoSuch",
        Refusal::InterruptFirst => "InterruptFirst",
        Refusal::NotReady => "NotReady",
        Refusal::Busy => "Busy",
        Refusal::NoCopy => "NoCopy",
        Refusal::Full => "Full",
        Refusal::Exhausted => "Exhausted",
        Refusal::BadTime => "BadTime",
        Refusal::LinkLost => "LinkLost",
    }
}

/// The name of an opcode.
fn word_of_opcode(opcode: Opcode) -> &'static str
    ensures word { result.now ≡ name_of opcode }
    ensures short { length result.now ≤ 14 }
{
    opcode.name()
}

/// Puts a space and a number before a text.
fn put_spaced_number(text: &mut ShortText, number: u64)
    requires { length text.old ≤ 100 }
    ensures text { text.new ≡ codes " " ++ decimal number ++ text.old }
    ensures room { length text.new ≤ 21 + length text.old }
{
    text.put_number(number);
    text.put_byte(b' ');
}

/// Puts a word and a number before a text.
fn put_word_and_number(text: &mut ShortText, first: &[u8], number: u64)
    requires { (length first.now ≤ 14) × (length text.old ≤ 90) }
    ensures { text.new ≡ first.now ++ codes " " ++ decimal number ++ text.old }
{
    put_spaced_number(text, number);
    text.put(first);
}

/// Puts a word and two numbers before a text.
fn put_word_and_two_numbers(text: &mut ShortText, first: &[u8], number: u64, count: u64)
    requires { (length first.now ≤ 14) × (length text.old ≤ 60) }
    ensures { text.new ≡ first.now ++ codes " " ++ decimal number ++ codes " " ++ decimal count ++ text.old }
{
    put_spaced_number(text, count);
    put_word_and_number(text, first, number);
}

/// Puts a word, a number and a space before a text.
#[inline(always)]
fn put_word_number_space(text: &mut ShortText, first: &[u8], number: u64)
    requires { (length first.now ≤ 14) × (length text.old ≤ 80) }
    ensures { text.new ≡ first.now ++ codes " " ++ decimal number ++ codes " " ++ text.old }
{
    text.put_byte(b' ');
    put_word_and_number(text, first, number);
}

/// Puts a word, a number and a word before a text.
fn put_word_number_word(text: &mut ShortText, first: &[u8], number: u64, word: &str)
    requires { (length first.now ≤ 14) × (length word.now ≤ 14) × (length text.old ≤ 60) }
    ensures { text.new ≡ first.now ++ codes " " ++ decimal number ++ codes " " ++ word.now ++ text.old }
{
    text.put(word.as_bytes());
    put_word_number_space(text, first, number);
}

/// Puts the line of a taken request before a text.
fn put_taken_line(text: &mut ShortText, unique: u64, word: Taken)
    requires { length text.old ≤ 1 }
    ensures { text.new ≡ outcome_line (outcome.Taken unique word) ++ text.old }
{
    put_taken_word(text, word);
    put_word_number_space(text, b"taken", unique);
}

/// Puts the line of a written reply, or of a settled one, before a text.
#[inline(always)]
fn put_result_line(text: &mut ShortText, first: &[u8], unique: u64, written: WriteResult)
    requires { (length first.now ≤ 14) × (length text.old ≤ 1) }
    ensures { text.new ≡ first.now ++ codes " " ++ decimal unique ++ codes " " ++ result_number written ++ text.old }
{
    put_result_number(text, written);
    put_word_number_space(text, first, unique);
}

/// Puts the line of a read before a text.
fn put_read_line(text: &mut ShortText, unique: u64, opcode: Opcode, len: usize)
    requires { length text.old ≤ 1 }
    ensures { text.new ≡ outcome_line (outcome.Read unique opcode len) ++ text.old }
{
    put_spaced_number(text, len as u64);
    put_word_number_word(text, b"read", unique, word_of_opcode(opcode));
}

/// Puts the line of a performed request before a text.
fn put_done_line(text: &mut ShortText, unique: u64, errno: u32, len: usize)
    requires { length text.old ≤ 1 }
    ensures { text.new ≡ outcome_line (outcome.Done unique errno len) ++ text.old }
{
    put_spaced_number(text, len as u64);
    put_word_and_two_numbers(text, b"done", unique, u64::from(errno));
}

/// Puts the line of a request that was performed after an abort before a text.
fn put_lost_line(text: &mut ShortText, unique: u64, errno: u32)
    requires { length text.old ≤ 1 }
    ensures { text.new ≡ outcome_line (outcome.Lost unique errno) ++ text.old }
{
    text.put(b" lost");
    put_word_and_two_numbers(text, b"done", unique, u64::from(errno));
}

/// Puts the line of an outcome, as `read 4 LOOKUP 42`, before a text.
#[inline(always)]
pub(crate) fn put_outcome_line(text: &mut ShortText, outcome: Outcome)
    requires { length text.old ≤ 1 }
    ensures { text.new ≡ outcome_line outcome ++ text.old }
{
    match outcome {
        Outcome::Mounted => text.put(b"mounted"),
        Outcome::Begun { call } => put_word_and_number(text, b"call", call),
        Outcome::Read {
            unique,
            opcode,
            len,
        } => put_read_line(text, unique, opcode, len),
        Outcome::Taken { unique, word } => put_taken_line(text, unique, word),
        Outcome::Done { unique, errno, len } => put_done_line(text, unique, errno, len),
        Outcome::Lost { unique, errno } => put_lost_line(text, unique, errno),
        Outcome::SentAgain { unique, len } => put_word_and_two_numbers(
            text, b"again", unique, len as u64,
        ),
        Outcome::Written { unique, result } => put_result_line(text, b"written", unique, result),
        Outcome::Settled { unique, result } => put_result_line(text, b"settled", unique, result),
        Outcome::Interrupted { call, effect } => {
            put_word_number_word(text, b"interrupted", call, word_of_effect(effect))
        }
        Outcome::Now { clock } => put_word_and_number(text, b"now", clock),
        Outcome::Dropped => text.put(b"dropped"),
        Outcome::Evicted { node, count } => put_word_and_two_numbers(text, b"evicted", node, count),
        Outcome::Aborted => text.put(b"aborted"),
    }
}

/// Puts attributes, as `0 KIND INO SIZE NLINK`, before a text.
pub(crate) fn put_attributes(text: &mut ShortText, attributes: Attributes)
    requires { length text.old ≤ 1 }
    ensures text { text.new ≡ attributes_words attributes ++ text.old }
    ensures room { length text.new ≤ 80 }
{
    let Attributes {
        kind,
        ino,
        size,
        nlink,
    } = attributes;
    put_spaced_number(text, u64::from(nlink));
    put_spaced_number(text, size);
    put_spaced_number(text, ino);
    put_kind_word(text, kind);
    text.put(b"0 ");
}
