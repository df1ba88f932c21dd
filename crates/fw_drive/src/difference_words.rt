//! What is printed of answers that differ.

ghost use Rattle.std.specs.Prelude.{◌≡◌, ◌++◌, ℕ, IfErr, IfOk, List, OnErr, OnOk, codes, decimal};
ghost use Rattle.std.specs.Io.KnownBytes.{Appends};
ghost use Rattle.frame_words.specs.Errors.{error_name};
ghost use Rattle.fuse_text.specs.Outputs.{AppendsSome};
ghost use Rattle.fw_script.specs.Records.{answer_text};
ghost use Rattle.fw_drive.specs.Findings.{is_any_wrong};
ghost use Rattle.fw_drive.specs.Notes.{Note, difference_text, errno_words, failed_errno, name_words, notes_text};
ghost use Rattle.fw_drive.specs.Printed.{Gets};
ghost use Rattle.fw_drive.specs.Runs.{IsUnprinted};

use crate::printing::{print_between, print_both};
use crate::stop::Stop;
use frame_words::name_of_error;
use fuse_text::{OutputRefused, write_text};
use fw_script::write_record;
use fw_world::{Answer, Record};
use std::alloc::Allocator;
use std::io::Write;

/// A call that was answered: its number, its words, and the number of the line that they are.
#[derive(Clone, Copy)]
pub(crate) struct Answered<'a> {
    pub(crate) call: u64,
    pub(crate) words: &'a [u8],
    pub(crate) line: u64,
}

/// The error that an answer is, if it is one.
fn errno_of<A: Allocator>(answer: &Answer<A>) -> Option<u32>
    ensures { result ≡ failed_errno answer.now }
{
    match answer {
        Answer::Failed { errno } => Some(*errno),
        Answer::Done
        | Answer::Attributes(_)
        | Answer::Listing(_)
        | Answer::Content(_)
        | Answer::Written { .. } => None,
    }
}

/// Prints the name of an error, if it has one here.
fn print_name<W: Write>(out: &mut W, errno: u32) -> Result<(), OutputRefused>
    ensures ok { OnOk result (Appends (W.contents out.old) (W.contents out.new) (name_words (error_name errno))) }
    ensures refused { OnErr result (AppendsSome (W.contents out.old) (W.contents out.new) (name_words (error_name errno))) }
{
    match name_of_error(errno) {
        Some(name) => print_both(out, name.as_bytes(), b" "),
        None => Ok(()),
    }
}

/// Prints the name of the error that an answer is.
fn print_errno<W: Write>(out: &mut W, errno: Option<u32>) -> Result<(), OutputRefused>
    ensures ok { OnOk result (Appends (W.contents out.old) (W.contents out.new) (errno_words errno)) }
    ensures refused { OnErr result (AppendsSome (W.contents out.old) (W.contents out.new) (errno_words errno)) }
{
    match errno {
        Some(errno) => print_name(out, errno),
        None => Ok(()),
    }
}

/// Prints the words of an answer, with the name of an error.
fn print_answer<W: Write>(
    out: &mut W,
    errno: Option<u32>,
    words: &[u8],
) -> Result<(), OutputRefused>
    ensures ok { OnOk result (Appends (W.contents out.old) (W.contents out.new) (errno_words errno ++ words.now)) }
    ensures refused { OnErr result (AppendsSome (W.contents out.old) (W.contents out.new) (errno_words errno ++ words.now)) }
{
    print_errno(out, errno)?;
    write_text(out, words)
}

/// Prints the words of the answer here, and a line feed.
fn print_last_answer<W: Write>(
    out: &mut W,
    errno: Option<u32>,
    words: &[u8],
) -> Result<(), OutputRefused>
    ensures ok { OnOk result (Appends (W.contents out.old) (W.contents out.new)
        ((errno_words errno ++ words.now) ++ codes "\n")) }
    ensures refused { OnErr result (AppendsSome (W.contents out.old) (W.contents out.new)
        ((errno_words errno ++ words.now) ++ codes "\n")) }
{
    print_answer(out, errno, words)?;
    write_text(out, b"\n")
}

/// Prints which answer there is here.
fn print_here<W: Write>(out: &mut W, errno: Option<u32>, words: &[u8]) -> Result<(), OutputRefused>
    ensures ok { OnOk result (Appends (W.contents out.old) (W.contents out.new)
        (codes ", here " ++ ((errno_words errno ++ words.now) ++ codes "\n"))) }
    ensures refused { OnErr result (AppendsSome (W.contents out.old) (W.contents out.new)
        (codes ", here " ++ ((errno_words errno ++ words.now) ++ codes "\n"))) }
{
    write_text(out, b", here ")?;
    print_last_answer(out, errno, words)
}

/// Prints the words of a call, and its line.
fn print_words<W: Write>(out: &mut W, words: &[u8], line: u64) -> Result<(), OutputRefused>
    ensures ok { OnOk result (Appends (W.contents out.old) (W.contents out.new)
        (words.now ++ (codes ", line " ++ (decimal line ++ codes "): ")))) }
    ensures refused { OnErr result (AppendsSome (W.contents out.old) (W.contents out.new)
        (words.now ++ (codes ", line " ++ (decimal line ++ codes "): ")))) }
{
    write_text(out, words)?;
    print_between(out, b", line ", line, b"): ")
}

/// Prints whose answer differs.
fn print_answered<W: Write>(out: &mut W, answered: Answered<'_>) -> Result<(), OutputRefused>
    ensures ok { OnOk result (Appends (W.contents out.old) (W.contents out.new)
        ((codes "differs: answer " ++ (decimal answered.entry.call ++ codes " ("))
        ++ (answered.entry.words.now ++ (codes ", line " ++ (decimal answered.entry.line ++ codes "): "))))) }
    ensures refused { OnErr result (AppendsSome (W.contents out.old) (W.contents out.new)
        ((codes "differs: answer " ++ (decimal answered.entry.call ++ codes " ("))
        ++ (answered.entry.words.now ++ (codes ", line " ++ (decimal answered.entry.line ++ codes "): "))))) }
{
    print_between(out, b"differs: answer ", answered.call, b" (")?;
    print_words(out, answered.words, answered.line)
}

/// Prints two answers, and a line feed.
fn print_answers<W: Write>(
    out: &mut W,
    errno: Option<u32>,
    words: &[u8],
    errno_here: Option<u32>,
    words_here: &[u8],
) -> Result<(), OutputRefused>
    ensures ok { OnOk result (Appends (W.contents out.old) (W.contents out.new)
        ((errno_words errno ++ words.now) ++ (codes ", here " ++ ((errno_words errno_here ++ words_here.now) ++ codes "\n")))) }
    ensures refused { OnErr result (AppendsSome (W.contents out.old) (W.contents out.new)
        ((errno_words errno ++ words.now) ++ (codes ", here " ++ ((errno_words errno_here ++ words_here.now) ++ codes "\n")))) }
{
    print_answer(out, errno, words)?;
    print_here(out, errno_here, words_here)
}

/// Prints that the answer to a call differs from the one here, each by the error that it is, if one, and its words.
fn print_difference<W: Write>(
    out: &mut W,
    answered: Answered<'_>,
    errno: Option<u32>,
    words: &[u8],
    errno_here: Option<u32>,
    words_here: &[u8],
) -> Result<(), OutputRefused>
    ensures ok { OnOk result (Appends (W.contents out.old) (W.contents out.new)
        (difference_text answered.entry.call answered.entry.words.now answered.entry.line (errno_words errno ++ words.now)
        (errno_words errno_here ++ words_here.now))) }
    ensures refused { OnErr result (AppendsSome (W.contents out.old) (W.contents out.new)
        (difference_text answered.entry.call answered.entry.words.now answered.entry.line (errno_words errno ++ words.now)
        (errno_words errno_here ++ words_here.now))) }
{
    print_answered(out, answered)?;
    print_answers(out, errno, words, errno_here, words_here)
}

/// The line of an answered call of the number 0.
fn line_of<A: Allocator + Copy>(alloc: A, answer: Answer<A>) -> Result<Vec<u8, A>, Stop>
    ensures ok { IfOk result (λ line. line.items ≡ answer_text 0 answer) }
    ensures own { IfErr result IsUnprinted }
{
    let mut line = Vec::new(alloc);
    match write_record(&mut line, &Record::Answered { call: 0, answer }) {
        Ok(()) => Ok(line),
        Err(_refused) => Err(Stop::NoMemory),
    }
}

/// Prints two answers to a call that differ, and says that they do.
pub(crate) fn print_differing<A: Allocator + Copy, W: Write>(
    alloc: A,
    answered: Answered<'_>,
    answer: Answer<A>,
    here: Answer<A>,
    out: &mut W,
) -> Result<bool, Stop>
    ensures printed { (said : List (Note A)) × Gets result (W.contents out.old) (W.contents out.new) (notes_text said)
        × IfOk result (λ differs. differs ≡ is_any_wrong said) }
    ensures own { IfErr result IsUnprinted }
{
    let errno = errno_of(&answer);
    let errno_here = errno_of(&here);
    let line = match line_of(alloc, answer) {
        Ok(line) => line,
        Err(stop) => return Err(stop),
    };
    let line_here = match line_of(alloc, here) {
        Ok(line) => line,
        Err(stop) => return Err(stop),
    };
    let words = said_in(line.as_slice());
    let words_here = said_in(line_here.as_slice());
    match print_difference(out, answered, errno, words, errno_here, words_here) {
        Ok(()) => Ok(true),
        Err(_refused) => Err(Stop::OutputRefused),
    }
}

/// What stands in the line of an answered call of the number 0 behind that: its answer.
fn said_in(line: &[u8]) -> &[u8]
    ensures { (words : List ℕ) → line.now ≡ codes "answer 0 " ++ words ++ codes "\n" → result.now ≡ words }
{
    if line.len() < 10 {
        return line;
    }
    &line[9..line.len() - 1]
}
