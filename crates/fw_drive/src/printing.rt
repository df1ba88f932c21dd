//! What is printed of a driven run.

ghost use Rattle.std.specs.Prelude.{◌≡◌, ◌++◌, OnErr, OnOk, codes, decimal, if◌then◌else◌, nat_lt};
ghost use Rattle.std.specs.Io.KnownBytes.{Appends};
ghost use Rattle.fuse_frames.specs.RequestTies.{asked_opcode};
ghost use Rattle.fk_syscalls.specs.declared.call.Answer.{Answer as AnswerValue};
ghost use Rattle.fuse_text.specs.Outputs.{AppendsSome};
ghost use Rattle.fw_script.specs.Records.{outcome_line, record_text};
ghost use Rattle.fw_world.specs.declared.event.Outcome.TheVariants as outcomes;
ghost use Rattle.fw_drive.specs.Notes.{compared, note_text, notification, raised};
ghost use Rattle.fw_drive.specs.Printed.{IsShownUnique, of_frame, outcome_text, refusal_text};

use crate::form::Form;
use fk_wire::{Opcode, ReplyHead};
use fuse_spec::WriteResult;
use fuse_text::{OutputRefused, write_number, write_text};
use fw_script::write_record;
use fw_world::{Answer, Outcome, Record, Refusal};
use std::alloc::Allocator;
use std::io::Write;

/// Prints what an event came to.
pub(crate) fn print_outcome<A: Allocator, W: Write>(
    out: &mut W,
    outcome: Outcome,
) -> Result<(), OutputRefused>
    ensures ok { OnOk result (Appends (W.contents out.old) (W.contents out.new) (outcome_text A outcome)) }
    ensures refused { OnErr result (AppendsSome (W.contents out.old) (W.contents out.new) (outcome_text A outcome)) }
{
    write_record(out, &Record::<A>::Outcome(outcome))
}

/// Prints why an event is refused.
pub(crate) fn print_refusal<A: Allocator, W: Write>(
    out: &mut W,
    refusal: Refusal,
) -> Result<(), OutputRefused>
    ensures ok { OnOk result (Appends (W.contents out.old) (W.contents out.new) (refusal_text A refusal)) }
    ensures refused { OnErr result (AppendsSome (W.contents out.old) (W.contents out.new) (refusal_text A refusal)) }
{
    write_record(out, &Record::<A>::Refused(refusal))
}

/// Prints what came to a frame, where the script is of events.
pub(crate) fn print_frame<A: Allocator, W: Write>(
    out: &mut W,
    form: Form,
    outcome: Outcome,
) -> Result<(), OutputRefused>
    ensures ok { OnOk result (Appends (W.contents out.old) (W.contents out.new) (of_frame form (outcome_text A outcome))) }
    ensures refused { OnErr result (AppendsSome (W.contents out.old) (W.contents out.new)
        (of_frame form (outcome_text A outcome))) }
{
    match form {
        Form::Events => print_outcome::<A, W>(out, outcome),
        Form::Calls | Form::CallsBeside => Ok(()),
    }
}

/// Prints why the kernel refuses a frame, or to be read, where the script is of events.
pub(crate) fn print_refused<A: Allocator, W: Write>(
    out: &mut W,
    form: Form,
    refusal: Refusal,
) -> Result<(), OutputRefused>
    ensures ok { OnOk result (Appends (W.contents out.old) (W.contents out.new) (of_frame form (refusal_text A refusal))) }
    ensures refused { OnErr result (AppendsSome (W.contents out.old) (W.contents out.new)
        (of_frame form (refusal_text A refusal))) }
{
    match form {
        Form::Events => print_refusal::<A, W>(out, refusal),
        Form::Calls | Form::CallsBeside => Ok(()),
    }
}

/// The number that is printed of a frame of the server: that in its head, or 0 where it has none.
pub(crate) fn shown_unique(frame: &[u8]) -> u64
    ensures { IsShownUnique frame.now result }
{
    match ReplyHead::read(frame) {
        Ok(head) => head.unique,
        Err(_) => 0,
    }
}

/// Prints words and a number behind them.
pub(crate) fn print_counted<W: Write>(
    out: &mut W,
    words: &[u8],
    number: u64,
) -> Result<(), OutputRefused>
    ensures ok { OnOk result (Appends (W.contents out.old) (W.contents out.new) (words.now ++ decimal number)) }
    ensures refused { OnErr result (AppendsSome (W.contents out.old) (W.contents out.new) (words.now ++ decimal number)) }
{
    write_text(out, words)?;
    write_number(out, number)
}

/// Prints words, a number and other words.
pub(crate) fn print_between<W: Write>(
    out: &mut W,
    before: &[u8],
    number: u64,
    after: &[u8],
) -> Result<(), OutputRefused>
    ensures ok { OnOk result (Appends (W.contents out.old) (W.contents out.new)
        (before.now ++ (decimal number ++ after.now))) }
    ensures refused { OnErr result (AppendsSome (W.contents out.old) (W.contents out.new)
        (before.now ++ (decimal number ++ after.now))) }
{
    print_counted(out, before, number)?;
    write_text(out, after)
}

/// The words of the version as which an agreement on an older minor version is handed on.
fn taken_as(minor: u8) -> &'static [u8]
    ensures { result.now ≡ codes (if nat_lt minor 15 then " taken as 7.15\n" else " taken as 7.31\n") }
{
    if minor < 15 {
        b" taken as 7.15\n"
    } else {
        b" taken as 7.31\n"
    }
}

/// Prints that an older agreement was handed on as one on 7.15 or 7.31.
pub(crate) fn print_raised<A: Allocator, W: Write>(
    out: &mut W,
    minor: u8,
) -> Result<(), OutputRefused>
    ensures ok { OnOk result (Appends (W.contents out.old) (W.contents out.new) (note_text {A = A} (raised minor))) }
    ensures refused { OnErr result (AppendsSome (W.contents out.old) (W.contents out.new) (note_text {A = A} (raised minor))) }
{
    print_between(out, b"7.", u64::from(minor), taken_as(minor))
}

/// Prints words and a number, other words and a number, and a line feed.
fn print_numbers<W: Write>(
    out: &mut W,
    words: &[u8],
    number: u64,
    more: &[u8],
    last: u64,
) -> Result<(), OutputRefused>
    ensures ok { OnOk result (Appends (W.contents out.old) (W.contents out.new)
        (words.now ++ (decimal number ++ (more.now ++ (decimal last ++ codes "\n"))))) }
    ensures refused { OnErr result (AppendsSome (W.contents out.old) (W.contents out.new)
        (words.now ++ (decimal number ++ (more.now ++ (decimal last ++ codes "\n"))))) }
{
    print_counted(out, words, number)?;
    print_between(out, more, last, b"\n")
}

/// Prints a notification.
pub(crate) fn print_notification<A: Allocator, W: Write>(
    out: &mut W,
    code: u32,
    len: usize,
) -> Result<(), OutputRefused>
    ensures ok { OnOk result (Appends (W.contents out.old) (W.contents out.new) (note_text {A = A} (notification code len))) }
    ensures refused { OnErr result (AppendsSome (W.contents out.old) (W.contents out.new)
        (note_text {A = A} (notification code len))) }
{
    print_numbers(out, b"notification ", u64::from(code), b" ", len as u64)
}

/// Prints how many answers were compared, and how many of them differ.
pub(crate) fn print_compared<A: Allocator, W: Write>(
    out: &mut W,
    answers: u64,
    differences: u64,
) -> Result<(), OutputRefused>
    ensures ok { OnOk result (Appends (W.contents out.old) (W.contents out.new)
        (note_text {A = A} (compared answers differences))) }
    ensures refused { OnErr result (AppendsSome (W.contents out.old) (W.contents out.new)
        (note_text {A = A} (compared answers differences))) }
{
    print_numbers(out, b"answers ", answers, b" differ ", differences)
}

/// Prints words and what follows them.
pub(crate) fn print_both<W: Write>(
    out: &mut W,
    words: &[u8],
    more: &[u8],
) -> Result<(), OutputRefused>
    ensures ok { OnOk result (Appends (W.contents out.old) (W.contents out.new) (words.now ++ more.now)) }
    ensures refused { OnErr result (AppendsSome (W.contents out.old) (W.contents out.new) (words.now ++ more.now)) }
{
    write_text(out, words)?;
    write_text(out, more)
}
