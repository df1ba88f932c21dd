//! What an event of the server came to, printed.

use crate::form::{Form, Printer};
use crate::refusal_text::{print_refusal, result_number};
use fs_server::{Done, ServerFault, ServerRefused, ServerStep, Taken};
use fuse_frames::Sent;
use fuse_text::OutputRefused;
use std::alloc::Allocator;
use std::io::Write;

/// What became of a taken request, in one word.
fn word_of_taken(word: fuse_spec::Taken) -> &'static str {
    match word {
        fuse_spec::Taken::Held => "held",
        fuse_spec::Taken::Forgot => "forgot",
        fuse_spec::Taken::Marked => "marked",
        fuse_spec::Taken::Ignored => "ignored",
        fuse_spec::Taken::Again => "again",
    }
}

/// Prints the frame of a copy, and its number.
fn print_copy<A: Allocator, W: Write>(
    printer: &mut Printer<'_, W>,
    sent: &Sent<A>,
) -> Result<(), OutputRefused> {
    printer.frame(sent.bytes())?;
    printer.copy(sent.number())
}

/// Prints what became of a taken request, and the reply that was sent at once.
fn print_taken<A: Allocator, W: Write>(
    printer: &mut Printer<'_, W>,
    taken: &Taken<A>,
) -> Result<(), OutputRefused> {
    printer.start("taken")?;
    printer.number("unique", taken.unique)?;
    printer.word("word", word_of_taken(taken.word))?;
    match &taken.sent {
        Some(sent) => print_copy(printer, sent),
        None => Ok(()),
    }
}

/// Prints what a request came to that was performed, and its reply: `lost` stands for it after an abort.
fn print_done<A: Allocator, W: Write>(
    printer: &mut Printer<'_, W>,
    unique: u64,
    done: &Done<A>,
) -> Result<(), OutputRefused> {
    printer.start("done")?;
    printer.number("unique", unique)?;
    printer.number("error", u64::from(done.errno))?;
    match &done.sent {
        Some(sent) => {
            printer.number("len", sent.bytes().len() as u64)?;
            print_copy(printer, sent)
        }
        None => printer.lost(),
    }
}

/// Prints what an event came to, without its end.
fn print_step<A: Allocator, W: Write>(
    printer: &mut Printer<'_, W>,
    step: &ServerStep<A>,
) -> Result<(), OutputRefused> {
    match step {
        ServerStep::Mounted => printer.start("mounted"),
        ServerStep::Taken(taken) => print_taken(printer, taken),
        ServerStep::Done { unique, done } => print_done(printer, *unique, done),
        ServerStep::SentAgain(sent) => {
            printer.start("again")?;
            printer.number("unique", sent.unique())?;
            printer.number("len", sent.bytes().len() as u64)?;
            print_copy(printer, sent)
        }
        ServerStep::Settled { copy, result } => {
            printer.start("settled")?;
            printer.number("copy", *copy)?;
            printer.number("result", result_number(*result))
        }
        ServerStep::Aborted => printer.start("aborted"),
    }
}

/// Prints what an event of the server came to.
///
/// # Errors
///
/// The output refused.
pub(crate) fn print_server_step<A: Allocator, W: Write>(
    out: &mut W,
    form: Form,
    step: &ServerStep<A>,
) -> Result<(), OutputRefused> {
    let mut printer = Printer::new(out, form);
    print_step(&mut printer, step)?;
    printer.end()
}

/// The name of a frame's fault.
fn name_of(fault: ServerFault) -> &'static str {
    match fault {
        ServerFault::Wire => "Wire",
        ServerFault::UnknownNode => "UnknownNode",
        ServerFault::TooManyForgets => "TooManyForgets",
        ServerFault::RepeatedUnique => "RepeatedUnique",
        ServerFault::Exhausted => "Exhausted",
        ServerFault::Memory => "Memory",
    }
}

/// Prints what is wrong with a frame, and the reply that says so.
fn print_fault<W: Write>(
    out: &mut W,
    form: Form,
    fault: ServerFault,
    reply: Option<[u8; 16]>,
) -> Result<(), OutputRefused> {
    let mut printer = Printer::new(out, form);
    printer.start("fault")?;
    printer.number("number", u64::from(fault as u8))?;
    printer.word("name", name_of(fault))?;
    if let Some(reply) = reply {
        printer.frame(&reply)?;
    }
    printer.end()
}

/// Prints why an event of the server is refused.
///
/// # Errors
///
/// The output refused.
pub(crate) fn print_server_refused<W: Write>(
    out: &mut W,
    form: Form,
    refused: ServerRefused,
) -> Result<(), OutputRefused> {
    match refused {
        ServerRefused::Event(refusal) => print_refusal(out, form, refusal),
        ServerRefused::Frame { fault, reply } => print_fault(out, form, fault, reply),
    }
}
