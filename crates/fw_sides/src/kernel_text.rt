//! What an event of the kernel came to, printed.

ghost use Rattle.std.specs.Prelude.{◌≡◌, OnOk};
ghost use Rattle.fw_sides.specs.KernelRuns.{all_collected};

use crate::answer_text::print_answer;
use crate::form::{Form, Printer};
use crate::refusal_text::result_number;
use fk_kernel::{Answer, KernelOf, KernelStep};
use fk_lookup_count::CountTable;
use fk_queues::QueueTable;
use fuse_frames::RequestFrame;
use fuse_spec::Purpose;
use fuse_text::OutputRefused;
use fw_script::{word_of_effect, write_record};
use fw_world::Record;
use std::alloc::Allocator;
use std::io::Write;

/// Prints the frame that was read.
fn print_read<A: Allocator, W: Write>(
    printer: &mut Printer<'_, W>,
    frame: &RequestFrame<A>,
) -> Result<(), OutputRefused> {
    let (unique, opcode) = frame.head();
    printer.start("read")?;
    printer.number("unique", unique)?;
    printer.word("opcode", opcode.name())?;
    printer.number("len", frame.bytes().len() as u64)?;
    printer.frame(frame.bytes())
}

/// Prints what an event came to, without its end.
fn print_step<A: Allocator, W: Write>(
    printer: &mut Printer<'_, W>,
    step: &KernelStep<A>,
) -> Result<(), OutputRefused> {
    match step {
        KernelStep::Mounted => printer.start("mounted"),
        KernelStep::Begun { call } => {
            printer.start("call")?;
            printer.number("call", *call)
        }
        KernelStep::Read(frame) => print_read(printer, frame),
        KernelStep::Written(result) => {
            printer.start("written")?;
            printer.number("result", result_number(*result))
        }
        KernelStep::Interrupted { call, effect } => {
            printer.start("interrupted")?;
            printer.number("call", *call)?;
            printer.word("effect", word_of_effect(*effect))
        }
        KernelStep::Now { clock } => {
            printer.start("now")?;
            printer.number("clock", *clock)
        }
        KernelStep::Dropped => printer.start("dropped"),
        KernelStep::Evicted { node, count } => {
            printer.start("evicted")?;
            printer.number("nodeid", *node)?;
            printer.number("count", *count)
        }
        KernelStep::Aborted => printer.start("aborted"),
    }
}

/// Prints an answer: a line of its own among words, an object in an array in JSON.
fn print_answered<A: Allocator + Copy, W: Write>(
    out: &mut W,
    form: Form,
    is_first: bool,
    call: u64,
    answer: Answer<A>,
) -> Result<(), OutputRefused> {
    if form == Form::Words {
        return write_record(out, &Record::Answered { call, answer });
    }
    let mut printer = Printer::new(out, form);
    if !is_first {
        printer.put(b",")?;
    }
    print_answer(&mut printer, call, &answer)
}

/// Collects the answers that wait, in rising number of their calls, and prints them.
fn print_answers<Q: QueueTable<Purpose>, C: CountTable<Heap = Q::Heap>, W: Write>(
    out: &mut W,
    form: Form,
    kernel: &mut KernelOf<Q, C>,
) -> Result<(), OutputRefused>
    ensures { OnOk result (kernel.new ≡ all_collected kernel.old) }
{
    let mut is_first = true;
    while let Some((call, answer)) = kernel.collect() {
        print_answered(out, form, is_first, call, answer)?;
        is_first = false;
    }
    Ok(())
}

/// Prints what an event of the kernel came to, and the answers of calls, which are collected.
///
/// # Errors
///
/// The output refused.
pub(crate) fn print_kernel_step<Q: QueueTable<Purpose>, C: CountTable<Heap = Q::Heap>, W: Write>(
    out: &mut W,
    form: Form,
    step: &KernelStep<Q::Heap>,
    kernel: &mut KernelOf<Q, C>,
) -> Result<(), OutputRefused>
    ensures { OnOk result (kernel.new ≡ all_collected kernel.old) }
{
    let mut printer = Printer::new(out, form);
    print_step(&mut printer, step)?;
    if form == Form::Words {
        printer.end()?;
        return print_answers(out, form, kernel);
    }
    printer.put(b",\"answers\":[")?;
    print_answers(out, form, kernel)?;
    let mut printer = Printer::new(out, form);
    printer.put(b"]")?;
    printer.end()
}
