//! A kernel by itself, given one line after another.

ghost use Rattle.std.specs.Prelude.{◌≡◌, ◌++◌, ℕ, List, OnOk, codes};
ghost use Rattle.fuse_text.specs.HexTexts.{IsHexOrNone};
ghost use Rattle.fw_sides.specs.KernelLines.{SaysLine};
ghost use Rattle.fuse_spec.specs.Kernel.Kernel.{Kernel as KernelState};
ghost use Rattle.fuse_spec.specs.World.Worlds.{first_kernel};
ghost use Rattle.fw_sides.specs.KernelRuns.{DoesKernelLine, KernelHappens};
ghost use Rattle.fw_sides.specs.Lines.{DoLines};

use crate::form::Form;
use crate::input::End;
use crate::kernel_line::{KernelLine, read_kernel_line};
use crate::kernel_text::print_kernel_step;
use crate::nodes_text::print_nodes;
use crate::refusal_text::{print_line_fault, print_refusal};
use crate::side::{Side, do_lines};
use fk_kernel::{Call, KernelEvent, KernelOf};
use fk_lookup_count::CountTable;
use fk_queues::QueueTable;
use fuse_spec::{Purpose, Refusal};
use fuse_text::{OutputRefused, read_hex_or_none};
use fw_script::is_passed_over;
use fw_world::{Maps, Tables};
use std::alloc::Allocator;
use std::io::{BufRead, Write};

/// One event happens, and what it came to is printed.
fn run_event<Q: QueueTable<Purpose>, C: CountTable<Heap = Q::Heap>, W: Write>(
    kernel: &mut KernelOf<Q, C>,
    event: &KernelEvent<'_>,
    form: Form,
    out: &mut W,
) -> Result<(), OutputRefused>
    ensures { OnOk result (KernelHappens Q.Heap kernel.old event.now kernel.new) }
{
    match kernel.step(event) {
        Ok(step) => print_kernel_step(out, form, &step, kernel),
        Err(refusal) => print_refusal(out, form, refusal),
    }
}

/// Bytes that stand in hex are written as a reply.
fn write_reply<Q: QueueTable<Purpose>, C: CountTable<Heap = Q::Heap>, W: Write>(
    kernel: &mut KernelOf<Q, C>,
    bytes: &mut Vec<u8, Q::Heap>,
    hex: &[u8],
    form: Form,
    out: &mut W,
) -> Result<(), OutputRefused>
    requires { IsHexOrNone hex.now }
    ensures { OnOk result (DoesKernelLine Q.Heap kernel.old (codes "write " ++ hex.now) kernel.new) }
{
    match read_hex_or_none(bytes, hex) {
        Ok(()) => run_event(kernel, &KernelEvent::Write(bytes.as_slice()), form, out),
        Err(_) => print_refusal(out, form, Refusal::NoMemory),
    }
}

/// A call begins that puts bytes into an open file, which stand in hex.
fn begin_write<Q: QueueTable<Purpose>, C: CountTable<Heap = Q::Heap>, W: Write>(
    kernel: &mut KernelOf<Q, C>,
    bytes: &mut Vec<u8, Q::Heap>,
    place: (u64, u64),
    hex: &[u8],
    form: Form,
    out: &mut W,
) -> Result<(), OutputRefused>
    requires { IsHexOrNone hex.now }
    ensures { OnOk result ((text : List ℕ) → SaysLine text (KernelLine.CallWrite place.0 place.1 hex.entry)
        → DoesKernelLine Q.Heap kernel.old text kernel.new) }
{
    let (open_call, offset) = place;
    match read_hex_or_none(bytes, hex) {
        Ok(()) => {
            let bytes = bytes.as_slice();
            let call = Call::Write {
                open_call,
                offset,
                bytes,
            };
            run_event(kernel, &KernelEvent::Call(call), form, out)
        }
        Err(_) => print_refusal(out, form, Refusal::NoMemory),
    }
}

/// Prints the nodes that the kernel counts.
fn show<Q: QueueTable<Purpose>, C: CountTable<Heap = Q::Heap>, W: Write>(
    alloc: Q::Heap,
    kernel: &KernelOf<Q, C>,
    form: Form,
    out: &mut W,
) -> Result<(), OutputRefused> {
    match kernel.nodes(alloc) {
        Ok(nodes) => print_nodes(out, form, "kernel", nodes.as_slice()),
        Err(_) => print_refusal(out, form, Refusal::NoMemory),
    }
}

impl<Q: QueueTable<Purpose>, C: CountTable<Heap = Q::Heap>> Side for KernelOf<Q, C> {
    type Heap = Q::Heap;

    type State = KernelOf<Q, C>;

    ghost state = { λ kernel. kernel };

    ghost does = { DoesKernelLine Q.Heap };

    fn do_line<W: Write>(
        &mut self,
        alloc: Q::Heap,
        bytes: &mut Vec<u8, Q::Heap>,
        line: &[u8],
        form: Form,
        out: &mut W,
    ) -> Result<(), OutputRefused> {
        if is_passed_over(line) {
            return Ok(());
        }
        match read_kernel_line(line) {
            Ok(KernelLine::Event(event)) => run_event(self, &event, form, out),
            Ok(KernelLine::Write { hex }) => write_reply(self, bytes, hex, form, out),
            Ok(
                KernelLine::CallWrite {
                    open_call,
                    offset,
                    hex,
                },
            ) => begin_write(self, bytes, (open_call, offset), hex, form, out),
            Ok(KernelLine::Show) => show(alloc, self, form, out),
            Err(fault) => print_line_fault(out, form, fault),
        }
    }
}

/// Runs a new kernel over any tables.
fn run_new<T: Tables, R: BufRead, W: Write>(
    alloc: T::Heap,
    form: Form,
    input: &mut R,
    out: &mut W,
) -> Result<(), End>
    ensures { OnOk result ((lines : List (List ℕ)) × (last : KernelState) × DoLines (DoesKernelLine T.Heap) first_kernel lines last) }
{
    let mut kernel = KernelOf::<T::Queues, T::Counts>::new(alloc);
    let ended = do_lines(&mut kernel, alloc, form, input, out);
    kernel.end();
    ended
}

/// Runs a kernel whose server is another program: each line of the input is one call on it, and what that came to is
/// printed before the next line is read. A line that is refused, or that says nothing, changes nothing.
///
/// # Errors
///
/// Where the input cannot be read, where a line has no room in memory, or where the output refuses.
pub fn run_kernel<A: Allocator + Copy, R: BufRead, W: Write>(
    alloc: A,
    form: Form,
    input: &mut R,
    out: &mut W,
) -> Result<(), End>
    ensures { OnOk result ((lines : List (List ℕ)) × (last : KernelState) × DoLines (DoesKernelLine A) first_kernel lines last) }
{
    run_new::<Maps<A>, R, W>(alloc, form, input, out)
}
