//! One move of a driven kernel, printed.

ghost use Rattle.std.specs.Prelude.{◌≡◌, ◌++◌, ◌||◌, [], ℕ, Bool as BoolOf, IfErr, IfNone, IfSome, List, OnOk, codes, false};
ghost use Rattle.fuse_device.specs.Transfers.{Transfer};
ghost use Rattle.fk_drive.specs.Driving.{Turn, idle};
ghost use Rattle.fk_drive_frames.specs.declared.filling.FreeFields.{FreeFields as Fields};
ghost use Rattle.fuse_text.specs.Nodes.{nodes_text};
ghost use Rattle.fk_lookup_count.specs.CountedNodes.{listed_counts};
ghost use Rattle.fw_drive.specs.Findings.{Tells, Told, is_any_wrong};
ghost use Rattle.fw_drive.specs.LineMoves.{FirstThen, IsCollected, IsEvent, IsSentBy, IsWritten, Perhaps};
ghost use Rattle.fw_drive.specs.Moves.{Moves, sends, writes};
ghost use Rattle.fw_drive.specs.Notes.{Note, notes_text};
ghost use Rattle.fw_drive.specs.Printed.{Gets, IsRequestLine, IsWrittenLine, of_frame, refusal_text};
ghost use Rattle.fw_drive.specs.Printing.{HasPrinted};
ghost use Rattle.fw_drive.specs.Runs.{Collects, EndsBehind, Goes, GoesAlone, IsUnprinted, at};
ghost use Rattle.fw_drive.specs.declared.form.Form.{Form as FormOf};

use crate::driver::Driver;
use crate::form::Form;
use crate::notes::Notes;
use crate::printing::{print_frame, print_refusal, print_refused, shown_unique};
use crate::stop::{Stop, stop_at};
use fk_drive::{DriveEnd, NotSent, Written};
use fk_wire::{Opcode, ReplyHead};
use fuse_device::Device;
use fuse_frames::RequestFrame;
use fuse_spec::WriteResult;
use fuse_text::write_nodes;
use fw_world::{Event, Outcome, Pick, Refusal, Tables};
use std::alloc::Allocator;
use std::io::Write;

/// What a move gives back: the number of a request, if one, or why the kernel refuses.
pub(crate) type Moved = Result<Option<u64>, Refusal>;

/// Collects the answers that wait, in rising number of their calls, and prints them.
fn collect_answers<T: Tables, W: Write>(
    driver: &mut Driver<T>,
    notes: &mut Notes<T>,
    out: &mut W,
) -> Result<(), Stop>
    ensures { (f : FormOf) → Collects T.Heap f [] false
        (W.contents out.old, notes.old.is_wrong) (W.contents out.new, notes.new.is_wrong) driver.old driver.new result }
{
    while let Some((call, answer)) = driver.collect() {
        match notes.note_answer(call, answer, out) {
            Ok(()) => {}
            Err(stop) => return Err(stop),
        }
    }
    Ok(())
}

/// An event happens that moves the kernel without its server.
pub(crate) fn act<T: Tables, W: Write>(
    driver: &mut Driver<T>,
    notes: &mut Notes<T>,
    event: &Event<'_>,
    out: &mut W,
) -> Result<(), Stop>
    ensures { (f : FormOf) → GoesAlone T.Heap f
        (W.contents out.old, notes.old.is_wrong) (W.contents out.new, notes.new.is_wrong) driver.old driver.new result
        (FirstThen (IsEvent event.now) IsCollected) }
{
    match driver.act(event) {
        Ok(outcome) => match notes.note_outcome(event, outcome, out) {
            Ok(()) => collect_answers(driver, notes, out),
            Err(stop) => Err(stop),
        },
        Err(refusal) => match print_refusal::<T::Heap, W>(out, refusal) {
            Ok(()) => Ok(()),
            Err(_refused) => Err(Stop::OutputRefused),
        },
    }
}

/// The request that was sent, by its number, where a reply is to come.
fn unique_awaited<T: Tables>(driver: &Driver<T>, unique: u64, opcode: Opcode) -> Option<u64> {
    match opcode {
        Opcode::Forget | Opcode::BatchForget => None,
        Opcode::Readdir | Opcode::Readdirplus if !driver.is_asking() => None,
        _ => Some(unique),
    }
}

/// Reads a request from the kernel, and sends it. What is noted of frames meanwhile is printed as it comes: the second
/// part says whether it could be.
fn send_printing<T: Tables, D: Device, W: Write>(
    driver: &mut Driver<T>,
    device: &mut D,
    notes: &mut Notes<T>,
    pick: Pick,
    out: &mut W,
) -> (Result<RequestFrame<T::Heap>, NotSent>, Result<(), Stop>)
    ensures moves { (fields : Fields) × (turn : Turn) × (log : List Transfer) × D.logs device.old device.new log
        × Moves {A = T.Heap} (at driver.old idle) (sends pick fields result.0) log (at driver.new turn) }
    ensures printed { HasPrinted T.Heap result.1
        (W.contents out.old, notes.old.is_wrong) (W.contents out.new, notes.new.is_wrong) }
{
    notes.printed = Ok(());
    let sent = driver.send(device, notes, out, pick);
    (sent, notes.printed)
}

/// Prints a request that was sent, behind what was noted, and the answers that wait. Gives the number whose reply is to
/// come, if one is.
fn note_request<T: Tables, W: Write>(
    driver: &mut Driver<T>,
    notes: &mut Notes<T>,
    form: Form,
    frame: &RequestFrame<T::Heap>,
    printed: Result<(), Stop>,
    out: &mut W,
) -> Result<Moved, Stop>
    ensures { (had : Told) → HasPrinted T.Heap printed had (W.contents out.old, notes.old.is_wrong)
        → (before : List (Note T.Heap)) × (line : List ℕ) × IsRequestLine T.Heap form frame.now line
        × Collects T.Heap form (notes_text before ++ line) (is_any_wrong before) had
        (W.contents out.new, notes.new.is_wrong) driver.old driver.new result }
{
    let (unique, opcode) = frame.head();
    let len = frame.bytes().len();
    match printed {
        Ok(()) => {}
        Err(stop) => return Err(stop),
    }
    if notes.note_sent(driver, frame).is_err() {
        return Err(Stop::NoMemory);
    }
    let read = Outcome::Read {
        unique,
        opcode,
        len,
    };
    match print_frame::<T::Heap, W>(out, form, read) {
        Ok(()) => {
            let awaited = unique_awaited(driver, unique, opcode);
            match collect_answers(driver, notes, out) {
                Ok(()) => Ok(Ok(awaited)),
                Err(stop) => Err(stop),
            }
        }
        Err(_refused) => Err(Stop::OutputRefused),
    }
}

/// Prints why the kernel refuses, behind what was noted.
fn note_refusal<A: Allocator, W: Write>(
    form: Form,
    refusal: Refusal,
    printed: Result<(), Stop>,
    out: &mut W,
) -> Result<Moved, Stop>
    ensures { (had : Told) (told : BoolOf) → HasPrinted A printed had (W.contents out.old, told)
        → IfErr result IsUnprinted × (before : List (Note A)) × Gets result had.0 (W.contents out.new)
        (notes_text before ++ of_frame form (refusal_text A refusal)) × Tells result had.1 told (is_any_wrong before) }
{
    match printed {
        Ok(()) => {}
        Err(stop) => return Err(stop),
    }
    match print_refused::<A, W>(out, form, refusal) {
        Ok(()) => Ok(Err(refusal)),
        Err(_refused) => Err(Stop::OutputRefused),
    }
}

/// Why a run ends behind what was noted.
fn end_behind(printed: Result<(), Stop>, stop: Stop) -> Stop
    ensures ok { OnOk printed (result ≡ stop) }
    ensures err { IfErr printed (λ unprinted. result ≡ unprinted) }
{
    match printed {
        Ok(()) => stop,
        Err(unprinted) => unprinted,
    }
}

/// Reads a request from the kernel, and sends it. Says why the kernel refuses, or the number whose reply is to come.
pub(crate) fn send<T: Tables, D: Device, W: Write>(
    driver: &mut Driver<T>,
    device: &mut D,
    notes: &mut Notes<T>,
    form: Form,
    pick: Pick,
    out: &mut W,
) -> Result<Moved, Stop>
    ensures { Goes T.Heap D.logs form device.old device.new
        (W.contents out.old, notes.old.is_wrong) (W.contents out.new, notes.new.is_wrong) driver.old driver.new
        result (Perhaps result (FirstThen (IsSentBy pick) IsCollected)) }
{
    if out.flush().is_err() {
        return Err(Stop::OutputRefused);
    }
    let (sent, printed) = send_printing(driver, device, notes, pick, out);
    match sent {
        Ok(frame) => note_request(driver, notes, form, &frame, printed, out),
        Err(not_sent) => match not_sent {
            NotSent::Refused(refusal) => note_refusal::<T::Heap, W>(form, refusal, printed, out),
            NotSent::Ended(end) => Err(end_behind(printed, stop_at(end))),
        },
    }
}

/// The request that a frame ended, by its number.
fn ended_by<A: Allocator>(written: &Written<A>) -> Option<u64> {
    match (written.result, ReplyHead::read(written.frame.as_slice())) {
        (WriteResult::NoEntry, _) | (_, Err(_)) => None,
        (_, Ok(head)) => Some(head.unique),
    }
}

/// Writes the next frame of the server to the kernel. What is noted of frames meanwhile is printed as it comes: the second
/// part says whether it could be.
fn receive_printing<T: Tables, D: Device, W: Write>(
    driver: &mut Driver<T>,
    device: &mut D,
    notes: &mut Notes<T>,
    out: &mut W,
) -> (
    Result<Result<Written<T::Heap>, Refusal>, DriveEnd>,
    Result<(), Stop>,
)
    ensures moves { (turn : Turn) × (log : List Transfer) × D.logs device.old device.new log
        × Moves {A = T.Heap} (at driver.old idle) (writes result.0) log (at driver.new turn) }
    ensures printed { HasPrinted T.Heap result.1
        (W.contents out.old, notes.old.is_wrong) (W.contents out.new, notes.new.is_wrong) }
{
    notes.printed = Ok(());
    let received = driver.receive(device, notes, out);
    (received, notes.printed)
}

/// Prints a frame that was written to the kernel, behind what was noted, and what is to be said of it.
fn print_reply<T: Tables, W: Write>(
    notes: &mut Notes<T>,
    form: Form,
    written: &Written<T::Heap>,
    printed: Result<(), Stop>,
    out: &mut W,
) -> Result<(), Stop>
    ensures { (had : Told) → HasPrinted T.Heap printed had (W.contents out.old, notes.old.is_wrong)
        → IfErr result IsUnprinted
        × (before after : List (Note T.Heap)) × (line : List ℕ) × IsWrittenLine form written.now line
        × Gets result had.0 (W.contents out.new) (notes_text before ++ (line ++ notes_text after))
        × Tells result had.1 notes.new.is_wrong (is_any_wrong before || is_any_wrong after) }
{
    let unique = shown_unique(written.frame.as_slice());
    let result = written.result;
    match printed {
        Ok(()) => {}
        Err(stop) => return Err(stop),
    }
    match print_frame::<T::Heap, W>(out, form, Outcome::Written { unique, result }) {
        Ok(()) => notes.note_written(written, out),
        Err(_refused) => Err(Stop::OutputRefused),
    }
}

/// Prints what is to be said of a frame that was written to the kernel, and the answers that wait, where the run goes on
/// behind it. Gives the request that it ended, if one.
fn note_reply<T: Tables, W: Write>(
    driver: &mut Driver<T>,
    notes: &mut Notes<T>,
    form: Form,
    written: &Written<T::Heap>,
    printed: Result<(), Stop>,
    out: &mut W,
) -> Result<Moved, Stop>
    ensures some { (had : Told) → HasPrinted T.Heap printed had (W.contents out.old, notes.old.is_wrong)
        → IfSome written.now.end (λ end. (driver.new ≡ driver.old)
        × EndsBehind form written.now end had.0 (W.contents out.new) result) }
    ensures none { (had : Told) → HasPrinted T.Heap printed had (W.contents out.old, notes.old.is_wrong)
        → IfNone written.now.end ((before : List (Note T.Heap)) × (line : List ℕ) × IsWrittenLine form written.now line
        × Collects T.Heap form (notes_text before ++ line) (is_any_wrong before) had
        (W.contents out.new, notes.new.is_wrong) driver.old driver.new result) }
{
    if let Err(stop) = print_reply(notes, form, written, printed, out) {
        return Err(stop);
    }
    if let Some(end) = written.end {
        return Err(stop_at(end));
    }
    match collect_answers(driver, notes, out) {
        Ok(()) => Ok(Ok(ended_by(written))),
        Err(stop) => Err(stop),
    }
}

/// Writes the next frame of the server to the kernel. Says why the kernel refuses, or which request that ended, if one.
pub(crate) fn receive<T: Tables, D: Device, W: Write>(
    driver: &mut Driver<T>,
    device: &mut D,
    notes: &mut Notes<T>,
    form: Form,
    out: &mut W,
) -> Result<Moved, Stop>
    ensures { Goes T.Heap D.logs form device.old device.new
        (W.contents out.old, notes.old.is_wrong) (W.contents out.new, notes.new.is_wrong) driver.old driver.new
        result (Perhaps result (FirstThen IsWritten IsCollected)) }
{
    if out.flush().is_err() {
        return Err(Stop::OutputRefused);
    }
    let (received, printed) = receive_printing(driver, device, notes, out);
    match received {
        Ok(Ok(written)) => note_reply(driver, notes, form, &written, printed, out),
        Ok(Err(refusal)) => note_refusal::<T::Heap, W>(form, refusal, printed, out),
        Err(end) => Err(end_behind(printed, stop_at(end))),
    }
}

/// Prints the nodes that the kernel counts.
pub(crate) fn show<T: Tables, W: Write>(driver: &Driver<T>, out: &mut W) -> Result<(), Stop>
    ensures printed { Gets result (W.contents out.old) (W.contents out.new)
        (nodes_text (codes "kernel") (listed_counts driver.now.kernel.nodes)) }
    ensures own { IfErr result IsUnprinted }
{
    match driver.nodes() {
        Ok(nodes) => match write_nodes(out, b"kernel", nodes.as_slice()) {
            Ok(()) => Ok(()),
            Err(_refused) => Err(Stop::OutputRefused),
        },
        Err(_) => Err(Stop::NoMemory),
    }
}
