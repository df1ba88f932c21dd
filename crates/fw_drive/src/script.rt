//! The lines of a script, one after another.

ghost use Rattle.std.specs.Prelude.{◌≡◌, ◌++◌, All, IfErr, List, codes, false};
ghost use Rattle.fuse_text.specs.Nodes.{nodes_text};
ghost use Rattle.fk_lookup_count.specs.CountedNodes.{listed_counts};
ghost use Rattle.fw_drive.specs.Findings.{is_any_wrong};
ghost use Rattle.fw_drive.specs.LineMoves.{FirstThen, IsCollected, IsMoveOf, LinesMoveAs, MayFollow, Perhaps, mount_lines};
ghost use Rattle.fw_drive.specs.Notes.{Note, notes_text};
ghost use Rattle.fw_drive.specs.Printed.{Gets};
ghost use Rattle.fw_drive.specs.Runs.{Goes, GoesAlone, IsUnprinted};
ghost use Rattle.fw_drive.specs.declared.form.Form.{Form as FormOf};
ghost use Rattle.fw_drive.specs.declared.line.DriveLine.TheVariants as said;

use crate::carried_calls::{carry, mount};
use crate::driver::Driver;
use crate::exchange::{act, receive, send, show};
use crate::form::Form;
use crate::line::DriveLine;
use crate::notes::Notes;
use crate::place::{Place, Places};
use crate::stop::{Stop, flush};
use fuse_device::Device;
use fuse_text::{is_hex_or_none, read_hex_or_none};
use fw_world::{Call, Event, Tables};
use std::io::Write;

/// A call that puts bytes into an open file begins.
fn begin_write<T: Tables, W: Write>(
    alloc: T::Heap,
    driver: &mut Driver<T>,
    notes: &mut Notes<T>,
    file: (u64, u64, &[u8]),
    out: &mut W,
) -> Result<(), Stop>
    ensures { (f : FormOf) → GoesAlone T.Heap f
        (W.contents out.old, notes.old.is_wrong) (W.contents out.new, notes.new.is_wrong) driver.old driver.new result
        (Perhaps result (FirstThen (IsMoveOf (said.CallWrite file.entry.0 file.entry.1 file.entry.2)) IsCollected)) }
{
    let (open_call, offset, hex) = file;
    let mut bytes = Vec::new(alloc);
    if !is_hex_or_none(hex) {
        return Err(Stop::NoMemory);
    }
    match read_hex_or_none(&mut bytes, hex) {
        Ok(()) => {
            let call = Call::Write {
                open_call,
                offset,
                bytes: bytes.as_slice(),
            };
            act(driver, notes, &Event::Call(call), out)
        }
        Err(_) => Err(Stop::NoMemory),
    }
}

/// Does what a line says.
fn run_line<T: Tables, D: Device, W: Write>(
    alloc: T::Heap,
    driver: &mut Driver<T>,
    device: &mut D,
    notes: &mut Notes<T>,
    form: Form,
    line: DriveLine<'_>,
    out: &mut W,
) -> Result<(), Stop>
    ensures { Goes T.Heap D.logs form device.old device.new
        (W.contents out.old, notes.old.is_wrong) (W.contents out.new, notes.new.is_wrong)
        driver.old driver.new result
        (Perhaps result (FirstThen (IsMoveOf line.entry) IsCollected)) }
{
    match line {
        DriveLine::Read(pick) => match send(driver, device, notes, form, pick, out) {
            Ok(_) => Ok(()),
            Err(stop) => Err(stop),
        },
        DriveLine::Event(event) => act(driver, notes, &event, out),
        DriveLine::Open { path, flags } => {
            driver.open_with(flags);
            act(driver, notes, &Event::Call(Call::Open { path }), out)
        }
        DriveLine::CallWrite {
            open_call,
            offset,
            hex,
        } => begin_write(alloc, driver, notes, (open_call, offset, hex), out),
        DriveLine::Write => match receive(driver, device, notes, form, out) {
            Ok(_) => Ok(()),
            Err(stop) => Err(stop),
        },
        DriveLine::Show => show(driver, out),
    }
}

/// Carries a call to its answer where the script is of calls.
fn carry_on<T: Tables, D: Device, W: Write>(
    driver: &mut Driver<T>,
    device: &mut D,
    notes: &mut Notes<T>,
    form: Form,
    out: &mut W,
) -> Result<(), Stop>
    ensures { Goes T.Heap D.logs form device.old device.new
        (W.contents out.old, notes.old.is_wrong) (W.contents out.new, notes.new.is_wrong)
        driver.old driver.new result (All (MayFollow form)) }
{
    if form.is_of_calls() {
        carry(driver, device, notes, form, out)
    } else {
        Ok(())
    }
}

/// Does what a line says, and carries a call to its answer where the script is of calls.
fn run_carried<T: Tables, D: Device, W: Write>(
    alloc: T::Heap,
    driver: &mut Driver<T>,
    device: &mut D,
    notes: &mut Notes<T>,
    form: Form,
    line: DriveLine<'_>,
    out: &mut W,
) -> Result<(), Stop>
    ensures { Goes T.Heap D.logs form device.old device.new
        (W.contents out.old, notes.old.is_wrong) (W.contents out.new, notes.new.is_wrong)
        driver.old driver.new result
        (Perhaps result (FirstThen (IsMoveOf line.entry) (MayFollow form))) }
{
    match run_line(alloc, driver, device, notes, form, line, out) {
        Ok(()) => carry_on(driver, device, notes, form, out),
        Err(stop) => Err(stop),
    }
}

/// Does what the line of a place says, and hands on what was printed.
pub(crate) fn do_line<T: Tables, D: Device, W: Write>(
    alloc: T::Heap,
    driver: &mut Driver<T>,
    device: &mut D,
    notes: &mut Notes<T>,
    form: Form,
    place: Place<'_>,
    line: DriveLine<'_>,
    out: &mut W,
) -> Result<(), Stop>
    ensures { Goes T.Heap D.logs form device.old device.new
        (W.contents out.old, notes.old.is_wrong) (W.contents out.new, notes.new.is_wrong)
        driver.old driver.new result
        (Perhaps result (FirstThen (IsMoveOf line.entry) (MayFollow form))) }
{
    notes.begin_line(place);
    match run_carried(alloc, driver, device, notes, form, line, out) {
        Ok(()) => flush(out),
        Err(stop) => Err(stop),
    }
}

/// Does what the lines of a script say.
fn run_lines<T: Tables, D: Device, W: Write>(
    alloc: T::Heap,
    driver: &mut Driver<T>,
    device: &mut D,
    notes: &mut Notes<T>,
    form: Form,
    script: &[u8],
    lines: &[DriveLine<'_>],
    out: &mut W,
) -> Result<(), Stop>
    ensures { Goes T.Heap D.logs form device.old device.new
        (W.contents out.old, notes.old.is_wrong) (W.contents out.new, notes.new.is_wrong)
        driver.old driver.new result
        (LinesMoveAs form result lines.now) }
{
    let mut places = Places::of(script);
    for line in lines {
        let place = places.next_said();
        if let Err(stop) = do_line(alloc, driver, device, notes, form, place, *line, out) {
            return Err(stop);
        }
    }
    Ok(())
}

/// Does what a script says whose lines are good, behind a mount where it is one of calls.
pub(crate) fn run_script<T: Tables, D: Device, W: Write>(
    alloc: T::Heap,
    driver: &mut Driver<T>,
    device: &mut D,
    notes: &mut Notes<T>,
    form: Form,
    script: &[u8],
    lines: &[DriveLine<'_>],
    out: &mut W,
) -> Result<(), Stop>
    ensures { Goes T.Heap D.logs form device.old device.new
        (W.contents out.old, notes.old.is_wrong) (W.contents out.new, notes.new.is_wrong)
        driver.old driver.new result
        (LinesMoveAs form result (mount_lines form ++ lines.now)) }
{
    if !form.is_of_calls() {
        return run_lines(alloc, driver, device, notes, form, script, lines, out);
    }
    match mount(driver, device, notes, form, out) {
        Ok(()) => run_lines(alloc, driver, device, notes, form, script, lines, out),
        Err(stop) => Err(stop),
    }
}

/// Prints what is known at the end: the nodes that the kernel counts, and how the answers of a world beside compare.
pub(crate) fn print_end<T: Tables, W: Write>(
    driver: &Driver<T>,
    notes: &Notes<T>,
    out: &mut W,
) -> Result<(), Stop>
    ensures printed { (said : List (Note T.Heap)) × Gets result (W.contents out.old) (W.contents out.new)
        (nodes_text (codes "kernel") (listed_counts driver.now.kernel.nodes) ++ notes_text said)
        × (is_any_wrong said ≡ false) }
    ensures own { IfErr result IsUnprinted }
{
    match show(driver, out) {
        Ok(()) => match notes.print_count(out) {
            Ok(()) => flush(out),
            Err(stop) => Err(stop),
        },
        Err(stop) => Err(stop),
    }
}
