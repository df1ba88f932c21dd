//! Lines that a source gives are run, each before the next is asked for.

ghost use Rattle.std.specs.Prelude.{◌≡◌, ◌∷◌, [], ℕ, IfOk, List, MatchBool, length};
ghost use Rattle.fw_drive.specs.LineMoves.{LinesMove, mount_lines};
ghost use Rattle.fw_drive.specs.Runs.{Goes};
ghost use Rattle.fw_drive.specs.Sources.{Gave, RunsFrom, RunsGiven};

use crate::carried_calls::mount;
use crate::driver::Driver;
use crate::form::Form;
use crate::halt::Halt;
use crate::line::read_any;
use crate::notes::Notes;
use crate::place::Place;
use crate::script::do_line;
use crate::source::{LineSource, NoLine};
use crate::stop::{Stop, flush};
use fuse_device::Device;
use fw_world::Tables;
use std::io::Write;

/// Does what a line says, if it says anything, and hands on what was printed.
fn run_given_line<T: Tables, D: Device, W: Write>(
    alloc: T::Heap,
    driver: &mut Driver<T>,
    device: &mut D,
    notes: &mut Notes<T>,
    form: Form,
    number: usize,
    line: &[u8],
    out: &mut W,
) -> Result<(), Halt>
    ensures { RunsGiven T.Heap D.logs form device.old device.new
        (W.contents out.old, notes.old.is_wrong) (W.contents out.new, notes.new.is_wrong)
        driver.old driver.new [] number result (line.now ∷ []) }
{
    let place = Place {
        number: number as u64,
        text: line,
    };
    match read_any(form, line) {
        Ok(Some(said)) => match do_line(alloc, driver, device, notes, form, place, said, out) {
            Ok(()) => Ok(()),
            Err(stop) => Err(Halt::Stopped(stop)),
        },
        Ok(None) => Ok(()),
        Err(fault) => Err(Halt::BadLine { number, fault }),
    }
}

/// Asks for the next line, and does what it says. Says whether there was one.
fn run_next<T: Tables, D: Device, S: LineSource<W>, W: Write>(
    alloc: T::Heap,
    driver: &mut Driver<T>,
    device: &mut D,
    notes: &mut Notes<T>,
    form: Form,
    source: &mut S,
    line: &mut Vec<u8, T::Heap>,
    number: usize,
    out: &mut W,
) -> Result<bool, Halt>
    ensures { (lines : List (List ℕ)) × Gave S.gives result source.old source.new lines
        × RunsGiven T.Heap D.logs form device.old device.new
        (W.contents out.old, notes.old.is_wrong) (W.contents out.new, notes.new.is_wrong)
        driver.old driver.new [] number result lines
        × IfOk result (λ is_given. MatchBool is_given (length lines ≡ 1) ((lines ≡ []) × S.is_over source.new)) }
{
    match source.next_line(driver.standing(), &*driver, out, line) {
        Ok(true) => {
            let line = line.as_slice();
            match run_given_line(alloc, driver, device, notes, form, number, line, out) {
                Ok(()) => Ok(true),
                Err(halt) => Err(halt),
            }
        }
        Ok(false) => Ok(false),
        Err(why) => Err(Halt::NoLine(why)),
    }
}

/// Does what the lines of a source say, until it is at its end.
fn run_given<T: Tables, D: Device, S: LineSource<W>, W: Write>(
    alloc: T::Heap,
    driver: &mut Driver<T>,
    device: &mut D,
    notes: &mut Notes<T>,
    form: Form,
    source: &mut S,
    out: &mut W,
) -> Result<(), Halt>
    ensures { RunsFrom T.Heap D.logs S.gives S.is_over form device.old device.new source.old source.new
        (W.contents out.old, notes.old.is_wrong) (W.contents out.new, notes.new.is_wrong)
        driver.old driver.new [] 1 result }
{
    let mut line = Vec::new(alloc);
    for number in 1..usize::MAX {
        match run_next(
            alloc, driver, device, notes, form, source, &mut line, number, out,
        ) {
            Ok(true) => {}
            Ok(false) => return Ok(()),
            Err(halt) => return Err(halt),
        }
    }
    Err(Halt::NoLine(NoLine::NoMemory))
}

/// The kernel mounts where the lines are those of calls, and what was printed is handed on.
fn mount_first<T: Tables, D: Device, W: Write>(
    driver: &mut Driver<T>,
    device: &mut D,
    notes: &mut Notes<T>,
    form: Form,
    out: &mut W,
) -> Result<(), Stop>
    ensures { Goes T.Heap D.logs form device.old device.new
        (W.contents out.old, notes.old.is_wrong) (W.contents out.new, notes.new.is_wrong)
        driver.old driver.new result
        (LinesMove form (mount_lines form)) }
{
    if !form.is_of_calls() {
        return Ok(());
    }
    match mount(driver, device, notes, form, out) {
        Ok(()) => flush(out),
        Err(stop) => Err(stop),
    }
}

/// Does what the lines of a source say, until it is at its end, behind a mount where they are those of calls.
pub(crate) fn run_lines_of<T: Tables, D: Device, S: LineSource<W>, W: Write>(
    alloc: T::Heap,
    driver: &mut Driver<T>,
    device: &mut D,
    notes: &mut Notes<T>,
    form: Form,
    source: &mut S,
    out: &mut W,
) -> Result<(), Halt>
    ensures { RunsFrom T.Heap D.logs S.gives S.is_over form device.old device.new source.old source.new
        (W.contents out.old, notes.old.is_wrong) (W.contents out.new, notes.new.is_wrong)
        driver.old driver.new (mount_lines form) 1 result }
{
    match mount_first(driver, device, notes, form, out) {
        Ok(()) => run_given(alloc, driver, device, notes, form, source, out),
        Err(stop) => Err(Halt::Stopped(stop)),
    }
}
