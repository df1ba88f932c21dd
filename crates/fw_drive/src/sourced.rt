//! The run of lines that a source gives one at a time.

ghost use Rattle.std.specs.Prelude.{◌≡◌, ◌⊎◌, ◌∷◌, [], Contains, codes, false};
ghost use Rattle.driven_sessions.specs.Rules.{KeepsRules};
ghost use Rattle.fk_drive.specs.Driving.{Driven, DrivesOver, first_driven};
ghost use Rattle.fuse_text.specs.Outputs.{AppendsSome};
ghost use Rattle.fw_drive.specs.MoveRules.{MovesKeepRules};
ghost use Rattle.fw_drive.specs.Sources.{RunsAll, RunsSource};

use crate::driver::Driver;
use crate::fault::Unanswered;
use crate::form::Form;
use crate::given::run_lines_of;
use crate::halt::Halt;
use crate::notes::Notes;
use crate::run::Task;
use crate::script::print_end;
use crate::source::LineSource;
use crate::stop::status_at_end;
use fuse_device::Device;
use fw_world::{Maps, Tables};
use std::alloc::Allocator;
use std::io::Write;

/// Does what the lines of a source say, and prints what is known at its end.
fn run_all<T: Tables, D: Device, S: LineSource<W>, W: Write>(
    alloc: T::Heap,
    driver: &mut Driver<T>,
    device: &mut D,
    notes: &mut Notes<T>,
    form: Form,
    source: &mut S,
    out: &mut W,
) -> Result<(), Halt>
    ensures { RunsAll T.Heap D.logs S.gives S.is_over form device.old device.new source.old source.new
        (W.contents out.old, notes.old.is_wrong) (W.contents out.new, notes.new.is_wrong) driver.old driver.new result }
{
    match run_lines_of(alloc, driver, device, notes, form, source, out) {
        Ok(()) => match print_end(driver, notes, out) {
            Ok(()) => Ok(()),
            Err(stop) => Err(Halt::Stopped(stop)),
        },
        Err(halt) => Err(halt),
    }
}

/// Does on a new kernel what the lines of a source say. The second part says whether the server was wrong, and the third
/// which requests wait for a reply.
fn run_new<T: Tables, D: Device, S: LineSource<W>, W: Write>(
    alloc: T::Heap,
    task: Task<'_>,
    device: &mut D,
    source: &mut S,
    out: &mut W,
) -> (Result<(), Halt>, bool, Option<Unanswered>)
    ensures { (last : Driven) × RunsAll T.Heap D.logs S.gives S.is_over task.entry.form device.old device.new
        source.old source.new (W.contents out.old, false) (W.contents out.new, result.1)
        (first_driven task.entry.opens_directories) last result.0 }
{
    let mut notes = match Notes::<T>::new(alloc, task.form) {
        Ok(notes) => notes,
        Err(stop) => return (Err(Halt::Stopped(stop)), false, None),
    };
    let mut driver = Driver::<T>::new(alloc, task.opens_directories, task.free_fields);
    let ended = run_all(
        alloc,
        &mut driver,
        device,
        &mut notes,
        task.form,
        source,
        out,
    );
    let is_wrong = notes.is_wrong;
    let waits = notes.unanswered();
    driver.end();
    notes.end();
    (ended, is_wrong, waits)
}

/// Runs the lines that a source gives on a new kernel, whose server stands behind a device: each is judged, run, and what
/// it results in printed, before the next is asked for.
///
/// Gives the exit status: 0 where the source came to its end; 1 after `cannot read` with the task's name, or `line N:` and
/// the fault of a bad line, on `faults`: the lines before it were run; 3 after `no memory`; 4 after `no reply`, `server
/// ended` or `device failed` on `out`; 5 where `out` refuses; or 6 in place of 0 where it was printed that the server was
/// wrong, unless the task says that this is only reported.
pub fn run_source<A: Allocator + Copy, D: Device, S: LineSource<W>, W: Write, F: Write>(
    alloc: A,
    task: Task<'_>,
    device: &mut D,
    source: &mut S,
    out: &mut W,
    faults: &mut F,
) -> u8
    ensures statuses { Contains (0 ∷ 1 ∷ 3 ∷ 4 ∷ 5 ∷ 6 ∷ []) result }
    ensures no_memory { result ≡ 3 → AppendsSome (F.contents faults.old) (F.contents faults.new) (codes "no memory\n") }
    ensures no_fault { (result ≡ 0) ⊎ (result ≡ 4) ⊎ (result ≡ 5) ⊎ (result ≡ 6) →
        F.contents faults.new ≡ F.contents faults.old }
    ensures drives { (new : Driven) × DrivesOver D.logs device.old device.new (first_driven task.entry.opens_directories) new }
    // No session of what went over the device shows a fault of the kernel, of those that `KeepsRules` has.
    ensures rules { KeepsRules D.logs device.old device.new task.entry.opens_directories }
    // It keeps them in the moves that are made, and mounts as often as they do.
    ensures rules_of_moves { MovesKeepRules A task.entry.opens_directories }
    // The lines that the source gave are run, in their order, and none is left out. What is printed is the text of what
    // they come to. The status is 6 exactly where all were run and a line of it says that the server was wrong.
    ensures runs { RunsSource A D.logs S.gives S.is_over task.entry.form task.entry.name.now task.entry.opens_directories
        task.entry.is_report_only device.old device.new source.old source.new (W.contents out.old) (W.contents out.new)
        (F.contents faults.old) (F.contents faults.new) result }
{
    let (ended, is_wrong, waits) = run_new::<Maps<A>, D, S, W>(alloc, task, device, source, out);
    match ended {
        Ok(()) => status_at_end(task.is_report_only, is_wrong),
        Err(halt) => halt.report::<A, W, F>(task.name, waits, out, faults),
    }
}
