//! The run of a script that drives a server.

ghost use Rattle.std.specs.Prelude.{◌≡◌, ◌⊎◌, ◌++◌, ◌∷◌, [], ℕ, Contains, IfErr, IfOk, IfSome, OnErr, OnOk, codes, false};
ghost use Rattle.driven_sessions.specs.Rules.{KeepsRules};
ghost use Rattle.fk_drive.specs.Driving.{Driven, DrivesOver, first_driven};
ghost use Rattle.fuse_text.specs.Outputs.{AppendsSome};
ghost use Rattle.fuse_text.specs.Stops.{unreadable};
ghost use Rattle.fw_drive.specs.DriveLines.{IsGoodDriveScript};
ghost use Rattle.fw_drive.specs.Judging.{IsUnrun, SaysFirstFault};
ghost use Rattle.fw_drive.specs.LineMoves.{LinesMoveAs, all_lines};
ghost use Rattle.fw_drive.specs.MoveRules.{MovesKeepRules};
ghost use Rattle.fw_drive.specs.Runs.{Goes, RunsScript};

use crate::driver::Driver;
use crate::fault::Unanswered;
use crate::form::Form;
use crate::line::DriveLine;
use crate::lines::{first_fault, read_lines};
use crate::notes::Notes;
use crate::script::{print_end, run_script};
use crate::stop::{Stop, status_at_end};
use fk_drive::FreeFields;
use fuse_device::Device;
use fuse_text::{cannot_read, no_memory};
use fw_script::bad_line;
use fw_world::{Maps, Tables};
use std::alloc::Allocator;
use std::io::{ErrorKind, Read, Write};

/// What is driven, and how.
#[derive(Clone, Copy, Debug)]
pub struct Task<'a> {
    /// The script's name, for what is said of it.
    pub name: &'a str,
    pub form: Form,
    /// Whether OPENDIR goes before what lists a directory.
    pub opens_directories: bool,
    /// What is said in fields that are free.
    pub free_fields: FreeFields,
    /// Whether the exit status is 0 also where the server was wrong.
    pub is_report_only: bool,
}

/// Runs a script whose lines are good, and prints what is known at its end.
fn run_driver<T: Tables, D: Device, W: Write>(
    alloc: T::Heap,
    driver: &mut Driver<T>,
    device: &mut D,
    notes: &mut Notes<T>,
    form: Form,
    script: &[u8],
    lines: &[DriveLine<'_>],
    out: &mut W,
) -> Result<(), Stop>
    ensures { Goes T.Heap D.logs form device.old device.new
        (W.contents out.old, notes.old.is_wrong) (W.contents out.new, notes.new.is_wrong) driver.old driver.new
        result
        (LinesMoveAs form result (all_lines form lines.now)) }
{
    match run_script(alloc, driver, device, notes, form, script, lines, out) {
        Ok(()) => print_end(driver, notes, out),
        Err(stop) => Err(stop),
    }
}

/// Runs a script whose lines are good on a new kernel. The second part says whether the server was wrong, and the third
/// which requests wait for a reply.
fn run_good<T: Tables, D: Device, W: Write>(
    alloc: T::Heap,
    task: Task<'_>,
    device: &mut D,
    script: &[u8],
    lines: &[DriveLine<'_>],
    out: &mut W,
) -> (Result<(), Stop>, bool, Option<Unanswered>)
    ensures { (last : Driven) × Goes T.Heap D.logs task.entry.form device.old device.new
        (W.contents out.old, false) (W.contents out.new, result.1) (first_driven task.entry.opens_directories) last result.0
        (LinesMoveAs task.entry.form result.0 (all_lines task.entry.form lines.now)) }
{
    let mut notes = match Notes::<T>::new(alloc, task.form) {
        Ok(notes) => notes,
        Err(stop) => return (Err(stop), false, None),
    };
    let mut driver = Driver::<T>::new(alloc, task.opens_directories, task.free_fields);
    let ended = run_driver(
        alloc,
        &mut driver,
        device,
        &mut notes,
        task.form,
        script,
        lines,
        out,
    );
    let is_wrong = notes.is_wrong;
    let waits = notes.unanswered();
    driver.end();
    notes.end();
    (ended, is_wrong, waits)
}

/// The bytes of a script, to be judged and run.
///
/// # Errors
///
/// The exit status: 1 after `cannot read` with the script's name, on `faults`; or 3 after `no memory`.
pub fn read_script<A: Allocator, R: Read, F: Write>(
    alloc: A,
    task: Task<'_>,
    input: &mut R,
    faults: &mut F,
) -> Result<Vec<u8, A>, u8>
    ensures ok { IfOk result (λ script. IfSome (R.remaining input.old) (λ bytes. script.items ≡ bytes)) }
    ensures silent { OnOk result (faults.new ≡ faults.old) }
    ensures statuses { IfErr result (Contains (1 ∷ 3 ∷ [])) }
    ensures unreadable { IfErr result (λ status. status ≡ 1 → AppendsSome (F.contents faults.old)
        (F.contents faults.new) (unreadable task.entry.name.now ++ codes "\n")) }
    ensures no_memory { IfErr result (λ status. status ≡ 3 → AppendsSome (F.contents faults.old)
        (F.contents faults.new) (codes "no memory\n")) }
{
    let mut text = Vec::new(alloc);
    match input.read_to_end(&mut text) {
        Ok(_) => Ok(text),
        Err(error) if error.kind() == ErrorKind::OutOfMemory => Err(no_memory(faults)),
        Err(_) => Err(cannot_read(task.name, faults)),
    }
}

/// Judges the lines of a script that is to be run by `run_drive`. So a bad script is refused before a server is looked for.
///
/// # Errors
///
/// The exit status 1 after `line N:` and the fault of the first bad line, on `faults`.
pub fn judge_script<F: Write>(task: Task<'_>, script: &[u8], faults: &mut F) -> Result<(), u8>
    ensures good { OnOk result (IsGoodDriveScript task.entry.form script.now) }
    ensures silent { OnOk result (faults.new ≡ faults.old) }
    ensures status { IfErr result (λ status. status ≡ 1) }
    ensures fault { OnErr result (SaysFirstFault task.entry.form script.now (F.contents faults.old) (F.contents faults.new)) }
{
    match first_fault(task.form, script) {
        None => Ok(()),
        Some((number, fault)) => Err(bad_line(number, fault, faults)),
    }
}

/// Runs a script whose text is known, and gives the exit status, as `run_drive` does.
fn run_text<A: Allocator + Copy, D: Device, W: Write, F: Write>(
    alloc: A,
    task: Task<'_>,
    device: &mut D,
    script: &[u8],
    out: &mut W,
    faults: &mut F,
) -> u8
    ensures statuses { Contains (0 ∷ 1 ∷ 3 ∷ 4 ∷ 5 ∷ 6 ∷ []) result }
    ensures judged { (result ≡ 0) ⊎ (result ≡ 4) ⊎ (result ≡ 5) ⊎ (result ≡ 6) → IsGoodDriveScript task.entry.form script.now }
    ensures unsent { IsGoodDriveScript task.entry.form script.now
        ⊎ ((device.new ≡ device.old) × (out.new ≡ out.old)) }
    ensures unrun { result ≡ 1 → device.new ≡ device.old }
    ensures silent { result ≡ 1 → out.new ≡ out.old }
    ensures fault { result ≡ 1 → SaysFirstFault task.entry.form script.now (F.contents faults.old) (F.contents faults.new) }
    ensures no_memory { result ≡ 3 → AppendsSome (F.contents faults.old) (F.contents faults.new) (codes "no memory\n") }
    ensures no_fault { (result ≡ 0) ⊎ (result ≡ 4) ⊎ (result ≡ 5) ⊎ (result ≡ 6) → faults.new ≡ faults.old }
    ensures drives { (new : Driven) × DrivesOver D.logs device.old device.new (first_driven task.entry.opens_directories) new }
    ensures moves { RunsScript A D.logs device.old device.new (W.contents out.old) (W.contents out.new)
        task.entry.form task.entry.opens_directories task.entry.is_report_only result script.now
        ⊎ ((device.new ≡ device.old) × (out.new ≡ out.old) × ((result ≡ 1) ⊎ (result ≡ 3))) }
{
    let lines = match read_lines(alloc, task.form, script) {
        Ok(lines) => lines,
        Err(bad) => return bad.say(faults),
    };
    let (ended, is_wrong, waits) = run_good::<Maps<A>, D, W>(
        alloc,
        task,
        device,
        script,
        lines.as_slice(),
        out,
    );
    match ended {
        Ok(()) => status_at_end(task.is_report_only, is_wrong),
        Err(stop) => stop.report::<A, W, F>(waits, out, faults),
    }
}

/// Runs a script on a new kernel, whose server stands behind a device, and prints what each line results in.
///
/// All lines are judged before the first is run. Gives the exit status: 0; 1 after `cannot read` with the script's name,
/// or `line N:` and the fault of the first bad line, on `faults`; 3 after `no memory`; 4 after `no reply`, `server
/// ended` or `device failed` on `out`; 5 where `out` refuses; or 6 where the whole script was run and it was printed that
/// the server was wrong, unless the task says that this is only reported.
pub fn run_drive<A: Allocator + Copy, D: Device, R: Read, W: Write, F: Write>(
    alloc: A,
    task: Task<'_>,
    device: &mut D,
    input: &mut R,
    out: &mut W,
    faults: &mut F,
) -> u8
    ensures statuses { Contains (0 ∷ 1 ∷ 3 ∷ 4 ∷ 5 ∷ 6 ∷ []) result }
    // Nothing is sent and nothing printed of a script with a bad line.
    ensures judged { (result ≡ 0) ⊎ (result ≡ 4) ⊎ (result ≡ 5) ⊎ (result ≡ 6) →
        IfSome (R.remaining input.old) (IsGoodDriveScript task.entry.form) }
    ensures unsent { IfSome (R.remaining input.old) (IsGoodDriveScript task.entry.form)
        ⊎ ((device.new ≡ device.old) × (out.new ≡ out.old)) }
    ensures unrun { result ≡ 1 → device.new ≡ device.old }
    ensures silent { result ≡ 1 → out.new ≡ out.old }
    ensures fault { result ≡ 1 → IsUnrun task.entry.form task.entry.name.now (R.remaining input.old)
        (F.contents faults.old) (F.contents faults.new) }
    ensures no_memory { result ≡ 3 → AppendsSome (F.contents faults.old) (F.contents faults.new) (codes "no memory\n") }
    ensures no_fault { (result ≡ 0) ⊎ (result ≡ 4) ⊎ (result ≡ 5) ⊎ (result ≡ 6) → faults.new ≡ faults.old }
    ensures drives { (new : Driven) × DrivesOver D.logs device.old device.new (first_driven task.entry.opens_directories) new }
    // No session of what went over the device shows a fault of the kernel, of those that `KeepsRules` has.
    ensures rules { KeepsRules D.logs device.old device.new task.entry.opens_directories }
    // It keeps them in the moves that are made, and mounts as often as they do.
    ensures rules_of_moves { MovesKeepRules A task.entry.opens_directories }
    // The lines of the script are run, in their order, and none is left out at status 0 and 6. What is printed is the
    // text of what they come to. It is 6 exactly where a line of it says that the server was wrong.
    ensures moves { IfSome (R.remaining input.old)
        (RunsScript A D.logs device.old device.new (W.contents out.old) (W.contents out.new) task.entry.form
        task.entry.opens_directories task.entry.is_report_only result)
        ⊎ ((device.new ≡ device.old) × (out.new ≡ out.old) × ((result ≡ 1) ⊎ (result ≡ 3))) }
{
    match read_script(alloc, task, input, faults) {
        Ok(text) => run_text(alloc, task, device, text.as_slice(), out, faults),
        Err(status) => status,
    }
}
