//! The lines of a script, which are judged before the first is run.

ghost use Rattle.std.specs.Prelude.{◌≡◌, IfErr, IfOk, MatchOption};
ghost use Rattle.fuse_text.specs.Outputs.{AppendsSome};
ghost use Rattle.fuse_text.specs.Lines.{lines_of};
ghost use Rattle.fw_drive.specs.DriveLines.{FirstDriveFaultIs, IsGoodDriveScript};
ghost use Rattle.fw_drive.specs.Judging.{JudgingEnds, Say, bad_status, bad_text};

use crate::form::Form;
use crate::line::{DriveLine, read_any};
use fuse_text::no_memory;
use fw_script::{LineFault, Lines, bad_line};
use std::alloc::Allocator;
use std::io::Write;

/// Why a script is not run.
pub(crate) enum BadScript {
    /// A line has a fault: the first that has one, by its number from 1.
    BadLine { number: usize, fault: LineFault },
    /// Out of memory.
    NoMemory,
}

impl BadScript {
    /// Says it on `faults`, and gives the exit status: 1 for a line with a fault, and 3 where memory is out.
    pub(crate) fn say<F: Write>(self, faults: &mut F) -> u8
        ensures status { result ≡ bad_status self }
        ensures said { AppendsSome (F.contents faults.old) (F.contents faults.new) (bad_text self) }
    {
        match self {
            BadScript::BadLine { number, fault } => bad_line(number, fault, faults),
            BadScript::NoMemory => no_memory(faults),
        }
    }
}

/// The number of the first line with a fault, from 1, and the fault.
pub(crate) fn first_fault(form: Form, script: &[u8]) -> Option<(usize, LineFault)>
    ensures { MatchOption result (IsGoodDriveScript form script.now)
        (λ found. FirstDriveFaultIs form script.now found.0 found.1) }
{
    let mut number = 0;
    for line in Lines::of(script) {
        number += 1;
        if let Err(fault) = read_any(form, line) {
            return Some((number, fault));
        }
    }
    None
}

/// Why a script is not run whose lines cannot be kept.
fn refused_lines(form: Form, script: &[u8]) -> BadScript
    ensures { JudgingEnds form script.now result }
{
    match first_fault(form, script) {
        Some((number, fault)) => BadScript::BadLine { number, fault },
        None => BadScript::NoMemory,
    }
}

/// What the lines of a script say, in their order.
///
/// # Errors
///
/// The first line with a fault. Out of memory comes after that.
pub(crate) fn read_lines<A: Allocator>(
    alloc: A,
    form: Form,
    script: &[u8],
) -> Result<Vec<DriveLine<'_>, A>, BadScript>
    ensures good { IfOk result (λ lines. IsGoodDriveScript form script.now) }
    ensures say { IfOk result (λ lines. Say form (lines_of script.now) lines.items) }
    ensures refused { IfErr result (JudgingEnds form script.now) }
{
    let mut lines = Vec::new(alloc);
    let mut number = 0;
    for line in Lines::of(script) {
        number += 1;
        match read_any(form, line) {
            Ok(None) => {}
            Ok(Some(said)) => {
                if lines.push(said).is_err() {
                    return Err(refused_lines(form, script));
                }
            }
            Err(fault) => return Err(BadScript::BadLine { number, fault }),
        }
    }
    Ok(lines)
}
