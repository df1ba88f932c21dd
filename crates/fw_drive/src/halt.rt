//! Why lines that are given one at a time are run no more.

ghost use Rattle.std.specs.Prelude.{◌≡◌, Bool, Err, List};
ghost use Rattle.fw_drive.specs.Moves.{Move};
ghost use Rattle.fw_drive.specs.Sources.{EndsRun};

use crate::fault::Unanswered;
use crate::source::NoLine;
use crate::stop::Stop;
use fuse_text::{cannot_read, no_memory};
use fw_script::{LineFault, bad_line};
use std::alloc::Allocator;
use std::io::Write;

/// Why lines are run no more before their source is at its end.
#[derive(Clone, Copy, Debug, PartialEq, Eq)]
pub(crate) enum Halt {
    /// A line has a fault, by its number from 1.
    BadLine { number: usize, fault: LineFault },
    /// The source gives none.
    NoLine(NoLine),
    /// The run came to its end at a line.
    Stopped(Stop),
}

impl Halt {
    /// Says it, why the run came to its end on the output and all else on `faults`, and gives the exit status. Where no reply
    /// came it says what waits for one.
    pub(crate) fn report<A: Allocator, W: Write, F: Write>(
        self,
        name: &str,
        waits: Option<Unanswered>,
        out: &mut W,
        faults: &mut F,
    ) -> u8
        ensures { (is_report_only : Bool) (moves : List (Move A)) → EndsRun A waits name.now is_report_only moves (Err self) result
            (W.contents out.old) (W.contents out.new) (F.contents faults.old) (F.contents faults.new) }
    {
        match self {
            Halt::BadLine { number, fault } => bad_line(number, fault, faults),
            Halt::NoLine(NoLine::CannotRead) => cannot_read(name, faults),
            Halt::NoLine(NoLine::NoMemory) => no_memory(faults),
            Halt::NoLine(NoLine::OutputRefused) => 5,
            Halt::NoLine(NoLine::Refused(refusal)) => {
                Stop::Refused(refusal).report::<A, W, F>(waits, out, faults)
            }
            Halt::Stopped(stop) => stop.report::<A, W, F>(waits, out, faults),
        }
    }
}
