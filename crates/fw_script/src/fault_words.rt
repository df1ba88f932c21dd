//! A line's fault, in words.

ghost use Rattle.std.specs.Prelude.{◌≡◌, ◌++◌, codes};
ghost use Rattle.fuse_text.specs.Outputs.{AppendsSome};
ghost use Rattle.fuse_text.specs.Stops.{bad_line};
ghost use Rattle.fw_script.specs.Stops.{line_fault_words};

use crate::line::LineFault;
use fuse_text::LineFaultWords;
use std::io::Write;

/// A line's fault, in words.
pub(crate) fn words_of_fault(fault: LineFault) -> &'static str
    ensures { result.now ≡ line_fault_words fault }
{
    match fault {
        LineFault::UnknownEvent => "unknown event",
        LineFault::WrongWords => "wrong words",
        LineFault::BadNumber => "bad number",
        LineFault::BadText => "bad text",
    }
}

impl LineFaultWords for LineFault {
    ghost words = { line_fault_words };

    fn words(&self) -> &'static str {
        words_of_fault(*self)
    }
}

/// Says on standard error what is wrong with a line of a script, which its number from 1 names, and gives the exit status,
/// 1. What `faults` refuses is lost.
pub fn bad_line<F: Write>(number: usize, fault: LineFault, faults: &mut F) -> u8
    ensures status { result ≡ 1 }
    ensures said { AppendsSome (F.contents faults.old) (F.contents faults.new)
        (bad_line number (line_fault_words fault) ++ codes "\n") }
{
    fuse_text::bad_line(number as u64, words_of_fault(fault), faults)
}
