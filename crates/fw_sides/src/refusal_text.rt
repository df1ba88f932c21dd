//! Refusals and results, printed.

use crate::form::{Form, Printer};
use fuse_spec::{Refusal, WriteResult};
use fuse_text::OutputRefused;
use fw_script::{LineFault, name_of_refusal, number_of_refusal};
use std::io::Write;

/// The number of what a writer gets: 0, ENOENT or EINVAL.
pub(crate) fn result_number(written: WriteResult) -> u64 {
    match written {
        WriteResult::Accepted => 0,
        WriteResult::NoEntry => 2,
        WriteResult::Invalid => 22,
    }
}

/// Prints why an event is refused.
pub(crate) fn print_refusal<W: Write>(
    out: &mut W,
    form: Form,
    refusal: Refusal,
) -> Result<(), OutputRefused> {
    let mut printer = Printer::new(out, form);
    printer.start("refused")?;
    printer.number("number", u64::from(number_of_refusal(refusal)))?;
    printer.word("name", name_of_refusal(refusal))?;
    printer.end()
}

/// A line's fault, in words.
fn words_of(fault: LineFault) -> &'static str {
    match fault {
        LineFault::UnknownEvent => "unknown event",
        LineFault::WrongWords => "wrong words",
        LineFault::BadNumber => "bad number",
        LineFault::BadText => "bad text",
    }
}

/// Prints what is wrong with a line.
pub(crate) fn print_line_fault<W: Write>(
    out: &mut W,
    form: Form,
    fault: LineFault,
) -> Result<(), OutputRefused> {
    let mut printer = Printer::new(out, form);
    printer.start("fault")?;
    printer.word("line", words_of(fault))?;
    printer.end()
}
