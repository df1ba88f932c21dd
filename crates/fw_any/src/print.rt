//! The vectors of every opcode, behind those of the codec.

ghost use Rattle.std.specs.Prelude.{OnOk};
ghost use Rattle.fw_any.specs.Samples.{EndsAllVectors, PrintsSamples};

use crate::sample_line::write_line;
use crate::sample_list::{Sample, SampleList};
use fw_vectors::print_vectors;
use std::alloc::Allocator;
use std::io;
use std::io::Write;

/// Writes the lines of frames.
fn write_lines<A: Allocator + Copy, W: Write>(out: &mut W, samples: &[Sample<A>]) -> io::Result<()>
    ensures { OnOk result (PrintsSamples (W.contents out.old) (W.contents out.new)) }
{
    for sample in samples {
        write_line(out, sample)?;
    }
    Ok(())
}

/// Writes the same, and hands all on that was written.
fn print<A: Allocator + Copy, W: Write>(out: &mut W, samples: &[Sample<A>]) -> io::Result<()>
    ensures { OnOk result (PrintsSamples (W.contents out.old) (W.contents out.new)) }
{
    write_lines(out, samples)?;
    out.flush()
}

/// Prints the vectors of `print_vectors`, and then those of every opcode up to 7.45, a line each: a JSON object with the
/// direction of a frame, its opcode's number and name, of a reply how many bytes were asked for, its bytes in hex, and
/// whether it has the shape of its opcode's row where INIT agreed on no flag, or why not.
///
/// Gives the exit status: 0, 3 after `no memory` on `faults`, or 5 where `out` refuses.
pub fn print_all_vectors<A: Allocator + Copy, W: Write, F: Write>(
    alloc: A,
    out: &mut W,
    faults: &mut F,
) -> u8
    ensures { EndsAllVectors W.contents out.old out.new result }
{
    let Ok(list) = SampleList::of_every_opcode(alloc) else {
        let _ = writeln!(faults, "no memory");
        return 3;
    };
    let status = print_vectors(alloc, out, faults);
    if status != 0 {
        return status;
    }
    match print(out, list.as_slice()) {
        Ok(()) => 0,
        Err(_) => 5,
    }
}
