//! The command `draw` of a capture.

ghost use Rattle.std.specs.Prelude.{◌∷◌, [], Contains, IfErr};
ghost use Rattle.fuse_text.specs.Stops.{status_of};
ghost use Rattle.fw_sequence.specs.Endings.{EndsSequence};

use crate::rows::read_rows;
use crate::svg::inner_text;
use fuse_capture::CaptureFault;
use fuse_text::Stop;
use fw_draw::print_svg;
use std::alloc::Allocator;
use std::io::{BufRead, Write};

/// The text of the picture of the lines around one.
fn draw<A: Allocator + Copy, R: BufRead>(
    alloc: A,
    name: &str,
    around: u64,
    input: &mut R,
) -> Result<Vec<u8, A>, Stop<CaptureFault>>
    ensures { IfErr result (λ stop. Contains (1 ∷ 3 ∷ []) (status_of stop)) }
{
    let rows = match read_rows(alloc, around, input) {
        Ok(rows) => rows,
        Err(stop) => return Err(stop),
    };
    match inner_text(alloc, name, around, rows.as_slice()) {
        Ok(inner) => Ok(inner),
        Err(_) => Err(Stop::NoMemory),
    }
}

/// Prints the frames around a line of a capture as a picture in SVG: the kernel on the left, the server on the right, the
/// counts of nodes where they change, and each fault that the judge of sessions finds.
///
/// Up to twelve lines before that line and after it have a row. All lines up to there are judged before anything is
/// printed, and none behind is read. Gives the exit status: 0; 1 after `cannot read` with the capture's name, or `line
/// N:` and what is wrong with the first bad line, on `faults`; 3 after `no memory`; or 5 where `out` refuses.
pub fn draw_capture<A: Allocator + Copy, R: BufRead, W: Write, F: Write>(
    alloc: A,
    name: &str,
    around: u64,
    input: &mut R,
    out: &mut W,
    faults: &mut F,
) -> u8
    ensures { EndsSequence W.contents out.old out.new faults.old faults.new result }
{
    let inner = match draw(alloc, name, around, input) {
        Ok(inner) => inner,
        Err(stop) => return stop.report(name, faults),
    };
    match print_svg(out, inner.as_slice()) {
        Ok(()) => 0,
        Err(_) => 5,
    }
}
