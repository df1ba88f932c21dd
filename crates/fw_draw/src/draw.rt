//! The command `draw`.

ghost use Rattle.fw_draw.specs.Endings.{EndsDrawing};

use crate::run::draw_run;
use crate::script::read_good_text;
use crate::svg::{inner_text, print_svg};
use fuse_text::no_memory;
use std::alloc::{AllocError, Allocator};
use std::io::{Read, Write};

/// The text of a run's picture: what stands in its SVG element, behind the name space.
fn draw<A: Allocator + Copy>(
    alloc: A,
    name: &str,
    script: &[u8],
) -> Result<Vec<u8, A>, AllocError> {
    let picture = draw_run(alloc, script)?;
    inner_text(alloc, name, &picture)
}

/// Runs a script on a new world, and prints the run as a picture in SVG.
///
/// All lines are judged before the first is run, and all are run before anything is printed. Gives the exit status: 0;
/// 1 after `cannot read` with the script's name, or `line N:` and the fault of the first bad line, on `faults`; 3 after
/// `no memory`; or 5 where `out` refuses.
pub fn draw_script<A: Allocator + Copy, R: Read, W: Write, F: Write>(
    alloc: A,
    name: &str,
    input: &mut R,
    out: &mut W,
    faults: &mut F,
) -> u8
    ensures { EndsDrawing W.contents F.contents name.now (R.remaining input.old) out.old out.new faults.old faults.new
        result }
{
    let script = match read_good_text(alloc, name, input, faults) {
        Ok(script) => script,
        Err(status) => return status,
    };
    let Ok(inner) = draw(alloc, name, script.as_slice()) else {
        return no_memory(faults);
    };
    match print_svg(out, inner.as_slice()) {
        Ok(()) => 0,
        Err(_) => 5,
    }
}
