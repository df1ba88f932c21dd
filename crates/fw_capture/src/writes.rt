//! Lines of a capture, of which a writer that refuses has a beginning.

ghost use Rattle.std.specs.Prelude.{◌++◌, codes};
ghost use Rattle.hex.specs.Hex.{encode_lower};
ghost use Rattle.fw_capture.specs.Captured.{Writes};

use fuse_text::{OutputRefused, write_hex, write_text};
use std::io::Write;

/// Writes a line: a start, the hex of a frame, and an end. The hex is written block by block, so that a long frame takes no
/// memory.
pub(crate) fn write_line<W: Write>(
    out: &mut W,
    start: &[u8],
    frame: &[u8],
    end: &[u8],
) -> Result<(), OutputRefused>
    ensures { Writes (W.contents out.old) (W.contents out.new)
        (start.now ++ (encode_lower frame.now ++ (end.now ++ codes "\n"))) result }
{
    write_text(out, start)?;
    write_hex(out, frame)?;
    write_text(out, end)?;
    write_text(out, b"\n")
}
