//! The command `frame --any`: one request frame of any opcode, as its hex spells it.

ghost use Rattle.std.specs.Prelude.{◌≡◌, OnOk};
ghost use Rattle.fuse_protocol.specs.Agreement.{before_init};
ghost use Rattle.frame_words.specs.Frames.{IsRequestText};
ghost use Rattle.fw_any.specs.Endings.{EndsAnyFrame, PrintsLine};

use crate::hex_fault::report_hex;
use frame_words::write_request_frame;
use fuse_protocol::BEFORE_INIT;
use fuse_text::read_hex;
use std::alloc::Allocator;
use std::io;
use std::io::Write;

/// Writes what a frame says as a request, or its first fault, as a line.
fn write_line<W: Write>(out: &mut W, frame: &[u8]) -> io::Result<()>
    ensures { OnOk result (PrintsLine (IsRequestText before_init frame.now) (W.contents out.old) (W.contents out.new)) }
{
    write_request_frame(out, BEFORE_INIT, frame)?;
    out.write_all(b"\n")
}

/// Writes the same, and hands all on that was written.
fn print_line<W: Write>(out: &mut W, frame: &[u8]) -> io::Result<()>
    ensures { OnOk result (PrintsLine (IsRequestText before_init frame.now) (W.contents out.old) (W.contents out.new)) }
{
    write_line(out, frame)?;
    out.flush()
}

/// Reads one request frame of any opcode up to 7.45 from its hex, and prints what it says: `OPNAME UNIQUE NODE LEN` and
/// its fields. Where it has not the shape of its opcode's row it prints `OPNAME UNIQUE len LEN: ` and why.
///
/// Gives the exit status: 0, 1 after `bad hex` on `faults`, 3 after `no memory`, or 5 where `out` refuses.
pub fn run_any_frame<A: Allocator, W: Write, F: Write>(
    alloc: A,
    text: &str,
    out: &mut W,
    faults: &mut F,
) -> u8
    ensures { EndsAnyFrame W.contents text.now out.old out.new result }
{
    let frame = match read_hex(alloc, text.as_bytes()) {
        Ok(frame) => frame,
        Err(fault) => return report_hex(fault, faults),
    };
    match print_line(out, frame.as_slice()) {
        Ok(()) => 0,
        Err(_) => 5,
    }
}
