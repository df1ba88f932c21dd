//! The command `reply --any`: one reply frame to a request of any opcode, as its hex spells it.

ghost use Rattle.std.specs.Prelude.{◌≡◌, ◌∷◌, [], Contains, OnOk};
ghost use Rattle.fuse_protocol.specs.Agreement.{before_init};
ghost use Rattle.frame_words.specs.Frames.{IsReplyText};
ghost use Rattle.fw_any.specs.Endings.{EndsAnyReply, EndsAtHex, PrintsLine};

use crate::hex_fault::report_hex;
use crate::opcode_name::any_opcode_of_name;
use frame_words::write_reply_frame;
use fuse_protocol::{BEFORE_INIT, Opcode, RequestHead};
use fuse_text::read_hex;
use std::alloc::Allocator;
use std::io;
use std::io::Write;

/// Writes what a frame says as a reply to an opcode where so many bytes were asked for, or its first fault, as a line.
fn write_line<W: Write>(out: &mut W, opcode: Opcode, asked: u32, frame: &[u8]) -> io::Result<()>
    ensures { OnOk result (PrintsLine (IsReplyText before_init opcode asked frame.now)
        (W.contents out.old) (W.contents out.new)) }
{
    let request = RequestHead {
        opcode,
        unique: 0,
        nodeid: 0,
        asked,
    };
    write_reply_frame(out, BEFORE_INIT, &request, frame)?;
    out.write_all(b"\n")
}

/// Writes the same, and hands all on that was written.
fn print_line<W: Write>(out: &mut W, opcode: Opcode, asked: u32, frame: &[u8]) -> io::Result<()>
    ensures { OnOk result (PrintsLine (IsReplyText before_init opcode asked frame.now)
        (W.contents out.old) (W.contents out.new)) }
{
    write_line(out, opcode, asked, frame)?;
    out.flush()
}

/// Prints what the frame of a hex text says as a reply to an opcode, and gives the exit status.
fn run_opcode<A: Allocator, W: Write, F: Write>(
    alloc: A,
    opcode: Opcode,
    asked: u32,
    text: &str,
    out: &mut W,
    faults: &mut F,
) -> u8
    ensures { EndsAtHex W.contents (IsReplyText before_init opcode asked) text.now out.old out.new result }
{
    let frame = match read_hex(alloc, text.as_bytes()) {
        Ok(frame) => frame,
        Err(fault) => return report_hex(fault, faults),
    };
    match print_line(out, opcode, asked, frame.as_slice()) {
        Ok(()) => 0,
        Err(_) => 5,
    }
}

/// Reads one reply frame from its hex, to a request of the opcode up to 7.45 that has a name, as `STATFS`, which asked
/// for so many bytes. Prints `OPNAME UNIQUE ERROR LEN` and what the reply says. Where it has not the shape of the opcode's
/// row the head is followed by `: ` and why.
///
/// Gives the exit status: 0, 1 after `bad hex` on `faults`, 2 after `unknown opcode` where no opcode has the name, 3
/// after `no memory`, or 5 where `out` refuses.
pub fn run_any_reply<A: Allocator, W: Write, F: Write>(
    alloc: A,
    name: &str,
    asked: u32,
    text: &str,
    out: &mut W,
    faults: &mut F,
) -> u8
    ensures statuses { Contains (0 ∷ 1 ∷ 2 ∷ 3 ∷ 5 ∷ []) result }
    ensures ends { EndsAnyReply W.contents name.now asked text.now out.old out.new result }
{
    match any_opcode_of_name(name) {
        Some(opcode) => run_opcode(alloc, opcode, asked, text, out, faults),
        None => {
            let _ = writeln!(faults, "unknown opcode {name}");
            2
        }
    }
}
