//! The command `reply`: one reply frame to a request of an opcode, as its hex spells it.

ghost use Rattle.std.specs.Prelude.{◌≡◌, ◌≢◌, ◌⊎◌, ◌++◌, ◌∷◌, [], ℕ, List, Contains, IfErr, OnOk, codes};
ghost use Rattle.std.specs.Io.KnownBytes.{Appends};
ghost use Rattle.fk_wire.specs.Opcodes.{name_of};
ghost use Rattle.fk_wire.specs.Replies.{reply_content, reply_message};
ghost use Rattle.fk_wire.specs.declared.opcode.Opcode.{Opcode};
ghost use Rattle.fw_frames.specs.Endings.{EndsReply};
ghost use Rattle.fw_frames.specs.Frames.{PrintsReply, reply_head, reply_text};
ghost use Rattle.fuse_text.specs.HexTexts.{SpellsHex};
ghost use Rattle.fw_frames.specs.Stops.{frame_status_of};
ghost use Rattle.hex.specs.Hex.{IsBytes};

use crate::frame::write_fault;
use crate::opcode_name::opcode_of_name;
use crate::reply_words::write_reply_words;
use crate::stop::Stop;
use fk_wire::{Opcode, Reply, read_reply};
use fuse_text::{HexFault, read_hex};
use std::alloc::Allocator;
use std::io;
use std::io::Write;

/// Writes `OPNAME UNIQUE ERROR LEN`.
#[tactic(auto, unfolding(crate::specs::Frames::reply_head))]
fn write_reply_head<W: Write>(
    out: &mut W,
    opcode: Opcode,
    reply: &Reply<'_>,
    len: usize,
) -> io::Result<()>
    ensures { OnOk result (Appends (W.contents out.old) (W.contents out.new)
        (reply_head opcode (reply_message reply.now) len)) }
{
    let name = opcode.name();
    let unique = reply.unique;
    let error = reply.error.unsigned_abs();
    write!(out, "{name} {unique} {error} {len}")
}

/// Writes a reply's line.
pub(crate) fn write_reply<W: Write>(
    out: &mut W,
    opcode: Opcode,
    reply: &Reply<'_>,
    len: usize,
) -> io::Result<()>
    ensures { OnOk result (Appends (W.contents out.old) (W.contents out.new)
        (reply_text opcode (reply_message reply.now) len)) }
{
    write_reply_head(out, opcode, reply, len)?;
    write_reply_words(out, &reply.body)?;
    out.write_all(b"\n")
}

/// Writes what a frame is.
fn write_frame<W: Write>(out: &mut W, opcode: Opcode, frame: &[u8]) -> io::Result<()>
    ensures { OnOk result (PrintsReply opcode frame.now (W.contents out.old) (W.contents out.new)) }
{
    match read_reply(opcode, frame) {
        Ok(reply) => write_reply(out, opcode, &reply, frame.len()),
        Err(fault) => write_fault(out, fault),
    }
}

/// Writes the same, and hands all on that was written.
fn print_frame<W: Write>(out: &mut W, opcode: Opcode, frame: &[u8]) -> io::Result<()>
    ensures { OnOk result (PrintsReply opcode frame.now (W.contents out.old) (W.contents out.new)) }
{
    write_frame(out, opcode, frame)?;
    out.flush()
}

/// Prints what the frame of a hex text is.
fn run_opcode<A: Allocator, W: Write>(
    alloc: A,
    opcode: Opcode,
    text: &str,
    out: &mut W,
) -> Result<(), Stop<'static>>
    ensures printed { OnOk result ((frame : List ℕ) × SpellsHex text.now frame
        × PrintsReply opcode frame (W.contents out.old) (W.contents out.new)) }
    ensures bad_hex { IfErr result (λ stop. frame_status_of stop ≡ 1 →
        (frame : List ℕ) → IsBytes frame → ¬ (SpellsHex text.now frame)) }
    ensures known { IfErr result (λ stop. frame_status_of stop ≢ 2) }
    ensures silent { IfErr result (λ stop. frame_status_of stop ≢ 5 → out.new ≡ out.old) }
{
    match read_hex(alloc, text.as_bytes()) {
        Ok(frame) => { print_frame(out, opcode, frame.as_slice()).map_err(|_| Stop::OutputRefused) }
        Err(HexFault::BadHex) => Err(Stop::BadHex),
        Err(HexFault::NoMemory) => Err(Stop::NoMemory),
    }
}

/// Reads one reply frame to a request of the opcode that has a name, as `LOOKUP`, from its hex. Prints `OPNAME UNIQUE
/// ERROR LEN` and what the reply says, or `fault N NAME` where it is no such reply of protocol 7.31.
///
/// Gives the exit status: 0, 1 after `bad hex` on `faults`, 2 after `unknown opcode` where no opcode has the name, 3
/// after `no memory`, or 5 where `out` refuses.
pub fn run_reply<A: Allocator, W: Write, F: Write>(
    alloc: A,
    name: &str,
    text: &str,
    out: &mut W,
    faults: &mut F,
) -> u8
    ensures { EndsReply W.contents name.now text.now out.old out.new result }
{
    let Some(opcode) = opcode_of_name(name) else {
        return Stop::UnknownOpcode { name }.report(faults);
    };
    match run_opcode(alloc, opcode, text, out) {
        Ok(()) => 0,
        Err(stop) => stop.report(faults),
    }
}
