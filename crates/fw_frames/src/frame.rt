//! The command `frame`: one request frame, as its hex spells it.

ghost use Rattle.std.specs.Prelude.{◌≡◌, ◌≢◌, ◌⊎◌, ◌++◌, ◌∷◌, [], ℕ, List, Contains, IfErr, OnOk, codes};
ghost use Rattle.std.specs.Prelude.{if◌then◌else◌};
ghost use Rattle.std.specs.Io.KnownBytes.{Appends};
ghost use Rattle.fk_wire.specs.Requests.{request_content, request_message};
ghost use Rattle.fw_frames.specs.Endings.{EndsFrame};
ghost use Rattle.fw_frames.specs.Frames.{PrintsFrame, fault_text, request_head, request_text};
ghost use Rattle.fuse_text.specs.HexTexts.{SpellsHex};
ghost use Rattle.fw_frames.specs.Stops.{frame_status_of};
ghost use Rattle.fw_frames.specs.Words.{request_words};
ghost use Rattle.hex.specs.Hex.{IsBytes};

use crate::request_words::write_request_words;
use crate::stop::Stop;
use fk_wire::{Request, RequestBody, WireFault, read_request};
use fuse_text::{HexFault, read_hex};
use std::alloc::Allocator;
use std::io;
use std::io::Write;

/// Writes `OPNAME UNIQUE NODE LEN`.
#[tactic(auto, unfolding(crate::specs::Frames::request_head))]
pub(crate) fn write_request_head<W: Write>(
    out: &mut W,
    request: &Request<'_>,
    len: usize,
) -> io::Result<()>
    ensures { OnOk result (Appends (W.contents out.old) (W.contents out.new)
        (request_head (request_message request.now) len)) }
{
    let name = request.body.opcode().name();
    let unique = request.unique;
    let node = request.nodeid;
    write!(out, "{name} {unique} {node} {len}")
}

/// Writes the fields of a request, if they are asked for.
fn write_fields<W: Write>(out: &mut W, body: &RequestBody<'_>, words: bool) -> io::Result<()>
    ensures { OnOk result (Appends (W.contents out.old) (W.contents out.new)
        (if words then request_words (request_content body.now) else [])) }
{
    if words {
        write_request_words(out, body)
    } else {
        out.write_all(b"")
    }
}

/// Writes a request's line.
fn write_request<W: Write>(
    out: &mut W,
    request: &Request<'_>,
    words: bool,
    len: usize,
) -> io::Result<()>
    ensures { OnOk result (Appends (W.contents out.old) (W.contents out.new)
        (request_text words (request_message request.now) len)) }
{
    write_request_head(out, request, len)?;
    write_fields(out, &request.body, words)?;
    out.write_all(b"\n")
}

/// Writes `fault N NAME`.
pub(crate) fn write_fault<W: Write>(out: &mut W, fault: WireFault) -> io::Result<()>
    ensures { OnOk result (Appends (W.contents out.old) (W.contents out.new) (fault_text fault)) }
{
    let number = fault.number();
    let name = fault.name();
    writeln!(out, "fault {number} {name}")
}

/// Writes what a frame is.
fn write_frame<W: Write>(out: &mut W, frame: &[u8], words: bool) -> io::Result<()>
    ensures { OnOk result (PrintsFrame words frame.now (W.contents out.old) (W.contents out.new)) }
{
    match read_request(frame) {
        Ok(request) => write_request(out, &request, words, frame.len()),
        Err(fault) => write_fault(out, fault),
    }
}

/// Writes the same, and hands all on that was written.
fn print_frame<W: Write>(out: &mut W, frame: &[u8], words: bool) -> io::Result<()>
    ensures { OnOk result (PrintsFrame words frame.now (W.contents out.old) (W.contents out.new)) }
{
    write_frame(out, frame, words)?;
    out.flush()
}

/// Prints what the frame of a hex text is.
fn run<A: Allocator, W: Write>(
    alloc: A,
    text: &str,
    words: bool,
    out: &mut W,
) -> Result<(), Stop<'static>>
    ensures printed { OnOk result ((frame : List ℕ) × SpellsHex text.now frame
        × PrintsFrame words frame (W.contents out.old) (W.contents out.new)) }
    ensures bad_hex { IfErr result (λ stop. frame_status_of stop ≡ 1 →
        (frame : List ℕ) → IsBytes frame → ¬ (SpellsHex text.now frame)) }
    ensures status { IfErr result (λ stop. frame_status_of stop ≢ 2) }
    ensures silent { IfErr result (λ stop. frame_status_of stop ≢ 5 → out.new ≡ out.old) }
{
    match read_hex(alloc, text.as_bytes()) {
        Ok(frame) => print_frame(out, frame.as_slice(), words).map_err(|_| Stop::OutputRefused),
        Err(HexFault::BadHex) => Err(Stop::BadHex),
        Err(HexFault::NoMemory) => Err(Stop::NoMemory),
    }
}

/// Reads one request frame from its hex, and prints `OPNAME UNIQUE NODE LEN`, with `words` followed by the fields of the
/// request, or `fault N NAME` where it is no request of protocol 7.31.
///
/// Gives the exit status: 0, 1 after `bad hex` on `faults`, 3 after `no memory`, or 5 where `out` refuses.
pub fn run_frame<A: Allocator, W: Write, F: Write>(
    alloc: A,
    text: &str,
    words: bool,
    out: &mut W,
    faults: &mut F,
) -> u8
    ensures { EndsFrame W.contents words text.now out.old out.new result }
{
    match run(alloc, text, words, out) {
        Ok(()) => 0,
        Err(stop) => stop.report(faults),
    }
}
