//! A frame of any opcode as a vector's line: a JSON object, whose texts are letters, digits and sentences.

ghost use Rattle.std.specs.Prelude.{◌≡◌, ℕ, List, OnOk, option_map};
ghost use Rattle.std.specs.Io.KnownBytes.{Appends};
ghost use Rattle.fw_any.specs.Samples.{IsReplyLine, IsRequestLine, IsSampleLine, asked_member, frame_member};
ghost use Rattle.fw_any.specs.Samples.{line_start, reply_line, request_line, verdict_end};

use crate::sample_list::{Sample, SampleDirection};
use frame_words::{words_of_reply_fault, words_of_shape_fault};
use fuse_protocol::{BEFORE_INIT, Opcode, RequestHead, read_request, row_of};
use fuse_replies::read_reply;
use fuse_text::print_hex;
use std::alloc::Allocator;
use std::io;
use std::io::Write;

/// Writes the direction, and the opcode's number and name.
#[tactic(auto, unfolding(crate::specs::Samples::line_start))]
fn write_start<W: Write>(out: &mut W, direction: &str, opcode: Opcode) -> io::Result<()>
    ensures { OnOk result (Appends (W.contents out.old) (W.contents out.new) (line_start direction.now opcode)) }
{
    let code = row_of(opcode).code;
    let name = opcode.name();
    write!(
        out,
        "{{\"direction\":\"{direction}\",\"opcode\":{code},\"name\":\"{name}\",\"any\":true,"
    )
}

/// Writes how many bytes were asked for.
#[tactic(auto, unfolding(crate::specs::Samples::asked_member))]
fn write_asked<W: Write>(out: &mut W, asked: u32) -> io::Result<()>
    ensures { OnOk result (Appends (W.contents out.old) (W.contents out.new) (asked_member asked)) }
{
    write!(out, "\"asked\":{asked},")
}

/// Writes the frame.
#[tactic(auto, unfolding(crate::specs::Samples::frame_member))]
fn write_frame<W: Write>(out: &mut W, frame: &[u8]) -> io::Result<()>
    ensures { OnOk result (Appends (W.contents out.old) (W.contents out.new) (frame_member frame.now)) }
{
    out.write_all(b"\"hex\":\"")?;
    print_hex(out, frame)?;
    out.write_all(b"\",")
}

/// Writes whether the frame has the shape of its row, or why not, and the end of the line.
#[tactic(auto, unfolding(crate::specs::Samples::verdict_end))]
fn write_verdict<W: Write>(out: &mut W, why: Option<&str>) -> io::Result<()>
    ensures { OnOk result (Appends (W.contents out.old) (W.contents out.new)
        (verdict_end (option_map (λ why. why.now) why.entry))) }
{
    match why {
        None => out.write_all(b"\"verdict\":\"ok\"}\n"),
        Some(why) => writeln!(out, "\"verdict\":\"fault\",\"why\":\"{why}\"}}"),
    }
}

/// Writes the line of a request.
fn write_request<W: Write>(
    out: &mut W,
    opcode: Opcode,
    frame: &[u8],
    why: Option<&str>,
) -> io::Result<()>
    ensures { OnOk result (Appends (W.contents out.old) (W.contents out.new)
        (request_line opcode frame.now (option_map (λ why. why.now) why.entry))) }
{
    write_start(out, "request", opcode)?;
    write_frame(out, frame)?;
    write_verdict(out, why)
}

/// Writes the line of a reply.
fn write_reply<W: Write>(
    out: &mut W,
    opcode: Opcode,
    asked: u32,
    frame: &[u8],
    why: Option<&str>,
) -> io::Result<()>
    ensures { OnOk result (Appends (W.contents out.old) (W.contents out.new)
        (reply_line opcode asked frame.now (option_map (λ why. why.now) why.entry))) }
{
    write_start(out, "reply", opcode)?;
    write_asked(out, asked)?;
    write_frame(out, frame)?;
    write_verdict(out, why)
}

/// Writes the line of a frame that is read as a request, and was made for an opcode.
fn write_request_line<W: Write>(out: &mut W, opcode: Opcode, frame: &[u8]) -> io::Result<()>
    ensures { OnOk result ((line : List ℕ) × IsRequestLine frame.now line
        × Appends (W.contents out.old) (W.contents out.new) line) }
{
    match read_request(BEFORE_INIT, frame) {
        Ok(request) => write_request(out, request.head.opcode, frame, None),
        Err(fault) => write_request(out, opcode, frame, Some(words_of_shape_fault(fault))),
    }
}

/// Writes the line of a frame that is read as a reply to an opcode.
fn write_reply_line<W: Write>(
    out: &mut W,
    opcode: Opcode,
    asked: u32,
    frame: &[u8],
) -> io::Result<()>
    ensures { OnOk result ((line : List ℕ) × IsReplyLine opcode asked frame.now line
        × Appends (W.contents out.old) (W.contents out.new) line) }
{
    let request = RequestHead {
        opcode,
        unique: 0,
        nodeid: 0,
        asked,
    };
    match read_reply(BEFORE_INIT, &request, frame) {
        Ok(_) => write_reply(out, opcode, asked, frame, None),
        Err(fault) => write_reply(out, opcode, asked, frame, Some(words_of_reply_fault(fault))),
    }
}

/// Writes the line of a frame.
pub(crate) fn write_line<A: Allocator, W: Write>(out: &mut W, sample: &Sample<A>) -> io::Result<()>
    ensures { OnOk result ((line : List ℕ) × IsSampleLine line
        × Appends (W.contents out.old) (W.contents out.new) line) }
{
    let frame = sample.frame.as_slice();
    match sample.direction {
        SampleDirection::Request => write_request_line(out, sample.opcode, frame),
        SampleDirection::Reply { asked } => write_reply_line(out, sample.opcode, asked, frame),
    }
}
