//! A vector as a line: a JSON object, whose texts are digits and letters alone.

ghost use Rattle.std.specs.Prelude.{◌≡◌, ◌++◌, ◌<◌, ◌≤◌, ℕ, List, OnOk, codes, decimal, length};
ghost use Rattle.std.specs.Fmt.{signed_decimal};
ghost use Rattle.std.specs.Io.KnownBytes.{Appends};
ghost use Rattle.fk_wire.specs.Opcodes.{code_of};
ghost use Rattle.fk_wire.specs.Replies.{reply_message};
ghost use Rattle.fk_wire.specs.Requests.{request_message};
ghost use Rattle.fw_vectors.specs.Vectors.{IsReplyLine, IsReplyVerdict, IsRequestLine, IsRequestVerdict};
ghost use Rattle.fw_vectors.specs.Vectors.{fault_members, frame_members, minor_value, opcode_word};
ghost use Rattle.fw_vectors.specs.Vectors.{reply_start, reply_verdict, request_verdict};

use crate::reply_members::write_reply_members;
use crate::request_members::write_request_members;
use fk_fields::u32_at;
use fk_wire::{Minor, Opcode, Reply, Request, WireFault, read_reply_at, read_request_at};
use fuse_text::print_hex;
use std::io;
use std::io::Write;

/// The number of a minor version.
fn number_of_minor(minor: Minor) -> u32
    ensures { result ≡ minor_value minor }
{
    match minor {
        Minor::M15 => 15,
        Minor::M31 => 31,
    }
}

/// Writes the number at the place of the opcode, `null` where the frame does not have that place.
#[tactic(auto, unfolding(crate::specs::Vectors::opcode_word))]
fn write_opcode_word<W: Write>(out: &mut W, frame: &[u8]) -> io::Result<()>
    ensures { OnOk result (Appends (W.contents out.old) (W.contents out.new) (opcode_word frame.now)) }
{
    if frame.len() < 8 {
        return out.write_all(b"null");
    }
    let opcode = u32_at(frame, 4);
    write!(out, "{opcode}")
}

/// Writes the minor version and the frame.
#[tactic(auto, unfolding(crate::specs::Vectors::frame_members))]
fn write_frame_members<W: Write>(out: &mut W, minor: Minor, frame: &[u8]) -> io::Result<()>
    ensures { OnOk result (Appends (W.contents out.old) (W.contents out.new) (frame_members minor frame.now)) }
{
    let number = number_of_minor(minor);
    write!(out, ",\"minor\":{number},\"hex\":\"")?;
    print_hex(out, frame)?;
    out.write_all(b"\",")
}

/// Writes the verdict on a frame with a fault.
#[tactic(auto, unfolding(crate::specs::Vectors::fault_members))]
fn write_fault<W: Write>(out: &mut W, fault: WireFault) -> io::Result<()>
    ensures { OnOk result (Appends (W.contents out.old) (W.contents out.new) (fault_members fault)) }
{
    let number = fault.number();
    let name = fault.name();
    write!(
        out,
        "\"verdict\":\"fault\",\"number\":{number},\"name\":\"{name}\""
    )
}

/// Writes the verdict on a frame that spells a request.
fn write_request<W: Write>(out: &mut W, request: &Request<'_>) -> io::Result<()>
    ensures { OnOk result (Appends (W.contents out.old) (W.contents out.new)
        (request_verdict (request_message request.now))) }
{
    let unique = request.unique;
    let nodeid = request.nodeid;
    write!(
        out,
        "\"verdict\":\"ok\",\"fields\":{{\"unique\":\"{unique}\",\"nodeid\":\"{nodeid}\",\"body\":{{"
    )?;
    write_request_members(out, &request.body)?;
    out.write_all(b"}}")
}

/// Writes a reply's error, as it stands in the frame.
fn write_error<W: Write>(out: &mut W, reply: &Reply<'_>) -> io::Result<()>
    ensures { OnOk result (Appends (W.contents out.old) (W.contents out.new) (signed_decimal reply.now.error)) }
{
    let error = reply.error;
    write!(out, "{error}")
}

/// Writes the head of the verdict on a frame that spells a reply.
fn write_reply_head<W: Write>(out: &mut W, reply: &Reply<'_>) -> io::Result<()>
    ensures { OnOk result (Appends (W.contents out.old) (W.contents out.new)
        (reply_start reply.now.unique reply.now.error)) }
{
    let unique = reply.unique;
    write!(
        out,
        "\"verdict\":\"ok\",\"fields\":{{\"unique\":\"{unique}\",\"error\":\""
    )?;
    write_error(out, reply)?;
    out.write_all(b"\",\"body\":{")
}

/// Writes the verdict on a frame that spells a reply.
fn write_reply<W: Write>(out: &mut W, reply: &Reply<'_>) -> io::Result<()>
    ensures { OnOk result (Appends (W.contents out.old) (W.contents out.new)
        (reply_verdict (reply_message reply.now))) }
{
    write_reply_head(out, reply)?;
    write_reply_members(out, &reply.body)?;
    out.write_all(b"}}")
}

/// Writes the verdict on a frame that is read as a request.
fn write_request_verdict<W: Write>(out: &mut W, minor: Minor, frame: &[u8]) -> io::Result<()>
    ensures { OnOk result ((verdict : List ℕ) × IsRequestVerdict minor frame.now verdict
        × Appends (W.contents out.old) (W.contents out.new) verdict) }
{
    match read_request_at(minor, frame) {
        Ok(request) => write_request(out, &request),
        Err(fault) => write_fault(out, fault),
    }
}

/// Writes the verdict on a frame that is read as a reply to an opcode.
fn write_reply_verdict<W: Write>(
    out: &mut W,
    minor: Minor,
    opcode: Opcode,
    frame: &[u8],
) -> io::Result<()>
    ensures { OnOk result ((verdict : List ℕ) × IsReplyVerdict minor opcode frame.now verdict
        × Appends (W.contents out.old) (W.contents out.new) verdict) }
{
    match read_reply_at(minor, opcode, frame) {
        Ok(reply) => write_reply(out, &reply),
        Err(fault) => write_fault(out, fault),
    }
}

/// Writes the start of a request's line.
fn write_request_start<W: Write>(out: &mut W, minor: Minor, frame: &[u8]) -> io::Result<()>
    ensures { OnOk result (Appends (W.contents out.old) (W.contents out.new)
        (codes "{\"direction\":\"request\",\"opcode\":" ++ opcode_word frame.now ++ frame_members minor frame.now)) }
{
    out.write_all(b"{\"direction\":\"request\",\"opcode\":")?;
    write_opcode_word(out, frame)?;
    write_frame_members(out, minor, frame)
}

/// Writes the start of the line of a reply to an opcode.
fn write_reply_start<W: Write>(
    out: &mut W,
    minor: Minor,
    opcode: Opcode,
    frame: &[u8],
) -> io::Result<()>
    ensures { OnOk result (Appends (W.contents out.old) (W.contents out.new)
        (codes "{\"direction\":\"reply\",\"opcode\":" ++ decimal (code_of opcode) ++ frame_members minor frame.now)) }
{
    let number = opcode.code();
    write!(out, "{{\"direction\":\"reply\",\"opcode\":{number}")?;
    write_frame_members(out, minor, frame)
}

/// Writes the line of a frame that is read as a request.
pub(crate) fn write_request_line<W: Write>(
    out: &mut W,
    minor: Minor,
    frame: &[u8],
) -> io::Result<()>
    ensures { OnOk result ((line : List ℕ) × IsRequestLine minor frame.now line
        × Appends (W.contents out.old) (W.contents out.new) line) }
{
    write_request_start(out, minor, frame)?;
    write_request_verdict(out, minor, frame)?;
    out.write_all(b"}\n")
}

/// Writes the line of a frame that is read as a reply to an opcode.
pub(crate) fn write_reply_line<W: Write>(
    out: &mut W,
    minor: Minor,
    opcode: Opcode,
    frame: &[u8],
) -> io::Result<()>
    ensures { OnOk result ((line : List ℕ) × IsReplyLine minor opcode frame.now line
        × Appends (W.contents out.old) (W.contents out.new) line) }
{
    write_reply_start(out, minor, opcode, frame)?;
    write_reply_verdict(out, minor, opcode, frame)?;
    out.write_all(b"}\n")
}
