//! A frame in words: what it says, or why it has not the shape of its row.

ghost use Rattle.std.specs.Prelude.{◌≡◌, ◌++◌, ℕ, List, OnOk, codes};
ghost use Rattle.std.specs.Io.KnownBytes.{Appends};
ghost use Rattle.fuse_protocol.specs.Table.{name_of};
ghost use Rattle.frame_words.specs.Frames.{IsKnownHeadText, IsOfferText, IsReplyHeadText, IsReplyText, IsRequestText};
ghost use Rattle.frame_words.specs.Frames.{bad_request_words, known_head_words, len_words, reply_fault_words, reply_head_words, shape_fault_words, signed_error_words};

use crate::errors::write_error;
use crate::replies::write_reply;
use crate::requests::{write_init_request, write_request};
use fuse_protocol::{
    Agreed, Opcode, RequestHead, ShapeFault, read_init, read_request, read_request_header,
};
use fuse_replies::{ReplyFault, ReplyHeader, read_reply, read_reply_header};
use std::io;
use std::io::Write;

/// Why a frame is no request.
pub fn words_of_shape_fault(fault: ShapeFault) -> &'static str
    ensures { result.now ≡ shape_fault_words fault }
{
    match fault {
        ShapeFault::Short => "the frame is too short for its header",
        ShapeFault::Length => "the frame has another length than it says",
        ShapeFault::Opcode => "the opcode is not known",
        ShapeFault::Struct => "the frame is too short for its struct",
        ShapeFault::Name => "a name breaks the rules of names",
        ShapeFault::Tail => "the frame has another tail than it says",
    }
}

/// Why a frame is no reply.
pub fn words_of_reply_fault(fault: ReplyFault) -> &'static str
    ensures { result.now ≡ reply_fault_words fault }
{
    match fault {
        ReplyFault::Unwanted => "the opcode has no replies",
        ReplyFault::Short => "the frame is too short for its header",
        ReplyFault::Length => "the frame has another length than it says",
        ReplyFault::Error => "the error number is out of range",
        ReplyFault::Body => "the body is not of its kind",
        ReplyFault::Name => "a record's name breaks the rules of names",
    }
}

/// Writes what an INIT offers, and nothing of another frame.
fn write_offer<W: Write>(out: &mut W, bytes: &[u8]) -> io::Result<()>
    ensures { OnOk result ((text : List ℕ) × IsOfferText bytes.now text
        × Appends (W.contents out.old) (W.contents out.new) text) }
{
    match read_init(bytes) {
        Ok(init) => write_init_request(out, init),
        Err(_) => out.write_all(b""),
    }
}

/// Writes `OPNAME UNIQUE `.
#[tactic(auto, unfolding(crate::specs::Frames::known_head_words))]
fn write_known<W: Write>(out: &mut W, opcode: Opcode, unique: u64) -> io::Result<()>
    ensures { OnOk result (Appends (W.contents out.old) (W.contents out.new) (known_head_words opcode unique)) }
{
    let name = opcode.name();
    write!(out, "{name} {unique} ")
}

/// Writes `OPNAME UNIQUE ` of a frame with a whole header, and nothing of another.
fn write_known_head<W: Write>(out: &mut W, bytes: &[u8]) -> io::Result<()>
    ensures { OnOk result ((text : List ℕ) × IsKnownHeadText bytes.now text
        × Appends (W.contents out.old) (W.contents out.new) text) }
{
    match read_request_header(bytes) {
        Ok(head) => write_known(out, head.opcode, head.unique),
        Err(_) => out.write_all(b""),
    }
}

/// Writes `len LEN: ` and why a frame is no request.
#[tactic(auto, unfolding(crate::specs::Frames::bad_request_words))]
fn write_shape_fault<W: Write>(out: &mut W, fault: ShapeFault, len: usize) -> io::Result<()>
    ensures { OnOk result (Appends (W.contents out.old) (W.contents out.new) (bad_request_words fault len)) }
{
    let why = words_of_shape_fault(fault);
    write!(out, "len {len}: {why}")
}

/// Writes what a frame says as a request, each word after a space, or its first fault: `OPNAME UNIQUE len LEN: ` and
/// why, without opcode and unique where the header has none.
///
/// # Errors
///
/// Where `out` refuses.
pub fn write_request_frame<W: Write>(out: &mut W, agreed: Agreed, bytes: &[u8]) -> io::Result<()>
    ensures { OnOk result ((text : List ℕ) × IsRequestText agreed bytes.now text
        × Appends (W.contents out.old) (W.contents out.new) text) }
{
    match read_request(agreed, bytes) {
        Ok(request) => {
            write_request(out, &request, bytes.len())?;
            write_offer(out, bytes)
        }
        Err(fault) => {
            write_known_head(out, bytes)?;
            write_shape_fault(out, fault, bytes.len())
        }
    }
}

/// Writes the name of an error that a header has negated, or 0.
fn write_signed_error<W: Write>(out: &mut W, error: i32) -> io::Result<()>
    ensures { OnOk result (Appends (W.contents out.old) (W.contents out.new) (signed_error_words error)) }
{
    match error {
        0 => out.write_all(b"0"),
        error => write_error(out, error.unsigned_abs()),
    }
}

/// Writes `WORD UNIQUE ERROR LEN` of a header, in a frame of so many bytes. The error is 0 or has its name.
///
/// # Errors
///
/// Where `out` refuses.
#[tactic(auto, unfolding(crate::specs::Frames::reply_head_words))]
pub fn write_reply_head<W: Write>(
    out: &mut W,
    word: &str,
    header: ReplyHeader,
    len: usize,
) -> io::Result<()>
    ensures { OnOk result (Appends (W.contents out.old) (W.contents out.new) (reply_head_words word.now header len)) }
{
    let unique = header.unique;
    write!(out, "{word} {unique} ")?;
    write_signed_error(out, header.error)?;
    write!(out, " {len}")
}

/// Writes the head of a frame with a whole header, and the length of another.
fn write_bad_reply_head<W: Write>(out: &mut W, opcode: Opcode, bytes: &[u8]) -> io::Result<()>
    ensures { OnOk result ((text : List ℕ) × IsReplyHeadText opcode bytes.now text
        × Appends (W.contents out.old) (W.contents out.new) text) }
{
    let len = bytes.len();
    match read_reply_header(bytes) {
        Ok(header) => write_reply_head(out, opcode.name(), header, len),
        Err(_) => write!(out, "len {len}"),
    }
}

/// Writes `: ` and why a frame is no reply.
fn write_reply_fault<W: Write>(out: &mut W, fault: ReplyFault) -> io::Result<()>
    ensures { OnOk result (Appends (W.contents out.old) (W.contents out.new) (codes ": " ++ reply_fault_words fault)) }
{
    let why = words_of_reply_fault(fault);
    write!(out, ": {why}")
}

/// Writes what a frame says as a reply to a request, each word after a space, or its first fault: `OPNAME UNIQUE ERROR
/// LEN: ` and why, or `len LEN: ` where the header is not whole.
///
/// # Errors
///
/// Where `out` refuses.
pub fn write_reply_frame<W: Write>(
    out: &mut W,
    agreed: Agreed,
    request: &RequestHead,
    bytes: &[u8],
) -> io::Result<()>
    ensures { OnOk result ((text : List ℕ) × IsReplyText agreed request.now.opcode request.now.asked bytes.now text
        × Appends (W.contents out.old) (W.contents out.new) text) }
{
    match read_reply(agreed, request, bytes) {
        Ok(reply) => write_reply(out, request.opcode, &reply, bytes.len()),
        Err(fault) => {
            write_bad_reply_head(out, request.opcode, bytes)?;
            write_reply_fault(out, fault)
        }
    }
}
