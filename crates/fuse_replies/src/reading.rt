//! Frames as replies.

ghost use Rattle.std.specs.Prelude.{◌≡◌, ◌≢◌, ◌+◌, ◌≤◌, IfOk, IfErr, IsOkAnd, length};
ghost use Rattle.std.specs.Int.{cast_unsigned, w32};
ghost use Rattle.fk_fields.specs.Fields.{number_at};
ghost use Rattle.fuse_protocol.specs.Table.{row_at};
ghost use Rattle.fuse_protocol.specs.declared.row.ReplyShape.TheVariants as reply;
ghost use Rattle.fuse_replies.specs.Replies.{IsFrame, IsHeaderFault, IsReply, ReplyMessage, reply_message, ReplyFaultIs};
ghost use Rattle.fuse_replies.specs.Replies.{IsErrorWord, IsBody, AreNamed, answer_at, answer_content, BodyFaultIs};

use crate::body::{content_in, has_names, is_size};
use crate::fault::ReplyFault;
use crate::reply::{Answer, Reply, ReplyHeader};
use fk_fields::{i32_at, u32_at, u64_at};
use fuse_protocol::{Agreed, MAX_FRAME, ReplyShape, RequestHead, row_of};

/// Reads the header of a reply or a notification, whatever its body is.
///
/// # Errors
///
/// The first of `Short` and `Length` that applies.
pub fn read_reply_header(bytes: &[u8]) -> Result<ReplyHeader, ReplyFault>
    ensures ok { IfOk result (λ h. IsFrame bytes.now × (h.unique ≡ number_at 8 8 bytes.now)
        × (cast_unsigned w32 h.error ≡ number_at 4 4 bytes.now)) }
    ensures fault { IfErr result (IsHeaderFault bytes.now) }
{
    if bytes.len() < 16 {
        return Err(ReplyFault::Short);
    }
    if bytes.len() > MAX_FRAME || u32_at(bytes, 0) as usize != bytes.len() {
        return Err(ReplyFault::Length);
    }
    Ok(ReplyHeader {
        unique: u64_at(bytes, 8),
        error: i32_at(bytes, 4),
    })
}

/// What a reply without error says.
fn done_in(
    agreed: Agreed,
    shape: ReplyShape,
    asked: u32,
    bytes: &[u8],
) -> Result<Answer<'_>, ReplyFault>
    requires frame { IsFrame bytes.now }
    requires fine { number_at 4 4 bytes.now ≡ 0 }
    ensures ok { IfOk result (λ a. IsBody shape asked bytes.now × AreNamed agreed shape bytes.now
        × (answer_at shape asked bytes.now ≡ answer_content a)) }
    ensures fault { IfErr result (BodyFaultIs agreed shape asked bytes.now) }
{
    if !is_size(shape, asked, bytes.len() - 16) {
        return Err(ReplyFault::Body);
    }
    if !has_names(agreed, shape, bytes) {
        return Err(ReplyFault::Name);
    }
    Ok(content_in(shape, asked, bytes))
}

/// What a reply with a good header says.
fn answer_of(
    agreed: Agreed,
    shape: ReplyShape,
    asked: u32,
    bytes: &[u8],
) -> Result<Answer<'_>, ReplyFault>
    requires frame { IsFrame bytes.now }
    ensures ok { IfOk result (λ a. IsErrorWord (number_at 4 4 bytes.now) × IsBody shape asked bytes.now
        × AreNamed agreed shape bytes.now × (answer_at shape asked bytes.now ≡ answer_content a)) }
    ensures fault { IfErr result (BodyFaultIs agreed shape asked bytes.now) }
{
    let error = u32_at(bytes, 4);
    if error == 0 {
        done_in(agreed, shape, asked, bytes)
    } else if error < u32::MAX - 510 {
        Err(ReplyFault::Error)
    } else if bytes.len() == 16 {
        Ok(Answer::Failed(u32::MAX - error + 1))
    } else {
        Err(ReplyFault::Body)
    }
}

/// The reply that a frame is, without the contract's clause on what else it may be.
#[inline(always)]
fn reply_of<'a>(
    agreed: Agreed,
    request: &RequestHead,
    bytes: &'a [u8],
) -> Result<Reply<'a>, ReplyFault>
    ensures ok { IfOk result (λ r.
        IsReply agreed (row_at request.now.opcode).reply request.now.asked bytes.now (reply_message r)) }
    ensures fault { IfErr result
        (ReplyFaultIs agreed (row_at request.now.opcode).reply request.now.asked bytes.now) }
{
    let shape = row_of(request.opcode).reply;
    if matches!(shape, ReplyShape::None) {
        return Err(ReplyFault::Unwanted);
    }
    let header = match read_reply_header(bytes) {
        Ok(header) => header,
        Err(fault) => return Err(fault),
    };
    match answer_of(agreed, shape, request.asked, bytes) {
        Ok(answer) => Ok(Reply {
            unique: header.unique,
            answer,
        }),
        Err(fault) => Err(fault),
    }
}

/// Reads a reply to a request, by the row of its opcode. Copies nothing. Whether the reply has the
/// request's number is not looked at.
///
/// # Errors
///
/// The first of `ReplyFault` that applies.
pub fn read_reply<'a>(
    agreed: Agreed,
    request: &RequestHead,
    bytes: &'a [u8],
) -> Result<Reply<'a>, ReplyFault>
    // What is read is what the frame has, in the shape of the opcode's row.
    ensures ok { IfOk result (λ r.
        IsReply agreed (row_at request.now.opcode).reply request.now.asked bytes.now (reply_message r)) }
    // What has that shape is read so.
    ensures only { (m : ReplyMessage)
        → IsReply agreed (row_at request.now.opcode).reply request.now.asked bytes.now m
        → IsOkAnd result (λ r. reply_message r ≡ m) }
    // Else the fault is the first that applies.
    ensures fault { IfErr result
        (ReplyFaultIs agreed (row_at request.now.opcode).reply request.now.asked bytes.now) }
{
    reply_of(agreed, request, bytes)
}
