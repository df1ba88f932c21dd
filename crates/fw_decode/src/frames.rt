//! What servers write in words, by what INIT agreed on and by the request that a reply answers, and requests that are not
//! read further.

use frame_words::{write_notification, write_reply_frame, write_reply_head};
use fuse_judge::SessionJudge;
use fuse_protocol::{Agreed, Opcode, RequestHead, read_request_header};
use fuse_replies::{ReplyHeader, read_notification, read_reply_header};
use fuse_sessions::Asked;
use std::alloc::Allocator;
use std::io;
use std::io::Write;

/// Writes the head of a request that is not read further, if it has one, and its length.
pub(crate) fn write_unread<W: Write>(out: &mut W, bytes: &[u8]) -> io::Result<()> {
    let len = bytes.len();
    match read_request_header(bytes) {
        Ok(head) => {
            let name = head.opcode.name();
            let unique = head.unique;
            write!(out, "{name} {unique} len {len}")
        }
        Err(_) => write!(out, "len {len}"),
    }
}

/// Writes a reply to a request that waits.
fn write_answer<W: Write>(
    out: &mut W,
    agreed: Agreed,
    opcode: Opcode,
    asked: Asked,
    header: ReplyHeader,
    bytes: &[u8],
) -> io::Result<()> {
    let head = RequestHead {
        opcode,
        unique: header.unique,
        nodeid: asked.nodeid,
        asked: asked.asked,
    };
    write_reply_frame(out, agreed, &head, bytes)
}

/// Writes a notification.
fn write_notified<W: Write>(out: &mut W, agreed: Agreed, bytes: &[u8]) -> io::Result<()> {
    let len = bytes.len();
    match read_notification(agreed, bytes) {
        Ok(notification) => write_notification(out, &notification, len),
        Err(fault) => write!(out, "notification len {len}: {fault}"),
    }
}

/// Writes what a server wrote: a notification, a reply to an INTERRUPT, to the request that waits, or to none.
pub(crate) fn write_answered<A: Allocator + Copy, W: Write>(
    out: &mut W,
    judge: &SessionJudge<A>,
    bytes: &[u8],
) -> io::Result<()> {
    let len = bytes.len();
    let agreed = judge.agreed();
    let header = match read_reply_header(bytes) {
        Ok(header) => header,
        Err(fault) => return write!(out, "len {len}: {fault}"),
    };
    if header.unique == 0 {
        return write_notified(out, agreed, bytes);
    }
    match judge.waiting(header.unique) {
        Some(asked) => match asked.opcode {
            Some(opcode) => write_answer(out, agreed, opcode, asked, header, bytes),
            None => write_reply_head(out, "unique", header, len),
        },
        None if header.unique % 2 == 1 => write_reply_head(out, "INTERRUPT", header, len),
        None => write_reply_head(out, "unique", header, len),
    }
}
