//! What stands behind a reply's header.

ghost use Rattle.std.specs.Prelude.{◌≡◌, ◌≤◌, ◌-◌, ◌↔◌, length, IsTrue};
ghost use Rattle.fuse_protocol.specs.Places.{bytes_in};
ghost use Rattle.fk_fields.specs.Fields.{number_at};
ghost use Rattle.fuse_replies.specs.Replies.{HasSize, HasNames, answer_content, content_at};

use crate::entry::{entry_at, opened_at, valid_attributes_at};
use crate::listed::{are_listed, are_listed_plus};
use crate::records::{EntryRecords, Records};
use crate::reply::Answer;
use fk_fields::{u32_at, u64_at};
use fuse_protocol::{Agreed, InitReply, ReplyShape, Width};

/// Whether a body of a shape may have so many bytes, where so many were asked for.
pub(crate) fn is_size(shape: ReplyShape, asked: u32, size: usize) -> bool
    ensures { IsTrue result ↔ HasSize shape asked size }
{
    match shape {
        ReplyShape::None => false,
        ReplyShape::Empty => size == 0,
        ReplyShape::Entry => size == 128,
        ReplyShape::Attributes => size == 104,
        ReplyShape::Open => size == 16,
        ReplyShape::EntryAndOpen => size == 144,
        ReplyShape::Number(_) => size == 8,
        ReplyShape::Fixed(count) => size == count,
        ReplyShape::AtMost(_) | ReplyShape::Records(_) | ReplyShape::EntryRecords(_) => size
            <= asked as usize,
        ReplyShape::Sized(_) => if asked == 0 {
            size == 8
        } else {
            size <= asked as usize
        },
        ReplyShape::Target => 1 <= size && size <= 4095,
        ReplyShape::Ioctl => size >= 16,
        ReplyShape::Init => size == 8 || size == 24 || size == 64,
    }
}

/// Whether the names in a body are names.
pub(crate) fn has_names(agreed: Agreed, shape: ReplyShape, bytes: &[u8]) -> bool
    requires { 16 ≤ length bytes.now }
    ensures { IsTrue result ↔ HasNames agreed shape bytes.now }
{
    match shape {
        ReplyShape::Records(_) => are_listed(agreed, Records::from_place(bytes, 16)),
        ReplyShape::EntryRecords(_) => are_listed_plus(agreed, EntryRecords::from_place(bytes, 16)),
        _ => true,
    }
}

/// The number that a body gives.
fn number_in(width: Width, bytes: &[u8]) -> u64
    requires { 24 ≤ length bytes.now }
    ensures { result ≡ number_at 16 (bytes_in width) bytes.now }
{
    match width {
        Width::Four => u64::from(u32_at(bytes, 16)),
        Width::Eight => u64_at(bytes, 16),
    }
}

/// What a body of the right size says.
pub(crate) fn content_in(shape: ReplyShape, asked: u32, bytes: &[u8]) -> Answer<'_>
    requires whole { 16 ≤ length bytes.now }
    requires size { HasSize shape asked (length bytes.now - 16) }
    ensures { answer_content result ≡ content_at shape asked bytes.now }
{
    match shape {
        ReplyShape::None | ReplyShape::Empty => Answer::Done,
        ReplyShape::Entry => Answer::Entry(entry_at(bytes, 16)),
        ReplyShape::Attributes => Answer::Attributes(valid_attributes_at(bytes, 16)),
        ReplyShape::Open => Answer::Opened(opened_at(bytes, 16)),
        ReplyShape::EntryAndOpen => Answer::Created(entry_at(bytes, 16), opened_at(bytes, 144)),
        ReplyShape::Number(width) => Answer::Number(number_in(width, bytes)),
        ReplyShape::Fixed(_) | ReplyShape::AtMost(_) => Answer::Bytes(&bytes[16..]),
        ReplyShape::Records(_) => Answer::Records(Records::from_place(bytes, 16)),
        ReplyShape::EntryRecords(_) => Answer::EntryRecords(EntryRecords::from_place(bytes, 16)),
        ReplyShape::Sized(_) => if asked == 0 {
            Answer::Number(number_in(Width::Four, bytes))
        } else {
            Answer::Bytes(&bytes[16..])
        },
        ReplyShape::Target | ReplyShape::Ioctl => Answer::Bytes(&bytes[16..]),
        ReplyShape::Init => Answer::Init(InitReply::in_frame(bytes)),
    }
}
