//! Frames of a server that are not for the kernel.

ghost use Rattle.std.specs.Prelude.{◌↔◌, IfSome, IfNone, IsTrue};
ghost use Rattle.fk_wire.specs.ReplyFaults.{IsReplyHead};
ghost use Rattle.fk_drive_frames.specs.Asides.{IsOtherFrame, IsNotification, IsOpendirReply, SaysOtherFrame};

use crate::own_requests::FIRST_OPENDIR_UNIQUE;
use fk_fields::{u32_at, u64_at};
use fk_wire::ReplyHead;

/// What a frame is that is not for the kernel.
#[derive(Clone, Copy, Debug, PartialEq, Eq)]
pub enum OtherFrame {
    /// A notification: its code (linux/fuse.h, `enum fuse_notify_code`) and its length.
    Notification { code: u32, len: usize },
    /// A reply to a request that is not the kernel's, OPENDIR or RELEASEDIR.
    OpendirReply { unique: u64, error: i32, len: usize },
}

/// Whether a frame is a notification.
fn is_notification(frame: &[u8]) -> bool
    ensures { IsTrue result ↔ IsNotification frame.now }
{
    frame.len() >= 16
        && u32_at(frame, 0) as usize == frame.len()
        && u64_at(frame, 8) == 0
        && u32_at(frame, 4) > 0
        && u32_at(frame, 4) < 0x8000_0000
}

/// The head of a frame that is a reply to a request that is not the kernel's.
fn opendir_head_in(next: u64, frame: &[u8]) -> Option<ReplyHead>
    ensures some { IfSome result (λ head. IsOpendirReply next frame.now × IsReplyHead frame.now head) }
    ensures none { IfNone result (IsOpendirReply next frame.now → ⊥) }
{
    let Ok(head) = ReplyHead::read(frame) else {
        return None;
    };
    if FIRST_OPENDIR_UNIQUE <= head.unique && head.unique < next {
        Some(head)
    } else {
        None
    }
}

/// Says what a frame is, if it is not for the kernel.
pub fn other_frame_in(next: u64, frame: &[u8]) -> Option<OtherFrame>
    ensures some { IfSome result (λ other_frame. IsOtherFrame next frame.now) }
    ensures says { IfSome result (SaysOtherFrame next frame.now) }
    ensures none { IfNone result (IsOtherFrame next frame.now → ⊥) }
{
    let len = frame.len();
    if is_notification(frame) {
        let code = u32_at(frame, 4);
        return Some(OtherFrame::Notification { code, len });
    }
    let head = opendir_head_in(next, frame)?;
    Some(OtherFrame::OpendirReply {
        unique: head.unique,
        error: head.error,
        len,
    })
}
