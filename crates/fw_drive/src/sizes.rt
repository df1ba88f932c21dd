//! The sizes of frames of a server that are wrong.

use crate::fault::{BodySize, HeadFault, RightSize};
use fk_wire::RequestBody;

/// The bytes of a reply's head (linux/fuse.h, `struct fuse_out_header`).
const HEAD: usize = 16;

/// `struct fuse_entry_out`, `struct fuse_attr_out`, `struct fuse_open_out`, the first and the last of these together, and
/// `struct fuse_write_out`, in bytes.
const ENTRY: u64 = 128;

const ATTR: u64 = 104;

const OPEN: u64 = 16;

const CREATE: u64 = 144;

const WRITE: u64 = 8;

/// An error is negative from here on, as a number without a sign.
const NEGATIVE: u32 = 0x8000_0000;

/// How many bytes the body of a reply without an error has. INIT's depends on its minor version.
pub(crate) fn right_size_of(body: &RequestBody<'_>) -> RightSize {
    match *body {
        RequestBody::Lookup { .. } | RequestBody::Mkdir { .. } | RequestBody::Link { .. } => {
            RightSize::Exactly(ENTRY)
        }
        RequestBody::Getattr => RightSize::Exactly(ATTR),
        RequestBody::Open => RightSize::Exactly(OPEN),
        RequestBody::Create { .. } => RightSize::Exactly(CREATE),
        RequestBody::Write { .. } => RightSize::Exactly(WRITE),
        RequestBody::Read { size, .. }
        | RequestBody::Readdir { size, .. }
        | RequestBody::Readdirplus { size, .. } => RightSize::AtMost(u64::from(size)),
        RequestBody::Unlink { .. }
        | RequestBody::Rmdir { .. }
        | RequestBody::Rename { .. }
        | RequestBody::Release { .. }
        | RequestBody::Interrupt { .. } => RightSize::Exactly(0),
        _ => RightSize::Any,
    }
}

/// How many bytes the body of a frame has, and how many are right where another number shows that it is wrong. With an
/// error it has none.
pub(crate) fn size_of(right: RightSize, is_error: bool, frame_len: usize) -> BodySize {
    let len = frame_len.saturating_sub(HEAD) as u64;
    let right = if is_error {
        RightSize::Exactly(0)
    } else {
        right
    };
    let right = match right {
        RightSize::Exactly(wanted) if wanted == len => RightSize::Any,
        RightSize::AtMost(most) if len <= most => RightSize::Any,
        right => right,
    };
    BodySize { len, right }
}

/// How many bytes the body of a reply to OPENDIR or RELEASEDIR has, where the length of the frame is known.
pub(crate) fn opendir_size_of(frame_len: Option<usize>) -> Option<BodySize> {
    let frame_len = frame_len?;
    Some(size_of(RightSize::Any, false, frame_len))
}

/// Why a frame is no reply by its head: the first reason that applies.
pub(crate) fn head_fault_of(frame: &[u8]) -> HeadFault {
    let len = frame.len() as u64;
    let [l0, l1, l2, l3, e0, e1, e2, e3, ..] = frame else {
        return HeadFault::Short { len };
    };
    let said = u64::from(u32::from_le_bytes([*l0, *l1, *l2, *l3]));
    let error = u32::from_le_bytes([*e0, *e1, *e2, *e3]);
    if frame.len() < HEAD {
        HeadFault::Short { len }
    } else if said != len {
        HeadFault::Length { said, len }
    } else if error < NEGATIVE {
        HeadFault::Positive {
            error: u64::from(error),
        }
    } else {
        HeadFault::Low {
            error: u64::from(error.wrapping_neg()),
        }
    }
}
