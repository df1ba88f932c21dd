//! The table of notifications. Each place counts from the frame's first byte.

ghost use Rattle.std.specs.Prelude.{◌≡◌, ◌≤◌, ◌+◌};
ghost use Rattle.fuse_replies.specs.NotificationTable.{row_at, tail_end};

use crate::notification::NotificationKind;

/// What is fixed for a kind of notifications.
#[derive(Clone, Copy, Debug, PartialEq, Eq)]
pub struct NotificationRow {
    /// The positive number that stands in place of an error.
    pub code: u32,
    /// The minor version of protocol 7 that brought it; it refuses no frame.
    pub since: u32,
    /// How many bytes the struct behind the header has.
    pub fixed: usize,
    /// What follows the struct.
    pub tail: NotificationTail,
}

/// What follows a notification's struct.
#[derive(Clone, Copy, Debug, PartialEq, Eq)]
pub enum NotificationTail {
    None,
    /// A name of as many bytes as the number at a place says, and a NUL byte.
    Name(usize),
    /// As many bytes as the number at a place says.
    Data(usize),
    /// As many nodes of 8 bytes as the number at a place says.
    Nodes(usize),
}

/// The row of a kind.
pub fn notification_row_of(kind: NotificationKind) -> NotificationRow
    ensures row { result ≡ row_at kind }
    // Each place lies in the struct.
    ensures within { tail_end result.tail ≤ 16 + result.fixed }
{
    let (code, since, fixed, tail) = match kind {
        NotificationKind::Poll => (1, 11, 8, NotificationTail::None),
        NotificationKind::InvalInode => (2, 12, 24, NotificationTail::None),
        NotificationKind::InvalEntry => (3, 12, 16, NotificationTail::Name(24)),
        NotificationKind::Store => (4, 15, 24, NotificationTail::Data(32)),
        NotificationKind::Retrieve => (5, 15, 32, NotificationTail::None),
        NotificationKind::Delete => (6, 18, 24, NotificationTail::Name(32)),
        NotificationKind::Resend => (7, 40, 0, NotificationTail::None),
        NotificationKind::IncEpoch => (8, 44, 0, NotificationTail::None),
        NotificationKind::Prune => (9, 45, 16, NotificationTail::Nodes(16)),
    };
    NotificationRow {
        code,
        since,
        fixed,
        tail,
    }
}
