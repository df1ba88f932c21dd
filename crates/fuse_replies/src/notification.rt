//! Notifications: what a server sends unasked.

ghost use Rattle.std.specs.Prelude.{◌≡◌, ◌≢◌, MatchOption};
ghost use Rattle.fuse_replies.specs.NotificationTable.{code_of, name_of};
ghost use Rattle.fuse_replies.specs.declared.notification.NotificationKind.{NotificationKind};

use crate::node_ids::NodeIds;

/// The kinds of notifications: `enum fuse_notify_code` of linux/fuse.h.
#[derive(Clone, Copy, Debug, PartialEq, Eq)]
pub enum NotificationKind {
    Poll,
    InvalInode,
    InvalEntry,
    Store,
    Retrieve,
    Delete,
    Resend,
    IncEpoch,
    Prune,
}

/// A notification. Names, data and nodes are slices of the frame.
#[derive(Clone, Copy, Debug)]
pub enum Notification<'a> {
    /// A file that is polled is ready.
    Poll {
        handle: u64,
    },
    /// The attributes of a node are out of date, and its data from an offset on; offset and length are
    /// signed: none of the data where the offset is below 0, and all from it on where the length is 0
    /// or less.
    InvalInode {
        nodeid: u64,
        offset: i64,
        length: i64,
    },
    /// The entry of a name is out of date.
    InvalEntry {
        parent: u64,
        flags: u32,
        name: &'a [u8],
    },
    /// Data of a file, to be kept.
    Store {
        nodeid: u64,
        offset: u64,
        data: &'a [u8],
    },
    /// Data of a file is to be sent back, in a NOTIFY_REPLY of this number.
    Retrieve {
        unique: u64,
        nodeid: u64,
        offset: u64,
        size: u32,
    },
    /// The file of a name was deleted.
    Delete {
        parent: u64,
        child: u64,
        name: &'a [u8],
    },
    /// All requests that wait are to be sent again.
    Resend,
    /// All entries are out of date.
    IncEpoch,
    /// These nodes are to be forgotten where nothing uses them.
    Prune {
        nodeids: NodeIds<'a>,
    },
}

/// The kind of a code, if there is one.
pub fn notification_of_code(code: u32) -> Option<NotificationKind>
    ensures { MatchOption result ((k : NotificationKind) → code_of k ≢ code) (λ k. code_of k ≡ code) }
{
    match code {
        1 => Some(NotificationKind::Poll),
        2 => Some(NotificationKind::InvalInode),
        3 => Some(NotificationKind::InvalEntry),
        4 => Some(NotificationKind::Store),
        5 => Some(NotificationKind::Retrieve),
        6 => Some(NotificationKind::Delete),
        7 => Some(NotificationKind::Resend),
        8 => Some(NotificationKind::IncEpoch),
        9 => Some(NotificationKind::Prune),
        _ => None,
    }
}

impl NotificationKind {
    /// The kind's name in capitals, as `INVAL_INODE`.
    pub fn name(self) -> &'static str
        ensures { result.now ≡ name_of self }
    {
        match self {
            NotificationKind::Poll => "POLL",
            NotificationKind::InvalInode => "INVAL_INODE",
            NotificationKind::InvalEntry => "INVAL_ENTRY",
            NotificationKind::Store => "STORE",
            NotificationKind::Retrieve => "RETRIEVE",
            NotificationKind::Delete => "DELETE",
            NotificationKind::Resend => "RESEND",
            NotificationKind::IncEpoch => "INC_EPOCH",
            NotificationKind::Prune => "PRUNE",
        }
    }
}
