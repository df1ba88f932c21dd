//! Frames as notifications.

ghost use Rattle.std.specs.Prelude.{◌≡◌, ◌≤◌, ◌+◌, ◌-◌, ◌↔◌, IfOk, IfErr, IsOkAnd, IsTrue, length};
ghost use Rattle.std.specs.Int.{cast_signed, w64};
ghost use Rattle.fk_fields.specs.Fields.{number_at};
ghost use Rattle.fuse_replies.specs.NotificationTable.{row_at, tail_end};
ghost use Rattle.fuse_replies.specs.Notifications.{IsNotification, NotificationContent, notification_content, kind_of};
ghost use Rattle.fuse_replies.specs.Notifications.{NotificationFaultIs, Fits, HasName, struct_end, notification_at, tail_size};

use crate::node_ids::NodeIds;
use crate::notification::{Notification, NotificationKind, notification_of_code};
use crate::notification_fault::NotificationFault;
use crate::notification_table::{NotificationTail, notification_row_of};
use fk_fields::{u32_at, u64_at};
use fuse_protocol::{Agreed, MAX_FRAME, NameRule, is_name};

/// The signed number in the eight bytes at a place, the lowest first.
fn i64_at(bytes: &[u8], place: usize) -> i64
    requires { place + 8 ≤ length bytes.now }
    ensures { result ≡ cast_signed w64 (number_at place 8 bytes.now) }
{
    u64_at(bytes, place).cast_signed()
}

/// How many bytes follow the struct.
fn size_of_tail(tail: NotificationTail, bytes: &[u8]) -> usize
    requires { tail_end tail ≤ length bytes.now }
    ensures { result ≡ tail_size tail bytes.now }
{
    match tail {
        NotificationTail::None => 0,
        NotificationTail::Name(place) => u32_at(bytes, place) as usize + 1,
        NotificationTail::Data(place) => u32_at(bytes, place) as usize,
        NotificationTail::Nodes(place) => 8 * u32_at(bytes, place) as usize,
    }
}

/// Whether the frame has as many bytes as its kind says.
fn fits(kind: NotificationKind, bytes: &[u8]) -> bool
    ensures { IsTrue result ↔ Fits kind bytes.now }
{
    let row = notification_row_of(kind);
    let end = 16 + row.fixed;
    bytes.len() >= end && bytes.len() - end == size_of_tail(row.tail, bytes)
}

/// Whether the name that follows the struct is one, if a name follows it.
fn has_name(agreed: Agreed, kind: NotificationKind, bytes: &[u8]) -> bool
    requires { Fits kind bytes.now }
    ensures { IsTrue result ↔ HasName agreed (row_at kind).tail (struct_end kind) bytes.now }
{
    let row = notification_row_of(kind);
    let last = bytes.len() - 1;
    match row.tail {
        NotificationTail::Name(_) => is_name(agreed, NameRule::Listed, &bytes[16 + row.fixed..last])
            && bytes[last] == 0,
        _ => true,
    }
}

/// What a frame of a kind says.
fn content_of(kind: NotificationKind, bytes: &[u8]) -> Notification<'_>
    requires { Fits kind bytes.now }
    ensures { notification_content result ≡ notification_at kind bytes.now }
{
    match kind {
        NotificationKind::Poll => Notification::Poll {
            handle: u64_at(bytes, 16),
        },
        NotificationKind::InvalInode => Notification::InvalInode {
            nodeid: u64_at(bytes, 16),
            offset: i64_at(bytes, 24),
            length: i64_at(bytes, 32),
        },
        NotificationKind::InvalEntry => Notification::InvalEntry {
            parent: u64_at(bytes, 16),
            flags: u32_at(bytes, 28),
            name: &bytes[32..bytes.len() - 1],
        },
        NotificationKind::Store => Notification::Store {
            nodeid: u64_at(bytes, 16),
            offset: u64_at(bytes, 24),
            data: &bytes[40..],
        },
        NotificationKind::Retrieve => Notification::Retrieve {
            unique: u64_at(bytes, 16),
            nodeid: u64_at(bytes, 24),
            offset: u64_at(bytes, 32),
            size: u32_at(bytes, 40),
        },
        NotificationKind::Delete => Notification::Delete {
            parent: u64_at(bytes, 16),
            child: u64_at(bytes, 24),
            name: &bytes[40..bytes.len() - 1],
        },
        NotificationKind::Resend => Notification::Resend,
        NotificationKind::IncEpoch => Notification::IncEpoch,
        NotificationKind::Prune => Notification::Prune {
            nodeids: NodeIds::from_place(bytes, 32),
        },
    }
}

/// The notification that a frame is, without the contract's clause on what else it may be.
#[inline(always)]
fn notification_of(agreed: Agreed, bytes: &[u8]) -> Result<Notification<'_>, NotificationFault>
    ensures ok { IfOk result (λ n. IsNotification agreed bytes.now (notification_content n)) }
    ensures fault { IfErr result (NotificationFaultIs agreed bytes.now) }
{
    if bytes.len() < 16 {
        return Err(NotificationFault::Short);
    }
    if bytes.len() > MAX_FRAME || u32_at(bytes, 0) as usize != bytes.len() {
        return Err(NotificationFault::Length);
    }
    if u64_at(bytes, 8) != 0 {
        return Err(NotificationFault::Number);
    }
    let Some(kind) = notification_of_code(u32_at(bytes, 4)) else {
        return Err(NotificationFault::Code);
    };
    if !fits(kind, bytes) {
        return Err(NotificationFault::Body);
    }
    if has_name(agreed, kind, bytes) {
        Ok(content_of(kind, bytes))
    } else {
        Err(NotificationFault::Name)
    }
}

/// Reads a notification, by the row of its code. Copies nothing.
///
/// # Errors
///
/// The first of `NotificationFault` that applies.
pub fn read_notification(
    agreed: Agreed,
    bytes: &[u8],
) -> Result<Notification<'_>, NotificationFault>
    // What is read is what the frame has, in the shape of its code's row.
    ensures ok { IfOk result (λ n. IsNotification agreed bytes.now (notification_content n)) }
    // What has the shape of a row is read so.
    ensures only { (m : NotificationContent) → IsNotification agreed bytes.now m
        → IsOkAnd result (λ n. notification_content n ≡ m) }
    // Else the fault is the first that applies.
    ensures fault { IfErr result (NotificationFaultIs agreed bytes.now) }
{
    notification_of(agreed, bytes)
}
