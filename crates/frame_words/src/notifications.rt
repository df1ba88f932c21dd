//! What a notification says, in words.

ghost use Rattle.std.specs.Prelude.{◌≡◌, ◌++◌, OnOk, codes, flat_map};
ghost use Rattle.std.specs.Io.KnownBytes.{Appends};
ghost use Rattle.fuse_replies.specs.NodeIds.{node_ids_in};
ghost use Rattle.fuse_replies.specs.Notifications.{kind_of, notification_content};
ghost use Rattle.frame_words.specs.Replies.{content_words, node_words, nodes_words, notification_head, notification_words};

use crate::words::{write_data, write_named, write_number};
use fuse_replies::{NodeIds, Notification, NotificationKind};
use std::io;
use std::io::Write;

/// The kind of a notification.
fn kind(notification: &Notification<'_>) -> NotificationKind
    ensures { result ≡ kind_of (notification_content notification.now) }
{
    match notification {
        Notification::Poll { .. } => NotificationKind::Poll,
        Notification::InvalInode { .. } => NotificationKind::InvalInode,
        Notification::InvalEntry { .. } => NotificationKind::InvalEntry,
        Notification::Store { .. } => NotificationKind::Store,
        Notification::Retrieve { .. } => NotificationKind::Retrieve,
        Notification::Delete { .. } => NotificationKind::Delete,
        Notification::Resend => NotificationKind::Resend,
        Notification::IncEpoch => NotificationKind::IncEpoch,
        Notification::Prune { .. } => NotificationKind::Prune,
    }
}

/// Writes ` NODE`.
fn write_node<W: Write>(out: &mut W, nodeid: u64) -> io::Result<()>
    ensures { OnOk result (Appends (W.contents out.old) (W.contents out.new) (node_words nodeid)) }
{
    write!(out, " {nodeid}")
}

/// Writes each node.
fn write_each_node<W: Write>(out: &mut W, nodeids: NodeIds<'_>) -> io::Result<()>
    ensures { OnOk result (Appends (W.contents out.old) (W.contents out.new)
        (flat_map node_words (node_ids_in nodeids.entry))) }
{
    for nodeid in nodeids {
        write_node(out, nodeid)?;
    }
    Ok(())
}

/// Writes ` nodes`, and each node.
#[tactic(auto, unfolding(crate::specs::Replies::nodes_words))]
fn write_nodes<W: Write>(out: &mut W, nodeids: NodeIds<'_>) -> io::Result<()>
    ensures { OnOk result (Appends (W.contents out.old) (W.contents out.new) (nodes_words (node_ids_in nodeids.entry))) }
{
    out.write_all(b" nodes")?;
    write_each_node(out, nodeids)
}

/// Writes what a notification says, each word after a space.
fn write_content<W: Write>(out: &mut W, notification: Notification<'_>) -> io::Result<()>
    ensures { OnOk result (Appends (W.contents out.old) (W.contents out.new)
        (content_words (notification_content notification.entry))) }
{
    match notification {
        Notification::Poll { handle } => write_number(out, "kh", handle),
        Notification::InvalInode { nodeid, .. } => write_number(out, "node", nodeid),
        Notification::InvalEntry { parent, name, .. } => {
            write_number(out, "node", parent)?;
            write_named(out, "name", name)
        }
        Notification::Store {
            nodeid,
            offset,
            data,
        } => {
            write_number(out, "node", nodeid)?;
            write_number(out, "offset", offset)?;
            write_data(out, data)
        }
        Notification::Retrieve {
            unique,
            nodeid,
            offset,
            size,
        } => {
            write_number(out, "unique", unique)?;
            write_number(out, "node", nodeid)?;
            write_number(out, "offset", offset)?;
            write_number(out, "size", u64::from(size))
        }
        Notification::Delete {
            parent,
            child,
            name,
        } => {
            write_number(out, "node", parent)?;
            write_number(out, "child", child)?;
            write_named(out, "name", name)
        }
        Notification::Resend | Notification::IncEpoch => out.write_all(b""),
        Notification::Prune { nodeids } => write_nodes(out, nodeids),
    }
}

/// Writes `notification NAME LEN`.
#[tactic(auto, unfolding(crate::specs::Replies::notification_head))]
fn write_notification_head<W: Write>(
    out: &mut W,
    kind: NotificationKind,
    len: usize,
) -> io::Result<()>
    ensures { OnOk result (Appends (W.contents out.old) (W.contents out.new) (notification_head kind len)) }
{
    let name = kind.name();
    write!(out, "notification {name} {len}")
}

/// Writes `notification NAME LEN` of a notification in a frame of so many bytes, and then what it says, each word after
/// a space.
///
/// # Errors
///
/// Where `out` refuses.
pub fn write_notification<W: Write>(
    out: &mut W,
    notification: &Notification<'_>,
    len: usize,
) -> io::Result<()>
    ensures { OnOk result (Appends (W.contents out.old) (W.contents out.new)
        (notification_words (notification_content notification.now) len)) }
{
    write_notification_head(out, kind(notification), len)?;
    write_content(out, *notification)
}
