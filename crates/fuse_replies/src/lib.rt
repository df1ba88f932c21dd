//! What servers write, read by the table of `fuse_protocol`: replies and notifications.
//!
//! `read_reply` reads a reply by the row of its request's opcode, and `read_notification` a notification
//! by the row of its code. Both answer `Ok` exactly where the bytes have the row's shape, and else the
//! first fault. They take no memory: data, names and records are slices of the frame.
#![tactic(auto)]

mod body;
mod entry;
mod fault;
mod listed;
mod node_ids;
mod notification;
mod notification_fault;
mod notification_table;
mod reading;
mod reading_notification;
mod record;
mod records;
mod reply;
mod walk;

pub use entry::{Attributes, Entry, Opened, ValidAttributes, Validity};
pub use fault::ReplyFault;
pub use node_ids::NodeIds;
pub use notification::{Notification, NotificationKind, notification_of_code};
pub use notification_fault::NotificationFault;
pub use notification_table::{NotificationRow, NotificationTail, notification_row_of};
pub use reading::{read_reply, read_reply_header};
pub use reading_notification::read_notification;
pub use record::{EntryRecord, Record};
pub use records::{EntryRecords, Records};
pub use reply::{Answer, Reply, ReplyHeader};
