//! The kernel in front of any device: what it reads is sent to a server, and what the server sends is written to it.
#![tactic(auto)]

mod connection;
mod end;
mod exchange;
mod noted;
mod opening;
mod receiving;
mod releasing;
mod sending;
mod writing;

pub use connection::{Connection, Directory};
pub use end::{DriveEnd, NotSent};
pub use fk_drive_frames::{FreeFields, OtherFrame};
pub use noted::{Noted, Notes};
pub use sending::send_next;
pub use writing::{Written, write_next};
