//! Frames as acts: which acts a transfer is, from its bytes.
//!
//! What a transfer is stands in `specs/Frames.antt` of `fuse_sessions`: by the shapes of frames, by what INIT agreed on,
//! and by what waits under the number of a reply.
#![tactic(auto)]

mod answers;
mod asked;
mod entries;
mod fits;
mod frames;
mod init;
mod listings;
mod replies;
mod requests;
mod unread;
mod writing;

pub use frames::{reply_number, write_transfer};
