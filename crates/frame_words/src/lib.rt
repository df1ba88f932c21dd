//! Frames of every opcode in words: what a request, a reply and a notification says, as text.
//!
//! Each function writes exactly the text that `specs/` gives of what the frame says; nothing is kept of it.
#![tactic(auto)]

mod errors;
mod frames;
mod init_flags;
mod notifications;
mod replies;
mod requests;
mod words;

pub use errors::name_of_error;
pub use frames::{
    words_of_reply_fault, words_of_shape_fault, write_reply_frame, write_reply_head,
    write_request_frame,
};
pub use notifications::write_notification;
