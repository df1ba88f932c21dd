//! The command `decode`: a capture in words, frame after frame, with what the judge of sessions says of each.
//!
//! Frames are read by the table of `fuse_protocol` and by what INIT agreed on, and printed by `frame_words`.
#![tactic(auto)]

mod decode;
mod frames;
mod lines;
mod session;
mod totals;

pub use decode::run_decode;
pub use lines::next_line;
pub use session::Decoding;
