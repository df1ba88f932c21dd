//! Frames in words: what a request or a reply says, read from its hex.
#![tactic(auto)]

mod entry_words;
mod flag_words;
mod frame;
mod opcode_name;
mod reply;
mod reply_words;
mod request_words;
mod stop;

pub use frame::run_frame;
pub use opcode_name::opcode_of_name;
pub use reply::run_reply;
pub use reply_words::write_reply_words;
pub use request_words::write_request_words;
