//! Frames of any opcode up to 7.45: `frame --any` and `reply --any` read one from its hex and print it in words, and
//! `vectors --all` prints the shortest and the longest of each opcode.
//!
//! Frames are read by the table of `fuse_protocol` and printed by `frame_words`, under what is agreed where INIT's reply
//! sets no flag.
#![tactic(auto)]

mod any_frame;
mod any_reply;
mod hex_fault;
mod opcode_name;
mod print;
mod sample_line;
mod sample_list;
mod sample_replies;
mod sample_requests;

pub use any_frame::run_any_frame;
pub use any_reply::run_any_reply;
pub use opcode_name::any_opcode_of_name;
pub use print::print_all_vectors;
