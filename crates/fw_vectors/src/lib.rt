//! Vectors: frames, and what the codec says of each, to test a codec of any language against.
#![tactic(auto)]

mod changes;
mod entry_members;
mod frame_vector;
mod print;
mod replies;
mod reply_members;
mod reply_samples;
mod request_members;
mod request_samples;
mod requests;
mod vector_line;

pub use print::print_vectors;
