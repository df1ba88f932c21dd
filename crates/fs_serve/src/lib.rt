//! The server before a device: each frame that is received is taken, performed, replied to and settled.
#![tactic(auto)]

mod batch;
mod blocks;
mod errors;
mod init;
mod names;
mod releasing;
mod serving;

pub use batch::is_long_batch;
pub use init::{init_in, is_long_init};
pub use serving::serve;
