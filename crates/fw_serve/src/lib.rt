//! The program's command `serve`: the server before one device, from its mount to the end of the device.
#![tactic(auto)]

mod serving;
mod traced;
mod waiting;

pub use serving::{Mount, serve_device};
pub use traced::TracedDevice;
pub use waiting::{WaitingReader, WaitingWriter};
