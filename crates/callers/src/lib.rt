//! Three callers, each in a short file, as an author of a FUSE server, of a virtual machine host and of a kernel may
//! write them.
#![tactic(auto)]

mod kernel;
mod server;
mod virtual_machine;

pub use kernel::{ask, mount, reply};
pub use server::answer;
pub use virtual_machine::{Served, serve};
