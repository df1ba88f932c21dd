//! The server's half of the protocol, against any frames.
#![tactic(auto)]

mod again;
mod connection_lost;
mod drop_held;
mod fault_reply;
mod held_requests;
mod interrupts;
mod perform;
mod releases;
mod remount;
mod replies;
mod request_faults;
mod server;
mod settle;
mod step;
mod take;

pub use fs_nodes::NodeStore;
pub use server::{Done, ListServer, Server, ServerFault, ServerOf, Taken};
pub use step::{ServerEvent, ServerRefused, ServerStep};
