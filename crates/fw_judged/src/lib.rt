//! Devices around a device, which judge what goes over it as it goes, and write a line for each fault.
//!
//! `fuse_judge` judges, and `fw_check` has the text. `specs/Judged.antt` says what is written, `specs/Sides.antt` which
//! transfer of a session each call over the device is.
#![tactic(auto)]

mod accepted;
mod capture_line;
mod counts;
mod form;
mod judged;
mod lines;
mod server;
mod stage;
mod taking;

pub use accepted::replies_are_accepted;
pub use counts::FaultCounts;
pub use judged::JudgedDevice;
pub use server::JudgedServer;
