//! A device around a device, which writes what goes over it as a capture.
//!
//! `fuse_capture` reads the lines; `specs/Captured.antt` has the text.
#![tactic(auto)]

mod captured;
mod writes;

pub use captured::CapturedDevice;
