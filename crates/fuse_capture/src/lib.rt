//! The lines of a capture: what went over a FUSE device, a line a transfer.
//!
//! `> HEX` is a request that was read, `< HEX` a reply or a notification that the device accepted, and `< HEX ENOENT` one
//! that it refused, by the error's name. `= several readers` says that more than one thread reads from here on, `= ended
//! ENODEV` that the device came to its end, and `= closed` that the server did, which is no transfer. A time in
//! nanoseconds may stand before the hex, as `@1200`, and after it how many bytes more the frame had than were kept, as
//! `+4096`. Empty lines and those that begin with `#` are passed over. `specs/Lines.antt` says the same of each line.
#![tactic(auto)]

mod event;
mod frame;
mod hex_word;
pub mod line;
mod number;
mod outcome;
mod parts;
mod read;
mod transfer;

pub use line::{CaptureFault, CaptureLine, CapturedFrame};
pub use read::read_line;
pub use transfer::{read_transfer, write_frame};
