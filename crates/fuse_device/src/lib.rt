//! Devices of bare FUSE frames: one frame is received in a call, and one is sent, whose result is given.
//!
//! /dev/fuse is such a device, and so is a socket with a FUSE server or a kernel behind it.
#![tactic(auto)]

mod calls;
mod device;
mod errors;
mod list;
mod packet;
mod reading;
mod stream;

pub use calls::{ReadOnce, WriteOnce};
pub use device::{Device, DeviceEnd};
pub use list::ListDevice;
pub use packet::PacketDevice;
pub use stream::StreamDevice;
