//! What goes over a device at once.

use crate::act::Taken;

/// What went over a device, in the device's order: a read stands where it ended, a write where it began.
#[derive(Clone, Copy, Debug)]
pub enum Transfer<'a> {
    /// A request that was read.
    Request(&'a [u8]),
    /// A reply or a notification that was written, and what the device made of it.
    Written(&'a [u8], Taken),
    /// From here on more than one thread reads.
    SeveralReaders,
    /// From here on another thread than the one that reads writes replies.
    SeveralWriters,
    /// The device came to its end.
    Ended,
}
