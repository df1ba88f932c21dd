//! Why a run ends, and why a request is not sent.

use fuse_device::DeviceEnd;
use fuse_spec::Refusal;
use thiserror::Error;

/// Why no more goes over a device.
#[derive(Clone, Copy, Debug, PartialEq, Eq, Error)]
pub enum DriveEnd {
    /// The device came to its end.
    #[error("the device ended")]
    Device(DeviceEnd),
    /// Out of memory for a frame that is to come.
    #[error("out of memory")]
    Memory,
    /// As many frames wait for the kernel as are kept (`MOST_WAITING`), while the reply to OPENDIR or RELEASEDIR is
    /// awaited.
    #[error("too many frames wait")]
    TooMany,
    /// The kernel refused the error reply for a directory that could not be opened.
    #[error("the kernel refused a reply")]
    Refused(Refusal),
}

/// Why a request is not sent.
#[derive(Clone, Copy, Debug, PartialEq, Eq, Error)]
pub enum NotSent {
    /// The kernel refused to be read, and nothing changed.
    #[error("the kernel refused to be read")]
    Refused(Refusal),
    #[error("the run came to its end")]
    Ended(DriveEnd),
}
