//! Why a reply could not be read.

use thiserror::Error;

/// What is wrong with a reply: the first fault that applies, in this order.
#[derive(Clone, Copy, Debug, PartialEq, Eq, Error)]
pub enum ReplyFault {
    /// The opcode has no replies.
    #[error("the opcode has no replies")]
    Unwanted,
    /// Fewer bytes than a header has.
    #[error("the frame is too short for its header")]
    Short,
    /// The field `len` is not the frame's length, or is above 2^24.
    #[error("the frame has another length than it says")]
    Length,
    /// The error is neither 0 nor between -511 and -1.
    #[error("the error number is out of range")]
    Error,
    /// The body is not of the row's size, or stands behind an error.
    #[error("the body is not of its kind")]
    Body,
    /// A record's name is empty, is longer than agreed, or has a NUL byte or a slash.
    #[error("a record's name breaks the rules of names")]
    Name,
}
