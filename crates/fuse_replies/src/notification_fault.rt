//! Why a notification could not be read.

use thiserror::Error;

/// What is wrong with a notification: the first fault that applies, in this order.
#[derive(Clone, Copy, Debug, PartialEq, Eq, Error)]
pub enum NotificationFault {
    /// Fewer bytes than a header has.
    #[error("the frame is too short for its header")]
    Short,
    /// The field `len` is not the frame's length, or is above 2^24.
    #[error("the frame has another length than it says")]
    Length,
    /// The frame has a number, so it is a reply.
    #[error("a notification has number 0")]
    Number,
    /// No row has this code.
    #[error("the code of the notification is not known")]
    Code,
    /// The frame has another size than its row says.
    #[error("the body is not of its kind")]
    Body,
    /// The name is empty, is longer than agreed, has a NUL byte or a slash, or no NUL byte follows it.
    #[error("a name breaks the rules of names")]
    Name,
}
