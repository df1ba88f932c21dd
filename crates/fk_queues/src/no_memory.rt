//! The one error of the queues.
use thiserror::Error;

/// Room was not made: memory ran out.
#[derive(Clone, Copy, Debug, PartialEq, Eq, Error)]
#[error("no memory")]
pub struct NoMemory;

impl From<std::alloc::AllocError> for NoMemory {
    fn from(_error: std::alloc::AllocError) -> Self {
        NoMemory
    }
}
