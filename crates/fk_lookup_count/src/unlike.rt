//! The one error of the table.
use thiserror::Error;

/// The node id is counted under another generation: it names another file.
#[derive(Clone, Copy, Debug, PartialEq, Eq, Error)]
#[error("counted under another generation")]
pub struct Unlike;
