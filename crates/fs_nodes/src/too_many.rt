//! The one error of taking lookups back.
use thiserror::Error;

/// More lookups of a node are to be taken back than it has, or no such node is held.
#[derive(Clone, Copy, Debug, PartialEq, Eq, Error)]
#[error("more lookups are taken back than the node has")]
pub struct TooMany;
