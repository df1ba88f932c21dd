//! Where the lines of a side end.

use fuse_text::LineError;
use thiserror::Error;

/// Why lines end before the input does.
#[derive(Clone, Copy, Debug, PartialEq, Eq, Error)]
pub enum End {
    #[error(transparent)]
    Input(#[from] LineError),
    #[error("the output refused")]
    OutputRefused,
}
