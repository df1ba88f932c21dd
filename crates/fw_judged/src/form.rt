//! What is written of a transfer.

/// What is written of a transfer.
#[derive(Clone, Copy, Debug, PartialEq, Eq)]
pub(crate) enum Form {
    /// A line for each of its faults.
    Faults,
    /// Its line in a capture.
    Capture,
}
