//! How far a session is judged.

/// Whether the next transfer is judged, or why not.
#[derive(Clone, Copy, Debug, PartialEq, Eq)]
pub(crate) enum Stage {
    Judging,
    /// Memory ran out, and that was said.
    NoMemory,
    /// The writer refused what was written.
    Refused,
}
