//! What is kept under a file handle.

/// The file of a file handle, and its count: how many copies of replies carry the handle or wait for its RELEASE.
#[derive(Clone, Copy, Debug, PartialEq, Eq)]
pub struct OpenFile {
    pub file: u64,
    pub count: u64,
}
