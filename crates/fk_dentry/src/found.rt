//! What a look-up of a name finds.

/// What the cached names say of a name.
#[derive(Clone, Copy, Debug, PartialEq, Eq)]
pub enum Found {
    /// It leads to the node of this id.
    Node(u64),
    /// The directory has no such name.
    Missing,
    /// Nothing that is still valid.
    Unknown,
}
