//! What the kernel does with an entry.

/// Whether an entry can be used.
#[derive(Clone, Copy)]
pub enum EntryUse {
    Usable,
    /// It names the root or no node.
    InvalidNodeid,
    /// Its node is counted under another generation.
    Stale,
}
