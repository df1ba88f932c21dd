//! What is to come of a line that stands for several.

/// The lines that are to come.
#[derive(Clone, Copy, Debug, PartialEq, Eq)]
pub(crate) enum Rest {
    /// None.
    Nothing,
    /// The text.
    Line,
    /// The text, and then this node is evicted.
    Pair(u64),
    /// This node is evicted.
    Node(u64),
    /// While a forget may be read, it is.
    Forgets,
    /// While a cached name may be dropped, it is, and then while a node may be evicted, it is.
    Names,
    /// While a node may be evicted, it is.
    Nodes,
    /// A directory is listed on, after so many calls.
    Listing(u64),
}
