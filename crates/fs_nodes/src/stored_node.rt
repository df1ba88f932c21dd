//! What a table keeps under a nodeid.

/// The file of a node, the generation under which its nodeid was given, and its lookup count.
#[derive(Clone, Copy, Debug, PartialEq, Eq)]
pub struct StoredNode {
    pub file: u64,
    pub generation: u64,
    pub count: u64,
}
