//! What the kernel sends when it evicts a node.

/// This many lookups of a node are forgotten (`struct fuse_forget_one`).
#[derive(Clone, Copy, Debug, PartialEq, Eq)]
pub struct Forget {
    pub nodeid: u64,
    pub nlookup: u64,
}
