//! How often nodes are counted, as a session's acts change it.

use fuse_sessions::Act;
use std::alloc::{AllocError, Allocator, Global};
use std::collections::BTreeMap;

/// The root's nodeid (linux/fuse.h, FUSE_ROOT_ID).
const ROOT: u64 = 1;

/// A node, and how often it is counted.
#[derive(Clone, Copy)]
pub(crate) struct NodeCount {
    pub(crate) nodeid: u64,
    pub(crate) count: u64,
}

/// How often each node is counted. One that is counted no more takes no memory.
#[derive(Drop)]
pub(crate) struct Counts<A: Allocator = Global> {
    nodes: BTreeMap<u64, u64, A>,
}

impl<A: Allocator + Copy> Counts<A> {
    /// No node is counted.
    pub(crate) fn new(alloc: A) -> Self {
        Counts {
            nodes: BTreeMap::new(alloc),
        }
    }

    /// How often a node is counted.
    fn count(&self, nodeid: u64) -> u64 {
        self.nodes.get(&nodeid).copied().unwrap_or(0)
    }

    /// A node is counted so often from now on. Gives it where that is a change. The root is not counted.
    fn set(&mut self, nodeid: u64, count: u64) -> Result<Option<NodeCount>, AllocError> {
        if nodeid == ROOT || count == self.count(nodeid) {
            return Ok(None);
        }
        if count == 0 {
            let _last = self.nodes.remove(&nodeid);
        } else if self.nodes.insert(nodeid, count).is_err() {
            return Err(AllocError);
        }
        Ok(Some(NodeCount { nodeid, count }))
    }

    /// Notes an act. Gives the node whose count it changes, if one, with its new count.
    ///
    /// # Errors
    ///
    /// Out of memory.
    pub(crate) fn note(&mut self, act: Act) -> Result<Option<NodeCount>, AllocError> {
        match act {
            Act::Gives { nodeid, .. } => {
                let count = self.count(nodeid).saturating_add(1);
                self.set(nodeid, count)
            }
            Act::Forgets(nodeid, lookups) => {
                let count = self.count(nodeid).saturating_sub(lookups);
                self.set(nodeid, count)
            }
            _ => Ok(None),
        }
    }
}
