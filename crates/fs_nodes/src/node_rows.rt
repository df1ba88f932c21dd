//! Nodes under their nodeids: what a representation of the table offers.
ghost use Rattle.std.specs.Prelude.{◌≡◌, ℕ, [], None, ◌+◌, ◌<◌, ◌≤◌, IsOk, OnOk, IfOk, IfSome, IfNone, is_some, nat_eq, option_map};
ghost use Rattle.std.specs.List.{list_any};
ghost use Rattle.fuse_spec.specs.Values.Maps.{Map, get, put, remove, values};
ghost use Rattle.fuse_spec.specs.Server.Nodes.{HeldNode};
ghost use Rattle.fs_nodes.specs.Rows.{node_of, IsOf, IsOfNone, listed_nodes};

use crate::stored_node::StoredNode;
use fuse_spec::NodeCount;
use std::alloc::{AllocError, Allocator};

/// Nodes under nodeids from 2 up, one nodeid a file.
///
/// The nodeid dropped last is given first. While none is left, and anew after `clear`, they are given in order from 2
/// (this project's rule; no clause says it).
pub trait NodeRows {
    /// Where the room comes from.
    type Heap: Allocator + Copy;

    /// The nodes by nodeid.
    ghost rows: { Self → Map HeldNode };

    /// How many more nodes can be added with no memory.
    ghost room: { Self → ℕ };

    /// No node.
    fn new(alloc: Self::Heap) -> Self
        ensures { rows result ≡ [] };

    /// Makes room for this many more nodes. Only this call and `nodes` take memory.
    ///
    /// # Errors
    ///
    /// Out of memory: that room was not there. The nodes are as before.
    fn reserve(&mut self, more: usize) -> Result<(), AllocError>
        ensures rows { rows self.new ≡ rows self.old }
        ensures room { OnOk result (more ≤ room self.new) }
        ensures kept { OnOk result (room self.old ≤ room self.new) }
        ensures succeeds { more ≤ room self.old → IsOk result };

    /// What is kept under a nodeid.
    fn node(&self, id: u64) -> Option<StoredNode>
        ensures { option_map node_of result ≡ get (rows self.now) id };

    /// The nodeid of a file.
    fn id_of(&self, file: u64) -> Option<u64>
        ensures some { IfSome result (λ id. IsOf (get (rows self.now) id) file) }
        ensures none { IfNone result (IsOfNone (rows self.now) file) }
        ensures has { is_some result ≡ list_any (λ (row : HeldNode). nat_eq row.file file) (values (rows self.now)) };

    /// Writes what is kept under a nodeid, for the same file.
    fn write(&mut self, id: u64, node: StoredNode)
        requires { IsOf (get (rows self.old) id) node.file }
        ensures rows { rows self.new ≡ put (rows self.old) id (node_of node) }
        ensures room { room self.old ≤ room self.new };

    /// Adds a node of a file that has no nodeid, under a free one.
    fn add(&mut self, node: StoredNode) -> u64
        requires room { 0 < room self.old }
        requires unheld { IsOfNone (rows self.old) node.file }
        ensures low { 2 ≤ result }
        ensures free { get (rows self.old) result ≡ None }
        ensures rows { rows self.new ≡ put (rows self.old) result (node_of node) }
        ensures room { room self.old ≤ room self.new + 1 };

    /// Takes a node out.
    fn take_out(&mut self, id: u64)
        ensures rows { rows self.new ≡ remove (rows self.old) id }
        ensures room { room self.old ≤ room self.new };

    /// Takes all nodes out.
    fn clear(&mut self)
        ensures rows { rows self.new ≡ [] }
        ensures room { room self.old ≤ room self.new };

    /// The nodes in rising nodeid, each with its generation and its lookup count.
    ///
    /// # Errors
    ///
    /// Out of memory.
    fn nodes(&self, alloc: Self::Heap) -> Result<Vec<NodeCount, Self::Heap>, AllocError>
        ensures { IfOk result (λ nodes. nodes.items ≡ listed_nodes (rows self.now)) };

    /// Ends it. It is a drop, whose parts are so proved in this crate, and not in each that has one.
    fn end(self);
}
