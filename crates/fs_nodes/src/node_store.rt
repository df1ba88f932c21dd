//! The contract of the held nodes, for any representation.
ghost use Rattle.std.specs.Prelude.{◌≡◌, ℕ, [], ◌+◌, ◌^◌, ◌<◌, ◌≤◌, ◌↔◌, Some, IsOk, OnOk, OnErr, IfOk, IfSome, IfNone, length, nat_eq, option_map};
ghost use Rattle.std.specs.List.{list_any};
ghost use Rattle.fuse_spec.specs.Values.Maps.{get, values};
ghost use Rattle.fuse_spec.specs.Server.Nodes.{HeldNode, NodeTable, MayName, IsUnheld, given, taken_back, is_row_of};
ghost use Rattle.fuse_spec.specs.Server.Server.{count_in};
ghost use Rattle.fuse_spec.specs.Values.Numbers.{counter_end};
ghost use Rattle.fs_nodes.specs.Rows.{generation_given, room_for, HasCount, listed_nodes, IsOf};
ghost use Rattle.fs_nodes.specs.Sound.{IsSoundNodeTable};

use crate::too_many::TooMany;
use fuse_spec::NodeCount;
use std::alloc::{AllocError, Allocator};

/// The nodes that a server holds, one nodeid a file. The root, nodeid 1, is always held and never among them.
///
/// Nodeids are from 2 up. A generation is the next of a counter that never goes back, also not at `clear`: so no pair
/// of a nodeid and a generation is given twice (libfuse's low-level notes ask this of a server).
///
/// Only `reserve` and `nodes` take memory. Under a nodeid that is not held a look answers `None`, 0 or `false`
/// (this project's rule).
pub trait NodeStore {
    /// Where the room comes from.
    type Heap: Allocator + Copy;

    /// The nodes and the coming generation.
    ghost table: { Self → NodeTable };

    /// How many more files can be given a nodeid with no memory.
    ghost room: { Self → ℕ };

    /// No node. The first generation is 1.
    fn new(alloc: Self::Heap) -> Self
        ensures { table result ≡ record { rows = []; next_generation = 1 } };

    /// Makes room: giving each of these files once takes no memory from then on. Room that is not used stays.
    ///
    /// # Errors
    ///
    /// Out of memory: that room was not there. The nodes are as before.
    fn reserve(&mut self, files: &[u64]) -> Result<(), AllocError>
        ensures table { table self.new ≡ table self.old }
        ensures room { OnOk result (length files.now ≤ room self.new) }
        ensures kept { OnOk result (room self.old ≤ room self.new) }
        ensures succeeds { length files.now ≤ room self.old → IsOk result };

    /// How many generations are left to give.
    fn generations_left(&self) -> u64
        ensures { result + (table self.now).next_generation ≡ counter_end };

    /// Counts one lookup of a file, and gives its nodeid and generation: those that it has, or a free nodeid under the
    /// coming generation.
    fn give(&mut self, file: u64) -> (u64, u64)
        requires room { IsUnheld (table self.old) file → 0 < room self.old }
        requires generation { IsUnheld (table self.old) file → (table self.old).next_generation < counter_end }
        requires count { (id : ℕ) (row : HeldNode) → get (table self.old).rows id ≡ Some row → row.file ≡ file
            → row.count + 1 < 2 ^ 64 }
        ensures id { MayName (table self.old) file result.0 }
        ensures generation { result.1 ≡ generation_given (table self.old) (get (table self.old).rows result.0) }
        ensures table { table self.new ≡ given (table self.old) file result.0 }
        ensures room { room self.old ≤ room self.new + room_for (get (table self.old).rows result.0) };

    /// Takes this many lookups of a node back. With none left the node goes.
    ///
    /// # Errors
    ///
    /// `TooMany` where the node is not held, or has fewer. Nothing changes.
    fn take_back(&mut self, id: u64, count: u64) -> Result<(), TooMany>
        ensures has { IsOk result ↔ HasCount (get (table self.old).rows id) count }
        ensures table { OnOk result (table self.new ≡ taken_back (table self.old) id count) }
        ensures refused { OnErr result (table self.new ≡ table self.old) }
        ensures room { room self.old ≤ room self.new };

    /// The file of a node.
    fn file_of(&self, id: u64) -> Option<u64>
        ensures { result ≡ option_map (λ row. row.file) (get (table self.now).rows id) };

    /// The generation of a node.
    fn generation_of(&self, id: u64) -> Option<u64>
        ensures { result ≡ option_map (λ row. row.generation) (get (table self.now).rows id) };

    /// The lookup count of a node.
    fn count_of(&self, id: u64) -> u64
        ensures { result ≡ count_in (get (table self.now).rows id) };

    /// The nodeid of a file.
    fn id_of(&self, file: u64) -> Option<u64>
        ensures some { IfSome result (λ id. IsOf (get (table self.now).rows id) file) }
        ensures none { IfNone result (IsUnheld (table self.now) file) };

    /// Whether the file has a nodeid.
    fn has(&self, file: u64) -> bool
        ensures { result ≡ list_any (λ (row : HeldNode). nat_eq row.file file) (values (table self.now).rows) };

    /// Whether a node is held under this generation.
    fn holds(&self, id: u64, generation: u64) -> bool
        ensures { result ≡ is_row_of generation (get (table self.now).rows id) };

    /// Drops all nodes. Generations go on, and the room stays.
    fn clear(&mut self)
        ensures table { table self.new ≡ record (table self.old) { rows = [] } }
        ensures room { room self.old ≤ room self.new };

    /// The nodes in rising nodeid, each with its generation and its lookup count.
    ///
    /// # Errors
    ///
    /// Out of memory.
    fn nodes(&self, alloc: Self::Heap) -> Result<Vec<NodeCount, Self::Heap>, AllocError>
        ensures { IfOk result (λ nodes. nodes.items ≡ listed_nodes (table self.now).rows) };

    /// Nodeids rise from 2, no two have one file, each has a lookup, and its generation was given before the coming
    /// one.
    fn lemma_sound(&self)
        ensures { IsSoundNodeTable (table self.now) };

    /// Ends it. It is a drop, whose parts are so proved in this crate, and not in each that has one.
    fn end(self);
}
