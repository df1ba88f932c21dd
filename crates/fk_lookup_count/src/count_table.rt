//! The contract of the table, for any representation.
ghost use Rattle.std.specs.Prelude.{◌≡◌, ◌≢◌, ℕ, ◌+◌, ◌^◌, ◌<◌, ◌↔◌, [], OnOk, OnErr, IsOk, IsErr, IfOk, T, None, is_none, length};
ghost use Rattle.std.specs.FinMap.{is_sorted};
ghost use Rattle.std.specs.Ordering.{nat_cmp};
ghost use Rattle.std.specs.Option.{ForSome};
ghost use Rattle.fuse_spec.specs.Values.Maps.{Map, get, remove};
ghost use Rattle.fuse_spec.specs.declared.Counted.{Counted};
ghost use Rattle.fk_lookup_count.specs.CountedNodes.{IsUnlike, counted_once_more, forget_of, listed_counts};

use crate::forget::Forget;
use crate::unlike::Unlike;
use fuse_spec::{Counted, NodeCount};
use std::alloc::{AllocError, Allocator};

/// The counted nodes of the kernel. Node ids are the server's choice: any `u64`.
///
/// Of an id that is not counted a look gives `None`, and `evict` no forget. `reserve` and `nodes` take memory, and
/// `reserve_and_learn` of an id that has no room; after `reserve` neither `learn` nor `evict` takes any.
pub trait CountTable {
    /// Where the room comes from.
    type Heap: Allocator + Copy;

    /// Each counted id with its generation, its lookup count.
    ghost counted: { Self → Map Counted };

    /// The id has room: to learn it takes no memory.
    ghost has_room: { Self → ℕ → Type 0 };

    /// A table that counts nothing.
    fn new(alloc: Self::Heap) -> Self
        ensures { counted result ≡ [] };

    /// Makes room for an id. It keeps the room until it is evicted, or the table is cleared.
    ///
    /// # Errors
    ///
    /// Out of memory: the id had no room. Nothing changed.
    fn reserve(&mut self, id: u64) -> Result<(), AllocError>
        ensures counted { counted self.new ≡ counted self.old }
        ensures room { OnOk result (has_room self.new id) }
        ensures kept { (other : ℕ) → has_room self.old other → has_room self.new other }
        ensures succeeds { has_room self.old id → IsOk result };

    /// Counts one entry reply that names an id under a generation: the id has room (libfuse's low-level notes, "forget").
    ///
    /// # Errors
    ///
    /// `Unlike` where the id is counted under another generation. Nothing changed.
    fn learn(&mut self, id: u64, generation: u64) -> Result<(), Unlike>
        requires room { has_room self.old id }
        requires fits { ForSome (get (counted self.old) id) (λ node. node.count + 1 < 2 ^ 64) }
        ensures unlike { IsErr result ↔ IsUnlike (get (counted self.old) id) generation }
        ensures ok { OnOk result (counted self.new ≡ counted_once_more (counted self.old) id generation
            (get (counted self.old) id)) }
        ensures err { OnErr result (counted self.new ≡ counted self.old) }
        ensures kept { (other : ℕ) → has_room self.old other → has_room self.new other };

    /// `reserve` and `learn` with one search where the id is counted or has room. Says whether the id was not counted
    /// before.
    ///
    /// # Errors
    ///
    /// Out of memory: the id was not counted and had no room; inside, `Unlike` as of `learn`. Nothing changed.
    fn reserve_and_learn(
        &mut self,
        id: u64,
        generation: u64,
    ) -> Result<Result<bool, Unlike>, AllocError>
        requires fits { ForSome (get (counted self.old) id) (λ node. node.count + 1 < 2 ^ 64) }
        ensures unlike { IfOk result (λ given. IsErr given ↔ IsUnlike (get (counted self.old) id) generation) }
        ensures new { IfOk result (λ given. IfOk given (λ is_new. is_new ≡ is_none (get (counted self.old) id))) }
        ensures ok { IfOk result (λ given. OnOk given (counted self.new ≡ counted_once_more (counted self.old) id generation
            (get (counted self.old) id))) }
        ensures err { IfOk result (λ given. OnErr given (counted self.new ≡ counted self.old)) }
        ensures memory { OnErr result (counted self.new ≡ counted self.old) }
        ensures counted { OnErr result (get (counted self.old) id ≡ None) }
        ensures succeeds { has_room self.old id → IsOk result }
        ensures kept { (other : ℕ) → has_room self.old other → has_room self.new other };

    /// How an id is counted: its generation and its lookup count.
    fn count_of(&self, id: u64) -> Option<Counted>
        ensures { result ≡ get (counted self.now) id };

    /// Evicts a counted id, and gives the forget of its whole count. The id keeps no room.
    fn evict(&mut self, id: u64) -> Option<Forget>
        ensures forget { result ≡ forget_of id (get (counted self.old) id) }
        ensures counted { counted self.new ≡ remove (counted self.old) id }
        ensures kept { (other : ℕ) → other ≢ id → has_room self.old other → has_room self.new other };

    /// Nodes stand in rising id, and memory holds fewer than 2^63. A call without effect, made where a proof rests on
    /// that.
    fn lemma_sound(&self)
        ensures sorted { T (is_sorted nat_cmp (counted self.now)) }
        ensures few { length (counted self.now) < 2 ^ 63 };

    /// Drops all ids, without forgets, and their room.
    fn clear(&mut self)
        ensures { counted self.new ≡ [] };

    /// Id, generation and lookup count of each counted node, in rising id.
    ///
    /// # Errors
    ///
    /// Out of memory for the list.
    fn nodes(&self, alloc: Self::Heap) -> Result<Vec<NodeCount, Self::Heap>, AllocError>
        ensures { IfOk result (λ nodes. nodes.items ≡ listed_counts (counted self.now)) };

    /// Ends it. It is a drop, whose parts are so proved in this crate, and not in each that has one.
    fn end(self);
}
