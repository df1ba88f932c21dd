//! Slots under node ids: what a representation of the table offers.
ghost use Rattle.std.specs.Prelude.{◌≡◌, ℕ, ◌+◌, ◌^◌, ◌<◌, None, OnOk, OnErr, IfOk, length};
ghost use Rattle.std.specs.Option.{ForSome};
ghost use Rattle.std.specs.Ordering.{nat_cmp};
ghost use Rattle.std.specs.FinMap.{FinMap, get, insert, remove, empty, entries};
ghost use Rattle.fuse_spec.specs.declared.Counted.{Counted};
ghost use Rattle.fk_lookup_count.specs.CountedNodes.{listed_counts};
ghost use Rattle.fk_lookup_count.specs.Slots.{nodes_among, nodes_in, slot_counted_more, slot_looked_up};

use fuse_spec::{Counted, NodeCount};
use std::alloc::{AllocError, Allocator};

/// A slot that holds no node: room for one.
pub(crate) const ROOM: Counted = Counted {
    generation: 0,
    count: 0,
};

/// Slots under node ids. A slot of count 0 is room for its id, and no node.
pub trait Slots {
    type Heap: Allocator + Copy;

    /// What stands in each slot.
    ghost slots: { Self → FinMap nat_cmp Counted };

    fn new(alloc: Self::Heap) -> Self
        ensures { slots result ≡ empty };

    /// How many slots there are.
    fn len(&self) -> usize
        ensures len { result ≡ length (entries (slots self.now)) }
        ensures small { result < 2 ^ 63 };

    /// The slot of an id.
    fn slot(&self, id: u64) -> Option<Counted>
        ensures { result ≡ get (slots self.now) id };

    /// Gives a slot to an id that has none.
    ///
    /// # Errors
    ///
    /// Out of memory. Nothing changed.
    fn add(&mut self, id: u64, slot: Counted) -> Result<(), AllocError>
        requires { get (slots self.old) id ≡ None }
        ensures ok { OnOk result (slots self.new ≡ insert (slots self.old) id slot) }
        ensures err { OnErr result (slots self.new ≡ slots self.old) };

    /// Counts one lookup in the slot of an id, unless the slot holds a node of another generation. Gives what stood in
    /// the slot.
    fn count_lookup(&mut self, id: u64, generation: u64) -> Option<Counted>
        requires fits { ForSome (get (slots self.old) id) (λ slot. slot.count + 1 < 2 ^ 64) }
        ensures stood { result ≡ get (slots self.old) id }
        ensures slots { slots self.new ≡ slot_looked_up (slots self.old) id generation (get (slots self.old) id) };

    /// Takes the slot of an id away, and gives what stood in it.
    fn take_out(&mut self, id: u64) -> Option<Counted>
        ensures stood { result ≡ get (slots self.old) id }
        ensures slots { slots self.new ≡ remove (slots self.old) id };

    /// Takes all slots away.
    fn clear(&mut self)
        ensures { slots self.new ≡ empty };

    /// Id, generation and count of each slot that holds a node, in rising id.
    ///
    /// # Errors
    ///
    /// Out of memory for the list.
    fn nodes(&self, alloc: Self::Heap) -> Result<Vec<NodeCount, Self::Heap>, AllocError>
        ensures { IfOk result (λ nodes. nodes.items ≡ listed_counts (nodes_in (slots self.now))) };

    /// Ends it. It is a drop, whose parts are so proved in this crate, and not in each that has one.
    fn end(self);
}

/// A slot with one lookup more under a generation, unless it holds a node of another.
pub(crate) fn one_more(slot: Counted, generation: u64) -> Option<Counted>
    requires { slot.count + 1 < 2 ^ 64 }
    ensures { result ≡ slot_counted_more generation slot }
{
    if slot.count == 0 {
        return Some(Counted {
            generation,
            count: 1,
        });
    }
    if slot.generation != generation {
        return None;
    }
    Some(Counted {
        count: slot.count + 1,
        ..slot
    })
}

/// Id, generation and count of each of these slots that holds a node, in their order.
pub(crate) fn list_nodes<A: Allocator + Copy>(
    alloc: A,
    slots: &[(u64, Counted)],
) -> Result<Vec<NodeCount, A>, AllocError>
    ensures { IfOk result (λ nodes. nodes.items ≡ listed_counts (nodes_among slots.now)) }
{
    let mut nodes = Vec::new(alloc);
    for row in slots {
        if row.1.count > 0 {
            nodes.push(NodeCount {
                nodeid: row.0,
                generation: row.1.generation,
                count: row.1.count,
            })?;
        }
    }
    Ok(nodes)
}
