//! The calls of the table, over either kind of slots.
ghost use Rattle.std.specs.Prelude.{◌≡◌, ◌≢◌, ℕ, ◌+◌, ◌-◌, ◌<◌, ◌≤◌, Some, IsSome, IfSome};
ghost use Rattle.std.specs.FinMap.{get as slot_of};
ghost use Rattle.fuse_spec.specs.Values.Maps.{get, remove};
ghost use Rattle.fk_lookup_count.specs.Slots.{nodes_in};

use crate::count_table::CountTable;
use crate::forget::Forget;
use crate::slots::{ROOM, Slots};
use crate::unlike::Unlike;
use fuse_spec::{Counted, NodeCount};
use std::alloc::AllocError;

/// The counted nodes, in slots under their ids.
#[derive(Drop)]
pub struct CountsOf<S: Slots> {
    slots: S,
}

impl<S: Slots> CountsOf<S> {
    /// The node that is counted under an id.
    fn node(&self, id: u64) -> Option<Counted>
        ensures node { result ≡ get (nodes_in (S.slots self.now.slots)) id }
        ensures some { IfSome result (λ node. 0 < node.count) }
        ensures room { IsSome result → IsSome (slot_of (S.slots self.now.slots) id) }
    {
        let slot = self.slots.slot(id)?;
        if slot.count == 0 {
            return None;
        }
        Some(slot)
    }

    /// Takes the node of an id out, and its room.
    fn take_out(&mut self, id: u64) -> Option<Counted>
        ensures node { result ≡ get (nodes_in (S.slots self.old.slots)) id }
        ensures nodes { nodes_in (S.slots self.new.slots) ≡ remove (nodes_in (S.slots self.old.slots)) id }
        ensures kept { (other : ℕ) → other ≢ id → IsSome (slot_of (S.slots self.old.slots) other)
            → IsSome (slot_of (S.slots self.new.slots) other) }
    {
        let slot = self.slots.take_out(id)?;
        if slot.count == 0 {
            return None;
        }
        Some(slot)
    }
}

impl<S: Slots> CountTable for CountsOf<S> {
    type Heap = S::Heap;

    ghost counted = { λ t. nodes_in (S.slots t.slots) };

    ghost has_room = { λ t id. IsSome (slot_of (S.slots t.slots) id) };

    fn new(alloc: S::Heap) -> Self {
        CountsOf {
            slots: S::new(alloc),
        }
    }

    fn reserve(&mut self, id: u64) -> Result<(), AllocError> {
        if self.slots.slot(id).is_some() {
            return Ok(());
        }
        self.slots.add(id, ROOM)?;
        Ok(())
    }

    fn learn(&mut self, id: u64, generation: u64) -> Result<(), Unlike> {
        let Some(slot) = self.slots.count_lookup(id, generation) else {
            // Ruled out: the id has room.
            return Ok(());
        };
        if slot.count == 0 {
            return Ok(());
        }
        if slot.generation != generation {
            return Err(Unlike);
        }
        Ok(())
    }

    fn reserve_and_learn(
        &mut self,
        id: u64,
        generation: u64,
    ) -> Result<Result<bool, Unlike>, AllocError> {
        let Some(slot) = self.slots.count_lookup(id, generation) else {
            let node = Counted {
                generation,
                count: 1,
            };
            self.slots.add(id, node)?;
            return Ok(Ok(true));
        };
        if slot.count == 0 {
            return Ok(Ok(true));
        }
        if slot.generation != generation {
            return Ok(Err(Unlike));
        }
        Ok(Ok(false))
    }

    fn count_of(&self, id: u64) -> Option<Counted> {
        self.node(id)
    }

    fn evict(&mut self, id: u64) -> Option<Forget> {
        let node = self.take_out(id)?;
        Some(Forget {
            nodeid: id,
            nlookup: node.count,
        })
    }

    fn lemma_sound(&self) {
        let _slots = self.slots.len();
    }

    fn clear(&mut self) {
        self.slots.clear();
    }

    fn nodes(&self, alloc: S::Heap) -> Result<Vec<NodeCount, S::Heap>, AllocError> {
        self.slots.nodes(alloc)
    }

    fn end(self) {
        self.slots.end();
    }
}
