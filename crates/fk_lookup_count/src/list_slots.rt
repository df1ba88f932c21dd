//! The plain slots, in a table.

use crate::slots::{Slots, list_nodes, one_more};
use fuse_spec::{Counted, NodeCount};
use fuse_tables::Table;
use std::alloc::{AllocError, Allocator, Global};
use std::marker::Model;

/// Slots in rows, in rising id.
#[derive(Drop)]
pub struct ListSlots<A: Allocator = Global> {
    slots: Table<Counted, A>,
}

impl<A: Allocator> Model for ListSlots<A> {
    ghost use Rattle.std.specs.Ordering.{nat_cmp};
    ghost use Rattle.std.specs.Coded.{codes};
    ghost use Rattle.std.specs.FinMap.{FinMap, from_entries, code as map_code};
    ghost use Rattle.fuse_spec.specs.declared.Counted.{Counted};
    ghost use Rattle.fuse_spec.specs.contracts.Counted as counted_row;

    ghost Value = { FinMap nat_cmp Counted };

    ghost coded = { Prim.hlevel (codes, map_code, counted_row.the_row.coded) };

    ghost view = { λ t. from_entries t.slots.entries };
}

impl<A: Allocator + Copy> Slots for ListSlots<A> {
    type Heap = A;

    ghost slots = { λ s. s };

    fn new(alloc: A) -> Self {
        ListSlots {
            slots: Table::new(alloc),
        }
    }

    fn len(&self) -> usize {
        self.slots.lemma_sound();
        self.slots.len()
    }

    fn slot(&self, id: u64) -> Option<Counted> {
        self.slots.get(id).copied()
    }

    fn add(&mut self, id: u64, slot: Counted) -> Result<(), AllocError> {
        self.slots.reserve(1)?;
        self.slots.put(id, slot);
        Ok(())
    }

    fn count_lookup(&mut self, id: u64, generation: u64) -> Option<Counted> {
        let slot = self.slot(id)?;
        match one_more(slot, generation) {
            Some(more) => self.slots.replace(id, more),
            None => Some(slot),
        }
    }

    fn take_out(&mut self, id: u64) -> Option<Counted> {
        self.slots.remove(id)
    }

    fn clear(&mut self) {
        self.slots.clear();
    }

    fn nodes(&self, alloc: A) -> Result<Vec<NodeCount, A>, AllocError> {
        self.slots.lemma_sound();
        list_nodes(alloc, self.slots.rows())
    }

    fn end(self) {}
}
