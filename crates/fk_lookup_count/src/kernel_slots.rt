//! The kernel's slots, in a table for ids that mostly rise.

use crate::slots::{Slots, list_nodes, one_more};
use fuse_spec::{Counted, NodeCount};
use fuse_tables::RisingTable;
use std::alloc::{AllocError, Allocator, Global};
use std::marker::Model;

/// Slots under their ids. Of `n` slots one is found, written or taken out in log `n` steps, whatever the ids, and in one
/// step where they rose without gaps.
#[derive(Drop)]
pub struct KernelSlots<A: Allocator = Global> {
    slots: RisingTable<Counted, A>,
}

impl<A: Allocator> Model for KernelSlots<A> {
    ghost use Rattle.std.specs.Ordering.{nat_cmp};
    ghost use Rattle.std.specs.Coded.{codes};
    ghost use Rattle.std.specs.FinMap.{FinMap, from_entries, code as map_code};
    ghost use Rattle.fuse_spec.specs.declared.Counted.{Counted};
    ghost use Rattle.fuse_spec.specs.contracts.Counted as counted_row;

    ghost Value = { FinMap nat_cmp Counted };

    ghost coded = { Prim.hlevel (codes, map_code, counted_row.the_row.coded) };

    ghost view = { λ t. from_entries t.slots.entries };
}

impl<A: Allocator + Copy> Slots for KernelSlots<A> {
    type Heap = A;

    ghost slots = { λ s. s };

    fn new(alloc: A) -> Self {
        KernelSlots {
            slots: RisingTable::new(alloc),
        }
    }

    fn len(&self) -> usize {
        self.slots.lemma_sound();
        self.slots.len()
    }

    #[inline(always)]
    fn slot(&self, id: u64) -> Option<Counted> {
        self.slots.get(id).copied()
    }

    #[inline(always)]
    fn add(&mut self, id: u64, slot: Counted) -> Result<(), AllocError> {
        self.slots.reserve(1)?;
        self.slots.put(id, slot);
        Ok(())
    }

    #[inline(always)]
    fn count_lookup(&mut self, id: u64, generation: u64) -> Option<Counted> {
        let Some(slot) = self.slots.get_mut(id) else {
            return None;
        };
        let stood = *slot;
        *slot = one_more(stood, generation).unwrap_or(stood);
        Some(stood)
    }

    #[inline(always)]
    fn take_out(&mut self, id: u64) -> Option<Counted> {
        self.slots.remove(id)
    }

    fn clear(&mut self) {
        self.slots.clear();
    }

    fn nodes(&self, alloc: A) -> Result<Vec<NodeCount, A>, AllocError> {
        self.slots.lemma_sound();
        let slots = self.slots.list(alloc)?;
        list_nodes(alloc, slots.as_slice())
    }

    fn end(self) {}
}
