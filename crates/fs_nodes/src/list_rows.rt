//! Nodes in a plain list, in which a file is searched from the front.
ghost use Rattle.std.specs.Prelude.{◌≡◌, ℕ, ◌+◌, ◌-◌, ◌<◌, ◌≤◌, ◌^◌, length, min, position, slice_set, vec_len, vec_capacity, count_by, is_some, IfOk};
ghost use Rattle.fs_nodes.specs.Rows.{listed_nodes};
ghost use Rattle.fs_nodes.specs.Slots.{rows_from, at_place};
ghost use Rattle.fs_nodes.specs.Vacant.{AreVacant, is_kept_of};

use crate::node_rows::NodeRows;
use crate::places::{FIRST, place_of_node};
use crate::stored_node::StoredNode;
use fuse_spec::NodeCount;
use std::alloc::{AllocError, Allocator, Global};

/// Nodes in slots whose place plus 2 is the nodeid, and the vacant places, the one dropped last at the end.
#[derive(Drop)]
pub struct ListRows<A: Allocator = Global> {
    slots: Vec<Option<StoredNode>, A>,
    dropped: Vec<usize, A>,
    ghost vacant: { AreVacant slots.items dropped.items },
    ghost counted: { vec_len dropped + count_by is_some slots.items ≤ length slots.items },
    // a node that goes needs no memory
    ghost fits: { length slots.items ≤ vec_capacity dropped },
}

impl<A: Allocator + Copy> NodeRows for ListRows<A> {
    type Heap = A;

    ghost rows = { λ t. rows_from 2 t.slots.items };

    ghost room = { λ t. vec_len t.dropped + (min (vec_capacity t.slots)
        (vec_capacity t.dropped) - length t.slots.items) };

    fn new(alloc: A) -> Self {
        ListRows {
            slots: Vec::new(alloc),
            dropped: Vec::new(alloc),
        }
    }

    fn reserve(&mut self, more: usize) -> Result<(), AllocError> {
        let fitting = self.slots.capacity().min(self.dropped.capacity());
        if self.dropped.len() + (fitting - self.slots.len()) >= more {
            return Ok(());
        }
        self.slots.reserve(more)?;
        self.dropped
            .reserve(self.slots.capacity() - self.dropped.len())
    }

    fn node(&self, id: u64) -> Option<StoredNode> {
        let place = place_of_node(id)?;
        slot_at(&self.slots, place)
    }

    fn id_of(&self, file: u64) -> Option<u64> {
        let place = place_of_file(&self.slots, file)?;
        Some(place as u64 + FIRST)
    }

    fn write(&mut self, id: u64, node: StoredNode) {
        if let Some(place) = place_of_node(id) {
            put_slot(&mut self.slots, place, Some(node));
        }
    }

    fn add(&mut self, node: StoredNode) -> u64 {
        if let Some(place) = self.dropped.pop() {
            put_slot(&mut self.slots, place, Some(node));
            return place as u64 + FIRST;
        }
        let place = self.slots.len();
        self.slots.push_reserved(Some(node));
        place as u64 + FIRST
    }

    fn take_out(&mut self, id: u64) {
        let Some(place) = place_of_node(id) else {
            return;
        };
        if slot_at(&self.slots, place).is_none() {
            return;
        }
        put_slot(&mut self.slots, place, None);
        self.dropped.push_reserved(place);
    }

    fn clear(&mut self) {
        self.slots.clear();
        self.dropped.clear();
    }

    fn nodes(&self, alloc: A) -> Result<Vec<NodeCount, A>, AllocError> {
        list_slots(alloc, &self.slots)
    }

    fn end(self) {}
}

/// What stands in a slot, or nothing past the last.
fn slot_at(slots: &[Option<StoredNode>], place: usize) -> Option<StoredNode>
    ensures { result ≡ at_place slots.now place }
{
    *slots.get(place)?
}

/// Where the first node of a file stands.
fn place_of_file(slots: &[Option<StoredNode>], file: u64) -> Option<usize>
    ensures { result ≡ position (is_kept_of file) slots.now }
{
    slots.iter().position(|slot| is_of(slot, file))
}

/// Whether a slot has a node of a file.
fn is_of(slot: &Option<StoredNode>, file: u64) -> bool
    ensures { result ≡ is_kept_of file slot.now }
{
    match slot {
        None => false,
        Some(node) => node.file == file,
    }
}

/// Writes a slot.
fn put_slot<A: Allocator>(
    slots: &mut Vec<Option<StoredNode>, A>,
    place: usize,
    slot: Option<StoredNode>,
)
    requires { place < vec_len slots.old }
    ensures items { slots.new.items ≡ slice_set slots.old.items place slot }
    ensures len { vec_len slots.new ≡ vec_len slots.old }
    ensures capacity { vec_capacity slots.new ≡ vec_capacity slots.old }
{
    slots[place] = slot;
}

/// The nodes in rising nodeid, each with its generation and its lookup count.
fn list_slots<A: Allocator + Copy>(
    alloc: A,
    slots: &[Option<StoredNode>],
) -> Result<Vec<NodeCount, A>, AllocError>
    requires { length slots.now < 2 ^ 63 }
    ensures { IfOk result (λ list. list.items ≡ listed_nodes (rows_from 2 slots.now)) }
{
    let mut list = Vec::with_capacity(alloc, slots.len())?;
    for place in 0..slots.len() {
        if let Some(node) = slots[place] {
            list.push(NodeCount {
                nodeid: place as u64 + FIRST,
                generation: node.generation,
                count: node.count,
            })?;
        }
    }
    Ok(list)
}
