//! Nodes in a slab whose place plus 2 is the nodeid, with a map from each file to its place.
ghost use Rattle.std.specs.Prelude.{◌≡◌, ◌≢◌, ℕ, ◌+◌, ◌-◌, ◌<◌, ◌≤◌, ◌^◌, Some, None, IsSome, OnOk, IfOk, nat_eq, if◌then◌else◌};
ghost use Rattle.slab.specs.Slab as slots;
ghost use Rattle.slab.specs.Slab.{HasRoomFor, Updates, slab_len, entries};
ghost use Rattle.std.specs.Map.{lookup};
ghost use Rattle.fs_nodes.specs.Rows.{listed_nodes};
ghost use Rattle.fs_nodes.specs.Inverse.{AreInverse};
ghost use Rattle.indexmap.specs.IndexMap as map;
ghost use Rattle.indexmap.specs.IndexMap.{spare};
ghost use Rattle.fs_nodes.specs.Slots.{rows_from, slot_file, room_of, AreSmall};

use crate::node_rows::NodeRows;
use crate::places::{FIRST, place_of_node};
use crate::stored_node::StoredNode;
use fuse_spec::NodeCount;
use indexmap::IndexMap;
use slab::Slab;
use std::alloc::{AllocError, Allocator, Global};
use std::hash::{BuildHasherDefault, FoldHasher};

type Builder = BuildHasherDefault<FoldHasher>;

/// The most places that a slab has room for.
const MOST: usize = 0x4000_0000_0000_0000;

/// Nodes in a slab. No call scans them but `nodes`.
#[derive(Drop)]
pub struct SlabRows<A: Allocator = Global> {
    nodes: Slab<StoredNode, A>,
    places: IndexMap<u64, usize, Builder, A>,
    ghost inverse: { AreInverse (slot_file nodes.slots) (λ file. lookup (nat_eq file) places.entries) },
    ghost small: { (file place : ℕ) → lookup (nat_eq file) places.entries ≡ Some place → place < 2 ^ 62 },
}

impl<A: Allocator + Copy> NodeRows for SlabRows<A> {
    type Heap = A;

    ghost rows = { λ t. rows_from 2 t.nodes.slots };

    ghost room = { λ t. room_of t.nodes.capacity (slab_len t.nodes) (spare t.places) };

    fn new(alloc: A) -> Self {
        SlabRows {
            nodes: Slab::new(alloc),
            places: IndexMap::new(alloc),
        }
    }

    fn reserve(&mut self, more: usize) -> Result<(), AllocError> {
        if more == 0 {
            return Ok(());
        }
        self.places.reserve(more)?;
        self.nodes.reserve(more)?;
        // no clause of the slab bounds its capacity; no memory holds as many places
        if self.nodes.capacity() > MOST {
            return Err(AllocError);
        }
        Ok(())
    }

    fn node(&self, id: u64) -> Option<StoredNode> {
        let place = place_of_node(id)?;
        self.nodes.get(place).copied()
    }

    fn id_of(&self, file: u64) -> Option<u64> {
        let place = self.places.get(&file).copied()?;
        Some(place as u64 + FIRST)
    }

    fn write(&mut self, id: u64, node: StoredNode) {
        if let Some(place) = place_of_node(id) {
            set(&mut self.nodes, place, node);
        }
    }

    fn add(&mut self, node: StoredNode) -> u64 {
        let place = self.nodes.insert_reserved(node);
        put(&mut self.places, node.file, place);
        place as u64 + FIRST
    }

    fn take_out(&mut self, id: u64) {
        let Some(place) = place_of_node(id) else {
            return;
        };
        let Some(node) = self.nodes.try_remove(place) else {
            return;
        };
        let _place = self.places.swap_remove(&node.file);
    }

    fn clear(&mut self) {
        self.nodes.clear();
        self.places.clear();
    }

    fn nodes(&self, alloc: A) -> Result<Vec<NodeCount, A>, AllocError> {
        list_nodes(alloc, &self.nodes)
    }

    fn end(self) {}
}

/// The nodes in rising nodeid, each with its generation and its lookup count.
fn list_nodes<A: Allocator + Copy>(
    alloc: A,
    nodes: &Slab<StoredNode, A>,
) -> Result<Vec<NodeCount, A>, AllocError>
    requires { AreSmall (entries nodes.now) }
    ensures { IfOk result (λ list. list.items ≡ listed_nodes (rows_from 2 nodes.now.slots)) }
{
    let mut list = Vec::with_capacity(alloc, nodes.len())?;
    for (place, node) in nodes.iter() {
        list.push(NodeCount {
            nodeid: place as u64 + FIRST,
            generation: node.generation,
            count: node.count,
        })?;
    }
    Ok(list)
}

/// Writes what stands at a place.
fn set<A: Allocator>(nodes: &mut Slab<StoredNode, A>, place: usize, node: StoredNode)
    requires { IsSome (slots.get nodes.old place) }
    ensures updates { Updates nodes.old nodes.new place (Some node) }
    ensures len { slab_len nodes.new ≡ slab_len nodes.old }
    ensures capacity { nodes.new.capacity ≡ nodes.old.capacity }
{
    nodes[place] = node;
}

/// Puts the place of a file that has none, with room.
fn put<A: Allocator + Copy>(places: &mut IndexMap<u64, usize, Builder, A>, file: u64, place: usize)
    requires { 0 < spare places.old }
    ensures at { (q : ℕ) → map.get nat_eq places.new q
        ≡ (if nat_eq file q then Some place else map.get nat_eq places.old q) }
    ensures room { spare places.old ≤ spare places.new + 1 }
{
    let _old = places.insert(file, place).unwrap();
}
