//! The calls of the table, over any representation of its rows.

use crate::node_rows::NodeRows;
use crate::node_store::NodeStore;
use crate::stored_node::StoredNode;
use crate::too_many::TooMany;
use fuse_spec::NodeCount;
use fuse_spec::limits::COUNTER_END;
use std::alloc::AllocError;
use std::marker::Model;

/// Held nodes, and the generation that is given next.
#[derive(Drop)]
pub struct NodesOf<R: NodeRows> {
    rows: R,
    next: u64,
}

impl<R: NodeRows> Model for NodesOf<R> {
    ghost use Rattle.std.specs.Coded.{codes};
    ghost use Rattle.fs_nodes.specs.Rows.{NodesState};
    ghost use Rattle.fs_nodes.specs.Sound.{AreNodesKept};

    ghost Value = { NodesState };

    ghost coded = { Prim.hlevel (codes) };

    ghost view = { λ t. record {
      table = record { rows = R.rows t.rows; next_generation = t.next };
      room = R.room t.rows;
    } };

    ghost invariant = { λ t. AreNodesKept (record { rows = R.rows t.rows; next_generation = t.next }) };
}

impl<R: NodeRows> NodeStore for NodesOf<R> {
    type Heap = R::Heap;

    ghost table = { λ t. t.table };

    ghost room = { λ t. t.room };

    fn new(alloc: R::Heap) -> Self {
        NodesOf {
            rows: R::new(alloc),
            next: 1,
        }
    }

    fn reserve(&mut self, files: &[u64]) -> Result<(), AllocError> {
        self.rows.reserve(files.len())
    }

    fn generations_left(&self) -> u64 {
        COUNTER_END - self.next
    }

    fn give(&mut self, file: u64) -> (u64, u64) {
        if let Some(id) = self.rows.id_of(file) {
            let Some(node) = self.rows.node(id) else {
                unreachable!();
            };
            let count = node.count + 1;
            self.rows.write(id, StoredNode { count, ..node });
            return (id, node.generation);
        }
        let generation = self.next;
        let id = self.rows.add(StoredNode {
            file,
            generation,
            count: 1,
        });
        self.next = generation + 1;
        (id, generation)
    }

    fn take_back(&mut self, id: u64, count: u64) -> Result<(), TooMany> {
        let Some(node) = self.rows.node(id) else {
            return Err(TooMany);
        };
        if node.count < count {
            return Err(TooMany);
        }
        if count < node.count {
            let left = node.count - count;
            self.rows.write(
                id,
                StoredNode {
                    count: left,
                    ..node
                },
            );
        } else {
            self.rows.take_out(id);
        }
        Ok(())
    }

    fn file_of(&self, id: u64) -> Option<u64> {
        let node = self.rows.node(id)?;
        Some(node.file)
    }

    fn generation_of(&self, id: u64) -> Option<u64> {
        let node = self.rows.node(id)?;
        Some(node.generation)
    }

    fn count_of(&self, id: u64) -> u64 {
        match self.rows.node(id) {
            None => 0,
            Some(node) => node.count,
        }
    }

    fn id_of(&self, file: u64) -> Option<u64> {
        self.rows.id_of(file)
    }

    fn has(&self, file: u64) -> bool {
        self.rows.id_of(file).is_some()
    }

    fn holds(&self, id: u64, generation: u64) -> bool {
        match self.rows.node(id) {
            None => false,
            Some(node) => node.generation == generation,
        }
    }

    fn clear(&mut self) {
        self.rows.clear();
    }

    fn nodes(&self, alloc: R::Heap) -> Result<Vec<NodeCount, R::Heap>, AllocError> {
        self.rows.nodes(alloc)
    }

    fn lemma_sound(&self) {
        // A field is touched so that the type's invariant is at hand.
        let _next = self.next;
    }

    fn end(self) {
        self.rows.end();
    }
}
