//! The nodes that the server holds, the root among them.

ghost use Rattle.std.specs.Prelude.{◌≡◌, ◌+◌, ◌^◌, ◌<◌, ◌≤◌, ◌||◌, ℕ, List, [], true, false, not, Some, OnOk, IfOk, count_by, is_some, length, nat_eq, option_map};
ghost use Rattle.std.specs.List.{list_any};
ghost use Rattle.fuse_spec.specs.Values.Maps.{get, values};
ghost use Rattle.fuse_spec.specs.Server.Nodes.{HeldNode, count_overflows, row_of, file_of, is_held, given, row_more, taken_back, MayName, IsUnheld};
ghost use Rattle.fuse_spec.specs.Server.Server.{count_in, generation_in, is_known};
ghost use Rattle.fuse_spec.specs.Server.Copies.{row_back};
ghost use Rattle.fuse_spec.specs.Values.Numbers.{counter_end};
ghost use Rattle.fs_nodes.specs.Rows.{listed_nodes};
ghost use Rattle.fs_nodes.specs.Sound.{IsSoundNodeTable};
ghost use Rattle.fs_files.specs.Bounds.{HaveCountsUpTo, AreHeldBelow};
ghost use Rattle.fs_files.specs.Giving.{IsCountable, files_of, generations_after, has_node_already, new_among, node_in};
ghost use Rattle.fs_files.specs.Values.{no_nodes};

use crate::held::{MOST_NAMES, NamedNode};
use fs_nodes::NodeStore;
use fuse_spec::limits::COUNTER_END;
use fuse_spec::{Entry, NodeCount};
use std::alloc::AllocError;
use std::marker::Model;

/// The root's node. It is of generation 0, and has no count.
const ROOT: u64 = 1;

/// The root's file.
const ROOT_FILE: u64 = 0;

/// The nodes that the server holds: the root, and those of a table.
#[derive(Drop)]
pub struct Nodes<S: NodeStore> {
    store: S,
    /// No node has more lookups than this. It rises with each lookup that is counted, and falls only when all nodes are
    /// dropped.
    most_lookups: u64,
}

impl<S: NodeStore> Model for Nodes<S> {
    ghost use Rattle.std.specs.Coded.{codes};
    ghost use Rattle.fs_files.specs.Bounds.{HaveCountsUpTo};
    ghost use Rattle.fs_files.specs.Values.{HeldNodes};

    ghost Value = { HeldNodes };

    ghost coded = { Prim.hlevel (codes) };

    ghost view = { λ n. record { table = S.table n.store; room = S.room n.store } };

    ghost invariant = { λ n. HaveCountsUpTo n.most_lookups (S.table n.store) };
}

impl<S: NodeStore> Nodes<S> {
    pub fn new(alloc: S::Heap) -> Self
        ensures { result.table ≡ no_nodes }
    {
        Nodes {
            store: S::new(alloc),
            most_lookups: 0,
        }
    }

    /// Makes room for as many more nodes as one reply gives at most.
    ///
    /// # Errors
    ///
    /// Out of memory: that room was not there. The nodes are as before.
    pub fn reserve(&mut self) -> Result<(), AllocError>
        ensures table { self.new.table ≡ self.old.table }
        ensures room { OnOk result (32 ≤ self.new.room) }
    {
        self.store.reserve([ROOT_FILE; MOST_NAMES].as_slice())
    }

    /// How many generations are left below 2^62.
    pub fn generations_left(&self) -> u64
        ensures { result + self.now.table.next_generation ≡ counter_end }
    {
        self.store.generations_left()
    }

    /// Whether a node is held.
    pub fn is_known(&self, id: u64) -> bool
        ensures { result ≡ is_known self.now.table id }
    {
        id == ROOT || self.store.file_of(id).is_some()
    }

    /// The node with the generation that it has, which is 0 for the root and where none is held.
    pub fn named(&self, nodeid: u64) -> NamedNode
        ensures { result ≡ record { nodeid = nodeid; generation = generation_in (row_of self.now.table nodeid) } }
    {
        let generation = if nodeid == ROOT {
            0
        } else {
            self.store.generation_of(nodeid).unwrap_or(0)
        };
        NamedNode { nodeid, generation }
    }

    /// Whether a node is held under its generation.
    pub fn is_held(&self, node: NamedNode) -> bool
        ensures { result ≡ is_held self.now.table node.nodeid node.generation }
    {
        if node.nodeid == ROOT {
            return node.generation == 0;
        }
        self.store.holds(node.nodeid, node.generation)
    }

    /// The file of a node, which is the root where none is held.
    pub fn file_of(&self, id: u64) -> u64
        ensures { result ≡ file_of self.now.table id }
    {
        if id == ROOT {
            return ROOT_FILE;
        }
        self.store.file_of(id).unwrap_or(ROOT_FILE)
    }

    /// The file of a node but the root, if it is held.
    pub fn counted_file(&self, id: u64) -> Option<u64>
        ensures { result ≡ option_map (λ (row : HeldNode). row.file) (get self.now.table.rows id) }
    {
        self.store.file_of(id)
    }

    /// The lookup count of a node, without the root: 0 where it has none.
    pub fn count_of(&self, id: u64) -> u64
        ensures { result ≡ count_in (get self.now.table.rows id) }
    {
        self.store.count_of(id)
    }

    /// Whether a node but the root is held.
    pub fn is_counted(&self, id: u64) -> bool
        ensures { result ≡ is_some (get self.now.table.rows id) }
    {
        self.store.file_of(id).is_some()
    }

    /// Whether the file has a node.
    pub fn has(&self, file: u64) -> bool
        ensures any { result ≡ list_any (λ (row : HeldNode). nat_eq row.file file) (values self.now.table.rows) }
        ensures none { result ≡ false → IsUnheld self.now.table file }
        ensures some { result ≡ true → IsUnheld self.now.table file → ⊥ }
    {
        self.store.lemma_sound();
        self.store.has(file)
    }

    /// The node of a file, or the root's where it has none.
    pub fn node_of(&self, file: u64) -> u64
        ensures { result ≡ node_in self.now.table.rows file }
    {
        self.store.lemma_sound();
        self.store.id_of(file).unwrap_or(ROOT)
    }

    /// Nodeids rise from 2, no two have one file, each has a lookup, and its generation was given before the coming
    /// one.
    pub fn lemma_sound(&self)
        ensures { IsSoundNodeTable self.now.table }
    {
        self.store.lemma_sound();
    }

    /// How many nodes are new once these files have nodes.
    pub fn new_among(&self, files: &[u64]) -> usize
        ensures new { result ≡ new_among (has_node_already self.now.table) files.now }
        ensures few { result ≤ length files.now }
    {
        let mut count = 0;
        let mut left = files;
        for _ in 0..files.len() {
            let Some((file, rest)) = left.split_first() else {
                return count;
            };
            count += self.is_new(*file, rest) as usize;
            left = rest;
        }
        count
    }

    /// Whether a file has no node and is none of the others.
    fn is_new(&self, file: u64, others: &[u64]) -> bool
        ensures { result ≡ not (has_node_already self.now.table file || list_any (nat_eq file) others.now) }
    {
        !self.has(file) && !others.contains(&file)
    }

    /// Whether any files that one reply names can be given nodes, whichever they are: there are generations for all of
    /// them, and each node's lookups are so far from their end. No node is looked at.
    pub(crate) fn can_give_any(&self) -> bool
        ensures { result ≡ true → (files : List ℕ) → length files ≤ 32
            → (generations_after self.now.table files ≤ counter_end) × (count_overflows self.now.table files ≡ false) }
    {
        self.store.lemma_sound();
        MOST_NAMES as u64 <= self.store.generations_left()
            && self.most_lookups < COUNTER_END - MOST_NAMES as u64
    }

    /// Whether some node's lookups reach the end of counters once each of these files is given its node once more.
    /// Only the nodes of these files are looked at.
    pub fn count_overflows(&self, files: &[u64]) -> bool
        requires { AreHeldBelow self.now.table }
        ensures { result ≡ count_overflows self.now.table files.now }
    {
        self.store.lemma_sound();
        let mut left = files;
        for _ in 0..files.len() {
            let Some((file, rest)) = left.split_first() else {
                return false;
            };
            if self.is_counted_out(*file, times(*file, files)) {
                return true;
            }
            left = rest;
        }
        false
    }

    /// Whether some node's lookups reach the end of counters once each of these entries counts its node once more.
    /// Only the nodes of these entries are looked at.
    pub fn counts_out_again(&self, entries: &[Entry]) -> bool
        requires { AreHeldBelow self.now.table }
        ensures { result ≡ count_overflows self.now.table (files_of self.now.table entries.now) }
    {
        self.store.lemma_sound();
        let mut left = entries;
        for _ in 0..entries.len() {
            let Some((entry, rest)) = left.split_first() else {
                return false;
            };
            let file = self.file_of(entry.nodeid);
            if self.is_counted_out(file, self.times_among(file, entries)) {
                return true;
            }
            left = rest;
        }
        false
    }

    /// Whether the lookups of a file's node reach the end of counters once it is given this many times more.
    fn is_counted_out(&self, file: u64, more: usize) -> bool
        requires { AreHeldBelow self.now.table }
        ensures out { result ≡ true → (files : List ℕ) → more ≡ count_by (nat_eq file) files
            → count_overflows self.now.table files ≡ true }
        ensures within { result ≡ false → (files : List ℕ) → more ≡ count_by (nat_eq file) files
            → IsCountable self.now.table files file }
    {
        self.store.lemma_sound();
        match self.store.id_of(file) {
            Some(id) => more as u64 >= COUNTER_END - self.store.count_of(id),
            None => false,
        }
    }

    /// How many of these entries are of nodes of a file.
    fn times_among(&self, file: u64, entries: &[Entry]) -> usize
        ensures { result ≡ count_by (nat_eq file) (files_of self.now.table entries.now) }
    {
        entries
            .iter()
            .filter(|entry| self.file_of(entry.nodeid) == file)
            .count()
    }

    /// Counts one lookup of a file, and gives its nodeid and generation.
    pub fn give(&mut self, file: u64) -> (u64, u64)
        requires room { 0 < self.old.room }
        requires generation { IsUnheld self.old.table file → self.old.table.next_generation < counter_end }
        requires count { (id : ℕ) (row : HeldNode) → get self.old.table.rows id ≡ Some row → row.count + 1 < 2 ^ 64 }
        ensures id { MayName self.old.table file result.0 }
        ensures two { 2 ≤ result.0 }
        ensures room { self.old.room ≤ self.new.room + 1 }
        ensures generation { result.1 ≡ generation_in (row_of self.new.table result.0) }
        ensures table { self.new.table ≡ given self.old.table file result.0 }
    {
        self.store.lemma_sound();
        self.most_lookups = self.most_lookups.saturating_add(1);
        self.store.give(file)
    }

    /// Counts one lookup more of a node, if it is held. The root has no count.
    pub fn count_again(&mut self, id: u64)
        requires { HaveCountsUpTo (2 ^ 63) self.old.table }
        ensures { self.new.table ≡ row_more self.old.table id }
    {
        self.store.lemma_sound();
        let Some(file) = self.store.file_of(id) else {
            return;
        };
        self.most_lookups = self.most_lookups.saturating_add(1);
        self.store.give(file);
    }

    /// Forgets this many lookups of a node, if it is held; it has as many.
    pub fn forget(&mut self, id: u64, count: u64)
        requires { count ≤ count_in (get self.old.table.rows id) }
        ensures { self.new.table ≡ taken_back self.old.table id count }
    {
        let _ = self.store.take_back(id, count);
    }

    /// Takes back the lookup of an entry, where its node is still held under the entry's generation.
    pub fn uncount(&mut self, entry: &Entry)
        ensures { self.new.table ≡ row_back self.old.table entry.now }
    {
        self.store.lemma_sound();
        let node = NamedNode {
            nodeid: entry.nodeid,
            generation: entry.generation,
        };
        if self.is_held(node) {
            let _ = self.store.take_back(entry.nodeid, 1);
        }
    }

    /// Drops all nodes but the root. Generations go on.
    pub fn clear(&mut self)
        ensures { self.new.table ≡ record self.old.table { rows = [] } }
    {
        self.store.clear();
        self.most_lookups = 0;
    }

    /// The nodes but the root, in rising nodeid, each with its generation and its lookup count.
    ///
    /// # Errors
    ///
    /// Out of memory.
    pub fn nodes(&self, alloc: S::Heap) -> Result<Vec<NodeCount, S::Heap>, AllocError>
        ensures { IfOk result (λ nodes. nodes.items ≡ listed_nodes self.now.table.rows) }
    {
        self.store.nodes(alloc)
    }

    /// Ends it, as a drop does.
    pub(crate) fn end(self) {
        self.store.end();
    }
}

/// How many times a file is among these.
fn times(file: u64, files: &[u64]) -> usize
    ensures { result ≡ count_by (nat_eq file) files.now }
{
    files.iter().filter(|other| **other == file).count()
}
