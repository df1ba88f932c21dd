//! The nodes that the kernel counts.

ghost use Rattle.std.specs.Prelude.{◌≡◌, ◌<◌, ◌+◌, ◌^◌, [], ◌∷◌, length, nat_le, option_map, OnOk, OnErr, IfOk, None, T, true, false};
ghost use Rattle.std.specs.Option.{ForSome};
ghost use Rattle.fuse_spec.specs.Values.Maps.{get, remove};
ghost use Rattle.fuse_spec.specs.Values.Numbers.{counter_end};
ghost use Rattle.fuse_spec.specs.Kernel.Replies.{counted_more, looked_up, use_of};
ghost use Rattle.std.specs.FinMap.{is_sorted};
ghost use Rattle.std.specs.Ordering.{nat_cmp};
ghost use Rattle.fk_wire.specs.Records.{direntplus_content};
ghost use Rattle.fuse_frames.specs.ReplyTies.{pair_in};
ghost use Rattle.fuse_spec.specs.Files.Operations.{listed_by};
ghost use Rattle.fk_lookup_count.specs.CountedNodes.{listed_counts};
ghost use Rattle.fk_nodes.specs.LookedUp.{looked_up_from, LeavesBelow, HaveCountsInRange, SomeOut};
ghost use Rattle.fk_nodes.specs.ListedFiles.{pairs_left_in};
ghost use Rattle.fk_nodes.specs.Uses.{use_meant};

use crate::entry_use::EntryUse;
use crate::listed_entry::entry_of;
use crate::lookups::{count_all, lists_more_than, reserve_nodes};
use fk_lookup_count::CountTable;
use fk_wire::{DirentPlus, RecordsPlus};
use fuse_spec::limits::COUNTER_END;
use fuse_spec::{Counted, Entry, NodeCount};
use std::alloc::AllocError;
use std::marker::Model;

/// The counted nodes, over any table of them: each node id with its generation and its lookup count.
#[derive(Drop)]
pub struct CountedNodes<C: CountTable> {
    table: C,
    /// How many are counted.
    len: usize,
    /// No node's count is higher.
    most_lookups: u64,
}

impl<C: CountTable> Model for CountedNodes<C> {
    ghost use Rattle.std.specs.Coded.{codes};
    ghost use Rattle.fuse_spec.specs.Values.Maps.{Map};
    ghost use Rattle.fuse_spec.specs.declared.Counted.{Counted};
    ghost use Rattle.fuse_spec.specs.contracts.Counted as counted_row;
    ghost use Rattle.std.specs.Prelude.{◌≡◌, length};
    ghost use Rattle.fk_lookup_count.specs.CountedNodes.{listed_counts};
    ghost use Rattle.fk_nodes.specs.LookedUp.{AreAtMost};

    ghost Value = { Map Counted };

    ghost coded = { Prim.hlevel (codes, counted_row.the_row.coded) };

    ghost view = { λ t. C.counted t.table };

    ghost invariant = { λ t. (t.len ≡ length (C.counted t.table)) × AreAtMost t.most_lookups (C.counted t.table) };
}

impl<C: CountTable> CountedNodes<C> {
    pub fn new(alloc: C::Heap) -> Self
        ensures { result ≡ [] }
    {
        CountedNodes {
            table: C::new(alloc),
            len: 0,
            most_lookups: 0,
        }
    }

    /// How many nodes are counted: fewer than 2^63, since memory holds no more.
    pub fn node_count(&self) -> usize
        ensures count { result ≡ length self.now }
        ensures few { result < 2 ^ 63 }
    {
        self.table.lemma_sound();
        self.len
    }

    /// The generation under which a node is counted.
    pub fn generation_of(&self, id: u64) -> Option<u64>
        ensures { result ≡ option_map (λ counted. counted.generation) (get self.now id) }
    {
        match self.counted(id) {
            Some(counted) => Some(counted.generation),
            None => None,
        }
    }

    /// Nodes stand in rising id. A call without effect, made where a proof rests on that.
    pub fn lemma_sorted(&self)
        ensures { T (is_sorted nat_cmp self.now) }
    {
        self.table.lemma_sound();
    }

    /// Whether an entry can be used.
    pub fn use_of(&self, entry: &Entry) -> EntryUse
        ensures { use_meant entry.now.nodeid result ≡ use_of self.now entry.now }
    {
        if entry.nodeid < 2 {
            return EntryUse::InvalidNodeid;
        }
        match self.generation_of(entry.nodeid) {
            Some(generation) if generation != entry.generation => EntryUse::Stale,
            _ => EntryUse::Usable,
        }
    }

    /// Whether one lookup more brings the count of the entry's node to the end of counters.
    pub fn count_overflows(&self, entry: &Entry) -> bool
        ensures { result ≡ nat_le counter_end (counted_more entry.now (get self.now entry.now.nodeid)).count }
    {
        // Counts are far from their end as a rule: then none is looked up.
        if self.most_lookups < COUNTER_END - 1 {
            return false;
        }
        match self.counted(entry.nodeid) {
            Some(counted) => counted.count >= COUNTER_END - 1,
            None => false,
        }
    }

    /// Counts one lookup more of the node that an entry names.
    ///
    /// # Errors
    ///
    /// Out of memory: the node was not counted. Nothing changed.
    pub fn count_lookup(&mut self, entry: &Entry) -> Result<(), AllocError>
        requires alike { ForSome (get self.old entry.now.nodeid)
            (λ counted. counted.generation ≡ entry.now.generation) }
        requires fits { ForSome (get self.old entry.now.nodeid) (λ counted. counted.count + 1 < 2 ^ 64) }
        ensures ok { OnOk result (self.new ≡ looked_up self.old (entry.now ∷ [])) }
        ensures err { OnErr result (self.new ≡ self.old) }
        ensures counted { OnErr result (get self.old entry.now.nodeid ≡ None) }
    {
        self.table.lemma_sound();
        match self
            .table
            .reserve_and_learn(entry.nodeid, entry.generation)?
        {
            Ok(is_new) => {
                self.most_lookups = self.most_lookups.saturating_add(1);
                if is_new {
                    self.len += 1;
                }
                Ok(())
            }
            // It never comes to this: the node is counted under this generation, or not at all.
            Err(_) => Ok(()),
        }
    }

    /// How a node is counted.
    fn counted(&self, id: u64) -> Option<Counted>
        ensures { result ≡ get self.now id }
    {
        let _ = &self.len;
        self.table.count_of(id)
    }

    /// Whether the names of a list that give the node that this one gives, under the same generation, bring its count
    /// to the end of counters, where it is counted under that generation.
    fn brings_out(&self, pair: &DirentPlus<'_>, pairs: RecordsPlus<'_>) -> bool
        requires { HaveCountsInRange self.now }
        ensures out { result ≡ true → SomeOut (looked_up_from self.now (pairs_left_in pairs.entry)) }
        ensures within { result ≡ false → LeavesBelow self.now (pairs_left_in pairs.entry)
            (listed_by (pair_in (direntplus_content pair.now))) }
    {
        let Some(entry) = entry_of(pair) else {
            return false;
        };
        if entry.nodeid < 2 {
            return false;
        }
        let Some(counted) = self.counted(entry.nodeid) else {
            return false;
        };
        if counted.generation != entry.generation {
            return false;
        }
        let left = COUNTER_END - 1 - counted.count;
        lists_more_than(pairs, entry.nodeid, entry.generation, left)
    }

    /// Whether a node's count reaches the end of counters once the names of a list are counted, each judged by the
    /// counts that those before it left. Takes no memory.
    pub fn listed_count_out(&self, pairs: RecordsPlus<'_>) -> bool
        requires { HaveCountsInRange self.now }
        ensures out { result ≡ true → SomeOut (looked_up_from self.now (pairs_left_in pairs.entry)) }
        ensures within { result ≡ false → HaveCountsInRange (looked_up_from self.now (pairs_left_in pairs.entry)) }
    {
        let names = pairs.count_left() as u64;
        // Counts are far from their end as a rule: then none is looked up.
        if self.most_lookups.saturating_add(names) < COUNTER_END {
            return false;
        }
        for pair in pairs {
            if self.brings_out(&pair, pairs) {
                return true;
            }
        }
        false
    }

    /// Counts the names of a list that give files, each judged by the counts that those before it left.
    ///
    /// # Errors
    ///
    /// Out of memory. Nothing changed.
    pub fn count_listed(&mut self, pairs: RecordsPlus<'_>) -> Result<(), AllocError>
        requires { HaveCountsInRange (looked_up_from self.old (pairs_left_in pairs)) }
        ensures ok { OnOk result (self.new ≡ looked_up_from self.old (pairs_left_in pairs.entry)) }
        ensures err { OnErr result (self.new ≡ self.old) }
    {
        reserve_nodes(&mut self.table, pairs)?;
        self.len = count_all(&mut self.table, self.len, pairs);
        let names = pairs.count_left() as u64;
        self.most_lookups = self.most_lookups.saturating_add(names);
        Ok(())
    }

    /// Evicts a node, and gives its whole count, if it is counted.
    pub fn evict(&mut self, id: u64) -> Option<u64>
        ensures count { result ≡ option_map (λ counted. counted.count) (get self.old id) }
        ensures nodes { self.new ≡ remove self.old id }
    {
        self.table.lemma_sound();
        let forget = self.table.evict(id)?;
        self.len -= 1;
        Some(forget.nlookup)
    }

    pub fn clear(&mut self)
        ensures { self.new ≡ [] }
    {
        self.table.clear();
        self.len = 0;
        self.most_lookups = 0;
    }

    /// The counted nodes, in rising id.
    ///
    /// # Errors
    ///
    /// Out of memory for the list.
    pub fn list(&self, alloc: C::Heap) -> Result<Vec<NodeCount, C::Heap>, AllocError>
        ensures { IfOk result (λ nodes. nodes.items ≡ listed_counts self.now) }
    {
        let _ = &self.len;
        self.table.nodes(alloc)
    }

    /// Ends it, as a drop does.
    pub fn end(self) {
        self.table.end();
    }
}
