//! Nodes and file handles are given to the files that a reply names.

ghost use Rattle.std.specs.Prelude.{◌≡◌, ◌≢◌, ◌<◌, ◌≤◌, ◌+◌, ◌*◌, ◌^◌, ◌++◌, [], ℕ, All, IfSome, IsTrue, List, None, Some, cond, false, length, map, vec_capacity};
ghost use Rattle.fuse_spec.specs.Server.Nodes.{IsUnheld, MayName, given, handle_opened, row_of};
ghost use Rattle.fuse_spec.specs.Values.Numbers.{counter_end, max_transfer, max_validity};
ghost use Rattle.fuse_spec.specs.Files.Operations.{files_in_reply, files_listed, first_listed, opens_in_reply};
ghost use Rattle.fuse_spec.specs.Calls.Paths.{is_dots};
ghost use Rattle.fuse_spec.specs.Server.Performs.{entry_for};
ghost use Rattle.fuse_spec.specs.Server.Server.{generation_in};
ghost use Rattle.fs_nodes.specs.Sound.{IsSoundNodeTable};
ghost use Rattle.fs_tree.specs.Outcomes.{is_regular};
ghost use Rattle.fs_files.specs.Bounds.{HaveCountsUpTo, AreHeldBelow, IsThere};
ghost use Rattle.fs_files.specs.Giving.{GivenEach, generations_after, node_in};
ghost use Rattle.fs_files.specs.Listed.{AreRecordBytes, listed_in, listed_pairs, dirents_in_bytes, pair_listed};
ghost use Rattle.fs_files.specs.Replies.{HasSpare, IsListable, IsSendable, IsRepliable, outcome_len, outcome_names, outcome_reply, sent_len, sent_names};
ghost use Rattle.fs_files.specs.Numbering.{GivesEntry, GivesNumbers, entries_named, entry_named};

use crate::files::Files;
use crate::listed_names::ListedNames;
use crate::records::records_of;
use crate::replies::{Outcome, SentReply};
use crate::spare::ListingBuffers;
use fk_wire::Records;
use fs_nodes::NodeStore;
use fuse_frames::Reply;
use fuse_spec::{Entry, is_dots};
use std::alloc::Allocator;

impl<S: NodeStore> Files<S> {
    /// Gives the files of an outcome their nodes, a new file handle, or both, and names them so in what is sent. Each
    /// node is counted once. No memory is taken.
    #[inline(always)]
    pub fn give_numbers(
        &mut self,
        outcome: Outcome<S::Heap>,
        found_ms: u64,
        spare: ListingBuffers<S::Heap>,
    ) -> SentReply<S::Heap>
        requires node_room { 32 ≤ self.old.node_room }
        requires open_room { 0 < self.old.open_room }
        requires spare { HasSpare spare 0 (outcome_names outcome) }
        requires repliable { IsRepliable self.old.tree outcome }
        requires generations { generations_after self.old.nodes
            (files_in_reply (outcome_reply found_ms outcome)) ≤ counter_end }
        requires numbers { self.old.handles.next_fh + length
            (opens_in_reply (outcome_reply found_ms outcome)) ≤ counter_end }
        requires counted { AreHeldBelow self.old.nodes }
        requires day { found_ms ≤ max_validity }
        ensures gives { GivesNumbers self.old (outcome_reply found_ms outcome) result self.new }
        ensures sendable { IsSendable result }
        ensures len { sent_len result ≡ outcome_len outcome }
        ensures names { sent_names result ≡ outcome_names outcome }
    {
        self.lemma_sound();
        match outcome {
            Outcome::Entry { file } => Reply::Entry {
                file: self.give(file),
                valid_ms: found_ms,
            },
            Outcome::Created { file } => {
                let entry = self.give(file);
                Reply::Created {
                    file: entry,
                    valid_ms: found_ms,
                    fh: self.open(file),
                }
            }
            Outcome::Opened { file } => Reply::Opened {
                fh: self.open(file),
            },
            Outcome::ListedPlus { records, names } => {
                Reply::ListedPlus(self.list(records, names, found_ms, spare))
            }
            Outcome::Reply { reply } => reply,
        }
    }

    /// Counts a lookup of each file that is listed, and gives the names, this many, with the entries of their files.
    fn list(
        &mut self,
        records: Vec<u8, S::Heap>,
        names: usize,
        found_ms: u64,
        spare: ListingBuffers<S::Heap>,
    ) -> ListedNames<S::Heap>
        requires listable { AreRecordBytes records.items
            × (128 * length (dirents_in_bytes records.items) + length records.items ≤ max_transfer)
            × All (IsListable self.old.tree) (dirents_in_bytes records.items) }
        requires names { names ≡ length (dirents_in_bytes records.items) }
        requires room { length (dirents_in_bytes records.items) ≤ self.old.node_room }
        requires spare { HasSpare spare 0 (length (dirents_in_bytes records.items)) }
        requires generations { generations_after self.old.nodes
            (files_listed (map (pair_listed 0) (dirents_in_bytes records.items))) ≤ counter_end }
        requires counted { AreHeldBelow self.old.nodes }
        requires day { found_ms ≤ max_validity }
        ensures given { GivenEach self.old.nodes (files_listed
            (map (pair_listed 0) (dirents_in_bytes records.items))) self.new.nodes }
        ensures entries { result.entries.items ≡ map (entry_named self.new.tree self.new.nodes)
            (dirents_in_bytes records.items) }
        ensures records { result.records.items ≡ records.items }
        ensures valid { result.found_ms ≡ found_ms }
        ensures tree { self.new.tree ≡ self.old.tree }
        ensures handles { self.new.handles ≡ self.old.handles }
        ensures sound { IsSoundNodeTable self.new.nodes }
    {
        let mut entries = spare.entries;
        let mut file_entries = spare.file_entries;
        let listed = records_of(&records, names);
        self.give_listed(listed, &mut entries, &mut file_entries);
        self.lemma_sound();
        ListedNames {
            records,
            entries,
            file_entries,
            found_ms,
        }
    }

    /// Counts a lookup of the file of each record, and puts the entry of each name last, and among those of files too,
    /// unless the name is `.` or `..`.
    fn give_listed(
        &mut self,
        records: Records<'_>,
        entries: &mut Vec<Entry, S::Heap>,
        file_entries: &mut Vec<Entry, S::Heap>,
    )
        requires listable { All (IsListable self.old.tree) (listed_in records) }
        requires few { length (listed_in records) ≤ 32 }
        requires room { length (listed_in records) ≤ self.old.node_room }
        requires generations { generations_after self.old.nodes
            (files_listed (map (pair_listed 0) (listed_in records))) ≤ counter_end }
        requires counted { AreHeldBelow self.old.nodes }
        requires none { entries.old.items ≡ [] }
        requires no_file_entries { file_entries.old.items ≡ [] }
        requires entry_room { length (listed_in records) ≤ vec_capacity entries.old }
        requires file_room { length (listed_in records) ≤ vec_capacity file_entries.old }
        ensures given { GivenEach self.old.nodes (files_listed
            (map (pair_listed 0) (listed_in records.entry))) self.new.nodes }
        ensures tree { self.new.tree ≡ self.old.tree }
        ensures handles { self.new.handles ≡ self.old.handles }
        ensures entries { entries.new.items ≡ map (entry_named self.new.tree self.new.nodes) (listed_in records.entry) }
        ensures file_entries { file_entries.new.items ≡ files_listed
            (entries_named self.new.tree self.new.nodes (listed_in records.entry)) }
    {
        if self.give_records(records, entries, file_entries) {
            entries.clear();
            file_entries.clear();
            self.put_entries(records, entries, file_entries);
        }
    }

    /// Counts a lookup of the file of each record, one after another, and puts its entry last. Returns whether `.` or `..` is
    /// among the names: then the entries are of no use, as such a name goes with the node that its file has in the end.
    fn give_records(
        &mut self,
        records: Records<'_>,
        entries: &mut Vec<Entry, S::Heap>,
        file_entries: &mut Vec<Entry, S::Heap>,
    ) -> bool
        requires listable { All (IsListable self.old.tree) (listed_in records) }
        requires few { length (listed_in records) ≤ 32 }
        requires room { length (listed_in records) ≤ self.old.node_room }
        requires generations { generations_after self.old.nodes
            (files_listed (map (pair_listed 0) (listed_in records))) ≤ counter_end }
        requires counted { AreHeldBelow self.old.nodes }
        requires none { entries.old.items ≡ [] }
        requires no_file_entries { file_entries.old.items ≡ [] }
        requires entry_room { length (listed_in records) ≤ vec_capacity entries.old }
        requires file_room { length (listed_in records) ≤ vec_capacity file_entries.old }
        ensures given { GivenEach self.old.nodes (files_listed
            (map (pair_listed 0) (listed_in records.entry))) self.new.nodes }
        ensures tree { self.new.tree ≡ self.old.tree }
        ensures handles { self.new.handles ≡ self.old.handles }
        ensures entries { result ≡ false → entries.new.items
            ≡ map (entry_named self.new.tree self.new.nodes) (listed_in records.entry) }
        ensures file_entries { result ≡ false → file_entries.new.items ≡ files_listed
            (entries_named self.new.tree self.new.nodes (listed_in records.entry)) }
        ensures capacity { vec_capacity entries.old ≤ vec_capacity entries.new }
        ensures file_capacity { vec_capacity file_entries.old ≤ vec_capacity file_entries.new }
    {
        let mut has_dots = false;
        'records: for record in records {
            match self.give_named(record.name, record.ino - 1) {
                Some(entry) => {
                    entries.push_reserved(entry);
                    file_entries.push_reserved(entry);
                }
                None => has_dots = true,
            }
        }
        has_dots
    }

    /// Counts a lookup of the file of a name, and gives its entry, unless the name is `.` or `..`.
    fn give_named(&mut self, name: &[u8], file: u64) -> Option<Entry>
        requires file { file < counter_end }
        requires there { IsThere self.old.tree file }
        requires room { 0 < self.old.node_room }
        requires generations { generations_after self.old.nodes
            (first_listed (cond (is_dots name.now) None (Some file)) []) ≤ counter_end }
        requires counted { HaveCountsUpTo (2 ^ 63) self.old.nodes }
        ensures entry { IfSome result (λ entry. (is_dots name.now ≡ false)
            × IsSoundNodeTable self.old.nodes × IsSoundNodeTable self.new.nodes
            × GivesEntry self.old.tree self.old.nodes file self.new.nodes entry) }
        ensures given { GivenEach self.old.nodes (first_listed
            (cond (is_dots name.now) None (Some file)) []) self.new.nodes }
        ensures tree { self.new.tree ≡ self.old.tree }
        ensures handles { self.new.handles ≡ self.old.handles }
        ensures room { self.old.node_room ≤ self.new.node_room + 1 }
        ensures generations { (files : List ℕ) → generations_after self.new.nodes files
            ≡ generations_after self.old.nodes (first_listed (cond (is_dots name.now) None (Some file)) files) }
    {
        self.lemma_sound();
        if is_dots(name) {
            return None;
        }
        let entry = self.give(file);
        self.lemma_sound();
        Some(entry)
    }

    /// Puts the entry of each name last, and among those of files too, unless the name is `.` or `..`.
    fn put_entries(
        &self,
        records: Records<'_>,
        entries: &mut Vec<Entry, S::Heap>,
        file_entries: &mut Vec<Entry, S::Heap>,
    )
        requires listable { All (IsListable self.now.tree) (listed_in records) }
        requires none { entries.old.items ≡ [] }
        requires no_file_entries { file_entries.old.items ≡ [] }
        requires room { length (listed_in records) ≤ vec_capacity entries.old }
        requires file_room { length (listed_in records) ≤ vec_capacity file_entries.old }
        ensures entries { entries.new.items ≡ map (entry_named self.now.tree self.now.nodes) (listed_in records.entry) }
        ensures file_entries { file_entries.new.items ≡ files_listed
            (entries_named self.now.tree self.now.nodes (listed_in records.entry)) }
    {
        'records: for record in records {
            let entry = self.entry_of(record.ino - 1);
            entries.push_reserved(entry);
            put_file_entry(file_entries, record.name, entry);
        }
    }

    /// The entry of a file: by its node, or by the root's where it has none.
    fn entry_of(&self, file: u64) -> Entry
        requires { file < counter_end }
        ensures { result ≡ entry_for (node_in self.now.nodes.rows) self.now.nodes self.now.tree file }
    {
        let nodes = &self.known.nodes;
        let node = nodes.named(nodes.node_of(file));
        Entry {
            nodeid: node.nodeid,
            generation: node.generation,
            attributes: self.tree.getattr(file),
        }
    }

    /// Counts a lookup of a file, and gives its nodeid and generation.
    #[inline(always)]
    fn give_node(&mut self, file: u64) -> (u64, u64)
        requires file { file < counter_end }
        requires there { IsThere self.old.tree file }
        requires room { 0 < self.old.node_room }
        requires generation { IsUnheld self.old.nodes file → self.old.nodes.next_generation < counter_end }
        requires counted { HaveCountsUpTo (2 ^ 63) self.old.nodes }
        ensures id { MayName self.old.nodes file result.0 }
        ensures two { 2 ≤ result.0 }
        ensures generation { result.1 ≡ generation_in (row_of self.new.nodes result.0) }
        ensures nodes { self.new.nodes ≡ given self.old.nodes file result.0 }
        ensures tree { self.new.tree ≡ self.old.tree }
        ensures handles { self.new.handles ≡ self.old.handles }
        ensures node_room { self.old.node_room ≤ self.new.node_room + 1 }
        ensures room { self.new.open_room ≡ self.old.open_room }
    {
        self.known.nodes.give(file)
    }

    /// Counts a lookup of a file, and gives the entry with its node.
    #[inline(always)]
    fn give(&mut self, file: u64) -> Entry
        requires file { file < counter_end }
        requires there { IsThere self.old.tree file }
        requires room { 0 < self.old.node_room }
        requires generation { IsUnheld self.old.nodes file → self.old.nodes.next_generation < counter_end }
        requires counted { HaveCountsUpTo (2 ^ 63) self.old.nodes }
        ensures gives { GivesEntry self.old.tree self.old.nodes file self.new.nodes result }
        ensures node { result.nodeid ≢ 0 }
        ensures tree { self.new.tree ≡ self.old.tree }
        ensures handles { self.new.handles ≡ self.old.handles }
        ensures node_room { self.old.node_room ≤ self.new.node_room + 1 }
        ensures room { self.new.open_room ≡ self.old.open_room }
    {
        let (nodeid, generation) = self.give_node(file);
        let attributes = self.tree.getattr(file);
        Entry {
            nodeid,
            generation,
            attributes,
        }
    }

    /// Gives a file the next file handle.
    fn open(&mut self, file: u64) -> u64
        requires room { 0 < self.old.open_room }
        requires number { self.old.handles.next_fh < counter_end }
        requires regular { IsTrue (is_regular self.old.tree file) }
        ensures fh { result ≡ self.old.handles.next_fh }
        ensures handles { self.new.handles ≡ handle_opened self.old.handles file }
        ensures tree { self.new.tree ≡ self.old.tree }
        ensures nodes { self.new.nodes ≡ self.old.nodes }
    {
        self.known.handles.open(file)
    }
}

/// Puts the entry of a name last, unless the name is `.` or `..`.
fn put_file_entry<A: Allocator>(file_entries: &mut Vec<Entry, A>, name: &[u8], entry: Entry)
    requires { length file_entries.old.items < vec_capacity file_entries.old }
    ensures items { file_entries.new.items ≡ file_entries.old.items ++ first_listed
        (cond (is_dots name.now) None (Some entry)) [] }
    ensures capacity { vec_capacity file_entries.new ≡ vec_capacity file_entries.old }
{
    if !is_dots(name) {
        file_entries.push_reserved(entry);
    }
}
