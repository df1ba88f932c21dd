//! File handles (`fh`), each with its file and its count.
ghost use Rattle.std.specs.Prelude.{◌≡◌, ℕ, ◌+◌, ◌^◌, ◌<◌, ◌≤◌, if◌then◌else◌, [], None, nat_eq, Some, IsOk, OnOk, option_map};
ghost use Rattle.std.specs.List.{list_any};
ghost use Rattle.std.specs.Option.{ForSome};
ghost use Rattle.indexmap.specs.IndexMap as map;
ghost use Rattle.indexmap.specs.IndexMap.{spare};
ghost use Rattle.fuse_spec.specs.Values.Maps.{get, values};
ghost use Rattle.fuse_spec.specs.Server.Nodes.{FileHandle, handle_opened, handle_more, handle_back};
ghost use Rattle.fuse_spec.specs.Values.Numbers.{counter_end};

use crate::open_file::OpenFile;
use fuse_spec::limits::COUNTER_END;
use fuse_tables::Tally;
use indexmap::IndexMap;
use std::alloc::{AllocError, Allocator, Global};
use std::hash::{BuildHasherDefault, FoldHasher};
use std::marker::Model;

type Builder = BuildHasherDefault<FoldHasher>;

/// The file handles in use, each of a file and with its count. They rise from 1, and none is given twice, also not
/// after `clear`.
///
/// Contracts see it as the table of the definitions and its room: how many more files can be opened with no memory.
/// Only `reserve` takes memory. Under a number that is not in use a look answers `None` or `false`, and any other call
/// changes nothing (this project's rule).
#[derive(Drop)]
pub struct HandleTable<A: Allocator = Global> {
    opens: IndexMap<u64, OpenFile, Builder, A>,
    /// How many file handles each open file has.
    uses: Tally<A>,
    next: u64,
}

impl<A: Allocator> Model for HandleTable<A> {
    ghost use Rattle.std.specs.Prelude.{min};
    ghost use Rattle.std.specs.Coded.{codes};
    ghost use Rattle.indexmap.specs.IndexMap.{spare};
    ghost use Rattle.fs_handles.specs.OpenNumbers.{TableWithRoom, table_of};
    ghost use Rattle.fs_handles.specs.Uses.{AreUsesCounted};

    ghost Value = { TableWithRoom };

    ghost coded = { Prim.hlevel (codes) };

    ghost view = { λ t. record { table = table_of t.opens.entries t.next; room = min (spare t.opens) t.uses.room } };

    ghost invariant = { λ t. AreUsesCounted t.opens.entries t.uses.counts t.next };
}

impl<A: Allocator + Copy> HandleTable<A> {
    /// A table with no file handle. The first is 1.
    pub fn new(alloc: A) -> Self
        ensures { result.table ≡ record { handles = []; next_fh = 1 } }
    {
        HandleTable {
            opens: IndexMap::new(alloc),
            uses: Tally::new(alloc),
            next: 1,
        }
    }

    /// Makes room for one `open`. Room that is not used stays.
    ///
    /// # Errors
    ///
    /// Out of memory: that room was not there. The table is as before, and no room went.
    pub fn reserve(&mut self) -> Result<(), AllocError>
        ensures table { self.new.table ≡ self.old.table }
        ensures room { OnOk result (0 < self.new.room) }
        ensures kept { self.old.room ≤ self.new.room }
        ensures succeeds { 0 < self.old.room → IsOk result }
    {
        self.opens.reserve(1)?;
        self.uses.reserve(1)
    }

    /// How many file handles are left to give.
    pub fn numbers_left(&self) -> u64
        ensures { result + self.now.table.next_fh ≡ counter_end }
    {
        COUNTER_END - self.next
    }

    /// Gives a file handle to a file, with a count of 1: one copy of the reply to OPEN or CREATE carries it.
    pub fn open(&mut self, file: u64) -> u64
        requires room { 0 < self.old.room }
        requires numbers { self.old.table.next_fh < counter_end }
        ensures fh { result ≡ self.old.table.next_fh }
        ensures unused { get self.old.table.handles result ≡ None }
        ensures table { self.new.table ≡ handle_opened self.old.table file }
        ensures room { self.old.room ≤ self.new.room + 1 }
    {
        let fh = self.next;
        put(&mut self.opens, fh, OpenFile { file, count: 1 });
        self.uses.add(file);
        self.next = fh + 1;
        fh
    }

    /// Counts one more copy that carries the file handle.
    pub fn again(&mut self, fh: u64)
        requires { ForSome (get self.old.table.handles fh) (λ (handle : FileHandle). handle.count + 1 < 2 ^ 64) }
        ensures table { self.new.table ≡ handle_more self.old.table fh }
        ensures room { self.old.room ≤ self.new.room }
    {
        let Some(open_file) = self.opens.get_mut(&fh) else {
            return;
        };
        open_file.count += 1;
    }

    /// Whether the file has a file handle.
    pub fn has(&self, file: u64) -> bool
        ensures { result ≡ list_any (λ (handle : FileHandle). nat_eq handle.file file) (values self.now.table.handles) }
    {
        self.uses.has(file)
    }

    /// Takes one from the count of a file handle. With none left it goes.
    pub fn take_back(&mut self, fh: u64)
        ensures table { self.new.table ≡ handle_back self.old.table fh }
        ensures room { self.old.room ≤ self.new.room }
    {
        let Some(open_file) = self.opens.get_mut(&fh) else {
            return;
        };
        if open_file.count > 1 {
            open_file.count -= 1;
            return;
        }
        let file = open_file.file;
        let _last = self.opens.swap_remove(&fh);
        self.uses.take(file);
    }

    /// The file of a file handle.
    pub fn file_of(&self, fh: u64) -> Option<u64>
        ensures { result ≡ option_map (λ handle. handle.file) (get self.now.table.handles fh) }
    {
        self.opens.get(&fh).map(|open_file| open_file.file)
    }

    /// Takes all file handles out of use. Their numbers go on, and the room stays.
    pub fn clear(&mut self)
        ensures table { self.new.table ≡ record self.old.table { handles = [] } }
        ensures room { self.old.room ≤ self.new.room }
    {
        self.opens.clear();
        self.uses.clear();
    }
}

/// Puts a value under a key, with room.
fn put<V: Drop, A: Allocator + Copy>(entries: &mut IndexMap<u64, V, Builder, A>, key: u64, value: V)
    requires { 0 < spare entries.old }
    ensures entries { entries.new.entries ≡ map.insert_entry nat_eq entries.old.entries key value }
    ensures at { (q : ℕ) → map.get nat_eq entries.new q
        ≡ (if nat_eq key q then Some value else map.get nat_eq entries.old q) }
    ensures unique { map.IsUnique nat_eq entries.new }
    ensures room { spare entries.old ≤ spare entries.new + 1 }
{
    let _old = entries.insert(key, value).unwrap();
}
