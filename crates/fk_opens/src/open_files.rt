//! Open files by number.

ghost use Rattle.std.specs.Prelude.{◌≡◌, ◌+◌, ◌<◌, ◌≤◌, [], None, OnOk, length, nat_eq};
ghost use Rattle.std.specs.List.{list_any};
ghost use Rattle.std.specs.Option.{option_copied};
ghost use Rattle.fuse_spec.specs.declared.Opened.{Opened as OpenedFile};
ghost use Rattle.fuse_spec.specs.Values.Maps.{get, put, remove, values};

use fuse_spec::Opened;
use fuse_tables::{RisingTable, Tally};
use std::alloc::{AllocError, Allocator, Global};
use std::marker::Model;

/// The open files, by the numbers of the calls that opened them: seen as its entries in rising number and its room, how
/// many more it takes with no memory. Whether a node has one is a single look-up.
#[derive(Drop)]
pub struct OpenFiles<A: Allocator = Global> {
    files: RisingTable<Opened, A>,
    uses: Tally<A>,
}

impl<A: Allocator> Model for OpenFiles<A> {
    ghost use Rattle.std.specs.Prelude.{min};
    ghost use Rattle.std.specs.Coded.{codes};
    ghost use Rattle.fuse_spec.specs.declared.Opened.{Opened as OpenedFile};
    ghost use Rattle.fuse_tables.specs.TableState.{TableState};
    ghost use Rattle.fk_opens.specs.Pins.{HavePins};
    ghost use Rattle.fk_opens.specs.Uses.{uses_of};

    ghost Value = { TableState OpenedFile };

    ghost coded = { Prim.hlevel (codes) };

    ghost view = { λ t. record { entries = t.files.entries; room = min t.files.room t.uses.room } };

    ghost invariant = { λ t. HavePins t.uses.counts (uses_of t.files.entries) };
}

impl<A: Allocator + Copy> OpenFiles<A> {
    pub fn new(alloc: A) -> Self
        ensures { result.entries ≡ [] }
    {
        OpenFiles {
            files: RisingTable::new(alloc),
            uses: Tally::new(alloc),
        }
    }

    /// How many files are open.
    pub fn len(&self) -> usize
        ensures { result ≡ length self.now.entries }
    {
        self.files.len()
    }

    /// The open file of a number.
    pub fn get(&self, number: u64) -> Option<&Opened>
        ensures { option_copied result ≡ get self.now.entries number }
    {
        self.files.get(number)
    }

    /// Whether an open file is of a node.
    pub fn is_open(&self, node: u64) -> bool
        ensures { result ≡ list_any (λ (opened : OpenedFile). nat_eq opened.nodeid node) (values self.now.entries) }
    {
        self.uses.has(node)
    }

    /// Makes room for this many more.
    ///
    /// # Errors
    ///
    /// Out of memory. The open files are as before.
    pub fn reserve(&mut self, more: usize) -> Result<(), AllocError>
        ensures entries { self.new.entries ≡ self.old.entries }
        ensures room { OnOk result (more ≤ self.new.room) }
        ensures kept { self.old.room ≤ self.new.room }
    {
        self.files.reserve(more)?;
        self.uses.reserve(more)
    }

    /// A file is open under a number that has none. There is room.
    pub fn put(&mut self, number: u64, opened: Opened)
        requires room { 0 < self.old.room }
        requires absent { get self.old.entries number ≡ None }
        ensures entries { self.new.entries ≡ put self.old.entries number opened }
        ensures room { self.old.room ≤ self.new.room + 1 }
    {
        self.files.lemma_sound();
        self.uses.add(opened.nodeid);
        self.files.put(number, opened);
    }

    /// The file of a number is open no longer.
    pub fn remove(&mut self, number: u64) -> Option<Opened>
        ensures value { result ≡ get self.old.entries number }
        ensures entries { self.new.entries ≡ remove self.old.entries number }
        ensures room { self.old.room ≤ self.new.room }
    {
        let opened = self.files.remove(number)?;
        self.uses.take(opened.nodeid);
        Some(opened)
    }

    /// No file is open any longer.
    pub fn clear(&mut self)
        ensures entries { self.new.entries ≡ [] }
        ensures room { self.old.room ≤ self.new.room }
    {
        self.files.clear();
        self.uses.clear();
    }
}
