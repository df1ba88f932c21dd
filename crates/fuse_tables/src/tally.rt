//! How often each key is counted.

ghost use Rattle.std.specs.Prelude.{◌≡◌, ℕ, ◌+◌, ◌<◌, ◌≤◌, ◌^◌, [], if◌then◌else◌, nat_eq, Some, unwrap_or, is_some, IsOk, OnOk};
ghost use Rattle.std.specs.Map.{lookup};
ghost use Rattle.fuse_tables.specs.Tallies.{one_less};

use crate::rising::RisingTable;
use std::alloc::{AllocError, Allocator, Global};
use std::marker::Model;

/// How often each key is counted: the open files of a node, say. Seen as the counts by key, in rising key, and its room: how
/// many more keys it takes with no memory. To ask, to add and to take one take log `n` steps for `n` keys.
#[derive(Drop)]
pub struct Tally<A: Allocator = Global> {
    /// The count of each key that has one, never 0.
    counts: RisingTable<u64, A>,
}

impl<A: Allocator> Model for Tally<A> {
    ghost use Rattle.std.specs.Coded.{codes};
    ghost use Rattle.fuse_tables.specs.Tallies.{TallyState};

    ghost Value = { TallyState };

    ghost coded = { Prim.hlevel (codes) };

    ghost view = { λ t. record { counts = t.counts.entries; room = t.counts.room } };
}

impl<A: Allocator + Copy> Tally<A> {
    /// No key is counted.
    pub fn new(alloc: A) -> Self
        ensures { result.counts ≡ [] }
    {
        Tally {
            counts: RisingTable::new(alloc),
        }
    }

    /// Whether a key is counted.
    pub fn has(&self, key: u64) -> bool
        ensures { result ≡ is_some (lookup (nat_eq key) self.now.counts) }
    {
        self.counts.get(key).is_some()
    }

    /// Makes room for this many more counts.
    ///
    /// # Errors
    ///
    /// Out of memory. The counts are as before.
    pub fn reserve(&mut self, more: usize) -> Result<(), AllocError>
        ensures counts { self.new.counts ≡ self.old.counts }
        ensures room { OnOk result (more ≤ self.new.room) }
        ensures kept { self.old.room ≤ self.new.room }
        ensures succeeds { more ≤ self.old.room → IsOk result }
    {
        self.counts.reserve(more)
    }

    /// A key is counted once more. There is room.
    pub fn add(&mut self, key: u64)
        requires room { 0 < self.old.room }
        requires small { unwrap_or (lookup (nat_eq key) self.old.counts) 0 + 1 < 2 ^ 64 }
        ensures more { (other : ℕ) → lookup (nat_eq other) self.new.counts
            ≡ (if nat_eq key other then Some (unwrap_or (lookup (nat_eq key) self.old.counts) 0 + 1)
            else lookup (nat_eq other) self.old.counts) }
        ensures room { self.old.room ≤ self.new.room + 1 }
    {
        match self.counts.get_mut(key) {
            Some(count) => *count += 1,
            None => self.counts.put(key, 1),
        }
    }

    /// A key is counted once less, if it is.
    pub fn take(&mut self, key: u64)
        ensures less { (other : ℕ) → lookup (nat_eq other) self.new.counts
            ≡ (if nat_eq key other then one_less (lookup (nat_eq key) self.old.counts)
            else lookup (nat_eq other) self.old.counts) }
        ensures room { self.old.room ≤ self.new.room }
    {
        match self.counts.get_mut(key) {
            None => {}
            Some(count) if *count > 1 => *count -= 1,
            Some(_) => {
                let _last = self.counts.remove(key);
            }
        }
    }

    /// No key is counted any longer.
    pub fn clear(&mut self)
        ensures counts { self.new.counts ≡ [] }
        ensures room { self.old.room ≤ self.new.room }
    {
        self.counts.clear();
    }
}
