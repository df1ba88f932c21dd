//! Counts by key.

ghost use Rattle.std.specs.Prelude.{◌≡◌, ◌+◌, ◌-◌, ◌<◌, ◌≤◌, ◌^◌, ℕ, OnOk};
ghost use Rattle.fuse_judge.specs.Tallies.{count_in, one_if};

use crate::tally_list::{times, unlist};
use crate::tally_rows::{Rows, lower, raise, row_of};
use std::alloc::{AllocError, Allocator, Global};
use std::collections::BTreeMap;
use std::marker::Model;

/// How many keys are listed before one gets a row.
const FEW: usize = 16;

/// How many each key has.
///
/// A few keys stand in a list, each as often as it is counted there, and the others have rows in an ordered map. Where
/// memory refuses a row, its key is listed too, in room that was made before: so nothing but making room can fail. Room
/// is made only where the list has few keys again.
///
/// What each call costs for `n` keys, whatever they are, while memory is there:
///
/// | Call | Time |
/// |---|---|
/// | `count`, `add`, `take` | log `n` steps |
/// | `reserve` | one step, on the whole of many calls |
#[derive(Drop)]
pub struct Tally<K: Ord, A: Allocator = Global> {
    listed: Vec<K, A>,
    rows: Rows<K, A>,
}

impl<K: Ord, A: Allocator> Model for Tally<K, A> {
    ghost use Rattle.std.specs.Prelude.{◌-◌, vec_len, vec_capacity};
    ghost use Rattle.fuse_judge.specs.Tallies.{TallyState, AreSmall, tally_code};

    ghost Value = { TallyState K };

    ghost coded = { tally_code K.code };

    ghost view = { λ t. record {
      counts = record { listed = t.listed.items; rows = t.rows.entries };
      room = vec_capacity t.listed - vec_len t.listed;
    } };

    ghost invariant = { λ t. AreSmall K.eq record { listed = t.listed.items; rows = t.rows.entries } };
}

impl<K: Copy + Ord + Drop, A: Allocator + Copy> Tally<K, A> {
    /// No key has any.
    pub fn new(alloc: A) -> Self
        ensures { (q : K) → count_in K.eq result.counts q ≡ 0 }
    {
        Tally {
            listed: Vec::new(alloc),
            rows: BTreeMap::new(alloc),
        }
    }

    /// How many a key has.
    pub fn count(&self, key: K) -> u64
        ensures { result ≡ count_in K.eq self.now.counts key }
    {
        times(&self.listed, key) + row_of(&self.rows, key)
    }

    /// Makes room for this many more keys.
    ///
    /// # Errors
    ///
    /// Out of memory. The counts are as before.
    pub fn reserve(&mut self, more: usize) -> Result<(), AllocError>
        ensures counts { (q : K) → count_in K.eq self.new.counts q ≡ count_in K.eq self.old.counts q }
        ensures room { OnOk result (more ≤ self.new.room) }
    {
        for _ in 0..self.listed.len().saturating_sub(FEW) {
            self.settle()?;
        }
        self.listed.reserve(more)
    }

    /// Gives a row to the key that is listed last.
    fn settle(&mut self) -> Result<(), AllocError>
        ensures { (q : K) → count_in K.eq self.new.counts q ≡ count_in K.eq self.old.counts q }
    {
        let Some(key) = self.listed.pop() else {
            return Ok(());
        };
        if raise(&mut self.rows, key) {
            return Ok(());
        }
        self.listed.push_reserved(key);
        Err(AllocError)
    }

    /// A key has one more.
    pub fn add(&mut self, key: K)
        requires room { 0 < self.old.room }
        requires few { count_in K.eq self.old.counts key + 1 < 2 ^ 64 }
        ensures counts { (q : K) → count_in K.eq self.new.counts q
            ≡ count_in K.eq self.old.counts q + one_if (K.eq key q) }
        ensures room { self.old.room ≤ self.new.room + 1 }
    {
        if self.listed.len() < FEW || !raise(&mut self.rows, key) {
            self.listed.push_reserved(key);
        }
    }

    /// A key has one fewer, if it has one.
    pub fn take(&mut self, key: K)
        ensures counts { (q : K) → count_in K.eq self.new.counts q
            ≡ count_in K.eq self.old.counts q - one_if (K.eq key q) }
        ensures room { self.old.room ≤ self.new.room }
    {
        if !unlist(&mut self.listed, key) {
            lower(&mut self.rows, key);
        }
    }
}
