//! A table from numbers to values, of which the oldest and the newest come and go.

ghost use Rattle.std.specs.Prelude.{ℕ, Bool, ◌≡◌, ◌+◌, ◌<◌, ◌≤◌, ◌*◌, ◌^◌, [], IfOk, IsSome, MatchOption, None, OnErr, OnOk, T, true};
ghost use Rattle.std.specs.Prelude.{if◌then◌else◌, is_some, length};
ghost use Rattle.std.specs.Option.{option_copied};
ghost use Rattle.std.specs.Ordering.{nat_cmp};
ghost use Rattle.std.specs.FinMap.{is_sorted};
ghost use Rattle.fuse_spec.specs.Values.Maps.{get as value_at, put as with_value, remove as without_key};
ghost use Rattle.fuse_tables.specs.KeyTests.{Tells, kept_by};

use crate::late::{Late, put_value, replace_value, retain_values, take_value, value_of};
use crate::listed::list_entries;
use crate::live_rows::{Rows, find_live, is_above, push_empty, squeeze};
use crate::number_key::NumberKey;
use std::alloc::{AllocError, Allocator, Global};
use std::collections::{BTreeMap, VecDeque};
use std::marker::Model;

/// A map from numbers to values, for numbers that mostly rise. Seen as its entries in rising key and its room: how many
/// more it takes and refuses none.
///
/// A key above those of all rows gets a row behind them, and one below them all a row before them, which take no memory.
/// Any other comes late: its value goes into an ordered map beside the rows, which stays empty as long as keys rise, or
/// fall. Where memory has no place for it there, and in a table of few rows, it gets a row, and those on the shorter side of
/// it move.
///
/// A row can be set aside for a key before it has a value, which then does not come late, unless the empty rows went first.
///
/// A value that is taken out between others leaves an empty row, and the empty rows go all at once where no row is left
/// to fill. Room is half of what fits in all, so each such pass frees at least as many rows as it keeps.
///
/// What each call costs for `n` entries, whatever the keys, while memory is there:
///
/// | Call | Time |
/// |---|---|
/// | `get`, `get_mut`, `replace`, `remove` | log `n` steps; one where no key came late and the key is at either end or beyond it, or the rows' keys have no gaps, or rise by two |
/// | `put` | log `n` steps, or one for a key above all, on the whole of many calls: at times one moves all rows |
/// | `is_above` | one step |
/// | `reserve`, `set_aside` | one step, on the whole of many calls: at times one moves all rows |
/// | `retain`, `clear` | `n` steps |
/// | `list` | `n` steps, and log `n` for each entry that came late |
#[derive(Drop)]
pub struct RisingTable<V, A: Allocator = Global> {
    rows: Rows<V, A>,
    late: Late<V, A>,
    count: usize,
}

impl<V, A: Allocator> Model for RisingTable<V, A> {
    ghost use Rattle.std.specs.Prelude.{◌-◌, ◌/◌};
    ghost use Rattle.std.specs.VecDeque.{deque_capacity};
    ghost use Rattle.fuse_tables.specs.LateValues.{entries_of, IsRisingTable};
    ghost use Rattle.fuse_tables.specs.TableState.{TableState, table_code};

    ghost Value = { TableState V };

    ghost coded = { table_code V.code };

    ghost view = { λ t. record {
      entries = entries_of t.rows.items t.late.entries;
      room = deque_capacity t.rows / 2 - t.count;
    } };

    ghost invariant = { λ t. IsRisingTable t.rows.items t.late.entries t.count (deque_capacity t.rows) };
}

/// Twice the sum, if there is such a number.
fn twice_with(count: usize, more: usize) -> Option<usize>
    ensures { MatchOption result (2 ^ 64 ≤ 2 * (count + more)) (λ rows. rows ≡ 2 * (count + more)) }
{
    let all = count.checked_add(more)?;
    all.checked_mul(2)
}

impl<V: Copy, A: Allocator + Copy> RisingTable<V, A> {
    /// The entries in rising key.
    ///
    /// # Errors
    ///
    /// Out of memory for the list.
    pub fn list(&self, alloc: A) -> Result<Vec<(u64, V), A>, AllocError>
        ensures { IfOk result (λ list. list.items ≡ self.now.entries) }
    {
        let _ = &self.count;
        list_entries(alloc, &self.rows, &self.late)
    }
}

impl<V: Drop, A: Allocator + Copy> RisingTable<V, A> {
    ghost use Rattle.std.specs.Borrow.{sem};
    ghost use Rattle.std.specs.Option.{option_copied_mut};
    ghost use Rattle.fuse_tables.specs.Lends.{lends_entry};

    pub fn new(alloc: A) -> Self
        ensures { result.entries ≡ [] }
    {
        RisingTable {
            rows: VecDeque::new(alloc),
            late: BTreeMap::new(alloc),
            count: 0,
        }
    }

    /// How many entries there are.
    pub fn len(&self) -> usize
        ensures { result ≡ length self.now.entries }
    {
        self.count
    }

    /// The value at a key.
    #[inline(always)]
    pub fn get(&self, key: u64) -> Option<&V>
        ensures { option_copied result ≡ value_at self.now.entries key }
    {
        value_of(&self.rows, &self.late, key)
    }

    /// Whether a key is surely above all others: then it has no value. The last row alone says it, and only where no key
    /// came late.
    #[inline(always)]
    pub fn is_above(&self, key: u64) -> bool
        ensures { result ≡ true → value_at self.now.entries key ≡ None }
    {
        self.late.is_empty() && is_above(&self.rows, key)
    }

    /// The value at a key, to change it in place.
    #[inline(always)]
    pub fn get_mut(&mut self, key: u64) -> Option<&mut V>
        ensures* writes_back { sem 𝓛 (lends_entry V.row A.row A.Allocator self.entry key result) }
        ensures value { option_copied_mut result ≡ value_at self.old.entries key }
        ensures sorted { T (is_sorted nat_cmp self.old.entries) }
    {
        let Some(place) = find_live(&self.rows, key) else {
            return self.late.get_mut(&NumberKey(key));
        };
        let row = &mut self.rows[place];
        let value = row.1.as_mut()?;
        Some(value)
    }

    /// Keys rise, and memory holds fewer than 2^63 entries. A call without effect, made where a proof rests on that.
    pub fn lemma_sound(&self)
        ensures sorted { T (is_sorted nat_cmp self.now.entries) }
        ensures few { length self.now.entries < 2 ^ 63 }
    {
        let _len = self.rows.len();
    }

    /// Makes room for this many more entries. No memory is set aside for one that comes late: it takes some, or moves
    /// rows.
    ///
    /// # Errors
    ///
    /// Out of memory. The entries are as before.
    pub fn reserve(&mut self, more: usize) -> Result<(), AllocError>
        ensures entries { self.new.entries ≡ self.old.entries }
        ensures room { OnOk result (more ≤ self.new.room) }
        ensures kept { self.old.room ≤ self.new.room }
        ensures refused { OnErr result (self.old.room < more) }
    {
        if more <= self.rows.capacity() / 2 - self.count {
            return Ok(());
        }
        self.grow(more)
    }

    /// Makes room for this many more entries, for which rows lack.
    #[cold]
    fn grow(&mut self, more: usize) -> Result<(), AllocError>
        requires { self.old.room < more }
        ensures entries { self.new.entries ≡ self.old.entries }
        ensures room { OnOk result (more ≤ self.new.room) }
        ensures kept { self.old.room ≤ self.new.room }
    {
        let Some(rows) = twice_with(self.count, more) else {
            return Err(AllocError);
        };
        // Half more than is asked for, or twice what there was.
        let grown = rows.saturating_add(rows / 2);
        self.rows.reserve(grown.saturating_sub(self.rows.len()))
    }

    /// Sets an empty row aside for a key above those of all rows, where there is room for it: a value that is put there later,
    /// behind greater keys, stands in it. `waiting` keys or fewer have such a row and no value. Takes no memory, so that room
    /// for as many is made before.
    #[inline(always)]
    pub fn set_aside(&mut self, key: u64, waiting: usize)
        ensures entries { self.new.entries ≡ self.old.entries }
        ensures room { self.old.room ≤ self.new.room }
    {
        if self.rows.len() == self.rows.capacity() {
            self.free_rows(waiting);
        }
        if self.rows.len() < self.rows.capacity() && is_above(&self.rows, key) {
            push_empty(&mut self.rows, key);
        }
    }

    /// Lets the empty rows go where most are of no use.
    #[cold]
    fn free_rows(&mut self, waiting: usize)
        ensures entries { self.new.entries ≡ self.old.entries }
        ensures room { self.old.room ≤ self.new.room }
    {
        if self.rows.len() / 2 > self.count.saturating_add(waiting) {
            squeeze(&mut self.rows);
        }
    }

    /// Puts a value at a key that has none, into room that was made.
    #[inline(always)]
    pub fn put(&mut self, key: u64, value: V)
        requires room { 0 < self.old.room }
        requires absent { value_at self.old.entries key ≡ None }
        ensures entries { self.new.entries ≡ with_value self.old.entries key value }
        ensures room { self.old.room ≤ self.new.room + 1 }
    {
        put_value(&mut self.rows, &mut self.late, key, value);
        self.count += 1;
    }

    /// Puts another value at a key that has one, and gives the one before. Where the key has none nothing changes.
    pub fn replace(&mut self, key: u64, value: V) -> Option<V>
        ensures value { result ≡ value_at self.old.entries key }
        ensures entries { IsSome result → self.new.entries ≡ with_value self.old.entries key value }
        ensures absent { result ≡ None → self.new.entries ≡ self.old.entries }
        ensures sorted { T (is_sorted nat_cmp self.old.entries) }
        ensures room { self.new.room ≡ self.old.room }
    {
        replace_value(&mut self.rows, &mut self.late, key, value)
    }

    /// Takes out the value at a key. Its room stays.
    #[inline(always)]
    pub fn remove(&mut self, key: u64) -> Option<V>
        ensures value { result ≡ value_at self.old.entries key }
        ensures entries { self.new.entries ≡ without_key self.old.entries key }
        ensures sorted { T (is_sorted nat_cmp self.old.entries) }
        ensures room { (if is_some result then self.old.room + 1 else self.old.room) ≤ self.new.room }
    {
        let Some(value) = take_value(&mut self.rows, &mut self.late, key) else {
            return None;
        };
        self.count -= 1;
        Some(value)
    }

    /// Keeps the entries at the keys that pass a test, which says the same of a key whenever it is asked. No room is
    /// lost.
    pub fn retain<F: Fn(u64) -> bool>(&mut self, keep: F)
        requires callable { F.IsAlwaysCallable keep }
        requires steady { (test : ℕ → Bool) × Tells test (F.post keep) }
        ensures entries { (test : ℕ → Bool) → Tells test (F.post keep)
            → self.new.entries ≡ kept_by test self.old.entries }
        ensures room { self.old.room ≤ self.new.room }
    {
        self.count = retain_values(&mut self.rows, &mut self.late, keep);
    }

    /// Takes out all entries. Their room stays.
    pub fn clear(&mut self)
        ensures entries { self.new.entries ≡ [] }
        ensures room { self.old.room ≤ self.new.room }
    {
        self.rows.clear();
        if !self.late.is_empty() {
            self.late.clear();
        }
        self.count = 0;
    }
}
