//! Rows in rising key, and beside them the values whose keys came late.

ghost use Rattle.std.specs.Prelude.{◌≡◌, ℕ, Bool, ◌<◌, ◌≤◌, IsSome, None, if◌then◌else◌, length};
ghost use Rattle.std.specs.Option.{option_copied};
ghost use Rattle.std.specs.VecDeque.{deque_capacity, deque_len};
ghost use Rattle.fuse_spec.specs.Values.Maps.{get as value_at, put as with_value, remove as without_key};
ghost use Rattle.fuse_tables.specs.LateValues.{AreKept, entries_of};
ghost use Rattle.fuse_tables.specs.KeyTests.{Tells, kept_by};

use crate::live_rows::{
    Rows, fill_row, free_row, is_above, is_below, push_last, put_row, replace_row, take_row,
    value_in,
};
use crate::number_key::NumberKey;
use crate::rows_by_key::find_row;
use std::alloc::Allocator;
use std::collections::BTreeMap;
use std::mem::replace;

/// The values whose keys stood between those of rows when they were put: none, as long as keys rise. The map is
/// ordered, and not of hashes, so that no choice of keys makes a look-up longer.
pub(crate) type Late<V, A> = BTreeMap<NumberKey, V, A>;

/// A table that holds no more rows than this has no map: a value that is put between others moves at most half of them.
const FEW: usize = 32;

/// The value at a key where some came late.
#[inline(never)]
fn value_beside<'a, V, A: Allocator>(
    rows: &'a Rows<V, A>,
    late: &'a Late<V, A>,
    key: u64,
) -> Option<&'a V>
    requires { AreKept rows.now.items late.now.entries }
    ensures { option_copied result ≡ value_at (entries_of rows.now.items late.now.entries) key }
{
    if let Some(value) = late.get(&NumberKey(key)) {
        return Some(value);
    }
    value_in(rows, key)
}

/// Takes out the value at a key where some came late.
#[inline(never)]
fn take_beside<V: Drop, A: Allocator>(
    rows: &mut Rows<V, A>,
    late: &mut Late<V, A>,
    key: u64,
) -> Option<V>
    requires { AreKept rows.old.items late.old.entries }
    ensures value { result ≡ value_at (entries_of rows.old.items late.old.entries) key }
    ensures entries { entries_of rows.new.items late.new.entries
        ≡ without_key (entries_of rows.old.items late.old.entries) key }
    ensures kept { AreKept rows.new.items late.new.entries }
    ensures capacity { deque_capacity rows.new ≡ deque_capacity rows.old }
{
    if let Some(value) = late.remove(&NumberKey(key)) {
        return Some(value);
    }
    take_row(rows, key)
}

/// Puts a value at a key that has no row: behind them all, before them all or among few, or else into the map. Where that is out
/// of memory too, the rows on the shorter side of the key move. There is room for a row.
#[inline(always)]
fn put_between<V: Drop, A: Allocator + Copy>(
    rows: &mut Rows<V, A>,
    late: &mut Late<V, A>,
    key: u64,
    value: V,
)
    requires kept { AreKept rows.old.items late.old.entries }
    requires room { deque_len rows.old < deque_capacity rows.old }
    requires absent { value_at (entries_of rows.old.items late.old.entries) key ≡ None }
    ensures entries { entries_of rows.new.items late.new.entries
        ≡ with_value (entries_of rows.old.items late.old.entries) key value }
    ensures kept { AreKept rows.new.items late.new.entries }
    ensures capacity { deque_capacity rows.old ≤ deque_capacity rows.new }
{
    if rows.capacity() <= FEW || is_above(rows, key) || is_below(rows, key) {
        return put_row(rows, key, value);
    }
    match late.insert(NumberKey(key), value) {
        Ok(_) => {}
        Err(back) => put_row(rows, key, back.value.1),
    }
}

/// Puts a value at a key that has none: into its row, if one was set aside or left empty, or else between others, once the empty
/// rows went where no other has room.
#[inline(never)]
fn put_late<V: Drop, A: Allocator + Copy>(
    rows: &mut Rows<V, A>,
    late: &mut Late<V, A>,
    key: u64,
    value: V,
)
    requires kept { AreKept rows.old.items late.old.entries }
    requires few { length (entries_of rows.old.items late.old.entries) < deque_capacity rows.old }
    requires absent { value_at (entries_of rows.old.items late.old.entries) key ≡ None }
    ensures entries { entries_of rows.new.items late.new.entries
        ≡ with_value (entries_of rows.old.items late.old.entries) key value }
    ensures kept { AreKept rows.new.items late.new.entries }
    ensures capacity { deque_capacity rows.old ≤ deque_capacity rows.new }
{
    if let Some(place) = find_row(rows, key) {
        return fill_row(rows, place, key, value);
    }
    free_row(rows);
    put_between(rows, late, key, value);
}

/// The value at a key.
#[inline(always)]
pub(crate) fn value_of<'a, V, A: Allocator>(
    rows: &'a Rows<V, A>,
    late: &'a Late<V, A>,
    key: u64,
) -> Option<&'a V>
    requires { AreKept rows.now.items late.now.entries }
    ensures { option_copied result ≡ value_at (entries_of rows.now.items late.now.entries) key }
{
    if late.is_empty() {
        return value_in(rows, key);
    }
    value_beside(rows, late, key)
}

/// Puts a value at a key that has none. There is room for a row once the empty ones go.
#[inline(always)]
pub(crate) fn put_value<V: Drop, A: Allocator + Copy>(
    rows: &mut Rows<V, A>,
    late: &mut Late<V, A>,
    key: u64,
    value: V,
)
    requires kept { AreKept rows.old.items late.old.entries }
    requires few { length (entries_of rows.old.items late.old.entries) < deque_capacity rows.old }
    requires absent { value_at (entries_of rows.old.items late.old.entries) key ≡ None }
    ensures entries { entries_of rows.new.items late.new.entries
        ≡ with_value (entries_of rows.old.items late.old.entries) key value }
    ensures kept { AreKept rows.new.items late.new.entries }
    ensures capacity { deque_capacity rows.old ≤ deque_capacity rows.new }
{
    if is_above(rows, key) {
        free_row(rows);
        return push_last(rows, key, value);
    }
    put_late(rows, late, key, value);
}

/// Takes out the value at a key.
#[inline(always)]
pub(crate) fn take_value<V: Drop, A: Allocator>(
    rows: &mut Rows<V, A>,
    late: &mut Late<V, A>,
    key: u64,
) -> Option<V>
    requires { AreKept rows.old.items late.old.entries }
    ensures value { result ≡ value_at (entries_of rows.old.items late.old.entries) key }
    ensures entries { entries_of rows.new.items late.new.entries
        ≡ without_key (entries_of rows.old.items late.old.entries) key }
    ensures kept { AreKept rows.new.items late.new.entries }
    ensures capacity { deque_capacity rows.new ≡ deque_capacity rows.old }
{
    if late.is_empty() {
        return take_row(rows, key);
    }
    take_beside(rows, late, key)
}

/// Puts another value at a key that has one where some came late, and gives the one before.
#[inline(never)]
fn replace_beside<V: Drop, A: Allocator>(
    rows: &mut Rows<V, A>,
    late: &mut Late<V, A>,
    key: u64,
    value: V,
) -> Option<V>
    requires { AreKept rows.old.items late.old.entries }
    ensures value { result ≡ value_at (entries_of rows.old.items late.old.entries) key }
    ensures entries { IsSome result → entries_of rows.new.items late.new.entries
        ≡ with_value (entries_of rows.old.items late.old.entries) key value }
    ensures absent { result ≡ None → entries_of rows.new.items late.new.entries
        ≡ entries_of rows.old.items late.old.entries }
    ensures kept { AreKept rows.new.items late.new.entries }
    ensures capacity { deque_capacity rows.new ≡ deque_capacity rows.old }
{
    if let Some(there) = late.get_mut(&NumberKey(key)) {
        return Some(replace(there, value));
    }
    replace_row(rows, key, value)
}

/// Puts another value at a key that has one, and gives the one before. Where the key has none nothing changes.
#[inline(always)]
pub(crate) fn replace_value<V: Drop, A: Allocator>(
    rows: &mut Rows<V, A>,
    late: &mut Late<V, A>,
    key: u64,
    value: V,
) -> Option<V>
    requires { AreKept rows.old.items late.old.entries }
    ensures value { result ≡ value_at (entries_of rows.old.items late.old.entries) key }
    ensures entries { IsSome result → entries_of rows.new.items late.new.entries
        ≡ with_value (entries_of rows.old.items late.old.entries) key value }
    ensures absent { result ≡ None → entries_of rows.new.items late.new.entries
        ≡ entries_of rows.old.items late.old.entries }
    ensures kept { AreKept rows.new.items late.new.entries }
    ensures capacity { deque_capacity rows.new ≡ deque_capacity rows.old }
{
    if late.is_empty() {
        return replace_row(rows, key, value);
    }
    replace_beside(rows, late, key, value)
}

/// Keeps the values at the keys that pass a test, and lets the empty rows go. Returns how many there are.
pub(crate) fn retain_values<V: Drop, A: Allocator, F: Fn(u64) -> bool>(
    rows: &mut Rows<V, A>,
    late: &mut Late<V, A>,
    keep: F,
) -> usize
    requires kept { AreKept rows.old.items late.old.entries }
    requires callable { F.IsAlwaysCallable keep }
    requires steady { (test : ℕ → Bool) × Tells test (F.post keep) }
    ensures entries { (test : ℕ → Bool) → Tells test (F.post keep)
        → entries_of rows.new.items late.new.entries ≡ kept_by test (entries_of rows.old.items late.old.entries) }
    ensures kept { AreKept rows.new.items late.new.entries }
    ensures counted { result ≡ length (entries_of rows.new.items late.new.entries) }
    ensures fewer { result ≤ length (entries_of rows.old.items late.old.entries) }
    ensures capacity { deque_capacity rows.new ≡ deque_capacity rows.old }
{
    rows.retain(|row| row.1.is_some() && keep(row.0));
    if late.is_empty() {
        return rows.len();
    }
    late.retain(|key, _| keep(key.0));
    rows.len() + late.len()
}
