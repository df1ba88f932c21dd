//! Rows in rising key, of which some are empty.

ghost use Rattle.std.specs.Prelude.{◌≡◌, ◌+◌, ◌-◌, ◌<◌, ◌≤◌, ◌↔◌, ℕ, IsSome, MatchOption, None, Option, Some, T, is_some, length, slice_get, true};
ghost use Rattle.std.specs.Option.{option_copied};
ghost use Rattle.std.specs.Ordering.{nat_cmp};
ghost use Rattle.std.specs.FinMap.{is_sorted};
ghost use Rattle.std.specs.List.{insert as inserted};
ghost use Rattle.std.specs.VecDeque.{deque_len, deque_capacity};
ghost use Rattle.fuse_spec.specs.Values.Maps.{get as value_at, put as with_value, remove as without_key};
ghost use Rattle.fuse_tables.specs.LiveRows.{live};
ghost use Rattle.fuse_tables.specs.TableState.{IsRowOf, place_of};

use crate::rows_by_key::{find_row, is_row_of, place_in, row_ahead};
use std::alloc::Allocator;
use std::collections::VecDeque;

/// Each row has a key, and a value unless it was taken out.
pub(crate) type Rows<V, A> = VecDeque<(u64, Option<V>), A>;

/// Puts a row at a place, for which there is room. Those on its shorter side move.
fn insert_at<V: Drop, A: Allocator>(rows: &mut Rows<V, A>, place: usize, row: (u64, Option<V>))
    requires place { place ≤ deque_len rows.old }
    requires room { deque_len rows.old < deque_capacity rows.old }
    ensures items { rows.new.items ≡ inserted rows.old.items place row }
    ensures capacity { deque_capacity rows.old ≤ deque_capacity rows.new }
{
    let put: Result<(), _> = rows.insert(place, row);
    put.unwrap();
}

/// The value at a key, wherever its row stands.
#[inline(never)]
fn search_value<V, A: Allocator>(rows: &Rows<V, A>, key: u64) -> Option<&V>
    requires { T (is_sorted nat_cmp rows.now.items) }
    ensures { option_copied result ≡ value_at (live rows.now.items) key }
{
    let Some(place) = find_row(rows, key) else {
        return None;
    };
    let row = &rows[place];
    row.1.as_ref()
}

/// Where the row of a key stands, if it has a value.
#[inline(always)]
pub(crate) fn find_live<V, A: Allocator>(rows: &Rows<V, A>, key: u64) -> Option<usize>
    requires { T (is_sorted nat_cmp rows.now.items) }
    ensures { MatchOption result (value_at (live rows.now.items) key ≡ None) (λ place.
        IsRowOf rows.now.items key place × (is_some (value_at (live rows.now.items) key) ≡ true)) }
{
    let place = find_row(rows, key)?;
    if rows[place].1.is_some() {
        Some(place)
    } else {
        None
    }
}

/// The value at a key. Where `find_row` finds the row without a search, the value is read there at once.
#[inline(always)]
pub(crate) fn value_in<V, A: Allocator>(rows: &Rows<V, A>, key: u64) -> Option<&V>
    requires { T (is_sorted nat_cmp rows.now.items) }
    ensures { option_copied result ≡ value_at (live rows.now.items) key }
{
    if let Some((_, row)) = row_ahead(rows, key) {
        return row.1.as_ref();
    }
    if let Some(last) = rows.back() {
        if last.0 == key {
            return last.1.as_ref();
        }
        if last.0 < key {
            return None;
        }
    }
    search_value(rows, key)
}

/// Lets the empty rows go.
pub(crate) fn squeeze<V: Drop, A: Allocator>(rows: &mut Rows<V, A>)
    requires { T (is_sorted nat_cmp rows.old.items) }
    ensures live { live rows.new.items ≡ live rows.old.items }
    ensures sorted { T (is_sorted nat_cmp rows.new.items) }
    ensures above { (key : ℕ) → place_of key rows.old.items ≡ length rows.old.items
        → place_of key rows.new.items ≡ length rows.new.items }
    ensures len { deque_len rows.new ≡ length (live rows.old.items) }
    ensures capacity { deque_capacity rows.new ≡ deque_capacity rows.old }
{
    rows.retain(|row| row.1.is_some());
}

/// Lets the empty rows go where no other row has room.
#[inline(always)]
pub(crate) fn free_row<V: Drop, A: Allocator>(rows: &mut Rows<V, A>)
    requires sorted { T (is_sorted nat_cmp rows.old.items) }
    requires few { length (live rows.old.items) < deque_capacity rows.old }
    ensures live { live rows.new.items ≡ live rows.old.items }
    ensures sorted { T (is_sorted nat_cmp rows.new.items) }
    ensures above { (key : ℕ) → place_of key rows.old.items ≡ length rows.old.items
        → place_of key rows.new.items ≡ length rows.new.items }
    ensures room { deque_len rows.new < deque_capacity rows.new }
    ensures capacity { deque_capacity rows.new ≡ deque_capacity rows.old }
{
    if rows.len() == rows.capacity() {
        squeeze(rows);
    }
}

/// Whether a key is above those of all rows.
#[inline(always)]
pub(crate) fn is_above<V, A: Allocator>(rows: &Rows<V, A>, key: u64) -> bool
    requires { T (is_sorted nat_cmp rows.now.items) }
    ensures { result ≡ true → place_of key rows.now.items ≡ length rows.now.items }
{
    let len = rows.len();
    len == 0 || rows[len - 1].0 < key
}

/// Whether a key is below those of all rows.
#[inline(always)]
pub(crate) fn is_below<V, A: Allocator>(rows: &Rows<V, A>, key: u64) -> bool
    ensures { result ≡ true → (row : ℕ × Option V) → slice_get rows.now.items 0 ≡ Some row → key < row.0 }
{
    match rows.front() {
        Some(row) => key < row.0,
        None => true,
    }
}

/// Puts a value last, at a key above those of all rows. There is room for a row.
#[inline(always)]
pub(crate) fn push_last<V: Drop, A: Allocator>(rows: &mut Rows<V, A>, key: u64, value: V)
    requires sorted { T (is_sorted nat_cmp rows.old.items) }
    requires room { deque_len rows.old < deque_capacity rows.old }
    requires above { place_of key rows.old.items ≡ length rows.old.items }
    ensures live { live rows.new.items ≡ with_value (live rows.old.items) key value }
    ensures sorted { T (is_sorted nat_cmp rows.new.items) }
    ensures capacity { deque_capacity rows.old ≤ deque_capacity rows.new }
{
    rows.push_back_reserved((key, Some(value)));
}

/// Puts an empty row last, at a key above those of all rows. There is room for a row.
#[inline(always)]
pub(crate) fn push_empty<V: Drop, A: Allocator>(rows: &mut Rows<V, A>, key: u64)
    requires sorted { T (is_sorted nat_cmp rows.old.items) }
    requires room { deque_len rows.old < deque_capacity rows.old }
    requires above { place_of key rows.old.items ≡ length rows.old.items }
    ensures live { live rows.new.items ≡ live rows.old.items }
    ensures sorted { T (is_sorted nat_cmp rows.new.items) }
    ensures capacity { deque_capacity rows.old ≤ deque_capacity rows.new }
{
    rows.push_back_reserved((key, None));
}

/// Puts a value into the row of its key.
#[inline(always)]
pub(crate) fn fill_row<V: Drop, A: Allocator>(
    rows: &mut Rows<V, A>,
    place: usize,
    key: u64,
    value: V,
)
    requires sorted { T (is_sorted nat_cmp rows.old.items) }
    requires row { IsRowOf rows.old.items key place }
    ensures live { live rows.new.items ≡ with_value (live rows.old.items) key value }
    ensures sorted { T (is_sorted nat_cmp rows.new.items) }
    ensures capacity { deque_capacity rows.new ≡ deque_capacity rows.old }
{
    rows[place].1 = Some(value);
}

/// Puts a value at a key that has none, among the rows. There is room for a row.
pub(crate) fn put_row<V: Drop, A: Allocator>(rows: &mut Rows<V, A>, key: u64, value: V)
    requires sorted { T (is_sorted nat_cmp rows.old.items) }
    requires room { deque_len rows.old < deque_capacity rows.old }
    ensures live { live rows.new.items ≡ with_value (live rows.old.items) key value }
    ensures sorted { T (is_sorted nat_cmp rows.new.items) }
    ensures capacity { deque_capacity rows.old ≤ deque_capacity rows.new }
{
    let place = place_in(rows, key);
    if is_row_of(rows, place, key) {
        return fill_row(rows, place, key, value);
    }
    insert_at(rows, place, (key, Some(value)));
}

/// Puts another value at a key that has one, and gives the one before. Where the key has none nothing changes.
pub(crate) fn replace_row<V: Drop, A: Allocator>(
    rows: &mut Rows<V, A>,
    key: u64,
    value: V,
) -> Option<V>
    requires { T (is_sorted nat_cmp rows.old.items) }
    ensures value { result ≡ value_at (live rows.old.items) key }
    ensures live { IsSome result → live rows.new.items ≡ with_value (live rows.old.items) key value }
    ensures absent { result ≡ None → rows.new.items ≡ rows.old.items }
    ensures sorted { T (is_sorted nat_cmp rows.new.items) }
    ensures capacity { deque_capacity rows.new ≡ deque_capacity rows.old }
{
    let Some(place) = find_row(rows, key) else {
        return None;
    };
    if rows[place].1.is_none() {
        return None;
    }
    rows[place].1.replace(value)
}

/// Whether the first row has the key.
#[inline(always)]
fn is_first<V, A: Allocator>(rows: &Rows<V, A>, key: u64) -> bool
    requires { T (is_sorted nat_cmp rows.now.items) }
    ensures { (result ≡ true) ↔ IsRowOf rows.now.items key 0 }
{
    match rows.front() {
        Some(row) => row.0 == key,
        None => false,
    }
}

/// Whether the last row has the key.
#[inline(always)]
fn is_last<V, A: Allocator>(rows: &Rows<V, A>, key: u64) -> bool
    requires { T (is_sorted nat_cmp rows.now.items) }
    ensures { (result ≡ true) ↔ IsRowOf rows.now.items key (deque_len rows.now - 1) }
{
    match rows.back() {
        Some(row) => row.0 == key,
        None => false,
    }
}

/// Takes out the value at a key. Its row stays, empty.
#[inline(never)]
fn empty_row<V: Drop, A: Allocator>(rows: &mut Rows<V, A>, key: u64) -> Option<V>
    requires { T (is_sorted nat_cmp rows.old.items) }
    ensures value { result ≡ value_at (live rows.old.items) key }
    ensures live { live rows.new.items ≡ without_key (live rows.old.items) key }
    ensures sorted { T (is_sorted nat_cmp rows.new.items) }
    ensures capacity { deque_capacity rows.new ≡ deque_capacity rows.old }
{
    let Some(place) = find_row(rows, key) else {
        return None;
    };
    rows[place].1.take()
}

/// Takes out the value at a key. Between others its row stays, empty.
#[inline(always)]
pub(crate) fn take_row<V: Drop, A: Allocator>(rows: &mut Rows<V, A>, key: u64) -> Option<V>
    requires { T (is_sorted nat_cmp rows.old.items) }
    ensures value { result ≡ value_at (live rows.old.items) key }
    ensures live { live rows.new.items ≡ without_key (live rows.old.items) key }
    ensures sorted { T (is_sorted nat_cmp rows.new.items) }
    ensures capacity { deque_capacity rows.new ≡ deque_capacity rows.old }
{
    if is_first(rows, key) {
        return rows.pop_front().unwrap().1;
    }
    if is_last(rows, key) {
        return rows.pop_back().unwrap().1;
    }
    empty_row(rows, key)
}
