//! Where a key stands among rows in rising key.

ghost use Rattle.std.specs.Prelude.{◌≡◌, ◌≤◌, IfSome, MatchOption, None, T, false, slice_index_or, true};
ghost use Rattle.std.specs.Ordering.{nat_cmp};
ghost use Rattle.std.specs.FinMap.{is_sorted};
ghost use Rattle.std.specs.VecDeque.{deque_len};
ghost use Rattle.fuse_spec.specs.Values.Maps.{get as value_at};
ghost use Rattle.fuse_tables.specs.TableState.{place_of, IsRowOf};

use std::alloc::Allocator;
use std::collections::VecDeque;

/// Whether no row has a lower key, as the first row says.
#[inline(always)]
fn is_none_lower<V, A: Allocator>(rows: &VecDeque<(u64, V), A>, key: u64) -> bool
    ensures { result ≡ true → place_of key rows.now.items ≡ 0 }
{
    match rows.front() {
        Some(first) => key <= first.0,
        None => true,
    }
}

/// How many of the rows, from the first on, have a lower key.
pub(crate) fn place_in<V, A: Allocator>(rows: &VecDeque<(u64, V), A>, key: u64) -> usize
    requires { T (is_sorted nat_cmp rows.now.items) }
    ensures place { result ≡ place_of key rows.now.items }
    ensures bound { result ≤ deque_len rows.now }
{
    if is_none_lower(rows, key) {
        return 0;
    }
    rows.partition_point(|row| row.0 < key)
}

/// Whether the row at the place of a key has that key.
#[inline(always)]
pub(crate) fn is_row_of<V, A: Allocator>(
    rows: &VecDeque<(u64, V), A>,
    place: usize,
    key: u64,
) -> bool
    requires sorted { T (is_sorted nat_cmp rows.now.items) }
    requires place { place ≡ place_of key rows.now.items }
    requires bound { place ≤ deque_len rows.now }
    ensures there { result ≡ true → IsRowOf rows.now.items key place }
    ensures absent { result ≡ false → value_at rows.now.items key ≡ None }
{
    if place == rows.len() {
        return false;
    }
    let row = &rows[place];
    row.0 == key
}

/// The row of a key and where it stands, if it stands there.
#[inline(always)]
fn row_there<V, A: Allocator>(
    rows: &VecDeque<(u64, V), A>,
    key: u64,
    place: u64,
) -> Option<(usize, &(u64, V))>
    requires { T (is_sorted nat_cmp rows.now.items) }
    ensures { IfSome result (λ found. IsRowOf rows.now.items key found.0
        × (found.1.now ≡ slice_index_or rows.now.items found.0 found.1.now)) }
{
    if place >= rows.len() as u64 {
        return None;
    }
    let there = place as usize;
    let row = &rows[there];
    if row.0 == key {
        Some((there, row))
    } else {
        None
    }
}

/// The row of a key and where it stands, if that is as far behind the first row as the key is above that row's, or half as
/// far: so each row stands whose keys have no gaps, or rise by two.
#[inline(always)]
pub(crate) fn row_ahead<V, A: Allocator>(
    rows: &VecDeque<(u64, V), A>,
    key: u64,
) -> Option<(usize, &(u64, V))>
    requires { T (is_sorted nat_cmp rows.now.items) }
    ensures { IfSome result (λ found. IsRowOf rows.now.items key found.0
        × (found.1.now ≡ slice_index_or rows.now.items found.0 found.1.now)) }
{
    let first = rows.front()?;
    let ahead = key.wrapping_sub(first.0);
    if let Some(found) = row_there(rows, key, ahead) {
        return Some(found);
    }
    row_there(rows, key, ahead / 2)
}

/// Where the row of a key stands. The first row is looked at first, with those at the places that `row_ahead` says. Then the
/// last row is looked at, and then all are searched.
#[inline(always)]
pub fn find_row<V, A: Allocator>(rows: &VecDeque<(u64, V), A>, key: u64) -> Option<usize>
    requires { T (is_sorted nat_cmp rows.now.items) }
    ensures { MatchOption result (value_at rows.now.items key ≡ None) (IsRowOf rows.now.items key) }
{
    if let Some((place, _)) = row_ahead(rows, key) {
        return Some(place);
    }
    let len = rows.len();
    if len > 0 {
        let last = &rows[len - 1];
        if last.0 == key {
            return Some(len - 1);
        }
        if last.0 < key {
            return None;
        }
    }
    let place = place_in(rows, key);
    if is_row_of(rows, place, key) {
        Some(place)
    } else {
        None
    }
}
