//! A table from numbers to values.

ghost use Rattle.std.specs.Prelude.{◌≡◌, ◌+◌, ◌<◌, ◌≤◌, ◌^◌, [], IsSome, MatchOption, None, OnErr, OnOk, T};
ghost use Rattle.std.specs.Prelude.{if◌then◌else◌, is_some, length, option_map, slice_get};
ghost use Rattle.std.specs.Option.{option_copied};
ghost use Rattle.std.specs.Ordering.{nat_cmp};
ghost use Rattle.std.specs.FinMap.{is_sorted};
ghost use Rattle.std.specs.List.{insert as inserted};
ghost use Rattle.std.specs.Vec.{vec_len, vec_capacity};
ghost use Rattle.fuse_spec.specs.Values.Maps.{get as value_at, put as with_value, remove as without_key};
ghost use Rattle.fuse_tables.specs.TableState.{place_of, IsRowOf};

use crate::list::take_at;
use std::alloc::{AllocError, Allocator, Global};
use std::marker::Model;
use std::mem::replace;

/// A map from numbers to values, seen as its entries in rising key and its room: how many more it takes with no memory.
#[derive(Drop)]
pub struct Table<V, A: Allocator = Global> {
    rows: Vec<(u64, V), A>,
}

impl<V, A: Allocator> Model for Table<V, A> {
    ghost use Rattle.std.specs.Prelude.{T, ◌-◌, vec_len, vec_capacity};
    ghost use Rattle.std.specs.Ordering.{nat_cmp};
    ghost use Rattle.std.specs.FinMap.{is_sorted};
    ghost use Rattle.fuse_tables.specs.TableState.{TableState, table_code};

    ghost Value = { TableState V };

    ghost coded = { table_code V.code };

    ghost view = { λ t. record { entries = t.rows.items; room = vec_capacity t.rows - vec_len t.rows } };

    ghost invariant = { λ t. T (is_sorted nat_cmp t.rows.items) };
}

/// How many of the rows, from the first on, have a lower key.
#[inline(always)]
fn place_in<V>(rows: &[(u64, V)], key: u64) -> usize
    requires { T (is_sorted nat_cmp rows.now) }
    ensures place { result ≡ place_of key rows.now }
    ensures bound { result ≤ length rows.now }
{
    rows.partition_point(|row| row.0 < key)
}

/// Where the row of a key stands, by a search.
#[inline(never)]
fn search_in<V>(rows: &[(u64, V)], key: u64) -> Option<usize>
    requires { T (is_sorted nat_cmp rows.now) }
    ensures { MatchOption result (value_at rows.now key ≡ None) (IsRowOf rows.now key) }
{
    let place = place_in(rows, key);
    if place == rows.len() {
        return None;
    }
    let row = &rows[place];
    if row.0 == key { Some(place) } else { None }
}

/// Where the row of a key stands. The last row is looked at first.
#[inline(always)]
fn find_in<V>(rows: &[(u64, V)], key: u64) -> Option<usize>
    requires { T (is_sorted nat_cmp rows.now) }
    ensures { MatchOption result (value_at rows.now key ≡ None) (IsRowOf rows.now key) }
{
    let len = rows.len();
    if len == 0 {
        return None;
    }
    let last = &rows[len - 1];
    if last.0 == key {
        return Some(len - 1);
    }
    search_in(rows, key)
}

/// Puts a row before others, for which there is room.
#[inline(never)]
fn insert_at<V: Drop, A: Allocator>(rows: &mut Vec<(u64, V), A>, place: usize, row: (u64, V))
    requires place { place ≤ vec_len rows.old }
    requires room { vec_len rows.old < vec_capacity rows.old }
    ensures items { rows.new.items ≡ inserted rows.old.items place row }
    ensures len { vec_len rows.new ≡ vec_len rows.old + 1 }
    ensures capacity { vec_capacity rows.old ≤ vec_capacity rows.new }
{
    let put: Result<(), _> = rows.insert(place, row);
    put.unwrap();
}

/// Puts a row at a place, for which there is room. Most keys rise, so most rows come last.
#[inline(always)]
fn put_at<V: Drop, A: Allocator>(rows: &mut Vec<(u64, V), A>, place: usize, row: (u64, V))
    requires place { place ≤ vec_len rows.old }
    requires room { vec_len rows.old < vec_capacity rows.old }
    ensures items { rows.new.items ≡ inserted rows.old.items place row }
    ensures len { vec_len rows.new ≡ vec_len rows.old + 1 }
    ensures capacity { vec_capacity rows.old ≤ vec_capacity rows.new }
{
    if place == rows.len() {
        return rows.push_reserved(row);
    }
    insert_at(rows, place, row)
}

impl<V: Drop, A: Allocator + Copy> Table<V, A> {
    pub fn new(alloc: A) -> Self
        ensures { result.entries ≡ [] }
    {
        Table {
            rows: Vec::new(alloc),
        }
    }

    /// How many entries there are.
    pub fn len(&self) -> usize
        ensures { result ≡ length self.now.entries }
    {
        self.rows.len()
    }

    /// The value at a key.
    #[inline(always)]
    pub fn get(&self, key: u64) -> Option<&V>
        ensures { option_copied result ≡ value_at self.now.entries key }
    {
        let place = find_in(&self.rows, key)?;
        Some(&self.rows[place].1)
    }

    /// The entries, in rising key.
    pub fn rows(&self) -> &[(u64, V)]
        ensures { result.now ≡ self.now.entries }
    {
        &self.rows
    }

    /// Entries stand in rising key, and memory holds fewer than 2^63. A call without effect, made where a proof rests
    /// on that.
    pub fn lemma_sound(&self)
        ensures sorted { T (is_sorted nat_cmp self.now.entries) }
        ensures few { length self.now.entries < 2 ^ 63 }
    {
        let _len = self.rows.len();
    }

    /// The lowest key.
    pub fn first_key(&self) -> Option<u64>
        ensures { result ≡ option_map (λ e. e.0) (slice_get self.now.entries 0) }
    {
        match self.rows.first() {
            Some(row) => Some(row.0),
            None => None,
        }
    }

    /// Makes room for this many more entries.
    ///
    /// # Errors
    ///
    /// Out of memory. The entries are as before.
    pub fn reserve(&mut self, more: usize) -> Result<(), AllocError>
        ensures entries { self.new.entries ≡ self.old.entries }
        ensures room { OnOk result (more ≤ self.new.room) }
        ensures kept { self.old.room ≤ self.new.room }
        ensures refused { OnErr result (self.old.room < more) }
    {
        self.rows.reserve(more)
    }

    /// Puts a value at a key that has none, into room that was made.
    #[inline(always)]
    pub fn put(&mut self, key: u64, value: V)
        requires room { 0 < self.old.room }
        requires absent { value_at self.old.entries key ≡ None }
        ensures entries { self.new.entries ≡ with_value self.old.entries key value }
        ensures room { self.old.room ≤ self.new.room + 1 }
    {
        let place = place_in(&self.rows, key);
        put_at(&mut self.rows, place, (key, value));
    }

    /// Puts another value at a key that has one, and gives the one before. Where the key has none nothing changes.
    pub fn replace(&mut self, key: u64, value: V) -> Option<V>
        ensures value { result ≡ value_at self.old.entries key }
        ensures entries { IsSome result → self.new.entries ≡ with_value self.old.entries key value }
        ensures absent { result ≡ None → self.new.entries ≡ self.old.entries }
        ensures room { self.new.room ≡ self.old.room }
    {
        let place = find_in(&self.rows, key)?;
        let row = replace(&mut self.rows[place], (key, value));
        Some(row.1)
    }

    /// Takes out the value at a key. Its room stays.
    #[inline(always)]
    pub fn remove(&mut self, key: u64) -> Option<V>
        ensures value { result ≡ value_at self.old.entries key }
        ensures entries { self.new.entries ≡ without_key self.old.entries key }
        ensures sorted { T (is_sorted nat_cmp self.old.entries) }
        ensures room { (if is_some result then self.old.room + 1 else self.old.room) ≤ self.new.room }
    {
        let Some(place) = find_in(&self.rows, key) else {
            return None;
        };
        Some(take_at(&mut self.rows, place).1)
    }

    /// Takes out all entries. Their room stays.
    pub fn clear(&mut self)
        ensures entries { self.new.entries ≡ [] }
        ensures room { self.old.room ≤ self.new.room }
    {
        self.rows.clear();
    }
}
