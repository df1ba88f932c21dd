//! Requests in a table under their numbers.
ghost use Rattle.std.specs.Prelude.{◌≡◌, ℕ, ◌<◌, ◌≤◌, ◌↔◌, List, Option, OnOk, T, filter, length, nat_eq, not, option_map, slice_get, slice_index, true};
ghost use Rattle.std.specs.Map.{remove_entry};
ghost use Rattle.std.specs.Ordering.{nat_cmp};
ghost use Rattle.std.specs.FinMap.{is_sorted};
ghost use Rattle.std.specs.VecDeque.{deque_len, deque_capacity};
ghost use Rattle.fuse_spec.specs.Kernel.Queues.{is_unread};
ghost use Rattle.fuse_spec.specs.Kernel.QueueCalls.{set_mark};
ghost use Rattle.fk_queues.specs.Requests.{Rises};

use crate::marks::is_unread;
use crate::request_store::RequestStore;
use fuse_spec::{Mark, QueuedRequest};
use fuse_tables::{RisingTable, take_at};
use std::alloc::{AllocError, Allocator, Global};
use std::collections::VecDeque;
use std::marker::Model;

/// Requests in a table under their numbers, which rise, each marked read or unread, and the numbers of the unread ones in
/// a queue.
#[derive(Drop)]
pub struct MapRequests<W, A: Allocator = Global> {
    requests: RisingTable<QueuedRequest<W>, A>,
    unread: VecDeque<u64, A>,
}

impl<W, A: Allocator> Model for MapRequests<W, A> {
    ghost use Rattle.std.specs.Prelude.{min, ◌-◌};
    ghost use Rattle.std.specs.Coded.{codes};
    ghost use Rattle.std.specs.VecDeque.{deque_len, deque_capacity};
    ghost use Rattle.fuse_spec.specs.contracts.Mark as mark_row;
    ghost use Rattle.fk_queues.specs.Requests.{RequestsState, AreRequests};

    ghost Value = { RequestsState W };

    ghost coded = { Prim.hlevel (codes, W.code, mark_row.the_row.coded) };

    ghost view = { λ s. record {
      entries = s.requests.entries;
      room = min s.requests.room (deque_capacity s.unread - deque_len s.unread);
    } };

    ghost invariant = { λ s. AreRequests s.requests.entries s.unread.items };
}

impl<W: Drop, A: Allocator + Copy> RequestStore<W> for MapRequests<W, A> {
    type Heap = A;

    ghost entries = { λ s. s.entries };

    ghost room = { λ s. s.room };

    fn new(alloc: A) -> Self {
        MapRequests {
            requests: RisingTable::new(alloc),
            unread: VecDeque::new(alloc),
        }
    }

    fn len(&self) -> usize {
        self.requests.lemma_sound();
        self.requests.len()
    }

    #[inline(always)]
    fn reserve(&mut self, more: usize) -> Result<(), AllocError> {
        self.unread.reserve(more)?;
        self.requests.reserve(more)
    }

    #[inline(always)]
    fn pending(&self, place: usize) -> Option<(u64, &QueuedRequest<W>)> {
        let Some(unique) = number_at(&self.unread, place) else {
            return None;
        };
        let Some(request) = self.requests.get(unique) else {
            return None;
        };
        Some((unique, request))
    }

    #[inline(always)]
    fn request(&self, unique: u64) -> Option<&QueuedRequest<W>> {
        self.requests.get(unique)
    }

    #[inline(always)]
    fn push(&mut self, unique: u64, kept: W) {
        let request = QueuedRequest {
            mark: Mark::Unread,
            kept,
        };
        self.requests.put(unique, request);
        self.unread.push_back_reserved(unique);
    }

    #[inline(always)]
    fn put_mark(&mut self, unique: u64, mark: Mark) {
        mark_in(&mut self.requests, unique, mark);
        if !is_unread(mark) {
            drop_number(&mut self.unread, unique);
        }
    }

    #[inline(always)]
    fn take(&mut self, unique: u64) -> Option<QueuedRequest<W>> {
        let Some(request) = self.requests.remove(unique) else {
            return None;
        };
        drop_number(&mut self.unread, unique);
        Some(request)
    }

    fn clear(&mut self) {
        self.requests.clear();
        self.unread.clear();
    }

    fn end(self) {}
}

/// Gives the request under a number this mark.
#[inline(always)]
fn mark_in<W: Drop, A: Allocator + Copy>(
    requests: &mut RisingTable<QueuedRequest<W>, A>,
    unique: u64,
    mark: Mark,
)
    ensures entries { requests.new.entries ≡ set_mark unique requests.old.entries mark }
    ensures sorted { T (is_sorted nat_cmp requests.new.entries) }
    ensures room { requests.old.room ≤ requests.new.room }
{
    if let Some(request) = requests.get_mut(unique) {
        request.mark = mark;
    }
}

/// The number at a place.
fn number_at<A: Allocator>(numbers: &VecDeque<u64, A>, place: usize) -> Option<u64>
    ensures { result ≡ slice_get numbers.now.items place }
{
    numbers.get(place).copied()
}

/// Whether a number stands first.
fn is_first<A: Allocator>(numbers: &VecDeque<u64, A>, number: u64) -> bool
    ensures { (result ≡ true) ↔ ((0 < deque_len numbers.now) × (slice_index numbers.now.items 0 ≡ number)) }
{
    if numbers.is_empty() {
        return false;
    }
    numbers[0] == number
}

/// Takes a number out, if it is there. Most that go stand first.
#[inline(always)]
fn drop_number<A: Allocator>(numbers: &mut VecDeque<u64, A>, number: u64)
    requires { Rises numbers.old.items }
    ensures items { numbers.new.items ≡ filter (λ n. not (nat_eq number n)) numbers.old.items }
    ensures len { deque_len numbers.new ≤ deque_len numbers.old }
    ensures capacity { deque_capacity numbers.new ≡ deque_capacity numbers.old }
{
    if is_first(numbers, number) {
        let _first = take_at(numbers, 0);
        return;
    }
    if let Ok(place) = numbers.binary_search(&number) {
        let _number = take_at(numbers, place);
    }
}
