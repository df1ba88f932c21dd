//! The kernel's queues, with its unanswered RELEASEs counted by node, and the requests of calls beside them.
ghost use Rattle.std.specs.Prelude.{◌≡◌, ◌≢◌, ℕ, ◌+◌, ◌++◌, ◌<◌, ◌≤◌, ◌^◌, All, None, Option, Some, T, find, nat_eq, option_map, unwrap_or};
ghost use Rattle.std.specs.FinMap.{is_sorted};
ghost use Rattle.std.specs.List.{list_any};
ghost use Rattle.std.specs.Map.{lookup};
ghost use Rattle.std.specs.Ordering.{nat_cmp};
ghost use Rattle.fuse_spec.specs.declared.IntrEffect.TheVariants.{Dequeued};
ghost use Rattle.fuse_spec.specs.Kernel.Kernel.{is_for, is_released_by};
ghost use Rattle.fk_opens.specs.Pins.{HavePins};
ghost use Rattle.fk_queues.specs.KernelQueues.{served_by, without_served};
ghost use Rattle.fk_queues.specs.Releases.{one_release};

use crate::forgets::Forgets;
use crate::no_memory::NoMemory;
use crate::table::QueueTable;
use fuse_spec::{IntrEffect, Purpose};
use fuse_tables::{Table, Tally};
use std::alloc::Allocator;
use std::marker::Model;

/// The kernel's queues. The unanswered RELEASEs are counted by node, so that whether one pins a node is a single look-up.
/// The requests of calls stand beside them too, so that a call's request is sought among those of calls alone, of which
/// each unanswered call has one.
#[derive(Drop)]
pub struct KernelQueues<Q: QueueTable<Purpose>> {
    queues: Q,
    releases: Tally<Q::Heap>,
    /// The call that each request of a call serves, by the request's number.
    calls: Table<u64, Q::Heap>,
}

impl<Q: QueueTable<Purpose>> Model for KernelQueues<Q> {
    ghost use Rattle.std.specs.Prelude.{min};
    ghost use Rattle.std.specs.Coded.{codes};
    ghost use Rattle.fuse_spec.specs.declared.Purpose.{Purpose};
    ghost use Rattle.fk_queues.specs.KernelQueues.{AreRequestsKnown};
    ghost use Rattle.fk_queues.specs.State.{QueuesState};

    ghost Value = { QueuesState Purpose };

    ghost coded = { Prim.hlevel (codes) };

    ghost view = { λ k. record {
      queues = Q.state k.queues;
      room = record {
        requests = min (Q.room k.queues).requests (min k.releases.room k.calls.room);
        forgets = (Q.room k.queues).forgets;
      };
    } };

    ghost invariant = { λ k. AreRequestsKnown (Q.state k.queues).requests k.releases.counts k.calls.entries };
}

impl<Q: QueueTable<Purpose>> KernelQueues<Q> {
    /// Whether the RELEASE of a file of a node is unanswered.
    pub fn is_releasing(&self, node: u64) -> bool
        ensures { result ≡ list_any (λ e. is_released_by node e.1.kept) self.now.queues.requests }
    {
        self.releases.has(node)
    }

    /// The number of the request that serves a call, read or not: the oldest, if there are more.
    pub fn request_for(&self, call: u64) -> Option<u64>
        ensures { result ≡ option_map (λ e. e.0) (find (λ e. is_for call e.1.kept) self.now.queues.requests) }
    {
        request_in(self.calls.rows(), call)
    }
}

impl<Q: QueueTable<Purpose>> QueueTable<Purpose> for KernelQueues<Q> {
    type Heap = Q::Heap;

    ghost state = { λ q. q.queues };

    ghost room = { λ q. q.room };

    fn new(alloc: Q::Heap) -> Self {
        KernelQueues {
            queues: Q::new(alloc),
            releases: Tally::new(alloc),
            calls: Table::new(alloc),
        }
    }

    #[inline(always)]
    fn reserve(&mut self, requests: usize, forgets: usize) -> Result<(), NoMemory> {
        self.queues.reserve(requests, forgets)?;
        self.releases.reserve(requests)?;
        self.calls.reserve(requests)?;
        Ok(())
    }

    fn numbers_left(&self) -> u64 {
        self.queues.numbers_left()
    }

    #[inline(always)]
    fn enqueue(&mut self, kept: Purpose) -> u64 {
        self.queues.lemma_sound();
        pin_released(&mut self.releases, kept);
        let unique = self.queues.enqueue(kept);
        put_served(&mut self.calls, unique, kept);
        unique
    }

    fn forget(&mut self, node: u64, count: u64) {
        self.queues.forget(node, count);
    }

    #[inline(always)]
    fn pending(&self, place: usize) -> Option<(u64, &Purpose)> {
        self.queues.pending(place)
    }

    fn read_pending(&mut self, place: usize) -> Option<u64> {
        self.queues.read_pending(place)
    }

    fn first_interrupt(&self) -> Option<u64> {
        self.queues.first_interrupt()
    }

    fn read_interrupt(&mut self) -> Option<u64> {
        self.queues.read_interrupt()
    }

    fn first_forgets(&self, count: usize) -> Option<(u64, Forgets)> {
        self.queues.first_forgets(count)
    }

    fn read_forgets(&mut self, count: usize) -> Option<(u64, Forgets)> {
        self.queues.read_forgets(count)
    }

    fn kept(&self, unique: u64) -> Option<&Purpose> {
        self.queues.kept(unique)
    }

    fn waiting(&self, unique: u64) -> Option<&Purpose> {
        self.queues.waiting(unique)
    }

    #[inline(always)]
    fn answer(&mut self, unique: u64) -> Option<Purpose> {
        let kept = self.queues.answer(unique)?;
        unpin_released(&mut self.releases, kept);
        drop_served(&mut self.calls, unique, kept);
        Some(kept)
    }

    fn interrupt(&mut self, unique: u64, fatal: bool) -> IntrEffect {
        let kept = self.queues.kept(unique).copied();
        let effect = self.queues.interrupt(unique, fatal);
        if let Some(kept) = kept_of_dequeued(effect, kept) {
            unpin_released(&mut self.releases, kept);
            drop_served(&mut self.calls, unique, kept);
        }
        effect
    }

    fn again(&mut self, unique: u64) {
        self.queues.again(unique);
    }

    fn no_interrupts(&mut self) {
        self.queues.no_interrupts();
    }

    fn abort(&mut self) {
        self.queues.abort();
        self.releases.clear();
        self.calls.clear();
    }

    fn lemma_sound(&self) {
        self.queues.lemma_sound();
    }

    fn end(self) {
        self.queues.end();
    }
}

/// A RELEASE that is queued pins the node of its file.
fn pin_released<A: Allocator + Copy>(releases: &mut Tally<A>, kept: Purpose)
    requires room { 0 < releases.old.room }
    requires small { (node : ℕ) → unwrap_or (lookup (nat_eq node) releases.old.counts) 0 + 1 < 2 ^ 64 }
    ensures pins { (pins : ℕ → ℕ) → HavePins releases.old.counts pins
        → HavePins releases.new.counts (λ node. pins node + one_release kept node) }
    ensures room { releases.old.room ≤ releases.new.room + 1 }
{
    match kept {
        Purpose::Release(opened) => releases.add(opened.nodeid),
        Purpose::Init | Purpose::Call(_) => {}
    }
}

/// A RELEASE that ends pins the node of its file no longer.
fn unpin_released<A: Allocator + Copy>(releases: &mut Tally<A>, kept: Purpose)
    ensures pins { (pins now : ℕ → ℕ) → HavePins releases.old.counts pins
        → ((node : ℕ) → now node + one_release kept node ≡ pins node) → HavePins releases.new.counts now }
    ensures room { releases.old.room ≤ releases.new.room }
{
    match kept {
        Purpose::Release(opened) => releases.take(opened.nodeid),
        Purpose::Init | Purpose::Call(_) => {}
    }
}

/// A request of a call that is queued goes last among those of calls.
fn put_served<A: Allocator + Copy>(calls: &mut Table<u64, A>, unique: u64, kept: Purpose)
    requires room { 0 < calls.old.room }
    requires above { All (λ e. e.0 < unique) calls.old.entries }
    ensures calls { calls.new.entries ≡ calls.old.entries ++ served_by unique kept }
    ensures room { calls.old.room ≤ calls.new.room + 1 }
{
    match kept {
        Purpose::Call(call) => calls.put(unique, call),
        Purpose::Init | Purpose::Release(_) => {}
    }
}

/// A request of a call that ends is none of those of calls any longer.
fn drop_served<A: Allocator + Copy>(calls: &mut Table<u64, A>, unique: u64, kept: Purpose)
    ensures calls { calls.new.entries ≡ without_served unique kept calls.old.entries }
    ensures sorted { T (is_sorted nat_cmp calls.old.entries) }
    ensures room { calls.old.room ≤ calls.new.room }
{
    calls.lemma_sound();
    match kept {
        Purpose::Call(_) => {
            let _call = calls.remove(unique);
        }
        Purpose::Init | Purpose::Release(_) => {}
    }
}

/// What was kept of a request that a signal of this effect dequeued.
fn kept_of_dequeued(effect: IntrEffect, kept: Option<Purpose>) -> Option<Purpose>
    ensures dequeued { effect ≡ Dequeued → result ≡ kept }
    ensures other { effect ≢ Dequeued → result ≡ None }
{
    match effect {
        IntrEffect::Dequeued => kept,
        IntrEffect::Flagged | IntrEffect::Queued | IntrEffect::None => None,
    }
}

/// The number of the first of these requests that serves a call.
fn request_in(calls: &[(u64, u64)], call: u64) -> Option<u64>
    ensures { result ≡ option_map (λ e. e.0) (find (λ e. nat_eq e.1 call) calls.now) }
{
    for row in calls {
        if row.1 == call {
            return Some(row.0);
        }
    }
    None
}
