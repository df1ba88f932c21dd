//! The calls of the queues, over any store of their requests.
ghost use Rattle.std.specs.Prelude.{◌≡◌, ℕ, ◌+◌, ◌-◌, ◌<◌, ◌≤◌, Option, OnOk, IsOk, None, Some, option_map, slice_get, nat_eq, min, length, vec_capacity};
ghost use Rattle.std.specs.Map.{lookup};
ghost use Rattle.std.specs.VecDeque.{deque_len, deque_capacity};
ghost use Rattle.fuse_spec.specs.Kernel.Queues.{QueueState, IsSound};
ghost use Rattle.fk_queues.specs.Room.{Room};

use crate::forgets::{ForgetList, Forgets};
use crate::interrupts::InterruptList;
use crate::marks::is_unread;
use crate::no_memory::NoMemory;
use crate::request_store::RequestStore;
use crate::table::QueueTable;
use fk_unique::Uniques;
use fuse_spec::limits::MAX_FORGETS;
use fuse_spec::{IntrEffect, Mark};
use std::marker::{Model, PhantomData};

/// The queues: requests in a store, INTERRUPTs and forgets in lists, and the coming number.
#[derive(Drop)]
pub struct QueuesOf<W: Drop, S: RequestStore<W>> {
    requests: S,
    interrupts: InterruptList<S::Heap>,
    forgets: ForgetList<S::Heap>,
    uniques: Uniques,
    kept: PhantomData<W>,
}

impl<W: Drop, S: RequestStore<W>> Model for QueuesOf<W, S> {
    ghost use Rattle.std.specs.Prelude.{◌-◌, length, min, vec_capacity};
    ghost use Rattle.std.specs.Coded.{codes};
    ghost use Rattle.std.specs.VecDeque.{deque_capacity, deque_len};
    ghost use Rattle.fuse_spec.specs.contracts.Mark as mark_row;
    ghost use Rattle.fk_queues.specs.State.{QueuesState, AreQueuesKept};

    ghost Value = { QueuesState W };

    ghost coded = { Prim.hlevel (codes, W.code, mark_row.the_row.coded) };

    ghost view = { λ q. record {
      queues = record {
        requests = S.entries q.requests;
        interrupts = q.interrupts.numbers.items;
        forgets = q.forgets.items.items;
        next = q.uniques;
        interrupts_off = q.interrupts.off;
      };
      room = record {
        requests = min (S.room q.requests) (vec_capacity q.interrupts.numbers - length (S.entries q.requests));
        forgets = deque_capacity q.forgets.items - deque_len q.forgets.items;
      };
    } };

    ghost invariant = { λ q. AreQueuesKept
        (record {
          requests = S.entries q.requests;
          interrupts = q.interrupts.numbers.items;
          forgets = q.forgets.items.items;
          next = q.uniques;
          interrupts_off = q.interrupts.off;
        })
        (vec_capacity q.interrupts.numbers) };
}

impl<W: Drop, S: RequestStore<W>> QueuesOf<W, S> {
    /// The mark of the request under a number.
    fn mark_under(&self, unique: u64) -> Option<Mark>
        ensures { result ≡ option_map (λ r. r.mark) (lookup (nat_eq unique) self.now.queues.requests) }
    {
        let request = self.requests.request(unique)?;
        Some(request.mark)
    }
}

impl<W: Drop, S: RequestStore<W>> QueueTable<W> for QueuesOf<W, S> {
    type Heap = S::Heap;

    ghost state = { λ q. q.queues };

    ghost room = { λ q. q.room };

    fn new(alloc: S::Heap) -> Self {
        QueuesOf {
            requests: S::new(alloc),
            interrupts: InterruptList::new(alloc),
            forgets: ForgetList::new(alloc),
            uniques: Uniques::new(),
            kept: PhantomData,
        }
    }

    #[inline(always)]
    fn reserve(&mut self, requests: usize, forgets: usize) -> Result<(), NoMemory> {
        self.requests.reserve(requests)?;
        let Some(most) = self.requests.len().checked_add(requests) else {
            return Err(NoMemory);
        };
        self.interrupts.reserve_in_all(most)?;
        self.forgets.reserve(forgets)?;
        Ok(())
    }

    fn numbers_left(&self) -> u64 {
        self.uniques.numbers_left()
    }

    #[inline(always)]
    fn enqueue(&mut self, kept: W) -> u64 {
        let unique = self.uniques.next().unwrap();
        self.requests.push(unique, kept);
        unique
    }

    fn forget(&mut self, node: u64, count: u64) {
        self.forgets.push(node, count);
    }

    fn pending(&self, place: usize) -> Option<(u64, &W)> {
        let (unique, request) = self.requests.pending(place)?;
        Some((unique, &request.kept))
    }

    fn read_pending(&mut self, place: usize) -> Option<u64> {
        let (unique, request) = self.requests.pending(place)?;
        match request.mark {
            Mark::Unread => self.requests.put_mark(unique, Mark::Read),
            Mark::Flagged => {
                self.requests.put_mark(unique, Mark::Interrupted);
                self.interrupts.push(unique);
            }
            Mark::Read | Mark::Interrupted => {}
        }
        Some(unique)
    }

    fn first_interrupt(&self) -> Option<u64> {
        self.interrupts.first()
    }

    fn read_interrupt(&mut self) -> Option<u64> {
        let unique = self.interrupts.first();
        self.interrupts.drop_first();
        unique
    }

    fn first_forgets(&self, count: usize) -> Option<(u64, Forgets)> {
        if count == 0 || count > MAX_FORGETS || count > self.forgets.items.len() {
            return None;
        }
        Some((self.uniques.coming(), self.forgets.first(count)))
    }

    fn read_forgets(&mut self, count: usize) -> Option<(u64, Forgets)> {
        let (_, forgets) = self.first_forgets(count)?;
        let unique = self.uniques.next().unwrap();
        self.forgets.drop_first(count);
        Some((unique, forgets))
    }

    fn kept(&self, unique: u64) -> Option<&W> {
        let request = self.requests.request(unique)?;
        Some(&request.kept)
    }

    #[inline(always)]
    fn waiting(&self, unique: u64) -> Option<&W> {
        let request = self.requests.request(unique)?;
        match request.mark {
            Mark::Unread | Mark::Flagged => None,
            Mark::Read | Mark::Interrupted => Some(&request.kept),
        }
    }

    #[inline(always)]
    fn answer(&mut self, unique: u64) -> Option<W> {
        if self.waiting(unique).is_none() {
            return None;
        }
        self.interrupts.remove(unique);
        let request = self.requests.take(unique)?;
        Some(request.kept)
    }

    fn interrupt(&mut self, unique: u64, fatal: bool) -> IntrEffect {
        let Some(mark) = self.mark_under(unique) else {
            return IntrEffect::None;
        };
        if fatal && is_unread(mark) {
            let _gone = self.requests.take(unique);
            return IntrEffect::Dequeued;
        }
        if self.interrupts.off {
            return IntrEffect::None;
        }
        match mark {
            Mark::Unread => {
                self.requests.put_mark(unique, Mark::Flagged);
                IntrEffect::Flagged
            }
            Mark::Read => {
                self.requests.put_mark(unique, Mark::Interrupted);
                self.interrupts.push(unique);
                IntrEffect::Queued
            }
            Mark::Flagged | Mark::Interrupted => IntrEffect::None,
        }
    }

    fn again(&mut self, unique: u64) {
        if self.interrupts.contains(unique) {
            return;
        }
        if let Some(Mark::Interrupted) = self.mark_under(unique) {
            self.interrupts.push(unique);
        }
    }

    fn no_interrupts(&mut self) {
        self.interrupts.turn_off();
    }

    fn abort(&mut self) {
        self.requests.clear();
        self.interrupts.restart();
        self.forgets.items.clear();
        self.uniques = Uniques::new();
    }

    fn lemma_sound(&self) {
        // A field is touched so that the type's invariant is at hand.
        let _off = self.interrupts.off;
        let _count = self.requests.len();
    }

    fn end(self) {
        self.requests.end();
    }
}
