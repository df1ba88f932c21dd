//! The contract of the queues, for any representation.
ghost use Rattle.std.specs.Prelude.{◌≡◌, ℕ, ◌+◌, ◌<◌, ◌≤◌, ◌^◌, Option, OnOk, IsOk, option_map, slice_get, length};
ghost use Rattle.fuse_spec.specs.Kernel.Uniques.{numbers_left_from};
ghost use Rattle.fuse_spec.specs.Kernel.Queues.{QueueState, empty_queues, request_under, IsSound};
ghost use Rattle.fuse_spec.specs.Kernel.QueueCalls.{after_enqueue, after_forget, pending_at, after_read_pending, after_read_interrupt, first_forgets, after_read_forgets, waiting, after_answer, interrupt_effect, after_interrupt, after_interrupt_reply, after_no_interrupts};
ghost use Rattle.fuse_spec.specs.declared.InterruptReply.TheVariants.{Again};
ghost use Rattle.fk_queues.specs.Room.{Room, KeepsRoom};

use crate::forgets::Forgets;
use crate::no_memory::NoMemory;
use fuse_spec::IntrEffect;
use std::alloc::Allocator;

/// The kernel's queues of requests, INTERRUPTs and forgets. `W` is what the kernel keeps of a request.
///
/// Under a number or at a place that has no such request, a call gives `None` and changes nothing. Only `reserve` takes
/// memory.
///
/// While an INTERRUPT is queued, the kernel reads no other kind (this project's rule): `first_interrupt`,
/// `first_forgets` and `pending` say what each read would give.
pub trait QueueTable<W: Drop> {
    /// Where the room comes from.
    type Heap: Allocator + Copy;

    /// The queues as one record.
    ghost state: { Self → QueueState W };

    /// How much fits with no memory.
    ghost room: { Self → Room };

    /// Empty queues, of a new mount: the first number is 2.
    fn new(alloc: Self::Heap) -> Self
        ensures { state result ≡ empty_queues };

    /// Makes room: from then on this many requests can be queued, each with its INTERRUPT, and this many forgets. Room
    /// that is not used stays.
    ///
    /// # Errors
    ///
    /// Out of memory: that room was not there. The queues are as before, and no room went.
    fn reserve(&mut self, requests: usize, forgets: usize) -> Result<(), NoMemory>
        ensures state { state self.new ≡ state self.old }
        ensures kept { KeepsRoom (room self.old) (room self.new) }
        ensures requests { OnOk result (requests ≤ (room self.new).requests) }
        ensures forgets { OnOk result (forgets ≤ (room self.new).forgets) }
        ensures succeeds { requests ≤ (room self.old).requests → forgets ≤ (room self.old).forgets → IsOk result };

    /// How many numbers can still be allocated.
    fn numbers_left(&self) -> u64
        ensures { result ≡ numbers_left_from (state self.now).next };

    /// Queues a request, last, under the coming number, and gives that number.
    fn enqueue(&mut self, kept: W) -> u64
        requires room { 0 < (room self.old).requests }
        requires number { 0 < numbers_left_from (state self.old).next }
        ensures unique { result ≡ (state self.old).next }
        ensures state { state self.new ≡ after_enqueue (state self.old) kept }
        ensures requests_room { (room self.old).requests ≤ (room self.new).requests + 1 }
        ensures forgets_room { (room self.old).forgets ≤ (room self.new).forgets };

    /// Queues a forget of `count` lookups of a node, last.
    fn forget(&mut self, node: u64, count: u64)
        requires { 0 < (room self.old).forgets }
        ensures state { state self.new ≡ after_forget (state self.old) node count }
        ensures requests_room { (room self.old).requests ≤ (room self.new).requests }
        ensures forgets_room { (room self.old).forgets ≤ (room self.new).forgets + 1 };

    /// The pending request at a place in order of queuing, counted from 0, and its number: what `read_pending` reads.
    fn pending(&self, place: usize) -> Option<(u64, &W)>
        ensures { option_map (λ p. (p.0, p.1.now)) result ≡ pending_at (state self.now) place };

    /// Reads the pending request at a place, not the oldest alone, and gives its number. It is in processing from then
    /// on. Where it was flagged, its INTERRUPT is queued, unless INTERRUPTs are off.
    fn read_pending(&mut self, place: usize) -> Option<u64>
        ensures unique { result ≡ option_map (λ p. p.0) (pending_at (state self.old) place) }
        ensures state { state self.new ≡ after_read_pending (state self.old) place }
        ensures room { KeepsRoom (room self.old) (room self.new) };

    /// The number of the request whose INTERRUPT is the first queued: what `read_interrupt` reads.
    fn first_interrupt(&self) -> Option<u64>
        ensures { result ≡ slice_get (state self.now).interrupts 0 };

    /// Reads the first INTERRUPT, and gives the number of its request.
    fn read_interrupt(&mut self) -> Option<u64>
        ensures unique { result ≡ slice_get (state self.old).interrupts 0 }
        ensures state { state self.new ≡ after_read_interrupt (state self.old) }
        ensures room { KeepsRoom (room self.old) (room self.new) };

    /// The coming number and the first `count` forgets: what `read_forgets` reads, where a number is left.
    /// `None` for 0, for more than 64 and for more than are queued.
    fn first_forgets(&self, count: usize) -> Option<(u64, Forgets)>
        ensures { result ≡ first_forgets (state self.now) count };

    /// Reads the first `count` forgets, as one frame, which allocates a number: a FORGET for 1, a BATCH_FORGET for
    /// more.
    fn read_forgets(&mut self, count: usize) -> Option<(u64, Forgets)>
        requires { 0 < numbers_left_from (state self.old).next }
        ensures forgets { result ≡ first_forgets (state self.old) count }
        ensures state { state self.new ≡ after_read_forgets (state self.old) count }
        ensures room { KeepsRoom (room self.old) (room self.new) };

    /// What is kept of the request under a number, read or not.
    fn kept(&self, unique: u64) -> Option<&W>
        ensures { option_map (λ w. w.now) result
            ≡ option_map (λ r. r.kept) (request_under (state self.now) unique) };

    /// What is kept of the request that was read under a number and is unanswered: what `answer` ends.
    fn waiting(&self, unique: u64) -> Option<&W>
        ensures { option_map (λ w. w.now) result ≡ waiting (state self.now) unique };

    /// Ends the request that was read under a number, and gives what was kept of it. Its INTERRUPT leaves the list.
    fn answer(&mut self, unique: u64) -> Option<W>
        ensures kept { result ≡ waiting (state self.old) unique }
        ensures state { state self.new ≡ after_answer (state self.old) unique }
        ensures room { KeepsRoom (room self.old) (room self.new) };

    /// Signals the request under a number: the kernel's `fuse.rst`, "Interrupting filesystem operations".
    fn interrupt(&mut self, unique: u64, fatal: bool) -> IntrEffect
        ensures effect { result ≡ interrupt_effect (state self.old) unique fatal }
        ensures state { state self.new ≡ after_interrupt (state self.old) unique fatal }
        ensures room { KeepsRoom (room self.old) (room self.new) };

    /// The INTERRUPT of a request was answered EAGAIN. It is queued again, last, if the request waits and its INTERRUPT
    /// is not queued already. Under a request that was never signalled nothing happens.
    fn again(&mut self, unique: u64)
        ensures state { state self.new ≡ after_interrupt_reply (state self.old) unique Again }
        ensures room { KeepsRoom (room self.old) (room self.new) };

    /// An INTERRUPT was answered ENOSYS. The queued ones go, and none is queued again, not even for a request that is
    /// flagged.
    fn no_interrupts(&mut self)
        ensures state { state self.new ≡ after_no_interrupts (state self.old) }
        ensures room { KeepsRoom (room self.old) (room self.new) };

    /// Drops everything, room too. Numbers begin at 2 again.
    fn abort(&mut self)
        ensures { state self.new ≡ empty_queues };

    /// A call without effect, for a caller's proof: numbers are even, rise by 2 and name one request at most, and memory
    /// bounds how many requests there are. A number stands on the list of INTERRUPTs once at most, and leaves it when
    /// its request ends.
    fn lemma_sound(&self)
        ensures sound { IsSound (state self.now) }
        ensures few { length (state self.now).requests < 2 ^ 63 };

    /// Ends it. It is a drop, whose parts are so proved in this crate, and not in each that has one.
    fn end(self);
}
