//! Requests under their numbers: what a representation of the queues offers.
ghost use Rattle.std.specs.Prelude.{◌≡◌, ℕ, [], ◌∷◌, ◌++◌, ◌+◌, ◌<◌, ◌≤◌, ◌^◌, All, IfSome, IsOk, List, Option, OnOk, filter, length, nat_eq, option_map, slice_get, true};
ghost use Rattle.std.specs.Option.{option_copied};
ghost use Rattle.std.specs.Map.{lookup, remove_entry};
ghost use Rattle.fuse_spec.specs.declared.Mark.TheVariants.{Unread};
ghost use Rattle.fuse_spec.specs.declared.QueuedRequest.{QueuedRequest};
ghost use Rattle.fuse_spec.specs.Kernel.Queues.{is_unread};
ghost use Rattle.fuse_spec.specs.Kernel.QueueCalls.{set_mark};

use fuse_spec::{Mark, QueuedRequest};
use std::alloc::{AllocError, Allocator};

/// Requests under their numbers, read or not, in order of queuing. `W` is what the kernel keeps of a request.
///
/// Under a number or at a place that has no such request, a call gives `None` and changes nothing. Only
/// `reserve` takes memory.
pub trait RequestStore<W: Drop> {
    /// Where the room comes from.
    type Heap: Allocator + Copy;

    /// The requests in order of queuing, each under its number.
    ghost entries: { Self → List (ℕ × QueuedRequest W) };

    /// How many more requests can be pushed with no memory.
    ghost room: { Self → ℕ };

    /// No request.
    fn new(alloc: Self::Heap) -> Self
        ensures { entries result ≡ [] };

    /// How many requests there are.
    fn len(&self) -> usize
        ensures len { result ≡ length (entries self.now) }
        ensures few { result < 2 ^ 63 };

    /// Makes room for this many more requests.
    ///
    /// # Errors
    ///
    /// Out of memory. The requests are as before.
    fn reserve(&mut self, more: usize) -> Result<(), AllocError>
        ensures entries { entries self.new ≡ entries self.old }
        ensures ok { OnOk result (more ≤ room self.new) }
        ensures succeeds { more ≤ room self.old → IsOk result }
        ensures room { room self.old ≤ room self.new };

    /// The request at a place among those that were not read, and its number.
    fn pending(&self, place: usize) -> Option<(u64, &QueuedRequest<W>)>
        ensures { option_map (λ p. (p.0, p.1.now)) result
            ≡ slice_get (filter (λ e. is_unread e.1.mark) (entries self.now)) place };

    /// The request under a number.
    fn request(&self, unique: u64) -> Option<&QueuedRequest<W>>
        ensures { option_copied result ≡ lookup (nat_eq unique) (entries self.now) };

    /// Puts an unread request last, under a number above all others.
    fn push(&mut self, unique: u64, kept: W)
        requires room { 0 < room self.old }
        requires above { All (λ e. e.0 < unique) (entries self.old) }
        ensures entries { entries self.new ≡ entries self.old ++ (unique, record { mark = Unread; kept = kept }) ∷ [] }
        ensures room { room self.old ≤ room self.new + 1 };

    /// Gives the request under a number this mark. None that was read is unread again.
    fn put_mark(&mut self, unique: u64, mark: Mark)
        requires { is_unread mark ≡ true → IfSome (lookup (nat_eq unique) (entries self.old))
            (λ request. is_unread request.mark ≡ true) }
        ensures entries { entries self.new ≡ set_mark unique (entries self.old) mark }
        ensures len { length (entries self.new) ≡ length (entries self.old) }
        ensures room { room self.old ≤ room self.new };

    /// Takes out the request under a number. The others keep their order.
    fn take(&mut self, unique: u64) -> Option<QueuedRequest<W>>
        ensures value { result ≡ lookup (nat_eq unique) (entries self.old) }
        ensures entries { entries self.new ≡ remove_entry (nat_eq unique) (entries self.old) }
        ensures len { length (entries self.new) ≤ length (entries self.old) }
        ensures room { room self.old ≤ room self.new };

    /// Takes all requests out.
    fn clear(&mut self)
        ensures { entries self.new ≡ [] };

    /// Ends it. It is a drop, whose parts are so proved in this crate, and not in each that has one.
    fn end(self);
}
