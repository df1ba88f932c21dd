//! Which message is read from the kernel.

ghost use Rattle.std.specs.Prelude.{◌≡◌, None, OnOk, OnErr, IfOk, IfErr};
ghost use Rattle.fuse_spec.specs.Kernel.Refusals.{or_no_memory};
ghost use Rattle.fk_kernel.specs.Picks.{pick_refusal, IsPicked, after_pick};

use crate::kernel::KernelOf;
use fk_lookup_count::CountTable;
use fk_queues::QueueTable;
use fuse_frames::RequestFrame;
use fuse_spec::{Purpose, Refusal};

/// What is read from the kernel's lists, as one request (the kernel's `fuse.rst`; this project's rule that any pending
/// request may be read).
#[derive(Clone, Copy, Debug, PartialEq, Eq)]
pub enum Pick {
    /// The oldest INTERRUPT.
    Interrupt,
    /// This many of the oldest forgets as one request: FORGET for 1, else BATCH_FORGET, for 64 at most.
    Forgets(u64),
    /// The pending request at a place, counted from 0 in order of queuing.
    Pending(u64),
}

impl<Q: QueueTable<Purpose>, C: CountTable<Heap = Q::Heap>> KernelOf<Q, C> {
    /// Why this cannot be read, out of memory aside: `NotReady` where the mount is not live; `InterruptFirst` for
    /// forgets and a pending request while an INTERRUPT is queued; `NoSuch` where no INTERRUPT is queued, where no
    /// request is pending at the place, and for 0 forgets, for more than 64, for more than are queued and for more than
    /// 1 at 7.15; `Exhausted` where no number is left for the frame of forgets.
    #[inline(always)]
    pub fn read_refusal(&self, pick: Pick) -> Option<Refusal>
        ensures { result ≡ pick_refusal self.now pick }
    {
        match pick {
            Pick::Interrupt => self.read_interrupt_refusal(),
            Pick::Forgets(count) => self.read_forgets_refusal(count),
            Pick::Pending(place) => self.read_pending_refusal(place),
        }
    }

    /// Reads one message: the oldest INTERRUPT, under the number of its request with the lowest bit set; the oldest
    /// forgets as one frame, which allocates a number; or a pending request, which is in processing from then on (the
    /// kernel's `fuse.rst`).
    ///
    /// # Errors
    ///
    /// As `read_refusal`; then `NoMemory`. The kernel is as before.
    #[inline(always)]
    pub fn read(&mut self, pick: Pick) -> Result<RequestFrame<Q::Heap>, Refusal>
        ensures err { OnErr result (self.new ≡ self.old) }
        ensures refusal { IfErr result (λ refusal. refusal ≡ or_no_memory (pick_refusal self.old pick)) }
        ensures judged { OnOk result (pick_refusal self.old pick ≡ None) }
        ensures frame { IfOk result (λ frame. IsPicked self.old pick frame) }
        ensures read { OnOk result (self.new ≡ record self.old { queues = after_pick self.old.queues pick }) }
    {
        match pick {
            Pick::Interrupt => self.read_interrupt(),
            Pick::Forgets(count) => self.read_forgets(count),
            Pick::Pending(place) => self.read_pending(place),
        }
    }
}
