//! How forgets are read.

ghost use Rattle.std.specs.Prelude.{◌≡◌, Some, None, OnOk, OnErr, IfOk, IfErr};
ghost use Rattle.fuse_spec.specs.Kernel.Kernel.{forgets_read};
ghost use Rattle.fuse_spec.specs.Kernel.QueueCalls.{after_read_forgets};
ghost use Rattle.fuse_spec.specs.Kernel.Refusals.{or_no_memory};
ghost use Rattle.fk_kernel.specs.Refused.{read_forgets_refusal, IsForgetFrame};

use crate::kernel::KernelOf;
use fk_calls::may_batch_forgets;
use fk_lookup_count::CountTable;
use fk_queues::{Forgets, QueueTable};
use fuse_frames::RequestFrame;
use fuse_spec::{Purpose, Refusal};

impl<Q: QueueTable<Purpose>, C: CountTable<Heap = Q::Heap>> KernelOf<Q, C> {
    /// The first forgets that may be read as one frame, with its number.
    fn first_forgets(&self, count: u64) -> Option<(u64, Forgets)>
        ensures { result ≡ forgets_read self.now count }
    {
        if may_batch_forgets(self.minor, count) {
            self.queues.first_forgets(count as usize)
        } else {
            None
        }
    }

    /// The first forgets, with the number of their frame, or why they cannot be read.
    fn forgets_to_read(&self, count: u64) -> Result<(u64, Forgets), Refusal>
        ensures refusal { IfErr result (λ refusal. read_forgets_refusal self.now count ≡ Some refusal) }
        ensures judged { OnOk result (read_forgets_refusal self.now count ≡ None) }
        ensures read { IfOk result (λ read. forgets_read self.now count ≡ Some read) }
    {
        if !self.is_live() {
            return Err(Refusal::NotReady);
        }
        if self.queues.first_interrupt().is_some() {
            return Err(Refusal::InterruptFirst);
        }
        let Some(read) = self.first_forgets(count) else {
            return Err(Refusal::NoSuch);
        };
        if self.queues.numbers_left() == 0 {
            return Err(Refusal::Exhausted);
        }
        Ok(read)
    }

    /// Why this many forgets cannot be read as one frame, out of memory aside: `NotReady` where the mount is not live,
    /// `InterruptFirst` while an INTERRUPT is queued, `NoSuch` for 0, for more than 64 and for more than are queued,
    /// and for more than 1 after 7.15, `Exhausted` where no number is left.
    pub(crate) fn read_forgets_refusal(&self, count: u64) -> Option<Refusal>
        ensures { result ≡ read_forgets_refusal self.now count }
    {
        match self.forgets_to_read(count) {
            Ok(_) => None,
            Err(refusal) => Some(refusal),
        }
    }

    /// Reads this many of the first forgets as one frame, which allocates a number: a FORGET for 1, a BATCH_FORGET for
    /// more.
    ///
    /// # Errors
    ///
    /// As `read_forgets_refusal`; then `NoMemory`. The kernel is as before.
    pub(crate) fn read_forgets(&mut self, count: u64) -> Result<RequestFrame<Q::Heap>, Refusal>
        ensures err { OnErr result (self.new ≡ self.old) }
        ensures refusal { IfErr result (λ refusal. refusal ≡ or_no_memory (read_forgets_refusal self.old count)) }
        ensures judged { OnOk result (read_forgets_refusal self.old count ≡ None) }
        ensures frame { IfOk result (λ frame. IsForgetFrame self.old count frame) }
        ensures read { OnOk result (self.new ≡ record self.old { queues = after_read_forgets self.old.queues count }) }
    {
        let (unique, forgets) = self.forgets_to_read(count)?;
        let Ok(frame) = RequestFrame::forgets(self.alloc, unique, forgets.as_slice()) else {
            return Err(Refusal::NoMemory);
        };
        let _read = self.queues.read_forgets(count as usize);
        Ok(frame)
    }
}
