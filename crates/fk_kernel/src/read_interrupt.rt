//! How INTERRUPTs are read.

ghost use Rattle.std.specs.Prelude.{◌≡◌, None, OnOk, OnErr, IfOk, IfErr};
ghost use Rattle.fuse_spec.specs.Kernel.QueueCalls.{after_read_interrupt};
ghost use Rattle.fuse_spec.specs.Kernel.Refusals.{or_no_memory};
ghost use Rattle.fk_kernel.specs.Refused.{read_interrupt_refusal, IsInterruptFrame};

use crate::kernel::KernelOf;
use fk_lookup_count::CountTable;
use fk_queues::QueueTable;
use fk_unique::interrupt_of;
use fuse_frames::RequestFrame;
use fuse_spec::{Purpose, Refusal};

impl<Q: QueueTable<Purpose>, C: CountTable<Heap = Q::Heap>> KernelOf<Q, C> {
    /// Why the oldest INTERRUPT cannot be read, out of memory aside: `NotReady` where the mount is not live, `NoSuch`
    /// where none is queued.
    pub(crate) fn read_interrupt_refusal(&self) -> Option<Refusal>
        ensures { result ≡ read_interrupt_refusal self.now }
    {
        if !self.is_live() {
            return Some(Refusal::NotReady);
        }
        if self.queues.first_interrupt().is_none() {
            return Some(Refusal::NoSuch);
        }
        None
    }

    /// Reads the oldest INTERRUPT, under the number of its request with the lowest bit set (fuse.rst).
    ///
    /// # Errors
    ///
    /// As `read_interrupt_refusal`; then `NoMemory`. The kernel is as before.
    pub(crate) fn read_interrupt(&mut self) -> Result<RequestFrame<Q::Heap>, Refusal>
        ensures err { OnErr result (self.new ≡ self.old) }
        ensures refusal { IfErr result (λ refusal. refusal ≡ or_no_memory (read_interrupt_refusal self.old)) }
        ensures judged { OnOk result (read_interrupt_refusal self.old ≡ None) }
        ensures frame { IfOk result (λ frame. IsInterruptFrame self.old frame) }
        ensures read { OnOk result (self.new ≡ record self.old { queues = after_read_interrupt self.old.queues }) }
    {
        if !self.is_live() {
            return Err(Refusal::NotReady);
        }
        let Some(original) = self.queues.first_interrupt() else {
            return Err(Refusal::NoSuch);
        };
        let room = self.take_spare();
        let Ok(frame) = RequestFrame::interrupt(room, interrupt_of(original), original) else {
            return Err(Refusal::NoMemory);
        };
        let _original = self.queues.read_interrupt();
        Ok(frame)
    }
}
