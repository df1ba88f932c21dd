//! How requests are read.

ghost use Rattle.std.specs.Prelude.{◌≡◌, ◌<◌, ◌+◌, Some, None, Ok, OnOk, OnErr, IfOk, IfErr, true, ◌≢◌, is_some};
ghost use Rattle.fuse_spec.specs.Kernel.Kernel.{is_live, body_of};
ghost use Rattle.fuse_spec.specs.Values.Maps.{get};
ghost use Rattle.fuse_spec.specs.Kernel.Refusals.{or_no_memory};
ghost use Rattle.fk_kernel.specs.Refused.{read_refusal, IsPendingRequest};
ghost use Rattle.fuse_spec.specs.Kernel.QueueCalls.{after_read_pending, pending_at, waiting};

use crate::kernel::KernelOf;
use fk_lookup_count::CountTable;
use fk_queues::QueueTable;
use fuse_frames::RequestFrame;
use fuse_spec::{Purpose, Refusal};

impl<Q: QueueTable<Purpose>, C: CountTable<Heap = Q::Heap>> KernelOf<Q, C> {
    /// The pending request at a place, with its number, or why it cannot be read. It has something to ask: that of a
    /// call is that of an unanswered call.
    #[inline(always)]
    fn request_to_read(&self, place: u64) -> Result<(u64, Purpose), Refusal>
        ensures refusal { IfErr result (λ refusal. read_refusal self.now place ≡ Some refusal) }
        ensures judged { OnOk result (read_refusal self.now place ≡ None) }
        ensures pending { IfOk result (λ request. pending_at self.now.queues place ≡ Some request) }
        ensures asks { IfOk result (λ request. is_some (body_of self.now request.1) ≡ true) }
    {
        if !self.is_live() {
            return Err(Refusal::NotReady);
        }
        if self.queues.first_interrupt().is_some() {
            return Err(Refusal::InterruptFirst);
        }
        let Some((unique, purpose)) = self.queues.pending(place as usize) else {
            return Err(Refusal::NoSuch);
        };
        Ok((unique, *purpose))
    }

    /// Why the pending request at a place cannot be read, out of memory aside: `NotReady` where the mount is not live,
    /// `InterruptFirst` while an INTERRUPT is queued, `NoSuch` where no request is pending there.
    pub(crate) fn read_pending_refusal(&self, place: u64) -> Option<Refusal>
        ensures { result ≡ read_refusal self.now place }
    {
        match self.request_to_read(place) {
            Ok(_) => None,
            Err(refusal) => Some(refusal),
        }
    }

    /// Reads the pending request at a place, counted from 0 in order of queuing. It is in processing from then on.
    ///
    /// # Errors
    ///
    /// `NotReady` where the mount is not live, `InterruptFirst` while an INTERRUPT is queued, `NoSuch` where no request
    /// is pending there; then `NoMemory`. The kernel is as before.
    pub(crate) fn read_pending(&mut self, place: u64) -> Result<RequestFrame<Q::Heap>, Refusal>
        ensures err { OnErr result (self.new ≡ self.old) }
        ensures refusal { IfErr result (λ refusal. refusal ≡ or_no_memory (read_refusal self.old place)) }
        ensures judged { OnOk result (read_refusal self.old place ≡ None) }
        ensures frame { IfOk result (λ frame. IsPendingRequest self.old place frame) }
        ensures read { OnOk result (self.new ≡ record self.old { queues = after_read_pending self.old.queues place }) }
    {
        let (unique, purpose) = self.request_to_read(place)?;
        let room = self.take_spare();
        let frame = self.request_frame(room, unique, purpose)?;
        let _unique = self.queues.read_pending(place as usize);
        Ok(frame)
    }

    /// The frame of a request that has something to ask.
    fn request_frame(
        &self,
        room: Vec<u8, Q::Heap>,
        unique: u64,
        purpose: Purpose,
    ) -> Result<RequestFrame<Q::Heap>, Refusal>
        requires asks { is_some (body_of self.now purpose) ≡ true }
        ensures refusal { IfErr result (λ refusal. refusal ≡ Refusal.NoMemory) }
        ensures unique { IfOk result (λ frame. frame.unique ≡ unique) }
        ensures body { IfOk result (λ frame. body_of self.now purpose ≡ Some frame.body) }
    {
        let frame = match purpose {
            Purpose::Init => RequestFrame::init(room, unique),
            Purpose::Release(opened) => RequestFrame::release(room, unique, opened),
            Purpose::Call(call) => {
                let waiting = self.calls.get(call).unwrap();
                RequestFrame::asks(room, unique, &waiting.asks())
            }
        };
        match frame {
            Ok(frame) => Ok(frame),
            Err(_) => Err(Refusal::NoMemory),
        }
    }
}
