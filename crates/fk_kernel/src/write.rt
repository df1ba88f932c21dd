//! How replies are taken.

ghost use Rattle.std.specs.Prelude.{◌≡◌, ◌%◌, Some, None, Ok, OnErr, IsOk, IfOk, IfErr, true, false, is_some, nat_eq};
ghost use Rattle.fk_wire.specs.ReplyFaults.{IsReplyHead};
ghost use Rattle.fuse_spec.specs.Kernel.Messages.{WireReply};
ghost use Rattle.fuse_spec.specs.Kernel.Replies.{reply_written, interrupt_reply_of, interrupt_replied};
ghost use Rattle.fk_kernel.specs.AwaitedReplies.{Says, IsNoReply, HasReplyHead, head_unique, awaited, nothing, IsOfNoCall, wrong_body, wrong_body_to, IsReplyWritten};
ghost use Rattle.fk_kernel.specs.Refused.{WriteRefused, WritePasses};
ghost use Rattle.fuse_spec.specs.Kernel.QueueCalls.{after_interrupt_reply, waiting};

use crate::kernel::KernelOf;
use fk_lookup_count::CountTable;
use fk_queues::QueueTable;
use fk_unique::original_of;
use fk_wire::{Opcode, ReplyHead};
use fuse_frames::{Reply, agrees, decode_reply, files_agreed, minor_agreed};
use fuse_spec::errno::{EAGAIN, ENOSYS};
use fuse_spec::{Phase, Purpose, Refusal, WriteResult};

impl<Q: QueueTable<Purpose>, C: CountTable<Heap = Q::Heap>> KernelOf<Q, C> {
    /// Takes any bytes as a reply. A reply to INIT, to a RELEASE or to an INTERRUPT takes no memory.
    ///
    /// # Errors
    ///
    /// Of a reply to the request of a call: `Exhausted` where no number is left for the request that would be queued,
    /// or a node's count would reach the end of counters, as `write_refusal` says; then `NoMemory`. The kernel is as
    /// before.
    pub fn write(&mut self, bytes: &[u8]) -> Result<WriteResult, Refusal>
        ensures err { OnErr result (self.new ≡ self.old) }
        ensures refusal { HasReplyHead bytes.now → IfErr result (WriteRefused self.old bytes.now) }
        ensures memory { IfErr result (λ refusal. refusal ≡ Refusal.NoMemory → WritePasses self.old bytes.now → ⊥) }
        ensures of_no_call { HasReplyHead bytes.now → IsOfNoCall (awaited self.old (head_unique bytes.now))
            → IsOk result }
        ensures headless { (HasReplyHead bytes.now → ⊥) → (result ≡ Ok WriteResult.Invalid) × (self.new ≡ self.old) }
        ensures unawaited { HasReplyHead bytes.now → awaited self.old (head_unique bytes.now) ≡ nothing
            → (result ≡ Ok WriteResult.NoEntry) × (self.new ≡ self.old) }
        ensures taken { HasReplyHead bytes.now → IfOk result
            (λ written. IsReplyWritten self.old (head_unique bytes.now) bytes.now
            (awaited self.old (head_unique bytes.now)) written self.new) }
    {
        let Ok(head) = ReplyHead::read(bytes) else {
            return Ok(WriteResult::Invalid);
        };
        if head.unique % 2 == 1 {
            return Ok(self.write_to_interrupt(original_of(head.unique), head, bytes));
        }
        let Some(purpose) = self.queues.waiting(head.unique) else {
            return Ok(WriteResult::NoEntry);
        };
        match *purpose {
            Purpose::Init => Ok(self.write_to_init(head, bytes)),
            Purpose::Release(_) => Ok(self.write_to_release(head, bytes)),
            Purpose::Call(call) => self.write_to_call(head, call, bytes),
        }
    }

    /// A reply to the INTERRUPT of a request: it counts while that request is read and unanswered (fuse.rst).
    fn write_to_interrupt(&mut self, original: u64, head: ReplyHead, bytes: &[u8]) -> WriteResult
        requires { IsReplyHead bytes.now head }
        ensures unawaited { waiting self.old.queues original ≡ None
            → (result ≡ WriteResult.NoEntry) × (self.new ≡ self.old) }
        ensures said { is_some (waiting self.old.queues original) ≡ true → (wire : WireReply)
            → Says Opcode.Interrupt bytes.now wire → interrupt_replied self.old original wire ≡ (result, self.new) }
        ensures unsaid { is_some (waiting self.old.queues original) ≡ true → IsNoReply Opcode.Interrupt bytes.now
            → interrupt_replied self.old original wrong_body ≡ (result, self.new) }
    {
        if self.queues.waiting(original).is_none() {
            return WriteResult::NoEntry;
        }
        let Some(said) = decode_reply(Opcode::Interrupt, head, bytes) else {
            return WriteResult::Invalid;
        };
        if let Reply::Failed { errno } = said {
            self.interrupt_failed(original, errno);
        }
        WriteResult::Accepted
    }

    /// An INTERRUPT was answered an error: EAGAIN queues it again, and after ENOSYS none is queued any more (fuse.rst).
    fn interrupt_failed(&mut self, original: u64, errno: u32)
        requires { is_some (waiting self.old.queues original) ≡ true }
        ensures { self.new ≡ record self.old {
          queues = after_interrupt_reply self.old.queues original
              (interrupt_reply_of errno);
        } }
    {
        match errno {
            EAGAIN => self.queues.again(original),
            ENOSYS => self.queues.no_interrupts(),
            _ => {}
        }
    }

    /// A reply to INIT: an agreement on 7.15, or on 7.31 or later, makes the mount ready. Any other reply, and bytes
    /// that are none, abort it (this project's rule).
    fn write_to_init(&mut self, head: ReplyHead, bytes: &[u8]) -> WriteResult
        requires head { IsReplyHead bytes.now head }
        requires even { nat_eq (head.unique % 2) 1 ≡ false }
        requires waits { waiting self.old.queues head.unique ≡ Some Purpose.Init }
        ensures said { (wire : WireReply) → Says Opcode.Init bytes.now wire
            → reply_written self.old head.unique wire ≡ (result, self.new) }
        ensures unsaid { IsNoReply Opcode.Init bytes.now
            → reply_written self.old head.unique (wrong_body_to Opcode.Init) ≡ (result, self.new) }
    {
        let Some(said) = decode_reply(Opcode::Init, head, bytes) else {
            self.abandon_all();
            return WriteResult::Invalid;
        };
        if agrees(&said) {
            let _kept = self.queues.answer(head.unique);
            self.minor = minor_agreed(&said);
            self.lists_files = files_agreed(&said);
            self.phase = Phase::Ready;
        } else {
            self.abandon_all();
        }
        WriteResult::Accepted
    }
}
