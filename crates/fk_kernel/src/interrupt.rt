//! How calls are signalled.

ghost use Rattle.std.specs.Prelude.{◌≡◌, ℕ, Some, None, OnOk, OnErr, IfOk, IfErr, true, false, is_some};
ghost use Rattle.fuse_spec.specs.Kernel.Kernel.{call_signalled, request_of};
ghost use Rattle.fuse_spec.specs.Values.Maps.{get};
ghost use Rattle.fuse_spec.specs.Kernel.QueueCalls.{interrupt_effect};
ghost use Rattle.fuse_spec.specs.Calls.Vfs.{CallState as State};
ghost use Rattle.fuse_spec.specs.declared.Opened.{Opened};
ghost use Rattle.fk_kernel.specs.Entries.{LacksUniqueForRelease, HasUniqueForRelease};
ghost use Rattle.fk_kernel.specs.Refused.{signal_refusal, IsSignalled};

use crate::kernel::KernelOf;
use fk_calls::is_interrupted;
use fk_lookup_count::CountTable;
use fk_queues::QueueTable;
use fk_syscalls::Answer;
use fuse_spec::errno::EINTR;
use fuse_spec::{IntrEffect, Purpose, Refusal};

impl<Q: QueueTable<Purpose>, C: CountTable<Heap = Q::Heap>> KernelOf<Q, C> {
    /// Signals an unanswered call, fatally or not (fuse.rst). Where its request is unread and the signal is fatal, the
    /// request goes and the call is answered EINTR; a closed file that it would have read or written last is released.
    /// Takes no memory: the answer has its room since the call began, an INTERRUPT since its request was queued, and a
    /// RELEASE since the close.
    ///
    /// # Errors
    ///
    /// `NotReady` where the mount is not live, `NoSuch` where no call of this number is unanswered, `Exhausted` where
    /// no number is left for the RELEASE. The kernel is as before.
    pub fn interrupt(&mut self, call: u64, fatal: bool) -> Result<IntrEffect, Refusal>
        ensures err { OnErr result (self.new ≡ self.old) }
        ensures refusal { IfErr result (λ refusal. signal_refusal self.old call fatal ≡ Some refusal) }
        ensures judged { OnOk result (signal_refusal self.old call fatal ≡ None) }
        ensures signalled { IfOk result (λ effect. IsSignalled self.old call fatal effect self.new) }
    {
        if !self.is_live() {
            return Err(Refusal::NotReady);
        }
        if self.calls.get(call).is_none() {
            return Err(Refusal::NoSuch);
        }
        let Some(unique) = self.queues.request_for(call) else {
            self.lemma_in_range();
            return Ok(IntrEffect::None);
        };
        if self.signal_exceeds(unique, call, fatal) {
            return Err(Refusal::Exhausted);
        }
        let effect = self.signal(unique, call, fatal);
        self.lemma_in_range();
        Ok(effect)
    }

    /// Whether a signal to the request of a call would let a closed file go, for whose RELEASE no number is left.
    fn signal_exceeds(&self, unique: u64, call: u64, fatal: bool) -> bool
        requires current { request_of self.now call ≡ Some unique }
        ensures past { result ≡ true → (interrupt_effect self.now.queues unique fatal ≡ IntrEffect.Dequeued)
            × LacksUniqueForRelease self.now call }
        ensures within { result ≡ false → interrupt_effect self.now.queues unique fatal ≡ IntrEffect.Dequeued
            → HasUniqueForRelease self.now call }
    {
        if !fatal {
            return false;
        }
        if self.queues.waiting(unique).is_some() {
            return false;
        }
        self.unique_overflows(call)
    }

    /// Signals the request of a call that is unanswered.
    fn signal(&mut self, unique: u64, call: u64, fatal: bool) -> IntrEffect
        requires current { request_of self.old call ≡ Some unique }
        requires unanswered { is_some (get self.old.vfs.calls call) ≡ true }
        requires within { interrupt_effect self.old.queues unique fatal ≡ IntrEffect.Dequeued
            → HasUniqueForRelease self.old call }
        ensures { (state : State Opened) → get self.old.vfs.calls call ≡ Some state
            → call_signalled self.old call state fatal ≡ (result, self.new) }
    {
        self.queues.lemma_sound();
        let effect = self.queues.interrupt(unique, fatal);
        if is_interrupted(effect) {
            self.finish_use(call, Answer::Failed { errno: EINTR });
        }
        effect
    }
}
