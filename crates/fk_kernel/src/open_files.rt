//! Open files: how they are closed and released, and what uses them.

ghost use Rattle.std.specs.Prelude.{◌≡◌, ◌<◌, None, Some, true, false, is_some, length, OnOk, OnErr, IfOk, IfErr};
ghost use Rattle.fuse_spec.specs.Calls.Calls as call;
ghost use Rattle.fuse_spec.specs.declared.Opened.{Opened as OpenedFile};
ghost use Rattle.fuse_spec.specs.Kernel.Kernel.{is_aborted, is_used, released_if_idle, after_use, call_begun};
ghost use Rattle.fuse_spec.specs.Values.Maps.{get};
ghost use Rattle.fuse_spec.specs.Kernel.QueueCalls.{waiting, without};
ghost use Rattle.fuse_spec.specs.Kernel.Refusals.{is_ready, or_no_memory};
ghost use Rattle.fuse_spec.specs.Kernel.Uniques.{numbers_left_from};
ghost use Rattle.fuse_spec.specs.Calls.Vfs.{CallState as State, answered};
ghost use Rattle.fuse_spec.specs.Values.Numbers.{counter_end, max_calls};
ghost use Rattle.fk_syscalls.specs.States.{used_by};
ghost use Rattle.fk_syscalls.specs.Values.{answer_of};
ghost use Rattle.fk_kernel.specs.Entries.{HasUniqueForRelease, LacksUniqueForRelease};
ghost use Rattle.fk_kernel.specs.Refused.{begun_refusal};
ghost use Rattle.fk_kernel.specs.Soundness.{requests_for};

use crate::kernel::KernelOf;
use crate::queue_room::reserve_request;
use fk_calls::{StoredAnswer, is_in_other_use, is_in_use};
use fk_lookup_count::CountTable;
use fk_queues::QueueTable;
use fk_syscalls::Answer;
use fuse_spec::errno::EBADF;
use fuse_spec::limits::MAX_CALLS;
use fuse_spec::{Opened, Purpose, Refusal};

impl<Q: QueueTable<Purpose>, C: CountTable<Heap = Q::Heap>> KernelOf<Q, C> {
    /// A call of the next number closes an open file: it is answered at once. The RELEASE is queued unless a read or
    /// write of the file is unanswered.
    pub(crate) fn begin_close(&mut self, open_call: u64) -> Result<u64, Refusal>
        requires number { self.old.vfs.next_call < counter_end }
        requires few { length self.old.vfs.calls < max_calls }
        requires ready { is_ready self.old.phase ≡ true }
        requires not_aborted { is_aborted self.old.phase ≡ false }
        ensures err { OnErr result (self.new ≡ self.old) }
        ensures refusal { IfErr result (λ refusal. refusal
            ≡ or_no_memory (begun_refusal self.old (call.close open_call))) }
        ensures judged { OnOk result (begun_refusal self.old (call.close open_call) ≡ None) }
        ensures number { IfOk result (λ n. n ≡ self.old.vfs.next_call) }
        ensures begun { OnOk result (self.new ≡ call_begun self.old (call.close open_call)) }
    {
        self.queues.lemma_sound();
        let Some(opened) = self.opens.get(open_call) else {
            return self.begin_answered(Answer::Failed { errno: EBADF });
        };
        let opened = *opened;
        if is_in_use(self.calls.rows(), open_call) {
            self.close_in_use(open_call, opened)
        } else {
            self.close_idle(open_call, opened)
        }
    }

    /// A close of an open file of which no read or write is unanswered.
    fn close_idle(&mut self, open_call: u64, opened: Opened) -> Result<u64, Refusal>
        requires number { self.old.vfs.next_call < counter_end }
        requires few { length self.old.vfs.calls < max_calls }
        requires ready { is_ready self.old.phase ≡ true }
        requires not_aborted { is_aborted self.old.phase ≡ false }
        requires open { get self.old.vfs.opens open_call ≡ Some opened }
        requires idle { is_used self.old open_call ≡ false }
        ensures err { OnErr result (self.new ≡ self.old) }
        ensures refusal { IfErr result (λ refusal. refusal
            ≡ or_no_memory (begun_refusal self.old (call.close open_call))) }
        ensures judged { OnOk result (begun_refusal self.old (call.close open_call) ≡ None) }
        ensures number { IfOk result (λ n. n ≡ self.old.vfs.next_call) }
        ensures begun { OnOk result (self.new ≡ call_begun self.old (call.close open_call)) }
    {
        if self.queues.numbers_left() == 0 {
            return Err(Refusal::Exhausted);
        }
        let Ok(()) = self.answers.reserve(MAX_CALLS) else {
            return Err(Refusal::NoMemory);
        };
        reserve_request(&mut self.queues, &self.closing)?;
        let call = self.next_call;
        let _file = self.opens.remove(open_call);
        let _unique = self.queues.enqueue(Purpose::Release(opened));
        self.answers.put(call, StoredAnswer::new(Answer::Done));
        self.next_call = call + 1;
        Ok(call)
    }

    /// A close of an open file of which a read or write is unanswered.
    fn close_in_use(&mut self, open_call: u64, opened: Opened) -> Result<u64, Refusal>
        requires number { self.old.vfs.next_call < counter_end }
        requires few { length self.old.vfs.calls < max_calls }
        requires ready { is_ready self.old.phase ≡ true }
        requires not_aborted { is_aborted self.old.phase ≡ false }
        requires open { get self.old.vfs.opens open_call ≡ Some opened }
        requires used { is_used self.old open_call ≡ true }
        ensures err { OnErr result (self.new ≡ self.old) }
        ensures refusal { IfErr result (λ refusal. refusal
            ≡ or_no_memory (begun_refusal self.old (call.close open_call))) }
        ensures judged { OnOk result (begun_refusal self.old (call.close open_call) ≡ None) }
        ensures number { IfOk result (λ n. n ≡ self.old.vfs.next_call) }
        ensures begun { OnOk result (self.new ≡ call_begun self.old (call.close open_call)) }
    {
        self.queues.lemma_sound();
        let Ok(()) = self.answers.reserve(MAX_CALLS) else {
            return Err(Refusal::NoMemory);
        };
        let Ok(()) = self.closing.reserve(1) else {
            return Err(Refusal::NoMemory);
        };
        reserve_request(&mut self.queues, &self.closing)?;
        let call = self.next_call;
        let _file = self.opens.remove(open_call);
        self.closing.put(open_call, opened);
        self.answers.put(call, StoredAnswer::new(Answer::Done));
        self.next_call = call + 1;
        Ok(call)
    }

    /// Queues the RELEASE of a closed file of which no read or write is unanswered. Takes no memory.
    fn release_if_idle(&mut self, open_call: u64)
        requires { is_some (get self.old.closing open_call) ≡ true → is_used self.old open_call ≡ false
            → 0 < numbers_left_from self.old.queues.next }
        ensures { self.new ≡ released_if_idle self.old open_call }
    {
        if is_in_use(self.calls.rows(), open_call) {
            return;
        }
        let Some(opened) = self.closing.remove(open_call) else {
            return;
        };
        let _unique = self.queues.enqueue(Purpose::Release(opened));
    }

    /// The call's request ends, and the call is answered. A closed file that it read or wrote is released. Takes no
    /// memory.
    #[inline(always)]
    pub(crate) fn end_call(&mut self, unique: u64, call: u64, answer: Answer<Q::Heap>)
        requires waits { waiting self.old.queues unique ≡ Some (Purpose.Call call) }
        requires unanswered { is_some (get self.old.vfs.calls call) ≡ true }
        requires within { HasUniqueForRelease self.old call }
        ensures { (state : State OpenedFile) → get self.old.vfs.calls call ≡ Some state
            → self.new ≡ after_use (record self.old {
              vfs = answered self.old.vfs call (answer_of answer);
              queues = without self.old.queues unique;
            }) state }
    {
        let _kept = self.queues.answer(unique);
        self.finish_use(call, answer);
    }

    /// The call, whose request is gone, is answered. A closed file that it read or wrote is released. Takes no memory.
    #[inline(always)]
    pub(crate) fn finish_use(&mut self, call: u64, answer: Answer<Q::Heap>)
        requires unanswered { is_some (get self.old.vfs.calls call) ≡ true }
        requires ended { requests_for call self.old.queues ≡ 0 }
        requires within { HasUniqueForRelease self.old call }
        ensures { (state : State OpenedFile) → get self.old.vfs.calls call ≡ Some state
            → self.new ≡ after_use (record self.old { vfs = answered self.old.vfs call (answer_of answer) }) state }
    {
        let open_call = self.used_by(call);
        self.finish(call, answer);
        if let Some(open_call) = open_call {
            self.release_if_idle(open_call);
        }
    }

    /// The open file that a call reads or writes, by its number.
    fn used_by(&self, call: u64) -> Option<u64>
        ensures used { (state : State OpenedFile) → get self.now.vfs.calls call ≡ Some state → result ≡ used_by state }
        ensures none { get self.now.vfs.calls call ≡ None → result ≡ None }
    {
        let Some(waiting) = self.calls.get(call) else {
            return None;
        };
        waiting.open_call()
    }

    /// Whether the end of a call would let a closed file go, for whose RELEASE no number is left.
    #[inline(always)]
    pub(crate) fn unique_overflows(&self, call: u64) -> bool
        ensures past { result ≡ true → LacksUniqueForRelease self.now call }
        ensures within { result ≡ false → HasUniqueForRelease self.now call }
    {
        if self.queues.numbers_left() != 0 {
            return false;
        }
        let Some(open_call) = self.used_by(call) else {
            return false;
        };
        if self.closing.get(open_call).is_none() {
            return false;
        }
        !is_in_other_use(self.calls.rows(), call, open_call)
    }
}
