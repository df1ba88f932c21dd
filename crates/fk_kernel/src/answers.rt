//! Answers of calls.

ghost use Rattle.std.specs.Prelude.{length, ◌≡◌, Some, true, find, is_some, option_map};
ghost use Rattle.fuse_spec.specs.Values.Maps.{get};
ghost use Rattle.fuse_spec.specs.Calls.Vfs.{answered};
ghost use Rattle.fk_syscalls.specs.Values.{answer_of};
ghost use Rattle.fuse_spec.specs.Kernel.Kernel.{is_for};
ghost use Rattle.fuse_spec.specs.Kernel.QueueCalls.{waiting, without};
ghost use Rattle.fk_kernel.specs.Soundness.{requests_for};

use crate::kernel::KernelOf;
use fk_lookup_count::CountTable;
use fk_queues::QueueTable;
use fk_syscalls::Answer;
use fuse_spec::Purpose;

impl<Q: QueueTable<Purpose>, C: CountTable<Heap = Q::Heap>> KernelOf<Q, C> {
    /// The call's request ends, and the call is answered.
    pub(crate) fn answer_call(&mut self, unique: u64, call: u64, answer: Answer<Q::Heap>)
        requires waits { waiting self.old.queues unique ≡ Some (Purpose.Call call) }
        requires unanswered { is_some (get self.old.vfs.calls call) ≡ true }
        ensures { self.new ≡ record self.old {
          vfs = answered self.old.vfs call (answer_of answer);
          queues = without self.old.queues unique;
        } }
    {
        let _kept = self.queues.answer(unique);
        self.finish(call, answer);
    }

    /// The call, whose request is gone, is answered.
    #[inline(always)]
    pub(crate) fn finish(&mut self, call: u64, answer: Answer<Q::Heap>)
        requires unanswered { is_some (get self.old.vfs.calls call) ≡ true }
        requires ended { requests_for call self.old.queues ≡ 0 }
        ensures { self.new ≡ record self.old { vfs = answered self.old.vfs call (answer_of answer) } }
    {
        fk_calls::answer(&mut self.calls, &mut self.answers, call, answer);
    }

    /// How many calls are unanswered.
    pub fn unanswered(&self) -> usize
        ensures { result ≡ length self.now.vfs.calls }
    {
        self.calls.len()
    }

    /// How many answers wait to be collected.
    pub fn answered(&self) -> usize
        ensures { result ≡ length self.now.vfs.answers }
    {
        self.answers.len()
    }

    /// The number of the request that serves a call, read or not, if there is one.
    pub fn request_for(&self, call: u64) -> Option<u64>
        ensures { result ≡ option_map (λ e. e.0) (find (λ e. is_for call e.1.kept) self.now.queues.requests) }
    {
        self.queues.request_for(call)
    }
}
