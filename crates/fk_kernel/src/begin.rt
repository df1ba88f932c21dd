//! How a call begins.

ghost use Rattle.std.specs.Prelude.{length, ◌≡◌, ◌<◌, ◌≤◌, ◌+◌, None, Ok, OnOk, OnErr, IfOk, IfErr, true, false, cond, nat_eq};
ghost use Rattle.fuse_spec.specs.Kernel.Uniques.{numbers_left_from};
ghost use Rattle.fuse_spec.specs.declared.Opened.{Opened as OpenedFile};
ghost use Rattle.fuse_spec.specs.Kernel.Kernel.{is_aborted, call_begun, call_put};
ghost use Rattle.fuse_spec.specs.Kernel.Refusals.{is_ready, or_no_memory};
ghost use Rattle.fuse_spec.specs.Calls.Vfs.{CallState as State, begun, asking, answered, numbered};
ghost use Rattle.fk_syscalls.specs.Values.{comes_to, call_of, answer_of, ClosesNone};
ghost use Rattle.fk_kernel.specs.Refused.{begin_refusal, begun_refusal};
ghost use Rattle.fuse_spec.specs.Kernel.QueueCalls.{after_enqueue};
ghost use Rattle.fuse_spec.specs.Values.Numbers.{counter_end, max_calls};
ghost use Rattle.fk_queues.specs.Room.{KeepsRoom};

use crate::kernel::KernelOf;
use crate::queue_room::reserve_request;
use fk_calls::{StoredAnswer, is_full};
use fk_lookup_count::CountTable;
use fk_queues::QueueTable;
use fk_syscalls::{Answer, Call, CallState, Next, begin};
use fuse_spec::errno::ENOTCONN;
use fuse_spec::limits::{COUNTER_END, MAX_CALLS};
use fuse_spec::{Opened, Purpose, Refusal};
use fuse_tables::Table;

/// Makes room for one call more and its request, which has a number, and for the answer of each call.
///
/// # Errors
///
/// `Exhausted` where no number is left; then `NoMemory`. Only room was made.
#[inline(always)]
fn reserve_call<Q: QueueTable<Purpose>>(
    calls: &mut Table<CallState<Q::Heap>, Q::Heap>,
    answers: &mut Table<StoredAnswer<Q::Heap>, Q::Heap>,
    queues: &mut Q,
    closing: &Table<Opened, Q::Heap>,
) -> Result<(), Refusal>
    ensures calls { calls.new.entries ≡ calls.old.entries }
    ensures answers { answers.new.entries ≡ answers.old.entries }
    ensures state { Q.state queues.new ≡ Q.state queues.old }
    ensures answers_kept { answers.old.room ≤ answers.new.room }
    ensures queues_kept { KeepsRoom (Q.room queues.old) (Q.room queues.new) }
    ensures calls_room { OnOk result (1 ≤ calls.new.room) }
    ensures answers_room { OnOk result (max_calls ≤ answers.new.room) }
    ensures queues_room { OnOk result (length closing.now.entries + 1 ≤ (Q.room queues.new).requests) }
    ensures refusal { IfErr result (λ refusal. refusal
        ≡ cond (nat_eq (numbers_left_from (Q.state queues.old).next) 0) Refusal.Exhausted Refusal.NoMemory) }
    ensures left { OnOk result (0 < numbers_left_from (Q.state queues.old).next) }
{
    if queues.numbers_left() == 0 {
        return Err(Refusal::Exhausted);
    }
    let Ok(()) = answers.reserve(MAX_CALLS) else {
        return Err(Refusal::NoMemory);
    };
    let Ok(()) = calls.reserve(1) else {
        return Err(Refusal::NoMemory);
    };
    reserve_request(queues, closing)
}

impl<Q: QueueTable<Purpose>, C: CountTable<Heap = Q::Heap>> KernelOf<Q, C> {
    /// Begins a call and gives its number. It is answered at once, or its first request is queued. Where files may not
    /// be listed with their names, the names are listed alone.
    ///
    /// # Errors
    ///
    /// `NotReady` before INIT is answered, `Full` with 64 unanswered calls, `Exhausted` where no number is left; then
    /// `NoMemory`. The kernel is as before.
    pub fn begin(&mut self, call: &Call<'_>) -> Result<u64, Refusal>
        ensures err { OnErr result (self.new ≡ self.old) }
        ensures refusal { IfErr result (λ refusal. refusal ≡ or_no_memory (begin_refusal self.old (call_of call.now))) }
        ensures judged { OnOk result (begin_refusal self.old (call_of call.now) ≡ None) }
        ensures number { IfOk result (λ n. n ≡ self.old.vfs.next_call) }
        ensures begun { OnOk result (self.new ≡ call_put self.old (call_of call.now)) }
    {
        if !self.is_ready() {
            return Err(Refusal::NotReady);
        }
        if is_full(&self.calls) {
            return Err(Refusal::Full);
        }
        if self.next_call >= COUNTER_END {
            return Err(Refusal::Exhausted);
        }
        let put = call.for_minor(self.lists_files);
        self.begin_next(&put)
    }

    /// A call of the next number begins: it is answered at once, or it asks its first request.
    fn begin_next(&mut self, call: &Call<'_>) -> Result<u64, Refusal>
        requires number { self.old.vfs.next_call < counter_end }
        requires few { length self.old.vfs.calls < max_calls }
        requires ready { is_ready self.old.phase ≡ true }
        ensures err { OnErr result (self.new ≡ self.old) }
        ensures refusal { IfErr result (λ refusal. refusal ≡ or_no_memory (begun_refusal self.old (call_of call.now))) }
        ensures judged { OnOk result (begun_refusal self.old (call_of call.now) ≡ None) }
        ensures number { IfOk result (λ n. n ≡ self.old.vfs.next_call) }
        ensures begun { OnOk result (self.new ≡ call_begun self.old (call_of call.now)) }
    {
        self.queues.lemma_sound();
        if self.is_aborted() {
            return self.begin_answered(Answer::Failed { errno: ENOTCONN });
        }
        if let Call::Close { open_call } = call {
            return self.begin_close(*open_call);
        }
        match self.start_walk(call)? {
            Next::Answer { errno } => self.begin_answered(Answer::Failed { errno }),
            Next::Ask(state) => self.begin_asking(state),
        }
    }

    /// How far a call gets along the cached names.
    fn start_walk(&self, call: &Call<'_>) -> Result<Next<Q::Heap>, Refusal>
        requires not_aborted { is_aborted self.now.phase ≡ false }
        requires closes_none { ClosesNone call.now }
        ensures begun { IfOk result (λ next. begun (is_aborted self.now.phase) self.now.vfs (call_of call.now)
            ≡ comes_to (numbered self.now.vfs) self.now.vfs.next_call next) }
        ensures asks { OnErr result ((state : State OpenedFile)
            × (begun (is_aborted self.now.phase) self.now.vfs (call_of call.now)
            ≡ asking (numbered self.now.vfs) self.now.vfs.next_call state)) }
        ensures refusal { IfErr result (λ refusal. refusal
            ≡ cond (nat_eq (numbers_left_from self.now.queues.next) 0) Refusal.Exhausted Refusal.NoMemory) }
    {
        match begin(self.alloc, &self.names, self.clock, &self.opens, call) {
            Ok(next) => Ok(next),
            Err(_) => Err(self.no_room_to_ask()),
        }
    }

    /// Why a call that has no memory to ask is refused: first that no number is left for its request.
    fn no_room_to_ask(&self) -> Refusal
        ensures { result ≡ cond (nat_eq (numbers_left_from self.now.queues.next) 0) Refusal.Exhausted Refusal.NoMemory }
    {
        if self.queues.numbers_left() == 0 {
            Refusal::Exhausted
        } else {
            Refusal::NoMemory
        }
    }

    /// A call of the next number begins and is answered at once.
    pub(crate) fn begin_answered(&mut self, answer: Answer<Q::Heap>) -> Result<u64, Refusal>
        requires number { self.old.vfs.next_call < counter_end }
        requires few { length self.old.vfs.calls < max_calls }
        ensures err { OnErr result (self.new ≡ self.old) }
        ensures refusal { IfErr result (λ refusal. refusal ≡ Refusal.NoMemory) }
        ensures number { IfOk result (λ n. n ≡ self.old.vfs.next_call) }
        ensures vfs { OnOk result (self.new.vfs ≡ answered (numbered self.old.vfs) self.old.vfs.next_call
            (answer_of answer)) }
        ensures same { OnOk result (self.new ≡ record self.old { vfs = self.new.vfs }) }
    {
        let Ok(()) = self.answers.reserve(MAX_CALLS) else {
            return Err(Refusal::NoMemory);
        };
        let call = self.next_call;
        self.answers.put(call, StoredAnswer::new(answer));
        self.next_call = call + 1;
        Ok(call)
    }

    /// A call of the next number begins, and its first request is queued.
    fn begin_asking(&mut self, state: CallState<Q::Heap>) -> Result<u64, Refusal>
        requires number { self.old.vfs.next_call < counter_end }
        requires few { length self.old.vfs.calls < max_calls }
        requires ready { is_ready self.old.phase ≡ true }
        requires not_aborted { is_aborted self.old.phase ≡ false }
        ensures err { OnErr result (self.new ≡ self.old) }
        ensures refusal { IfErr result (λ refusal. refusal
            ≡ cond (nat_eq (numbers_left_from self.old.queues.next) 0) Refusal.Exhausted Refusal.NoMemory) }
        ensures number { IfOk result (λ n. n ≡ self.old.vfs.next_call) }
        ensures left { OnOk result (0 < numbers_left_from self.old.queues.next) }
        ensures vfs { OnOk result (self.new.vfs ≡ (asking (numbered self.old.vfs) self.old.vfs.next_call state).vfs) }
        ensures queues { OnOk result (self.new.queues ≡ after_enqueue self.old.queues
            (Purpose.Call self.old.vfs.next_call)) }
        ensures same { OnOk result (self.new ≡ record self.old { vfs = self.new.vfs; queues = self.new.queues }) }
    {
        let (calls, answers) = (&mut self.calls, &mut self.answers);
        reserve_call(calls, answers, &mut self.queues, &self.closing)?;
        let call = self.next_call;
        let _unique = self.queues.enqueue(Purpose::Call(call));
        self.calls.put(call, state);
        self.next_call = call + 1;
        Ok(call)
    }
}
