//! How calls are answered, and what the writer of a reply gets.

ghost use Rattle.std.specs.Prelude.{◌≡◌, ◌≢◌, ◌+◌, ◌<◌, ◌≤◌, ◌↔◌, ℕ, IsTrue, None, T, cond, length};
ghost use Rattle.std.specs.FinMap.{is_sorted};
ghost use Rattle.std.specs.Ordering.{nat_cmp};
ghost use Rattle.fuse_spec.specs.Calls.Answers.{failed};
ghost use Rattle.fuse_spec.specs.Values.Maps.{get, put, remove};
ghost use Rattle.fuse_spec.specs.Values.Numbers.{econnaborted};
ghost use Rattle.fuse_spec.specs.Calls.Vfs.{all_answered};
ghost use Rattle.fk_syscalls.specs.Values.{answer_of};

use crate::stored_answer::StoredAnswer;
use fk_syscalls::{Answer, CallState};
use fuse_spec::errno::ECONNABORTED;
use fuse_spec::{IntrEffect, WriteResult};
use fuse_tables::Table;
use std::alloc::Allocator;

/// A call is answered: it waits no longer, and its answer is there to be collected. Takes no memory.
#[inline(always)]
pub fn answer<A: Allocator + Copy>(
    calls: &mut Table<CallState<A>, A>,
    answers: &mut Table<StoredAnswer<A>, A>,
    call: u64,
    answer: Answer<A>,
)
    requires absent { get answers.old.entries call ≡ None }
    requires room { 0 < answers.old.room }
    ensures calls { calls.new.entries ≡ remove calls.old.entries call }
    ensures answers { answers.new.entries ≡ put answers.old.entries call (answer_of answer) }
    ensures room { answers.old.room ≤ answers.new.room + 1 }
{
    let _state = calls.remove(call);
    answers.put(call, StoredAnswer::new(answer));
}

/// Answers each of these calls that its connection was aborted. Takes no memory.
pub fn answer_all<A: Allocator + Copy>(
    calls: &[(u64, CallState<A>)],
    answers: &mut Table<StoredAnswer<A>, A>,
)
    requires sorted { T (is_sorted nat_cmp calls.now) }
    requires absent { (call : ℕ) → get calls.now call ≢ None → get answers.old.entries call ≡ None }
    requires room { length calls.now ≤ answers.old.room }
    ensures { answers.new.entries ≡ all_answered (failed econnaborted) calls.now answers.old.entries }
{
    let mut left = calls;
    while let [before @ .., (call, _)] = left {
        let answer = Answer::Failed {
            errno: ECONNABORTED,
        };
        answers.put(*call, StoredAnswer::new(answer));
        left = before;
    }
}

/// Whether a call is answered EINTR by a signal of this effect: its request left the list unread (fuse.rst).
pub fn is_interrupted(effect: IntrEffect) -> bool
    ensures { IsTrue result ↔ (effect ≡ IntrEffect.Dequeued) }
{
    matches!(effect, IntrEffect::Dequeued)
}

/// What the writer of an awaited reply gets, by whether its body goes with the request.
pub fn result_of(goes: bool) -> WriteResult
    ensures { result ≡ cond goes WriteResult.Accepted WriteResult.Invalid }
{
    if goes {
        WriteResult::Accepted
    } else {
        WriteResult::Invalid
    }
}
