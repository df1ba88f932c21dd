//! The events of the server's side: a request is taken or performed, a reply sent again, the result of a copy settled.

ghost use Rattle.std.specs.Prelude.{◌≡◌, ◌<◌, ◌++◌, ◌∷◌, [], ℕ, List, true, false, OnErr, IfOk, IfErr, IfSome, length};
ghost use Rattle.std.specs.VecDeque.{deque_len, deque_capacity};
ghost use Rattle.fuse_spec.specs.World.Events as event;
ghost use Rattle.fuse_spec.specs.World.Steps.{Happens, IsRefused, RefusedWith};
ghost use Rattle.fs_server.specs.Effects.{AnswersFrame};
ghost use Rattle.fw_world.specs.Frames.{IsCopyFrame, IsShown};
ghost use Rattle.fw_world.specs.Steps.{IsStep};
ghost use Rattle.fw_world.specs.Values.{outcome_of, refusal_for, with_copy};

use super::SidesOf;
use super::counters::lemma_in_range;
use super::refusals::refusal_or_no_memory;
use crate::event::Outcome;
use crate::tables::Tables;
use fs_nodes::NodeStore;
use fs_server::{ServerFault, ServerOf};
use fuse_frames::Sent;
use fuse_spec::Refusal;
use fuse_tables::take_at;
use std::alloc::Allocator;
use std::collections::VecDeque;

impl<T: Tables> SidesOf<T> {
    pub(super) fn take(&mut self, place: u64) -> Result<Outcome, Refusal>
        ensures { IsStep self.old (event.take place) result self.new }
    {
        let place = place as usize;
        if place >= self.requests.len() {
            return Err(Refusal::NoSuch);
        }
        let bytes = self.requests[place].bytes();
        if !reserve_answer(&mut self.replies, &self.server, bytes) {
            lemma_in_range(&self.kernel, &self.server);
            return Err(Refusal::NoMemory);
        }
        let took = match self.server.take(bytes) {
            Ok(took) => took,
            Err(fault) => {
                lemma_in_range(&self.kernel, &self.server);
                return Err(refusal_of(fault));
            }
        };
        let request = take_at(&mut self.requests, place);
        self.kernel.reuse(request);
        lemma_in_range(&self.kernel, &self.server);
        append_if_any(&mut self.replies, took.sent);
        Ok(Outcome::Taken {
            unique: took.unique,
            word: took.word,
        })
    }

    pub(super) fn perform(&mut self, unique: u64) -> Result<Outcome, Refusal>
        ensures { IsStep self.old (event.perform unique) result self.new }
    {
        if !reserve_reply(&mut self.replies, &self.server) {
            lemma_in_range(&self.kernel, &self.server);
            return Err(refusal_or_no_memory(self.server.perform_refusal(unique)));
        }
        let done = match self.server.perform(unique) {
            Ok(done) => done,
            Err(refusal) => {
                lemma_in_range(&self.kernel, &self.server);
                return Err(refusal);
            }
        };
        lemma_in_range(&self.kernel, &self.server);
        let errno = done.errno;
        let Some(first) = done.sent else {
            return Ok(Outcome::Lost { unique, errno });
        };
        let len = put_reply(&mut self.replies, first);
        Ok(Outcome::Done { unique, errno, len })
    }

    pub(super) fn again(&mut self, unique: u64) -> Result<Outcome, Refusal>
        ensures { IsStep self.old (event.again unique) result self.new }
    {
        if self.replies.reserve(1).is_err() {
            lemma_in_range(&self.kernel, &self.server);
            return Err(refusal_or_no_memory(self.server.again_refusal(unique)));
        }
        let copy = match self.server.again(unique) {
            Ok(copy) => copy,
            Err(refusal) => {
                lemma_in_range(&self.kernel, &self.server);
                return Err(refusal);
            }
        };
        lemma_in_range(&self.kernel, &self.server);
        let len = put_reply(&mut self.replies, copy);
        Ok(Outcome::SentAgain { unique, len })
    }

    pub(super) fn settle(&mut self, place: u64) -> Result<Outcome, Refusal>
        ensures { IsStep self.old (event.settle place) result self.new }
    {
        let place = place as usize;
        if place >= self.results.len() {
            return Err(Refusal::NoSuch);
        }
        let settled = self.results[place];
        if let Err(refusal) = self.server.settle(settled.number, settled.result) {
            return Err(refusal);
        }
        let _settled = take_at(&mut self.results, place);
        Ok(Outcome::Settled {
            unique: settled.unique,
            result: settled.result,
        })
    }
}

/// Makes room for the answer that a request frame gets at once, as only an INTERRUPT may, and says whether there is
/// room.
fn reserve_answer<S: NodeStore>(
    replies: &mut VecDeque<Sent<S::Heap>, S::Heap>,
    server: &ServerOf<S>,
    bytes: &[u8],
) -> bool
    ensures items { replies.new.items ≡ replies.old.items }
    ensures room { result ≡ true → AnswersFrame server.now bytes.now → deque_len replies.new < deque_capacity replies.new }
    ensures answers { result ≡ false → AnswersFrame server.now bytes.now }
{
    if !server.take_answers(bytes) {
        return true;
    }
    replies.reserve(1).is_ok()
}

/// Makes room for the reply to a request that is performed, which has none after an abort, and says whether there is
/// room.
fn reserve_reply<S: NodeStore>(
    replies: &mut VecDeque<Sent<S::Heap>, S::Heap>,
    server: &ServerOf<S>,
) -> bool
    ensures items { replies.new.items ≡ replies.old.items }
    ensures room { result ≡ true → server.now.aborted ≡ false → deque_len replies.new < deque_capacity replies.new }
    ensures live { result ≡ false → server.now.aborted ≡ false }
{
    if server.is_aborted() {
        return true;
    }
    replies.reserve(1).is_ok()
}

/// Puts a copy of a reply onto its link, which has room, and gives its length.
fn put_reply<A: Allocator>(replies: &mut VecDeque<Sent<A>, A>, copy: Sent<A>) -> usize
    requires { deque_len replies.old < deque_capacity replies.old }
    ensures items { replies.new.items ≡ replies.old.items ++ copy ∷ [] }
    ensures len { (bytes : List ℕ) × IsCopyFrame bytes copy × (result ≡ length bytes) }
{
    let len = copy.bytes().len();
    replies.push_back_reserved(copy);
    len
}

/// The copy of a reply goes onto its link, if there is one.
fn append_if_any<A: Allocator>(list: &mut VecDeque<Sent<A>, A>, copy: Option<Sent<A>>)
    requires { IfSome copy (λ copy. deque_len list.old < deque_capacity list.old) }
    ensures { list.new.items ≡ with_copy list.old.items copy }
{
    if let Some(copy) = copy {
        list.push_back_reserved(copy);
    }
}

/// A fault of the server as the refusal of the event that met it.
fn refusal_of(fault: ServerFault) -> Refusal
    ensures { result ≡ refusal_for fault }
{
    match fault {
        ServerFault::Exhausted => Refusal::Exhausted,
        ServerFault::Memory => Refusal::NoMemory,
        ServerFault::Wire
        | ServerFault::UnknownNode
        | ServerFault::TooManyForgets
        | ServerFault::RepeatedUnique => Refusal::NoSuch,
    }
}
