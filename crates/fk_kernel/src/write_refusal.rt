//! Whether a reply would have a request queued for which no number is left, or bring a node's count to the end of
//! counters.

ghost use Rattle.std.specs.Prelude.{◌≡◌, ◌≤◌, ◌%◌, [], ◌∷◌, Some, IfSome, IfNone, OnOk, OnErr, IfOk, IfErr, true, false, nat_eq};
ghost use Rattle.fk_wire.specs.ReplyFaults.{IsReplyHead};
ghost use Rattle.fuse_spec.specs.Values.Maps.{get};
ghost use Rattle.fuse_spec.specs.Values.Numbers.{max_validity};
ghost use Rattle.fuse_spec.specs.Files.Operations as reply;
ghost use Rattle.fuse_spec.specs.Kernel.QueueCalls.{waiting};
ghost use Rattle.fuse_spec.specs.Kernel.Uniques.{numbers_left_from};
ghost use Rattle.fuse_spec.specs.Calls.Vfs.{asked};
ghost use Rattle.fuse_spec.specs.Kernel.Replies.{usable, first_use, use_of, reply_written};
ghost use Rattle.fk_kernel.specs.Entries.{Awaits, HasUniqueForRelease, StandsAtLookup, looked_up_by_all, nodes_after_reply};
ghost use Rattle.fuse_spec.specs.Kernel.Refusals.{is_counted_out, is_kernel_past, is_kernel_past_end};
ghost use Rattle.fk_kernel.specs.CallReplies.{IsCallReply, SaysNone};
ghost use Rattle.fk_kernel.specs.Refused.{PassesEnd, WritePasses};
ghost use Rattle.fuse_frames.specs.ReplyDecoding.{decoded_wire_of, LastsADay};
ghost use Rattle.fk_kernel.specs.AwaitedReplies.{awaited_by_call};

use crate::entries::looks_up;
use crate::kernel::KernelOf;
use fk_lookup_count::CountTable;
use fk_nodes::EntryUse;
use fk_queues::QueueTable;
use fk_syscalls::{CallState, NewName};
use fk_wire::ReplyHead;
use fuse_frames::{DecodedReply, Reply, reply_to_call};
use fuse_spec::{Entry, Operation, Purpose, Refusal};

impl<Q: QueueTable<Purpose>, C: CountTable<Heap = Q::Heap>> KernelOf<Q, C> {
    /// Why `write` would refuse these bytes, out of memory aside: `Exhausted` where no number is left for the request
    /// that they would have queued, or a node's count would reach the end of counters. Takes no memory.
    pub fn write_refusal(&self, bytes: &[u8]) -> Option<Refusal>
        ensures refused { IfSome result (λ refusal. (refusal ≡ Refusal.Exhausted) × WritePasses self.now bytes.now) }
        ensures none { IfNone result (WritePasses self.now bytes.now → ⊥) }
    {
        self.lemma_in_range();
        self.lemma_counts_in_range();
        let Ok(head) = ReplyHead::read(bytes) else {
            return None;
        };
        if head.unique % 2 == 1 {
            return None;
        }
        let Some(purpose) = self.queues.waiting(head.unique) else {
            return None;
        };
        match *purpose {
            Purpose::Init => None,
            Purpose::Release(_) => None,
            Purpose::Call(call) => {
                if self.call_passes_end(head, call, bytes) {
                    Some(Refusal::Exhausted)
                } else {
                    None
                }
            }
        }
    }

    /// Whether what the bytes say to the request of a call would have one queued for which no number is left, or bring
    /// a node's count to the end of counters.
    fn call_passes_end(&self, head: ReplyHead, call: u64, bytes: &[u8]) -> bool
        requires head { IsReplyHead bytes.now head }
        requires even { nat_eq (head.unique % 2) 1 ≡ false }
        requires waits { waiting self.now.queues head.unique ≡ Some (Purpose.Call call) }
        ensures past { result ≡ true → PassesEnd self.now head.unique bytes.now
            (awaited_by_call (get self.now.vfs.calls call)) }
        ensures within { result ≡ false → PassesEnd self.now head.unique bytes.now
            (awaited_by_call (get self.now.vfs.calls call)) → ⊥ }
    {
        let state = self.waiting_call(call);
        self.reply_to_call(head, call, state, bytes).is_err()
    }

    /// What the bytes say to an unanswered call that stands so, if it goes with what the call asked.
    ///
    /// # Errors
    ///
    /// `Exhausted` where they would have a request queued for which no number is left, or bring a node's count to the
    /// end of counters.
    #[inline(always)]
    pub(crate) fn reply_to_call<'a>(
        &self,
        head: ReplyHead,
        call: u64,
        state: &CallState<Q::Heap>,
        bytes: &'a [u8],
    ) -> Result<Option<DecodedReply<'a>>, Refusal>
        requires head { IsReplyHead bytes.now head }
        requires even { nat_eq (head.unique % 2) 1 ≡ false }
        requires waits { waiting self.now.queues head.unique ≡ Some (Purpose.Call call) }
        requires unanswered { get self.now.vfs.calls call ≡ Some state.now }
        ensures refusal { IfErr result (λ refusal. refusal ≡ Refusal.Exhausted) }
        ensures past { OnErr result (PassesEnd self.now head.unique bytes.now
            (awaited_by_call (get self.now.vfs.calls call))) }
        ensures stays { OnOk result (PassesEnd self.now head.unique bytes.now
            (awaited_by_call (get self.now.vfs.calls call)) → ⊥) }
        ensures ends { OnOk result (HasUniqueForRelease self.now call) }
        ensures said { IfOk result (λ said. IfSome said
            (IsCallReply self.now head.unique call (asked state.now) bytes.now)) }
        ensures none { IfOk result (λ said. IfNone said (SaysNone (asked state.now) bytes.now)) }
    {
        self.lemma_in_range();
        self.lemma_counts_in_range();
        let said = reply_to_call(&state.asks(), head, bytes);
        if self.unique_overflows(call) {
            return Err(Refusal::Exhausted);
        }
        match said {
            Some(said) => {
                if self.reply_exceeds(head.unique, call, state, &said) {
                    return Err(Refusal::Exhausted);
                }
                Ok(Some(said))
            }
            None => Ok(None),
        }
    }

    /// Whether what is said to a call that stands so would bring a node's count to the end of counters, or have a
    /// request queued for which no number is left.
    #[inline(always)]
    fn reply_exceeds(
        &self,
        unique: u64,
        call: u64,
        state: &CallState<Q::Heap>,
        said: &DecodedReply<'_>,
    ) -> bool
        requires even { nat_eq (unique % 2) 1 ≡ false }
        requires waits { waiting self.now.queues unique ≡ Some (Purpose.Call call) }
        requires unanswered { get self.now.vfs.calls call ≡ Some state.now }
        requires awaits { Awaits (get self.now.vfs.calls call) (decoded_wire_of said.now) }
        requires day { LastsADay said.now }
        requires ends { HasUniqueForRelease self.now call }
        ensures past { result ≡ true → is_kernel_past (reply_written self.now unique (decoded_wire_of said.now)).1 ≡ true }
        ensures stays { result ≡ false → is_kernel_past (reply_written self.now unique (decoded_wire_of said.now)).1 ≡ false }
        ensures within { result ≡ false → is_kernel_past_end (reply_written self.now unique (decoded_wire_of said.now)).1 ≡ false }
        ensures counts { result ≡ false → is_counted_out (nodes_after_reply self.now.nodes (decoded_wire_of said.now)) ≡ false }
    {
        if self.counts_exceed(said) {
            return true;
        }
        self.walk_exceeds(unique, call, state, said)
    }

    /// Whether what is said to a call would bring a node's count to the end of counters.
    fn counts_exceed(&self, said: &DecodedReply<'_>) -> bool
        ensures { result ≡ is_counted_out (nodes_after_reply self.now.nodes (decoded_wire_of said.now)) }
    {
        self.lemma_counts_in_range();
        match said {
            Reply::Entry { file, .. } => self.entry_exceeds(file),
            Reply::Created { file, .. } => self.entry_exceeds(file),
            Reply::ListedPlus(pairs) => self.nodes.listed_count_out(*pairs),
            _ => false,
        }
    }

    /// Whether an entry would bring its node's count to the end of counters.
    #[inline(always)]
    fn entry_exceeds(&self, entry: &Entry) -> bool
        ensures { result ≡ is_counted_out (looked_up_by_all self.now.nodes (entry.now ∷ [])
            (first_use (use_of self.now.nodes entry.now) usable)) }
    {
        self.lemma_counts_in_range();
        // Counts are far from their end as a rule: then no node is looked up.
        if !self.nodes.count_overflows(entry) {
            return false;
        }
        matches!(self.use_of(entry), EntryUse::Usable)
    }

    /// Whether a call that stands so and gets this reply would walk on to a request for which no number is left.
    fn walk_exceeds(
        &self,
        unique: u64,
        call: u64,
        state: &CallState<Q::Heap>,
        said: &DecodedReply<'_>,
    ) -> bool
        requires even { nat_eq (unique % 2) 1 ≡ false }
        requires waits { waiting self.now.queues unique ≡ Some (Purpose.Call call) }
        requires unanswered { get self.now.vfs.calls call ≡ Some state.now }
        requires awaits { Awaits (get self.now.vfs.calls call) (decoded_wire_of said.now) }
        requires day { LastsADay said.now }
        requires ends { HasUniqueForRelease self.now call }
        ensures past { result ≡ true → is_kernel_past_end (reply_written self.now unique (decoded_wire_of said.now)).1 ≡ true }
        ensures within { result ≡ false → is_kernel_past_end (reply_written self.now unique (decoded_wire_of said.now)).1 ≡ false }
    {
        self.lemma_in_range();
        match said {
            Reply::Entry { file, valid_ms } => {
                self.found_entry_exceeds(unique, call, state, file, *valid_ms)
            }
            _ => false,
        }
    }

    /// Whether a call that stands so, and is given this entry, would walk on to a request for which no number is left.
    fn found_entry_exceeds(
        &self,
        unique: u64,
        call: u64,
        state: &CallState<Q::Heap>,
        entry: &Entry,
        valid_ms: u64,
    ) -> bool
        requires even { nat_eq (unique % 2) 1 ≡ false }
        requires waits { waiting self.now.queues unique ≡ Some (Purpose.Call call) }
        requires unanswered { get self.now.vfs.calls call ≡ Some state.now }
        requires awaits { Awaits (get self.now.vfs.calls call) (reply.found entry.now valid_ms) }
        requires day { valid_ms ≤ max_validity }
        ensures past { result ≡ true → is_kernel_past_end (reply_written self.now unique (reply.found entry.now valid_ms)).1
            ≡ true }
        ensures within { result ≡ false → is_kernel_past_end (reply_written self.now unique
            (reply.found entry.now valid_ms)).1 ≡ false }
    {
        self.lemma_in_range();
        if self.queues.numbers_left() != 0 {
            return false;
        }
        match self.use_of(entry) {
            EntryUse::Usable => {
                if looks_up(state) {
                    self.next_request_exceeds(unique, call, state, entry, valid_ms)
                } else {
                    false
                }
            }
            EntryUse::InvalidNodeid => false,
            EntryUse::Stale => false,
        }
    }

    /// Whether a call that looks up a word would ask anew from the node of an entry, while no number is left.
    fn next_request_exceeds(
        &self,
        unique: u64,
        call: u64,
        state: &CallState<Q::Heap>,
        entry: &Entry,
        valid_ms: u64,
    ) -> bool
        requires even { nat_eq (unique % 2) 1 ≡ false }
        requires waits { waiting self.now.queues unique ≡ Some (Purpose.Call call) }
        requires unanswered { get self.now.vfs.calls call ≡ Some state.now }
        requires none_left { numbers_left_from self.now.queues.next ≡ 0 }
        requires looks_up { StandsAtLookup (Some state.now) }
        requires usable { use_of self.now.nodes entry.now ≡ usable }
        requires day { valid_ms ≤ max_validity }
        ensures past { result ≡ true → is_kernel_past_end (reply_written self.now unique (reply.found entry.now valid_ms)).1
            ≡ true }
        ensures within { result ≡ false → is_kernel_past_end (reply_written self.now unique
            (reply.found entry.now valid_ms)).1 ≡ false }
    {
        self.lemma_in_range();
        let Operation::Lookup { directory, name } = state.asks() else {
            return false;
        };
        let new = NewName {
            directory,
            name,
            node: entry.nodeid,
            until: self.clock.saturating_add(valid_ms),
        };
        state.would_ask(&self.names, self.clock, &new)
    }
}
