//! How the reply to a call's request is taken.

ghost use Rattle.std.specs.Prelude.{◌≡◌, ◌≤◌, ◌%◌, ℕ, map, Some, OnOk, OnErr, IfOk, IfErr, true, false, nat_eq};
ghost use Rattle.fk_wire.specs.ReplyFaults.{IsReplyHead};
ghost use Rattle.fuse_spec.specs.Values.Maps.{get};
ghost use Rattle.fuse_spec.specs.Files.Operations as reply;
ghost use Rattle.fuse_spec.specs.Kernel.QueueCalls.{waiting};
ghost use Rattle.fuse_spec.specs.Kernel.Replies.{reply_written};
ghost use Rattle.fuse_spec.specs.declared.Opened.{Opened as OpenedFile};
ghost use Rattle.fk_kernel.specs.Entries.{Awaits, HasUniqueForRelease, nodes_after_reply};
ghost use Rattle.fuse_spec.specs.Kernel.Refusals.{is_counted_out, is_kernel_past_end};
ghost use Rattle.fk_kernel.specs.Refused.{IsWriteRefusal, PassesEnd};
ghost use Rattle.fuse_frames.specs.ReplyDecoding.{decoded_wire_of, LastsADay};
ghost use Rattle.fk_kernel.specs.AwaitedReplies.{Says, IsNoReply, awaited_by_call, wrong_body, IsReplyWritten};
ghost use Rattle.fk_wire.specs.Records.{records_in};
ghost use Rattle.fuse_frames.specs.ReplyTies.{dirent_read};
ghost use Rattle.fuse_spec.specs.Kernel.Messages.{WireReply};
ghost use Rattle.fuse_spec.specs.Values.Numbers.{max_validity};

use crate::kernel::KernelOf;
use fk_calls::{result_of, unbind};
use fk_lookup_count::CountTable;
use fk_nodes::names_of_dirents;
use fk_queues::QueueTable;
use fk_syscalls::{Answer, CallState};
use fk_wire::{Opcode, Records, ReplyHead, read_reply_body};
use fuse_frames::{DecodedReply, Reply};
use fuse_spec::errno::EIO;
use fuse_spec::{Purpose, Refusal, WriteResult};

impl<Q: QueueTable<Purpose>, C: CountTable<Heap = Q::Heap>> KernelOf<Q, C> {
    /// A reply to the request of a call. Bytes that do not go with what it asked answer it EIO.
    pub(crate) fn write_to_call(
        &mut self,
        head: ReplyHead,
        call: u64,
        bytes: &[u8],
    ) -> Result<WriteResult, Refusal>
        requires head { IsReplyHead bytes.now head }
        requires even { nat_eq (head.unique % 2) 1 ≡ false }
        requires waits { waiting self.old.queues head.unique ≡ Some (Purpose.Call call) }
        ensures err { OnErr result (self.new ≡ self.old) }
        ensures refusal { IfErr result (IsWriteRefusal self.old head.unique bytes.now
            (awaited_by_call (get self.old.vfs.calls call))) }
        ensures memory { IfErr result (λ refusal. refusal ≡ Refusal.NoMemory
            → PassesEnd self.old head.unique bytes.now (awaited_by_call (get self.old.vfs.calls call)) → ⊥) }
        ensures taken { IfOk result (λ written. IsReplyWritten self.old head.unique bytes.now
            (awaited_by_call (get self.old.vfs.calls call)) written self.new) }
    {
        let state = self.waiting_call(call);
        let said = match self.reply_to_call(head, call, state, bytes) {
            Ok(said) => said,
            Err(refusal) => return Err(refusal),
        };
        let written = result_of(said.is_some());
        let Some(said) = said else {
            self.end_call(head.unique, call, Answer::Failed { errno: EIO });
            return Ok(written);
        };
        match self.replied(head.unique, call, said) {
            Ok(()) => Ok(written),
            Err(refusal) => Err(refusal),
        }
    }

    /// How a call stands whose request was read: it is unanswered, as each call that has a request.
    pub(crate) fn waiting_call(&self, call: u64) -> &CallState<Q::Heap>
        requires waits { (unique : ℕ) × (waiting self.now.queues unique ≡ Some (Purpose.Call call)) }
        ensures { get self.now.vfs.calls call ≡ Some result.now }
    {
        self.calls.get(call).unwrap()
    }

    /// What a reply says that goes with what a call asked reaches the call.
    fn replied(&mut self, unique: u64, call: u64, said: DecodedReply<'_>) -> Result<(), Refusal>
        requires even { nat_eq (unique % 2) 1 ≡ false }
        requires waits { waiting self.old.queues unique ≡ Some (Purpose.Call call) }
        requires awaits { Awaits (get self.old.vfs.calls call) (decoded_wire_of said) }
        requires day { LastsADay said }
        requires ends { HasUniqueForRelease self.old call }
        requires within { is_kernel_past_end (reply_written self.old unique (decoded_wire_of said)).1 ≡ false }
        requires counts { is_counted_out (nodes_after_reply self.old.nodes (decoded_wire_of said)) ≡ false }
        ensures err { OnErr result (self.new ≡ self.old) }
        ensures refusal { IfErr result (λ refusal. refusal ≡ Refusal.NoMemory) }
        ensures ok { OnOk result (reply_written self.old unique (decoded_wire_of said.entry)
            ≡ (WriteResult.Accepted, self.new)) }
    {
        match said {
            Reply::Failed { errno } => {
                self.end_call(unique, call, Answer::Failed { errno });
                Ok(())
            }
            Reply::Attributes(attributes) => {
                self.end_call(unique, call, Answer::Attributes(attributes));
                Ok(())
            }
            Reply::Written { size } => {
                self.end_call(unique, call, Answer::Written { size });
                Ok(())
            }
            Reply::Listed(records) => self.listed(unique, call, records),
            Reply::ListedPlus(pairs) => self.pairs_listed(unique, call, pairs),
            Reply::Content(bytes) => self.content_read(unique, call, bytes),
            Reply::Done => {
                self.names_go(unique, call);
                Ok(())
            }
            Reply::Negative { valid_ms } => self.name_missing(unique, call, valid_ms),
            Reply::Entry { file, valid_ms } => self.entry_found(unique, call, &file, valid_ms),
            Reply::Created { file, valid_ms, fh } => {
                self.file_created(unique, call, &file, valid_ms, fh)
            }
            Reply::Opened { fh } => self.file_is_open(unique, call, fh),
            // to INIT alone
            Reply::Agreed { .. } => unreachable!(),
        }
    }

    /// The call is answered the names that a directory lists.
    fn listed(&mut self, unique: u64, call: u64, records: Records<'_>) -> Result<(), Refusal>
        requires even { nat_eq (unique % 2) 1 ≡ false }
        requires waits { waiting self.old.queues unique ≡ Some (Purpose.Call call) }
        requires awaits { Awaits (get self.old.vfs.calls call) (reply.listed (map dirent_read (records_in records))) }
        requires within { HasUniqueForRelease self.old call }
        ensures err { OnErr result (self.new ≡ self.old) }
        ensures refusal { IfErr result (λ refusal. refusal ≡ Refusal.NoMemory) }
        ensures ok { OnOk result (reply_written self.old unique
            (reply.listed (map dirent_read (records_in records.entry))) ≡ (WriteResult.Accepted, self.new)) }
    {
        let Ok(names) = names_of_dirents(self.alloc, records) else {
            return Err(Refusal::NoMemory);
        };
        self.end_call(unique, call, Answer::Listing(names));
        Ok(())
    }

    /// The call is answered the bytes of a file.
    fn content_read(&mut self, unique: u64, call: u64, bytes: &[u8]) -> Result<(), Refusal>
        requires even { nat_eq (unique % 2) 1 ≡ false }
        requires waits { waiting self.old.queues unique ≡ Some (Purpose.Call call) }
        requires awaits { Awaits (get self.old.vfs.calls call) (reply.content bytes.now) }
        requires within { HasUniqueForRelease self.old call }
        ensures err { OnErr result (self.new ≡ self.old) }
        ensures refusal { IfErr result (λ refusal. refusal ≡ Refusal.NoMemory) }
        ensures ok { OnOk result (reply_written self.old unique (reply.content bytes.now)
            ≡ (WriteResult.Accepted, self.new)) }
    {
        let Ok(content) = bytes.to_vec(self.alloc) else {
            return Err(Refusal::NoMemory);
        };
        self.end_call(unique, call, Answer::Content(content));
        Ok(())
    }

    /// The names that a call took away or moved are cached no longer, and the call is answered that it is done.
    fn names_go(&mut self, unique: u64, call: u64)
        requires even { nat_eq (unique % 2) 1 ≡ false }
        requires waits { waiting self.old.queues unique ≡ Some (Purpose.Call call) }
        requires awaits { Awaits (get self.old.vfs.calls call) reply.done }
        ensures { reply_written self.old unique reply.done ≡ (WriteResult.Accepted, self.new) }
    {
        unbind(&self.calls, &mut self.names, call);
        self.answer_call(unique, call, Answer::Done);
    }

    /// The name that a call looks up is missing; to any other call an entry that names no node is no use.
    fn name_missing(&mut self, unique: u64, call: u64, valid_ms: u64) -> Result<(), Refusal>
        requires even { nat_eq (unique % 2) 1 ≡ false }
        requires waits { waiting self.old.queues unique ≡ Some (Purpose.Call call) }
        requires awaits { Awaits (get self.old.vfs.calls call) (reply.missing valid_ms) }
        requires day { valid_ms ≤ max_validity }
        ensures err { OnErr result (self.new ≡ self.old) }
        ensures refusal { IfErr result (λ refusal. refusal ≡ Refusal.NoMemory) }
        ensures ok { OnOk result (reply_written self.old unique (reply.missing valid_ms)
            ≡ (WriteResult.Accepted, self.new)) }
    {
        if self.looks_up(call) {
            self.word_is_missing(unique, call, valid_ms)
        } else {
            self.answer_call(unique, call, Answer::Failed { errno: EIO });
            Ok(())
        }
    }

    /// A reply to the RELEASE of an open file: the request ends, whatever the bytes are.
    pub(crate) fn write_to_release(&mut self, head: ReplyHead, bytes: &[u8]) -> WriteResult
        requires head { IsReplyHead bytes.now head }
        requires even { nat_eq (head.unique % 2) 1 ≡ false }
        requires waits { (opened : OpenedFile) × (waiting self.old.queues head.unique ≡ Some (Purpose.Release opened)) }
        ensures said { (wire : WireReply) → Says Opcode.Release bytes.now wire
            → reply_written self.old head.unique wire ≡ (result, self.new) }
        ensures unsaid { IsNoReply Opcode.Release bytes.now
            → reply_written self.old head.unique wrong_body ≡ (result, self.new) }
    {
        let _kept = self.queues.answer(head.unique);
        let Ok(_) = read_reply_body(head, Opcode::Release, bytes) else {
            return WriteResult::Invalid;
        };
        WriteResult::Accepted
    }
}
