//! How replies are taken that name a file: by an entry, by a file handle, or by both.

ghost use Rattle.std.specs.Prelude.{◌≡◌, ◌≢◌, ◌<◌, ◌^◌, ◌+◌, [], ◌∷◌, ◌≤◌, ◌%◌, ℕ, length, List, Some, None, Ok, OnOk, OnErr, IfOk, IfErr, true, false, is_some, nat_eq};
ghost use Rattle.fuse_spec.specs.Calls.Answers.{failed};
ghost use Rattle.fuse_spec.specs.Values.Maps.{get, remove};
ghost use Rattle.fuse_spec.specs.Calls.Vfs.{CallState as State, walking, doing, asked, answered, bound};
ghost use Rattle.fuse_spec.specs.Calls.Walks.{WalkPlan};
ghost use Rattle.fuse_spec.specs.Values.Numbers.{counter_end, max_validity};
ghost use Rattle.fuse_spec.specs.Files.Operations as reply;
ghost use Rattle.fuse_spec.specs.Files.Operations.{entry_place, opening};
ghost use Rattle.fuse_spec.specs.Calls.Paths.{Name};
ghost use Rattle.fuse_spec.specs.Kernel.Replies.{usable, use_of, counted_more, looked_up, reply_written};
ghost use Rattle.fuse_spec.specs.declared.Opened.{Opened as OpenedFile};
ghost use Rattle.fuse_spec.specs.Kernel.Refusals.{is_kernel_past_end, is_counted_out};
ghost use Rattle.fuse_spec.specs.Kernel.QueueCalls.{after_forget, waiting, without};
ghost use Rattle.std.specs.Option.{ForSome};
ghost use Rattle.fuse_spec.specs.Values.Maps.{Place, put_name};
ghost use Rattle.fk_kernel.specs.Entries.{Awaits, StandsAtLookup, Makes, Creates, IsOpening, nodes_after_reply};
ghost use Rattle.fk_nodes.specs.Uses.{use_meant};
ghost use Rattle.fk_queues.specs.Room.{KeepsRoom};

use crate::kernel::KernelOf;
use crate::queue_room::{reserve_forgets, reserve_request};
use fk_calls::{StoredAnswer, bind_missing};
use fk_dentry::Bindings;
use fk_lookup_count::CountTable;
use fk_nodes::{CountedNodes, EntryUse};
use fk_queues::QueueTable;
use fk_syscalls::{Answer, CallState, Next};
use fuse_spec::errno::{EIO, ENOENT};
use fuse_spec::{Entry, Opened, Operation, Purpose, Refusal, WriteResult};
use fuse_tables::Table;
use std::alloc::Allocator;

/// The name that a call looks up or makes leads to the node of an entry until a time. One lookup more of the node is
/// counted, and its forget has room.
///
/// # Errors
///
/// `NoMemory`. Only room was made.
#[inline(always)]
fn bind_entry<Q: QueueTable<Purpose>, C: CountTable>(
    calls: &Table<CallState<Q::Heap>, Q::Heap>,
    queues: &mut Q,
    names: &mut Bindings<Q::Heap>,
    nodes: &mut CountedNodes<C>,
    call: u64,
    entry: &Entry,
    until: u64,
) -> Result<(), Refusal>
    requires alike { ForSome (get nodes.old entry.now.nodeid) (λ counted. counted.generation ≡ entry.now.generation) }
    requires fits { ForSome (get nodes.old entry.now.nodeid) (λ counted. counted.count + 1 < 2 ^ 64) }
    requires names_one { (state : State OpenedFile) × (place : Place) × (get calls.now.entries call ≡ Some state)
        × (entry_place (asked state) ≡ Some place) }
    ensures state { Q.state queues.new ≡ Q.state queues.old }
    ensures kept { KeepsRoom (Q.room queues.old) (Q.room queues.new) }
    ensures room { OnOk result (length nodes.old + 1 ≤ (Q.room queues.new).forgets) }
    ensures refusal { IfErr result (λ refusal. refusal ≡ Refusal.NoMemory) }
    ensures err_names { OnErr result (names.new.names ≡ names.old.names) }
    ensures err_nodes { OnErr result (nodes.new ≡ nodes.old) }
    ensures names { OnOk result ((state : State OpenedFile) (place : Place) → get calls.now.entries call ≡ Some state
        → entry_place (asked state) ≡ Some place → names.new.names
        ≡ put_name names.old.names place (record { target = Some entry.now.nodeid; until = until })) }
    ensures nodes { OnOk result (nodes.new ≡ looked_up nodes.old (entry.now ∷ [])) }
{
    reserve_forgets(queues, nodes, 1)?;
    let Some(waiting) = calls.get(call) else {
        return Ok(());
    };
    let asked = waiting.asks();
    let Some((directory, name)) = asked.entry_place() else {
        return Ok(());
    };
    let name = *name;
    let Ok(was) = names.bind(directory, name, Some(entry.nodeid), until) else {
        return Err(Refusal::NoMemory);
    };
    let Ok(()) = nodes.count_lookup(entry) else {
        names.restore(directory, name, was);
        return Err(Refusal::NoMemory);
    };
    Ok(())
}

/// Whether a call that stands so looks up a word.
pub(crate) fn looks_up<A: Allocator + Copy>(state: &CallState<A>) -> bool
    ensures looks { result ≡ true → StandsAtLookup (Some state.now) }
    ensures other { result ≡ false → (directory : ℕ) (word : Name) (words : List Name) (plan : WalkPlan ℕ)
        → Some state.now ≢ Some (walking directory word words plan) }
{
    matches!(state.asks(), Operation::Lookup { .. })
}

/// The node of the file that a call that stands so opens.
fn node_opened_by<A: Allocator + Copy>(state: &CallState<A>) -> u64
    ensures { (node : ℕ) → state.now ≡ doing (opening node) → result ≡ node }
{
    let Operation::Open { node } = state.asks() else {
        return 0;
    };
    node
}

impl<Q: QueueTable<Purpose>, C: CountTable<Heap = Q::Heap>> KernelOf<Q, C> {
    /// What a reply with an entry says reaches the call: it has to name a file that can be used.
    pub(crate) fn entry_found(
        &mut self,
        unique: u64,
        call: u64,
        entry: &Entry,
        valid_ms: u64,
    ) -> Result<(), Refusal>
        requires even { nat_eq (unique % 2) 1 ≡ false }
        requires waits { waiting self.old.queues unique ≡ Some (Purpose.Call call) }
        requires awaits { Awaits (get self.old.vfs.calls call) (reply.found entry.now valid_ms) }
        requires day { valid_ms ≤ max_validity }
        requires within { is_kernel_past_end (reply_written self.old unique (reply.found entry.now valid_ms)).1 ≡ false }
        requires counts { is_counted_out (nodes_after_reply self.old.nodes (reply.found entry.now valid_ms)) ≡ false }
        ensures err { OnErr result (self.new ≡ self.old) }
        ensures refusal { IfErr result (λ refusal. refusal ≡ Refusal.NoMemory) }
        ensures ok { OnOk result (reply_written self.old unique (reply.found entry.now valid_ms)
            ≡ (WriteResult.Accepted, self.new)) }
    {
        match self.use_of(entry) {
            EntryUse::Usable => {
                if self.looks_up(call) {
                    self.walk_on(unique, call, entry, valid_ms)
                } else {
                    self.name_is_made(unique, call, entry, valid_ms)
                }
            }
            EntryUse::InvalidNodeid => {
                self.answer_call(unique, call, Answer::Failed { errno: EIO });
                Ok(())
            }
            EntryUse::Stale => self.give_back(unique, call, entry.nodeid),
        }
    }

    /// What a reply to a CREATE says reaches the call: where the entry cannot be used the file handle is dropped
    /// without a RELEASE.
    pub(crate) fn file_created(
        &mut self,
        unique: u64,
        call: u64,
        entry: &Entry,
        valid_ms: u64,
        fh: u64,
    ) -> Result<(), Refusal>
        requires even { nat_eq (unique % 2) 1 ≡ false }
        requires waits { waiting self.old.queues unique ≡ Some (Purpose.Call call) }
        requires creates { Creates (get self.old.vfs.calls call) }
        requires day { valid_ms ≤ max_validity }
        requires counts { is_counted_out (nodes_after_reply self.old.nodes (reply.created entry.now valid_ms fh)) ≡ false }
        ensures err { OnErr result (self.new ≡ self.old) }
        ensures refusal { IfErr result (λ refusal. refusal ≡ Refusal.NoMemory) }
        ensures ok { OnOk result (reply_written self.old unique (reply.created entry.now valid_ms fh)
            ≡ (WriteResult.Accepted, self.new)) }
    {
        match self.use_of(entry) {
            EntryUse::Usable => self.file_is_made(unique, call, entry, valid_ms, fh),
            EntryUse::InvalidNodeid => {
                self.answer_call(unique, call, Answer::Failed { errno: EIO });
                Ok(())
            }
            EntryUse::Stale => self.give_back(unique, call, entry.nodeid),
        }
    }

    /// Whether a call looks up a word.
    pub(crate) fn looks_up(&self, call: u64) -> bool
        ensures looks { result ≡ true → StandsAtLookup (get self.now.vfs.calls call) }
        ensures other { result ≡ false → (directory : ℕ) (word : Name) (words : List Name) (plan : WalkPlan ℕ)
            → get self.now.vfs.calls call ≢ Some (walking directory word words plan) }
    {
        let Some(waiting) = self.calls.get(call) else {
            return false;
        };
        looks_up(waiting)
    }

    /// Whether an entry can be used.
    pub(crate) fn use_of(&self, entry: &Entry) -> EntryUse
        ensures { use_meant entry.now.nodeid result ≡ use_of self.now.nodes entry.now }
    {
        self.nodes.use_of(entry)
    }

    /// The one lookup of an entry that cannot be used is forgotten at once, and the call is answered EIO.
    fn give_back(&mut self, unique: u64, call: u64, node: u64) -> Result<(), Refusal>
        requires waits { waiting self.old.queues unique ≡ Some (Purpose.Call call) }
        requires unanswered { is_some (get self.old.vfs.calls call) ≡ true }
        ensures err { OnErr result (self.new ≡ self.old) }
        ensures refusal { IfErr result (λ refusal. refusal ≡ Refusal.NoMemory) }
        ensures ok { OnOk result (self.new ≡ record self.old {
          vfs = answered self.old.vfs call (failed 5);
          queues = after_forget (without self.old.queues unique) node 1;
        }) }
    {
        self.forget_one(node)?;
        self.answer_call(unique, call, Answer::Failed { errno: EIO });
        Ok(())
    }

    /// Queues a forget of one lookup of a node.
    fn forget_one(&mut self, node: u64) -> Result<(), Refusal>
        ensures err { OnErr result (self.new ≡ self.old) }
        ensures refusal { IfErr result (λ refusal. refusal ≡ Refusal.NoMemory) }
        ensures ok { OnOk result (self.new ≡ record self.old { queues = after_forget self.old.queues node 1 }) }
    {
        reserve_forgets(&mut self.queues, &self.nodes, 1)?;
        self.queues.forget(node, 1);
        Ok(())
    }

    /// The word that a call looks up leads to the node of an entry, for this many milliseconds from now on. The call
    /// walks on.
    fn walk_on(
        &mut self,
        unique: u64,
        call: u64,
        entry: &Entry,
        valid_ms: u64,
    ) -> Result<(), Refusal>
        requires even { nat_eq (unique % 2) 1 ≡ false }
        requires waits { waiting self.old.queues unique ≡ Some (Purpose.Call call) }
        requires looks_up { StandsAtLookup (get self.old.vfs.calls call) }
        requires usable { use_of self.old.nodes entry.now ≡ usable }
        requires fits { (counted_more entry.now (get self.old.nodes entry.now.nodeid)).count < counter_end }
        requires day { valid_ms ≤ max_validity }
        requires within { is_kernel_past_end (reply_written self.old unique (reply.found entry.now valid_ms)).1 ≡ false }
        ensures err { OnErr result (self.new ≡ self.old) }
        ensures refusal { IfErr result (λ refusal. refusal ≡ Refusal.NoMemory) }
        ensures ok { OnOk result (reply_written self.old unique (reply.found entry.now valid_ms)
            ≡ (WriteResult.Accepted, self.new)) }
    {
        reserve_request(&mut self.queues, &self.closing)?;
        let until = self.clock.saturating_add(valid_ms);
        let (queues, names, nodes) = (&mut self.queues, &mut self.names, &mut self.nodes);
        bind_entry(&self.calls, queues, names, nodes, call, entry, until)?;
        let _kept = self.queues.answer(unique);
        let Some(state) = self.calls.remove(call) else {
            return Ok(());
        };
        match state.advance(&self.names, self.clock, entry.nodeid) {
            Next::Ask(state) => {
                let _unique = self.queues.enqueue(Purpose::Call(call));
                self.calls.put(call, state);
            }
            Next::Answer { errno } => {
                self.answers
                    .put(call, StoredAnswer::new(Answer::Failed { errno }));
            }
        }
        Ok(())
    }

    /// The name that a call has made leads to the node of an entry, for this many milliseconds from now on. The call is
    /// answered that it is done.
    fn name_is_made(
        &mut self,
        unique: u64,
        call: u64,
        entry: &Entry,
        valid_ms: u64,
    ) -> Result<(), Refusal>
        requires even { nat_eq (unique % 2) 1 ≡ false }
        requires waits { waiting self.old.queues unique ≡ Some (Purpose.Call call) }
        requires makes { Makes (get self.old.vfs.calls call) }
        requires usable { use_of self.old.nodes entry.now ≡ usable }
        requires fits { (counted_more entry.now (get self.old.nodes entry.now.nodeid)).count < counter_end }
        requires day { valid_ms ≤ max_validity }
        ensures err { OnErr result (self.new ≡ self.old) }
        ensures refusal { IfErr result (λ refusal. refusal ≡ Refusal.NoMemory) }
        ensures ok { OnOk result (reply_written self.old unique (reply.found entry.now valid_ms)
            ≡ (WriteResult.Accepted, self.new)) }
    {
        let until = self.clock.saturating_add(valid_ms);
        let (queues, names, nodes) = (&mut self.queues, &mut self.names, &mut self.nodes);
        bind_entry(&self.calls, queues, names, nodes, call, entry, until)?;
        self.answer_call(unique, call, Answer::Done);
        Ok(())
    }

    /// The new file of a call leads to the node of an entry, for this many milliseconds from now on, and is open under
    /// the call's number. The call is answered that it is done.
    fn file_is_made(
        &mut self,
        unique: u64,
        call: u64,
        entry: &Entry,
        valid_ms: u64,
        fh: u64,
    ) -> Result<(), Refusal>
        requires even { nat_eq (unique % 2) 1 ≡ false }
        requires waits { waiting self.old.queues unique ≡ Some (Purpose.Call call) }
        requires creates { Creates (get self.old.vfs.calls call) }
        requires usable { use_of self.old.nodes entry.now ≡ usable }
        requires fits { (counted_more entry.now (get self.old.nodes entry.now.nodeid)).count < counter_end }
        requires day { valid_ms ≤ max_validity }
        ensures err { OnErr result (self.new ≡ self.old) }
        ensures refusal { IfErr result (λ refusal. refusal ≡ Refusal.NoMemory) }
        ensures ok { OnOk result (reply_written self.old unique (reply.created entry.now valid_ms fh)
            ≡ (WriteResult.Accepted, self.new)) }
    {
        let Ok(()) = self.opens.reserve(1) else {
            return Err(Refusal::NoMemory);
        };
        let until = self.clock.saturating_add(valid_ms);
        let (queues, names, nodes) = (&mut self.queues, &mut self.names, &mut self.nodes);
        bind_entry(&self.calls, queues, names, nodes, call, entry, until)?;
        let nodeid = entry.nodeid;
        let _kept = self.queues.answer(unique);
        let _state = self.calls.remove(call);
        self.opens.put(call, Opened { nodeid, fh });
        self.answers.put(call, StoredAnswer::new(Answer::Done));
        Ok(())
    }

    /// The file that a call opens is open under the call's number. The call is answered that it is done.
    pub(crate) fn file_is_open(&mut self, unique: u64, call: u64, fh: u64) -> Result<(), Refusal>
        requires even { nat_eq (unique % 2) 1 ≡ false }
        requires waits { waiting self.old.queues unique ≡ Some (Purpose.Call call) }
        requires opens { IsOpening (get self.old.vfs.calls call) }
        ensures err { OnErr result (self.new ≡ self.old) }
        ensures refusal { IfErr result (λ refusal. refusal ≡ Refusal.NoMemory) }
        ensures ok { OnOk result (reply_written self.old unique (reply.opened fh) ≡ (WriteResult.Accepted, self.new)) }
    {
        let nodeid = self.node_opened(call);
        let Ok(()) = self.opens.reserve(1) else {
            return Err(Refusal::NoMemory);
        };
        let _kept = self.queues.answer(unique);
        let _state = self.calls.remove(call);
        self.opens.put(call, Opened { nodeid, fh });
        self.answers.put(call, StoredAnswer::new(Answer::Done));
        Ok(())
    }

    /// The node of the file that a call opens.
    fn node_opened(&self, call: u64) -> u64
        requires opens { IsOpening (get self.now.vfs.calls call) }
        ensures { (node : ℕ) → get self.now.vfs.calls call ≡ Some (doing (opening node)) → result ≡ node }
    {
        let Some(waiting) = self.calls.get(call) else {
            return 0;
        };
        node_opened_by(waiting)
    }

    /// The word that a call looks up is missing for this many milliseconds from now on, and the call is answered that
    /// no such file is there.
    pub(crate) fn word_is_missing(
        &mut self,
        unique: u64,
        call: u64,
        valid_ms: u64,
    ) -> Result<(), Refusal>
        requires even { nat_eq (unique % 2) 1 ≡ false }
        requires waits { waiting self.old.queues unique ≡ Some (Purpose.Call call) }
        requires looks_up { StandsAtLookup (get self.old.vfs.calls call) }
        requires day { valid_ms ≤ max_validity }
        ensures err { OnErr result (self.new ≡ self.old) }
        ensures refusal { IfErr result (λ refusal. refusal ≡ Refusal.NoMemory) }
        ensures ok { OnOk result (reply_written self.old unique (reply.missing valid_ms)
            ≡ (WriteResult.Accepted, self.new)) }
    {
        self.name_is_missing(call, valid_ms)?;
        self.answer_call(unique, call, Answer::Failed { errno: ENOENT });
        Ok(())
    }

    /// The word that a call looks up is missing for this many milliseconds from now on.
    fn name_is_missing(&mut self, call: u64, valid_ms: u64) -> Result<(), Refusal>
        requires day { valid_ms ≤ max_validity }
        ensures err { OnErr result (self.new ≡ self.old) }
        ensures refusal { IfErr result (λ refusal. refusal ≡ Refusal.NoMemory) }
        ensures bound { OnOk result ((directory : ℕ) (word : Name) (words : List Name) (plan : WalkPlan ℕ)
            → get self.old.vfs.calls call ≡ Some (walking directory word words plan)
            → self.new ≡ record self.old { vfs = bound self.old.vfs directory word None valid_ms }) }
    {
        let Some(waiting) = self.calls.get(call) else {
            return Ok(());
        };
        let Operation::Lookup { directory, name } = waiting.asks() else {
            return Ok(());
        };
        let names = &mut self.names;
        let Ok(()) = bind_missing(names, directory, name, self.clock, valid_ms) else {
            return Err(Refusal::NoMemory);
        };
        Ok(())
    }
}
