//! The kernel.

ghost use Rattle.std.specs.Prelude.{◌≡◌, ◌<◌, ◌+◌, [], IfOk, T, false};
ghost use Rattle.fuse_spec.specs.Kernel.Kernel.{is_live, is_aborted};
ghost use Rattle.fuse_spec.specs.Kernel.Refusals.{is_ready, is_counted_out, is_kernel_past_end};
ghost use Rattle.fk_lookup_count.specs.CountedNodes.{listed_counts};
ghost use Rattle.fk_nodes.specs.LookedUp.{HaveCountsInRange};
ghost use Rattle.std.specs.FinMap.{is_sorted};
ghost use Rattle.std.specs.Ordering.{nat_cmp};
ghost use Rattle.fuse_spec.specs.World.Worlds.{first_kernel};
ghost use Rattle.fk_kernel.specs.Soundness.{ServesCalls};

use crate::phase::{is_phase_aborted, is_phase_live, is_phase_ready};
use fk_calls::StoredAnswer;
use fk_dentry::Bindings;
use fk_lookup_count::{CountTable, KernelNodes, ListCounts};
use fk_nodes::CountedNodes;
use fk_opens::OpenFiles;
use fk_queues::{KernelQueues, ListQueues, QueueTable, Queues};
use fk_syscalls::CallState;
use fuse_frames::RequestFrame;
use fuse_spec::{Minor, NodeCount, Opened, Phase, Purpose};
use fuse_tables::Table;
use std::alloc::{AllocError, Global};
use std::marker::Model;
use std::mem::replace;

/// The most bytes of memory that are kept for the next frame.
const MOST_SPARE: usize = 256;

/// The kernel's half of the protocol, over any queues and any table of counted nodes. It accepts system calls, produces
/// request frames, and accepts arbitrary bytes as replies.
#[derive(Drop)]
pub struct KernelOf<Q: QueueTable<Purpose>, C: CountTable<Heap = Q::Heap>> {
    pub(crate) alloc: Q::Heap,
    pub(crate) phase: Phase,
    pub(crate) queues: KernelQueues<Q>,
    pub(crate) calls: Table<CallState<Q::Heap>, Q::Heap>,
    pub(crate) answers: Table<StoredAnswer<Q::Heap>, Q::Heap>,
    /// The open files, by the numbers of the calls that opened them.
    pub(crate) opens: OpenFiles<Q::Heap>,
    /// The closed files of which a read or write is unanswered.
    pub(crate) closing: Table<Opened, Q::Heap>,
    pub(crate) names: Bindings<Q::Heap>,
    pub(crate) nodes: CountedNodes<C>,
    pub(crate) next_call: u64,
    pub(crate) clock: u64,
    /// The minor that INIT agreed on.
    pub(crate) minor: Minor,
    /// Whether files may be listed with their names.
    pub(crate) lists_files: bool,
    /// The memory of a frame that was given back.
    pub(crate) spare: Vec<u8, Q::Heap>,
}

/// The kernel of the program, over maps.
pub type Kernel<A = Global> = KernelOf<Queues<Purpose, A>, KernelNodes<A>>;

/// The kernel over plain lists.
pub type ListKernel<A = Global> = KernelOf<ListQueues<Purpose, A>, ListCounts<A>>;

impl<Q: QueueTable<Purpose>, C: CountTable<Heap = Q::Heap>> Model for KernelOf<Q, C> {
    ghost use Rattle.std.specs.Coded.{codes};
    ghost use Rattle.fuse_spec.specs.Kernel.Kernel.{Kernel as KernelState};
    ghost use Rattle.fk_kernel.specs.Soundness.{IsSoundKernel};

    ghost Value = { KernelState };

    ghost coded = { Prim.hlevel (codes) };

    ghost view = { λ k. record {
      phase = k.phase;
      vfs = record {
        calls = k.calls.entries;
        names = k.names.names;
        opens = k.opens.entries;
        answers = k.answers.entries;
        next_call = k.next_call;
        clock = k.clock;
        root = 1;
      };
      queues = k.queues.queues;
      nodes = k.nodes;
      closing = k.closing.entries;
      minor = k.minor;
      lists_files = k.lists_files;
    } };

    ghost invariant = { λ k. IsSoundKernel k.phase k.calls.entries k.answers.entries k.answers.room k.next_call
        k.opens.entries k.closing.entries k.queues.queues k.queues.room k.nodes k.clock };
}

impl<Q: QueueTable<Purpose>, C: CountTable<Heap = Q::Heap>> KernelOf<Q, C> {
    /// A kernel before its first mount.
    pub fn new(alloc: Q::Heap) -> Self
        ensures { result ≡ first_kernel }
    {
        KernelOf {
            alloc,
            phase: Phase::Down,
            queues: KernelQueues::new(alloc),
            calls: Table::new(alloc),
            answers: Table::new(alloc),
            opens: OpenFiles::new(alloc),
            closing: Table::new(alloc),
            names: Bindings::new(alloc),
            nodes: CountedNodes::new(alloc),
            next_call: 1,
            clock: 0,
            minor: Minor::M15,
            lists_files: false,
            spare: Vec::new(alloc),
        }
    }

    /// Gives back the frame of a request that has reached the server: the next request that is read is written into
    /// its memory. That of a long frame goes.
    pub fn reuse(&mut self, frame: RequestFrame<Q::Heap>)
        ensures { self.new ≡ self.old }
    {
        let room = frame.into_bytes();
        if room.capacity() <= MOST_SPARE {
            self.spare = room;
        }
    }

    /// Room for the frame of a request.
    #[inline(always)]
    pub(crate) fn take_spare(&mut self) -> Vec<u8, Q::Heap>
        ensures { self.new ≡ self.old }
    {
        replace(&mut self.spare, Vec::new(self.alloc))
    }

    /// Ends the kernel. It is a drop, whose parts are so proved in one crate, and not in each that has a kernel.
    pub fn end(self) {
        self.queues.end();
        self.nodes.end();
    }

    /// No counter is past its end. A call without effect, made where a proof rests on that.
    pub fn lemma_in_range(&self)
        ensures { is_kernel_past_end self.now ≡ false }
    {
        self.queues.lemma_sound();
    }

    /// No node's count has reached the end of counters, and nodes stand in rising id. A call without effect, made where
    /// a proof rests on that.
    pub fn lemma_counts_in_range(&self)
        ensures sorted { T (is_sorted nat_cmp self.now.nodes) }
        ensures below { HaveCountsInRange self.now.nodes }
        ensures none_out { is_counted_out self.now.nodes ≡ false }
    {
        self.nodes.lemma_sorted();
    }

    /// Each request of a call is that of an unanswered call, which has one at most. A call without effect, made where a
    /// proof rests on that.
    pub fn lemma_served(&self)
        ensures served { ServesCalls self.now.vfs.calls self.now.queues }
    {
        let _ = &self.calls;
    }

    pub(crate) fn is_live(&self) -> bool
        ensures { result ≡ is_live self.now.phase }
    {
        is_phase_live(self.phase)
    }

    pub(crate) fn is_ready(&self) -> bool
        ensures { result ≡ is_ready self.now.phase }
    {
        is_phase_ready(self.phase)
    }

    pub(crate) fn is_aborted(&self) -> bool
        ensures { result ≡ is_aborted self.now.phase }
    {
        is_phase_aborted(self.phase)
    }

    /// The counted nodes, in rising id.
    ///
    /// # Errors
    ///
    /// Out of memory for the list.
    pub fn nodes(&self, alloc: Q::Heap) -> Result<Vec<NodeCount, Q::Heap>, AllocError>
        ensures { IfOk result (λ nodes. nodes.items ≡ listed_counts self.now.nodes) }
    {
        self.nodes.list(alloc)
    }
}
