//! Which tables a world stands on.

use fk_lookup_count::{CountTable, KernelNodes, ListCounts};
use fk_queues::{ListQueues, QueueTable, Queues};
use fs_nodes::{ListNodes, NodeStore, NodeTable};
use fuse_spec::Purpose;
use std::alloc::{Allocator, Global};
use std::marker::PhantomData;

/// The tables of one kernel and one server. What a world says and proves names none of them.
pub trait Tables {
    /// Where their room comes from.
    type Heap: Allocator + Copy;

    /// The kernel's requests, pending and in processing, its interrupts and its forgets.
    type Queues: QueueTable<Purpose, Heap = Self::Heap>;

    /// The nodes that the kernel counts.
    type Counts: CountTable<Heap = Self::Heap>;

    /// The nodes that the server holds.
    type Nodes: NodeStore<Heap = Self::Heap>;
}

/// Maps and slabs: one of `n` entries is found in log `n` steps at most, whatever numbers a peer picks.
pub struct Maps<A = Global> {
    heap: PhantomData<A>,
}

impl<A: Allocator + Copy> Tables for Maps<A> {
    type Heap = A;

    type Queues = Queues<Purpose, A>;

    type Counts = KernelNodes<A>;

    type Nodes = NodeTable<A>;
}

/// Plain lists: simple to read, and slow where a table is large.
pub struct Lists<A = Global> {
    heap: PhantomData<A>,
}

impl<A: Allocator + Copy> Tables for Lists<A> {
    type Heap = A;

    type Queues = ListQueues<Purpose, A>;

    type Counts = ListCounts<A>;

    type Nodes = ListNodes<A>;
}
