//! Worlds over any tables and sessions over a link in memory, as tests of events see them.

use fuse_spec::NodeCount;
use fw_link::MemoryLink;
use fw_world::{
    Answer, Event, Lists, Maps, Outcome, Record, Refusal, SessionOf, Tables, WorldOf, run,
};
use std::alloc::{AllocError, Allocator};

/// What takes events: a world or a session. Tests of events are generic over it: only here a method is called of a
/// world or of a session, each of which costs more to check than what the tests do with it.
pub(super) trait Machine<A: Allocator + Copy>: Sized {
    fn new(alloc: A) -> Option<Self>;

    fn end(self);

    fn step(&mut self, event: &Event<'_>) -> Result<Outcome, Refusal>;

    fn run(&mut self, events: &[Event<'_>], records: &mut Vec<Record<A>, A>) -> Result<(), usize>;

    fn collect(&mut self) -> Option<(u64, Answer<A>)>;

    fn last_put(&self) -> Option<&[u8]>;

    fn frame_of(&self, outcome: &Outcome) -> Option<&[u8]>;

    fn kernel_nodes(&self) -> Result<Vec<NodeCount, A>, AllocError>;

    fn server_nodes(&self) -> Result<Vec<NodeCount, A>, AllocError>;
}

impl<T: Tables> Machine<T::Heap> for WorldOf<T> {
    fn new(alloc: T::Heap) -> Option<WorldOf<T>> {
        WorldOf::new(alloc).ok()
    }

    fn end(self) {
        WorldOf::end(self);
    }

    fn step(&mut self, event: &Event<'_>) -> Result<Outcome, Refusal> {
        WorldOf::step(self, event)
    }

    fn run(
        &mut self,
        events: &[Event<'_>],
        records: &mut Vec<Record<T::Heap>, T::Heap>,
    ) -> Result<(), usize> {
        run(self, events, records)
    }

    fn collect(&mut self) -> Option<(u64, Answer<T::Heap>)> {
        WorldOf::collect(self)
    }

    fn last_put(&self) -> Option<&[u8]> {
        WorldOf::last_put(self)
    }

    fn frame_of(&self, outcome: &Outcome) -> Option<&[u8]> {
        WorldOf::frame_of(self, outcome)
    }

    fn kernel_nodes(&self) -> Result<Vec<NodeCount, T::Heap>, AllocError> {
        WorldOf::kernel_nodes(self)
    }

    fn server_nodes(&self) -> Result<Vec<NodeCount, T::Heap>, AllocError> {
        WorldOf::server_nodes(self)
    }
}

impl<T: Tables> Machine<T::Heap> for SessionOf<T, MemoryLink<T::Heap>> {
    fn new(alloc: T::Heap) -> Option<SessionOf<T, MemoryLink<T::Heap>>> {
        let link = MemoryLink::new(alloc).ok()?;
        SessionOf::new(alloc, link).ok()
    }

    fn end(self) {
        SessionOf::end(self);
    }

    fn step(&mut self, event: &Event<'_>) -> Result<Outcome, Refusal> {
        SessionOf::step(self, event)
    }

    fn run(
        &mut self,
        events: &[Event<'_>],
        records: &mut Vec<Record<T::Heap>, T::Heap>,
    ) -> Result<(), usize> {
        SessionOf::run(self, events, records)
    }

    fn collect(&mut self) -> Option<(u64, Answer<T::Heap>)> {
        SessionOf::collect(self)
    }

    fn last_put(&self) -> Option<&[u8]> {
        SessionOf::last_put(self)
    }

    fn frame_of(&self, outcome: &Outcome) -> Option<&[u8]> {
        SessionOf::frame_of(self, outcome)
    }

    fn kernel_nodes(&self) -> Result<Vec<NodeCount, T::Heap>, AllocError> {
        SessionOf::kernel_nodes(self)
    }

    fn server_nodes(&self) -> Result<Vec<NodeCount, T::Heap>, AllocError> {
        SessionOf::server_nodes(self)
    }
}

/// What is tried on a new machine of one type.
pub(super) trait MachineTest<A: Allocator + Copy> {
    fn try_on<W: Machine<A>>(&mut self, alloc: A) -> Result<(), AllocError>;
}

/// On a world over any tables.
fn try_on_tables<T: Tables, M: MachineTest<T::Heap>>(
    test: &mut M,
    alloc: T::Heap,
) -> Result<(), AllocError> {
    test.try_on::<WorldOf<T>>(alloc)
}

/// On a world over maps and slabs.
pub(super) fn try_on_world<A: Allocator + Copy, T: MachineTest<A>>(
    test: &mut T,
    alloc: A,
) -> Result<(), AllocError> {
    try_on_tables::<Maps<A>, T>(test, alloc)
}

/// On a world over plain lists.
pub(super) fn try_on_list_world<A: Allocator + Copy, T: MachineTest<A>>(
    test: &mut T,
    alloc: A,
) -> Result<(), AllocError> {
    try_on_tables::<Lists<A>, T>(test, alloc)
}

/// On a session over any tables and a link in memory.
fn try_on_linked_tables<T: Tables, M: MachineTest<T::Heap>>(
    test: &mut M,
    alloc: T::Heap,
) -> Result<(), AllocError> {
    test.try_on::<SessionOf<T, MemoryLink<T::Heap>>>(alloc)
}

/// On a session over maps and slabs, and a link in memory.
pub(super) fn try_on_session<A: Allocator + Copy, T: MachineTest<A>>(
    test: &mut T,
    alloc: A,
) -> Result<(), AllocError> {
    try_on_linked_tables::<Maps<A>, T>(test, alloc)
}
