//! Held nodes over both representations: each call once, the order of nodeids, and refused growths.

use crate::tests::{are_nodes, assert_right};
use fail_at::{FailAt, Outcome, Tried, first_wrong, judged};
use fs_nodes::{ListNodes, NodeStore, NodeTable, TooMany};
use fuse_spec::limits::COUNTER_END;
use std::alloc::{AllocError, Allocator, Global};
use std::process::Abort;
use std::test::Fail;

/// A call, and what it must give.
#[derive(Clone, Copy)]
enum Row {
    /// Room for ten files is made.
    Reserve,
    /// Room is made and the first lookup of a file counted: its nodeid and generation.
    First(u64, u64, u64),
    /// Room is made and one more lookup counted of a file that has this nodeid.
    Again(u64, u64, u64),
    /// Takes back this many lookups of a nodeid.
    Back(u64, u64, Result<(), TooMany>),
    Clear,
    /// Under a nodeid: its file, its generation and its lookup count.
    Node(u64, u64, u64, u64),
    /// Nothing is held under a nodeid, which no file has.
    Unheld(u64, u64),
    GenerationsLeft(u64),
    /// The nodes in rising nodeid, each with its generation and its lookup count.
    Nodes(&'static [(u64, u64, u64)]),
}

/// Makes room and counts the first lookup of a file, as a server does.
fn give_first<S: NodeStore>(store: &mut S, file: u64) -> Result<(u64, u64), AllocError> {
    store.reserve([file].as_slice())?;
    if store.generations_left() == 0 || store.has(file) {
        return Err(AllocError);
    }
    Ok(store.give(file))
}

/// Makes room and counts one more lookup of a file that has this nodeid.
fn give_again<S: NodeStore>(store: &mut S, file: u64, id: u64) -> Result<(u64, u64), AllocError> {
    store.reserve([file].as_slice())?;
    let Some(its_file) = store.file_of(id) else {
        return Err(AllocError);
    };
    if its_file != file || store.count_of(id) >= COUNTER_END || store.generations_left() == 0 {
        return Err(AllocError);
    }
    // No other node is of this file.
    store.lemma_sound();
    Ok(store.give(file))
}

fn given(node_given: Result<(u64, u64), AllocError>, wanted: (u64, u64)) -> Outcome {
    match node_given {
        Ok(node) => judged(node == wanted),
        Err(AllocError) => Outcome::NoMemory,
    }
}

fn lists<S: NodeStore>(store: &S, heap: S::Heap, wanted: &[(u64, u64, u64)]) -> Outcome {
    match store.nodes(heap) {
        Ok(nodes) => judged(are_nodes(&nodes, wanted)),
        Err(AllocError) => Outcome::NoMemory,
    }
}

fn is_node<S: NodeStore>(store: &S, id: u64, file: u64, generation: u64, count: u64) -> bool {
    store.file_of(id) == Some(file)
        && store.generation_of(id) == Some(generation)
        && store.count_of(id) == count
        && store.has(file)
        && store.holds(id, generation)
}

fn is_unheld<S: NodeStore>(store: &S, id: u64, file: u64) -> bool {
    store.file_of(id).is_none()
        && store.generation_of(id).is_none()
        && store.count_of(id) == 0
        && !store.has(file)
        && !store.holds(id, 0)
}

fn tried<S: NodeStore>(store: &mut S, heap: S::Heap, row: Row) -> Outcome {
    match row {
        Row::Reserve => match store.reserve([0u64; 10].as_slice()) {
            Ok(()) => Outcome::Right,
            Err(AllocError) => Outcome::NoMemory,
        },
        Row::First(file, id, generation) => given(give_first(store, file), (id, generation)),
        Row::Again(file, id, generation) => given(give_again(store, file, id), (id, generation)),
        Row::Back(id, count, taken) => judged(store.take_back(id, count) == taken),
        Row::Clear => {
            store.clear();
            Outcome::Right
        }
        Row::Node(id, file, generation, count) => {
            judged(is_node(store, id, file, generation, count))
        }
        Row::Unheld(id, file) => judged(is_unheld(store, id, file)),
        Row::GenerationsLeft(left) => judged(store.generations_left() == left),
        Row::Nodes(nodes) => lists(store, heap, nodes),
    }
}

impl<A: Allocator + Copy> Tried<Row, A> for NodeTable<A> {
    fn attempt(&mut self, heap: A, _alloc: Global, row: Row) -> Outcome {
        tried(self, heap, row)
    }
}

impl<A: Allocator + Copy> Tried<Row, A> for ListNodes<A> {
    fn attempt(&mut self, heap: A, _alloc: Global, row: Row) -> Outcome {
        tried(self, heap, row)
    }
}

/// The nodeid dropped last comes first, and otherwise 2, 3, 4 and on, anew after `clear`. Generations go on.
static CALLS: [Row; 27] = [
    Row::First(70, 2, 1),
    Row::First(80, 3, 2),
    Row::First(90, 4, 3),
    Row::Again(80, 3, 2),
    Row::Node(3, 80, 2, 2),
    Row::Back(3, 3, Err(TooMany)),
    Row::Back(3, 1, Ok(())),
    Row::Node(3, 80, 2, 1),
    Row::Back(3, 1, Ok(())),
    Row::Unheld(3, 80),
    Row::Back(3, 0, Err(TooMany)),
    Row::Back(2, 1, Ok(())),
    Row::Unheld(1, 50),
    Row::First(80, 2, 4),
    Row::First(70, 3, 5),
    Row::First(60, 5, 6),
    Row::Again(90, 4, 3),
    Row::Nodes(&[(2, 4, 1), (3, 5, 1), (4, 3, 2), (5, 6, 1)]),
    Row::Reserve,
    Row::Back(4, 2, Ok(())),
    Row::Clear,
    Row::Unheld(2, 80),
    Row::First(90, 2, 7),
    Row::First(80, 3, 8),
    Row::First(70, 4, 9),
    Row::GenerationsLeft(COUNTER_END - 10),
    Row::Nodes(&[(2, 7, 1), (3, 8, 1), (4, 9, 1)]),
];

/// The calls with each growth refused in turn: how many runs that took.
fn runs<A: Copy, T: NodeStore<Heap = A> + Tried<Row, A> + Drop>(
    rt: &impl Abort,
    heap: A,
    refusing: &FailAt<Global>,
    alloc: Global,
) -> u64 {
    let mut runs = 0;
    for n in refusing.each_growth(40) {
        let mut store = T::new(heap);
        let wrong = first_wrong(&mut store, heap, refusing, alloc, &[CALLS.as_slice()]);
        drop(store);
        assert_right(rt, wrong, "calls");
        runs = n;
    }
    runs
}

/// Of each representation.
fn runs_of_both<A: Allocator + Copy>(
    rt: &impl Abort,
    heap: A,
    refusing: &FailAt<Global>,
    alloc: Global,
) -> (u64, u64) {
    (
        runs::<A, NodeTable<A>>(rt, heap, refusing, alloc),
        runs::<A, ListNodes<A>>(rt, heap, refusing, alloc),
    )
}

#[test]
fn calls_with_each_growth_refused(rt: HostRuntime) -> Result<(), Fail> {
    let heap = FailAt::new(rt.alloc());
    let (of_table, of_list) = runs_of_both(&rt, &heap, &heap, rt.alloc());
    assert!(rt; 4 < of_table && of_table < 40, "table");
    assert!(rt; 3 < of_list && of_list < 40, "list");
    Ok(())
}
