//! Counted nodes over both representations: each call once, and refused growths.

use crate::tests::{are_nodes, assert_right};
use fail_at::{FailAt, Outcome, Tried, first_wrong, judged};
use fk_lookup_count::{CountTable, Forget, KernelNodes, ListCounts, Unlike};
use std::alloc::{AllocError, Allocator, Global};
use std::process::Abort;
use std::test::Fail;

/// A call, and what it must give.
#[derive(Clone, Copy)]
enum Row {
    Reserve(u64),
    /// An entry reply is counted, with an id and a generation: whether the id is new.
    Lookup(u64, u64, Result<bool, Unlike>),
    /// Room is made for an id, and then an entry reply is counted, with the id and a generation.
    Learn(u64, u64, Result<(), Unlike>),
    Evict(u64, Option<Forget>),
    Clear,
    /// Of an id: its generation and its count, if it is counted.
    Node(u64, Option<(u64, u64)>),
    /// The ids with their generations and counts.
    Nodes(&'static [(u64, u64, u64)]),
}

fn count_lookup<T: CountTable>(
    table: &mut T,
    id: u64,
    generation: u64,
) -> Result<Result<bool, Unlike>, AllocError> {
    if let Some(node) = table.count_of(id)
        && node.count == u64::MAX
    {
        return Err(AllocError);
    }
    table.reserve_and_learn(id, generation)
}

fn learn<T: CountTable>(
    table: &mut T,
    id: u64,
    generation: u64,
) -> Result<Result<(), Unlike>, AllocError> {
    if let Some(node) = table.count_of(id)
        && node.count == u64::MAX
    {
        return Err(AllocError);
    }
    table.reserve(id)?;
    Ok(table.learn(id, generation))
}

fn is_node<T: CountTable>(table: &T, id: u64, wanted: Option<(u64, u64)>) -> bool {
    match table.count_of(id) {
        Some(node) => wanted == Some((node.generation, node.count)),
        None => wanted.is_none(),
    }
}

fn lists<T: CountTable>(table: &T, heap: T::Heap, wanted: &[(u64, u64, u64)]) -> Outcome {
    match table.nodes(heap) {
        Ok(nodes) => judged(are_nodes(&nodes, wanted)),
        Err(AllocError) => Outcome::NoMemory,
    }
}

fn tried<T: CountTable>(table: &mut T, heap: T::Heap, row: Row) -> Outcome {
    match row {
        Row::Reserve(id) => match table.reserve(id) {
            Ok(()) => Outcome::Right,
            Err(AllocError) => Outcome::NoMemory,
        },
        Row::Lookup(id, generation, wanted) => match count_lookup(table, id, generation) {
            Ok(given) => judged(given == wanted),
            Err(AllocError) => Outcome::NoMemory,
        },
        Row::Learn(id, generation, wanted) => match learn(table, id, generation) {
            Ok(given) => judged(given == wanted),
            Err(AllocError) => Outcome::NoMemory,
        },
        Row::Evict(id, forget) => judged(table.evict(id) == forget),
        Row::Clear => {
            table.clear();
            Outcome::Right
        }
        Row::Node(id, wanted) => judged(is_node(table, id, wanted)),
        Row::Nodes(nodes) => lists(table, heap, nodes),
    }
}

/// A table of any representation, on which the calls are tried.
struct Over<T: CountTable> {
    table: T,
}

impl<T: CountTable> Tried<Row, T::Heap> for Over<T> {
    fn attempt(&mut self, heap: T::Heap, _alloc: Global, row: Row) -> Outcome {
        tried(&mut self.table, heap, row)
    }
}

/// Of node 9 two lookups.
const TWO_OF_9: Forget = Forget {
    nodeid: 9,
    nlookup: 2,
};

/// Of node 2 one lookup.
const ONE_OF_2: Forget = Forget {
    nodeid: 2,
    nlookup: 1,
};

static CALLS: [Row; 32] = [
    Row::Node(9, None),
    Row::Lookup(9, 4, Ok(true)),
    Row::Lookup(9, 4, Ok(false)),
    Row::Lookup(9, 5, Err(Unlike)),
    Row::Node(9, Some((4, 2))),
    Row::Evict(9, Some(TWO_OF_9)),
    Row::Evict(9, None),
    Row::Node(9, None),
    Row::Evict(2, None),
    Row::Lookup(2, 1, Ok(true)),
    Row::Node(2, Some((1, 1))),
    Row::Evict(2, Some(ONE_OF_2)),
    // nodes are listed in rising id
    Row::Lookup(9, 7, Ok(true)),
    Row::Lookup(3, 7, Ok(true)),
    Row::Lookup(5, 7, Ok(true)),
    Row::Lookup(6, 8, Ok(true)),
    Row::Lookup(3, 7, Ok(false)),
    // an id that has room is not counted
    Row::Reserve(4),
    Row::Nodes(&[(3, 7, 2), (5, 7, 1), (6, 8, 1), (9, 7, 1)]),
    Row::Lookup(4, 2, Ok(true)),
    Row::Node(4, Some((2, 1))),
    // with room made first
    Row::Learn(7, 3, Ok(())),
    Row::Node(7, Some((3, 1))),
    Row::Learn(7, 3, Ok(())),
    Row::Learn(7, 4, Err(Unlike)),
    Row::Node(7, Some((3, 2))),
    Row::Learn(4, 2, Ok(())),
    Row::Node(4, Some((2, 2))),
    Row::Clear,
    Row::Node(3, None),
    Row::Nodes(&[]),
    Row::Lookup(3, 1, Ok(true)),
];

/// The calls on a new table of a representation.
fn run_calls<T: CountTable + Drop>(
    rt: &impl Abort,
    heap: T::Heap,
    refusing: &FailAt<Global>,
    alloc: Global,
) {
    let mut over: Over<T> = Over {
        table: T::new(heap),
    };
    let wrong = first_wrong(&mut over, heap, refusing, alloc, &[CALLS.as_slice()]);
    let Over { table } = over;
    drop(table);
    assert_right(rt, wrong, "calls");
}

/// The calls with each growth refused in turn: how many runs that took.
fn runs<T: CountTable + Drop>(
    rt: &impl Abort,
    heap: T::Heap,
    refusing: &FailAt<Global>,
    alloc: Global,
) -> u64 {
    let mut runs = 0;
    for n in refusing.each_growth(40) {
        run_calls::<T>(rt, heap, refusing, alloc);
        runs = n;
    }
    runs
}

/// Of each representation.
fn runs_of_both<A: Allocator + Copy>(
    rt: &impl Abort,
    heap: A,
    refusing: &FailAt<Global>,
    alloc: Global,
) -> [u64; 2] {
    let of_map = runs::<KernelNodes<A>>(rt, heap, refusing, alloc);
    let of_list = runs::<ListCounts<A>>(rt, heap, refusing, alloc);
    [of_map, of_list]
}

#[test]
fn calls_with_each_growth_refused(rt: HostRuntime) -> Result<(), Fail> {
    let heap = FailAt::new(rt.alloc());
    let [of_map, of_list] = runs_of_both(&rt, &heap, &heap, rt.alloc());
    assert!(rt; 3 < of_map && of_map < 40, "map");
    assert!(rt; 2 < of_list && of_list < 40, "list");
    Ok(())
}
