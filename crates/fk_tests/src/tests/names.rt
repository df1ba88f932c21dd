//! Cached names: each call once, and refused growths.

use crate::tests::{assert_between, assert_right};
use fail_at::{FailAt, Outcome, Tried, first_wrong, judged};
use fk_dentry::{Bindings, Found};
use fuse_spec::Dentry;
use std::alloc::{AllocError, Allocator, Global};
use std::process::Abort;
use std::test::Fail;

/// A call, and what it must give.
#[derive(Clone, Copy)]
enum Row {
    Reserve(u64, &'static str),
    /// Room is made and a name bound, until a time.
    Put(u64, &'static str, Option<u64>, u64),
    /// A name is bound, until a time: it gives what the name was bound to.
    Bind(u64, &'static str, Option<u64>, u64),
    /// A name is bound, and then restored to what it was bound to.
    Undo(u64, &'static str),
    /// A name is removed: whether it was bound.
    Remove(u64, &'static str, bool),
    Clear,
    /// A name is looked up at a time.
    Find(u64, &'static str, u64, Found),
    /// The nodes below 8 that a name stands in, or leads to, a bit for each.
    Named(u8),
    /// What a name is bound to, past its end too.
    Bound(u64, &'static str, Option<Dentry>),
    /// A name that is bound and its directory, if there is one.
    First(Option<(u64, &'static str)>),
}

fn put<A: Allocator + Copy>(
    names: &mut Bindings<A>,
    directory: u64,
    name: &[u8],
    target: Option<u64>,
    until: u64,
) -> Result<(), AllocError> {
    names.reserve(directory, name)?;
    names.put(directory, name, target, until);
    Ok(())
}

fn bind_and_restore<A: Allocator + Copy>(
    names: &mut Bindings<A>,
    directory: u64,
    name: &[u8],
) -> Result<(), AllocError> {
    let was = names.bind(directory, name, Some(6), 3000)?;
    names.restore(directory, name, was);
    Ok(())
}

/// The nodes below 8 that a name stands in, or leads to.
fn named<A: Allocator + Copy>(names: &Bindings<A>) -> u8 {
    let mut nodes = 0;
    for node in 0..8u8 {
        if names.names_node(u64::from(node)) {
            nodes |= 1 << node;
        }
    }
    nodes
}

/// Whether this is the name that is bound first, or none is.
fn is_first<A: Allocator + Copy>(names: &Bindings<A>, wanted: Option<(u64, &str)>) -> bool {
    match (names.first(), wanted) {
        (Some((directory, name)), Some(wanted)) => {
            directory == wanted.0 && name == wanted.1.as_bytes()
        }
        (None, None) => true,
        _ => false,
    }
}

/// What binding a name results in, which was bound so before.
fn bound_from(bound: Result<Option<Dentry>, AllocError>, before: Option<Dentry>) -> Outcome {
    match bound {
        Ok(was) => judged(was == before),
        Err(AllocError) => Outcome::NoMemory,
    }
}

/// What making room results in.
fn reserved(outcome: Result<(), AllocError>) -> Outcome {
    match outcome {
        Ok(()) => Outcome::Right,
        Err(AllocError) => Outcome::NoMemory,
    }
}

impl<A: Allocator + Copy> Tried<Row, A> for Bindings<A> {
    fn attempt(&mut self, _heap: A, _alloc: Global, row: Row) -> Outcome {
        match row {
            Row::Reserve(directory, name) => reserved(self.reserve(directory, name.as_bytes())),
            Row::Put(directory, name, target, until) => {
                reserved(put(self, directory, name.as_bytes(), target, until))
            }
            Row::Bind(directory, name, target, until) => {
                let before = self.bound(directory, name.as_bytes());
                bound_from(self.bind(directory, name.as_bytes(), target, until), before)
            }
            Row::Undo(directory, name) => {
                reserved(bind_and_restore(self, directory, name.as_bytes()))
            }
            Row::Remove(directory, name, was_bound) => {
                judged(self.remove(directory, name.as_bytes()) == was_bound)
            }
            Row::Clear => {
                self.clear();
                Outcome::Right
            }
            Row::Find(directory, name, now, found) => {
                judged(self.find(directory, name.as_bytes(), now) == found)
            }
            Row::Named(nodes) => judged(named(self) == nodes),
            Row::Bound(directory, name, wanted) => {
                judged(self.bound(directory, name.as_bytes()) == wanted)
            }
            Row::First(wanted) => judged(is_first(self, wanted)),
        }
    }
}

static CALLS: [Row; 46] = [
    Row::Find(1, "a", 0, Found::Unknown),
    Row::First(None),
    Row::Bound(1, "a", None),
    Row::Bind(1, "a", Some(3), 1000),
    Row::First(Some((1, "a"))),
    Row::Bound(
        1,
        "a",
        Some(Dentry {
            target: Some(3),
            until: 1000,
        }),
    ),
    Row::Bind(1, "b", None, 1000),
    Row::Find(1, "a", 999, Found::Node(3)),
    Row::Find(1, "a", 1000, Found::Unknown),
    Row::Find(1, "b", 999, Found::Missing),
    Row::Find(2, "a", 0, Found::Unknown),
    Row::Find(1, "aa", 0, Found::Unknown),
    Row::Put(1, "b", Some(3), 0),
    Row::Put(4, "a", None, 0),
    Row::Named(0b1_1010),
    // restored, a name is bound as it was, or not at all
    Row::Undo(1, "a"),
    Row::Undo(2, "new"),
    Row::Find(1, "a", 999, Found::Node(3)),
    Row::Find(1, "a", 1000, Found::Unknown),
    Row::Bound(2, "new", None),
    Row::Named(0b1_1010),
    Row::Bind(1, "a", Some(5), 2000),
    Row::Find(1, "a", 1000, Found::Node(5)),
    Row::Named(0b11_1010),
    Row::Remove(1, "b", true),
    Row::Remove(1, "b", false),
    Row::Named(0b11_0010),
    // room for a name binds nothing
    Row::Reserve(7, "room"),
    Row::Bound(7, "room", None),
    Row::Remove(7, "room", false),
    Row::Bind(6, "a name that is not short", Some(7), 1),
    Row::Bind(6, "another one", Some(7), 1),
    Row::Bind(6, "and a third", Some(2), 1),
    // alike in their first eight bytes
    Row::Bind(6, "a name that is long", Some(1), 1),
    Row::Find(6, "a name that is not short", 0, Found::Node(7)),
    Row::Find(6, "a name that is long", 0, Found::Node(1)),
    Row::Find(6, "a name t", 0, Found::Unknown),
    Row::Find(6, "a name that", 0, Found::Unknown),
    Row::Remove(6, "a name that is not", false),
    Row::Named(0b1111_0110),
    Row::Clear,
    Row::First(None),
    Row::Named(0),
    Row::Find(4, "a", 0, Found::Unknown),
    Row::Bind(1, "a", Some(2), 1),
    Row::First(Some((1, "a"))),
];

/// The calls on new names.
fn run_calls<A: Allocator + Copy>(
    rt: &impl Abort,
    heap: A,
    refusing: &FailAt<Global>,
    alloc: Global,
) {
    let mut names = Bindings::new(heap);
    let wrong = first_wrong(&mut names, heap, refusing, alloc, &[CALLS.as_slice()]);
    drop(names);
    assert_right(rt, wrong, "calls");
}

#[test]
fn calls_with_each_growth_refused(rt: HostRuntime) -> Result<(), Fail> {
    let heap = FailAt::new(rt.alloc());
    let mut runs = 0;
    for n in heap.each_growth(100) {
        run_calls(&rt, &heap, &heap, rt.alloc());
        runs = n;
    }
    assert_between(&rt, runs, 8, 100);
    Ok(())
}
