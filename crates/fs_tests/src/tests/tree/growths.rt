//! Refused growths change nothing, and the same call succeeds after them.

use super::{Answer, Operation, Row};
use crate::tests::{assert_between, assert_right};
use fail_at::{FailAt, first_wrong};
use fs_tree::{Kind, Tree};
use std::alloc::{AllocError, Allocator, Global};
use std::process::Abort;
use std::test::Fail;

/// Each operation that takes memory, and what is seen after it.
static CALLS: [Row; 11] = [
    Row::Gives(Operation::Mkdir(0, "d"), Ok(Answer::File(1))),
    Row::Gives(Operation::Create(1, "f"), Ok(Answer::File(2))),
    Row::Gives(Operation::Write(2, 3, "abc"), Ok(Answer::Done)),
    Row::Gives(Operation::Link(2, 0, "g"), Ok(Answer::Done)),
    Row::Gives(Operation::Rename(1, "f", 0, "moved"), Ok(Answer::Done)),
    Row::Gives(Operation::Rename(0, "g", 1, "h"), Ok(Answer::Done)),
    Row::Gives(Operation::Lookup(0, "moved"), Ok(Answer::File(2))),
    Row::Readdir(1, 0, 4096, &[(5, 2, Kind::Regular, "h")]),
    Row::Gives(Operation::Unlink(1, "h"), Ok(Answer::Done)),
    Row::Gives(Operation::Rmdir(0, "d"), Ok(Answer::Done)),
    Row::Read(2, 0, 10, "\0\0\0abc"),
];

/// A tree, which is made again where a growth of it was refused.
fn made<A: Allocator + Copy>(heap: A) -> Result<Tree<A>, AllocError> {
    match Tree::new(heap) {
        Ok(tree) => Ok(tree),
        Err(AllocError) => Tree::new(heap),
    }
}

/// The calls on a new tree.
fn run_calls<A: Allocator + Copy>(
    rt: &impl Abort,
    heap: A,
    refusing: &FailAt<Global>,
    alloc: Global,
) -> Result<(), AllocError> {
    let mut tree = made(heap)?;
    let wrong = first_wrong(&mut tree, heap, refusing, alloc, &[CALLS.as_slice()]);
    drop(tree);
    assert_right(rt, wrong, "calls");
    Ok(())
}

#[test]
fn each_growth_refused(rt: HostRuntime) -> Result<(), Fail> {
    let heap = FailAt::new(rt.alloc());
    heap.refuse(1);
    assert!(rt; refused_at_first(&heap), "the root");
    let mut runs = 0;
    for n in heap.each_growth(80) {
        run_calls(&rt, &heap, &heap, rt.alloc())?;
        runs = n;
    }
    assert_between(&rt, runs, 9, 80);
    Ok(())
}

/// Whether no tree was made.
fn refused_at_first<A: Allocator + Copy>(heap: A) -> bool {
    Tree::new(heap).is_err()
}
