//! Rows that are tried one after another, also with a growth refused.

ghost use Rattle.std.specs.Prelude.{◌≡◌, ◌<◌, IfSome, cond, length};

use crate::FailAt;
use std::alloc::Global;

/// What a row came to.
#[derive(Clone, Copy)]
pub enum Outcome {
    /// It gave what it must.
    Right,
    Wrong,
    /// It was refused memory.
    NoMemory,
}

/// Right, or wrong.
pub fn judged(right: bool) -> Outcome
    ensures { result ≡ cond right Outcome.Right Outcome.Wrong }
{
    if right {
        Outcome::Right
    } else {
        Outcome::Wrong
    }
}

/// What rows are tried on. It takes memory from a heap of its own, and what a row has beside it from another. The row's
/// type stands first, so that a crate of tests can say for its rows how another crate's type is tried.
pub trait Tried<R: Copy, A: Copy> {
    fn attempt(&mut self, heap: A, alloc: Global, row: R) -> Outcome;
}

/// Where a row stands that did not come to what it must.
#[derive(Clone, Copy, Debug, PartialEq, Eq)]
pub struct WrongRow {
    /// Which list it is in.
    pub list: usize,
    pub row: usize,
    /// Which growth was refused from the first row on, or 0.
    pub growth: u64,
}

/// Tries the rows of some lists, one list after the other, up to the first row that does not come to what it must.
pub fn first_wrong<A: Copy, R: Copy, T: Tried<R, A>>(
    subject: &mut T,
    heap: A,
    refusing: &FailAt<Global>,
    alloc: Global,
    lists: &[&[R]],
) -> Option<WrongRow>
    ensures { IfSome result (λ wrong. wrong.list < length lists.now) }
{
    let growth = refusing.left();
    for (list, rows) in lists.iter().enumerate() {
        if let Some(row) = first_wrong_in(subject, heap, refusing, alloc, rows) {
            return Some(WrongRow { list, row, growth });
        }
    }
    None
}

/// Tries the rows of one list, up to the first that does not come to what it must: its place.
fn first_wrong_in<A: Copy, R: Copy, T: Tried<R, A>>(
    subject: &mut T,
    heap: A,
    refusing: &FailAt<Global>,
    alloc: Global,
    rows: &[R],
) -> Option<usize>
    ensures { IfSome result (λ row. row < length rows.now) }
{
    for (place, row) in rows.iter().enumerate() {
        if !holds(subject, heap, refusing, alloc, *row) {
            return Some(place);
        }
    }
    None
}

/// Tries a row of a run in which the growth after this many is refused. Where it was refused here, the row is refused
/// memory, and right when it is tried again.
fn holds<A: Copy, R: Copy, T: Tried<R, A>>(
    subject: &mut T,
    heap: A,
    refusing: &FailAt<Global>,
    alloc: Global,
    row: R,
) -> bool {
    let before = refusing.left();
    let first = subject.attempt(heap, alloc, row);
    if before != 0 && refusing.left() == 0 {
        return matches!(first, Outcome::NoMemory)
            && matches!(subject.attempt(heap, alloc, row), Outcome::Right);
    }
    matches!(first, Outcome::Right)
}
