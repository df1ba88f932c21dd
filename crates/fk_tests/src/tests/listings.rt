//! Listings: each call once, and refused growths.

use crate::tests::{assert_between, assert_right};
use fail_at::{FailAt, Outcome, Tried, first_wrong, judged};
use fk_kernel::{ListedName, Listing};
use fuse_spec::Kind;
use std::alloc::{AllocError, Allocator, Global};
use std::process::Abort;
use std::test::Fail;

/// The inode number, the offset, the kind and the bytes of a name that is listed.
pub(super) type Listed = (u64, u64, Kind, &'static str);

/// A call, and what it must give.
#[derive(Clone, Copy)]
enum Row {
    /// A listing with room for this many names, of this many bytes together, takes the place of the old one.
    Make(usize, usize),
    Push(Listed),
    /// The names.
    Names(&'static [Listed]),
}

fn is_name(given: ListedName<'_>, name: &Listed) -> bool {
    given.ino == name.0
        && given.offset == name.1
        && given.kind == name.2
        && given.name == name.3.as_bytes()
}

/// Whether a listing has these names.
pub(super) fn are_names<A: Allocator>(given: &Listing<A>, names: &[Listed]) -> bool {
    if given.len() != names.len() || given.is_empty() != names.is_empty() {
        return false;
    }
    let mut wanted = names.iter();
    for listed in given.iter() {
        match wanted.next() {
            Some(name) if is_name(listed, name) => {}
            _ => return false,
        }
    }
    true
}

impl<A: Allocator + Copy> Tried<Row, A> for Listing<A> {
    fn attempt(&mut self, heap: A, _alloc: Global, row: Row) -> Outcome {
        match row {
            Row::Make(names, bytes) => match Listing::with_capacity(heap, names, bytes) {
                Ok(listing) => {
                    *self = listing;
                    Outcome::Right
                }
                Err(AllocError) => Outcome::NoMemory,
            },
            Row::Push((ino, offset, kind, name)) => {
                let listed = ListedName {
                    ino,
                    offset,
                    kind,
                    name: name.as_bytes(),
                };
                match self.push(listed) {
                    Ok(()) => Outcome::Right,
                    Err(AllocError) => Outcome::NoMemory,
                }
            }
            Row::Names(names) => judged(are_names(self, names)),
        }
    }
}

static CALLS: [Row; 12] = [
    Row::Names(&[]),
    Row::Push((1, 1, Kind::Directory, ".")),
    Row::Names(&[(1, 1, Kind::Directory, ".")]),
    Row::Push((7, 2, Kind::Regular, "a name that is not short")),
    Row::Names(&[
        (1, 1, Kind::Directory, "."),
        (7, 2, Kind::Regular, "a name that is not short"),
    ]),
    Row::Make(2, 3),
    Row::Names(&[]),
    Row::Push((3, 10, Kind::Other, "ab")),
    Row::Push((2, 20, Kind::Regular, "c")),
    Row::Names(&[(3, 10, Kind::Other, "ab"), (2, 20, Kind::Regular, "c")]),
    Row::Push((u64::MAX, u64::MAX, Kind::Regular, "")),
    Row::Names(&[
        (3, 10, Kind::Other, "ab"),
        (2, 20, Kind::Regular, "c"),
        (u64::MAX, u64::MAX, Kind::Regular, ""),
    ]),
];

/// The calls on a new listing.
fn run_calls<A: Allocator + Copy>(
    rt: &impl Abort,
    heap: A,
    refusing: &FailAt<Global>,
    alloc: Global,
) {
    let Ok(mut names) = Listing::with_capacity(heap, 0, 0) else {
        return;
    };
    let wrong = first_wrong(&mut names, heap, refusing, alloc, &[CALLS.as_slice()]);
    drop(names);
    assert_right(rt, wrong, "calls");
}

#[test]
fn calls_with_each_growth_refused(rt: HostRuntime) -> Result<(), Fail> {
    let heap = FailAt::new(rt.alloc());
    let mut runs = 0;
    for n in heap.each_growth(100) {
        run_calls(&rt, &heap, &heap, rt.alloc());
        runs = n;
    }
    assert_between(&rt, runs, 4, 100);
    Ok(())
}
