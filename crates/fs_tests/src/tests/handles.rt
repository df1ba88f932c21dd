//! File handles: each call once, and refused growths.

use crate::tests::{assert_between, assert_right};
use fail_at::{FailAt, Outcome, Tried, first_wrong, judged};
use fs_handles::HandleTable;
use fuse_spec::limits::COUNTER_END;
use std::alloc::{AllocError, Allocator, Global};
use std::process::Abort;
use std::test::Fail;

/// A call, and what it must give.
#[derive(Clone, Copy)]
enum Row {
    /// Room is made and a file opened: the number.
    Open(u64, u64),
    TakeBack(u64),
    Clear,
    /// The file under a number.
    FileOf(u64, Option<u64>),
    Has(u64, bool),
    NumbersLeft(u64),
}

fn opens<A: Allocator + Copy>(table: &mut HandleTable<A>, file: u64, number: u64) -> Outcome {
    if table.reserve().is_err() {
        return Outcome::NoMemory;
    }
    if table.numbers_left() == 0 {
        return Outcome::Wrong;
    }
    judged(table.open(file) == number)
}

/// Whether a number that was copied once is kept once.
fn copy_keeps_number(alloc: Global) -> Result<bool, AllocError> {
    let mut table: HandleTable = HandleTable::new(alloc);
    if table.reserve().is_err() {
        drop(table);
        return Err(AllocError);
    }
    let fh = table.open(7);
    table.again(fh);
    table.take_back(fh);
    let kept = table.file_of(fh) == Some(7);
    table.take_back(fh);
    let is_gone = table.file_of(fh).is_none();
    drop(table);
    Ok(kept && is_gone)
}

impl<A: Allocator + Copy> Tried<Row, A> for HandleTable<A> {
    fn attempt(&mut self, _heap: A, _alloc: Global, row: Row) -> Outcome {
        match row {
            Row::Open(file, number) => return opens(self, file, number),
            Row::TakeBack(number) => self.take_back(number),
            Row::Clear => self.clear(),
            Row::FileOf(number, file) => return judged(self.file_of(number) == file),
            Row::Has(file, expected) => return judged(self.has(file) == expected),
            Row::NumbersLeft(left) => return judged(self.numbers_left() == left),
        }
        Outcome::Right
    }
}

/// Numbers rise from 1, also after `clear`. A number that is not in use is not taken back.
static CALLS: [Row; 20] = [
    Row::NumbersLeft(COUNTER_END - 1),
    Row::Open(7, 1),
    Row::Open(7, 2),
    Row::Open(9, 3),
    Row::NumbersLeft(COUNTER_END - 4),
    Row::FileOf(2, Some(7)),
    Row::FileOf(4, None),
    Row::Has(9, true),
    Row::Has(8, false),
    Row::TakeBack(1),
    Row::FileOf(1, None),
    Row::Has(7, true),
    Row::TakeBack(1),
    Row::TakeBack(2),
    Row::Has(7, false),
    Row::Open(7, 4),
    Row::Clear,
    Row::Has(7, false),
    Row::FileOf(3, None),
    Row::Open(8, 5),
];

/// The calls on a new table.
fn run_calls<A: Allocator + Copy>(
    rt: &impl Abort,
    heap: A,
    refusing: &FailAt<Global>,
    alloc: Global,
) {
    let mut table: HandleTable<A> = HandleTable::new(heap);
    let wrong = first_wrong(&mut table, heap, refusing, alloc, &[CALLS.as_slice()]);
    drop(table);
    assert_right(rt, wrong, "calls");
}

#[test]
fn calls_with_each_growth_refused(rt: HostRuntime) -> Result<(), Fail> {
    let heap = FailAt::new(rt.alloc());
    let mut runs = 0;
    for n in heap.each_growth(24) {
        run_calls(&rt, &heap, &heap, rt.alloc());
        runs = n;
    }
    assert_between(&rt, runs, 2, 24);
    assert!(rt; matches!(copy_keeps_number(rt.alloc()), Ok(true)), "copy");
    Ok(())
}
