//! Names that a directory lists with their files: which are counted and cached, and which are forgotten.

use super::{Expected, Reads, Row, START, Written, run_on};
use crate::tests::assert_between;
use fail_at::FailAt;
use fk_kernel::Call;
use fk_wire::Opcode;
use fuse_spec::{Kind, WriteResult};
use std::alloc::{Allocator, Global};
use std::process::Abort;
use std::test::Fail;

/// Two names of one node count two; `.`, a name without a node, the root and a node under another generation count and
/// bind nothing, and of the last one lookup is forgotten.
static COUNTED_AND_BOUND: [Row; 12] = [
    Row::Begin(
        Call::ListPlus {
            path: b"/",
            after: 0,
        },
        Ok(1),
    ),
    Row::Read(
        0,
        Reads::Frame("50000000 2c000000 04000000. 01000000. ........ 00100000 ....."),
    ),
    Row::Write(
        Written::Whole(
            "d0030000 . 04000000. 05000000. 01000000. 01000000. .... 05000000. ............. a4810000 01000000 ... 00100000 . 05000000. 01000000. 01000000 04000000 2e000000. .......... 09000000. .............. 01000000 ... 00100000 . 09000000. 02000000. 01000000 08000000 7a000000. 02000000. 07000000. 01000000. .... 02000000. ............. a4810000 01000000 ... 00100000 . 02000000. 03000000. 01000000 08000000 61000000. 02000000. 07000000. 01000000. .... 02000000. ............. a4810000 01000000 ... 00100000 . 02000000. 04000000. 01000000 08000000 62000000. 02000000. 08000000. 01000000. .... 02000000. ............. a4810000 01000000 ... 00100000 . 02000000. 05000000. 01000000 08000000 63000000. 01000000. .. 01000000. .... 01000000. ............. ed410000 01000000 ... 00100000 . 01000000. 06000000. 01000000 04000000 72000000.",
        ),
        WriteResult::Accepted,
    ),
    Row::Answered(
        1,
        Expected::Names(&[
            (5, 1, Kind::Directory, "."),
            (9, 2, Kind::Regular, "z"),
            (2, 3, Kind::Regular, "a"),
            (2, 4, Kind::Regular, "b"),
            (2, 5, Kind::Regular, "c"),
            (1, 6, Kind::Directory, "r"),
        ]),
    ),
    Row::Nodes(&[(2, 7, 2)]),
    Row::Forget(
        1,
        Reads::Frame("30000000 02000000 06000000. 02000000. .... 01000000."),
    ),
    // the cached names lead to their node, and the others are looked up
    Row::Begin(Call::Stat { path: b"/b" }, Ok(2)),
    Row::Read(0, Reads::Head(8, Opcode::Getattr)),
    Row::Begin(Call::Stat { path: b"/c" }, Ok(3)),
    Row::Read(0, Reads::Head(10, Opcode::Lookup)),
    Row::Begin(Call::Stat { path: b"/z" }, Ok(4)),
    Row::Read(0, Reads::Head(12, Opcode::Lookup)),
];

/// A reply may have as many bytes as were asked, and no more.
static LONGEST: [Row; 8] = [
    Row::Begin(
        Call::ListPlus {
            path: b"/",
            after: 6,
        },
        Ok(5),
    ),
    Row::Read(0, Reads::Head(14, Opcode::Readdirplus)),
    Row::Write(
        Written::Repeated(
            "b00f0000 . 0e000000.",
            "02000000. 07000000. 01000000. .... 02000000. ............. a4810000 01000000 ... 00100000 . 02000000. 07000000. 01000000 08000000 61000000.",
            25,
        ),
        WriteResult::Accepted,
    ),
    Row::Answered(5, Expected::NamesLength(25)),
    Row::Nodes(&[(2, 7, 27)]),
    Row::Begin(
        Call::ListPlus {
            path: b"/",
            after: 0,
        },
        Ok(6),
    ),
    Row::Read(0, Reads::Head(16, Opcode::Readdirplus)),
    Row::Write(
        Written::Repeated(
            "50100000 . 10000000.",
            "02000000. 07000000. 01000000. .... 02000000. ............. a4810000 01000000 ... 00100000 . 02000000. 07000000. 01000000 08000000 61000000.",
            26,
        ),
        WriteResult::Invalid,
    ),
];

/// The call is answered that the reply was wrong, and nothing is counted.
static TOO_LONG: [Row; 2] = [
    Row::Answered(6, Expected::Errno(5)),
    Row::Nodes(&[(2, 7, 27)]),
];

/// The lists once on a new kernel.
fn run_lists<A: Allocator + Copy>(
    rt: &impl Abort,
    heap: A,
    refusing: &FailAt<Global>,
    alloc: Global,
) {
    let lists: [&[Row]; 4] = [&START, &COUNTED_AND_BOUND, &LONGEST, &TOO_LONG];
    run_on(rt, heap, refusing, alloc, &lists, "names with their files");
}

#[test]
fn names_with_files_count_and_bind(rt: HostRuntime) -> Result<(), Fail> {
    let heap = FailAt::new(rt.alloc());
    let mut runs = 0;
    for n in heap.each_growth(400) {
        run_lists(&rt, &heap, &heap, rt.alloc());
        runs = n;
    }
    assert_between(&rt, runs, 20, 400);
    Ok(())
}
