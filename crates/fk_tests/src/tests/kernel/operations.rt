//! Each operation: the frame of its request, byte for byte (linux/fuse.h), and what its reply results in, also with
//! each growth refused in turn.

use super::{Expected, Reads, Row, START, Written, run_on};
use crate::tests::assert_between;
use fail_at::FailAt;
use fk_kernel::Call;
use fk_wire::Opcode;
use fuse_spec::{Attributes, Dentry, IntrEffect, Kind, Refusal, WriteResult};
use std::alloc::{Allocator, Global};
use std::process::Abort;
use std::test::Fail;

/// Names are looked up, and a directory and a file made.
static FOUND_AND_MADE: [Row; 34] = [
    Row::FirstCached(None),
    Row::Serves(1, None),
    // names are found for a second, and missing for a quarter
    Row::Begin(Call::Stat { path: b"/m" }, Ok(1)),
    Row::Serves(1, Some(4)),
    Row::Read(
        0,
        Reads::Frame("2a000000 01000000 04000000. 01000000. .... 6d00"),
    ),
    Row::Serves(1, Some(4)),
    Row::Write(
        Written::Whole("90000000 . 04000000. ........ 80b2e60e ......................."),
        WriteResult::Accepted,
    ),
    Row::Serves(1, None),
    Row::Answered(1, Expected::Errno(2)),
    Row::FirstCached(Some((1, "m"))),
    Row::Cached(
        1,
        "m",
        Some(Dentry {
            target: None,
            until: 250,
        }),
    ),
    Row::Cached(2, "m", None),
    Row::Begin(Call::Stat { path: b"/m" }, Ok(2)),
    Row::Answered(2, Expected::Errno(2)),
    Row::Tick(250, Ok(250)),
    Row::Begin(Call::Stat { path: b"/m" }, Ok(3)),
    Row::Read(0, Reads::Head(6, Opcode::Lookup)),
    Row::Write(
        Written::Whole("10000000 feffffff 06000000."),
        WriteResult::Accepted,
    ),
    Row::Answered(3, Expected::Errno(2)),
    Row::Begin(Call::Stat { path: b"/" }, Ok(4)),
    Row::Read(
        0,
        Reads::Frame("38000000 03000000 08000000. 01000000. ........"),
    ),
    Row::Write(
        Written::Whole(
            "78000000 . 08000000. .... 01000000. ............. ed410000 01000000 ... 00100000 .",
        ),
        WriteResult::Accepted,
    ),
    Row::Answered(
        4,
        Expected::Attributes(Attributes {
            kind: Kind::Directory,
            ino: 1,
            size: 0,
            nlink: 1,
        }),
    ),
    Row::Begin(Call::Mkdir { path: b"/d" }, Ok(5)),
    Row::Read(
        0,
        Reads::Frame("32000000 09000000 0a000000. 01000000. .... ed010000 . 6400"),
    ),
    Row::Write(
        Written::Whole(
            "90000000 . 0a000000. 02000000. 07000000. 01000000. .... 02000000. ............. ed410000 01000000 ... 00100000 .",
        ),
        WriteResult::Accepted,
    ),
    Row::Answered(5, Expected::Done),
    Row::Begin(Call::Create { path: b"/d/f" }, Ok(6)),
    Row::Read(
        0,
        Reads::Frame("3a000000 23000000 0c000000. 02000000. ..... a4810000 .. 6600"),
    ),
    Row::Write(
        Written::Whole(
            "a0000000 . 0c000000. 03000000. 08000000. 01000000. .... 03000000. ............. a4810000 01000000 ... 00100000 . 05000000. ..",
        ),
        WriteResult::Accepted,
    ),
    Row::Answered(6, Expected::Done),
    Row::Cached(
        1,
        "d",
        Some(Dentry {
            target: Some(2),
            until: 1250,
        }),
    ),
    Row::Cached(
        2,
        "f",
        Some(Dentry {
            target: Some(3),
            until: 1250,
        }),
    ),
    Row::Nodes(&[(2, 7, 1), (3, 8, 1)]),
];

/// A file is written, read, linked and opened, and a directory listed.
static FILES_AND_LISTS: [Row; 20] = [
    Row::Begin(
        Call::Write {
            open_call: 6,
            offset: 7,
            bytes: b"hi",
        },
        Ok(7),
    ),
    Row::Read(
        0,
        Reads::Frame(
            "52000000 10000000 0e000000. 03000000. .... 05000000. 07000000. 02000000 ..... 6869",
        ),
    ),
    Row::Write(
        Written::Whole("18000000 . 0e000000. 02000000 ."),
        WriteResult::Accepted,
    ),
    Row::Answered(7, Expected::Written(2)),
    Row::Begin(
        Call::Read {
            open_call: 6,
            offset: 7,
            size: 10,
        },
        Ok(8),
    ),
    Row::Read(
        0,
        Reads::Frame(
            "50000000 0f000000 10000000. 03000000. .... 05000000. 07000000. 0a000000 .....",
        ),
    ),
    Row::Write(
        Written::Whole("12000000 . 10000000. 6869"),
        WriteResult::Accepted,
    ),
    Row::Answered(8, Expected::Bytes("hi")),
    Row::Begin(
        Call::Link {
            old: b"/d/f",
            new: b"/g",
        },
        Ok(9),
    ),
    Row::Read(
        0,
        Reads::Frame("32000000 0d000000 12000000. 01000000. .... 03000000. 6700"),
    ),
    Row::Write(
        Written::Whole(
            "90000000 . 12000000. 03000000. 08000000. 01000000. .... 03000000. 09000000. ........... a4810000 02000000 ... 00100000 .",
        ),
        WriteResult::Accepted,
    ),
    Row::Answered(9, Expected::Done),
    Row::Begin(Call::Open { path: b"/g" }, Ok(10)),
    Row::Read(
        0,
        Reads::Frame("30000000 0e000000 14000000. 03000000. ......"),
    ),
    Row::Write(
        Written::Whole("20000000 . 14000000. 06000000. .."),
        WriteResult::Accepted,
    ),
    Row::Answered(10, Expected::Done),
    Row::Begin(
        Call::List {
            path: b"/",
            after: 3,
        },
        Ok(11),
    ),
    Row::Read(
        0,
        Reads::Frame("50000000 1c000000 16000000. 01000000. ...... 03000000. 00100000 ....."),
    ),
    Row::Write(
        Written::Whole(
            "70000000 . 16000000. 02000000. 04000000. 01000000 04000000 64000000. 01000000. 05000000. 02000000 04000000 2e2e0000. 09000000. 06000000. 04000000 0a000000 6c696e6b.",
        ),
        WriteResult::Accepted,
    ),
    Row::Answered(
        11,
        Expected::Names(&[
            (2, 4, Kind::Directory, "d"),
            (1, 5, Kind::Directory, ".."),
            (9, 6, Kind::Other, "link"),
        ]),
    ),
];

/// Names are moved and removed.
static RENAMED_AND_REMOVED: [Row; 12] = [
    Row::Begin(
        Call::Rename {
            old: b"/d/f",
            new: b"/h",
        },
        Ok(12),
    ),
    Row::Read(
        0,
        Reads::Frame("34000000 0c000000 18000000. 02000000. .... 01000000. 6600 6800"),
    ),
    Row::Write(
        Written::Whole("10000000 . 18000000."),
        WriteResult::Accepted,
    ),
    Row::Answered(12, Expected::Done),
    Row::Begin(Call::Unlink { path: b"/g" }, Ok(13)),
    Row::Read(
        0,
        Reads::Frame("2a000000 0a000000 1a000000. 01000000. .... 6700"),
    ),
    Row::Write(
        Written::Whole("10000000 . 1a000000."),
        WriteResult::Accepted,
    ),
    Row::Answered(13, Expected::Done),
    Row::Begin(Call::Rmdir { path: b"/d" }, Ok(14)),
    Row::Read(
        0,
        Reads::Frame("2a000000 0b000000 1c000000. 01000000. .... 6400"),
    ),
    Row::Write(
        Written::Whole("10000000 d9ffffff 1c000000."),
        WriteResult::Accepted,
    ),
    Row::Answered(14, Expected::Errno(39)),
];

/// A call is signalled, and its INTERRUPT read; files are closed, and nodes evicted.
static SIGNALLED_AND_GIVEN_UP: [Row; 27] = [
    Row::Begin(Call::Mkdir { path: b"/e" }, Ok(15)),
    Row::Signal(15, false, Ok(IntrEffect::Flagged)),
    Row::Read(0, Reads::Head(30, Opcode::Mkdir)),
    Row::Read(0, Reads::Refused(Refusal::InterruptFirst)),
    Row::Interrupt(Reads::Frame("30000000 24000000 1f000000. ...... 1e000000.")),
    Row::Write(
        Written::Whole("10000000 fcffffff 1e000000."),
        WriteResult::Accepted,
    ),
    Row::Answered(15, Expected::Errno(4)),
    Row::Begin(Call::Close { open_call: 6 }, Ok(16)),
    Row::Answered(16, Expected::Done),
    Row::Read(
        0,
        Reads::Frame("40000000 12000000 20000000. 03000000. .... 05000000. ...."),
    ),
    Row::Write(
        Written::Whole("10000000 . 20000000."),
        WriteResult::Accepted,
    ),
    Row::Begin(Call::Close { open_call: 10 }, Ok(17)),
    Row::Answered(17, Expected::Done),
    Row::Read(0, Reads::Head(34, Opcode::Release)),
    Row::Evict(3, Err(Refusal::Busy)),
    Row::Write(
        Written::Whole("10000000 . 22000000."),
        WriteResult::Accepted,
    ),
    Row::Nodes(&[(2, 7, 1), (3, 8, 2)]),
    Row::Evict(3, Ok(2)),
    Row::Evict(2, Err(Refusal::Busy)),
    Row::DropName(1, "d", Ok(())),
    Row::DropName(1, "d", Err(Refusal::NoSuch)),
    Row::Evict(2, Ok(1)),
    Row::Evict(2, Err(Refusal::NoSuch)),
    Row::Forget(3, Reads::Refused(Refusal::NoSuch)),
    Row::Forget(
        2,
        Reads::Frame(
            "50000000 2a000000 24000000. ...... 02000000 . 03000000. 02000000. 02000000. 01000000.",
        ),
    ),
    Row::Forget(1, Reads::Refused(Refusal::NoSuch)),
    Row::Nodes(&[]),
];

/// Walks lead over cached names, and a second path begins where the first one ended.
static WALKED: [Row; 25] = [
    Row::Begin(Call::Mkdir { path: b"/p" }, Ok(18)),
    Row::Read(0, Reads::Head(38, Opcode::Mkdir)),
    Row::Write(
        Written::Whole(
            "90000000 . 26000000. 04000000. 09000000. 01000000. .... 04000000. ............. ed410000 01000000 ... 00100000 .",
        ),
        WriteResult::Accepted,
    ),
    Row::Answered(18, Expected::Done),
    Row::Begin(Call::Stat { path: b"/p/q/r" }, Ok(19)),
    Row::Read(
        0,
        Reads::Frame("2a000000 01000000 28000000. 04000000. .... 7100"),
    ),
    Row::Write(
        Written::Whole(
            "90000000 . 28000000. 05000000. 09000000. 01000000. .... 05000000. ............. ed410000 01000000 ... 00100000 .",
        ),
        WriteResult::Accepted,
    ),
    Row::Read(
        0,
        Reads::Frame("2a000000 01000000 2a000000. 05000000. .... 7200"),
    ),
    // the root is no node of a name
    Row::Write(
        Written::Whole(
            "90000000 . 2a000000. 01000000. .. 01000000. .... 01000000. ............. ed410000 01000000 ... 00100000 .",
        ),
        WriteResult::Accepted,
    ),
    Row::Answered(19, Expected::Errno(5)),
    Row::Begin(
        Call::Rename {
            old: b"/p/q/r",
            new: b"/x/y",
        },
        Ok(20),
    ),
    Row::Read(
        0,
        Reads::Frame("2a000000 01000000 2c000000. 01000000. .... 7800"),
    ),
    Row::Write(
        Written::Whole(
            "90000000 . 2c000000. 06000000. 09000000. 01000000. .... 06000000. ............. ed410000 01000000 ... 00100000 .",
        ),
        WriteResult::Accepted,
    ),
    Row::Read(
        0,
        Reads::Frame("34000000 0c000000 2e000000. 05000000. .... 06000000. 7200 7900"),
    ),
    Row::Write(
        Written::Whole("10000000 feffffff 2e000000."),
        WriteResult::Accepted,
    ),
    Row::Answered(20, Expected::Errno(2)),
    Row::Begin(
        Call::Link {
            old: b"/p/q",
            new: b"/p/x/y",
        },
        Ok(21),
    ),
    Row::Read(
        0,
        Reads::Frame("2a000000 01000000 30000000. 04000000. .... 7800"),
    ),
    Row::Write(
        Written::Whole("90000000 . 30000000. ................................"),
        WriteResult::Accepted,
    ),
    Row::Answered(21, Expected::Errno(2)),
    Row::Unanswered(0),
    Row::Nodes(&[(4, 9, 1), (5, 9, 1), (6, 9, 1)]),
    Row::DropName(4, "q", Ok(())),
    Row::Evict(5, Ok(1)),
    Row::Forget(
        1,
        Reads::Frame("30000000 02000000 32000000. 05000000. .... 01000000."),
    ),
];

/// Each operation once on a new kernel, the mount too, and a walk over names.
fn run_operations<A: Allocator + Copy>(
    rt: &impl Abort,
    heap: A,
    refusing: &FailAt<Global>,
    alloc: Global,
) {
    // One list of all rows costs twice as much to check.
    let lists: [&[Row]; 6] = [
        &START,
        &FOUND_AND_MADE,
        &FILES_AND_LISTS,
        &RENAMED_AND_REMOVED,
        &SIGNALLED_AND_GIVEN_UP,
        &WALKED,
    ];
    run_on(rt, heap, refusing, alloc, &lists, "operations");
}

#[test]
fn each_growth_refused(rt: HostRuntime) -> Result<(), Fail> {
    let heap = FailAt::new(rt.alloc());
    let mut runs = 0;
    for n in heap.each_growth(400) {
        run_operations(&rt, &heap, &heap, rt.alloc());
        runs = n;
    }
    assert_between(&rt, runs, 40, 400);
    Ok(())
}
