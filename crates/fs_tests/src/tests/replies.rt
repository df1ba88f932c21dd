//! The reply to each operation, byte for byte (linux/fuse.h), also with each growth refused in turn.

use crate::tests::frames::{Asks, Row, check_refused};
use fuse_spec::{Taken, WriteResult};
use std::test::Fail;

/// Each operation, under validities of 1.5 and 0.25 seconds. Each copy is settled.
static REPLIES: [Row; 65] = [
    Row::Mount(1500, 250),
    // INIT offers what no server knows beside the three flags
    Row::Takes(
        "38000000 1a000000 02000000. ...... 07000000 1f000000 . 03200400",
        Taken::Held,
    ),
    Row::Performs(
        2,
        0,
        "50000000 . 02000000. 07000000 1f000000 . 01200400 0000 0000 00100000 01000000 0000 0000 ........",
    ),
    Row::Settles(1, WriteResult::Accepted),
    Row::Holds(4, 1, Asks::Lookup("d")),
    Row::Performs(
        4,
        0,
        "90000000 . 04000000. ........ 80b2e60e .......................",
    ),
    Row::Settles(2, WriteResult::Accepted),
    Row::Holds(6, 1, Asks::Mkdir("d")),
    Row::Performs(
        6,
        0,
        "90000000 . 06000000. 02000000. 01000000. 01000000. .. 0065cd1d . 02000000. ............. ed410000 01000000 ... 00100000 .",
    ),
    Row::Settles(3, WriteResult::Accepted),
    Row::Holds(8, 1, Asks::Create("f")),
    Row::Performs(
        8,
        0,
        "a0000000 . 08000000. 03000000. 02000000. 01000000. .. 0065cd1d . 03000000. ............. a4810000 01000000 ... 00100000 . 01000000. ..",
    ),
    Row::Settles(4, WriteResult::Accepted),
    Row::Holds(10, 3, Asks::Write(1, 2, "hi")),
    Row::Performs(10, 0, "18000000 . 0a000000. 02000000 ."),
    Row::Settles(5, WriteResult::Accepted),
    Row::Holds(12, 3, Asks::Getattr),
    Row::Performs(
        12,
        0,
        "78000000 . 0c000000. .... 03000000. 04000000. ........... a4810000 01000000 ... 00100000 .",
    ),
    Row::Settles(6, WriteResult::Accepted),
    Row::Holds(14, 3, Asks::Read(1, 0, 10)),
    Row::Performs(14, 0, "14000000 . 0e000000. 00006869"),
    Row::Settles(7, WriteResult::Accepted),
    Row::Holds(16, 3, Asks::Read(1, 9, 10)),
    Row::Performs(16, 0, "10000000 . 10000000."),
    Row::Settles(8, WriteResult::Accepted),
    Row::Holds(18, 2, Asks::Link(3, "g")),
    Row::Performs(
        18,
        0,
        "90000000 . 12000000. 03000000. 02000000. 01000000. .. 0065cd1d . 03000000. 04000000. ........... a4810000 02000000 ... 00100000 .",
    ),
    Row::Settles(9, WriteResult::Accepted),
    Row::Holds(20, 3, Asks::Open),
    Row::Performs(20, 0, "20000000 . 14000000. 02000000. .."),
    Row::Settles(10, WriteResult::Accepted),
    Row::Holds(22, 1, Asks::Readdir(0, 4096)),
    Row::Performs(
        22,
        0,
        "50000000 . 16000000. 02000000. 01000000. 01000000 04000000 64000000. 03000000. 02000000. 01000000 08000000 66000000.",
    ),
    Row::Settles(11, WriteResult::Accepted),
    // one byte less than two records
    Row::Holds(24, 1, Asks::Readdir(0, 63)),
    Row::Performs(
        24,
        0,
        "30000000 . 18000000. 02000000. 01000000. 01000000 04000000 64000000.",
    ),
    Row::Settles(12, WriteResult::Accepted),
    Row::Holds(26, 1, Asks::Readdir(2, 4096)),
    Row::Performs(26, 0, "10000000 . 1a000000."),
    Row::Settles(13, WriteResult::Accepted),
    Row::Holds(28, 1, Asks::Rename("f", 2, "nine-byte")),
    Row::Performs(28, 0, "10000000 . 1c000000."),
    Row::Settles(14, WriteResult::Accepted),
    Row::Holds(30, 2, Asks::Readdir(0, 4096)),
    Row::Performs(
        30,
        0,
        "58000000 . 1e000000. 03000000. 03000000. 01000000 08000000 67000000. 03000000. 04000000. 09000000 08000000 6e696e652d62797465000000.",
    ),
    Row::Settles(15, WriteResult::Accepted),
    Row::Holds(32, 1, Asks::Rmdir("d")),
    Row::Performs(32, 39, "10000000 d9ffffff 20000000."),
    Row::Settles(16, WriteResult::Accepted),
    Row::Holds(34, 2, Asks::Unlink("g")),
    Row::Performs(34, 0, "10000000 . 22000000."),
    Row::Settles(17, WriteResult::Accepted),
    Row::Holds(36, 3, Asks::Release(1)),
    Row::Performs(36, 0, "10000000 . 24000000."),
    Row::Settles(18, WriteResult::Accepted),
    Row::Holds(38, 3, Asks::Release(2)),
    Row::Performs(38, 0, "10000000 . 26000000."),
    Row::Settles(19, WriteResult::Accepted),
    Row::Holds(40, 2, Asks::Unlink("nine-byte")),
    Row::Performs(40, 0, "10000000 . 28000000."),
    Row::Settles(20, WriteResult::Accepted),
    Row::Holds(42, 1, Asks::Rmdir("d")),
    Row::Performs(42, 0, "10000000 . 2a000000."),
    Row::Settles(21, WriteResult::Accepted),
    Row::Nodes(&[(2, 1, 1), (3, 2, 2)]),
];

/// Kept replies are sent again, and a refused copy gives back what it carried; then the mount is aborted.
static COPIES: [Row; 16] = [
    // copies of kept replies carry the same
    Row::Holds(44, 1, Asks::Create("c")),
    Row::Performs(
        44,
        0,
        "a0000000 . 2c000000. 04000000. 03000000. 01000000. .. 0065cd1d . 04000000. ............. a4810000 01000000 ... 00100000 . 03000000. ..",
    ),
    Row::Again(
        44,
        "a0000000 . 2c000000. 04000000. 03000000. 01000000. .. 0065cd1d . 04000000. ............. a4810000 01000000 ... 00100000 . 03000000. ..",
    ),
    Row::Nodes(&[(2, 1, 1), (3, 2, 2), (4, 3, 2)]),
    Row::Settles(23, WriteResult::NoEntry),
    Row::Nodes(&[(2, 1, 1), (3, 2, 2), (4, 3, 1)]),
    Row::NoCopy(44),
    Row::Settles(22, WriteResult::Accepted),
    Row::Holds(46, 4, Asks::Release(3)),
    Row::Performs(46, 0, "10000000 . 2e000000."),
    Row::Again(46, "10000000 . 2e000000."),
    Row::Unheld(46),
    // an INTERRUPT that is answered, and a request that is performed after an abort
    Row::Answers(
        "30000000 24000000 33000000. ...... 32000000.",
        "10000000 f5ffffff 33000000.",
    ),
    Row::Holds(52, 1, Asks::Mkdir("late")),
    Row::Abort,
    Row::Lost(52, 0),
];

fn replies() -> &'static [Row] {
    &REPLIES
}

#[test]
fn each_growth_refused(rt: HostRuntime) -> Result<(), Fail> {
    check_refused(&rt, rt.alloc(), replies(), &COPIES, "replies", 40)?;
    Ok(())
}
