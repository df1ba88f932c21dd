//! Nodes over their life, marks of INTERRUPTs, aborts and mounts.

use crate::tests::frames::{Asks, Row, run_on_new};
use fs_server::ServerFault;
use fuse_spec::{Taken, WriteResult};
use std::alloc::Global;
use std::process::Abort;
use std::test::Fail;

/// Mounts, and answers INIT.
static START: [Row; 4] = [
    Row::Mount(1000, 0),
    Row::Takes(
        "38000000 1a000000 02000000. ...... 07000000 1f000000 . 01000400",
        Taken::Held,
    ),
    Row::Performs(
        2,
        0,
        "50000000 . 02000000. 07000000 1f000000 . 01000400 0000 0000 00100000 01000000 0000 0000 ........",
    ),
    Row::Settles(1, WriteResult::Accepted),
];

/// The file `f` loses its last name while it is counted and open, and then its node.
static LAST_UNLINK: [Row; 28] = [
    Row::Holds(4, 1, Asks::Create("f")),
    Row::Performs(
        4,
        0,
        "a0000000 . 04000000. 02000000. 01000000. 01000000. .... 02000000. ............. a4810000 01000000 ... 00100000 . 01000000. ..",
    ),
    Row::Settles(2, WriteResult::Accepted),
    Row::Holds(6, 2, Asks::Write(1, 0, "hi")),
    Row::Performs(6, 0, "18000000 . 06000000. 02000000 ."),
    Row::Settles(3, WriteResult::Accepted),
    Row::Holds(8, 1, Asks::Unlink("f")),
    Row::Performs(8, 0, "10000000 . 08000000."),
    Row::Settles(4, WriteResult::Accepted),
    // it has no name, and is still what it was
    Row::Holds(10, 2, Asks::Getattr),
    Row::Performs(
        10,
        0,
        "78000000 . 0a000000. .... 02000000. 02000000. ........... a4810000 .... 00100000 .",
    ),
    Row::Settles(5, WriteResult::Accepted),
    Row::Holds(12, 2, Asks::Read(1, 0, 10)),
    Row::Performs(12, 0, "12000000 . 0c000000. 6869"),
    Row::Settles(6, WriteResult::Accepted),
    Row::Holds(14, 1, Asks::Link(2, "g")),
    Row::Performs(14, 2, "10000000 feffffff 0e000000."),
    Row::Settles(7, WriteResult::Accepted),
    // its node goes while a request about it is held
    Row::Holds(16, 2, Asks::Getattr),
    Row::Takes(
        "30000000 02000000 12000000. 02000000. .... 01000000.",
        Taken::Forgot,
    ),
    Row::Nodes(&[]),
    Row::Performs(16, 5, "10000000 fbffffff 10000000."),
    Row::Settles(8, WriteResult::Accepted),
    Row::Refuses(
        "38000000 03000000 14000000. 02000000. ........",
        ServerFault::UnknownNode,
        Some("10000000 fbffffff 14000000."),
    ),
    // the nodeid that went last comes first, under the next generation
    Row::Holds(22, 1, Asks::Create("f")),
    Row::Performs(
        22,
        0,
        "a0000000 . 16000000. 02000000. 02000000. 01000000. .... 03000000. ............. a4810000 01000000 ... 00100000 . 02000000. ..",
    ),
    Row::Settles(9, WriteResult::Accepted),
    Row::Nodes(&[(2, 2, 1)]),
];

/// A MKDIR is marked while it is held; then INTERRUPTs come of it too late.
static INTERRUPTED: [Row; 19] = [
    Row::Holds(4, 1, Asks::Mkdir("a")),
    Row::Takes(
        "30000000 24000000 05000000. ...... 04000000.",
        Taken::Marked,
    ),
    Row::Takes(
        "30000000 24000000 05000000. ...... 04000000.",
        Taken::Marked,
    ),
    Row::Performs(4, 4, "10000000 fcffffff 04000000."),
    // the reply is kept
    Row::Takes(
        "30000000 24000000 05000000. ...... 04000000.",
        Taken::Ignored,
    ),
    Row::Again(4, "10000000 fcffffff 04000000."),
    Row::Settles(2, WriteResult::Accepted),
    // the request is not known any more, and another never was
    Row::Answers(
        "30000000 24000000 05000000. ...... 04000000.",
        "10000000 f5ffffff 05000000.",
    ),
    Row::Answers(
        "30000000 24000000 09000000. ...... 08000000.",
        "10000000 f5ffffff 09000000.",
    ),
    Row::NoCopy(5),
    Row::Settles(4, WriteResult::Accepted),
    Row::Settles(5, WriteResult::NoEntry),
    // the mark was that of the request: nothing was made, and later ones are performed, also under its number
    Row::Holds(6, 1, Asks::Mkdir("a")),
    Row::Performs(
        6,
        0,
        "90000000 . 06000000. 02000000. 01000000. 01000000. .... 02000000. ............. ed410000 01000000 ... 00100000 .",
    ),
    Row::Holds(4, 1, Asks::Lookup("a")),
    Row::Performs(
        4,
        0,
        "90000000 . 04000000. 02000000. 01000000. 01000000. .... 02000000. ............. ed410000 01000000 ... 00100000 .",
    ),
    // an INTERRUPT after the reply changes no other copy
    Row::Takes(
        "30000000 24000000 07000000. ...... 06000000.",
        Taken::Ignored,
    ),
    Row::Again(
        6,
        "90000000 . 06000000. 02000000. 01000000. 01000000. .... 02000000. ............. ed410000 01000000 ... 00100000 .",
    ),
    Row::Nodes(&[(2, 1, 3)]),
];

/// Held requests are performed after an abort, without a copy; then come two mounts.
static ABORTED: [Row; 36] = [
    Row::Holds(4, 1, Asks::Mkdir("a")),
    Row::Performs(
        4,
        0,
        "90000000 . 04000000. 02000000. 01000000. 01000000. .... 02000000. ............. ed410000 01000000 ... 00100000 .",
    ),
    Row::Holds(6, 1, Asks::Mkdir("b")),
    Row::Holds(8, 1, Asks::Create("c")),
    Row::Holds(10, 1, Asks::Mkdir("d")),
    Row::Takes(
        "30000000 24000000 0b000000. ...... 0a000000.",
        Taken::Marked,
    ),
    Row::Abort,
    Row::Lost(6, 0),
    Row::Lost(8, 0),
    Row::Lost(10, 4),
    Row::NoCopy(4),
    Row::NoCopy(6),
    Row::NoSettle(2),
    // the table goes at the mount alone
    Row::Nodes(&[(2, 1, 1)]),
    Row::Holds(12, 1, Asks::Getattr),
    Row::Mount(1000, 0),
    Row::Unheld(12),
    Row::Nodes(&[]),
    // the tree stays, what was performed after the abort with it, and so do generations, file handles and copy numbers
    Row::Holds(4, 1, Asks::Lookup("b")),
    Row::Performs(
        4,
        0,
        "90000000 . 04000000. 02000000. 02000000. 01000000. .... 03000000. ............. ed410000 01000000 ... 00100000 .",
    ),
    Row::Holds(6, 1, Asks::Lookup("a")),
    Row::Performs(
        6,
        0,
        "90000000 . 06000000. 03000000. 03000000. 01000000. .... 02000000. ............. ed410000 01000000 ... 00100000 .",
    ),
    Row::Holds(8, 1, Asks::Lookup("c")),
    Row::Performs(
        8,
        0,
        "90000000 . 08000000. 04000000. 04000000. 01000000. .... 04000000. ............. a4810000 01000000 ... 00100000 .",
    ),
    Row::Holds(10, 1, Asks::Lookup("d")),
    Row::Performs(
        10,
        0,
        "90000000 . 0a000000. ................................",
    ),
    Row::Holds(12, 4, Asks::Open),
    Row::Performs(12, 0, "20000000 . 0c000000. 01000000. .."),
    Row::Abort,
    Row::Mount(0, 0),
    Row::Holds(4, 1, Asks::Lookup("c")),
    Row::Performs(
        4,
        0,
        "90000000 . 04000000. 02000000. 05000000. ...... 04000000. ............. a4810000 01000000 ... 00100000 .",
    ),
    Row::Holds(6, 2, Asks::Open),
    Row::Performs(6, 0, "20000000 . 06000000. 02000000. .."),
    Row::Settles(9, WriteResult::Accepted),
    Row::Nodes(&[(2, 5, 1)]),
];

/// Tries the rows on new servers that are started so.
fn run_started(rt: &impl Abort, alloc: Global, rows: &[Row], name: &str) {
    run_on_new(rt, alloc, &START, rows, name);
}

#[test]
fn nodes_marks_and_mounts(rt: HostRuntime) -> Result<(), Fail> {
    run_started(&rt, rt.alloc(), &LAST_UNLINK, "last unlink");
    run_started(&rt, rt.alloc(), &INTERRUPTED, "interrupted");
    run_started(&rt, rt.alloc(), &ABORTED, "aborted");
    Ok(())
}
