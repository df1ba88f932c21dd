//! Frames that no kernel sends, or that come when what they name is gone.

use crate::tests::frames::{Asks, Row, run_on_new};
use fs_server::ServerFault;
use fuse_spec::{Taken, WriteResult};
use std::alloc::Global;
use std::process::Abort;
use std::test::Fail;

/// Mounts, answers INIT, and makes the directory `a`: node 2 of generation 1, with a count of 1.
static START: [Row; 6] = [
    Row::Mount(1000, 0),
    Row::Takes(
        "38000000 1a000000 02000000. ...... 07000000 1f000000 . 01200400",
        Taken::Held,
    ),
    Row::Performs(
        2,
        0,
        "50000000 . 02000000. 07000000 1f000000 . 01200400 0000 0000 00100000 01000000 0000 0000 ........",
    ),
    Row::Settles(1, WriteResult::Accepted),
    Row::Holds(4, 1, Asks::Mkdir("a")),
    Row::Performs(
        4,
        0,
        "90000000 . 04000000. 02000000. 01000000. 01000000. .... 02000000. ............. ed410000 01000000 ... 00100000 .",
    ),
];

/// Faulty frames, and the replies to them. They change nothing.
static FAULTY: [Row; 17] = [
    Row::Settles(2, WriteResult::Accepted),
    // a frame of 39 bytes
    Row::Refuses(
        "2a0000000100000064000000.01000000....000000",
        ServerFault::Wire,
        None,
    ),
    // an opcode that is not known
    Row::Refuses(
        "28000000 63000000 64000000. 01000000. ....",
        ServerFault::Wire,
        Some("10000000 daffffff 64000000."),
    ),
    // a READDIRPLUS without its last eight bytes
    Row::Refuses(
        "48000000 2c000000 64000000. 01000000. ........ 00100000 ...",
        ServerFault::Wire,
        Some("10000000 fbffffff 64000000."),
    ),
    // a LOOKUP of no name, and one whose length is not its own
    Row::Refuses(
        "29000000 01000000 64000000. 01000000. .... 00",
        ServerFault::Wire,
        Some("10000000 fbffffff 64000000."),
    ),
    Row::Refuses(
        "2b000000 01000000 64000000. 01000000. .... 6100",
        ServerFault::Wire,
        None,
    ),
    // an INTERRUPT and a FORGET without their bodies
    Row::Refuses(
        "28000000 24000000 65000000. ......",
        ServerFault::Wire,
        None,
    ),
    Row::Refuses(
        "28000000 02000000 66000000. 02000000. ....",
        ServerFault::Wire,
        None,
    ),
    // a node that is not held, also as the second one that a RENAME or a LINK names
    Row::Refuses(
        "2a000000 01000000 64000000. 09000000. .... 6100",
        ServerFault::UnknownNode,
        Some("10000000 fbffffff 64000000."),
    ),
    Row::Refuses(
        "50000000 2c000000 64000000. 09000000. ........ 00100000 .....",
        ServerFault::UnknownNode,
        Some("10000000 fbffffff 64000000."),
    ),
    Row::Refuses(
        "34000000 0c000000 64000000. 01000000. .... 09000000. 6100 6200",
        ServerFault::UnknownNode,
        Some("10000000 fbffffff 64000000."),
    ),
    Row::Refuses(
        "32000000 0d000000 64000000. 01000000. .... 09000000. 6200",
        ServerFault::UnknownNode,
        Some("10000000 fbffffff 64000000."),
    ),
    // forgets of the root, and of more than there is, also by two pairs
    Row::Refuses(
        "30000000 02000000 66000000. 01000000. .... 01000000.",
        ServerFault::UnknownNode,
        None,
    ),
    Row::Refuses(
        "30000000 02000000 66000000. 02000000. .... 02000000.",
        ServerFault::TooManyForgets,
        None,
    ),
    Row::Refuses(
        "50000000 2a000000 66000000. ...... 02000000 . 02000000. 01000000. 02000000. 01000000.",
        ServerFault::TooManyForgets,
        None,
    ),
    // a node that is not held comes first, wherever it stands
    Row::Refuses(
        "50000000 2a000000 66000000. ...... 02000000 . 02000000. 02000000. 09000000. 01000000.",
        ServerFault::UnknownNode,
        None,
    ),
    Row::Nodes(&[(2, 1, 1)]),
];

/// A frame that is given twice.
static REPEATED: [Row; 9] = [
    Row::Settles(2, WriteResult::Accepted),
    Row::Takes(
        "2a000000 01000000 64000000. 01000000. .... 6100",
        Taken::Held,
    ),
    Row::Refuses(
        "2a000000 01000000 64000000. 01000000. .... 6100",
        ServerFault::RepeatedUnique,
        None,
    ),
    // of every kind of frame
    Row::Refuses(
        "30000000 02000000 64000000. 02000000. .... 01000000.",
        ServerFault::RepeatedUnique,
        None,
    ),
    Row::Refuses(
        "30000000 24000000 64000000. ...... 04000000.",
        ServerFault::RepeatedUnique,
        None,
    ),
    // and while the reply is kept
    Row::Performs(
        100,
        0,
        "90000000 . 64000000. 02000000. 01000000. 01000000. .... 02000000. ............. ed410000 01000000 ... 00100000 .",
    ),
    Row::Refuses(
        "2a000000 01000000 64000000. 01000000. .... 6100",
        ServerFault::RepeatedUnique,
        None,
    ),
    Row::Settles(3, WriteResult::Accepted),
    Row::Takes(
        "2a000000 01000000 64000000. 01000000. .... 6100",
        Taken::Held,
    ),
];

/// A node is forgotten while a request about it is held.
static GONE: [Row; 4] = [
    Row::Settles(2, WriteResult::Accepted),
    Row::Takes(
        "38000000 03000000 64000000. 02000000. ........",
        Taken::Held,
    ),
    Row::Takes(
        "30000000 02000000 66000000. 02000000. .... 01000000.",
        Taken::Forgot,
    ),
    Row::Performs(100, 5, "10000000 fbffffff 64000000."),
];

/// A file handle that is none.
static NOT_OPEN: [Row; 7] = [
    Row::Settles(2, WriteResult::Accepted),
    Row::Takes(
        "50000000 0f000000 64000000. 02000000. .... 07000000. .. 0a000000 .....",
        Taken::Held,
    ),
    Row::Performs(100, 9, "10000000 f7ffffff 64000000."),
    Row::Holds(104, 2, Asks::Release(7)),
    Row::Performs(104, 9, "10000000 f7ffffff 68000000."),
    Row::Holds(106, 2, Asks::Write(7, 0, "hi")),
    Row::Performs(106, 9, "10000000 f7ffffff 6a000000."),
];

/// A node is forgotten before the copy that named it is refused: nothing is left to take back.
static REFUSED_LATE: [Row; 6] = [
    Row::Nodes(&[(2, 1, 1)]),
    Row::Takes(
        "30000000 02000000 66000000. 02000000. .... 01000000.",
        Taken::Forgot,
    ),
    Row::Nodes(&[]),
    Row::Settles(2, WriteResult::NoEntry),
    Row::Nodes(&[]),
    Row::NoSettle(2),
];

/// Tries the rows on new servers that are started so.
fn run_started(rt: &impl Abort, alloc: Global, rows: &[Row], name: &str) {
    run_on_new(rt, alloc, &START, rows, name);
}

#[test]
fn frames_are_refused(rt: HostRuntime) -> Result<(), Fail> {
    run_started(&rt, rt.alloc(), &FAULTY, "faulty");
    run_started(&rt, rt.alloc(), &REPEATED, "repeated");
    run_started(&rt, rt.alloc(), &GONE, "gone");
    run_started(&rt, rt.alloc(), &NOT_OPEN, "not open");
    run_started(&rt, rt.alloc(), &REFUSED_LATE, "refused late");
    Ok(())
}
