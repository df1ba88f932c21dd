//! Names that are listed together with their files, each of which is counted (linux/fuse.h, struct fuse_direntplus).

use crate::tests::frames::{Asks, Row, check_refused, run_on_new};
use fuse_spec::{Taken, WriteResult};
use std::alloc::Global;
use std::process::Abort;
use std::test::Fail;

/// The directory `a`, node 2 of generation 1, and the file `bb`, node 3 of generation 2, in the reply under unique 8.
const BOTH: &str =
    "50010000 . 08000000. 02000000. 01000000. 01000000. .... 02000000. ............. ed410000 01000000 ... 00100000 . 02000000. 01000000. 01000000 04000000 61000000. 03000000. 02000000. 01000000. .... 03000000. ............. a4810000 01000000 ... 00100000 . 03000000. 02000000. 02000000 08000000 62620000.";

/// The file `a`, node 2 of generation 1, also under the name `b`, in the reply under unique 8.
const TWICE: &str =
    "50010000 . 08000000. 02000000. 01000000. 01000000. .... 02000000. ............. a4810000 02000000 ... 00100000 . 02000000. 01000000. 01000000 08000000 61000000. 02000000. 01000000. 01000000. .... 02000000. ............. a4810000 02000000 ... 00100000 . 02000000. 02000000. 01000000 08000000 62000000.";

/// Mounts, answers INIT, and makes the directory `a` and the file `bb`, each with a count of 1.
static START: [Row; 10] = [
    Row::Mount(1000, 0),
    Row::Takes(
        "38000000 1a000000 02000000. ...... 07000000 1f000000 . 01200400",
        Taken::Held,
    ),
    Row::Performs(
        2,
        0,
        "50000000 . 02000000. 07000000 1f000000 . 01200400 0000 0000 00100000 01000000 0000 0000 ........",
    ),
    Row::Settles(1, WriteResult::Accepted),
    Row::Holds(4, 1, Asks::Mkdir("a")),
    Row::Performs(
        4,
        0,
        "90000000 . 04000000. 02000000. 01000000. 01000000. .... 02000000. ............. ed410000 01000000 ... 00100000 .",
    ),
    Row::Settles(2, WriteResult::Accepted),
    Row::Holds(6, 1, Asks::Create("bb")),
    Row::Performs(
        6,
        0,
        "a0000000 . 06000000. 03000000. 02000000. 01000000. .... 03000000. ............. a4810000 01000000 ... 00100000 . 01000000. ..",
    ),
    Row::Settles(3, WriteResult::Accepted),
];

/// Each copy counts each file, and each refused copy gives every count back.
static COPIED: [Row; 12] = [
    Row::Holds(8, 1, Asks::Readdirplus(0, 4096)),
    Row::Nodes(&[(2, 1, 1), (3, 2, 1)]),
    Row::Performs(8, 0, BOTH),
    Row::Nodes(&[(2, 1, 2), (3, 2, 2)]),
    Row::Again(8, BOTH),
    Row::Nodes(&[(2, 1, 3), (3, 2, 3)]),
    Row::Settles(5, WriteResult::NoEntry),
    Row::Nodes(&[(2, 1, 2), (3, 2, 2)]),
    // the reply is not kept any longer
    Row::NoCopy(8),
    Row::Settles(4, WriteResult::Invalid),
    Row::Nodes(&[(2, 1, 1), (3, 2, 1)]),
    Row::NoSettle(4),
];

/// No copy is sent once one of the nodes is forgotten, nor once its file has a node under another generation.
static FORGOTTEN: [Row; 10] = [
    Row::Holds(8, 1, Asks::Readdirplus(0, 4096)),
    Row::Performs(8, 0, BOTH),
    Row::Takes(
        "30000000 02000000 0a000000. 02000000. .... 02000000.",
        Taken::Forgot,
    ),
    Row::Nodes(&[(3, 2, 2)]),
    Row::NoCopy(8),
    Row::Holds(12, 1, Asks::Lookup("a")),
    Row::Performs(
        12,
        0,
        "90000000 . 0c000000. 02000000. 03000000. 01000000. .... 02000000. ............. ed410000 01000000 ... 00100000 .",
    ),
    Row::NoCopy(8),
    // what is still held under its generation is given back
    Row::Settles(4, WriteResult::NoEntry),
    Row::Nodes(&[(2, 3, 1), (3, 2, 1)]),
];

/// A file with two names is counted for each of them.
static TWO_NAMES: [Row; 20] = [
    Row::Mount(1000, 0),
    Row::Takes(
        "38000000 1a000000 02000000. ...... 07000000 1f000000 . 01200400",
        Taken::Held,
    ),
    Row::Performs(
        2,
        0,
        "50000000 . 02000000. 07000000 1f000000 . 01200400 0000 0000 00100000 01000000 0000 0000 ........",
    ),
    Row::Settles(1, WriteResult::Accepted),
    Row::Holds(4, 1, Asks::Create("a")),
    Row::Performs(
        4,
        0,
        "a0000000 . 04000000. 02000000. 01000000. 01000000. .... 02000000. ............. a4810000 01000000 ... 00100000 . 01000000. ..",
    ),
    Row::Settles(2, WriteResult::Accepted),
    Row::Holds(6, 1, Asks::Link(2, "b")),
    Row::Performs(
        6,
        0,
        "90000000 . 06000000. 02000000. 01000000. 01000000. .... 02000000. ............. a4810000 02000000 ... 00100000 .",
    ),
    Row::Settles(3, WriteResult::Accepted),
    Row::Holds(8, 1, Asks::Readdirplus(0, 4096)),
    Row::Performs(8, 0, TWICE),
    Row::Nodes(&[(2, 1, 4)]),
    Row::Again(8, TWICE),
    Row::Nodes(&[(2, 1, 6)]),
    Row::Settles(5, WriteResult::NoEntry),
    Row::Nodes(&[(2, 1, 4)]),
    Row::Takes(
        "30000000 02000000 0a000000. 02000000. .... 02000000.",
        Taken::Forgot,
    ),
    Row::Settles(4, WriteResult::NoEntry),
    Row::Nodes(&[]),
];

/// As many whole pairs are listed as fit, from an offset on.
static PARTS: [Row; 12] = [
    Row::Holds(8, 1, Asks::Readdirplus(0, 319)),
    Row::Performs(
        8,
        0,
        "b0000000 . 08000000. 02000000. 01000000. 01000000. .... 02000000. ............. ed410000 01000000 ... 00100000 . 02000000. 01000000. 01000000 04000000 61000000.",
    ),
    Row::Holds(10, 1, Asks::Readdirplus(0, 159)),
    Row::Performs(10, 0, "10000000 . 0a000000."),
    Row::Nodes(&[(2, 1, 2), (3, 2, 1)]),
    Row::Holds(12, 1, Asks::Readdirplus(1, 4096)),
    Row::Performs(
        12,
        0,
        "b0000000 . 0c000000. 03000000. 02000000. 01000000. .... 03000000. ............. a4810000 01000000 ... 00100000 . 03000000. 02000000. 02000000 08000000 62620000.",
    ),
    Row::Holds(14, 1, Asks::Readdirplus(2, 4096)),
    Row::Performs(14, 0, "10000000 . 0e000000."),
    // a file is no directory
    Row::Holds(16, 3, Asks::Readdirplus(0, 4096)),
    Row::Performs(16, 20, "10000000 ecffffff 10000000."),
    Row::Nodes(&[(2, 1, 2), (3, 2, 2)]),
];

/// What is marked or comes after an abort counts nothing; the files that are listed after a mount get new nodes.
static LOST: [Row; 11] = [
    Row::Holds(8, 1, Asks::Readdirplus(0, 4096)),
    Row::Takes(
        "30000000 24000000 09000000. ...... 08000000.",
        Taken::Marked,
    ),
    Row::Performs(8, 4, "10000000 fcffffff 08000000."),
    Row::Holds(10, 1, Asks::Readdirplus(0, 4096)),
    Row::Abort,
    Row::Lost(10, 0),
    Row::Nodes(&[(2, 1, 1), (3, 2, 1)]),
    Row::Mount(1000, 0),
    Row::Holds(4, 1, Asks::Readdirplus(0, 4096)),
    Row::Performs(
        4,
        0,
        "50010000 . 04000000. 02000000. 03000000. 01000000. .... 02000000. ............. ed410000 01000000 ... 00100000 . 02000000. 01000000. 01000000 04000000 61000000. 03000000. 04000000. 01000000. .... 03000000. ............. a4810000 01000000 ... 00100000 . 03000000. 02000000. 02000000 08000000 62620000.",
    ),
    Row::Nodes(&[(2, 3, 1), (3, 4, 1)]),
];

/// What mounts and makes both files.
fn start() -> &'static [Row] {
    &START
}

/// Tries the rows on new servers that are started so.
fn run_started(rt: &impl Abort, alloc: Global, rows: &[Row], name: &str) {
    run_on_new(rt, alloc, start(), rows, name);
}

#[test]
fn files_are_counted(rt: HostRuntime) -> Result<(), Fail> {
    run_started(&rt, rt.alloc(), &FORGOTTEN, "forgotten");
    run_on_new(&rt, rt.alloc(), &TWO_NAMES, &[], "two names");
    Ok(())
}

#[test]
fn files_are_counted_in_parts(rt: HostRuntime) -> Result<(), Fail> {
    run_started(&rt, rt.alloc(), &PARTS, "parts");
    run_started(&rt, rt.alloc(), &LOST, "lost");
    Ok(())
}

#[test]
fn each_growth_refused(rt: HostRuntime) -> Result<(), Fail> {
    check_refused(&rt, rt.alloc(), start(), &COPIED, "copied", 20)?;
    Ok(())
}
