//! What is printed of small captures, and what is said where memory runs out.

use fail_at::FailAt;
use fw_check::{CheckForm, CheckOptions, run_check};
use std::alloc::{AllocError, Allocator, Global};
use std::test::Fail;

/// INIT offers 7.31 with flag 1.
const INIT: &str =
    "> 380000001a0000000200000000000000000000000000000000000000000000000000000000000000070000001f0000000000000001000000";

/// The same in upper case.
const UPPER_INIT: &str =
    "> 380000001A0000000200000000000000000000000000000000000000000000000000000000000000070000001F0000000000000001000000";

/// INIT is answered with 7.31 and no flag.
const ANSWER: &str =
    "< 50000000000000000200000000000000070000001f0000000000000000000000000000000010000001000000000000000000000000000000000000000000000000000000000000000000000000000000";

/// The same, of which 44 bytes were kept.
const CUT_ANSWER: &str =
    "< 50000000000000000200000000000000070000001f0000000000000000000000000000000010000001000000 +36";

/// INIT is answered with 7.8.
const OLD_ANSWER: &str =
    "< 5000000000000000020000000000000007000000080000000000000000000000000000000100000010000000000000000000000000000000000000000000000000000000000000000000000000000000";

/// LOOKUP 4 of the name `a` in the root.
const LOOKUP: &str =
    "> 2a0000000100000004000000000000000100000000000000000000000000000000000000000000006100";

/// The same with a time before it.
const TIMED_LOOKUP: &str =
    "> @1200 2a0000000100000004000000000000000100000000000000000000000000000000000000000000006100";

/// LOOKUP 4 gives node 7 of inode 9, a file.
const ENTRY: &str =
    "< 9000000000000000040000000000000007000000000000000000000000000000000000000000000000000000000000000000000000000000090000000000000000000000000000000000000000000000000000000000000000000000000000000000000000000000000000000000000000000000a4810000010000000000000000000000000000000000000000000000";

/// The same, and the device finds no request for it.
const UNASKED_ENTRY: &str =
    "< 9000000000000000040000000000000007000000000000000000000000000000000000000000000000000000000000000000000000000000090000000000000000000000000000000000000000000000000000000000000000000000000000000000000000000000000000000000000000000000a4810000010000000000000000000000000000000000000000000000 ENOENT";

/// The same, and the device takes it for no reply to its request.
const REFUSED_ENTRY: &str =
    "< 9000000000000000040000000000000007000000000000000000000000000000000000000000000000000000000000000000000000000000090000000000000000000000000000000000000000000000000000000000000000000000000000000000000000000000000000000000000000000000a4810000010000000000000000000000000000000000000000000000 EINVAL";

/// LOOKUP 4 is answered ENOENT, 500 nanoseconds later.
const TIMED_FAILURE: &str = "< @1700 10000000feffffff0400000000000000";

/// FORGET 6 of one lookup of node 7.
const FORGET: &str =
    "> 300000000200000006000000000000000700000000000000000000000000000000000000000000000100000000000000";

/// FORGET 6 of three.
const FORGET_THREE: &str =
    "> 300000000200000006000000000000000700000000000000000000000000000000000000000000000300000000000000";

/// UNLINK 4 of the name `a` in the root.
const UNLINK: &str =
    "> 2a0000000a00000004000000000000000100000000000000000000000000000000000000000000006100";

/// Everybody's faults.
const EVERYONE: CheckOptions = CheckOptions {
    only: None,
    form: CheckForm::Words,
    node: None,
    is_summary: false,
    is_strict: false,
    is_joined: false,
};

/// The life of node 7.
const OF_NODE: CheckOptions = CheckOptions {
    only: None,
    form: CheckForm::Words,
    node: Some(7),
    is_summary: false,
    is_strict: false,
    is_joined: false,
};

/// The table of opcodes.
const OF_OPCODES: CheckOptions = CheckOptions {
    only: None,
    form: CheckForm::Words,
    node: None,
    is_summary: true,
    is_strict: false,
    is_joined: false,
};

/// The certain faults of a session that is joined.
const OF_A_REST: CheckOptions = CheckOptions {
    only: None,
    form: CheckForm::Words,
    node: None,
    is_summary: false,
    is_strict: false,
    is_joined: true,
};

/// A capture, and what is printed of it.
#[derive(Clone, Copy)]
struct Row {
    lines: &'static [&'static str],
    /// What ends each line.
    feed: &'static str,
    status: u8,
    output: &'static str,
    faults: &'static str,
}

static ROWS: [Row; 14] = [
    // A session with no fault: comments and the server's end are no transfers.
    Row {
        lines: &[
            INIT,
            "# the answer",
            ANSWER,
            "",
            LOOKUP,
            ENTRY,
            FORGET,
            "= closed",
        ],
        feed: "\n",
        status: 0,
        output: "requests 3 replies 2 notifications 0 refused 0 unanswered 0 entries 1 forgotten 1 nodes 0 open 0\nfaults: kernel 0 server 0 device 0, warnings 0\n",
        faults: "",
    },
    // The same in other words.
    Row {
        lines: &[
            UPPER_INIT,
            CUT_ANSWER,
            "= several readers",
            TIMED_LOOKUP,
            ENTRY,
            FORGET,
            "= ended ENODEV",
        ],
        feed: "\r\n",
        status: 0,
        output: "requests 3 replies 2 notifications 0 refused 0 unanswered 0 entries 1 forgotten 1 nodes 0 open 0\nfaults: kernel 0 server 0 device 0, warnings 0\n",
        faults: "",
    },
    Row {
        lines: &[],
        feed: "\n",
        status: 0,
        output: "requests 0 replies 0 notifications 0 refused 0 unanswered 0 entries 0 forgotten 0 nodes 0 open 0\nfaults: kernel 0 server 0 device 0, warnings 0\n",
        faults: "",
    },
    Row {
        lines: &[INIT, ANSWER, LOOKUP, ENTRY, UNASKED_ENTRY],
        feed: "\n",
        status: 6,
        output: "line 5: server: second reply: unique 4; LOOKUP read at line 3; answered at line 4\nrequests 2 replies 3 notifications 0 refused 1 unanswered 0 entries 1 forgotten 0 nodes 1 open 0\nfaults: kernel 0 server 1 device 0, warnings 0\n",
        faults: "",
    },
    Row {
        lines: &[INIT, ANSWER, LOOKUP, ENTRY, "#", FORGET_THREE],
        feed: "\n",
        status: 6,
        output: "line 6: kernel: forget of more than is counted: node 7 lookups 3; given at line 4, inode 9, count 1\nrequests 3 replies 2 notifications 0 refused 0 unanswered 0 entries 1 forgotten 3 nodes 0 open 0\nfaults: kernel 1 server 0 device 0, warnings 0\n",
        faults: "",
    },
    Row {
        lines: &[INIT, ANSWER, LOOKUP, REFUSED_ENTRY],
        feed: "\n",
        status: 6,
        output: "line 4: device: right reply refused: unique 4; LOOKUP read at line 3\nrequests 2 replies 2 notifications 0 refused 1 unanswered 0 entries 0 forgotten 0 nodes 0 open 0\nfaults: kernel 0 server 0 device 1, warnings 0\n",
        faults: "",
    },
    Row {
        lines: &[INIT, ANSWER, "= ended ENODEV", LOOKUP],
        feed: "\n",
        status: 6,
        output: "line 4: device: read after the end\nrequests 2 replies 1 notifications 0 refused 0 unanswered 1 entries 0 forgotten 0 nodes 0 open 0\nfaults: kernel 0 server 0 device 1, warnings 0\n",
        faults: "",
    },
    // No reply gave the name a file.
    Row {
        lines: &[INIT, ANSWER, UNLINK],
        feed: "\n",
        status: 6,
        output: "line 3: kernel: removal of a name that is missing: UNLINK 4\nrequests 2 replies 1 notifications 0 refused 0 unanswered 1 entries 0 forgotten 0 nodes 0 open 0\nfaults: kernel 1 server 0 device 0, warnings 0\n",
        faults: "",
    },
    // Frames of 7.8 are not judged: this one comes twice, and gives a node.
    Row {
        lines: &[INIT, OLD_ANSWER, LOOKUP, ENTRY, UNASKED_ENTRY],
        feed: "\n",
        status: 0,
        output: "line 2: not judged from here on: the sides agreed below 7.9, where entries and attributes are shorter\nrequests 2 replies 3 notifications 0 refused 1 unanswered 0 entries 0 forgotten 0 nodes 0 open 0\nfaults: kernel 0 server 0 device 0, warnings 0\n",
        faults: "",
    },
    // A frame by itself, and a header that is cut.
    Row {
        lines: &["> 00", "< 0000000000000000ff"],
        feed: "\n",
        status: 6,
        output: "line 1: kernel: malformed request\nline 2: server: malformed reply\nrequests 1 replies 1 notifications 0 refused 0 unanswered 0 entries 0 forgotten 0 nodes 0 open 0\nfaults: kernel 1 server 1 device 0, warnings 0\n",
        faults: "",
    },
    // Bad lines: what was printed before stays.
    Row {
        lines: &["> 00", "! 00", "> 00"],
        feed: "\n",
        status: 1,
        output: "line 1: kernel: malformed request\n",
        faults: "line 2: unknown direction\n",
    },
    Row {
        lines: &["> 000"],
        feed: "\n",
        status: 1,
        output: "",
        faults: "line 1: bad hex\n",
    },
    Row {
        lines: &["> 00 +16777216"],
        feed: "\n",
        status: 1,
        output: "",
        faults: "line 1: wrong words\n",
    },
    Row {
        lines: &["= ended"],
        feed: "\n",
        status: 1,
        output: "",
        faults: "line 1: wrong words\n",
    },
];

/// An entry, a forget of more than is counted, and what both do to the node.
const LIFE: Row = Row {
    lines: &[INIT, ANSWER, LOOKUP, ENTRY, FORGET_THREE],
    feed: "\n",
    status: 6,
    output: "line 4: LOOKUP 4 gives node 7: count 1\nline 5: FORGET 6 forgets node 7: lookups 3 count 0\nrequests 3 replies 2 notifications 0 refused 0 unanswered 0 entries 1 forgotten 3 nodes 0 open 0\nfaults: kernel 1 server 0 device 0, warnings 0\n",
    faults: "",
};

/// A removal in a session that is joined: the name may have been given before.
const JOINED: Row = Row {
    lines: &[UNLINK],
    feed: "\n",
    status: 0,
    output: "requests 1 replies 0 notifications 0 refused 0 unanswered 1 entries 0 forgotten 0 nodes 0 open 0\nfaults: kernel 0 server 0 device 0, warnings 0\n",
    faults: "",
};

/// A LOOKUP with times, and what the table says of it.
const TIMES: Row = Row {
    lines: &[INIT, ANSWER, TIMED_LOOKUP, TIMED_FAILURE],
    feed: "\n",
    status: 0,
    output: "opcode requests replies errors median p90 max\nLOOKUP 1 1 1 500 500 500\nINIT 1 1 0 - - -\nrequests 2 replies 2 notifications 0 refused 0 unanswered 0 entries 0 forgotten 0 nodes 0 open 0\nfaults: kernel 0 server 0 device 0, warnings 0\n",
    faults: "",
};

/// The bytes of a row's capture.
fn capture_of(alloc: Global, row: Row) -> Result<Vec<u8>, AllocError> {
    let mut capture = Vec::new(alloc);
    for line in row.lines {
        capture.extend_from_slice(line.as_bytes())?;
        capture.extend_from_slice(row.feed.as_bytes())?;
    }
    Ok(capture)
}

/// Whether what is wanted is printed of a row.
fn is_right(alloc: Global, options: CheckOptions, row: Row) -> Result<bool, AllocError> {
    let capture = capture_of(alloc, row)?;
    let mut input = capture.as_slice();
    let mut out = Vec::new(alloc);
    let mut faults = Vec::new(alloc);
    let status = run_check(alloc, options, "-", &mut input, &mut out, &mut faults);
    Ok(
        status == row.status
            && out.as_slice() == row.output.as_bytes()
            && faults.as_slice() == row.faults.as_bytes(),
    )
}

/// The first row of which something else is printed.
fn first_wrong(alloc: Global) -> Result<Option<usize>, AllocError> {
    for (place, row) in ROWS.iter().enumerate() {
        if !is_right(alloc, EVERYONE, *row)? {
            return Ok(Some(place));
        }
    }
    Ok(None)
}

#[test]
fn each_row(rt: HostRuntime) -> Result<(), Fail> {
    assert_eq!(rt; first_wrong(rt.alloc())?, None);
    Ok(())
}

#[test]
fn life_of_a_node(rt: HostRuntime) -> Result<(), Fail> {
    assert!(rt; is_right(rt.alloc(), OF_NODE, LIFE)?);
    Ok(())
}

#[test]
fn a_session_that_is_joined(rt: HostRuntime) -> Result<(), Fail> {
    assert!(rt; is_right(rt.alloc(), OF_A_REST, JOINED)?);
    Ok(())
}

#[test]
fn table_of_opcodes(rt: HostRuntime) -> Result<(), Fail> {
    assert!(rt; is_right(rt.alloc(), OF_OPCODES, TIMES)?);
    Ok(())
}

/// Whether a row is checked as it must, one of whose growths may be refused.
fn is_checked<A: Allocator + Copy>(
    alloc: A,
    options: CheckOptions,
    heap: &FailAt<Global>,
    outer: Global,
    row: Row,
    capture: &[u8],
) -> bool {
    let mut input = capture;
    let mut out = Vec::new(outer);
    let mut faults = Vec::new(outer);
    let status = run_check(alloc, options, "-", &mut input, &mut out, &mut faults);
    let wanted = row.output.as_bytes();
    if heap.left() == 0 {
        return status == 3
            && wanted.starts_with(out.as_slice())
            && faults.as_slice() == b"no memory\n".as_slice();
    }
    status == row.status && out.as_slice() == wanted && faults.as_slice() == row.faults.as_bytes()
}

/// How many growths the check of a row has, where each of them was refused in turn; `None` where it went wrong.
fn refused_growths(
    alloc: Global,
    options: CheckOptions,
    row: Row,
) -> Result<Option<u64>, AllocError> {
    let capture = capture_of(alloc, row)?;
    let heap = FailAt::new(alloc);
    let mut runs = 0;
    for n in heap.each_growth(200) {
        if !is_checked(&heap, options, &heap, alloc, row, &capture) {
            return Ok(None);
        }
        runs = n;
    }
    Ok(Some(runs))
}

#[test]
fn each_growth_refused(rt: HostRuntime) -> Result<(), Fail> {
    for (options, row) in [
        (EVERYONE, ROWS[3]),
        (EVERYONE, ROWS[7]),
        (OF_OPCODES, TIMES),
    ] {
        let runs = refused_growths(rt.alloc(), options, row)?.unwrap_or(0);
        assert!(rt; 5 < runs && runs < 200, "{runs}");
    }
    Ok(())
}
