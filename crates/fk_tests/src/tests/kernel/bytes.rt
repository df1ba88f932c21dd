//! Bytes that no server of this project sends.

use super::{Expected, Reads, Row, Written, run_mounted};
use fk_kernel::Call;
use fk_wire::Opcode;
use fuse_spec::{Kind, Refusal, WriteResult};
use std::alloc::Global;
use std::process::Abort;
use std::test::Fail;

/// Bytes that end nothing: the call waits.
static WAITING: [Row; 17] = [
    Row::Begin(Call::Stat { path: b"/a" }, Ok(1)),
    Row::Read(0, Reads::Head(4, Opcode::Lookup)),
    Row::Write(Written::Whole("...000000"), WriteResult::Invalid),
    Row::Write(Written::Whole(""), WriteResult::Invalid),
    Row::Write(Written::Whole("11000000 . 04000000."), WriteResult::Invalid),
    Row::Write(Written::Whole("10000000 ..."), WriteResult::NoEntry),
    Row::Write(
        Written::Whole("10000000 00feffff 04000000."),
        WriteResult::Invalid,
    ),
    Row::Write(
        Written::Whole("10000000 01000000 04000000."),
        WriteResult::Invalid,
    ),
    // to a request that is not there, and to an INTERRUPT
    Row::Write(Written::Whole("10000000 . 06000000."), WriteResult::NoEntry),
    Row::Write(Written::Whole("10000000 . 07000000."), WriteResult::NoEntry),
    Row::Write(
        Written::Whole(
            "50000000 . 02000000. 07000000 1f000000 . 01000000 0000 0000 00100000 01000000 0000 0000 ........",
        ),
        WriteResult::NoEntry,
    ),
    Row::Unanswered(1),
    Row::Forget(1, Reads::Refused(Refusal::NoSuch)),
    // the largest error number is a reply like any other
    Row::Write(
        Written::Whole("10000000 01feffff 04000000."),
        WriteResult::Accepted,
    ),
    Row::Answered(1, Expected::Errno(511)),
    // the request ended with it
    Row::Write(
        Written::Whole("10000000 01feffff 04000000."),
        WriteResult::NoEntry,
    ),
    Row::Unanswered(0),
];

/// An entry with a byte less.
static SHORT_ENTRY: [Row; 5] = [
    Row::Begin(Call::Stat { path: b"/a" }, Ok(1)),
    Row::Read(0, Reads::Head(4, Opcode::Lookup)),
    Row::Write(
        Written::Whole("8f000000 . 04000000. ...............................000000"),
        WriteResult::Invalid,
    ),
    Row::Answered(1, Expected::Errno(5)),
    Row::Nodes(&[]),
];

/// An error with a body.
static ERROR_WITH_BODY: [Row; 4] = [
    Row::Begin(Call::Stat { path: b"/a" }, Ok(1)),
    Row::Read(0, Reads::Head(4, Opcode::Lookup)),
    Row::Write(
        Written::Whole("18000000 feffffff 04000000. .."),
        WriteResult::Invalid,
    ),
    Row::Answered(1, Expected::Errno(5)),
];

/// An entry that is valid for a second of nanoseconds.
static NANOSECONDS: [Row; 6] = [
    Row::Begin(Call::Stat { path: b"/a" }, Ok(1)),
    Row::Read(0, Reads::Head(4, Opcode::Lookup)),
    Row::Write(
        Written::Whole(
            "90000000 . 04000000. 02000000. 01000000. .... 00ca9a3b . 02000000. ............. ed410000 01000000 ... 00100000 .",
        ),
        WriteResult::Invalid,
    ),
    Row::Answered(1, Expected::Errno(5)),
    Row::Nodes(&[]),
    Row::Forget(1, Reads::Refused(Refusal::NoSuch)),
];

/// An entry that names the root: nothing is counted.
static NAMES_THE_ROOT: [Row; 6] = [
    Row::Begin(Call::Stat { path: b"/a" }, Ok(1)),
    Row::Read(0, Reads::Head(4, Opcode::Lookup)),
    Row::Write(
        Written::Whole(
            "90000000 . 04000000. 01000000. 01000000. 01000000. .... 01000000. ............. ed410000 01000000 ... 00100000 .",
        ),
        WriteResult::Accepted,
    ),
    Row::Answered(1, Expected::Errno(5)),
    Row::Nodes(&[]),
    Row::Forget(1, Reads::Refused(Refusal::NoSuch)),
];

/// An entry for a counted node under another generation: a forget of one lookup comes of it.
static ANOTHER_GENERATION: [Row; 12] = [
    Row::Begin(Call::Mkdir { path: b"/a" }, Ok(1)),
    Row::Read(0, Reads::Head(4, Opcode::Mkdir)),
    Row::Write(
        Written::Whole(
            "90000000 . 04000000. 02000000. 01000000. 01000000. .... 02000000. ............. ed410000 01000000 ... 00100000 .",
        ),
        WriteResult::Accepted,
    ),
    Row::Answered(1, Expected::Done),
    Row::Tick(1000, Ok(1000)),
    Row::Begin(Call::Stat { path: b"/a" }, Ok(2)),
    Row::Read(0, Reads::Head(6, Opcode::Lookup)),
    Row::Write(
        Written::Whole(
            "90000000 . 06000000. 02000000. 09000000. 01000000. .... 02000000. ............. ed410000 01000000 ... 00100000 .",
        ),
        WriteResult::Accepted,
    ),
    Row::Answered(2, Expected::Errno(5)),
    Row::Nodes(&[(2, 1, 1)]),
    Row::Forget(2, Reads::Refused(Refusal::NoSuch)),
    Row::Forget(
        1,
        Reads::Frame("30000000 02000000 08000000. 02000000. .... 01000000."),
    ),
];

/// An entry without a node, to a MKDIR.
static NO_NODE: [Row; 6] = [
    Row::Begin(Call::Mkdir { path: b"/a" }, Ok(1)),
    Row::Read(0, Reads::Head(4, Opcode::Mkdir)),
    Row::Write(
        Written::Whole(
            "90000000 . 04000000. .. 01000000. 01000000. .... 02000000. ............. ed410000 01000000 ... 00100000 .",
        ),
        WriteResult::Accepted,
    ),
    Row::Answered(1, Expected::Errno(5)),
    Row::Forget(1, Reads::Refused(Refusal::NoSuch)),
    Row::Nodes(&[]),
];

/// A list with `.` and with a file of another kind.
static UNUSUAL_NAMES: [Row; 4] = [
    Row::Begin(
        Call::List {
            path: b"/",
            after: 0,
        },
        Ok(1),
    ),
    Row::Read(0, Reads::Head(4, Opcode::Readdir)),
    Row::Write(
        Written::Whole(
            "50000000 . 04000000. 01000000. 01000000. 01000000 04000000 2e000000. 02000000. 02000000. 01000000 0a000000 6c000000.",
        ),
        WriteResult::Accepted,
    ),
    Row::Answered(
        1,
        Expected::Names(&[(1, 1, Kind::Directory, "."), (2, 2, Kind::Other, "l")]),
    ),
];

/// A list with a name that has a slash.
static SLASH_IN_NAME: [Row; 4] = [
    Row::Begin(
        Call::List {
            path: b"/",
            after: 0,
        },
        Ok(1),
    ),
    Row::Read(0, Reads::Head(4, Opcode::Readdir)),
    Row::Write(
        Written::Whole("30000000 . 04000000. 01000000. 01000000. 02000000 04000000 612f0000."),
        WriteResult::Invalid,
    ),
    Row::Answered(1, Expected::Errno(5)),
];

/// A list of 4,128 bytes, where 4,096 were asked.
static LONG_LIST: [Row; 4] = [
    Row::Begin(
        Call::List {
            path: b"/",
            after: 0,
        },
        Ok(1),
    ),
    Row::Read(0, Reads::Head(4, Opcode::Readdir)),
    Row::Write(
        Written::Repeated(
            "30100000 . 04000000.",
            "02000000. 01000000. 01000000 04000000 61000000.",
            129,
        ),
        WriteResult::Invalid,
    ),
    Row::Answered(1, Expected::Errno(5)),
];

/// A list of 4,096 bytes.
static WHOLE_LIST: [Row; 4] = [
    Row::Begin(
        Call::List {
            path: b"/",
            after: 0,
        },
        Ok(1),
    ),
    Row::Read(0, Reads::Head(4, Opcode::Readdir)),
    Row::Write(
        Written::Repeated(
            "10100000 . 04000000.",
            "02000000. 01000000. 01000000 04000000 61000000.",
            128,
        ),
        WriteResult::Accepted,
    ),
    Row::Answered(1, Expected::NamesLength(128)),
];

/// Reads of 10 bytes: a reply of 11, and one of 10.
static LONG_READ: [Row; 12] = [
    Row::Begin(Call::Create { path: b"/a" }, Ok(1)),
    Row::Read(0, Reads::Head(4, Opcode::Create)),
    Row::Write(
        Written::Whole(
            "a0000000 . 04000000. 02000000. 01000000. 01000000. .... 02000000. ............. a4810000 01000000 ... 00100000 . 01000000. ..",
        ),
        WriteResult::Accepted,
    ),
    Row::Answered(1, Expected::Done),
    Row::Begin(
        Call::Read {
            open_call: 1,
            offset: 0,
            size: 10,
        },
        Ok(2),
    ),
    Row::Read(0, Reads::Head(6, Opcode::Read)),
    Row::Write(
        Written::Whole("1b000000 . 06000000. ..000000"),
        WriteResult::Invalid,
    ),
    Row::Answered(2, Expected::Errno(5)),
    Row::Begin(
        Call::Read {
            open_call: 1,
            offset: 0,
            size: 10,
        },
        Ok(3),
    ),
    Row::Read(0, Reads::Head(8, Opcode::Read)),
    Row::Write(
        Written::Whole("1a000000 . 08000000. 61616161616161616161"),
        WriteResult::Accepted,
    ),
    Row::Answered(3, Expected::Bytes("aaaaaaaaaa")),
];

/// Writes of two bytes: a reply of three, and one of one.
static LONG_WRITE: [Row; 12] = [
    Row::Begin(Call::Create { path: b"/a" }, Ok(1)),
    Row::Read(0, Reads::Head(4, Opcode::Create)),
    Row::Write(
        Written::Whole(
            "a0000000 . 04000000. 02000000. 01000000. 01000000. .... 02000000. ............. a4810000 01000000 ... 00100000 . 01000000. ..",
        ),
        WriteResult::Accepted,
    ),
    Row::Answered(1, Expected::Done),
    Row::Begin(
        Call::Write {
            open_call: 1,
            offset: 0,
            bytes: b"hi",
        },
        Ok(2),
    ),
    Row::Read(0, Reads::Head(6, Opcode::Write)),
    Row::Write(
        Written::Whole("18000000 . 06000000. 03000000 ."),
        WriteResult::Invalid,
    ),
    Row::Answered(2, Expected::Errno(5)),
    Row::Begin(
        Call::Write {
            open_call: 1,
            offset: 0,
            bytes: b"hi",
        },
        Ok(3),
    ),
    Row::Read(0, Reads::Head(8, Opcode::Write)),
    Row::Write(
        Written::Whole("18000000 . 08000000. 01000000 ."),
        WriteResult::Accepted,
    ),
    Row::Answered(3, Expected::Written(1)),
];

/// A CREATE whose entry is of a counted node under another generation.
static CREATED_UNLIKE: [Row; 13] = [
    Row::Begin(Call::Create { path: b"/a" }, Ok(1)),
    Row::Read(0, Reads::Head(4, Opcode::Create)),
    Row::Write(
        Written::Whole(
            "a0000000 . 04000000. 02000000. 01000000. 01000000. .... 02000000. ............. a4810000 01000000 ... 00100000 . 01000000. ..",
        ),
        WriteResult::Accepted,
    ),
    Row::Answered(1, Expected::Done),
    Row::Begin(Call::Create { path: b"/b" }, Ok(2)),
    Row::Read(0, Reads::Head(6, Opcode::Create)),
    Row::Write(
        Written::Whole(
            "a0000000 . 06000000. 02000000. 09000000. 01000000. .... 03000000. ............. a4810000 01000000 ... 00100000 . 05000000. ..",
        ),
        WriteResult::Accepted,
    ),
    Row::Answered(2, Expected::Errno(5)),
    // the file handle is dropped: nothing is released, and the call has no open file
    Row::Read(0, Reads::Refused(Refusal::NoSuch)),
    Row::Forget(2, Reads::Refused(Refusal::NoSuch)),
    Row::Forget(
        1,
        Reads::Frame("30000000 02000000 08000000. 02000000. .... 01000000."),
    ),
    Row::Begin(Call::Close { open_call: 2 }, Ok(3)),
    Row::Answered(3, Expected::Errno(9)),
];

/// A CREATE whose entry names the root.
static CREATED_ROOT: [Row; 12] = [
    Row::Begin(Call::Create { path: b"/a" }, Ok(1)),
    Row::Read(0, Reads::Head(4, Opcode::Create)),
    Row::Write(
        Written::Whole(
            "a0000000 . 04000000. 02000000. 01000000. 01000000. .... 02000000. ............. a4810000 01000000 ... 00100000 . 01000000. ..",
        ),
        WriteResult::Accepted,
    ),
    Row::Answered(1, Expected::Done),
    Row::Begin(Call::Create { path: b"/b" }, Ok(2)),
    Row::Read(0, Reads::Head(6, Opcode::Create)),
    Row::Write(
        Written::Whole(
            "a0000000 . 06000000. 01000000. 01000000. 01000000. .... 01000000. ............. a4810000 01000000 ... 00100000 . 05000000. ..",
        ),
        WriteResult::Accepted,
    ),
    Row::Answered(2, Expected::Errno(5)),
    // the file handle is dropped: nothing is released, and the call has no open file
    Row::Read(0, Reads::Refused(Refusal::NoSuch)),
    Row::Forget(1, Reads::Refused(Refusal::NoSuch)),
    Row::Begin(Call::Close { open_call: 2 }, Ok(3)),
    Row::Answered(3, Expected::Errno(9)),
];

/// A CREATE whose entry names no node.
static CREATED_NOTHING: [Row; 12] = [
    Row::Begin(Call::Create { path: b"/a" }, Ok(1)),
    Row::Read(0, Reads::Head(4, Opcode::Create)),
    Row::Write(
        Written::Whole(
            "a0000000 . 04000000. 02000000. 01000000. 01000000. .... 02000000. ............. a4810000 01000000 ... 00100000 . 01000000. ..",
        ),
        WriteResult::Accepted,
    ),
    Row::Answered(1, Expected::Done),
    Row::Begin(Call::Create { path: b"/b" }, Ok(2)),
    Row::Read(0, Reads::Head(6, Opcode::Create)),
    Row::Write(
        Written::Whole(
            "a0000000 . 06000000. .. 01000000. 01000000. .... 01000000. ............. a4810000 01000000 ... 00100000 . 05000000. ..",
        ),
        WriteResult::Accepted,
    ),
    Row::Answered(2, Expected::Errno(5)),
    // the file handle is dropped: nothing is released, and the call has no open file
    Row::Read(0, Reads::Refused(Refusal::NoSuch)),
    Row::Forget(1, Reads::Refused(Refusal::NoSuch)),
    Row::Begin(Call::Close { open_call: 2 }, Ok(3)),
    Row::Answered(3, Expected::Errno(9)),
];

/// Any reply ends a RELEASE.
static RELEASED: [Row; 13] = [
    Row::Begin(Call::Create { path: b"/a" }, Ok(1)),
    Row::Read(0, Reads::Head(4, Opcode::Create)),
    Row::Write(
        Written::Whole(
            "a0000000 . 04000000. 02000000. 01000000. 01000000. .... 02000000. ............. a4810000 01000000 ... 00100000 . 01000000. ..",
        ),
        WriteResult::Accepted,
    ),
    Row::Answered(1, Expected::Done),
    Row::Begin(Call::Close { open_call: 1 }, Ok(2)),
    Row::Answered(2, Expected::Done),
    Row::Read(0, Reads::Head(6, Opcode::Release)),
    Row::Evict(2, Err(Refusal::Busy)),
    Row::Write(
        Written::Whole("18000000 . 06000000. 01000000."),
        WriteResult::Invalid,
    ),
    Row::Write(
        Written::Whole("10000000 fbffffff 06000000."),
        WriteResult::NoEntry,
    ),
    Row::DropName(1, "a", Ok(())),
    Row::Evict(2, Ok(1)),
    Row::Unanswered(0),
];

/// Bytes that are no reply to a call.
fn check_replies(rt: &impl Abort, alloc: Global) {
    run_mounted(rt, alloc, &WAITING, "waiting");
    run_mounted(rt, alloc, &SHORT_ENTRY, "short entry");
    run_mounted(rt, alloc, &ERROR_WITH_BODY, "error with body");
    run_mounted(rt, alloc, &NANOSECONDS, "nanoseconds");
    run_mounted(rt, alloc, &NAMES_THE_ROOT, "names the root");
    run_mounted(rt, alloc, &ANOTHER_GENERATION, "another generation");
    run_mounted(rt, alloc, &NO_NODE, "no node");
}

/// Lists and contents of unusual names and lengths.
fn check_lists(rt: &impl Abort, alloc: Global) {
    run_mounted(rt, alloc, &UNUSUAL_NAMES, "unusual names");
    run_mounted(rt, alloc, &SLASH_IN_NAME, "slash in name");
    run_mounted(rt, alloc, &LONG_LIST, "long list");
    run_mounted(rt, alloc, &WHOLE_LIST, "whole list");
    run_mounted(rt, alloc, &LONG_READ, "long read");
    run_mounted(rt, alloc, &LONG_WRITE, "long write");
}

/// Entries of new files, and the reply to a RELEASE.
fn check_created(rt: &impl Abort, alloc: Global) {
    run_mounted(rt, alloc, &CREATED_UNLIKE, "created unlike");
    run_mounted(rt, alloc, &CREATED_ROOT, "created root");
    run_mounted(rt, alloc, &CREATED_NOTHING, "created nothing");
    run_mounted(rt, alloc, &RELEASED, "released");
}

#[test]
fn any_bytes(rt: HostRuntime) -> Result<(), Fail> {
    check_replies(&rt, rt.alloc());
    check_lists(&rt, rt.alloc());
    check_created(&rt, rt.alloc());
    Ok(())
}
