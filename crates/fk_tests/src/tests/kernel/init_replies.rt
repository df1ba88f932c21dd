//! Replies to INIT: by one that agrees on nothing the mount is aborted, and one of 7.15 makes it ready.

use super::{Expected, Reads, Row, Written, run_on_new, run_three};
use fk_kernel::Call;
use fk_wire::Opcode;
use fuse_spec::{Refusal, WriteResult};
use std::alloc::Global;
use std::process::Abort;
use std::test::Fail;

/// A name, a reply to INIT, and what its writer gets.
type Case = (&'static str, &'static str, WriteResult);

/// INIT is read.
static READ: [Row; 2] = [
    Row::Mount(Ok(())),
    Row::Read(0, Reads::Head(2, Opcode::Init)),
];

/// The mount is aborted: INIT is answered, calls are answered ENOTCONN, also for a faulty path, and a new mount may
/// come.
static ABORTED: [Row; 12] = [
    Row::Read(0, Reads::Refused(Refusal::NotReady)),
    Row::Abort(Err(Refusal::NotReady)),
    Row::Write(
        Written::Whole("10000000 faffffff 02000000."),
        WriteResult::NoEntry,
    ),
    Row::Begin(Call::Stat { path: b"/" }, Ok(1)),
    Row::Answered(1, Expected::Errno(107)),
    Row::Begin(Call::Stat { path: b"a" }, Ok(2)),
    Row::Answered(2, Expected::Errno(107)),
    Row::Mount(Ok(())),
    Row::Read(0, Reads::Head(2, Opcode::Init)),
    Row::Write(
        Written::Whole(
            "50000000 . 02000000. 07000000 1f000000 . 01000400 0000 0000 00100000 01000000 0000 0000 ........",
        ),
        WriteResult::Accepted,
    ),
    Row::Begin(Call::Stat { path: b"/" }, Ok(3)),
    Row::Read(0, Reads::Head(4, Opcode::Getattr)),
];

/// Bytes that are no reply to INIT: it waits, and is answered then.
static WAITS: [Row; 9] = [
    Row::Write(Written::Whole("...000000"), WriteResult::Invalid),
    Row::Write(
        Written::Whole(
            "51000000 . 02000000. 07000000 1f000000 . 01000400 0000 0000 00100000 01000000 0000 0000 ........",
        ),
        WriteResult::Invalid,
    ),
    Row::Write(
        Written::Whole("10000000 00feffff 02000000."),
        WriteResult::Invalid,
    ),
    Row::Write(
        Written::Whole(
            "50000000 . 04000000. 07000000 1f000000 . 01000400 0000 0000 00100000 01000000 0000 0000 ........",
        ),
        WriteResult::NoEntry,
    ),
    Row::Write(
        Written::Whole("18000000 . 03000000. .."),
        WriteResult::Invalid,
    ),
    Row::Begin(Call::Stat { path: b"/" }, Err(Refusal::NotReady)),
    Row::Write(
        Written::Whole(
            "50000000 . 02000000. 07000000 1f000000 . 01000400 0000 0000 00100000 01000000 0000 0000 ........",
        ),
        WriteResult::Accepted,
    ),
    Row::Begin(Call::Stat { path: b"/" }, Ok(1)),
    Row::Read(0, Reads::Head(4, Opcode::Getattr)),
];

/// A reply before INIT is read.
static EARLY: [Row; 4] = [
    Row::Mount(Ok(())),
    Row::Write(
        Written::Whole(
            "50000000 . 02000000. 07000000 1f000000 . 01000400 0000 0000 00100000 01000000 0000 0000 ........",
        ),
        WriteResult::NoEntry,
    ),
    Row::Read(0, Reads::Head(2, Opcode::Init)),
    Row::Write(
        Written::Whole(
            "50000000 . 02000000. 07000000 1f000000 . 01000400 0000 0000 00100000 01000000 0000 0000 ........",
        ),
        WriteResult::Accepted,
    ),
];

/// A reply of 7.15: a call is not answered, names are listed without their files, whatever flags are taken up, and the
/// next mount offers 7.31 again, of which a reply may leave out FUSE_DO_READDIRPLUS.
static OF_MINOR_15: [Row; 22] = [
    Row::Write(
        Written::Whole("28000000 . 02000000. 07000000 0f000000 . 01200400 0000 0000 00100000"),
        WriteResult::Accepted,
    ),
    Row::Begin(Call::Stat { path: b"/" }, Ok(1)),
    Row::Unanswered(1),
    Row::Read(0, Reads::Head(4, Opcode::Getattr)),
    Row::Begin(
        Call::ListPlus {
            path: b"/",
            after: 0,
        },
        Ok(2),
    ),
    Row::Read(
        0,
        Reads::Frame("50000000 1c000000 06000000. 01000000. ........ 00100000 ....."),
    ),
    Row::Abort(Ok(())),
    Row::Answered(1, Expected::Errno(103)),
    Row::Answered(2, Expected::Errno(103)),
    Row::Mount(Ok(())),
    Row::Read(
        0,
        Reads::Frame("38000000 1a000000 02000000. ...... 07000000 1f000000 . 01200400"),
    ),
    Row::Write(
        Written::Whole(
            "50000000 . 02000000. 07000000 1f000000 . 01000400 0000 0000 00100000 01000000 0000 0000 ........",
        ),
        WriteResult::Accepted,
    ),
    Row::Begin(
        Call::ListPlus {
            path: b"/",
            after: 0,
        },
        Ok(3),
    ),
    Row::Read(0, Reads::Head(4, Opcode::Readdir)),
    Row::Abort(Ok(())),
    Row::Answered(3, Expected::Errno(103)),
    Row::Mount(Ok(())),
    Row::Read(0, Reads::Head(2, Opcode::Init)),
    Row::Write(
        Written::Whole(
            "50000000 . 02000000. 07000000 1f000000 . 01200400 0000 0000 00100000 01000000 0000 0000 ........",
        ),
        WriteResult::Accepted,
    ),
    Row::Begin(
        Call::ListPlus {
            path: b"/",
            after: 0,
        },
        Ok(4),
    ),
    Row::Read(0, Reads::Head(4, Opcode::Readdirplus)),
    Row::Unanswered(1),
];

/// Replies that agree on nothing.
static CASES: [Case; 11] = [
    (
        "an error, here ENXIO",
        "10000000 faffffff 02000000.",
        WriteResult::Accepted,
    ),
    ("no body", "10000000 . 02000000.", WriteResult::Invalid),
    (
        "an error with a body",
        "50000000 faffffff 02000000. 07000000 1f000000 . 01000400 0000 0000 00100000 01000000 0000 0000 ........",
        WriteResult::Invalid,
    ),
    (
        "a byte less",
        "4f000000.02000000.070000001f000000.01000400.0010000001000000........000000",
        WriteResult::Invalid,
    ),
    (
        "a byte more",
        "51000000.02000000.070000001f000000.01000400.0010000001000000.........00",
        WriteResult::Invalid,
    ),
    (
        "7.30",
        "50000000 . 02000000. 07000000 1e000000 . 01000400 0000 0000 00100000 01000000 0000 0000 ........",
        WriteResult::Accepted,
    ),
    (
        "7.22 in 24 bytes",
        "28000000 . 02000000. 07000000 16000000 . 01200400 0000 0000 00100000",
        WriteResult::Invalid,
    ),
    (
        "7.15 in 64 bytes",
        "50000000 . 02000000. 07000000 0f000000 . 01200400 0000 0000 00100000 01000000 0000 0000 ........",
        WriteResult::Invalid,
    ),
    (
        "7.22 in 64 bytes",
        "50000000 . 02000000. 07000000 16000000 . 01200400 0000 0000 00100000 01000000 0000 0000 ........",
        WriteResult::Accepted,
    ),
    (
        "8.31",
        "50000000 . 02000000. 08000000 1f000000 . 01000400 0000 0000 00100000 01000000 0000 0000 ........",
        WriteResult::Accepted,
    ),
    (
        "6.31",
        "50000000 . 02000000. 06000000 1f000000 . 01000400 0000 0000 00100000 01000000 0000 0000 ........",
        WriteResult::Accepted,
    ),
];

/// Tries a case on a new kernel.
fn check_case(rt: &impl Abort, alloc: Global, case: &Case) {
    let (name, text, given) = case;
    let written = [Row::Write(Written::Whole(text), *given)];
    run_three(rt, alloc, &READ, &written, &ABORTED, name);
}

#[test]
fn replies_that_agree_on_nothing(rt: HostRuntime) -> Result<(), Fail> {
    for case in &CASES {
        check_case(&rt, rt.alloc(), case);
    }
    Ok(())
}

#[test]
fn replies_to_init(rt: HostRuntime) -> Result<(), Fail> {
    run_on_new(&rt, rt.alloc(), &READ, &WAITS, "waits");
    run_on_new(&rt, rt.alloc(), &EARLY, &[], "early");
    run_on_new(&rt, rt.alloc(), &READ, &OF_MINOR_15, "7.15 in 24 bytes");
    Ok(())
}
