//! Aborts, and mounts after them and on a live mount.

use super::{Expected, Reads, Row, Written, run_mounted};
use fk_kernel::Call;
use fk_wire::Opcode;
use fuse_spec::{IntrEffect, Refusal, WriteResult};
use std::test::Fail;

/// Two calls are unanswered, one of them read and signalled. The abort answers both.
static ABORTED: [Row; 24] = [
    Row::Begin(Call::Mkdir { path: b"/a" }, Ok(1)),
    Row::Begin(Call::Stat { path: b"/" }, Ok(2)),
    Row::Read(0, Reads::Head(4, Opcode::Mkdir)),
    Row::Signal(1, false, Ok(IntrEffect::Queued)),
    Row::Abort(Ok(())),
    Row::Answered(1, Expected::Errno(103)),
    Row::Answered(2, Expected::Errno(103)),
    Row::Unanswered(0),
    Row::Abort(Err(Refusal::NotReady)),
    Row::Read(0, Reads::Refused(Refusal::NotReady)),
    Row::Interrupt(Reads::Refused(Refusal::NotReady)),
    Row::Forget(1, Reads::Refused(Refusal::NotReady)),
    Row::DropName(1, "a", Err(Refusal::NotReady)),
    Row::Evict(2, Err(Refusal::NotReady)),
    Row::Signal(1, true, Err(Refusal::NotReady)),
    Row::Write(
        Written::Whole("10000000 ffffffff 04000000."),
        WriteResult::NoEntry,
    ),
    Row::Write(
        Written::Whole("10000000 f5ffffff 05000000."),
        WriteResult::NoEntry,
    ),
    Row::Begin(Call::Stat { path: b"a" }, Ok(3)),
    Row::Answered(3, Expected::Errno(107)),
    // the mount after it begins anew; 7.38 is taken as 7.31
    Row::Mount(Ok(())),
    Row::Read(0, Reads::Head(2, Opcode::Init)),
    Row::Write(
        Written::Whole(
            "50000000 . 02000000. 07000000 26000000 . 01200400 0000 0000 00100000 01000000 0000 0000 ........",
        ),
        WriteResult::Accepted,
    ),
    Row::Begin(Call::Stat { path: b"/" }, Ok(4)),
    Row::Read(0, Reads::Head(4, Opcode::Getattr)),
];

/// A mount on a live mount needs that each call is answered.
static MOUNTED_ANEW: [Row; 15] = [
    Row::Begin(Call::Stat { path: b"/" }, Ok(1)),
    Row::Mount(Err(Refusal::Busy)),
    Row::Read(0, Reads::Head(4, Opcode::Getattr)),
    Row::Write(
        Written::Whole("10000000 ffffffff 04000000."),
        WriteResult::Accepted,
    ),
    Row::Answered(1, Expected::Errno(1)),
    Row::Begin(Call::Mkdir { path: b"/a" }, Ok(2)),
    Row::Read(0, Reads::Head(6, Opcode::Mkdir)),
    Row::Write(
        Written::Whole(
            "90000000 . 06000000. 02000000. 01000000. 01000000. .... 02000000. ............. ed410000 01000000 ... 00100000 .",
        ),
        WriteResult::Accepted,
    ),
    Row::Answered(2, Expected::Done),
    // no call is unanswered, and no file open
    Row::Mount(Ok(())),
    Row::Nodes(&[]),
    Row::Read(0, Reads::Head(2, Opcode::Init)),
    Row::Write(
        Written::Whole(
            "50000000 . 02000000. 07000000 1f000000 . 01000400 0000 0000 00100000 01000000 0000 0000 ........",
        ),
        WriteResult::Accepted,
    ),
    Row::Begin(Call::Stat { path: b"/a" }, Ok(3)),
    Row::Read(0, Reads::Head(4, Opcode::Lookup)),
];

/// A live mount with an open file is busy. An abort abandons the file.
static ABORTED_WHILE_OPEN: [Row; 11] = [
    Row::Begin(Call::Create { path: b"/a" }, Ok(1)),
    Row::Read(0, Reads::Head(4, Opcode::Create)),
    Row::Write(
        Written::Whole(
            "a0000000 . 04000000. 02000000. 01000000. 01000000. .... 02000000. ............. a4810000 01000000 ... 00100000 . 01000000. ..",
        ),
        WriteResult::Accepted,
    ),
    Row::Answered(1, Expected::Done),
    Row::Mount(Err(Refusal::Busy)),
    Row::Abort(Ok(())),
    Row::Mount(Ok(())),
    Row::Read(0, Reads::Head(2, Opcode::Init)),
    Row::Write(
        Written::Whole(
            "50000000 . 02000000. 07000000 1f000000 . 01000400 0000 0000 00100000 01000000 0000 0000 ........",
        ),
        WriteResult::Accepted,
    ),
    Row::Begin(Call::Close { open_call: 1 }, Ok(2)),
    Row::Answered(2, Expected::Errno(9)),
];

#[test]
fn aborts_and_mounts(rt: HostRuntime) -> Result<(), Fail> {
    run_mounted(&rt, rt.alloc(), &ABORTED, "aborted");
    run_mounted(&rt, rt.alloc(), &MOUNTED_ANEW, "mounted anew");
    run_mounted(&rt, rt.alloc(), &ABORTED_WHILE_OPEN, "aborted while open");
    Ok(())
}
