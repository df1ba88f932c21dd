//! Open files: when they are released, and what is asked of none.

use super::{Expected, Reads, Row, Written, run_mounted};
use fk_kernel::Call;
use fk_wire::Opcode;
use fuse_spec::{IntrEffect, Refusal, WriteResult};
use std::test::Fail;

/// A file is closed while a read of it is unanswered.
static CLOSED_WHILE_READ: [Row; 16] = [
    Row::Begin(Call::Create { path: b"/a" }, Ok(1)),
    Row::Read(0, Reads::Head(4, Opcode::Create)),
    Row::Write(
        Written::Whole(
            "a0000000 . 04000000. 02000000. 01000000. 01000000. .... 02000000. ............. a4810000 01000000 ... 00100000 . 01000000. ..",
        ),
        WriteResult::Accepted,
    ),
    Row::Answered(1, Expected::Done),
    Row::Begin(
        Call::Read {
            open_call: 1,
            offset: 0,
            size: 10,
        },
        Ok(2),
    ),
    Row::Read(0, Reads::Head(6, Opcode::Read)),
    Row::Begin(Call::Close { open_call: 1 }, Ok(3)),
    Row::Answered(3, Expected::Done),
    Row::Read(0, Reads::Refused(Refusal::NoSuch)),
    // it is not open any more, and is released behind the read
    Row::Begin(
        Call::Read {
            open_call: 1,
            offset: 0,
            size: 1,
        },
        Ok(4),
    ),
    Row::Answered(4, Expected::Errno(9)),
    Row::Write(
        Written::Whole("12000000 . 06000000. 6869"),
        WriteResult::Accepted,
    ),
    Row::Answered(2, Expected::Bytes("hi")),
    Row::Read(0, Reads::Head(8, Opcode::Release)),
    Row::Write(
        Written::Whole("10000000 . 08000000."),
        WriteResult::Accepted,
    ),
    Row::Read(0, Reads::Refused(Refusal::NoSuch)),
];

/// A file is closed while a read and a write of it are unread. A fatal signal takes the read away.
static CLOSED_WHILE_UNREAD: [Row; 16] = [
    Row::Begin(Call::Create { path: b"/a" }, Ok(1)),
    Row::Read(0, Reads::Head(4, Opcode::Create)),
    Row::Write(
        Written::Whole(
            "a0000000 . 04000000. 02000000. 01000000. 01000000. .... 02000000. ............. a4810000 01000000 ... 00100000 . 01000000. ..",
        ),
        WriteResult::Accepted,
    ),
    Row::Answered(1, Expected::Done),
    Row::Begin(
        Call::Read {
            open_call: 1,
            offset: 0,
            size: 10,
        },
        Ok(2),
    ),
    Row::Begin(
        Call::Write {
            open_call: 1,
            offset: 0,
            bytes: b"hi",
        },
        Ok(3),
    ),
    Row::Begin(Call::Close { open_call: 1 }, Ok(4)),
    Row::Answered(4, Expected::Done),
    Row::Signal(2, true, Ok(IntrEffect::Dequeued)),
    Row::Answered(2, Expected::Errno(4)),
    Row::Read(0, Reads::Head(8, Opcode::Write)),
    Row::Write(
        Written::Whole("10000000 e4ffffff 08000000."),
        WriteResult::Accepted,
    ),
    Row::Answered(3, Expected::Errno(28)),
    Row::Read(
        0,
        Reads::Frame("40000000 12000000 0a000000. 02000000. .... 01000000. ...."),
    ),
    Row::Write(
        Written::Whole("10000000 fbffffff 0a000000."),
        WriteResult::Accepted,
    ),
    Row::Read(0, Reads::Refused(Refusal::NoSuch)),
];

/// A file that is not open, and offsets and sizes past their ends.
static ARGUMENTS: [Row; 22] = [
    Row::Begin(Call::Create { path: b"/a" }, Ok(1)),
    Row::Read(0, Reads::Head(4, Opcode::Create)),
    Row::Write(
        Written::Whole(
            "a0000000 . 04000000. 02000000. 01000000. 01000000. .... 02000000. ............. a4810000 01000000 ... 00100000 . 01000000. ..",
        ),
        WriteResult::Accepted,
    ),
    Row::Answered(1, Expected::Done),
    Row::Begin(
        Call::Read {
            open_call: 2,
            offset: 0,
            size: 1,
        },
        Ok(2),
    ),
    Row::Answered(2, Expected::Errno(9)),
    Row::Begin(
        Call::Read {
            open_call: 1,
            offset: 65537,
            size: 1,
        },
        Ok(3),
    ),
    Row::Answered(3, Expected::Errno(22)),
    Row::Begin(
        Call::Read {
            open_call: 1,
            offset: 0,
            size: 4097,
        },
        Ok(4),
    ),
    Row::Answered(4, Expected::Errno(22)),
    Row::Begin(
        Call::Write {
            open_call: 1,
            offset: 65537,
            bytes: b"",
        },
        Ok(5),
    ),
    Row::Answered(5, Expected::Errno(22)),
    Row::Begin(
        Call::Read {
            open_call: 1,
            offset: 65536,
            size: 4096,
        },
        Ok(6),
    ),
    Row::Read(0, Reads::Head(6, Opcode::Read)),
    Row::Write(
        Written::Whole("10000000 . 06000000."),
        WriteResult::Accepted,
    ),
    Row::Answered(6, Expected::Bytes("")),
    Row::Begin(Call::Close { open_call: 2 }, Ok(7)),
    Row::Answered(7, Expected::Errno(9)),
    Row::Begin(Call::Close { open_call: 1 }, Ok(8)),
    Row::Answered(8, Expected::Done),
    Row::Begin(Call::Close { open_call: 1 }, Ok(9)),
    Row::Answered(9, Expected::Errno(9)),
];

#[test]
fn open_files(rt: HostRuntime) -> Result<(), Fail> {
    run_mounted(&rt, rt.alloc(), &CLOSED_WHILE_READ, "closed while read");
    run_mounted(&rt, rt.alloc(), &CLOSED_WHILE_UNREAD, "closed while unread");
    run_mounted(&rt, rt.alloc(), &ARGUMENTS, "arguments");
    Ok(())
}
