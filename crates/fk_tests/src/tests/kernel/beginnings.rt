//! Each beginning of a reply, and the reply with a byte more: none is taken.

use super::{Expected, Reads, Row, START, Written, run_three};
use fk_kernel::Call;
use fk_wire::Opcode;
use fuse_spec::{IntrEffect, Refusal, WriteResult};
use std::alloc::Global;
use std::process::Abort;
use std::test::Fail;

/// A request that was read, and a reply to it.
#[derive(Clone, Copy)]
struct Case {
    opcode: Opcode,
    reply: &'static str,
    /// How many bytes it has.
    len: usize,
    /// The call that waits for it, if one does, and how many calls wait for anything.
    call: Option<u64>,
    waiting: usize,
    /// A body that is shorter by this many bytes is one too; 0 where none is.
    step: usize,
}

/// Up to the read of INIT.
static MOUNTED: [Row; 2] = [
    Row::Mount(Ok(())),
    Row::Read(0, Reads::Head(2, Opcode::Init)),
];

/// Up to the read of a LOOKUP.
static STATED: [Row; 2] = [
    Row::Begin(Call::Stat { path: b"/a" }, Ok(1)),
    Row::Read(0, Reads::Head(4, Opcode::Lookup)),
];

/// Up to the read of a GETATTR.
static LOOKED_AT: [Row; 2] = [
    Row::Begin(Call::Stat { path: b"/" }, Ok(1)),
    Row::Read(0, Reads::Head(4, Opcode::Getattr)),
];

/// Up to the read of a MKDIR.
static MADE: [Row; 2] = [
    Row::Begin(Call::Mkdir { path: b"/a" }, Ok(1)),
    Row::Read(0, Reads::Head(4, Opcode::Mkdir)),
];

/// Up to the read of an UNLINK.
static UNLINKED: [Row; 2] = [
    Row::Begin(Call::Unlink { path: b"/a" }, Ok(1)),
    Row::Read(0, Reads::Head(4, Opcode::Unlink)),
];

/// Up to the read of a RMDIR.
static REMOVED: [Row; 2] = [
    Row::Begin(Call::Rmdir { path: b"/a" }, Ok(1)),
    Row::Read(0, Reads::Head(4, Opcode::Rmdir)),
];

/// Up to the read of a RENAME.
static RENAMED: [Row; 2] = [
    Row::Begin(
        Call::Rename {
            old: b"/a",
            new: b"/b",
        },
        Ok(1),
    ),
    Row::Read(0, Reads::Head(4, Opcode::Rename)),
];

/// Up to the read of a LINK.
static LINKED: [Row; 4] = [
    Row::Begin(
        Call::Link {
            old: b"/a",
            new: b"/b",
        },
        Ok(1),
    ),
    Row::Read(0, Reads::Head(4, Opcode::Lookup)),
    Row::Write(
        Written::Whole(
            "90000000 . 04000000. 02000000. 01000000. 01000000. .... 02000000. ............. a4810000 01000000 ... 00100000 .",
        ),
        WriteResult::Accepted,
    ),
    Row::Read(0, Reads::Head(6, Opcode::Link)),
];

/// Up to the read of an OPEN.
static OPENED: [Row; 2] = [
    Row::Begin(Call::Open { path: b"/" }, Ok(1)),
    Row::Read(0, Reads::Head(4, Opcode::Open)),
];

/// Up to the read of a READ.
static READ: [Row; 6] = [
    Row::Begin(Call::Open { path: b"/" }, Ok(1)),
    Row::Read(0, Reads::Head(4, Opcode::Open)),
    Row::Write(
        Written::Whole("20000000 . 04000000. 01000000. .."),
        WriteResult::Accepted,
    ),
    Row::Answered(1, Expected::Done),
    Row::Begin(
        Call::Read {
            open_call: 1,
            offset: 0,
            size: 2,
        },
        Ok(2),
    ),
    Row::Read(0, Reads::Head(6, Opcode::Read)),
];

/// Up to the read of a WRITE.
static WRITTEN: [Row; 6] = [
    Row::Begin(Call::Open { path: b"/" }, Ok(1)),
    Row::Read(0, Reads::Head(4, Opcode::Open)),
    Row::Write(
        Written::Whole("20000000 . 04000000. 01000000. .."),
        WriteResult::Accepted,
    ),
    Row::Answered(1, Expected::Done),
    Row::Begin(
        Call::Write {
            open_call: 1,
            offset: 0,
            bytes: b"hi",
        },
        Ok(2),
    ),
    Row::Read(0, Reads::Head(6, Opcode::Write)),
];

/// Up to the read of a RELEASE.
static CLOSED: [Row; 7] = [
    Row::Begin(Call::Open { path: b"/" }, Ok(1)),
    Row::Read(0, Reads::Head(4, Opcode::Open)),
    Row::Write(
        Written::Whole("20000000 . 04000000. 01000000. .."),
        WriteResult::Accepted,
    ),
    Row::Answered(1, Expected::Done),
    Row::Begin(Call::Close { open_call: 1 }, Ok(2)),
    Row::Answered(2, Expected::Done),
    Row::Read(0, Reads::Head(6, Opcode::Release)),
];

/// Up to the read of a READDIR.
static LISTED: [Row; 2] = [
    Row::Begin(
        Call::List {
            path: b"/",
            after: 0,
        },
        Ok(1),
    ),
    Row::Read(0, Reads::Head(4, Opcode::Readdir)),
];

/// Up to the read of a READDIRPLUS.
static LISTED_WITH_FILES: [Row; 2] = [
    Row::Begin(
        Call::ListPlus {
            path: b"/",
            after: 0,
        },
        Ok(1),
    ),
    Row::Read(0, Reads::Head(4, Opcode::Readdirplus)),
];

/// Up to the read of a CREATE.
static CREATED: [Row; 2] = [
    Row::Begin(Call::Create { path: b"/a" }, Ok(1)),
    Row::Read(0, Reads::Head(4, Opcode::Create)),
];

/// Up to the read of an INTERRUPT.
static SIGNALLED: [Row; 4] = [
    Row::Begin(Call::Mkdir { path: b"/a" }, Ok(1)),
    Row::Read(0, Reads::Head(4, Opcode::Mkdir)),
    Row::Signal(1, false, Ok(IntrEffect::Queued)),
    Row::Interrupt(Reads::Frame("30000000 24000000 05000000. ...... 04000000.")),
];

/// A reply to each kind of request: to INIT one of 7.31 and one of 7.15, to a LOOKUP also the entry of a missing name.
static CASES: [Case; 18] = [
    Case {
        opcode: Opcode::Init,
        reply: "50000000 . 02000000. 07000000 1f000000 . 01200400 0000 0000 00100000 01000000 0000 0000 ........",
        len: 80,
        call: None,
        waiting: 0,
        step: 0,
    },
    Case {
        opcode: Opcode::Init,
        reply: "28000000 . 02000000. 07000000 0f000000 . 01200400 0000 0000 00100000",
        len: 40,
        call: None,
        waiting: 0,
        step: 0,
    },
    Case {
        opcode: Opcode::Lookup,
        reply: "90000000 . 04000000. .... 01000000. ..........................",
        len: 144,
        call: Some(1),
        waiting: 1,
        step: 0,
    },
    Case {
        opcode: Opcode::Readdirplus,
        reply: "b0000000 . 04000000. 02000000. 07000000. 01000000. .... 02000000. ............. a4810000 01000000 ... 00100000 . 02000000. 07000000. 01000000 08000000 61000000.",
        len: 176,
        call: Some(1),
        waiting: 1,
        step: 160,
    },
    Case {
        opcode: Opcode::Lookup,
        reply: "90000000 . 04000000. 02000000. 01000000. 01000000. .... 02000000. ............. ed410000 01000000 ... 00100000 .",
        len: 144,
        call: Some(1),
        waiting: 1,
        step: 0,
    },
    Case {
        opcode: Opcode::Getattr,
        reply: "78000000 . 04000000. .... 01000000. ............. ed410000 01000000 ... 00100000 .",
        len: 120,
        call: Some(1),
        waiting: 1,
        step: 0,
    },
    Case {
        opcode: Opcode::Mkdir,
        reply: "90000000 . 04000000. 02000000. 01000000. 01000000. .... 02000000. ............. ed410000 01000000 ... 00100000 .",
        len: 144,
        call: Some(1),
        waiting: 1,
        step: 0,
    },
    Case {
        opcode: Opcode::Unlink,
        reply: "10000000 . 04000000.",
        len: 16,
        call: Some(1),
        waiting: 1,
        step: 0,
    },
    Case {
        opcode: Opcode::Rmdir,
        reply: "10000000 . 04000000.",
        len: 16,
        call: Some(1),
        waiting: 1,
        step: 0,
    },
    Case {
        opcode: Opcode::Rename,
        reply: "10000000 . 04000000.",
        len: 16,
        call: Some(1),
        waiting: 1,
        step: 0,
    },
    Case {
        opcode: Opcode::Link,
        reply: "90000000 . 06000000. 02000000. 01000000. 01000000. .... 02000000. ............. a4810000 02000000 ... 00100000 .",
        len: 144,
        call: Some(1),
        waiting: 1,
        step: 0,
    },
    Case {
        opcode: Opcode::Open,
        reply: "20000000 . 04000000. 01000000. ..",
        len: 32,
        call: Some(1),
        waiting: 1,
        step: 0,
    },
    Case {
        opcode: Opcode::Read,
        reply: "12000000 . 06000000. 6869",
        len: 18,
        call: Some(2),
        waiting: 1,
        step: 1,
    },
    Case {
        opcode: Opcode::Write,
        reply: "18000000 . 06000000. 02000000 .",
        len: 24,
        call: Some(2),
        waiting: 1,
        step: 0,
    },
    Case {
        opcode: Opcode::Release,
        reply: "10000000 . 06000000.",
        len: 16,
        call: None,
        waiting: 0,
        step: 0,
    },
    Case {
        opcode: Opcode::Readdir,
        reply: "50000000 . 04000000. 02000000. 01000000. 01000000 04000000 61000000. 03000000. 02000000. 02000000 08000000 62620000.",
        len: 80,
        call: Some(1),
        waiting: 1,
        step: 32,
    },
    Case {
        opcode: Opcode::Create,
        reply: "a0000000 . 04000000. 02000000. 01000000. 01000000. .... 02000000. ............. a4810000 01000000 ... 00100000 . 01000000. ..",
        len: 160,
        call: Some(1),
        waiting: 1,
        step: 0,
    },
    Case {
        opcode: Opcode::Interrupt,
        reply: "10000000 . 05000000.",
        len: 16,
        call: None,
        waiting: 1,
        step: 0,
    },
];

/// What comes before: INIT is answered, or read where its own reply is cut.
fn start_of(opcode: Opcode) -> &'static [Row] {
    match opcode {
        Opcode::Init => &MOUNTED,
        _ => &START,
    }
}

/// What leads to the read of a request, once INIT is answered.
fn led_to(opcode: Opcode) -> &'static [Row] {
    match opcode {
        Opcode::Lookup => &STATED,
        Opcode::Getattr => &LOOKED_AT,
        Opcode::Mkdir => &MADE,
        Opcode::Unlink => &UNLINKED,
        Opcode::Rmdir => &REMOVED,
        Opcode::Rename => &RENAMED,
        Opcode::Link => &LINKED,
        Opcode::Open => &OPENED,
        Opcode::Read => &READ,
        Opcode::Write => &WRITTEN,
        Opcode::Release => &CLOSED,
        Opcode::Readdir => &LISTED,
        Opcode::Readdirplus => &LISTED_WITH_FILES,
        Opcode::Create => &CREATED,
        Opcode::Interrupt => &SIGNALLED,
        _ => &[],
    }
}

/// A mount whose INIT has got bytes with a head that are no reply is aborted, and a later call gets ENOTCONN.
static AFTER_INIT: [Row; 2] = [
    Row::Begin(Call::Stat { path: b"/" }, Ok(1)),
    Row::Answered(1, Expected::Errno(107)),
];

/// What follows other bytes that are no reply, with a head or with none: INIT waits, or the call gets EIO or, where it
/// is to wait, nothing.
fn followed(case: &Case, has_head: bool) -> Row {
    if matches!(case.opcode, Opcode::Init) {
        return Row::Begin(Call::Stat { path: b"/" }, Err(Refusal::NotReady));
    }
    match case.call {
        Some(call) if has_head => Row::Answered(call, Expected::Errno(5)),
        _ => Row::Unanswered(case.waiting),
    }
}

/// Writes this many bytes of a reply and of a byte more, with the reply's `len` or their own: the writer gets Invalid.
fn check_cut(rt: &impl Abort, alloc: Global, case: &Case, len: usize, is_own: bool) {
    let has_head = is_own && len >= 16;
    let (first, led, name) = (
        start_of(case.opcode),
        led_to(case.opcode),
        case.opcode.name(),
    );
    let cut = Row::Write(Written::Cut(case.reply, len, is_own), WriteResult::Invalid);
    if has_head && matches!(case.opcode, Opcode::Init) {
        run_three(rt, alloc, first, &[cut], &AFTER_INIT, name);
    } else {
        run_three(
            rt,
            alloc,
            first,
            led,
            &[cut, followed(case, has_head)],
            name,
        );
    }
}

/// Whether this many bytes are a whole body too.
fn is_whole(case: &Case, len: usize) -> bool {
    case.step > 0 && len >= 16 && len < case.len && (len - 16) % case.step == 0
}

/// Each beginning of the reply is judged so, and the reply with a byte more.
fn check_case(rt: &impl Abort, alloc: Global, case: &Case) {
    for len in 0..=case.len {
        let is_longer = len == case.len;
        let bytes = if is_longer {
            case.len.saturating_add(1)
        } else {
            len
        };
        check_cut(rt, alloc, case, bytes, false);
        if !is_whole(case, bytes) {
            check_cut(rt, alloc, case, bytes, true);
        }
    }
}

#[test]
fn of_replies(rt: HostRuntime) -> Result<(), Fail> {
    for case in &CASES {
        check_case(&rt, rt.alloc(), case);
    }
    Ok(())
}
