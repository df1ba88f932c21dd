//! Signals to calls, and replies to INTERRUPTs (fuse.rst).

use super::{Expected, Reads, Row, START, Written, run_lists, run_on_new};
use fk_kernel::Call;
use fk_wire::Opcode;
use fuse_spec::{IntrEffect, Refusal, WriteResult};
use std::alloc::Global;
use std::process::Abort;
use std::test::Fail;

/// Two calls begin, and the request of the second is read.
static TWO_CALLS: [Row; 3] = [
    Row::Begin(Call::Mkdir { path: b"/a" }, Ok(1)),
    Row::Begin(Call::Stat { path: b"/" }, Ok(2)),
    Row::Read(1, Reads::Head(6, Opcode::Getattr)),
];

/// The request of the first is as it was queued.
static UNREAD: [Row; 0] = [];

/// It was signalled unread.
static FLAGGED: [Row; 1] = [Row::Signal(1, false, Ok(IntrEffect::Flagged))];

/// It is read.
static READ: [Row; 1] = [Row::Read(0, Reads::Head(4, Opcode::Mkdir))];

/// It is read, and its INTERRUPT too.
static INTERRUPTED: [Row; 3] = [
    Row::Read(0, Reads::Head(4, Opcode::Mkdir)),
    Row::Signal(1, true, Ok(IntrEffect::Queued)),
    Row::Interrupt(Reads::Frame("30000000 24000000 05000000. ...... 04000000.")),
];

/// No server knows INTERRUPTs: ENOSYS comes under the odd number of the second, which was never signalled.
static SWITCHED_OFF: [Row; 1] = [Row::Write(
    Written::Whole("10000000 daffffff 07000000."),
    WriteResult::Accepted,
)];

/// They are known.
static KNOWN: [Row; 0] = [];

/// The call is answered EINTR, and its request is gone.
static DEQUEUED: [Row; 4] = [
    Row::Answered(1, Expected::Errno(4)),
    Row::Read(0, Reads::Refused(Refusal::NoSuch)),
    Row::Interrupt(Reads::Refused(Refusal::NoSuch)),
    Row::Unanswered(1),
];

/// The request is read, and then its INTERRUPT, once.
static READ_WITH: [Row; 5] = [
    Row::Read(0, Reads::Head(4, Opcode::Mkdir)),
    Row::Read(0, Reads::Refused(Refusal::InterruptFirst)),
    Row::Interrupt(Reads::Frame("30000000 24000000 05000000. ...... 04000000.")),
    Row::Interrupt(Reads::Refused(Refusal::NoSuch)),
    Row::Read(0, Reads::Refused(Refusal::NoSuch)),
];

/// The request is read, and no INTERRUPT.
static READ_WITHOUT: [Row; 3] = [
    Row::Read(0, Reads::Head(4, Opcode::Mkdir)),
    Row::Interrupt(Reads::Refused(Refusal::NoSuch)),
    Row::Unanswered(2),
];

/// The INTERRUPT is read, once.
static INTERRUPT_ALONE: [Row; 6] = [
    Row::Read(0, Reads::Refused(Refusal::InterruptFirst)),
    Row::Forget(1, Reads::Refused(Refusal::InterruptFirst)),
    Row::Interrupt(Reads::Frame("30000000 24000000 05000000. ...... 04000000.")),
    Row::Interrupt(Reads::Refused(Refusal::NoSuch)),
    Row::Read(0, Reads::Refused(Refusal::NoSuch)),
    Row::Unanswered(2),
];

/// There is nothing to read.
static NOTHING: [Row; 3] = [
    Row::Interrupt(Reads::Refused(Refusal::NoSuch)),
    Row::Read(0, Reads::Refused(Refusal::NoSuch)),
    Row::Unanswered(2),
];

/// A soft signal to the first.
static SOFT_FLAGGED: [Row; 1] = [Row::Signal(1, false, Ok(IntrEffect::Flagged))];

/// A soft signal to the first.
static SOFT_NONE: [Row; 1] = [Row::Signal(1, false, Ok(IntrEffect::None))];

/// A soft signal to the first.
static SOFT_QUEUED: [Row; 1] = [Row::Signal(1, false, Ok(IntrEffect::Queued))];

/// A fatal signal to the first.
static FATAL_NONE: [Row; 1] = [Row::Signal(1, true, Ok(IntrEffect::None))];

/// A fatal signal to the first.
static FATAL_DEQUEUED: [Row; 1] = [Row::Signal(1, true, Ok(IntrEffect::Dequeued))];

/// A fatal signal to the first.
static FATAL_QUEUED: [Row; 1] = [Row::Signal(1, true, Ok(IntrEffect::Queued))];

/// How far the request has come, whether INTERRUPTs are known, the signal and its effect, and what is there to read
/// afterwards.
static SIGNALS: [Cell; 16] = [
    (
        "unread, soft",
        [Part::Unread, Part::Known, Part::SoftFlagged, Part::ReadWith],
    ),
    (
        "unread, soft, switched off",
        [
            Part::Unread,
            Part::SwitchedOff,
            Part::SoftNone,
            Part::ReadWithout,
        ],
    ),
    (
        "unread, fatal",
        [
            Part::Unread,
            Part::Known,
            Part::FatalDequeued,
            Part::Dequeued,
        ],
    ),
    (
        "unread, fatal, switched off",
        [
            Part::Unread,
            Part::SwitchedOff,
            Part::FatalDequeued,
            Part::Dequeued,
        ],
    ),
    (
        "flagged, soft",
        [Part::Flagged, Part::Known, Part::SoftNone, Part::ReadWith],
    ),
    (
        "flagged, soft, switched off",
        [
            Part::Flagged,
            Part::SwitchedOff,
            Part::SoftNone,
            Part::ReadWithout,
        ],
    ),
    (
        "flagged, fatal",
        [
            Part::Flagged,
            Part::Known,
            Part::FatalDequeued,
            Part::Dequeued,
        ],
    ),
    (
        "flagged, fatal, switched off",
        [
            Part::Flagged,
            Part::SwitchedOff,
            Part::FatalDequeued,
            Part::Dequeued,
        ],
    ),
    (
        "read, soft",
        [
            Part::Read,
            Part::Known,
            Part::SoftQueued,
            Part::InterruptAlone,
        ],
    ),
    (
        "read, soft, switched off",
        [Part::Read, Part::SwitchedOff, Part::SoftNone, Part::Nothing],
    ),
    (
        "read, fatal",
        [
            Part::Read,
            Part::Known,
            Part::FatalQueued,
            Part::InterruptAlone,
        ],
    ),
    (
        "read, fatal, switched off",
        [
            Part::Read,
            Part::SwitchedOff,
            Part::FatalNone,
            Part::Nothing,
        ],
    ),
    (
        "interrupted, soft",
        [
            Part::Interrupted,
            Part::Known,
            Part::SoftNone,
            Part::Nothing,
        ],
    ),
    (
        "interrupted, soft, switched off",
        [
            Part::Interrupted,
            Part::SwitchedOff,
            Part::SoftNone,
            Part::Nothing,
        ],
    ),
    (
        "interrupted, fatal",
        [
            Part::Interrupted,
            Part::Known,
            Part::FatalNone,
            Part::Nothing,
        ],
    ),
    (
        "interrupted, fatal, switched off",
        [
            Part::Interrupted,
            Part::SwitchedOff,
            Part::FatalNone,
            Part::Nothing,
        ],
    ),
];

/// The first was never signalled.
static NEVER: [Row; 1] = [Row::Read(0, Reads::Head(4, Opcode::Mkdir))];

/// Its INTERRUPT was read.
static READ_BEFORE: [Row; 3] = [
    Row::Read(0, Reads::Head(4, Opcode::Mkdir)),
    Row::Signal(1, false, Ok(IntrEffect::Queued)),
    Row::Interrupt(Reads::Frame("30000000 24000000 05000000. ...... 04000000.")),
];

/// Its INTERRUPT is queued.
static QUEUED: [Row; 2] = [
    Row::Read(0, Reads::Head(4, Opcode::Mkdir)),
    Row::Signal(1, false, Ok(IntrEffect::Queued)),
];

/// It was answered, with its INTERRUPT queued.
static ENDED: [Row; 4] = [
    Row::Read(0, Reads::Head(4, Opcode::Mkdir)),
    Row::Signal(1, false, Ok(IntrEffect::Queued)),
    Row::Write(
        Written::Whole("10000000 ffffffff 04000000."),
        WriteResult::Accepted,
    ),
    Row::Answered(1, Expected::Errno(1)),
];

/// The second is signalled.
static SECOND: [Row; 1] = [Row::Signal(2, true, Ok(IntrEffect::Queued))];

/// The reply to the INTERRUPT of the first: EAGAIN.
static EAGAIN: [Row; 1] = [Row::Write(
    Written::Whole("10000000 f5ffffff 05000000."),
    WriteResult::Accepted,
)];

/// The same once the first is answered.
static EAGAIN_LATE: [Row; 1] = [Row::Write(
    Written::Whole("10000000 f5ffffff 05000000."),
    WriteResult::NoEntry,
)];

/// The reply to the INTERRUPT of the first: ENOSYS.
static ENOSYS: [Row; 1] = [Row::Write(
    Written::Whole("10000000 daffffff 05000000."),
    WriteResult::Accepted,
)];

/// The same once the first is answered.
static ENOSYS_LATE: [Row; 1] = [Row::Write(
    Written::Whole("10000000 daffffff 05000000."),
    WriteResult::NoEntry,
)];

/// The reply to the INTERRUPT of the first: EIO.
static OTHER: [Row; 1] = [Row::Write(
    Written::Whole("10000000 fbffffff 05000000."),
    WriteResult::Accepted,
)];

/// The same once the first is answered.
static OTHER_LATE: [Row; 1] = [Row::Write(
    Written::Whole("10000000 fbffffff 05000000."),
    WriteResult::NoEntry,
)];

/// The reply to the INTERRUPT of the first: no error.
static NO_ERROR: [Row; 1] = [Row::Write(
    Written::Whole("10000000 . 05000000."),
    WriteResult::Accepted,
)];

/// The same once the first is answered.
static NO_ERROR_LATE: [Row; 1] = [Row::Write(
    Written::Whole("10000000 . 05000000."),
    WriteResult::NoEntry,
)];

/// The INTERRUPT of the second alone is there.
static SECOND_ALONE: [Row; 2] = [
    Row::Interrupt(Reads::Frame("30000000 24000000 07000000. ...... 06000000.")),
    Row::Interrupt(Reads::Refused(Refusal::NoSuch)),
];

/// That of the second, and then that of the first.
static SECOND_FIRST: [Row; 3] = [
    Row::Interrupt(Reads::Frame("30000000 24000000 07000000. ...... 06000000.")),
    Row::Interrupt(Reads::Frame("30000000 24000000 05000000. ...... 04000000.")),
    Row::Interrupt(Reads::Refused(Refusal::NoSuch)),
];

/// That of the first, and then that of the second.
static BOTH: [Row; 3] = [
    Row::Interrupt(Reads::Frame("30000000 24000000 05000000. ...... 04000000.")),
    Row::Interrupt(Reads::Frame("30000000 24000000 07000000. ...... 06000000.")),
    Row::Interrupt(Reads::Refused(Refusal::NoSuch)),
];

/// None is there.
static NONE_AT_ALL: [Row; 1] = [Row::Interrupt(Reads::Refused(Refusal::NoSuch))];

/// How far the first has come, the signal to the second, the reply, and the INTERRUPTs that are there afterwards.
static REPLIES: [Cell; 16] = [
    (
        "never, eagain",
        [Part::Never, Part::Second, Part::Eagain, Part::SecondAlone],
    ),
    (
        "never, enosys",
        [Part::Never, Part::Second, Part::Enosys, Part::NoneAtAll],
    ),
    (
        "never, other",
        [Part::Never, Part::Second, Part::Other, Part::SecondAlone],
    ),
    (
        "never, no error",
        [Part::Never, Part::Second, Part::NoError, Part::SecondAlone],
    ),
    (
        "read before, eagain",
        [
            Part::ReadBefore,
            Part::Second,
            Part::Eagain,
            Part::SecondFirst,
        ],
    ),
    (
        "read before, enosys",
        [
            Part::ReadBefore,
            Part::Second,
            Part::Enosys,
            Part::NoneAtAll,
        ],
    ),
    (
        "read before, other",
        [
            Part::ReadBefore,
            Part::Second,
            Part::Other,
            Part::SecondAlone,
        ],
    ),
    (
        "read before, no error",
        [
            Part::ReadBefore,
            Part::Second,
            Part::NoError,
            Part::SecondAlone,
        ],
    ),
    (
        "queued, eagain",
        [Part::Queued, Part::Second, Part::Eagain, Part::Both],
    ),
    (
        "queued, enosys",
        [Part::Queued, Part::Second, Part::Enosys, Part::NoneAtAll],
    ),
    (
        "queued, other",
        [Part::Queued, Part::Second, Part::Other, Part::Both],
    ),
    (
        "queued, no error",
        [Part::Queued, Part::Second, Part::NoError, Part::Both],
    ),
    (
        "ended, eagain",
        [
            Part::Ended,
            Part::Second,
            Part::EagainLate,
            Part::SecondAlone,
        ],
    ),
    (
        "ended, enosys",
        [
            Part::Ended,
            Part::Second,
            Part::EnosysLate,
            Part::SecondAlone,
        ],
    ),
    (
        "ended, other",
        [
            Part::Ended,
            Part::Second,
            Part::OtherLate,
            Part::SecondAlone,
        ],
    ),
    (
        "ended, no error",
        [
            Part::Ended,
            Part::Second,
            Part::NoErrorLate,
            Part::SecondAlone,
        ],
    ),
];

/// Replies to INTERRUPTs with a body, one after another, and over the next request of a call.
static MARKS: [Row; 40] = [
    Row::Read(0, Reads::Head(2, Opcode::Init)),
    Row::Write(
        Written::Whole(
            "50000000 . 02000000. 07000000 1f000000 . 01000400 0000 0000 00100000 01000000 0000 0000 ........",
        ),
        WriteResult::Accepted,
    ),
    Row::Begin(Call::Mkdir { path: b"/a" }, Ok(1)),
    Row::Begin(Call::Stat { path: b"/" }, Ok(2)),
    Row::Read(1, Reads::Head(6, Opcode::Getattr)),
    Row::Read(0, Reads::Head(4, Opcode::Mkdir)),
    Row::Signal(1, false, Ok(IntrEffect::Queued)),
    Row::Interrupt(Reads::Frame("30000000 24000000 05000000. ...... 04000000.")),
    // a body, another length, and the INTERRUPT of a request that is not there
    Row::Write(
        Written::Whole("11000000 . 05000000. 00"),
        WriteResult::Invalid,
    ),
    Row::Write(
        Written::Whole("18000000 f5ffffff 05000000. .."),
        WriteResult::Invalid,
    ),
    Row::Write(
        Written::Whole("10000000 f5ffffff 09000000."),
        WriteResult::NoEntry,
    ),
    Row::Interrupt(Reads::Refused(Refusal::NoSuch)),
    // EAGAIN twice queues it once
    Row::Write(
        Written::Whole("10000000 f5ffffff 05000000."),
        WriteResult::Accepted,
    ),
    Row::Write(
        Written::Whole("10000000 f5ffffff 05000000."),
        WriteResult::Accepted,
    ),
    Row::Interrupt(Reads::Frame("30000000 24000000 05000000. ...... 04000000.")),
    Row::Interrupt(Reads::Refused(Refusal::NoSuch)),
    // the next request of a call is not marked, and no signal finds a call that is answered or not there
    Row::Write(
        Written::Whole("10000000 fcffffff 04000000."),
        WriteResult::Accepted,
    ),
    Row::Answered(1, Expected::Errno(4)),
    Row::Signal(1, false, Err(Refusal::NoSuch)),
    Row::Signal(9, true, Err(Refusal::NoSuch)),
    Row::Begin(Call::Stat { path: b"/a/b" }, Ok(3)),
    Row::Read(0, Reads::Head(8, Opcode::Lookup)),
    Row::Signal(3, false, Ok(IntrEffect::Queued)),
    Row::Signal(3, true, Ok(IntrEffect::None)),
    Row::Interrupt(Reads::Frame("30000000 24000000 09000000. ...... 08000000.")),
    Row::Write(
        Written::Whole(
            "90000000 . 08000000. 02000000. 01000000. 01000000. .... 02000000. ............. ed410000 01000000 ... 00100000 .",
        ),
        WriteResult::Accepted,
    ),
    Row::Signal(3, false, Ok(IntrEffect::Flagged)),
    Row::Read(0, Reads::Head(10, Opcode::Lookup)),
    Row::Interrupt(Reads::Frame("30000000 24000000 0b000000. ...... 0a000000.")),
    Row::Write(
        Written::Whole("10000000 f5ffffff 09000000."),
        WriteResult::NoEntry,
    ),
    Row::Write(
        Written::Whole("10000000 f5ffffff 0b000000."),
        WriteResult::Accepted,
    ),
    Row::Interrupt(Reads::Frame("30000000 24000000 0b000000. ...... 0a000000.")),
    Row::Write(
        Written::Whole("90000000 . 0a000000. ................................"),
        WriteResult::Accepted,
    ),
    Row::Answered(3, Expected::Errno(2)),
    // after ENOSYS a fatal signal still takes an unread request away
    Row::Write(
        Written::Whole("10000000 daffffff 07000000."),
        WriteResult::Accepted,
    ),
    Row::Begin(Call::Stat { path: b"/" }, Ok(4)),
    Row::Signal(4, false, Ok(IntrEffect::None)),
    Row::Signal(4, true, Ok(IntrEffect::Dequeued)),
    Row::Answered(4, Expected::Errno(4)),
    Row::Unanswered(1),
];

/// No signal before INIT is answered finds a call, nor one before the mount.
static EARLY: [Row; 3] = [
    Row::Signal(1, true, Err(Refusal::NotReady)),
    Row::Mount(Ok(())),
    Row::Signal(1, true, Err(Refusal::NoSuch)),
];

/// What is tried on a new kernel, and its name.
type Cell = (&'static str, [Part; 4]);

/// A part of what is tried.
#[derive(Clone, Copy)]
enum Part {
    Unread,
    Flagged,
    Read,
    Interrupted,
    SwitchedOff,
    Known,
    Dequeued,
    ReadWith,
    ReadWithout,
    InterruptAlone,
    Nothing,
    SoftFlagged,
    SoftNone,
    SoftQueued,
    FatalNone,
    FatalDequeued,
    FatalQueued,
    Never,
    ReadBefore,
    Queued,
    Ended,
    Second,
    Eagain,
    EagainLate,
    Enosys,
    EnosysLate,
    Other,
    OtherLate,
    NoError,
    NoErrorLate,
    SecondAlone,
    SecondFirst,
    Both,
    NoneAtAll,
}

/// The rows of a part.
fn rows_of(part: Part) -> &'static [Row] {
    match part {
        Part::Unread => &UNREAD,
        Part::Flagged => &FLAGGED,
        Part::Read => &READ,
        Part::Interrupted => &INTERRUPTED,
        Part::SwitchedOff => &SWITCHED_OFF,
        Part::Known => &KNOWN,
        Part::Dequeued => &DEQUEUED,
        Part::ReadWith => &READ_WITH,
        Part::ReadWithout => &READ_WITHOUT,
        Part::InterruptAlone => &INTERRUPT_ALONE,
        Part::Nothing => &NOTHING,
        Part::SoftFlagged => &SOFT_FLAGGED,
        Part::SoftNone => &SOFT_NONE,
        Part::SoftQueued => &SOFT_QUEUED,
        Part::FatalNone => &FATAL_NONE,
        Part::FatalDequeued => &FATAL_DEQUEUED,
        Part::FatalQueued => &FATAL_QUEUED,
        Part::Never => &NEVER,
        Part::ReadBefore => &READ_BEFORE,
        Part::Queued => &QUEUED,
        Part::Ended => &ENDED,
        Part::Second => &SECOND,
        Part::Eagain => &EAGAIN,
        Part::EagainLate => &EAGAIN_LATE,
        Part::Enosys => &ENOSYS,
        Part::EnosysLate => &ENOSYS_LATE,
        Part::Other => &OTHER,
        Part::OtherLate => &OTHER_LATE,
        Part::NoError => &NO_ERROR,
        Part::NoErrorLate => &NO_ERROR_LATE,
        Part::SecondAlone => &SECOND_ALONE,
        Part::SecondFirst => &SECOND_FIRST,
        Part::Both => &BOTH,
        Part::NoneAtAll => &NONE_AT_ALL,
    }
}

/// Tries the parts of a cell on a new kernel.
fn check_cell(rt: &impl Abort, alloc: Global, cell: &Cell) {
    let (name, parts) = cell;
    let [came, known, signal, then] = *parts;
    let lists: [&[Row]; 6] = [
        &START,
        &TWO_CALLS,
        rows_of(came),
        rows_of(known),
        rows_of(signal),
        rows_of(then),
    ];
    run_lists(rt, alloc, &lists, name);
}

/// Tries these cells.
fn check_cells(rt: &impl Abort, alloc: Global, cells: &[Cell]) {
    for cell in cells {
        check_cell(rt, alloc, cell);
    }
}

#[test]
fn each_cell(rt: HostRuntime) -> Result<(), Fail> {
    check_cells(&rt, rt.alloc(), &SIGNALS);
    check_cells(&rt, rt.alloc(), &REPLIES);
    Ok(())
}

#[test]
fn marks(rt: HostRuntime) -> Result<(), Fail> {
    run_on_new(&rt, rt.alloc(), &EARLY, &MARKS, "marks");
    Ok(())
}
