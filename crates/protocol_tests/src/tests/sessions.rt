//! Frames of real sessions of Linux 6.18, read by hand, and notifications laid out by hand from linux/fuse.h.

use crate::tests::frames::unhex;
use fuse_protocol::*;
use fuse_replies::*;
use std::alloc::{AllocError, Global};
use std::process::Abort;
use std::test::Fail;

/// What libfuse 3.14 and Linux 6.18 agree on.
const AGREED: Agreed = Agreed {
    minor: 31,
    has_long_setxattr: false,
    has_extensions: false,
    has_dot_names: true,
    max_name: 4095,
};

/// BATCH_FORGET of two nodes, 13 and 14, one lookup each.
const FORGETS: &str =
    "500000002a000000 4404000000000000 0000000000000000 00000000000000000000000000000000
    0200000000000000 0d000000000000000100000000000000 0e000000000000000100000000000000";

/// RENAME2 of `2` in node 2 to `3` in node 2, with RENAME_NOREPLACE.
const RENAME2: &str =
    "3c0000002d000000 6802000000000000 0200000000000000 0000000000000000d748000000000000
    0200000000000000 0100000000000000 3200 3300";

/// COPY_FILE_RANGE of 1 MiB from 7 of handle 1 of node 5 to the start of handle 3 of node 7.
const COPY: &str =
    "600000002f000000 3a01000000000000 0500000000000000 0000000000000000c748000000000000
    0100000000000000 0000000000000000 0700000000000000 0300000000000000 0000000000000000
    0000100000000000 0000000000000000";

/// INTERRUPT of request 556.
const INTERRUPT: &str =
    "3000000024000000 2d02000000000000 0000000000000000 00000000000000000000000000000000
    2c02000000000000";

/// LOOKUP of `churn` in the root.
const LOOKUP: &str =
    "2e00000001000000 2600000000000000 0100000000000000 0000000000000000c810000000000000
    636875726e00";

/// Whether a request is that BATCH_FORGET.
fn is_forgets(request: &Request<'_>) -> bool {
    let mut pairs = request.pairs();
    request.head.opcode == Opcode::BatchForget
        && pairs.next() == Some((13, 1))
        && pairs.next() == Some((14, 1))
        && pairs.next().is_none()
}

fn is_rename2(request: &Request<'_>) -> bool {
    request.head.unique == 616
        && request.head.nodeid == 2
        && request.node == Some(2)
        && request.flags() == Some(1)
        && matches!(request.names, RequestNames::Two(b"2", b"3"))
}

fn is_copy(request: &Request<'_>) -> bool {
    request.node == Some(7)
        && request.handle == OpenHandle::TwoFiles(1, 3)
        && request.offset() == Some(0)
        && request.size() == Some(1_048_576)
}

fn is_interrupt(request: &Request<'_>) -> bool {
    request.head.unique == 557
        && request.interrupted() == Some(556)
        && request.forgotten().is_none()
        && request.mode().is_none()
}

fn is_lookup(request: &Request<'_>) -> bool {
    request.head.nodeid == 1
        && request.node.is_none()
        && matches!(request.names, RequestNames::One(b"churn"))
}

/// Which of the requests above is meant.
#[derive(Clone, Copy)]
enum Asked {
    Forgets,
    Rename2,
    Copy,
    Interrupt,
    Lookup,
}

fn is_asked(request: &Request<'_>, asked: Asked) -> bool {
    match asked {
        Asked::Forgets => is_forgets(request),
        Asked::Rename2 => is_rename2(request),
        Asked::Copy => is_copy(request),
        Asked::Interrupt => is_interrupt(request),
        Asked::Lookup => is_lookup(request),
    }
}

/// Whether a frame is read as what it asks.
fn is_read_as(alloc: Global, frame: &str, asked: Asked) -> Result<bool, AllocError> {
    let frame = unhex(alloc, frame)?;
    Ok(match read_request(AGREED, frame.as_slice()) {
        Ok(request) => is_asked(&request, asked),
        Err(_) => false,
    })
}

static REQUESTS: [(&str, &str, Asked); 5] = [
    ("BATCH_FORGET", FORGETS, Asked::Forgets),
    ("RENAME2", RENAME2, Asked::Rename2),
    ("COPY_FILE_RANGE", COPY, Asked::Copy),
    ("INTERRUPT", INTERRUPT, Asked::Interrupt),
    ("LOOKUP", LOOKUP, Asked::Lookup),
];

#[test]
fn requests_of_real_sessions(rt: HostRuntime) -> Result<(), Fail> {
    for (name, frame, asked) in REQUESTS.iter() {
        assert!(rt; is_read_as(rt.alloc(), frame, *asked)?, "{name}");
    }
    Ok(())
}

/// The reply to the LOOKUP: node 2, inode 11,187,443, a directory of 4,096 bytes.
const ENTRY: &str = "9000000000000000 2600000000000000 0200000000000000 0000000000000000
    0000000000000000 0000000000000000 00000000 00000000
    f3b4aa0000000000 0010000000000000 0800000000000000 598c096b00000000 598c096b00000000 598c096b00000000
    2607bf22 2607bf22 2607bf22 ed410000 02000000 00000000 00000000 00000000 00100000 00000000";

/// The reply to a CREATE: node 13, inode 11,187,445, a file of mode 0644, handle 4.
const CREATED: &str = "a000000000000000 1003000000000000 0d00000000000000 0000000000000000
    0000000000000000 0000000000000000 00000000 00000000
    f5b4aa0000000000 0000000000000000 0000000000000000 598c096b00000000 598c096b00000000 598c096b00000000
    201bd023 201bd023 201bd023 a4810000 01000000 00000000 00000000 00000000 00100000 00000000
    0400000000000000 00000000 00000000";

/// The first record of a READDIRPLUS reply, `.` without an entry, and the second, cut short behind its name.
const LISTED: &str = "4801000000000000 0c00000000000000
    0000000000000000 0000000000000000 0000000000000000 0000000000000000 00000000 00000000
    f1b4aa0000000000 0000000000000000 0000000000000000 0000000000000000 0000000000000000 0000000000000000
    00000000 00000000 00000000 00400000 00000000 00000000 00000000 00000000 00000000 00000000
    f1b4aa0000000000 0100000000000000 01000000 04000000 2e00000000000000
    0000000000000000 0000000000000000 0000000000000000 0000000000000000 00000000 00000000
    c8b4aa0000000000 0000000000000000 0000000000000000 0000000000000000 0000000000000000 0000000000000000
    00000000 00000000 00000000 00400000 00000000 00000000 00000000 00000000 00000000 00000000
    c8b4aa0000000000 0200000000000000 02000000 04000000";

/// The reply to a WRITE of 8,571 bytes.
const WRITTEN: &str = "1800000000000000 7e03000000000000 7b210000 00000000";

/// A request of an opcode, that asked for so many bytes.
fn asking(opcode: Opcode, asked: u32) -> RequestHead {
    RequestHead {
        opcode,
        unique: 0,
        nodeid: 1,
        asked,
    }
}

/// Whether a reply under number 38 gives that entry.
fn is_entry(reply: &Reply<'_>) -> bool {
    reply.unique == 38
        && matches!(reply.answer, Answer::Entry(entry) if entry.nodeid == 2 && entry.generation == 0
        && entry.attributes.ino == 11_187_443 && entry.attributes.mode == 0o40755 && entry.attributes.size == 4096)
}

fn is_created(reply: &Reply<'_>) -> bool {
    matches!(reply.answer, Answer::Created(entry, opened) if entry.nodeid == 13
        && entry.attributes.mode == 0o100644 && opened.handle == 4)
}

/// Whether an entry record is the whole one.
fn is_first_listed(each: &EntryRecord<'_>) -> bool {
    each.entry.nodeid == 0
        && each.record.ino == 11_187_441
        && each.record.off == 1
        && each.record.kind == 4
        && each.record.name == b".".as_slice()
}

/// Whether that record alone is listed: the one that is cut is passed over.
fn is_listed(reply: &Reply<'_>) -> bool {
    let Answer::EntryRecords(records) = reply.answer else {
        return false;
    };
    let mut records = records;
    let is_first = match records.next() {
        Some(each) => is_first_listed(&each),
        None => false,
    };
    is_first && records.next().is_none()
}

fn is_answer(reply: &Reply<'_>, opcode: Opcode) -> bool {
    match opcode {
        Opcode::Lookup => is_entry(reply),
        Opcode::Create => is_created(reply),
        Opcode::Write => matches!(reply.answer, Answer::Number(8571)),
        Opcode::Readdirplus => is_listed(reply),
        _ => false,
    }
}

/// Whether a frame is read as the reply to a request of its opcode, which asked for so many bytes.
fn is_answered(alloc: Global, frame: &str, opcode: Opcode, asked: u32) -> Result<bool, AllocError> {
    let frame = unhex(alloc, frame)?;
    Ok(
        match read_reply(AGREED, &asking(opcode, asked), frame.as_slice()) {
            Ok(reply) => is_answer(&reply, opcode),
            Err(_) => false,
        },
    )
}

static REPLIES: [(&str, &str, Opcode, u32); 4] = [
    ("LOOKUP", ENTRY, Opcode::Lookup, 0),
    ("CREATE", CREATED, Opcode::Create, 0),
    ("WRITE", WRITTEN, Opcode::Write, 0),
    ("READDIRPLUS", LISTED, Opcode::Readdirplus, 32_768),
];

#[test]
fn replies_of_real_sessions(rt: HostRuntime) -> Result<(), Fail> {
    for (name, frame, opcode, asked) in REPLIES.iter() {
        assert!(rt; is_answered(rt.alloc(), frame, *opcode, *asked)?, "{name}");
    }
    Ok(())
}

/// INVAL_INODE of a node, its attributes alone, as fuse-overlayfs sent it.
const INVAL_INODE: &str =
    "2800000002000000 0000000000000000 90eec21899550000 ffffffffffffffff 0000000000000000";

const INVAL_ENTRY: &str =
    "2400000003000000 0000000000000000 0100000000000000 03000000 01000000 61626300";

const STORE: &str =
    "2b00000004000000 0000000000000000 0500000000000000 0010000000000000 03000000 00000000 616263";

const RETRIEVE: &str =
    "3000000005000000 0000000000000000 0b00000000000000 0500000000000000 0010000000000000
    00200000 00000000";

const DELETE: &str =
    "2a00000006000000 0000000000000000 0100000000000000 0500000000000000 01000000 00000000 6100";

const RESEND: &str = "1000000007000000 0000000000000000";

const PRUNE: &str = "3000000009000000 0000000000000000 02000000 00000000 0000000000000000
    0500000000000000 0600000000000000";

const POLL: &str = "1800000001000000 0000000000000000 0900000000000000";

/// Two nodes, and whether there are no more.
fn two_of(nodeids: NodeIds<'_>) -> (u64, u64, u64) {
    let mut left = nodeids;
    let first = left.next().unwrap_or(0);
    let second = left.next().unwrap_or(0);
    (first, second, u64::from(left.next().is_none()))
}

/// Three numbers of a notification.
fn numbers_of(notification: Notification<'_>) -> (u64, u64, u64) {
    match notification {
        Notification::Poll { handle } => (handle, 0, 0),
        Notification::InvalInode {
            nodeid,
            offset,
            length,
        } => (nodeid, u64::from(offset == -1), u64::from(length == 0)),
        Notification::InvalEntry { parent, flags, .. } => (parent, u64::from(flags), 0),
        Notification::Store { nodeid, offset, .. } => (nodeid, offset, 0),
        Notification::Retrieve {
            unique,
            nodeid,
            size,
            ..
        } => (unique, nodeid, u64::from(size)),
        Notification::Delete { parent, child, .. } => (parent, child, 0),
        Notification::Resend | Notification::IncEpoch => (0, 0, 0),
        Notification::Prune { nodeids } => two_of(nodeids),
    }
}

/// The name or the data of a notification.
fn bytes_of(notification: Notification<'_>) -> &[u8] {
    match notification {
        Notification::InvalEntry { name, .. } | Notification::Delete { name, .. } => name,
        Notification::Store { data, .. } => data,
        _ => &[],
    }
}

/// Whether a frame is a notification of these numbers and bytes.
fn says(
    alloc: Global,
    frame: &str,
    numbers: (u64, u64, u64),
    bytes: &[u8],
) -> Result<bool, AllocError> {
    let frame = unhex(alloc, frame)?;
    Ok(match read_notification(AGREED, frame.as_slice()) {
        Ok(notification) => {
            numbers_of(notification) == numbers && bytes_of(notification) == bytes
        }
        Err(_) => false,
    })
}

/// The name of a notification, its frame, its numbers and its bytes.
type Said = (&'static str, &'static str, (u64, u64, u64), &'static [u8]);

static NOTIFICATIONS: [Said; 8] = [
    ("INVAL_INODE", INVAL_INODE, (0x5599_18c2_ee90, 1, 1), b""),
    ("INVAL_ENTRY", INVAL_ENTRY, (1, 1, 0), b"abc"),
    ("STORE", STORE, (5, 4096, 0), b"abc"),
    ("RETRIEVE", RETRIEVE, (11, 5, 8192), b""),
    ("DELETE", DELETE, (1, 5, 0), b"a"),
    ("RESEND", RESEND, (0, 0, 0), b""),
    ("POLL", POLL, (9, 0, 0), b""),
    ("PRUNE", PRUNE, (5, 6, 1), b""),
];

#[test]
fn notifications_are_read(rt: HostRuntime) -> Result<(), Fail> {
    for (name, frame, numbers, bytes) in NOTIFICATIONS.iter() {
        assert!(rt; says(rt.alloc(), frame, *numbers, bytes)?, "{name}");
    }
    Ok(())
}

/// Frames of one byte more or less, of a number, and of a code that is not known.
static REFUSED: [(&str, NotificationFault); 9] = [
    ("0f00000001000000 00000000000000", NotificationFault::Short),
    (
        "1000000001000000 0100000000000000",
        NotificationFault::Number,
    ),
    ("100000000a000000 0000000000000000", NotificationFault::Code),
    ("1000000001000000 0000000000000000", NotificationFault::Body),
    (
        "1100000007000000 0000000000000000 00",
        NotificationFault::Body,
    ),
    (
        "1100000007000000 0000000000000000",
        NotificationFault::Length,
    ),
    (
        "2300000003000000 0000000000000000 0100000000000000 03000000 01000000 616263",
        NotificationFault::Body,
    ),
    (
        "2400000003000000 0000000000000000 0100000000000000 03000000 01000000 61626301",
        NotificationFault::Name,
    ),
    (
        "2400000003000000 0000000000000000 0100000000000000 03000000 01000000 612f6300",
        NotificationFault::Name,
    ),
];

/// What is wrong with the frame of a notification, if anything is.
fn fault_of(alloc: Global, frame: &str) -> Result<Option<NotificationFault>, AllocError> {
    let frame = unhex(alloc, frame)?;
    Ok(read_notification(AGREED, frame.as_slice()).err())
}

#[test]
fn notifications_are_refused(rt: HostRuntime) -> Result<(), Fail> {
    for (frame, fault) in REFUSED.iter() {
        assert!(rt; fault_of(rt.alloc(), frame)? == Some(*fault), "{frame}");
    }
    Ok(())
}
