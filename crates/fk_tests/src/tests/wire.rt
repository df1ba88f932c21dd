//! Frames from outside, laid out by hand from linux/fuse.h: read and written back byte for byte, or refused by their
//! first fault.

use crate::tests::digits::{spells, unhex};
use crate::tests::{assert_between, assert_right};
use fail_at::{FailAt, Outcome, Tried, first_wrong, judged};
use fk_wire::*;
use std::alloc::{Allocator, Global};
use std::process::Abort;
use std::test::Fail;

/// Bytes in hexadecimal digits, what they are, and what is wrong with them.
#[derive(Clone, Copy)]
enum Row {
    Request(&'static str),
    /// A request with any free fields, and its written spelling.
    Free(&'static str, &'static str),
    FreeReply(Opcode, &'static str, &'static str),
    RequestAt(Minor, &'static str),
    Reply(Opcode, &'static str),
    ReplyAt(Minor, Opcode, &'static str),
    /// Records of a list, with their entries or without, and pairs, of which there are this many.
    Records(&'static str),
    RecordsPlus(&'static str),
    Pairs(&'static str, usize),
    /// A result and its unique.
    WriteResult(&'static str, i32, u64),
    Faulty(&'static str, WireFault),
    FaultyReply(Opcode, &'static str, WireFault),
}

/// Whether bytes were written as they must be.
fn written(alloc: Global, written: Result<(), WireFault>, out: &[u8], row: Row) -> Outcome {
    match written {
        Ok(()) => judged(spells(alloc, out, wanted_of(row))),
        Err(WireFault::Memory) => Outcome::NoMemory,
        Err(_) => Outcome::Wrong,
    }
}

/// Whether a request has the size and the opcode that its frame says (`struct fuse_in_header`).
fn has_its_head(minor: Minor, request: &Request<'_>, bytes: &[u8]) -> bool {
    let opcode = request.body.opcode();
    is_known(minor, opcode)
        && request_size(minor, request) == Ok(bytes.len())
        && bytes.get(4..8) == Some(opcode.code().to_le_bytes().as_slice())
}

/// Writes back what was read of a request.
fn request_written<A: Allocator>(
    out: &mut Vec<u8, A>,
    minor: Option<Minor>,
    bytes: &[u8],
) -> Result<(), WireFault> {
    let request = match minor {
        Some(minor) => read_request_at(minor, bytes)?,
        None => read_request(bytes)?,
    };
    if !has_its_head(minor.unwrap_or(Minor::M31), &request, bytes) {
        return Err(WireFault::Length);
    }
    match minor {
        Some(minor) => write_request_at(minor, out, &request),
        None => write_request(out, &request),
    }
}

/// The same of a reply.
fn reply_written<A: Allocator>(
    out: &mut Vec<u8, A>,
    minor: Option<Minor>,
    opcode: Opcode,
    bytes: &[u8],
) -> Result<(), WireFault> {
    match minor {
        Some(minor) => write_reply_at(minor, out, &read_reply_at(minor, opcode, bytes)?),
        None => write_reply(out, &read_reply(opcode, bytes)?),
    }
}

/// The same of records.
fn records_written<A: Allocator>(out: &mut Vec<u8, A>, bytes: &[u8]) -> Result<(), WireFault> {
    let Some(records) = Records::over(bytes) else {
        return Err(WireFault::Body);
    };
    for record in records {
        put_record(out, &record)?;
    }
    Ok(())
}

/// The same of records with their entries.
fn records_plus_written<A: Allocator>(out: &mut Vec<u8, A>, bytes: &[u8]) -> Result<(), WireFault> {
    let Some(records) = RecordsPlus::over(bytes) else {
        return Err(WireFault::Body);
    };
    for record in records {
        put_record_plus(out, &record)?;
    }
    Ok(())
}

/// A body of this many pairs.
fn pairs_written<A: Allocator>(
    out: &mut Vec<u8, A>,
    bytes: &[u8],
    count: usize,
) -> Result<(), WireFault> {
    let Some(pairs) = Pairs::over(bytes) else {
        return Err(WireFault::Body);
    };
    if pairs.count_left() != count {
        return Err(WireFault::Body);
    }
    for (nodeid, nlookup) in pairs {
        put_pair(out, nodeid, nlookup)?;
    }
    Ok(())
}

/// The same of a result.
fn result_written<A: Allocator>(
    out: &mut Vec<u8, A>,
    bytes: &[u8],
    error: i32,
    unique: u64,
) -> Result<(), WireFault> {
    let head = ReplyHead { error, unique };
    if read_result(bytes) != Ok((error, unique))
        || read_reply_head(bytes) != Ok((error, unique))
        || ReplyHead::read(bytes) != Ok(head)
    {
        return Err(WireFault::Body);
    }
    write_result(out, error, unique)
}

/// Reads bytes and writes them back.
fn written_again<A: Allocator>(
    out: &mut Vec<u8, A>,
    bytes: &[u8],
    row: Row,
) -> Result<(), WireFault> {
    match row {
        Row::Request(_) | Row::Free(_, _) => request_written(out, None, bytes),
        Row::RequestAt(minor, _) => request_written(out, Some(minor), bytes),
        Row::Reply(opcode, _) => reply_written(out, None, opcode, bytes),
        Row::FreeReply(opcode, _, _) => reply_written(out, None, opcode, bytes),
        Row::ReplyAt(minor, opcode, _) => reply_written(out, Some(minor), opcode, bytes),
        Row::Records(_) => records_written(out, bytes),
        Row::RecordsPlus(_) => records_plus_written(out, bytes),
        Row::Pairs(_, count) => pairs_written(out, bytes, count),
        Row::WriteResult(_, error, unique) => result_written(out, bytes, error, unique),
        Row::Faulty(_, _) | Row::FaultyReply(_, _, _) => Err(WireFault::Body),
    }
}

/// Whether bytes have this fault, as a request or as a reply.
fn is_faulty(bytes: &[u8], opcode: Option<Opcode>, fault: WireFault) -> bool {
    match opcode {
        Some(opcode) => read_reply(opcode, bytes).err() == Some(fault),
        None => read_request(bytes).err() == Some(fault),
    }
}

fn digits_of(row: Row) -> &'static str {
    match row {
        Row::Request(text)
        | Row::Free(text, _)
        | Row::FreeReply(_, text, _)
        | Row::RequestAt(_, text)
        | Row::Reply(_, text)
        | Row::ReplyAt(_, _, text)
        | Row::Records(text)
        | Row::RecordsPlus(text)
        | Row::Pairs(text, _)
        | Row::WriteResult(text, _, _)
        | Row::Faulty(text, _)
        | Row::FaultyReply(_, text, _) => text,
    }
}

/// What is written where the bytes of a row are read.
fn wanted_of(row: Row) -> &'static str {
    match row {
        Row::Free(_, text) | Row::FreeReply(_, _, text) => text,
        _ => digits_of(row),
    }
}

/// What the bytes of a row come to.
fn tried<A: Allocator>(out: &mut Vec<u8, A>, alloc: Global, bytes: &[u8], row: Row) -> Outcome {
    match row {
        Row::Faulty(_, fault) => judged(is_faulty(bytes, None, fault)),
        Row::FaultyReply(opcode, _, fault) => judged(is_faulty(bytes, Some(opcode), fault)),
        _ => {
            let outcome = written_again(out, bytes, row);
            written(alloc, outcome, out, row)
        }
    }
}

/// A request of each opcode.
static REQUESTS: [Row; 21] = [
    Row::Request("2a000000 01000000 04000000. 01000000. .... 6100"),
    Row::Request("30000000 02000000 0e000000. 02000000. .... 03000000."),
    Row::Request("38000000 03000000 04000000. 01000000. ........"),
    Row::Request("32000000 09000000 04000000. 01000000. .... ed010000 . 6400"),
    Row::Request("2a000000 0a000000 04000000. 01000000. .... 6100"),
    Row::Request("2a000000 0b000000 04000000. 01000000. .... 6100"),
    Row::Request("35000000 0c000000 04000000. 01000000. .... 02000000. 6100 626200"),
    Row::Request("32000000 0d000000 04000000. 01000000. .... 03000000. 6300"),
    Row::Request("30000000 0e000000 04000000. 01000000. ......"),
    Row::Request("50000000 0f000000 04000000. 01000000. .... 05000000. 07000000. 0a000000 ....."),
    Row::Request(
        "52000000 10000000 04000000. 01000000. .... 05000000. 07000000. 02000000 ..... 6869",
    ),
    Row::Request("40000000 12000000 04000000. 01000000. .... 05000000. ...."),
    Row::Request("38000000 1a000000 02000000. ...... 07000000 1f000000 . 01200400"),
    Row::Request("50000000 1c000000 04000000. 01000000. ...... 07000000. 00100000 ....."),
    Row::Request("50000000 2c000000 04000000. 01000000. ...... 07000000. 00100000 ....."),
    Row::Request("3a000000 23000000 04000000. 01000000. ..... a4810000 .. 6600"),
    Row::Request("30000000 24000000 05000000. ...... 04000000."),
    Row::Request(
        "50000000 2a000000 08000000. ...... 02000000 . 02000000. 01000000. 03000000. 01000000.",
    ),
    Row::Request("30000000 2a000000 08000000. ........"),
    Row::Request(
        "28010000 01000000 04000000. 01000000. .... 6e6e6e6e6e6e6e6e6e6e6e6e6e6e6e6e6e6e6e6e6e6e6e6e6e6e6e6e6e6e6e6e6e6e6e6e6e6e6e6e6e6e6e6e6e6e6e6e6e6e6e6e6e6e6e6e6e6e6e6e6e6e6e6e6e6e6e6e6e6e6e6e6e6e6e6e6e6e6e6e6e6e6e6e6e6e6e6e6e6e6e6e6e6e6e6e6e6e6e6e6e6e6e6e6e6e6e6e6e6e6e6e6e6e6e6e6e6e6e6e6e6e6e6e6e6e6e6e6e6e6e6e6e6e6e6e6e6e6e6e6e6e6e6e6e6e6e6e6e6e6e6e6e6e6e6e6e6e6e6e6e6e6e6e6e6e6e6e6e6e6e6e6e6e6e6e6e6e6e6e6e6e6e6e6e6e6e6e6e6e6e6e6e6e6e6e6e6e6e6e6e6e6e6e6e6e6e6e6e6e6e6e6e6e6e6e6e6e6e6e6e6e6e6e6e6e6e6e6e6e6e6e6e6e6e6e6e6e6e6e6e6e6e6e6e6e6e6e6e6e6e6e6e6e6e00",
    ),
    Row::Faulty(
        "29010000 01000000 04000000. 01000000. .... 6e6e6e6e6e6e6e6e6e6e6e6e6e6e6e6e6e6e6e6e6e6e6e6e6e6e6e6e6e6e6e6e6e6e6e6e6e6e6e6e6e6e6e6e6e6e6e6e6e6e6e6e6e6e6e6e6e6e6e6e6e6e6e6e6e6e6e6e6e6e6e6e6e6e6e6e6e6e6e6e6e6e6e6e6e6e6e6e6e6e6e6e6e6e6e6e6e6e6e6e6e6e6e6e6e6e6e6e6e6e6e6e6e6e6e6e6e6e6e6e6e6e6e6e6e6e6e6e6e6e6e6e6e6e6e6e6e6e6e6e6e6e6e6e6e6e6e6e6e6e6e6e6e6e6e6e6e6e6e6e6e6e6e6e6e6e6e6e6e6e6e6e6e6e6e6e6e6e6e6e6e6e6e6e6e6e6e6e6e6e6e6e6e6e6e6e6e6e6e6e6e6e6e6e6e6e6e6e6e6e6e6e6e6e6e6e6e6e6e6e6e6e6e6e6e6e6e6e6e6e6e6e6e6e6e6e6e6e6e6e6e6e6e6e6e6e6e6e6e6e6e6e6e6e6e6e00",
        WireFault::Name,
    ),
];

/// A reply to each opcode that has replies.
static REPLIES: [Row; 18] = [
    Row::Reply(
        Opcode::Lookup,
        "90000000 . 04000000. ........ 80b2e60e .......................",
    ),
    Row::Reply(
        Opcode::Getattr,
        "78000000 . 04000000. .... 01000000. ............. ed410000 01000000 ... 00100000 .",
    ),
    Row::Reply(
        Opcode::Mkdir,
        "90000000 . 04000000. 02000000. 01000000. 01000000. .. 0065cd1d . 02000000. ............. ed410000 01000000 ... 00100000 .",
    ),
    Row::Reply(Opcode::Unlink, "10000000 . 04000000."),
    Row::Reply(Opcode::Rmdir, "10000000 . 04000000."),
    Row::Reply(Opcode::Rename, "10000000 . 04000000."),
    Row::Reply(
        Opcode::Link,
        "90000000 . 04000000. 02000000. 01000000. 01000000. .. 0065cd1d . 02000000. ............. ed410000 01000000 ... 00100000 .",
    ),
    Row::Reply(Opcode::Open, "20000000 . 04000000. 01000000. .."),
    Row::Reply(Opcode::Read, "12000000 . 04000000. 6869"),
    Row::Reply(Opcode::Write, "18000000 . 04000000. 02000000 ."),
    Row::Reply(Opcode::Release, "10000000 . 04000000."),
    Row::Reply(
        Opcode::Init,
        "50000000 . 02000000. 07000000 1f000000 . 01200400 0000 0000 00100000 01000000 0000 0000 ........",
    ),
    Row::Reply(
        Opcode::Readdir,
        "50000000 . 04000000. 02000000. 01000000. 01000000 04000000 61000000. 03000000. 02000000. 02000000 08000000 62620000.",
    ),
    // a name with its file, and `..` with node 0; and no name
    Row::Reply(
        Opcode::Readdirplus,
        "50010000 . 04000000. 02000000. 01000000. 01000000. .. 0065cd1d . 02000000. ............. ed410000 01000000 ... 00100000 . 02000000. 01000000. 01000000 04000000 61000000. .... 01000000. .. 0065cd1d ....................... 01000000. 02000000. 02000000 04000000 2e2e0000.",
    ),
    Row::Reply(Opcode::Readdirplus, "10000000 . 04000000."),
    Row::Reply(
        Opcode::Create,
        "a0000000 . 04000000. 02000000. 01000000. 01000000. .. 0065cd1d . 02000000. ............. ed410000 01000000 ... 00100000 . 01000000. ..",
    ),
    Row::Reply(Opcode::Interrupt, "10000000 . 05000000."),
    Row::Reply(Opcode::Mkdir, "10000000 01feffff 04000000."),
];

/// What the minor versions know, lists alone, and results.
static OTHERS: [Row; 7] = [
    Row::RequestAt(
        Minor::M31,
        "50000000 2c000000 04000000. 01000000. ...... 07000000. 00100000 .....",
    ),
    Row::ReplyAt(
        Minor::M31,
        Opcode::Readdirplus,
        "50010000 . 04000000. 02000000. 01000000. 01000000. .. 0065cd1d . 02000000. ............. ed410000 01000000 ... 00100000 . 02000000. 01000000. 01000000 04000000 61000000. 02000000. 01000000. 01000000. .. 0065cd1d . 02000000. ............. ed410000 01000000 ... 00100000 . 02000000. 02000000. 02000000 04000000 2e2e0000.",
    ),
    Row::ReplyAt(
        Minor::M15,
        Opcode::Init,
        "28000000 . 02000000. 07000000 0f000000 . 01000400 0000 0000 00100000",
    ),
    Row::Records(
        "02000000. 01000000. 01000000 04000000 61000000. 03000000. 02000000. 02000000 08000000 62620000. 01000000. 03000000. 02000000 0a000000 2e2e0000.",
    ),
    Row::RecordsPlus(
        "02000000. 01000000. 01000000. .. 0065cd1d . 02000000. ............. ed410000 01000000 ... 00100000 . 02000000. 01000000. 01000000 04000000 61000000. 02000000. 01000000. 01000000. .. 0065cd1d . 02000000. ............. ed410000 01000000 ... 00100000 . 02000000. 02000000. 02000000 04000000 2e2e0000.",
    ),
    Row::Pairs("02000000. 01000000. 03000000. 05000000.", 2),
    Row::WriteResult("10000000 feffffff 06000000.", -2, 6),
];

/// Free fields hold anything, and are dropped.
static FREE: [Row; 8] = [
    Row::Free(
        "30000000 24000000 05000000. 07000000. 01000000 02000000 03000000 04000000 04000000.",
        "30000000 24000000 05000000. ...... 04000000.",
    ),
    Row::Free(
        "38000000 03000000 04000000. 01000000. 01000000 02000000 03000000 04000000 01000000 02000000 03000000.",
        "38000000 03000000 04000000. 01000000. ........",
    ),
    Row::Free(
        "32000000 09000000 04000000. 01000000. 01000000 02000000 03000000 04000000 c0010000 12000000 6400",
        "32000000 09000000 04000000. 01000000. .... ed010000 . 6400",
    ),
    Row::Free(
        "50000000 1c000000 04000000. 01000000. 01000000 02000000 03000000 04000000 09000000. 07000000. 00100000 01000000 02000000. 03000000 04000000",
        "50000000 1c000000 04000000. 01000000. ...... 07000000. 00100000 .....",
    ),
    Row::Free(
        "38000000 1a000000 02000000. 07000000. 01000000 02000000 03000000 04000000 07000000 1f000000 09000000 ff3ff4ff",
        "38000000 1a000000 02000000. ...... 07000000 1f000000 . 01200400",
    ),
    Row::FreeReply(
        Opcode::Lookup,
        "90000000 . 04000000. .. 05000000. 01000000. 06000000. 07000000 08000000 02000000. 03000000. ........... ed410000 04000000 ... 00100000 .",
        "90000000 . 04000000. .... 01000000. .. 07000000 .......................",
    ),
    Row::FreeReply(
        Opcode::Open,
        "20000000 . 04000000. 01000000. 02000000 03000000",
        "20000000 . 04000000. 01000000. ..",
    ),
    Row::FreeReply(
        Opcode::Init,
        "50000000 . 02000000. 07000000 1f000000 09000000 ffffffff 0100 0200 03000000 04000000 0500 0600 07000000 07000000 07000000 07000000 07000000 07000000 07000000 07000000",
        "50000000 . 02000000. 07000000 1f000000 . 01200400 0000 0000 00100000 01000000 0000 0000 ........",
    ),
];

/// What is wrong with requests.
static FAULTY_REQUESTS: [Row; 15] = [
    Row::Faulty(
        "2a0000000100000004000000.01000000....000000",
        WireFault::Short,
    ),
    Row::Faulty(
        "2b000000 01000000 04000000. 01000000. .... 6100",
        WireFault::Length,
    ),
    // an opcode that is not known
    Row::Faulty(
        "28000000 63000000 64000000. 01000000. ....",
        WireFault::Opcode,
    ),
    // a READDIRPLUS with a byte less
    Row::Faulty(
        "4f000000 2c000000 04000000. 01000000. ...... 07000000. 00100000 .... 000000",
        WireFault::Body,
    ),
    // a LOOKUP of `.`, of `..`, of `a/`, of no byte, of `a` with two NUL bytes and without one, and of nothing
    Row::Faulty(
        "2a000000 01000000 04000000. 01000000. .... 2e00",
        WireFault::Name,
    ),
    Row::Faulty(
        "2b000000 01000000 04000000. 01000000. .... 2e2e00",
        WireFault::Name,
    ),
    Row::Faulty(
        "2b000000 01000000 04000000. 01000000. .... 612f00",
        WireFault::Name,
    ),
    Row::Faulty(
        "29000000 01000000 04000000. 01000000. .... 00",
        WireFault::Name,
    ),
    Row::Faulty(
        "2b000000 01000000 04000000. 01000000. .... 610000",
        WireFault::Name,
    ),
    Row::Faulty(
        "29000000 01000000 04000000. 01000000. .... 61",
        WireFault::Name,
    ),
    Row::Faulty(
        "28000000 01000000 04000000. 01000000. ....",
        WireFault::Name,
    ),
    // a RENAME with one name
    Row::Faulty(
        "32000000 0c000000 04000000. 01000000. .... 02000000. 6100",
        WireFault::Name,
    ),
    // a WRITE of two bytes that says three, a BATCH_FORGET of one pair that says two, and a GETATTR with a byte more
    Row::Faulty(
        "52000000 10000000 04000000. 01000000. .... 05000000. 07000000. 03000000 ..... 6869",
        WireFault::Body,
    ),
    Row::Faulty(
        "40000000 2a000000 08000000. ...... 02000000 . 02000000. 01000000.",
        WireFault::Body,
    ),
    Row::Faulty(
        "39000000 03000000 04000000. 01000000. ........ 00",
        WireFault::Body,
    ),
];

/// What is wrong with replies.
static FAULTY_REPLIES: [Row; 17] = [
    Row::FaultyReply(Opcode::Lookup, "...000000", WireFault::Short),
    Row::FaultyReply(Opcode::Lookup, "11000000 . 04000000.", WireFault::Length),
    Row::FaultyReply(
        Opcode::Lookup,
        "10000000 00feffff 04000000.",
        WireFault::ErrorRange,
    ),
    Row::FaultyReply(
        Opcode::Lookup,
        "10000000 01000000 04000000.",
        WireFault::ErrorRange,
    ),
    Row::FaultyReply(Opcode::Forget, "10000000 . 04000000.", WireFault::Opcode),
    Row::FaultyReply(
        Opcode::BatchForget,
        "10000000 feffffff 04000000.",
        WireFault::Opcode,
    ),
    // records without their entries, and an entry with a second of nanoseconds before its record
    Row::FaultyReply(
        Opcode::Readdirplus,
        "30000000 . 04000000. 02000000. 01000000. 01000000 04000000 61000000.",
        WireFault::Body,
    ),
    Row::FaultyReply(
        Opcode::Readdirplus,
        "b0000000 . 04000000. 02000000. 01000000. 01000000. .. 00ca9a3b . 02000000. ............. ed410000 01000000 ... 00100000 . 02000000. 01000000. 01000000 04000000 61000000.",
        WireFault::Body,
    ),
    Row::FaultyReply(Opcode::Init, "10000000 . 02000000.", WireFault::Body),
    // an error with a body, and an entry with a second of nanoseconds
    Row::FaultyReply(
        Opcode::Write,
        "18000000 feffffff 04000000. 02000000 .",
        WireFault::Body,
    ),
    Row::FaultyReply(
        Opcode::Mkdir,
        "90000000 . 04000000. 02000000. 01000000. 01000000. .. 00ca9a3b . 02000000. ............. ed410000 01000000 ... 00100000 .",
        WireFault::Body,
    ),
    // a record that says more than there is, a name with a slash, one in front of a record that is too long, and a
    // name of no byte
    Row::FaultyReply(
        Opcode::Readdir,
        "30000000 . 04000000. 02000000. 01000000. 09000000 04000000 61000000.",
        WireFault::Body,
    ),
    Row::FaultyReply(
        Opcode::Readdir,
        "50000000 . 04000000. 02000000. 01000000. 01000000 04000000 61000000. 03000000. 02000000. 02000000 08000000 622f0000.",
        WireFault::Name,
    ),
    Row::FaultyReply(
        Opcode::Readdir,
        "50000000 . 04000000. 02000000. 01000000. 01000000 04000000 2f000000. 03000000. 02000000. 09000000 08000000 62620000.",
        WireFault::Body,
    ),
    Row::FaultyReply(
        Opcode::Readdir,
        "28000000 . 04000000. 02000000. 01000000. . 04000000",
        WireFault::Name,
    ),
    // 7.15 in 64 bytes, and 7.22 in 24
    Row::FaultyReply(
        Opcode::Init,
        "50000000 . 02000000. 07000000 0f000000 . 01000000 0000 0000 00100000 01000000 0000 0000 ........",
        WireFault::Body,
    ),
    Row::FaultyReply(
        Opcode::Init,
        "28000000 . 02000000. 07000000 16000000 . 01000000 0000 0000 00100000",
        WireFault::Body,
    ),
];

impl<A: Allocator + Copy> Tried<Row, A> for Vec<u8, A> {
    fn attempt(&mut self, heap: A, alloc: Global, row: Row) -> Outcome {
        // No room is left of what came before.
        *self = Vec::new(heap);
        match unhex(alloc, digits_of(row)) {
            Ok(bytes) => tried(self, alloc, &bytes, row),
            Err(_) => Outcome::Wrong,
        }
    }
}

/// The frames that are written.
fn frames() -> [&'static [Row]; 4] {
    [&REQUESTS, &REPLIES, &OTHERS, &FREE]
}

/// All that is written.
fn run_written<A: Allocator + Copy>(
    rt: &impl Abort,
    heap: A,
    refusing: &FailAt<Global>,
    alloc: Global,
) {
    let mut out = Vec::new(heap);
    let wrong = first_wrong(&mut out, heap, refusing, alloc, &frames());
    assert_right(rt, wrong, "frames");
}

/// A WRITE to open file 1, under number 4 about node 1.
fn write_of(bytes: &[u8]) -> Request<'_> {
    let (unique, nodeid) = (4, 1);
    let (fh, offset) = (1, 0);
    let body = RequestBody::Write { fh, offset, bytes };
    Request {
        unique,
        nodeid,
        body,
    }
}

/// Whether a WRITE of the data is refused, and without its first byte written in 4,176 bytes and read.
fn are_a_byte_too_many(out: &mut Vec<u8>, data: &[u8]) -> bool {
    write_request(out, &write_of(data)) == Err(WireFault::Body)
        && write_request(out, &write_of(data.get(1..).unwrap_or(&[]))).is_ok()
        && out.len() == 4176
        && read_request(out).is_ok()
}

#[test]
fn frames_have_up_to_4176_bytes(rt: HostRuntime) -> Result<(), Fail> {
    let mut data = Vec::new(rt.alloc());
    data.resize(4097, 0)?;
    assert!(rt; are_a_byte_too_many(&mut Vec::new(rt.alloc()), &data));
    Ok(())
}

#[test]
fn frames_with_each_growth_refused(rt: HostRuntime) -> Result<(), Fail> {
    let heap = FailAt::new(rt.alloc());
    let mut runs = 0;
    for n in heap.each_growth(200) {
        run_written(&rt, &heap, &heap, rt.alloc());
        runs = n;
    }
    assert_between(&rt, runs, 40, 200);
    assert!(rt; WireFault::Name.number() == 4 && WireFault::Name.name() == "Name");
    assert!(rt; Opcode::BatchForget.name() == "BATCH_FORGET");
    Ok(())
}

#[test]
fn first_faults(rt: HostRuntime) -> Result<(), Fail> {
    let heap = FailAt::new(rt.alloc());
    let lists = [FAULTY_REQUESTS.as_slice(), FAULTY_REPLIES.as_slice()];
    let mut out = Vec::new(rt.alloc());
    let wrong = first_wrong(&mut out, rt.alloc(), &heap, rt.alloc(), &lists);
    assert_right(&rt, wrong, "faulty");
    Ok(())
}
