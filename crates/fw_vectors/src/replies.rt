//! The vectors of replies.

use crate::changes::{add_fields, add_lengths, add_starts, add_with, first, joined, put};
use crate::frame_vector::{Direction, VectorList};
use crate::reply_samples::{ENTRY, MISSING, record, record_plus, reply_samples};
use crate::request_samples::UNIQUE;
use fk_wire::{
    Entry, Opcode, Reply, ReplyBody, WireFault, put_record, put_record_plus, write_reply,
};
use std::alloc::{AllocError, Allocator};

/// How many bytes a header has.
const HEADER: usize = 16;

/// Errors in and out of range, and at its ends.
const ERRORS: [i32; 8] = [0, -1, -38, -511, -512, 1, i32::MAX, i32::MIN];

/// Nanoseconds below a second, and none.
const NANOSECONDS: [u32; 4] = [0, 999_999_999, 1_000_000_000, u32::MAX];

/// Names of seven bytes or eight, good and bad.
const RECORD_NAMES: [&[u8]; 6] = [
    b"a/nnnnn",
    b"a\0nnnnn",
    b".nnnnnn",
    b"\xff\x80nnnnn",
    b"nnnnnnn\0",
    b"nnnnnnn\xff",
];

/// The written form of a reply. It is empty where the reply has none.
fn written<A: Allocator + Copy>(alloc: A, body: &ReplyBody<'_>) -> Result<Vec<u8, A>, AllocError> {
    let mut frame = Vec::new(alloc);
    let reply = Reply {
        unique: UNIQUE,
        error: 0,
        body: *body,
    };
    match write_reply(&mut frame, &reply) {
        Err(WireFault::Memory) => Err(AllocError),
        Ok(()) | Err(_) => Ok(frame),
    }
}

/// Adds a frame with each error in its header, and each such header alone.
fn add_errors<A: Allocator + Copy>(
    list: &mut VectorList<A>,
    direction: Direction,
    frame: &[u8],
) -> Result<(), AllocError> {
    let header = joined(list.alloc(), first(frame, HEADER), &[], &[])?;
    for error in ERRORS {
        let word = error.to_le_bytes();
        add_with(list, direction, frame, 4, &word)?;
        add_with(list, direction, header.as_slice(), 4, &word)?;
    }
    Ok(())
}

/// Adds a reply, and that with each field at another value, with other lengths and with errors.
fn add_reply<A: Allocator + Copy>(
    list: &mut VectorList<A>,
    opcode: Opcode,
    frame: &[u8],
) -> Result<(), AllocError> {
    let direction = Direction::Reply { opcode };
    list.add(direction, frame)?;
    add_fields(list, direction, frame)?;
    add_lengths(list, direction, frame)?;
    add_starts(list, direction, frame, &[0, 4, 7, 8, 15, HEADER])?;
    add_errors(list, direction, frame)
}

/// Adds a frame that begins with an entry, with each number of nanoseconds.
fn add_nanoseconds<A: Allocator + Copy>(
    list: &mut VectorList<A>,
    opcode: Opcode,
    frame: &[u8],
) -> Result<(), AllocError> {
    let direction = Direction::Reply { opcode };
    for nanoseconds in NANOSECONDS {
        add_with(list, direction, frame, 48, &nanoseconds.to_le_bytes())?;
    }
    Ok(())
}

/// Adds the vectors of the replies without records.
fn add_plain<A: Allocator + Copy>(list: &mut VectorList<A>) -> Result<(), AllocError> {
    for (opcode, body) in reply_samples() {
        let frame = written(list.alloc(), &body)?;
        add_reply(list, opcode, frame.as_slice())?;
        if let ReplyBody::Entry { .. } | ReplyBody::Create { .. } = body {
            add_nanoseconds(list, opcode, frame.as_slice())?;
        }
    }
    Ok(())
}

/// Adds an INIT reply of a minor version and a length, and the same with each of its fields of two bytes at another
/// value, as far as it reaches.
fn add_init_at<A: Allocator + Copy>(
    list: &mut VectorList<A>,
    minor: u8,
    size: usize,
) -> Result<(), AllocError> {
    let direction = Direction::Reply {
        opcode: Opcode::Init,
    };
    let start = [0, 0, 0, 0, 0, 0, 0, 0, 6, 0, 0, 0, 0, 0, 0, 0, 7, 0, 0, 0];
    let mut frame = joined(list.alloc(), &start, &[0; 60], &[])?;
    put(frame.as_mut_slice(), 20, &[minor]);
    let frame = joined(list.alloc(), first(frame.as_slice(), size), &[], &[])?;
    list.add(direction, frame.as_slice())?;
    for place in [32, 34, 44, 46] {
        add_with(list, direction, frame.as_slice(), place, &[0xff; 2])?;
    }
    Ok(())
}

/// Adds INIT replies whose length is that of the minor version they state, and such whose is not.
fn add_init<A: Allocator + Copy>(list: &mut VectorList<A>) -> Result<(), AllocError> {
    for (minor, size) in [
        (15u8, 40),
        (15, 80),
        (31, 80),
        (31, 40),
        (0, 40),
        (14, 40),
        (16, 80),
    ] {
        add_init_at(list, minor, size)?;
    }
    Ok(())
}

/// Adds READ replies with this many bytes.
fn add_data<A: Allocator + Copy>(list: &mut VectorList<A>) -> Result<(), AllocError> {
    let data = vec![in list.alloc(); 0x5a; 4177]?;
    for size in [0usize, 1, 4096, 4160, 4161] {
        let opcode = Opcode::Read;
        let frame = joined(
            list.alloc(),
            &[0; HEADER],
            first(data.as_slice(), size),
            &[],
        )?;
        list.add(Direction::Reply { opcode }, frame.as_slice())?;
    }
    Ok(())
}

/// Puts a record with a name at the end of a body, with an entry in front under `plus`.
fn put_one<A: Allocator>(
    body: &mut Vec<u8, A>,
    plus: bool,
    entry: Entry,
    name: &[u8],
) -> Result<(), AllocError> {
    let put = if plus {
        put_record_plus(body, &record_plus(entry, name))
    } else {
        put_record(body, &record(name))
    };
    match put {
        Err(WireFault::Memory) => Err(AllocError),
        Ok(()) | Err(_) => Ok(()),
    }
}

/// The frame of two records with these names, with an entry in front of each under `plus`: of a file and of none.
fn two_records<A: Allocator + Copy>(
    alloc: A,
    plus: bool,
    first: &[u8],
    second: &[u8],
) -> Result<Vec<u8, A>, AllocError> {
    let mut body = Vec::new(alloc);
    put_one(&mut body, plus, ENTRY, first)?;
    put_one(&mut body, plus, MISSING, second)?;
    joined(alloc, &[0; HEADER], body.as_slice(), &[])
}

/// Adds frames whose first record is one of seven bytes, with other names and lengths of the name put in its place.
fn add_record_names<A: Allocator + Copy>(
    list: &mut VectorList<A>,
    opcode: Opcode,
    plus: bool,
) -> Result<(), AllocError> {
    let direction = Direction::Reply { opcode };
    let place = if plus { HEADER + 128 } else { HEADER };
    let frame = two_records(list.alloc(), plus, b"nnnnnnn", b"m")?;
    for name in RECORD_NAMES {
        add_with(list, direction, frame.as_slice(), place + 24, name)?;
    }
    for len in [0u32, 1, 6, 8, 9, 255, 256, u32::MAX] {
        add_with(
            list,
            direction,
            frame.as_slice(),
            place + 16,
            &len.to_le_bytes(),
        )?;
    }
    Ok(())
}

/// Adds the frame of two records with these names.
fn add_two_records<A: Allocator + Copy>(
    list: &mut VectorList<A>,
    opcode: Opcode,
    plus: bool,
    first: &[u8],
    second: &[u8],
) -> Result<(), AllocError> {
    let frame = two_records(list.alloc(), plus, first, second)?;
    list.add(Direction::Reply { opcode }, frame.as_slice())
}

/// Adds the frames of no record, of records named `.` and `..`, and of one with the longest name.
fn add_unusual_records<A: Allocator + Copy>(
    list: &mut VectorList<A>,
    opcode: Opcode,
    plus: bool,
) -> Result<(), AllocError> {
    let none = joined(list.alloc(), &[0; HEADER], &[], &[])?;
    list.add(Direction::Reply { opcode }, none.as_slice())?;
    add_two_records(list, opcode, plus, b".", b"..")?;
    add_two_records(list, opcode, plus, &[b'n'; 255], b"\xff")
}

/// Adds the vectors of the replies with records, with an entry in front of each under `plus`.
fn add_records<A: Allocator + Copy>(
    list: &mut VectorList<A>,
    opcode: Opcode,
    plus: bool,
) -> Result<(), AllocError> {
    add_unusual_records(list, opcode, plus)?;
    let frame = two_records(list.alloc(), plus, b"ab", b"cdefghij")?;
    add_reply(list, opcode, frame.as_slice())?;
    if plus {
        add_nanoseconds(list, opcode, frame.as_slice())?;
    }
    add_record_names(list, opcode, plus)
}

/// Adds replies to the opcodes that have none.
fn add_to_forgets<A: Allocator + Copy>(list: &mut VectorList<A>) -> Result<(), AllocError> {
    let frame = written(list.alloc(), &ReplyBody::Empty)?;
    for opcode in [Opcode::Forget, Opcode::BatchForget] {
        add_reply(list, opcode, frame.as_slice())?;
    }
    Ok(())
}

/// Adds the vectors of replies.
pub(crate) fn add_replies<A: Allocator + Copy>(list: &mut VectorList<A>) -> Result<(), AllocError> {
    add_plain(list)?;
    add_init(list)?;
    add_data(list)?;
    add_records(list, Opcode::Readdir, false)?;
    add_records(list, Opcode::Readdirplus, true)?;
    add_to_forgets(list)
}
