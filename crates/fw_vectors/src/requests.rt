//! The vectors of requests.

use crate::changes::{add_fields, add_lengths, add_starts, add_with, first, joined, put, put_len};
use crate::frame_vector::{Direction, VectorList};
use crate::request_samples::{
    NAME, NODE, PAIRS, UNIQUE, named_samples, node_samples, session_samples,
};
use fk_wire::{Pairs, Request, RequestBody, WireFault, write_request};
use std::alloc::{AllocError, Allocator};

/// Numbers of no opcode that is served: 0, some of other opcodes of linux/fuse.h, and the highest.
const UNKNOWN_OPCODES: [u32; 10] = [0, 4, 5, 17, 27, 29, 41, 43, 4096, 0xffff_ffff];

/// Names with what ends them, good and bad: some are empty, are not ended, or are ended twice.
const NAMES: [&[u8]; 15] = [
    b"",
    b"\0",
    b"a",
    b".\0",
    b"..\0",
    b"...\0",
    b".a\0",
    b"/\0",
    b"a/b\0",
    b"/a\0",
    b"a\0b\0",
    b"a\0b",
    b"a\0\0",
    b"\"\\ \0",
    b"\x01\x7f\x80\xff\0",
];

/// How many bytes a header has.
const HEADER: usize = 40;

/// The written form of a request, of 7.31. It is empty where the request has none.
fn written<A: Allocator + Copy>(
    alloc: A,
    nodeid: u64,
    body: &RequestBody<'_>,
) -> Result<Vec<u8, A>, AllocError> {
    let mut frame = Vec::new(alloc);
    let request = Request {
        unique: UNIQUE,
        nodeid,
        body: *body,
    };
    match write_request(&mut frame, &request) {
        Err(WireFault::Memory) => Err(AllocError),
        Ok(()) | Err(_) => Ok(frame),
    }
}

/// Adds the written form of a request, and that with each field at another value and with other lengths.
fn add_request<A: Allocator + Copy>(
    list: &mut VectorList<A>,
    frame: &[u8],
) -> Result<(), AllocError> {
    list.add(Direction::Request, frame)?;
    add_fields(list, Direction::Request, frame)?;
    add_lengths(list, Direction::Request, frame)?;
    add_starts(list, Direction::Request, frame, &[0, 4, 7, 8, 39, HEADER])?;
    let header = joined(list.alloc(), first(frame, HEADER), &[], &[])?;
    list.add(Direction::Request, header.as_slice())
}

/// Adds the frame of a request with a name between what stands before it and behind.
fn add_name<A: Allocator + Copy>(
    list: &mut VectorList<A>,
    before: &[u8],
    name: &[u8],
    behind: &[u8],
) -> Result<(), AllocError> {
    let frame = joined(list.alloc(), before, name, behind)?;
    list.add(Direction::Request, frame.as_slice())
}

/// Adds the frames of a request with each kind of name, good and bad, between what stands before it and behind.
fn add_names<A: Allocator + Copy>(
    list: &mut VectorList<A>,
    before: &[u8],
    behind: &[u8],
) -> Result<(), AllocError> {
    for name in NAMES {
        add_name(list, before, name, behind)?;
    }
    for len in [1usize, 254, 255, 256] {
        let mut name = vec![in list.alloc(); b'n'; len]?;
        name.push(0)?;
        add_name(list, before, name.as_slice(), behind)?;
    }
    Ok(())
}

/// Adds the vectors of the requests whose frames end with a name.
fn add_named<A: Allocator + Copy>(list: &mut VectorList<A>) -> Result<(), AllocError> {
    for body in named_samples() {
        let frame = written(list.alloc(), NODE, &body)?;
        add_request(list, frame.as_slice())?;
        let place = frame.len().saturating_sub(NAME.len() + 1);
        let (before, name) = frame.as_slice().split_at(place);
        add_names(list, before, &[])?;
        if let RequestBody::Rename { .. } = body {
            let fixed = first(before, HEADER + 8);
            add_names(list, fixed, name)?;
        }
    }
    Ok(())
}

/// Adds the vectors of the other requests.
fn add_others<A: Allocator + Copy>(list: &mut VectorList<A>) -> Result<(), AllocError> {
    for body in node_samples() {
        let frame = written(list.alloc(), NODE, &body)?;
        add_request(list, frame.as_slice())?;
    }
    let Some(pairs) = Pairs::over(&PAIRS) else {
        return Ok(());
    };
    for body in session_samples(pairs) {
        let frame = written(list.alloc(), 0, &body)?;
        add_request(list, frame.as_slice())?;
    }
    Ok(())
}

/// Adds the frame of a BATCH_FORGET with this many pairs, under a count.
fn add_batch<A: Allocator + Copy>(
    list: &mut VectorList<A>,
    header: &[u8],
    pairs: u32,
    count: u32,
) -> Result<(), AllocError> {
    let mut frame = joined(list.alloc(), header, &count.to_le_bytes(), &[0; 4])?;
    for _ in 0..pairs {
        frame.extend_from_slice(&PAIRS[..16])?;
    }
    put_len(frame.as_mut_slice());
    list.add(Direction::Request, frame.as_slice())
}

/// Adds frames of a BATCH_FORGET up to the longest and with one pair more, and with counts of other pairs than follow.
/// 2^28 pairs more are as many bytes, where the bytes are counted in 32 bits.
fn add_counts<A: Allocator + Copy>(
    list: &mut VectorList<A>,
    header: &[u8],
) -> Result<(), AllocError> {
    for pairs in [0, 1, 64, 258, 259] {
        add_batch(list, header, pairs, pairs)?;
    }
    for (pairs, count) in [
        (0, 1),
        (1, 0),
        (1, 2),
        (2, 1),
        (1, 0x1000_0001),
        (0, 0xffff_ffff),
    ] {
        add_batch(list, header, pairs, count)?;
    }
    Ok(())
}

/// Adds frames of a WRITE up to the longest and with one byte more, and with sizes of other data than follows.
fn add_sizes<A: Allocator + Copy>(
    list: &mut VectorList<A>,
    start: &[u8],
) -> Result<(), AllocError> {
    let data = vec![in list.alloc(); 0x5a; 4097]?;
    for (bytes, size) in [
        (0, 0u32),
        (1, 1),
        (4096, 4096),
        (4097, 4097),
        (0, 1),
        (1, 0),
        (1, 2),
        (1, u32::MAX),
    ] {
        let mut frame = joined(list.alloc(), start, first(data.as_slice(), bytes), &[])?;
        put(frame.as_mut_slice(), 56, &size.to_le_bytes());
        list.add(Direction::Request, frame.as_slice())?;
    }
    Ok(())
}

/// Adds frames with the opcodes that are not served.
fn add_unknown<A: Allocator + Copy>(
    list: &mut VectorList<A>,
    frame: &[u8],
) -> Result<(), AllocError> {
    for opcode in UNKNOWN_OPCODES {
        add_with(list, Direction::Request, frame, 4, &opcode.to_le_bytes())?;
    }
    Ok(())
}

/// Adds the vectors of requests at the limits of counts and sizes, and with unknown opcodes.
fn add_limits<A: Allocator + Copy>(list: &mut VectorList<A>) -> Result<(), AllocError> {
    let Some(pairs) = Pairs::over(&[]) else {
        return Ok(());
    };
    let batch = written(list.alloc(), 0, &RequestBody::BatchForget { pairs })?;
    add_counts(list, first(batch.as_slice(), HEADER))?;
    let body = RequestBody::Write {
        fh: 3,
        offset: 0,
        bytes: b"",
    };
    let write = written(list.alloc(), NODE, &body)?;
    add_sizes(list, write.as_slice())?;
    add_unknown(list, write.as_slice())
}

/// Adds the vectors of requests.
pub(crate) fn add_requests<A: Allocator + Copy>(
    list: &mut VectorList<A>,
) -> Result<(), AllocError> {
    add_named(list)?;
    add_others(list)?;
    add_limits(list)
}
