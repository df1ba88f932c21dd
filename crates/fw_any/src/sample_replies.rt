//! The shortest and the longest reply of each row of the table.

ghost use Rattle.std.specs.Prelude.{◌≤◌};

use crate::sample_list::{SampleDirection, SampleList, put, put_zeros};
use crate::sample_requests::UNIQUE;
use fuse_protocol::{Opcode, ReplyShape, row_of};
use std::alloc::{AllocError, Allocator};

/// How many bytes a reply's header has.
const HEADER: usize = 16;

/// How many bytes are asked for, where a request asks for bytes: ten records, or two with their entries.
const ASKED: u32 = 320;

/// How many bytes a record with a name of one byte has.
const RECORD: usize = 32;

/// How many bytes an entry has.
const ENTRY: usize = 128;

/// How many bytes the body of a shape has at least and at most, where bytes were asked for.
fn sizes(shape: ReplyShape) -> (usize, usize) {
    match shape {
        ReplyShape::None | ReplyShape::Empty => (0, 0),
        ReplyShape::Entry => (128, 128),
        ReplyShape::Attributes => (104, 104),
        ReplyShape::Open => (16, 16),
        ReplyShape::EntryAndOpen => (144, 144),
        ReplyShape::Number(_) => (8, 8),
        ReplyShape::Fixed(size) => (size, size),
        ReplyShape::AtMost(_)
        | ReplyShape::Records(_)
        | ReplyShape::EntryRecords(_)
        | ReplyShape::Sized(_) => (0, ASKED as usize),
        ReplyShape::Target => (1, 4095),
        ReplyShape::Ioctl => (16, 16 + ASKED as usize),
        ReplyShape::Init => (8, 64),
    }
}

/// How many bytes a request asks for.
fn asked(shape: ReplyShape) -> u32 {
    match shape {
        ReplyShape::AtMost(_)
        | ReplyShape::Records(_)
        | ReplyShape::EntryRecords(_)
        | ReplyShape::Sized(_) => ASKED,
        _ => 0,
    }
}

/// Puts records of a name of one byte, each behind so many bytes of an entry, until the body has so many bytes.
fn put_records<A: Allocator>(
    frame: &mut Vec<u8, A>,
    entry: usize,
    size: usize,
) -> Result<(), AllocError>
    requires { entry ≤ 128 }
{
    for place in 0..size {
        match place % (entry + RECORD) {
            within if within == entry + 16 => frame.push(1)?,
            within if within == entry + 24 => frame.push(b'a')?,
            _ => frame.push(0)?,
        }
    }
    Ok(())
}

/// A reply of a shape, whose body has so many bytes.
fn reply_frame<A: Allocator>(
    alloc: A,
    shape: ReplyShape,
    size: usize,
) -> Result<Vec<u8, A>, AllocError> {
    let mut frame = Vec::new(alloc);
    put_zeros(&mut frame, HEADER)?;
    match shape {
        ReplyShape::Records(_) => put_records(&mut frame, 0, size)?,
        ReplyShape::EntryRecords(_) => put_records(&mut frame, ENTRY, size)?,
        _ => put_zeros(&mut frame, size)?,
    }
    put(frame.as_mut_slice(), 8, &UNIQUE.to_le_bytes());
    Ok(frame)
}

/// Adds the shortest and the longest reply to an opcode, each also with a byte less and one more. Also INIT's of 7.5 to
/// 7.22, and where the request may ask for a size alone, that.
pub(crate) fn add_replies<A: Allocator + Copy>(
    list: &mut SampleList<A>,
    opcode: Opcode,
) -> Result<(), AllocError> {
    let alloc = list.alloc();
    let shape = row_of(opcode).reply;
    let (shortest, longest) = sizes(shape);
    let reply = SampleDirection::Reply {
        asked: asked(shape),
    };
    list.add_lengths(opcode, reply, reply_frame(alloc, shape, shortest)?)?;
    list.add_lengths(opcode, reply, reply_frame(alloc, shape, longest)?)?;
    if matches!(shape, ReplyShape::Init) {
        list.add_lengths(opcode, reply, reply_frame(alloc, shape, 24)?)?;
    }
    if matches!(shape, ReplyShape::Sized(_)) {
        let size = SampleDirection::Reply { asked: 0 };
        list.add_lengths(opcode, size, reply_frame(alloc, shape, 8)?)?;
    }
    Ok(())
}
