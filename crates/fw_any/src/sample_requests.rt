//! The shortest and the longest request of each row of the table.

use crate::sample_list::{SampleDirection, SampleList, put, put_zeros};
use fuse_protocol::{Fixed, Names, Opcode, Tail, row_of};
use std::alloc::{AllocError, Allocator};

/// How many bytes a request's header has.
const HEADER: usize = 40;

/// The number of each request and reply.
pub(crate) const UNIQUE: u64 = 8;

/// The node of each request.
const NODE: u64 = 1;

/// How long the names are, and what stands behind them.
#[derive(Clone, Copy)]
struct Extent {
    /// How many bytes a file's name has.
    name: usize,
    /// How many bytes any other name has.
    free: usize,
    /// How many bytes of data there are.
    data: u32,
    /// How many pairs.
    pairs: u32,
    /// How many bytes later versions added to a struct.
    added: usize,
}

/// The least that a row has.
const SHORTEST: Extent = Extent {
    name: 1,
    free: 1,
    data: 0,
    pairs: 0,
    added: 0,
};

/// Names as long as they may be, and some data, pairs or what a later version added to INIT.
const LONGEST: Extent = Extent {
    name: 1024,
    free: 4095,
    data: 64,
    pairs: 3,
    added: 48,
};

/// Names without a byte.
const WITHOUT_NAME: Extent = Extent {
    name: 0,
    free: 0,
    data: 0,
    pairs: 0,
    added: 0,
};

/// Names of a byte more than they may have.
const BEYOND: Extent = Extent {
    name: 1025,
    free: 4096,
    data: 0,
    pairs: 0,
    added: 0,
};

/// How many bytes the struct of 7.45 has, where SETXATTR_EXT was not agreed.
fn size_of_struct(fixed: Fixed) -> usize {
    match fixed {
        Fixed::Size(size) | Fixed::Grown(_, _, size) | Fixed::Extended(size, _) => size,
    }
}

/// Puts a name of so many bytes behind a frame, and its NUL byte.
fn put_name<A: Allocator>(frame: &mut Vec<u8, A>, len: usize) -> Result<(), AllocError> {
    for _ in 0..len {
        frame.push(b'a')?;
    }
    frame.push(0)?;
    Ok(())
}

/// Puts a row's names behind a frame.
fn put_names<A: Allocator>(
    frame: &mut Vec<u8, A>,
    names: Names,
    extent: Extent,
) -> Result<(), AllocError> {
    match names {
        Names::None => Ok(()),
        Names::One | Names::Looked => put_name(frame, extent.name),
        Names::Two => {
            put_name(frame, extent.name)?;
            put_name(frame, extent.name)
        }
        Names::NameAndTarget => {
            put_name(frame, extent.name)?;
            put_name(frame, extent.free)
        }
        Names::Free => put_name(frame, extent.free),
    }
}

/// Puts what stands behind the names, and its count at its place.
fn put_tail<A: Allocator>(
    frame: &mut Vec<u8, A>,
    tail: Tail,
    extent: Extent,
) -> Result<(), AllocError> {
    match tail {
        Tail::None => Ok(()),
        Tail::Data(place) => {
            put(frame.as_mut_slice(), place, &extent.data.to_le_bytes());
            put_zeros(frame, extent.data as usize)
        }
        Tail::Pairs(place) => {
            put(frame.as_mut_slice(), place, &extent.pairs.to_le_bytes());
            for _ in 0..extent.pairs {
                put_zeros(frame, 16)?;
            }
            Ok(())
        }
        Tail::Any => put_zeros(frame, extent.added),
    }
}

/// The request of an opcode.
fn request_frame<A: Allocator>(
    alloc: A,
    opcode: Opcode,
    extent: Extent,
) -> Result<Vec<u8, A>, AllocError> {
    let row = row_of(opcode);
    let mut frame = Vec::new(alloc);
    put_zeros(&mut frame, HEADER)?;
    put_zeros(&mut frame, size_of_struct(row.fixed))?;
    put_names(&mut frame, row.names, extent)?;
    put_tail(&mut frame, row.tail, extent)?;
    let bytes = frame.as_mut_slice();
    put(bytes, 4, &row.code.to_le_bytes());
    put(bytes, 8, &UNIQUE.to_le_bytes());
    put(bytes, 16, &NODE.to_le_bytes());
    Ok(frame)
}

/// Adds the shortest and the longest request of an opcode, each also with a byte less and one more. Where it has names,
/// also one without a byte in them, and one with a byte too many.
pub(crate) fn add_requests<A: Allocator + Copy>(
    list: &mut SampleList<A>,
    opcode: Opcode,
) -> Result<(), AllocError> {
    let alloc = list.alloc();
    let request = SampleDirection::Request;
    list.add_lengths(opcode, request, request_frame(alloc, opcode, SHORTEST)?)?;
    list.add_lengths(opcode, request, request_frame(alloc, opcode, LONGEST)?)?;
    if !matches!(row_of(opcode).names, Names::None) {
        list.add(opcode, request, request_frame(alloc, opcode, WITHOUT_NAME)?)?;
        list.add(opcode, request, request_frame(alloc, opcode, BEYOND)?)?;
    }
    Ok(())
}
