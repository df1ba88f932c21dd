//! A frame, changed in one place or in its length.

use crate::frame_vector::{Direction, VectorList};
use std::alloc::{AllocError, Allocator};

/// The first bytes, this many or as many as there are.
pub(crate) fn first(bytes: &[u8], len: usize) -> &[u8] {
    &bytes[..bytes.len().min(len)]
}

/// Puts bytes in the place of those of a frame, as far as it reaches.
pub(crate) fn put(frame: &mut [u8], place: usize, bytes: &[u8]) {
    for (old, new) in frame.iter_mut().skip(place).zip(bytes) {
        *old = *new;
    }
}

/// Puts the frame's length in its first field, as far as it reaches.
pub(crate) fn put_len(frame: &mut [u8]) {
    let len = u32::try_from(frame.len()).unwrap_or(u32::MAX);
    put(frame, 0, &len.to_le_bytes());
}

/// A frame of three parts, one after another, whose length is put in its first field.
pub(crate) fn joined<A: Allocator>(
    alloc: A,
    start: &[u8],
    middle: &[u8],
    end: &[u8],
) -> Result<Vec<u8, A>, AllocError> {
    let mut frame = Vec::new(alloc);
    frame.extend_from_slice(start)?;
    frame.extend_from_slice(middle)?;
    frame.extend_from_slice(end)?;
    put_len(frame.as_mut_slice());
    Ok(frame)
}

/// Adds a frame with bytes put in a place.
pub(crate) fn add_with<A: Allocator + Copy>(
    list: &mut VectorList<A>,
    direction: Direction,
    frame: &[u8],
    place: usize,
    bytes: &[u8],
) -> Result<(), AllocError> {
    let mut changed = frame.to_vec(list.alloc())?;
    put(changed.as_mut_slice(), place, bytes);
    list.add(direction, changed.as_slice())
}

/// Adds a frame with each four bytes behind its length in turn all ones: each field of four bytes, free or not, and
/// each half of one of eight, at another value.
pub(crate) fn add_fields<A: Allocator + Copy>(
    list: &mut VectorList<A>,
    direction: Direction,
    frame: &[u8],
) -> Result<(), AllocError> {
    for place in 4..frame.len() {
        if place % 4 == 0 {
            let mut changed = frame.to_vec(list.alloc())?;
            put(changed.as_mut_slice(), place, &[0xff; 4]);
            list.add_served(direction, changed.as_slice())?;
        }
    }
    Ok(())
}

/// Adds a frame one byte shorter and one byte longer, each with its own length in its first field and with the old one.
pub(crate) fn add_lengths<A: Allocator + Copy>(
    list: &mut VectorList<A>,
    direction: Direction,
    frame: &[u8],
) -> Result<(), AllocError> {
    let shorter = &frame[..frame.len().saturating_sub(1)];
    let short = joined(list.alloc(), shorter, &[], &[])?;
    let mut long = joined(list.alloc(), frame, &[0], &[])?;
    list.add(direction, short.as_slice())?;
    list.add(direction, long.as_slice())?;
    list.add(direction, shorter)?;
    put(long.as_mut_slice(), 0, frame);
    list.add(direction, long.as_slice())
}

/// Adds the first bytes of a frame, of each of these lengths.
pub(crate) fn add_starts<A: Allocator + Copy>(
    list: &mut VectorList<A>,
    direction: Direction,
    frame: &[u8],
    lengths: &[usize],
) -> Result<(), AllocError> {
    for len in lengths {
        if let Some(start) = frame.get(..*len) {
            list.add(direction, start)?;
        }
    }
    Ok(())
}
