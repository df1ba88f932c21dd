//! Frames of every opcode, as vectors.

use crate::sample_replies::add_replies;
use crate::sample_requests::add_requests;
use fuse_protocol::{Opcode, opcode_of_code};
use std::alloc::{AllocError, Allocator};

/// What a frame is read as.
#[derive(Clone, Copy, PartialEq, Eq)]
pub(crate) enum SampleDirection {
    Request,
    /// A reply, where so many bytes were asked for.
    Reply { asked: u32 },
}

/// A frame that was made for an opcode.
#[derive(Drop)]
pub(crate) struct Sample<A: Allocator> {
    pub(crate) opcode: Opcode,
    pub(crate) direction: SampleDirection,
    pub(crate) frame: Vec<u8, A>,
}

/// The frames, in the order in which they are printed.
#[derive(Drop)]
pub(crate) struct SampleList<A: Allocator + Copy> {
    alloc: A,
    samples: Vec<Sample<A>, A>,
}

/// Puts bytes in the place of those of a frame, as far as it reaches.
pub(crate) fn put(frame: &mut [u8], place: usize, bytes: &[u8]) {
    for (old, new) in frame.iter_mut().skip(place).zip(bytes) {
        *old = *new;
    }
}

/// Puts so many zeros behind a frame.
pub(crate) fn put_zeros<A: Allocator>(
    frame: &mut Vec<u8, A>,
    count: usize,
) -> Result<(), AllocError> {
    for _ in 0..count {
        frame.push(0)?;
    }
    Ok(())
}

impl<A: Allocator + Copy> SampleList<A> {
    /// The frames of each opcode.
    pub(crate) fn of_every_opcode(alloc: A) -> Result<SampleList<A>, AllocError> {
        let samples = Vec::new(alloc);
        let mut list = SampleList { alloc, samples };
        for code in 0..64 {
            if let Some(opcode) = opcode_of_code(code) {
                add_requests(&mut list, opcode)?;
                add_replies(&mut list, opcode)?;
            }
        }
        Ok(list)
    }

    /// What memory is taken from.
    pub(crate) fn alloc(&self) -> A {
        self.alloc
    }

    /// All of them.
    pub(crate) fn as_slice(&self) -> &[Sample<A>] {
        self.samples.as_slice()
    }

    /// Whether there is such a frame.
    fn contains(&self, opcode: Opcode, direction: SampleDirection, frame: &[u8]) -> bool {
        for sample in &self.samples {
            if sample.opcode == opcode
                && sample.direction == direction
                && sample.frame.as_slice() == frame
            {
                return true;
            }
        }
        false
    }

    /// Adds a frame, with its length in its first field, if it is not there.
    pub(crate) fn add(
        &mut self,
        opcode: Opcode,
        direction: SampleDirection,
        mut frame: Vec<u8, A>,
    ) -> Result<(), AllocError> {
        let len = u32::try_from(frame.len()).unwrap_or(u32::MAX);
        put(frame.as_mut_slice(), 0, &len.to_le_bytes());
        if self.contains(opcode, direction, frame.as_slice()) {
            return Ok(());
        }
        self.samples.push(Sample {
            opcode,
            direction,
            frame,
        })?;
        Ok(())
    }

    /// Adds a frame, the same without its last byte, and the same with one more.
    pub(crate) fn add_lengths(
        &mut self,
        opcode: Opcode,
        direction: SampleDirection,
        frame: Vec<u8, A>,
    ) -> Result<(), AllocError> {
        let mut shorter = frame.as_slice().to_vec(self.alloc)?;
        let _last = shorter.pop();
        let mut longer = frame.as_slice().to_vec(self.alloc)?;
        longer.push(0)?;
        self.add(opcode, direction, frame)?;
        self.add(opcode, direction, shorter)?;
        self.add(opcode, direction, longer)
    }
}
