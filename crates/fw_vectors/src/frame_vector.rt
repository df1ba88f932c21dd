//! The vectors that were made so far.

use fk_wire::{Minor, Opcode};
use std::alloc::{AllocError, Allocator};

/// What a frame is read as.
#[derive(Clone, Copy, PartialEq, Eq)]
pub(crate) enum Direction {
    Request,
    /// A reply to a request of this opcode.
    Reply { opcode: Opcode },
}

/// A frame that is read at a minor version.
#[derive(Drop)]
pub(crate) struct FrameVector<A: Allocator> {
    pub(crate) direction: Direction,
    pub(crate) minor: Minor,
    pub(crate) frame: Vec<u8, A>,
}

/// The vectors, in the order in which they are printed.
#[derive(Drop)]
pub(crate) struct VectorList<A: Allocator + Copy> {
    alloc: A,
    vectors: Vec<FrameVector<A>, A>,
}

impl<A: Allocator + Copy> VectorList<A> {
    /// No vector yet.
    pub(crate) fn new(alloc: A) -> VectorList<A> {
        let vectors = Vec::new(alloc);
        VectorList { alloc, vectors }
    }

    /// What memory is taken from.
    pub(crate) fn alloc(&self) -> A {
        self.alloc
    }

    /// All of them.
    pub(crate) fn as_slice(&self) -> &[FrameVector<A>] {
        self.vectors.as_slice()
    }

    /// Whether there is such a vector.
    fn contains(&self, minor: Minor, direction: Direction, frame: &[u8]) -> bool {
        for vector in &self.vectors {
            if vector.minor == minor
                && vector.direction == direction
                && vector.frame.as_slice() == frame
            {
                return true;
            }
        }
        false
    }

    /// Adds a frame, read at a minor version, if it is not there.
    pub(crate) fn add_at(
        &mut self,
        minor: Minor,
        direction: Direction,
        frame: &[u8],
    ) -> Result<(), AllocError> {
        if self.contains(minor, direction, frame) {
            return Ok(());
        }
        let frame = frame.to_vec(self.alloc)?;
        self.vectors.push(FrameVector {
            direction,
            minor,
            frame,
        })?;
        Ok(())
    }

    /// Adds a frame, read at 7.31.
    pub(crate) fn add_served(
        &mut self,
        direction: Direction,
        frame: &[u8],
    ) -> Result<(), AllocError> {
        self.add_at(Minor::M31, direction, frame)
    }

    /// Adds a frame, read at each minor version.
    pub(crate) fn add(&mut self, direction: Direction, frame: &[u8]) -> Result<(), AllocError> {
        self.add_at(Minor::M31, direction, frame)?;
        self.add_at(Minor::M15, direction, frame)
    }
}
