//! Lanes side by side.

use std::alloc::{AllocError, Allocator};

/// Lanes side by side, counted from 0: each has room for one thing at a time.
#[derive(Drop)]
pub(crate) struct Lanes<A: Allocator> {
    is_taken: Vec<bool, A>,
}

impl<A: Allocator> Lanes<A> {
    /// No lanes.
    pub(crate) fn new(alloc: A) -> Lanes<A> {
        Lanes {
            is_taken: Vec::new(alloc),
        }
    }

    /// Takes the first lane that is free, or a new one.
    pub(crate) fn take(&mut self) -> Result<usize, AllocError> {
        let lanes = self.is_taken.len();
        let Some(lane) = self.is_taken.iter().position(|taken| !*taken) else {
            self.is_taken.push(true)?;
            return Ok(lanes);
        };
        if let Some(taken) = self.is_taken.get_mut(lane) {
            *taken = true;
        }
        Ok(lane)
    }

    /// Frees a lane.
    pub(crate) fn free(&mut self, lane: usize) {
        if let Some(taken) = self.is_taken.get_mut(lane) {
            *taken = false;
        }
    }

    /// Frees each lane.
    pub(crate) fn free_all(&mut self) {
        for taken in &mut self.is_taken {
            *taken = false;
        }
    }

    /// How many lanes there are, free ones included.
    pub(crate) fn count(&self) -> usize {
        self.is_taken.len()
    }
}
