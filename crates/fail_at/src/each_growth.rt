//! One growth after another is refused.

ghost use Rattle.std.specs.Prelude.{◌-◌};
ghost use Rattle.std.specs.Iterator.{at_most};

use crate::FailAt;
use std::alloc::Allocator;

/// Turns in which one growth is refused: in the first turn the first one, in the second the second one, and so on. The
/// last turn is the one in which every growth is met, or the last of this many.
pub struct EachGrowth<'a, B: Allocator> {
    heap: &'a FailAt<B>,
    turn: u64,
    most: u64,
}

impl<B: Allocator> FailAt<B> {
    /// At most this many turns. Where that many come, not every growth was refused.
    pub fn each_growth(&self, most: u64) -> EachGrowth<'_, B> {
        EachGrowth {
            heap: self,
            turn: 0,
            most,
        }
    }
}

impl<'a, B: Allocator> Drop for EachGrowth<'a, B> {
    fn drop(self) {
        let Self {
            heap: _,
            turn: _,
            most: _,
        } = self;
    }
}

impl<'a, B: Allocator> Iterator for EachGrowth<'a, B> {
    type Item = u64;

    ghost remaining = { λ turns. at_most (turns.most - turns.turn) };

    /// The number of the turn, from 1 on.
    fn next(&mut self) -> Option<u64> {
        let is_met = self.turn != 0 && self.heap.left() != 0;
        if is_met || self.turn >= self.most {
            self.heap.refuse(0);
            return None;
        }
        self.turn += 1;
        self.heap.refuse(self.turn);
        Some(self.turn)
    }
}
