//! The parts of a file.

use crate::act::Act;
use std::alloc::Allocator;

/// A part of a file.
#[derive(Drop)]
pub(crate) enum Part<'a, A: Allocator> {
    /// A step whose requests are answered before what follows.
    Alone(Act<'a>),
    /// Calls whose requests are under way at once, and a step that comes among them.
    Group {
        calls: Vec<Act<'a>, A>,
        step: Option<Act<'a>>,
    },
}
