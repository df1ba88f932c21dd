//! What a run records.

use crate::event::Outcome;
use fk_kernel::Answer;
use fuse_spec::Refusal;
use std::alloc::{Allocator, Global};

/// One record of a run: what an event came to, why it was refused, that a session's link was lost in it, or what it
/// answered a call.
#[derive(Drop)]
pub enum Record<A: Allocator = Global> {
    Outcome(Outcome),
    Refused(Refusal),
    LinkLost,
    Answered { call: u64, answer: Answer<A> },
}
