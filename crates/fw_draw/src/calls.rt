//! System calls, from their beginning to their answer.

use crate::lanes::Lanes;
use std::alloc::{AllocError, Allocator};

/// A system call.
#[derive(Clone, Copy)]
pub(crate) struct CallSpan {
    pub(crate) lane: usize,
    /// The height at which it begins.
    pub(crate) start: u64,
    /// The height at which it is answered, if it is.
    pub(crate) answer: Option<u64>,
}

/// An unanswered call: its number, and which span is its.
#[derive(Clone, Copy)]
struct Unanswered {
    call: u64,
    span: usize,
}

/// The system calls of a run.
#[derive(Drop)]
pub(crate) struct Calls<A: Allocator> {
    spans: Vec<CallSpan, A>,
    unanswered: Vec<Unanswered, A>,
    lanes: Lanes<A>,
}

impl<A: Allocator + Copy> Calls<A> {
    /// No calls.
    pub(crate) fn new(alloc: A) -> Calls<A> {
        Calls {
            spans: Vec::new(alloc),
            unanswered: Vec::new(alloc),
            lanes: Lanes::new(alloc),
        }
    }

    /// A call begins.
    pub(crate) fn begin(&mut self, call: u64, start: u64) -> Result<(), AllocError> {
        let lane = self.lanes.take()?;
        let span = self.spans.len();
        self.unanswered.push(Unanswered { call, span })?;
        self.spans.push(CallSpan {
            lane,
            start,
            answer: None,
        })?;
        Ok(())
    }

    /// A span ends.
    fn end(&mut self, span: usize, y: u64) {
        if let Some(span) = self.spans.get_mut(span) {
            span.answer = Some(y);
            self.lanes.free(span.lane);
        }
    }

    /// A call is answered.
    pub(crate) fn answer(&mut self, call: u64, y: u64) {
        let Some(place) = self.unanswered.iter().position(|begun| begun.call == call) else {
            return;
        };
        let Unanswered { span, .. } = self.unanswered.remove(place);
        self.end(span, y);
    }

    /// All calls.
    pub(crate) fn spans(&self) -> &[CallSpan] {
        self.spans.as_slice()
    }

    /// How many calls were unanswered at once.
    pub(crate) fn width(&self) -> usize {
        self.lanes.count()
    }
}
