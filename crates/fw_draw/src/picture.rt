//! What a picture shows.

use crate::calls::Calls;
use crate::label::{Column, Labels};
use crate::link::Link;
use std::alloc::{AllocError, Allocator};

/// How high a row is.
const ROW: u64 = 20;

/// How much higher it is for each text under its first.
const LINE: u64 = 15;

/// The height of the first row.
const FIRST: u64 = 50;

/// What a picture shows. Heights are in pixels, downwards from the top.
#[derive(Drop)]
pub(crate) struct Picture<A: Allocator> {
    pub(crate) labels: Labels<A>,
    pub(crate) calls: Calls<A>,
    pub(crate) requests: Link<A>,
    pub(crate) replies: Link<A>,
    pub(crate) results: Link<A>,
    /// The height of the row that is drawn next.
    pub(crate) y: u64,
}

impl<A: Allocator + Copy> Picture<A> {
    /// A picture of no events.
    pub(crate) fn new(alloc: A) -> Picture<A> {
        Picture {
            labels: Labels::new(alloc),
            calls: Calls::new(alloc),
            requests: Link::new(alloc),
            replies: Link::new(alloc),
            results: Link::new(alloc),
            y: FIRST,
        }
    }

    /// Draws a text in the row.
    pub(crate) fn add_text(&mut self, column: Column, text: &[u8]) -> Result<(), AllocError> {
        self.labels.add(column, self.y, text)
    }

    /// The row has one text more under the others.
    pub(crate) fn next_line(&mut self) {
        self.y = self.y.saturating_add(LINE);
    }

    /// The next row.
    pub(crate) fn next_row(&mut self) {
        self.y = self.y.saturating_add(ROW);
    }

    /// The links are emptied.
    pub(crate) fn lose_messages(&mut self) {
        let y = self.y;
        self.requests.lose_all(y);
        self.replies.lose_all(y);
        self.results.lose_all(y);
    }
}
