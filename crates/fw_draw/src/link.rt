//! What a link carried.

use crate::lanes::Lanes;
use std::alloc::{AllocError, Allocator};

/// How a message's way through a link ends, and at which height.
#[derive(Clone, Copy)]
pub(crate) enum Ending {
    /// It is in the link at the end of the run.
    OnItsWay,
    Taken { y: u64 },
    /// The link was emptied.
    Lost { y: u64 },
}

/// The way of a message through a link.
#[derive(Clone, Copy)]
pub(crate) struct Arrow {
    pub(crate) lane: usize,
    /// The height at which it was put into the link.
    pub(crate) start: u64,
    pub(crate) ending: Ending,
    /// Whether it is a copy of a reply that was refused, or the result of such a copy.
    pub(crate) is_refused: bool,
}

/// A link: the ways of all messages through it.
#[derive(Drop)]
pub(crate) struct Link<A: Allocator> {
    arrows: Vec<Arrow, A>,
    /// Which arrows are those of the messages in the link, in the order of their arrival.
    carried: Vec<usize, A>,
    lanes: Lanes<A>,
}

impl<A: Allocator + Copy> Link<A> {
    /// An empty link.
    pub(crate) fn new(alloc: A) -> Link<A> {
        Link {
            arrows: Vec::new(alloc),
            carried: Vec::new(alloc),
            lanes: Lanes::new(alloc),
        }
    }

    /// A message is put into the link.
    pub(crate) fn put(&mut self, start: u64, is_refused: bool) -> Result<(), AllocError> {
        let lane = self.lanes.take()?;
        self.carried.push(self.arrows.len())?;
        self.arrows.push(Arrow {
            lane,
            start,
            ending: Ending::OnItsWay,
            is_refused,
        })?;
        Ok(())
    }

    /// An arrow ends.
    fn end(&mut self, place: usize, ending: Ending) {
        if let Some(arrow) = self.arrows.get_mut(place) {
            arrow.ending = ending;
            self.lanes.free(arrow.lane);
        }
    }

    /// An arrow is that of a copy that was refused.
    fn refuse(&mut self, place: usize) {
        if let Some(arrow) = self.arrows.get_mut(place) {
            arrow.is_refused = true;
        }
    }

    /// The message at a place of the link is taken, and refused or not.
    pub(crate) fn take(&mut self, place: u64, y: u64, is_refused: bool) {
        let place = place as usize;
        if place >= self.carried.len() {
            return;
        }
        let arrow = self.carried.remove(place);
        self.end(arrow, Ending::Taken { y });
        if is_refused {
            self.refuse(arrow);
        }
    }

    /// The link is emptied.
    pub(crate) fn lose_all(&mut self, y: u64) {
        for place in &self.carried {
            if let Some(arrow) = self.arrows.get_mut(*place) {
                arrow.ending = Ending::Lost { y };
            }
        }
        self.carried.clear();
        self.lanes.free_all();
    }

    /// The ways of all messages.
    pub(crate) fn arrows(&self) -> &[Arrow] {
        self.arrows.as_slice()
    }

    /// How many messages were in the link at once.
    pub(crate) fn width(&self) -> usize {
        self.lanes.count()
    }
}
