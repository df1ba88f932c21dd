//! Requests in a plain list, in which a number is searched from the front.
ghost use Rattle.std.specs.Prelude.{◌≡◌, ℕ, ◌+◌, ◌-◌, ◌<◌, ◌≤◌, List, Option, OnOk, option_map, slice_get, nat_eq, filter, length, position, vec_len, vec_capacity};
ghost use Rattle.fuse_spec.specs.Kernel.Queues.{is_unread};
ghost use Rattle.fuse_spec.specs.Kernel.QueueCalls.{set_mark};

use crate::marks::is_unread;
use crate::request_store::RequestStore;
use fuse_spec::{Mark, QueuedRequest};
use std::alloc::{AllocError, Allocator, Global};

/// Requests in a list, each under its number.
#[derive(Drop)]
pub struct ListRequests<W, A: Allocator = Global> {
    requests: Vec<(u64, QueuedRequest<W>), A>,
}

impl<W: Drop, A: Allocator + Copy> RequestStore<W> for ListRequests<W, A> {
    type Heap = A;

    ghost entries = { λ s. s.requests.items };

    ghost room = { λ s. vec_capacity s.requests - vec_len s.requests };

    fn new(alloc: A) -> Self {
        ListRequests {
            requests: Vec::new(alloc),
        }
    }

    fn len(&self) -> usize {
        self.requests.len()
    }

    fn reserve(&mut self, more: usize) -> Result<(), AllocError> {
        self.requests.reserve(more)
    }

    fn pending(&self, place: usize) -> Option<(u64, &QueuedRequest<W>)> {
        let mut left = place;
        for (unique, request) in &self.requests {
            if is_unread(request.mark) {
                if left == 0 {
                    return Some((*unique, request));
                }
                left -= 1;
            }
        }
        None
    }

    fn request(&self, unique: u64) -> Option<&QueuedRequest<W>> {
        let place = place_of(&self.requests, unique)?;
        Some(&self.requests[place].1)
    }

    fn push(&mut self, unique: u64, kept: W) {
        let request = QueuedRequest {
            mark: Mark::Unread,
            kept,
        };
        self.requests.push_reserved((unique, request));
    }

    fn put_mark(&mut self, unique: u64, mark: Mark) {
        if let Some(place) = place_of(&self.requests, unique) {
            self.requests[place].1.mark = mark;
        }
    }

    fn take(&mut self, unique: u64) -> Option<QueuedRequest<W>> {
        let place = place_of(&self.requests, unique)?;
        let (_unique, request) = self.requests.remove(place);
        Some(request)
    }

    fn clear(&mut self) {
        self.requests.clear();
    }

    fn end(self) {}
}

/// Where the request under a number stands.
fn place_of<W>(requests: &[(u64, QueuedRequest<W>)], unique: u64) -> Option<usize>
    ensures { result ≡ position (λ e. nat_eq unique e.0) requests.now }
{
    requests.iter().position(|entry| unique == entry.0)
}
