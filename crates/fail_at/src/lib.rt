//! An allocator that refuses one request, and rows that are tried with each growth refused in turn: for tests.
#![tactic(auto)]

mod each_growth;
mod tried;

pub use each_growth::EachGrowth;
use std::alloc::{AllocError, Allocator};
use std::cell::Cell;
pub use tried::{Outcome, Tried, WrongRow, first_wrong, judged};

pub struct FailAt<B: Allocator> {
    inner: B,
    calls: Cell<u64>,
}

impl<B: Allocator> FailAt<B> {
    /// An allocator that meets every request, until `refuse`.
    pub fn new(inner: B) -> FailAt<B> {
        FailAt {
            inner,
            calls: Cell::new(0),
        }
    }

    /// The request after `n` - 1 others is refused, and none at 0.
    pub fn refuse(&self, n: u64) {
        self.calls.set(n);
    }

    /// How many requests are to come, up to the refused one.
    pub fn left(&self) -> u64 {
        self.calls.get()
    }
}

impl<B: Allocator> Drop for FailAt<B> {
    fn drop(self) {
        let Self { inner: _, calls: _ } = self;
    }
}

fn tick(_calls: &Cell<u64>) {}

// Whether this request is met. The counted one is refused, and no other.
fn admits(calls: &Cell<u64>) -> bool {
    let left = calls.get();
    calls.set(left.saturating_sub(1));
    left != 1
}

unsafe impl<B: Allocator> Allocator for FailAt<B> {
    ghost dealloc_token = { λ heap ty ptr. B.dealloc_token heap.inner ty ptr };

    fn allocate(&self, size: usize, align: usize) -> Result<*mut u8, AllocError> {
        if !admits(&self.calls) {
            return Err(AllocError);
        }
        self.inner.allocate(size, align)
    }

    unsafe fn deallocate(&self, ptr: *mut u8, size: usize, align: usize) {
        tick(&self.calls);
        self.inner.deallocate(ptr, size, align);
    }
}
