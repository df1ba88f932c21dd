//! The forgets that are queued, and those of one frame.
ghost use Rattle.std.specs.Prelude.{◌≡◌, ◌+◌, ◌-◌, ◌<◌, ◌≤◌, ℕ, [], ◌∷◌, ◌++◌, length, take, drop, OnOk, IsOk};
ghost use Rattle.std.specs.VecDeque.{deque_len, deque_capacity};
ghost use Rattle.fuse_spec.specs.Values.Numbers.{max_forgets};

use std::alloc::{AllocError, Allocator};
use std::collections::VecDeque;
use std::marker::Model;

/// The forgets of one frame, at most 64 (this project's rule): nodes, and how many lookups to forget of each (uapi
/// `fuse_forget_one`). Contracts see the list of them.
#[derive(Drop)]
pub struct Forgets {
    pairs: [(u64, u64); 64],
    count: usize,
}

impl Model for Forgets {
    ghost use Rattle.std.specs.Prelude.{ℕ, List, take, ◌≤◌};
    ghost use Rattle.fuse_spec.specs.Values.Numbers.{max_forgets};

    ghost Value = { List (ℕ × ℕ) };

    ghost view = { λ f. take f.count f.pairs };

    ghost invariant = { λ f. f.count ≤ max_forgets };
}

impl Forgets {
    /// The forgets, the oldest first.
    pub fn as_slice(&self) -> &[(u64, u64)]
        ensures { result.now ≡ self.now }
    {
        &self.pairs[..self.count]
    }
}

/// The forgets that are queued, the oldest first.
#[derive(Drop)]
pub(crate) struct ForgetList<A: Allocator> {
    pub(crate) items: VecDeque<(u64, u64), A>,
}

impl<A: Allocator + Copy> ForgetList<A> {
    pub(crate) fn new(alloc: A) -> Self
        ensures { result.items.items ≡ [] }
    {
        ForgetList {
            items: VecDeque::new(alloc),
        }
    }

    pub(crate) fn reserve(&mut self, more: usize) -> Result<(), AllocError>
        ensures items { self.new.items.items ≡ self.old.items.items }
        ensures len { deque_len self.new.items ≡ deque_len self.old.items }
        ensures ok { OnOk result (deque_len self.new.items + more ≤ deque_capacity self.new.items) }
        ensures capacity { deque_capacity self.old.items ≤ deque_capacity self.new.items }
        ensures succeeds { deque_len self.old.items + more ≤ deque_capacity self.old.items → IsOk result }
    {
        self.items.reserve(more)
    }

    /// Puts a forget last. There is room.
    pub(crate) fn push(&mut self, node: u64, count: u64)
        requires { deque_len self.old.items < deque_capacity self.old.items }
        ensures items { self.new.items.items ≡ self.old.items.items ++ (node, count) ∷ [] }
        ensures len { deque_len self.new.items ≡ deque_len self.old.items + 1 }
        ensures capacity { deque_capacity self.new.items ≡ deque_capacity self.old.items }
    {
        self.items.push_back((node, count)).unwrap();
    }

    /// The first forgets. There are as many, and a frame has room for them.
    pub(crate) fn first(&self, count: usize) -> Forgets
        requires there { count ≤ length self.now.items.items }
        requires few { count ≤ max_forgets }
        ensures { result ≡ take count self.now.items.items }
    {
        let mut pairs = [(0, 0); 64];
        for place in 0..count {
            pairs[place] = self.items[place];
        }
        Forgets { pairs, count }
    }

    /// Takes the first forgets out.
    pub(crate) fn drop_first(&mut self, count: usize)
        ensures items { self.new.items.items ≡ drop count self.old.items.items }
        ensures room { deque_capacity self.old.items - deque_len self.old.items
            ≤ deque_capacity self.new.items - deque_len self.new.items }
    {
        for _ in 0..count {
            let _gone = self.items.pop_front();
        }
    }
}
