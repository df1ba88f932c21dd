//! What stands at a place of a queue.

ghost use Rattle.std.specs.Prelude.{◌≡◌, ◌+◌, ◌-◌, ◌<◌, length, option_copied, slice_get, slice_index_or};
ghost use Rattle.std.specs.List.{remove as removed};
ghost use Rattle.std.specs.VecDeque.{deque_len, deque_capacity};

use std::alloc::Allocator;
use std::collections::VecDeque;

/// Takes out what stands at a place. Those on its shorter side move by one place each: the first and the last move no
/// other.
#[inline(always)]
pub fn take_at<T: Drop, A: Allocator>(queue: &mut VecDeque<T, A>, place: usize) -> T
    requires { place < deque_len queue.old }
    ensures value { result ≡ slice_index_or queue.old.items place result }
    ensures items { queue.new.items ≡ removed queue.old.items place }
    ensures len { deque_len queue.new + 1 ≡ deque_len queue.old }
    ensures capacity { deque_capacity queue.new ≡ deque_capacity queue.old }
{
    if place == 0 {
        return queue.pop_front().unwrap();
    }
    if place == queue.len() - 1 {
        return queue.pop_back().unwrap();
    }
    queue.remove(place).unwrap()
}

/// What stands last in a queue.
#[inline(always)]
pub fn last<T, A: Allocator>(queue: &VecDeque<T, A>) -> Option<&T>
    ensures { option_copied result ≡ slice_get queue.now.items (length queue.now.items - 1) }
{
    queue.back()
}
