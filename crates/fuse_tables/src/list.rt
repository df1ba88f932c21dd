//! What stands at a place of a list.

ghost use Rattle.std.specs.Prelude.{◌≡◌, ◌+◌, ◌<◌, slice_index_or};
ghost use Rattle.std.specs.List.{remove as removed};
ghost use Rattle.std.specs.Vec.{vec_len, vec_capacity};

use std::alloc::Allocator;

/// Takes out what stands at a place. Those after it move up by one place each: the last one moves no other.
#[inline(always)]
pub(crate) fn take_at<T: Drop, A: Allocator>(list: &mut Vec<T, A>, place: usize) -> T
    requires { place < vec_len list.old }
    ensures value { result ≡ slice_index_or list.old.items place result }
    ensures items { list.new.items ≡ removed list.old.items place }
    ensures len { vec_len list.new + 1 ≡ vec_len list.old }
    ensures capacity { vec_capacity list.new ≡ vec_capacity list.old }
{
    if place == list.len() - 1 {
        return list.pop().unwrap();
    }
    list.remove(place)
}
