//! Keys in a list, each as often as it is counted.

ghost use Rattle.std.specs.Prelude.{◌≡◌, ◌+◌, ◌≤◌, ℕ, count_by, vec_len, vec_capacity, true, false};
ghost use Rattle.std.specs.List.{position};
ghost use Rattle.fuse_judge.specs.Tallies.{one_if};

use std::alloc::Allocator;

/// How often a key stands in a list.
pub(crate) fn times<K: Copy + Eq>(listed: &[K], key: K) -> u64
    ensures { result ≡ count_by (K.eq key) listed.now }
{
    listed.iter().filter(|other| key == **other).count() as u64
}

/// Where a key stands first in a list.
fn place_of<K: Copy + Eq>(listed: &[K], key: K) -> Option<usize>
    ensures { result ≡ position (K.eq key) listed.now }
{
    listed.iter().position(|other| key == *other)
}

/// Takes a key out of a list once, if it stands there.
pub(crate) fn unlist<K: Copy + Eq + Drop, A: Allocator>(listed: &mut Vec<K, A>, key: K) -> bool
    ensures taken { result ≡ true → (q : K)
        → count_by (K.eq q) listed.new.items + one_if (K.eq key q) ≡ count_by (K.eq q) listed.old.items }
    ensures absent { result ≡ false → count_by (K.eq key) listed.old.items ≡ 0 }
    ensures kept { result ≡ false → listed.new.items ≡ listed.old.items }
    ensures len { vec_len listed.new ≤ vec_len listed.old }
    ensures capacity { vec_capacity listed.new ≡ vec_capacity listed.old }
{
    match place_of(listed, key) {
        Some(place) => {
            let _key = listed.swap_remove(place);
            true
        }
        None => false,
    }
}
