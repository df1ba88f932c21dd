//! Keys in rows, with their counts.

ghost use Rattle.std.specs.Prelude.{◌≡◌, ◌+◌, ◌-◌, ◌<◌, ◌^◌, true, false};
ghost use Rattle.fuse_judge.specs.Tallies.{one_if, row_of};

use std::alloc::Allocator;
use std::collections::BTreeMap;

/// A row for each key, in an ordered map.
pub(crate) type Rows<K, A> = BTreeMap<K, u64, A>;

/// How many a key has.
pub(crate) fn row_of<K: Copy + Ord + Drop, A: Allocator>(rows: &Rows<K, A>, key: K) -> u64
    ensures { result ≡ row_of K.eq rows.now.entries key }
{
    rows.get(&key).copied().unwrap_or(0)
}

/// A key has one more, unless it has no row and memory refuses one.
pub(crate) fn raise<K: Copy + Ord + Drop, A: Allocator + Copy>(
    rows: &mut Rows<K, A>,
    key: K,
) -> bool
    requires { row_of K.eq rows.old.entries key + 1 < 2 ^ 64 }
    ensures raised { result ≡ true → (q : K)
        → row_of K.eq rows.new.entries q ≡ row_of K.eq rows.old.entries q + one_if (K.eq key q) }
    ensures refused { result ≡ false → (q : K) → row_of K.eq rows.new.entries q ≡ row_of K.eq rows.old.entries q }
{
    if let Some(count) = rows.get_mut(&key) {
        *count += 1;
        return true;
    }
    match rows.insert(key, 1) {
        Ok(_) => true,
        Err(_) => false,
    }
}

/// A key has one fewer, if it has one.
pub(crate) fn lower<K: Copy + Ord + Drop, A: Allocator>(rows: &mut Rows<K, A>, key: K)
    ensures { (q : K) → row_of K.eq rows.new.entries q ≡ row_of K.eq rows.old.entries q - one_if (K.eq key q) }
{
    if row_of(rows, key) > 1 {
        if let Some(count) = rows.get_mut(&key) {
            *count -= 1;
        }
        return;
    }
    let _last = rows.remove(&key);
}
