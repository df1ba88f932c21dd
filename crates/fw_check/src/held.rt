//! Counts by key, of those keys that have any.

ghost use Rattle.std.specs.Prelude.{◌≡◌, ◌+◌, ◌-◌, ℕ, Bool, List, OnOk, is_some, unwrap_or};
ghost use Rattle.std.specs.Map.{lookup};
ghost use Rattle.std.specs.Set.{distinct_count, is_member};
ghost use Rattle.fw_check.specs.Held.{Holds, IsLess, IsMore, IsStep};

use std::alloc::{AllocError, Allocator};
use std::collections::BTreeMap;

/// A row for each key that has any, with its count.
pub(crate) type Held<K, A> = BTreeMap<K, u64, A>;

/// What an act does to the counts.
#[derive(Clone, Copy)]
pub(crate) enum Step<K> {
    Nothing,
    /// A key has one more.
    More(K),
    /// A key has so many fewer, or none where it has no more than that.
    Less(K, u64),
}

/// How many a key has.
pub(crate) fn count_of<K: Copy + Ord + Drop, A: Allocator>(held: &Held<K, A>, key: K) -> u64
    ensures { result ≡ unwrap_or (lookup (K.eq key) held.now.entries) 0 }
{
    held.get(&key).copied().unwrap_or(0)
}

/// A key has one more.
///
/// # Errors
///
/// Out of memory, or the count is full. Nothing changed.
fn raise<K: Copy + Ord + Drop, A: Allocator + Copy>(
    held: &mut Held<K, A>,
    key: K,
) -> Result<(), AllocError>
    ensures { OnOk result ((count later : K → ℕ) → Holds K.eq held.old.entries count → IsMore K.eq key count later
        → Holds K.eq held.new.entries later) }
{
    if let Some(count) = held.get_mut(&key) {
        let Some(more) = count.checked_add(1) else {
            return Err(AllocError);
        };
        *count = more;
        return Ok(());
    }
    match held.insert(key, 1) {
        Ok(_) => Ok(()),
        Err(_) => Err(AllocError),
    }
}

/// A key has so many fewer, or none where it has no more than that.
fn lower<K: Copy + Ord + Drop, A: Allocator>(held: &mut Held<K, A>, key: K, less: u64)
    ensures { (count later : K → ℕ) → Holds K.eq held.old.entries count → IsLess K.eq key less count later
        → Holds K.eq held.new.entries later }
{
    if count_of(held, key) > less {
        if let Some(count) = held.get_mut(&key) {
            *count -= less;
        }
        return;
    }
    let _last = held.remove(&key);
}

/// Writes down what an act does to the counts.
///
/// # Errors
///
/// Out of memory, or a count is full.
pub(crate) fn note_step<K: Copy + Ord + Drop, A: Allocator + Copy>(
    held: &mut Held<K, A>,
    step: Step<K>,
) -> Result<(), AllocError>
    ensures { OnOk result ((count later : K → ℕ) → Holds K.eq held.old.entries count → IsStep K.eq step count later
        → Holds K.eq held.new.entries later) }
{
    match step {
        Step::Nothing => Ok(()),
        Step::More(key) => raise(held, key),
        Step::Less(key, less) => {
            lower(held, key, less);
            Ok(())
        }
    }
}

/// How many keys have any.
pub(crate) fn held_keys<K: Copy + Ord + Drop, A: Allocator>(held: &Held<K, A>) -> u64
    ensures { (keys : List K) → ((q : K) → is_some (lookup (K.eq q) held.now.entries) ≡ is_member K.eq keys q)
        → result ≡ distinct_count K.eq keys }
{
    held.len() as u64
}
