//! The requests that wait.

ghost use Rattle.std.specs.Prelude.{◌≡◌, ◌∷◌, ◌++◌, [], OnOk};
ghost use Rattle.std.specs.Option.{option_map};
ghost use Rattle.name_sessions.specs.NameActs.{Asks, Ends};
ghost use Rattle.name_sessions.specs.NameSessions.{NameSession, waits};
ghost use Rattle.name_judge.specs.Kept.{asked_of};
ghost use Rattle.name_judge.specs.Waits.{AreWaiting};

use crate::kept::Waiting;
use fuse_tables::RisingTable;
use std::alloc::{AllocError, Allocator};

/// What waits under a number ends. Returns what that was.
pub(crate) fn end<A: Allocator + Copy>(
    rows: &mut RisingTable<Waiting<A>, A>,
    unique: u64,
) -> Option<Waiting<A>>
    ensures was { (s : NameSession) → AreWaiting s rows.old.entries → option_map asked_of result ≡ waits s unique }
    ensures kept { (s : NameSession) → AreWaiting s rows.old.entries
        → AreWaiting (s ++ Ends unique ∷ []) rows.new.entries }
{
    // Most numbers are new and above all, and are not searched for.
    if rows.is_above(unique) {
        return None;
    }
    rows.remove(unique)
}

/// A request waits under a number, in place of any other.
///
/// # Errors
///
/// Out of memory.
pub(crate) fn ask<A: Allocator + Copy>(
    rows: &mut RisingTable<Waiting<A>, A>,
    unique: u64,
    waiting: Waiting<A>,
) -> Result<(), AllocError>
    ensures { OnOk result ((s : NameSession) → AreWaiting s rows.old.entries
        → AreWaiting (s ++ Asks unique (asked_of waiting) ∷ []) rows.new.entries) }
{
    rows.reserve(1)?;
    let _before = rows.remove(unique);
    rows.put(unique, waiting);
    Ok(())
}
