//! How many calls may be unanswered, and how many forgets go as one frame.

ghost use Rattle.std.specs.Prelude.{◌≡◌, ◌&&◌, length, nat_le, nat_lt, not};
ghost use Rattle.fuse_spec.specs.Kernel.Kernel.{forgets_singly};
ghost use Rattle.fuse_spec.specs.Values.Numbers.{max_calls};

use fk_syscalls::CallState;
use fuse_spec::Minor;
use fuse_spec::limits::MAX_CALLS;
use fuse_tables::Table;
use std::alloc::Allocator;

/// Whether no call more may begin.
pub fn is_full<A: Allocator + Copy>(calls: &Table<CallState<A>, A>) -> bool
    ensures { result ≡ nat_le max_calls (length calls.now.entries) }
{
    calls.len() >= MAX_CALLS
}

/// Whether this many forgets may be read at once: 7.15 has no BATCH_FORGET (linux/fuse.h, FUSE_BATCH_FORGET), so one.
pub fn may_batch_forgets(minor: Minor, count: u64) -> bool
    ensures { result ≡ not (forgets_singly minor && nat_lt 1 count) }
{
    match minor {
        Minor::M15 => count <= 1,
        Minor::M31 => true,
    }
}
