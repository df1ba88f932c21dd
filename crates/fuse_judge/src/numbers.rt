//! The numbers that were read: the table, and what is a fault by it.

ghost use Rattle.std.specs.Prelude.{◌≡◌, ◌+◌, ◌<◌, ◌≤◌, [], ◌∷◌, ◌++◌};
ghost use Rattle.fuse_sessions.specs.Sessions.{Session};
ghost use Rattle.fuse_sessions.specs.Faults.{BreaksNumber};
ghost use Rattle.fuse_judge.specs.Flags.{AreFlags};
ghost use Rattle.fuse_judge.specs.Numbers.{AreNumbers, IsMark};
ghost use Rattle.fuse_judge.specs.Verdicts.{IsFault};

use crate::flags::{Flags, is_out_of_order};
use crate::marks::{Mark, Marks, set_mark};
use crate::projections::is_forget;
use fuse_sessions::{Act, Fault};
use std::alloc::Allocator;

/// The fault of a kernel whose request has this number, which has this mark.
pub(crate) fn fault_of_number(mark: Mark, flags: Flags, unique: u64) -> Option<Fault>
    ensures { (s : Session) → IsMark s unique mark → AreFlags s flags → IsFault (BreaksNumber s unique) result }
{
    if unique % 2 == 1 {
        Some(Fault::OddNumber)
    } else if !matches!(mark, Mark::Unread) {
        Some(Fault::NumberUsedTwice)
    } else if !flags.has_several_readers && is_out_of_order(flags.highest, unique) {
        Some(Fault::NumberOutOfOrder)
    } else {
        None
    }
}

/// Marks the number that an act reads.
#[inline(always)]
pub(crate) fn note_number<A: Allocator + Copy>(numbers: &mut Marks<A>, act: Act)
    requires { 0 < numbers.old.room }
    ensures kept { (s : Session) → AreNumbers s numbers.old.entries → AreNumbers (s ++ act ∷ []) numbers.new.entries }
    ensures room { numbers.old.room ≤ numbers.new.room + 1 }
{
    match act {
        Act::Read { opcode, unique } => {
            let _before = set_mark(numbers, unique, is_forget(opcode));
        }
        Act::Resent { unique, .. } => {
            let _before = set_mark(numbers, unique, false);
        }
        _ => {}
    }
}
