//! The requests that wait: the tables, and what is a fault by them.

ghost use Rattle.std.specs.Prelude.{◌≡◌, ℕ, ◌+◌, ◌*◌, ◌<◌, ◌≤◌, ◌^◌, Bool, false, ◌&&◌, List, [], ◌∷◌, ◌++◌, None, OnOk, Some, if◌then◌else◌, nat_eq, filter, not, is_some, length};
ghost use Rattle.fuse_spec.specs.Values.Maps.{get};
ghost use Rattle.fuse_sessions.specs.declared.act.Act.{Act};
ghost use Rattle.fuse_sessions.specs.declared.act.Act.TheVariants.{Asks, Replies};
ghost use Rattle.fuse_sessions.specs.declared.act.Asked.{Asked};
ghost use Rattle.fuse_sessions.specs.declared.act.OpenFile.{OpenFile};
ghost use Rattle.fuse_sessions.specs.Sessions.{Session};
ghost use Rattle.fuse_sessions.specs.Numbers.{has_several_threads};
ghost use Rattle.fuse_sessions.specs.Waiting as waiting_words;
ghost use Rattle.fuse_judge.specs.declared.pending.Waiting.{Waiting};
ghost use Rattle.fuse_sessions.specs.Faults.{BreaksInterrupt, BreaksResent, BreaksTaking, BreaksReply, BreaksReplyToInterrupt, WarnsOfError};
ghost use Rattle.fuse_judge.specs.Flags.{AreFlags};
ghost use Rattle.fuse_judge.specs.Handles.{handle, same_handle};
ghost use Rattle.fuse_judge.specs.Numbers.{AreNumbers};
ghost use Rattle.fuse_judge.specs.Pending.{AreListed, AreInterrupted, ArePending, AreWaiting, HasEffect, entry_of};
ghost use Rattle.fuse_judge.specs.Tallies as words;
ghost use Rattle.fuse_judge.specs.Tallies.{count_in};
ghost use Rattle.fuse_judge.specs.Verdicts.{IsFault};

use crate::change::{Change, change_of, reaches};
use crate::flags::{Flags, is_surely_over};
use crate::handle::Handle;
use crate::marks::{Mark, Marks, mark_of};
use crate::named::{add_names, add_uses, take_names, take_uses};
use crate::tally::Tally;
use fuse_sessions::{Act, Asked, Fault, Fit, Taken};
use fuse_tables::RisingTable;
use std::alloc::{AllocError, Allocator, Global};

/// How many INTERRUPTs of a request may be answered EAGAIN.
const MOST_AGAINS: u64 = 1000;

/// A request that waits.
#[derive(Clone, Copy, Drop)]
pub struct Waiting {
    pub asked: Asked,
    /// How many INTERRUPTs of it were read, and how many were answered EAGAIN.
    pub interrupts: u64,
    pub agains: u64,
}

/// The requests that wait.
#[derive(Drop)]
pub struct Pending<A: Allocator = Global> {
    pub rows: RisingTable<Waiting, A>,
    /// How many of them name a node.
    pub named: Tally<u64, A>,
    /// How many of them use an open file.
    pub used: Tally<Handle, A>,
}

/// Makes room for this many requests, each of which names two nodes and uses two open files.
///
/// # Errors
///
/// Out of memory.
pub(crate) fn reserve_pending<A: Allocator + Copy>(
    pending: &mut Pending<A>,
    more: usize,
) -> Result<(), AllocError>
    ensures kept { (s : Session)
        → ArePending s pending.old.rows.entries pending.old.named.counts pending.old.used.counts
        → ArePending s pending.new.rows.entries pending.new.named.counts pending.new.used.counts }
    ensures room { OnOk result (more ≤ pending.new.rows.room) }
    ensures named_room { OnOk result (2 * more ≤ pending.new.named.room) }
    ensures used_room { OnOk result (2 * more ≤ pending.new.used.room) }
{
    let twice = more.checked_mul(2).ok_or(AllocError)?;
    pending.rows.reserve(more)?;
    pending.named.reserve(twice)?;
    pending.used.reserve(twice)
}

/// The fault of a kernel that sends a request once more.
pub(crate) fn fault_of_resent<A: Allocator + Copy>(
    rows: &RisingTable<Waiting, A>,
    unique: u64,
    original: u64,
) -> Option<Fault>
    ensures { (s : Session) → AreWaiting s rows.now.entries → IsFault (BreaksResent s unique original) result }
{
    if rows.get(unique).is_some() || rows.get(original).is_some() {
        None
    } else {
        Some(Fault::ResendOfNothing)
    }
}

/// The fault of a kernel that interrupts a request.
pub(crate) fn fault_of_interrupt<A: Allocator + Copy>(
    rows: &RisingTable<Waiting, A>,
    several: bool,
    unique: u64,
    original: u64,
) -> Option<Fault>
    ensures { (s : Session) → AreWaiting s rows.now.entries → several ≡ has_several_threads s
        → IsFault (BreaksInterrupt s unique original) result }
{
    if original == u64::MAX || unique != original + 1 {
        return Some(Fault::InterruptUnderAnotherNumber);
    }
    if several {
        return None;
    }
    match rows.get(original) {
        None => Some(Fault::InterruptOfNothing),
        Some(row) if row.agains < row.interrupts => Some(Fault::InterruptTooOften),
        Some(_) => None,
    }
}

/// The fault of a device that takes a reply or refuses it.
pub(crate) fn fault_of_taking<A: Allocator + Copy>(
    rows: &RisingTable<Waiting, A>,
    flags: Flags,
    unique: u64,
    taken: Taken,
    fit: Fit,
) -> Option<Fault>
    ensures { (s : Session) → AreWaiting s rows.now.entries → AreFlags s flags
        → IsFault (BreaksTaking s unique taken fit) result }
{
    if flags.ended {
        return match taken {
            Taken::Accepted if is_surely_over(flags) => Some(Fault::AcceptedAfterTheEnd),
            _ => None,
        };
    }
    let waits = rows.get(unique).is_some();
    match (taken, fit) {
        (Taken::Accepted, _) if !waits => Some(Fault::AcceptedReplyToNothing),
        (Taken::Accepted, Fit::FitsNot) => Some(Fault::AcceptedWrongBody),
        (Taken::Invalid, Fit::Fits) if waits => Some(Fault::RefusedReply),
        _ => None,
    }
}

/// The fault of a server that replies under a number, under which a request waits or not.
pub(crate) fn fault_of_reply<A: Allocator + Copy>(
    numbers: &Marks<A>,
    waits: bool,
    unique: u64,
) -> Option<Fault>
    ensures { (s : Session) → waits ≡ is_some (waiting_words.waits s unique) → AreNumbers s numbers.now.entries
        → IsFault (BreaksReply s unique) result }
{
    if waits {
        return None;
    }
    match mark_of(numbers, unique) {
        Mark::Unread => Some(Fault::ReplyToNothing),
        Mark::Request => Some(Fault::SecondReply),
        Mark::Forget => Some(Fault::ReplyToForget),
    }
}

/// A fault that is one where a single thread uses the device.
fn unless(several: bool, fault: Fault) -> Option<Fault>
    ensures { result ≡ (if several then None else Some fault) }
{
    if several { None } else { Some(fault) }
}

/// Whether a server is odd that answers EINTR under a number.
pub(crate) fn fault_of_error<A: Allocator + Copy>(
    rows: &RisingTable<Waiting, A>,
    several: bool,
    unique: u64,
) -> Option<Fault>
    ensures { (s : Session) → AreWaiting s rows.now.entries → several ≡ has_several_threads s
        → IsFault (WarnsOfError s unique) result }
{
    let row = rows.get(unique)?;
    if row.interrupts == 0 {
        unless(several, Fault::InterruptedByNobody)
    } else {
        None
    }
}

/// The fault of a server that replies to an INTERRUPT.
pub(crate) fn fault_of_reply_to_interrupt<A: Allocator + Copy>(
    rows: &RisingTable<Waiting, A>,
    numbers: &Marks<A>,
    several: bool,
    original: u64,
    is_again: bool,
    taken: Taken,
) -> Option<Fault>
    ensures { (s : Session) → AreWaiting s rows.now.entries → AreNumbers s numbers.now.entries
        → several ≡ has_several_threads s → IsFault (BreaksReplyToInterrupt s original is_again taken) result }
{
    if matches!(mark_of(numbers, original), Mark::Unread) {
        return unless(several, Fault::ReplyToNothing);
    }
    let row = rows.get(original)?;
    if row.interrupts == 0 {
        return unless(several, Fault::ReplyToNoInterrupt);
    }
    if is_again && reaches(taken) && row.agains == MOST_AGAINS {
        Some(Fault::AgainTooOften)
    } else {
        None
    }
}

/// Whether a request waits under a number.
pub(crate) fn waits<A: Allocator + Copy>(rows: &RisingTable<Waiting, A>, unique: u64) -> bool
    ensures { result ≡ is_some (get rows.now.entries unique) }
{
    rows.get(unique).is_some()
}

/// What waits under a number ends. Returns whether anything did.
fn end<A: Allocator + Copy>(pending: &mut Pending<A>, unique: u64) -> bool
    ensures waited { result ≡ is_some (get pending.old.rows.entries unique) }
    ensures listed { (xs : List (ℕ × Asked))
        → AreListed xs pending.old.rows.entries pending.old.named.counts pending.old.used.counts
        → AreListed (filter (λ (e : ℕ × Asked). not (nat_eq unique e.0)) xs) pending.new.rows.entries
        pending.new.named.counts pending.new.used.counts }
    ensures interrupted { (s : Session) → AreInterrupted s pending.old.rows.entries
        → AreInterrupted s pending.new.rows.entries }
    ensures gone { get pending.new.rows.entries unique ≡ None }
    ensures names { (n : ℕ)
        → count_in nat_eq pending.new.named.counts n ≤ count_in nat_eq pending.old.named.counts n }
    ensures uses { (f : OpenFile) → count_in same_handle pending.new.used.counts (handle f)
        ≤ count_in same_handle pending.old.used.counts (handle f) }
    ensures room { pending.old.rows.room ≤ pending.new.rows.room }
    ensures named_room { pending.old.named.room ≤ pending.new.named.room }
    ensures used_room { pending.old.used.room ≤ pending.new.used.room }
{
    // Most numbers are new and above all, and are not searched for.
    if pending.rows.is_above(unique) {
        return false;
    }
    let Some(row) = pending.rows.remove(unique) else {
        return false;
    };
    take_names(&mut pending.named, &row.asked);
    take_uses(&mut pending.used, &row.asked);
    true
}

/// A request waits, under a number under which none does.
fn ask<A: Allocator + Copy>(pending: &mut Pending<A>, unique: u64, asked: &Asked)
    requires gone { get pending.old.rows.entries unique ≡ None }
    requires room { 0 < pending.old.rows.room }
    requires named_room { 2 ≤ pending.old.named.room }
    requires used_room { 2 ≤ pending.old.used.room }
    requires names { (n : ℕ) → count_in nat_eq pending.old.named.counts n + 2 < 2 ^ 64 }
    requires uses { (f : OpenFile) → count_in same_handle pending.old.used.counts (handle f) + 2 < 2 ^ 64 }
    ensures listed { (xs : List (ℕ × Asked))
        → AreListed xs pending.old.rows.entries pending.old.named.counts pending.old.used.counts
        → AreListed (xs ++ (unique, asked.now) ∷ []) pending.new.rows.entries pending.new.named.counts
        pending.new.used.counts }
    ensures interrupted { (s : Session) → AreInterrupted s pending.old.rows.entries
        → AreInterrupted (s ++ Asks unique asked.now ∷ []) pending.new.rows.entries }
    ensures room { pending.old.rows.room ≤ pending.new.rows.room + 1 }
    ensures named_room { pending.old.named.room ≤ pending.new.named.room + 2 }
    ensures used_room { pending.old.used.room ≤ pending.new.used.room + 2 }
{
    let row = Waiting {
        asked: *asked,
        interrupts: 0,
        agains: 0,
    };
    pending.rows.put(unique, row);
    add_names(&mut pending.named, asked);
    add_uses(&mut pending.used, asked);
}

/// Writes down that a request waits, in place of any under its number.
#[inline(always)]
pub(crate) fn note_asked<A: Allocator + Copy>(pending: &mut Pending<A>, unique: u64, asked: &Asked)
    requires room { 0 < pending.old.rows.room }
    requires named_room { 2 ≤ pending.old.named.room }
    requires used_room { 2 ≤ pending.old.used.room }
    requires few { (s : Session)
        × ArePending s pending.old.rows.entries pending.old.named.counts pending.old.used.counts
        × (2 * length s + 2 < 2 ^ 64) }
    ensures kept { (s : Session)
        → ArePending s pending.old.rows.entries pending.old.named.counts pending.old.used.counts
        → ArePending (s ++ Asks unique asked.now ∷ []) pending.new.rows.entries pending.new.named.counts
        pending.new.used.counts }
    ensures room { pending.old.rows.room ≤ pending.new.rows.room + 1 }
    ensures named_room { pending.old.named.room ≤ pending.new.named.room + 2 }
    ensures used_room { pending.old.used.room ≤ pending.new.used.room + 2 }
{
    let _waited = end(pending, unique);
    ask(pending, unique, asked);
}

/// Counts an INTERRUPT of what waits under a number, or an EAGAIN to one.
fn interrupt<A: Allocator + Copy>(
    rows: &mut RisingTable<Waiting, A>,
    unique: u64,
    interrupts: bool,
    agains: bool,
)
    requires few { (u : ℕ) (row : Waiting) → get rows.old.entries u ≡ Some row
        → (row.interrupts + 1 < 2 ^ 64) × (row.agains + 1 < 2 ^ 64) }
    ensures once { (u : ℕ) → entry_of u (get rows.new.entries u) ≡ entry_of u (get rows.old.entries u) }
    ensures interrupted { (s : Session) (act : Act)
        → ((u : ℕ) → HasEffect u act false (words.one_if (nat_eq unique u && interrupts)) (words.one_if
        (nat_eq unique u && agains)))
        → AreInterrupted s rows.old.entries → AreInterrupted (s ++ act ∷ []) rows.new.entries }
    ensures room { rows.old.room ≤ rows.new.room }
{
    if let Some(row) = rows.get_mut(unique) {
        row.interrupts += u64::from(interrupts);
        row.agains += u64::from(agains);
    }
}

/// Writes down what an act does to the requests that wait.
#[inline(always)]
pub(crate) fn note_pending<A: Allocator + Copy>(pending: &mut Pending<A>, act: Act)
    requires room { 0 < pending.old.rows.room }
    requires named_room { 2 ≤ pending.old.named.room }
    requires used_room { 2 ≤ pending.old.used.room }
    requires few { (s : Session)
        × ArePending s pending.old.rows.entries pending.old.named.counts pending.old.used.counts
        × (2 * length s + 2 < 2 ^ 64) }
    ensures kept { (s : Session)
        → ArePending s pending.old.rows.entries pending.old.named.counts pending.old.used.counts
        → ArePending (s ++ act ∷ []) pending.new.rows.entries pending.new.named.counts pending.new.used.counts }
    ensures room { pending.old.rows.room ≤ pending.new.rows.room + 1 }
    ensures named_room { pending.old.named.room ≤ pending.new.named.room + 2 }
    ensures used_room { pending.old.used.room ≤ pending.new.used.room + 2 }
{
    match change_of(act) {
        Change::Nothing => {}
        Change::Asks { unique, asked } => note_asked(pending, unique, &asked),
        Change::Ends(unique) => {
            let _waited = end(pending, unique);
        }
        Change::Interrupts(unique) => interrupt(&mut pending.rows, unique, true, false),
        Change::Again(unique) => interrupt(&mut pending.rows, unique, false, true),
    }
}

/// Writes down a reply, which ends what waits under its number where it reaches. Returns the fault of the server: so a
/// row is looked up once for both.
#[inline(always)]
pub(crate) fn reply<A: Allocator + Copy>(
    pending: &mut Pending<A>,
    numbers: &Marks<A>,
    unique: u64,
    taken: Taken,
) -> Option<Fault>
    ensures kept { (s : Session)
        → ArePending s pending.old.rows.entries pending.old.named.counts pending.old.used.counts
        → ArePending (s ++ Replies unique taken ∷ []) pending.new.rows.entries pending.new.named.counts
        pending.new.used.counts }
    ensures verdict { (s : Session)
        → ArePending s pending.old.rows.entries pending.old.named.counts pending.old.used.counts
        → AreNumbers s numbers.now.entries → IsFault (BreaksReply s unique) result }
    ensures room { pending.old.rows.room ≤ pending.new.rows.room }
    ensures named_room { pending.old.named.room ≤ pending.new.named.room }
    ensures used_room { pending.old.used.room ≤ pending.new.used.room }
{
    if !reaches(taken) {
        return fault_of_reply(numbers, waits(&pending.rows, unique), unique);
    }
    let waited = end(pending, unique);
    fault_of_reply(numbers, waited, unique)
}
