//! What is counted of transfers, acts and verdicts.

ghost use Rattle.std.specs.Prelude.{◌≡◌, ◌+◌, IfSome, sum_by};
ghost use Rattle.fw_check.specs.Tallies as words;

use crate::number_in::has_number;
use fuse_sessions::{Act, Fault, Party, Taken, Transfer};

/// Whether a transfer is a request.
pub(crate) fn is_request(transfer: Transfer<'_>) -> bool
    ensures { result ≡ words.is_request transfer.entry }
{
    matches!(transfer, Transfer::Request(_))
}

/// Whether it is a notification.
pub(crate) fn is_notification(transfer: Transfer<'_>) -> bool
    ensures { result ≡ words.is_notification transfer.entry }
{
    match transfer {
        Transfer::Written(bytes, _) => !has_number(bytes),
        _ => false,
    }
}

/// Whether it is a reply.
pub(crate) fn is_reply(transfer: Transfer<'_>) -> bool
    ensures { result ≡ words.is_reply transfer.entry }
{
    match transfer {
        Transfer::Written(bytes, _) => has_number(bytes),
        _ => false,
    }
}

/// Whether a frame was accepted.
fn is_accepted(taken: Taken) -> bool
    ensures { result ≡ words.is_accepted taken }
{
    matches!(taken, Taken::Accepted)
}

/// Whether a transfer is a reply that the device refused.
pub(crate) fn is_refused(transfer: Transfer<'_>) -> bool
    ensures { result ≡ words.is_refused transfer.entry }
{
    match transfer {
        Transfer::Written(bytes, taken) => has_number(bytes) && !is_accepted(taken),
        _ => false,
    }
}

/// How many entries an act gives.
fn entries_of(act: Act) -> u64
    ensures { result ≡ words.entries_of act }
{
    match act {
        Act::Gives { .. } => 1,
        _ => 0,
    }
}

/// How many lookups it gives back.
fn forgotten_by(act: Act) -> u64
    ensures { result ≡ words.forgotten_by act }
{
    match act {
        Act::Forgets(_, lookups) => lookups,
        _ => 0,
    }
}

/// Whether a verdict is a fault of a party, or a warning where that is nobody's.
pub(crate) fn is_of(party: Party, verdict: Option<Fault>) -> bool
    ensures { result ≡ words.is_of party verdict }
{
    match verdict {
        Some(fault) => matches!(
            (party, fault.party()),
            (Party::Kernel, Party::Kernel)
                | (Party::Server, Party::Server)
                | (Party::Device, Party::Device)
                | (Party::Nobody, Party::Nobody)
        ),
        None => false,
    }
}

/// 1 where it is so, and else 0.
fn one_if(is: bool) -> u64
    ensures { result ≡ words.one_if is }
{
    if is { 1 } else { 0 }
}

/// A count, and one more where it is so; `None` past 64 bits.
pub(crate) fn count_after(count: u64, is: bool) -> Option<u64>
    ensures { IfSome result (λ n. n ≡ count + words.one_if is) }
{
    count.checked_add(one_if(is))
}

/// A count of entries, and those that acts give.
pub(crate) fn entries_after(count: u64, acts: &[Act]) -> Option<u64>
    ensures { IfSome result (λ n. n ≡ count + sum_by words.entries_of acts.now) }
{
    let mut entries = count;
    for act in acts {
        entries = entries.checked_add(entries_of(*act))?;
    }
    Some(entries)
}

/// A count of lookups, and those that acts give back.
pub(crate) fn forgotten_after(count: u128, acts: &[Act]) -> Option<u128>
    ensures { IfSome result (λ n. n ≡ count + sum_by words.forgotten_by acts.now) }
{
    let mut forgotten = count;
    for act in acts {
        forgotten = forgotten.checked_add(u128::from(forgotten_by(*act)))?;
    }
    Some(forgotten)
}

/// A count of a party's faults, and those that verdicts are.
pub fn faults_after(count: u64, party: Party, verdicts: &[Option<Fault>]) -> Option<u64>
    ensures { IfSome result (λ n. n ≡ count + sum_by (λ v. words.one_if (words.is_of party v)) verdicts.now) }
{
    let mut faults = count;
    for verdict in verdicts {
        faults = count_after(faults, is_of(party, *verdict))?;
    }
    Some(faults)
}
