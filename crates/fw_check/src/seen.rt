//! What a check has seen of a session, and how it sees the next transfer.

ghost use Rattle.std.specs.Prelude.{◌≡◌, ◌++◌, IfOk, OnOk};
ghost use Rattle.fuse_sessions.specs.Sessions.{Session};
ghost use Rattle.fw_check.specs.declared.counts.Counts.{Counts};
ghost use Rattle.fw_check.specs.Checks.{Judged};
ghost use Rattle.fw_check.specs.Past.{traces_of};
ghost use Rattle.fw_check.specs.Running.{IsKept, IsSeenSo, seen_by};
ghost use Rattle.fw_check.specs.Standing.{Stands};

use crate::exchanges::Exchanges;
use crate::names::see_names;
use crate::past::{Past, Trace, note_trace};
use crate::standing::{Standing, note_act};
use fuse_judge::SessionJudge;
use fuse_sessions::{Act, Fault, Transfer};
use joined_judge::see_as;
use name_judge::NameJudge;
use std::alloc::{AllocError, Allocator, Global};

/// What was seen of a session.
#[derive(Drop)]
pub(crate) struct Seen<A: Allocator = Global> {
    pub(crate) judge: SessionJudge<A>,
    /// The names that the kernel may remove.
    pub(crate) names: NameJudge<A>,
    /// What stands of the session that the judge has seen.
    pub(crate) standing: Standing<A>,
    /// What the table of opcodes is made of; nothing where that is not asked for.
    pub(crate) exchanges: Exchanges<A>,
    /// The traces of the lines before the one that is judged.
    pub(crate) past: Past<A>,
    /// The traces of that line.
    pub(crate) traces: Vec<Trace, A>,
}

/// Writes down the next acts, and the traces that they leave.
///
/// # Errors
///
/// Out of memory.
fn note_acts<A: Allocator + Copy>(
    standing: &mut Standing<A>,
    traces: &mut Vec<Trace, A>,
    number: u64,
    acts: &[Act],
) -> Result<(), AllocError>
    ensures { OnOk result ((s : Session) → Stands s standing.old.nodes.entries standing.old.files.entries
        → Stands (s ++ acts.now) standing.new.nodes.entries standing.new.files.entries
        × (traces.new.items ≡ traces_of number s acts.now)) }
{
    traces.clear();
    for act in acts {
        note_act(standing, *act)?;
        note_trace(traces, standing, number, *act)?;
    }
    Ok(())
}

/// Has the judges see the next transfer, writes its acts, the verdict on each and the traces that they leave, and notes what
/// stands then. Returns whether the kernel takes away a name of which it has no file. No trace is remembered yet.
///
/// # Errors
///
/// Out of memory.
pub(crate) fn see_transfer<A: Allocator + Copy>(
    seen: &mut Seen<A>,
    is_joined: bool,
    number: u64,
    transfer: Transfer<'_>,
    acts: &mut Vec<Act, A>,
    verdicts: &mut Vec<Option<Fault>, A>,
) -> Result<bool, AllocError>
    ensures seen { IfOk result (λ is_missing. (j : Judged) (c : Counts) → IsKept j (seen_by seen.old) c
        → IsSeenSo is_joined j number transfer.entry acts.new.items verdicts.new.items seen.new.traces.items is_missing (seen_by seen.new)) }
    ensures past { seen.new.past.items ≡ seen.old.past.items }
{
    let agreed = seen.judge.agreed();
    let unjudged = seen.judge.unjudged();
    see_as(&mut seen.judge, is_joined, transfer, acts, verdicts)?;
    note_acts(
        &mut seen.standing,
        &mut seen.traces,
        number,
        acts.as_slice(),
    )?;
    see_names(
        &mut seen.names,
        &seen.standing,
        agreed,
        unjudged,
        transfer,
        acts.as_slice(),
    )
}
