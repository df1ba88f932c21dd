//! The names that the kernel removes, transfer after transfer.

ghost use Rattle.std.specs.Prelude.{◌≡◌, ◌++◌, ◌&&◌, IfOk, OnOk, not, nat_eq, flat_map};
ghost use Rattle.fuse_sessions.specs.declared.known.Known.{Known};
ghost use Rattle.fuse_sessions.specs.Counts.{most_count};
ghost use Rattle.fuse_sessions.specs.Frames.{AreActs};
ghost use Rattle.fuse_sessions.specs.Sessions.{Session};
ghost use Rattle.name_sessions.specs.NameFrames.{AreNamesAfter, leaves};
ghost use Rattle.name_sessions.specs.NameSessions.{NameSession};
ghost use Rattle.name_judge.specs.Judged.{HasSeen};
ghost use Rattle.fw_check.specs.Names as words;
ghost use Rattle.fw_check.specs.Standing.{Stands};

use crate::standing::{Standing, count_of_node};
use fuse_protocol::{Agreed, Unjudged};
use fuse_sessions::{Act, Fault, Transfer};
use name_judge::NameJudge;
use std::alloc::{AllocError, Allocator};

/// The root, of which a forget leaves all as it is.
const ROOT: u64 = 1;

/// Whether a forget of a node leaves nothing of it, by what stands behind it.
fn is_left<A: Allocator + Copy>(standing: &Standing<A>, node: u64) -> bool
    ensures { (later : Session) → Stands later standing.now.nodes.entries standing.now.files.entries
        → result ≡ (not (nat_eq node 1) && nat_eq (most_count later node) 0) }
{
    node != ROOT && count_of_node(standing, Some(node)) == 0
}

/// Has the judge see what an act leaves: nothing of a node whose last lookup it forgets.
fn see_left<A: Allocator + Copy>(names: &mut NameJudge<A>, standing: &Standing<A>, act: Act)
    ensures { (n : NameSession) (later : Session) → HasSeen n names.old → Stands later standing.now.nodes.entries standing.now.files.entries
        → HasSeen (n ++ leaves later act) names.new }
{
    match act {
        Act::Forgets(node, _) => {
            if is_left(standing, node) {
                names.forget(node);
            }
        }
        _ => {}
    }
}

/// The same of a transfer's acts, by what stands behind it.
fn see_all_left<A: Allocator + Copy>(names: &mut NameJudge<A>, standing: &Standing<A>, acts: &[Act])
    ensures { (n : NameSession) (later : Session) → HasSeen n names.old → Stands later standing.now.nodes.entries standing.now.files.entries
        → HasSeen (n ++ flat_map (leaves later) acts.now) names.new }
{
    for act in acts {
        see_left(names, standing, *act);
    }
}

/// Has the judge see the next transfer, by what was known before it, its acts, and what stands behind it. Returns whether
/// the kernel takes away a name of which it has no file.
///
/// # Errors
///
/// Out of memory.
pub(crate) fn see_names<A: Allocator + Copy>(
    names: &mut NameJudge<A>,
    standing: &Standing<A>,
    agreed: Agreed,
    unjudged: Option<Unjudged>,
    transfer: Transfer<'_>,
    acts: &[Act],
) -> Result<bool, AllocError>
    ensures { IfOk result (λ is_missing. (k next : Known) (n : NameSession) (s : Session) → agreed ≡ k.agreed → unjudged ≡ k.unjudged
        → HasSeen n names.old → AreActs k s transfer.entry acts.now next → Stands (s ++ acts.now) standing.now.nodes.entries standing.now.files.entries
        → (after : NameSession) × AreNamesAfter k n s transfer.entry acts.now after is_missing × HasSeen after names.new) }
{
    if unjudged.is_some() {
        return Ok(false);
    }
    let is_missing = names.see(agreed, transfer)?;
    see_all_left(names, standing, acts);
    Ok(is_missing)
}

/// The act of a request by which it has its opcode and its number.
fn removal_in(acts: &[Act]) -> Act
    ensures { result ≡ words.removal_in acts.now }
{
    for act in acts {
        if let Act::Read { .. } = *act {
            return *act;
        }
    }
    Act::Arrives
}

/// Puts the fault of a name that is missing behind the verdicts, if one is.
///
/// # Errors
///
/// Out of memory.
pub(crate) fn put_missing<A: Allocator>(
    verdicts: &mut Vec<Option<Fault>, A>,
    is_missing: bool,
) -> Result<(), AllocError>
    ensures { OnOk result (verdicts.new.items ≡ words.with_names is_missing verdicts.old.items) }
{
    if is_missing {
        verdicts.push(Some(Fault::NameThatIsMissing))?;
    }
    Ok(())
}

/// Puts the request's own act behind the acts, if that fault is about it.
///
/// # Errors
///
/// Out of memory.
pub(crate) fn put_removal<A: Allocator>(
    acts: &mut Vec<Act, A>,
    is_missing: bool,
) -> Result<(), AllocError>
    ensures { OnOk result (acts.new.items ≡ words.with_removal is_missing acts.old.items) }
{
    if is_missing {
        let removal = removal_in(acts.as_slice());
        acts.push(removal)?;
    }
    Ok(())
}
