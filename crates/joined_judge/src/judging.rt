//! The judge, at its start and with one transfer more.

ghost use Rattle.std.specs.Prelude.{◌≡◌, [], List, OnErr, OnOk};
ghost use Rattle.fuse_sessions.specs.declared.known.Known.{Known};
ghost use Rattle.fuse_sessions.specs.declared.transfer.Transfer.{Transfer};
ghost use Rattle.fuse_sessions.specs.Sessions.{Session};
ghost use Rattle.fuse_judge.specs.Transfers.{HasSeenFrom};
ghost use Rattle.joined_judge.specs.Judging.{IsJudgedAs, start_known};

use crate::verdicts::keep_certain;
use fuse_judge::SessionJudge;
use fuse_sessions::{Act, Fault, Transfer};
use joined_sessions::JOINED;
use std::alloc::{AllocError, Allocator};

/// A judge that has seen nothing of a session, which is joined or begins.
pub fn start_judge<A: Allocator + Copy>(alloc: A, is_joined: bool) -> SessionJudge<A>
    ensures { HasSeenFrom (start_known is_joined) [] [] result }
{
    if is_joined {
        SessionJudge::from_known(alloc, JOINED)
    } else {
        SessionJudge::new(alloc)
    }
}

/// Has a judge see the next transfer, writes its acts, and a verdict on each: the act's fault, or `None`. Of a session that
/// was joined a verdict has a certain fault alone. What the vectors had goes.
///
/// # Errors
///
/// Out of memory, or more than 2^62 acts in all. Nothing was seen.
pub fn see_as<A: Allocator + Copy>(
    judge: &mut SessionJudge<A>,
    is_joined: bool,
    transfer: Transfer<'_>,
    acts: &mut Vec<Act, A>,
    verdicts: &mut Vec<Option<Fault>, A>,
) -> Result<(), AllocError>
    ensures judged { OnOk result ((start : Known) (before : List Transfer) (s : Session) → HasSeenFrom start before s judge.old
        → IsJudgedAs is_joined start before s transfer.entry judge.old judge.new acts.new.items verdicts.new.items) }
    ensures refused { OnErr result ((start : Known) (before : List Transfer) (s : Session) → HasSeenFrom start before s judge.old
        → HasSeenFrom start before s judge.new) }
{
    judge.see(transfer, acts, verdicts)?;
    if is_joined {
        keep_certain(verdicts);
    }
    Ok(())
}
