//! The judge of transfers.

ghost use Rattle.std.specs.Prelude.{◌≡◌, [], List, OnErr, OnOk};
ghost use Rattle.std.specs.Option.{option_copied};
ghost use Rattle.fuse_sessions.specs.declared.known.Known.{Known};
ghost use Rattle.fuse_sessions.specs.declared.transfer.Transfer.{Transfer};
ghost use Rattle.fuse_sessions.specs.Sessions.{Session};
ghost use Rattle.fuse_sessions.specs.Waiting.{waits};
ghost use Rattle.fuse_judge.specs.Seen.{HasSeen};
ghost use Rattle.fuse_judge.specs.Transfers.{HasSeenFrom, HasSeenTransfers, IsAskedFor, IsJudged};

use crate::judge::Judge;
use fuse_protocol::{Agreed, BEFORE_INIT, Unjudged};
use fuse_sessions::{Act, Asked, Fault, Known, Transfer};
use session_frames::{reply_number, write_transfer};
use std::alloc::{AllocError, Allocator, Global};
use std::marker::Model;

/// A judge of one session, which reads its frames.
#[derive(Drop)]
pub struct SessionJudge<A: Allocator = Global> {
    pub(crate) judge: Judge<A>,
    known: Known,
}

impl<A: Allocator> Model for SessionJudge<A> {
    ghost use Rattle.std.specs.Coded.{codes};
    ghost use Rattle.fuse_judge.specs.Transfers.{SessionState};

    ghost Value = { SessionState };

    ghost coded = { Prim.hlevel (codes) };

    ghost view = { λ j. record { judge = j.judge; known = j.known } };
}

/// The request that waits for what a transfer writes. What is read answers none, and is not looked up.
#[inline(always)]
fn asked_for<'a, A: Allocator + Copy>(
    judge: &'a Judge<A>,
    transfer: Transfer<'_>,
) -> Option<&'a Asked>
    ensures { (s : Session) → HasSeen s judge.now → IsAskedFor s transfer.entry (option_copied result) }
{
    match transfer {
        Transfer::Written(_, _) => judge.asked(reply_number(transfer)),
        _ => None,
    }
}

impl<A: Allocator + Copy> SessionJudge<A> {
    /// A judge that has seen nothing.
    pub fn new(alloc: A) -> Self
        ensures { HasSeenTransfers [] [] result }
    {
        SessionJudge::from_known(
            alloc,
            Known {
                offered: None,
                agreed: BEFORE_INIT,
                has_resent: false,
                unjudged: None,
            },
        )
    }

    /// A judge that has seen nothing yet of a session of which this is known.
    pub fn from_known(alloc: A, known: Known) -> Self
        ensures { HasSeenFrom known [] [] result }
    {
        SessionJudge {
            judge: Judge::new(alloc),
            known,
        }
    }

    /// What the two sides agree on: by it frames are read.
    pub fn agreed(&self) -> Agreed
        ensures { result ≡ self.now.known.agreed }
    {
        self.known.agreed
    }

    /// Why nothing is judged any more, if so: INIT agreed on frames that cannot be read.
    pub fn unjudged(&self) -> Option<Unjudged>
        ensures { result ≡ self.now.known.unjudged }
    {
        self.known.unjudged
    }

    /// The request that waits under a number: it was read, and no reply has ended it.
    pub fn waiting(&self, unique: u64) -> Option<Asked>
        ensures { (start : Known) (before : List Transfer) (s : Session) → HasSeenFrom start before s self.now
            → result ≡ waits s unique }
    {
        self.judge.asked(unique).copied()
    }

    /// Sees the next transfer, writes its acts, and a verdict on each: the act's fault, or `None`. What the vectors had
    /// goes.
    ///
    /// # Errors
    ///
    /// Out of memory, or more than 2^62 acts in all. Nothing was seen.
    pub fn see(
        &mut self,
        transfer: Transfer<'_>,
        acts: &mut Vec<Act, A>,
        verdicts: &mut Vec<Option<Fault>, A>,
    ) -> Result<(), AllocError>
        ensures judged { OnOk result ((start : Known) (before : List Transfer) (s : Session)
            → HasSeenFrom start before s self.old → IsJudged start before s transfer.entry self.old self.new acts.new.items verdicts.new.items) }
        ensures refused { OnErr result ((start : Known) (before : List Transfer) (s : Session)
            → HasSeenFrom start before s self.old → HasSeenFrom start before s self.new) }
    {
        let asked = asked_for(&self.judge, transfer);
        let mut known = self.known;
        write_transfer(acts, &mut known, asked, transfer)?;
        self.judge.see(acts, verdicts)?;
        self.known = known;
        Ok(())
    }
}
