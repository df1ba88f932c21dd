//! The judge of names.

ghost use Rattle.std.specs.Prelude.{◌≡◌, ◌∷◌, ◌++◌, [], IfOk, OnOk, OnErr, List, false};
ghost use Rattle.name_sessions.specs.NameActs.{NameAct, Unsure, Leaves};
ghost use Rattle.name_sessions.specs.NameFrames.{AreNameActs, has_fault, start_names};
ghost use Rattle.name_sessions.specs.NameSessions.{NameSession, is_unsure};
ghost use Rattle.name_judge.specs.Judged.{HasSeen};

use crate::tables::Tables;
use crate::transfers::see_transfer;
use fuse_protocol::Agreed;
use fuse_sessions::Transfer;
use std::alloc::{AllocError, Allocator, Global};

/// A judge of the names that a kernel removes in one session.
///
/// What each call costs, for `n` names that were given and requests that wait, whatever they are:
///
/// | Call | Time |
/// |---|---|
/// | `see` | log `n` steps for each name in the transfer |
/// | `forget` | log `n` steps, and one for each name in the directory |
#[derive(Drop)]
pub struct NameJudge<A: Allocator = Global> {
    /// Nothing is certain any more. Then the tables are empty.
    unsure: bool,
    tables: Tables<A>,
}

impl<A: Allocator + Copy> NameJudge<A> {
    /// A judge that has seen nothing.
    pub fn new(alloc: A) -> Self
        ensures { HasSeen [] result }
    {
        NameJudge {
            unsure: false,
            tables: Tables::new(alloc),
        }
    }

    /// A judge that has seen nothing of a session, which is joined or begins: of one that is joined nothing is certain.
    pub fn start(alloc: A, is_joined: bool) -> Self
        ensures { HasSeen (start_names is_joined) result }
    {
        let mut judge = NameJudge::new(alloc);
        if is_joined {
            judge.doubt();
        }
        judge
    }

    /// Nothing is certain from here on.
    fn doubt(&mut self)
        ensures { (s : NameSession) → HasSeen (s ++ Unsure ∷ []) self.new }
    {
        self.unsure = true;
        self.tables = Tables::new(self.tables.alloc);
    }

    /// Sees the next transfer, by what the two sides agreed on. Returns whether the kernel takes away a name of which it
    /// has no file.
    ///
    /// # Errors
    ///
    /// Out of memory: nothing is certain of any name from here on.
    pub fn see(&mut self, agreed: Agreed, transfer: Transfer<'_>) -> Result<bool, AllocError>
        ensures verdict { IfOk result (λ fault. (s : NameSession) (acts : List NameAct) → HasSeen s self.old
            → AreNameActs agreed s transfer.entry acts → fault ≡ has_fault s acts) }
        ensures seen { OnOk result ((s : NameSession) (acts : List NameAct) → HasSeen s self.old
            → AreNameActs agreed s transfer.entry acts → HasSeen (s ++ acts) self.new) }
        ensures there { OnOk result ((s : NameSession) → HasSeen s self.old → is_unsure s ≡ false
            → (acts : List NameAct) × AreNameActs agreed s transfer.entry acts) }
        ensures refused { OnErr result ((s : NameSession) → HasSeen s self.old
            → HasSeen (s ++ Unsure ∷ []) self.new) }
    {
        if self.unsure {
            return Ok(false);
        }
        match see_transfer(&mut self.tables, agreed, transfer) {
            Ok(Some(fault)) => Ok(fault),
            Ok(None) => {
                self.doubt();
                Ok(false)
            }
            Err(error) => {
                self.doubt();
                Err(error)
            }
        }
    }

    /// The kernel has nothing of a node any more, nor of the names in it: its last lookup was forgotten.
    pub fn forget(&mut self, node: u64)
        ensures { (s : NameSession) → HasSeen s self.old → HasSeen (s ++ Leaves node ∷ []) self.new }
    {
        self.tables.leave(node);
    }
}
