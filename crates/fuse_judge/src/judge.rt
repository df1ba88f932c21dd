//! The judge.

ghost use Rattle.std.specs.Prelude.{◌≡◌, ◌↔◌, ℕ, [], ◌++◌, OnOk, OnErr, Some, length, slice_get};
ghost use Rattle.std.specs.Option.{option_copied};
ghost use Rattle.fuse_sessions.specs.declared.fault.Fault.{Fault};
ghost use Rattle.fuse_sessions.specs.Sessions.{Session};
ghost use Rattle.fuse_sessions.specs.Waiting.{waits};
ghost use Rattle.fuse_sessions.specs.Faults.{HasFaultAt};
ghost use Rattle.fuse_judge.specs.Seen.{HasSeen};

use crate::flags::no_flags;
use crate::opens::OpenFiles;
use crate::pending::Pending;
use crate::tables::{Tables, make_room};
use crate::tally::Tally;
use fuse_sessions::{Act, Asked, Fault};
use fuse_tables::RisingTable;
use std::alloc::{AllocError, Allocator, Global};
use std::marker::Model;

/// How many acts a judge sees at most.
const LIMIT: u64 = 1 << 62;

/// A judge of one session.
#[derive(Drop)]
pub struct Judge<A: Allocator = Global> {
    pub(crate) tables: Tables<A>,
    /// How many acts were seen.
    acts: u64,
    /// For how many more the tables have room.
    room: usize,
}

impl<A: Allocator> Model for Judge<A> {
    ghost use Rattle.std.specs.Coded.{codes};
    ghost use Rattle.fuse_judge.specs.Seen.{JudgeState, HasRoom, HasSeenFew, state_of};

    ghost Value = { JudgeState };

    ghost coded = { Prim.hlevel (codes) };

    ghost view = { λ j. state_of j.tables };

    ghost invariant = { λ j. HasSeenFew j.acts (state_of j.tables) × HasRoom j.room j.tables };
}

impl<A: Allocator + Copy> Judge<A> {
    /// A judge that has seen nothing.
    pub fn new(alloc: A) -> Self
        ensures { HasSeen [] result }
    {
        Judge {
            tables: Tables {
                flags: no_flags(),
                numbers: RisingTable::new(alloc),
                nodes: RisingTable::new(alloc),
                pending: Pending {
                    rows: RisingTable::new(alloc),
                    named: Tally::new(alloc),
                    used: Tally::new(alloc),
                },
                opens: OpenFiles {
                    counts: Tally::new(alloc),
                    nodes: Tally::new(alloc),
                },
            },
            acts: 0,
            room: 0,
        }
    }

    /// The request that waits under a number: it was read, and no reply has ended it.
    #[inline(always)]
    pub(crate) fn asked(&self, unique: u64) -> Option<&Asked>
        ensures { (s : Session) → HasSeen s self.now → option_copied result ≡ waits s unique }
    {
        match self.tables.pending.rows.get(unique) {
            Some(row) => Some(&row.asked),
            None => None,
        }
    }

    /// Sees the next acts, one after another, and writes a verdict on each: its fault, or `None`. What the vector had
    /// goes.
    ///
    /// # Errors
    ///
    /// Out of memory, or more than 2^62 acts in all. Nothing was seen.
    pub fn see(
        &mut self,
        acts: &[Act],
        verdicts: &mut Vec<Option<Fault>, A>,
    ) -> Result<(), AllocError>
        ensures verdicts { OnOk result ((before : Session) → HasSeen before self.old → (place : ℕ) (fault : Fault)
            → slice_get verdicts.new.items place ≡ Some (Some fault) ↔ HasFaultAt before acts.now place fault) }
        ensures seen { OnOk result ((before : Session) → HasSeen before self.old
            → HasSeen (before ++ acts.now) self.new) }
        ensures refused { OnErr result ((before : Session) → HasSeen before self.old → HasSeen before self.new) }
        ensures len { OnOk result (length verdicts.new.items ≡ length acts.now) }
    {
        let more = acts.len();
        if LIMIT < self.acts || LIMIT - self.acts < more as u64 {
            return Err(AllocError);
        }
        verdicts.clear();
        verdicts.reserve(more)?;
        make_room(&mut self.tables, &mut self.room, more)?;
        self.tables.see(acts, verdicts);
        self.room -= more;
        self.acts += more as u64;
        Ok(())
    }
}
