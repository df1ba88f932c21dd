//! How many requests wait.

ghost use Rattle.std.specs.Prelude.{◌≡◌, ◌≤◌, ℕ, List, filter, length, nat_eq};
ghost use Rattle.fuse_spec.specs.Values.Maps.{get};
ghost use Rattle.fuse_sessions.specs.declared.act.Asked.{Asked};
ghost use Rattle.fuse_sessions.specs.declared.known.Known.{Known};
ghost use Rattle.fuse_sessions.specs.declared.transfer.Transfer.{Transfer};
ghost use Rattle.fuse_sessions.specs.Sessions.{Session};
ghost use Rattle.fuse_sessions.specs.Waiting.{waiting};
ghost use Rattle.fuse_judge.specs.Pending.{entry_of};
ghost use Rattle.fuse_judge.specs.Seen.{HasSeen};
ghost use Rattle.fuse_judge.specs.Transfers.{HasSeenFrom};

use crate::judge::Judge;
use crate::pending::Waiting;
use crate::session::SessionJudge;
use fuse_tables::RisingTable;
use std::alloc::Allocator;

/// How many requests a table lists. That its keys rise it says only of a removal, so a row is taken out and put back.
fn count_rows<A: Allocator + Copy>(rows: &mut RisingTable<Waiting, A>) -> u64
    ensures count { (xs : List (ℕ × Asked))
        → ((unique : ℕ) → filter (λ e. nat_eq unique e.0) xs ≡ entry_of unique (get rows.old.entries unique))
        → result ≡ length xs }
    ensures same { rows.new.entries ≡ rows.old.entries }
    ensures room { rows.old.room ≤ rows.new.room }
{
    let count = rows.len();
    if let Some(row) = rows.remove(0) {
        rows.put(0, row);
    }
    count as u64
}

impl<A: Allocator + Copy> Judge<A> {
    /// How many requests wait: they were read, and no reply has ended them. Nothing changes.
    pub fn unanswered(&mut self) -> u64
        ensures count { (s : Session) → HasSeen s self.old → result ≡ length (waiting s) }
        ensures same { self.new ≡ self.old }
    {
        count_rows(&mut self.tables.pending.rows)
    }
}

impl<A: Allocator + Copy> SessionJudge<A> {
    /// How many requests wait: they were read, and no reply has ended them. Nothing changes.
    pub fn unanswered(&mut self) -> u64
        ensures count { (start : Known) (before : List Transfer) (s : Session) → HasSeenFrom start before s self.old
            → result ≡ length (waiting s) }
        ensures same { self.new ≡ self.old }
    {
        self.judge.unanswered()
    }
}
