//! The judge's tables, as one name act after another is done.

ghost use Rattle.std.specs.Prelude.{◌≡◌, ◌∷◌, ◌++◌, [], OnOk};
ghost use Rattle.std.specs.Option.{option_map};
ghost use Rattle.name_sessions.specs.NameActs.{Asks, Ends, Gives, Loses, Leaves};
ghost use Rattle.name_sessions.specs.NameSessions as words;
ghost use Rattle.name_sessions.specs.NameSessions.{NameSession};
ghost use Rattle.name_judge.specs.Kept.{name_of, asked_of};
ghost use Rattle.name_judge.specs.Seen.{AreRight};

use crate::given::Given;
use crate::kept::{KeptName, Waiting, keep};
use crate::{given, waiting};
use fuse_tables::RisingTable;
use std::alloc::{AllocError, Allocator};
use std::collections::BTreeMap;

/// What is known of names.
#[derive(Drop)]
pub struct Tables<A: Allocator> {
    pub rows: RisingTable<Waiting<A>, A>,
    pub given: Given<A>,
    pub alloc: A,
}

impl<A: Allocator + Copy> Tables<A> {
    pub(crate) fn new(alloc: A) -> Self
        ensures { AreRight [] result }
    {
        Tables {
            rows: RisingTable::new(alloc),
            given: BTreeMap::new(alloc),
            alloc,
        }
    }

    /// Whether the kernel may have a file of a name.
    pub(crate) fn is_given(&self, parent: u64, bytes: &[u8]) -> bool
        ensures { (s : NameSession) → AreRight s self.now → result ≡ words.is_given s (parent, bytes.now) }
    {
        given::is_given(&self.given, parent, bytes)
    }

    /// What waits under a number ends. Returns what that was.
    pub(crate) fn end(&mut self, unique: u64) -> Option<Waiting<A>>
        ensures was { (s : NameSession) → AreRight s self.old → option_map asked_of result ≡ words.waits s unique }
        ensures right { (s : NameSession) → AreRight s self.old → AreRight (s ++ Ends unique ∷ []) self.new }
    {
        waiting::end(&mut self.rows, unique)
    }

    /// A request waits under a number.
    ///
    /// # Errors
    ///
    /// Out of memory.
    pub(crate) fn ask(&mut self, unique: u64, asked: Waiting<A>) -> Result<(), AllocError>
        ensures { OnOk result ((s : NameSession) → AreRight s self.old
            → AreRight (s ++ Asks unique (asked_of asked) ∷ []) self.new) }
    {
        waiting::ask(&mut self.rows, unique, asked)
    }

    /// A name gets a file.
    ///
    /// # Errors
    ///
    /// Out of memory.
    pub(crate) fn give(&mut self, name: KeptName<A>) -> Result<(), AllocError>
        ensures { OnOk result ((s : NameSession) → AreRight s self.old
            → AreRight (s ++ Gives (name_of name) ∷ []) self.new) }
    {
        given::give(&mut self.given, self.alloc, name)
    }

    /// A name gets a file. It is copied, unless it has one.
    ///
    /// # Errors
    ///
    /// Out of memory.
    pub(crate) fn give_bytes(&mut self, parent: u64, bytes: &[u8]) -> Result<(), AllocError>
        ensures { OnOk result ((s : NameSession) → AreRight s self.old
            → AreRight (s ++ Gives (parent, bytes.now) ∷ []) self.new) }
    {
        if self.is_given(parent, bytes) {
            return Ok(());
        }
        let name = keep(self.alloc, parent, bytes)?;
        self.give(name)
    }

    /// A name is taken away.
    pub(crate) fn lose(&mut self, name: &KeptName<A>)
        ensures { (s : NameSession) → AreRight s self.old → AreRight (s ++ Loses (name_of name.now) ∷ []) self.new }
    {
        given::lose(&mut self.given, name);
    }

    /// The kernel has nothing of a node any more.
    pub(crate) fn leave(&mut self, node: u64)
        ensures { (s : NameSession) → AreRight s self.old → AreRight (s ++ Leaves node ∷ []) self.new }
    {
        given::leave(&mut self.given, node);
    }
}
