//! What begins where nothing is under way.

ghost use Rattle.std.specs.Prelude.{◌≡◌, IfOk};
ghost use Rattle.fw_random.specs.Chances.{of_seed};

use crate::beside::Beside;
use crate::calls::{name_count, put_change, put_name, put_name_at, put_reader};
use crate::chance::Chance;
use crate::group::copied;
use crate::known::Known;
use crate::linux::{is_sent, is_there};
use crate::plan::{Plan, keep_text};
use crate::text::{put, put_number, word_at};
use fw_drive::NoLine;
use std::alloc::Allocator;

/// How often a call is chosen again that Linux would not send.
const TRIES: u64 = 12;

/// What rounds are chosen by.
#[derive(Drop)]
pub(crate) struct Rounds<A: Allocator + Copy> {
    alloc: A,
    pub(crate) chance: Chance,
    pub(crate) known: Known<A>,
    pub(crate) plan: Plan<A>,
    pub(crate) beside: Beside<A>,
    /// Whether calls are chosen alone that Linux sends.
    is_linux: bool,
}

impl<A: Allocator + Copy> Rounds<A> {
    pub(crate) fn new(alloc: A, seed: u64, is_linux: bool) -> Result<Self, NoLine>
        ensures { IfOk result (λ rounds. (rounds.chance.generator ≡ of_seed seed) × (rounds.is_linux ≡ is_linux)) }
    {
        Ok(Rounds {
            alloc,
            chance: Chance::new(seed),
            known: Known::new(alloc),
            plan: Plan::new(alloc, !is_linux),
            beside: Beside::new(alloc)?,
            is_linux,
        })
    }

    /// Ends the world beside.
    pub(crate) fn end(self) {
        self.beside.end();
    }

    /// Writes a call that is chosen, of those that change files or of the others.
    fn put_call<B: Allocator>(
        &mut self,
        changes: bool,
        line: &mut Vec<u8, B>,
    ) -> Result<(), NoLine> {
        for _try in 0..TRIES {
            line.clear();
            if changes {
                put_change(&mut self.chance, &mut self.known, &self.plan, line)?;
            } else {
                put_reader(&mut self.chance, &mut self.known, &self.plan, line)?;
            }
            if !self.is_linux || is_sent(self.alloc, &mut self.beside, line.as_slice())? {
                return Ok(());
            }
        }
        line.clear();
        put(line, b"call stat /")
    }

    /// The names that Linux looks up before a call are looked up.
    fn look_up_first(&mut self, line: &[u8]) -> Result<(), NoLine> {
        match word_at(line, 1) {
            b"mkdir" | b"create" | b"unlink" | b"rmdir" => {
                self.plan.put_with(b"call stat ", word_at(line, 2), b"")
            }
            b"rename" => {
                self.plan.put_with(b"call stat ", word_at(line, 3), b"")?;
                self.plan.put_with(b"call stat ", word_at(line, 2), b"")
            }
            b"link" => self.plan.put_with(b"call stat ", word_at(line, 3), b""),
            _ => Ok(()),
        }
    }

    /// A call comes in this round.
    fn add_call(&mut self, changes: bool) -> Result<(), NoLine> {
        let mut line = Vec::new(self.alloc);
        self.put_call(changes, &mut line)?;
        if self.is_linux {
            self.look_up_first(line.as_slice())?;
        }
        keep_text(&mut self.plan.round, line)
    }

    /// Some calls come at once, one of which at most changes files.
    fn add_burst(&mut self) -> Result<(), NoLine> {
        if !self.chance.is_one_in(4) {
            self.add_call(true)?;
        }
        let readers = self.chance.below(3);
        for _reader in 0..readers {
            self.add_call(false)?;
        }
        self.add_call(false)
    }

    /// A file in the root is looked up while the kernel forgets it.
    fn put_race(&mut self, place: u64) -> Result<(), NoLine> {
        let mut name = Vec::new(self.alloc);
        put_name_at(&mut name, place)?;
        self.plan.put_evictions()?;
        self.plan.put_first(b"read p 0")?;
        self.plan.put_with(b"call stat /", name.as_slice(), b"")?;
        self.plan.put_with(b"drop 1 ", name.as_slice(), b"")
    }

    /// The same twice, if there is a file: then it was counted once before.
    fn add_race(&mut self) -> Result<(), NoLine> {
        let place = self.chance.below(name_count());
        let mut path = copied(self.alloc, b"/")?;
        put_name_at(&mut path, place)?;
        if !is_there(self.alloc, &mut self.beside, path.as_slice())? {
            return self.add_call(true);
        }
        self.put_race(place)?;
        self.plan.put_first(b"call stat /")?;
        self.put_race(place)
    }

    /// Writes that a cached name is dropped, in the root or in another directory.
    fn put_drop<B: Allocator>(&mut self, node: u64, line: &mut Vec<u8, B>) -> Result<(), NoLine> {
        let directory = if node == 0 || self.chance.is_one_in(2) {
            1
        } else {
            node
        };
        put(line, b"drop ")?;
        put_number(line, directory)?;
        put(line, b" ")?;
        put_name(&mut self.chance, line)
    }

    /// Writes what the kernel does between calls: time passes, a name is dropped, or a node is evicted.
    pub(crate) fn put_idle<B: Allocator>(&mut self, line: &mut Vec<u8, B>) -> Result<(), NoLine> {
        let node = self.chance.one_of(self.known.nodes.as_slice());
        match self.chance.below(8) {
            0 => put(line, b"show"),
            1..=3 if node != 0 => {
                put(line, b"evict ")?;
                put_number(line, node)
            }
            4 => {
                put(line, b"tick ")?;
                put_number(line, self.chance.one_of(&[1, 500, 1_000, 60_000]))
            }
            _ => self.put_drop(node, line),
        }
    }

    /// A round begins: a call by itself, some at once, or what the kernel does between calls.
    pub(crate) fn begin(&mut self) -> Result<(), NoLine> {
        match self.chance.below(12) {
            0 => {
                let mut line = Vec::new(self.alloc);
                self.put_idle(&mut line)?;
                keep_text(&mut self.plan.todo, line)
            }
            1 => self.plan.put_evictions(),
            2 | 3 => self.add_race(),
            4..=6 => self.add_burst(),
            7 | 8 => self.add_call(false),
            _ => self.add_call(true),
        }
    }
}
