//! The lines of each part of a run.

ghost use Rattle.std.specs.Prelude.{◌≡◌, IfOk};
ghost use Rattle.fw_random.specs.Chances.{of_seed};

use crate::calls::{name_count, put_close, put_name_at};
use crate::rounds::Rounds;
use crate::text::{put, put_number, word_at};
use fw_drive::{NoLine, Standing};
use std::alloc::Allocator;

/// How many nodes the last part of a run drops names of and evicts.
const NODES: u64 = 256;

/// How many lines are chosen between two looks over the tree.
const LOOK: u64 = 100;

/// Longer than a name is valid, in milliseconds.
const LONG: &[u8] = b"tick 90000000";

/// What lines are chosen by.
#[derive(Drop)]
pub(crate) struct Chooser<A: Allocator + Copy> {
    rounds: Rounds<A>,
    /// How many lines are chosen before the next look over the tree.
    unlooked: u64,
    /// Whether the tree is looked over at the end alone.
    is_quick: bool,
    /// Whether calls run at once.
    is_burst: bool,
}

/// Whether a line begins a call.
fn is_call(line: &[u8]) -> bool {
    word_at(line, 0) == b"call".as_slice()
}

impl<A: Allocator + Copy> Chooser<A> {
    /// What chooses by a seed.
    ///
    /// # Errors
    ///
    /// Out of memory.
    pub(crate) fn new(alloc: A, seed: u64, is_linux: bool, is_quick: bool) -> Result<Self, NoLine>
        ensures seed { IfOk result (λ chooser. chooser.rounds.chance.generator ≡ of_seed seed) }
        ensures options { IfOk result (λ chooser. (chooser.is_quick ≡ is_quick) × (chooser.rounds.is_linux ≡ is_linux)) }
    {
        Ok(Chooser {
            rounds: Rounds::new(alloc, seed, is_linux)?,
            unlooked: LOOK,
            is_quick,
            is_burst: false,
        })
    }

    /// Ends the world beside.
    pub(crate) fn end(self) {
        self.rounds.end();
    }

    /// Takes what was printed since the last line.
    pub(crate) fn note(&mut self, text: &[u8]) -> Result<(), NoLine> {
        self.rounds.known.note(text)
    }

    /// Keeps the line that is run next.
    pub(crate) fn keep_line(&mut self, line: &[u8]) -> Result<(), NoLine> {
        self.rounds.known.keep_line(line)
    }

    /// Writes a line that reads a request which may be read, or takes a frame that is to come. Says whether there is one.
    fn put_frame<B: Allocator>(
        &mut self,
        standing: Standing,
        line: &mut Vec<u8, B>,
    ) -> Result<bool, NoLine> {
        if standing.is_interrupting {
            put(line, b"read i")?;
            return Ok(true);
        }
        let awaits = !self.rounds.known.sent.is_empty();
        if standing.pending > 0 && !(awaits && self.rounds.chance.is_one_in(2)) {
            put(line, b"read p ")?;
            put_number(line, self.rounds.chance.below(standing.pending))?;
            return Ok(true);
        }
        if awaits {
            put(line, b"write")?;
            return Ok(true);
        }
        Ok(false)
    }

    /// Writes a line that sends a forget, or more up to so many, if there is one.
    fn put_forget<B: Allocator>(
        &mut self,
        standing: Standing,
        most: u64,
        line: &mut Vec<u8, B>,
    ) -> Result<bool, NoLine> {
        if standing.is_forgetting {
            put(line, b"read f ")?;
            put_number(line, self.rounds.chance.below(most).saturating_add(1))?;
        }
        Ok(standing.is_forgetting)
    }

    /// Whether no call, request or reply is under way.
    fn is_quiet(&self, standing: Standing) -> bool {
        standing.calls == 0
            && standing.pending == 0
            && !standing.is_interrupting
            && self.rounds.known.sent.is_empty()
    }

    /// Writes the mount, with validities, or what belongs to INIT. Says whether INIT is still to be answered.
    pub(crate) fn put_mount<B: Allocator>(
        &mut self,
        given: u64,
        standing: Standing,
        line: &mut Vec<u8, B>,
    ) -> Result<bool, NoLine> {
        if given == 0 {
            self.rounds.beside.mount()?;
            put(line, b"mount 0 0")?;
            return Ok(true);
        }
        self.put_frame(standing, line)
    }

    /// Writes that a call is signalled.
    fn put_signal<B: Allocator>(&mut self, line: &mut Vec<u8, B>) -> Result<(), NoLine> {
        let call = self
            .rounds
            .chance
            .one_of(self.rounds.known.calls.as_slice());
        self.rounds.known.group.is_signalled = true;
        put(line, b"intr ")?;
        put_number(line, call)?;
        if self.rounds.chance.is_one_in(3) {
            put(line, b" fatal")
        } else {
            put(line, b" soft")
        }
    }

    /// Writes the first of the lines that are to come, or what goes before it: a call is begun where nothing is under way.
    /// Says whether there is one.
    fn put_todo<B: Allocator>(
        &mut self,
        standing: Standing,
        line: &mut Vec<u8, B>,
    ) -> Result<bool, NoLine> {
        let is_quiet = self.is_quiet(standing);
        let waits = match self.rounds.plan.todo.as_slice() {
            [.., next] => is_call(next.as_slice()) && !is_quiet,
            [] => return Ok(false),
        };
        if waits && self.put_frame(standing, line)? {
            return Ok(true);
        }
        match self.rounds.plan.todo.pop() {
            Some(next) => {
                put(line, next.as_slice())?;
                Ok(true)
            }
            None => Ok(false),
        }
    }

    /// Writes the next call of this round. Says whether there is one.
    fn put_round<B: Allocator>(&mut self, line: &mut Vec<u8, B>) -> Result<bool, NoLine> {
        match self.rounds.plan.round.pop() {
            Some(next) => {
                put(line, next.as_slice())?;
                Ok(true)
            }
            None => Ok(false),
        }
    }

    /// Writes a line while something is under way: of calls at once one may be signalled, and names dropped.
    fn put_under_way<B: Allocator>(
        &mut self,
        standing: Standing,
        line: &mut Vec<u8, B>,
    ) -> Result<(), NoLine> {
        if self.is_burst {
            match self.rounds.chance.below(16) {
                0..=4 if self.put_round(line)? => return Ok(()),
                5 => return self.rounds.put_idle(line),
                6 | 7 if standing.calls > 0 => return self.put_signal(line),
                8 if self.put_forget(standing, 2, line)? => return Ok(()),
                _ => {}
            }
        }
        if self.put_frame(standing, line)? || self.put_round(line)? {
            return Ok(());
        }
        put(line, b"show")
    }

    /// Writes a line where nothing is under way: the next of a look or of a round, each of which begins where there is none.
    fn put_next<B: Allocator>(
        &mut self,
        standing: Standing,
        line: &mut Vec<u8, B>,
    ) -> Result<(), NoLine> {
        self.rounds.plan.end_look();
        if self.rounds.chance.is_one_in(2) && self.put_forget(standing, 2, line)? {
            return Ok(());
        }
        if self.rounds.plan.round.is_empty() {
            if self.unlooked == 0 && !self.is_quick {
                self.unlooked = LOOK;
                self.rounds.plan.begin_look(false)?;
            } else {
                self.rounds.begin()?;
                self.is_burst = self.rounds.plan.round.len() > 1;
            }
        }
        if self.put_todo(standing, line)? || self.put_round(line)? {
            return Ok(());
        }
        put(line, b"show")
    }

    /// Writes a line that is chosen. Says whether it is one of the events, and none of a look over the tree.
    pub(crate) fn put_drawn<B: Allocator>(
        &mut self,
        standing: Standing,
        line: &mut Vec<u8, B>,
    ) -> Result<bool, NoLine> {
        let is_event = !self.rounds.plan.is_looking();
        if is_event {
            self.unlooked = self.unlooked.saturating_sub(1);
        }
        if self.put_todo(standing, line)? {
            return Ok(is_event);
        }
        if self.is_quiet(standing) {
            self.put_next(standing, line)?;
        } else {
            self.put_under_way(standing, line)?;
        }
        Ok(is_event)
    }

    /// Writes a line that takes what is under way, or closes a file. Says whether there is one.
    pub(crate) fn put_drain<B: Allocator>(
        &mut self,
        standing: Standing,
        line: &mut Vec<u8, B>,
    ) -> Result<bool, NoLine> {
        self.rounds.plan.end_look();
        if self.put_todo(standing, line)?
            || self.put_frame(standing, line)?
            || self.put_forget(standing, 1, line)?
            || self.put_round(line)?
        {
            return Ok(true);
        }
        let file = match self.rounds.known.open.as_slice() {
            [file, ..] => *file,
            [] => return Ok(false),
        };
        put_close(&mut self.rounds.known, line, file)?;
        Ok(true)
    }

    /// Writes a line of the look over the tree, by READDIRPLUS or not. Says whether there is one.
    pub(crate) fn put_look<B: Allocator>(
        &mut self,
        given: u64,
        lists_entries: bool,
        standing: Standing,
        line: &mut Vec<u8, B>,
    ) -> Result<bool, NoLine> {
        if given == 0 {
            self.rounds.plan.begin_look(lists_entries)?;
        }
        if self.put_todo(standing, line)? || self.put_frame(standing, line)? {
            return Ok(true);
        }
        self.rounds.plan.end_look();
        Ok(false)
    }

    /// Writes that the next name is dropped, of those in each node. Says whether there is one.
    pub(crate) fn put_next_drop<B: Allocator>(
        &mut self,
        given: u64,
        line: &mut Vec<u8, B>,
    ) -> Result<bool, NoLine> {
        if given == 0 {
            put(line, b"show")?;
            return Ok(true);
        }
        let place = given - 1;
        let names = name_count().max(1);
        let directory = place / names;
        let node = if directory == 0 {
            1
        } else {
            match self
                .rounds
                .known
                .nodes
                .as_slice()
                .get((directory - 1) as usize)
            {
                Some(node) if directory < NODES => *node,
                _ => return Ok(false),
            }
        };
        put(line, b"drop ")?;
        put_number(line, node)?;
        put(line, b" ")?;
        put_name_at(line, place % names)?;
        Ok(true)
    }

    /// Writes that the next node is evicted. Says whether there is one.
    fn put_next_evict<B: Allocator>(
        &mut self,
        given: u64,
        line: &mut Vec<u8, B>,
    ) -> Result<bool, NoLine> {
        match self.rounds.known.nodes.as_slice().get(given as usize) {
            Some(node) if given < NODES => {
                put(line, b"evict ")?;
                put_number(line, *node)?;
                Ok(true)
            }
            _ => Ok(false),
        }
    }

    /// Writes that the next node is evicted, or a line that takes what is under way then, or sends a forget. Says whether there
    /// is one.
    pub(crate) fn put_evict<B: Allocator>(
        &mut self,
        given: u64,
        standing: Standing,
        line: &mut Vec<u8, B>,
    ) -> Result<bool, NoLine> {
        if self.put_next_evict(given, line)? || self.put_frame(standing, line)? {
            Ok(true)
        } else {
            self.put_forget(standing, 1, line)
        }
    }

    /// Plans that the nodes are evicted that were shown, where that was asked for.
    fn plan_evictions(&mut self) -> Result<(), NoLine> {
        let rounds = &mut self.rounds;
        if rounds.plan.evicts && word_at(rounds.known.line.as_slice(), 0) == b"show".as_slice() {
            rounds.plan.evicts = false;
            for node in rounds.known.nodes.as_slice() {
                rounds.plan.put_numbered(b"evict ", *node, b"")?;
            }
        }
        Ok(())
    }

    /// Takes over what calls were answered into the world beside, once none is under way, and plans what follows.
    pub(crate) fn adopt(&mut self) -> Result<(), NoLine> {
        self.plan_evictions()?;
        let rounds = &mut self.rounds;
        if rounds.known.group.is_over() {
            rounds.known.group.adopt(&mut rounds.beside)?;
            rounds.known.group.follow(&mut rounds.plan)?;
            rounds.known.group.clear();
        }
        Ok(())
    }

    /// Compares what calls were answered with what the world beside answers, once none is under way, and plans what follows.
    /// Appends what is to be said of each answer that is another.
    pub(crate) fn judge(&mut self, said: &mut Vec<u8, A>) -> Result<(), NoLine> {
        self.plan_evictions()?;
        let rounds = &mut self.rounds;
        if !rounds.known.group.is_over() {
            return Ok(());
        }
        rounds.known.group.judge(&mut rounds.beside, said)?;
        rounds.known.group.follow(&mut rounds.plan)?;
        if rounds.known.group.is_many() && rounds.known.group.has_change() {
            rounds.plan.put_first(LONG)?;
        }
        rounds.known.group.clear();
        Ok(())
    }
}
