//! How far a run of chosen lines is.

ghost use Rattle.std.specs.Prelude.{◌≡◌, ◌≢◌, ◌<◌, ◌≤◌, ◌+◌, ◌↔◌, IsTrue};
ghost use Rattle.fw_random.specs.Parts.{HasBehind, part_behind, parts_left};

use std::marker::Model;

/// How often all is forgotten: after the first time each node is counted once.
const AGAIN: u64 = 2;

/// The parts of a run.
#[derive(Clone, Copy, Debug, PartialEq, Eq)]
pub(crate) enum Part {
    /// The mount, INIT and its reply.
    Mount,
    /// What is there is looked up, and taken over.
    Adopt,
    /// What is chosen.
    Draw,
    /// Every reply is taken, and files are closed.
    Drain,
    /// Every name is looked up.
    Look,
    /// Every cached name is dropped.
    Drop,
    /// Every node is evicted.
    Evict,
    /// All is done.
    End,
}

/// The part behind this one, where all was forgotten often enough.
fn behind(part: Part) -> Part
    ensures { result ≡ part_behind part }
{
    match part {
        Part::Mount => Part::Adopt,
        Part::Adopt => Part::Draw,
        Part::Draw => Part::Drain,
        Part::Drain => Part::Look,
        Part::Look => Part::Drop,
        Part::Drop => Part::Evict,
        Part::Evict | Part::End => Part::End,
    }
}

/// In which part a run is, how many lines that part has given, how many events are still to be chosen, and how often all was
/// forgotten.
#[derive(Drop)]
pub(crate) struct Progress {
    part: Part,
    given: u64,
    events: u64,
    forgotten: u64,
}

impl Model for Progress {
    ghost use Rattle.std.specs.Coded.{codes};
    ghost use Rattle.fw_random.specs.Parts.{HasBehind, Run};

    ghost Value = { Run };

    ghost coded = { Prim.hlevel (codes) };

    ghost view = { λ p. record {
      part = p.part;
      events = p.events;
      forgotten = p.forgotten;
    } };

    ghost invariant = { λ p. HasBehind p.part p.events p.forgotten };
}

impl Progress {
    /// A run that is about to begin, with so many events.
    pub(crate) fn new(events: u64) -> Self
        ensures { result.events ≡ events }
    {
        Progress {
            part: Part::Mount,
            given: 0,
            events,
            forgotten: 0,
        }
    }

    /// The part that the run is in.
    pub(crate) fn part(&self) -> Part
        ensures { result ≡ self.now.part }
    {
        self.part
    }

    /// How many lines it has given in this part.
    pub(crate) fn given(&self) -> u64 {
        self.given
    }

    /// Whether events are still to be chosen.
    pub(crate) fn has_events(&self) -> bool
        ensures { IsTrue result ↔ (0 < self.now.events) }
    {
        self.events > 0
    }

    /// Whether all was forgotten once.
    pub(crate) fn is_forgotten_once(&self) -> bool {
        self.forgotten == 1
    }

    /// What is behind a run in its part.
    pub(crate) fn lemma_behind(&self)
        ensures { HasBehind self.now.part self.now.events self.now.forgotten }
    {
        let _ = &self.part;
    }

    /// A line was given in this part.
    pub(crate) fn give(&mut self)
        ensures { self.new ≡ self.old }
    {
        self.given = self.given.saturating_add(1);
    }

    /// An event was chosen.
    pub(crate) fn choose(&mut self)
        ensures one { self.old.events ≤ self.new.events + 1 }
        ensures same { (self.new.part ≡ self.old.part) × (self.new.forgotten ≡ self.old.forgotten) }
    {
        self.events = self.events.saturating_sub(1);
    }

    /// The next part begins: behind the last look all is forgotten, and looked up again twice.
    pub(crate) fn go_on(&mut self)
        requires chosen { self.old.part ≡ Part.Draw → self.old.events ≡ 0 }
        requires some { self.old.part ≢ Part.End }
        ensures events { self.new.events ≡ self.old.events }
        ensures fewer { parts_left self.new.part self.new.forgotten < parts_left self.old.part self.old.forgotten }
    {
        if self.part == Part::Evict && self.forgotten < AGAIN {
            self.forgotten += 1;
            self.part = Part::Look;
        } else {
            self.part = behind(self.part);
        }
        self.given = 0;
    }
}
