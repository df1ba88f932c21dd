//! A source of lines that are chosen.

ghost use Rattle.std.specs.Prelude.{◌≡◌, ◌≤◌, ◌+◌, ◌||◌, IfOk, false, if◌then◌else◌, length, nat_lt, not};
ghost use Rattle.fw_random.specs.Chances.{of_seed};
ghost use Rattle.fw_random.specs.Parts.{IsOver};

use crate::chooser::Chooser;
use crate::commented::Commented;
use crate::progress::{Part, Progress};
use fw_drive::{KernelView, LineSource, NoLine, Standing};
use std::alloc::Allocator;
use std::io::Write;

/// How the lines of a run are chosen.
#[derive(Clone, Copy, Debug, PartialEq, Eq)]
pub struct Choice {
    /// The seed: what is chosen goes by it, by what the kernel can do, and by what the server answered.
    pub seed: u64,
    /// How many lines are chosen before the end.
    pub events: u64,
    /// Whether calls are chosen too that Linux would not send.
    pub is_any: bool,
    /// Whether the tree is looked over at the end alone.
    pub is_quick: bool,
}

/// Lines that a seed chooses one after another, from what the kernel can do just then: calls and their requests, replies,
/// signals, time, and forgets. The calls are also made in a world of this project's own, and answers that differ are printed.
/// At last all replies are taken, names dropped and nodes evicted; each name is looked up again, and all is forgotten.
#[derive(Drop)]
pub struct RandomLines<A: Allocator + Copy> {
    alloc: A,
    chooser: Chooser<A>,
    progress: Progress,
    /// Whether an answer was another than in the world beside.
    has_difference: bool,
}

impl<A: Allocator + Copy> RandomLines<A> {
    /// So many events of a seed, and the lines of the mount, of looks over the tree and of the end.
    ///
    /// # Errors
    ///
    /// Out of memory.
    pub fn new(alloc: A, choice: Choice) -> Result<Self, NoLine>
        ensures seed { IfOk result (λ lines. lines.chooser.rounds.chance.generator ≡ of_seed choice.seed) }
        ensures events { IfOk result (λ lines. lines.progress.events ≡ choice.events) }
        ensures alike { IfOk result (λ lines. lines.has_difference ≡ false) }
        ensures options { IfOk result (λ lines. (lines.chooser.is_quick ≡ choice.is_quick)
            × (lines.chooser.rounds.is_linux ≡ not choice.is_any)) }
    {
        Ok(RandomLines {
            alloc,
            chooser: Chooser::new(alloc, choice.seed, !choice.is_any, choice.is_quick)?,
            progress: Progress::new(choice.events),
            has_difference: false,
        })
    }

    /// Ends the world beside.
    pub fn end(self) {
        self.chooser.end();
    }

    /// Whether an answer was another than in the world beside.
    pub fn has_difference(&self) -> bool
        ensures { result ≡ self.now.has_difference }
    {
        self.has_difference
    }

    /// Judges what calls were answered, once none is under way. Gives what is to be said of the answers, line by line.
    fn judge(&mut self) -> Result<Vec<u8, A>, NoLine>
        ensures same { self.new.progress ≡ self.old.progress }
        ensures said { IfOk result (λ said. self.new.has_difference
            ≡ self.old.has_difference || nat_lt 0 (length said.items)) }
    {
        let mut said = Vec::new(self.alloc);
        if self.progress.part() == Part::Adopt {
            self.chooser.adopt()?;
        } else {
            self.chooser.judge(&mut said)?;
        }
        if !said.is_empty() {
            self.has_difference = true;
        }
        Ok(said)
    }

    /// Writes the next line of this part. Says whether there is one: of events there is until all were chosen.
    fn put_of_part<B: Allocator>(
        &mut self,
        standing: Standing,
        line: &mut Vec<u8, B>,
    ) -> Result<bool, NoLine>
        ensures part { (self.new.progress.part ≡ self.old.progress.part)
            × (self.new.progress.forgotten ≡ self.old.progress.forgotten) }
        ensures one { IfOk result (λ is_given. self.old.progress.events
            ≤ self.new.progress.events + (if is_given then 1 else 0)) }
        ensures none { IfOk result (λ is_given. is_given ≡ false → self.old.progress.part ≡ Part.Draw
            → self.new.progress.events ≡ 0) }
        ensures same { self.new.has_difference ≡ self.old.has_difference }
    {
        let given = self.progress.given();
        let again = self.progress.is_forgotten_once();
        match self.progress.part() {
            Part::Draw => {
                if !self.progress.has_events() {
                    return Ok(false);
                }
                if self.chooser.put_drawn(standing, line)? {
                    self.progress.choose();
                }
                Ok(true)
            }
            Part::End => Ok(false),
            Part::Mount => self.chooser.put_mount(given, standing, line),
            Part::Drain => self.chooser.put_drain(standing, line),
            // Once all was forgotten, what READDIRPLUS gives is counted by that alone.
            Part::Adopt | Part::Look => self.chooser.put_look(given, again, standing, line),
            Part::Drop => self.chooser.put_next_drop(given, line),
            Part::Evict => self.chooser.put_evict(given, standing, line),
        }
    }

    /// Writes the next line, in place of what the buffer has. Says whether there is one: there is until the run is over.
    fn choose<B: Allocator>(
        &mut self,
        standing: Standing,
        line: &mut Vec<u8, B>,
    ) -> Result<bool, NoLine>
        ensures one { IfOk result (λ is_given. self.old.progress.events
            ≤ self.new.progress.events + (if is_given then 1 else 0)) }
        ensures over { IfOk result (λ is_given. is_given ≡ false → IsOver self.new.progress) }
        ensures same { self.new.has_difference ≡ self.old.has_difference }
    {
        line.clear();
        while self.progress.part() != Part::End {
            if self.put_of_part(standing, line)? {
                self.progress.give();
                return Ok(true);
            }
            self.progress.go_on();
        }
        self.progress.lemma_behind();
        Ok(false)
    }
}

impl<A: Allocator + Copy, W: Write + Drop, H: Allocator> LineSource<Commented<W, H>>
    for RandomLines<A> {
    ghost use Rattle.std.specs.Prelude.{◌∷◌, ◌++◌, [], ℕ, List, MatchBool, if◌then◌else◌};
    ghost use Rattle.std.specs.Io.KnownBytes.{Appends};
    ghost use Rattle.fw_random.specs.Comments.{commented, is_begun_behind, script_line};
    ghost use Rattle.fw_random.specs.Parts.{HasChosen, IsOver, chosen_in_turn, none_chosen};

    // Which lines are chosen no contract says, but how many at least.
    ghost gives = { λ old new lines. HasChosen old.progress new.progress lines };

    ghost is_over = { λ source. IsOver source.progress };

    /// Chooses the next line by what was printed since the one before, and prints it as a line of a script.
    fn next_line<B: Allocator, V: KernelView>(
        &mut self,
        standing: Standing,
        _kernel: &V,
        out: &mut Commented<W, H>,
        line: &mut Vec<u8, B>,
    ) -> Result<bool, NoLine>
        ensures given { IfOk result (λ is_given. MatchBool is_given
            (HasChosen self.old.progress self.new.progress (line.new.items ∷ []))
            (HasChosen self.old.progress self.new.progress [] × IsOver self.new.progress)) }
        // What is printed is what is said of answers, in comments, and behind that the line that is given, as it is. An answer
        // is known to differ where that is said of it.
        ensures printed { IfOk result (λ is_given. (said : List ℕ) × Appends (W.contents out.old.writer)
            (W.contents out.new.writer) (commented out.old.is_begun said
            ++ (if is_given then script_line (is_begun_behind out.old.is_begun said) line.new.items else []))
            × (self.new.has_difference ≡ self.old.has_difference || nat_lt 0 (length said))) }
    {
        self.chooser.note(out.text())?;
        let said = self.judge()?;
        out.put_comments(said.as_slice())?;
        out.clear();
        if !self.choose(standing, line)? {
            return Ok(false);
        }
        self.chooser.keep_line(line.as_slice())?;
        out.put_line(line.as_slice())?;
        Ok(true)
    }

    ghost stays = { λ source. none_chosen source.progress };

    ghost goes_on = { λ first mid last lines more one two.
        chosen_in_turn first.progress mid.progress last.progress lines more one two };
}
