//! The same calls in a world of this project's own.

ghost use Rattle.std.specs.Prelude.{◌≡◌, IfErr, IfOk, List, false};
ghost use Rattle.fw_drive.specs.Findings.{is_any_wrong};
ghost use Rattle.fw_drive.specs.Notes.{Note, notes_text};
ghost use Rattle.fw_drive.specs.Printed.{Gets};
ghost use Rattle.fw_drive.specs.Runs.{IsUnprinted};

use crate::alike::are_alike;
use crate::asked::{Asked, is_made_otherwise, is_refused_as_above};
use crate::difference_words::{Answered, print_differing};
use crate::printing::print_compared;
use crate::stop::Stop;
use fw_reference::Reference;
use fw_world::{Answer, Call, Event, Outcome, Refusal, Tables};
use std::io::Write;

/// A world of this project's own, beside a kernel that drives another server.
#[derive(Drop)]
pub(crate) struct Beside<T: Tables> {
    alloc: T::Heap,
    reference: Reference<T>,
    asked: Asked<T::Heap>,
    /// The line that is run, and none where memory was out for it.
    line: Option<Vec<u8, T::Heap>>,
    /// The line that began the call which waits for its answer.
    words: Vec<u8, T::Heap>,
    answers: u64,
    differences: u64,
}

impl<T: Tables> Beside<T> {
    /// A world before its first mount.
    ///
    /// # Errors
    ///
    /// Out of memory.
    pub(crate) fn new(alloc: T::Heap) -> Result<Self, Refusal> {
        let reference = Reference::<T>::new(alloc)?;
        Ok(Beside {
            alloc,
            reference,
            asked: Asked::Other,
            line: None,
            words: Vec::new(alloc),
            answers: 0,
            differences: 0,
        })
    }

    /// A line is run from now on.
    pub(crate) fn begin_line(&mut self, text: &[u8]) {
        let mut line = Vec::new(self.alloc);
        self.line = match line.extend_from_slice(text) {
            Ok(()) => Some(line),
            Err(_) => None,
        };
    }

    /// Ends the world.
    pub(crate) fn end(self) {
        self.reference.end();
    }

    /// The call that has this number there is made here.
    fn begin(&mut self, call: &Call<'_>, number: u64) -> Result<(), Refusal> {
        let Ok(asked) = Asked::by(self.alloc, call) else {
            return Err(Refusal::NoMemory);
        };
        self.asked = asked;
        let Some(words) = self.line.take() else {
            return Err(Refusal::NoMemory);
        };
        self.words = words;
        self.reference.make(call, number)?;
        Ok(())
    }

    /// The same event happens in this world, if it is a mount, a call, an abort, or time that passes.
    ///
    /// # Errors
    ///
    /// Out of memory.
    pub(crate) fn follow(&mut self, event: &Event<'_>, outcome: Outcome) -> Result<(), Refusal> {
        match (event, outcome) {
            (Event::Mount { .. }, _) => self.reference.mount(),
            (Event::Call(call), Outcome::Begun { call: number }) => self.begin(call, number),
            (Event::Tick(_) | Event::Abort, _) => self.reference.follow(event),
            _ => Ok(()),
        }
    }

    /// Whether an answer to a new file whose name is there is that of an OPEN, as Linux opens what is there. The file is
    /// then open here under the number of that call.
    fn is_opened(
        &mut self,
        number: u64,
        path: &[u8],
        answer: &Answer<T::Heap>,
    ) -> Result<bool, Refusal> {
        let Some(here) = self.reference.carry(&Call::Open { path })? else {
            return Ok(false);
        };
        let Some(opened) = self.reference.collect() else {
            return Ok(false);
        };
        if are_alike(answer, &opened) {
            self.reference.note_number(number, here)?;
            return Ok(true);
        }
        // What is open here alone is closed, and nobody asks for that answer.
        self.reference.carry(&Call::Close { open_call: here })?;
        let _closed = self.reference.collect();
        Ok(false)
    }

    /// Whether an answer is right beside the one here: the same, or another that Linux gives (docs/DIFFERENCES.md).
    fn is_right(
        &mut self,
        number: u64,
        answer: &Answer<T::Heap>,
        here: &Answer<T::Heap>,
    ) -> Result<bool, Refusal> {
        match std::mem::replace(&mut self.asked, Asked::Other) {
            Asked::MoveAbove if is_refused_as_above(answer, here) => Ok(true),
            Asked::Create(path) if is_made_otherwise(answer, here) => self.is_opened(
                number,
                path.as_slice(),
                answer,
            ),
            _ => Ok(are_alike(answer, here)),
        }
    }

    /// Prints that the answer to a call, which began in the line of this number, differs from the one here, if it does. Says
    /// whether it does.
    ///
    /// # Errors
    ///
    /// The output refused, or out of memory.
    pub(crate) fn compare<W: Write>(
        &mut self,
        call: u64,
        line: u64,
        answer: Answer<T::Heap>,
        out: &mut W,
    ) -> Result<bool, Stop>
        ensures printed { (said : List (Note T.Heap)) × Gets result (W.contents out.old) (W.contents out.new) (notes_text said)
            × IfOk result (λ differs. differs ≡ is_any_wrong said) }
        ensures own { IfErr result IsUnprinted }
    {
        let Some(here) = self.reference.collect() else {
            return Ok(false);
        };
        self.answers = self.answers.saturating_add(1);
        match self.is_right(call, &answer, &here) {
            Ok(true) => Ok(false),
            Ok(false) => {
                self.differences = self.differences.saturating_add(1);
                let words = self.words.as_slice();
                let answered = Answered { call, words, line };
                print_differing(self.alloc, answered, answer, here, out)
            }
            Err(_) => Err(Stop::NoMemory),
        }
    }

    /// Prints how many answers were compared, and how many of them differ.
    ///
    /// # Errors
    ///
    /// The output refused.
    pub(crate) fn print_count<W: Write>(&self, out: &mut W) -> Result<(), Stop>
        ensures printed { (said : List (Note T.Heap)) × Gets result (W.contents out.old) (W.contents out.new) (notes_text said)
            × (is_any_wrong said ≡ false) }
        ensures own { IfErr result IsUnprinted }
    {
        match print_compared::<T::Heap, W>(out, self.answers, self.differences) {
            Ok(()) => Ok(()),
            Err(_refused) => Err(Stop::OutputRefused),
        }
    }
}
