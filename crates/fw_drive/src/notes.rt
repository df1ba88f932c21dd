//! What is kept and printed beside a driven kernel.

ghost use Rattle.std.specs.Prelude.{◌≡◌, ◌++◌, IfErr, IfOk, List, false};
ghost use Rattle.fk_syscalls.specs.declared.call.Answer.{Answer as GivenAnswer};
ghost use Rattle.fw_script.specs.Records.{answer_text};
ghost use Rattle.fw_drive.specs.Findings.{Tells, is_any_wrong};
ghost use Rattle.fw_drive.specs.Notes.{Note, notes_text};
ghost use Rattle.fw_drive.specs.Printed.{Gets, outcome_text};
ghost use Rattle.fw_drive.specs.Printing.{HasPrinted, PrintsOn, Says};
ghost use Rattle.fw_drive.specs.Runs.{IsUnprinted};

use crate::beside::Beside;
use crate::driver::Driver;
use crate::fault::{Fault, Unanswered};
use crate::fault_words::print_fault;
use crate::form::Form;
use crate::place::Place;
use crate::printing::{print_notification, print_outcome, print_raised};
use crate::stop::{Stop, flush};
use crate::watch::Watch;
use fk_drive::{Noted, Notes as FrameNotes, OtherFrame, Written};
use fuse_frames::RequestFrame;
use fuse_spec::WriteResult;
use fw_script::write_record;
use fw_world::{Answer, Event, Outcome, Record, Refusal, Tables};
use std::alloc::AllocError;
use std::io::Write;

/// What is kept beside a driven kernel: what its server is known by, and the world beside it.
#[derive(Drop)]
pub(crate) struct Notes<T: Tables> {
    watch: Watch<T::Heap>,
    beside: Option<Beside<T>>,
    /// The number of the line that is run, from 1.
    line: u64,
    /// Whether what was noted of frames is printed, or why it is not.
    pub(crate) printed: Result<(), Stop>,
    /// Whether it was printed that the server was wrong.
    pub(crate) is_wrong: bool,
}

/// The minor that an agreement says, at byte 20 of its frame (`struct fuse_init_out`).
fn minor_of(frame: &[u8]) -> Option<u8> {
    frame.get(20).copied()
}

impl<T: Tables> Notes<T> {
    /// Notes of a run whose script has this form.
    ///
    /// # Errors
    ///
    /// Out of memory.
    pub(crate) fn new(alloc: T::Heap, form: Form) -> Result<Self, Stop>
        ensures new { IfOk result (λ notes. notes.is_wrong ≡ false) }
        ensures own { IfErr result IsUnprinted }
    {
        let beside = match form {
            Form::CallsBeside => match Beside::new(alloc) {
                Ok(beside) => Some(beside),
                Err(_) => return Err(Stop::NoMemory),
            },
            Form::Events | Form::Calls => None,
        };
        Ok(Notes {
            watch: Watch::new(alloc),
            beside,
            line: 0,
            printed: Ok(()),
            is_wrong: false,
        })
    }

    /// Ends the world beside, if there is one.
    pub(crate) fn end(self) {
        let Notes {
            watch,
            beside,
            line: _,
            printed: _,
            is_wrong: _,
        } = self;
        drop(watch);
        if let Some(beside) = beside {
            beside.end();
        }
    }

    /// A line is run from now on.
    pub(crate) fn begin_line(&mut self, place: Place<'_>)
        ensures { self.new.is_wrong ≡ self.old.is_wrong }
    {
        self.line = place.number;
        if let Some(beside) = &mut self.beside {
            beside.begin_line(place.text);
        }
    }

    /// Notes what the kernel counts and awaits anew after an event.
    fn watch_outcome(&mut self, outcome: Outcome) -> Result<(), AllocError>
        ensures { self.new.is_wrong ≡ self.old.is_wrong }
    {
        match outcome {
            Outcome::Mounted => self.watch.note_mount()?,
            Outcome::Begun { call } => self.watch.note_begun(call, self.line)?,
            Outcome::Aborted => self.watch.note_abort(),
            Outcome::Evicted { node, .. } => self.watch.note_evicted(node),
            _ => {}
        }
        Ok(())
    }

    /// The same event happens in the world beside, if there is one, which refuses only where memory is out.
    fn follow(&mut self, event: &Event<'_>, outcome: Outcome) -> Result<(), Refusal>
        ensures { self.new.is_wrong ≡ self.old.is_wrong }
    {
        match &mut self.beside {
            Some(beside) => beside.follow(event, outcome),
            None => Ok(()),
        }
    }

    /// Prints what an event came to, and notes it.
    pub(crate) fn note_outcome<W: Write>(
        &mut self,
        event: &Event<'_>,
        outcome: Outcome,
        out: &mut W,
    ) -> Result<(), Stop>
        ensures printed { Gets result (W.contents out.old) (W.contents out.new) (outcome_text T.Heap outcome) }
        ensures told { self.new.is_wrong ≡ self.old.is_wrong }
        ensures own { IfErr result IsUnprinted }
    {
        if self.watch_outcome(outcome).is_err() {
            return Err(Stop::NoMemory);
        }
        match print_outcome::<T::Heap, W>(out, outcome) {
            Ok(()) => match self.follow(event, outcome) {
                Ok(()) => Ok(()),
                Err(_) => Err(Stop::NoMemory),
            },
            Err(_refused) => Err(Stop::OutputRefused),
        }
    }

    /// Compares an answer with that of the world beside, if there is one, and prints that it differs.
    fn compare<W: Write>(
        &mut self,
        call: u64,
        answer: Answer<T::Heap>,
        out: &mut W,
    ) -> Result<(), Stop>
        ensures printed { Says T.Heap result (W.contents out.old, self.old.is_wrong) (W.contents out.new, self.new.is_wrong) }
        ensures own { IfErr result IsUnprinted }
    {
        let line = self.watch.note_answered(call);
        match &mut self.beside {
            Some(beside) => match beside.compare(call, line, answer, out) {
                Ok(differs) => {
                    self.is_wrong = self.is_wrong || differs;
                    Ok(())
                }
                Err(stop) => Err(stop),
            },
            None => Ok(()),
        }
    }

    /// Prints an answer, and compares it with that of the world beside.
    pub(crate) fn note_answer<W: Write>(
        &mut self,
        call: u64,
        answer: Answer<T::Heap>,
        out: &mut W,
    ) -> Result<(), Stop>
        ensures printed { (said : List (Note T.Heap)) × Gets result (W.contents out.old) (W.contents out.new)
            (answer_text call answer ++ notes_text said) × Tells result self.old.is_wrong self.new.is_wrong (is_any_wrong said) }
        ensures own { IfErr result IsUnprinted }
    {
        let record = Record::Answered { call, answer };
        match write_record(out, &record) {
            Ok(()) => match record {
                Record::Answered { call, answer } => self.compare(call, answer, out),
                _ => Err(Stop::NoMemory),
            },
            Err(_refused) => Err(Stop::OutputRefused),
        }
    }

    /// Notes a request that was sent.
    pub(crate) fn note_sent(
        &mut self,
        driver: &Driver<T>,
        frame: &RequestFrame<T::Heap>,
    ) -> Result<(), AllocError>
        ensures { self.new.is_wrong ≡ self.old.is_wrong }
    {
        let (unique, opcode) = frame.head();
        self.watch.note_sent(driver, unique, opcode, frame.bytes())
    }

    /// The requests that wait for a reply.
    pub(crate) fn unanswered(&self) -> Option<Unanswered> {
        self.watch.unanswered()
    }

    /// Prints what the server did wrong, if it did.
    fn print_judged<W: Write>(
        &mut self,
        judged: Result<Option<Fault>, AllocError>,
        out: &mut W,
    ) -> Result<(), Stop>
        ensures printed { Says T.Heap result (W.contents out.old, self.old.is_wrong) (W.contents out.new, self.new.is_wrong) }
        ensures own { IfErr result IsUnprinted }
    {
        match judged {
            Ok(None) => Ok(()),
            Ok(Some(fault)) => match print_fault::<T::Heap, W>(out, fault) {
                Ok(()) => {
                    self.is_wrong = true;
                    Ok(())
                }
                Err(_refused) => Err(Stop::OutputRefused),
            },
            Err(_) => Err(Stop::NoMemory),
        }
    }

    /// Prints that an older agreement was handed on as one on 7.15 or 7.31, if one was.
    fn note_raised<W: Write>(written: &Written<T::Heap>, out: &mut W) -> Result<(), Stop>
        ensures printed { (said : List (Note T.Heap)) × Gets result (W.contents out.old) (W.contents out.new) (notes_text said)
            × (is_any_wrong said ≡ false) }
        ensures own { IfErr result IsUnprinted }
    {
        if !written.is_raised || written.result != WriteResult::Accepted {
            return Ok(());
        }
        match minor_of(written.frame.as_slice()) {
            Some(minor) => match print_raised::<T::Heap, W>(out, minor) {
                Ok(()) => Ok(()),
                Err(_refused) => Err(Stop::OutputRefused),
            },
            None => Ok(()),
        }
    }

    /// Prints what is to be said of a frame that was written to the kernel.
    pub(crate) fn note_written<W: Write>(
        &mut self,
        written: &Written<T::Heap>,
        out: &mut W,
    ) -> Result<(), Stop>
        ensures printed { Says T.Heap result (W.contents out.old, self.old.is_wrong) (W.contents out.new, self.new.is_wrong) }
        ensures own { IfErr result IsUnprinted }
    {
        match Self::note_raised(written, out) {
            Ok(()) => {
                let judged = self.watch.judge(written);
                self.print_judged(judged, out)
            }
            Err(stop) => Err(stop),
        }
    }

    /// Prints a notification.
    fn print_aside<W: Write>(noted: Noted, out: &mut W) -> Result<(), Stop>
        ensures printed { (said : List (Note T.Heap)) × Gets result (W.contents out.old) (W.contents out.new) (notes_text said)
            × (is_any_wrong said ≡ false) }
        ensures own { IfErr result IsUnprinted }
    {
        match noted {
            Noted::SetAside(OtherFrame::Notification { code, len }) => {
                match print_notification::<T::Heap, W>(out, code, len) {
                    Ok(()) => Ok(()),
                    Err(_refused) => Err(Stop::OutputRefused),
                }
            }
            _ => Ok(()),
        }
    }

    /// Prints a notification, or what the server did wrong at OPENDIR or RELEASEDIR.
    fn print_one<W: Write>(&mut self, noted: Noted, out: &mut W) -> Result<(), Stop>
        ensures printed { Says T.Heap result (W.contents out.old, self.old.is_wrong) (W.contents out.new, self.new.is_wrong) }
        ensures own { IfErr result IsUnprinted }
    {
        match Self::print_aside(noted, out) {
            Ok(()) => {
                let judged = self.watch.judge_noted(noted);
                self.print_judged(judged, out)
            }
            Err(stop) => Err(stop),
        }
    }

    /// Prints a notification, or what the server did wrong at OPENDIR or RELEASEDIR, and hands it on.
    fn print_noted<W: Write>(&mut self, noted: Noted, out: &mut W) -> Result<(), Stop>
        ensures { HasPrinted T.Heap result (W.contents out.old, self.old.is_wrong) (W.contents out.new, self.new.is_wrong) }
    {
        match self.print_one(noted, out) {
            Ok(()) => flush(out),
            Err(stop) => Err(stop),
        }
    }

    /// Prints how the answers of the world beside compare, if there is one.
    pub(crate) fn print_count<W: Write>(&self, out: &mut W) -> Result<(), Stop>
        ensures printed { (said : List (Note T.Heap)) × Gets result (W.contents out.old) (W.contents out.new) (notes_text said)
            × (is_any_wrong said ≡ false) }
        ensures own { IfErr result IsUnprinted }
    {
        match &self.beside {
            Some(beside) => beside.print_count(out),
            None => Ok(()),
        }
    }
}

impl<T: Tables, W: Write> FrameNotes<W> for Notes<T> {
    ghost use Rattle.fw_drive.specs.PrintingLaws.{prints_nothing, prints_then};

    // They are printed as they come, until that fails. Which notes are printed of a frame is tested alone.
    ghost notes = { λ old new had has noted. PrintsOn T.Heap old.printed new.printed
        (W.contents had, old.is_wrong) (W.contents has, new.is_wrong) };

    fn note(&mut self, noted: Noted, out: &mut W) {
        match self.printed {
            Ok(()) => self.printed = self.print_noted(noted, out),
            Err(_stop) => {}
        }
    }

    ghost stays = { λ n o. prints_nothing T.Heap n.printed (W.contents o, n.is_wrong) };

    ghost goes_on = { λ first mid last had got has h k one two. prints_then T.Heap first.printed mid.printed last.printed
        (W.contents had, first.is_wrong) (W.contents got, mid.is_wrong) (W.contents has, last.is_wrong) one two };
}
