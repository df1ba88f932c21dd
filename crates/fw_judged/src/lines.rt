//! The lines of what is judged, transfer by transfer.

ghost use Rattle.std.specs.Prelude.{◌≡◌, ◌++◌, IfOk, OnOk};
ghost use Rattle.fuse_device.specs.Transfers.{received};
ghost use Rattle.fw_judged.specs.declared.form.Form.{Form};
ghost use Rattle.fw_judged.specs.Sides.{OfKernel, OfServer};
ghost use Rattle.fw_judged.specs.Judged.{AreCounted, Got, HasJudged, IsOver, IsRight, IsStep, Judges, Seen, gave_up, lines_in, nothing_seen, state_of};

use crate::capture_line::put_capture_line;
use crate::counts::FaultCounts;
use crate::form::Form;
use crate::stage::Stage;
use crate::taking::read_written;
use fuse_judge::SessionJudge;
use fuse_protocol::Unjudged;
use fuse_sessions::{Act, Fault, Transfer};
use fw_check::{print, put_frame_lines};
use std::alloc::{AllocError, Allocator, Global};
use std::io::Write;

/// A judge of a session, and where the lines of its faults are written. The buffers are kept so that few transfers take
/// memory.
#[derive(Drop)]
pub(crate) struct FaultLines<W: Write + Drop, A: Allocator + Copy = Global> {
    alloc: A,
    pub(crate) judge: SessionJudge<A>,
    pub(crate) out: W,
    pub(crate) form: Form,
    /// How many transfers were judged.
    pub(crate) number: u64,
    pub(crate) stage: Stage,
    pub(crate) counts: FaultCounts,
    /// The acts of a transfer.
    pub(crate) acts: Vec<Act, A>,
    /// The verdict on each.
    verdicts: Vec<Option<Fault>, A>,
    /// What is written of them.
    text: Vec<u8, A>,
}

/// Puts what is written of a transfer.
fn put_lines<A: Allocator + Copy>(
    alloc: A,
    form: Form,
    text: &mut Vec<u8, A>,
    number: u64,
    transfer: Transfer<'_>,
    before: Option<Unjudged>,
    after: Option<Unjudged>,
    acts: &[Act],
    verdicts: &[Option<Fault>],
) -> Result<(), AllocError>
    ensures { OnOk result (text.new.items
        ≡ text.old.items ++ lines_in form number transfer.entry before after acts.now verdicts.now) }
{
    match form {
        Form::Faults => put_frame_lines(text, number, before, after, acts, verdicts),
        Form::Capture => put_capture_line(alloc, text, transfer),
    }
}

/// Judges the next transfer, and makes what is written of it. Gives how many transfers were judged then, and the counts.
///
/// # Errors
///
/// Out of memory. The judge may have seen the transfer.
fn judge_next<A: Allocator + Copy>(
    alloc: A,
    form: Form,
    judge: &mut SessionJudge<A>,
    number: u64,
    counts: FaultCounts,
    acts: &mut Vec<Act, A>,
    verdicts: &mut Vec<Option<Fault>, A>,
    text: &mut Vec<u8, A>,
    transfer: Transfer<'_>,
) -> Result<(u64, FaultCounts), AllocError>
    ensures { IfOk result (λ more. (s : Seen) → HasJudged s judge.old number → AreCounted s.verdicts counts
        → (later : Seen) × Judges form (λ said. said ≡ transfer.entry) s later text.new.items × HasJudged later judge.new more.0
        × AreCounted later.verdicts more.1) }
{
    let Some(next) = number.checked_add(1) else {
        return Err(AllocError);
    };
    let before = judge.unjudged();
    judge.see(transfer, acts, verdicts)?;
    let after = judge.unjudged();
    text.clear();
    put_lines(
        alloc,
        form,
        text,
        next,
        transfer,
        before,
        after,
        acts.as_slice(),
        verdicts.as_slice(),
    )?;
    match counts.after(verdicts.as_slice()) {
        Some(more) => Ok((next, more)),
        None => Err(AllocError),
    }
}

/// What is written where memory runs out.
fn gave_up_text(form: Form) -> &'static [u8]
    ensures { result.now ≡ gave_up form }
{
    match form {
        Form::Faults => b"not judged from here on: no memory\n",
        Form::Capture => b"# no memory: no more is written\n",
    }
}

impl<W: Write + Drop, A: Allocator + Copy> FaultLines<W, A> {
    /// A judge that has seen nothing.
    pub(crate) fn new(alloc: A, form: Form, out: W) -> Self
        ensures right { IsRight form (state_of result) nothing_seen }
        ensures judging { result.stage ≡ Stage.Judging }
        ensures out { result.out ≡ out }
    {
        FaultLines {
            alloc,
            judge: SessionJudge::new(alloc),
            out,
            form,
            number: 0,
            stage: Stage::Judging,
            counts: FaultCounts::new(),
            acts: Vec::new(alloc),
            verdicts: Vec::new(alloc),
            text: Vec::new(alloc),
        }
    }

    /// Says that memory ran out.
    fn give_up(&mut self)
        ensures form { self.new.form ≡ self.old.form }
        ensures counts { self.new.counts ≡ self.old.counts }
        ensures over { IsOver self.new.stage }
        ensures got { Got self.new.stage (W.contents self.old.out) (W.contents self.new.out) (gave_up self.old.form) }
    {
        self.stage = match print(&mut self.out, gave_up_text(self.form)) {
            Ok(()) => Stage::NoMemory,
            Err(_) => Stage::Refused,
        };
    }

    /// Judges the next transfer, where one is judged still, writes the lines of its faults and hands them on.
    fn judge(&mut self, transfer: Transfer<'_>)
        ensures { (f : Form) (s : Seen) → IsRight f (state_of self.old) s → self.old.stage ≡ Stage.Judging
            → IsStep f (λ said. said ≡ transfer.entry) (state_of self.old) (state_of self.new) (W.contents self.old.out)
            (W.contents self.new.out) s }
    {
        let judged = judge_next(
            self.alloc,
            self.form,
            &mut self.judge,
            self.number,
            self.counts,
            &mut self.acts,
            &mut self.verdicts,
            &mut self.text,
            transfer,
        );
        match judged {
            Ok((number, counts)) => {
                self.number = number;
                self.counts = counts;
                if print(&mut self.out, self.text.as_slice()).is_err() {
                    self.stage = Stage::Refused;
                }
            }
            Err(_) => self.give_up(),
        }
    }

    /// Judges the next transfer, writes the lines of its faults and hands them on, unless nothing is judged any more.
    pub(crate) fn see(&mut self, transfer: Transfer<'_>)
        ensures { (f : Form) (s : Seen) → IsRight f (state_of self.old) s
            → IsStep f (λ said. said ≡ transfer.entry) (state_of self.old) (state_of self.new) (W.contents self.old.out)
            (W.contents self.new.out) s }
    {
        match self.stage {
            Stage::Judging => self.judge(transfer),
            Stage::NoMemory | Stage::Refused => {}
        }
    }

    /// The same of a kernel's request.
    pub(crate) fn see_request(&mut self, frame: &[u8])
        ensures { (f : Form) (s : Seen) → IsRight f (state_of self.old) s
            → IsStep f (λ said. OfKernel s (received frame.now) said) (state_of self.old) (state_of self.new)
            (W.contents self.old.out) (W.contents self.new.out) s }
    {
        self.see(Transfer::Request(frame));
    }

    /// Judges what a server writes, as it is taken, where that is still judged.
    fn judge_written(&mut self, frame: &[u8])
        ensures { (f : Form) (s : Seen) → IsRight f (state_of self.old) s → self.old.stage ≡ Stage.Judging
            → IsStep f (λ said. OfServer s (received frame.now) said) (state_of self.old) (state_of self.new)
            (W.contents self.old.out) (W.contents self.new.out) s }
    {
        match read_written(&self.judge, &mut self.acts, frame) {
            Ok(transfer) => self.judge(transfer),
            Err(_) => self.give_up(),
        }
    }

    /// Judges what a server writes, as it is taken, writes the lines of its faults and hands them on, unless nothing is
    /// judged any more.
    pub(crate) fn see_written(&mut self, frame: &[u8])
        ensures { (f : Form) (s : Seen) → IsRight f (state_of self.old) s
            → IsStep f (λ said. OfServer s (received frame.now) said) (state_of self.old) (state_of self.new)
            (W.contents self.old.out) (W.contents self.new.out) s }
    {
        match self.stage {
            Stage::Judging => self.judge_written(frame),
            Stage::NoMemory | Stage::Refused => {}
        }
    }
}
