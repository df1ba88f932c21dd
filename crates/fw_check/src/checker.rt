//! What a check keeps, and how it goes on with one line more.

ghost use Rattle.std.specs.Prelude.{◌≡◌, ◌+◌, ◌++◌, ℕ, List, IfOk, OnErr, OnOk, length};
ghost use Rattle.std.specs.Io.KnownBytes.{Appends, Keeps};
ghost use Rattle.fw_check.specs.Checks.{Checks, Judged, nothing_judged};
ghost use Rattle.fuse_text.specs.Outputs.{AppendsSome};
ghost use Rattle.fw_check.specs.Past.{remembered};
ghost use Rattle.fw_check.specs.Running.{AreLeft, IsJudgedAs, IsJudgedBy, IsKept, LineEnds, SaidEnds, remembering, seen_by};
ghost use Rattle.fw_check.specs.Summary.{line_time};

use crate::asked::keep_asked;
use crate::counts::{Counts, NOTHING};
use crate::exchanges::{note_exchange, nothing_exchanged};
use crate::form::{put_act_lines, put_leaving};
use crate::life::{Doer, first_doer};
use crate::names::{put_missing, put_removal};
use crate::options::CheckOptions;
use crate::past::{Trace, remember};
use crate::remains::Remains;
use crate::seen::{Seen, see_transfer};
use crate::standing::{Standing, count_of_node, counted_nodes, nothing_stands, open_files};
use fuse_capture::{CaptureFault, CaptureLine, read_line, read_transfer};
use fuse_judge::SessionJudge;
use fuse_sessions::{Act, Fault};
use fuse_text::{OutputRefused, Stop, write_text};
use joined_judge::start_judge;
use name_judge::NameJudge;
use std::alloc::{AllocError, Allocator, Global};
use std::collections::VecDeque;
use std::io::Write;

/// What a check keeps of the lines before: what was seen, and the counts. The buffers are kept so that few lines take memory.
#[derive(Drop)]
pub(crate) struct Checker<A: Allocator = Global> {
    pub(crate) seen: Seen<A>,
    pub(crate) counts: Counts,
    /// The frame of a line.
    pub(crate) frame: Vec<u8, A>,
    /// The acts of its transfer, and behind them the one that takes a missing name away.
    pub(crate) acts: Vec<Act, A>,
    /// The verdict on each.
    pub(crate) verdicts: Vec<Option<Fault>, A>,
    /// What is printed of a line.
    pub(crate) text: Vec<u8, A>,
}

/// The time of a line's frame, if it has one.
fn time_of(said: CaptureLine<'_>) -> Option<u64>
    ensures { result ≡ line_time said.entry }
{
    match said {
        CaptureLine::Request(frame) | CaptureLine::Written(frame, _) => frame.time,
        _ => None,
    }
}

/// Judges the transfer that a line says, leaves out the faults that are not asked for, and counts it. Gives whose its
/// first acts are, if the life of a node is asked for. Its traces are written, and not remembered yet.
fn judge_said<A: Allocator + Copy>(
    options: CheckOptions,
    number: u64,
    seen: &mut Seen<A>,
    counts: &mut Counts,
    frame: &mut Vec<u8, A>,
    acts: &mut Vec<Act, A>,
    verdicts: &mut Vec<Option<Fault>, A>,
    said: CaptureLine<'_>,
) -> Result<Doer, AllocError>
    ensures judged { IfOk result (λ doer. (j : Judged) (past : List Trace) → IsKept j (seen_by seen.old) counts.old
        → past ≡ remembered (j.past ++ seen.new.traces.items)
        → IsJudgedBy options j number said.entry acts.new.items verdicts.new.items (remembering past (seen_by seen.new)) counts.new doer) }
    ensures past { seen.new.past.items ≡ seen.old.past.items }
{
    let transfer = read_transfer(said, frame)?;
    let doer = first_doer(options.node, &seen.judge, transfer);
    let is_missing = see_transfer(seen, options.is_joined, number, transfer, acts, verdicts)?;
    note_exchange(
        options.is_summary,
        &mut seen.exchanges,
        transfer,
        time_of(said),
    )?;
    put_missing(verdicts, is_missing)?;
    keep_asked(options.only, verdicts);
    match counts.after(transfer, acts.as_slice(), verdicts.as_slice()) {
        Some(more) => {
            *counts = more;
            put_removal(acts, is_missing)?;
            Ok(doer)
        }
        None => Err(AllocError),
    }
}

/// What is left of the session that the judge has seen. Nothing changes.
pub(crate) fn remains_of<A: Allocator + Copy>(
    judge: &mut SessionJudge<A>,
    standing: &Standing<A>,
) -> Remains
    ensures { AreLeft judge.old standing.now.nodes.entries standing.now.files.entries result }
{
    Remains {
        unanswered: judge.unanswered(),
        nodes: counted_nodes(standing),
        files: open_files(standing),
    }
}

/// Hands on all that was written.
pub(crate) fn flush<W: Write>(out: &mut W) -> Result<(), OutputRefused>
    ensures { Keeps (W.contents out.old) (W.contents out.new) }
{
    match out.flush() {
        Ok(()) => Ok(()),
        Err(_) => Err(OutputRefused),
    }
}

/// Writes a text and hands it on, if there is any.
pub fn print<W: Write>(out: &mut W, text: &[u8]) -> Result<(), OutputRefused>
    ensures ok { OnOk result (Appends (W.contents out.old) (W.contents out.new) text.now) }
    ensures refused { OnErr result (AppendsSome (W.contents out.old) (W.contents out.new) text.now) }
{
    if text.is_empty() {
        return Ok(());
    }
    match write_text(out, text) {
        Ok(()) => flush(out),
        Err(refused) => Err(refused),
    }
}

impl<A: Allocator + Copy> Checker<A> {
    /// A check that has seen no line of a session, which is joined or begins.
    pub(crate) fn new(alloc: A, is_joined: bool) -> Self
        ensures { IsKept (nothing_judged is_joined) (seen_by result.seen) result.counts }
    {
        Checker {
            seen: Seen {
                judge: start_judge(alloc, is_joined),
                names: NameJudge::start(alloc, is_joined),
                standing: nothing_stands(alloc),
                exchanges: nothing_exchanged(alloc),
                past: VecDeque::new(alloc),
                traces: Vec::new(alloc),
            },
            counts: NOTHING,
            frame: Vec::new(alloc),
            acts: Vec::new(alloc),
            verdicts: Vec::new(alloc),
            text: Vec::new(alloc),
        }
    }

    /// Judges the transfer that a line says, and makes the text of its acts, in the form that is asked for, and of why the
    /// session is not judged any more. Its traces are remembered behind those of the lines before.
    fn judge_line(
        &mut self,
        options: CheckOptions,
        number: u64,
        said: CaptureLine<'_>,
    ) -> Result<(), AllocError>
        ensures { OnOk result ((j : Judged) → IsKept j (seen_by self.old.seen) self.old.counts
            → IsJudgedAs options j number said.entry self.new.acts.items self.new.verdicts.items (seen_by self.new.seen)
            self.new.counts self.new.text.items) }
    {
        let before = self.seen.judge.unjudged();
        let count = count_of_node(&self.seen.standing, options.node);
        let doer = judge_said(
            options,
            number,
            &mut self.seen,
            &mut self.counts,
            &mut self.frame,
            &mut self.acts,
            &mut self.verdicts,
            said,
        )?;
        self.text.clear();
        put_act_lines(
            &mut self.text,
            options,
            number,
            count,
            doer,
            &self.seen.past,
            self.acts.as_slice(),
            self.verdicts.as_slice(),
        )?;
        remember(&mut self.seen.past, self.seen.traces.as_slice())?;
        let after = self.seen.judge.unjudged();
        put_leaving(&mut self.text, options.form, number, before, after)
    }

    /// Judges the transfer that a line says, and prints its text.
    fn check_said<W: Write>(
        &mut self,
        options: CheckOptions,
        number: u64,
        said: CaptureLine<'_>,
        out: &mut W,
    ) -> Result<(), Stop<CaptureFault>>
        ensures { (j : Judged) → IsKept j (seen_by self.old.seen) self.old.counts
            → SaidEnds options j number said.entry (seen_by self.new.seen) self.new.counts result (W.contents out.old) (W.contents out.new) }
    {
        if self.judge_line(options, number, said).is_err() {
            return Err(Stop::NoMemory);
        }
        match print(out, self.text.as_slice()) {
            Ok(()) => Ok(()),
            Err(_) => Err(Stop::OutputRefused),
        }
    }

    /// Judges a line, and prints its text.
    pub(crate) fn check_line<W: Write>(
        &mut self,
        options: CheckOptions,
        number: u64,
        line: &[u8],
        out: &mut W,
    ) -> Result<(), Stop<CaptureFault>>
        ensures { (lines : List (List ℕ)) (j : Judged) → Checks options lines j → IsKept j (seen_by self.old.seen) self.old.counts
            → number ≡ length lines + 1
            → LineEnds options lines j line.now (seen_by self.new.seen) self.new.counts result (W.contents out.old) (W.contents out.new) }
    {
        match read_line(line) {
            Ok(None) => Ok(()),
            Ok(Some(said)) => self.check_said(options, number, said, out),
            Err(fault) => Err(Stop::BadLine { number, fault }),
        }
    }
}
