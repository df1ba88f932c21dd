//! The parts of a file, read from its lines.

ghost use Rattle.std.specs.Prelude.{◌≡◌, ◌↔◌, ◌++◌, ◌∷◌, [], ℕ, List, IfErr, IfOk, IsTrue, MatchOption};
ghost use Rattle.std.specs.Prelude.{MatchResult, OnOk, codes, option_map};
ghost use Rattle.fuse_text.specs.Lines.{lines_of};
ghost use Rattle.fw_orders.specs.FileLines.{FileLine as FileLineValue, HaveParts, IsAlone, IsCall, IsStep, IsTogether, Joins};
ghost use Rattle.fw_orders.specs.FileLines.{JoinsNot, LineSays, LineSaysNot, Make, Says, SaysNot, step_said, together};
ghost use Rattle.fw_orders.specs.Reading.{Added, AddsNot, GroupTaken, IsFull, IsJoined, LeavesOut, ReadingEnds, file_line_of, stopped_at, together_of};
ghost use Rattle.fw_orders.specs.Saying.{act_of, acts_of, parts_of, step_of};

use crate::act::{Act, WriteCall};
use crate::fault::LinesFault;
use crate::part::Part;
use crate::stop::Stop;
use fw_script::{Line, LineFault, Lines, is_passed_over, read_line};
use fw_world::Event;
use std::alloc::Allocator;

/// The most calls that run together.
const MAX_TOGETHER: usize = 8;

/// The most lines that a file may have, but for comments and empty ones.
const MAX_LINES: usize = 256;

/// What begins a line that runs together with its neighbours.
const TOGETHER: &[u8] = b"together ";

/// A line that runs together with its neighbours.
#[derive(Clone, Copy)]
enum Together<'a> {
    Call(Act<'a>),
    /// The single step among calls.
    Step(Act<'a>),
}

/// What a line is in a file.
#[derive(Clone, Copy)]
enum FileLine<'a> {
    Alone(Act<'a>),
    Together(Together<'a>),
}

/// Whether a line is a call.
fn is_call(line: &Line<'_>) -> bool
    ensures { IsTrue result ↔ IsCall line.now }
{
    matches!(line, Line::CallWrite { .. } | Line::Event(Event::Call(_)))
}

/// Whether a line may come among calls: a signal for a call, or time that passes.
fn is_step(line: &Line<'_>) -> bool
    ensures { IsTrue result ↔ IsStep line.now }
{
    matches!(
        line,
        Line::Event(Event::Interrupt { .. }) | Line::Event(Event::Tick(_))
    )
}

/// Whether a line stands alone: a call, time that passes, a name that is dropped, or an eviction.
fn is_alone(line: &Line<'_>) -> bool
    ensures { IsTrue result ↔ IsAlone line.now }
{
    match line {
        Line::Event(Event::Tick(_) | Event::DropName { .. } | Event::Evict(_)) => true,
        other => is_call(other),
    }
}

/// The step that a line is.
fn act_of_line<'a>(line: Line<'a>, text: &'a [u8]) -> Option<Act<'a>>
    ensures { option_map act_of result ≡ step_said text.now line.entry }
{
    match line {
        Line::Event(event) => Some(Act::Event { event, text }),
        Line::CallWrite {
            open_call,
            offset,
            hex,
        } => {
            let call = WriteCall {
                open_call,
                offset,
                hex,
            };
            Some(Act::Write { call, text })
        }
        Line::Show => None,
    }
}

/// What a line says that stands alone.
fn read_alone(text: &[u8]) -> Result<Act<'_>, LineFault>
    ensures { MatchResult result (λ act. Says IsAlone text.now (act_of act)) (SaysNot IsAlone text.now) }
{
    let line = match read_line(text) {
        Ok(line) => line,
        Err(fault) => return Err(fault),
    };
    let Some(act) = act_of_line(line, text) else {
        return Err(LineFault::UnknownEvent);
    };
    if is_alone(&line) {
        Ok(act)
    } else {
        Err(LineFault::UnknownEvent)
    }
}

/// Whether a text is the word `forget` alone.
fn is_forget(text: &[u8]) -> bool
    ensures { IsTrue result ↔ (text.now ≡ codes "forget") }
{
    matches!(text, b"forget")
}

/// What stands behind `together`: a call, or the single step, which forgets, signals a call or lets time pass.
fn read_together(text: &[u8]) -> Result<Together<'_>, LineFault>
    ensures { MatchResult result (λ one. Joins text.now (together_of one)) (JoinsNot text.now) }
{
    if is_forget(text) {
        return Ok(Together::Step(Act::Forget));
    }
    let line = match read_line(text) {
        Ok(line) => line,
        Err(fault) => return Err(fault),
    };
    let Some(act) = act_of_line(line, text) else {
        return Err(LineFault::UnknownEvent);
    };
    if is_call(&line) {
        Ok(Together::Call(act))
    } else if is_step(&line) {
        Ok(Together::Step(act))
    } else {
        Err(LineFault::UnknownEvent)
    }
}

/// What stands behind `together`, where a line begins with that.
fn behind_together(text: &[u8]) -> Option<&[u8]>
    ensures { MatchOption result ((rest : List ℕ) → ¬ (IsTogether text.now rest)) (λ rest. IsTogether text.now rest.now) }
{
    text.strip_prefix(TOGETHER)
}

/// What a line of a file says.
fn read_file_line(text: &[u8]) -> Result<FileLine<'_>, LineFault>
    ensures { MatchResult result (λ line. LineSays text.now (file_line_of line)) (LineSaysNot text.now) }
{
    match behind_together(text) {
        Some(rest) => match read_together(rest) {
            Ok(line) => Ok(FileLine::Together(line)),
            Err(fault) => Err(fault),
        },
        None => match read_alone(text) {
            Ok(act) => Ok(FileLine::Alone(act)),
            Err(fault) => Err(fault),
        },
    }
}

/// Why a line is not added.
enum NotAdded {
    NoMemory,
    Fault(LinesFault),
}

/// Adds one thing more.
fn push<X: Drop, A: Allocator>(list: &mut Vec<X, A>, x: X) -> Result<(), NotAdded>
    ensures added { OnOk result (list.new.items ≡ list.old.items ++ x ∷ []) }
    ensures refused { IfErr result (λ why. why ≡ NotAdded.NoMemory) }
{
    match list.push(x) {
        Ok(()) => Ok(()),
        Err(_) => Err(NotAdded::NoMemory),
    }
}

/// Takes the group that the parts end with, or begins one.
fn take_group<'a, A: Allocator + Copy>(
    alloc: A,
    parts: &mut Vec<Part<'a, A>, A>,
) -> Result<(Vec<Act<'a>, A>, Option<Act<'a>>), NotAdded>
    ensures taken { IfOk result (λ group. GroupTaken (parts_of parts.old.items) (parts_of parts.new.items)
        (acts_of group.0.items) (step_of group.1)) }
    ensures refused { IfErr result (λ why. why ≡ NotAdded.NoMemory) }
{
    match parts.pop() {
        Some(Part::Group { calls, step }) => Ok((calls, step)),
        Some(Part::Alone(act)) => {
            push(parts, Part::Alone(act))?;
            Ok((Vec::new(alloc), None))
        }
        None => Ok((Vec::new(alloc), None)),
    }
}

/// Adds a line to a group.
fn add_to_group<'a, A: Allocator>(
    calls: &mut Vec<Act<'a>, A>,
    step: &mut Option<Act<'a>>,
    line: Together<'a>,
) -> Result<(), NotAdded>
    ensures added { OnOk result (IsJoined (acts_of calls.old.items) (step_of step.old) (together_of line.entry)
        (acts_of calls.new.items) (step_of step.new)) }
    ensures refused { IfErr result (IsFull (acts_of calls.old.items) (step_of step.old) (together_of line.entry)) }
{
    match line {
        Together::Call(_) if calls.len() >= MAX_TOGETHER => {
            Err(NotAdded::Fault(LinesFault::TooManyCalls))
        }
        Together::Call(act) => push(calls, act),
        Together::Step(_) if step.is_some() => Err(NotAdded::Fault(LinesFault::SecondStep)),
        Together::Step(act) => {
            *step = Some(act);
            Ok(())
        }
    }
}

/// Adds a line that runs together with others to the group that the parts end with, or to a new one.
fn add_together<'a, A: Allocator + Copy>(
    alloc: A,
    parts: &mut Vec<Part<'a, A>, A>,
    line: Together<'a>,
) -> Result<(), NotAdded>
    ensures added { OnOk result ((said : List FileLineValue) → Make said (parts_of parts.old.items)
        → Make (said ++ together (together_of line.entry) ∷ []) (parts_of parts.new.items)) }
    ensures refused { IfErr result (λ why. (said : List FileLineValue) → Make said (parts_of parts.old.items)
        → LeavesOut said (together_of line.entry) why) }
{
    let (mut calls, mut step) = take_group(alloc, parts)?;
    match add_to_group(&mut calls, &mut step, line) {
        Ok(()) => push(parts, Part::Group { calls, step }),
        Err(why) => Err(why),
    }
}

/// Adds a line to the parts.
fn add_line<'a, A: Allocator + Copy>(
    alloc: A,
    parts: &mut Vec<Part<'a, A>, A>,
    text: &'a [u8],
) -> Result<(), NotAdded>
    ensures added { OnOk result ((said : List FileLineValue) → Make said (parts_of parts.old.items)
        → Added said text.now (parts_of parts.new.items)) }
    ensures refused { IfErr result (λ why. (said : List FileLineValue) → Make said (parts_of parts.old.items)
        → AddsNot said text.now why) }
{
    match read_file_line(text) {
        Err(fault) => Err(NotAdded::Fault(LinesFault::Line(fault))),
        Ok(FileLine::Alone(act)) => push(parts, Part::Alone(act)),
        Ok(FileLine::Together(line)) => add_together(alloc, parts, line),
    }
}

/// Why the lines are not kept, where one is not added.
fn stop_at(number: usize, why: NotAdded) -> Stop
    ensures { result ≡ stopped_at number why }
{
    match why {
        NotAdded::NoMemory => Stop::NoMemory,
        NotAdded::Fault(fault) => Stop::BadLine { number, fault },
    }
}

/// The parts of a file.
///
/// # Errors
///
/// The first line with a fault, by its number from 1; or out of memory.
pub(crate) fn read_parts<A: Allocator + Copy>(
    alloc: A,
    text: &[u8],
) -> Result<Vec<Part<'_, A>, A>, Stop>
    ensures parts { IfOk result (λ parts. HaveParts (lines_of text.now) (parts_of parts.items)) }
    ensures refused { IfErr result (ReadingEnds text.now) }
{
    let mut parts = Vec::new(alloc);
    let mut number = 0;
    let mut lines = 0;
    for line in Lines::of(text) {
        number += 1;
        if is_passed_over(line) {
            continue;
        }
        if lines >= MAX_LINES {
            return Err(Stop::BadLine {
                number,
                fault: LinesFault::TooManyLines,
            });
        }
        lines += 1;
        match add_line(alloc, &mut parts, line) {
            Ok(()) => {}
            Err(why) => return Err(stop_at(number, why)),
        }
    }
    Ok(parts)
}
