//! What is printed once a link is lost, worked out from what the row prints without a loss.

use std::alloc::{AllocError, Global};
use std::str::Lines;

/// The number behind a word, where a line begins with that word and a number.
fn number_behind(word: &str, line: &str) -> Option<u64> {
    let words = line.strip_prefix(word)?;
    let number = match words.split_once(' ') {
        Some((number, _)) => number,
        None => words,
    };
    number.parse().ok()
}

/// Which call a line answers.
fn answered_call(line: &str) -> Option<u64> {
    number_behind("answer ", line)
}

/// The calls that these lines begin and do not answer, in rising number.
fn unanswered(alloc: Global, lines: &str) -> Result<Vec<u64>, AllocError> {
    let mut calls = Vec::new(alloc);
    for line in lines.lines() {
        if let Some(call) = number_behind("call ", line) {
            calls.push(call)?;
        }
        if let Some(answered) = answered_call(line) {
            calls.retain(|call| *call != answered);
        }
    }
    Ok(calls)
}

/// The line that answers a call, among the answers with which the lines begin: those of the event before them.
fn answer_at_once(lines: &str, call: u64) -> Option<&str> {
    for line in lines.lines() {
        let answered = answered_call(line)?;
        if answered == call {
            return Some(line);
        }
    }
    None
}

/// Whether a line answers a call ECONNABORTED, as an abort does.
fn is_aborted(line: &str, call: u64) -> bool {
    answered_call(line) == Some(call) && line.ends_with(" 103")
}

/// Whether these lines begin with an answer of each of these calls: what the event answers at once in the row, and else
/// ECONNABORTED.
fn are_answers(calls: &[u64], rest: &str, printed: &mut Lines<'_>) -> bool {
    for call in calls {
        let Some(line) = printed.next() else {
            return false;
        };
        let is_wanted = match answer_at_once(rest, *call) {
            Some(answer) => line == answer,
            None => is_aborted(line, *call),
        };
        if !is_wanted {
            return false;
        }
    }
    true
}

/// Whether a line is printed after a loss where the row has this one: each event is refused, and the kernel counts no
/// node. Which nodes the server holds the row does not say.
fn is_after(in_row: &str, printed: &str) -> bool {
    if in_row.starts_with("kernel") {
        return printed == "kernel";
    }
    if in_row.starts_with("server") {
        return printed.starts_with("server");
    }
    printed == "refused 10 LinkLost"
}

/// Whether these lines refuse the events that the row has behind the loss. A refused one has no answer and no frame.
fn are_refusals(rest: &str, printed: &mut Lines<'_>) -> bool {
    for in_row in rest.lines() {
        if in_row.starts_with("answer ") || in_row.starts_with("frame ") {
            continue;
        }
        match printed.next() {
            Some(line) if is_after(in_row, line) => {}
            _ => return false,
        }
    }
    printed.next().is_none()
}

/// Whether `after` is what is printed behind `link lost`, where the row prints `before` up to the event in which it is
/// lost, and `rest` behind that.
pub(super) fn is_after_loss(
    alloc: Global,
    before: &str,
    rest: &str,
    after: &str,
) -> Result<bool, AllocError> {
    let calls = unanswered(alloc, before)?;
    let mut printed = after.lines();
    Ok(are_answers(&calls, rest, &mut printed) && are_refusals(rest, &mut printed))
}
