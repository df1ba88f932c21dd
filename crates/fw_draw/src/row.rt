//! The row of an event.

use crate::label::Column;
use crate::nodes::put_changes;
use crate::picture::Picture;
use crate::row_text::{put_event, put_record};
use fuse_spec::NodeCount;
use fw_world::{Event, Outcome, Record, Taken, WriteResult};
use std::alloc::{AllocError, Allocator};

/// How far above a row's middle a message is taken, and below it one is put, where its event does both.
const APART: u64 = 3;

/// On which side an event happens.
fn column_of(event: &Event<'_>) -> Column {
    match event {
        Event::Take(_) | Event::Do(_) | Event::Again(_) | Event::Settle(_) => Column::ServerEvents,
        _ => Column::KernelEvents,
    }
}

/// The place of the message that an event takes from its link.
fn place_of(event: &Event<'_>) -> u64 {
    match event {
        Event::Take(place) | Event::Write(place) | Event::Settle(place) => *place,
        _ => 0,
    }
}

/// A request is taken, and an INTERRUPT answered EAGAIN.
fn draw_taken<A: Allocator + Copy>(
    picture: &mut Picture<A>,
    place: u64,
    word: Taken,
) -> Result<(), AllocError> {
    let y = picture.y;
    if word != Taken::Again {
        picture.requests.take(place, y, false);
        return Ok(());
    }
    picture.requests.take(place, y.saturating_sub(APART), false);
    picture.replies.put(y.saturating_add(APART), false)
}

/// A copy of a reply is taken, and its result put.
fn draw_written<A: Allocator + Copy>(
    picture: &mut Picture<A>,
    place: u64,
    written: WriteResult,
) -> Result<(), AllocError> {
    let y = picture.y;
    let is_refused = written != WriteResult::Accepted;
    picture
        .replies
        .take(place, y.saturating_sub(APART), is_refused);
    picture.results.put(y.saturating_add(APART), is_refused)
}

/// What an event that was not refused does to links and calls.
fn draw_outcome<A: Allocator + Copy>(
    picture: &mut Picture<A>,
    place: u64,
    outcome: Outcome,
) -> Result<(), AllocError> {
    let y = picture.y;
    match outcome {
        Outcome::Mounted | Outcome::Aborted => {
            picture.lose_messages();
            Ok(())
        }
        Outcome::Begun { call } => picture.calls.begin(call, y),
        Outcome::Read { .. } => picture.requests.put(y, false),
        Outcome::Taken { word, .. } => draw_taken(picture, place, word),
        Outcome::Done { .. } | Outcome::SentAgain { .. } => picture.replies.put(y, false),
        Outcome::Written { result, .. } => draw_written(picture, place, result),
        Outcome::Settled { .. } => {
            picture.results.take(place, y, false);
            Ok(())
        }
        _ => Ok(()),
    }
}

/// The answers that an event gives, each under the texts before it.
fn draw_answers<A: Allocator + Copy>(
    picture: &mut Picture<A>,
    answers: &[Record<A>],
    text: &mut Vec<u8, A>,
) -> Result<(), AllocError> {
    for answer in answers {
        if let Record::Answered { call, .. } = answer {
            picture.next_line();
            put_record(text, answer)?;
            picture.add_text(Column::KernelEvents, text.as_slice())?;
            picture.calls.answer(*call, picture.y);
        }
    }
    Ok(())
}

/// Draws the row of an event, whose line this is, by its records.
pub(crate) fn draw_event<A: Allocator + Copy>(
    picture: &mut Picture<A>,
    event: &Event<'_>,
    line: &[u8],
    records: &[Record<A>],
    text: &mut Vec<u8, A>,
) -> Result<(), AllocError> {
    let Some((first, answers)) = records.split_first() else {
        return Ok(());
    };
    put_event(text, line, first)?;
    picture.add_text(column_of(event), text.as_slice())?;
    if let Record::Outcome(outcome) = first {
        draw_outcome(picture, place_of(event), *outcome)?;
    }
    draw_answers(picture, answers, text)
}

/// Draws the nodes of a side whose counts the event changes.
pub(crate) fn draw_nodes<A: Allocator + Copy>(
    picture: &mut Picture<A>,
    column: Column,
    y: u64,
    before: &[NodeCount],
    after: &[NodeCount],
    text: &mut Vec<u8, A>,
) -> Result<(), AllocError> {
    put_changes(text, before, after)?;
    if text.is_empty() {
        return Ok(());
    }
    picture.labels.add(column, y, text.as_slice())
}
