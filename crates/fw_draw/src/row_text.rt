//! What the row of an event says.

use fw_script::{word_of_effect, write_record};
use fw_world::{Outcome, Record};
use std::alloc::{AllocError, Allocator};
use std::io::Write;

/// Adds the line that `run` prints of a record, without its line feed.
fn add_record<A: Allocator>(text: &mut Vec<u8, A>, record: &Record<A>) -> Result<(), AllocError> {
    if write_record(text, record).is_err() {
        return Err(AllocError);
    }
    let _feed = text.pop();
    Ok(())
}

/// Puts the line that `run` prints of a record in the place of a text.
pub(crate) fn put_record<A: Allocator>(
    text: &mut Vec<u8, A>,
    record: &Record<A>,
) -> Result<(), AllocError> {
    text.clear();
    add_record(text, record)
}

/// Adds the line of a call with its number.
fn add_call<A: Allocator>(text: &mut Vec<u8, A>, line: &[u8], call: u64) -> Result<(), AllocError> {
    if write!(text, "call {call} ").is_err() {
        return Err(AllocError);
    }
    text.extend_from_slice(line.strip_prefix(b"call ").unwrap_or(line))
}

/// Puts what the row of an event says, whose line this is, in the place of a text.
pub(crate) fn put_event<A: Allocator>(
    text: &mut Vec<u8, A>,
    line: &[u8],
    first: &Record<A>,
) -> Result<(), AllocError> {
    text.clear();
    match first {
        Record::Outcome(Outcome::Begun { call }) => add_call(text, line, *call),
        Record::Outcome(Outcome::Interrupted { effect, .. }) => {
            text.extend_from_slice(line)?;
            text.extend_from_slice(b": ")?;
            text.extend_from_slice(word_of_effect(*effect).as_bytes())
        }
        Record::Outcome(
            Outcome::Mounted
            | Outcome::Now { .. }
            | Outcome::Dropped
            | Outcome::Evicted { .. }
            | Outcome::Aborted,
        ) => text.extend_from_slice(line),
        Record::Outcome(_) => add_record(text, first),
        _ => {
            text.extend_from_slice(line)?;
            text.extend_from_slice(b": ")?;
            add_record(text, first)
        }
    }
}
