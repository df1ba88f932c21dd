//! One line of a capture, as a row of the picture.

use crate::counts::Counts;
use fuse_sessions::{Act, Fault, Party, Taken, Transfer};
use fw_check::{fault_words, party_word};
use fw_decode::Decoding;
use fw_draw::cut;
use std::alloc::{AllocError, Allocator, Global};
use std::io;
use std::io::Write;

/// The most characters of what a frame says.
const WORDS: usize = 76;

/// The most characters of the counts.
const COUNTS: usize = 60;

/// Where a frame goes.
#[derive(Clone, Copy, PartialEq, Eq)]
pub(crate) enum Direction {
    ToServer,
    ToKernel,
    /// To the kernel, whose device refused it.
    Refused,
    /// It is no frame.
    Nowhere,
}

/// A fault or a warning, in words.
#[derive(Drop)]
pub(crate) struct Verdict<A: Allocator = Global> {
    pub(crate) is_warning: bool,
    pub(crate) text: Vec<u8, A>,
}

/// One line of a capture.
#[derive(Drop)]
pub(crate) struct Row<A: Allocator = Global> {
    /// Its number.
    pub(crate) number: u64,
    pub(crate) direction: Direction,
    /// What it says, in words.
    pub(crate) words: Vec<u8, A>,
    /// The nodes whose counts it changes, as `nodeid:count`.
    pub(crate) counts: Vec<u8, A>,
    pub(crate) verdicts: Vec<Verdict<A>, A>,
}

/// Where a transfer goes.
fn direction_of(transfer: Transfer<'_>) -> Direction {
    match transfer {
        Transfer::Request(_) => Direction::ToServer,
        Transfer::Written(_, Taken::Accepted) => Direction::ToKernel,
        Transfer::Written(_, _) => Direction::Refused,
        _ => Direction::Nowhere,
    }
}

/// What was written, or out of memory: nothing else stops a vector.
fn written(outcome: io::Result<()>) -> Result<(), AllocError> {
    outcome.map_err(|_| AllocError)
}

/// What a transfer says, without the sign of its direction.
fn words_of<A: Allocator + Copy>(
    alloc: A,
    decoding: &Decoding<A>,
    transfer: Transfer<'_>,
) -> Result<Vec<u8, A>, AllocError> {
    let mut text = Vec::new(alloc);
    written(decoding.write_transfer(transfer, &mut text))?;
    let words = match text.as_slice() {
        [_, b' ', words @ ..] => words,
        words => words,
    };
    cut(alloc, words, WORDS)
}

/// A fault in words.
fn verdict_of<A: Allocator + Copy>(alloc: A, fault: Fault) -> Result<Verdict<A>, AllocError> {
    let party = fault.party();
    let word = party_word(party);
    let words = fault_words(fault);
    let mut text = Vec::new(alloc);
    written(write!(&mut text, "{word}: {words}"))?;
    Ok(Verdict {
        is_warning: party == Party::Nobody,
        text,
    })
}

/// The faults of a transfer.
fn verdicts_of<A: Allocator + Copy>(
    alloc: A,
    faults: &[Option<Fault>],
) -> Result<Vec<Verdict<A>, A>, AllocError> {
    let mut verdicts = Vec::new(alloc);
    for fault in faults {
        if let Some(fault) = *fault {
            verdicts.push(verdict_of(alloc, fault)?)?;
        }
    }
    Ok(verdicts)
}

/// Notes the acts of a transfer, and writes the nodes whose counts they change.
fn counts_of<A: Allocator + Copy>(
    alloc: A,
    counts: &mut Counts<A>,
    acts: &[Act],
) -> Result<Vec<u8, A>, AllocError> {
    let mut text = Vec::new(alloc);
    for act in acts {
        if let Some(node) = counts.note(*act)? {
            let (nodeid, count) = (node.nodeid, node.count);
            let space = if text.is_empty() { "" } else { " " };
            written(write!(&mut text, "{space}{nodeid}:{count}"))?;
        }
    }
    cut(alloc, text.as_slice(), COUNTS)
}

/// The row of the next transfer, which the judge sees and the counts note.
///
/// # Errors
///
/// Out of memory.
pub(crate) fn row_of<A: Allocator + Copy>(
    alloc: A,
    number: u64,
    decoding: &mut Decoding<A>,
    counts: &mut Counts<A>,
    transfer: Transfer<'_>,
) -> Result<Row<A>, AllocError> {
    let words = words_of(alloc, decoding, transfer)?;
    decoding.see(transfer)?;
    Ok(Row {
        number,
        direction: direction_of(transfer),
        words,
        counts: counts_of(alloc, counts, decoding.acts())?,
        verdicts: verdicts_of(alloc, decoding.verdicts())?,
    })
}

/// The judge sees the next transfer, and the counts note it, where it has no row.
///
/// # Errors
///
/// Out of memory.
pub(crate) fn pass_over<A: Allocator + Copy>(
    decoding: &mut Decoding<A>,
    counts: &mut Counts<A>,
    transfer: Transfer<'_>,
) -> Result<(), AllocError> {
    decoding.see(transfer)?;
    for act in decoding.acts() {
        let _node = counts.note(*act)?;
    }
    Ok(())
}
