//! What is odd in the records of a listing.

ghost use Rattle.std.specs.Prelude.{◌≡◌, ℕ, ◌||◌, ◌++◌, [], List, Some, OnOk, map};
ghost use Rattle.fuse_replies.specs.Records.{records_in};
ghost use Rattle.fuse_sessions.specs.Warnings as words;
ghost use Rattle.session_frames.specs.Offsets.{AreOffsets};

use crate::writing::write;
use fuse_replies::Records;
use fuse_sessions::{Act, Fault};
use std::alloc::{AllocError, Allocator};

/// What the offsets of a listing's records come to.
#[derive(Clone, Copy)]
pub struct Offsets {
    /// Whether one stands twice in a row.
    repeats: bool,
    last: Option<u64>,
}

/// Whether there is an offset, and it is this.
fn is_offset(offset: u64, other: Option<u64>) -> bool
    ensures { result ≡ words.is_offset offset other }
{
    other == Some(offset)
}

/// No record has come.
pub(crate) fn no_offsets() -> Offsets
    ensures { AreOffsets result [] }
{
    Offsets {
        repeats: false,
        last: None,
    }
}

/// One offset more.
#[inline(always)]
pub(crate) fn with_offset(before: Offsets, offset: u64) -> Offsets
    ensures repeats { result.repeats ≡ (before.repeats || words.is_offset offset before.last) }
    ensures last { result.last ≡ Some offset }
{
    Offsets {
        repeats: before.repeats || is_offset(offset, before.last),
        last: Some(offset),
    }
}

/// What is odd in offsets, of a listing from this one on.
pub(crate) fn write_offsets<A: Allocator + Copy>(
    acts: &mut Vec<Act, A>,
    asked: u64,
    offsets: Offsets,
) -> Result<(), AllocError>
    ensures { (all : List ℕ) → AreOffsets offsets all → OnOk result (acts.new.items
        ≡ acts.old.items ++ words.listing_acts asked all) }
{
    if offsets.repeats {
        write(acts, Act::Faulty(Fault::OffsetGivenTwice))?;
    }
    if is_offset(asked, offsets.last) {
        return write(acts, Act::Faulty(Fault::ListingWithoutEnd));
    }
    Ok(())
}

/// What is odd in the records of READDIR, asked for from an offset on.
pub(crate) fn write_listing<A: Allocator + Copy>(
    acts: &mut Vec<Act, A>,
    asked: u64,
    records: Records<'_>,
) -> Result<(), AllocError>
    ensures { OnOk result (acts.new.items
        ≡ acts.old.items ++ words.listing_acts asked (map (λ r. r.off) (records_in records.entry))) }
{
    let mut offsets = no_offsets();
    let mut left = records;
    'records: while let Some(record) = left.next() {
        offsets = with_offset(offsets, record.off);
    }
    write_offsets(acts, asked, offsets)
}
