//! A record of a listing.

ghost use Rattle.std.specs.Prelude.{◌≡◌, true, false};
ghost use Rattle.fuse_replies.specs.RecordPlaces.{is_whole};
ghost use Rattle.fuse_replies.specs.Record.{record_content, record_at};

use crate::entry::Entry;
use fk_fields::{u32_at, u64_at};

/// A name in a directory: `struct fuse_dirent`. The name is a slice of the frame.
#[derive(Clone, Copy, Debug)]
pub struct Record<'a> {
    /// The inode number of the file.
    pub ino: u64,
    /// Where a list that goes on behind this record starts.
    pub off: u64,
    /// The file's kind, the four type bits of its mode: the field `type`.
    pub kind: u32,
    pub name: &'a [u8],
}

/// A name in a directory and its file: `struct fuse_direntplus`.
#[derive(Clone, Copy, Debug)]
pub struct EntryRecord<'a> {
    pub entry: Entry,
    pub record: Record<'a>,
}

/// The record that begins at a place.
#[tactic(auto, unfolding(fk_fields::specs::Fields::number_at))]
pub(crate) fn record_in(bytes: &[u8], place: usize) -> Record<'_>
    requires { is_whole false place bytes.now ≡ true }
    ensures { record_content result ≡ record_at bytes.now place }
{
    let len = u32_at(bytes, place + 16) as usize;
    Record {
        ino: u64_at(bytes, place),
        off: u64_at(bytes, place + 8),
        kind: u32_at(bytes, place + 20),
        name: &bytes[place + 24..place + 24 + len],
    }
}
