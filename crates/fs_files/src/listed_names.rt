//! The names that a reply to READDIRPLUS lists, each with the entry of its file.

ghost use Rattle.std.specs.Prelude.{◌≡◌, ◌≤◌, ◌+◌, ◌*◌, length};
ghost use Rattle.fuse_spec.specs.Values.Numbers.{max_transfer, max_validity};
ghost use Rattle.fuse_spec.specs.Files.Operations.{files_listed};
ghost use Rattle.fs_files.specs.Listed.{AreRecordBytes, dirents_in, listed_pairs};
ghost use Rattle.fs_files.specs.Props.{AreRecordBytes-prop};

use fuse_spec::Entry;
use std::alloc::Allocator;

/// Names with an entry each, as they are listed, and the entries of those that name a file: all but `.` and `..`.
#[derive(Drop)]
pub struct ListedNames<A: Allocator> {
    /// The records of the names, as their frame has them.
    pub(crate) records: Vec<u8, A>,
    /// One entry a name.
    pub(crate) entries: Vec<Entry, A>,
    pub(crate) file_entries: Vec<Entry, A>,
    /// How long each name leads to its file, in milliseconds.
    pub(crate) found_ms: u64,
    ghost are_records: { AreRecordBytes records.items } by { AreRecordBytes-prop records.items },
    ghost together: { length entries.items ≡ length (dirents_in records.items) },
    ghost most: { 128 * length entries.items + length records.items ≤ max_transfer },
    ghost are_of_files: { file_entries.items ≡ files_listed (listed_pairs found_ms entries.items records.items) },
    ghost day: { found_ms ≤ max_validity },
}
