//! Room for what replies say, and what is put into it.

ghost use Rattle.std.specs.Prelude.{◌≡◌, ◌≤◌, ◌+◌, ◌*◌, length};
ghost use Rattle.fuse_spec.specs.Files.Operations as reply;
ghost use Rattle.fuse_spec.specs.Files.Operations.{files_listed};

use crate::listed_names::ListedNames;
use fuse_frames::{ReplyBuffer, ReplyFrame};
use fuse_spec::Entry;
use std::alloc::{AllocError, Allocator};

/// Room for what a reply says that is of no fixed length: its bytes, and the entries of names.
#[derive(Drop)]
pub struct ListingBuffers<A: Allocator> {
    pub(crate) bytes: Vec<u8, A>,
    pub(crate) entries: Vec<Entry, A>,
    pub(crate) file_entries: Vec<Entry, A>,
}

impl<A: Allocator + Copy> ListingBuffers<A> {
    ghost use Rattle.std.specs.Prelude.{IfOk};
    ghost use Rattle.fs_files.specs.Replies.{HasSpare};

    /// Room for this many bytes and names.
    ///
    /// # Errors
    ///
    /// Out of memory.
    #[inline(always)]
    pub fn new(alloc: A, len: usize, names: usize) -> Result<Self, AllocError>
        ensures { IfOk result (λ spare. HasSpare spare len names) }
    {
        // Most replies are of a fixed length.
        if len == 0 && names == 0 {
            return Ok(ListingBuffers {
                bytes: Vec::new(alloc),
                entries: Vec::new(alloc),
                file_entries: Vec::new(alloc),
            });
        }
        Ok(ListingBuffers {
            bytes: Vec::with_capacity(alloc, len)?,
            entries: Vec::with_capacity(alloc, names)?,
            file_entries: Vec::with_capacity(alloc, names)?,
        })
    }
}

impl<A: Allocator> ListedNames<A> {
    ghost use Rattle.std.specs.Prelude.{◌≡◌, ◌≤◌, ◌+◌, ◌*◌, length};
    ghost use Rattle.fs_files.specs.Listed.{listed_pairs};
    ghost use Rattle.fs_files.specs.Replies.{HasSpare};

    /// The entries of the names that name a file: all but `.` and `..`.
    pub fn file_entries(&self) -> &[Entry]
        ensures { result.now ≡ files_listed
            (listed_pairs self.now.found_ms self.now.entries.items self.now.records.items) }
    {
        &self.file_entries
    }

    /// How many names it lists.
    pub fn names(&self) -> usize
        ensures { result ≡ length self.now.entries.items }
    {
        self.entries.len()
    }

    /// How long its pairs are.
    pub fn len(&self) -> usize
        ensures { result ≡ 128 * length self.now.entries.items + length self.now.records.items }
    {
        128 * self.entries.len() + self.records.len()
    }

    /// These names once more, in room that is there.
    pub fn copied(&self, spare: ListingBuffers<A>) -> ListedNames<A>
        requires { HasSpare spare (length self.now.records.items) (length self.now.entries.items) }
        ensures { listed_pairs result.found_ms result.entries.items result.records.items
            ≡ listed_pairs self.now.found_ms self.now.entries.items self.now.records.items }
    {
        let ListingBuffers {
            mut bytes,
            mut entries,
            mut file_entries,
        } = spare;
        bytes.extend_from_slice(&self.records).unwrap();
        entries.extend_from_slice(&self.entries).unwrap();
        file_entries.extend_from_slice(&self.file_entries).unwrap();
        ListedNames {
            records: bytes,
            entries,
            file_entries,
            found_ms: self.found_ms,
        }
    }

    /// Its frame.
    pub fn framed(&self, room: ReplyBuffer<A>, unique: u64) -> ReplyFrame<A>
        requires { 16 + (128 * length self.now.entries.items + length self.now.records.items) ≤ room }
        ensures { result ≡ record {
          unique = unique;
          wire = reply.listed_plus
              (listed_pairs self.now.found_ms self.now.entries.items self.now.records.items);
        } }
    {
        room.listed_plus(unique, &self.entries, &self.records, self.found_ms)
    }
}
