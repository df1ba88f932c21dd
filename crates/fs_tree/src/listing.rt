//! Reading a directory.

ghost use Rattle.std.specs.Prelude.{◌≡◌, ◌+◌, ◌*◌, ◌/◌, ◌<◌, ◌^◌, ◌≤◌, map, length, None, IfOk, IfErr};
ghost use Rattle.fuse_spec.specs.Files.FileOperations.{refusal, reply_unrefused};
ghost use Rattle.fuse_spec.specs.Files.Operations.{files_in_reply, readdir, readdirplus, listed, listed_plus};
ghost use Rattle.fuse_spec.specs.declared.Validity.{Validity};
ghost use Rattle.fs_tree.specs.Outcomes.{IsOperationRefused, IsOperationReply};
ghost use Rattle.fs_tree.specs.Views.{viewed_dirent, viewed_pair};

use crate::Kind;
use crate::error::TreeError;
use crate::tree::Tree;
use arrayvec::ArrayVec;
use fuse_spec::limits::MAX_TRANSFER;
use std::alloc::{AllocError, Allocator};

/// How long the entry of a name is in a reply to READDIRPLUS (`struct fuse_entry_out`).
pub(crate) const ENTRY_LEN: usize = 128;

/// The most names in one reply to READDIRPLUS: each takes 152 bytes and more.
pub const MOST_LISTED: usize = 26;

/// A name that a directory lists. The record's inode number is one more than the file.
#[derive(Clone, Copy)]
pub struct Record<'a> {
    pub name: &'a [u8],
    /// The offset from which to read on behind this name.
    pub cookie: u64,
    pub kind: Kind,
    pub file: u64,
}

impl<A: Allocator + Copy> Tree<A> {
    /// The names in a directory with a cookie over the offset, in rising cookie: as many whole records as fit `size`
    /// and 4,096 bytes. The first that does not fit ends the list (`struct fuse_dirent`).
    ///
    /// # Errors
    ///
    /// `NotADirectory` for another file (ENOTDIR), then `NoMemory`.
    pub fn readdir(
        &self,
        directory: u64,
        offset: u64,
        size: u32,
    ) -> Result<Vec<Record<'_>, A>, TreeError>
        ensures ok { IfOk result (λ records. IsOperationReply self.now (readdir directory offset size)
            (listed (map viewed_dirent records.items))) }
        ensures refused { IfErr result (IsOperationRefused self.now (readdir directory offset size)) }
    {
        self.may_lookup(directory)?;
        let room = size.min(MAX_TRANSFER) as usize;
        Ok(self.names.list(&self.files, directory, offset, room, 0)?)
    }

    /// The names of `readdir` with their files: as many as fit `size` and 4,096 bytes with an entry before each record
    /// (`struct fuse_direntplus`).
    ///
    /// # Errors
    ///
    /// `NotADirectory` for another file (ENOTDIR), then `NoMemory`.
    pub fn readdirplus(
        &self,
        directory: u64,
        offset: u64,
        size: u32,
    ) -> Result<Vec<Record<'_>, A>, TreeError>
        ensures ok { IfOk result (λ records. (refusal self.now (readdirplus directory offset size) ≡ None)
            × ((valid : Validity) → reply_unrefused valid self.now (readdirplus directory offset size)
            ≡ listed_plus (map (viewed_pair valid.found_ms) records.items))) }
        ensures refused { IfErr result (IsOperationRefused self.now (readdirplus directory offset size)) }
    {
        self.may_lookup(directory)?;
        let room = size.min(MAX_TRANSFER) as usize;
        let records = self
            .names
            .list(&self.files, directory, offset, room, ENTRY_LEN)?;
        Ok(records)
    }

    /// The files that those names lead to, in order: `.` and `..` give none. In a file that is no directory there are
    /// none.
    pub fn files_listed(&self, directory: u64, offset: u64, size: u32) -> ArrayVec<u64, MOST_LISTED>
        ensures { (valid : Validity) → result.items ≡ files_in_reply
            (reply_unrefused valid self.now (readdirplus directory offset size)) }
    {
        let room = size.min(MAX_TRANSFER) as usize;
        self.names.files_listed(directory, offset, room)
    }
}

/// How long the record of a name is: 24 bytes and the name, up to a multiple of 8 (`struct fuse_dirent`).
pub(crate) fn record_len(name: &[u8]) -> usize
    requires { length name.now < 2 ^ 63 }
    ensures len { result ≡ (31 + length name.now) / 8 * 8 }
    ensures least { 24 ≤ result }
{
    (31 + name.len()) / 8 * 8
}
