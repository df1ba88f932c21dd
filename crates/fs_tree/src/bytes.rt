//! Reading and writing the bytes of a file.

ghost use Rattle.std.specs.Prelude.{◌≡◌, ◌+◌, ◌≤◌, ◌<◌, IfNone, length, take, drop, min, IfErr, OnOk, OnErr, IfOk, None, IsTrue, true, ◌↔◌};
ghost use Rattle.fuse_spec.specs.Files.Operations.{getattr, opening, read, write, content, attributes};
ghost use Rattle.fuse_spec.specs.Files.Trees.{attributes_of, overwritten};
ghost use Rattle.fuse_spec.specs.Files.FileOperations.{refusal, tree_unrefused};
ghost use Rattle.fuse_spec.specs.Values.Numbers.{counter_end, max_file};
ghost use Rattle.fs_tree.specs.Outcomes.{IsOperationRefused, IsOperationReply, RefusesWith, is_regular};

use crate::error::TreeError;
use crate::tree::{ROOT, Tree};
use crate::{Attributes, Kind};
use fuse_spec::limits::{MAX_FILE, MAX_TRANSFER};
use std::alloc::{AllocError, Allocator};

impl<A: Allocator + Copy> Tree<A> {
    /// What is known of a file. Of one that is not in the tree: another kind, no bytes, no links.
    #[inline(always)]
    pub fn getattr(&self, file: u64) -> Attributes
        requires { file < counter_end }
        ensures { result ≡ attributes_of self.now file }
    {
        let (kind, size) = self.files.kind_and_size(file);
        Attributes {
            kind,
            ino: file + 1,
            size: size as u64,
            nlink: self.links(file) as u32,
        }
    }

    /// Whether a file may be opened.
    ///
    /// # Errors
    ///
    /// `IsADirectory` for a directory (EISDIR).
    pub fn open(&self, file: u64) -> Result<(), TreeError>
        ensures { RefusesWith (refusal self.now (opening file)) result }
    {
        if self.is_directory(file) {
            return Err(TreeError::IsADirectory);
        }
        Ok(())
    }

    /// Whether a file is regular. A file that is not in the tree is not.
    pub fn is_regular(&self, file: u64) -> bool
        ensures { result ≡ is_regular self.now file }
    {
        matches!(self.files.kind(file), Kind::Regular)
    }

    /// The bytes of a file from an offset on: at most `size` and 4,096, fewer at the end of the file, none past it.
    pub fn read(&self, file: u64, offset: u64, size: u32) -> &[u8]
        ensures { IsOperationReply self.now (read file offset size) (content result.now) }
    {
        let bytes = bytes_from(self.files.bytes(file), offset as usize);
        first_bytes(bytes, size.min(MAX_TRANSFER) as usize)
    }

    /// Whether a write is refused.
    ///
    /// # Errors
    ///
    /// `FileTooLarge` past 65,536 bytes (EFBIG; this project's rule).
    pub fn may_write(&self, file: u64, offset: u64, bytes: &[u8]) -> Result<(), TreeError>
        ensures { RefusesWith (refusal self.now (write file offset bytes.now)) result }
    {
        if fits(offset, bytes.len()) {
            Ok(())
        } else {
            Err(TreeError::FileTooLarge)
        }
    }

    /// Writes bytes into a regular file. A gap between its end and the offset becomes zeros.
    ///
    /// # Errors
    ///
    /// `FileTooLarge` past 65,536 bytes (EFBIG; this project's rule), then `NoMemory`. The tree is as before.
    pub fn write(&mut self, file: u64, offset: u64, bytes: &[u8]) -> Result<(), TreeError>
        requires { IsTrue (is_regular self.old file) }
        ensures ok { OnOk result ((refusal self.old (write file offset bytes.now) ≡ None)
            × (self.new ≡ tree_unrefused self.old (write file offset bytes.now))) }
        ensures refused { IfErr result (IsOperationRefused self.old (write file offset bytes.now)) }
        ensures unchanged { OnErr result (self.new ≡ self.old) }
    {
        if !fits(offset, bytes.len()) {
            return Err(TreeError::FileTooLarge);
        }
        if bytes.is_empty() {
            return Ok(());
        }
        self.files.write(file, offset as usize, bytes)?;
        Ok(())
    }
}

/// Whether this many bytes from an offset on lie within the largest file.
fn fits(offset: u64, len: usize) -> bool
    ensures { (result ≡ true) ↔ (offset + len ≤ max_file) }
{
    offset <= MAX_FILE && len as u64 <= MAX_FILE - offset
}

/// Writes bytes over others, in place, from an offset on. A gap becomes zeros.
///
/// # Errors
///
/// Out of memory. The bytes are as before.
pub(crate) fn overwrite<A: Allocator>(
    old: &mut Vec<u8, A>,
    offset: usize,
    bytes: &[u8],
) -> Result<(), AllocError>
    requires fits { offset + length bytes.now ≤ max_file }
    requires some { 0 < length bytes.now }
    ensures ok { OnOk result (old.new.items ≡ overwritten old.old.items offset bytes.now) }
    ensures unchanged { OnErr result (old.new.items ≡ old.old.items) }
{
    let end = offset + bytes.len();
    if end <= old.len() {
        old[offset..end].copy_from_slice(bytes);
        return Ok(());
    }
    old.reserve(end - old.len())?;
    // It is filled up with zeros, or cut where the bytes begin.
    old.resize(offset, 0).unwrap();
    old.extend_from_slice(bytes).unwrap();
    Ok(())
}

/// At most this many bytes, the first ones.
fn first_bytes(bytes: &[u8], count: usize) -> &[u8]
    ensures { result.now ≡ take count bytes.now }
{
    if count < bytes.len() {
        &bytes[..count]
    } else {
        bytes
    }
}

/// The bytes from an offset on: none past their end.
fn bytes_from(bytes: &[u8], offset: usize) -> &[u8]
    ensures { result.now ≡ drop offset bytes.now }
{
    if offset < bytes.len() {
        &bytes[offset..]
    } else {
        &[]
    }
}
