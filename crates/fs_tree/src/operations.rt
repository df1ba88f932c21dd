//! What changes the names and the files of a tree. Before each operation stands what refuses it.

ghost use Rattle.std.specs.Prelude.{◌≡◌, ◌≢◌, ◌+◌, ◌<◌, ◌≤◌, IfOk, IfErr, OnOk, OnErr, Some, None, cond, find, length};
ghost use Rattle.fuse_spec.specs.Files.Operations.{mkdir, create, unlink, rmdir, link, rename};
ghost use Rattle.fuse_spec.specs.Files.Trees.{file_at, is_at, with_inode};
ghost use Rattle.fuse_spec.specs.Files.FileOperations.{refusal, first_refusal, making, tree_unrefused, is_same};
ghost use Rattle.fuse_spec.specs.Values.Numbers.{counter_end, max_names};
ghost use Rattle.fs_tree.specs.Outcomes.{IsOperationRefused, IsRefusedBy, RefusesWith, discarded, replacing, without_nameless};
ghost use Rattle.fs_tree.specs.Views.{content_in};

use crate::error::TreeError;
use crate::files::Content;
use crate::tree::Tree;
use fuse_spec::limits::MAX_NAMES;
use std::alloc::{AllocError, Allocator};

impl<A: Allocator + Copy> Tree<A> {
    /// Whether a mkdir or a create is refused: both have the same checks.
    ///
    /// # Errors
    ///
    /// `NotADirectory` (ENOTDIR), `NotFound` in a nameless directory (ENOENT), `AlreadyExists` (EEXIST), `NoSpace` at
    /// 4,096 names (ENOSPC; this project's rule).
    pub fn may_create(&self, directory: u64, name: &[u8]) -> Result<(), TreeError>
        ensures refusal { RefusesWith (refusal self.now (mkdir directory name.now)) result }
        ensures room { OnOk result (length self.now.names < max_names) }
        ensures free { OnOk result (find (is_at directory name.now) self.now.names ≡ None) }
    {
        if !self.is_directory(directory) {
            return Err(TreeError::NotADirectory);
        }
        if self.is_nameless(directory) {
            return Err(TreeError::NotFound);
        }
        self.may_add(directory, name)
    }

    /// Whether one more name in a directory is refused.
    fn may_add(&self, directory: u64, name: &[u8]) -> Result<(), TreeError>
        ensures refusal { RefusesWith (first_refusal (making self.now directory name.now)) result }
        ensures room { OnOk result (length self.now.names < max_names) }
        ensures free { OnOk result (find (is_at directory name.now) self.now.names ≡ None) }
    {
        if self.names.file_at(directory, name).is_some() {
            Err(TreeError::AlreadyExists)
        } else if self.names.len() >= MAX_NAMES {
            Err(TreeError::NoSpace)
        } else {
            Ok(())
        }
    }

    /// Makes a directory, and gives its inode.
    ///
    /// # Errors
    ///
    /// `NotADirectory` (ENOTDIR), `NotFound` in a nameless directory (ENOENT), `AlreadyExists` (EEXIST), `NoSpace` at
    /// 4,096 names (ENOSPC; this project's rule), then `NoMemory`. The tree is as before.
    pub fn mkdir(&mut self, directory: u64, name: &[u8]) -> Result<u64, TreeError>
        requires inodes { self.old.next_inode < counter_end }
        requires cookies { self.old.next_cookie < counter_end }
        ensures ok { IfOk result (λ file. (refusal self.old (mkdir directory name.now) ≡ None)
            × ((file ≡ self.old.next_inode) × (self.new ≡ tree_unrefused self.old (mkdir directory name.now)))) }
        ensures refused { IfErr result (IsOperationRefused self.old (mkdir directory name.now)) }
        ensures unchanged { OnErr result (self.new ≡ self.old) }
    {
        self.may_create(directory, name)?;
        Ok(self.make_directory(directory, name)?)
    }

    /// Makes a regular file without bytes, and gives its inode.
    ///
    /// # Errors
    ///
    /// As of `mkdir`.
    pub fn create(&mut self, directory: u64, name: &[u8]) -> Result<u64, TreeError>
        requires inodes { self.old.next_inode < counter_end }
        requires cookies { self.old.next_cookie < counter_end }
        ensures ok { IfOk result (λ file. (refusal self.old (create directory name.now) ≡ None)
            × ((file ≡ self.old.next_inode) × (self.new ≡ tree_unrefused self.old (create directory name.now)))) }
        ensures refused { IfErr result (IsOperationRefused self.old (create directory name.now)) }
        ensures unchanged { OnErr result (self.new ≡ self.old) }
    {
        self.may_create(directory, name)?;
        Ok(self.make_file(directory, name)?)
    }

    /// Makes a directory where nothing refuses it, as `may_create` says, and gives its inode.
    ///
    /// # Errors
    ///
    /// Out of memory. The tree is as before.
    pub fn make_directory(&mut self, directory: u64, name: &[u8]) -> Result<u64, AllocError>
        requires unrefused { refusal self.old (mkdir directory name.now) ≡ None }
        requires inodes { self.old.next_inode < counter_end }
        requires cookies { self.old.next_cookie < counter_end }
        ensures ok { IfOk result (λ file. (file ≡ self.old.next_inode)
            × (self.new ≡ tree_unrefused self.old (mkdir directory name.now))) }
        ensures unchanged { OnErr result (self.new ≡ self.old) }
    {
        self.make(directory, name, Content::Directory)
    }

    /// Makes a regular file without bytes where nothing refuses it, as `may_create` says, and gives its inode.
    ///
    /// # Errors
    ///
    /// Out of memory. The tree is as before.
    pub fn make_file(&mut self, directory: u64, name: &[u8]) -> Result<u64, AllocError>
        requires unrefused { refusal self.old (create directory name.now) ≡ None }
        requires inodes { self.old.next_inode < counter_end }
        requires cookies { self.old.next_cookie < counter_end }
        ensures ok { IfOk result (λ file. (file ≡ self.old.next_inode)
            × (self.new ≡ tree_unrefused self.old (create directory name.now))) }
        ensures unchanged { OnErr result (self.new ≡ self.old) }
    {
        let bytes = Vec::new(self.alloc);
        self.make(directory, name, Content::Regular(bytes))
    }

    fn make(&mut self, directory: u64, name: &[u8], content: Content<A>) -> Result<u64, AllocError>
        requires unrefused { refusal self.old (mkdir directory name.now) ≡ None }
        requires inodes { self.old.next_inode < counter_end }
        requires cookies { self.old.next_cookie < counter_end }
        ensures ok { IfOk result (λ file. (file ≡ self.old.next_inode) × (self.new ≡ with_inode self.old directory name.now
            (content_in content))) }
        ensures unchanged { OnErr result (self.new ≡ self.old) }
    {
        let file = self.next_inode;
        let cookie = self.next_cookie;
        self.files.push(file, content)?;
        if let Err(error) = self.names.add(directory, name, file, cookie) {
            self.files.remove(file);
            return Err(error);
        }
        self.next_inode = file + 1;
        self.next_cookie = cookie + 1;
        Ok(file)
    }

    /// Whether an unlink is refused.
    ///
    /// # Errors
    ///
    /// `NotADirectory` (ENOTDIR), `NotFound` (ENOENT), `IsADirectory` where the name is a directory's (EISDIR).
    pub fn may_unlink(&self, directory: u64, name: &[u8]) -> Result<(), TreeError>
        ensures { RefusesWith (refusal self.now (unlink directory name.now)) result }
    {
        if !self.is_directory(directory) {
            return Err(TreeError::NotADirectory);
        }
        match self.names.file_at(directory, name) {
            None => Err(TreeError::NotFound),
            Some(file) if self.is_directory(file) => Err(TreeError::IsADirectory),
            Some(_) => Ok(()),
        }
    }

    /// Takes the name of a file away. The file stays, nameless or not.
    ///
    /// # Errors
    ///
    /// As of `may_unlink`. The tree is as before.
    pub fn unlink(&mut self, directory: u64, name: &[u8]) -> Result<(), TreeError>
        ensures ok { OnOk result ((refusal self.old (unlink directory name.now) ≡ None)
            × (self.new ≡ tree_unrefused self.old (unlink directory name.now))) }
        ensures refused { IfErr result (IsRefusedBy self.old (unlink directory name.now)) }
        ensures unchanged { OnErr result (self.new ≡ self.old) }
    {
        self.may_unlink(directory, name)?;
        self.names.remove(directory, name);
        // the file stays, nameless or not
        Ok(())
    }

    /// Whether an rmdir is refused.
    ///
    /// # Errors
    ///
    /// `NotADirectory` (ENOTDIR), `NotFound` (ENOENT), `NotADirectory` where the name is another file's, `NotEmpty`
    /// (ENOTEMPTY).
    pub fn may_rmdir(&self, directory: u64, name: &[u8]) -> Result<(), TreeError>
        ensures { RefusesWith (refusal self.now (rmdir directory name.now)) result }
    {
        if !self.is_directory(directory) {
            return Err(TreeError::NotADirectory);
        }
        match self.names.file_at(directory, name) {
            None => Err(TreeError::NotFound),
            Some(file) if !self.is_directory(file) => Err(TreeError::NotADirectory),
            Some(file) if !self.names.is_empty(file) => Err(TreeError::NotEmpty),
            Some(_) => Ok(()),
        }
    }

    /// Takes the name of an empty directory away. The directory stays, nameless.
    ///
    /// # Errors
    ///
    /// As of `may_rmdir`. The tree is as before.
    pub fn rmdir(&mut self, directory: u64, name: &[u8]) -> Result<(), TreeError>
        ensures ok { OnOk result ((refusal self.old (rmdir directory name.now) ≡ None)
            × (self.new ≡ tree_unrefused self.old (rmdir directory name.now))) }
        ensures refused { IfErr result (IsRefusedBy self.old (rmdir directory name.now)) }
        ensures unchanged { OnErr result (self.new ≡ self.old) }
    {
        self.may_rmdir(directory, name)?;
        self.names.remove(directory, name);
        Ok(())
    }

    /// Whether a link is refused.
    ///
    /// # Errors
    ///
    /// `NotADirectory` (ENOTDIR), `NotFound` in a nameless directory (ENOENT), `NotPermitted` for a directory (EPERM),
    /// `NotFound` for a nameless file, `AlreadyExists` (EEXIST), `NoSpace` at 4,096 names (ENOSPC; this project's rule).
    pub fn may_link(&self, file: u64, directory: u64, name: &[u8]) -> Result<(), TreeError>
        ensures refusal { RefusesWith (refusal self.now (link file directory name.now)) result }
        ensures room { OnOk result (length self.now.names < max_names) }
        ensures free { OnOk result (find (is_at directory name.now) self.now.names ≡ None) }
    {
        if !self.is_directory(directory) {
            return Err(TreeError::NotADirectory);
        }
        if self.is_nameless(directory) {
            return Err(TreeError::NotFound);
        }
        if self.is_directory(file) {
            return Err(TreeError::NotPermitted);
        }
        if self.is_nameless(file) {
            return Err(TreeError::NotFound);
        }
        self.may_add(directory, name)
    }

    /// Makes one more name of a file.
    ///
    /// # Errors
    ///
    /// As of `may_link`, then `NoMemory`. The tree is as before.
    pub fn link(&mut self, file: u64, directory: u64, name: &[u8]) -> Result<(), TreeError>
        requires cookies { self.old.next_cookie < counter_end }
        ensures ok { OnOk result ((refusal self.old (link file directory name.now) ≡ None)
            × (self.new ≡ tree_unrefused self.old (link file directory name.now))) }
        ensures refused { IfErr result (IsOperationRefused self.old (link file directory name.now)) }
        ensures unchanged { OnErr result (self.new ≡ self.old) }
    {
        self.may_link(file, directory, name)?;
        let cookie = self.next_cookie;
        self.names.add(directory, name, file, cookie)?;
        self.next_cookie = cookie + 1;
        Ok(())
    }

    /// Whether a rename is refused, and else the file that it moves: none where both names lead to the same one.
    ///
    /// # Errors
    ///
    /// `NotADirectory` (ENOTDIR), `NotFound` (ENOENT), `Invalid` for a directory into itself or below (EINVAL); then,
    /// where another file stands at the new name, `NotADirectory`, `IsADirectory` (EISDIR), `NotEmpty` (ENOTEMPTY).
    pub fn may_rename(
        &self,
        directory: u64,
        old: &[u8],
        new_directory: u64,
        new: &[u8],
    ) -> Result<Option<u64>, TreeError>
        ensures refusal { RefusesWith (refusal self.now (rename directory old.now new_directory new.now)) result }
        ensures moved { IfOk result (λ moved. moved ≡ cond (is_same (file_at self.now directory old.now)
            (file_at self.now new_directory new.now)) None (file_at self.now directory old.now)) }
    {
        if !(self.is_directory(directory) && self.is_directory(new_directory)) {
            return Err(TreeError::NotADirectory);
        }
        let Some(moved) = self.names.file_at(directory, old) else {
            return Err(TreeError::NotFound);
        };
        if self.is_nameless(new_directory) {
            return Err(TreeError::NotFound);
        }
        if self.is_directory(moved) && self.names.is_below(moved, new_directory) {
            return Err(TreeError::Invalid);
        }
        match self.names.file_at(new_directory, new) {
            None => Ok(Some(moved)),
            Some(there) if there == moved => Ok(None),
            Some(there) => self.may_replace(moved, there),
        }
    }

    /// Whether it is refused that a file replaces another one, and else the file.
    fn may_replace(&self, moved: u64, there: u64) -> Result<Option<u64>, TreeError>
        ensures refusal { RefusesWith (first_refusal (replacing self.now (Some moved) (Some there))) result }
        ensures moved { IfOk result (λ file. file ≡ Some moved) }
    {
        let is_directory = self.is_directory(moved);
        let replaces_directory = self.is_directory(there);
        if is_directory && !replaces_directory {
            Err(TreeError::NotADirectory)
        } else if !is_directory && replaces_directory {
            Err(TreeError::IsADirectory)
        } else if !self.names.is_empty(there) {
            Err(TreeError::NotEmpty)
        } else {
            Ok(Some(moved))
        }
    }

    /// Moves a file from one name to another, under a fresh cookie, and replaces what stands there. Nothing changes if
    /// the same file stands there.
    ///
    /// # Errors
    ///
    /// As of `may_rename`, then `NoMemory`. The tree is as before.
    pub fn rename(
        &mut self,
        directory: u64,
        old: &[u8],
        new_directory: u64,
        new: &[u8],
    ) -> Result<(), TreeError>
        requires cookies { self.old.next_cookie < counter_end }
        ensures ok { OnOk result ((refusal self.old (rename directory old.now new_directory new.now) ≡ None)
            × (self.new ≡ tree_unrefused self.old (rename directory old.now new_directory new.now))) }
        ensures refused { IfErr result (IsOperationRefused self.old (rename directory old.now new_directory new.now)) }
        ensures unchanged { OnErr result (self.new ≡ self.old) }
    {
        let Some(file) = self.may_rename(directory, old, new_directory, new)? else {
            return Ok(());
        };
        let cookie = self.next_cookie;
        self.names
            .rename(directory, old, new_directory, new, file, cookie)?;
        self.next_cookie = cookie + 1;
        Ok(())
    }

    /// Whether two names lead to one file.
    pub fn are_same(&self, directory: u64, name: &[u8], other_directory: u64, other: &[u8]) -> bool
        ensures { result ≡ is_same (file_at self.now directory name.now) (file_at self.now other_directory other.now) }
    {
        let file = self.names.file_at(directory, name);
        is_same(file, self.names.file_at(other_directory, other))
    }

    /// Takes a file out of the tree, if it is nameless. No memory is taken.
    pub fn discard(&mut self, file: u64)
        ensures { self.new ≡ discarded self.old file }
    {
        if self.is_nameless(file) {
            self.files.remove(file);
            self.names.forget(file);
        }
    }

    /// Takes all nameless files out of the tree. No memory is taken.
    pub fn discard_nameless(&mut self)
        ensures { self.new ≡ without_nameless self.old }
    {
        self.files.retain_named(&self.names);
        self.names.forget_empty();
    }
}

fn is_same(moved: Option<u64>, there: Option<u64>) -> bool
    ensures { result ≡ is_same moved there }
{
    match (moved, there) {
        (Some(file), Some(other)) => file == other,
        _ => false,
    }
}
