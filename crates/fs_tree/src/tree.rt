//! The tree: its files, its names, and what is read from it.

ghost use Rattle.std.specs.Prelude.{◌≡◌, ◌+◌, ◌<◌, ◌≤◌, [], IfOk, IfErr, None, count_by, nat_eq};
ghost use Rattle.fuse_spec.specs.Files.Operations.{lookup};
ghost use Rattle.fuse_spec.specs.Files.Trees.{is_directory, is_nameless, links, file_at};
ghost use Rattle.fuse_spec.specs.Files.FileOperations.{refusal};
ghost use Rattle.fuse_spec.specs.Files.TreeShape.{IsShaped};
ghost use Rattle.fuse_spec.specs.Values.Numbers.{counter_end, max_names};
ghost use Rattle.fs_tree.specs.Outcomes.{IsRefusedBy, RefusesWith, only_root};
ghost use Rattle.fs_tree.specs.Stored.{IsRising};

use crate::Kind;
use crate::error::TreeError;
use crate::files::{Content, Files};
use crate::names::Names;
use fuse_spec::limits::COUNTER_END;
use std::alloc::{AllocError, Allocator, Global};
use std::marker::Model;

/// The inode of the root.
pub const ROOT: u64 = 0;

/// A tree of files.
#[derive(Drop)]
pub struct Tree<A: Allocator = Global> {
    pub(crate) names: Names<A>,
    pub(crate) files: Files<A>,
    pub(crate) next_inode: u64,
    pub(crate) next_cookie: u64,
    pub(crate) alloc: A,
}

impl<A: Allocator> Model for Tree<A> {
    ghost use Rattle.fuse_spec.specs.Files.Trees.{Tree};

    ghost Value = { Tree };

    ghost use Rattle.fuse_spec.specs.Files.TreeShape.{IsShaped};
    ghost use Rattle.fs_tree.specs.Stored.{IsTreeKept};

    ghost view = { λ t. record {
      files = t.files;
      names = t.names;
      next_inode = t.next_inode;
      next_cookie = t.next_cookie;
    } };

    ghost invariant = { λ t. IsTreeKept t.files t.names t.next_inode t.next_cookie
        × IsShaped (record {
          files = t.files;
          names = t.names;
          next_inode = t.next_inode;
          next_cookie = t.next_cookie;
        }) };
}

impl<A: Allocator + Copy> Tree<A> {
    /// A tree with the root alone.
    ///
    /// # Errors
    ///
    /// Out of memory.
    pub fn new(alloc: A) -> Result<Self, AllocError>
        ensures { IfOk result (λ tree. tree ≡ only_root) }
    {
        let mut files = Files::new(alloc);
        files.push(ROOT, Content::Directory)?;
        Ok(Tree {
            names: Names::new(alloc),
            files,
            next_inode: 1,
            next_cookie: 1,
            alloc,
        })
    }

    /// What is true of every tree is true of this one.
    pub fn lemma_shaped(&self)
        ensures { IsShaped self.now }
    {
        // A field is touched so that the type's invariant is at hand.
        let _inodes = self.next_inode;
    }

    /// The inode that the next file gets.
    pub fn next_inode(&self) -> u64
        ensures { result ≡ self.now.next_inode }
    {
        self.next_inode
    }

    /// How many inodes are left below 2^62.
    pub fn inodes_left(&self) -> u64
        ensures { self.now.next_inode + result ≡ counter_end }
    {
        COUNTER_END - self.next_inode
    }

    /// How many cookies are left below 2^62.
    pub fn cookies_left(&self) -> u64
        ensures { self.now.next_cookie + result ≡ counter_end }
    {
        COUNTER_END - self.next_cookie
    }

    /// Whether a file is a directory. A file that is not in the tree is none.
    pub fn is_directory(&self, file: u64) -> bool
        ensures { result ≡ is_directory self.now file }
    {
        matches!(self.files.kind(file), Kind::Directory)
    }

    /// How many names lead to a file. The root counts as having one.
    pub(crate) fn links(&self, file: u64) -> usize
        ensures links { result ≡ links self.now file }
        ensures few { result ≤ max_names }
    {
        if file == ROOT {
            1
        } else {
            self.names.count_of(file)
        }
    }

    /// Whether no name leads to a file. The root never counts as nameless.
    pub fn is_nameless(&self, file: u64) -> bool
        ensures { result ≡ is_nameless self.now file }
    {
        self.links(file) == 0
    }

    /// Whether a look into a directory is refused, by a name or for its names.
    ///
    /// # Errors
    ///
    /// `NotADirectory` for another file (ENOTDIR).
    pub fn may_lookup(&self, directory: u64) -> Result<(), TreeError>
        ensures { RefusesWith (refusal self.now (lookup directory [])) result }
    {
        if self.is_directory(directory) {
            Ok(())
        } else {
            Err(TreeError::NotADirectory)
        }
    }

    /// The file to which a name in a directory leads, if one does.
    ///
    /// # Errors
    ///
    /// `NotADirectory` for another file (ENOTDIR).
    pub fn lookup(&self, directory: u64, name: &[u8]) -> Result<Option<u64>, TreeError>
        ensures ok { IfOk result (λ file. (refusal self.now (lookup directory name.now) ≡ None)
            × (file ≡ file_at self.now directory name.now)) }
        ensures refused { IfErr result (IsRefusedBy self.now (lookup directory name.now)) }
    {
        self.may_lookup(directory)?;
        Ok(self.names.file_at(directory, name))
    }

    /// The file to which a name leads; in a file that is no directory there is none.
    #[inline(always)]
    pub fn file_at(&self, directory: u64, name: &[u8]) -> Option<u64>
        ensures { result ≡ file_at self.now directory name.now }
    {
        self.names.file_at(directory, name)
    }

    /// How many names lead to a file.
    pub fn names_of(&self, file: u64) -> usize
        ensures { result ≡ count_by (λ n. nat_eq n.file file) self.now.names }
    {
        self.names.count_of(file)
    }
}
