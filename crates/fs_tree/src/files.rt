//! The files of a tree: what each is.

ghost use Rattle.std.specs.Prelude.{◌≡◌, ◌+◌, ◌<◌, ◌≤◌, [], None, Some, filter, not, cond, count_by, length, nat_eq, OnErr, OnOk};
ghost use Rattle.fuse_spec.specs.Values.Maps.{get, put, remove};
ghost use Rattle.fuse_spec.specs.Values.Numbers.{max_file};
ghost use Rattle.fuse_spec.specs.Files.Trees.{kind_of, file_bytes, a_file, overwritten};
ghost use Rattle.fuse_spec.specs.declared.Kind.TheVariants.{Regular};
ghost use Rattle.fs_tree.specs.Views.{content_in};

use crate::bytes::overwrite;
use crate::names::Names;
use crate::tree::ROOT;
use fuse_spec::Kind;
use fuse_tables::RisingTable;
use std::alloc::{AllocError, Allocator};
use std::marker::Model;

/// A directory, or a regular file and its bytes.
#[derive(Drop)]
pub(crate) enum Content<A: Allocator> {
    Directory,
    Regular(Vec<u8, A>),
}

impl<A: Allocator> Content<A> {
    fn kind(&self) -> Kind
        ensures { result ≡ kind_of (Some (content_in self.now)) }
    {
        match self {
            Content::Directory => Kind::Directory,
            Content::Regular(_) => Kind::Regular,
        }
    }

    fn bytes(&self) -> &[u8]
        ensures { result.now ≡ file_bytes (Some (content_in self.now)) }
    {
        match self {
            Content::Directory => &[],
            Content::Regular(bytes) => bytes,
        }
    }

    /// Writes bytes into a regular file from an offset on.
    fn write(&mut self, offset: usize, bytes: &[u8]) -> Result<(), AllocError>
        requires fits { offset + length bytes.now ≤ max_file }
        requires some { 0 < length bytes.now }
        requires regular { kind_of (Some (content_in self.old)) ≡ Regular }
        ensures ok { OnOk result (content_in self.new
            ≡ a_file (overwritten (file_bytes (Some (content_in self.old))) offset bytes.now)) }
        ensures unchanged { OnErr result (content_in self.new ≡ content_in self.old) }
    {
        match self {
            // It is regular.
            Content::Directory => Ok(()),
            Content::Regular(old) => overwrite(old, offset, bytes),
        }
    }
}

/// The files by inode. Inodes rise by 1, so most stand as far behind the first as their inode is above its.
#[derive(Drop)]
pub(crate) struct Files<A: Allocator> {
    contents: RisingTable<Content<A>, A>,
}

impl<A: Allocator> Model for Files<A> {
    ghost use Rattle.std.specs.Prelude.{map};
    ghost use Rattle.fuse_spec.specs.Values.Maps.{Map};
    ghost use Rattle.fuse_spec.specs.Files.Trees as plain;

    ghost Value = { Map plain.Content };

    ghost use Rattle.fs_tree.specs.Views.{viewed_file};

    ghost view = { λ f. map viewed_file f.contents.entries };
}

impl<A: Allocator + Copy> Files<A> {
    pub(crate) fn new(alloc: A) -> Self
        ensures { result ≡ [] }
    {
        Files {
            contents: RisingTable::new(alloc),
        }
    }

    /// Of what kind a file is; of a file that is not there, another.
    #[inline(always)]
    pub(crate) fn kind(&self, file: u64) -> Kind
        ensures { result ≡ kind_of (get self.now file) }
    {
        match self.contents.get(file) {
            Some(content) => content.kind(),
            None => Kind::Other,
        }
    }

    /// Of what kind a file is, and how many bytes it has; of a file that is not there, another kind and none.
    pub(crate) fn kind_and_size(&self, file: u64) -> (Kind, usize)
        ensures kind { result.0 ≡ kind_of (get self.now file) }
        ensures size { result.1 ≡ length (file_bytes (get self.now file)) }
    {
        match self.contents.get(file) {
            Some(content) => (content.kind(), content.bytes().len()),
            None => (Kind::Other, 0),
        }
    }

    /// The bytes of a file; of a directory, or of a file that is not there, none.
    pub(crate) fn bytes(&self, file: u64) -> &[u8]
        ensures { result.now ≡ file_bytes (get self.now file) }
    {
        match self.contents.get(file) {
            Some(content) => content.bytes(),
            None => &[],
        }
    }

    /// Puts a file under an inode that none has. Where memory is refused nothing changes.
    pub(crate) fn push(&mut self, inode: u64, content: Content<A>) -> Result<(), AllocError>
        requires { get self.old inode ≡ None }
        ensures ok { OnOk result (self.new ≡ put self.old inode (content_in content)) }
        ensures unchanged { OnErr result (self.new ≡ self.old) }
    {
        self.contents.reserve(1)?;
        self.contents.put(inode, content);
        Ok(())
    }

    /// Takes a file away, if it is there.
    pub(crate) fn remove(&mut self, file: u64)
        ensures { self.new ≡ remove self.old file }
    {
        let _content = self.contents.remove(file);
    }

    /// Writes bytes into a regular file, in place, from an offset on. Where memory is refused nothing changes.
    pub(crate) fn write(&mut self, file: u64, offset: usize, bytes: &[u8]) -> Result<(), AllocError>
        requires fits { offset + length bytes.now ≤ max_file }
        requires some { 0 < length bytes.now }
        requires regular { kind_of (get self.old file) ≡ Regular }
        ensures ok { OnOk result (self.new
            ≡ put self.old file (a_file (overwritten (file_bytes (get self.old file)) offset bytes.now))) }
        ensures unchanged { OnErr result (self.new ≡ self.old) }
    {
        // A directory, which takes no memory, stands in its place meanwhile.
        let Some(mut content) = self.contents.replace(file, Content::Directory) else {
            // It is there.
            return Ok(());
        };
        let written = content.write(offset, bytes);
        let _directory = self.contents.replace(file, content);
        written
    }

    /// Takes away each file that no name leads to, but for the root.
    pub(crate) fn retain_named(&mut self, names: &Names<A>)
        ensures { self.new ≡ filter (λ e. not (nat_eq (cond (nat_eq e.0 0) 1
            (count_by (λ n. nat_eq n.file e.0) names.now)) 0)) self.old }
    {
        self.contents
            .retain(|file| file == ROOT || names.count_of(file) != 0);
    }
}
