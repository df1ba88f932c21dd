//! The names of a tree.

ghost use Rattle.std.specs.Prelude.{◌≡◌, ◌++◌, ◌∷◌, [], ◌<◌, ◌^◌, not, filter, find, map, length, count_by, nat_eq, option_map, OnOk, OnErr, IfOk, ◌≤◌, ◌&&◌, false, None};
ghost use Rattle.fuse_spec.specs.Values.Maps.{Map};
ghost use Rattle.fuse_spec.specs.Files.Trees.{Content, is_at, is_within, same_name};
ghost use Rattle.fuse_spec.specs.Values.Numbers.{max_transfer};
ghost use Rattle.fs_tree.specs.Views.{lead_of};
ghost use Rattle.fs_tree.specs.Stored.{files_led, fitting_with, listed_names, AreCookiesRising, IsRising};

use crate::directories::{Directories, close, close_empty, open, put_last_in, remove_from};
use crate::entries::{Link, copy_of};
use crate::files::Files;
use crate::listing::{MOST_LISTED, Record};
use crate::rows::Rows;
use arrayvec::ArrayVec;
use indexmap::IndexMap;
use std::alloc::{AllocError, Allocator};
use std::marker::Model;

/// The names, in rising cookie, and again by directory.
#[derive(Drop)]
pub(crate) struct Names<A: Allocator> {
    rows: Rows<A>,
    directories: Directories<A>,
    alloc: A,
}

impl<A: Allocator> Model for Names<A> {
    ghost use Rattle.std.specs.Prelude.{List};
    ghost use Rattle.fuse_spec.specs.Files.Trees.{Named};

    ghost Value = { List Named };

    ghost use Rattle.fs_tree.specs.Stored.{entries_in, AreByDirectory, AreOnce};

    ghost view = { λ n. n.rows };

    ghost invariant = { λ n. AreByDirectory (entries_in n.directories.entries) n.rows × AreOnce n.rows };
}

impl<A: Allocator + Copy> Names<A> {
    pub(crate) fn new(alloc: A) -> Self
        ensures { result ≡ [] }
    {
        Names {
            rows: Rows::new(alloc),
            directories: IndexMap::new(alloc),
            alloc,
        }
    }

    /// How many names there are.
    pub(crate) fn len(&self) -> usize
        ensures { result ≡ length self.now }
    {
        self.rows.len()
    }

    /// The file to which a name in a directory leads.
    pub(crate) fn file_at(&self, directory: u64, name: &[u8]) -> Option<u64>
        ensures { result ≡ option_map (λ n. n.file) (find (is_at directory name.now) self.now) }
    {
        match self.directories.get(&directory) {
            Some(entries) => entries.file_at(name),
            None => None,
        }
    }

    /// The cookie of a name in a directory.
    fn cookie_at(&self, directory: u64, name: &[u8]) -> Option<u64>
        ensures { result ≡ option_map (λ n. n.cookie) (find (is_at directory name.now) self.now) }
    {
        match self.directories.get(&directory) {
            Some(entries) => entries.cookie_at(name),
            None => None,
        }
    }

    /// How many names lead to a file.
    pub(crate) fn count_of(&self, file: u64) -> usize
        ensures { result ≡ count_by (λ n. nat_eq n.file file) self.now }
    {
        self.rows.count_of(file)
    }

    /// The directory of the first name that leads to a file.
    pub(crate) fn parent_of(&self, file: u64) -> Option<u64>
        ensures { result ≡ option_map (λ n. n.directory) (find (λ n. nat_eq n.file file) self.now) }
    {
        self.rows.parent_of(file)
    }

    /// Whether no name is in a directory.
    pub(crate) fn is_empty(&self, directory: u64) -> bool
        ensures { result ≡ nat_eq (length (filter (λ n. nat_eq n.directory directory) self.now)) 0 }
    {
        match self.directories.get(&directory) {
            Some(entries) => entries.is_empty(),
            None => true,
        }
    }

    /// Puts a name last that is not there. Where memory is refused nothing changes.
    pub(crate) fn add(
        &mut self,
        directory: u64,
        name: &[u8],
        file: u64,
        cookie: u64,
    ) -> Result<(), AllocError>
        requires absent { find (is_at directory name.now) self.old ≡ None }
        requires last { IsRising 1 self.old cookie }
        ensures ok { OnOk result (self.new ≡ self.old ++ record {
          directory = directory;
          name = name.now;
          file = file;
          cookie = cookie;
        } ∷ []) }
        ensures unchanged { OnErr result (self.new ≡ self.old) }
    {
        let key = copy_of(name, self.alloc)?;
        let name = copy_of(name, self.alloc)?;
        open(&mut self.directories, directory, self.alloc)?;
        self.rows.push(directory, name, file, cookie)?;
        let link = Link { file, cookie };
        match put_last_in(&mut self.directories, directory, key, link) {
            Ok(()) => Ok(()),
            Err(error) => {
                self.rows.remove(Some(cookie));
                Err(error)
            }
        }
    }

    /// Takes the name in a directory away.
    pub(crate) fn remove(&mut self, directory: u64, name: &[u8])
        requires { AreCookiesRising self.old }
        ensures { self.new ≡ filter (λ n. not (is_at directory name.now n)) self.old }
    {
        let cookie = self.cookie_at(directory, name);
        remove_from(&mut self.directories, directory, name);
        self.rows.remove(cookie);
    }

    /// Lets go what is kept for a directory, if no name is in it.
    pub(crate) fn forget(&mut self, directory: u64)
        ensures { self.new ≡ self.old }
    {
        close(&mut self.directories, directory);
    }

    /// Lets go what is kept for directories without names.
    pub(crate) fn forget_empty(&mut self)
        ensures { self.new ≡ self.old }
    {
        close_empty(&mut self.directories);
    }

    /// Takes two names away and puts the second one anew, last. Where memory is refused nothing changes.
    pub(crate) fn rename(
        &mut self,
        directory: u64,
        old: &[u8],
        new_directory: u64,
        new: &[u8],
        file: u64,
        cookie: u64,
    ) -> Result<(), AllocError>
        requires other { (nat_eq new_directory directory && same_name new.now old.now) ≡ false }
        requires last { IsRising 1 self.old cookie }
        ensures ok { OnOk result (self.new ≡ filter (λ n. not (is_at new_directory new.now n))
            (filter (λ n. not (is_at directory old.now n)) self.old)
            ++ record { directory = new_directory; name = new.now; file = file; cookie = cookie } ∷ []) }
        ensures unchanged { OnErr result (self.new ≡ self.old) }
    {
        let moved = self.cookie_at(directory, old);
        let replaced = self.cookie_at(new_directory, new);
        let key = copy_of(new, self.alloc)?;
        let name = copy_of(new, self.alloc)?;
        open(&mut self.directories, new_directory, self.alloc)?;
        self.rows.push(new_directory, name, file, cookie)?;
        let link = Link { file, cookie };
        if let Err(error) = put_last_in(&mut self.directories, new_directory, key, link) {
            self.rows.remove(Some(cookie));
            return Err(error);
        }
        remove_from(&mut self.directories, directory, old);
        self.rows.remove(moved);
        self.rows.remove(replaced);
        Ok(())
    }

    /// Whether a directory is `top` or below it.
    pub(crate) fn is_below(&self, top: u64, directory: u64) -> bool
        ensures { result ≡ is_within (length self.now) self.now top directory }
    {
        let mut at = directory;
        for _step in 0..self.len() {
            if at == top {
                return true;
            }
            match self.parent_of(at) {
                Some(parent) => at = parent,
                None => return false,
            }
        }
        at == top
    }

    /// The records of the names in a directory with a cookie over `after`, as many as fit this many bytes with this
    /// many bytes more each.
    pub(crate) fn list(
        &self,
        files: &Files<A>,
        directory: u64,
        after: u64,
        size: usize,
        more: usize,
    ) -> Result<Vec<Record<'_>, A>, AllocError>
        requires { more ≤ 128 }
        ensures { IfOk result (λ records. map lead_of records.items
            ≡ fitting_with more size (listed_names files.now directory after self.now)) }
    {
        match self.directories.get(&directory) {
            Some(entries) => entries.list(files, after, size, more),
            None => Ok(Vec::new(self.alloc)),
        }
    }

    /// The files that the names in a directory with a cookie over `after` lead to, as many names as fit this many bytes
    /// with their entries.
    pub(crate) fn files_listed(
        &self,
        directory: u64,
        after: u64,
        size: usize,
    ) -> ArrayVec<u64, MOST_LISTED>
        requires { size ≤ max_transfer }
        ensures { (files : Map Content) → result.items ≡ files_led
            (fitting_with 128 size (listed_names files directory after self.now)) }
    {
        match self.directories.get(&directory) {
            Some(entries) => entries.files_listed(after, size),
            None => ArrayVec::new(),
        }
    }
}
