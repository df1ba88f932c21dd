//! The names of a tree by cookie, and how many lead to a file.

ghost use Rattle.std.specs.Prelude.{◌≡◌, ℕ, ◌++◌, ◌∷◌, [], find, length, count_by, nat_eq, option_map, OnOk, OnErr, Option};
ghost use Rattle.fs_tree.specs.Stored.{AreCookiesRising, IsRising, without_cookie};

use crate::parents::{ParentsByFile, close, open, put_last_in, remove_from};
use fuse_tables::RisingTable;
use indexmap::IndexMap;
use std::alloc::{AllocError, Allocator};
use std::marker::Model;

/// A name in a directory, and the file to which it leads.
#[derive(Drop)]
pub(crate) struct Row<A: Allocator> {
    pub(crate) directory: u64,
    pub(crate) name: Vec<u8, A>,
    pub(crate) file: u64,
}

/// The names by cookie, and for each file the directories of its names. Cookies rise by 1, so most names stand as far
/// behind the first as their cookie is above its.
#[derive(Drop)]
pub(crate) struct Rows<A: Allocator> {
    names: RisingTable<Row<A>, A>,
    parents: ParentsByFile<A>,
    alloc: A,
}

impl<A: Allocator> Model for Rows<A> {
    ghost use Rattle.std.specs.Prelude.{List, map};
    ghost use Rattle.fuse_spec.specs.Files.Trees.{Named};

    ghost Value = { List Named };

    ghost use Rattle.fs_tree.specs.Views.{named_of};
    ghost use Rattle.fs_tree.specs.Stored.{parents_in, AreByFile};

    ghost view = { λ r. map named_of r.names.entries };

    ghost invariant = { λ r. AreByFile (parents_in r.parents.entries) (map named_of r.names.entries) };
}

impl<A: Allocator + Copy> Rows<A> {
    pub(crate) fn new(alloc: A) -> Self
        ensures { result ≡ [] }
    {
        Rows {
            names: RisingTable::new(alloc),
            parents: IndexMap::new(alloc),
            alloc,
        }
    }

    /// How many names there are.
    pub(crate) fn len(&self) -> usize
        ensures { result ≡ length self.now }
    {
        self.names.len()
    }

    /// How many names lead to a file.
    pub(crate) fn count_of(&self, file: u64) -> usize
        ensures { result ≡ count_by (λ n. nat_eq n.file file) self.now }
    {
        match self.parents.get(&file) {
            Some(parents) => parents.len(),
            None => 0,
        }
    }

    /// The directory of the first name that leads to a file.
    pub(crate) fn parent_of(&self, file: u64) -> Option<u64>
        ensures { result ≡ option_map (λ n. n.directory) (find (λ n. nat_eq n.file file) self.now) }
    {
        match self.parents.get(&file) {
            Some(parents) => parents.first(),
            None => None,
        }
    }

    /// Puts a name last, under a cookie over all others. Where memory is refused nothing changes.
    pub(crate) fn push(
        &mut self,
        directory: u64,
        name: Vec<u8, A>,
        file: u64,
        cookie: u64,
    ) -> Result<(), AllocError>
        requires { IsRising 1 self.old cookie }
        ensures ok { OnOk result (self.new ≡ self.old ++ record {
          directory = directory;
          name = name.items;
          file = file;
          cookie = cookie;
        } ∷ []) }
        ensures unchanged { OnErr result (self.new ≡ self.old) }
    {
        open(&mut self.parents, file, self.alloc)?;
        put_last_in(&mut self.parents, file, cookie, directory)?;
        let row = Row {
            directory,
            name,
            file,
        };
        match self.names.reserve(1) {
            Ok(()) => {
                self.names.put(cookie, row);
                Ok(())
            }
            Err(error) => {
                remove_from(&mut self.parents, file, cookie);
                Err(error)
            }
        }
    }

    /// Takes the name with this cookie away, if there is one.
    pub(crate) fn remove(&mut self, cookie: Option<u64>)
        requires { AreCookiesRising self.old }
        ensures { self.new ≡ without_cookie cookie self.old }
    {
        let Some(cookie) = cookie else {
            return;
        };
        let Some(row) = self.names.remove(cookie) else {
            return;
        };
        remove_from(&mut self.parents, row.file, cookie);
        close(&mut self.parents, row.file);
    }
}
