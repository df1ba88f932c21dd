//! The names in one directory.

ghost use Rattle.std.specs.Prelude.{◌≡◌, ◌++◌, ◌∷◌, [], not, filter, find, map, nat_eq, nat_lt, length, option_map, ◌≤◌, ◌<◌, ◌+◌, cond, None, Some, IfOk, OnErr, OnOk};
ghost use Rattle.fuse_spec.specs.Values.Maps.{Map};
ghost use Rattle.fuse_spec.specs.Files.Trees.{Content, same_name};
ghost use Rattle.fuse_spec.specs.Values.Numbers.{max_transfer};
ghost use Rattle.std.specs.Ordering.{nat_cmp};
ghost use Rattle.std.specs.BTreeMap.{IsOrdered};
ghost use Rattle.arrayvec.specs.ArrayVec.{array_vec_len};
ghost use Rattle.fuse_spec.specs.Files.Operations.{first_listed};
ghost use Rattle.fuse_spec.specs.Calls.Paths.{is_dots};
ghost use Rattle.fs_tree.specs.Stored.{AreBefore, files_led, fitting_with, in_directory, lead_in, without_key};
ghost use Rattle.fs_tree.specs.Views.{lead_of};

use crate::files::Files;
use crate::listing::{ENTRY_LEN, MOST_LISTED, Record, record_len};
use arrayvec::ArrayVec;
use fuse_spec::is_dots;
use fuse_tables::{LentName, NameKey, NumberKey};
use std::alloc::{AllocError, Allocator};
use std::collections::BTreeMap;
use std::marker::Model;
use std::ops::Bound;

/// The file to which a name leads, and the name's cookie.
#[derive(Clone, Copy)]
pub(crate) struct Link {
    pub(crate) file: u64,
    pub(crate) cookie: u64,
}

/// A name, and the file to which it leads.
#[derive(Drop)]
pub(crate) struct NamedFile<A: Allocator> {
    pub(crate) name: Vec<u8, A>,
    pub(crate) file: u64,
}

/// The names in a directory by cookie, and their links by name.
///
/// Callers pick the names, so the links stand in an ordered map: no choice of names makes a look-up slow. What each
/// call costs, for `n` names in the directory:
///
/// | Call | Time |
/// |---|---|
/// | `is_empty` | one step |
/// | `file_at`, `cookie_at`, `put_last`, `remove` | log `n` steps |
/// | `list`, `files_listed` | log `n` steps, and one for each name that is listed |
#[derive(Drop)]
pub(crate) struct Entries<A: Allocator> {
    names: BTreeMap<NumberKey, NamedFile<A>, A>,
    links: BTreeMap<NameKey<A>, Link, A>,
    alloc: A,
}

impl<A: Allocator> Model for Entries<A> {
    ghost use Rattle.std.specs.Prelude.{List, map};
    ghost use Rattle.fs_tree.specs.Stored.{Entry};

    ghost Value = { List Entry };

    ghost use Rattle.fs_tree.specs.Stored.{AreNamedOnce};
    ghost use Rattle.fs_tree.specs.EntryViews.{leaf_entry, AreLinked};

    ghost view = { λ e. map leaf_entry e.names.entries };

    ghost invariant = { λ e. AreLinked e.links.entries (map leaf_entry e.names.entries)
        × AreNamedOnce (map leaf_entry e.names.entries) };
}

impl<A: Allocator + Copy> Entries<A> {
    pub(crate) fn new(alloc: A) -> Self
        ensures { result ≡ [] }
    {
        Entries {
            names: BTreeMap::new(alloc),
            links: BTreeMap::new(alloc),
            alloc,
        }
    }

    /// Whether there is no name.
    pub(crate) fn is_empty(&self) -> bool
        ensures { result ≡ nat_eq (length self.now) 0 }
    {
        self.names.len() == 0
    }

    /// The file to which a name leads.
    pub(crate) fn file_at(&self, name: &[u8]) -> Option<u64>
        ensures { result ≡ option_map (λ e. e.file) (find (λ e. same_name e.name name.now) self.now) }
    {
        match self.links.get(LentName::of(name)) {
            Some(link) => Some(link.file),
            None => None,
        }
    }

    /// The cookie of a name.
    pub(crate) fn cookie_at(&self, name: &[u8]) -> Option<u64>
        ensures { result ≡ option_map (λ e. e.cookie) (find (λ e. same_name e.name name.now) self.now) }
    {
        match self.links.get(LentName::of(name)) {
            Some(link) => Some(link.cookie),
            None => None,
        }
    }

    /// Takes a name away.
    pub(crate) fn remove(&mut self, name: &[u8])
        ensures { self.new ≡ filter (λ e. not (same_name e.name name.now)) self.old }
    {
        let cookie = self.cookie_at(name);
        let _link = self.links.remove(LentName::of(name));
        take_away(&mut self.names, cookie);
    }

    /// Takes a name away and puts it anew, last, under a cookie over all others. Where memory is refused nothing
    /// changes.
    pub(crate) fn put_last(&mut self, name: Vec<u8, A>, link: Link) -> Result<(), AllocError>
        requires { AreBefore link.cookie self.old }
        ensures ok { OnOk result (self.new ≡ filter (λ e. not (same_name e.name name.items)) self.old
            ++ record { name = name.items; file = link.file; cookie = link.cookie } ∷ []) }
        ensures unchanged { OnErr result (self.new ≡ self.old) }
    {
        let leaf = NamedFile {
            name: copy_of(&name, self.alloc)?,
            file: link.file,
        };
        let _none = self.names.insert(NumberKey(link.cookie), leaf)?;
        match self.links.insert(NameKey::new(name), link) {
            Ok(replaced) => {
                take_away(&mut self.names, cookie_of(replaced));
                Ok(())
            }
            Err(_) => {
                take_away(&mut self.names, Some(link.cookie));
                Err(AllocError)
            }
        }
    }

    /// The records of the names with a cookie over `after`, as many as fit this many bytes with this many bytes more
    /// each.
    pub(crate) fn list(
        &self,
        files: &Files<A>,
        after: u64,
        size: usize,
        more: usize,
    ) -> Result<Vec<Record<'_>, A>, AllocError>
        requires { more ≤ 128 }
        ensures { IfOk result (λ records. map lead_of records.items
            ≡ fitting_with more size (map (lead_in files.now)
            (filter (λ n. nat_lt after n.cookie) (map (in_directory 0) self.now)))) }
    {
        // A record has at least 32 bytes.
        let most = self.names.len().min(size / (more + 32));
        let mut records = Vec::with_capacity(self.alloc, most)?;
        let mut room = size;
        for (cookie, leaf) in self
            .names
            .range((Bound::Excluded(NumberKey(after)), Bound::Unbounded))
        {
            let len = more + record_len(&leaf.name);
            if len > room {
                break;
            }
            records.push(Record {
                name: &leaf.name,
                cookie: cookie.0,
                kind: files.kind(leaf.file),
                file: leaf.file,
            })?;
            room -= len;
        }
        Ok(records)
    }

    /// The files that the names with a cookie over `after` lead to, as many names as fit this many bytes with their
    /// entries.
    pub(crate) fn files_listed(&self, after: u64, size: usize) -> ArrayVec<u64, MOST_LISTED>
        requires { size ≤ max_transfer }
        ensures { (files : Map Content) → result.items ≡ files_led
            (fitting_with 128 size (map (lead_in files) (filter (λ n. nat_lt after n.cookie)
            (map (in_directory 0) self.now)))) }
    {
        let mut listed = ArrayVec::new();
        let mut room = size;
        for (_, leaf) in self
            .names
            .range((Bound::Excluded(NumberKey(after)), Bound::Unbounded))
        {
            let len = ENTRY_LEN + record_len(&leaf.name);
            if len > room {
                break;
            }
            list_file(&mut listed, &leaf.name, leaf.file);
            room -= len;
        }
        listed
    }
}

/// Puts the file that a name gives last.
fn list_file(listed: &mut ArrayVec<u64, MOST_LISTED>, name: &[u8], file: u64)
    requires { array_vec_len listed.old < 26 }
    ensures items { listed.new.items ≡ listed.old.items ++ first_listed (cond (is_dots name.now) None (Some file)) [] }
    ensures len { array_vec_len listed.new ≤ array_vec_len listed.old + 1 }
{
    if !is_dots(name) {
        listed.push(file);
    }
}

/// The cookie of a link, if there is one.
#[inline(always)]
fn cookie_of(link: Option<Link>) -> Option<u64>
    ensures { result ≡ option_map (λ l. l.cookie) link }
{
    match link {
        Some(link) => Some(link.cookie),
        None => None,
    }
}

/// Takes the name with this cookie away, if there is one.
fn take_away<A: Allocator>(names: &mut BTreeMap<NumberKey, NamedFile<A>, A>, cookie: Option<u64>)
    ensures entries { names.new.entries ≡ without_key cookie names.old.entries }
    ensures was_ordered { IsOrdered nat_cmp names.old }
{
    let _len = names.len();
    if let Some(cookie) = cookie {
        let _leaf = names.remove(&NumberKey(cookie));
    }
}

/// A copy of a name.
pub(crate) fn copy_of<A: Allocator + Copy>(name: &[u8], alloc: A) -> Result<Vec<u8, A>, AllocError>
    ensures { IfOk result (λ copy. copy.items ≡ name.now) }
{
    name.to_vec(alloc)
}
