//! A name that is about to be bound.

ghost use Rattle.std.specs.Prelude.{◌≡◌, Some, MatchOption};
ghost use Rattle.fuse_spec.specs.Calls.Walks.{go, missing};
ghost use Rattle.fk_syscalls.specs.Words.{words_from, AreWords};
ghost use Rattle.fuse_spec.specs.Calls.Vfs.{valid_at};
ghost use Rattle.std.specs.Cmp.Lexicographic.{slice_cmp};
ghost use Rattle.std.specs.Ordering.{nat_cmp, eq_by_cmp};
ghost use Rattle.fuse_spec.specs.Values.Maps.{place_cmp};
ghost use Rattle.fk_dentry.specs.CachedNames.{found_by};
ghost use Rattle.fk_syscalls.specs.Walks.{known, stop_at};
ghost use Rattle.fk_syscalls.specs.NewNames.{new_place_of, with_new_name};

use crate::walk::Stop;
use crate::words::word_at;
use fk_dentry::{Bindings, Found};
use std::alloc::Allocator;
use std::cmp::Ordering;

/// A name of a directory that is about to lead to a node, until a time in milliseconds.
#[derive(Clone, Copy, Debug)]
pub struct NewName<'a> {
    pub directory: u64,
    pub name: &'a [u8],
    pub node: u64,
    pub until: u64,
}

fn compare_names<'a>(name: &'a [u8], other: &'a [u8]) -> Ordering
    ensures { result ≡ slice_cmp nat_cmp name.now other.now }
{
    Ord::cmp(&name, &other)
}

impl NewName<'_> {
    fn compare(&self, directory: u64, name: &[u8]) -> Ordering
        ensures { result ≡ place_cmp (directory, name.now) (new_place_of self.now) }
    {
        match directory.cmp(&self.directory) {
            Ordering::Equal => compare_names(name, self.name),
            apart => apart,
        }
    }

    fn is_of(&self, directory: u64, name: &[u8]) -> bool
        ensures { result ≡ eq_by_cmp place_cmp (directory, name.now) (new_place_of self.now) }
    {
        match self.compare(directory, name) {
            Ordering::Equal => true,
            Ordering::Less | Ordering::Greater => false,
        }
    }

    /// What a name would lead to at a time, were this one bound.
    pub(crate) fn find<A: Allocator + Copy>(
        &self,
        names: &Bindings<A>,
        clock: u64,
        directory: u64,
        name: &[u8],
    ) -> Found
        ensures { result ≡ found_by (known (with_new_name names.now.names self.now) clock directory name.now) }
    {
        if self.is_of(directory, name) {
            return self.at(clock);
        }
        names.find(directory, name, clock)
    }

    /// What it would lead to at a time.
    fn at(&self, clock: u64) -> Found
        ensures { result ≡ found_by (valid_at clock (Some
            (record { target = Some self.now.node; until = self.now.until }))) }
    {
        if clock < self.until {
            Found::Node(self.node)
        } else {
            Found::Unknown
        }
    }
}

/// Walks from a node, as `walk` would were the name bound.
pub(crate) fn walk_past<A: Allocator + Copy>(
    names: &Bindings<A>,
    new: &NewName<'_>,
    clock: u64,
    from: u64,
    words: &[u8],
    at: Option<usize>,
) -> Option<Stop>
    requires { AreWords words.now at }
    ensures stop { MatchOption result (go (known (with_new_name names.now.names new.now) clock) from
        (words_from words.now at) ≡ missing) (λ stop. go (known (with_new_name names.now.names new.now) clock) from
        (words_from words.now at) ≡ stop_at stop.node (words_from words.now stop.at)) }
{
    let mut stop = Stop { node: from, at };
    while let Some(place) = stop.at {
        let (name, next) = word_at(words, place);
        match new.find(names, clock, stop.node, name) {
            Found::Node(node) => stop = Stop { node, at: next },
            Found::Missing => return None,
            Found::Unknown => return Some(stop),
        }
    }
    Some(stop)
}
