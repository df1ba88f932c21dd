//! How many of the requests that wait name a node, and use an open file.

ghost use Rattle.std.specs.Prelude.{◌≡◌, ℕ, ◌+◌, ◌-◌, ◌<◌, ◌≤◌, ◌^◌, nat_eq};
ghost use Rattle.fuse_sessions.specs.declared.act.OpenFile.{OpenFile};
ghost use Rattle.fuse_sessions.specs.Waiting.{is_that};
ghost use Rattle.fuse_judge.specs.Handles.{handle, same_handle};
ghost use Rattle.fuse_judge.specs.Pending.{names_of, uses_of};
ghost use Rattle.fuse_judge.specs.Tallies.{count_in, one_if};

use crate::handle::{Handle, handle_of};
use crate::tally::Tally;
use fuse_sessions::{Asked, OpenFile};
use std::alloc::Allocator;

/// The nodes that a request names are named once more.
pub(crate) fn add_names<A: Allocator + Copy>(named: &mut Tally<u64, A>, asked: &Asked)
    requires room { 2 ≤ named.old.room }
    requires few { (node : ℕ) → count_in nat_eq named.old.counts node + 2 < 2 ^ 64 }
    ensures counts { (node : ℕ) → count_in nat_eq named.new.counts node
        ≡ count_in nat_eq named.old.counts node + names_of node asked.now }
    ensures room { named.old.room ≤ named.new.room + 2 }
{
    named.add(asked.nodeid);
    named.add(asked.other);
}

/// The nodes that a request names are named once less.
pub(crate) fn take_names<A: Allocator + Copy>(named: &mut Tally<u64, A>, asked: &Asked)
    ensures counts { (node : ℕ) → count_in nat_eq named.new.counts node
        ≡ count_in nat_eq named.old.counts node - names_of node asked.now }
    ensures room { named.old.room ≤ named.new.room }
{
    named.take(asked.nodeid);
    named.take(asked.other);
}

/// An open file, if there is one, is used once more.
fn add_use<A: Allocator + Copy>(used: &mut Tally<Handle, A>, file: Option<OpenFile>)
    requires room { 0 < used.old.room }
    requires few { (q : OpenFile) → count_in same_handle used.old.counts (handle q) + 1 < 2 ^ 64 }
    ensures counts { (q : OpenFile) → count_in same_handle used.new.counts (handle q)
        ≡ count_in same_handle used.old.counts (handle q) + one_if (is_that q file) }
    ensures room { used.old.room ≤ used.new.room + 1 }
{
    if let Some(file) = file {
        used.add(handle_of(file));
    }
}

/// An open file, if there is one, is used once less.
fn take_use<A: Allocator + Copy>(used: &mut Tally<Handle, A>, file: Option<OpenFile>)
    ensures counts { (q : OpenFile) → count_in same_handle used.new.counts (handle q)
        ≡ count_in same_handle used.old.counts (handle q) - one_if (is_that q file) }
    ensures room { used.old.room ≤ used.new.room }
{
    if let Some(file) = file {
        used.take(handle_of(file));
    }
}

/// The open files of a request are used once more.
pub(crate) fn add_uses<A: Allocator + Copy>(used: &mut Tally<Handle, A>, asked: &Asked)
    requires room { 2 ≤ used.old.room }
    requires few { (q : OpenFile) → count_in same_handle used.old.counts (handle q) + 2 < 2 ^ 64 }
    ensures counts { (file : OpenFile) → count_in same_handle used.new.counts (handle file)
        ≡ count_in same_handle used.old.counts (handle file) + uses_of file asked.now }
    ensures room { used.old.room ≤ used.new.room + 2 }
{
    add_use(used, asked.uses);
    add_use(used, asked.copies_to);
}

/// The open files of a request are used once less.
pub(crate) fn take_uses<A: Allocator + Copy>(used: &mut Tally<Handle, A>, asked: &Asked)
    ensures counts { (file : OpenFile) → count_in same_handle used.new.counts (handle file)
        ≡ count_in same_handle used.old.counts (handle file) - uses_of file asked.now }
    ensures room { used.old.room ≤ used.new.room }
{
    take_use(used, asked.uses);
    take_use(used, asked.copies_to);
}
