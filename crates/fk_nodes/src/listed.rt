//! What the names of a list with their files make of the cached names and of the queues.

ghost use Rattle.std.specs.Prelude.{◌≡◌, ◌≤◌, ◌<◌, ◌+◌, ◌^◌, ℕ, length, None, OnOk, OnErr};
ghost use Rattle.fuse_frames.specs.ReplyTies.{pair_in};
ghost use Rattle.fk_wire.specs.Records.{direntplus_content};
ghost use Rattle.fuse_spec.specs.Calls.CallReplies.{name_listed};
ghost use Rattle.fuse_spec.specs.Values.Maps.{Place};
ghost use Rattle.fuse_spec.specs.Values.Numbers.{max_validity};
ghost use Rattle.fuse_spec.specs.Files.Operations.{listed_by, pair_with};
ghost use Rattle.fuse_spec.specs.Kernel.Replies.{each_forgotten, stale_in, use_of_listed};
ghost use Rattle.fuse_spec.specs.declared.Entry.{Entry as NodeEntry};
ghost use Rattle.fk_dentry.specs.CachedNames.{HasRoom};
ghost use Rattle.fk_nodes.specs.LookedUp.{judged_in, looked_up_from, stale_by, HaveCountsInRange};
ghost use Rattle.fk_nodes.specs.ListedFiles.{pairs_left_in, HasNameRoom, HaveNameRoom, names_judged};

use crate::counted_nodes::CountedNodes;
use crate::entry_use::EntryUse;
use crate::listed_entry::{entry_of, valid_ms};
use fk_dentry::Bindings;
use fk_lookup_count::CountTable;
use fk_queues::QueueTable;
use fk_wire::{DirentPlus, RecordsPlus};
use fuse_spec::Purpose;
use std::alloc::{AllocError, Allocator};

/// Makes room for a name that gives a file.
fn reserve_name<A: Allocator + Copy>(
    names: &mut Bindings<A>,
    directory: u64,
    pair: &DirentPlus<'_>,
) -> Result<(), AllocError>
    ensures names { names.new.names ≡ names.old.names }
    ensures room { OnOk result (HasNameRoom names.new directory (pair_in (direntplus_content pair.now))
        (listed_by (pair_in (direntplus_content pair.now)))) }
    ensures kept { (other : Place) → HasRoom names.old other → HasRoom names.new other }
{
    match entry_of(pair) {
        Some(_) => names.reserve(directory, pair.dirent.name),
        None => Ok(()),
    }
}

/// Makes room for each name of a list that has a file.
///
/// # Errors
///
/// Out of memory. The names are as before.
fn reserve_listed<A: Allocator + Copy>(
    names: &mut Bindings<A>,
    directory: u64,
    pairs: RecordsPlus<'_>,
) -> Result<(), AllocError>
    ensures names { names.new.names ≡ names.old.names }
    ensures room { OnOk result (HaveNameRoom names.new directory (pairs_left_in pairs.entry)) }
{
    for pair in pairs {
        reserve_name(names, directory, &pair)?;
    }
    Ok(())
}

/// A name leads to the file that it gives, if its entry can be used. Where it gives a node under another generation than it
/// is counted, a forget of one lookup is queued.
fn take_name<A: Allocator + Copy, Q: QueueTable<Purpose>, C: CountTable>(
    names: &mut Bindings<A>,
    queues: &mut Q,
    nodes: &CountedNodes<C>,
    directory: u64,
    clock: u64,
    pair: &DirentPlus<'_>,
)
    requires room { HasNameRoom names.old directory (pair_in (direntplus_content pair.now))
        (listed_by (pair_in (direntplus_content pair.now))) }
    requires clock { clock + max_validity < 2 ^ 64 }
    requires forgets { 0 < (Q.room queues.old).forgets }
    ensures names { names.new.names ≡ name_listed clock directory names.old.names
        (pair_with (λ (g : NodeEntry). g.nodeid) (judged_in nodes.now (pair_in (direntplus_content pair.now))))
        (listed_by (pair_with (λ (g : NodeEntry). g.nodeid)
        (judged_in nodes.now (pair_in (direntplus_content pair.now))))) }
    ensures kept { (other : Place) → HasRoom names.old other → HasRoom names.new other }
    ensures state { Q.state queues.new ≡ each_forgotten (Q.state queues.old)
        (stale_in (use_of_listed nodes.now (listed_by (pair_in (direntplus_content pair.now))))) }
    ensures requests { (Q.room queues.old).requests ≤ (Q.room queues.new).requests }
    ensures forgets { (Q.room queues.old).forgets ≤ (Q.room queues.new).forgets + 1 }
{
    let Some(entry) = entry_of(pair) else {
        return;
    };
    match nodes.use_of(&entry) {
        EntryUse::Usable => {
            let until = clock + valid_ms(pair);
            names.put(directory, pair.dirent.name, Some(entry.nodeid), until);
        }
        EntryUse::Stale => queues.forget(entry.nodeid, 1),
        EntryUse::InvalidNodeid => {}
    }
}

/// Caches the names of a list that name a file of which the entry can be used, from this time in milliseconds on, and queues
/// a forget of one lookup of each node that a name gives under another generation than it is counted (this project's rule).
/// Takes no memory.
pub fn take_listed<A: Allocator + Copy, Q: QueueTable<Purpose>, C: CountTable>(
    names: &mut Bindings<A>,
    queues: &mut Q,
    nodes: &CountedNodes<C>,
    directory: u64,
    clock: u64,
    pairs: RecordsPlus<'_>,
)
    requires room { HaveNameRoom names.old directory (pairs_left_in pairs) }
    requires clock { clock + max_validity < 2 ^ 64 }
    requires forgets { length (pairs_left_in pairs) ≤ (Q.room queues.old).forgets }
    ensures names { names.new.names ≡ names_judged clock directory nodes.now names.old.names (pairs_left_in pairs.entry) }
    ensures state { Q.state queues.new ≡ each_forgotten (Q.state queues.old)
        (stale_by nodes.now (pairs_left_in pairs.entry)) }
    ensures requests { (Q.room queues.old).requests ≤ (Q.room queues.new).requests }
    ensures forgets { (Q.room queues.old).forgets ≤ (Q.room queues.new).forgets + length (pairs_left_in pairs.entry) }
{
    for pair in pairs {
        take_name(names, queues, nodes, directory, clock, &pair);
    }
}

/// Makes room for the names of a list that give files, and counts their nodes.
///
/// # Errors
///
/// Out of memory. Nothing changed.
pub fn count_listed<A: Allocator + Copy, C: CountTable>(
    names: &mut Bindings<A>,
    nodes: &mut CountedNodes<C>,
    directory: u64,
    pairs: RecordsPlus<'_>,
) -> Result<(), AllocError>
    requires { HaveCountsInRange (looked_up_from nodes.old (pairs_left_in pairs)) }
    ensures names { names.new.names ≡ names.old.names }
    ensures room { OnOk result (HaveNameRoom names.new directory (pairs_left_in pairs.entry)) }
    ensures ok { OnOk result (nodes.new ≡ looked_up_from nodes.old (pairs_left_in pairs.entry)) }
    ensures err { OnErr result (nodes.new ≡ nodes.old) }
{
    reserve_listed(names, directory, pairs)?;
    nodes.count_listed(pairs)
}
