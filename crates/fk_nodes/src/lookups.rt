//! How the nodes of the names of a list are counted in a table.

ghost use Rattle.std.specs.Prelude.{◌≡◌, ◌<◌, ◌+◌, ◌^◌, ℕ, length, nat_lt, is_none, OnOk};
ghost use Rattle.std.specs.Option.{ForSome};
ghost use Rattle.fk_wire.specs.Records.{direntplus_content};
ghost use Rattle.fuse_frames.specs.ReplyTies.{pair_in};
ghost use Rattle.fuse_spec.specs.Values.Maps.{get};
ghost use Rattle.fuse_spec.specs.Files.Operations.{listed_by};
ghost use Rattle.fuse_spec.specs.Kernel.Replies.{use_counted};
ghost use Rattle.fk_nodes.specs.LookedUp.{looked_up_by_use, looked_up_listed, looked_up_from, HaveCountsInRange};
ghost use Rattle.fk_nodes.specs.LookedUp.{is_of_node, times_listed};
ghost use Rattle.fk_nodes.specs.Rooms.{HasNodeRoom, HaveNodeRoom};
ghost use Rattle.fk_nodes.specs.ListedFiles.{pairs_left_in};

use crate::listed_entry::entry_of;
use fk_lookup_count::CountTable;
use fk_wire::{DirentPlus, RecordsPlus};
use fuse_spec::Entry;
use std::alloc::AllocError;

/// Makes room for the node that a name gives.
fn reserve_node<C: CountTable>(table: &mut C, pair: &DirentPlus<'_>) -> Result<(), AllocError>
    ensures counted { C.counted table.new ≡ C.counted table.old }
    ensures room { OnOk result (HasNodeRoom (C.has_room table.new)
        (listed_by (pair_in (direntplus_content pair.now)))) }
    ensures kept { (other : ℕ) → C.has_room table.old other → C.has_room table.new other }
{
    match entry_of(pair) {
        Some(entry) if entry.nodeid >= 2 => table.reserve(entry.nodeid),
        _ => Ok(()),
    }
}

/// Makes room for the nodes of the names of a list.
pub(crate) fn reserve_nodes<C: CountTable>(
    table: &mut C,
    pairs: RecordsPlus<'_>,
) -> Result<(), AllocError>
    ensures counted { C.counted table.new ≡ C.counted table.old }
    ensures room { OnOk result (HaveNodeRoom (C.has_room table.new) (pairs_left_in pairs.entry)) }
{
    for pair in pairs {
        reserve_node(table, &pair)?;
    }
    Ok(())
}

/// Counts one lookup more of a node that has room, unless it is counted under another generation. Says whether it was
/// not counted before.
fn count_one<C: CountTable>(table: &mut C, entry: &Entry) -> bool
    requires room { C.has_room table.old entry.now.nodeid }
    requires fits { ForSome (get (C.counted table.old) entry.now.nodeid) (λ counted. counted.count + 1 < 2 ^ 64) }
    ensures counted { C.counted table.new ≡ looked_up_by_use (C.counted table.old) entry.now
        (use_counted entry.now (get (C.counted table.old) entry.now.nodeid)) }
    ensures new { result ≡ is_none (get (C.counted table.old) entry.now.nodeid) }
    ensures kept { (other : ℕ) → C.has_room table.old other → C.has_room table.new other }
{
    match table.reserve_and_learn(entry.nodeid, entry.generation) {
        Ok(Ok(is_new)) => is_new,
        // It is counted under another generation, and nothing changed.
        Ok(Err(_)) => false,
        // It never comes to this: room was made before.
        Err(_) => false,
    }
}

/// Counts one lookup more of the node that a name gives, if its entry can be used. Is given how many nodes are counted,
/// and gives how many are then.
fn count_pair<C: CountTable>(table: &mut C, len: usize, pair: &DirentPlus<'_>) -> usize
    requires room { HasNodeRoom (C.has_room table.old) (listed_by (pair_in (direntplus_content pair.now))) }
    requires below { HaveCountsInRange (C.counted table.old) }
    requires len { len ≡ length (C.counted table.old) }
    ensures counted { C.counted table.new ≡ looked_up_listed (C.counted table.old)
        (listed_by (pair_in (direntplus_content pair.now))) }
    ensures kept { (other : ℕ) → C.has_room table.old other → C.has_room table.new other }
    ensures len { result ≡ length (C.counted table.new) }
{
    let Some(entry) = entry_of(pair) else {
        return len;
    };
    if entry.nodeid < 2 {
        return len;
    }
    table.lemma_sound();
    if count_one(table, &entry) {
        return len + 1;
    }
    len
}

/// Counts the nodes of the names of a list, each judged by the counts that those before it left. Is given how many
/// nodes are counted, and gives how many are then. Takes no memory.
pub(crate) fn count_all<C: CountTable>(table: &mut C, len: usize, pairs: RecordsPlus<'_>) -> usize
    requires room { HaveNodeRoom (C.has_room table.old) (pairs_left_in pairs) }
    requires below { HaveCountsInRange (looked_up_from (C.counted table.old) (pairs_left_in pairs)) }
    requires len { len ≡ length (C.counted table.old) }
    ensures counted { C.counted table.new ≡ looked_up_from (C.counted table.old) (pairs_left_in pairs.entry) }
    ensures len { result ≡ length (C.counted table.new) }
{
    let mut len = len;
    for pair in pairs {
        len = count_pair(table, len, &pair);
    }
    len
}

/// Whether a name gives a node under a generation.
fn is_pair_of(pair: &DirentPlus<'_>, id: u64, generation: u64) -> bool
    ensures { result ≡ is_of_node id generation (listed_by (pair_in (direntplus_content pair.now))) }
{
    match entry_of(pair) {
        Some(entry) => entry.nodeid == id && entry.generation == generation,
        None => false,
    }
}

/// Whether more than this many names of a list have a node under a generation.
pub(crate) fn lists_more_than(pairs: RecordsPlus<'_>, id: u64, generation: u64, limit: u64) -> bool
    ensures { result ≡ nat_lt limit (times_listed id generation (pairs_left_in pairs.entry)) }
{
    let mut left = limit;
    for pair in pairs {
        if is_pair_of(&pair, id, generation) {
            if left == 0 {
                return true;
            }
            left -= 1;
        }
    }
    false
}
