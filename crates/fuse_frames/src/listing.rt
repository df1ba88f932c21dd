//! The pairs of a READDIRPLUS reply, written into room that is there.

ghost use Rattle.std.specs.Prelude.{◌≡◌, ◌≤◌, ◌+◌, ◌*◌, ◌++◌, List, length, vec_len, vec_capacity};
ghost use Rattle.fk_wire.specs.Dirents.{DirentContent, direntpluses};
ghost use Rattle.fk_wire.specs.Fields.{InRange, spellings};
ghost use Rattle.fuse_frames.specs.ReplyTies.{AreWritten, pairs_listed};

use crate::reply_room::entry_of;
use fk_wire::{put_listed, split_record};
use fuse_spec::Entry;
use std::alloc::Allocator;

/// Appends the names that records list, each with the entry of its file. The records are copied as they stand.
pub(crate) fn put_listing<A: Allocator>(
    out: &mut Vec<u8, A>,
    entries: &[Entry],
    records: &[u8],
    found_ms: u64,
)
    requires written { (ds : List DirentContent) × AreWritten ds records.now × (length entries.now ≡ length ds) }
    requires room { vec_len out.old + (128 * length entries.now + length records.now) ≤ vec_capacity out.old }
    ensures items { (ds : List DirentContent) → AreWritten ds records.now → length entries.now ≡ length ds
        → out.new.items ≡ out.old.items ++ spellings (direntpluses (pairs_listed found_ms entries.now ds)) }
    ensures fits { (ds : List DirentContent) → AreWritten ds records.now → length entries.now ≡ length ds
        → InRange (direntpluses (pairs_listed found_ms entries.now ds)) }
{
    let mut left = records;
    'entries: for entry in entries {
        let (record, others) = split_record(left);
        put_listed(out, &entry_of(entry, found_ms), record);
        left = others;
    }
}
