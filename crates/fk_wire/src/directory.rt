//! Records and pairs, written one by one.

ghost use Rattle.std.specs.Prelude.{◌≡◌, ◌≢◌, ◌≤◌, ◌+◌, ◌<◌, ◌^◌, length, OnOk, OnErr};
ghost use Rattle.std.specs.Prelude.{IfErr, ◌++◌, ◌∷◌, [], vec_len, vec_capacity};
ghost use Rattle.fk_wire.specs.Fields.{InRange, sizes, spellings, u32, u64, IsRecordName};
ghost use Rattle.fk_wire.specs.Entries.{IsEntry, entry_content, entry_fields};
ghost use Rattle.fk_wire.specs.Dirents.{dirents, dirent_fields, direntpluses};
ghost use Rattle.fk_wire.specs.Records.{records_in, pluses_in, dirent_content, direntplus_content};
ghost use Rattle.fk_wire.specs.declared.fault.WireFault.TheVariants.{Memory as MemoryFault};
ghost use Rattle.fk_wire.specs.Requests.{max_frame};
ghost use Rattle.fk_wire.specs.Puts.{RecordRefusalIs, PlusRefusalIs};

use crate::entry::{Entry, is_timed, put_entry};
use crate::fault::WireFault;
use crate::records::{Dirent, Records};
use crate::records_plus::{DirentPlus, RecordsPlus};
use crate::room::{put_bytes, put_two_u32, put_two_u64, put_u32, put_u64, put_zeros};
use crate::walk::{is_record_name, padded_len};
use std::alloc::Allocator;

#[tactic(auto, using(std::proofs::Common::append_assoc))]
#[inline(always)]
fn put_dirent<A: Allocator>(out: &mut Vec<u8, A>, dirent: &Dirent<'_>)
    requires room { vec_len out.old + sizes (dirent_fields (dirent_content dirent.now) []) ≤ vec_capacity out.old }
    requires short { length dirent.now.name.now ≤ 255 }
    ensures items { out.new.items ≡ out.old.items ++ spellings (dirent_fields (dirent_content dirent.now) []) }
    ensures len { vec_len out.new ≡ vec_len out.old + sizes (dirent_fields (dirent_content dirent.now) []) }
    ensures capacity { vec_capacity out.old ≤ vec_capacity out.new }
    ensures fits { InRange (dirent_fields (dirent_content dirent.now) []) }
{
    let len = dirent.name.len();
    put_two_u64(out, dirent.ino, dirent.off);
    put_two_u32(out, len as u32, dirent.kind);
    put_bytes(out, dirent.name);
    put_zeros(out, (8 - len % 8) % 8);
}

/// Writes records at the end.
pub(crate) fn put_dirents<A: Allocator>(out: &mut Vec<u8, A>, records: Records<'_>)
    requires { vec_len out.old + sizes (dirents (records_in records)) ≤ vec_capacity out.old }
    ensures items { out.new.items ≡ out.old.items ++ spellings (dirents (records_in records.entry)) }
    ensures fits { InRange (dirents (records_in records.entry)) }
{
    'records: for dirent in records {
        put_dirent(out, &dirent);
    }
}

/// Writes pairs at the end.
pub(crate) fn put_direntpluses<A: Allocator>(out: &mut Vec<u8, A>, records: RecordsPlus<'_>)
    requires { vec_len out.old + sizes (direntpluses (pluses_in records)) ≤ vec_capacity out.old }
    ensures items { out.new.items ≡ out.old.items ++ spellings (direntpluses (pluses_in records.entry)) }
    ensures fits { InRange (direntpluses (pluses_in records.entry)) }
{
    'pairs: for pair in records {
        put_entry(out, &pair.entry_out);
        put_dirent(out, &pair.dirent);
    }
}

/// Appends the head of a reply without error whose body has this many bytes, at most `MAX_FRAME` less the head's 16,
/// into room that is there: `struct fuse_out_header`.
#[tactic(auto, using(std::proofs::Common::append_assoc))]
pub fn put_listing_head<A: Allocator>(out: &mut Vec<u8, A>, unique: u64, size: usize)
    requires room { vec_len out.old + 16 ≤ vec_capacity out.old }
    requires short { 16 + size ≤ max_frame }
    ensures items { out.new.items ≡ out.old.items ++ spellings (u32 (16 + size) ∷ u32 0 ∷ u64 unique ∷ []) }
    ensures len { vec_len out.new ≡ vec_len out.old + 16 }
    ensures capacity { vec_capacity out.old ≤ vec_capacity out.new }
{
    put_u32(out, 16 + size as u32);
    put_u32(out, 0);
    put_u64(out, unique);
}

/// Appends an entry and the bytes of a record, into room that is there: `struct fuse_direntplus`.
#[tactic(auto, using(std::proofs::Common::append_assoc))]
pub fn put_listed<A: Allocator>(out: &mut Vec<u8, A>, entry: &Entry, bytes: &[u8])
    requires room { vec_len out.old + (128 + length bytes.now) ≤ vec_capacity out.old }
    ensures items { out.new.items ≡ out.old.items ++ (spellings (entry_fields (entry_content entry.now) [])
        ++ bytes.now) }
    ensures len { vec_len out.new ≡ vec_len out.old + (128 + length bytes.now) }
    ensures capacity { vec_capacity out.old ≤ vec_capacity out.new }
    ensures fits { InRange (entry_fields (entry_content entry.now) []) }
{
    put_entry(out, entry);
    put_bytes(out, bytes);
}

/// Appends one record (`struct fuse_dirent`).
///
/// # Errors
///
/// `Name` where the name is no record's name; then `Memory`. The vector is as before.
#[tactic(auto, using(std::proofs::Common::append_assoc))]
#[inline(always)]
pub fn put_record<A: Allocator>(out: &mut Vec<u8, A>, dirent: &Dirent<'_>) -> Result<(), WireFault>
    ensures ok { OnOk result (IsRecordName dirent.now.name.now
        × (out.new.items ≡ out.old.items ++ spellings (dirents (dirent_content dirent.now ∷ [])))) }
    ensures fits { OnOk result (InRange (dirents (dirent_content dirent.now ∷ []))) }
    ensures err { OnErr result (out.new.items ≡ out.old.items) }
    ensures fault { IfErr result (RecordRefusalIs (dirent_content dirent.now)) }
    ensures room { vec_len out.old + sizes (dirents (dirent_content dirent.now ∷ [])) ≤ vec_capacity out.old
        → result ≢ Err MemoryFault }
{
    if !is_record_name(dirent.name) {
        return Err(WireFault::Name);
    }
    out.reserve(24 + padded_len(dirent.name.len()))
        .map_err(|_| WireFault::Memory)?;
    put_dirent(out, dirent);
    Ok(())
}

/// Appends one pair of an entry and a record (`struct fuse_direntplus`).
///
/// # Errors
///
/// `Body` where the entry's nanoseconds are a second or more, `Name` where the name is no record's
/// name; then `Memory`. The vector is as before.
#[tactic(auto, using(std::proofs::Common::append_assoc, crate::proofs::Spelled::written_entries))]
pub fn put_record_plus<A: Allocator>(
    out: &mut Vec<u8, A>,
    pair: &DirentPlus<'_>,
) -> Result<(), WireFault>
    ensures ok { OnOk result (IsEntry (direntplus_content pair.now).entry_out × IsRecordName pair.now.dirent.name.now
        × (out.new.items ≡ out.old.items ++ spellings (direntpluses (direntplus_content pair.now ∷ [])))) }
    ensures err { OnErr result (out.new.items ≡ out.old.items) }
    ensures fault { IfErr result (PlusRefusalIs (direntplus_content pair.now)) }
    ensures room { vec_len out.old + sizes (direntpluses (direntplus_content pair.now ∷ [])) ≤ vec_capacity out.old
        → result ≢ Err MemoryFault }
{
    if !is_timed(&pair.entry_out) {
        return Err(WireFault::Body);
    }
    if !is_record_name(pair.dirent.name) {
        return Err(WireFault::Name);
    }
    out.reserve(152 + padded_len(pair.dirent.name.len()))
        .map_err(|_| WireFault::Memory)?;
    put_entry(out, &pair.entry_out);
    put_dirent(out, &pair.dirent);
    Ok(())
}
