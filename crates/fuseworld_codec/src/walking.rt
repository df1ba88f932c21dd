//! The pairs and the records of a frame, one at a time.

ghost use Rattle.std.specs.Prelude.{◌≡◌, ◌≢◌, ◌≤◌, ◌<◌, ◌+◌, ◌-◌, ◌%◌, ◌^◌, ◌↔◌, IsTrue, IfOk, IfErr, IsOk, Err};
ghost use Rattle.std.specs.Prelude.{false, length, true};
ghost use Rattle.fk_wire.specs.Fields.{IsRecordName, number_at};
ghost use Rattle.fk_wire.specs.Dirents.{dirent_at};
ghost use Rattle.fk_wire.specs.Entries.{entry_at};
ghost use Rattle.fk_wire.specs.RecordEnds.{name_at, padded, record_end};
ghost use Rattle.fuseworld_codec.specs.ReplyStructs.{dirent_said, entry_said};

use crate::layout::{FlatAttr, FlatDirent, FlatDirentPlus, FlatEntry, ForgetOne};
use crate::status::{BODY, DONE, END, NAME, PLACE};
use fk_fields::{u32_at, u64_at};

/// Reads the pair that stands at `offset` into `out`, and moves `offset` behind it.
///
/// # Errors
///
/// 10 where the offset is beyond the bytes, 11 where it is their end, and 5 where fewer than 16 bytes are
/// left. Then both stay as they were.
#[unsafe(no_mangle)]
pub extern "C" fn fuseworld_next_pair(bytes: &[u8], offset: &mut usize, out: &mut ForgetOne) -> u32
    ensures ok { result ≡ 0 → (out.new.nodeid ≡ number_at offset.old 8 bytes.now)
        × (out.new.nlookup ≡ number_at (offset.old + 8) 8 bytes.now) }
    ensures next { result ≡ 0 → (offset.new ≡ offset.old + 16) × (offset.new ≤ length bytes.now) }
    ensures whole { offset.old + 16 ≤ length bytes.now → result ≡ 0 }
    ensures short { offset.old < length bytes.now → length bytes.now < offset.old + 16 → result ≡ 5 }
    ensures end { (result ≡ 11) ↔ (offset.old ≡ length bytes.now) }
    ensures place { (result ≡ 10) ↔ (length bytes.now < offset.old) }
    ensures kept { result ≢ 0 → (out.new ≡ out.old) × (offset.new ≡ offset.old) }
{
    let place = *offset;
    if place > bytes.len() {
        return PLACE;
    }
    if place == bytes.len() {
        return END;
    }
    if bytes.len() - place < 16 {
        return BODY;
    }
    *out = ForgetOne {
        nodeid: u64_at(bytes, place),
        nlookup: u64_at(bytes, place + 8),
    };
    *offset = place + 16;
    DONE
}

/// How long a name is with its padding to a multiple of 8.
fn padded_len(len: usize) -> usize
    requires { len < 2 ^ 62 }
    ensures { result ≡ padded len }
{
    (len + 7) / 8 * 8
}

/// Whether the bytes are a record's name.
fn is_record_name(bytes: &[u8]) -> bool
    ensures { IsTrue result ↔ IsRecordName bytes.now }
{
    !bytes.is_empty() && bytes.len() <= 255 && bytes.iter().all(|b| *b != 0 && *b != b'/')
}

/// The record that begins at a place, and where it ends.
#[tactic(auto, unfolding(fk_fields::specs::Fields::bytes_at, fk_wire::specs::RecordEnds::record_end))]
fn record_at(bytes: &[u8], place: usize) -> Result<(FlatDirent, usize), u32>
    requires { place ≤ length bytes.now }
    ensures says { IfOk result (λ r. dirent_said r.0 bytes.now ≡ dirent_at place bytes.now) }
    ensures name { IfOk result (λ r. IsRecordName (name_at place bytes.now)) }
    ensures ends { IfOk result (λ r. (r.1 ≡ record_end false place bytes.now) × (r.1 ≤ length bytes.now)) }
    ensures within { IfOk result (λ r. r.0.name_offset + r.0.name_length ≤ r.1) }
    ensures padding { IfOk result (λ r. r.0.padding ≡ 0) }
    ensures only { record_end false place bytes.now ≤ length bytes.now → IsRecordName (name_at place bytes.now)
        → IsOk result }
    ensures short { length bytes.now < record_end false place bytes.now → result ≡ Err 5 }
    ensures unnamed { record_end false place bytes.now ≤ length bytes.now
        → (IsRecordName (name_at place bytes.now) → ⊥) → result ≡ Err 4 }
    ensures fault { IfErr result (λ e. (e ≢ 0) × (e ≢ 10) × (e ≢ 11)) }
{
    if bytes.len() - place < 24 {
        return Err(BODY);
    }
    let len = u32_at(bytes, place + 16) as usize;
    if bytes.len() - place - 24 < padded_len(len) {
        return Err(BODY);
    }
    if !is_record_name(&bytes[place + 24..place + 24 + len]) {
        return Err(NAME);
    }
    let dirent = FlatDirent {
        ino: u64_at(bytes, place),
        off: u64_at(bytes, place + 8),
        name_offset: place + 24,
        name_length: len,
        kind: u32_at(bytes, place + 20),
        padding: 0,
    };
    Ok((dirent, place + 24 + padded_len(len)))
}

/// Reads the record that stands at `offset` into `out`, and moves `offset` behind it.
///
/// # Errors
///
/// 10 where the offset is beyond the bytes, 11 where it is their end, 5 where no whole record is left, and 4
/// where its name is none of a record. Then both stay as they were.
#[unsafe(no_mangle)]
pub extern "C" fn fuseworld_next_record(
    bytes: &[u8],
    offset: &mut usize,
    out: &mut FlatDirent,
) -> u32
    ensures ok { result ≡ 0 → (dirent_said out.new bytes.now ≡ dirent_at offset.old bytes.now)
        × IsRecordName (name_at offset.old bytes.now) }
    ensures next { result ≡ 0 → (offset.new ≡ record_end false offset.old bytes.now)
        × (offset.new ≤ length bytes.now) }
    ensures whole { offset.old < length bytes.now → record_end false offset.old bytes.now ≤ length bytes.now
        → IsRecordName (name_at offset.old bytes.now) → result ≡ 0 }
    // The name lies within the record.
    ensures within { result ≡ 0 → out.new.name_offset + out.new.name_length ≤ offset.new }
    ensures padding { result ≡ 0 → out.new.padding ≡ 0 }
    ensures short { offset.old < length bytes.now → length bytes.now < record_end false offset.old bytes.now
        → result ≡ 5 }
    ensures unnamed { offset.old < length bytes.now → record_end false offset.old bytes.now ≤ length bytes.now
        → (IsRecordName (name_at offset.old bytes.now) → ⊥) → result ≡ 4 }
    ensures end { (result ≡ 11) ↔ (offset.old ≡ length bytes.now) }
    ensures place { (result ≡ 10) ↔ (length bytes.now < offset.old) }
    ensures kept { result ≢ 0 → (out.new ≡ out.old) × (offset.new ≡ offset.old) }
{
    let place = *offset;
    if place > bytes.len() {
        return PLACE;
    }
    if place == bytes.len() {
        return END;
    }
    match record_at(bytes, place) {
        Ok((dirent, end)) => {
            *out = dirent;
            *offset = end;
            DONE
        }
        Err(status) => status,
    }
}

/// The entry at a place.
fn flat_entry_at(bytes: &[u8], place: usize) -> FlatEntry
    requires { place + 128 ≤ length bytes.now }
    ensures says { entry_said result ≡ entry_at place bytes.now }
    ensures time { result.entry_valid_nsec ≡ number_at (place + 32) 4 bytes.now }
    ensures padding { result.padding ≡ 0 }
{
    FlatEntry {
        nodeid: u64_at(bytes, place),
        generation: u64_at(bytes, place + 8),
        entry_valid: u64_at(bytes, place + 16),
        entry_valid_nsec: u32_at(bytes, place + 32),
        padding: 0,
        attr: FlatAttr {
            ino: u64_at(bytes, place + 40),
            size: u64_at(bytes, place + 48),
            mode: u32_at(bytes, place + 100),
            nlink: u32_at(bytes, place + 104),
        },
    }
}

/// The pair of an entry and a record that begins at a place, and where it ends.
#[tactic(auto, unfolding(fk_wire::specs::RecordEnds::record_end))]
fn pair_at(bytes: &[u8], place: usize) -> Result<(FlatDirentPlus, usize), u32>
    requires { place ≤ length bytes.now }
    ensures entry { IfOk result (λ r. (entry_said r.0.entry ≡ entry_at place bytes.now)
        × (number_at (place + 32) 4 bytes.now ≤ 999999999)) }
    ensures says { IfOk result (λ r. dirent_said r.0.dirent bytes.now ≡ dirent_at (place + 128) bytes.now) }
    ensures name { IfOk result (λ r. IsRecordName (name_at (place + 128) bytes.now)) }
    ensures ends { IfOk result (λ r. (r.1 ≡ record_end true place bytes.now) × (r.1 ≤ length bytes.now)) }
    ensures only { record_end true place bytes.now ≤ length bytes.now → number_at (place + 32) 4 bytes.now ≤ 999999999
        → IsRecordName (name_at (place + 128) bytes.now) → IsOk result }
    ensures within { IfOk result (λ r. r.0.dirent.name_offset + r.0.dirent.name_length ≤ r.1) }
    ensures padding { IfOk result (λ r. (r.0.entry.padding ≡ 0) × (r.0.dirent.padding ≡ 0)) }
    ensures short { length bytes.now < record_end true place bytes.now → result ≡ Err 5 }
    ensures untimed { 999999999 < number_at (place + 32) 4 bytes.now → result ≡ Err 5 }
    ensures unnamed { record_end true place bytes.now ≤ length bytes.now
        → number_at (place + 32) 4 bytes.now ≤ 999999999
        → (IsRecordName (name_at (place + 128) bytes.now) → ⊥) → result ≡ Err 4 }
    ensures fault { IfErr result (λ e. (e ≢ 0) × (e ≢ 10) × (e ≢ 11)) }
{
    if bytes.len() - place < 128 {
        return Err(BODY);
    }
    let entry = flat_entry_at(bytes, place);
    if entry.entry_valid_nsec > 999_999_999 {
        return Err(BODY);
    }
    match record_at(bytes, place + 128) {
        Ok((dirent, end)) => Ok((FlatDirentPlus { entry, dirent }, end)),
        Err(status) => Err(status),
    }
}

/// Reads the pair of an entry and a record that stands at `offset` into `out`, and moves `offset` behind it.
///
/// # Errors
///
/// 10 where the offset is beyond the bytes, 11 where it is their end, 5 where no whole pair is left or the
/// entry's nanoseconds are a second or more, and 4 where the name is none of a record. Then both stay as
/// they were.
#[unsafe(no_mangle)]
pub extern "C" fn fuseworld_next_record_plus(
    bytes: &[u8],
    offset: &mut usize,
    out: &mut FlatDirentPlus,
) -> u32
    ensures ok { result ≡ 0 → (entry_said out.new.entry ≡ entry_at offset.old bytes.now)
        × (dirent_said out.new.dirent bytes.now ≡ dirent_at (offset.old + 128) bytes.now)
        × IsRecordName (name_at (offset.old + 128) bytes.now) }
    ensures next { result ≡ 0 → (offset.new ≡ record_end true offset.old bytes.now)
        × (offset.new ≤ length bytes.now) }
    ensures whole { offset.old < length bytes.now → record_end true offset.old bytes.now ≤ length bytes.now
        → number_at (offset.old + 32) 4 bytes.now ≤ 999999999
        → IsRecordName (name_at (offset.old + 128) bytes.now) → result ≡ 0 }
    // The name lies within the pair.
    ensures within { result ≡ 0 → out.new.dirent.name_offset + out.new.dirent.name_length ≤ offset.new }
    ensures padding { result ≡ 0 → (out.new.entry.padding ≡ 0) × (out.new.dirent.padding ≡ 0) }
    ensures short { offset.old < length bytes.now → length bytes.now < record_end true offset.old bytes.now
        → result ≡ 5 }
    ensures untimed { offset.old < length bytes.now → 999999999 < number_at (offset.old + 32) 4 bytes.now
        → result ≡ 5 }
    ensures unnamed { offset.old < length bytes.now → record_end true offset.old bytes.now ≤ length bytes.now
        → number_at (offset.old + 32) 4 bytes.now ≤ 999999999
        → (IsRecordName (name_at (offset.old + 128) bytes.now) → ⊥) → result ≡ 4 }
    ensures end { (result ≡ 11) ↔ (offset.old ≡ length bytes.now) }
    ensures place { (result ≡ 10) ↔ (length bytes.now < offset.old) }
    ensures kept { result ≢ 0 → (out.new ≡ out.old) × (offset.new ≡ offset.old) }
{
    let place = *offset;
    if place > bytes.len() {
        return PLACE;
    }
    if place == bytes.len() {
        return END;
    }
    match pair_at(bytes, place) {
        Ok((pair, end)) => {
            *out = pair;
            *offset = end;
            DONE
        }
        Err(status) => status,
    }
}
