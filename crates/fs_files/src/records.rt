//! The records of a READDIR.

ghost use Rattle.std.specs.Prelude.{◌≡◌, ◌<◌, All, IfOk, OnOk, length, map};
ghost use Rattle.fuse_spec.specs.Values.Numbers.{counter_end};
ghost use Rattle.fk_wire.specs.Dirents.{dirents, HaveRecordNames};
ghost use Rattle.fk_wire.specs.Fields.{InRange, spellings};
ghost use Rattle.fk_wire.specs.Records.{dirent_content, records_in};
ghost use Rattle.fs_tree.specs.declared.listing.Record.{Record as RecordValue};
ghost use Rattle.fs_files.specs.Listed.{AreRecordBytes, dirents_in};
ghost use Rattle.fs_files.specs.Listing.{written_record_of};
ghost use Rattle.fuse_frames.specs.ReplyTies.{type_of};

use fk_wire::{Dirent, Records, put_record};
use fs_tree::{Kind, Record};
use std::alloc::{AllocError, Allocator};

/// The bytes of the records of these names.
pub(crate) fn record_bytes<A: Allocator>(
    alloc: A,
    records: &[Record<'_>],
) -> Result<Vec<u8, A>, AllocError>
    requires { All (λ (r : RecordValue). r.file < counter_end) records.now }
    ensures items { IfOk result (λ bytes. bytes.items ≡ spellings (dirents (map written_record_of records.now))) }
    ensures fits { OnOk result (InRange (dirents (map written_record_of records.now))) }
    ensures named { OnOk result (HaveRecordNames (map written_record_of records.now)) }
{
    // The record of a name of up to 8 bytes has 32; longer ones make the vector grow.
    let mut bytes = Vec::with_capacity(alloc, records.len().saturating_mul(32))?;
    for record in records {
        let dirent = Dirent {
            ino: record.file + 1,
            off: record.cookie,
            kind: type_of(record.kind),
            name: record.name,
        };
        let put = put_record(&mut bytes, &dirent);
        if put.is_err() {
            return Err(AllocError);
        }
    }
    Ok(bytes)
}

/// The records that these bytes are, this many.
pub(crate) fn records_of(bytes: &[u8], count: usize) -> Records<'_>
    requires records { AreRecordBytes bytes.now }
    requires count { count ≡ length (dirents_in bytes.now) }
    ensures { records_in result ≡ dirents_in bytes.now }
{
    Records::over_known(bytes, count)
}

/// The type in a record: 4 for a directory, 8 for a file.
#[inline(always)]
fn type_of(kind: Kind) -> u32
    ensures { result ≡ type_of kind }
{
    match kind {
        Kind::Directory => 4,
        Kind::Regular => 8,
        Kind::Other => 0,
    }
}
