//! The records of a directory, each laid out by hand from linux/fuse.h, split and written behind entries.

ghost use Rattle.std.specs.Prelude.{◌≡◌, ◌≤◌, ◌∷◌, [], IfOk, OnOk};
ghost use Rattle.fk_wire.specs.Dirents.{dirents};
ghost use Rattle.fk_wire.specs.Fields.{InRange, IsRecordName, spellings};
ghost use Rattle.fk_wire.specs.Records.{dirent_content};

use fk_wire::{
    Attr, Dirent, DirentPlus, Entry, Records, RecordsPlus, WireFault, put_listed, put_record,
    split_record,
};
use std::alloc::{Allocator, Global};
use std::test::Fail;

/// A `struct fuse_dirent`: ino 9, off 2, namelen 9, type 4, the name, and its padding to a multiple of 8.
const RECORD: [u8; 40] = [
    9, 0, 0, 0, 0, 0, 0, 0, 2, 0, 0, 0, 0, 0, 0, 0, 9, 0, 0, 0, 4, 0, 0, 0, b'a', b'b', b'c', b'd',
    b'e', b'f', b'g', b'h', b'i', 0, 0, 0, 0, 0, 0, 0,
];

const ENTRY: Entry = Entry {
    nodeid: 3,
    generation: 5,
    entry_valid: 1,
    entry_valid_nsec: 999_999_999,
    attr: Attr {
        ino: 9,
        size: 7,
        mode: 0o040755,
        nlink: 2,
    },
};

const DIRENT: Dirent<'static> = Dirent {
    ino: 9,
    off: 2,
    kind: 4,
    name: b"abcdefghi",
};

fn is_dirent(dirent: &Dirent<'_>) -> bool {
    (dirent.ino, dirent.off, dirent.kind) == (9, 2, 4) && dirent.name == b"abcdefghi".as_slice()
}

/// The bytes of that record.
fn record_bytes(alloc: Global, dirent: &Dirent<'_>) -> Result<Vec<u8>, WireFault>
    ensures named { OnOk result (IsRecordName dirent.now.name.now) }
    ensures fits { OnOk result (InRange (dirents (dirent_content dirent.now ∷ []))) }
    ensures items { IfOk result (λ bytes. bytes.items ≡ spellings (dirents (dirent_content dirent.now ∷ []))) }
{
    let mut bytes = Vec::new(alloc);
    put_record(&mut bytes, dirent)?;
    Ok(bytes)
}

#[test]
fn a_record_is_copied_behind_its_entry(rt: HostRuntime) -> Result<(), Fail> {
    let dirent = DIRENT;
    let Ok(bytes) = record_bytes(rt.alloc(), &dirent) else {
        return Err(Fail::new("out of memory"));
    };
    let (record, others) = split_record(&bytes);
    assert!(rt; record == RECORD.as_slice() && others.is_empty());
    let mut listed = Vec::with_capacity(rt.alloc(), record.len().saturating_add(128))?;
    put_listed(&mut listed, &ENTRY, record);
    let Some(mut pairs) = RecordsPlus::over(&listed) else {
        return Err(Fail::new("no pairs"));
    };
    let Some(pair) = pairs.next() else {
        return Err(Fail::new("no pair"));
    };
    let entry = pair.entry_out;
    assert!(rt; (entry.nodeid, entry.generation, entry.entry_valid) == (3, 5, 1));
    assert!(rt; (entry.attr.ino, entry.attr.mode) == (9, 0o040755));
    assert!(rt; is_dirent(&pair.dirent) && pairs.next().is_none());
    Ok(())
}

#[test]
fn records_that_are_known_are_read_without_a_check(rt: HostRuntime) -> Result<(), Fail> {
    let dirent = DIRENT;
    let Ok(bytes) = record_bytes(rt.alloc(), &dirent) else {
        return Err(Fail::new("out of memory"));
    };
    let mut records = Records::over_known(&bytes, 1);
    assert!(rt; records.byte_len() == 40);
    let Some(record) = records.next() else {
        return Err(Fail::new("no record"));
    };
    assert!(rt; is_dirent(&record) && records.next().is_none());
    Ok(())
}
