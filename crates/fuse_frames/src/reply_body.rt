//! What the parts of a reply mean.

ghost use Rattle.std.specs.Prelude.{◌≡◌};
ghost use Rattle.fk_wire.specs.Entries.{entry_content};
ghost use Rattle.fk_wire.specs.Records.{direntplus_content};
ghost use Rattle.fuse_spec.specs.Files.Operations.{listed_by as file_in_pair};
ghost use Rattle.fuse_frames.specs.ReplyTies.{attributes_in, file_named, kind_of_mode, pair_in, valid_in};
ghost use Rattle.fuse_frames.specs.ReplyTies.{kind_of_type as kind_in_type};
ghost use Rattle.fuse_frames.specs.ReplyTies.{milliseconds as milliseconds_in};

use fk_wire::{Attr, DirentPlus};
use fuse_spec::limits::MAX_VALIDITY;
use fuse_spec::{Attributes, Entry, Kind, is_dots};

/// The kind of a file, by the type bits of its mode.
fn kind_of(mode: u32) -> Kind
    ensures { result ≡ kind_of_mode mode }
{
    match mode & 0o170000 {
        0o040000 => Kind::Directory,
        0o100000 => Kind::Regular,
        _ => Kind::Other,
    }
}

/// The attributes that a system call sees.
pub(crate) fn attributes_of(attr: &Attr) -> Attributes
    ensures { result ≡ attributes_in attr.now }
{
    Attributes {
        kind: kind_of(attr.mode),
        ino: attr.ino,
        size: attr.size,
        nlink: attr.nlink,
    }
}

/// A validity of seconds and nanoseconds in milliseconds, rounded down and at most a day (this project's rule).
pub(crate) fn milliseconds(seconds: u64, nanoseconds: u32) -> u64
    ensures { result ≡ milliseconds_in seconds nanoseconds }
{
    let rest = nanoseconds as u64 / 1_000_000;
    if seconds >= MAX_VALIDITY {
        return MAX_VALIDITY;
    }
    (seconds * 1000 + rest).min(MAX_VALIDITY)
}

/// The kind of a record, by its type.
#[inline(always)]
pub fn kind_of_type(type_number: u32) -> Kind
    ensures { result ≡ kind_in_type type_number }
{
    match type_number {
        4 => Kind::Directory,
        8 => Kind::Regular,
        _ => Kind::Other,
    }
}

/// The file that an entry names.
pub(crate) fn entry_named(entry: &fk_wire::Entry) -> Entry
    ensures nodeid { result.nodeid ≡ entry.now.nodeid }
    ensures generation { result.generation ≡ entry.now.generation }
    ensures attributes { result.attributes ≡ attributes_in entry.now.attr }
{
    Entry {
        nodeid: entry.nodeid,
        generation: entry.generation,
        attributes: attributes_of(&entry.attr),
    }
}

/// The file that the entry of a name in a list names; with node id 0 it names none.
fn file_of(entry: &fk_wire::Entry) -> Option<Entry>
    ensures { result ≡ file_named (entry_content entry.now) }
{
    if entry.nodeid == 0 {
        return None;
    }
    Some(entry_named(entry))
}

/// For how many milliseconds the name of an entry leads to its file, or to none.
fn valid_of(entry: &fk_wire::Entry) -> u64
    ensures { result ≡ valid_in (entry_content entry.now) }
{
    milliseconds(entry.entry_valid, entry.entry_valid_nsec)
}

/// The file that a name in a list gives, and for how many milliseconds the name leads there. `.` and `..` give none,
/// nor does an entry of node id 0 (linux/fuse.h, struct fuse_direntplus).
pub fn listed_by(pair: &DirentPlus<'_>) -> (Option<Entry>, u64)
    ensures file { result.0 ≡ file_in_pair (pair_in (direntplus_content pair.now)) }
    ensures valid { result.1 ≡ (pair_in (direntplus_content pair.now)).valid }
{
    let valid_ms = valid_of(&pair.entry_out);
    if is_dots(pair.dirent.name) {
        return (None, valid_ms);
    }
    (file_of(&pair.entry_out), valid_ms)
}
