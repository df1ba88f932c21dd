//! Entries and attributes.

ghost use Rattle.std.specs.Prelude.{◌≡◌, ◌≤◌, ◌+◌, ◌++◌, ◌↔◌, [], length, IsTrue, vec_len, vec_capacity};
ghost use Rattle.fk_wire.specs.Fields.{InRange, bytes_of, number_at, spellings};
ghost use Rattle.fk_wire.specs.Entries.{attr_fields, entry_fields, entry_content, IsEntry};
ghost use Rattle.fk_wire.specs.Entries.{attr_at as attributes_at, entry_at as entry_content_at};

use crate::room::{put_bytes, put_zeros88};
use byteorder::{ByteOrder, LittleEndian};
use fk_fields::{u32_at, u64_at};
use std::alloc::Allocator;

/// The attributes of a file: the fields of `struct fuse_attr` that are not free. `blksize` is written
/// as 4096, the others as 0.
#[derive(Clone, Copy, Debug)]
pub struct Attr {
    pub ino: u64,
    /// The file's size in bytes.
    pub size: u64,
    /// The file's kind in the type bits, octal 0170000: 040000 is a directory and 0100000 a file.
    pub mode: u32,
    /// How many names the file has.
    pub nlink: u32,
}

/// The file of a name: the fields of `struct fuse_entry_out` that are not free.
///
/// With node id 0 no file has the name; then the generation and the attributes are free too, and
/// written as zeros.
#[derive(Clone, Copy, Debug)]
pub struct Entry {
    pub nodeid: u64,
    /// Which of the files it is that had this node id in turn.
    pub generation: u64,
    /// For how many seconds the name is valid.
    pub entry_valid: u64,
    /// And for how many nanoseconds, at most 999,999,999.
    pub entry_valid_nsec: u32,
    pub attr: Attr,
}

/// The attributes at a place.
#[inline(always)]
pub(crate) fn attr_at(bytes: &[u8], place: usize) -> Attr
    requires { place + 88 ≤ length bytes.now }
    ensures { result ≡ attributes_at place bytes.now }
{
    Attr {
        ino: u64_at(bytes, place),
        size: u64_at(bytes, place + 8),
        mode: u32_at(bytes, place + 60),
        nlink: u32_at(bytes, place + 64),
    }
}

/// The nanoseconds of the entry at a place.
pub(crate) fn time_at(bytes: &[u8], place: usize) -> u32
    requires { place + 128 ≤ length bytes.now }
    ensures { result ≡ number_at (place + 32) 4 bytes.now }
{
    u32_at(bytes, place + 32)
}

/// The entry at a place, whatever its nanoseconds.
#[inline(always)]
pub(crate) fn entry_at(bytes: &[u8], place: usize) -> Entry
    requires { place + 128 ≤ length bytes.now }
    ensures content { entry_content result ≡ entry_content_at place bytes.now }
    ensures time { result.entry_valid_nsec ≡ number_at (place + 32) 4 bytes.now }
{
    Entry {
        nodeid: u64_at(bytes, place),
        generation: u64_at(bytes, place + 8),
        entry_valid: u64_at(bytes, place + 16),
        entry_valid_nsec: time_at(bytes, place),
        attr: attr_at(bytes, place + 40),
    }
}

/// Whether the nanoseconds are less than a second.
#[tactic(auto, using(crate::proofs::EntryFields::timed))]
pub(crate) fn is_timed(entry: &Entry) -> bool
    ensures { IsTrue result ↔ IsEntry (entry_content entry.now) }
{
    entry.entry_valid_nsec <= 999_999_999
}

/// The fields of attributes.
#[inline(always)]
fn put_fields<A: Allocator>(out: &mut Vec<u8, A>, ino: u64, size: u64, mode: u32, nlink: u32)
    requires { vec_len out.old + 88 ≤ vec_capacity out.old }
    ensures items { out.new.items ≡ out.old.items ++ spellings (attr_fields (record {
      ino = ino;
      size = size;
      mode = mode;
      nlink = nlink;
    }) []) }
    ensures len { vec_len out.new ≡ vec_len out.old + 88 }
    ensures capacity { vec_capacity out.old ≤ vec_capacity out.new }
{
    let mut buf = [0u8; 88];
    LittleEndian::write_u64(&mut buf, ino);
    LittleEndian::write_u64(&mut buf[8..], size);
    LittleEndian::write_u32(&mut buf[60..], mode);
    LittleEndian::write_u32(&mut buf[64..], nlink);
    LittleEndian::write_u32(&mut buf[80..], 4096);
    put_bytes(out, &buf);
}

pub(crate) fn put_attr<A: Allocator>(out: &mut Vec<u8, A>, attr: &Attr)
    requires { vec_len out.old + 88 ≤ vec_capacity out.old }
    ensures items { out.new.items ≡ out.old.items ++ spellings (attr_fields attr.now []) }
    ensures len { vec_len out.new ≡ vec_len out.old + 88 }
    ensures capacity { vec_capacity out.old ≤ vec_capacity out.new }
    ensures fits { InRange (attr_fields attr.now []) }
{
    put_fields(out, attr.ino, attr.size, attr.mode, attr.nlink);
}

/// What an entry begins with: its node and the node's generation, and for how long its name is valid.
#[inline(always)]
fn put_node<A: Allocator>(out: &mut Vec<u8, A>, nodeid: u64, generation: u64, valid: u64, nsec: u32)
    requires { vec_len out.old + 40 ≤ vec_capacity out.old }
    ensures items { out.new.items ≡ out.old.items ++ (bytes_of 8 nodeid ++ bytes_of 8 generation ++ bytes_of 8 valid
        ++ bytes_of 8 0 ++ bytes_of 4 nsec ++ bytes_of 4 0) }
    ensures len { vec_len out.new ≡ vec_len out.old + 40 }
    ensures capacity { vec_capacity out.old ≤ vec_capacity out.new }
{
    let mut buf = [0u8; 40];
    LittleEndian::write_u64(&mut buf, nodeid);
    LittleEndian::write_u64(&mut buf[8..], generation);
    LittleEndian::write_u64(&mut buf[16..], valid);
    LittleEndian::write_u32(&mut buf[32..], nsec);
    put_bytes(out, &buf);
}

#[tactic(auto, using(std::proofs::Common::append_assoc))]
pub(crate) fn put_entry<A: Allocator>(out: &mut Vec<u8, A>, entry: &Entry)
    requires { vec_len out.old + 128 ≤ vec_capacity out.old }
    ensures items { out.new.items ≡ out.old.items ++ spellings (entry_fields (entry_content entry.now) []) }
    ensures len { vec_len out.new ≡ vec_len out.old + 128 }
    ensures capacity { vec_capacity out.old ≤ vec_capacity out.new }
    ensures fits { InRange (entry_fields (entry_content entry.now) []) }
{
    let (valid, nsec) = (entry.entry_valid, entry.entry_valid_nsec);
    if entry.nodeid == 0 {
        put_node(out, 0, 0, valid, nsec);
        put_zeros88(out);
    } else {
        put_node(out, entry.nodeid, entry.generation, valid, nsec);
        put_attr(out, &entry.attr);
    }
}
