//! Room for one reply.

ghost use Rattle.std.specs.Int.RustNames.{bit_and};
ghost use Rattle.std.specs.Prelude.{◌≡◌, ◌≢◌, ◌≤◌, ◌+◌, ◌*◌, ◌/◌, ◌%◌, List, pos, negsuc, ◌-◌, Some, IfOk, length, map};
ghost use Rattle.fk_wire.specs.Dirents.{DirentContent};
ghost use Rattle.fk_wire.specs.Fields.{sizes};
ghost use Rattle.fk_wire.specs.Opcodes.{latest_minor};
ghost use Rattle.fk_wire.specs.Replies.{reply_body, reply_content, kind_of_content, reply_kind};
ghost use Rattle.fk_wire.specs.Requests.{known_flags};
ghost use Rattle.fuse_spec.specs.Values.Numbers.{max_transfer, max_validity};
ghost use Rattle.fuse_spec.specs.Files.Operations as reply;
ghost use Rattle.fuse_frames.specs.ReplyTies.{AreWritten, FitsRoom, reply_content_of, dirent_read, direntpluses_of, wire_body};
ghost use Rattle.fuse_frames.specs.ReplyTies.{attr_of as attr_written};

use crate::listing::put_listing;
use crate::reply_frame::ReplyFrame;
use fk_wire::{Attr, InitFlags, Opcode, Reply, ReplyBody, put_listing_head};
use fuse_spec::{Attributes, Entry, Kind};
use std::alloc::{AllocError, Allocator, Global};
use std::marker::Model;

/// How many bytes the longest reply of a fixed length has, which is CREATE's.
const ROOM: usize = 160;

/// Room for one reply, seen as how many bytes it holds: a server takes it first, then changes its state, and then
/// writes the reply, which cannot fail. Any reply of a fixed length has room.
#[derive(Drop)]
pub struct ReplyBuffer<A: Allocator = Global> {
    bytes: Vec<u8, A>,
}

impl<A: Allocator> Model for ReplyBuffer<A> {
    ghost use Rattle.std.specs.Prelude.{◌≡◌, ◌≤◌, ℕ, [], vec_capacity};
    ghost use Rattle.fuse_frames.specs.ReplyTies.{reply_room};

    ghost Value = { ℕ };

    ghost view = { λ r. vec_capacity r.bytes };

    ghost invariant = { λ r. (r.bytes.items ≡ []) × (reply_room ≤ vec_capacity r.bytes) };
}

impl<A: Allocator> ReplyBuffer<A> {
    /// Room for a reply of a fixed length, and for one whose body is this long, in the memory of a vector, whose bytes
    /// go.
    pub fn new(bytes: Vec<u8, A>, len: usize) -> Result<ReplyBuffer<A>, AllocError>
        requires { len ≤ max_transfer }
        ensures { IfOk result (λ room. 16 + len ≤ room) }
    {
        let mut bytes = bytes;
        bytes.clear();
        bytes.reserve(ROOM.max(16 + len))?;
        Ok(ReplyBuffer { bytes })
    }

    /// The frame of a reply without error.
    fn said(self, unique: u64, opcode: Opcode, body: ReplyBody<'_>) -> ReplyFrame<A>
        requires goes { reply_kind latest_minor opcode ≡ Some (kind_of_content (reply_content body)) }
        requires fits { FitsRoom (record { unique = unique; error = pos 0; content = reply_content body }) }
        requires room { 16 + sizes (reply_body (reply_content body)) ≤ self }
        requires exact { reply_content body ≡ reply_content_of (wire_body (reply_content body)) }
        ensures { result ≡ record { unique = unique; wire = wire_body (reply_content body.entry) } }
    {
        let reply = Reply {
            unique,
            error: 0,
            body,
        };
        ReplyFrame::written(opcode, self.bytes, &reply)
    }

    /// The answer to an INIT: the version that is stated, and the flags that are taken up.
    pub fn agreed(self, unique: u64, major: u32, minor: u32, flags: InitFlags) -> ReplyFrame<A>
        ensures { result ≡ record {
          unique = unique;
          wire = reply.agreed major minor (bit_and flags.0 known_flags);
        } }
    {
        let body = ReplyBody::Init {
            major,
            minor,
            flags,
        };
        self.said(unique, Opcode::Init, body)
    }

    /// The answer to a LOOKUP that found nothing: the name is missing for this many milliseconds, at most a day.
    pub fn missing(self, unique: u64, missing_ms: u64) -> ReplyFrame<A>
        requires { missing_ms ≤ max_validity }
        ensures { result ≡ record { unique = unique; wire = reply.missing missing_ms } }
    {
        let entry = no_entry(missing_ms);
        self.said(unique, Opcode::Lookup, ReplyBody::Entry { entry })
    }

    /// The answer to a LOOKUP, MKDIR or LINK: the name leads to this node for this many milliseconds, at most a day.
    pub fn found(self, unique: u64, entry: &Entry, found_ms: u64) -> ReplyFrame<A>
        requires node { entry.now.nodeid ≢ 0 }
        requires valid { found_ms ≤ max_validity }
        ensures { result ≡ record { unique = unique; wire = reply.found entry.now found_ms } }
    {
        let entry = entry_of(entry, found_ms);
        self.said(unique, Opcode::Lookup, ReplyBody::Entry { entry })
    }

    /// The answer to CREATE: the new name leads to this node, which is open under a number.
    pub fn created(self, unique: u64, entry: &Entry, found_ms: u64, fh: u64) -> ReplyFrame<A>
        requires node { entry.now.nodeid ≢ 0 }
        requires valid { found_ms ≤ max_validity }
        ensures { result ≡ record { unique = unique; wire = reply.created entry.now found_ms fh } }
    {
        let entry = entry_of(entry, found_ms);
        self.said(unique, Opcode::Create, ReplyBody::Create { entry, fh })
    }

    /// The answer to OPEN: the node is open under a number.
    pub fn opened(self, unique: u64, fh: u64) -> ReplyFrame<A>
        ensures { result ≡ record { unique = unique; wire = reply.opened fh } }
    {
        self.said(unique, Opcode::Open, ReplyBody::Open { fh })
    }

    /// The answer to READ: the bytes, for which there is room.
    pub fn content(self, unique: u64, bytes: &[u8]) -> ReplyFrame<A>
        requires room { 16 + length bytes.now ≤ self }
        requires most { length bytes.now ≤ max_transfer }
        ensures { result ≡ record { unique = unique; wire = reply.content bytes.now } }
    {
        self.said(unique, Opcode::Read, ReplyBody::Bytes { bytes })
    }

    /// The answer to READDIR: the bytes of its records, for which there is room. They are written with zeros behind
    /// each name, and their types are those of kinds (`type_of`).
    pub fn listed(self, unique: u64, records: &[u8]) -> ReplyFrame<A>
        requires written { (ds : List DirentContent) × AreWritten ds records.now }
        requires room { 16 + length records.now ≤ self }
        requires most { length records.now ≤ max_transfer }
        ensures { (ds : List DirentContent) → AreWritten ds records.now
            → result ≡ record { unique = unique; wire = reply.listed (map dirent_read ds) } }
    {
        let mut bytes = self.bytes;
        put_listing_head(&mut bytes, unique, records.len());
        bytes.extend_from_slice(records).unwrap();
        ReplyFrame::listing(Opcode::Readdir, unique, bytes)
    }

    /// The answer to READDIRPLUS: the bytes of its records, for which there is room, each behind the entry of its name's
    /// file, or one of node 0. Each name leads to its file for this many milliseconds, at most a day. They are written as
    /// `listed` has it.
    pub fn listed_plus(
        self,
        unique: u64,
        entries: &[Entry],
        records: &[u8],
        found_ms: u64,
    ) -> ReplyFrame<A>
        requires written { (ds : List DirentContent) × AreWritten ds records.now × (length entries.now ≡ length ds) }
        requires valid { found_ms ≤ max_validity }
        requires room { 16 + (128 * length entries.now + length records.now) ≤ self }
        requires most { 128 * length entries.now + length records.now ≤ max_transfer }
        ensures { (ds : List DirentContent) → AreWritten ds records.now → length entries.now ≡ length ds
            → result ≡ record {
              unique = unique;
              wire = reply.listed_plus (direntpluses_of found_ms entries.now (map dirent_read ds));
            } }
    {
        let mut bytes = self.bytes;
        let size = 128 * entries.len() + records.len();
        put_listing_head(&mut bytes, unique, size);
        put_listing(&mut bytes, entries, records, found_ms);
        ReplyFrame::listing(Opcode::Readdirplus, unique, bytes)
    }

    /// The answer to WRITE: how many bytes were written.
    pub fn written(self, unique: u64, size: u32) -> ReplyFrame<A>
        ensures { result ≡ record { unique = unique; wire = reply.written size } }
    {
        self.said(unique, Opcode::Write, ReplyBody::Write { size })
    }

    /// The answer to GETATTR.
    pub fn attributes(self, unique: u64, attributes: &Attributes) -> ReplyFrame<A>
        ensures { result ≡ record { unique = unique; wire = reply.attributes attributes.now } }
    {
        let attr = attr_of(attributes);
        self.said(unique, Opcode::Getattr, ReplyBody::Attr { attr })
    }

    /// The answer to UNLINK, RMDIR, RENAME, RELEASE or INTERRUPT: it is done.
    pub fn done(self, unique: u64) -> ReplyFrame<A>
        ensures { result ≡ record { unique = unique; wire = reply.done } }
    {
        self.said(unique, Opcode::Release, ReplyBody::Empty)
    }

    /// An error, from 1 to 511, to any request that has a reply.
    pub fn failed(self, unique: u64, errno: u32) -> ReplyFrame<A>
        requires some { 1 ≤ errno }
        requires most { errno ≤ 511 }
        ensures { result ≡ record { unique = unique; wire = reply.failed errno } }
    {
        let reply = Reply {
            unique,
            error: negated(errno),
            body: ReplyBody::Empty,
        };
        ReplyFrame::written(Opcode::Release, self.bytes, &reply)
    }
}

/// The entry of a name that leads to a node: its validity in whole seconds, and the rest in nanoseconds.
pub(crate) fn entry_of(entry: &Entry, found_ms: u64) -> fk_wire::Entry
    ensures { result ≡ record {
      nodeid = entry.now.nodeid;
      generation = entry.now.generation;
      entry_valid = found_ms / 1000;
      entry_valid_nsec = found_ms % 1000 * 1000000;
      attr = attr_written entry.now.attributes;
    } }
{
    fk_wire::Entry {
        nodeid: entry.nodeid,
        generation: entry.generation,
        entry_valid: found_ms / 1000,
        entry_valid_nsec: (found_ms % 1000) as u32 * 1_000_000,
        attr: attr_of(&entry.attributes),
    }
}

/// The entry of a name that leads nowhere.
fn no_entry(missing_ms: u64) -> fk_wire::Entry
    ensures { result ≡ record {
      nodeid = 0;
      generation = 0;
      entry_valid = missing_ms / 1000;
      entry_valid_nsec = missing_ms % 1000 * 1000000;
      attr = record { ino = 0; size = 0; mode = 0; nlink = 0 };
    } }
{
    let attr = Attr {
        ino: 0,
        size: 0,
        mode: 0,
        nlink: 0,
    };
    fk_wire::Entry {
        nodeid: 0,
        generation: 0,
        entry_valid: missing_ms / 1000,
        entry_valid_nsec: (missing_ms % 1000) as u32 * 1_000_000,
        attr,
    }
}

/// Attributes as their struct has them. The permission bits are 0755 of a directory and 0644 of a file.
fn attr_of(attributes: &Attributes) -> Attr
    ensures { result ≡ attr_written attributes.now }
{
    let mode = match attributes.kind {
        Kind::Directory => 0o040755,
        Kind::Regular => 0o100644,
        Kind::Other => 0,
    };
    Attr {
        ino: attributes.ino,
        size: attributes.size,
        mode,
        nlink: attributes.nlink,
    }
}

/// An error number as the header of a reply has it.
fn negated(errno: u32) -> i32
    requires some { 1 ≤ errno }
    requires most { errno ≤ 511 }
    ensures { result ≡ negsuc (errno - 1) }
{
    -(errno as i32)
}
