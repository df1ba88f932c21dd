//! What performing a request results in, and what is replied.

ghost use Rattle.std.specs.Prelude.{◌≡◌, ◌≤◌, ◌+◌, [], length, map, vec_capacity};
ghost use Rattle.std.specs.Int.RustNames.{bit_and};
ghost use Rattle.fk_wire.specs.Requests.{known_flags};
ghost use Rattle.fuse_spec.specs.Values.Numbers.{max_transfer};
ghost use Rattle.fuse_spec.specs.Files.Operations as reply;
ghost use Rattle.fuse_spec.specs.Files.Operations.{errno_of, files_in_reply};
ghost use Rattle.fuse_spec.specs.Server.Performs.{init_reply};
ghost use Rattle.fuse_frames.specs.ReplyTies.{dirent_read};
ghost use Rattle.fs_files.specs.Listed.{AreRecordBytes, dirents_in};
ghost use Rattle.fs_files.specs.Replies.{opened_in, sent_len, sent_names, sent_wire, HasSpare, NamesNoFile, IsSendable};

use crate::listed_names::ListedNames;
use crate::spare::ListingBuffers;
use bitflags::Flags;
use fk_wire::InitFlags;
use fuse_frames::{Reply, ReplyBuffer, ReplyFrame};
use fuse_spec::{Entry, Minor};
use std::alloc::Allocator;
use std::slice::from_ref;

/// What is sent as a reply: the names of a list are bytes of records, as their frame has them.
pub type SentReply<A> = Reply<Entry, Vec<u8, A>, ListedNames<A>, Vec<u8, A>>;

/// What performing a request results in: files that are to be given nodes, a file handle, or both, or a reply that
/// names no file and no file handle.
#[derive(Drop)]
pub enum Outcome<A: Allocator> {
    Entry { file: u64 },
    Created { file: u64 },
    Opened { file: u64 },
    /// The records of this many names, as their frame has them: each is of the file of its inode number.
    ListedPlus { records: Vec<u8, A>, names: usize },
    Reply { reply: SentReply<A> },
}

impl<A: Allocator> Outcome<A> {
    ghost use Rattle.std.specs.Prelude.{◌≡◌};
    ghost use Rattle.fs_files.specs.Replies.{outcome_errno};

    /// Its error as a positive number, or 0.
    pub fn errno(&self) -> u32
        ensures { result ≡ outcome_errno self.now }
    {
        match self {
            Outcome::Reply { reply } => errno(reply),
            _ => 0,
        }
    }
}

/// The error of a reply as a positive number, or 0.
pub fn errno<A: Allocator>(reply: &SentReply<A>) -> u32
    ensures { result ≡ errno_of (sent_wire reply.now) }
{
    match reply {
        Reply::Failed { errno } => *errno,
        _ => 0,
    }
}

/// The entries of the files that a reply names, in order.
pub fn file_entries<A: Allocator>(reply: &SentReply<A>) -> &[Entry]
    ensures { result.now ≡ files_in_reply (sent_wire reply.now) }
{
    match reply {
        Reply::Entry { file, .. } | Reply::Created { file, .. } => from_ref(file),
        Reply::ListedPlus(names) => names.file_entries(),
        _ => &[],
    }
}

/// How many names a reply lists together with their files.
pub fn name_count<A: Allocator>(reply: &SentReply<A>) -> usize
    ensures { result ≡ sent_names reply.now }
{
    match reply {
        Reply::ListedPlus(names) => names.names(),
        _ => 0,
    }
}

/// The file handle that a reply carries.
pub fn opened<A: Allocator>(reply: &SentReply<A>) -> Option<u64>
    ensures { result ≡ opened_in reply.now }
{
    match reply {
        Reply::Created { fh, .. } | Reply::Opened { fh } => Some(*fh),
        _ => None,
    }
}

/// How long the body of a reply is, if that is of no fixed length.
pub fn body_len<A: Allocator>(reply: &SentReply<A>) -> usize
    ensures { result ≡ sent_len reply.now }
{
    match reply {
        Reply::Listed(bytes) | Reply::Content(bytes) => bytes.len(),
        Reply::ListedPlus(names) => names.len(),
        _ => 0,
    }
}

/// This reply once more, in room that is there.
#[inline(always)]
pub fn copied<A: Allocator>(reply: &SentReply<A>, spare: ListingBuffers<A>) -> SentReply<A>
    requires { HasSpare spare (sent_len reply.now) (sent_names reply.now) }
    ensures wire { sent_wire result ≡ sent_wire reply.now }
    ensures sendable { IsSendable reply.now → IsSendable result }
{
    match reply {
        Reply::Entry { file, valid_ms } => Reply::Entry {
            file: *file,
            valid_ms: *valid_ms,
        },
        Reply::Negative { valid_ms } => Reply::Negative {
            valid_ms: *valid_ms,
        },
        Reply::Created { file, valid_ms, fh } => Reply::Created {
            file: *file,
            valid_ms: *valid_ms,
            fh: *fh,
        },
        Reply::Opened { fh } => Reply::Opened { fh: *fh },
        Reply::Attributes(attributes) => Reply::Attributes(*attributes),
        Reply::Listed(records) => Reply::Listed(with_bytes(spare.bytes, records)),
        Reply::ListedPlus(names) => Reply::ListedPlus(names.copied(spare)),
        Reply::Content(bytes) => Reply::Content(with_bytes(spare.bytes, bytes)),
        Reply::Written { size } => Reply::Written { size: *size },
        Reply::Agreed {
            major,
            minor,
            flags,
        } => Reply::Agreed {
            major: *major,
            minor: *minor,
            flags: *flags,
        },
        Reply::Done => Reply::Done,
        Reply::Failed { errno } => Reply::Failed { errno: *errno },
    }
}

/// The frame of a reply.
#[inline(always)]
pub fn framed<A: Allocator>(
    reply: &SentReply<A>,
    room: ReplyBuffer<A>,
    unique: u64,
) -> ReplyFrame<A>
    requires sendable { IsSendable reply.now }
    requires room { 16 + sent_len reply.now ≤ room }
    ensures { result ≡ record { unique = unique; wire = sent_wire reply.now } }
{
    match reply {
        Reply::Entry { file, valid_ms } => room.found(unique, file, *valid_ms),
        Reply::Negative { valid_ms } => room.missing(unique, *valid_ms),
        Reply::Created { file, valid_ms, fh } => room.created(unique, file, *valid_ms, *fh),
        Reply::Opened { fh } => room.opened(unique, *fh),
        Reply::Attributes(attributes) => room.attributes(unique, attributes),
        Reply::Listed(records) => listed(records, room, unique),
        Reply::ListedPlus(names) => names.framed(room, unique),
        Reply::Content(bytes) => room.content(unique, bytes),
        Reply::Written { size } => room.written(unique, *size),
        Reply::Agreed {
            major,
            minor,
            flags,
        } => room.agreed(unique, *major, *minor, *flags),
        Reply::Done => room.done(unique),
        Reply::Failed { errno } => room.failed(unique, *errno),
    }
}

/// What is agreed on at INIT: the minor in use, and those of the offered flags that it knows.
#[tactic(auto, using(fuse_frames::proofs::Agreements::known_again, fuse_frames::proofs::Agreements::read_alone))]
pub(crate) fn agreement<A: Allocator>(minor: Minor, offered: InitFlags) -> SentReply<A>
    ensures wire { sent_wire result ≡ init_reply minor (bit_and offered.0 known_flags) }
    ensures sendable { IsSendable result }
    ensures names { NamesNoFile result }
{
    match minor {
        Minor::M15 => Reply::Agreed {
            major: 7,
            minor: 15,
            flags: offered.intersection(InitFlags::ASYNC_READ),
        },
        Minor::M31 => Reply::Agreed {
            major: 7,
            minor: 31,
            flags: offered,
        },
    }
}

/// An empty vector with these bytes, for which it has room.
fn with_bytes<A: Allocator>(spare: Vec<u8, A>, bytes: &[u8]) -> Vec<u8, A>
    requires empty { spare.items ≡ [] }
    requires room { length bytes.now ≤ vec_capacity spare }
    ensures { result.items ≡ bytes.now }
{
    let mut spare = spare;
    spare.extend_from_slice(bytes).unwrap();
    spare
}

/// The reply to a READDIR in its frame.
fn listed<A: Allocator>(records: &[u8], room: ReplyBuffer<A>, unique: u64) -> ReplyFrame<A>
    requires some { AreRecordBytes records.now }
    requires most { length records.now ≤ max_transfer }
    requires room { 16 + length records.now ≤ room }
    ensures { result ≡ record { unique = unique; wire = reply.listed (map dirent_read (dirents_in records.now)) } }
{
    room.listed(unique, records)
}
