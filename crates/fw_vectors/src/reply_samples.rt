//! A reply to each opcode, whose numbers have another value in each byte.

use crate::request_samples::{FILE_HANDLE, NODE, OFFSET, SIZE};
use fk_wire::{Attr, Dirent, DirentPlus, Entry, InitFlags, Opcode, ReplyBody};

/// Attributes.
const ATTR: Attr = Attr {
    ino: 0x5152_5354_5556_5758,
    size: 0x6162_6364_6566_6768,
    mode: 0o100_644,
    nlink: 0x7172_7374,
};

/// An entry of a file.
pub(crate) const ENTRY: Entry = Entry {
    nodeid: NODE,
    generation: 0x4142_4344_4546_4748,
    entry_valid: 0x0908_0706_0504_0302,
    entry_valid_nsec: 999_999_999,
    attr: ATTR,
};

/// An entry of a missing name.
pub(crate) const MISSING: Entry = Entry {
    nodeid: 0,
    generation: 0,
    entry_valid: 1,
    entry_valid_nsec: 0,
    attr: ATTR,
};

/// The replies without records.
pub(crate) fn reply_samples() -> [(Opcode, ReplyBody<'static>); 16] {
    let entry = ENTRY;
    let fh = FILE_HANDLE;
    [
        (Opcode::Lookup, ReplyBody::Entry { entry }),
        (Opcode::Lookup, ReplyBody::Entry { entry: MISSING }),
        (Opcode::Mkdir, ReplyBody::Entry { entry }),
        (Opcode::Link, ReplyBody::Entry { entry }),
        (Opcode::Create, ReplyBody::Create { entry, fh }),
        (Opcode::Getattr, ReplyBody::Attr { attr: ATTR }),
        (Opcode::Unlink, ReplyBody::Empty),
        (Opcode::Rmdir, ReplyBody::Empty),
        (Opcode::Rename, ReplyBody::Empty),
        (Opcode::Release, ReplyBody::Empty),
        (Opcode::Interrupt, ReplyBody::Empty),
        (Opcode::Open, ReplyBody::Open { fh }),
        (Opcode::Read, ReplyBody::Bytes { bytes: b"data" }),
        (Opcode::Write, ReplyBody::Write { size: SIZE }),
        (Opcode::Init, init_sample(31)),
        (Opcode::Init, init_sample(15)),
    ]
}

/// A reply to INIT that states a minor version.
fn init_sample(minor: u32) -> ReplyBody<'static> {
    ReplyBody::Init {
        major: 7,
        minor,
        flags: InitFlags::DO_READDIRPLUS,
    }
}

/// A record with a name.
pub(crate) fn record(name: &[u8]) -> Dirent<'_> {
    Dirent {
        ino: OFFSET,
        off: FILE_HANDLE,
        kind: 4,
        name,
    }
}

/// A record with a name, and an entry in front.
pub(crate) fn record_plus(entry_out: Entry, name: &[u8]) -> DirentPlus<'_> {
    let dirent = record(name);
    DirentPlus { entry_out, dirent }
}
