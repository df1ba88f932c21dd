//! What is done at a device, act after act.

use fuse_protocol::Opcode;

/// What an open file was opened by: OPEN, CREATE or TMPFILE, or else OPENDIR.
#[derive(Clone, Copy, Debug, PartialEq, Eq)]
pub enum OpenKind {
    File,
    Directory,
}

/// An open file, as requests name it: by its node and the server's file handle.
#[derive(Clone, Copy, Debug, PartialEq, Eq)]
pub struct OpenFile {
    pub kind: OpenKind,
    pub nodeid: u64,
    pub fh: u64,
}

/// What must stay as it is while a node is counted.
#[derive(Clone, Copy, Debug, PartialEq, Eq)]
pub struct File {
    pub generation: u64,
    /// Regular file, directory or another: the type's bits of a mode.
    pub kind: u32,
    pub ino: u64,
}

/// A request that takes a reply, as far as others are judged by it.
#[derive(Clone, Copy, Debug, PartialEq, Eq)]
pub struct Asked {
    /// `None` where the request is malformed, or of an opcode that came later: its reply's body is not judged.
    pub opcode: Option<Opcode>,
    /// How many bytes its reply may have; 0 where it asks for none.
    pub asked: u32,
    /// How many bytes it writes or copies, at most; else 0.
    pub writes: u64,
    /// The offset from which it lists a directory; else 0.
    pub lists_from: u64,
    /// The kind of file that it makes, as the type's bits of a mode; 0 where any will do.
    pub makes: u64,
    /// Whether it is a LOOKUP of `.` or `..`, which may give the root.
    pub is_dots: bool,
    /// The node that it names, or 0; a LOOKUP of `.` names none.
    pub nodeid: u64,
    /// The further node that it names, or 0: RENAME's new directory, LINK's old node, where a range is copied to.
    pub other: u64,
    /// The open file that it uses.
    pub uses: Option<OpenFile>,
    /// The open file to which it copies.
    pub copies_to: Option<OpenFile>,
}

/// What the device made of a frame that the server wrote.
#[derive(Clone, Copy, Debug, PartialEq, Eq)]
pub enum Taken {
    Accepted,
    /// ENOENT: no request waits for it.
    NoEntry,
    /// EINVAL: it is no reply, or no reply to its request.
    Invalid,
    /// Another error.
    Failed,
}

/// Whether the device is to accept the body of a reply that its request waits for.
#[derive(Clone, Copy, Debug, PartialEq, Eq)]
pub enum Fit {
    Fits,
    FitsNot,
    /// It is for the device to say: the request is not judged, or how much it takes is not known.
    MayFit,
}

/// One act at the device. What goes over it at once is a few of them, one after another: a RENAME is read, asks and
/// names two nodes; a BATCH_FORGET forgets a node for each of its pairs; a READDIRPLUS's reply gives a node for each of
/// its records.
#[derive(Clone, Copy, Debug)]
pub enum Act {
    /// A frame is a fault in itself, or beside the request that it answers; or it is odd.
    Faulty(super::fault::Fault),

    // Of the kernel.
    /// A request is read.
    Arrives,
    /// It is INIT, or another.
    Begins(Opcode),
    /// It has this number; FORGETs and BATCH_FORGETs too, but no INTERRUPT and no NOTIFY_REPLY. `None` is an opcode by
    /// which it is not judged.
    Read {
        opcode: Option<Opcode>,
        unique: u64,
    },
    /// After FUSE_NOTIFY_RESEND it is read once more under this number; it was read under the original, or under this
    /// one already.
    Resent {
        unique: u64,
        original: u64,
    },
    /// It takes a reply.
    Asks {
        unique: u64,
        asked: Asked,
    },
    /// An INTERRUPT is read.
    Interrupts {
        unique: u64,
        original: u64,
    },
    /// A request names a node.
    Names(u64),
    /// This many lookups of a node are forgotten.
    Forgets(u64, u64),
    /// A request uses an open file.
    Uses(OpenFile),
    /// An open file is released.
    Releases(OpenFile),
    /// A WRITE has this many bytes.
    Writes(u64),

    // Of the server and the device.
    /// The device takes a reply under a number, or refuses it.
    Takes {
        unique: u64,
        taken: Taken,
        fit: Fit,
    },
    /// The device accepts a reply under a number whose error is EINTR.
    Interrupted(u64),
    /// A reply is written under a number.
    Replies {
        unique: u64,
        taken: Taken,
    },
    /// A reply to the INTERRUPT of a request is written; EAGAIN or another.
    RepliesToInterrupt {
        original: u64,
        is_again: bool,
        taken: Taken,
    },
    /// INIT's reply agrees on WRITEs of at most this many bytes.
    Agrees(u32),
    /// An entry gives a node, which is of this file. Whether the kernel counts it is certain, or not.
    Gives {
        nodeid: u64,
        file: File,
        is_certain: bool,
    },
    /// The server asks for the requests that wait once more: FUSE_NOTIFY_RESEND.
    Resends,
    /// Attributes say a node's kind and inode number.
    Describes {
        nodeid: u64,
        kind: u32,
        ino: u64,
    },
    /// A request about a node itself, and no name in it, is answered ENOENT or ESTALE.
    Missing {
        nodeid: u64,
        errno: u32,
    },
    /// A file is open under a file handle.
    Opens(OpenFile),
    /// The server opens none of this kind: ENOSYS. From then on requests have file handle 0.
    OpensNone(OpenKind),
    /// More than one thread reads the device.
    SeveralReaders,
    /// Another thread than the one that reads writes replies.
    SeveralWriters,
    /// The device comes to its end.
    Ends,
}
