//! A request, as its frame spells it.

use crate::flags::InitFlags;
use crate::opcode::Opcode;
use crate::pairs::Pairs;

/// A request: the fields of `struct fuse_in_header` that are not free, and the body.
///
/// Names, data and pairs are slices of the frame. Fields that are free hold any value in a frame that
/// is read, and one fixed value, mostly 0, in a frame that is written; they are no part of a request.
#[derive(Clone, Copy, Debug)]
pub struct Request<'a> {
    /// The number that the reply gives back.
    pub unique: u64,
    /// The node that the request is about; 0 under INIT, INTERRUPT and BATCH_FORGET, which are about
    /// none and whose field is free.
    pub nodeid: u64,
    pub body: RequestBody<'a>,
}

/// What a request asks, with the fields of its struct of linux/fuse.h that are not free.
///
/// A name has 1 to 255 bytes without NUL and `/`, and is neither `.` nor `..`; in the frame a NUL
/// byte follows it.
#[derive(Clone, Copy, Debug)]
pub enum RequestBody<'a> {
    /// The name alone.
    Lookup {
        name: &'a [u8],
    },
    /// `struct fuse_forget_in`. It has no reply.
    Forget {
        /// How many lookups of the node are forgotten.
        nlookup: u64,
    },
    /// `struct fuse_getattr_in`, all of it free.
    Getattr,
    /// `struct fuse_mkdir_in` and the name. The mode is free, and written as octal 0755.
    Mkdir {
        name: &'a [u8],
    },
    /// The name alone.
    Unlink {
        name: &'a [u8],
    },
    /// The name alone.
    Rmdir {
        name: &'a [u8],
    },
    /// `struct fuse_rename_in` and the two names.
    Rename {
        /// The directory that the name moves to. It moves out of the node.
        newdir: u64,
        old: &'a [u8],
        new: &'a [u8],
    },
    /// `struct fuse_link_in` and the name, which the node, a directory, gets.
    Link {
        /// The file that gets a further name.
        oldnodeid: u64,
        name: &'a [u8],
    },
    /// `struct fuse_open_in`, all of it free.
    Open,
    /// `struct fuse_read_in`.
    Read {
        fh: u64,
        /// In bytes, as is the size.
        offset: u64,
        size: u32,
    },
    /// `struct fuse_write_in` and the data, whose length is its `size`.
    Write {
        fh: u64,
        /// In bytes.
        offset: u64,
        bytes: &'a [u8],
    },
    /// `struct fuse_release_in`.
    Release {
        fh: u64,
    },
    /// `struct fuse_init_in`. `max_readahead` is free.
    Init {
        major: u32,
        minor: u32,
        /// What the kernel offers.
        flags: InitFlags,
    },
    /// `struct fuse_read_in`, whose `fh` is free here.
    Readdir {
        /// Where the list goes on: the `off` of the last record that was read, or 0.
        offset: u64,
        /// How many bytes of records are wanted at most.
        size: u32,
    },
    /// `struct fuse_read_in` as of `Readdir`, for records that come with their entries.
    Readdirplus {
        offset: u64,
        size: u32,
    },
    /// `struct fuse_create_in` and the name. The mode is free, and written as that of a file with
    /// octal 0644.
    Create {
        name: &'a [u8],
    },
    /// `struct fuse_interrupt_in`.
    Interrupt {
        /// The unique number of the request that is interrupted.
        unique: u64,
    },
    /// `struct fuse_batch_forget_in` and the pairs. It has no reply.
    BatchForget {
        pairs: Pairs<'a>,
    },
}

impl RequestBody<'_> {
    ghost use Rattle.std.specs.Prelude.{◌≡◌};
    ghost use Rattle.fk_wire.specs.Requests.{request_content, opcode_of};

    /// The opcode of a request with this body.
    pub fn opcode(&self) -> Opcode
        ensures { result ≡ opcode_of (request_content self.now) }
    {
        match self {
            RequestBody::Lookup { .. } => Opcode::Lookup,
            RequestBody::Forget { .. } => Opcode::Forget,
            RequestBody::Getattr => Opcode::Getattr,
            RequestBody::Mkdir { .. } => Opcode::Mkdir,
            RequestBody::Unlink { .. } => Opcode::Unlink,
            RequestBody::Rmdir { .. } => Opcode::Rmdir,
            RequestBody::Rename { .. } => Opcode::Rename,
            RequestBody::Link { .. } => Opcode::Link,
            RequestBody::Open => Opcode::Open,
            RequestBody::Read { .. } => Opcode::Read,
            RequestBody::Write { .. } => Opcode::Write,
            RequestBody::Release { .. } => Opcode::Release,
            RequestBody::Init { .. } => Opcode::Init,
            RequestBody::Readdir { .. } => Opcode::Readdir,
            RequestBody::Readdirplus { .. } => Opcode::Readdirplus,
            RequestBody::Create { .. } => Opcode::Create,
            RequestBody::Interrupt { .. } => Opcode::Interrupt,
            RequestBody::BatchForget { .. } => Opcode::BatchForget,
        }
    }
}
