//! System calls, what they ask and what they are answered.

ghost use Rattle.std.specs.Prelude.{◌≡◌};
ghost use Rattle.fuse_spec.specs.Calls.Calls.{for_minor};
ghost use Rattle.fk_syscalls.specs.Values.{call_of};

use crate::listing::Listing;
use fuse_spec::Attributes;
use std::alloc::{Allocator, Global};

/// A system call. Its paths and bytes are borrowed. An open file is known by the number of the call that opened it.
#[derive(Clone, Copy, Debug)]
pub enum Call<'a> {
    /// The attributes of the file at a path.
    Stat {
        path: &'a [u8],
    },
    /// The names of the directory at a path, behind an offset.
    List {
        path: &'a [u8],
        after: u64,
    },
    /// The names of the directory at a path, behind an offset, each with its file.
    ListPlus {
        path: &'a [u8],
        after: u64,
    },
    /// Opens the file at a path.
    Open {
        path: &'a [u8],
    },
    /// A new directory, which the last word of the path names.
    Mkdir {
        path: &'a [u8],
    },
    /// A new file, which the last word of the path names. It is open.
    Create {
        path: &'a [u8],
    },
    /// The name at a path goes.
    Unlink {
        path: &'a [u8],
    },
    /// The directory at a path goes.
    Rmdir {
        path: &'a [u8],
    },
    /// The file at the old path is at the new path instead.
    Rename {
        old: &'a [u8],
        new: &'a [u8],
    },
    /// The file at the old path is at the new path as well.
    Link {
        old: &'a [u8],
        new: &'a [u8],
    },
    /// Bytes of an open file.
    Read {
        open_call: u64,
        offset: u64,
        size: u64,
    },
    /// Puts bytes into an open file.
    Write {
        open_call: u64,
        offset: u64,
        bytes: &'a [u8],
    },
    /// Closes an open file.
    Close {
        open_call: u64,
    },
}

impl<'a> Call<'a> {
    /// The call as it is put: where files may not be listed with their names, the names are listed alone (linux/fuse.h,
    /// FUSE_READDIRPLUS).
    pub fn for_minor(self, lists_files: bool) -> Call<'a>
        ensures { call_of result ≡ for_minor lists_files (call_of self.entry) }
    {
        match self {
            Call::ListPlus { path, after } if !lists_files => Call::List { path, after },
            call => call,
        }
    }
}

/// What a system call is answered: the operation's result, or an error number.
#[derive(Drop)]
pub enum Answer<A: Allocator = Global> {
    Done,
    Attributes(Attributes),
    Listing(Listing<A>),
    Content(Vec<u8, A>),
    Written { size: u32 },
    Failed { errno: u32 },
}
