//! Events, and what they come to.

use fk_kernel::{Call, Pick};
use fk_wire::Opcode;
use fuse_spec::{IntrEffect, Minor, Taken, WriteResult};

/// One event: an atomic step of the world. Paths are borrowed.
#[derive(Clone, Copy, Debug)]
pub enum Event<'a> {
    /// The kernel mounts, and the server, which speaks this minor, with these validities of found and of missing names,
    /// in milliseconds.
    Mount {
        found_ms: u64,
        missing_ms: u64,
        minor: Minor,
    },
    /// A system call begins.
    Call(Call<'a>),
    /// A request is read from the kernel, and goes into the request link.
    Read(Pick),
    /// The server takes the request at a place of the request link.
    Take(u64),
    /// The server performs the request that it holds under a unique, and a copy of its reply goes into the reply link.
    Do(u64),
    /// The server sends one more copy of the reply that it keeps under a unique, and the copy goes into the reply link.
    Again(u64),
    /// The kernel takes the copy at a place of the reply link, and its result goes into the result link.
    Write(u64),
    /// The server takes the result at a place of the result link.
    Settle(u64),
    /// An unanswered call is signalled, fatally or not.
    Interrupt {
        call: u64,
        fatal: bool,
    },
    /// This many milliseconds pass.
    Tick(u64),
    /// The name of a directory, which is a node, is cached no longer.
    DropName {
        directory: u64,
        name: &'a [u8],
    },
    /// The kernel evicts a node, and its whole lookup count is to be forgotten.
    Evict(u64),
    /// The connection is aborted: every unanswered call is answered ECONNABORTED, and the links are emptied.
    Abort,
}

/// What an accepted event came to. Lengths are those of the frames, in bytes; error numbers are 0 or positive.
#[derive(Clone, Copy, Debug, PartialEq, Eq)]
pub enum Outcome {
    Mounted,
    Begun {
        call: u64,
    },
    Read {
        unique: u64,
        opcode: Opcode,
        len: usize,
    },
    Taken {
        unique: u64,
        word: Taken,
    },
    Done {
        unique: u64,
        errno: u32,
        len: usize,
    },
    /// A request was performed after an abort: no reply is sent.
    Lost {
        unique: u64,
        errno: u32,
    },
    SentAgain {
        unique: u64,
        len: usize,
    },
    Written {
        unique: u64,
        result: WriteResult,
    },
    Settled {
        unique: u64,
        result: WriteResult,
    },
    /// What the signal did to the call's request.
    Interrupted {
        call: u64,
        effect: IntrEffect,
    },
    /// The time since the first world, in milliseconds.
    Now {
        clock: u64,
    },
    Dropped,
    Evicted {
        node: u64,
        count: u64,
    },
    Aborted,
}
