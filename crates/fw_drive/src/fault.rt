//! What a server did wrong.

use fk_wire::Opcode;
use fuse_spec::Kind;

/// A call, and the line that began it.
#[derive(Clone, Copy, Debug)]
pub(crate) struct CallName {
    /// Its number.
    pub(crate) call: u64,
    /// The number of the line, from 1.
    pub(crate) line: u64,
}

/// What a request asks.
#[derive(Clone, Copy, Debug)]
pub(crate) enum Asks {
    /// What the kernel asks by this opcode.
    Kernel(Opcode),
    /// OPENDIR, which is not the kernel's.
    Opendir,
    /// RELEASEDIR, which is not the kernel's.
    Releasedir,
}

/// A request that was sent.
#[derive(Clone, Copy, Debug)]
pub(crate) struct RequestName {
    pub(crate) asks: Asks,
    pub(crate) unique: u64,
    /// The call that it serves, if that is known.
    pub(crate) serves: Option<CallName>,
}

/// How many bytes the body of a reply has where it is right.
#[derive(Clone, Copy, Debug)]
pub(crate) enum RightSize {
    Exactly(u64),
    AtMost(u64),
    /// Its size does not say that it is wrong.
    Any,
}

/// How many bytes a body has that is wrong.
#[derive(Clone, Copy, Debug)]
pub(crate) struct BodySize {
    pub(crate) len: u64,
    pub(crate) right: RightSize,
}

/// A file, as a reply gives it.
#[derive(Clone, Copy, Debug)]
pub(crate) struct GivenFile {
    pub(crate) kind: Kind,
    pub(crate) ino: u64,
}

/// Why a frame is no reply by its head.
#[derive(Clone, Copy, Debug)]
pub(crate) enum HeadFault {
    /// It has fewer bytes than a head.
    Short { len: u64 },
    /// It says another length than it has.
    Length { said: u64, len: u64 },
    /// Its error is positive.
    Positive { error: u64 },
    /// Its error is under -511: this number, negated.
    Low { error: u64 },
    /// It has the number of an OPENDIR or RELEASEDIR.
    OfOpendir { unique: u64 },
}

/// What a server did wrong, as far as a reply shows.
#[derive(Clone, Copy, Debug)]
pub(crate) enum Fault {
    /// It is no reply by its head.
    NoReply(HeadFault),
    /// No request of its number was sent.
    ToNothing {
        unique: u64,
    },
    /// The request of its number is answered already.
    Second(RequestName),
    /// Its body is not that of a reply to its request. Of one to OPENDIR or RELEASEDIR the size may be unknown.
    Body {
        request: RequestName,
        size: Option<BodySize>,
    },
    /// It gives the root as the file of a name.
    Root(RequestName),
    /// It gives a node, which the kernel counts, under another generation.
    TwoGenerations {
        node: u64,
        request: RequestName,
        given: u64,
        before: u64,
    },
    /// It gives a node, which the kernel counts, for another file: of another kind, or of another inode number.
    TwoFiles {
        node: u64,
        request: RequestName,
        given: GivenFile,
        before: GivenFile,
    },
}

/// What waits for a reply.
#[derive(Clone, Copy, Debug)]
pub(crate) struct Unanswered {
    /// The request with the lowest number.
    pub(crate) first: RequestName,
    /// How many others wait, if any does.
    pub(crate) more: Option<u64>,
}
