//! The definitions of the project, in `specs/`, and the plain values, error numbers and limits that definitions and code
//! share.
#![tactic(auto)]

pub mod errno;
pub mod limits;
mod name;
mod operation;

pub use name::is_dots;
pub use operation::{NoOpenFile, Operation};
use thiserror::Error;

/// How far a request has come. The mark belongs to the request: the next request of the same call starts unread.
#[derive(Clone, Copy, Debug, PartialEq, Eq)]
pub enum Mark {
    /// Pending.
    Unread,
    /// Pending, after a signal that was not fatal: its INTERRUPT is queued when it is read.
    Flagged,
    /// In processing, and never signalled.
    Read,
    /// In processing, and its INTERRUPT was queued.
    Interrupted,
}

/// A request as the queues keep it: its mark, and what the kernel keeps of it.
#[derive(Debug, Drop)]
pub struct QueuedRequest<W> {
    pub mark: Mark,
    pub kept: W,
}

/// What a signal to a request did (the kernel's `fuse.rst`, "Interrupting filesystem operations").
#[derive(Clone, Copy, Debug, PartialEq, Eq)]
pub enum IntrEffect {
    /// The request was unread and is gone. Its call is to be answered EINTR.
    Dequeued,
    /// The request is unread. Its INTERRUPT is queued when it is read.
    Flagged,
    /// The request was read, and its INTERRUPT is queued.
    Queued,
    /// Nothing.
    None,
}

/// What a reply to an INTERRUPT says, by its error.
#[derive(Clone, Copy, Debug, PartialEq, Eq)]
pub enum InterruptReply {
    /// EAGAIN: the server does not hold the request yet, and asks for the INTERRUPT once more.
    Again,
    /// ENOSYS: the server knows no INTERRUPT.
    NotSupported,
    /// Any other error, or none.
    Other,
}

/// What a reply to an INTERRUPT does to the queues.
#[derive(Clone, Copy, Debug, PartialEq, Eq)]
pub enum InterruptReplyEffect {
    /// The INTERRUPT is queued once more, last.
    QueuedAgain,
    /// The queued INTERRUPTs go, and none is queued any more in this mount.
    TurnedOff,
    /// Nothing.
    None,
}

/// Of what kind a file is, by the type bits of its mode.
#[derive(Clone, Copy, Debug, PartialEq, Eq)]
pub enum Kind {
    Directory,
    Regular,
    Other,
}

/// What a system call sees of a file's attributes (`struct fuse_attr`). The size is in bytes.
#[derive(Clone, Copy, Debug, PartialEq, Eq)]
pub struct Attributes {
    pub kind: Kind,
    pub ino: u64,
    pub size: u64,
    pub nlink: u32,
}

/// How the kernel names an open file: its node, and the number that the server gave it.
#[derive(Clone, Copy, Debug, PartialEq, Eq)]
pub struct Opened {
    pub nodeid: u64,
    pub fh: u64,
}

/// What the kernel keeps of a request: INIT, the RELEASE of an open file, or the call that it serves.
#[derive(Clone, Copy, Debug, PartialEq, Eq)]
pub enum Purpose {
    Init,
    Release(Opened),
    Call(u64),
}

/// Where a mount stands: before the first, before INIT is answered, ready, or aborted.
#[derive(Clone, Copy, Debug, PartialEq, Eq)]
pub enum Phase {
    Down,
    Starting,
    Ready,
    Aborted,
}

/// A node that the kernel counts: its generation, and how often an entry has named it since it was counted.
#[derive(Clone, Copy, Debug, PartialEq, Eq)]
pub struct Counted {
    pub generation: u64,
    pub count: u64,
}

/// A node as it is listed: its nodeid and generation, and its lookup count.
#[derive(Clone, Copy, Debug, PartialEq, Eq)]
pub struct NodeCount {
    pub nodeid: u64,
    pub generation: u64,
    pub count: u64,
}

/// A cached name: the node to which it leads, if any, and the time in milliseconds from which it is valid no more.
#[derive(Clone, Copy, Debug, PartialEq, Eq)]
pub struct Dentry {
    pub target: Option<u64>,
    pub until: u64,
}

/// A file as an entry names it (`struct fuse_entry_out`).
#[derive(Clone, Copy, Debug, PartialEq, Eq)]
pub struct Entry {
    pub nodeid: u64,
    pub generation: u64,
    pub attributes: Attributes,
}

/// What the kernel answers to the writer of a reply: 0, ENOENT or EINVAL.
#[derive(Clone, Copy, Debug, PartialEq, Eq)]
pub enum WriteResult {
    Accepted,
    NoEntry,
    Invalid,
}

/// The result of one copy of a reply, on its way back to the server.
#[derive(Clone, Copy, Debug, PartialEq, Eq)]
pub struct ReplyResult {
    /// The copy's number.
    pub number: u64,
    pub unique: u64,
    pub result: WriteResult,
}

/// For how many milliseconds a found name and a missing one are valid.
#[derive(Clone, Copy, Debug, PartialEq, Eq)]
pub struct Validity {
    pub found_ms: u64,
    pub missing_ms: u64,
}

/// The protocol of a mount: 7.15 or 7.31.
#[derive(Clone, Copy, Debug, PartialEq, Eq)]
pub enum Minor {
    M15,
    M31,
}

/// What became of a request that the server took.
#[derive(Clone, Copy, Debug, PartialEq, Eq)]
pub enum Taken {
    /// It is held until it is performed.
    Held,
    /// Its forgets are done.
    Forgot,
    /// An INTERRUPT marked the request that it names.
    Marked,
    /// An INTERRUPT came when the reply was sent already.
    Ignored,
    /// An INTERRUPT whose request is not known is answered EAGAIN.
    Again,
}

/// Why an event is refused. A refused event changes nothing.
#[derive(Clone, Copy, Debug, PartialEq, Eq, Error)]
pub enum Refusal {
    #[error("out of memory: a growth was refused in this event")]
    NoMemory = 1,
    #[error("there is no message, request, call, name or node that the event means")]
    NoSuch,
    #[error("an INTERRUPT waits, and another kind of request was to be read")]
    InterruptFirst,
    #[error("the mount is not live, or INIT is not answered")]
    NotReady,
    #[error("a node is in use, or a live mount has unanswered calls or open files")]
    Busy,
    #[error("no reply is kept, or what it names is held no longer")]
    NoCopy,
    #[error("64 calls are unanswered")]
    Full,
    #[error("a counter is at its end, 2^62")]
    Exhausted,
    #[error("a time is out of range")]
    BadTime,
    #[error("the link failed")]
    LinkLost,
}
