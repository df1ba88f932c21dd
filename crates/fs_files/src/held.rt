//! Requests that are held until they are performed.

ghost use Rattle.std.specs.Prelude.{◌≡◌, true, false};
ghost use Rattle.fs_files.specs.Values.{asked_of, nodes_named, names_for, reply_room_for};

use fk_wire::InitFlags;
use fuse_spec::{Opened, Operation};
use std::alloc::Allocator;
use std::marker::Model;

/// The longest body of a reply to READ, READDIR or READDIRPLUS.
pub(crate) const MOST_CONTENT: usize = 4096;

/// The most names in a reply to READDIRPLUS, each with an entry of 128 bytes.
pub(crate) const MOST_NAMES: usize = MOST_CONTENT / 128;

/// A node that a request names, with the generation that it had when the request was taken.
#[derive(Clone, Copy, Debug, PartialEq, Eq)]
pub struct NamedNode {
    pub nodeid: u64,
    pub generation: u64,
}

/// The nodes that a request names: two at most.
#[derive(Clone, Copy, Debug, PartialEq, Eq)]
pub enum Named {
    Nothing,
    One(NamedNode),
    Two(NamedNode, NamedNode),
}

/// An operation with the names and bytes that it needs.
pub type HeldOperation<A> = Operation<Vec<u8, A>>;

/// What a held request asks.
#[derive(Drop)]
pub enum HeldBody<A: Allocator> {
    /// INIT, with the flags that the kernel offers.
    Init { flags: InitFlags },
    /// An operation.
    Asks { operation: HeldOperation<A> },
    /// RELEASE of a file handle.
    Release { opened: Opened },
}

/// A request that is held until it is performed.
#[derive(Drop)]
pub struct HeldRequest<A: Allocator> {
    body: HeldBody<A>,
    named: Named,
    is_marked: bool,
}

impl<A: Allocator> Model for HeldRequest<A> {
    ghost use Rattle.std.specs.Coded.{codes};
    ghost use Rattle.fuse_spec.specs.Server.Server.{HeldRequest as Held};
    ghost use Rattle.fs_files.specs.Values.{asked_of, nodes_named};

    ghost Value = { Held };

    ghost coded = { Prim.hlevel (codes) };

    ghost view = { λ h. record { body = asked_of h.body; generations = nodes_named h.named; marked = h.is_marked } };
}

impl<A: Allocator> HeldRequest<A> {
    /// A request that no INTERRUPT has marked.
    pub fn new(body: HeldBody<A>, named: Named) -> Self
        ensures { result ≡ record { body = asked_of body; generations = nodes_named named; marked = false } }
    {
        HeldRequest {
            body,
            named,
            is_marked: false,
        }
    }

    /// An INTERRUPT marks it.
    pub fn mark(&mut self)
        ensures { self.new ≡ record self.old { marked = true } }
    {
        self.is_marked = true;
    }

    pub(crate) fn is_marked(&self) -> bool
        ensures { result ≡ self.now.marked }
    {
        self.is_marked
    }

    pub(crate) fn named(&self) -> Named
        ensures { nodes_named result ≡ self.now.generations }
    {
        self.named
    }

    pub(crate) fn body(&self) -> &HeldBody<A>
        ensures { asked_of result.now ≡ self.now.body }
    {
        &self.body
    }

    /// How long the body of a reply is at most that has no fixed length.
    pub fn reply_len(&self) -> usize
        ensures { result ≡ reply_room_for self.now.body }
    {
        match &self.body {
            HeldBody::Asks {
                operation: Operation::Read { .. } | Operation::Readdir { .. },
            } => MOST_CONTENT,
            HeldBody::Asks {
                operation: Operation::Readdirplus { .. },
            } => MOST_CONTENT,
            _ => 0,
        }
    }

    /// How many names its reply lists at most together with their files.
    pub fn reply_names(&self) -> usize
        ensures { result ≡ names_for self.now.body }
    {
        match &self.body {
            HeldBody::Asks {
                operation: Operation::Readdirplus { .. },
            } => MOST_NAMES,
            _ => 0,
        }
    }
}
