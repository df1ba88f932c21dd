//! Replies that are kept, and copies of them.

ghost use Rattle.std.specs.Prelude.{◌≡◌};
ghost use Rattle.fs_files.specs.Replies.{sent_wire, IsSendable};

use fs_files::SentReply;
use std::alloc::Allocator;
use std::marker::Model;

/// A reply that is kept until one of its copies is settled.
#[derive(Drop)]
pub(crate) struct KeptReply<A: Allocator> {
    reply: SentReply<A>,
    first: u64,
}

impl<A: Allocator> Model for KeptReply<A> {
    ghost use Rattle.std.specs.Coded.{codes};
    ghost use Rattle.fuse_spec.specs.Server.Server.{Kept};
    ghost use Rattle.fs_files.specs.Replies.{sent_wire, IsSendable};

    ghost Value = { Kept };

    ghost coded = { Prim.hlevel (codes) };

    ghost view = { λ k. record { wire = sent_wire k.reply; first = k.first } };

    ghost invariant = { λ k. IsSendable k.reply };
}

impl<A: Allocator> KeptReply<A> {
    /// A reply whose first copy has this number.
    pub(crate) fn new(reply: SentReply<A>, first: u64) -> Self
        requires { IsSendable reply }
        ensures { result ≡ record { wire = sent_wire reply; first = first } }
    {
        KeptReply { reply, first }
    }

    /// What it says.
    pub(crate) fn reply(&self) -> &SentReply<A>
        ensures wire { self.now.wire ≡ sent_wire result.now }
        ensures sendable { IsSendable result.now }
    {
        &self.reply
    }

    /// The number of its first copy.
    pub(crate) fn first(&self) -> u64
        ensures { result ≡ self.now.first }
    {
        self.first
    }
}

/// A copy that was sent and is not settled.
#[derive(Drop)]
pub(crate) struct SentCopy<A: Allocator> {
    unique: u64,
    reply: SentReply<A>,
    first: u64,
}

impl<A: Allocator> Model for SentCopy<A> {
    ghost use Rattle.std.specs.Coded.{codes};
    ghost use Rattle.fuse_spec.specs.Server.Server.{Copy};
    ghost use Rattle.fs_files.specs.Replies.{sent_wire};

    ghost Value = { Copy };

    ghost coded = { Prim.hlevel (codes) };

    ghost view = { λ c. record { unique = c.unique; wire = sent_wire c.reply; first = c.first } };
}

impl<A: Allocator> SentCopy<A> {
    /// A copy of a reply whose first copy has this number.
    pub(crate) fn new(unique: u64, reply: SentReply<A>, first: u64) -> Self
        ensures { result ≡ record { unique = unique; wire = sent_wire reply; first = first } }
    {
        SentCopy {
            unique,
            reply,
            first,
        }
    }

    pub(crate) fn unique(&self) -> u64
        ensures { result ≡ self.now.unique }
    {
        self.unique
    }

    /// What it says.
    pub(crate) fn reply(&self) -> &SentReply<A>
        ensures { self.now.wire ≡ sent_wire result.now }
    {
        &self.reply
    }

    /// The number of the first copy of its reply.
    pub(crate) fn first(&self) -> u64
        ensures { result ≡ self.now.first }
    {
        self.first
    }
}
