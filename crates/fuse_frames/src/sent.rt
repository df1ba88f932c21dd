//! Copies of replies in their frames.

ghost use Rattle.std.specs.Prelude.{◌≡◌, ℕ, true};
ghost use Rattle.fuse_spec.specs.Kernel.Messages.{asks};
ghost use Rattle.fuse_spec.specs.Files.Operations.{Operation};
ghost use Rattle.fuse_spec.specs.Kernel.Replies.{goes_with, is_init_reply, is_empty_reply};
ghost use Rattle.fuse_frames.specs.ReplyTies.{SaysReply, IsReplyFrame};
ghost use Rattle.fuse_frames.specs.RequestTies.{asked_opcode};

use crate::reply_frame::ReplyFrame;
use fk_wire::Opcode;
use fuse_spec::Opened;
use std::alloc::{Allocator, Global};
use std::marker::Model;

/// One copy of a reply on its way to the kernel, seen as its number, its unique and what it says.
#[derive(Drop)]
pub struct Sent<A: Allocator = Global> {
    number: u64,
    frame: ReplyFrame<A>,
}

impl<A: Allocator> Model for Sent<A> {
    ghost use Rattle.std.specs.Coded.{codes};
    ghost use Rattle.fuse_spec.specs.World.Worlds.{Sent as SentState};

    ghost Value = { SentState };

    ghost coded = { Prim.hlevel (codes) };

    ghost view = { λ c. record { number = c.number; unique = c.frame.unique; wire = c.frame.wire } };
}

impl<A: Allocator> Sent<A> {
    /// The copy of this number.
    pub fn new(number: u64, frame: ReplyFrame<A>) -> Sent<A>
        ensures { result ≡ record { number = number; unique = frame.unique; wire = frame.wire } }
    {
        Sent { number, frame }
    }

    /// The number of the copy.
    pub fn number(&self) -> u64
        ensures { result ≡ self.now.number }
    {
        self.number
    }

    /// The unique of the request that it replies to.
    pub fn unique(&self) -> u64
        ensures { result ≡ self.now.unique }
    {
        self.frame.unique()
    }

    /// The frame's bytes: the one frame in which the reply is written. They say what the copy says, to the requests
    /// that it may reply to.
    pub fn bytes(&self) -> &[u8]
        ensures written { (opcode : Opcode) × IsReplyFrame opcode result.now
            (record { unique = self.now.unique; wire = self.now.wire }) }
        ensures frame { (opcode : Opcode) × SaysReply opcode result.now self.now.unique self.now.wire }
        ensures fits { (operation : Operation ℕ Opened) → goes_with operation self.now.wire ≡ true
            → SaysReply (asked_opcode (asks operation)) result.now self.now.unique self.now.wire }
        ensures init { is_init_reply self.now.wire ≡ true
            → SaysReply Opcode.Init result.now self.now.unique self.now.wire }
        ensures empty { is_empty_reply self.now.wire ≡ true
            → SaysReply Opcode.Release result.now self.now.unique self.now.wire
            × SaysReply Opcode.Interrupt result.now self.now.unique self.now.wire }
    {
        self.frame.bytes()
    }

    /// The frame's bytes, by value: their memory may be the room of another frame.
    pub fn into_bytes(self) -> Vec<u8, A>
        ensures { (opcode : Opcode) × IsReplyFrame opcode result.items (record { unique = self.unique; wire = self.wire }) }
    {
        self.frame.into_bytes()
    }
}
