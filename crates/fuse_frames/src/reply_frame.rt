//! Replies in their frames.

ghost use Rattle.std.specs.Prelude.{◌≡◌, ◌≤◌, ◌+◌, ℕ, [], true, vec_capacity};
ghost use Rattle.fk_wire.specs.Fields.{sizes};
ghost use Rattle.fk_wire.specs.Opcodes.{latest_minor};
ghost use Rattle.fk_wire.specs.Replies.{ReplyMessage, WrittenReply, GoesWith, reply_body, reply_message, reply_content};
ghost use Rattle.fuse_spec.specs.Kernel.Messages.{asks};
ghost use Rattle.fuse_spec.specs.Files.Operations.{Operation};
ghost use Rattle.fuse_spec.specs.Kernel.Replies.{goes_with, is_init_reply, is_empty_reply};
ghost use Rattle.fuse_frames.specs.ReplyTies.{SaysReply, IsReplyFrame, FitsRoom, framed_by, message_of};
ghost use Rattle.fuse_frames.specs.RequestTies.{asked_opcode};

use fk_wire::{Opcode, Reply, write_reply};
use fuse_spec::Opened;
use std::alloc::{Allocator, Global};
use std::marker::Model;

/// A frame of the reply link, seen as the reply that it says: its unique and its words.
#[derive(Drop)]
pub struct ReplyFrame<A: Allocator = Global> {
    opcode: Opcode,
    unique: u64,
    bytes: Vec<u8, A>,
}

impl<A: Allocator> Model for ReplyFrame<A> {
    ghost use Rattle.std.specs.Coded.{codes};
    ghost use Rattle.fuse_frames.specs.ReplyTies.{Framed, IsReplyFrame, said_in};

    ghost Value = { Framed };

    ghost coded = { Prim.hlevel (codes) };

    ghost view = { λ f. record { unique = f.unique; wire = said_in f.opcode f.bytes.items } };

    ghost invariant = { λ f. IsReplyFrame f.opcode f.bytes.items
        (record { unique = f.unique; wire = said_in f.opcode f.bytes.items }) };
}

impl<A: Allocator> ReplyFrame<A> {
    /// The unique of the request that it replies to.
    pub fn unique(&self) -> u64
        ensures { result ≡ self.now.unique }
    {
        self.unique
    }

    /// The frame's bytes: the one frame in which the reply is written. They say it to the requests that it may reply
    /// to.
    pub fn bytes(&self) -> &[u8]
        ensures written { (opcode : Opcode) × IsReplyFrame opcode result.now self.now }
        ensures frame { (opcode : Opcode) × SaysReply opcode result.now self.now.unique self.now.wire }
        ensures fits { (operation : Operation ℕ Opened) → goes_with operation self.now.wire ≡ true
            → SaysReply (asked_opcode (asks operation)) result.now self.now.unique self.now.wire }
        ensures init { is_init_reply self.now.wire ≡ true
            → SaysReply Opcode.Init result.now self.now.unique self.now.wire }
        ensures empty { is_empty_reply self.now.wire ≡ true
            → SaysReply Opcode.Release result.now self.now.unique self.now.wire
            × SaysReply Opcode.Interrupt result.now self.now.unique self.now.wire }
    {
        &self.bytes
    }

    /// The frame's bytes, by value: their memory may be the room of another frame.
    pub fn into_bytes(self) -> Vec<u8, A>
        ensures { (opcode : Opcode) × IsReplyFrame opcode result.items self }
    {
        self.bytes
    }

    /// The frame of a reply to a request of this opcode, written into an empty vector that has room for it. It is
    /// written as `message_of` has it.
    pub(crate) fn written(opcode: Opcode, bytes: Vec<u8, A>, reply: &Reply<'_>) -> ReplyFrame<A>
        requires empty { bytes.items ≡ [] }
        requires room { 16 + sizes (reply_body (reply_content reply.now.body)) ≤ vec_capacity bytes }
        requires goes { GoesWith latest_minor opcode (reply_message reply.now) }
        requires fits { FitsRoom (reply_message reply.now) }
        requires exact { reply_message reply.now ≡ message_of (framed_by (reply_message reply.now)) }
        ensures { result ≡ framed_by (reply_message reply.now) }
    {
        let mut bytes = bytes;
        write_reply(&mut bytes, reply).unwrap();
        ReplyFrame {
            opcode,
            unique: reply.unique,
            bytes,
        }
    }

    /// The frame of a reply to READDIR or READDIRPLUS under a unique, whose bytes are written. They are written as
    /// `message_of` has it.
    pub(crate) fn listing(opcode: Opcode, unique: u64, bytes: Vec<u8, A>) -> ReplyFrame<A>
        requires { (message : ReplyMessage) × GoesWith latest_minor opcode message
            × WrittenReply message bytes.items × (message ≡ message_of (framed_by message))
            × (unique ≡ message.unique) }
        ensures { (message : ReplyMessage) → GoesWith latest_minor opcode message
            → WrittenReply message bytes.items → result ≡ framed_by message }
    {
        ReplyFrame {
            opcode,
            unique,
            bytes,
        }
    }
}
