//! Requests in their frames.

ghost use Rattle.std.specs.Prelude.{◌≡◌, ◌≤◌, IfOk, Some, length};
ghost use Rattle.fk_wire.specs.Requests.{request_content};
ghost use Rattle.fuse_spec.specs.Kernel.Messages.{RequestBody as Asked, init, release, forget, batch_forget, interrupt};
ghost use Rattle.fuse_spec.specs.Values.Numbers.{init_flags, max_forgets};
ghost use Rattle.fuse_spec.specs.World.Worlds.{forget_body};
ghost use Rattle.fuse_frames.specs.RequestTies.{IsRequestFrame, body_asking, body_in, request_content_of, asked_opcode};

use crate::operations::body_of;
use crate::pair_bytes::pair_bytes;
use bitflags::Flags;
use fk_wire::{
    InitFlags, Opcode, Pairs, RequestBody, opcode_of_code, read_request_head, write_request,
};
use fuse_spec::{Opened, Operation};
use std::alloc::{AllocError, Allocator, Global};
use std::marker::Model;

/// A frame of the request link, seen as the request that it spells. One is made in room that the caller gives, in
/// place of what that held: a new vector, or the memory of a frame before.
#[derive(Drop)]
pub struct RequestFrame<A: Allocator = Global> {
    bytes: Vec<u8, A>,
}

impl<A: Allocator> Model for RequestFrame<A> {
    ghost use Rattle.std.specs.Coded.{codes};
    ghost use Rattle.fuse_spec.specs.Kernel.Messages.{Request};
    ghost use Rattle.fuse_frames.specs.RequestTies.{IsRequestFrame, request_in};

    ghost Value = { Request };

    ghost coded = { Prim.hlevel (codes) };

    ghost view = { λ f. request_in f.bytes.items };

    ghost invariant = { λ f. IsRequestFrame f.bytes.items (request_in f.bytes.items) };
}

/// The frame of a request that the machine has, written in place of what the room held.
fn framed<A: Allocator>(
    room: Vec<u8, A>,
    request: &fk_wire::Request<'_>,
) -> Result<RequestFrame<A>, AllocError>
    requires { (body : Asked) × (body_in request.now.nodeid (request_content request.now.body) ≡ Some body)
        × (request_content request.now.body ≡ request_content_of body) }
    ensures { (body : Asked) → body_in request.now.nodeid (request_content request.now.body) ≡ Some body
        → IfOk result (λ frame. frame ≡ record { unique = request.now.unique; body = body }) }
{
    let mut bytes = room;
    bytes.clear();
    match write_request(&mut bytes, request) {
        Ok(()) => Ok(RequestFrame { bytes }),
        Err(_) => Err(AllocError),
    }
}

impl<A: Allocator> RequestFrame<A> {
    /// The unique of the request, and its opcode.
    pub fn head(&self) -> (u64, Opcode)
        ensures unique { result.0 ≡ self.now.unique }
        ensures opcode { result.1 ≡ asked_opcode self.now.body }
    {
        // The invariant rules out a frame without a head, and one of no opcode.
        let Ok((code, unique)) = read_request_head(&self.bytes) else {
            return (0, Opcode::Init);
        };
        let Some(opcode) = opcode_of_code(code) else {
            return (unique, Opcode::Init);
        };
        (unique, opcode)
    }

    /// The frame's bytes: the one frame in which the request is written.
    pub fn bytes(&self) -> &[u8]
        ensures { IsRequestFrame result.now self.now }
    {
        &self.bytes
    }

    /// The frame's bytes, by value: their memory may be the room of another frame.
    pub fn into_bytes(self) -> Vec<u8, A>
        ensures { IsRequestFrame result.items self }
    {
        self.bytes
    }

    /// INIT of the version that the kernel speaks, 7.31, with the flags that it offers, FUSE_ASYNC_READ,
    /// FUSE_DO_READDIRPLUS and FUSE_PARALLEL_DIROPS (uapi fuse.h). That its frame says so is in the invariant:
    /// `content_of` has what is written.
    pub fn init(room: Vec<u8, A>, unique: u64) -> Result<RequestFrame<A>, AllocError>
        ensures { IfOk result (λ frame. frame ≡ record { unique = unique; body = init init_flags }) }
    {
        let flags = InitFlags::ASYNC_READ
            .union(InitFlags::DO_READDIRPLUS)
            .union(InitFlags::PARALLEL_DIROPS);
        let body = RequestBody::Init {
            major: 7,
            minor: 31,
            flags,
        };
        framed(
            room,
            &fk_wire::Request {
                unique,
                nodeid: 0,
                body,
            },
        )
    }

    /// The request that asks an operation, whose names and bytes are copied.
    pub fn asks(
        room: Vec<u8, A>,
        unique: u64,
        operation: &Operation<&[u8]>,
    ) -> Result<RequestFrame<A>, AllocError>
        ensures { IfOk result (λ frame. frame ≡ record { unique = unique; body = body_asking operation.now }) }
    {
        let nodeid = operation.header_node();
        let body = body_of(operation);
        framed(
            room,
            &fk_wire::Request {
                unique,
                nodeid,
                body,
            },
        )
    }

    /// RELEASE of an open file.
    pub fn release(
        room: Vec<u8, A>,
        unique: u64,
        opened: Opened,
    ) -> Result<RequestFrame<A>, AllocError>
        ensures { IfOk result (λ frame. frame ≡ record { unique = unique; body = release opened }) }
    {
        let body = RequestBody::Release { fh: opened.fh };
        framed(
            room,
            &fk_wire::Request {
                unique,
                nodeid: opened.nodeid,
                body,
            },
        )
    }
    /// INTERRUPT of the request that has this number.
    pub fn interrupt(
        room: Vec<u8, A>,
        unique: u64,
        original: u64,
    ) -> Result<RequestFrame<A>, AllocError>
        ensures { IfOk result (λ frame. frame ≡ record { unique = unique; body = interrupt original }) }
    {
        let body = RequestBody::Interrupt { unique: original };
        framed(
            room,
            &fk_wire::Request {
                unique,
                nodeid: 0,
                body,
            },
        )
    }
}

impl<A: Allocator + Copy> RequestFrame<A> {
    /// The frame that forgets these lookups, each pair a node and how many of it: FORGET for one pair, else
    /// BATCH_FORGET.
    pub fn forgets(
        alloc: A,
        unique: u64,
        pairs: &[(u64, u64)],
    ) -> Result<RequestFrame<A>, AllocError>
        requires { length pairs.now ≤ max_forgets }
        ensures { IfOk result (λ frame. frame ≡ record { unique = unique; body = forget_body pairs.now }) }
    {
        if pairs.len() == 1 {
            let (node, count) = pairs[0];
            RequestFrame::forget(Vec::new(alloc), unique, node, count)
        } else {
            RequestFrame::batch_forget(alloc, unique, pairs)
        }
    }

    /// FORGET of this many lookups of a node.
    fn forget(
        room: Vec<u8, A>,
        unique: u64,
        node: u64,
        count: u64,
    ) -> Result<RequestFrame<A>, AllocError>
        ensures { IfOk result (λ frame. frame ≡ record { unique = unique; body = forget (node, count) }) }
    {
        let body = RequestBody::Forget { nlookup: count };
        framed(
            room,
            &fk_wire::Request {
                unique,
                nodeid: node,
                body,
            },
        )
    }

    /// BATCH_FORGET of these pairs.
    fn batch_forget(
        alloc: A,
        unique: u64,
        pairs: &[(u64, u64)],
    ) -> Result<RequestFrame<A>, AllocError>
        requires { length pairs.now ≤ max_forgets }
        ensures { IfOk result (λ frame. frame ≡ record { unique = unique; body = batch_forget pairs.now }) }
    {
        let bytes = pair_bytes(alloc, pairs)?;
        let room = Vec::new(alloc);
        let body = RequestBody::BatchForget {
            pairs: Pairs::over(&bytes).unwrap(),
        };
        framed(
            room,
            &fk_wire::Request {
                unique,
                nodeid: 0,
                body,
            },
        )
    }
}
