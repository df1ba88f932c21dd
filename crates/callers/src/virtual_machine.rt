//! A virtual machine host that serves a guest's requests: they are taken, performed, and settled as their replies are
//! handed over.

ghost use Rattle.std.specs.Prelude.{vec_capacity};
ghost use Rattle.callers.specs.Serving.{IsDelivered, IsFrameServed};

use fs_server::{Server, ServerFault};
use fuse_frames::Sent;
use fuse_spec::{Taken, WriteResult};
use std::alloc::Allocator;

/// What became of a frame of a guest.
#[derive(Clone, Copy, Debug, PartialEq, Eq)]
pub enum Served {
    /// Its reply stands in the buffer.
    Replied,
    /// It has no reply.
    NoReply,
    /// Its reply has no room in the buffer, and what it counted is given back.
    NoRoom,
    /// Out of memory or of numbers: the request is held under its number, and may be performed again.
    Waits(u64),
    /// It is no request, or is at fault: the server is as before.
    Refused(ServerFault),
}

/// Serves one frame of a guest, which may be any bytes. Its reply is appended to the buffer that the guest reads.
pub fn serve<A: Allocator + Copy>(
    server: &mut Server<A>,
    frame: &[u8],
    buffer: &mut Vec<u8, A>,
) -> Served
    ensures { IsFrameServed server.old frame.now (vec_capacity buffer.old) buffer.old.items result server.new
        buffer.new.items }
{
    let taken = match server.take(frame) {
        Ok(taken) => taken,
        Err(fault) => return Served::Refused(fault),
    };
    if let Some(sent) = &taken.sent {
        return deliver(server, sent, buffer);
    }
    if taken.word != Taken::Held {
        return Served::NoReply;
    }
    let Ok(done) = server.perform(taken.unique) else {
        return Served::Waits(taken.unique);
    };
    match &done.sent {
        Some(sent) => deliver(server, sent, buffer),
        None => Served::NoReply,
    }
}

/// Hands a copy of a reply over, and settles it by whether it had room.
fn deliver<A: Allocator + Copy>(
    server: &mut Server<A>,
    sent: &Sent<A>,
    buffer: &mut Vec<u8, A>,
) -> Served
    ensures { IsDelivered server.old sent.now (vec_capacity buffer.old) buffer.old.items result server.new
        buffer.new.items }
{
    let (served, result) = match buffer.extend_from_slice(sent.bytes()) {
        Ok(()) => (Served::Replied, WriteResult::Accepted),
        Err(_) => (Served::NoRoom, WriteResult::Invalid),
    };
    let _settled = server.settle(sent.number(), result);
    served
}
