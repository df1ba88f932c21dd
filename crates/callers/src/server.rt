//! A FUSE server whose files are one empty directory: it reads request frames and writes replies.

ghost use Rattle.std.specs.Prelude.{◌≡◌, ◌≢◌, ◌≤◌, ◌+◌, true, Err, IfErr, OnOk, OnErr, IsTrue, is_some};
ghost use Rattle.std.specs.Prelude.{vec_capacity, vec_len};
ghost use Rattle.fk_wire.specs.Opcodes.{reply_kind_of, minor_knows, latest_minor};
ghost use Rattle.fk_wire.specs.Requests.{RequestMessage, Spells, opcode_of, request_content, request_message};
ghost use Rattle.fk_wire.specs.Replies.{GoesWith, reply_message};
ghost use Rattle.fk_wire.specs.ReplyFaults.{ReplyRefusalIs};
ghost use Rattle.fk_wire.specs.declared.fault.WireFault.TheVariants.{Memory as MemoryFault};
ghost use Rattle.callers.specs.Answered.{AnswerFaultIs, AnswersRequest, reply_size, reply_to};

use fk_wire::{
    Attr, InitFlags, Reply, ReplyBody, Request, RequestBody, WireFault, read_request, write_reply,
};
use std::alloc::Allocator;

const ENOSYS: i32 = 38;

/// Appends the reply to a request frame, which may be any bytes. A FORGET and a BATCH_FORGET have none.
///
/// # Errors
///
/// The frame's first fault; or `Memory`, where there is no memory for the reply.
pub fn answer<A: Allocator>(frame: &[u8], out: &mut Vec<u8, A>) -> Result<(), WireFault>
    // What is appended is a frame that spells the reply to the request, under its number.
    ensures answered { OnOk result (AnswersRequest frame.now out.old.items out.new.items) }
    ensures refused { OnErr result (out.new.items ≡ out.old.items) }
    // An error is the frame's first fault, or out of memory for the reply that it asks.
    ensures fault { IfErr result (AnswerFaultIs frame.now) }
    // Where the vector has room for the reply, memory does not run out.
    ensures room { (request : RequestMessage) → Spells frame.now request
        → vec_len out.old + reply_size (reply_to request) ≤ vec_capacity out.old → result ≢ Err MemoryFault }
{
    let request = read_request(frame)?;
    if has_reply(&request.body) {
        let reply = reply_to(&request);
        write_reply(out, &reply)
    } else {
        Ok(())
    }
}

/// Whether a request has a reply.
fn has_reply(body: &RequestBody<'_>) -> bool
    ensures { result ≡ is_some (reply_kind_of (opcode_of (request_content body.now))) }
{
    !matches!(
        body,
        RequestBody::Forget { .. } | RequestBody::BatchForget { .. }
    )
}

/// The reply to a request: an agreement on 7.31, the attributes of the root, and for all else that it is not served.
fn reply_to(request: &Request<'_>) -> Reply<'static>
    requires known { IsTrue (minor_knows latest_minor (opcode_of (request_content request.now.body))) }
    requires replies { is_some (reply_kind_of (opcode_of (request_content request.now.body))) ≡ true }
    ensures reply { reply_message result ≡ reply_to (request_message request.now) }
    ensures goes { GoesWith latest_minor (opcode_of (request_content request.now.body)) (reply_message result) }
    // Only out of memory can keep it from being written.
    ensures fits { (fault : WireFault) → ReplyRefusalIs (reply_message result) fault → fault ≡ MemoryFault }
{
    let unique = request.unique;
    match request.body {
        RequestBody::Init { .. } => Reply {
            unique,
            error: 0,
            body: ReplyBody::Init {
                major: 7,
                minor: 31,
                flags: InitFlags::ASYNC_READ,
            },
        },
        RequestBody::Getattr => Reply {
            unique,
            error: 0,
            body: ReplyBody::Attr {
                attr: Attr {
                    ino: 1,
                    size: 0,
                    mode: 0o040755,
                    nlink: 1,
                },
            },
        },
        _ => Reply {
            unique,
            error: -ENOSYS,
            body: ReplyBody::Empty,
        },
    }
}
