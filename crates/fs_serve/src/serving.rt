//! Frames are received and served, one after another.

ghost use Rattle.std.specs.Prelude.{◌≡◌, ◌≢◌, OnErr, IfOk};
ghost use Rattle.fs_server.specs.Effects.{CanTake, RefusesFrame, TakingNeedsMemory};
ghost use Rattle.fs_server.specs.declared.server.ServerFault.TheVariants.{Memory as MemoryFault, Wire as WireFault};
ghost use Rattle.fs_serve.specs.LookupCounts.{IsServed};
ghost use Rattle.fs_serve.specs.Sending.{Delivers, GoesOver, RepliesTo, SendsError, end_of};
ghost use Rattle.fs_serve.specs.LongBatches.{IsLongBatch};
ghost use Rattle.fs_serve.specs.Serving.{HoldsOpcode, IsToTheEnd, Serves, ServesBatch, ServesFrame, ServesHeld, ServesNext, error_for, is_interrupt};
ghost use Rattle.fk_wire.specs.declared.opcode.Opcode.TheVariants.{Release};
ghost use Rattle.fk_wire.specs.Requests.{request_content};
ghost use Rattle.fuse_frames.specs.RequestTies.{SaysRequest, asked_opcode};
ghost use Rattle.fuse_spec.specs.Kernel.Messages.{Request};

use crate::batch::{PAIRS, is_long_batch, pairs_in, put_part};
use crate::blocks::filled;
use crate::errors::{send_error, send_fault};
use crate::init::{init_in, is_long_init};
use crate::names::unique_of_long_name;
use crate::releasing::{release_in, serve_release};
use arrayvec::ArrayVec;
use fk_wire::{Opcode, RequestBody, read_request};
use fs_nodes::NodeStore;
use fs_server::{ServerFault, ServerOf};
use fuse_device::{Device, DeviceEnd};
use fuse_frames::Sent;
use fuse_spec::{Refusal, Taken};
use std::alloc::AllocError;

/// How many bytes are read at once. The kernel refuses a read of under 8,192, and its longest request is a WRITE.
const ROOM: usize = 131_072;

/// ENOMEM and EIO, as error replies have them.
const ENOMEM: i32 = -12;

pub(crate) const EIO: i32 = -5;

/// ENAMETOOLONG, as error replies have it.
const ENAMETOOLONG: i32 = -36;

/// Serves what comes over a device, until it ends, and gives its end; `None` after 2^64 - 1 frames. Each frame is
/// taken, what is held is performed at once, its reply is sent, and the result of that settles the copy.
///
/// Of a server that was just mounted each lookup count follows the frames: it is at every moment what the entries of
/// accepted replies gave, less what forgets gave back (libfuse's low-level notes, "forget").
///
/// # Errors
///
/// Where there is no memory for the frames to come. Nothing is then received.
pub fn serve<S: NodeStore, D: Device>(
    alloc: S::Heap,
    server: &mut ServerOf<S>,
    device: &mut D,
) -> Result<Option<DeviceEnd>, AllocError>
    ensures served { IfOk result (λ end. GoesOver D.logs device.old device.new end
        (λ log. IsServed server.old log server.new)) }
    ensures refused { OnErr result ((server.new ≡ server.old) × (device.new ≡ device.old)) }
{
    let mut room = vec![in alloc; 0u8; ROOM]?;
    Ok(serve_frames(server, device, &mut room))
}

/// Serves frame after frame.
fn serve_frames<S: NodeStore, D: Device>(
    server: &mut ServerOf<S>,
    device: &mut D,
    room: &mut [u8],
) -> Option<DeviceEnd>
    ensures { GoesOver D.logs device.old device.new result
        (λ log. Serves server.old log server.new × IsToTheEnd log) }
{
    for _frame in 0..u64::MAX {
        if let Err(end) = serve_next(server, device, room) {
            return Some(end);
        }
    }
    None
}

/// Receives one frame and serves it.
fn serve_next<S: NodeStore, D: Device>(
    server: &mut ServerOf<S>,
    device: &mut D,
    room: &mut [u8],
) -> Result<(), DeviceEnd>
    ensures { GoesOver D.logs device.old device.new (end_of result) (λ log. ServesNext server.old log server.new) }
{
    let count = match device.receive(room) {
        Ok(count) => count,
        Err(end) => return Err(end),
    };
    let frame = &room[..count];
    if is_long_init(frame) {
        return serve_frame(server, device, &init_in(frame));
    }
    if is_long_batch(frame) {
        return serve_batch(server, device, frame);
    }
    serve_frame(server, device, frame)
}

/// Serves the pairs of a long BATCH_FORGET, 64 in each frame.
fn serve_batch<S: NodeStore, D: Device>(
    server: &mut ServerOf<S>,
    device: &mut D,
    frame: &[u8],
) -> Result<(), DeviceEnd>
    requires { IsLongBatch frame.now }
    ensures { GoesOver D.logs device.old device.new (end_of result)
        (λ log. ServesBatch frame.now server.old log server.new) }
{
    let mut part = ArrayVec::new();
    let mut rest = pairs_in(frame);
    while !rest.is_empty() {
        let count = rest.len().min(PAIRS);
        put_part(&mut part, frame, &rest[..count]);
        if let Err(end) = serve_frame(server, device, part.as_slice()) {
            return Err(end);
        }
        rest = &rest[count..];
    }
    Ok(())
}

/// Serves one frame.
fn serve_frame<S: NodeStore, D: Device>(
    server: &mut ServerOf<S>,
    device: &mut D,
    frame: &[u8],
) -> Result<(), DeviceEnd>
    ensures { GoesOver D.logs device.old device.new (end_of result)
        (λ log. ServesFrame server.old frame.now log server.new) }
{
    match release_in(frame) {
        Some((unique, opened)) => serve_release(server, device, frame, unique, opened),
        None => serve_other(server, device, frame),
    }
}

/// Serves one frame that is no RELEASE.
fn serve_other<S: NodeStore, D: Device>(
    server: &mut ServerOf<S>,
    device: &mut D,
    frame: &[u8],
) -> Result<(), DeviceEnd>
    requires { (request : Request) → SaysRequest frame.now request → asked_opcode request.body ≢ Release }
    ensures { GoesOver D.logs device.old device.new (end_of result)
        (λ log. ServesFrame server.old frame.now log server.new) }
{
    let taken = match server.take(frame) {
        Ok(taken) => taken,
        Err(fault) => return refuse(server, device, frame, fault),
    };
    let opcode = opcode_of(frame);
    if let Some(sent) = &taken.sent {
        return deliver(server, device, opcode, sent);
    }
    match taken.word {
        Taken::Held => serve_held(server, device, opcode, taken.unique),
        _ => Ok(()),
    }
}

/// The opcode of a request's frame.
fn opcode_of(frame: &[u8]) -> Opcode
    requires { (request : Request) × SaysRequest frame.now request }
    ensures { (request : Request) → SaysRequest frame.now request → asked_opcode request.body ≡ result }
{
    let Ok(request) = read_request(frame) else {
        unreachable!();
    };
    request.body.opcode()
}

/// Replies to a frame that is not taken, which changes nothing.
pub(crate) fn refuse<S: NodeStore, D: Device>(
    server: &ServerOf<S>,
    device: &mut D,
    frame: &[u8],
    fault: ServerFault,
) -> Result<(), DeviceEnd>
    requires refused { RefusesFrame server.now frame.now fault }
    requires can { fault ≡ MemoryFault → CanTake server.now frame.now }
    requires wants { fault ≡ MemoryFault → TakingNeedsMemory server.now frame.now }
    requires other { fault ≡ MemoryFault → (request : Request) → SaysRequest frame.now request
        → asked_opcode request.body ≢ Release }
    ensures { GoesOver D.logs device.old device.new (end_of result)
        (λ log. ServesFrame server.now frame.now log server.now) }
{
    match fault {
        ServerFault::Memory => send_untaken(server, device, frame),
        ServerFault::Wire => send_wire_fault(server, device, frame),
        _ => {
            server.lemma_in_range();
            send_fault(server, device, frame, fault)
        }
    }
}

/// Replies to a frame that is no request of the minor: ENAMETOOLONG where nothing is wrong but that a name is too long.
fn send_wire_fault<S: NodeStore, D: Device>(
    server: &ServerOf<S>,
    device: &mut D,
    frame: &[u8],
) -> Result<(), DeviceEnd>
    requires { RefusesFrame server.now frame.now WireFault }
    ensures { GoesOver D.logs device.old device.new (end_of result)
        (λ log. ServesFrame server.now frame.now log server.now) }
{
    server.lemma_in_range();
    match unique_of_long_name(frame) {
        Some(unique) => send_error(device, unique, ENAMETOOLONG),
        None => send_fault(server, device, frame, ServerFault::Wire),
    }
}

/// Replies that memory runs out for a request that could not be taken. Nothing is replied so to an INTERRUPT.
fn send_untaken<S: NodeStore, D: Device>(
    server: &ServerOf<S>,
    device: &mut D,
    frame: &[u8],
) -> Result<(), DeviceEnd>
    requires can { CanTake server.now frame.now }
    requires wants { TakingNeedsMemory server.now frame.now }
    requires other { (request : Request) → SaysRequest frame.now request → asked_opcode request.body ≢ Release }
    ensures { GoesOver D.logs device.old device.new (end_of result)
        (λ log. ServesFrame server.now frame.now log server.now) }
{
    let Ok(request) = read_request(frame) else {
        unreachable!();
    };
    if is_interrupt(&request.body) {
        return Ok(());
    }
    send_error(device, request.unique, ENOMEM)
}

/// Performs a held request, and sends its reply. One that cannot be performed is dropped, and replied an error.
fn serve_held<S: NodeStore, D: Device>(
    server: &mut ServerOf<S>,
    device: &mut D,
    opcode: Opcode,
    unique: u64,
) -> Result<(), DeviceEnd>
    requires { HoldsOpcode server.old unique opcode }
    ensures { GoesOver D.logs device.old device.new (end_of result)
        (λ log. ServesHeld server.old unique log server.new) }
{
    match server.perform(unique) {
        Ok(done) => match &done.sent {
            Some(sent) => deliver(server, device, opcode, sent),
            None => Ok(()),
        },
        Err(refusal) => {
            server.drop_held(unique);
            send_refusal(device, unique, refusal)
        }
    }
}

/// Whether a request is an INTERRUPT.
fn is_interrupt(body: &RequestBody<'_>) -> bool
    ensures { result ≡ is_interrupt (request_content body.now) }
{
    matches!(body, RequestBody::Interrupt { .. })
}

/// Sends the error reply to a request that cannot be performed.
fn send_refusal<D: Device>(device: &mut D, unique: u64, refusal: Refusal) -> Result<(), DeviceEnd>
    ensures { GoesOver D.logs device.old device.new (end_of result) (SendsError unique (error_for refusal)) }
{
    match refusal {
        Refusal::NoMemory => send_error(device, unique, ENOMEM),
        _ => send_error(device, unique, EIO),
    }
}

/// Sends a copy of a reply to a request of an opcode, with the blocks of each file, and settles it by the result.
fn deliver<S: NodeStore, D: Device>(
    server: &mut ServerOf<S>,
    device: &mut D,
    opcode: Opcode,
    sent: &Sent<S::Heap>,
) -> Result<(), DeviceEnd>
    requires { RepliesTo opcode sent.now }
    ensures { GoesOver D.logs device.old device.new (end_of result)
        (λ log. Delivers sent.now server.old log server.new) }
{
    let reply = filled(opcode, sent.bytes());
    match device.send(reply.as_slice()) {
        Ok(result) => {
            let _settled = server.settle(sent.number(), result);
            Ok(())
        }
        Err(end) => Err(end),
    }
}
