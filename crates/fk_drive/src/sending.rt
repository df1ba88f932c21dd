//! What the kernel's read gives is sent.

ghost use Rattle.std.specs.Prelude.{◌≡◌, ◌≤◌, ◌<◌, ◌^◌, ℕ, List, true, IfErr, IfOk, OnErr, OnOk, length};
ghost use Rattle.fuse_device.specs.Transfers.{Transfer};
ghost use Rattle.fuse_spec.specs.Kernel.Messages.{Request};
ghost use Rattle.fuse_spec.specs.declared.WriteResult.{WriteResult};
ghost use Rattle.fk_wire.specs.Replies.{IsErrorNumber, WrittenReply, empty_reply};
ghost use Rattle.fk_drive.specs.KernelSteps.{IsReplyTaken};
ghost use Rattle.fk_wire.specs.Requests.{RequestMessage, Spells};
ghost use Rattle.fuse_frames.specs.RequestTies.{IsRequestFrame};
ghost use Rattle.fk_drive_frames.specs.Filling.{IsListing};
ghost use Rattle.fk_drive_frames.specs.OwnRequests.{ListsNode};
ghost use Rattle.fk_drive.specs.Driven.{driven};
ghost use Rattle.fk_drive.specs.Driving.{DrivesOver, Runs, Turn, idle, picked};
ghost use Rattle.fk_drive.specs.Exchanges.{EndsAs, WentOver};
ghost use Rattle.fk_drive.specs.Notings.{HasNoted};
ghost use Rattle.fk_drive.specs.Sending.{IsAnswerRefusedAs, IsReadRefused, IsRequestSent, SendsListing, SendsNext, SendsSame, SendsUntil};
ghost use Rattle.fk_drive.specs.Steps.{SendStep};
ghost use Rattle.fk_kernel.specs.Picks.{IsPicked};

use crate::connection::Connection;
use crate::end::{DriveEnd, NotSent};
use crate::exchange::send_bytes;
use crate::noted::Notes;
use crate::opening::{Awaited, Listing, node_opened, open_directory};
use fk_drive_frames::{FreeFields, OpendirSaid, fill, fill_handle};
use fk_kernel::{KernelOf, Pick};
use fk_lookup_count::CountTable;
use fk_queues::QueueTable;
use fk_wire::{MAX_FRAME, frame_of_error, spelled_is_decoded, written_is_spelled};
use fuse_device::Device;
use fuse_frames::RequestFrame;
use fuse_spec::Purpose;

/// Sends a request, with what servers expect in its free fields.
fn send_same<D: Device>(
    device: &mut D,
    frame: &[u8],
    free_fields: FreeFields,
) -> Result<(), DriveEnd>
    requires { length frame.now ≤ 4176 }
    ensures { WentOver D.logs device.old device.new (EndsAs result) (SendsSame frame.now free_fields) }
{
    let mut room = [0u8; MAX_FRAME];
    let filled = &mut room[..frame.len()];
    filled.copy_from_slice(frame);
    fill(filled, free_fields);
    send_bytes(device, filled)
}

/// Sends a request that lists an open directory, with its fh.
fn send_listing<D: Device>(device: &mut D, frame: &[u8], fh: u64) -> Result<(), DriveEnd>
    requires short { length frame.now ≤ 4176 }
    requires lists { (m : RequestMessage) × Spells frame.now m × IsListing m.content }
    ensures { WentOver D.logs device.old device.new (EndsAs result) (SendsListing frame.now fh) }
{
    let mut room = [0u8; MAX_FRAME];
    let filled = &mut room[..frame.len()];
    filled.copy_from_slice(frame);
    fill_handle(filled, fh);
    send_bytes(device, filled)
}

/// Sends a request that lists a node, under its number, once its directory is open. Where that fails the kernel takes
/// the error as its reply.
fn send_opened<Q: QueueTable<Purpose>, C: CountTable<Heap = Q::Heap>, D: Device, N: Notes<O>, O>(
    kernel: &mut KernelOf<Q, C>,
    connection: &mut Connection<Q::Heap>,
    device: &mut D,
    notes: &mut N,
    out: &mut O,
    frame: &[u8],
    free_fields: FreeFields,
    listing: Listing,
) -> Result<(), DriveEnd>
    requires short { length frame.now ≤ 4176 }
    requires lists { (m : RequestMessage) × Spells frame.now m × IsListing m.content }
    requires asks { connection.old.asks ≡ true }
    requires numbers { connection.old.next < 2 ^ 63 }
    ensures sends { (request : Request) → IsRequestFrame frame.now request → request.unique ≡ listing.unique
        → ListsNode request.body listing.node → (turn : Turn)
        × WentOver D.logs device.old device.new (SendsUntil result (driven kernel.new connection.new turn))
        (λ log. Runs (SendStep free_fields) (driven kernel.old connection.old (picked request)) log
        (driven kernel.new connection.new turn)) }
    ensures noted { HasNoted N.notes notes.old notes.new out.old out.new }
{
    written_is_spelled();
    let said = match open_directory(connection, device, notes, out, listing) {
        Awaited::Said(said) => said,
        Awaited::NotYet => return Err(DriveEnd::Memory),
        Awaited::Ended(end) => return Err(end),
    };
    match said {
        OpendirSaid::Handle(fh) => send_listing(device, frame, fh),
        OpendirSaid::NotKnown => send_same(device, frame, free_fields),
        OpendirSaid::Failed(error) => answer(kernel, listing.unique, error),
    }
}

/// The kernel takes an error as the reply to a request.
fn answer<Q: QueueTable<Purpose>, C: CountTable<Heap = Q::Heap>>(
    kernel: &mut KernelOf<Q, C>,
    unique: u64,
    error: i32,
) -> Result<(), DriveEnd>
    requires { IsErrorNumber error }
    ensures ok { OnOk result ((bytes : List ℕ) × (written : WriteResult)
        × WrittenReply (record { unique = unique; error = error; content = empty_reply }) bytes
        × IsReplyTaken kernel.old bytes written kernel.new) }
    ensures err { IfErr result (IsAnswerRefusedAs kernel.old unique error) }
    ensures same { OnErr result (kernel.new ≡ kernel.old) }
{
    let written = kernel.write(&frame_of_error(unique, error));
    kernel.lemma_in_range();
    match written {
        Ok(_result) => Ok(()),
        Err(refusal) => Err(DriveEnd::Refused(refusal)),
    }
}

/// Sends a request that was read, under its number.
fn send_read<Q: QueueTable<Purpose>, C: CountTable<Heap = Q::Heap>, D: Device, N: Notes<O>, O>(
    kernel: &mut KernelOf<Q, C>,
    connection: &mut Connection<Q::Heap>,
    device: &mut D,
    notes: &mut N,
    out: &mut O,
    frame: &[u8],
    free_fields: FreeFields,
    unique: u64,
) -> Result<(), DriveEnd>
    requires short { length frame.now ≤ 4176 }
    ensures sends { (request : Request) → IsRequestFrame frame.now request → request.unique ≡ unique → (turn : Turn)
        × WentOver D.logs device.old device.new (SendsUntil result (driven kernel.new connection.new turn))
        (λ log. Runs (SendStep free_fields) (driven kernel.old connection.old (picked request)) log
        (driven kernel.new connection.new turn)) }
    ensures noted { HasNoted N.notes notes.old notes.new out.old out.new }
{
    written_is_spelled();
    spelled_is_decoded();
    match node_opened(connection, frame) {
        Some(node) => send_opened(
            kernel,
            connection,
            device,
            notes,
            out,
            frame,
            free_fields,
            Listing { unique, node },
        ),
        None => send_same(device, frame, free_fields),
    }
}

/// Reads a request from the kernel, and sends it in a frame that spells it. What is not for the kernel is noted as it
/// comes.
///
/// # Errors
///
/// The kernel refused to be read, and then nothing changed; or the run came to its end.
pub fn send_next<Q: QueueTable<Purpose>, C: CountTable<Heap = Q::Heap>, D: Device, N: Notes<O>, O>(
    kernel: &mut KernelOf<Q, C>,
    connection: &mut Connection<Q::Heap>,
    device: &mut D,
    notes: &mut N,
    out: &mut O,
    pick: Pick,
    free_fields: FreeFields,
) -> Result<RequestFrame<Q::Heap>, NotSent>
    ensures sends { (turn : Turn) × (log : List Transfer) × D.logs device.old device.new log
        × SendsNext result pick free_fields (driven kernel.old connection.old idle) log
        (driven kernel.new connection.new turn) }
    ensures drives { (turn : Turn) × IsRequestSent result turn × DrivesOver D.logs device.old device.new
        (driven kernel.old connection.old idle) (driven kernel.new connection.new turn) }
    ensures picked { IfOk result (λ frame. IsPicked kernel.old pick frame) }
    ensures refused { IfErr result (IsReadRefused kernel.old pick) }
    ensures noted { HasNoted N.notes notes.old notes.new out.old out.new }
{
    let frame = match kernel.read(pick) {
        Ok(frame) => frame,
        Err(refusal) => return Err(NotSent::Refused(refusal)),
    };
    let (unique, _opcode) = frame.head();
    match send_read(
        kernel,
        connection,
        device,
        notes,
        out,
        frame.bytes(),
        free_fields,
        unique,
    ) {
        Ok(()) => Ok(frame),
        Err(end) => Err(NotSent::Ended(end)),
    }
}
