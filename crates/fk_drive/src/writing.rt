//! What was received is written to the kernel.

ghost use Rattle.std.specs.Prelude.{◌≡◌, ◌<◌, ℕ, List, IfErr, IfOk, OnErr, OnOk, vec_len};
ghost use Rattle.fuse_spec.specs.Kernel.Kernel.{Kernel as KernelState};
ghost use Rattle.fk_drive_frames.specs.Agreements.{IsHandedOn};
ghost use Rattle.fk_kernel.specs.AwaitedReplies.{HasReplyHead};
ghost use Rattle.fk_kernel.specs.Refused.{WriteRefused};
ghost use Rattle.fuse_device.specs.Transfers.{Transfer};
ghost use Rattle.fk_drive.specs.Driven.{driven};
ghost use Rattle.fk_drive.specs.Driving.{DrivesOver, Runs, Turn, idle};
ghost use Rattle.fk_drive.specs.Exchanges.{WentOver};
ghost use Rattle.fk_drive.specs.KernelSteps.{IsReplyTaken};
ghost use Rattle.fk_drive.specs.Notings.{HasNoted};
ghost use Rattle.fk_drive.specs.Receiving.{ReceivesUntil};
ghost use Rattle.fk_drive.specs.Steps.{ReceiveStep};
ghost use Rattle.fk_drive.specs.WriteRefusals.{IsFirstRefused, IsWriteRefused};
ghost use Rattle.fk_drive.specs.Writing.{WritesFirst, WritesNext};

use crate::connection::Connection;
use crate::end::DriveEnd;
use crate::noted::Notes;
use crate::receiving::receive_next;
use crate::releasing::release;
use fk_drive_frames::{is_before_15, is_older_agreement, raised_to_15, raised_to_31};
use fk_kernel::KernelOf;
use fk_lookup_count::CountTable;
use fk_queues::QueueTable;
use fuse_device::Device;
use fuse_spec::{Purpose, Refusal, WriteResult};
use std::alloc::Allocator;

/// A frame that was written to the kernel.
#[derive(Drop)]
pub struct Written<A: Allocator> {
    /// The frame, as it was received.
    pub frame: Vec<u8, A>,
    /// Whether it agreed on 7.12 to 7.14 or 7.16 to 7.30, and was handed on as 7.15 or 7.31.
    pub is_raised: bool,
    /// What the kernel said.
    pub result: WriteResult,
    /// Whether the run came to its end behind it, as RELEASEDIR was to be sent or its reply to come.
    pub end: Option<DriveEnd>,
}

/// Writes bytes to the kernel.
fn take_reply<Q: QueueTable<Purpose>, C: CountTable<Heap = Q::Heap>>(
    kernel: &mut KernelOf<Q, C>,
    bytes: &[u8],
) -> Result<WriteResult, Refusal>
    ensures ok { IfOk result (λ written. IsReplyTaken kernel.old bytes.now written kernel.new) }
    ensures err { OnErr result (kernel.new ≡ kernel.old) }
    ensures refused { IfErr result (λ refusal. HasReplyHead bytes.now → WriteRefused kernel.old bytes.now refusal) }
{
    let written = kernel.write(bytes);
    kernel.lemma_in_range();
    written
}

/// Writes a frame to the kernel: an older agreement as one on 7.15 or 7.31, and any other as it is.
fn hand_on<Q: QueueTable<Purpose>, C: CountTable<Heap = Q::Heap>>(
    kernel: &mut KernelOf<Q, C>,
    frame: &[u8],
) -> Result<WriteResult, Refusal>
    ensures ok { IfOk result (λ written. (handed : List ℕ) × IsHandedOn frame.now handed
        × IsReplyTaken kernel.old handed written kernel.new) }
    ensures err { OnErr result (kernel.new ≡ kernel.old) }
    ensures refused { IfErr result (IsWriteRefused kernel.old frame.now) }
{
    if !is_older_agreement(frame) {
        return take_reply(kernel, frame);
    }
    if is_before_15(frame) {
        return take_reply(kernel, &raised_to_15(frame));
    }
    take_reply(kernel, &raised_to_31(frame))
}

/// Receives frames until one waits for the kernel.
fn receive_one<A: Allocator + Copy, D: Device, N: Notes<O>, O>(
    connection: &mut Connection<A>,
    device: &mut D,
    notes: &mut N,
    out: &mut O,
) -> Result<(), DriveEnd>
    ensures receives { (kernel : KernelState) (turn : Turn) → WentOver D.logs device.old device.new
        (ReceivesUntil result (driven kernel connection.new turn))
        (λ log. Runs ReceiveStep (driven kernel connection.old turn) log (driven kernel connection.new turn)) }
    ensures waits { OnOk result (0 < vec_len connection.new.waiting) }
    ensures noted { HasNoted N.notes notes.old notes.new out.old out.new }
{
    for _frame in 0..u64::MAX {
        if connection.waiting.len() != 0 {
            return Ok(());
        }
        receive_next(connection, device, notes, out)?;
    }
    if connection.waiting.len() != 0 {
        Ok(())
    } else {
        Err(DriveEnd::Memory)
    }
}

/// Writes the first frame that waits to the kernel.
fn write_first<Q: QueueTable<Purpose>, C: CountTable<Heap = Q::Heap>>(
    kernel: &mut KernelOf<Q, C>,
    connection: &mut Connection<Q::Heap>,
) -> Result<Written<Q::Heap>, Refusal>
    requires { 0 < vec_len connection.old.waiting }
    ensures ok { IfOk result (WritesFirst kernel.old connection.old kernel.new connection.new) }
    ensures err { OnErr result ((kernel.new ≡ kernel.old) × (connection.new ≡ connection.old)) }
    ensures refused { IfErr result (IsFirstRefused kernel.new connection.new) }
{
    let is_raised = is_older_agreement(&connection.waiting[0]);
    let result = match hand_on(kernel, &connection.waiting[0]) {
        Ok(result) => result,
        Err(refusal) => return Err(refusal),
    };
    let frame = connection.waiting.remove(0);
    Ok(Written {
        frame,
        is_raised,
        result,
        end: None,
    })
}

/// Writes the next frame to the kernel, which waits already or is received now. Where it is the reply to what listed an
/// open directory, RELEASEDIR is sent, and frames are received until its reply: so the next request is read only then, and
/// no FORGET of the directory goes before that. `Err` of the inner result is the kernel's refusal: the frame still waits.
/// What is not for the kernel is noted as it comes.
///
/// # Errors
///
/// The run came to its end before there was one. `Written::end` says where it did behind one.
pub fn write_next<Q: QueueTable<Purpose>, C: CountTable<Heap = Q::Heap>, D: Device, N: Notes<O>, O>(
    kernel: &mut KernelOf<Q, C>,
    connection: &mut Connection<Q::Heap>,
    device: &mut D,
    notes: &mut N,
    out: &mut O,
) -> Result<Result<Written<Q::Heap>, Refusal>, DriveEnd>
    ensures writes { (turn : Turn) × (log : List Transfer) × D.logs device.old device.new log
        × WritesNext result (driven kernel.old connection.old idle) log (driven kernel.new connection.new turn) }
    ensures drives { (turn : Turn) × DrivesOver D.logs device.old device.new (driven kernel.old connection.old idle)
        (driven kernel.new connection.new turn) }
    ensures refused { IfOk result (λ written. IfErr written (IsFirstRefused kernel.new connection.new)) }
    ensures noted { HasNoted N.notes notes.old notes.new out.old out.new }
{
    receive_one(connection, device, notes, out)?;
    match write_first(kernel, connection) {
        Ok(mut written) => {
            written.end = release(connection, device, notes, out, &written.frame).err();
            Ok(Ok(written))
        }
        Err(refusal) => Ok(Err(refusal)),
    }
}
