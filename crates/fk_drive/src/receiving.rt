//! Frames are received, and wait for the kernel or are set aside.

ghost use Rattle.std.specs.Prelude.{◌≡◌, ◌≤◌, ◌<◌, ◌+◌, ◌++◌, ◌∷◌, [], IfErr, OnOk, vec_len};
ghost use Rattle.fuse_spec.specs.Kernel.Kernel.{Kernel as KernelState};
ghost use Rattle.fuse_device.specs.Transfers.{received};
ghost use Rattle.fk_drive_frames.specs.Asides.{IsOtherFrame};
ghost use Rattle.fk_drive.specs.Driven.{Keeps, driven, waiting_in};
ghost use Rattle.fk_drive.specs.Driving.{DriveStep, Runs, Turn};
ghost use Rattle.fk_drive.specs.Exchanges.{WentOver};
ghost use Rattle.fk_drive.specs.Receiving.{ReceivesUntil};
ghost use Rattle.fk_drive.specs.Notings.{AreNoted, HasNoted};
ghost use Rattle.fk_drive.specs.Rooms.{HasRoomForFrame, IsNoRoom, most_waiting};
ghost use Rattle.fk_drive.specs.Steps.{IsKept, ReceiveStep};
ghost use Rattle.fk_drive.specs.declared.end.DriveEnd.TheVariants.{Memory};

use crate::connection::Connection;
use crate::end::DriveEnd;
use crate::exchange::receive_frame;
use crate::noted::{Noted, Notes};
use fk_drive_frames::other_frame_in;
use fuse_device::Device;
use std::alloc::Allocator;

/// How many frames wait for the kernel at most, while the reply to OPENDIR or RELEASEDIR is awaited.
const MOST_WAITING: usize = 10_000;

impl<A: Allocator + Copy> Connection<A> {
    /// Makes room for one frame that waits, and for an open directory.
    pub(crate) fn make_room(&mut self) -> Result<(), DriveEnd>
        ensures same { Keeps self.old self.new }
        ensures long { vec_len self.new.waiting ≡ vec_len self.old.waiting }
        ensures room { OnOk result (HasRoomForFrame self.new) }
        ensures memory { IfErr result (λ end. end ≡ Memory) }
    {
        let waiting = self.waiting.reserve(1);
        let directories = self.directories.reserve(1);
        match (waiting, directories) {
            (Ok(()), Ok(())) => Ok(()),
            _ => Err(DriveEnd::Memory),
        }
    }

    /// Makes room for one frame while the reply to OPENDIR or RELEASEDIR is awaited, if not as many wait as are kept.
    pub(crate) fn make_room_awaiting(&mut self) -> Result<(), DriveEnd>
        ensures same { Keeps self.old self.new }
        ensures long { vec_len self.new.waiting ≡ vec_len self.old.waiting }
        ensures room { OnOk result (HasRoomForFrame self.new) }
        ensures few { OnOk result (vec_len self.new.waiting < most_waiting) }
        ensures no_room { IfErr result (IsNoRoom self.old) }
    {
        if self.waiting.len() >= MOST_WAITING {
            return Err(DriveEnd::TooMany);
        }
        self.make_room()
    }

    /// Has a frame wait for the kernel.
    fn have_wait(&mut self, frame: Vec<u8, A>)
        requires { HasRoomForFrame self.old }
        ensures waits { self.new.waiting.items ≡ self.old.waiting.items ++ frame ∷ [] }
        ensures same { self.new ≡ record self.old { waiting = self.new.waiting } }
    {
        let _waits = self.waiting.push(frame);
    }

    /// A frame waits for the kernel, or is set aside, and that is noted.
    pub(crate) fn keep<N: Notes<O>, O>(&mut self, frame: Vec<u8, A>, notes: &mut N, out: &mut O)
        requires { HasRoomForFrame self.old }
        ensures keeps { (kernel : KernelState) (turn : Turn)
            → (step : DriveStep (driven kernel self.old turn) (received frame.items ∷ []) (driven kernel self.new turn))
            × IsKept frame.items step }
        ensures noted { AreNoted N.notes notes.old notes.new out.old out.new self.old.next frame.items }
        ensures notes { HasNoted N.notes notes.old notes.new out.old out.new }
        ensures long { vec_len self.new.waiting ≤ vec_len self.old.waiting + 1 }
    {
        match other_frame_in(self.next, frame.as_slice()) {
            Some(other_frame) => notes.note(Noted::SetAside(other_frame), out),
            None => self.have_wait(frame),
        }
    }
}

/// Receives one frame while none waits: it waits for the kernel, or is set aside.
///
/// # Errors
///
/// The device came to its end, or memory runs out: nothing is then received.
pub(crate) fn receive_next<A: Allocator + Copy, D: Device, N: Notes<O>, O>(
    connection: &mut Connection<A>,
    device: &mut D,
    notes: &mut N,
    out: &mut O,
) -> Result<(), DriveEnd>
    requires { waiting_in connection.old ≡ [] }
    ensures receives { (kernel : KernelState) (turn : Turn) → WentOver D.logs device.old device.new
        (ReceivesUntil result (driven kernel connection.new turn))
        (λ log. Runs ReceiveStep (driven kernel connection.old turn) log (driven kernel connection.new turn)) }
    ensures noted { HasNoted N.notes notes.old notes.new out.old out.new }
{
    connection.make_room()?;
    let frame = receive_frame(connection.alloc, &mut connection.room, device)?;
    connection.keep(frame, notes, out);
    Ok(())
}
