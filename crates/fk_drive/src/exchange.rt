//! One frame is sent, and one is received.

ghost use Rattle.std.specs.Prelude.{◌≡◌, ◌≤◌, ◌∷◌, [], List, IfOk, IfErr, length, take};
ghost use Rattle.fuse_device.specs.Transfers.{Transfer, received};
ghost use Rattle.fk_drive.specs.Driving.{SendsFrame};
ghost use Rattle.fk_drive.specs.Exchanges.{EndsAs, StopsAt, WentOver};

use crate::end::DriveEnd;
use fuse_device::Device;
use std::alloc::Allocator;
use std::mem;

/// The most bytes that one frame may have.
const ROOM: usize = 131_072;

/// Sends a frame. A server refuses none: what it says of one is lost.
pub(crate) fn send_bytes<D: Device>(device: &mut D, bytes: &[u8]) -> Result<(), DriveEnd>
    ensures { WentOver D.logs device.old device.new (EndsAs result) (SendsFrame bytes.now) }
{
    match device.send(bytes) {
        Ok(_result) => Ok(()),
        Err(unsent) => Err(DriveEnd::Device(unsent)),
    }
}

/// The frame at the front of the room, in memory of its own. Where there is none for it, the frame takes the room's.
fn frame_in<A: Allocator + Copy>(alloc: A, room: &mut Vec<u8, A>, count: usize) -> Vec<u8, A>
    requires { count ≤ length room.old.items }
    ensures { result.items ≡ take count room.old.items }
{
    let mut frame = Vec::new(alloc);
    if frame.extend_from_slice(&room[..count]).is_ok() {
        return frame;
    }
    let mut frame = mem::replace(room, Vec::new(alloc));
    frame.truncate(count);
    frame
}

/// Receives a frame into the room, and copies it. The room is made where it is not there, before it is received.
///
/// # Errors
///
/// The device came to its end, or memory runs out: nothing is then received.
pub(crate) fn receive_frame<A: Allocator + Copy, D: Device>(
    alloc: A,
    room: &mut Vec<u8, A>,
    device: &mut D,
) -> Result<Vec<u8, A>, DriveEnd>
    ensures frame { IfOk result (λ frame. D.logs device.old device.new (received frame.items ∷ [])) }
    ensures end { IfErr result (λ end. (log : List Transfer) × D.logs device.old device.new log × StopsAt end log) }
{
    if room.len() < ROOM {
        let Ok(zeroed) = vec![in alloc; 0u8; ROOM] else {
            return Err(DriveEnd::Memory);
        };
        *room = zeroed;
    }
    match device.receive(room) {
        Ok(count) => Ok(frame_in(alloc, room, count)),
        Err(end) => Err(DriveEnd::Device(end)),
    }
}
