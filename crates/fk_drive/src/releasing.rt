//! A directory is released behind the reply to what listed it, and the reply to that is awaited.

ghost use Rattle.std.specs.Prelude.{◌≡◌, ◌≢◌, ◌↔◌, ◌≤◌, ◌==◌, ◌+◌, ◌<◌, ◌^◌, ◌∷◌, [], ℕ, Bool, List, Some, IfOk, IsTrue, false, length, position, remove, slice_get, true, vec_len};
ghost use Rattle.fuse_spec.specs.Kernel.Kernel.{Kernel as KernelState};
ghost use Rattle.fuse_device.specs.Transfers.{Transfer};
ghost use Rattle.fuse_frames.specs.DecodedReplies.{HasReplyHead, head_unique};
ghost use Rattle.fk_drive_frames.specs.OwnRequests.{IsReleasedir};
ghost use Rattle.fk_drive.specs.Driven.{KeepsWaiting, directories_in, driven, waiting_in};
ghost use Rattle.fk_drive.specs.Driving.{ReleasesBehind, Runs, SendsFrame, releasing};
ghost use Rattle.fk_drive.specs.Exchanges.{EndsAs, WentOver};
ghost use Rattle.fk_drive.specs.Notings.{HasNoted};
ghost use Rattle.fk_drive.specs.Releasing.{AwaitsRelease, ReleaseStep, Releases, turn_awaited, turn_behind, turn_received};
ghost use Rattle.fk_drive.specs.Rooms.{most_waiting};
ghost use Rattle.fk_drive.specs.declared.connection.Directory.{Directory};

use crate::connection::{Connection, Directory};
use crate::end::DriveEnd;
use crate::exchange::{receive_frame, send_bytes};
use crate::noted::{Noted, Notes};
use crate::opening::note_no_reply;
use fk_drive_frames::{OPENDIR_UNIQUES_END, releasedir};
use fk_wire::ReplyHead;
use fuse_device::Device;
use std::alloc::Allocator;

/// The bytes of a reply to RELEASEDIR: it has no body.
const HEAD: usize = 16;

/// Sends RELEASEDIR of the open directory at a place. Gives the number that it has.
fn release_at<A: Allocator + Copy, D: Device>(
    connection: &mut Connection<A>,
    device: &mut D,
    place: usize,
) -> Result<u64, DriveEnd>
    requires place { place < vec_len connection.old.directories }
    requires numbers { connection.old.next < 2 ^ 63 }
    ensures sends { WentOver D.logs device.old device.new (EndsAs result) (λ log. (bytes : List ℕ) × (directory : Directory)
        × (slice_get connection.old.directories.items place ≡ Some directory)
        × IsReleasedir bytes connection.old.next directory.opened × SendsFrame bytes log) }
    ensures number { IfOk result (λ own. own ≡ connection.old.next) }
    ensures left { connection.new.directories.items ≡ remove connection.old.directories.items place }
    ensures same { connection.new ≡ record connection.old {
      next = connection.old.next + 2;
      directories = connection.new.directories;
    } }
{
    let directory = connection.directories.remove(place);
    let own = connection.next;
    connection.next += 2;
    match send_bytes(device, &releasedir(own, directory.opened)) {
        Ok(()) => Ok(own),
        Err(end) => Err(end),
    }
}

/// Where the directory stands that was opened for the request under a number.
fn place_of(directories: &[Directory], unique: u64) -> Option<usize>
    ensures { result ≡ position (λ directory. directory.unique == unique) directories.now }
{
    directories
        .iter()
        .position(|directory| directory.unique == unique)
}

/// Sends RELEASEDIR of the directory that was opened for the request under a number, if one was. Gives the number that
/// RELEASEDIR has.
fn release_directory<A: Allocator + Copy, D: Device>(
    connection: &mut Connection<A>,
    device: &mut D,
    unique: u64,
) -> Result<Option<u64>, DriveEnd>
    ensures releases { (frame : List ℕ) → HasReplyHead frame → head_unique frame ≡ unique
        → WentOver D.logs device.old device.new (EndsAs result)
        (λ log. ReleasesBehind frame connection.old.next (directories_in connection.old) log connection.new.next
        (directories_in connection.new) (turn_behind result connection.old.next)) }
    ensures same { KeepsWaiting connection.old connection.new }
{
    if connection.next >= OPENDIR_UNIQUES_END {
        return Ok(None);
    }
    match place_of(&connection.directories, unique) {
        Some(place) => match release_at(connection, device, place) {
            Ok(own) => Ok(Some(own)),
            Err(end) => Err(end),
        },
        None => Ok(None),
    }
}

/// Sends RELEASEDIR behind a frame that was written, where that is the reply to what listed an open directory. Gives the
/// number that RELEASEDIR has.
fn release_behind<A: Allocator + Copy, D: Device>(
    connection: &mut Connection<A>,
    device: &mut D,
    frame: &[u8],
) -> Result<Option<u64>, DriveEnd>
    ensures releases { WentOver D.logs device.old device.new (EndsAs result)
        (λ log. ReleasesBehind frame.now connection.old.next (directories_in connection.old) log connection.new.next
        (directories_in connection.new) (turn_behind result connection.old.next)) }
    ensures same { KeepsWaiting connection.old connection.new }
{
    match ReplyHead::read(frame) {
        Ok(head) => release_directory(connection, device, head.unique),
        Err(_) => Ok(None),
    }
}

/// Whether a frame is the reply to the request under a number.
fn is_reply_to(own: u64, frame: &[u8]) -> bool
    ensures { IsTrue result ↔ (HasReplyHead frame.now × (head_unique frame.now ≡ own)) }
{
    match ReplyHead::read(frame) {
        Ok(head) => head.unique == own,
        Err(_) => false,
    }
}

/// Notes the reply to the RELEASEDIR under a number.
fn note_released<N: Notes<O>, O>(notes: &mut N, out: &mut O, own: u64, frame: &[u8])
    ensures { (is_whole : Bool) × N.notes notes.old notes.new out.old out.new (Noted.ReleasedirReply own is_whole ∷ [])
        × (is_whole ≡ true → length frame.now ≡ 16) × (is_whole ≡ false → length frame.now ≢ 16) }
{
    let noted = Noted::ReleasedirReply {
        unique: own,
        is_whole: frame.len() == HEAD,
    };
    notes.note(noted, out);
}

/// Receives a frame while the reply to the RELEASEDIR under a number is awaited. Says whether it is that. Any other waits
/// for the kernel, or is set aside.
fn receive_released<A: Allocator + Copy, D: Device, N: Notes<O>, O>(
    connection: &mut Connection<A>,
    device: &mut D,
    notes: &mut N,
    out: &mut O,
    own: u64,
) -> Result<bool, DriveEnd>
    ensures awaits { (kernel : KernelState) → WentOver D.logs device.old device.new
        (AwaitsRelease result (waiting_in connection.new))
        (λ log. Runs ReleaseStep (driven kernel connection.old (releasing own)) log
        (driven kernel connection.new (turn_received result own))) }
    ensures few { vec_len connection.old.waiting ≤ most_waiting → vec_len connection.new.waiting ≤ most_waiting }
    ensures noted { HasNoted N.notes notes.old notes.new out.old out.new }
{
    if let Err(end) = connection.make_room_awaiting() {
        return Err(end);
    }
    let frame = match receive_frame(connection.alloc, &mut connection.room, device) {
        Ok(frame) => frame,
        Err(end) => return Err(end),
    };
    if is_reply_to(own, frame.as_slice()) {
        note_released(notes, out, own, frame.as_slice());
        return Ok(true);
    }
    note_no_reply(notes, out, own, frame.as_slice());
    connection.keep(frame, notes, out);
    Ok(false)
}

/// Receives frames until the reply to the RELEASEDIR under a number.
fn await_releasedir<A: Allocator + Copy, D: Device, N: Notes<O>, O>(
    connection: &mut Connection<A>,
    device: &mut D,
    notes: &mut N,
    out: &mut O,
    own: u64,
) -> Result<(), DriveEnd>
    ensures awaits { (kernel : KernelState) → WentOver D.logs device.old device.new
        (AwaitsRelease result (waiting_in connection.new))
        (λ log. Runs ReleaseStep (driven kernel connection.old (releasing own)) log
        (driven kernel connection.new (turn_awaited result own))) }
    ensures noted { HasNoted N.notes notes.old notes.new out.old out.new }
{
    for _frame in 0..u64::MAX {
        match receive_released(connection, device, notes, out, own) {
            Ok(false) => {}
            Ok(true) => return Ok(()),
            Err(end) => return Err(end),
        }
    }
    Err(DriveEnd::Memory)
}

/// Sends RELEASEDIR behind a frame that was written, where that is the reply to what listed an open directory, and receives
/// frames until its reply.
pub(crate) fn release<A: Allocator + Copy, D: Device, N: Notes<O>, O>(
    connection: &mut Connection<A>,
    device: &mut D,
    notes: &mut N,
    out: &mut O,
    frame: &[u8],
) -> Result<(), DriveEnd>
    ensures releases { (kernel : KernelState) → Releases kernel D.logs device.old device.new frame.now result
        connection.old connection.new }
    ensures noted { HasNoted N.notes notes.old notes.new out.old out.new }
{
    match release_behind(connection, device, frame) {
        Ok(Some(own)) => await_releasedir(connection, device, notes, out, own),
        Ok(None) => Ok(()),
        Err(end) => Err(end),
    }
}
