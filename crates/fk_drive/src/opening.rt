//! A directory is opened before it is listed.

ghost use Rattle.std.specs.Prelude.{◌≡◌, ◌↔◌, ◌≤◌, ◌<◌, ◌^◌, ◌++◌, ◌∷◌, [], ℕ, Bool, List, IfNone, IfSome, IsTrue, OnSome, false, length, true, vec_len};
ghost use Rattle.fuse_spec.specs.Kernel.Kernel.{Kernel as KernelState};
ghost use Rattle.fuse_spec.specs.Kernel.Messages.{Request};
ghost use Rattle.fuse_device.specs.Transfers.{received};
ghost use Rattle.fk_wire.specs.Replies.{ReplyMessage, SpellsReply};
ghost use Rattle.fk_wire.specs.Requests.{RequestMessage, Spells};
ghost use Rattle.fk_wire.specs.declared.opcode.Opcode.TheVariants as op;
ghost use Rattle.fk_drive_frames.specs.Filling.{IsListing};
ghost use Rattle.fuse_frames.specs.DecodedReplies.{head_unique};
ghost use Rattle.fk_drive_frames.specs.OwnRequests.{GivesNothing, ListsNode, SaysOfOpendir};
ghost use Rattle.fk_drive_frames.specs.declared.filling.FreeFields.{FreeFields};
ghost use Rattle.fk_drive.specs.Driven.{driven, waiting_in};
ghost use Rattle.fk_drive.specs.Driving.{Runs, opening, picked};
ghost use Rattle.fk_drive.specs.Exchanges.{WentOver};
ghost use Rattle.fk_drive.specs.Notings.{HasNoted};
ghost use Rattle.fk_drive.specs.Openings.{AwaitsUntil, HasErrorNumber, HasTooMany, StopsAsking, StopsAskingWhere, turn_of, turn_where};
ghost use Rattle.fk_drive.specs.Rooms.{HasRoomForFrame, most_waiting};
ghost use Rattle.fk_drive.specs.Steps.{SendStep};

use crate::connection::{Connection, Directory};
use crate::end::DriveEnd;
use crate::exchange::{receive_frame, send_bytes};
use crate::noted::{Noted, Notes};
use fk_drive_frames::{
    OPENDIR_UNIQUES_END, OpendirSaid, is_opendir_reply, is_under, node_listed, opendir, said_in,
};
use fuse_device::Device;
use fuse_spec::Opened;
use std::alloc::Allocator;

/// What came of OPENDIR.
#[derive(Clone, Copy, Debug, PartialEq, Eq)]
pub(crate) enum Awaited {
    /// Its reply said this.
    Said(OpendirSaid),
    /// Its reply did not come yet.
    NotYet,
    /// The run came to its end.
    Ended(DriveEnd),
}

/// The request that lists a directory, by its number, and the directory's node.
#[derive(Clone, Copy, Debug, PartialEq, Eq)]
pub(crate) struct Listing {
    pub(crate) unique: u64,
    pub(crate) node: u64,
}

/// Whether a directory is opened before the request that lists it.
fn is_opened_first<A: Allocator + Copy>(connection: &Connection<A>) -> bool
    ensures { IsTrue result ↔ ((connection.now.asks ≡ true) × (connection.now.next < 2 ^ 63)) }
{
    connection.asks && connection.next < OPENDIR_UNIQUES_END
}

/// The node of the directory that a frame lists, where it is opened before that.
pub(crate) fn node_opened<A: Allocator + Copy>(
    connection: &Connection<A>,
    frame: &[u8],
) -> Option<u64>
    ensures asked { OnSome result ((connection.now.asks ≡ true) × (connection.now.next < 2 ^ 63)) }
    ensures listed { IfSome result (λ node. (m : RequestMessage) × Spells frame.now m × (m.nodeid ≡ node)
        × IsListing m.content) }
    ensures none { IfNone result (connection.now.asks ≡ true → connection.now.next < 2 ^ 63
        → (m : RequestMessage) → Spells frame.now m → IsListing m.content → ⊥) }
{
    if is_opened_first(connection) {
        node_listed(frame)
    } else {
        None
    }
}

impl<A: Allocator + Copy> Connection<A> {
    /// Puts an open directory behind the others.
    fn put_directory(&mut self, directory: Directory)
        requires { HasRoomForFrame self.old }
        ensures put { self.new.directories.items ≡ self.old.directories.items ++ directory ∷ [] }
        ensures same { self.new ≡ record self.old { directories = self.new.directories } }
    {
        let _put = self.directories.push(directory);
    }

    /// Takes what the reply to OPENDIR said.
    fn take_said(&mut self, listing: Listing, said: OpendirSaid)
        requires { HasRoomForFrame self.old }
        ensures said { (free_fields : FreeFields) (kernel : KernelState) (request : Request) (own : ℕ) (frame : List ℕ)
            → request.unique ≡ listing.unique → SaysOfOpendir frame own said
            → SendStep free_fields (driven kernel self.old (opening request own listing.node)) (received frame ∷ [])
            (driven kernel self.new (turn_of request said)) }
        ensures asks { StopsAsking said self.new.asks }
        ensures waits { self.new.waiting ≡ self.old.waiting }
    {
        match said {
            OpendirSaid::Handle(fh) => {
                let Listing { unique, node } = listing;
                let opened = Opened { nodeid: node, fh };
                self.put_directory(Directory { unique, opened });
            }
            OpendirSaid::NotKnown => {
                self.asks = false;
            }
            OpendirSaid::Failed(_error) => {}
        }
    }
}

/// Notes the reply to the OPENDIR under a number.
fn note_reply<N: Notes<O>, O>(notes: &mut N, out: &mut O, own: u64, frame: &[u8])
    ensures { (is_whole : Bool) × N.notes notes.old notes.new out.old out.new (Noted.OpendirReply own is_whole ∷ [])
        × (is_whole ≡ true → (reply : ReplyMessage) × SpellsReply op.Open frame.now reply)
        × (is_whole ≡ false → GivesNothing frame.now) }
{
    let noted = Noted::OpendirReply {
        unique: own,
        is_whole: is_opendir_reply(frame),
    };
    notes.note(noted, out);
}

/// Notes what is no reply, and has the number of the OPENDIR or RELEASEDIR whose reply is awaited.
pub(crate) fn note_no_reply<N: Notes<O>, O>(notes: &mut N, out: &mut O, own: u64, frame: &[u8])
    ensures under { 16 ≤ length frame.now → head_unique frame.now ≡ own
        → N.notes notes.old notes.new out.old out.new (Noted.NoOpendirReply own ∷ []) }
    ensures none { (16 ≤ length frame.now → head_unique frame.now ≡ own → ⊥)
        → (notes.new ≡ notes.old) × (out.new ≡ out.old) }
    ensures noted { HasNoted N.notes notes.old notes.new out.old out.new }
{
    if is_under(own, frame) {
        notes.note(Noted::NoOpendirReply { unique: own }, out);
    }
}

/// Receives a frame while the reply to an OPENDIR is awaited: what that says, if it is that. Any other waits for the
/// kernel, or is set aside.
fn receive_said<A: Allocator + Copy, D: Device, N: Notes<O>, O>(
    connection: &mut Connection<A>,
    device: &mut D,
    notes: &mut N,
    out: &mut O,
    own: u64,
    listing: Listing,
) -> Awaited
    ensures sends { (free_fields : FreeFields) (kernel : KernelState) (request : Request)
        → request.unique ≡ listing.unique → WentOver D.logs device.old device.new (AwaitsUntil result)
        (λ log. Runs (SendStep free_fields) (driven kernel connection.old (opening request own listing.node)) log
        (driven kernel connection.new (turn_where request own listing.node result))) }
    ensures number { HasErrorNumber result }
    ensures asks { StopsAskingWhere result connection.new.asks }
    ensures many { HasTooMany result (waiting_in connection.new) }
    ensures few { vec_len connection.old.waiting ≤ most_waiting → vec_len connection.new.waiting ≤ most_waiting }
    ensures noted { HasNoted N.notes notes.old notes.new out.old out.new }
{
    if let Err(end) = connection.make_room_awaiting() {
        return Awaited::Ended(end);
    }
    let frame = match receive_frame(connection.alloc, &mut connection.room, device) {
        Ok(frame) => frame,
        Err(end) => return Awaited::Ended(end),
    };
    match said_in(own, frame.as_slice()) {
        Some(said) => {
            note_reply(notes, out, own, frame.as_slice());
            connection.take_said(listing, said);
            Awaited::Said(said)
        }
        None => {
            note_no_reply(notes, out, own, frame.as_slice());
            connection.keep(frame, notes, out);
            Awaited::NotYet
        }
    }
}

/// Receives frames until the reply to an OPENDIR.
fn await_opendir<A: Allocator + Copy, D: Device, N: Notes<O>, O>(
    connection: &mut Connection<A>,
    device: &mut D,
    notes: &mut N,
    out: &mut O,
    own: u64,
    listing: Listing,
) -> Awaited
    ensures sends { (free_fields : FreeFields) (kernel : KernelState) (request : Request)
        → request.unique ≡ listing.unique → WentOver D.logs device.old device.new (AwaitsUntil result)
        (λ log. Runs (SendStep free_fields) (driven kernel connection.old (opening request own listing.node)) log
        (driven kernel connection.new (turn_where request own listing.node result))) }
    ensures number { HasErrorNumber result }
    ensures asks { StopsAskingWhere result connection.new.asks }
    ensures many { HasTooMany result (waiting_in connection.new) }
    ensures noted { HasNoted N.notes notes.old notes.new out.old out.new }
{
    for _frame in 0..u64::MAX {
        match receive_said(connection, device, notes, out, own, listing) {
            Awaited::NotYet => {}
            Awaited::Said(said) => return Awaited::Said(said),
            Awaited::Ended(end) => return Awaited::Ended(end),
        }
    }
    Awaited::NotYet
}

/// Opens the directory that a request lists.
pub(crate) fn open_directory<A: Allocator + Copy, D: Device, N: Notes<O>, O>(
    connection: &mut Connection<A>,
    device: &mut D,
    notes: &mut N,
    out: &mut O,
    listing: Listing,
) -> Awaited
    requires asks { connection.old.asks ≡ true }
    requires numbers { connection.old.next < 2 ^ 63 }
    ensures sends { (free_fields : FreeFields) (kernel : KernelState) (request : Request)
        → request.unique ≡ listing.unique → ListsNode request.body listing.node
        → WentOver D.logs device.old device.new (AwaitsUntil result)
        (λ log. Runs (SendStep free_fields) (driven kernel connection.old (picked request)) log
        (driven kernel connection.new (turn_where request connection.old.next listing.node result))) }
    ensures number { HasErrorNumber result }
    ensures asks { StopsAskingWhere result connection.new.asks }
    ensures many { HasTooMany result (waiting_in connection.new) }
    ensures noted { HasNoted N.notes notes.old notes.new out.old out.new }
{
    let own = connection.next;
    connection.next += 2;
    match send_bytes(device, &opendir(own, listing.node)) {
        Ok(()) => await_opendir(connection, device, notes, out, own, listing),
        Err(end) => Awaited::Ended(end),
    }
}
