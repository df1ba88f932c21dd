//! One envelope over a link.

ghost use Rattle.std.specs.Prelude.{◌≡◌, ℕ, ◌<◌, ◌≤◌, ◌↔◌, ◌⊎◌, [], List, length, false};
ghost use Rattle.std.specs.Prelude.{IfOk, IsTrue, Some, OnOk, OnErr, vec_len, vec_capacity};
ghost use Rattle.fw_link.specs.Carrying.{CutsOtherwise, IsEmpty, IsLost, envelope_bytes};
ghost use Rattle.fw_link.specs.Cutting.{HoldsEnvelope};
ghost use Rattle.fw_link.specs.Envelopes.{IsEnvelope};
ghost use Rattle.fw_link.specs.Streamed.{StreamedEnvelopes};
ghost use Rattle.fw_link.specs.Traffic.{HasFailed, IsCounted, no_traffic, sent};
ghost use Rattle.fw_link.specs.declared.side.Side.TheVariants as side;

use crate::cutter::{Cutter, Damage};
use crate::envelope::{Envelope, LONGEST, put_envelope};
use crate::link::{Link, LinkFault, LinkInOrder};
use crate::side::Side;
use crate::stream::StreamLink;
use std::alloc::{AllocError, Allocator, Global};
use std::io::{Read, Write};
use std::marker::Model;

/// Gets some of what a side put at the other end, and lends it.
fn get_piece<'a, L: Link>(
    link: &mut L,
    from: Side,
    room: &'a mut [u8],
) -> Result<&'a [u8], LinkFault>
    ensures some { IfOk result (λ piece. (0 < length piece.now) × (length piece.now ≤ length room.old)) }
    ensures got { IfOk result (λ piece. L.carries link.old link.new (sent from [] piece.now)) }
    ensures nothing { OnErr result (L.carries link.old link.new no_traffic) }
    ensures counted { IsCounted result (L.failed link.old) (L.failed link.new) }
{
    let count = link.get(from.other(), room)?;
    Ok(&room[..count])
}

/// Gets this many bytes of what a side put into the cutter at the other end, through a room for as many as are got in
/// one call.
///
/// # Errors
///
/// Where the link failed, and where the cutter takes these bytes for no envelope of that length.
fn get_bytes<L: Link, A: Allocator + Copy>(
    link: &mut L,
    from: Side,
    len: usize,
    room: &mut [u8],
    cutter: &mut Cutter<A>,
) -> Result<(), LinkFault>
    requires empty { IsEmpty cutter.old }
    ensures ok { OnOk result (L.carries link.old link.new (sent from [] cutter.new.bytes)) }
    ensures len { OnOk result (length cutter.new.bytes ≡ len) }
    ensures good { OnOk result (cutter.new.is_damaged ≡ false) }
    ensures failed { OnOk result (L.failed link.new ≡ L.failed link.old) }
    ensures err { OnErr result ((got : List ℕ) × L.carries link.old link.new (sent from [] got)
        × (HasFailed (L.failed link.old) (L.failed link.new) ⊎ CutsOtherwise len got)) }
{
    let mut left = len;
    while left > 0 {
        let most = left.min(room.len());
        let piece = get_piece(link, from, &mut room[..most])?;
        let taken = match cutter.feed(piece) {
            Ok(taken) => taken,
            Err(Damage) => return Err(LinkFault),
        };
        if taken < piece.len() {
            return Err(LinkFault);
        }
        left -= taken;
    }
    Ok(())
}

/// Whether this envelope stands in the cutter.
fn stands<A: Allocator + Copy>(cutter: &Cutter<A>, envelope: &Envelope<'_>) -> bool
    ensures { IsTrue result ↔
        HoldsEnvelope cutter.now envelope.now.kind envelope.now.copy envelope.now.frame.now }
{
    match cutter.envelope() {
        Some(came) => {
            came.kind == envelope.kind && came.copy == envelope.copy && came.frame == envelope.frame
        }
        None => false,
    }
}

/// Carries envelopes over a link, one at a time: the bytes of the one that is put, the room through which they are got,
/// and the cutter at the other end.
///
/// Contracts see what the cutter holds.
#[derive(Drop)]
pub struct Carrier<A: Allocator + Copy = Global> {
    sending: Vec<u8, A>,
    piece: Vec<u8, A>,
    cutter: Cutter<A>,
}

impl<A: Allocator + Copy> Model for Carrier<A> {
    ghost use Rattle.std.specs.Prelude.{◌≤◌, vec_capacity};
    ghost use Rattle.fw_link.specs.Cutting.{CutterState};

    ghost Value = { CutterState };

    ghost view = { λ c. c.cutter };

    ghost invariant = { λ c. 4185 ≤ vec_capacity c.sending };
}

impl<A: Allocator + Copy> Carrier<A> {
    /// A carrier that holds nothing. Nothing after this takes memory.
    pub fn new(alloc: A) -> Result<Self, AllocError>
        ensures { IfOk result IsEmpty }
    {
        let sending = Vec::with_capacity(alloc, LONGEST)?;
        let piece = vec![in alloc; 0; LONGEST]?;
        let cutter = Cutter::new(alloc)?;
        Ok(Carrier {
            sending,
            piece,
            cutter,
        })
    }

    /// Puts an envelope on a link, gets it at the other end, and lets it go.
    ///
    /// # Errors
    ///
    /// Where the link failed, and where it gave other bytes than were put. It is then never to be used again, as bytes
    /// may be on their way.
    pub fn carry<L: Link>(
        &mut self,
        link: &mut L,
        from: Side,
        envelope: &Envelope<'_>,
    ) -> Result<(), LinkFault>
        requires whole { IsEnvelope envelope.now.kind envelope.now.copy envelope.now.frame.now }
        requires empty { IsEmpty self.old }
        ensures ok { OnOk result (L.carries link.old link.new
            (sent from (envelope_bytes envelope.now) (envelope_bytes envelope.now))) }
        ensures again { OnOk result (IsEmpty self.new) }
        ensures failed { OnOk result (L.failed link.new ≡ L.failed link.old) }
        // A beginning of the envelope was put, and some bytes were got. If these are a beginning of the envelope, the
        // link has failed.
        ensures err { OnErr result (IsLost (L.carries link.old link.new) from (envelope_bytes envelope.now)
            (L.failed link.old) (L.failed link.new)) }
    {
        self.sending.clear();
        put_envelope(&mut self.sending, envelope).unwrap();
        link.put(from, &self.sending)?;
        let len = self.sending.len();
        get_bytes(link, from, len, &mut self.piece, &mut self.cutter)?;
        if !stands(&self.cutter, envelope) {
            return Err(LinkFault);
        }
        self.cutter.done();
        Ok(())
    }

    /// Carries an envelope over a link in order, where nothing is yet to be got: the envelope comes through, or the
    /// link has failed.
    ///
    /// # Errors
    ///
    /// Where the link failed.
    pub fn carry_in_order<L: LinkInOrder>(
        &mut self,
        link: &mut L,
        from: Side,
        envelope: &Envelope<'_>,
    ) -> Result<(), LinkFault>
        requires whole { IsEnvelope envelope.now.kind envelope.now.copy envelope.now.frame.now }
        requires empty { IsEmpty self.old }
        requires idle { L.is_idle link.old }
        ensures ok { OnOk result (L.carries link.old link.new
            (sent from (envelope_bytes envelope.now) (envelope_bytes envelope.now))) }
        ensures again { OnOk result (IsEmpty self.new × L.is_idle link.new) }
        ensures counted { IsCounted result (L.failed link.old) (L.failed link.new) }
    {
        self.carry(link, from, envelope)
    }

    /// Carries an envelope over readers and writers, where the server's reader has it to give: it comes through, or the
    /// link has failed.
    ///
    /// # Errors
    ///
    /// Where the link failed.
    pub fn carry_to_reader<R: Read + Drop, W: Write + Drop>(
        &mut self,
        link: &mut StreamLink<R, W>,
        envelope: &Envelope<'_>,
    ) -> Result<(), LinkFault>
        requires whole { IsEnvelope envelope.now.kind envelope.now.copy envelope.now.frame.now }
        requires empty { IsEmpty self.old }
        requires gives { R.remaining link.old.server_reader ≡ Some (envelope_bytes envelope.now) }
        ensures ok { OnOk result (StreamedEnvelopes R.remaining W.contents link.old link.new
            (sent side.Kernel (envelope_bytes envelope.now) (envelope_bytes envelope.now))) }
        ensures again { OnOk result (IsEmpty self.new) }
        ensures counted { IsCounted result link.old.failed.count link.new.failed.count }
    {
        self.carry(link, Side::Kernel, envelope)
    }
}
