//! Cuts a stream of bytes into envelopes, however it comes in pieces.

ghost use Rattle.std.specs.Prelude.{◌≡◌, ℕ, ◌+◌, ◌-◌, ◌≤◌, ◌<◌, ◌++◌, ◌∷◌, ◌↔◌, ◌⊎◌, [], List, length, take};
ghost use Rattle.std.specs.Prelude.{drop, min, max, Bool, true, false, slice_index, nat_lt, if◌then◌else◌};
ghost use Rattle.std.specs.Prelude.{IsTrue, IsOk, IsErr, IsSome, IsSomeAnd, IfOk, IfSome, OnOk, OnErr};
ghost use Rattle.fw_link.specs.Cutting.{IsUpToOne, HoldsEnvelope};
ghost use Rattle.fw_link.specs.Envelopes.{envelope_spelling, IsEnvelope, IsUndamaged, IsDamaged, copy_in, first_envelope_of, len_in};

use crate::envelope::{Envelope, LONGEST};
use byteorder::{ByteOrder, LittleEndian};
use bytes::BytesMut;
use std::alloc::{AllocError, Allocator, Global};
use std::marker::Model;
use thiserror::Error;

/// The bytes of a kind and a copy number.
const HEAD: usize = 9;

/// The bytes up to the end of the frame's stated length.
const JUDGED: usize = 13;

/// A kind over 2, or a frame's length out of range, in an envelope's place.
#[derive(Clone, Copy, Debug, PartialEq, Eq, Error)]
#[error("the stream is damaged")]
pub struct Damage;

/// Adds from a piece what is missing to a length, and says how many bytes that were.
fn fill<A: Allocator + Copy>(held: &mut BytesMut<A>, len: usize, piece: &[u8]) -> usize
    requires { len ≤ length held.old.items + held.old.spare }
    ensures within { result ≤ length piece.now }
    ensures taken { held.new.items ≡ held.old.items ++ take result piece.now }
    ensures held { held.new.items ≡ take (max len (length held.old.items)) (held.old.items ++ piece.now) }
    ensures room { length held.new.items + held.new.spare ≡ length held.old.items + held.old.spare }
{
    let count = len.saturating_sub(held.len()).min(piece.len());
    held.extend_reserved(&piece[..count]);
    count
}

/// The length that the frame states.
#[tactic(auto, unfolding(crate::specs::Envelopes::stated_envelope_len))]
fn stated(held: &[u8]) -> u32
    requires { 13 ≤ length held.now }
    ensures { result ≡ len_in held.now }
{
    LittleEndian::read_u32(&held[HEAD..])
}

/// The copy number.
#[tactic(auto, unfolding(crate::specs::Envelopes::copy_in))]
fn copy_of(held: &[u8]) -> u64
    requires { 9 ≤ length held.now }
    ensures value { result ≡ copy_in held.now }
    ensures spelled { held.now ≡ envelope_spelling (slice_index held.now 0) result (drop 9 held.now) }
{
    LittleEndian::read_u64(&held[1..])
}

/// Whether an envelope may begin with these bytes.
fn is_sound(held: &[u8]) -> bool
    ensures sound { IsTrue result → IsUndamaged held.now }
    ensures damaged { result ≡ false → IsDamaged held.now }
{
    if !held.is_empty() && held[0] > 2 {
        return false;
    }
    if held.len() < JUDGED {
        return true;
    }
    let len = stated(held);
    16 <= len && len <= 4176
}

/// Where the part ends that comes next: the judged bytes, then the whole.
fn end_of(held: &[u8]) -> usize
    requires { IsUndamaged held.now }
    ensures end { result ≡ (if nat_lt (length held.now) 13 then 13 else 9 + len_in held.now) }
    ensures most { result ≤ 4185 }
{
    if held.len() < JUDGED {
        return JUDGED;
    }
    HEAD + stated(held) as usize
}

/// Takes a stream of bytes in any pieces, and hands out its envelopes one at a time.
#[derive(Drop)]
pub struct Cutter<A: Allocator + Copy = Global> {
    held: BytesMut<A>,
    is_damaged: bool,
}

impl<A: Allocator + Copy> Model for Cutter<A> {
    ghost use Rattle.fw_link.specs.Cutting.{CutterState, HasBuffer};

    ghost Value = { CutterState };

    ghost view = { λ c. record { bytes = c.held.items; is_damaged = c.is_damaged } };

    ghost invariant = { λ c. HasBuffer c.held.items c.held.spare c.is_damaged };
}

impl<A: Allocator + Copy> Cutter<A> {
    /// A cutter at the start of a stream. Nothing after this takes memory.
    pub fn new(alloc: A) -> Result<Self, AllocError>
        ensures { IfOk result (λ c. (c.bytes ≡ []) × (c.is_damaged ≡ false)) }
    {
        let held = BytesMut::with_capacity(alloc, LONGEST)?;
        Ok(Cutter {
            held,
            is_damaged: false,
        })
    }

    /// Takes a piece of the stream up to the end of one envelope, and says how many bytes that were.
    /// While an envelope stands it takes none.
    ///
    /// # Errors
    ///
    /// Where a kind over 2 or a frame's length outside 16 to 4,176 bytes stands in an envelope's place, and
    /// from then on.
    pub fn feed(&mut self, piece: &[u8]) -> Result<usize, Damage>
        ensures count { IfOk result
            (λ n. (n ≤ length piece.now) × (self.new.bytes ≡ self.old.bytes ++ take n piece.now)) }
        // It doesn't matter in which pieces the bytes come: what is held is the stream up to the end of one envelope.
        ensures held { OnOk result (self.new.bytes ≡ first_envelope_of (self.old.bytes ++ piece.now)) }
        ensures one { OnOk result (IsUpToOne self.new.bytes) }
        ensures ok { OnOk result ((self.old.is_damaged ≡ false) × IsUndamaged (self.old.bytes ++ piece.now)) }
        ensures damage { OnErr result ((self.old.is_damaged ≡ true) ⊎ IsDamaged (self.old.bytes ++ piece.now)) }
        ensures for_good { IsTrue self.new.is_damaged ↔ IsErr result }
    {
        if self.is_damaged {
            return Err(Damage);
        }
        let head = fill(&mut self.held, JUDGED, piece);
        if !is_sound(self.held.as_slice()) {
            self.is_damaged = true;
            return Err(Damage);
        }
        let end = end_of(self.held.as_slice());
        let rest = fill(&mut self.held, end, &piece[head..]);
        Ok(head + rest)
    }

    /// The envelope that stands, if the stream wasn't damaged.
    pub fn envelope(&self) -> Option<Envelope<'_>>
        ensures spelled { IfSome result (λ e. self.now.bytes ≡ envelope_spelling e.kind e.copy e.frame.now) }
        ensures whole { IfSome result (λ e. IsEnvelope e.kind e.copy e.frame.now) }
        ensures good { IsSome result → self.now.is_damaged ≡ false }
        ensures only { (kind copy : ℕ) (frame : List ℕ) → HoldsEnvelope self.now kind copy frame
            → IsSomeAnd result (λ e. (e.kind ≡ kind) × (e.copy ≡ copy) × (e.frame.now ≡ frame)) }
    {
        if self.is_damaged {
            return None;
        }
        let held = self.held.as_slice();
        if held.len() < JUDGED || held.len() < end_of(held) {
            return None;
        }
        Some(Envelope {
            kind: held[0],
            copy: copy_of(held),
            frame: &held[HEAD..],
        })
    }

    /// Lets the envelope go that stands, so that the next one can come. With none it changes nothing.
    pub fn done(&mut self)
        ensures damaged { self.new.is_damaged ≡ self.old.is_damaged }
        ensures gone { (kind copy : ℕ) (frame : List ℕ) → HoldsEnvelope self.old kind copy frame → self.new.bytes ≡ [] }
        ensures kept { ((kind copy : ℕ) (frame : List ℕ) → HoldsEnvelope self.old kind copy frame → ⊥) → self.new ≡ self.old }
    {
        if self.envelope().is_some() {
            self.held.clear();
        }
    }
}
