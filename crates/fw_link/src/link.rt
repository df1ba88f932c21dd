//! What a link owes to the two sides that talk over it.

ghost use Rattle.std.specs.Prelude.{◌≡◌, ℕ, ◌+◌, ◌^◌, ◌<◌, ◌≤◌, [], length, take, min, IfOk, OnOk, OnErr};
ghost use Rattle.fw_link.specs.Traffic.{Traffic, IsCounted, IsInOrder, IsWhole, in_turn, no_traffic, other_side, sent};

use crate::side::Side;
use thiserror::Error;

/// The link failed. Its count of failures has risen, or stands at its last value.
#[derive(Clone, Copy, Debug, PartialEq, Eq, Error)]
#[error("the link failed")]
pub struct LinkFault;

/// Two streams of bytes, from each side to the other. None of its calls takes memory.
///
/// What a link carries is said between two of its states, as it keeps no record of its bytes.
pub trait Link {
    // From the one state to the other these bytes may have been put and got, and no others.
    ghost carries: { (old new : Self) → Traffic → Type 0 };
    // The failures so far. At 2^62 the count stays.
    ghost failed: { Self → ℕ };

    /// Puts all these bytes, for the other side to get.
    ///
    /// # Errors
    ///
    /// Where the link failed. A beginning of the bytes may have been put.
    fn put(&mut self, side: Side, bytes: &[u8]) -> Result<(), LinkFault>
        ensures put { OnOk result (carries self.old self.new (sent side bytes.now [])) }
        ensures cut_off { OnErr result
            ((n : ℕ) × carries self.old self.new (sent side (take n bytes.now) [])) }
        ensures counted { IsCounted result (failed self.old) (failed self.new) };

    /// Gets at least one of the bytes that are there for a side into the front of the room, and says how many.
    ///
    /// # Errors
    ///
    /// Where the link failed, and where it gives no byte. None is then got.
    fn get(&mut self, side: Side, room: &mut [u8]) -> Result<usize, LinkFault>
        ensures some { IfOk result (λ n. (0 < n) × (n ≤ length room.new)) }
        ensures got { IfOk result
            (λ n. carries self.old self.new (sent (other_side side) [] (take n room.new))) }
        ensures nothing { OnErr result (carries self.old self.new no_traffic) }
        ensures counted { IsCounted result (failed self.old) (failed self.new) };

    /// How often the link has failed, up to 2^62.
    fn failures(&self) -> u64
        ensures count { result ≡ failed self.now }
        ensures most { result ≤ 2 ^ 62 };

    ghost stays: { (link : Self) → carries link link no_traffic };

    ghost goes_on: { (first mid last : Self) (h k : Traffic) →
        carries first mid h → carries mid last k → carries first last (in_turn h k) };
}

/// A link that gives each side what the other put, in order: a fact of the link, which no call changes.
pub trait LinkInOrder: Link {
    // Nothing that was put is yet to be got.
    ghost is_idle: { Self → Type 0 };

    ghost in_order: { (first last : Self) (h : Traffic) →
        is_idle first → Self.carries first last h → IsInOrder h };

    ghost stays_idle: { (first last : Self) (h : Traffic) →
        is_idle first → Self.carries first last h → IsWhole h → is_idle last };
}

/// A count of failures, which stays at 2^62.
#[derive(Clone, Copy, Debug)]
pub(crate) struct FailureCount {
    pub(crate) count: u64,
    ghost within: { count ≤ 2 ^ 62 },
}

impl FailureCount {
    pub(crate) fn new() -> FailureCount
        ensures { result.count ≡ 0 }
    {
        FailureCount { count: 0 }
    }

    /// Counts one more.
    pub(crate) fn rise(&mut self)
        ensures { self.new.count ≡ min (self.old.count + 1) (2 ^ 62) }
    {
        if self.count < 1 << 62 {
            self.count += 1;
        }
    }
}
