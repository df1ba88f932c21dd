//! A link that fails at one envelope, for tests of what stands on links.

ghost use Rattle.std.specs.Prelude.{◌≡◌, ℕ, ◌+◌, ◌-◌, ◌<◌, ◌≤◌, ◌↔◌, [], length};
ghost use Rattle.std.specs.Prelude.{take, IsTrue, IsOk, IsErr, IfOk, OnOk, OnErr};
ghost use Rattle.fw_link.specs.Traffic.{IsCounted, no_traffic, other_side, sent};
ghost use Rattle.fw_link.specs.declared.failing.FailsIn.{FailsIn};

use crate::link::{Link, LinkFault, LinkInOrder};
use crate::memory::MemoryLink;
use crate::side::Side;
use std::alloc::{AllocError, Allocator, Global};

/// The call in which a failing link fails.
#[derive(Clone, Copy, Debug, PartialEq, Eq)]
pub enum FailsIn {
    /// The put of the envelope.
    Put,
    /// The first get after the put of the envelope.
    Get,
}

/// A link in memory that hands out one byte at a time, and fails at one envelope and from then on. Each `put` counts
/// as one envelope.
#[derive(Drop)]
pub struct FailingLink<A: Allocator + Copy = Global> {
    memory: MemoryLink<A>,
    fails_in: FailsIn,
    envelopes_left: u64,
}

impl<A: Allocator + Copy> FailingLink<A> {
    ghost use Rattle.fw_link.specs.InMemory.{IsEmptyLink};

    /// A link on which nothing was put, and which fails at the put of the envelope of this number, counted
    /// from 1 on both sides together, or at the first get after it.
    pub fn new(alloc: A, fails_in: FailsIn, envelope: u64) -> Result<Self, AllocError>
        ensures idle { IfOk result (λ link. IsEmptyLink link.memory) }
        ensures failed { IfOk result (λ link. link.memory.failed.count ≡ 0) }
        ensures place { IfOk result
            (λ link. (link.fails_in ≡ fails_in) × (link.envelopes_left ≡ envelope)) }
    {
        let memory = MemoryLink::new(alloc)?;
        Ok(FailingLink {
            memory,
            fails_in,
            envelopes_left: envelope,
        })
    }

    /// Whether this call is the one that fails.
    fn is_due(&self, call: FailsIn) -> bool
        ensures { IsTrue result ↔ ((self.now.envelopes_left ≡ 0) × (self.now.fails_in ≡ call)) }
    {
        self.envelopes_left == 0 && self.fails_in == call
    }
}

impl<A: Allocator + Copy> Link for FailingLink<A> {
    ghost use Rattle.fw_link.specs.InMemory.{Moved, moved_in_turn, nothing_moved, way_to};

    ghost carries = { λ old new h. Moved old.memory new.memory h };

    ghost failed = { λ link. link.memory.failed.count };

    fn put(&mut self, side: Side, bytes: &[u8]) -> Result<(), LinkFault>
        ensures put { OnOk result (Moved self.old.memory self.new.memory (sent side bytes.now [])) }
        ensures cut_off { OnErr result
            ((n : ℕ) × Moved self.old.memory self.new.memory (sent side (take n bytes.now) [])) }
        ensures counted { IsCounted result self.old.memory.failed.count self.new.memory.failed.count }
        // It fails in the put of its envelope and of each later one, and else where there is no room.
        ensures place { (self.new.envelopes_left ≡ self.old.envelopes_left - 1)
            × (self.new.fails_in ≡ self.old.fails_in) }
        ensures due { (self.old.envelopes_left ≤ 1) × (self.old.fails_in ≡ FailsIn.Put) → IsErr result }
        ensures otherwise { ((self.old.envelopes_left ≤ 1) × (self.old.fails_in ≡ FailsIn.Put) → ⊥)
            → length (way_to self.old.memory (other_side side)) + length bytes.now ≤ 4185 → IsOk result }
    {
        self.envelopes_left = self.envelopes_left.saturating_sub(1);
        if self.is_due(FailsIn::Put) {
            return Err(self.memory.fail());
        }
        self.memory.put(side, bytes)
    }

    fn get(&mut self, side: Side, room: &mut [u8]) -> Result<usize, LinkFault>
        ensures some { IfOk result (λ n. (0 < n) × (n ≤ length room.new)) }
        ensures got { IfOk result
            (λ n. Moved self.old.memory self.new.memory (sent (other_side side) [] (take n room.new))) }
        ensures nothing { OnErr result (Moved self.old.memory self.new.memory no_traffic) }
        ensures counted { IsCounted result self.old.memory.failed.count self.new.memory.failed.count }
        // It gives one byte, or fails in the gets after the put of its envelope, and else where none is there.
        ensures place { (self.new.envelopes_left ≡ self.old.envelopes_left)
            × (self.new.fails_in ≡ self.old.fails_in) }
        ensures one { IfOk result (λ n. n ≡ 1) }
        ensures due { (self.old.envelopes_left ≡ 0) × (self.old.fails_in ≡ FailsIn.Get) → IsErr result }
        ensures otherwise { ((self.old.envelopes_left ≡ 0) × (self.old.fails_in ≡ FailsIn.Get) → ⊥)
            → 0 < length room.old → 0 < length (way_to self.old.memory side) → IsOk result }
    {
        if self.is_due(FailsIn::Get) {
            return Err(self.memory.fail());
        }
        let count = room.len().min(1);
        self.memory.get(side, &mut room[..count])
    }

    fn failures(&self) -> u64 {
        self.memory.failures()
    }

    ghost stays = { λ link. nothing_moved link.memory };

    ghost goes_on = { λ first mid last h k one two. moved_in_turn first.memory mid.memory last.memory h k one two };
}

impl<A: Allocator + Copy> LinkInOrder for FailingLink<A> {
    ghost use Rattle.fw_link.specs.InMemory as memory;

    ghost is_idle = { λ link. memory.IsEmptyLink link.memory };

    ghost in_order = { λ first last h idle moved. memory.moved_in_order first.memory last.memory h idle moved };

    ghost stays_idle = { λ first last h idle moved whole.
        memory.stays_idle first.memory last.memory h idle moved whole };
}
