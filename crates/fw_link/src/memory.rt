//! A link in memory.

ghost use Rattle.std.specs.Prelude.{◌≡◌, ℕ, ◌+◌, ◌<◌, ◌≤◌, ◌↔◌, ◌++◌, [], List, length, take};
ghost use Rattle.std.specs.Prelude.{drop, min, IsTrue, IfOk, OnOk, OnErr, IsOk, vec_capacity, vec_len};
ghost use Rattle.fw_link.specs.Traffic.{HasFailed, IsCounted, no_traffic, other_side, sent};

use crate::envelope::LONGEST;
use crate::link::{FailureCount, Link, LinkFault, LinkInOrder};
use crate::side::Side;
use std::alloc::{AllocError, Allocator, Global};
use std::marker::Model;

/// How many bytes a way keeps, got ones among them: so twice an envelope that, before those that are left move to the
/// front, at least as many were got.
const KEPT: usize = 2 * LONGEST;

/// The bytes on their way to one side.
#[derive(Drop)]
pub(crate) struct Channel<A: Allocator + Copy> {
    held: Vec<u8, A>,
    /// How many of them were got.
    got: usize,
}

impl<A: Allocator + Copy> Model for Channel<A> {
    ghost Value = { List ℕ };

    ghost view = { λ w. drop w.got w.held.items };

    ghost invariant = { λ w. (w.got ≤ vec_len w.held) × (8370 ≤ vec_capacity w.held) };
}

impl<A: Allocator + Copy> Channel<A> {
    /// An empty one with room for an envelope.
    fn new(alloc: A) -> Result<Self, AllocError>
        ensures { IfOk result (λ w. w ≡ []) }
    {
        let held = Vec::with_capacity(alloc, KEPT)?;
        Ok(Channel { held, got: 0 })
    }

    /// Whether this many more bytes have room.
    fn has_room(&self, count: usize) -> bool
        ensures { IsTrue result ↔ (length self.now + count ≤ 4185) }
    {
        let len = self.held.len() - self.got;
        len <= LONGEST && count <= LONGEST - len
    }

    /// Adds bytes at the end.
    fn push(&mut self, bytes: &[u8])
        requires { length self.old + length bytes.now ≤ 4185 }
        ensures { self.new ≡ self.old ++ bytes.now }
    {
        if bytes.len() > KEPT - self.held.len().min(KEPT) {
            drop_front(&mut self.held, self.got);
            self.got = 0;
            self.held.extend_from_slice(bytes).unwrap();
            return;
        }
        self.held.extend_from_slice(bytes).unwrap();
    }

    /// Moves bytes from the front into the room, and says how many.
    fn pull(&mut self, room: &mut [u8]) -> usize
        ensures count { result ≡ min (length room.old) (length self.old) }
        ensures given { take result room.new ≡ take result self.old }
        ensures left { self.new ≡ drop result self.old }
    {
        let left = &self.held[self.got..];
        let count = room.len().min(left.len());
        room[..count].copy_from_slice(&left[..count]);
        self.got += count;
        if self.got == self.held.len() {
            self.held.clear();
            self.got = 0;
        }
        count
    }
}

/// Takes out this many of the first bytes: the others move to the front. The room stays.
fn drop_front<A: Allocator>(held: &mut Vec<u8, A>, count: usize)
    requires { count ≤ vec_len held.old }
    ensures items { held.new.items ≡ drop count held.old.items }
    ensures len { vec_len held.new + count ≡ vec_len held.old }
    ensures capacity { vec_capacity held.new ≡ vec_capacity held.old }
{
    held.rotate_left(count);
    held.truncate(held.len() - count);
}

/// Puts bytes on a way, or counts a failure where they have no room.
fn put_on<A: Allocator + Copy>(
    way: &mut Channel<A>,
    failed: &mut FailureCount,
    bytes: &[u8],
) -> Result<(), LinkFault>
    ensures room { IsOk result ↔ (length way.old + length bytes.now ≤ 4185) }
    ensures ok { OnOk result (way.new ≡ way.old ++ bytes.now) }
    ensures err { OnErr result (way.new ≡ way.old) }
    ensures counted { IsCounted result failed.old.count failed.new.count }
{
    if !way.has_room(bytes.len()) {
        failed.rise();
        return Err(LinkFault);
    }
    way.push(bytes);
    Ok(())
}

/// Gets bytes from a way, or counts a failure where that is none.
fn get_from<A: Allocator + Copy>(
    way: &mut Channel<A>,
    failed: &mut FailureCount,
    room: &mut [u8],
) -> Result<usize, LinkFault>
    ensures some { IsOk result ↔ ((0 < length room.old) × (0 < length way.old)) }
    ensures count { IfOk result (λ n. (0 < n) × (n ≤ length room.new)) }
    ensures ok { IfOk result (λ n. way.old ≡ take n room.new ++ way.new) }
    ensures err { OnErr result (way.new ≡ way.old) }
    ensures counted { IsCounted result failed.old.count failed.new.count }
{
    let count = way.pull(room);
    if count == 0 {
        failed.rise();
        return Err(LinkFault);
    }
    Ok(count)
}

/// A link in memory, with room for one envelope to each side. It takes no memory after `new`.
#[derive(Drop)]
pub struct MemoryLink<A: Allocator + Copy = Global> {
    to_kernel: Channel<A>,
    to_server: Channel<A>,
    failed: FailureCount,
}

impl<A: Allocator + Copy> MemoryLink<A> {
    ghost use Rattle.fw_link.specs.InMemory.{IsEmptyLink, Moved};

    /// A link on which nothing was put.
    pub fn new(alloc: A) -> Result<Self, AllocError>
        ensures idle { IfOk result IsEmptyLink }
        ensures failed { IfOk result (λ link. link.failed.count ≡ 0) }
    {
        let to_kernel = Channel::new(alloc)?;
        let to_server = Channel::new(alloc)?;
        Ok(MemoryLink {
            to_kernel,
            to_server,
            failed: FailureCount::new(),
        })
    }

    /// Counts a failure, and changes nothing else.
    pub(crate) fn fail(&mut self) -> LinkFault
        ensures nothing { Moved self.old self.new no_traffic }
        ensures counted { HasFailed self.old.failed.count self.new.failed.count }
    {
        let _before = self.failed.count;
        self.failed.rise();
        LinkFault
    }
}

impl<A: Allocator + Copy> Link for MemoryLink<A> {
    ghost use Rattle.fw_link.specs.InMemory.{Moved, moved_in_turn, nothing_moved, way_to};

    ghost carries = { Moved };

    ghost failed = { λ link. link.failed.count };

    fn put(&mut self, side: Side, bytes: &[u8]) -> Result<(), LinkFault>
        ensures put { OnOk result (Moved self.old self.new (sent side bytes.now [])) }
        ensures cut_off { OnErr result ((n : ℕ) × Moved self.old self.new (sent side (take n bytes.now) [])) }
        ensures counted { IsCounted result self.old.failed.count self.new.failed.count }
        // It succeeds exactly where the bytes have room beside those that the other side hasn't got yet.
        ensures room { IsOk result ↔
            (length (way_to self.old (other_side side)) + length bytes.now ≤ 4185) }
    {
        match side {
            Side::Kernel => put_on(&mut self.to_server, &mut self.failed, bytes),
            Side::Server => put_on(&mut self.to_kernel, &mut self.failed, bytes),
        }
    }

    fn get(&mut self, side: Side, room: &mut [u8]) -> Result<usize, LinkFault>
        ensures some { IfOk result (λ n. (0 < n) × (n ≤ length room.new)) }
        ensures got { IfOk result
            (λ n. Moved self.old self.new (sent (other_side side) [] (take n room.new))) }
        ensures nothing { OnErr result (Moved self.old self.new no_traffic) }
        ensures counted { IsCounted result self.old.failed.count self.new.failed.count }
        // It succeeds exactly where bytes are outstanding and there is room for one.
        ensures ready { IsOk result ↔
            ((0 < length room.old) × (0 < length (way_to self.old side))) }
    {
        match side {
            Side::Kernel => get_from(&mut self.to_kernel, &mut self.failed, room),
            Side::Server => get_from(&mut self.to_server, &mut self.failed, room),
        }
    }

    fn failures(&self) -> u64 {
        self.failed.count
    }

    ghost stays = { nothing_moved };

    ghost goes_on = { moved_in_turn };
}

impl<A: Allocator + Copy> LinkInOrder for MemoryLink<A> {
    ghost use Rattle.fw_link.specs.InMemory as memory;

    ghost is_idle = { memory.IsEmptyLink };

    ghost in_order = { memory.moved_in_order };

    ghost stays_idle = { memory.stays_idle };
}
