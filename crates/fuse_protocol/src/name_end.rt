//! Where in a frame the first byte is that ends a name, looked for sixteen bytes at a time. A frame has its
//! header before the names, so that sixteen bytes can be read up to any place behind it.

ghost use Rattle.std.specs.Prelude.{◌≡◌, ◌≢◌, ◌≤◌, ◌<◌, ◌+◌, ◌↔◌, ℕ, true, false, length, slice_range, slice_index, MatchOption};
ghost use Rattle.std.specs.Int.{bit_at};
ghost use Rattle.fuse_protocol.specs.Ends.{is_end, HasNoEnd};

use std::simd::prelude::*;

/// Which of the sixteen bytes from a place on end a name: a bit for each, the lowest for the first.
#[inline(always)]
fn ends_from(bytes: &[u8], place: usize, other: u8) -> u64
    requires { place + 16 ≤ length bytes.now }
    ensures { (k : ℕ) → (bit_at result k ≡ 1) ↔ ((k < 16) × (is_end other (slice_index bytes.now (place + k)) ≡ true)) }
{
    let lanes = u8x16::from_slice(&bytes[place..]);
    lanes.simd_eq(u8x16::splat(0)).to_bitmask() | lanes.simd_eq(u8x16::splat(other)).to_bitmask()
}

/// The same of the bytes from a place up to another, at most sixteen.
#[inline(always)]
fn ends_in(bytes: &[u8], place: usize, stop: usize, other: u8) -> u64
    requires ordered { place ≤ stop }
    requires near { stop ≤ place + 16 }
    requires room { 16 ≤ stop }
    requires within { stop ≤ length bytes.now }
    ensures { (k : ℕ) → (bit_at result k ≡ 1)
        ↔ ((place + k < stop) × (is_end other (slice_index bytes.now (place + k)) ≡ true)) }
{
    ends_from(bytes, stop - 16, other) >> (16 - (stop - place))
}

/// Which bit is the lowest that is set.
#[inline(always)]
fn lowest(bits: u64) -> usize
    requires { bits ≢ 0 }
    ensures set { bit_at bits result ≡ 1 }
    ensures below { (k : ℕ) → k < result → bit_at bits k ≡ 0 }
{
    bits.trailing_zeros() as usize
}

/// Where the first byte is that ends a name, from a place up to another, at most sixteen bytes on.
#[inline(always)]
fn end_near(bytes: &[u8], place: usize, stop: usize, other: u8) -> Option<usize>
    requires ordered { place ≤ stop }
    requires near { stop ≤ place + 16 }
    requires room { 16 ≤ stop }
    requires within { stop ≤ length bytes.now }
    ensures { MatchOption result
        ((k : ℕ) → place ≤ k → k < stop → is_end other (slice_index bytes.now k) ≡ false)
        (λ end. (place ≤ end) × (end < stop)
        × ((k : ℕ) → place ≤ k → k < end → is_end other (slice_index bytes.now k) ≡ false)
        × (is_end other (slice_index bytes.now end) ≡ true)) }
{
    let bits = ends_in(bytes, place, stop, other);
    if bits == 0 {
        return None;
    }
    Some(place + lowest(bits))
}

/// Where the first byte is, from a place up to another, that is NUL or the other. It is called and not copied,
/// since the reader has a copy of what is in line for each opcode.
#[inline(never)]
pub(crate) fn name_end(bytes: &[u8], start: usize, stop: usize, other: u8) -> Option<usize>
    requires room { 16 ≤ start }
    requires ordered { start ≤ stop }
    requires within { stop ≤ length bytes.now }
    ensures { MatchOption result
        (HasNoEnd other (slice_range bytes.now start stop))
        (λ end. (start ≤ end) × (end < stop) × HasNoEnd other (slice_range bytes.now start end)
        × (is_end other (slice_index bytes.now end) ≡ true)) }
{
    let mut place = start;
    'runs: while stop - place > 16 {
        if let Some(end) = end_near(bytes, place, place + 16, other) {
            return Some(end);
        }
        place += 16;
    }
    match end_near(bytes, place, stop, other) {
        Some(end) => Some(end),
        None => None,
    }
}
