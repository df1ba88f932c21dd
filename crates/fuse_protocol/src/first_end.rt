//! Where the first byte is that ends a name.

ghost use Rattle.std.specs.Prelude.{◌≡◌, ◌≤◌, ◌<◌, ◌+◌, ◌↔◌, ℕ, true, false, length, take, slice_index, MatchOption};
ghost use Rattle.fuse_protocol.specs.Ends.{is_end, HasNoEnd};

/// Whether a byte is NUL or the other byte that no such name has.
#[inline(always)]
fn ends(byte: u8, other: u8) -> bool
    ensures { result ≡ is_end other byte }
{
    (byte == 0) | (byte == other)
}

/// Whether one of the next eight bytes ends a name. It has no branch for each of them.
#[inline(always)]
fn ends_near(bytes: &[u8], place: usize, other: u8) -> bool
    requires { place + 8 ≤ length bytes.now }
    ensures { (result ≡ false) ↔ ((k : ℕ) → k < 8 → is_end other (slice_index bytes.now (place + k)) ≡ false) }
{
    ends(bytes[place], other)
        | ends(bytes[place + 1], other)
        | ends(bytes[place + 2], other)
        | ends(bytes[place + 3], other)
        | ends(bytes[place + 4], other)
        | ends(bytes[place + 5], other)
        | ends(bytes[place + 6], other)
        | ends(bytes[place + 7], other)
}

/// Where the first byte is that is NUL or the other, looked for eight bytes at a time.
#[inline(always)]
pub(crate) fn first_end(bytes: &[u8], other: u8) -> Option<usize>
    ensures { MatchOption result (HasNoEnd other bytes.now) (λ end. (end < length bytes.now)
        × HasNoEnd other (take end bytes.now) × (is_end other (slice_index bytes.now end) ≡ true)) }
{
    let mut end = 0;
    'runs: while bytes.len() - end >= 8 && !ends_near(bytes, end, other) {
        end += 8;
    }
    'bytes: while end < bytes.len() {
        if ends(bytes[end], other) {
            return Some(end);
        }
        end += 1;
    }
    None
}
