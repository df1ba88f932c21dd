//! From record to record in a listing.

ghost use Rattle.std.specs.Prelude.{◌≡◌, ◌≤◌, ◌<◌, ◌+◌, ◌^◌, true, false, length, MatchOption};
ghost use Rattle.fuse_replies.specs.RecordPlaces.{padded, front, record_end as end_given, is_whole};

use fk_fields::u32_at;

/// How long a name is with its padding to a multiple of 8.
fn padded_len(len: usize) -> usize
    requires { len < 2 ^ 62 }
    ensures { result ≡ padded len }
{
    (len + 7) / 8 * 8
}

/// How many bytes of an entry come before a record.
fn front_of(plus: bool) -> usize
    ensures { result ≡ front plus }
{
    if plus { 128 } else { 0 }
}

/// Where the record that begins at a place ends, or `None` where it is cut short. With `plus`, an entry
/// comes first.
pub(crate) fn record_end(bytes: &[u8], place: usize, plus: bool) -> Option<usize>
    requires { place ≤ length bytes.now }
    ensures { MatchOption result (is_whole plus place bytes.now ≡ false)
        (λ end. (is_whole plus place bytes.now ≡ true) × (end ≡ end_given plus place bytes.now)) }
{
    let left = bytes.len() - place;
    let head = front_of(plus) + 24;
    if left < head {
        return None;
    }
    let len = u32_at(bytes, place + head - 8) as usize;
    let size = head + padded_len(len);
    if left < size {
        None
    } else {
        Some(place + size)
    }
}
