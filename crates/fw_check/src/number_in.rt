//! The number of a frame that is written.

ghost use Rattle.std.specs.Prelude.{◌≡◌, ◌<◌, length, nat_eq, not};
ghost use Rattle.fuse_sessions.specs.Frames.{number_in};

use fk_fields::u64_at;

/// The length of a whole header.
const HEADER: usize = 16;

/// Whether the number of a frame is not 0 whose header is cut: the bytes that it lacks are zero.
fn has_cut_number(bytes: &[u8]) -> bool
    requires { length bytes.now < 16 }
    ensures { result ≡ not (nat_eq (number_in bytes.now) 0) }
{
    for place in 8..bytes.len() {
        if bytes[place] != 0 {
            return true;
        }
    }
    false
}

/// Whether the number of a frame is not 0, so that it is no notification.
pub(crate) fn has_number(bytes: &[u8]) -> bool
    ensures { result ≡ not (nat_eq (number_in bytes.now) 0) }
{
    if bytes.len() < HEADER {
        return has_cut_number(bytes);
    }
    u64_at(bytes, 8) != 0
}
