//! Reads, until they give something or come to an end.

ghost use Rattle.std.specs.Prelude.{◌<◌, ◌≤◌, [], length, take, IfErr, IfOk, OnErr};
ghost use Rattle.std.specs.Io.KnownBytes.{Consumes};
ghost use Rattle.fuse_device.specs.Calls.{HasEnded, TriedUntil, read_result};

use crate::calls::ReadOnce;
use crate::device::DeviceEnd;
use crate::errors::{end_of, is_read_again, is_time_over};

/// Reads into the front of the room by one call, and says how many bytes came. One that the system asks to try again is
/// tried again; where it times out, EAGAIN says that the time is over for which the reader waits.
pub(crate) fn read_some<R: ReadOnce>(
    from: &mut R,
    room: &mut [u8],
    times_out: bool,
) -> Result<usize, DeviceEnd>
    ensures count { IfOk result (λ n. (0 < n) × (n ≤ length room.new)) }
    ensures bytes { IfOk result (λ n. Consumes (R.remaining from.old) (R.remaining from.new) (take n room.new)) }
    ensures end { OnErr result (Consumes (R.remaining from.old) (R.remaining from.new) []) }
    ensures tried { TriedUntil R.gives (read_result times_out) from.old result from.new }
    ensures why { IfErr result (λ end. HasEnded R.gives times_out from.new end) }
{
    for _try in 0..u64::MAX {
        match from.read_once(room) {
            Ok(0) => return Err(DeviceEnd::Ended),
            Ok(count) => return Ok(count),
            Err(number) => {
                if is_time_over(times_out, number) {
                    return Err(DeviceEnd::TimedOut);
                }
                if !is_read_again(number) {
                    return Err(end_of(number));
                }
            }
        }
    }
    Err(DeviceEnd::Failed)
}
