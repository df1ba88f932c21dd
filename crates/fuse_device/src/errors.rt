//! What the error numbers of reads and writes say of a device.

ghost use Rattle.std.specs.Prelude.{◌≡◌};
ghost use Rattle.fuse_device.specs.ErrorNumbers.{end_of, is_read_again, is_time_over, is_written_again, result_of};

use crate::device::DeviceEnd;
use fuse_spec::WriteResult;

/// ENOENT of a read: the request went before it was read. Of a write: nothing awaits the reply.
const ENOENT: i32 = 2;

/// EINTR, a signal came first.
const EINTR: i32 = 4;

/// EAGAIN, nothing is there yet.
const EAGAIN: i32 = 11;

/// ENODEV of a read: the mount has gone.
const ENODEV: i32 = 19;

/// EINVAL of a write: the frame is no reply.
const EINVAL: i32 = 22;

/// EPIPE, ECONNABORTED and ECONNRESET: the other side closed, or the mount was aborted.
const EPIPE: i32 = 32;

const ECONNABORTED: i32 = 103;

const ECONNRESET: i32 = 104;

/// Whether the system asks to try a read again that failed with this error number.
pub(crate) fn is_read_again(number: i32) -> bool
    ensures { result ≡ is_read_again number }
{
    number == EINTR || number == EAGAIN || number == ENOENT
}

/// Whether a read that failed with this error number says that the time is over for which the reader waits.
pub(crate) fn is_time_over(times_out: bool, number: i32) -> bool
    ensures { result ≡ is_time_over times_out number }
{
    times_out && number == EAGAIN
}

/// Whether the system asks to try a write again that failed with this error number.
pub(crate) fn is_written_again(number: i32) -> bool
    ensures { result ≡ is_written_again number }
{
    number == EINTR
}

/// What a call that failed with this error number says of the device.
pub(crate) fn end_of(number: i32) -> DeviceEnd
    ensures { result ≡ end_of number }
{
    match number {
        ENODEV | EPIPE | ECONNABORTED | ECONNRESET => DeviceEnd::Ended,
        _ => DeviceEnd::Failed,
    }
}

/// What a write of a packet that failed with this error number says of the frame.
pub(crate) fn result_of(number: i32) -> Result<WriteResult, DeviceEnd>
    ensures { result ≡ result_of number }
{
    match number {
        ENOENT => Ok(WriteResult::NoEntry),
        EINVAL => Ok(WriteResult::Invalid),
        _ => Err(end_of(number)),
    }
}
