//! The transfer that a line says.

ghost use Rattle.std.specs.Prelude.{IfOk, OnOk};
ghost use Rattle.fuse_capture.specs.Readings.{IsFrameOf, IsTransferOf};

use crate::line::{CaptureLine, CapturedFrame};
use fuse_sessions::Transfer;
use std::alloc::{AllocError, Allocator};

/// Writes the bytes of a frame in place of what the vector had: those that its hex spells, and then zeros.
///
/// # Errors
///
/// Out of memory.
pub fn write_frame<A: Allocator>(
    frame: CapturedFrame<'_>,
    bytes: &mut Vec<u8, A>,
) -> Result<(), AllocError>
    ensures { OnOk result (IsFrameOf frame.entry bytes.new.items) }
{
    let kept = frame.hex.len() / 2;
    let Some(whole) = kept.checked_add(frame.more as usize) else {
        return Err(AllocError);
    };
    bytes.clear();
    bytes.resize(kept, 0)?;
    let _ = hex::decode_to_slice(frame.hex, bytes.as_mut_slice());
    bytes.resize(whole, 0)
}

/// The transfer that a line says. Its frame is written into the vector.
///
/// # Errors
///
/// Out of memory.
pub fn read_transfer<'b, A: Allocator>(
    line: CaptureLine<'_>,
    frame: &'b mut Vec<u8, A>,
) -> Result<Transfer<'b>, AllocError>
    ensures { IfOk result (λ t. IsTransferOf line.entry t) }
{
    match line {
        CaptureLine::Request(request) => {
            write_frame(request, frame)?;
            Ok(Transfer::Request(frame.as_slice()))
        }
        CaptureLine::Written(written, taken) => {
            write_frame(written, frame)?;
            Ok(Transfer::Written(frame.as_slice(), taken))
        }
        CaptureLine::SeveralReaders => Ok(Transfer::SeveralReaders),
        CaptureLine::SeveralWriters => Ok(Transfer::SeveralWriters),
        CaptureLine::Ended => Ok(Transfer::Ended),
    }
}
