//! The line of a transfer in a capture.

ghost use Rattle.std.specs.Prelude.{◌≡◌, ◌++◌, OnOk};
ghost use Rattle.hex.specs.Hex.{encode_lower};
ghost use Rattle.fw_judged.specs.Judged as words;

use fuse_sessions::{Taken, Transfer};
use std::alloc::{AllocError, Allocator};

/// What was made of a frame.
fn taken_text(taken: Taken) -> &'static [u8]
    ensures { result.now ≡ words.taken_text taken }
{
    match taken {
        Taken::Accepted => b"",
        Taken::NoEntry => b" ENOENT",
        Taken::Invalid => b" EINVAL",
        Taken::Failed => b" EIO",
    }
}

/// The hex of a frame.
fn put_hex<A: Allocator + Copy>(
    alloc: A,
    text: &mut Vec<u8, A>,
    frame: &[u8],
) -> Result<(), AllocError>
    ensures { OnOk result (text.new.items ≡ text.old.items ++ encode_lower frame.now) }
{
    let digits = hex::encode(alloc, frame)?;
    text.extend_from_slice(digits.as_bytes())
}

/// The line of a transfer.
pub(crate) fn put_capture_line<A: Allocator + Copy>(
    alloc: A,
    text: &mut Vec<u8, A>,
    transfer: Transfer<'_>,
) -> Result<(), AllocError>
    ensures { OnOk result (text.new.items ≡ text.old.items ++ words.capture_line transfer.entry) }
{
    match transfer {
        Transfer::Request(frame) => {
            text.extend_from_slice(b"> ")?;
            put_hex(alloc, text, frame)?;
            text.extend_from_slice(b"\n")
        }
        Transfer::Written(frame, taken) => {
            text.extend_from_slice(b"< ")?;
            put_hex(alloc, text, frame)?;
            text.extend_from_slice(taken_text(taken))?;
            text.extend_from_slice(b"\n")
        }
        Transfer::SeveralReaders => text.extend_from_slice(b"= several readers\n"),
        Transfer::SeveralWriters => text.extend_from_slice(b"= several writers\n"),
        Transfer::Ended => text.extend_from_slice(b"= ended ENODEV\n"),
    }
}
