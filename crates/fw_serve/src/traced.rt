//! A device around a device, which prints what goes over it.

ghost use Rattle.std.specs.Prelude.{◌≡◌};

use fuse_device::{Device, DeviceEnd};
use fuse_sessions::{Taken, Transfer};
use fuse_spec::WriteResult;
use fw_decode::Decoding;
use std::alloc::{Allocator, Global};
use std::io::Write;

/// A device that prints a line for each frame as `decode` does: what it says, how it was refused, and the faults that
/// the judge of sessions finds in it. What the writer refuses is lost.
#[derive(Drop)]
pub struct TracedDevice<D: Device + Drop, W: Write + Drop, A: Allocator + Copy = Global> {
    inner: D,
    out: W,
    decoding: Decoding<A>,
}

/// A frame that was sent, and what the device made of it; the end where it was not sent.
fn transfer_of(frame: &[u8], sent: Result<WriteResult, DeviceEnd>) -> Transfer<'_> {
    match sent {
        Ok(WriteResult::Accepted) => Transfer::Written(frame, Taken::Accepted),
        Ok(WriteResult::NoEntry) => Transfer::Written(frame, Taken::NoEntry),
        Ok(WriteResult::Invalid) => Transfer::Written(frame, Taken::Invalid),
        Err(_) => Transfer::Ended,
    }
}

impl<D: Device + Drop, W: Write + Drop, A: Allocator + Copy> TracedDevice<D, W, A> {
    /// A device that prints what goes over another.
    pub fn new(alloc: A, inner: D, out: W) -> Self
        ensures { (result.inner ≡ inner) × (result.out ≡ out) }
    {
        TracedDevice {
            inner,
            out,
            decoding: Decoding::new(alloc),
        }
    }

    /// Prints the line of a transfer.
    fn print(&mut self, transfer: Transfer<'_>)
        ensures { self.new.inner ≡ self.old.inner }
    {
        self.decoding.print(transfer, &mut self.out);
    }
}

impl<D: Device + Drop, W: Write + Drop, A: Allocator + Copy> Device for TracedDevice<D, W, A> {
    ghost logs = { λ old new log. D.logs old.inner new.inner log };

    fn receive(&mut self, room: &mut [u8]) -> Result<usize, DeviceEnd> {
        let count = match self.inner.receive(room) {
            Ok(count) => count,
            Err(end) => return Err(end),
        };
        self.print(Transfer::Request(&room[..count]));
        Ok(count)
    }

    fn send(&mut self, frame: &[u8]) -> Result<WriteResult, DeviceEnd> {
        let sent = self.inner.send(frame);
        self.print(transfer_of(frame, sent));
        sent
    }

    ghost stays = { λ device. D.stays device.inner };

    ghost goes_on = { λ first mid last. D.goes_on first.inner mid.inner last.inner };
}
