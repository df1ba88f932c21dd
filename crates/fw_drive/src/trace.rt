//! A device around a device, which prints what goes over it.

ghost use Rattle.std.specs.Prelude.{◌≡◌};

use fk_drive_frames::has_opendir_unique;
use fuse_device::{Device, DeviceEnd};
use fuse_sessions::{Taken, Transfer};
use fuse_spec::WriteResult;
use fw_decode::Decoding;
use std::alloc::Allocator;
use std::io::Write;

/// What stands behind the line of a frame: of OPENDIR or RELEASEDIR, which this command sends by itself, and of a reply to
/// one. Both heads have the number at the same place (`struct fuse_in_header`, `struct fuse_out_header`).
fn remark<'a>(frame: &[u8], own: &'a str) -> &'a str {
    if has_opendir_unique(frame) { own } else { "" }
}

/// A device that prints a line for each frame as `decode` does, but for the faults: of one that is sent `>`, and of one
/// that is received `<`. What the writer refuses is lost.
///
/// The kernel takes a reply later than it comes, so that the judge of sessions would accuse wrongly here.
#[derive(Drop)]
pub struct DriveTrace<A: Allocator + Copy, D: Device + Drop, W: Write + Drop> {
    inner: D,
    out: W,
    decoding: Decoding<A>,
}

impl<A: Allocator + Copy, D: Device + Drop, W: Write + Drop> DriveTrace<A, D, W> {
    /// A device that prints what goes over another.
    pub fn new(alloc: A, inner: D, out: W) -> Self
        ensures { result.inner ≡ inner }
    {
        DriveTrace {
            inner,
            out,
            decoding: Decoding::new(alloc),
        }
    }

    /// Prints the line of a frame that is sent.
    fn print_sent(&mut self, frame: &[u8])
        ensures { self.new.inner ≡ self.old.inner }
    {
        let remark = remark(frame, " (of this command)");
        self.decoding
            .print_unjudged(Transfer::Request(frame), remark, &mut self.out);
    }

    /// Prints the line of a frame that was received.
    fn print_received(&mut self, frame: &[u8])
        ensures { self.new.inner ≡ self.old.inner }
    {
        let remark = remark(frame, " (to this command)");
        let written = Transfer::Written(frame, Taken::Accepted);
        self.decoding.print_unjudged(written, remark, &mut self.out);
    }
}

impl<A: Allocator + Copy, D: Device + Drop, W: Write + Drop> Device for DriveTrace<A, D, W> {
    ghost logs = { λ old new log. D.logs old.inner new.inner log };

    fn receive(&mut self, room: &mut [u8]) -> Result<usize, DeviceEnd> {
        let count = match self.inner.receive(room) {
            Ok(count) => count,
            Err(end) => return Err(end),
        };
        self.print_received(&room[..count]);
        Ok(count)
    }

    fn send(&mut self, frame: &[u8]) -> Result<WriteResult, DeviceEnd> {
        self.print_sent(frame);
        self.inner.send(frame)
    }

    ghost stays = { λ device. D.stays device.inner };

    ghost goes_on = { λ first mid last. D.goes_on first.inner mid.inner last.inner };
}
