//! A device around one with a server at the other side, which judges what goes over it.

ghost use Rattle.std.specs.Prelude.{◌≡◌};
ghost use Rattle.fuse_sessions.specs.declared.transfer.Transfer.TheVariants.{SeveralReaders};
ghost use Rattle.fw_judged.specs.declared.form.Form.{Form};
ghost use Rattle.fw_judged.specs.Judged.{AreCounted, IsRight, IsStep, IsWatched, Seen, nothing_seen, state_of};
ghost use Rattle.fw_judged.specs.Sides.{OfServer};

use crate::counts::FaultCounts;
use crate::form::Form;
use crate::lines::FaultLines;
use fuse_device::{Device, DeviceEnd};
use fuse_sessions::Transfer;
use fuse_spec::WriteResult;
use std::alloc::{Allocator, Global};
use std::io::Write;

/// A device with a server at the other side, which judges what goes over another, and writes lines as `JudgedDevice` does.
///
/// What is sent is a request, and what is received was written by the server. What the kernel makes of it is not heard: it
/// is taken as accepted, unless no request waits under its number, or its body does not fit.
#[derive(Drop)]
pub struct JudgedServer<D: Device + Drop, W: Write + Drop, A: Allocator + Copy = Global> {
    inner: D,
    lines: FaultLines<W, A>,
}

impl<D: Device + Drop, W: Write + Drop, A: Allocator + Copy> JudgedServer<D, W, A> {
    /// A device that judges what goes over another, from the session's first frame on.
    pub fn new(alloc: A, inner: D, out: W) -> Self
        ensures devices { (result.inner ≡ inner) × (result.lines.out ≡ out) }
        ensures right { IsRight Form.Faults (state_of result.lines) nothing_seen }
    {
        JudgedServer {
            inner,
            lines: FaultLines::new(alloc, Form::Faults, out),
        }
    }

    /// A device that writes what goes over another as a capture, from the session's first frame on: each reply as it is taken,
    /// so that a judge of the capture accuses nobody else. Where memory runs out, a line that is passed over says so, and
    /// nothing more is written; where the writer refuses, neither.
    pub fn capturing(alloc: A, inner: D, out: W) -> Self
        ensures devices { (result.inner ≡ inner) × (result.lines.out ≡ out) }
        ensures right { IsRight Form.Capture (state_of result.lines) nothing_seen }
    {
        JudgedServer {
            inner,
            lines: FaultLines::new(alloc, Form::Capture, out),
        }
    }

    /// From here on requests are not sent in the order of their numbers, as where more than one thread reads. It counts as
    /// a transfer.
    pub fn say_several_readers(&mut self)
        ensures inner { self.new.inner ≡ self.old.inner }
        ensures said { (f : Form) (s : Seen) → IsRight f (state_of self.old.lines) s
            → IsStep f (λ said. said ≡ SeveralReaders) (state_of self.old.lines) (state_of self.new.lines)
            (W.contents self.old.lines.out) (W.contents self.new.lines.out) s }
    {
        self.lines.see(Transfer::SeveralReaders);
    }

    /// How many faults were found, by party, and how many warnings.
    pub fn faults(&self) -> FaultCounts
        ensures { (f : Form) (s : Seen) → IsRight f (state_of self.now.lines) s → AreCounted s.verdicts result }
    {
        self.lines.counts
    }
}

impl<D: Device + Drop, W: Write + Drop, A: Allocator + Copy> Device for JudgedServer<D, W, A> {
    ghost use Rattle.fw_judged.specs.Turns.{nothing_watched, watched_in_turn};

    ghost logs = { λ old new log. D.logs old.inner new.inner log
        × ((f : Form) → IsWatched f OfServer (state_of old.lines) (state_of new.lines) (W.contents old.lines.out)
        (W.contents new.lines.out) log) };

    fn receive(&mut self, room: &mut [u8]) -> Result<usize, DeviceEnd> {
        match self.inner.receive(room) {
            Ok(count) => {
                self.lines.see_written(&room[..count]);
                Ok(count)
            }
            Err(end) => {
                self.lines.see(Transfer::Ended);
                Err(end)
            }
        }
    }

    fn send(&mut self, frame: &[u8]) -> Result<WriteResult, DeviceEnd> {
        match self.inner.send(frame) {
            Ok(sent) => {
                self.lines.see(Transfer::Request(frame));
                Ok(sent)
            }
            Err(end) => {
                self.lines.see(Transfer::Ended);
                Err(end)
            }
        }
    }

    ghost stays = { λ device. (
      D.stays device.inner,
      λ f. nothing_watched f OfServer (state_of device.lines) (W.contents device.lines.out),
    ) };

    ghost goes_on = { λ first mid last h k one two. (
      D.goes_on first.inner mid.inner last.inner h k one.0 two.0,
      λ f. watched_in_turn f OfServer _ _ _ _ _ _ h k (one.1 f) (two.1 f),
    ) };
}
