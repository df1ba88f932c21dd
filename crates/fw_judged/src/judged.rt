//! A device around one with a kernel at the other side, which judges what goes over it.

ghost use Rattle.std.specs.Prelude.{◌≡◌};
ghost use Rattle.fw_judged.specs.declared.form.Form.{Form};
ghost use Rattle.fw_judged.specs.Judged.{AreCounted, IsRight, IsWatched, Seen, nothing_seen, state_of};
ghost use Rattle.fw_judged.specs.Sides as sides;
ghost use Rattle.fw_judged.specs.Sides.{OfKernel};

use crate::counts::FaultCounts;
use crate::form::Form;
use crate::lines::FaultLines;
use fuse_device::{Device, DeviceEnd};
use fuse_sessions::{Taken, Transfer};
use fuse_spec::WriteResult;
use std::alloc::{Allocator, Global};
use std::io::Write;

/// A device with a kernel at the other side, which judges what goes over another, and writes a line for each fault and each
/// warning: `frame 214: kernel: forget of more than is counted: node 5 lookups 3`. The transfers are numbered from 1 on.
///
/// Each line is handed on before the call returns. Where memory runs out, `not judged from here on: no memory` is written
/// once; where the writer refuses, nothing. The frames go over it all the same.
#[derive(Drop)]
pub struct JudgedDevice<D: Device + Drop, W: Write + Drop, A: Allocator + Copy = Global> {
    inner: D,
    lines: FaultLines<W, A>,
}

/// What the other side made of a frame.
fn taken_of(sent: WriteResult) -> Taken
    ensures { result ≡ sides.taken_of sent }
{
    match sent {
        WriteResult::Accepted => Taken::Accepted,
        WriteResult::NoEntry => Taken::NoEntry,
        WriteResult::Invalid => Taken::Invalid,
    }
}

impl<D: Device + Drop, W: Write + Drop, A: Allocator + Copy> JudgedDevice<D, W, A> {
    /// A device that judges what goes over another, from the session's first frame on.
    pub fn new(alloc: A, inner: D, out: W) -> Self
        ensures devices { (result.inner ≡ inner) × (result.lines.out ≡ out) }
        ensures right { IsRight Form.Faults (state_of result.lines) nothing_seen }
    {
        JudgedDevice {
            inner,
            lines: FaultLines::new(alloc, Form::Faults, out),
        }
    }

    /// How many faults were found, by party, and how many warnings.
    pub fn faults(&self) -> FaultCounts
        ensures { (f : Form) (s : Seen) → IsRight f (state_of self.now.lines) s → AreCounted s.verdicts result }
    {
        self.lines.counts
    }
}

impl<D: Device + Drop, W: Write + Drop, A: Allocator + Copy> Device for JudgedDevice<D, W, A> {
    ghost use Rattle.fw_judged.specs.Turns.{nothing_watched, watched_in_turn};

    ghost logs = { λ old new log. D.logs old.inner new.inner log
        × ((f : Form) → IsWatched f OfKernel (state_of old.lines) (state_of new.lines) (W.contents old.lines.out)
        (W.contents new.lines.out) log) };

    fn receive(&mut self, room: &mut [u8]) -> Result<usize, DeviceEnd> {
        match self.inner.receive(room) {
            Ok(count) => {
                self.lines.see_request(&room[..count]);
                Ok(count)
            }
            Err(end) => {
                self.lines.see(Transfer::Ended);
                Err(end)
            }
        }
    }

    fn send(&mut self, frame: &[u8]) -> Result<WriteResult, DeviceEnd> {
        match self.inner.send(frame) {
            Ok(sent) => {
                self.lines.see(Transfer::Written(frame, taken_of(sent)));
                Ok(sent)
            }
            Err(end) => {
                self.lines.see(Transfer::Ended);
                Err(end)
            }
        }
    }

    ghost stays = { λ device. (
      D.stays device.inner,
      λ f. nothing_watched f OfKernel (state_of device.lines) (W.contents device.lines.out),
    ) };

    ghost goes_on = { λ first mid last h k one two. (
      D.goes_on first.inner mid.inner last.inner h k one.0 two.0,
      λ f. watched_in_turn f OfKernel _ _ _ _ _ _ h k (one.1 f) (two.1 f),
    ) };
}
