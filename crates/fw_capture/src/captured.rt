//! A device around a device, which writes what goes over it as a capture.

ghost use Rattle.std.specs.Prelude.{◌≡◌, ◌++◌, [], IfOk, codes, true};
ghost use Rattle.std.specs.Io.Buffered.{writer_buffer, writer_contents};
ghost use Rattle.hex.specs.Hex.{encode_lower};
ghost use Rattle.fw_capture.specs.Captured.{IsCaptured, capture_text, ended_text, result_text};

use crate::writes::write_line;
use fuse_device::{Device, DeviceEnd};
use fuse_spec::WriteResult;
use std::alloc::{Allocator, Global};
use std::io;
use std::io::{BufWriter, Write};

/// A device that writes a line for each transfer over another, as `fuse_capture` reads it. Each line is handed on before
/// the call returns. Where the writer refuses, `capture refused` is said once on `faults`, and nothing more is written.
#[derive(Drop)]
pub struct CapturedDevice<
    D: Device + Drop,
    W: Write + Drop,
    F: Write + Drop,
    A: Allocator = Global,
> {
    inner: D,
    out: BufWriter<W, A>,
    faults: F,
    /// Whether the writer took all so far.
    is_whole: bool,
}

/// What stands behind a frame that was sent.
fn result_text(sent: WriteResult) -> &'static [u8]
    ensures { result.now ≡ result_text sent }
{
    match sent {
        WriteResult::Accepted => b"",
        WriteResult::NoEntry => b" ENOENT",
        WriteResult::Invalid => b" EINVAL",
    }
}

/// The line of a device's end.
fn ended_text(end: DeviceEnd) -> &'static [u8]
    ensures { result.now ≡ ended_text end }
{
    match end {
        DeviceEnd::Ended => b"= ended ENODEV",
        DeviceEnd::TimedOut => b"= ended EAGAIN",
        DeviceEnd::Failed => b"= ended EIO",
    }
}

impl<D: Device + Drop, W: Write + Drop, F: Write + Drop, A: Allocator> CapturedDevice<D, W, F, A> {
    /// A device that writes what goes over another. Where there is no memory, both are dropped.
    ///
    /// # Errors
    ///
    /// Out of memory.
    pub fn new(alloc: A, inner: D, out: W, faults: F) -> io::Result<Self>
        ensures device { IfOk result (λ device. device.inner ≡ inner) }
        ensures whole { IfOk result (λ device. (device.is_whole ≡ true) × (writer_buffer device.out ≡ [])) }
    {
        let out = BufWriter::new(alloc, out)?;
        Ok(CapturedDevice {
            inner,
            out,
            faults,
            is_whole: true,
        })
    }

    /// Writes a line and hands it on, unless the writer refused before.
    fn write(&mut self, start: &[u8], frame: &[u8], end: &[u8])
        ensures inner { self.new.inner ≡ self.old.inner }
        ensures written { IsCaptured (writer_contents W.contents self.old.out) (writer_contents W.contents self.new.out)
            (writer_buffer self.old.out) (writer_buffer self.new.out) self.old.is_whole self.new.is_whole
            (start.now ++ (encode_lower frame.now ++ (end.now ++ codes "\n"))) }
    {
        if !self.is_whole {
            return;
        }
        let written = write_line(&mut self.out, start, frame, end);
        let flushed = self.out.flush();
        if written.is_err() || flushed.is_err() {
            self.is_whole = false;
            let _ = self.faults.write_all(b"capture refused\n");
        }
    }
}

impl<D: Device + Drop, W: Write + Drop, F: Write + Drop, A: Allocator> Device
    for CapturedDevice<D, W, F, A> {
    ghost use Rattle.fw_capture.specs.Captured.{nothing_captured, captured_in_turn};

    ghost logs = { λ old new log. D.logs old.inner new.inner log
        × IsCaptured (writer_contents W.contents old.out) (writer_contents W.contents new.out) (writer_buffer old.out)
        (writer_buffer new.out) old.is_whole new.is_whole (capture_text log) };

    fn receive(&mut self, room: &mut [u8]) -> Result<usize, DeviceEnd> {
        match self.inner.receive(room) {
            Ok(count) => {
                self.write(b"> ", &room[..count], b"");
                Ok(count)
            }
            Err(end) => {
                self.write(ended_text(end), &[], b"");
                Err(end)
            }
        }
    }

    fn send(&mut self, frame: &[u8]) -> Result<WriteResult, DeviceEnd> {
        match self.inner.send(frame) {
            Ok(sent) => {
                self.write(b"< ", frame, result_text(sent));
                Ok(sent)
            }
            Err(end) => {
                self.write(ended_text(end), &[], b"");
                Err(end)
            }
        }
    }

    ghost stays = { λ device. (
      D.stays device.inner,
      nothing_captured (writer_contents W.contents device.out)
          (writer_buffer device.out) device.is_whole,
    ) };

    ghost goes_on = { λ first mid last h k one two. (
      D.goes_on first.inner mid.inner last.inner h k one.0 two.0,
      captured_in_turn _ _ _ _ _ _ _ _ _ h k one.1 two.1,
    ) };
}
