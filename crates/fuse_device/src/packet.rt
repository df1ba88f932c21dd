//! A device over a reader and a writer of packets: one read is one frame, and one write.

ghost use Rattle.std.specs.Prelude.{◌≡◌, ℕ, ℤ, Ok, Err, Result, false, true, length, take, IfOk, IfErr, OnErr};
ghost use Rattle.std.specs.Io.KnownBytes.{Appends};
ghost use Rattle.fuse_device.specs.Calls.{packet_result};
ghost use Rattle.fuse_device.specs.Streamed.{accepted_bytes};

use crate::calls::{ReadOnce, WriteOnce};
use crate::device::{Device, DeviceEnd};
use crate::errors::result_of;
use crate::reading::read_some;
use fuse_spec::WriteResult;
use std::io::{Read, Write};

/// Writes one frame by one call. A write of less than the frame is a failure.
fn write_packet<W: WriteOnce>(out: &mut W, frame: &[u8]) -> Result<WriteResult, DeviceEnd>
    ensures result { IfOk result
        (λ w. Appends (W.contents out.old) (W.contents out.new) (accepted_bytes frame.now w)) }
    ensures end { OnErr result ((n : ℕ) × Appends (W.contents out.old) (W.contents out.new) (take n frame.now)) }
    ensures said { (r : Result ℕ ℤ) × W.takes out.old out.new frame.now r × (result ≡ packet_result (length frame.now) r) }
{
    match out.write_once(frame) {
        Ok(count) if count == frame.len() => Ok(WriteResult::Accepted),
        Ok(_) => Err(DeviceEnd::Failed),
        Err(number) => result_of(number),
    }
}

/// A device over a reader and a writer of packets, as /dev/fuse and a SOCK_SEQPACKET socket: each read gives one frame,
/// and each write takes one. A read of no byte, ENODEV, EPIPE, ECONNABORTED and ECONNRESET are the other side's end; a
/// read that gives EINTR, EAGAIN or ENOENT is tried again. A device that times out does not try a read again that gave
/// EAGAIN: its reader waits for so long, and no longer.
#[derive(Drop)]
pub struct PacketDevice<R: Read + Drop, W: Write + Drop> {
    reader: R,
    writer: W,
    times_out: bool,
}

impl<R: Read + Drop, W: Write + Drop> PacketDevice<R, W> {
    /// The device of these.
    pub fn new(reader: R, writer: W) -> Self
        ensures parts { (result.reader ≡ reader) × (result.writer ≡ writer) }
        ensures waits { result.times_out ≡ false }
    {
        PacketDevice {
            reader,
            writer,
            times_out: false,
        }
    }

    /// The device of these, which times out where no frame comes in time.
    pub fn giving_up(reader: R, writer: W) -> Self
        ensures parts { (result.reader ≡ reader) × (result.writer ≡ writer) }
        ensures times_out { result.times_out ≡ true }
    {
        PacketDevice {
            reader,
            writer,
            times_out: true,
        }
    }
}

impl<R: ReadOnce + Drop, W: WriteOnce + Drop> Device for PacketDevice<R, W> {
    ghost use Rattle.fuse_device.specs.Streamed.{IsInPackets, no_packets, packets_in_turn};

    ghost logs = { λ old new log. IsInPackets R.remaining W.contents R.gives W.takes old.times_out new.times_out
        old.reader new.reader old.writer new.writer log };

    fn receive(&mut self, room: &mut [u8]) -> Result<usize, DeviceEnd> {
        read_some(&mut self.reader, room, self.times_out)
    }

    fn send(&mut self, frame: &[u8]) -> Result<WriteResult, DeviceEnd> {
        write_packet(&mut self.writer, frame)
    }

    ghost stays = { λ device. no_packets R.remaining W.contents R.gives W.takes device.times_out device.reader
        device.writer };

    ghost goes_on = { λ first mid last. packets_in_turn R.remaining W.contents R.gives W.takes first.times_out
        mid.times_out last.times_out first.reader mid.reader last.reader first.writer mid.writer last.writer };
}
