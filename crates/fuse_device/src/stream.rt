//! A device over a stream of bytes, which is cut into frames by the length that each states.

ghost use Rattle.std.specs.Prelude.{◌≡◌, ℕ, ◌+◌, ◌<◌, ◌≤◌, ◌++◌, false, true, [], List, length, take, IfErr, IfOk, IsErrOf, OnOk, OnErr};
ghost use Rattle.std.specs.Io.KnownBytes.{Appends, Consumes};
ghost use Rattle.fuse_device.specs.Calls.{HasBrokenOff, HasEnded, TriedUntil, write_result};
ghost use Rattle.fuse_device.specs.Streamed.{IsWholeFrame, ReadsStream};
ghost use Rattle.fuse_device.specs.Transfers.{stopped};

use crate::calls::{ReadOnce, WriteOnce};
use crate::device::{Device, DeviceEnd};
use crate::errors::{end_of, is_written_again};
use crate::reading::read_some;
use byteorder::{ByteOrder, LittleEndian};
use fuse_spec::WriteResult;
use std::io::{Read, Write};

/// The bytes of a frame's length.
const LEN_BYTES: usize = 4;

/// The fewest bytes of a request's frame (`struct fuse_in_header`), and of a reply's (`struct fuse_out_header`).
const REQUEST_HEADER: usize = 40;

const REPLY_HEADER: usize = 16;

/// How a stream is cut into frames.
#[derive(Clone, Copy)]
struct Cut {
    /// The fewest bytes that a frame may state.
    least: usize,
    /// Whether EAGAIN of a read says that no frame came in time.
    times_out: bool,
    ghost has_length: { 4 ≤ least },
}

/// Reads behind the front of the room.
fn read_at<R: ReadOnce>(
    from: &mut R,
    room: &mut [u8],
    at: usize,
    times_out: bool,
) -> Result<usize, DeviceEnd>
    requires { at ≤ length room.old }
    ensures count { IfOk result (λ n. (0 < n) × (at + n ≤ length room.new)) }
    ensures bytes { IfOk result (λ n. (bytes : List ℕ) × (take (at + n) room.new ≡ take at room.old ++ bytes)
        × Consumes (R.remaining from.old) (R.remaining from.new) bytes) }
    ensures end { OnErr result (Consumes (R.remaining from.old) (R.remaining from.new) []) }
    ensures why { IfErr result (λ end. HasEnded R.gives times_out from.new end) }
{
    read_some(from, &mut room[at..], times_out)
}

/// Fills the room. Where the stream ends before its first byte that is given, and else it is a failure.
fn fill<R: ReadOnce>(from: &mut R, room: &mut [u8], times_out: bool) -> Result<(), DeviceEnd>
    ensures ok { OnOk result (Consumes (R.remaining from.old) (R.remaining from.new) room.new) }
    ensures ended { IsErrOf result DeviceEnd.Ended → Consumes (R.remaining from.old) (R.remaining from.new) [] }
    ensures timed_out { IsErrOf result DeviceEnd.TimedOut → Consumes (R.remaining from.old) (R.remaining from.new) [] }
    ensures failed { OnErr result ((bytes : List ℕ) × (length bytes < length room.old)
        × Consumes (R.remaining from.old) (R.remaining from.new) bytes) }
    ensures why { IfErr result (λ end. HasEnded R.gives times_out from.new end) }
{
    let mut done = 0;
    while done < room.len() {
        match read_at(from, room, done, times_out) {
            Ok(count) => done += count,
            Err(end) if done == 0 => return Err(end),
            Err(_) => return Err(DeviceEnd::Failed),
        }
    }
    Ok(())
}

/// Reads one frame into the front of the room, and says how many bytes it has.
fn read_frame<R: ReadOnce>(from: &mut R, room: &mut [u8], cut: Cut) -> Result<usize, DeviceEnd>
    ensures count { IfOk result (λ n. n ≤ length room.new) }
    ensures frame { IfOk result (λ n. IsWholeFrame cut.least (take n room.new)
        × Consumes (R.remaining from.old) (R.remaining from.new) (take n room.new)) }
    ensures end { IfErr result (λ end. (bytes : List ℕ) × ReadsStream cut.least (stopped end) bytes
        × Consumes (R.remaining from.old) (R.remaining from.new) bytes) }
    ensures why { IfErr result (λ end. HasEnded R.gives cut.times_out from.new end) }
{
    if room.len() < cut.least {
        return Err(DeviceEnd::Failed);
    }
    fill(from, &mut room[..LEN_BYTES], cut.times_out)?;
    let len = LittleEndian::read_u32(room) as usize;
    if len < cut.least || room.len() < len {
        return Err(DeviceEnd::Failed);
    }
    match fill(from, &mut room[LEN_BYTES..len], cut.times_out) {
        Ok(()) => Ok(len),
        Err(_) => Err(DeviceEnd::Failed),
    }
}

/// Writes bytes, and says how many were taken. A write of none is a failure.
fn write_some<W: WriteOnce>(out: &mut W, bytes: &[u8]) -> Result<usize, DeviceEnd>
    ensures count { IfOk result (λ n. (0 < n) × (n ≤ length bytes.now)) }
    ensures ok { IfOk result (λ n. Appends (W.contents out.old) (W.contents out.new) (take n bytes.now)) }
    ensures end { OnErr result (Appends (W.contents out.old) (W.contents out.new) []) }
    ensures tried { TriedUntil (λ old new r. W.takes old new bytes.now r) write_result out.old result out.new }
    ensures why { IfErr result (λ end. HasBrokenOff W.takes out.new end) }
{
    for _try in 0..u64::MAX {
        match out.write_once(bytes) {
            Ok(0) => return Err(DeviceEnd::Failed),
            Ok(count) => return Ok(count),
            Err(number) => {
                if !is_written_again(number) {
                    return Err(end_of(number));
                }
            }
        }
    }
    Err(DeviceEnd::Failed)
}

/// Writes a whole frame. Where it reaches the end, a beginning of it may be written.
fn write_frame<W: WriteOnce>(out: &mut W, frame: &[u8]) -> Result<(), DeviceEnd>
    ensures ok { OnOk result (Appends (W.contents out.old) (W.contents out.new) frame.now) }
    ensures end { OnErr result ((n : ℕ) × Appends (W.contents out.old) (W.contents out.new) (take n frame.now)) }
    ensures why { IfErr result (λ end. HasBrokenOff W.takes out.new end) }
{
    let mut rest = frame;
    while !rest.is_empty() {
        let count = write_some(out, rest)?;
        rest = &rest[count..];
    }
    Ok(())
}

/// A device over a reader and a writer of a stream, as a SOCK_STREAM socket: frames follow one another, each of as many
/// bytes as its first four state. A length under that of a frame's header or over the room is a failure, and so is the
/// end in the middle of a frame; between frames it is the other side's end. A stream refuses no frame.
#[derive(Drop)]
pub struct StreamDevice<R: Read + Drop, W: Write + Drop> {
    reader: R,
    writer: W,
    cut: Cut,
}

impl<R: Read + Drop, W: Write + Drop> StreamDevice<R, W> {
    /// The device of these, over which requests are received: a frame has 40 bytes or more.
    pub fn new(reader: R, writer: W) -> Self
        ensures parts { (result.reader ≡ reader) × (result.writer ≡ writer) }
        ensures cut { (result.cut.least ≡ 40) × (result.cut.times_out ≡ false) }
    {
        StreamDevice {
            reader,
            writer,
            cut: Cut {
                least: REQUEST_HEADER,
                times_out: false,
            },
        }
    }

    /// The device of these, over which replies are received: a frame has 16 bytes or more. It times out where no frame
    /// comes in the time for which the reader waits, which it shows by EAGAIN.
    pub fn of_replies(reader: R, writer: W) -> Self
        ensures parts { (result.reader ≡ reader) × (result.writer ≡ writer) }
        ensures cut { (result.cut.least ≡ 16) × (result.cut.times_out ≡ true) }
    {
        StreamDevice {
            reader,
            writer,
            cut: Cut {
                least: REPLY_HEADER,
                times_out: true,
            },
        }
    }
}

impl<R: ReadOnce + Drop, W: WriteOnce + Drop> Device for StreamDevice<R, W> {
    ghost use Rattle.fuse_device.specs.Streamed.{IsCutInto, nothing_cut, cut_in_turn};

    ghost logs = { λ old new log. IsCutInto R.remaining W.contents R.gives W.takes old.cut.least new.cut.least
        old.cut.times_out new.cut.times_out old.reader new.reader old.writer new.writer log };

    fn receive(&mut self, room: &mut [u8]) -> Result<usize, DeviceEnd> {
        read_frame(&mut self.reader, room, self.cut)
    }

    fn send(&mut self, frame: &[u8]) -> Result<WriteResult, DeviceEnd> {
        match write_frame(&mut self.writer, frame) {
            Ok(()) => Ok(WriteResult::Accepted),
            Err(end) => Err(end),
        }
    }

    ghost stays = { λ device. nothing_cut R.remaining W.contents R.gives W.takes device.cut.least device.cut.times_out
        device.reader device.writer };

    ghost goes_on = { λ first mid last. cut_in_turn R.remaining W.contents R.gives W.takes first.cut.least mid.cut.least
        last.cut.least first.cut.times_out mid.cut.times_out last.cut.times_out first.reader mid.reader last.reader
        first.writer mid.writer last.writer };
}
