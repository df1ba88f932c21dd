//! A link over readers and writers.

ghost use Rattle.std.specs.Prelude.{◌≡◌, ℕ, ◌<◌, ◌≤◌, [], length, take, IfOk, OnOk, OnErr};
ghost use Rattle.std.specs.Io.KnownBytes.{Appends, Consumes};
ghost use Rattle.fw_link.specs.Traffic.{IsCounted, no_traffic, other_side, sent};

use crate::link::{FailureCount, Link, LinkFault};
use crate::side::Side;
use std::io::{Read, Write};

/// Writes at least one byte, and says how many. An error and a write of no byte are failures.
fn write_some<W: Write>(out: &mut W, bytes: &[u8]) -> Result<usize, LinkFault>
    ensures count { IfOk result (λ n. (0 < n) × (n ≤ length bytes.now)) }
    ensures ok { IfOk result (λ n. Appends (W.contents out.old) (W.contents out.new) (take n bytes.now)) }
    ensures err { OnErr result (Appends (W.contents out.old) (W.contents out.new) []) }
{
    match out.write(bytes) {
        Ok(0) | Err(_) => Err(LinkFault),
        Ok(count) => Ok(count),
    }
}

/// Writes all the bytes. Where it fails, a beginning of them may be written.
fn write_whole<W: Write>(out: &mut W, bytes: &[u8]) -> Result<(), LinkFault>
    ensures ok { OnOk result (Appends (W.contents out.old) (W.contents out.new) bytes.now) }
    ensures err { OnErr result ((n : ℕ) × Appends (W.contents out.old) (W.contents out.new) (take n bytes.now)) }
{
    let mut rest = bytes;
    while !rest.is_empty() {
        let count = write_some(out, rest)?;
        rest = &rest[count..];
    }
    Ok(())
}

/// Reads at least one byte, and says how many. An error and a read of no byte are failures.
fn read_some<R: Read>(from: &mut R, room: &mut [u8]) -> Result<usize, LinkFault>
    ensures count { IfOk result (λ n. (0 < n) × (n ≤ length room.new)) }
    ensures bytes { IfOk result (λ n. Consumes (R.remaining from.old) (R.remaining from.new) (take n room.new)) }
    ensures err { OnErr result (Consumes (R.remaining from.old) (R.remaining from.new) []) }
{
    match from.read(room) {
        Ok(0) | Err(_) => Err(LinkFault),
        Ok(count) => Ok(count),
    }
}

/// Puts bytes into a writer, and counts a failure.
fn put_into<W: Write>(out: &mut W, failed: &mut FailureCount, bytes: &[u8]) -> Result<(), LinkFault>
    ensures ok { OnOk result (Appends (W.contents out.old) (W.contents out.new) bytes.now) }
    ensures err { OnErr result ((n : ℕ) × Appends (W.contents out.old) (W.contents out.new) (take n bytes.now)) }
    ensures counted { IsCounted result failed.old.count failed.new.count }
{
    let done = write_whole(out, bytes);
    if done.is_err() {
        failed.rise();
    }
    done
}

/// Gets bytes from a reader, and counts a failure.
fn get_out_of<R: Read>(
    from: &mut R,
    failed: &mut FailureCount,
    room: &mut [u8],
) -> Result<usize, LinkFault>
    ensures count { IfOk result (λ n. (0 < n) × (n ≤ length room.new)) }
    ensures bytes { IfOk result (λ n. Consumes (R.remaining from.old) (R.remaining from.new) (take n room.new)) }
    ensures err { OnErr result (Consumes (R.remaining from.old) (R.remaining from.new) []) }
    ensures counted { IsCounted result failed.old.count failed.new.count }
{
    let count = read_some(from, room);
    if count.is_err() {
        failed.rise();
    }
    count
}

/// A link over a reader and a writer for each side. What a side writes is to come out at the other side's reader; that
/// it does is up to these. What is carried is said where they know it: a reader of a slice knows its bytes, a socket
/// none.
#[derive(Drop)]
pub struct StreamLink<R: Read + Drop, W: Write + Drop> {
    kernel_reader: R,
    kernel_writer: W,
    server_reader: R,
    server_writer: W,
    failed: FailureCount,
}

impl<R: Read + Drop, W: Write + Drop> StreamLink<R, W> {
    /// A link over these, on which nothing was put.
    pub fn new(kernel_reader: R, kernel_writer: W, server_reader: R, server_writer: W) -> Self
        ensures failed { result.failed.count ≡ 0 }
        ensures readers { (result.kernel_reader ≡ kernel_reader) × (result.server_reader ≡ server_reader) }
        ensures writers { (result.kernel_writer ≡ kernel_writer) × (result.server_writer ≡ server_writer) }
    {
        StreamLink {
            kernel_reader,
            kernel_writer,
            server_reader,
            server_writer,
            failed: FailureCount::new(),
        }
    }
}

impl<R: Read + Drop, W: Write + Drop> Link for StreamLink<R, W> {
    ghost use Rattle.fw_link.specs.Streamed.{StreamedEnvelopes, nothing_streamed, streamed_in_turn};

    ghost carries = { StreamedEnvelopes R.remaining W.contents };

    ghost failed = { λ link. link.failed.count };

    fn put(&mut self, side: Side, bytes: &[u8]) -> Result<(), LinkFault> {
        match side {
            Side::Kernel => put_into(&mut self.kernel_writer, &mut self.failed, bytes),
            Side::Server => put_into(&mut self.server_writer, &mut self.failed, bytes),
        }
    }

    fn get(&mut self, side: Side, room: &mut [u8]) -> Result<usize, LinkFault> {
        match side {
            Side::Kernel => get_out_of(&mut self.kernel_reader, &mut self.failed, room),
            Side::Server => get_out_of(&mut self.server_reader, &mut self.failed, room),
        }
    }

    fn failures(&self) -> u64 {
        self.failed.count
    }

    ghost stays = { nothing_streamed R.remaining W.contents };

    ghost goes_on = { streamed_in_turn R.remaining W.contents };
}
