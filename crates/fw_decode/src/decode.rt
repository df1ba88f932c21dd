//! The command.

ghost use Rattle.std.specs.Prelude.{◌∷◌, [], Contains};

use crate::lines::next_line;
use crate::session::{Decoding, taken};
use fuse_capture::{CaptureFault, CaptureLine, read_line, read_transfer};
use fuse_text::Stop;
use std::alloc::Allocator;
use std::io::{BufRead, Write};

/// Whether bytes of a line's frame were cut off.
fn is_cut(line: CaptureLine<'_>) -> bool {
    match line {
        CaptureLine::Request(frame) | CaptureLine::Written(frame, _) => frame.more != 0,
        CaptureLine::SeveralReaders | CaptureLine::SeveralWriters | CaptureLine::Ended => false,
    }
}

/// Prints what a line says, if it says a transfer.
fn decode_line<A: Allocator + Copy, W: Write>(
    decoding: &mut Decoding<A>,
    frame: &mut Vec<u8, A>,
    number: u64,
    line: &[u8],
    out: &mut W,
) -> Result<(), Stop<CaptureFault>> {
    let line = match read_line(line) {
        Ok(Some(line)) => line,
        Ok(None) => return Ok(()),
        Err(fault) => return Err(Stop::BadLine { number, fault }),
    };
    let Ok(transfer) = read_transfer(line, frame) else {
        return Err(Stop::NoMemory);
    };
    decoding.decode(transfer, is_cut(line), out)?;
    taken(out.flush())
}

/// Prints each line in words.
fn decode_lines<A: Allocator + Copy, R: BufRead, W: Write>(
    alloc: A,
    decoding: &mut Decoding<A>,
    input: &mut R,
    out: &mut W,
) -> Result<(), Stop<CaptureFault>> {
    let mut line = Vec::new(alloc);
    let mut frame = Vec::new(alloc);
    for number in 1..u64::MAX {
        if !next_line(input, &mut line)? {
            break;
        }
        decode_line(decoding, &mut frame, number, line.as_slice(), out)?;
    }
    Ok(())
}

/// Prints each line in words, and what they come to.
fn decode_all<A: Allocator + Copy, R: BufRead, W: Write>(
    alloc: A,
    decoding: &mut Decoding<A>,
    input: &mut R,
    out: &mut W,
) -> Result<(), Stop<CaptureFault>> {
    decode_lines(alloc, decoding, input, out)?;
    decoding.write_end(out)?;
    taken(out.flush())
}

/// Decodes a capture from nothing.
fn decode<A: Allocator + Copy, R: BufRead, W: Write>(
    alloc: A,
    input: &mut R,
    out: &mut W,
) -> Result<(), Stop<CaptureFault>> {
    let mut decoding = Decoding::new(alloc);
    decode_all(alloc, &mut decoding, input, out)
}

/// Prints a capture in words, each line as soon as it is read, and then counts. Behind each frame stand the faults that
/// the judge of sessions finds in it.
///
/// Gives the exit status: 0; 1 after `cannot read` with the capture's name, or `line N:` and what is wrong with it, on
/// `faults`; 3 after `no memory`; or 5 where `out` refuses.
pub fn run_decode<A: Allocator + Copy, R: BufRead, W: Write, F: Write>(
    alloc: A,
    name: &str,
    input: &mut R,
    out: &mut W,
    faults: &mut F,
) -> u8
    ensures { Contains (0 ∷ 1 ∷ 3 ∷ 5 ∷ []) result }
{
    match decode(alloc, input, out) {
        Ok(()) => 0,
        Err(stop) => stop.report(name, faults),
    }
}
