//! The command `vectors`.

ghost use Rattle.std.specs.Prelude.{◌≡◌, ◌∷◌, [], ℕ, List, Contains, OnOk};
ghost use Rattle.std.specs.Io.KnownBytes.{Appends};
ghost use Rattle.fw_vectors.specs.Vectors.{EndsVectors, IsVectorLine, PrintsVectors};

use crate::frame_vector::{Direction, FrameVector, VectorList};
use crate::replies::add_replies;
use crate::requests::add_requests;
use crate::vector_line::{write_reply_line, write_request_line};
use std::alloc::{AllocError, Allocator};
use std::io;
use std::io::Write;

/// Makes the vectors.
fn make<A: Allocator + Copy>(alloc: A) -> Result<VectorList<A>, AllocError> {
    let mut list = VectorList::new(alloc);
    add_requests(&mut list)?;
    add_replies(&mut list)?;
    Ok(list)
}

/// Writes the line of a vector.
fn write_line<A: Allocator + Copy, W: Write>(out: &mut W, vector: &FrameVector<A>) -> io::Result<()>
    ensures { OnOk result ((line : List ℕ) × IsVectorLine line
        × Appends (W.contents out.old) (W.contents out.new) line) }
{
    let frame = vector.frame.as_slice();
    match vector.direction {
        Direction::Request => write_request_line(out, vector.minor, frame),
        Direction::Reply { opcode } => write_reply_line(out, vector.minor, opcode, frame),
    }
}

/// Writes the lines of vectors.
fn write_lines<A: Allocator + Copy, W: Write>(
    out: &mut W,
    vectors: &[FrameVector<A>],
) -> io::Result<()>
    ensures { OnOk result (PrintsVectors (W.contents out.old) (W.contents out.new)) }
{
    for vector in vectors {
        write_line(out, vector)?;
    }
    Ok(())
}

/// Writes the same, and hands all on that was written.
fn print<A: Allocator + Copy, W: Write>(out: &mut W, vectors: &[FrameVector<A>]) -> io::Result<()>
    ensures { OnOk result (PrintsVectors (W.contents out.old) (W.contents out.new)) }
{
    write_lines(out, vectors)?;
    out.flush()
}

/// Prints the vectors, a line each: a JSON object with the direction of a frame, its opcode's number, the minor version
/// at which it is read, its bytes in hex, and what the codec says of them: the fields, or the fault.
///
/// Gives the exit status: 0, 3 after `no memory` on `faults`, or 5 where `out` refuses.
pub fn print_vectors<A: Allocator + Copy, W: Write, F: Write>(
    alloc: A,
    out: &mut W,
    faults: &mut F,
) -> u8
    ensures { EndsVectors W.contents out.old out.new result }
{
    let Ok(list) = make(alloc) else {
        let _ = writeln!(faults, "no memory");
        return 3;
    };
    match print(out, list.as_slice()) {
        Ok(()) => 0,
        Err(_) => 5,
    }
}
