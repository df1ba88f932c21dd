//! The lines of a capture, as they are read.

ghost use Rattle.std.specs.Prelude.{◌≡◌, ◌⊎◌, IfErr, IfOk, IfSome};
ghost use Rattle.fuse_text.specs.Lines.{IsTaken};

use fuse_capture::CaptureFault;
use fuse_text::Stop;
use std::alloc::Allocator;
use std::io::BufRead;

/// Reads the next line in place of the one before, without its line feed. Says whether a line feed ended it: after it
/// there is another line, though it may be empty.
///
/// # Errors
///
/// `CannotRead`, or `NoMemory`.
pub(crate) fn next_line<A: Allocator, R: BufRead>(
    input: &mut R,
    line: &mut Vec<u8, A>,
) -> Result<bool, Stop<CaptureFault>>
    ensures taken { IfOk result (λ is_more. IfSome (R.remaining input.old)
        (λ bytes. IsTaken bytes is_more line.new.items (R.remaining input.new))) }
    ensures refused { IfErr result (λ stop. (stop ≡ Stop.CannotRead) ⊎ (stop ≡ Stop.NoMemory)) }
{
    Ok(fuse_text::next_line(input, line)?)
}
