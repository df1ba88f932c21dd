//! The lines of an input, one after another.

ghost use Rattle.std.specs.Prelude.{◌≡◌, ◌∷◌, [], Contains, IfErr};
ghost use Rattle.fuse_text.specs.Stops.{status_of};

use fuse_capture::CaptureFault;
use fuse_text::{Stop, next_line_if_any};
use std::alloc::Allocator;
use std::io::BufRead;

/// Reads the next line in place of the one before, without its line feed. Says whether there was one: none follows
/// the last line feed.
///
/// # Errors
///
/// The input cannot be read, or out of memory.
pub fn next_line<A: Allocator, R: BufRead>(
    input: &mut R,
    line: &mut Vec<u8, A>,
) -> Result<bool, Stop<CaptureFault>>
    ensures { IfErr result (λ stop. Contains (1 ∷ 3 ∷ []) (status_of stop)) }
{
    Ok(next_line_if_any(input, line)?)
}
