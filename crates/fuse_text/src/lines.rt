//! The lines of an input, as they are read.

ghost use Rattle.std.specs.Prelude.{◌≡◌, ◌≢◌, ◌++◌, ◌∷◌, ◌||◌, ◌==◌, [], ℕ, Bool, List, IfOk, IfSome, MatchBool, not};
ghost use Rattle.std.specs.Vec.{vec_len};
ghost use Rattle.fuse_text.specs.Lines.{IsTaken};

use std::alloc::Allocator;
use std::io::{BufRead, ErrorKind};
use thiserror::Error;

/// Why there is no next line.
#[derive(Clone, Copy, Debug, PartialEq, Eq, Error)]
pub enum LineError {
    #[error("the input cannot be read")]
    CannotRead,
    #[error("out of memory")]
    NoMemory,
}

/// Takes the line feed from the end of a line, if it has one.
fn take_feed<A: Allocator>(line: &mut Vec<u8, A>) -> bool
    ensures { MatchBool result (line.old.items ≡ line.new.items ++ 10 ∷ [])
        ((line.new.items ≡ line.old.items) × ((front : List ℕ) → line.old.items ≢ front ++ 10 ∷ [])) }
{
    if !matches!(line.as_slice(), [.., b'\n']) {
        return false;
    }
    let _feed = line.pop();
    true
}

/// Reads the next line in place of the one before, without its line feed. Says whether a line feed ended it: after it
/// there is another line, though it may be empty.
///
/// # Errors
///
/// `CannotRead`, or `NoMemory`.
pub fn next_line<A: Allocator, R: BufRead>(
    input: &mut R,
    line: &mut Vec<u8, A>,
) -> Result<bool, LineError>
    ensures { IfOk result (λ is_more. IfSome (R.remaining input.old)
        (λ bytes. IsTaken bytes is_more line.new.items (R.remaining input.new))) }
{
    line.clear();
    match input.read_until(b'\n', line) {
        Ok(_) => Ok(take_feed(line)),
        Err(error) if error.kind() == ErrorKind::OutOfMemory => Err(LineError::NoMemory),
        Err(_) => Err(LineError::CannotRead),
    }
}

/// Reads the next line as `next_line` does, and says whether there was one: none follows the last line feed.
///
/// # Errors
///
/// `CannotRead`, or `NoMemory`.
pub fn next_line_if_any<A: Allocator, R: BufRead>(
    input: &mut R,
    line: &mut Vec<u8, A>,
) -> Result<bool, LineError>
    ensures { IfOk result (λ is_line. IfSome (R.remaining input.old) (λ bytes. (is_more : Bool)
        × IsTaken bytes is_more line.new.items (R.remaining input.new)
        × (is_line ≡ (is_more || not (vec_len line.new == 0))))) }
{
    let is_more = next_line(input, line)?;
    Ok(is_more || !line.is_empty())
}
