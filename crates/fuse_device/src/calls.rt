//! Single calls of readers and writers, by what they come to.

ghost use Rattle.std.specs.Prelude.{◌≡◌, ◌≤◌, ℕ, ℤ, pos, List, Result, length, unwrap_or, IfOk};
ghost use Rattle.std.specs.IoError.{raw_os_error};
ghost use Rattle.std.specs.Io.KnownBytes.{ConsumesCount, ReadConsumes, WriteAppends};

use std::io::{Error, Read, Write};

/// The error number of a failed call (errno), or 0 where the system gave none.
fn number_of(error: &Error) -> i32
    ensures { result ≡ unwrap_or (raw_os_error error.now) (pos 0) }
{
    error.raw_os_error().unwrap_or(0)
}

/// A reader of which a clause can name each call. Every reader is one.
pub trait ReadOnce: Read {
    // One read led from the one state to the other and came to this: so many bytes, or this error number.
    ghost gives: { (old new : Self) → Result ℕ ℤ → Type 0 };

    /// Reads into the front of the room by one call, and says how many bytes came.
    ///
    /// # Errors
    ///
    /// The error number of the call.
    fn read_once(&mut self, room: &mut [u8]) -> Result<usize, i32>
        ensures said { gives self.old self.new result }
        ensures within { IfOk result (λ n. n ≤ length room.new) }
        ensures bytes { ReadConsumes (Self.remaining self.old) (Self.remaining self.new) result room.new };
}

impl<R: Read> ReadOnce for R {
    ghost gives = { λ old new result. ConsumesCount (R.remaining old) (R.remaining new) result };

    fn read_once(&mut self, room: &mut [u8]) -> Result<usize, i32> {
        match self.read(room) {
            Ok(count) => Ok(count),
            Err(error) => Err(number_of(&error)),
        }
    }
}

/// A writer of which a clause can name each call. Every writer is one.
pub trait WriteOnce: Write {
    // One write of these bytes led from the one state to the other and came to this: so many of them, or this error
    // number.
    ghost takes: { (old new : Self) → List ℕ → Result ℕ ℤ → Type 0 };

    /// Writes by one call, and says how many bytes were taken.
    ///
    /// # Errors
    ///
    /// The error number of the call.
    fn write_once(&mut self, bytes: &[u8]) -> Result<usize, i32>
        ensures said { takes self.old self.new bytes.now result }
        ensures within { IfOk result (λ n. n ≤ length bytes.now) }
        ensures bytes { WriteAppends (Self.contents self.old) (Self.contents self.new) result bytes.now };
}

impl<W: Write> WriteOnce for W {
    ghost takes = { λ old new bytes result. WriteAppends (W.contents old) (W.contents new) result bytes };

    fn write_once(&mut self, bytes: &[u8]) -> Result<usize, i32> {
        match self.write(bytes) {
            Ok(count) => Ok(count),
            Err(error) => Err(number_of(&error)),
        }
    }
}
