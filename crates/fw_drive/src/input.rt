//! An input as a source of lines.

ghost use Rattle.std.specs.Prelude.{◌≡◌, false};

use crate::source::{LineSource, NoLine, Standing};
use crate::view::KernelView;
use fuse_text::LineError;
use std::alloc::Allocator;
use std::io::{BufRead, Write};

/// The lines of an input, read as they are asked for: what stands before, between and after its line feeds.
#[derive(Drop)]
pub struct InputLines<R: BufRead + Drop> {
    reader: R,
    is_read: bool,
}

impl<R: BufRead + Drop> InputLines<R> {
    /// The lines of what is still to be read.
    pub fn new(reader: R) -> Self
        ensures reads { result.reader ≡ reader }
        ensures unread { result.is_read ≡ false }
    {
        InputLines {
            reader,
            is_read: false,
        }
    }
}

impl<R: BufRead + Drop, O: Write> LineSource<O> for InputLines<R> {
    ghost use Rattle.std.specs.Prelude.{◌≡◌, true};
    ghost use Rattle.fw_drive.specs.Inputs.{AreTaken, lines_to_come, none_taken, taken_in_turn};

    // Where the bytes are known, the lines are the first of theirs.
    ghost gives = { λ old new lines. AreTaken (lines_to_come old.is_read (R.remaining old.reader))
        (lines_to_come new.is_read (R.remaining new.reader)) lines };

    ghost is_over = { λ source. source.is_read ≡ true };

    fn next_line<A: Allocator, V: KernelView>(
        &mut self,
        _standing: Standing,
        _kernel: &V,
        _out: &mut O,
        line: &mut Vec<u8, A>,
    ) -> Result<bool, NoLine> {
        if self.is_read {
            return Ok(false);
        }
        match fuse_text::next_line(&mut self.reader, line) {
            Ok(is_more) => {
                self.is_read = !is_more;
                Ok(true)
            }
            Err(LineError::NoMemory) => Err(NoLine::NoMemory),
            Err(LineError::CannotRead) => Err(NoLine::CannotRead),
        }
    }

    ghost stays = { λ source. none_taken (lines_to_come source.is_read (R.remaining source.reader)) };

    ghost goes_on = { λ first mid last. taken_in_turn (lines_to_come first.is_read (R.remaining first.reader))
        (lines_to_come mid.is_read (R.remaining mid.reader)) (lines_to_come last.is_read (R.remaining last.reader)) };
}
