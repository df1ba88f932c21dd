//! A writer that says that it was refused.

ghost use Rattle.std.specs.Prelude.{◌≡◌};
ghost use Rattle.std.specs.Io.KnownBytes.{WriteAppends};
ghost use Rattle.std.specs.Io.{WritesAtMost};

use std::io::{ErrorKind, Result, Write};

/// The writer of a capture's file. `capture refused` is said once, where the file refuses what is written.
#[derive(Drop)]
pub struct SayingWriter<W: Write + Drop, F: Write + Drop> {
    writer: W,
    faults: F,
    has_said: bool,
}

impl<W: Write + Drop, F: Write + Drop> SayingWriter<W, F> {
    /// A writer that says so on `faults`.
    pub fn new(writer: W, faults: F) -> Self
        ensures { (result.writer ≡ writer) × (result.faults ≡ faults) }
    {
        SayingWriter {
            writer,
            faults,
            has_said: false,
        }
    }

    /// Says so, if that is the first refusal.
    fn say(&mut self)
        ensures { self.new.writer ≡ self.old.writer }
    {
        if !self.has_said {
            self.has_said = true;
            let _ = self.faults.write_all(b"capture refused\n");
        }
    }
}

impl<W: Write + Drop, F: Write + Drop> Write for SayingWriter<W, F> {
    ghost contents = { λ w. W.contents w.writer };

    fn write(&mut self, bytes: &[u8]) -> Result<usize>
        ensures bound { WritesAtMost result bytes.now }
        ensures bytes { WriteAppends (W.contents self.old.writer) (W.contents self.new.writer) result bytes.now }
    {
        let taken = self.writer.write(bytes);
        if let Err(error) = &taken {
            if error.kind() != ErrorKind::Interrupted {
                self.say();
            }
        }
        taken
    }

    fn flush(&mut self) -> Result<()> {
        self.writer.flush()
    }
}
