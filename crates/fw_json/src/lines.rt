//! An output of lines that writes them as objects.

ghost use Rattle.std.specs.Prelude.{◌≡◌, ◌<◌, ◌++◌, ◌==◌, [], ℕ, IfOk, List, OnErr, OnOk, Option, false, is_err, length, position, take, true};
ghost use Rattle.std.specs.Io.KnownBytes.{Appends, Keeps};
ghost use Rattle.std.specs.Io.{WritesAtMost};
ghost use Rattle.fuse_text.specs.Outputs.{AppendsSome};
ghost use Rattle.fw_json.specs.Objects.{json_line};
ghost use Rattle.fw_json.specs.Texts.{HasWritten, first_line};

use crate::object::make_object;
use crate::text::put;
use fuse_text::write_text;
use std::alloc::Allocator;
use std::io::{Error, ErrorKind, Result, Write};

/// The place of the first line feed.
fn find_feed(text: &[u8]) -> Option<usize>
    ensures { result ≡ position (λ byte. byte == 10) text.now }
{
    text.iter().position(|byte| *byte == b'\n')
}

/// A writer that takes text, and writes each line that a line feed ends as a JSON object to another writer: a line each.
/// What stands behind the last line feed waits. Where the other writer refuses or memory is out, it takes no more.
#[derive(Drop)]
pub struct JsonLines<W: Write + Drop, A: Allocator> {
    writer: W,
    /// Whether the next object is the first.
    is_first: bool,
    /// What stands behind the last line feed.
    line: Vec<u8, A>,
    /// Where an object is made.
    object: Vec<u8, A>,
    /// Whether no more is taken.
    is_refused: bool,
}

impl<W: Write + Drop, A: Allocator + Copy> JsonLines<W, A> {
    /// A writer of objects, to which nothing was written.
    pub fn new(alloc: A, writer: W) -> Self
        ensures written { HasWritten (W.contents writer) [] (W.contents result.writer) result.line.items result.is_first }
        ensures writer { result.writer ≡ writer }
        ensures takes { result.is_refused ≡ false }
    {
        JsonLines {
            writer,
            is_first: true,
            line: Vec::new(alloc),
            object: Vec::new(alloc),
            is_refused: false,
        }
    }

    /// Keeps what stands behind the last line feed.
    fn keep(&mut self, bytes: &[u8]) -> Result<()>
        ensures ok { OnOk result (self.new.line.items ≡ self.old.line.items ++ bytes.now) }
        ensures same { (self.new.writer ≡ self.old.writer) × (self.new.is_first ≡ self.old.is_first) }
    {
        match put(&mut self.line, bytes) {
            Ok(()) => Ok(()),
            Err(_) => Err(Error::from(ErrorKind::OutOfMemory)),
        }
    }

    /// Writes the object of the line that is kept.
    fn write_object(&mut self) -> Result<()>
        ensures ok { OnOk result (Appends (W.contents self.old.writer) (W.contents self.new.writer)
            (json_line self.old.is_first self.old.line.items)) }
        ensures refused { OnErr result (AppendsSome (W.contents self.old.writer) (W.contents self.new.writer)
            (json_line self.old.is_first self.old.line.items)) }
    {
        if make_object(&mut self.object, self.is_first, self.line.as_slice()).is_err() {
            return Err(Error::from(ErrorKind::OutOfMemory));
        }
        match write_text(&mut self.writer, self.object.as_slice()) {
            Ok(()) => Ok(()),
            Err(_) => Err(Error::from(ErrorKind::WriteZero)),
        }
    }

    /// Ends the line that is kept by these bytes.
    fn end_line(&mut self, bytes: &[u8]) -> Result<()>
        ensures ok { OnOk result (Appends (W.contents self.old.writer) (W.contents self.new.writer)
            (json_line self.old.is_first (self.old.line.items ++ bytes.now))) }
        ensures kept { OnOk result ((self.new.line.items ≡ []) × (self.new.is_first ≡ false)) }
        ensures refused { OnErr result (AppendsSome (W.contents self.old.writer) (W.contents self.new.writer)
            (json_line self.old.is_first (self.old.line.items ++ bytes.now))) }
    {
        self.keep(bytes)?;
        self.write_object()?;
        self.line.clear();
        self.is_first = false;
        Ok(())
    }

    /// Takes bytes up to the first line feed, or all where there is none. Says how many.
    fn take(&mut self, bytes: &[u8]) -> Result<usize>
        ensures bound { WritesAtMost result bytes.now }
        ensures some { IfOk result (λ count. 0 < length bytes.now → 0 < count) }
        ensures written { (start : Option (List ℕ)) (text : List ℕ) →
            HasWritten start text (W.contents self.old.writer) self.old.line.items self.old.is_first →
            IfOk result (λ count. HasWritten start (text ++ take count bytes.now) (W.contents self.new.writer)
            self.new.line.items self.new.is_first) }
        ensures refused { OnErr result (AppendsSome (W.contents self.old.writer) (W.contents self.new.writer)
            (json_line self.old.is_first (self.old.line.items ++ first_line bytes.now))) }
    {
        match find_feed(bytes) {
            Some(end) => {
                self.end_line(&bytes[..end])?;
                Ok(end + 1)
            }
            None => {
                self.keep(bytes)?;
                Ok(bytes.len())
            }
        }
    }
}

impl<W: Write + Drop, A: Allocator + Copy> Write for JsonLines<W, A> {
    fn write(&mut self, bytes: &[u8]) -> Result<usize>
        ensures bound { WritesAtMost result bytes.now }
        ensures some { IfOk result (λ count. 0 < length bytes.now → 0 < count) }
        // What the other writer gets are the objects of the whole lines of all that was taken.
        ensures written { (start : Option (List ℕ)) (text : List ℕ) →
            HasWritten start text (W.contents self.old.writer) self.old.line.items self.old.is_first →
            IfOk result (λ count. HasWritten start (text ++ take count bytes.now) (W.contents self.new.writer)
            self.new.line.items self.new.is_first) }
        // Where it refuses, it has a beginning of the next object.
        ensures refused { OnErr result (AppendsSome (W.contents self.old.writer) (W.contents self.new.writer)
            (json_line self.old.is_first (self.old.line.items ++ first_line bytes.now))) }
        // Then no more is taken.
        ensures stays { self.new.is_refused ≡ is_err result }
        ensures over { self.old.is_refused ≡ true → (is_err result ≡ true) × (self.new.writer ≡ self.old.writer) }
    {
        if self.is_refused {
            return Err(Error::from(ErrorKind::WriteZero));
        }
        let taken = self.take(bytes);
        self.is_refused = taken.is_err();
        taken
    }

    fn flush(&mut self) -> Result<()>
        ensures bytes { Keeps (W.contents self.old.writer) (W.contents self.new.writer) }
        ensures same { (self.new.line ≡ self.old.line) × (self.new.is_first ≡ self.old.is_first)
            × (self.new.is_refused ≡ self.old.is_refused) }
    {
        self.writer.flush()
    }
}
