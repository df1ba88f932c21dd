//! An output whose lines are comments of a script.

ghost use Rattle.std.specs.Prelude.{◌≡◌, ◌==◌, ◌++◌, ◌<◌, ◌≤◌, [], IfOk, OnOk, codes, false, if◌then◌else◌, length, position, take};
ghost use Rattle.std.specs.Io.KnownBytes.{Appends};
ghost use Rattle.std.specs.Io.{WritesAtMost};
ghost use Rattle.fw_random.specs.Comments.{IsPiece, commented, is_begun_behind, script_line};

use fw_drive::NoLine;
use std::alloc::Allocator;
use std::io;
use std::io::{Error, ErrorKind, Write};

/// A writer that puts `# ` before each line, but for the lines of a script that it is given. It keeps what was written.
#[derive(Drop)]
pub struct Commented<W: Write + Drop, A: Allocator> {
    writer: W,
    /// Whether a line was begun.
    is_begun: bool,
    text: Vec<u8, A>,
}

/// The place of the first line feed.
fn find_feed(text: &[u8]) -> Option<usize>
    ensures { result ≡ position (λ byte. byte == 10) text.now }
{
    text.iter().position(|byte| *byte == b'\n')
}

/// How many bytes there are up to the first line feed, with that, or in all.
fn piece_len(bytes: &[u8]) -> usize
    ensures within { result ≤ length bytes.now }
    ensures some { 0 < length bytes.now → 0 < result }
    ensures piece { IsPiece (take result bytes.now) }
{
    match find_feed(bytes) {
        Some(place) => place + 1,
        None => bytes.len(),
    }
}

impl<W: Write + Drop, A: Allocator> Commented<W, A> {
    /// A writer to which nothing was written.
    pub fn new(alloc: A, writer: W) -> Self
        ensures { (result.writer ≡ writer) × (result.is_begun ≡ false) }
    {
        Commented {
            writer,
            is_begun: false,
            text: Vec::new(alloc),
        }
    }

    /// What was written since `clear`, without what was put before its lines.
    pub(crate) fn text(&self) -> &[u8]
        ensures { result.now ≡ self.now.text.items }
    {
        self.text.as_slice()
    }

    /// What was written is kept no more.
    pub(crate) fn clear(&mut self)
        ensures { (self.new.writer ≡ self.old.writer) × (self.new.is_begun ≡ self.old.is_begun) }
    {
        self.text.clear();
    }

    /// Writes a line as it is, behind a line feed where a line was begun.
    fn write_line(&mut self, line: &[u8]) -> io::Result<()>
        ensures { OnOk result (Appends (W.contents self.old.writer) (W.contents self.new.writer)
            (script_line self.old.is_begun line.now)) }
    {
        if self.is_begun {
            self.writer.write_all(b"\n")?;
            self.is_begun = false;
        }
        self.writer.write_all(line)?;
        self.writer.write_all(b"\n")?;
        self.writer.flush()
    }

    /// Writes a line of the script as it is, alone in its line.
    pub(crate) fn put_line(&mut self, line: &[u8]) -> Result<(), NoLine>
        ensures { OnOk result (Appends (W.contents self.old.writer) (W.contents self.new.writer)
            (script_line self.old.is_begun line.now)) }
    {
        match self.write_line(line) {
            Ok(()) => Ok(()),
            Err(_) => Err(NoLine::OutputRefused),
        }
    }

    /// Writes `# ` where no line is begun.
    fn begin_line(&mut self) -> io::Result<()>
        ensures ok { OnOk result (Appends (W.contents self.old.writer) (W.contents self.new.writer)
            (if self.old.is_begun then [] else codes "# ")) }
        ensures same { (self.new.is_begun ≡ self.old.is_begun) × (self.new.text ≡ self.old.text) }
    {
        if self.is_begun {
            return Ok(());
        }
        self.writer.write_all(b"# ")
    }

    /// Writes the rest of one line, behind `# ` where it begins one.
    fn write_piece(&mut self, piece: &[u8]) -> io::Result<()>
        requires some { 0 < length piece.now }
        requires piece { IsPiece piece.now }
        ensures ok { OnOk result (Appends (W.contents self.old.writer) (W.contents self.new.writer)
            (commented self.old.is_begun piece.now)) }
        ensures begun { OnOk result (self.new.is_begun ≡ is_begun_behind self.old.is_begun piece.now) }
        ensures text { self.new.text ≡ self.old.text }
    {
        self.begin_line()?;
        self.writer.write_all(piece)?;
        self.is_begun = piece[piece.len() - 1] != b'\n';
        Ok(())
    }

    /// Writes a text in comments, which is not kept.
    pub(crate) fn put_comments(&mut self, text: &[u8]) -> Result<(), NoLine>
        ensures ok { OnOk result (Appends (W.contents self.old.writer) (W.contents self.new.writer)
            (commented self.old.is_begun text.now)) }
        ensures begun { OnOk result (self.new.is_begun ≡ is_begun_behind self.old.is_begun text.now) }
    {
        let mut rest = text;
        while !rest.is_empty() {
            let end = piece_len(rest);
            match self.write_piece(&rest[..end]) {
                Ok(()) => rest = &rest[end..],
                Err(_) => return Err(NoLine::OutputRefused),
            }
        }
        Ok(())
    }
}

impl<W: Write + Drop, A: Allocator> Write for Commented<W, A> {
    fn write(&mut self, bytes: &[u8]) -> io::Result<usize>
        ensures bound { WritesAtMost result bytes.now }
        ensures some { IfOk result (λ count. 0 < length bytes.now → 0 < count) }
        // What the other writer gets is what was taken, in comments.
        ensures written { IfOk result (λ count. Appends (W.contents self.old.writer) (W.contents self.new.writer)
            (commented self.old.is_begun (take count bytes.now))) }
        ensures begun { IfOk result (λ count. self.new.is_begun
            ≡ is_begun_behind self.old.is_begun (take count bytes.now)) }
        ensures text { IfOk result (λ count. self.new.text.items ≡ self.old.text.items ++ take count bytes.now) }
    {
        if bytes.is_empty() {
            return Ok(0);
        }
        let end = piece_len(bytes);
        self.write_piece(&bytes[..end])?;
        match self.text.extend_from_slice(&bytes[..end]) {
            Ok(()) => Ok(end),
            Err(_) => Err(Error::from(ErrorKind::OutOfMemory)),
        }
    }

    fn flush(&mut self) -> io::Result<()> {
        self.writer.flush()
    }
}
