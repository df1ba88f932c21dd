//! What is printed of a line: words as scripts print them, or one JSON object.

use fuse_text::{OutputRefused, write_hex};
use std::io::Write;

/// In which form it is printed.
#[derive(Clone, Copy, Debug, PartialEq, Eq)]
pub enum Form {
    /// Lines of words, as scripts print them.
    Words,
    /// One JSON object a line, whose keys name the same fields.
    Json,
}

/// The printing of what one line came to.
#[derive(Drop)]
pub(crate) struct Printer<'w, W> {
    out: &'w mut W,
    form: Form,
}

impl<'w, W: Write> Printer<'w, W> {
    pub(crate) fn new(out: &'w mut W, form: Form) -> Printer<'w, W> {
        Printer { out, form }
    }

    pub(crate) fn form(&self) -> Form {
        self.form
    }

    /// Writes a text as it is.
    pub(crate) fn put(&mut self, text: &[u8]) -> Result<(), OutputRefused> {
        match self.out.write_all(text) {
            Ok(()) => Ok(()),
            Err(_) => Err(OutputRefused),
        }
    }

    /// Writes a number in decimal.
    pub(crate) fn put_number(&mut self, number: u64) -> Result<(), OutputRefused> {
        match write!(self.out, "{number}") {
            Ok(()) => Ok(()),
            Err(_) => Err(OutputRefused),
        }
    }

    /// Writes bytes as lower-case hex.
    pub(crate) fn put_hex(&mut self, bytes: &[u8]) -> Result<(), OutputRefused> {
        write_hex(self.out, bytes)
    }

    /// Begins with what happened.
    pub(crate) fn start(&mut self, event: &str) -> Result<(), OutputRefused> {
        match self.form {
            Form::Words => self.put(event.as_bytes()),
            Form::Json => {
                self.put(b"{\"event\":\"")?;
                self.put(event.as_bytes())?;
                self.put(b"\"")
            }
        }
    }

    /// Writes what goes before a field's value.
    fn put_key(&mut self, key: &str) -> Result<(), OutputRefused> {
        match self.form {
            Form::Words => self.put(b" "),
            Form::Json => {
                self.put(b",\"")?;
                self.put(key.as_bytes())?;
                self.put(b"\":")
            }
        }
    }

    /// A field that is a number.
    pub(crate) fn number(&mut self, key: &str, number: u64) -> Result<(), OutputRefused> {
        self.put_key(key)?;
        self.put_number(number)
    }

    /// A field that is a word, or a few.
    pub(crate) fn word(&mut self, key: &str, word: &str) -> Result<(), OutputRefused> {
        self.put_key(key)?;
        if self.form == Form::Words {
            return self.put(word.as_bytes());
        }
        self.put(b"\"")?;
        self.put(word.as_bytes())?;
        self.put(b"\"")
    }

    /// A field that is a line of its own among words.
    fn put_line_key(&mut self, key: &str) -> Result<(), OutputRefused> {
        match self.form {
            Form::Words => {
                self.put(b"\n")?;
                self.put(key.as_bytes())?;
                self.put(b" ")
            }
            Form::Json => self.put_key(key),
        }
    }

    /// The bytes of a frame, on a line `frame HEX` among words.
    pub(crate) fn frame(&mut self, bytes: &[u8]) -> Result<(), OutputRefused> {
        self.put_line_key("frame")?;
        if self.form == Form::Words {
            return self.put_hex(bytes);
        }
        self.put(b"\"")?;
        self.put_hex(bytes)?;
        self.put(b"\"")
    }

    /// The number of a copy, on a line `copy N` among words.
    pub(crate) fn copy(&mut self, number: u64) -> Result<(), OutputRefused> {
        self.put_line_key("copy")?;
        self.put_number(number)
    }

    /// That no reply was sent, since the mount was aborted: the word `lost`.
    pub(crate) fn lost(&mut self) -> Result<(), OutputRefused> {
        match self.form {
            Form::Words => self.put(b" lost"),
            Form::Json => self.put(b",\"lost\":true"),
        }
    }

    /// Ends what was printed.
    pub(crate) fn end(&mut self) -> Result<(), OutputRefused> {
        match self.form {
            Form::Words => self.put(b"\n"),
            Form::Json => self.put(b"}\n"),
        }
    }
}
