//! A chunk of text, collected to be written at once.

ghost use Rattle.std.specs.Prelude.{◌≡◌, ◌+◌, ◌≤◌, ◌++◌, [], length};

use std::marker::Model;

/// The most bytes of a chunk.
const ROOM: usize = 512;

/// A text of at most 512 bytes that grows at its end. A write of its own for each short text costs more than to copy it.
#[derive(Drop)]
pub(crate) struct Chunk {
    bytes: [u8; ROOM],
    len: usize,
}

impl Model for Chunk {
    ghost use Rattle.std.specs.Prelude.{◌≤◌, ℕ, List, take};

    ghost Value = { List ℕ };

    ghost view = { λ c. take c.len c.bytes };

    ghost invariant = { λ c. c.len ≤ 512 };
}

impl Chunk {
    /// A chunk of no bytes.
    #[inline(always)]
    pub(crate) fn new() -> Chunk
        ensures { result ≡ [] }
    {
        Chunk {
            bytes: [0; ROOM],
            len: 0,
        }
    }

    /// How many bytes there is room for.
    #[inline(always)]
    pub(crate) fn room(&self) -> usize
        ensures { result + length self.now ≡ 512 }
    {
        ROOM - self.len
    }

    /// Puts a text last.
    #[inline(always)]
    pub(crate) fn append(&mut self, text: &[u8])
        requires { length text.now + length self.old ≤ 512 }
        ensures { self.new ≡ self.old ++ text.now }
    {
        let start = self.len;
        self.len = start + text.len();
        self.bytes[start..self.len].copy_from_slice(text);
    }

    /// The bytes of the chunk.
    #[inline(always)]
    pub(crate) fn bytes(&self) -> &[u8]
        ensures { result.now ≡ self.now }
    {
        &self.bytes[..self.len]
    }

    /// Takes all bytes out.
    #[inline(always)]
    pub(crate) fn clear(&mut self)
        ensures { self.new ≡ [] }
    {
        self.len = 0;
    }
}
