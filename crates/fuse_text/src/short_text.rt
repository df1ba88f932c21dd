//! A short text, laid out from its end.

ghost use Rattle.std.specs.Prelude.{◌≡◌, ◌+◌, ◌≤◌, ◌++◌, ◌∷◌, [], decimal, length};

use std::marker::Model;

/// The most bytes of a short text.
const ROOM: usize = 128;

/// A text of at most 128 bytes, laid out from its end, since the last digit of a number is the first that is known.
#[derive(Drop)]
pub struct ShortText {
    bytes: [u8; ROOM],
    start: usize,
}

impl Model for ShortText {
    ghost use Rattle.std.specs.Prelude.{◌≤◌, ℕ, List, drop};

    ghost Value = { List ℕ };

    ghost view = { λ t. drop t.start t.bytes };

    ghost invariant = { λ t. t.start ≤ 128 };
}

impl ShortText {
    /// A text of no bytes.
    pub fn new() -> ShortText
        ensures { result ≡ [] }
    {
        ShortText {
            bytes: [0; ROOM],
            start: ROOM,
        }
    }

    /// Puts a word before the text.
    #[inline(always)]
    pub fn put(&mut self, word: &[u8])
        requires { length word.now + length self.old ≤ 128 }
        ensures text { self.new ≡ word.now ++ self.old }
        ensures room { length self.new ≡ length word.now + length self.old }
    {
        let end = self.start;
        self.start = end - word.len();
        self.bytes[self.start..end].copy_from_slice(word);
    }

    /// Puts a byte before the text.
    pub fn put_byte(&mut self, byte: u8)
        requires { 1 + length self.old ≤ 128 }
        ensures text { self.new ≡ byte ∷ self.old }
        ensures room { length self.new ≡ 1 + length self.old }
    {
        self.start -= 1;
        self.bytes[self.start] = byte;
    }

    /// Puts a number before the text.
    pub fn put_number(&mut self, number: u64)
        requires { 20 + length self.old ≤ 128 }
        ensures text { self.new ≡ decimal number ++ self.old }
        ensures room { length self.new ≤ 20 + length self.old }
    {
        self.start = itoa::write_digits(number, &mut self.bytes, self.start);
    }

    /// The bytes of the text.
    pub fn bytes(&self) -> &[u8]
        ensures { result.now ≡ self.now }
    {
        &self.bytes[self.start..]
    }
}
