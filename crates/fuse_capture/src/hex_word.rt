//! Bytes as hex digits of either case, two a byte.

ghost use Rattle.std.specs.Prelude.{◌≡◌, ◌↔◌, ◌<◌, ◌%◌, ℕ, List, IsTrue, length};
ghost use Rattle.std.specs.List.{AllPass};
ghost use Rattle.hex.specs.Hex.{is_hex_digit};
ghost use Rattle.fuse_capture.specs.Lines.{IsHexWord};
ghost use Rattle.fuse_capture.specs.Readings.{IsPairs};

/// Whether a byte is a hex digit.
fn is_digit(byte: u8) -> bool
    ensures { result ≡ is_hex_digit byte }
{
    matches!(byte, b'0'..=b'9' | b'a'..=b'f' | b'A'..=b'F')
}

/// Whether a word is made of hex digits. It has no way out before the end, so that many bytes are tested at once.
fn is_digits(word: &[u8]) -> bool
    ensures { IsTrue result ↔ AllPass is_hex_digit word.now }
{
    let mut is_hex = true;
    for byte in word {
        is_hex &= is_digit(*byte);
    }
    is_hex
}

/// Whether a word is one or more pairs of hex digits.
pub(crate) fn is_hex_word(word: &[u8]) -> bool
    ensures { IsTrue result ↔ IsPairs word.now }
{
    !word.is_empty() && word.len() % 2 == 0 && is_digits(word)
}
