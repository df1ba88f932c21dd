//! Bytes as lower-case hex, two digits a byte.

ghost use Rattle.std.specs.Prelude.{◌≡◌, ◌↔◌, ◌<◌, ◌≤◌, ◌*◌, ℕ, List, All, Err};
ghost use Rattle.std.specs.Prelude.{IfOk, IsTrue, OnErr, OnOk, length, slice_index};
ghost use Rattle.std.specs.Io.KnownBytes.{Appends};
ghost use Rattle.hex.specs.Hex.{IsBytes, encode_lower, lower_digits};
ghost use Rattle.fuse_text.specs.HexTexts.{IsHex, IsHexOrNone, IsLowerDigit, SpellsHex, hex_or_none};
ghost use Rattle.fuse_text.specs.Outputs.{AppendsSome};
ghost use Rattle.fuse_text.specs.declared.hex_text.HexFault.TheVariants.{BadHex, NoMemory};

use crate::output::{OutputRefused, write_text};
use std::alloc::{AllocError, Allocator};
use std::io::Write;
use thiserror::Error;

/// Why a text is not read as bytes.
#[derive(Clone, Copy, Debug, PartialEq, Eq, Error)]
pub enum HexFault {
    #[error("the text is not one or more pairs of lower-case hex digits")]
    BadHex,
    #[error("out of memory")]
    NoMemory,
}

/// Whether a byte is a lower-case hex digit.
fn is_lower_digit(byte: u8) -> bool
    ensures { IsTrue result ↔ IsLowerDigit byte }
{
    matches!(byte, b'0'..=b'9' | b'a'..=b'f')
}

/// Whether a text is made of lower-case hex digits. It has no way out before the end, so that many bytes are tested at
/// once.
fn is_lower_hex(text: &[u8]) -> bool
    ensures { IsTrue result ↔ All IsLowerDigit text.now }
{
    let mut is_hex = true;
    for byte in text {
        is_hex &= is_lower_digit(*byte);
    }
    is_hex
}

/// Whether a text is one or more pairs of lower-case hex digits.
pub fn is_hex(text: &[u8]) -> bool
    ensures { IsTrue result ↔ IsHex text.now }
{
    !text.is_empty() && text.len() % 2 == 0 && is_lower_hex(text)
}

/// The bytes that a text of one or more pairs of lower-case hex digits spells.
///
/// # Errors
///
/// `BadHex` where the text is not that; then `NoMemory`.
pub fn read_hex<A: Allocator>(alloc: A, text: &[u8]) -> Result<Vec<u8, A>, HexFault>
    ensures value { IfOk result (λ bytes. SpellsHex text.now bytes.items) }
    ensures bad { result ≡ Err BadHex → (bytes : List ℕ) → IsBytes bytes → ¬ (SpellsHex text.now bytes) }
    ensures memory { result ≡ Err NoMemory → (bytes : List ℕ) × SpellsHex text.now bytes }
{
    if !is_hex(text) {
        return Err(HexFault::BadHex);
    }
    match hex::decode(alloc, text) {
        Ok(bytes) => Ok(bytes),
        Err(_) => Err(HexFault::NoMemory),
    }
}

/// Whether a text is one or more pairs of lower-case hex digits, or `-` for no bytes.
pub fn is_hex_or_none(text: &[u8]) -> bool
    ensures { IsTrue result ↔ IsHexOrNone text.now }
{
    text == b"-".as_slice() || is_hex(text)
}

/// The value of a digit.
fn digit_value(digit: u8) -> u8
    requires { IsLowerDigit digit }
    ensures value { slice_index lower_digits result ≡ digit }
    ensures fits { result < 16 }
{
    if digit <= b'9' {
        return digit - 48;
    }
    digit - 87
}

/// Reads the byte of each pair of digits.
fn decode(bytes: &mut [u8], text: &[u8])
    requires digits { All IsLowerDigit text.now }
    requires pairs { length text.now ≡ 2 * length bytes.old }
    ensures { text.now ≡ encode_lower bytes.new }
{
    for i in 0..bytes.len() {
        bytes[i] = 16 * digit_value(text[2 * i]) + digit_value(text[2 * i + 1]);
    }
}

/// Reads the bytes of a text, which may be `-` for none, in place of those that stood there.
///
/// # Errors
///
/// Out of memory.
pub fn read_hex_or_none<A: Allocator>(bytes: &mut Vec<u8, A>, text: &[u8]) -> Result<(), AllocError>
    requires { IsHexOrNone text.now }
    ensures { OnOk result (text.now ≡ hex_or_none bytes.new.items) }
{
    bytes.clear();
    if text == b"-".as_slice() {
        return Ok(());
    }
    bytes.resize(text.len() / 2, 0)?;
    decode(bytes.as_mut_slice(), text);
    Ok(())
}

/// The digit of a value.
#[inline(always)]
fn digit_of(value: u8) -> u8
    requires { value < 16 }
    ensures { result ≡ slice_index lower_digits value }
{
    if value < 10 {
        return value + 48;
    }
    value + 87
}

/// Spells each byte as a pair of digits. The library looks each digit up in a table; here it is reckoned, so that the compiler
/// can spell many bytes at once.
fn encode(text: &mut [u8], bytes: &[u8])
    requires { length text.old ≡ 2 * length bytes.now }
    ensures { text.new ≡ encode_lower bytes.now }
{
    for i in 0..bytes.len() {
        text[2 * i] = digit_of(bytes[i] / 16);
        text[2 * i + 1] = digit_of(bytes[i] % 16);
    }
}

/// How many bytes are spelled at once.
const BLOCK: usize = 32;

/// Writes no more bytes than a block as lower-case hex, in one write.
fn write_block<W: Write>(out: &mut W, bytes: &[u8]) -> Result<(), OutputRefused>
    requires { length bytes.now ≤ 32 }
    ensures ok { OnOk result (Appends (W.contents out.old) (W.contents out.new) (encode_lower bytes.now)) }
    ensures refused { OnErr result (AppendsSome (W.contents out.old) (W.contents out.new) (encode_lower bytes.now)) }
{
    let mut digits = [0; 2 * BLOCK];
    let text = &mut digits[..2 * bytes.len()];
    encode(text, bytes);
    write_text(out, text)
}

/// Writes bytes as lower-case hex.
pub fn write_hex<W: Write>(out: &mut W, bytes: &[u8]) -> Result<(), OutputRefused>
    ensures ok { OnOk result (Appends (W.contents out.old) (W.contents out.new) (encode_lower bytes.now)) }
    ensures refused { OnErr result (AppendsSome (W.contents out.old) (W.contents out.new) (encode_lower bytes.now)) }
{
    let mut written = 0;
    while bytes.len() - written > BLOCK {
        write_block(out, &bytes[written..written + BLOCK])?;
        written += BLOCK;
    }
    write_block(out, &bytes[written..])
}

/// Writes bytes as lower-case hex, `-` for none.
///
/// # Errors
///
/// The output refused.
pub fn write_hex_or_none<W: Write>(out: &mut W, bytes: &[u8]) -> Result<(), OutputRefused>
    ensures ok { OnOk result (Appends (W.contents out.old) (W.contents out.new) (hex_or_none bytes.now)) }
    ensures refused { OnErr result (AppendsSome (W.contents out.old) (W.contents out.new) (hex_or_none bytes.now)) }
{
    if bytes.is_empty() {
        return write_text(out, b"-");
    }
    write_hex(out, bytes)
}
