//! Texts between quotes.

ghost use Rattle.std.specs.Prelude.{◌≡◌, ◌++◌, ◌<◌, OnOk};
ghost use Rattle.fw_json.specs.Strings.{hex_digit, is_plain, string, string_byte};

use crate::text::put;
use std::alloc::{AllocError, Allocator};

/// A lower-case hex digit.
fn digit_of(value: u8) -> u8
    requires { value < 16 }
    ensures { result ≡ hex_digit value }
{
    if value < 10 {
        b'0' + value
    } else {
        b'a' + (value - 10)
    }
}

/// Whether a byte stands for itself.
fn stands_for_itself(byte: u8) -> bool
    ensures { result ≡ is_plain byte }
{
    byte >= 32 && byte <= 126 && !(byte == b'"') && !(byte == b'\\')
}

/// Puts a byte last, or its number as `\u00XX`.
fn put_byte<A: Allocator>(text: &mut Vec<u8, A>, byte: u8) -> Result<(), AllocError>
    ensures { OnOk result (text.new.items ≡ text.old.items ++ string_byte byte) }
{
    if stands_for_itself(byte) {
        return put(text, &[byte]);
    }
    put(text, b"\\u00")?;
    put(text, &[digit_of(byte / 16), digit_of(byte % 16)])
}

/// Puts a text between quotes last.
pub(crate) fn put_string<A: Allocator>(text: &mut Vec<u8, A>, said: &[u8]) -> Result<(), AllocError>
    ensures { OnOk result (text.new.items ≡ text.old.items ++ string said.now) }
{
    put(text, b"\"")?;
    for byte in said {
        put_byte(text, *byte)?;
    }
    put(text, b"\"")
}
