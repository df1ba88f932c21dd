//! Numbers, hex, names and lines of texts.

use fuse_text::{
    is_hex, is_hex_or_none, next_line, print_hex_or_none, print_name, read_hex, read_hex_or_none,
    read_number, write_hex_or_none, write_number,
};
use std::alloc::{AllocError, Global};
use std::test::Fail;

/// A word, and the number that it writes, if it writes one.
static NUMBERS: [(&[u8], Option<u64>); 9] = [
    (b"0", Some(0)),
    (b"70", Some(70)),
    (b"18446744073709551615", Some(18_446_744_073_709_551_615)),
    (b"18446744073709551616", None),
    (b"", None),
    (b"00", None),
    (b"+1", None),
    (b"1a", None),
    (b" 1", None),
];

#[test]
fn numbers_are_decimal(rt: HostRuntime) -> Result<(), Fail> {
    for row in NUMBERS.iter() {
        assert!(rt; read_number(row.0) == row.1);
    }
    Ok(())
}

/// A text, and the bytes of which it is the hex, `-` for none, if it is.
static HEXES: [(&[u8], Option<&[u8]>); 7] = [
    (b"-", Some(b"")),
    (b"00", Some(b"\x00")),
    (b"09afff", Some(b"\x09\xaf\xff")),
    (b"", None),
    (b"0", None),
    (b"0A", None),
    (b"--", None),
];

/// Whether a text is the hex of these bytes, read and written, or of none.
fn spells(alloc: Global, text: &[u8], wanted: Option<&[u8]>) -> Result<bool, AllocError> {
    let Some(wanted) = wanted else {
        return Ok(!is_hex_or_none(text) && read_hex(alloc, text).is_err());
    };
    if !is_hex_or_none(text) || is_hex(text) == wanted.is_empty() {
        return Ok(false);
    }
    let mut bytes = Vec::new(alloc);
    read_hex_or_none(&mut bytes, text)?;
    let mut written = Vec::new(alloc);
    let is_written = write_hex_or_none(&mut written, wanted).is_ok();
    let mut printed = Vec::new(alloc);
    let is_printed = print_hex_or_none(&mut printed, wanted).is_ok();
    Ok(
        bytes.as_slice() == wanted
            && is_written
            && written.as_slice() == text
            && is_printed
            && printed.as_slice() == text,
    )
}

#[test]
fn hex_is_of_lower_case(rt: HostRuntime) -> Result<(), Fail> {
    for row in HEXES.iter() {
        assert!(rt; spells(rt.alloc(), row.0, row.1)?);
    }
    Ok(())
}

/// What is printed of a name and of a number.
fn printed(alloc: Global, name: &[u8], number: u64) -> Vec<u8> {
    let mut out = Vec::new(alloc);
    let _name = print_name(&mut out, name);
    let _number = write_number(&mut out, number);
    out
}

#[test]
fn names_have_a_mark_for_other_bytes(rt: HostRuntime) -> Result<(), Fail> {
    assert!(rt; printed(rt.alloc(), b"a b\xff~!", 120).as_slice() == b"a?b?~!120".as_slice());
    Ok(())
}

/// Whether an input's lines are these, and a line feed ends each but the last.
fn are_lines(alloc: Global, text: &[u8], lines: &[&[u8]]) -> bool {
    let mut input = text;
    let mut line = Vec::new(alloc);
    let mut left = lines.len();
    for wanted in lines.iter() {
        left = left.saturating_sub(1);
        let is_more = next_line(&mut input, &mut line);
        if is_more != Ok(left > 0) || line.as_slice() != *wanted {
            return false;
        }
    }
    true
}

#[test]
fn lines_end_at_line_feeds(rt: HostRuntime) -> Result<(), Fail> {
    assert!(rt; are_lines(rt.alloc(), b"a\n\nb", &[b"a", b"", b"b"]));
    assert!(rt; are_lines(rt.alloc(), b"a\n", &[b"a", b""]));
    assert!(rt; are_lines(rt.alloc(), b"", &[b""]));
    Ok(())
}
