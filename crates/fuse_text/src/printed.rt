//! Names and bytes as they are printed.

ghost use Rattle.std.specs.Prelude.{◌≡◌, ◌≤◌, OnOk, length, map};
ghost use Rattle.std.specs.Io.KnownBytes.{Appends};
ghost use Rattle.hex.specs.Hex.{encode_lower};
ghost use Rattle.fuse_text.specs.HexTexts.{hex_or_none};
ghost use Rattle.fuse_text.specs.Printed.{printed_byte};

use std::io;
use std::io::Write;

/// How a byte of a name is printed.
fn printed(byte: u8) -> u8
    ensures { result ≡ printed_byte byte }
{
    if 33 <= byte && byte <= 126 {
        byte
    } else {
        b'?'
    }
}

/// Writes the bytes of a name, `?` for each outside 33 to 126.
///
/// # Errors
///
/// Where `out` refuses.
pub fn print_name<W: Write>(out: &mut W, name: &[u8]) -> io::Result<()>
    ensures { OnOk result (Appends (W.contents out.old) (W.contents out.new) (map printed_byte name.now)) }
{
    for byte in name {
        out.write_all(&[printed(*byte)])?;
    }
    Ok(())
}

/// How many bytes are spelled at once.
const BLOCK: usize = 32;

/// Writes no more bytes than a block as lower-case hex, in one write.
fn print_block<W: Write>(out: &mut W, bytes: &[u8]) -> io::Result<()>
    requires { length bytes.now ≤ 32 }
    ensures { OnOk result (Appends (W.contents out.old) (W.contents out.new) (encode_lower bytes.now)) }
{
    let mut digits = [0; 2 * BLOCK];
    let text = &mut digits[..2 * bytes.len()];
    let _encoded = hex::encode_to_slice(bytes, text);
    out.write_all(text)
}

/// Writes bytes as lower-case hex, two digits a byte.
///
/// # Errors
///
/// Where `out` refuses.
pub fn print_hex<W: Write>(out: &mut W, bytes: &[u8]) -> io::Result<()>
    ensures { OnOk result (Appends (W.contents out.old) (W.contents out.new) (encode_lower bytes.now)) }
{
    let mut written = 0;
    while bytes.len() - written > BLOCK {
        print_block(out, &bytes[written..written + BLOCK])?;
        written += BLOCK;
    }
    print_block(out, &bytes[written..])
}

/// Writes bytes as lower-case hex, `-` for none.
///
/// # Errors
///
/// Where `out` refuses.
pub fn print_hex_or_none<W: Write>(out: &mut W, bytes: &[u8]) -> io::Result<()>
    ensures { OnOk result (Appends (W.contents out.old) (W.contents out.new) (hex_or_none bytes.now)) }
{
    if bytes.is_empty() {
        return out.write_all(b"-");
    }
    print_hex(out, bytes)
}
