//! Numbers, names and bytes in words, each after a space.

ghost use Rattle.std.specs.Prelude.{◌≡◌, ◌≤◌, ◌++◌, OnOk, codes, length, map, take};
ghost use Rattle.std.specs.Io.KnownBytes.{Appends};
ghost use Rattle.hex.specs.Hex.{encode_lower};
ghost use Rattle.frame_words.specs.Words.{data_words, name_words, number_words, number_words_if};

use fuse_text::{print_hex, print_hex_or_none, print_name};
use std::io;
use std::io::Write;

/// How many bytes of data are printed.
const MOST: usize = 32;

/// Writes ` WORD NUMBER`.
#[tactic(auto, unfolding(crate::specs::Words::number_words))]
pub(crate) fn write_number<W: Write>(out: &mut W, word: &str, number: u64) -> io::Result<()>
    ensures { OnOk result (Appends (W.contents out.old) (W.contents out.new) (number_words word.now number)) }
{
    write!(out, " {word} {number}")
}

/// Writes the same, where there is a number.
#[tactic(auto, unfolding(crate::specs::Words::number_words_if))]
pub(crate) fn write_number_if<W: Write>(
    out: &mut W,
    word: &str,
    number: Option<u64>,
) -> io::Result<()>
    ensures { OnOk result (Appends (W.contents out.old) (W.contents out.new) (number_words_if word.now number)) }
{
    match number {
        Some(number) => write_number(out, word, number),
        None => out.write_all(b""),
    }
}

/// Writes ` WORD NAME`.
#[tactic(auto, unfolding(crate::specs::Words::name_words))]
pub(crate) fn write_named<W: Write>(out: &mut W, word: &str, name: &[u8]) -> io::Result<()>
    ensures { OnOk result (Appends (W.contents out.old) (W.contents out.new) (name_words word.now name.now)) }
{
    write!(out, " {word} ")?;
    print_name(out, name)
}

/// Writes the first bytes as hex, and `..`.
fn write_beginning<W: Write>(out: &mut W, bytes: &[u8]) -> io::Result<()>
    requires { 32 ≤ length bytes.now }
    ensures { OnOk result (Appends (W.contents out.old) (W.contents out.new)
        (encode_lower (take 32 bytes.now) ++ codes "..")) }
{
    print_hex(out, &bytes[..MOST])?;
    out.write_all(b"..")
}

/// Writes ` data HEX`: the first bytes, and `..` where there are more; `-` where there are none.
#[tactic(auto, unfolding(crate::specs::Words::data_words))]
pub(crate) fn write_data<W: Write>(out: &mut W, bytes: &[u8]) -> io::Result<()>
    ensures { OnOk result (Appends (W.contents out.old) (W.contents out.new) (data_words bytes.now)) }
{
    out.write_all(b" data ")?;
    if bytes.len() <= MOST {
        print_hex_or_none(out, bytes)
    } else {
        write_beginning(out, bytes)
    }
}
