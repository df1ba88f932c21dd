//! The output of a run.

ghost use Rattle.std.specs.Prelude.{◌≤◌, [], IfOk, OnErr, OnOk, decimal, length, take};
ghost use Rattle.std.specs.Io.KnownBytes.{Appends};
ghost use Rattle.fuse_text.specs.Outputs.{AppendsSome};

use crate::short_text::ShortText;
use std::io::{ErrorKind, Write};
use thiserror::Error;

/// An output did not take all that was written.
///
/// The error that it gave is dropped. It takes 96 bytes, which each function between here and the run would move for
/// each line, and a run asks only whether there is one. No clause can say that an output takes what it is given, so one
/// that is always refused would keep each clause with this error: that lines come out is shown by `tests/rows`.
#[derive(Clone, Copy, Debug, PartialEq, Eq, Error)]
#[error("an output did not take all that was written")]
pub struct OutputRefused;

/// Writes bytes, and says how many were taken. What is interrupted is tried again.
#[inline(always)]
fn write_some<W: Write>(out: &mut W, bytes: &[u8]) -> Result<usize, OutputRefused>
    ensures count { IfOk result (λ n. n ≤ length bytes.now) }
    ensures ok { IfOk result (λ n. Appends (W.contents out.old) (W.contents out.new) (take n bytes.now)) }
    ensures refused { OnErr result (Appends (W.contents out.old) (W.contents out.new) []) }
{
    for _try in 0..u64::MAX {
        match out.write(bytes) {
            Ok(count) => return Ok(count),
            Err(error) if error.kind() == ErrorKind::Interrupted => {}
            Err(_) => return Err(OutputRefused),
        }
    }
    Err(OutputRefused)
}

/// Writes a text in as many writes as it takes. A write of no bytes is a refusal.
#[cold]
fn write_rest<W: Write>(out: &mut W, text: &[u8]) -> Result<(), OutputRefused>
    ensures ok { OnOk result (Appends (W.contents out.old) (W.contents out.new) text.now) }
    ensures refused { OnErr result (AppendsSome (W.contents out.old) (W.contents out.new) text.now) }
{
    let mut rest = text;
    while !rest.is_empty() {
        let count = write_some(out, rest)?;
        if count == 0 {
            return Err(OutputRefused);
        }
        rest = &rest[count..];
    }
    Ok(())
}

/// Writes a text, which an output mostly takes at once.
///
/// # Errors
///
/// The output refused: it has a beginning of the text.
#[inline(always)]
pub fn write_text<W: Write>(out: &mut W, text: &[u8]) -> Result<(), OutputRefused>
    ensures ok { OnOk result (Appends (W.contents out.old) (W.contents out.new) text.now) }
    ensures refused { OnErr result (AppendsSome (W.contents out.old) (W.contents out.new) text.now) }
{
    let count = write_some(out, text)?;
    if count == text.len() {
        return Ok(());
    }
    if count == 0 {
        return Err(OutputRefused);
    }
    write_rest(out, &text[count..])
}

/// Writes a number by its decimal digits.
///
/// # Errors
///
/// The output refused: it has the first of its digits, or none.
pub fn write_number<W: Write>(out: &mut W, number: u64) -> Result<(), OutputRefused>
    ensures ok { OnOk result (Appends (W.contents out.old) (W.contents out.new) (decimal number)) }
    ensures refused { OnErr result (AppendsSome (W.contents out.old) (W.contents out.new) (decimal number)) }
{
    let mut text = ShortText::new();
    text.put_number(number);
    write_text(out, text.bytes())
}
