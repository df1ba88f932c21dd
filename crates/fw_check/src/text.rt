//! A text, made word by word.

ghost use Rattle.std.specs.Prelude.{◌≡◌, ◌++◌, OnOk, codes, decimal};
ghost use Rattle.fw_check.specs.FaultWords.{said};
ghost use Rattle.fw_check.specs.Tallies.{counted};

use itoa::Buffer;
use std::alloc::{AllocError, Allocator};

/// Puts a word last.
pub(crate) fn put<A: Allocator>(text: &mut Vec<u8, A>, word: &[u8]) -> Result<(), AllocError>
    ensures { OnOk result (text.new.items ≡ text.old.items ++ word.now) }
{
    text.extend_from_slice(word)
}

/// Puts a number last.
pub(crate) fn put_number<A: Allocator>(text: &mut Vec<u8, A>, number: u64) -> Result<(), AllocError>
    ensures { OnOk result (text.new.items ≡ text.old.items ++ decimal number) }
{
    let mut buffer = Buffer::new();
    put(text, buffer.format(number).as_bytes())
}

/// Puts a word, a space and a number last.
pub(crate) fn put_counted<A: Allocator>(
    text: &mut Vec<u8, A>,
    word: &[u8],
    number: u64,
) -> Result<(), AllocError>
    ensures { OnOk result (text.new.items ≡ text.old.items ++ counted word.now number) }
{
    put(text, word)?;
    put(text, b" ")?;
    put_number(text, number)
}

/// Puts a larger number last.
pub(crate) fn put_wide<A: Allocator>(text: &mut Vec<u8, A>, number: u128) -> Result<(), AllocError>
    ensures { OnOk result (text.new.items ≡ text.old.items ++ decimal number) }
{
    let mut buffer = Buffer::new();
    put(text, buffer.format(number).as_bytes())
}

/// Puts a word, a space and a larger number last.
pub(crate) fn put_counted_wide<A: Allocator>(
    text: &mut Vec<u8, A>,
    word: &[u8],
    number: u128,
) -> Result<(), AllocError>
    ensures { OnOk result (text.new.items ≡ text.old.items ++ counted word.now number) }
{
    put(text, word)?;
    put(text, b" ")?;
    put_wide(text, number)
}

/// Puts a space, a word, a space and a number last.
pub(crate) fn put_said<A: Allocator>(
    text: &mut Vec<u8, A>,
    word: &[u8],
    number: u64,
) -> Result<(), AllocError>
    ensures { OnOk result (text.new.items ≡ text.old.items ++ said word.now number) }
{
    put(text, b" ")?;
    put_counted(text, word, number)
}
