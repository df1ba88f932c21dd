//! A text, made word by word.

ghost use Rattle.std.specs.Prelude.{◌≡◌, ◌++◌, OnOk};

use std::alloc::{AllocError, Allocator};

/// Puts a word last.
pub(crate) fn put<A: Allocator>(text: &mut Vec<u8, A>, word: &[u8]) -> Result<(), AllocError>
    ensures { OnOk result (text.new.items ≡ text.old.items ++ word.now) }
{
    text.extend_from_slice(word)
}
