//! A line, made word by word.

ghost use Rattle.std.specs.Prelude.{◌≡◌, ◌++◌, ◌∷◌, OnOk, flat_map, map};

use std::alloc::{AllocError, Allocator};

/// Puts a word behind a space.
pub(crate) fn put_word<A: Allocator>(line: &mut Vec<u8, A>, word: &[u8]) -> Result<(), AllocError>
    ensures { OnOk result (line.new.items ≡ line.old.items ++ 32 ∷ word.now) }
{
    line.push(b' ')?;
    line.extend_from_slice(word)
}

/// Puts words, each behind a space.
pub(crate) fn put_words<A: Allocator>(
    line: &mut Vec<u8, A>,
    words: &[&[u8]],
) -> Result<(), AllocError>
    ensures { OnOk result (line.new.items
        ≡ line.old.items ++ flat_map (λ word. 32 ∷ word) (map (λ word. word.now) words.now)) }
{
    for word in words {
        put_word(line, word)?;
    }
    Ok(())
}
