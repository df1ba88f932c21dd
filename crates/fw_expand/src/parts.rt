//! The parts of a text.

ghost use Rattle.std.specs.Prelude.{◌≡◌, ◌==◌, IfOk, drop, map};
ghost use Rattle.std.specs.List.{slice_split};

use std::alloc::{AllocError, Allocator};

/// What stands before, between and behind the separators of a text.
pub(crate) fn parts_of<A: Allocator>(
    alloc: A,
    text: &[u8],
    separator: u8,
) -> Result<Vec<&[u8], A>, AllocError>
    ensures { IfOk result (λ parts. map (λ part. part.now) parts.items
        ≡ slice_split (λ byte. byte == separator) text.now) }
{
    text.split(|byte| *byte == separator).collect(alloc)
}

/// The parts behind the first.
pub(crate) fn behind_first<'w, 'a>(parts: &'w [&'a [u8]]) -> &'w [&'a [u8]]
    ensures { map (λ part. part.now) result.now ≡ drop 1 (map (λ part. part.now) parts.now) }
{
    match parts {
        [_, behind @ ..] => behind,
        [] => parts,
    }
}
