//! The name that a line gives to the call that it begins.

ghost use Rattle.std.specs.Prelude.{◌≡◌, IfOk, map, option_copied};
ghost use Rattle.fuse_text.specs.Words.{words_of};
ghost use Rattle.fw_call_names.specs.Naming as naming;

use crate::name::is_name;
use std::alloc::{AllocError, Allocator};

/// The words of a line.
pub(crate) fn words_of<A: Allocator>(alloc: A, line: &[u8]) -> Result<Vec<&[u8], A>, AllocError>
    ensures { IfOk result (λ words. map (λ word. word.now) words.items ≡ words_of line.now) }
{
    line.split(|byte| *byte == b' ').collect(alloc)
}

/// Whether words begin a call and give it a name.
fn gives_name(words: &[&[u8]]) -> bool
    ensures { result ≡ naming.gives_name (map (λ word. word.now) words.now) }
{
    match words {
        [call, _, _, .., mark, name] => {
            *call == b"call".as_slice() && *mark == b"as".as_slice() && is_name(name)
        }
        _ => false,
    }
}

/// Words without the name that they give to the call, and the name.
pub(crate) fn split_name<'w, 'a>(words: &'w [&'a [u8]]) -> (&'w [&'a [u8]], Option<&'a [u8]>)
    ensures words { map (λ word. word.now) result.0.now ≡ naming.without_name (map (λ word. word.now) words.now) }
    ensures name { option_copied result.1 ≡ naming.name_in (map (λ word. word.now) words.now) }
{
    match words {
        [kept @ .., _, name] if gives_name(words) => (kept, Some(name)),
        _ => (words, None),
    }
}
