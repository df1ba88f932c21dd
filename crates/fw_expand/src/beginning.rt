//! What a line gives, from its first line on.

ghost use Rattle.std.specs.Prelude.{◌≡◌, IfOk, map};
ghost use Rattle.fuse_text.specs.Words.{words_of};
ghost use Rattle.fw_expand.specs.Expanding.{begun, evicted, word_at};
ghost use Rattle.fw_expand.specs.Walks.{names_in, walked};

use crate::kind::{Kind, kind_of};
use crate::parts::{behind_first, parts_of};
use crate::put::{put, put_drop, put_evict, without_all};
use crate::rest::Rest;
use crate::walk::walk;
use fw_drive::KernelView;
use std::alloc::{AllocError, Allocator};

/// A node that no kernel has.
const NO_NODE: u64 = 0;

/// The last name of a path is to be dropped, and its node evicted. Where the path leads nowhere, no node can be.
fn begin_path<V: KernelView, A: Allocator + Copy>(
    alloc: A,
    kernel: &V,
    path: &[u8],
    text: &mut Vec<u8, A>,
) -> Result<Rest, AllocError>
    ensures { IfOk result (λ rest. (text.new.items, rest) ≡ evicted (walked (V.leads kernel.now) (names_in path.now))) }
{
    let parts = parts_of(alloc, path, b'/')?;
    match walk(kernel, behind_first(parts.as_slice())) {
        Some((directory, name, node)) => {
            put_drop(text, directory, name)?;
            Ok(Rest::Pair(node))
        }
        None => {
            put_evict(text, NO_NODE)?;
            Ok(Rest::Line)
        }
    }
}

/// A node is evicted by a line with these words.
fn begin_evict<V: KernelView, A: Allocator + Copy>(
    alloc: A,
    kernel: &V,
    words: &[&[u8]],
    text: &mut Vec<u8, A>,
) -> Result<Rest, AllocError>
    ensures { IfOk result (λ rest. (text.new.items, rest)
        ≡ evicted (walked (V.leads kernel.now) (names_in (word_at (map (λ word. word.now) words.now) 1)))) }
{
    match words {
        [_, path, ..] => begin_path(alloc, kernel, path, text),
        _ => begin_path(alloc, kernel, b"", text),
    }
}

/// Makes a text what the lines have that a raw one gives. Says which these are.
pub(crate) fn begin<V: KernelView, A: Allocator + Copy>(
    alloc: A,
    kernel: &V,
    is_of_calls: bool,
    raw: &[u8],
    text: &mut Vec<u8, A>,
) -> Result<Rest, AllocError>
    ensures { IfOk result (λ rest. (text.new.items, rest) ≡ begun (V.leads kernel.now) is_of_calls raw.now) }
{
    let words = parts_of(alloc, raw, b' ')?;
    match kind_of(is_of_calls, words.as_slice()) {
        Kind::Ordinary => {
            put(text, raw)?;
            Ok(Rest::Line)
        }
        Kind::Forget => {
            text.clear();
            Ok(if is_of_calls {
                Rest::Nothing
            } else {
                Rest::Forgets
            })
        }
        Kind::EvictAll => {
            text.clear();
            Ok(Rest::Names)
        }
        Kind::EvictPath => begin_evict(alloc, kernel, words.as_slice(), text),
        Kind::ListAll => {
            put(text, without_all(raw))?;
            Ok(Rest::Listing(0))
        }
    }
}
