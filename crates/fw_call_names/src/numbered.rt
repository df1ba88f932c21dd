//! The words of a line, written with the number of the call that it names.

ghost use Rattle.std.specs.Prelude.{◌≡◌, ◌++◌, ◌∷◌, OnOk, flat_map, map};
ghost use Rattle.std.specs.List.{join_with_byte};
ghost use Rattle.fw_call_names.specs.Naming as naming;
ghost use Rattle.fw_call_names.specs.CallNames.{names_of};

use crate::name::{CallName, number_of};
use crate::put::{put_word, put_words};
use itoa::Buffer;
use std::alloc::{AllocError, Allocator};

/// Puts the number of the call that a word names, or else the word.
fn put_numbered<A: Allocator, B: Allocator>(
    line: &mut Vec<u8, B>,
    names: &[CallName<A>],
    word: &[u8],
) -> Result<(), AllocError>
    ensures { OnOk result (line.new.items ≡ line.old.items ++ 32 ∷ naming.numbered (names_of names.now) word.now) }
{
    match number_of(names, word) {
        Some(number) => put_word(line, Buffer::new().format(number).as_bytes()),
        None => put_word(line, word),
    }
}

/// Puts words of which the first may name a call.
fn put_first_numbered<A: Allocator, B: Allocator>(
    line: &mut Vec<u8, B>,
    names: &[CallName<A>],
    words: &[&[u8]],
) -> Result<(), AllocError>
    ensures { OnOk result (line.new.items ≡ line.old.items
        ++ flat_map (λ word. 32 ∷ word)
        (naming.first_numbered (names_of names.now) (map (λ word. word.now) words.now))) }
{
    let Some((word, rest)) = words.split_first() else {
        return Ok(());
    };
    put_numbered(line, names, word)?;
    put_words(line, rest)
}

/// Whether a call is one on a file that another call opened.
fn is_of_open(word: &[u8]) -> bool
    ensures { result ≡ naming.is_of_open word.now }
{
    word == b"read".as_slice() || word == b"write".as_slice() || word == b"close".as_slice()
}

/// Puts the words behind `call`.
fn put_call<A: Allocator, B: Allocator>(
    line: &mut Vec<u8, B>,
    names: &[CallName<A>],
    words: &[&[u8]],
) -> Result<(), AllocError>
    ensures { OnOk result (line.new.items ≡ line.old.items
        ++ flat_map (λ word. 32 ∷ word)
        (naming.call_numbered (names_of names.now) (map (λ word. word.now) words.now))) }
{
    let Some((word, rest)) = words.split_first() else {
        return Ok(());
    };
    put_word(line, word)?;
    if is_of_open(word) {
        put_first_numbered(line, names, rest)
    } else {
        put_words(line, rest)
    }
}

/// Puts the words behind the first.
fn put_rest<A: Allocator, B: Allocator>(
    line: &mut Vec<u8, B>,
    names: &[CallName<A>],
    first: &[u8],
    words: &[&[u8]],
) -> Result<(), AllocError>
    ensures { OnOk result (line.new.items ≡ line.old.items ++ flat_map (λ word. 32 ∷ word)
        (naming.rest_numbered (names_of names.now) first.now (map (λ word. word.now) words.now))) }
{
    if first == b"intr".as_slice() {
        put_first_numbered(line, names, words)
    } else if first == b"call".as_slice() {
        put_call(line, names, words)
    } else {
        put_words(line, words)
    }
}

/// Makes a text the line of these words, with the number of the call that they name.
pub(crate) fn make_line<A: Allocator, B: Allocator>(
    line: &mut Vec<u8, B>,
    names: &[CallName<A>],
    words: &[&[u8]],
) -> Result<(), AllocError>
    ensures { OnOk result (line.new.items
        ≡ join_with_byte 32 (naming.with_numbers (names_of names.now) (map (λ word. word.now) words.now))) }
{
    line.clear();
    let Some((first, rest)) = words.split_first() else {
        return Ok(());
    };
    line.extend_from_slice(first)?;
    put_rest(line, names, first, rest)
}
