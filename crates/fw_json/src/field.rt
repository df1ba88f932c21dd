//! Keys with their values.

ghost use Rattle.std.specs.Prelude.{◌≡◌, ◌++◌, ◌<◌, ◌==◌, ◌||◌, OnOk, IfOk, length, not, option_copied, slice_index};
ghost use Rattle.std.specs.List.{list_all};
ghost use Rattle.fw_json.specs.Fields as table;
ghost use Rattle.fw_json.specs.Putting.{PutsIf};
ghost use Rattle.fuse_text.specs.Words.{words_left, words_of};

use crate::key::Key;
use crate::string::put_string;
use crate::text::put;
use fuse_text::{Words, split_at};
use std::alloc::{AllocError, Allocator};

/// Whether a byte is a decimal digit.
fn is_digit(byte: u8) -> bool
    ensures { result ≡ table.is_digit byte }
{
    byte >= b'0' && byte <= b'9'
}

/// Whether each byte is a digit.
fn has_digits_alone(word: &[u8]) -> bool
    ensures { result ≡ list_all table.is_digit word.now }
{
    word.iter().all(|byte| is_digit(*byte))
}

/// Whether a zero, if it is the first of the digits, is the only one.
fn has_no_needless_zero(word: &[u8]) -> bool
    requires { 0 < length word.now }
    ensures { result ≡ (length word.now == 1 || not (slice_index word.now 0 == 48)) }
{
    word.len() == 1 || word[0] != b'0'
}

/// Whether a word is a number, as JSON has them: digits, with no zero before others.
pub(crate) fn is_number(word: &[u8]) -> bool
    ensures { result ≡ table.is_number word.now }
{
    word.len() > 0 && has_digits_alone(word) && has_no_needless_zero(word)
}

/// Puts a key last.
pub(crate) fn put_key<A: Allocator>(text: &mut Vec<u8, A>, key: Key) -> Result<(), AllocError>
    ensures { OnOk result (text.new.items ≡ text.old.items ++ table.key_text key) }
{
    put(text, b",\"")?;
    put(text, key.name())?;
    put(text, b"\":")
}

/// Puts a key and a text last.
pub(crate) fn put_string_field<A: Allocator>(
    text: &mut Vec<u8, A>,
    key: Key,
    said: &[u8],
) -> Result<(), AllocError>
    ensures { OnOk result (text.new.items ≡ text.old.items ++ table.string_field key said.now) }
{
    put_key(text, key)?;
    put_string(text, said)
}

/// Puts a key and a word last, if the word can be its value. Says whether it can.
fn put_field<A: Allocator>(text: &mut Vec<u8, A>, key: Key, word: &[u8]) -> Result<bool, AllocError>
    ensures { IfOk result (PutsIf text.old.items text.new.items (table.field key word.now)) }
{
    if key.is_of_text() {
        put_string_field(text, key, word)?;
        return Ok(true);
    }
    if !is_number(word) {
        return Ok(false);
    }
    put_key(text, key)?;
    put(text, word)?;
    Ok(true)
}

/// Puts the words that are left behind others of a list.
fn put_more<A: Allocator>(text: &mut Vec<u8, A>, rest: Option<&[u8]>) -> Result<(), AllocError>
    ensures { OnOk result (text.new.items
        ≡ text.old.items ++ table.more_listed (words_left (option_copied rest.entry))) }
{
    for word in Words::left(rest) {
        put(text, b",")?;
        put_string(text, word)?;
    }
    Ok(())
}

/// Puts words as a list, without its brackets.
fn put_listed<A: Allocator>(text: &mut Vec<u8, A>, words: &[u8]) -> Result<(), AllocError>
    ensures { OnOk result (text.new.items ≡ text.old.items ++ table.listed (words_of words.now)) }
{
    let (word, rest) = split_at(words, b' ');
    put_string(text, word)?;
    put_more(text, rest)
}

/// Puts a key and a list of the words that are left, if there are any.
fn put_list<A: Allocator>(
    text: &mut Vec<u8, A>,
    key: Key,
    rest: Option<&[u8]>,
) -> Result<(), AllocError>
    ensures { OnOk result (text.new.items
        ≡ text.old.items ++ table.list_field key (words_left (option_copied rest.entry))) }
{
    put_key(text, key)?;
    put(text, b"[")?;
    if let Some(words) = rest {
        put_listed(text, words)?;
    }
    put(text, b"]")
}

/// Puts what is behind the words of the keys. Says whether it may stand there.
fn put_last<A: Allocator>(
    text: &mut Vec<u8, A>,
    list_key: Option<Key>,
    rest: Option<&[u8]>,
) -> Result<bool, AllocError>
    ensures { IfOk result (PutsIf text.old.items text.new.items
        (table.last_fields list_key (words_left (option_copied rest.entry)))) }
{
    match (list_key, rest) {
        (Some(key), _) => {
            put_list(text, key, rest)?;
            Ok(true)
        }
        (None, None) => Ok(true),
        (None, Some(_)) => Ok(false),
    }
}

/// Puts the fields of words last, if there is a key for each word and a word for each key. Says whether there is.
pub(crate) fn put_fields<A: Allocator>(
    text: &mut Vec<u8, A>,
    keys: &[Key],
    list_key: Option<Key>,
    words: Option<&[u8]>,
) -> Result<bool, AllocError>
    ensures { IfOk result (PutsIf text.old.items text.new.items
        (table.fields keys.now list_key (words_left (option_copied words.entry)))) }
{
    let mut rest = words;
    for key in keys {
        let Some(left) = rest else {
            return Ok(false);
        };
        let (word, more) = split_at(left, b' ');
        if !put_field(text, *key, word)? {
            return Ok(false);
        }
        rest = more;
    }
    put_last(text, list_key, rest)
}
