//! The requests that lines name.

ghost use Rattle.std.specs.Prelude.{◌≡◌, MatchOption, None, Some, option_copied};
ghost use Rattle.fw_json.specs.Asked as table;
ghost use Rattle.fuse_text.specs.Words.{parts_left, words_left, words_of};

use crate::field::is_number;
use fuse_text::split_at;

/// The call that a request serves.
#[derive(Clone, Copy)]
pub(crate) struct Called<'a> {
    /// Its number.
    pub call: &'a [u8],
    /// The number of the line that began it.
    pub line: &'a [u8],
}

/// A request, as a line names it.
#[derive(Clone, Copy)]
pub(crate) struct Asked<'a> {
    /// The name of its opcode.
    pub opcode: &'a [u8],
    /// Its number.
    pub unique: &'a [u8],
    /// The words behind that.
    pub rest: Option<&'a [u8]>,
}

/// Whether a word begins with a capital letter.
fn is_capital(word: &[u8]) -> bool
    ensures { result ≡ table.is_capital word.now }
{
    match word {
        [first, ..] => b'A' <= *first && *first <= b'Z',
        [] => false,
    }
}

/// The number before the first comma of a word.
fn read_comma(word: &[u8]) -> Option<&[u8]>
    ensures { MatchOption result (table.comma_number (parts_left 44 (Some word.now)) ≡ None)
        (λ number. table.comma_number (parts_left 44 (Some word.now)) ≡ Some number.now) }
{
    let (number, rest) = split_at(word, b',');
    let (_behind, _more) = split_at(rest?, b',');
    if !is_number(number) {
        return None;
    }
    Some(number)
}

/// The call of the words `C, line L`.
fn read_numbers(words: Option<&[u8]>) -> Option<Called<'_>>
    ensures { MatchOption result (table.called_numbers (words_left (option_copied words.entry)) ≡ None)
        (λ called. table.called_numbers (words_left (option_copied words.entry)) ≡ Some (called.call.now, called.line.now)) }
{
    let (number, rest) = split_at(words?, b' ');
    let (line, rest) = split_at(rest?, b' ');
    let (place, _more) = split_at(rest?, b' ');
    if line != b"line".as_slice() || !is_number(place) {
        return None;
    }
    let call = read_comma(number)?;
    Some(Called { call, line: place })
}

/// The call of the words `of call C, line L`.
pub(crate) fn read_called(words: Option<&[u8]>) -> Option<Called<'_>>
    ensures { MatchOption result (table.called_words (words_left (option_copied words.entry)) ≡ None)
        (λ called. table.called_words (words_left (option_copied words.entry)) ≡ Some (called.call.now, called.line.now)) }
{
    let (of, rest) = split_at(words?, b' ');
    let (call, rest) = split_at(rest?, b' ');
    if of != b"of".as_slice() || call != b"call".as_slice() {
        return None;
    }
    read_numbers(rest)
}

/// The request that a text names, behind a space.
fn read_request(text: &[u8]) -> Option<Asked<'_>>
    ensures { MatchOption result (table.asked_words (words_of text.now) ≡ None)
        (λ asked. table.asked_words (words_of text.now)
        ≡ Some (asked.opcode.now, asked.unique.now, words_left (option_copied asked.rest))) }
{
    let (none, rest) = split_at(text, b' ');
    let (opcode, rest) = split_at(rest?, b' ');
    let (unique, rest) = split_at(rest?, b' ');
    if !none.is_empty() || !is_capital(opcode) || !is_number(unique) {
        return None;
    }
    Some(Asked {
        opcode,
        unique,
        rest,
    })
}

/// The request that a line names behind its first colon, if it names one.
pub(crate) fn read_asked(line: &[u8]) -> Option<Asked<'_>>
    ensures { MatchOption result (table.asked_of line.now ≡ None)
        (λ asked. table.asked_of line.now
        ≡ Some (asked.opcode.now, asked.unique.now, words_left (option_copied asked.rest))) }
{
    let (_said, rest) = split_at(line, b':');
    let (request, _more) = split_at(rest?, b':');
    read_request(request)
}
