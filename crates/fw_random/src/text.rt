//! The words of lines, read and written.

use fw_drive::NoLine;
use std::alloc::Allocator;

/// Appends a word.
pub(crate) fn put<A: Allocator>(line: &mut Vec<u8, A>, word: &[u8]) -> Result<(), NoLine> {
    match line.extend_from_slice(word) {
        Ok(()) => Ok(()),
        Err(_) => Err(NoLine::NoMemory),
    }
}

/// Appends a number in decimal.
pub(crate) fn put_number<A: Allocator>(line: &mut Vec<u8, A>, number: u64) -> Result<(), NoLine> {
    let mut buffer = itoa::Buffer::new();
    put(line, buffer.format(number).as_bytes())
}

/// The number that a word is in decimal, as far as it is one below 2^64.
pub(crate) fn number_of(word: &[u8]) -> u64 {
    let mut number: u64 = 0;
    for byte in word {
        if *byte < b'0' || *byte > b'9' {
            break;
        }
        number = number
            .saturating_mul(10)
            .saturating_add(u64::from(*byte - b'0'));
    }
    number
}

/// What stands in a text before the first of such bytes, and behind it.
pub(crate) fn split_at(text: &[u8], separator: u8) -> (&[u8], &[u8]) {
    match text.iter().position(|byte| *byte == separator) {
        Some(end) => (&text[..end], &text[end + 1..]),
        None => (text, b""),
    }
}

/// The first line of a text, and the lines behind it.
pub(crate) fn split_line(text: &[u8]) -> (&[u8], &[u8]) {
    split_at(text, b'\n')
}

/// The first word of a line, and the words behind it.
pub(crate) fn split_word(line: &[u8]) -> (&[u8], &[u8]) {
    split_at(line, b' ')
}

/// What stands in a line, without its line feed, behind so many words.
pub(crate) fn words_behind(line: &[u8], count: usize) -> &[u8] {
    let (mut rest, _) = split_line(line);
    for _word in 0..count {
        let (_, more) = split_word(rest);
        rest = more;
    }
    rest
}

/// The word of a line behind so many others, empty where there is none.
pub(crate) fn word_at(line: &[u8], place: usize) -> &[u8] {
    let (word, _) = split_word(words_behind(line, place));
    word
}
