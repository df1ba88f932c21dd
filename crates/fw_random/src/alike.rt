//! Whether two servers answer a call alike, by the words of their answers.

use crate::text::{split_at, split_word, word_at, words_behind};

/// The word of EEXIST, EISDIR, EINTR and ENOTEMPTY (errno.h).
const EINTR: &[u8] = b"4";

const EEXIST: &[u8] = b"17";

const EISDIR: &[u8] = b"21";

const ENOTEMPTY: &[u8] = b"39";

/// What the names begin with under which libfuse keeps files that were removed while they were open.
const HIDDEN: &[u8] = b".fuse_hidden";

/// The kind in a listing that is neither a regular file nor a directory.
const UNKNOWN: &[u8] = b"other";

/// The name in a word `NAME:OFF:KIND`, and its kind.
fn name_and_kind(word: &[u8]) -> (&[u8], &[u8]) {
    let (name, rest) = split_at(word, b':');
    let (_offset, kind) = split_at(rest, b':');
    (name, kind)
}

/// Whether a word of a listing is of no file that a call made: of the directory itself or the one above, which not each
/// server lists, or of one that libfuse keeps, as it was removed while it was open.
fn is_own(word: &[u8]) -> bool {
    let (name, _) = name_and_kind(word);
    matches!(name, b"." | b"..") || name.strip_prefix(HIDDEN).is_some()
}

/// Whether two kinds in listings may be one: a server need not say it (readdir(3)).
fn may_be_same(one: &[u8], other: &[u8]) -> bool {
    one == other || one == UNKNOWN || other == UNKNOWN
}

/// The next name of a listing with its kind, and what stands behind it.
pub(crate) fn next_name(words: &[u8]) -> Option<((&[u8], &[u8]), &[u8])> {
    let mut rest = words;
    for _word in 0..words.len() {
        if rest.is_empty() {
            return None;
        }
        let (word, more) = split_word(rest);
        if !is_own(word) {
            return Some((name_and_kind(word), more));
        }
        rest = more;
    }
    None
}

/// Whether a listing has a name with its kind, as far as that is said.
fn lists(words: &[u8], name: &[u8], kind: &[u8]) -> bool {
    let mut rest = words;
    for _word in 0..words.len() {
        match next_name(rest) {
            Some((listed, more)) => {
                if listed.0 == name && may_be_same(listed.1, kind) {
                    return true;
                }
                rest = more;
            }
            None => return false,
        }
    }
    false
}

/// Whether each name of a listing is in another one.
fn is_within(words: &[u8], others: &[u8]) -> bool {
    let mut rest = words;
    for _word in 0..words.len() {
        match next_name(rest) {
            Some((listed, more)) => {
                if !lists(others, listed.0, listed.1) {
                    return false;
                }
                rest = more;
            }
            None => return true,
        }
    }
    true
}

/// How many names a listing has.
fn count_names(words: &[u8]) -> usize {
    let mut rest = words;
    let mut count: usize = 0;
    for _word in 0..words.len() {
        match next_name(rest) {
            Some((_listed, more)) => {
                count = count.saturating_add(1);
                rest = more;
            }
            None => return count,
        }
    }
    count
}

/// Whether the answers have the same names in any order.
fn have_same_names(one: &[u8], other: &[u8]) -> bool {
    let (one, other) = (words_behind(one, 1), words_behind(other, 1));
    count_names(one) == count_names(other) && is_within(one, other)
}

/// Whether the answers have the same kind, and where it is no directory's the same size, and the same number of links
/// where that counts.
fn have_same_attributes(one: &[u8], other: &[u8], counts_links: bool) -> bool {
    let kind = word_at(one, 1);
    kind == word_at(other, 1)
        && (kind == b"dir".as_slice()
            || (word_at(one, 3) == word_at(other, 3)
                && (!counts_links || word_at(one, 4) == word_at(other, 4))))
}

/// What stands in a listing behind the record with this offset, if it has that.
fn behind_offset<'a>(words: &'a [u8], wanted: &[u8]) -> Option<&'a [u8]> {
    let mut rest = words;
    for _word in 0..words.len() {
        if rest.is_empty() {
            return None;
        }
        let (word, more) = split_word(rest);
        let (_name, end) = split_at(word, b':');
        let (offset, _kind) = split_at(end, b':');
        if offset == wanted {
            return Some(more);
        }
        rest = more;
    }
    None
}

/// Whether a listing from an offset has the names, in their order, that the one before has behind that offset.
pub(crate) fn goes_on(listed: &[u8], offset: &[u8], answer: &[u8]) -> bool {
    let Some(mut wanted) = behind_offset(listed, offset) else {
        return true;
    };
    let mut rest = words_behind(answer, 1);
    for _word in 0..=listed.len() {
        if wanted.is_empty() || rest.is_empty() {
            break;
        }
        let (one, more_wanted) = split_word(wanted);
        let (other, more) = split_word(rest);
        if name_and_kind(one).0 != name_and_kind(other).0 {
            return false;
        }
        wanted = more_wanted;
        rest = more;
    }
    is_done(answer) && wanted.is_empty() && rest.is_empty()
}

/// Whether an answer is no error.
pub(crate) fn is_done(answer: &[u8]) -> bool {
    word_at(answer, 0) == b"0".as_slice()
}

/// Whether two answers to the call of a line say the same. Inode numbers, offsets, the sizes and links of directories, and
/// the order of names are each server's own. Links do not count beside a change: a file that is found before it is removed
/// may have one less, or none.
pub(crate) fn are_alike(line: &[u8], one: &[u8], other: &[u8], counts_links: bool) -> bool {
    if !is_done(one) || !is_done(other) {
        return one == other;
    }
    match word_at(line, 1) {
        b"stat" => have_same_attributes(one, other, counts_links),
        b"list" | b"listplus" => have_same_names(one, other),
        _ => one == other,
    }
}

/// Whether an answer is that of a call that a signal ended.
pub(crate) fn is_interrupted(answer: &[u8]) -> bool {
    answer == EINTR
}

/// Whether the file at a path lies below another path.
pub(crate) fn is_below(path: &[u8], directory: &[u8]) -> bool {
    match path.strip_prefix(directory) {
        Some([first, ..]) => *first == b'/',
        _ => false,
    }
}

/// Whether what a server answers is right too: of what is moved onto a directory above it Linux says that this is not
/// empty, and this project's server that it is a directory.
pub(crate) fn is_refused_as_above(line: &[u8], answer: &[u8], here: &[u8]) -> bool {
    word_at(line, 1) == b"rename".as_slice()
        && is_below(word_at(line, 2), word_at(line, 3))
        && answer == ENOTEMPTY
        && here == EISDIR
}

/// Whether a server opens a file of CREATE whose name is there, as Linux does. This project's server refuses it.
pub(crate) fn is_made_otherwise(line: &[u8], answer: &[u8], here: &[u8]) -> bool {
    word_at(line, 1) == b"create".as_slice() && here == EEXIST && answer != EEXIST
}
