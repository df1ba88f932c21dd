//! Paths: words between single slashes, behind a leading slash (this project's rule).

ghost use Rattle.std.specs.Prelude.{◌≡◌, ◌≤◌, ℕ, List, Some, Ok, Err, length, IfOk, MatchResult};
ghost use Rattle.fuse_spec.specs.Calls.Paths.{word_fault, first_fault, path_words_of, parent_and_last};
ghost use Rattle.fk_syscalls.specs.Words.{words_from, IsWord, AreWords};
ghost use Rattle.fuse_spec.specs.Calls.Begins.{Beginning, faulty, parent_path};
ghost use Rattle.fuse_spec.specs.Calls.Paths.{Name};
ghost use Rattle.fuse_spec.specs.declared.Opened.{Opened};

use crate::words::word_at;
use fuse_spec::errno::{EINVAL, ENAMETOOLONG};
use fuse_spec::limits::{MAX_NAME, MAX_WORDS};

/// The fault of the word at this place of a path, counted from 0: first its place, then what it may not hold, then its
/// length.
fn word_fault(place: usize, word: &[u8]) -> Option<u32>
    ensures { result ≡ word_fault place word.now }
{
    if place >= MAX_WORDS {
        return Some(ENAMETOOLONG);
    }
    if matches!(word, [] | b"." | b"..") || word.contains(&0) {
        return Some(EINVAL);
    }
    if word.len() > MAX_NAME {
        return Some(ENAMETOOLONG);
    }
    None
}

/// The first fault of the words from a place on.
fn words_fault(words: &[u8], first: usize) -> Option<u32>
    requires { first ≤ length words.now }
    ensures { result ≡ first_fault 0 (words_from words.now (Some first)) }
{
    let mut at = first;
    for place in 0..MAX_WORDS + 1 {
        let (word, next) = word_at(words, at);
        if let Some(fault) = word_fault(place, word) {
            return Some(fault);
        }
        let Some(next) = next else {
            return None;
        };
        at = next;
    }
    None
}

/// Where the words of a path begin, if it has some; or the path's first fault, as an error number. `/` alone is the
/// root and has no words.
pub(crate) fn first_word(path: &[u8]) -> Result<Option<usize>, u32>
    ensures words { MatchResult result (λ at. path_words_of path.now ≡ Ok (words_from path.now at))
        (λ errno. path_words_of path.now ≡ Err errno) }
    ensures left { IfOk result (λ at. AreWords path.now at) }
{
    match path {
        [b'/'] => Ok(None),
        [b'/', _, ..] => match words_fault(path, 1) {
            Some(fault) => Err(fault),
            None => Ok(Some(1)),
        },
        _ => Err(EINVAL),
    }
}

/// The words before the last one, and the last one.
#[derive(Drop)]
pub(crate) struct ParentAndName<'a> {
    pub words: &'a [u8],
    /// Where the words begin, if there are some.
    pub at: Option<usize>,
    pub name: &'a [u8],
}

/// Parts the last word from those before it, of the words from a place on.
pub(crate) fn split_last_word(words: &[u8], first: usize) -> ParentAndName<'_>
    requires { AreWords words.now (Some first) }
    ensures parts { parent_and_last (words_from words.now (Some first))
        ≡ Some (words_from result.words.now result.at, result.name.now) }
    ensures left { AreWords result.words.now result.at }
    ensures name { IsWord result.name.now }
{
    let mut last = first;
    loop {
        let (name, next) = word_at(words, last);
        match next {
            Some(next) => last = next,
            None if last == first => {
                return ParentAndName {
                    words,
                    at: None,
                    name,
                };
            }
            None => {
                return ParentAndName {
                    words: &words[..last - 1],
                    at: Some(first),
                    name,
                };
            }
        }
    }
}

/// The words of a path before its last one, and the last one; or the path's first fault, as an error number.
pub(crate) fn parent_of(path: &[u8]) -> Result<ParentAndName<'_>, u32>
    ensures parts { MatchResult result (λ parent. (then : List Name → Name → Beginning ℕ Opened)
        → parent_path path.now then ≡ then (words_from parent.words.now parent.at) parent.name.now)
        (λ errno. (then : List Name → Name → Beginning ℕ Opened) → parent_path path.now then ≡ faulty errno) }
    ensures left { IfOk result (λ parent. AreWords parent.words.now parent.at) }
    ensures name { IfOk result (λ parent. IsWord parent.name.now) }
{
    match first_word(path) {
        Ok(Some(place)) => Ok(split_last_word(path, place)),
        Ok(None) => Err(EINVAL),
        Err(errno) => Err(errno),
    }
}
