//! What the device made of a frame, by the words after it.

ghost use Rattle.std.specs.Prelude.{◌≡◌, ◌↔◌, ◌∷◌, [], IsTrue, MatchOption, option_copied};
ghost use Rattle.fuse_sessions.specs.declared.act.Taken.{Taken};
ghost use Rattle.fuse_capture.specs.Lines.{IsErrno, IsErrnoByte, IsResult};
ghost use Rattle.fuse_text.specs.Words.{words_left};

use crate::parts::one_word;
use fuse_sessions::Taken;

/// Whether a byte is an upper-case letter or a digit.
fn is_errno_byte(byte: u8) -> bool
    ensures { IsTrue result ↔ IsErrnoByte byte }
{
    matches!(byte, b'0'..=b'9' | b'A'..=b'Z')
}

/// Whether a word is an error's name.
pub(crate) fn is_errno(word: &[u8]) -> bool
    ensures { IsTrue result ↔ IsErrno word.now }
{
    match word {
        [b'E', rest @ ..] => !rest.is_empty() && rest.iter().all(|byte| is_errno_byte(*byte)),
        _ => false,
    }
}

/// What the device made of a frame where an error's name follows it.
fn read_errno(word: &[u8]) -> Option<Taken>
    ensures { MatchOption result ((t : Taken) → ¬ (IsResult (word.now ∷ []) t)) (IsResult (word.now ∷ [])) }
{
    if word == b"ENOENT".as_slice() {
        return Some(Taken::NoEntry);
    }
    if word == b"EINVAL".as_slice() {
        return Some(Taken::Invalid);
    }
    if is_errno(word) {
        return Some(Taken::Failed);
    }
    None
}

/// What the device made of a frame behind which these words stand.
pub(crate) fn read_taken(rest: Option<&[u8]>) -> Option<Taken>
    ensures { let words = words_left (option_copied rest.entry) in
        MatchOption result ((t : Taken) → ¬ (IsResult words t)) (IsResult words) }
{
    if rest.is_none() {
        return Some(Taken::Accepted);
    }
    match one_word(rest) {
        Some(word) => read_errno(word),
        None => None,
    }
}
