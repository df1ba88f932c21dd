//! What the words after `=` say.

ghost use Rattle.std.specs.Prelude.{◌≡◌, ◌≢◌, ◌∷◌, ◌↔◌, [], ℕ, List, IsTrue, MatchOption, MatchResult, codes, option_copied};
ghost use Rattle.fuse_capture.specs.Lines.{IsErrno};
ghost use Rattle.fuse_capture.specs.Readings.{AreRead, IsBad};
ghost use Rattle.fuse_text.specs.Words.{words_left};

use crate::line::{CaptureFault, CaptureLine};
use crate::outcome::is_errno;
use crate::parts::{next_word, one_word};

/// Whether the rest of a line is the word for the server's end, which is no transfer.
fn is_closed(rest: Option<&[u8]>) -> bool
    ensures { IsTrue result ↔ (words_left (option_copied rest.entry) ≡ codes "closed" ∷ []) }
{
    match one_word(rest) {
        Some(word) => word == b"closed".as_slice(),
        None => false,
    }
}

/// Whether two words say that several threads read.
fn is_several_readers(first: &[u8], second: &[u8]) -> bool
    ensures { IsTrue result ↔ ((first.now ≡ codes "several") × (second.now ≡ codes "readers")) }
{
    first == b"several".as_slice() && second == b"readers".as_slice()
}

/// Whether two words say that another thread than the one that reads writes replies.
fn is_several_writers(first: &[u8], second: &[u8]) -> bool
    ensures { IsTrue result ↔ ((first.now ≡ codes "several") × (second.now ≡ codes "writers")) }
{
    first == b"several".as_slice() && second == b"writers".as_slice()
}

/// Whether two words say that the device came to its end.
fn is_ended(first: &[u8], second: &[u8]) -> bool
    ensures { IsTrue result ↔ ((first.now ≡ codes "ended") × IsErrno second.now) }
{
    first == b"ended".as_slice() && is_errno(second)
}

/// The only two words of the rest of a line, if it has two.
fn two_words(rest: Option<&[u8]>) -> Option<(&[u8], &[u8])>
    ensures { let words = words_left (option_copied rest.entry) in MatchOption result
        ((first second : List ℕ) → words ≢ first ∷ second ∷ [])
        (λ two. words ≡ two.0.now ∷ two.1.now ∷ []) }
{
    let (first, later) = next_word(rest)?;
    let second = one_word(later)?;
    Some((first, second))
}

/// What the words after `=` say, if they say a transfer.
pub(crate) fn read_event(rest: Option<&[u8]>) -> Result<Option<CaptureLine<'_>>, CaptureFault>
    ensures { let words = codes "=" ∷ words_left (option_copied rest.entry) in MatchResult result
        (λ said. MatchOption said (words ≡ codes "=" ∷ codes "closed" ∷ []) (AreRead words))
        (IsBad words) }
{
    if is_closed(rest) {
        return Ok(None);
    }
    match two_words(rest) {
        Some((first, second)) if is_several_readers(first, second) => {
            Ok(Some(CaptureLine::SeveralReaders))
        }
        Some((first, second)) if is_several_writers(first, second) => {
            Ok(Some(CaptureLine::SeveralWriters))
        }
        Some((first, second)) if is_ended(first, second) => Ok(Some(CaptureLine::Ended)),
        _ => Err(CaptureFault::WrongWords),
    }
}
