//! Numbers as words.

ghost use Rattle.std.specs.Prelude.{◌≡◌, ◌<◌, ◌^◌, ◌∷◌, ℕ, IfSome, MatchOption, Some, decimal, option_copied};
ghost use Rattle.fuse_capture.specs.Readings.{HasNoMark};
ghost use Rattle.fuse_text.specs.Words.{words_left};

use crate::parts::next_word;
use fuse_text::read_number;

/// The number that a word writes behind a mark.
fn marked_number(word: &[u8], mark: u8) -> Option<u64>
    ensures value { IfSome result (λ n. word.now ≡ mark ∷ decimal n) }
    ensures each { (n : ℕ) → n < 2 ^ 64 → word.now ≡ mark ∷ decimal n → result ≡ Some n }
{
    match word {
        [first, digits @ ..] if *first == mark => read_number(digits),
        _ => None,
    }
}

/// The number that the next word writes behind a mark, and what is left after that word. Where it writes none, nothing
/// is taken.
pub(crate) fn take_marked(mark: u8, rest: Option<&[u8]>) -> (Option<u64>, Option<&[u8]>)
    ensures taken { let words = words_left (option_copied rest.entry) in let left = words_left (option_copied result.1)
        in MatchOption result.0 (HasNoMark mark words × (left ≡ words)) (λ n. words ≡ (mark ∷ decimal n) ∷ left) }
    ensures small { IfSome result.0 (λ n. n < 2 ^ 64) }
{
    let Some((word, later)) = next_word(rest) else {
        return (None, rest);
    };
    match marked_number(word, mark) {
        Some(number) => (Some(number), later),
        None => (None, rest),
    }
}
