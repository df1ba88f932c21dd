//! The words of a line.

ghost use Rattle.std.specs.Prelude.{◌≡◌, ◌≢◌, ◌∷◌, [], ℕ, List, MatchOption, option_copied};
ghost use Rattle.fuse_text.specs.Words.{words_left};

use fuse_text::split_word;

/// The next word of the rest of a line, if it has one, and what is left after it.
pub(crate) fn next_word(rest: Option<&[u8]>) -> Option<(&[u8], Option<&[u8]>)>
    ensures { let words = words_left (option_copied rest.entry) in MatchOption result (words ≡ [])
        (λ next. words ≡ next.0.now ∷ words_left (option_copied next.1)) }
{
    match rest {
        Some(text) => Some(split_word(text)),
        None => None,
    }
}

/// The only word of the rest of a line, if it has one and no other.
pub(crate) fn one_word(rest: Option<&[u8]>) -> Option<&[u8]>
    ensures { let words = words_left (option_copied rest.entry) in MatchOption result
        ((word : List ℕ) → words ≢ word ∷ [])
        (λ word. words ≡ word.now ∷ []) }
{
    match next_word(rest)? {
        (word, None) => Some(word),
        (_, Some(_)) => None,
    }
}
