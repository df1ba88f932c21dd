//! The words of a line.

ghost use Rattle.std.specs.Prelude.{◌≡◌, ◌≢◌, ◌∷◌, [], List, ℕ, MatchOption, option_copied};
ghost use Rattle.fuse_text.specs.Words.{words_left, words_of};

use fuse_text::split_word;

/// The one word of the rest of a line, if it has one.
pub(crate) fn one_word(rest: Option<&[u8]>) -> Option<&[u8]>
    ensures { let words = words_left (option_copied rest.entry) in MatchOption result
        ((word : List ℕ) → words ≢ word ∷ [])
        (λ word. words ≡ word.now ∷ []) }
{
    match split_word(rest?) {
        (word, None) => Some(word),
        (_, Some(_)) => None,
    }
}

/// The four words of a line, if it has four.
pub(crate) fn four_words(line: &[u8]) -> Option<(&[u8], &[u8], &[u8], &[u8])>
    ensures { MatchOption result
        ((one two three four : List ℕ) → words_of line.now ≢ one ∷ two ∷ three ∷ four ∷ [])
        (λ w. words_of line.now ≡ w.0.now ∷ w.1.now ∷ w.2.now ∷ w.3.now ∷ []) }
{
    let (one, rest) = split_word(line);
    let (two, rest) = split_word(rest?);
    let (three, rest) = split_word(rest?);
    let four = one_word(rest)?;
    Some((one, two, three, four))
}
