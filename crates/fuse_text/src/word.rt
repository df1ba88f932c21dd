//! The words of a line. One space separates two.

ghost use Rattle.std.specs.Prelude.{◌≡◌, ◌∷◌, [], MatchOption, option_copied};
ghost use Rattle.std.specs.Iterator.{YieldsFirstRef, item_count};
ghost use Rattle.fuse_text.specs.Words.{words_of, words_left, HasWords};

use crate::split::{find_far, split_at, split_at_first};

/// The first word of a text, which is short as a rule, and the text after the space that ends it, if a space does.
#[inline(always)]
pub fn split_word(text: &[u8]) -> (&[u8], Option<&[u8]>)
    ensures { words_of text.now ≡ result.0.now ∷ words_left (option_copied result.1) }
{
    split_at(text, b' ')
}

/// The first word of a text, which may be long, and the text after the space that ends it, if a space does.
fn split_long_word(text: &[u8]) -> (&[u8], Option<&[u8]>)
    ensures { words_of text.now ≡ result.0.now ∷ words_left (option_copied result.1) }
{
    split_at_first(text, b' ', find_far(text, b' '))
}

/// The one word of the rest of a line, if it is one and not empty.
pub fn one_word(rest: Option<&[u8]>) -> Option<&[u8]>
    ensures { let words = words_left (option_copied rest.entry) in MatchOption result
        (¬ (HasWords 1 words))
        (λ word. HasWords 1 (word.now ∷ []) × (words ≡ word.now ∷ [])) }
{
    match split_long_word(rest?) {
        (_, Some(_)) => None,
        (word, None) if word.is_empty() => None,
        (word, None) => Some(word),
    }
}

/// The two words of the rest of a line, if they are two and neither is empty.
pub fn two_words(rest: Option<&[u8]>) -> Option<(&[u8], &[u8])>
    ensures { let words = words_left (option_copied rest.entry) in MatchOption result
        (¬ (HasWords 2 words))
        (λ two. HasWords 2 (two.0.now ∷ two.1.now ∷ []) × (words ≡ two.0.now ∷ two.1.now ∷ [])) }
{
    let (first, rest) = split_word(rest?);
    if first.is_empty() {
        return None;
    }
    let second = one_word(rest)?;
    Some((first, second))
}

/// The three words of the rest of a line, if they are three and none is empty.
pub fn three_words(rest: Option<&[u8]>) -> Option<(&[u8], &[u8], &[u8])>
    ensures { let words = words_left (option_copied rest.entry) in MatchOption result
        (¬ (HasWords 3 words))
        (λ three. HasWords 3 (three.0.now ∷ three.1.now ∷ three.2.now ∷ [])
        × (words ≡ three.0.now ∷ three.1.now ∷ three.2.now ∷ [])) }
{
    let (first, rest) = split_word(rest?);
    if first.is_empty() {
        return None;
    }
    let (second, third) = two_words(rest)?;
    Some((first, second, third))
}

/// The words of the rest of a line, one after another.
#[derive(Drop)]
pub struct Words<'a> {
    rest: Option<&'a [u8]>,
}

impl<'a> Words<'a> {
    /// The words that are left, if there are any.
    pub fn left(rest: Option<&'a [u8]>) -> Words<'a>
        ensures { words_left (option_copied result.rest) ≡ words_left (option_copied rest.entry) }
    {
        Words { rest }
    }
}

impl<'a> Iterator for Words<'a> {
    type Item = &'a [u8];

    ghost next_gives = { YieldsFirstRef (λ words. words_left (option_copied words.rest)) };

    ghost remaining = { item_count (λ words. words_left (option_copied words.rest)) };

    fn next(&mut self) -> Option<&'a [u8]> {
        let text = self.rest?;
        let (word, rest) = split_word(text);
        self.rest = rest;
        Some(word)
    }
}
