//! A text, split at a byte.
//!
//! The byte is searched for in two ways. `find_far` looks at many bytes at once, but takes longer to begin: it is for
//! lines and last words, which may have thousands of bytes. `find_near` looks at one byte after another, which is
//! sooner where the place is among the first ten or so: it is for the words that a line begins with.

ghost use Rattle.std.specs.Prelude.{◌≡◌, ◌∷◌, ◌==◌, option_copied, position};
ghost use Rattle.std.specs.List.{slice_split};
ghost use Rattle.fuse_text.specs.Words.{parts_left};

use memchr::memchr;

/// The place of the first separator, which may be far.
pub fn find_far(text: &[u8], separator: u8) -> Option<usize>
    ensures { result ≡ position (λ byte. byte == separator) text.now }
{
    memchr(separator, text)
}

/// The place of the first separator, which is near as a rule.
#[inline(always)]
pub fn find_near(text: &[u8], separator: u8) -> Option<usize>
    ensures { result ≡ position (λ byte. byte == separator) text.now }
{
    text.iter().position(|byte| *byte == separator)
}

/// The first part of a text, and the text behind the separator that ends it, if one does. A part is short as a rule.
#[inline(always)]
pub fn split_at(text: &[u8], separator: u8) -> (&[u8], Option<&[u8]>)
    ensures { slice_split (λ byte. byte == separator) text.now
        ≡ result.0.now ∷ parts_left separator (option_copied result.1) }
{
    split_at_first(text, separator, find_near(text, separator))
}

/// What stands before the first separator, whose place this is, and what stands after it, if there is one.
#[inline(always)]
pub fn split_at_first(text: &[u8], separator: u8, first: Option<usize>) -> (&[u8], Option<&[u8]>)
    requires { first ≡ position (λ byte. byte == separator) text.now }
    ensures { slice_split (λ byte. byte == separator) text.now
        ≡ result.0.now ∷ parts_left separator (option_copied result.1) }
{
    match first {
        Some(end) => (&text[..end], Some(&text[end + 1..])),
        None => (text, None),
    }
}
