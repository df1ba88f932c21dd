//! The words that follow the form of a line, as numbers, texts, hex and signals.

ghost use Rattle.std.specs.Prelude.{◌≡◌, ◌∷◌, ◌↔◌, [], ℕ, IsTrue, List, MatchOption};
ghost use Rattle.std.specs.Prelude.{MatchResult, decimal, option_copied};
ghost use Rattle.fw_script.specs.Arguments.{ArgumentFaultIs, IsMinor, IsSignal, IsText, minor_word, signal_word};
ghost use Rattle.fw_script.specs.Arguments.{bytes, number, signal, text};
ghost use Rattle.fw_script.specs.Forms.{arguments_of_mount};
ghost use Rattle.fuse_text.specs.HexTexts.{IsHexOrNone};
ghost use Rattle.fw_script.specs.Lines.{EndsAt};
ghost use Rattle.fuse_text.specs.Words.{words_left};

use crate::line::LineFault;
use fuse_spec::Minor;
use fuse_text::{is_hex_or_none, one_word, read_number, three_words, two_words};

/// Whether a word is made of bytes from 33 to 126.
fn is_text(word: &[u8]) -> bool
    ensures { IsTrue result ↔ IsText word.now }
{
    word.iter().all(|byte| 33 <= *byte && *byte <= 126)
}

/// Whether the signal that a word names is fatal.
fn read_signal(word: &[u8]) -> Option<bool>
    ensures { MatchOption result (¬ (IsSignal word.now)) (λ fatal. word.now ≡ signal_word fatal) }
{
    if word == b"fatal".as_slice() {
        return Some(true);
    }
    if word == b"soft".as_slice() {
        return Some(false);
    }
    None
}

/// Refuses words after a line's form.
pub(crate) fn no_words(rest: Option<&[u8]>) -> Result<(), LineFault>
    ensures { let words = words_left (option_copied rest.entry) in MatchResult result
        (λ none. words ≡ [])
        (ArgumentFaultIs [] words) }
{
    match rest {
        Some(_) => Err(LineFault::WrongWords),
        None => Ok(()),
    }
}

/// The number that a rest of one word is.
pub(crate) fn one_number(rest: Option<&[u8]>) -> Result<u64, LineFault>
    ensures { let words = words_left (option_copied rest.entry) in MatchResult result
        (λ n. words ≡ decimal n ∷ [])
        (ArgumentFaultIs (number ∷ []) words) }
{
    let Some(text) = rest else {
        return Err(LineFault::WrongWords);
    };
    // What reads as a number is one word, so words are counted only where nothing does.
    if let Some(number) = read_number(text) {
        return Ok(number);
    }
    match one_word(Some(text)) {
        Some(_) => Err(LineFault::BadNumber),
        None => Err(LineFault::WrongWords),
    }
}

/// The numbers that a rest of two words is.
pub(crate) fn two_numbers(rest: Option<&[u8]>) -> Result<(u64, u64), LineFault>
    ensures { let words = words_left (option_copied rest.entry) in MatchResult result
        (λ two. words ≡ decimal two.0 ∷ decimal two.1 ∷ [])
        (ArgumentFaultIs (number ∷ number ∷ []) words) }
{
    let Some((first, second)) = two_words(rest) else {
        return Err(LineFault::WrongWords);
    };
    match (read_number(first), read_number(second)) {
        (Some(first), Some(second)) => Ok((first, second)),
        _ => Err(LineFault::BadNumber),
    }
}

/// The minor that a word says.
fn read_minor(word: &[u8]) -> Option<Minor>
    ensures { MatchOption result (¬ (IsMinor word.now)) (λ m. word.now ≡ minor_word m) }
{
    match word {
        b"15" => Some(Minor::M15),
        b"31" => Some(Minor::M31),
        _ => None,
    }
}

/// The numbers that a rest of two words is, and the minor that a third word says; it is 31 where there is none.
pub(crate) fn two_numbers_and_minor(rest: Option<&[u8]>) -> Result<(u64, u64, Minor), LineFault>
    ensures { let words = words_left (option_copied rest.entry) in MatchResult result
        (λ three. (last : List (List ℕ)) × (words ≡ decimal three.0 ∷ decimal three.1 ∷ last) × EndsAt three.2 last)
        (ArgumentFaultIs (arguments_of_mount words) words) }
{
    let Some((first, second, third)) = three_words(rest) else {
        let (first, second) = two_numbers(rest)?;
        return Ok((first, second, Minor::M31));
    };
    match (read_number(first), read_number(second), read_minor(third)) {
        (Some(first), Some(second), Some(minor)) => Ok((first, second, minor)),
        _ => Err(LineFault::BadNumber),
    }
}

/// The numbers that a rest of three words is.
pub(crate) fn three_numbers(rest: Option<&[u8]>) -> Result<(u64, u64, u64), LineFault>
    ensures { let words = words_left (option_copied rest.entry) in MatchResult result
        (λ three. words ≡ decimal three.0 ∷ decimal three.1 ∷ decimal three.2 ∷ [])
        (ArgumentFaultIs (number ∷ number ∷ number ∷ []) words) }
{
    let Some((first, second, third)) = three_words(rest) else {
        return Err(LineFault::WrongWords);
    };
    match (read_number(first), read_number(second), read_number(third)) {
        (Some(first), Some(second), Some(third)) => Ok((first, second, third)),
        _ => Err(LineFault::BadNumber),
    }
}

/// The text that a rest of one word is.
pub(crate) fn one_text(rest: Option<&[u8]>) -> Result<&[u8], LineFault>
    ensures { let words = words_left (option_copied rest.entry) in MatchResult result
        (λ word. (words ≡ word.now ∷ []) × IsText word.now)
        (ArgumentFaultIs (text ∷ []) words) }
{
    let Some(word) = one_word(rest) else {
        return Err(LineFault::WrongWords);
    };
    if !is_text(word) {
        return Err(LineFault::BadText);
    }
    Ok(word)
}

/// The texts that a rest of two words is.
pub(crate) fn two_texts(rest: Option<&[u8]>) -> Result<(&[u8], &[u8]), LineFault>
    ensures { let words = words_left (option_copied rest.entry) in MatchResult result
        (λ two. (words ≡ two.0.now ∷ two.1.now ∷ []) × (IsText two.0.now × IsText two.1.now))
        (ArgumentFaultIs (text ∷ text ∷ []) words) }
{
    let Some((first, second)) = two_words(rest) else {
        return Err(LineFault::WrongWords);
    };
    if !is_text(first) || !is_text(second) {
        return Err(LineFault::BadText);
    }
    Ok((first, second))
}

/// The text and the number that a rest of two words is.
pub(crate) fn text_and_number(rest: Option<&[u8]>) -> Result<(&[u8], u64), LineFault>
    ensures { let words = words_left (option_copied rest.entry) in MatchResult result
        (λ two. (words ≡ two.0.now ∷ decimal two.1 ∷ []) × IsText two.0.now)
        (ArgumentFaultIs (text ∷ number ∷ []) words) }
{
    let Some((first, second)) = two_words(rest) else {
        return Err(LineFault::WrongWords);
    };
    let Some(number) = read_number(second) else {
        return Err(LineFault::BadNumber);
    };
    if !is_text(first) {
        return Err(LineFault::BadText);
    }
    Ok((first, number))
}

/// The number and the text that a rest of two words is.
pub(crate) fn number_and_text(rest: Option<&[u8]>) -> Result<(u64, &[u8]), LineFault>
    ensures { let words = words_left (option_copied rest.entry) in MatchResult result
        (λ two. (words ≡ decimal two.0 ∷ two.1.now ∷ []) × IsText two.1.now)
        (ArgumentFaultIs (number ∷ text ∷ []) words) }
{
    let Some((first, second)) = two_words(rest) else {
        return Err(LineFault::WrongWords);
    };
    let Some(number) = read_number(first) else {
        return Err(LineFault::BadNumber);
    };
    if !is_text(second) {
        return Err(LineFault::BadText);
    }
    Ok((number, second))
}

/// The number and the signal that a rest of two words is. The signal is `true` where it is fatal.
pub(crate) fn number_and_signal(rest: Option<&[u8]>) -> Result<(u64, bool), LineFault>
    ensures { let words = words_left (option_copied rest.entry) in MatchResult result
        (λ two. words ≡ decimal two.0 ∷ signal_word two.1 ∷ [])
        (ArgumentFaultIs (number ∷ signal ∷ []) words) }
{
    let Some((first, second)) = two_words(rest) else {
        return Err(LineFault::WrongWords);
    };
    let Some(fatal) = read_signal(second) else {
        return Err(LineFault::WrongWords);
    };
    let Some(number) = read_number(first) else {
        return Err(LineFault::BadNumber);
    };
    Ok((number, fatal))
}

/// The two numbers and the hex, or `-` for no bytes, that a rest of three words is.
pub(crate) fn two_numbers_and_hex(rest: Option<&[u8]>) -> Result<(u64, u64, &[u8]), LineFault>
    ensures { let words = words_left (option_copied rest.entry) in MatchResult result
        (λ three. (words ≡ decimal three.0 ∷ decimal three.1 ∷ three.2.now ∷ []) × IsHexOrNone three.2.now)
        (ArgumentFaultIs (number ∷ number ∷ bytes ∷ []) words) }
{
    let Some((first, second, third)) = three_words(rest) else {
        return Err(LineFault::WrongWords);
    };
    let (Some(first), Some(second)) = (read_number(first), read_number(second)) else {
        return Err(LineFault::BadNumber);
    };
    if !is_hex_or_none(third) {
        return Err(LineFault::BadText);
    }
    Ok((first, second, third))
}
