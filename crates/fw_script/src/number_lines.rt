//! The lines that are words and one number, as most are, read in one pass.

ghost use Rattle.std.specs.Prelude.{◌≡◌, ◌++◌, ◌∷◌, IfSome, decimal};
ghost use Rattle.fw_script.specs.Lines.{LineHasWords};
ghost use Rattle.fw_script.specs.NumberLines.{number_start};
ghost use Rattle.fuse_text.specs.Lines.{lines_of};
ghost use Rattle.fuse_text.specs.Words.{words_of};

use crate::line::Line;
use fw_world::{Event, Pick};

/// The words before the number.
#[derive(Clone, Copy)]
pub(crate) enum NumberForm {
    Pending,
    Forgets,
    Take,
    Do,
    Again,
    Write,
    Settle,
    Tick,
    Evict,
}

/// The words that a text begins with, and the text behind the space after them.
#[inline(always)]
fn split_words(text: &[u8]) -> Option<(NumberForm, &[u8])>
    ensures { IfSome result (λ r. text.now ≡ number_start r.0 ++ r.1.now) }
{
    match text {
        [b't', b'a', b'k', b'e', b' ', rest @ ..] => Some((NumberForm::Take, rest)),
        [b't', b'i', b'c', b'k', b' ', rest @ ..] => Some((NumberForm::Tick, rest)),
        [b'd', b'o', b' ', rest @ ..] => Some((NumberForm::Do, rest)),
        [b'a', b'g', b'a', b'i', b'n', b' ', rest @ ..] => Some((NumberForm::Again, rest)),
        [b'e', b'v', b'i', b'c', b't', b' ', rest @ ..] => Some((NumberForm::Evict, rest)),
        [b'w', b'r', b'i', b't', b'e', b' ', rest @ ..] => Some((NumberForm::Write, rest)),
        [b's', b'e', b't', b't', b'l', b'e', b' ', rest @ ..] => Some((NumberForm::Settle, rest)),
        [b'r', b'e', b'a', b'd', b' ', b'p', b' ', rest @ ..] => Some((NumberForm::Pending, rest)),
        [b'r', b'e', b'a', b'd', b' ', b'f', b' ', rest @ ..] => Some((NumberForm::Forgets, rest)),
        _ => None,
    }
}

/// The number that a text begins with, and the text behind the line feed after it.
#[inline(always)]
fn split_number(text: &[u8]) -> Option<(u64, &[u8])>
    ensures { IfSome result (λ r. lines_of text.now ≡ decimal r.0 ∷ lines_of r.1.now) }
{
    let mut number: u64 = 0;
    'digits: for (place, byte) in text.iter().enumerate() {
        if *byte < b'0' || b'9' < *byte {
            if *byte != b'\n' || place == 0 {
                return None;
            }
            // A zero before other digits is needless.
            if place != 1 && text[0] == b'0' {
                return None;
            }
            return Some((number, &text[place + 1..]));
        }
        let digit = u64::from(*byte - b'0');
        number = number.checked_mul(10)?.checked_add(digit)?;
    }
    None
}

/// The words and the number of the first line of a text, and the text behind the line feed that ends it.
#[inline(always)]
pub(crate) fn read_number_line(text: &[u8]) -> Option<(NumberForm, u64, &[u8])>
    ensures { IfSome result (λ r. lines_of text.now ≡ (number_start r.0 ++ decimal r.1) ∷ lines_of r.2.now) }
{
    let (form, rest) = split_words(text)?;
    let (number, behind) = split_number(rest)?;
    Some((form, number, behind))
}

/// What the line of these words and this number says.
#[inline(always)]
pub(crate) fn line_of_number<'a>(form: NumberForm, number: u64) -> Line<'a>
    ensures { LineHasWords result (words_of (number_start form ++ decimal number)) }
{
    let event = match form {
        NumberForm::Pending => Event::Read(Pick::Pending(number)),
        NumberForm::Forgets => Event::Read(Pick::Forgets(number)),
        NumberForm::Take => Event::Take(number),
        NumberForm::Do => Event::Do(number),
        NumberForm::Again => Event::Again(number),
        NumberForm::Write => Event::Write(number),
        NumberForm::Settle => Event::Settle(number),
        NumberForm::Tick => Event::Tick(number),
        NumberForm::Evict => Event::Evict(number),
    };
    Line::Event(event)
}
