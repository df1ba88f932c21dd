//! Lines as events.

ghost use Rattle.std.specs.Prelude.{◌≡◌, ◌∷◌, [], MatchResult, codes, option_copied};
ghost use Rattle.fw_script.specs.Arguments.{ArgumentFaultIs};
ghost use Rattle.fw_script.specs.Forms.{after_read, after_word, read_name, word_name};
ghost use Rattle.fw_script.specs.Lines.{WordsFaultIs, LineHasWords};
ghost use Rattle.fuse_text.specs.Words.{words_left, words_of};

use crate::arguments::{
    no_words, number_and_signal, number_and_text, one_number, two_numbers_and_minor,
};
use crate::call_line::line_of_call;
use crate::fault_words::words_of_fault;
use crate::form::{Form, ReadForm, WordForm, split_form};
use fw_world::{Event, Pick};
use thiserror::Error;

/// Why a line is no event: the first fault in their order.
#[derive(Clone, Copy, Debug, Drop, Error, PartialEq, Eq)]
#[error("{}", words_of_fault(*self))]
pub enum LineFault {
    /// The first word is not known, or, after `call` and `read`, the second.
    UnknownEvent,
    /// Too few words or too many, an empty one, or one in a signal's place that is none.
    WrongWords,
    /// A word is no decimal number below 2^64, or begins with a needless zero, or a mount's third is neither 15 nor 31.
    BadNumber,
    /// A path or a name has a byte outside 33 to 126, or hex is no pairs of lower-case digits.
    BadText,
}

/// What a line says.
#[derive(Clone, Copy)]
pub enum Line<'a> {
    /// An event.
    Event(Event<'a>),
    /// A call that puts bytes into an open file. They are in hex, `-` for none.
    CallWrite {
        open_call: u64,
        offset: u64,
        hex: &'a [u8],
    },
    /// The nodes of kernel and server are to be printed.
    Show,
}

/// What the line of a word says.
fn line_of_word(form: WordForm, rest: Option<&[u8]>) -> Result<Line<'_>, LineFault>
    ensures { let words = words_left (option_copied rest.entry) in MatchResult result
        (λ l. LineHasWords l (word_name form ∷ words))
        (ArgumentFaultIs (after_word form words) words) }
{
    let event = match form {
        WordForm::Mount => {
            let (found_ms, missing_ms, minor) = two_numbers_and_minor(rest)?;
            Event::Mount {
                found_ms,
                missing_ms,
                minor,
            }
        }
        WordForm::Take => Event::Take(one_number(rest)?),
        WordForm::Do => Event::Do(one_number(rest)?),
        WordForm::Again => Event::Again(one_number(rest)?),
        WordForm::Write => Event::Write(one_number(rest)?),
        WordForm::Settle => Event::Settle(one_number(rest)?),
        WordForm::Interrupt => {
            let (call, fatal) = number_and_signal(rest)?;
            Event::Interrupt { call, fatal }
        }
        WordForm::Tick => Event::Tick(one_number(rest)?),
        WordForm::DropName => {
            let (directory, name) = number_and_text(rest)?;
            Event::DropName { directory, name }
        }
        WordForm::Evict => Event::Evict(one_number(rest)?),
        WordForm::Abort => {
            no_words(rest)?;
            Event::Abort
        }
        WordForm::Show => {
            no_words(rest)?;
            return Ok(Line::Show);
        }
    };
    Ok(Line::Event(event))
}

/// What the line of a read says.
fn line_of_read(form: ReadForm, rest: Option<&[u8]>) -> Result<Line<'_>, LineFault>
    ensures { let words = words_left (option_copied rest.entry) in MatchResult result
        (λ l. LineHasWords l (codes "read" ∷ read_name form ∷ words))
        (ArgumentFaultIs (after_read form) words) }
{
    let pick = match form {
        ReadForm::Interrupt => {
            no_words(rest)?;
            Pick::Interrupt
        }
        ReadForm::Forgets => Pick::Forgets(one_number(rest)?),
        ReadForm::Pending => Pick::Pending(one_number(rest)?),
    };
    Ok(Line::Event(Event::Read(pick)))
}

/// What a line says. Its paths, its name and its hex are borrowed from the line.
///
/// The fault is the first of `UnknownEvent`, `WrongWords`, `BadNumber` and `BadText` that applies.
pub fn read_line(line: &[u8]) -> Result<Line<'_>, LineFault>
    ensures { MatchResult result (λ l. LineHasWords l (words_of line.now)) (WordsFaultIs (words_of line.now)) }
{
    let Some((form, rest)) = split_form(line) else {
        return Err(LineFault::UnknownEvent);
    };
    match form {
        Form::Word(form) => line_of_word(form, rest),
        Form::Call(form) => line_of_call(form, rest),
        Form::Read(form) => line_of_read(form, rest),
    }
}
