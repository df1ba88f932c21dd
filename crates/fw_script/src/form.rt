//! What lines begin with.

ghost use Rattle.std.specs.Prelude.{◌≡◌, ◌≢◌, ◌++◌, ◌∷◌, [], ℕ, List, MatchOption, codes, option_copied};
ghost use Rattle.fw_script.specs.Forms.{form_words, read_name, word_name};
ghost use Rattle.fuse_text.specs.Words.{words_of, words_left};

use crate::call_line::{CallForm, form_of_call};
use fuse_text::split_word;

/// What a line begins with: a word, or `call` or `read` and a second.
#[derive(Clone, Copy)]
pub(crate) enum Form {
    Word(WordForm),
    Call(CallForm),
    Read(ReadForm),
}

/// What a word alone begins.
#[derive(Clone, Copy)]
pub(crate) enum WordForm {
    Mount,
    Take,
    Do,
    Again,
    Write,
    Settle,
    Interrupt,
    Tick,
    DropName,
    Evict,
    Abort,
    Show,
}

/// What is read from the kernel.
#[derive(Clone, Copy)]
pub(crate) enum ReadForm {
    Interrupt,
    Forgets,
    Pending,
}

/// The form that one of the words of messages names.
#[inline(always)]
fn form_of_message(word: &[u8]) -> Option<WordForm>
    ensures { MatchOption result
        ((codes "take" ≢ word.now) × (codes "do" ≢ word.now) × (codes "again" ≢ word.now)
        × (codes "write" ≢ word.now) × (codes "settle" ≢ word.now) × (codes "intr" ≢ word.now))
        (λ f. word_name f ≡ word.now) }
{
    match word {
        b"take" => Some(WordForm::Take),
        b"do" => Some(WordForm::Do),
        b"again" => Some(WordForm::Again),
        b"write" => Some(WordForm::Write),
        b"settle" => Some(WordForm::Settle),
        b"intr" => Some(WordForm::Interrupt),
        _ => None,
    }
}

/// The form that one word names.
fn form_of_word(word: &[u8]) -> Option<WordForm>
    ensures { MatchOption result
        ((f : WordForm) → word_name f ≢ word.now)
        (λ f. word_name f ≡ word.now) }
{
    if let Some(form) = form_of_message(word) {
        return Some(form);
    }
    match word {
        b"mount" => Some(WordForm::Mount),
        b"tick" => Some(WordForm::Tick),
        b"drop" => Some(WordForm::DropName),
        b"evict" => Some(WordForm::Evict),
        b"abort" => Some(WordForm::Abort),
        b"show" => Some(WordForm::Show),
        _ => None,
    }
}

/// The form that `read` and a word name.
fn form_of_read(word: &[u8]) -> Option<ReadForm>
    ensures { MatchOption result
        ((f : ReadForm) → read_name f ≢ word.now)
        (λ f. read_name f ≡ word.now) }
{
    match word {
        b"i" => Some(ReadForm::Interrupt),
        b"f" => Some(ReadForm::Forgets),
        b"p" => Some(ReadForm::Pending),
        _ => None,
    }
}

/// The form of a line, and the text after its words.
pub(crate) fn split_form(line: &[u8]) -> Option<(Form, Option<&[u8]>)>
    ensures { MatchOption result
        ((f : Form) (rest : List (List ℕ)) → words_of line.now ≢ form_words f ++ rest)
        (λ r. words_of line.now ≡ form_words r.0 ++ words_left (option_copied r.1)) }
{
    let (first, rest) = split_word(line);
    match first {
        b"call" => {
            let (second, rest) = split_word(rest?);
            Some((Form::Call(form_of_call(second)?), rest))
        }
        b"read" => {
            let (second, rest) = split_word(rest?);
            Some((Form::Read(form_of_read(second)?), rest))
        }
        _ => Some((Form::Word(form_of_word(first)?), rest)),
    }
}
