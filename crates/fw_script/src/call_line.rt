//! The lines of system calls: for each call its name, the words that follow it, and what they say.

ghost use Rattle.std.specs.Prelude.{◌≡◌, ◌≢◌, ◌∷◌, [], MatchOption, MatchResult, codes, option_copied};
ghost use Rattle.fw_script.specs.Arguments.{ArgumentFaultIs, IsText};
ghost use Rattle.fw_script.specs.CallLines.{HasTexts, arguments_of_call, call_name, path_name, spelled_call};
ghost use Rattle.fw_script.specs.Lines.{LineHasWords};
ghost use Rattle.fuse_text.specs.Words.{words_left};

use crate::arguments::{
    one_number, one_text, text_and_number, three_numbers, two_numbers_and_hex, two_texts,
};
use crate::line::{Line, LineFault};
use fw_world::{Call, Event};

/// The system call that a line begins.
#[derive(Clone, Copy)]
pub(crate) enum CallForm {
    OfPath(PathForm),
    List,
    ListPlus,
    Rename,
    Link,
    Read,
    Write,
    Close,
}

/// A system call with a path alone.
#[derive(Clone, Copy)]
pub(crate) enum PathForm {
    Stat,
    Open,
    Mkdir,
    Create,
    Unlink,
    Rmdir,
}

/// The form that `call` and a word name where the call has a path alone.
#[inline(always)]
fn form_of_path(word: &[u8]) -> Option<PathForm>
    ensures { MatchOption result
        ((f : PathForm) → path_name f ≢ word.now)
        (λ f. path_name f ≡ word.now) }
{
    match word {
        b"stat" => Some(PathForm::Stat),
        b"open" => Some(PathForm::Open),
        b"mkdir" => Some(PathForm::Mkdir),
        b"create" => Some(PathForm::Create),
        b"unlink" => Some(PathForm::Unlink),
        b"rmdir" => Some(PathForm::Rmdir),
        _ => None,
    }
}

/// The form that `call` and a word name.
pub(crate) fn form_of_call(word: &[u8]) -> Option<CallForm>
    ensures { MatchOption result
        ((f : CallForm) → call_name f ≢ word.now)
        (λ f. call_name f ≡ word.now) }
{
    if let Some(form) = form_of_path(word) {
        return Some(CallForm::OfPath(form));
    }
    match word {
        b"list" => Some(CallForm::List),
        b"listplus" => Some(CallForm::ListPlus),
        b"rename" => Some(CallForm::Rename),
        b"link" => Some(CallForm::Link),
        b"read" => Some(CallForm::Read),
        b"write" => Some(CallForm::Write),
        b"close" => Some(CallForm::Close),
        _ => None,
    }
}

/// A call with a path alone.
fn call_of_path(form: PathForm, path: &[u8]) -> Call<'_>
    requires { IsText path.now }
    ensures words { spelled_call result ≡ path_name form ∷ path.entry.now ∷ [] }
    ensures texts { HasTexts result }
{
    match form {
        PathForm::Stat => Call::Stat { path },
        PathForm::Open => Call::Open { path },
        PathForm::Mkdir => Call::Mkdir { path },
        PathForm::Create => Call::Create { path },
        PathForm::Unlink => Call::Unlink { path },
        PathForm::Rmdir => Call::Rmdir { path },
    }
}

/// What the line of a call says.
pub(crate) fn line_of_call(form: CallForm, rest: Option<&[u8]>) -> Result<Line<'_>, LineFault>
    ensures { let words = words_left (option_copied rest.entry) in MatchResult result
        (λ l. LineHasWords l (codes "call" ∷ call_name form ∷ words))
        (ArgumentFaultIs (arguments_of_call form) words) }
{
    let call = match form {
        CallForm::OfPath(form) => call_of_path(form, one_text(rest)?),
        CallForm::List => {
            let (path, after) = text_and_number(rest)?;
            Call::List { path, after }
        }
        CallForm::ListPlus => {
            let (path, after) = text_and_number(rest)?;
            Call::ListPlus { path, after }
        }
        CallForm::Rename => {
            let (old, new) = two_texts(rest)?;
            Call::Rename { old, new }
        }
        CallForm::Link => {
            let (old, new) = two_texts(rest)?;
            Call::Link { old, new }
        }
        CallForm::Read => {
            let (open_call, offset, size) = three_numbers(rest)?;
            Call::Read {
                open_call,
                offset,
                size,
            }
        }
        CallForm::Write => {
            let (open_call, offset, hex) = two_numbers_and_hex(rest)?;
            return Ok(Line::CallWrite {
                open_call,
                offset,
                hex,
            });
        }
        CallForm::Close => Call::Close {
            open_call: one_number(rest)?,
        },
    };
    Ok(Line::Event(Event::Call(call)))
}
