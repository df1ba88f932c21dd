//! A line, read.

ghost use Rattle.std.specs.Prelude.{◌≡◌, ◌∷◌, ◌↔◌, ◌⊎◌, [], ℕ, List, IfErr, IfOk, IfSome, IsTrue, MatchOption, MatchResult, codes};
ghost use Rattle.std.specs.Prelude.{length, option_copied, slice_index};
ghost use Rattle.fuse_sessions.specs.declared.transfer.Transfer.{Transfer};
ghost use Rattle.fuse_capture.specs.Lines.{HasNoTransfer, IsPassedOver, IsTextOf, LineFaultIs, LineSays};
ghost use Rattle.fuse_text.specs.Words.{words_of};
ghost use Rattle.fuse_capture.specs.Readings.{AreRead, HasTime, IsBad, IsTransferOf};
ghost use Rattle.fuse_text.specs.Words.{words_left};

use crate::event::read_event;
use crate::frame::read_frame;
use crate::line::{CaptureFault, CaptureLine};
use crate::outcome::read_taken;
use fuse_text::split_word;

/// The text of a line: without a carriage return at its end.
fn text_of(line: &[u8]) -> &[u8]
    ensures { IsTextOf line.now result.now }
{
    match line {
        [text @ .., b'\r'] => text,
        _ => line,
    }
}

/// The request that the words after `>` say.
fn read_request(rest: Option<&[u8]>) -> Result<CaptureLine<'_>, CaptureFault>
    ensures { let words = codes ">" ∷ words_left (option_copied rest.entry) in MatchResult result (AreRead words) (IsBad words) }
{
    match read_frame(rest) {
        Ok((frame, None)) => Ok(CaptureLine::Request(frame)),
        Ok((_, Some(_))) => Err(CaptureFault::WrongWords),
        Err(fault) => Err(fault),
    }
}

/// The written frame that the words after `<` say.
fn read_written(rest: Option<&[u8]>) -> Result<CaptureLine<'_>, CaptureFault>
    ensures { let words = codes "<" ∷ words_left (option_copied rest.entry) in MatchResult result (AreRead words) (IsBad words) }
{
    match read_frame(rest) {
        Ok((frame, left)) => match read_taken(left) {
            Some(taken) => Ok(CaptureLine::Written(frame, taken)),
            None => Err(CaptureFault::WrongWords),
        },
        Err(fault) => Err(fault),
    }
}

/// Whether a text is empty or begins with `#`.
fn is_comment(text: &[u8]) -> bool
    ensures { IsTrue result ↔ ((length text.now ≡ 0) ⊎ (slice_index text.now 0 ≡ 35)) }
{
    matches!(text, [] | [b'#', ..])
}

/// What a text says that is no comment.
fn read_words(text: &[u8]) -> Result<Option<CaptureLine<'_>>, CaptureFault>
    ensures { let words = words_of text.now in MatchResult result
        (λ said. MatchOption said (words ≡ codes "=" ∷ codes "closed" ∷ []) (AreRead words))
        (IsBad words) }
{
    let (first, rest) = split_word(text);
    if first == b">".as_slice() {
        return Ok(Some(read_request(rest)?));
    }
    if first == b"<".as_slice() {
        return Ok(Some(read_written(rest)?));
    }
    if first == b"=".as_slice() {
        return read_event(rest);
    }
    Err(CaptureFault::UnknownDirection)
}

/// What a text says, if it says a transfer.
fn read_text(text: &[u8]) -> Result<Option<CaptureLine<'_>>, CaptureFault>
    ensures { MatchResult result
        (λ said. MatchOption said (HasNoTransfer text.now) (AreRead (words_of text.now)))
        (λ fault. ¬ (HasNoTransfer text.now) × IsBad (words_of text.now) fault) }
{
    if is_comment(text) {
        return Ok(None);
    }
    read_words(text)
}

/// What a line says, without its line feed: `None` where it says no transfer, as a comment and the server's end.
///
/// # Errors
///
/// What is wrong with a line that says nothing: `UnknownDirection`, or else `BadHex` or `WrongWords`.
pub fn read_line(line: &[u8]) -> Result<Option<CaptureLine<'_>>, CaptureFault>
    ensures says { IfOk result (λ said. MatchOption said (IsPassedOver line.now)
        (λ l. (t : Transfer) → IsTransferOf l t → LineSays line.now t)) }
    ensures time { IfOk result (λ said. IfSome said (λ l. (text : List ℕ) → IsTextOf line.now text
        → HasTime (words_of text) l)) }
    ensures fault { IfErr result (LineFaultIs line.now) }
{
    read_text(text_of(line))
}
