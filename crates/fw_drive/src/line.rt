//! The lines of a script that drives a server.

ghost use Rattle.std.specs.Prelude.{◌≡◌, ◌≢◌, ◌<◌, ◌⊎◌, ◌∷◌, ◌↔◌, [], ℕ, List, IfOk};
ghost use Rattle.std.specs.Prelude.{IsTrue, MatchOption, MatchResult, codes, length};
ghost use Rattle.fw_script.specs.Arguments.{IsText};
ghost use Rattle.fw_script.specs.Scripts.{IsPassedOver};
ghost use Rattle.fuse_text.specs.Words.{words_of};
ghost use Rattle.fw_drive.specs.DriveLines.{DriveFaultIs, DriveLineFaultIs, DriveLineHasWords, IsFlagsWord, IsForeign};
ghost use Rattle.fw_drive.specs.DriveLines.{IsGoodDriveLine, IsOfCalls, IsOfFrames, IsOfServer, OpensWith};

use crate::form::Form;
use crate::parts::{four_words, one_word};
use fuse_text::split_word;
use fw_script::{Line, LineFault, is_passed_over, read_line};
use fw_world::{Call, Event, Pick};

/// O_RDONLY, O_WRONLY and O_RDWR of open(2), each with O_LARGEFILE, as a kernel sends them in OPEN.
const READING: u32 = 0x8000;

const WRITING: u32 = 0x8001;

pub(crate) const BOTH: u32 = 0x8002;

/// What a line says. Paths, names and hex are borrowed from it.
#[derive(Clone, Copy)]
pub(crate) enum DriveLine<'a> {
    /// An event of the kernel that needs no server.
    Event(Event<'a>),
    /// A request is read from the kernel, and sent.
    Read(Pick),
    /// The file at a path is opened, and OPEN has these flags from now on.
    Open {
        path: &'a [u8],
        flags: u32,
    },
    /// A call that puts bytes into an open file. They are in hex, `-` for none.
    CallWrite {
        open_call: u64,
        offset: u64,
        hex: &'a [u8],
    },
    /// The next frame of the server is written to the kernel.
    Write,
    /// The nodes that the kernel counts are to be printed.
    Show,
}

/// Whether a word begins the lines of a server alone.
fn is_of_server(word: &[u8]) -> bool
    ensures { IsTrue result ↔ IsOfServer word.now }
{
    matches!(word, b"take" | b"do" | b"again" | b"settle")
}

/// Whether a word begins lines that a script of calls has not.
fn is_of_frames(word: &[u8]) -> bool
    ensures { IsTrue result ↔ IsOfFrames word.now }
{
    matches!(word, b"mount" | b"read" | b"write" | b"intr")
}

/// Whether a word begins no line of such a script.
fn is_foreign(form: Form, word: &[u8]) -> bool
    ensures { IsTrue result ↔ (IsOfServer word.now ⊎ (IsOfCalls form × IsOfFrames word.now)) }
{
    is_of_server(word) || (form.is_of_calls() && is_of_frames(word))
}

/// The flags of OPEN that a word names.
fn flags_of(word: &[u8]) -> Option<u32>
    ensures { MatchOption result ((flags : ℕ) → ¬ (IsFlagsWord flags word.now)) (λ flags. IsFlagsWord flags word.now) }
{
    match word {
        b"r" => Some(READING),
        b"w" => Some(WRITING),
        b"rw" => Some(BOTH),
        _ => None,
    }
}

/// Whether a word is a path: it is not empty, and made of bytes from 33 to 126.
fn is_path(word: &[u8]) -> bool
    ensures { IsTrue result ↔ (IsText word.now × (0 < length word.now)) }
{
    !word.is_empty() && word.iter().all(|byte| 33 <= *byte && *byte <= 126)
}

/// The path and the flags of a line `call open PATH FLAGS`.
fn read_open(line: &[u8]) -> Option<(&[u8], u32)>
    ensures { MatchOption result
        ((path : List ℕ) (flags : ℕ) → ¬ (OpensWith path flags (words_of line.now)))
        (λ opens. OpensWith opens.0.now opens.1 (words_of line.now)) }
{
    let (call, open, path, word) = four_words(line)?;
    if call != b"call".as_slice() || open != b"open".as_slice() || !is_path(path) {
        return None;
    }
    match flags_of(word) {
        Some(flags) => Some((path, flags)),
        None => None,
    }
}

/// What a line says whose words are those of a script's line.
fn read_script_line(form: Form, line: &[u8]) -> Result<DriveLine<'_>, LineFault>
    requires known { ¬ (IsForeign form (words_of line.now)) }
    requires placed { words_of line.now ≢ codes "write" ∷ [] }
    requires plain { (path : List ℕ) (flags : ℕ) → ¬ (OpensWith path flags (words_of line.now)) }
    ensures { MatchResult result (λ l. DriveLineHasWords form l (words_of line.now))
        (DriveFaultIs form (words_of line.now)) }
{
    let _ = form;
    match read_line(line) {
        Ok(Line::Event(Event::Call(Call::Open { path }))) => Ok(DriveLine::Open {
            path,
            flags: BOTH,
        }),
        Ok(Line::Event(Event::Read(pick))) => Ok(DriveLine::Read(pick)),
        Ok(Line::Event(Event::Write(_))) => Err(LineFault::WrongWords),
        Ok(Line::Event(event)) => Ok(DriveLine::Event(event)),
        Ok(
            Line::CallWrite {
                open_call,
                offset,
                hex,
            },
        ) => Ok(DriveLine::CallWrite {
            open_call,
            offset,
            hex,
        }),
        Ok(Line::Show) => Ok(DriveLine::Show),
        Err(fault) => Err(fault),
    }
}

/// Whether a line is the word `write` alone.
fn is_write(line: &[u8]) -> bool
    ensures { IsTrue result ↔ (words_of line.now ≡ codes "write" ∷ []) }
{
    match one_word(Some(line)) {
        Some(word) => word == b"write".as_slice(),
        None => false,
    }
}

/// Whether a line begins as no line of such a script does.
fn begins_foreign(form: Form, line: &[u8]) -> bool
    ensures { IsTrue result ↔ IsForeign form (words_of line.now) }
{
    let (word, _) = split_word(line);
    is_foreign(form, word)
}

/// What a line says: a line of scripts that is the kernel's, where `call open` takes a further word, `r`, `w` or `rw`,
/// and `write` no place. A script of calls has `call`, `tick`, `drop`, `evict`, `abort` and `show` alone.
///
/// # Errors
///
/// The first of `UnknownEvent`, `WrongWords`, `BadNumber` and `BadText` that applies, as of a script's line.
fn read_drive_line(form: Form, line: &[u8]) -> Result<DriveLine<'_>, LineFault>
    ensures { MatchResult result (λ l. DriveLineHasWords form l (words_of line.now))
        (DriveFaultIs form (words_of line.now)) }
{
    if begins_foreign(form, line) {
        return Err(LineFault::UnknownEvent);
    }
    if is_write(line) {
        return Ok(DriveLine::Write);
    }
    match read_open(line) {
        Some((path, flags)) => Ok(DriveLine::Open { path, flags }),
        None => read_script_line(form, line),
    }
}

/// What a line says, if it says anything.
///
/// # Errors
///
/// As `read_drive_line`.
pub(crate) fn read_any(form: Form, line: &[u8]) -> Result<Option<DriveLine<'_>>, LineFault>
    ensures judged { MatchResult result (λ said. IsGoodDriveLine form line.now) (DriveLineFaultIs form line.now) }
    ensures says { IfOk result (λ said. MatchOption said (IsPassedOver line.now)
        (λ l. DriveLineHasWords form l (words_of line.now))) }
{
    if is_passed_over(line) {
        return Ok(None);
    }
    let said = read_drive_line(form, line)?;
    Ok(Some(said))
}
