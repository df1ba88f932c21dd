//! The lines that a server by itself is given.

ghost use Rattle.std.specs.Prelude.{◌≡◌, ◌++◌, ℕ, List, IfOk, IfSome, IsErr, None, codes, option_copied};
ghost use Rattle.fw_script.specs.Lines.{LineHasWords};
ghost use Rattle.fuse_text.specs.Words.{words_of};
ghost use Rattle.fw_sides.specs.ServerLines.{SaysServerEvent, SaysServerLine, settled_number};

use crate::words::{first_word, two_words};
use fs_server::ServerEvent;
use fuse_text::{is_hex_or_none, read_number};
use fw_script::{Line, LineFault, read_line};
use fw_world::{Event, WriteResult};

/// What a line says to a server by itself.
#[derive(Clone, Copy)]
pub enum ServerLine<'a> {
    Event(ServerEvent<'a>),
    /// Bytes are taken as a request. They are in hex, `-` for none.
    Take { hex: &'a [u8] },
    /// The nodes that the server holds are to be printed.
    Show,
}

/// The event of a script that a line names, where it is one of the server's.
fn server_event(event: Event<'_>) -> Option<ServerEvent<'_>>
    ensures { (text : List ℕ) → LineHasWords (Line.Event event.entry) (words_of text) → IfSome result (SaysServerEvent text) }
{
    match event {
        Event::Mount {
            found_ms,
            missing_ms,
            minor,
        } => Some(ServerEvent::Mount {
            found_ms,
            missing_ms,
            minor,
        }),
        Event::Do(unique) => Some(ServerEvent::Do(unique)),
        Event::Again(unique) => Some(ServerEvent::Again(unique)),
        Event::Abort => Some(ServerEvent::Abort),
        _ => None,
    }
}

/// What a line says whose words are those of a script's line.
fn read_script_line(line: &[u8]) -> Result<ServerLine<'_>, LineFault>
    ensures { IfOk result (SaysServerLine line.now) }
{
    match read_line(line)? {
        Line::Event(event) => match server_event(event) {
            Some(event) => Ok(ServerLine::Event(event)),
            None => Err(LineFault::UnknownEvent),
        },
        Line::Show => Ok(ServerLine::Show),
        Line::CallWrite { .. } => Err(LineFault::UnknownEvent),
    }
}

/// What the words behind `take` say.
fn read_take(rest: Option<&[u8]>) -> Result<ServerLine<'_>, LineFault>
    ensures said { IfOk result (λ said. IfSome (option_copied rest.entry)
        (λ hex. SaysServerLine (codes "take " ++ hex) said)) }
    ensures some { rest.entry ≡ None → IsErr result }
{
    let Some(hex) = rest else {
        return Err(LineFault::WrongWords);
    };
    if hex.is_empty() || hex.contains(&b' ') {
        return Err(LineFault::WrongWords);
    }
    if !is_hex_or_none(hex) {
        return Err(LineFault::BadText);
    }
    Ok(ServerLine::Take { hex })
}

/// What a writer got, by the number that is printed for it.
fn result_of(number: u64) -> Option<WriteResult>
    ensures { IfSome result (λ said_result. settled_number said_result ≡ number) }
{
    match number {
        0 => Some(WriteResult::Accepted),
        2 => Some(WriteResult::NoEntry),
        22 => Some(WriteResult::Invalid),
        _ => None,
    }
}

/// What the words behind `settle` say.
fn read_settle(rest: Option<&[u8]>) -> Result<ServerLine<'static>, LineFault>
    ensures said { IfOk result (λ said. IfSome (option_copied rest.entry)
        (λ text. SaysServerLine (codes "settle " ++ text) said)) }
    ensures some { rest.entry ≡ None → IsErr result }
{
    let Some((copy, result)) = two_words(rest) else {
        return Err(LineFault::WrongWords);
    };
    let (Some(copy), Some(number)) = (read_number(copy), read_number(result)) else {
        return Err(LineFault::BadNumber);
    };
    match result_of(number) {
        Some(result) => Ok(ServerLine::Event(ServerEvent::Settle { copy, result })),
        None => Err(LineFault::BadNumber),
    }
}

/// What a line says: `take HEX`, `settle N R` with the number of a copy and 0, 2 or 22, or a line of scripts that is
/// the server's (`mount V N [M]`, `do`, `again`, `abort`, `show`). Hex is borrowed from the line.
///
/// # Errors
///
/// The first of `UnknownEvent`, `WrongWords`, `BadNumber` and `BadText` that applies, as of a script's line.
pub fn read_server_line(line: &[u8]) -> Result<ServerLine<'_>, LineFault>
    ensures { IfOk result (SaysServerLine line.now) }
{
    let (word, rest) = first_word(line);
    match word {
        b"take" => read_take(rest),
        b"settle" => read_settle(rest),
        b"mount" | b"do" | b"again" | b"abort" | b"show" => read_script_line(line),
        _ => Err(LineFault::UnknownEvent),
    }
}
