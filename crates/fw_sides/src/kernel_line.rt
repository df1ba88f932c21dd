//! The lines that a kernel by itself is given.

ghost use Rattle.std.specs.Prelude.{◌≡◌, ◌++◌, ℕ, List, IfOk, IfSome, IsErr, None, codes, option_copied};
ghost use Rattle.fw_script.specs.Lines.{LineHasWords};
ghost use Rattle.fuse_text.specs.Words.{words_of};
ghost use Rattle.fw_sides.specs.KernelLines.{SaysEvent, SaysLine};

use crate::words::first_word;
use fk_kernel::KernelEvent;
use fuse_text::is_hex_or_none;
use fw_script::{Line, LineFault, read_line};
use fw_world::Event;

/// What a line says to a kernel by itself.
#[derive(Clone, Copy)]
pub enum KernelLine<'a> {
    Event(KernelEvent<'a>),
    /// A call that puts bytes into an open file. They are in hex, `-` for none.
    CallWrite {
        open_call: u64,
        offset: u64,
        hex: &'a [u8],
    },
    /// Bytes are written as a reply. They are in hex, `-` for none.
    Write {
        hex: &'a [u8],
    },
    /// The nodes that the kernel counts are to be printed.
    Show,
}

/// The event of a script that a line names, where it is one of the kernel's alone.
fn kernel_event(event: Event<'_>) -> Option<KernelEvent<'_>>
    ensures { (text : List ℕ) → LineHasWords (Line.Event event.entry) (words_of text) → IfSome result (SaysEvent text) }
{
    match event {
        Event::Call(call) => Some(KernelEvent::Call(call)),
        Event::Read(pick) => Some(KernelEvent::Read(pick)),
        Event::Interrupt { call, fatal } => Some(KernelEvent::Interrupt { call, fatal }),
        Event::Tick(ms) => Some(KernelEvent::Tick(ms)),
        Event::DropName { directory, name } => Some(KernelEvent::DropName { directory, name }),
        Event::Evict(node) => Some(KernelEvent::Evict(node)),
        Event::Abort => Some(KernelEvent::Abort),
        Event::Mount { .. }
        | Event::Take(_)
        | Event::Do(_)
        | Event::Again(_)
        | Event::Write(_)
        | Event::Settle(_) => None,
    }
}

/// What a line says whose words are those of a script's line.
fn read_script_line(line: &[u8]) -> Result<KernelLine<'_>, LineFault>
    ensures { IfOk result (SaysLine line.now) }
{
    match read_line(line)? {
        Line::Event(event) => match kernel_event(event) {
            Some(event) => Ok(KernelLine::Event(event)),
            None => Err(LineFault::UnknownEvent),
        },
        Line::CallWrite {
            open_call,
            offset,
            hex,
        } => Ok(KernelLine::CallWrite {
            open_call,
            offset,
            hex,
        }),
        Line::Show => Ok(KernelLine::Show),
    }
}

/// What the words behind `write` say.
fn read_write(rest: Option<&[u8]>) -> Result<KernelLine<'_>, LineFault>
    ensures said { IfOk result (λ said. IfSome (option_copied rest.entry) (λ hex. SaysLine (codes "write " ++ hex) said)) }
    ensures some { rest.entry ≡ None → IsErr result }
{
    let Some(hex) = rest else {
        return Err(LineFault::WrongWords);
    };
    if hex.is_empty() || hex.contains(&b' ') {
        return Err(LineFault::WrongWords);
    }
    if !is_hex_or_none(hex) {
        return Err(LineFault::BadText);
    }
    Ok(KernelLine::Write { hex })
}

/// What a line says: `mount`, `write HEX`, or a line of scripts that is the kernel's alone (`call`, `read`, `intr`,
/// `tick`, `drop`, `evict`, `abort`, `show`). Paths, names and hex are borrowed from the line.
///
/// # Errors
///
/// The first of `UnknownEvent`, `WrongWords`, `BadNumber` and `BadText` that applies, as of a script's line.
pub fn read_kernel_line(line: &[u8]) -> Result<KernelLine<'_>, LineFault>
    ensures { IfOk result (SaysLine line.now) }
{
    let (word, rest) = first_word(line);
    match word {
        b"mount" => match rest {
            None => Ok(KernelLine::Event(KernelEvent::Mount)),
            Some(_) => Err(LineFault::WrongWords),
        },
        b"write" => read_write(rest),
        b"take" | b"do" | b"again" | b"settle" => Err(LineFault::UnknownEvent),
        _ => read_script_line(line),
    }
}
