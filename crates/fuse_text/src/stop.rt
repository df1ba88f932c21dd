//! Why a command that reads lines stops before their end: its line on standard error, and its exit status.

ghost use Rattle.std.specs.Prelude.{◌≡◌, ◌≢◌, ◌++◌, ℕ, List, OnErr, OnOk, codes};
ghost use Rattle.std.specs.Io.KnownBytes.{Appends};
ghost use Rattle.fuse_text.specs.Outputs.{AppendsSome};
ghost use Rattle.fuse_text.specs.Stops.{bad_line, line_head, status_of, stop_line, unreadable};

use crate::lines::LineError;
use crate::output::{OutputRefused, write_number, write_text};
use std::io::Write;

/// The exit status where an input cannot be read or is at fault.
pub const BAD_INPUT: u8 = 1;

/// The exit status where memory runs out.
pub const NO_MEMORY: u8 = 3;

/// The exit status where a link, a socket or a device is lost.
pub const LOST: u8 = 4;

/// The exit status where standard output refuses.
pub const OUTPUT_REFUSED: u8 = 5;

/// The exit status where faults were found.
pub const FAULTS: u8 = 6;

/// What may be wrong with a line.
pub trait LineFaultWords {
    ghost words: { Self → List ℕ };

    /// The fault in words.
    fn words(&self) -> &'static str
        ensures { result.now ≡ words self.now };
}

/// Why a command that reads lines stops before their end.
#[derive(Clone, Copy, Debug, PartialEq, Eq)]
pub enum Stop<F> {
    /// The input cannot be read.
    CannotRead,
    /// A line, by its number from 1, has a fault.
    BadLine { number: u64, fault: F },
    NoMemory,
    OutputRefused,
}

impl<F> From<LineError> for Stop<F> {
    ghost use Rattle.std.specs.Prelude.{◌≡◌};
    ghost use Rattle.fuse_text.specs.Stops.{stopped_by};

    ghost from_gives = { λ error stop. stop ≡ stopped_by error };

    fn from(error: LineError) -> Stop<F> {
        match error {
            LineError::CannotRead => Stop::CannotRead,
            LineError::NoMemory => Stop::NoMemory,
        }
    }
}

/// Writes that an input cannot be read.
fn write_unreadable<F: Write>(faults: &mut F, name: &[u8]) -> Result<(), OutputRefused>
    ensures ok { OnOk result (Appends (F.contents faults.old) (F.contents faults.new)
        (unreadable name.now ++ codes "\n")) }
    ensures refused { OnErr result (AppendsSome (F.contents faults.old) (F.contents faults.new)
        (unreadable name.now ++ codes "\n")) }
{
    write_text(faults, b"cannot read ")?;
    write_text(faults, name)?;
    write_text(faults, b"\n")
}

/// Writes words to the end of a line.
fn write_words<F: Write>(faults: &mut F, words: &[u8]) -> Result<(), OutputRefused>
    ensures ok { OnOk result (Appends (F.contents faults.old) (F.contents faults.new) (words.now ++ codes "\n")) }
    ensures refused { OnErr result (AppendsSome (F.contents faults.old) (F.contents faults.new)
        (words.now ++ codes "\n")) }
{
    write_text(faults, words)?;
    write_text(faults, b"\n")
}

/// Writes a line's number.
fn write_head<F: Write>(faults: &mut F, number: u64) -> Result<(), OutputRefused>
    ensures ok { OnOk result (Appends (F.contents faults.old) (F.contents faults.new) (line_head number)) }
    ensures refused { OnErr result (AppendsSome (F.contents faults.old) (F.contents faults.new) (line_head number)) }
{
    write_text(faults, b"line ")?;
    write_number(faults, number)?;
    write_text(faults, b": ")
}

/// Writes a line's number and its fault.
fn write_bad_line<F: Write>(faults: &mut F, number: u64, words: &[u8]) -> Result<(), OutputRefused>
    ensures ok { OnOk result (Appends (F.contents faults.old) (F.contents faults.new)
        (bad_line number words.now ++ codes "\n")) }
    ensures refused { OnErr result (AppendsSome (F.contents faults.old) (F.contents faults.new)
        (bad_line number words.now ++ codes "\n")) }
{
    write_head(faults, number)?;
    write_words(faults, words)
}

/// Says on standard error that an input cannot be read, and gives the exit status, 1. What `faults` refuses is lost.
pub fn cannot_read<F: Write>(name: &str, faults: &mut F) -> u8
    ensures status { result ≡ 1 }
    ensures said { AppendsSome (F.contents faults.old) (F.contents faults.new) (unreadable name.now ++ codes "\n") }
{
    let _ = write_unreadable(faults, name.as_bytes());
    BAD_INPUT
}

/// Says on standard error what is wrong with a line, which its number from 1 names, and gives the exit status, 1. What
/// `faults` refuses is lost.
pub fn bad_line<F: Write>(number: u64, words: &str, faults: &mut F) -> u8
    ensures status { result ≡ 1 }
    ensures said { AppendsSome (F.contents faults.old) (F.contents faults.new) (bad_line number words.now ++ codes "\n") }
{
    let _ = write_bad_line(faults, number, words.as_bytes());
    BAD_INPUT
}

/// Says on standard error that memory runs out, and gives the exit status, 3. What `faults` refuses is lost.
pub fn no_memory<F: Write>(faults: &mut F) -> u8
    ensures status { result ≡ 3 }
    ensures said { AppendsSome (F.contents faults.old) (F.contents faults.new) (codes "no memory\n") }
{
    let _ = write_text(faults, b"no memory\n");
    NO_MEMORY
}

/// Says on standard error that a socket failed, and gives the exit status, 4. What `faults` refuses is lost.
pub fn socket_failed<F: Write>(faults: &mut F) -> u8
    ensures status { result ≡ 4 }
    ensures said { AppendsSome (F.contents faults.old) (F.contents faults.new) (codes "socket failed\n") }
{
    let _ = write_text(faults, b"socket failed\n");
    LOST
}

impl<F: LineFaultWords + Drop> Stop<F> {
    /// Writes the line on standard error, which names the input that cannot be read, and gives the exit status: 1 where that
    /// is so or a line has a fault, 3 where memory runs out, 5 where standard output refuses, after which nothing more is
    /// printed. What `faults` refuses is lost.
    pub fn report<W: Write>(self, name: &str, faults: &mut W) -> u8
        ensures status { result ≡ status_of self }
        ensures said { status_of self ≢ 5 → AppendsSome (W.contents faults.old) (W.contents faults.new)
            (stop_line F.words name.now self ++ codes "\n") }
        ensures silent { status_of self ≡ 5 → faults.new ≡ faults.old }
    {
        match self {
            Stop::CannotRead => cannot_read(name, faults),
            Stop::BadLine { number, fault } => bad_line(number, fault.words(), faults),
            Stop::NoMemory => no_memory(faults),
            Stop::OutputRefused => OUTPUT_REFUSED,
        }
    }
}
