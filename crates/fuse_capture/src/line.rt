//! What a line says, and what is wrong with one that says nothing.

ghost use Rattle.fuse_capture.specs.Faults.{capture_fault_words};

use fuse_sessions::Taken;
use fuse_text::LineFaultWords;
use thiserror::Error;

/// A frame, as a line has it.
#[derive(Clone, Copy, Debug, PartialEq, Eq)]
pub struct CapturedFrame<'a> {
    /// When it went over the device, in nanoseconds, if the line says it.
    pub time: Option<u64>,
    /// Its bytes as far as they were kept, as hex digits of either case.
    pub hex: &'a [u8],
    /// How many bytes more it had. Each is read as zero.
    pub more: u64,
}

/// What a line says.
#[derive(Clone, Copy, Debug, PartialEq, Eq)]
pub enum CaptureLine<'a> {
    /// A request was read.
    Request(CapturedFrame<'a>),
    /// A reply or a notification was written, and this is what the device made of it.
    Written(CapturedFrame<'a>, Taken),
    /// More than one thread reads from here on.
    SeveralReaders,
    /// Another thread than the one that reads writes replies, from here on.
    SeveralWriters,
    /// The device came to its end.
    Ended,
}

/// What is wrong with a line of a capture.
#[derive(Clone, Copy, Debug, Drop, PartialEq, Eq, Error)]
#[error("{}", self.words())]
pub enum CaptureFault {
    /// The line begins with none of `>`, `<` and `=`.
    UnknownDirection,
    /// The words after that are not those of any line.
    WrongWords,
    /// The frame is not one or more pairs of hex digits.
    BadHex,
}

impl LineFaultWords for CaptureFault {
    ghost words = { capture_fault_words };

    fn words(&self) -> &'static str {
        match *self {
            CaptureFault::UnknownDirection => "unknown direction",
            CaptureFault::WrongWords => "wrong words",
            CaptureFault::BadHex => "bad hex",
        }
    }
}
