//! Why a command ends early: its line on standard error, and its exit status.

ghost use Rattle.std.specs.Prelude.{◌≡◌};
ghost use Rattle.fw_frames.specs.Stops.{frame_status_of};

use std::io::Write;
use thiserror::Error;

/// Why a command ends early.
#[derive(Clone, Copy, Debug, Drop, Error)]
pub(crate) enum Stop<'a> {
    #[error("bad hex")]
    BadHex,
    #[error("unknown opcode {name}")]
    UnknownOpcode { name: &'a str },
    #[error("no memory")]
    NoMemory,
    #[error("output refused")]
    OutputRefused,
}

impl Stop<'_> {
    /// Writes the line on standard error, and gives the exit status. Where standard output refuses, nothing more is
    /// printed.
    ///
    /// What `faults` refuses is lost.
    pub(crate) fn report<F: Write>(self, faults: &mut F) -> u8
        ensures { result ≡ frame_status_of self.entry }
    {
        if !matches!(self, Stop::OutputRefused) {
            let _ = writeln!(faults, "{self}");
        }
        self.status()
    }

    /// The exit status: 1 where the text is no hex, 2 where the command line names no opcode, 3 where memory runs
    /// out, 5 where standard output refuses.
    fn status(self) -> u8
        ensures { result ≡ frame_status_of self.entry }
    {
        match self {
            Stop::BadHex => 1,
            Stop::UnknownOpcode { .. } => 2,
            Stop::NoMemory => 3,
            Stop::OutputRefused => 5,
        }
    }
}
