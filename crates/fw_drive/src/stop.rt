//! Why a driven run ends before its script does.

ghost use Rattle.std.specs.Prelude.{◌≡◌, ◌⊎◌, Err, IfErr, OnErr, OnOk, codes};
ghost use Rattle.std.specs.Io.KnownBytes.{Appends, Keeps as KeepsContents};
ghost use Rattle.fuse_text.specs.Outputs.{AppendsSome};
ghost use Rattle.fw_drive.specs.Findings.{end_status};
ghost use Rattle.fw_drive.specs.Printed.{stop_line};
ghost use Rattle.fw_drive.specs.Runs.{IsStopStatus, IsUnprinted, SaysStop, stop_of, stop_status};

use crate::fault::Unanswered;
use crate::printing::print_refusal;
use crate::request_words::print_no_reply;
use fk_drive::DriveEnd;
use fuse_device::DeviceEnd;
use fuse_spec::Refusal;
use fuse_text::{OutputRefused, no_memory, write_text};
use std::alloc::Allocator;
use std::io::Write;

/// Why a run ends before its script does.
#[derive(Clone, Copy, Debug, PartialEq, Eq)]
pub(crate) enum Stop {
    /// The server's side of the device came to its end.
    ServerEnded,
    /// No reply came in time.
    NoReply,
    /// The device failed: it took no frame, or what came was none.
    DeviceFailed,
    /// As many frames wait for the kernel as are kept.
    TooMany,
    /// Out of memory.
    NoMemory,
    /// The kernel refused the error reply for a directory that could not be opened.
    Refused(Refusal),
    /// The output refused.
    OutputRefused,
}

/// The stop of an end.
pub(crate) fn stop_at(end: DriveEnd) -> Stop
    ensures { result ≡ stop_of end }
{
    match end {
        DriveEnd::Device(DeviceEnd::Ended) => Stop::ServerEnded,
        DriveEnd::Device(DeviceEnd::TimedOut) => Stop::NoReply,
        DriveEnd::Device(DeviceEnd::Failed) => Stop::DeviceFailed,
        DriveEnd::Memory => Stop::NoMemory,
        DriveEnd::TooMany => Stop::TooMany,
        DriveEnd::Refused(refusal) => Stop::Refused(refusal),
    }
}

impl Stop {
    /// Writes the line that says it, and where no reply came what waits for one.
    fn write_line<A: Allocator, W: Write>(
        self,
        waits: Option<Unanswered>,
        out: &mut W,
    ) -> Result<(), OutputRefused>
        ensures ok { OnOk result (Appends (W.contents out.old) (W.contents out.new) (stop_line A waits self)) }
        ensures refused { OnErr result (AppendsSome (W.contents out.old) (W.contents out.new) (stop_line A waits self)) }
    {
        match self {
            Stop::ServerEnded => write_text(out, b"server ended\n"),
            Stop::NoReply => print_no_reply(out, waits),
            Stop::DeviceFailed => write_text(out, b"device failed\n"),
            Stop::TooMany => write_text(out, b"device failed: 10000 frames wait\n"),
            Stop::Refused(refusal) => print_refusal::<A, W>(out, refusal),
            Stop::NoMemory | Stop::OutputRefused => Ok(()),
        }
    }

    /// Writes the line that says it, and hands it on.
    fn say<A: Allocator, W: Write>(
        self,
        waits: Option<Unanswered>,
        out: &mut W,
    ) -> Result<(), OutputRefused>
        ensures ok { OnOk result (Appends (W.contents out.old) (W.contents out.new) (stop_line A waits self)) }
        ensures refused { OnErr result (AppendsSome (W.contents out.old) (W.contents out.new) (stop_line A waits self)) }
    {
        match self.write_line::<A, W>(waits, out) {
            Ok(()) => match out.flush() {
                Ok(()) => Ok(()),
                Err(_refused) => Err(OutputRefused),
            },
            Err(refused) => Err(refused),
        }
    }

    /// The exit status.
    fn status(self) -> u8
        ensures { result ≡ stop_status self }
    {
        match self {
            Stop::NoMemory | Stop::Refused(Refusal::NoMemory) => 3,
            Stop::OutputRefused => 5,
            _ => 4,
        }
    }

    /// Says it, out of memory on `faults` and all else on the output, and gives the exit status. Where no reply came it says
    /// what waits for one.
    pub(crate) fn report<A: Allocator, W: Write, F: Write>(
        self,
        waits: Option<Unanswered>,
        out: &mut W,
        faults: &mut F,
    ) -> u8
        ensures status { IsStopStatus self result }
        ensures says { SaysStop A waits (Err self) result (W.contents out.old) (W.contents out.new) }
        ensures no_memory { result ≡ 3 → AppendsSome (F.contents faults.old) (F.contents faults.new) (codes "no memory\n") }
        ensures no_fault { (result ≡ 4) ⊎ (result ≡ 5) → faults.new ≡ faults.old }
    {
        match self.say::<A, W>(waits, out) {
            Ok(()) => match self.status() {
                3 => no_memory(faults),
                status => status,
            },
            Err(_refused) => match self.status() {
                3 => no_memory(faults),
                4 => 5,
                status => status,
            },
        }
    }
}

/// The exit status of a run that came to its end.
pub(crate) fn status_at_end(is_report_only: bool, is_wrong: bool) -> u8
    ensures { result ≡ end_status is_report_only is_wrong }
{
    if is_wrong && !is_report_only { 6 } else { 0 }
}

/// Hands on what was printed.
pub(crate) fn flush<W: Write>(out: &mut W) -> Result<(), Stop>
    ensures keeps { KeepsContents (W.contents out.old) (W.contents out.new) }
    ensures own { IfErr result IsUnprinted }
{
    match out.flush() {
        Ok(()) => Ok(()),
        Err(_refused) => Err(Stop::OutputRefused),
    }
}
