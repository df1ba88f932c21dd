//! Why orders are not printed to the end.

ghost use Rattle.std.specs.Prelude.{◌≡◌, ◌++◌, OnErr, OnOk, codes};
ghost use Rattle.std.specs.Io.KnownBytes.{Appends};
ghost use Rattle.fuse_text.specs.Outputs.{AppendsSome};
ghost use Rattle.fw_orders.specs.Stops.{no_such_text, status_of, stop_text};

use crate::fault::LinesFault;
use fuse_text::{
    BAD_INPUT, OUTPUT_REFUSED, OutputRefused, bad_line, no_memory, write_number, write_text,
};
use std::io::Write;

/// Why a run ends early.
#[derive(Clone, Copy, Debug)]
pub(crate) enum Stop {
    /// A line of the file has a fault. Lines are numbered from 1.
    BadLine { number: usize, fault: LinesFault },
    /// An order has more messages than are allowed.
    TooLong,
    /// The order that was asked for is not among those that there are.
    NoSuchOrder { orders: u64 },
    NoMemory,
    OutputRefused,
}

/// Writes how many orders there are, where another was asked for.
fn write_no_such<F: Write>(faults: &mut F, orders: u64) -> Result<(), OutputRefused>
    ensures ok { OnOk result (Appends (F.contents faults.old) (F.contents faults.new) (no_such_text orders)) }
    ensures refused { OnErr result (AppendsSome (F.contents faults.old) (F.contents faults.new) (no_such_text orders)) }
{
    write_text(faults, b"no such order: there are ")?;
    write_number(faults, orders)?;
    write_text(faults, b"\n")
}

impl Stop {
    /// Writes the line on standard error, and gives the exit status: 1 where the file is at fault, 3 where memory runs out, 5
    /// where standard output refuses, after which nothing more is printed. What `faults` refuses is lost.
    pub(crate) fn report<F: Write>(self, faults: &mut F) -> u8
        ensures status { result ≡ status_of self }
        ensures said { AppendsSome (F.contents faults.old) (F.contents faults.new) (stop_text self) }
        ensures silent { status_of self ≡ 5 → faults.new ≡ faults.old }
    {
        match self {
            Stop::BadLine { number, fault } => bad_line(number as u64, fault.words(), faults),
            Stop::TooLong => {
                let _ = write_text(faults, b"an order has more than 256 messages\n");
                BAD_INPUT
            }
            Stop::NoSuchOrder { orders } => {
                let _ = write_no_such(faults, orders);
                BAD_INPUT
            }
            Stop::NoMemory => no_memory(faults),
            Stop::OutputRefused => OUTPUT_REFUSED,
        }
    }
}
