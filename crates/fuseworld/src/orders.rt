//! The orders of `drive --orders`.

ghost use Rattle.std.specs.Prelude.{Contains};
ghost use Rattle.fuseworld.specs.ServeStatuses.{drive_statuses};

use crate::output::standard_output;
use crate::reason::cannot_open;
use fuse_text::no_memory;
use fw_orders::{Wanted, print_orders};
use fw_tasks::DriveTask;
use std::fs::File;
use std::io::{BufWriter, ErrorKind};

/// Which orders are printed.
fn wanted(asked: DriveTask<'_>) -> Wanted {
    match (asked.is_numbered, asked.nth) {
        (true, _) => Wanted::Number,
        (false, 0) => Wanted::All,
        (false, nth) => Wanted::Nth(nth),
    }
}

/// Prints the orders of a file of calls, and gives the exit status.
pub(crate) fn print_orders_of(rt: &HostRuntime, asked: DriveTask<'_>) -> u8
    ensures { Contains drive_statuses result }
{
    let alloc = rt.alloc();
    let mut faults = rt.stderr();
    let Ok(mut out) = BufWriter::new(alloc, standard_output(rt)) else {
        return no_memory(&mut faults);
    };
    let name = asked.file;
    if name == "-" {
        return print_orders(
            alloc,
            wanted(asked),
            name,
            &mut rt.reader(),
            &mut out,
            &mut faults,
        );
    }
    match File::open(rt, name) {
        Ok(mut input) => print_orders(
            alloc,
            wanted(asked),
            name,
            &mut input,
            &mut out,
            &mut faults,
        ),
        Err(error) if error.kind() == ErrorKind::OutOfMemory => no_memory(&mut faults),
        Err(error) => cannot_open(rt, name, &error),
    }
}
