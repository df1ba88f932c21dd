//! The commands `kernel` and `server`: each side by itself, given one line after another.

ghost use Rattle.std.specs.Prelude.{◌∷◌, [], Contains};

use crate::output::standard_output;
use fuse_text::{LineError, cannot_read, no_memory};
use fw_sides::{End, run_kernel, run_server};
use fw_tasks::SideTask;
use std::io::{BufReader, BufWriter};

/// The exit status at an end, once it is said on standard error.
fn status_at(rt: &HostRuntime, end: End) -> u8
    ensures { Contains (1 ∷ 3 ∷ 5 ∷ []) result }
{
    match end {
        End::Input(LineError::CannotRead) => cannot_read("-", &mut rt.stderr()),
        End::Input(LineError::NoMemory) => no_memory(&mut rt.stderr()),
        End::OutputRefused => 5,
    }
}

/// Is one side by itself until standard input ends, and gives the exit status.
pub fn run_side(rt: &HostRuntime, task: SideTask) -> u8
    ensures { Contains (0 ∷ 1 ∷ 3 ∷ 5 ∷ []) result }
{
    let alloc = rt.alloc();
    let Ok(mut input) = BufReader::new(alloc, rt.reader()) else {
        return no_memory(&mut rt.stderr());
    };
    let Ok(mut out) = BufWriter::new(alloc, standard_output(rt)) else {
        return no_memory(&mut rt.stderr());
    };
    let ended = match task {
        SideTask::Kernel(form) => run_kernel(alloc, form, &mut input, &mut out),
        SideTask::Server(form) => run_server(alloc, form, &mut input, &mut out),
    };
    match ended {
        Ok(()) => 0,
        Err(end) => status_at(rt, end),
    }
}
