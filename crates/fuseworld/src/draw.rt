//! The command `draw`: a run as a picture.

ghost use Rattle.std.specs.Prelude.{◌∷◌, [], Contains};

use crate::capture::{CaptureTask, run_capture};
use crate::doing::{InputTask, do_task};
use crate::output::standard_output;
use fuse_text::{cannot_read, no_memory};
use std::fs::File;
use std::io::{BufWriter, ErrorKind};

/// Draws the run of the script in a file, or on standard input, and gives the exit status.
fn draw_run(rt: &HostRuntime, path: &str) -> u8
    ensures { Contains (0 ∷ 1 ∷ 3 ∷ 5 ∷ []) result }
{
    let alloc = rt.alloc();
    let mut faults = rt.stderr();
    let Ok(mut out) = BufWriter::new(alloc, standard_output(rt)) else {
        return no_memory(&mut faults);
    };
    let task = InputTask::Picture { name: path };
    if path == "-" {
        return do_task(alloc, task, &mut rt.reader(), &mut out, &mut faults);
    }
    match File::open(rt, path) {
        Ok(mut input) => do_task(alloc, task, &mut input, &mut out, &mut faults),
        Err(error) if error.kind() == ErrorKind::OutOfMemory => no_memory(&mut faults),
        Err(_) => cannot_read(path, &mut faults),
    }
}

/// Draws the run of a script, or the frames around a line of a capture where that is not 0, and gives the exit status.
pub fn run_draw(rt: &HostRuntime, path: &str, around: u64) -> u8
    ensures { Contains (0 ∷ 1 ∷ 3 ∷ 5 ∷ []) result }
{
    match around {
        0 => draw_run(rt, path),
        around => run_capture(rt, CaptureTask::Sequence { around }, Some(path)),
    }
}
