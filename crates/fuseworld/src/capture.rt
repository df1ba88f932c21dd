//! The commands on captures: `decode`, `check`, and `draw` with `--around`.

ghost use Rattle.std.specs.Prelude.{Contains};
ghost use Rattle.fuseworld.specs.Doing.{DoesCapture};
ghost use Rattle.fuseworld.specs.Statuses.{capture_statuses};

use crate::output::standard_output;
use crate::reason::cannot_open;
use fuse_text::no_memory;
use fw_check::{CheckOptions, run_check};
use fw_decode::run_decode;
use fw_sequence::draw_capture;
use std::alloc::Allocator;
use std::fs::File;
use std::io;
use std::io::{BufRead, BufReader, BufWriter, ErrorKind, Write};

/// What is done with a capture.
#[derive(Clone, Copy)]
pub enum CaptureTask {
    /// Its frames are printed in words.
    Decode,
    /// It is judged.
    Check(CheckOptions),
    /// The frames around a line are printed as a picture.
    Sequence { around: u64 },
}

/// Does a task on a capture, and gives the exit status: what `run_decode`, `run_check` and `draw_capture` give.
fn do_capture<A: Allocator + Copy, R: BufRead, W: Write, F: Write>(
    alloc: A,
    task: CaptureTask,
    name: &str,
    input: &mut R,
    out: &mut W,
    faults: &mut F,
) -> u8
    ensures statuses { Contains (capture_statuses task) result }
    ensures does { DoesCapture W.contents F.contents task name.now (R.remaining input.old) out.old out.new faults.old
        faults.new result }
{
    match task {
        CaptureTask::Decode => run_decode(alloc, name, input, out, faults),
        CaptureTask::Check(options) => run_check(alloc, options, name, input, out, faults),
        CaptureTask::Sequence { around } => draw_capture(alloc, name, around, input, out, faults),
    }
}

/// Says why a capture is not read, and gives the exit status.
fn not_read(rt: &HostRuntime, task: CaptureTask, name: &str, error: &io::Error) -> u8
    ensures { Contains (capture_statuses task) result }
{
    if error.kind() == ErrorKind::OutOfMemory {
        return no_memory(&mut rt.stderr());
    }
    cannot_open(rt, name, error)
}

/// Reads a capture line by line, and gives the exit status.
fn read_lines<R: BufRead>(rt: &HostRuntime, task: CaptureTask, name: &str, input: &mut R) -> u8
    ensures { Contains (capture_statuses task) result }
{
    let alloc = rt.alloc();
    let mut faults = rt.stderr();
    let Ok(mut out) = BufWriter::new(alloc, standard_output(rt)) else {
        return no_memory(&mut faults);
    };
    do_capture(alloc, task, name, input, &mut out, &mut faults)
}

/// Opens the file of a capture.
fn open(rt: &HostRuntime, path: &str) -> io::Result<BufReader<File>> {
    let file = File::open(rt, path)?;
    BufReader::new(rt.alloc(), file)
}

/// Reads the capture in a file.
fn read_file(rt: &HostRuntime, task: CaptureTask, path: &str) -> u8
    ensures { Contains (capture_statuses task) result }
{
    match open(rt, path) {
        Ok(mut input) => read_lines(rt, task, path, &mut input),
        Err(error) => not_read(rt, task, path, &error),
    }
}

/// Reads the capture on standard input, each line as it comes.
fn read_input(rt: &HostRuntime, task: CaptureTask) -> u8
    ensures { Contains (capture_statuses task) result }
{
    match BufReader::new(rt.alloc(), rt.reader()) {
        Ok(mut input) => read_lines(rt, task, "-", &mut input),
        Err(_) => no_memory(&mut rt.stderr()),
    }
}

/// Reads the capture in a file, or on standard input where there is none or it is `-`, and gives the exit status.
pub fn run_capture(rt: &HostRuntime, task: CaptureTask, file: Option<&str>) -> u8
    ensures { Contains (capture_statuses task) result }
{
    match file {
        None | Some("-") => read_input(rt, task),
        Some(path) => read_file(rt, task, path),
    }
}
