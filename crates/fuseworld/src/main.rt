//! Runs scripts of events on a FUSE kernel and its server, reads frames, and serves a kernel.
#![tactic(auto)]

mod capture;
mod check_task;
mod doing;
mod draw;
mod drive;
mod frame_commands;
mod judged;
mod orders;
mod output;
mod reason;
mod saying;
mod serve;
mod sides;
mod socket;
mod stream_frame;
mod timed_socket;
mod version;

ghost use Rattle.std.specs.Prelude.{◌∷◌, [], Contains, map, string_bytes};
ghost use Rattle.clap.specs.Words.{kind_of};
ghost use Rattle.fw_tasks.specs.Commands.{AreMinors, program_app};
ghost use Rattle.fuseworld.specs.Statuses.{EndsWith, ExitsAt, RefusesWith};

use clap::Error;
use doing::{InputTask, do_task};
use draw::run_draw;
use drive::run_drive_task;
use frame_commands::run_frame_task;
use fuse_text::{cannot_read, no_memory};
use fw_script::Script;
use fw_tasks::{Task, is_memory, read_task};
use output::standard_output;
use serve::run_serve;
use sides::run_side;
use socket::run_socket;
use std::fs::File;
use std::io::{BufWriter, ErrorKind, IsTerminal, Read, Write};
use std::process::ExitCode;
use version::{is_version, print_version};

/// Runs the script on standard input, or in a file, and gives the exit status. Where the output gets no buffer its lines
/// are written one by one, so that a bad line comes before a lack of memory.
fn run_file(rt: &HostRuntime, file: Option<&str>, hex: bool) -> u8
    ensures { Contains (0 ∷ 1 ∷ 3 ∷ 5 ∷ []) result }
{
    match BufWriter::new(rt.alloc(), standard_output(rt)) {
        Ok(mut out) => run_input(rt, file, hex, &mut out),
        Err(_) => run_input(rt, file, hex, &mut standard_output(rt)),
    }
}

/// Runs the script in a file, or on standard input where there is none or it is `-`, prints to a writer, and gives the
/// exit status.
fn run_input<W: Write>(rt: &HostRuntime, file: Option<&str>, hex: bool, out: &mut W) -> u8
    ensures { Contains (0 ∷ 1 ∷ 3 ∷ 5 ∷ []) result }
{
    let alloc = rt.alloc();
    let mut faults = rt.stderr();
    let name = file.unwrap_or("-");
    let task = InputTask::Script { name, hex };
    if name == "-" {
        return do_task(alloc, task, &mut rt.reader(), out, &mut faults);
    }
    match File::open(rt, name) {
        Ok(mut input) => do_task(alloc, task, &mut input, out, &mut faults),
        Err(error) if error.kind() == ErrorKind::OutOfMemory => no_memory(&mut faults),
        Err(_) => cannot_read(name, &mut faults),
    }
}

/// Reads a script, runs it over a socket at a path, and gives the exit status.
fn run_read_script<R: Read>(rt: &HostRuntime, name: &str, input: &mut R, path: &str) -> u8
    ensures { Contains (0 ∷ 1 ∷ 3 ∷ 4 ∷ 5 ∷ []) result }
{
    match Script::read(rt.alloc(), name, input, &mut rt.stderr()) {
        Ok(script) => run_socket(rt, &script, path),
        Err(status) => status,
    }
}

/// Runs the script in a file, or on standard input where that is `-`, over a socket at a path, and gives the exit status.
fn run_over_socket(rt: &HostRuntime, file: &str, path: &str) -> u8
    ensures { Contains (0 ∷ 1 ∷ 3 ∷ 4 ∷ 5 ∷ []) result }
{
    if file == "-" {
        return run_read_script(rt, file, &mut rt.reader(), path);
    }
    match File::open(rt, file) {
        Ok(mut input) => run_read_script(rt, file, &mut input, path),
        Err(error) if error.kind() == ErrorKind::OutOfMemory => no_memory(&mut rt.stderr()),
        Err(_) => cannot_read(file, &mut rt.stderr()),
    }
}

/// Says on standard error that a script is read, where somebody types it.
fn say_on_terminal(rt: &HostRuntime) {
    if rt.stdin().is_terminal() {
        let _ = eprintln!(rt;
            "fuseworld reads a script from here, one event a line; fuseworld --help lists its commands"
        );
    }
}

/// Runs a task, and gives the exit status.
fn run_task(rt: &HostRuntime, task: Task<'_>) -> u8
    ensures { EndsWith task.entry result }
{
    match task {
        Task::Input => {
            say_on_terminal(rt);
            run_file(rt, None, false)
        }
        Task::Run { file, hex } => run_file(rt, Some(file), hex),
        Task::Socket { file, path } => run_over_socket(rt, file, path),
        Task::Draw { file, around } => run_draw(rt, file, around),
        Task::OnFrame(task) => run_frame_task(rt, task),
        Task::Serve(task) => run_serve(rt, task),
        Task::Drive(task) => run_drive_task(rt, task),
        Task::Side(task) => run_side(rt, task),
    }
}

/// Says why the words ask for no task, or prints the version, and gives the exit status.
fn refuse(rt: &HostRuntime, error: &Error) -> u8
    ensures { RefusesWith (kind_of error.now) result }
{
    if is_version(error) {
        return print_version(rt);
    }
    if is_memory(error) {
        return no_memory(&mut rt.stderr());
    }
    let _ = eprint!(rt; "{error}");
    2
}

/// Does what the words of the command line ask for, and gives the exit status.
fn run_words(rt: &HostRuntime, words: &[String]) -> u8
    ensures { (minors : _) × AreMinors minors
        × ExitsAt (program_app minors) (map string_bytes words.now) result }
{
    match read_task(rt.alloc(), words) {
        Ok(task) => run_task(rt, task),
        Err(error) => refuse(rt, &error),
    }
}

fn main(rt: HostRuntime) -> ExitCode {
    let words = match std::env::args(&rt) {
        Ok(words) => words.collect::<Vec<String>>(rt.alloc()),
        Err(error) if error.kind() == ErrorKind::OutOfMemory => {
            return ExitCode::from(no_memory(&mut rt.stderr()));
        }
        Err(_) => {
            let _ = eprintln!(rt; "error: a word of the command line is not UTF-8");
            return ExitCode::from(2);
        }
    };
    match words {
        Ok(words) => ExitCode::from(run_words(&rt, words.as_slice())),
        Err(_) => ExitCode::from(no_memory(&mut rt.stderr())),
    }
}
