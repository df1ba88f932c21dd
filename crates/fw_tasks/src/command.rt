//! What the words of the command line ask for.

ghost use Rattle.std.specs.Prelude.{◌≡◌, ◌↔◌, IfOk, IsTrue, codes, map, string_bytes};
ghost use Rattle.clap.specs.Words.{App, found_of, kind_of, rows_of, subcommand_rows_of, with_subcommand};
ghost use Rattle.fw_tasks.specs.Commands.{AreMinors, IsCommand, IsProgram, program_app, run_app, socket_app};
ghost use Rattle.fw_tasks.specs.Tasks.{AsksAt, AsksFor, ReadsTask};

use crate::arguments::{flag, needed};
use crate::check_words::check_command;
use crate::draw_words::draw_command;
use crate::drive_words::{DriveTask, drive_command, drive_task};
use crate::frame_tasks::{
    FrameTask, decode_command, frame_command, frame_task, reply_command, vectors_command,
};
use crate::serve_task::ServeTask;
use crate::serve_words::{serve_command, serve_task};
use crate::side_words::{SideTask, kernel_command, server_command, side_task};
use crate::values::{is_set, number, text};
use crate::version::VERSION;
use clap::error::ErrorKind;
use clap::{ArgMatches, Command, Error};
use std::alloc::{AllocError, Global};

/// One run of the program.
#[derive(Clone, Copy)]
pub enum Task<'a> {
    /// The script on standard input.
    Input,
    /// The script in a file, with the frames that are put under `hex`.
    Run { file: &'a str, hex: bool },
    /// The script in a file, over a Unix socket that is made at a path.
    Socket { file: &'a str, path: &'a str },
    /// The picture of the run of the script in a file; or of the frames around a line of the capture in it, where that is
    /// not 0.
    Draw { file: &'a str, around: u64 },
    /// A command on frames.
    OnFrame(FrameTask<'a>),
    /// The server before a kernel.
    Serve(ServeTask<'a>),
    /// The kernel before a server that somebody else wrote.
    Drive(DriveTask<'a>),
    /// The kernel or the server, by itself.
    Side(SideTask),
}

/// Whether memory ran out, and the words may be good.
pub fn is_memory(error: &Error) -> bool
    ensures { IsTrue result ↔ (kind_of error.now ≡ ErrorKind.OutOfMemory) }
{
    error.kind() == ErrorKind::OutOfMemory
}

fn run_command<'a>(alloc: Global) -> Result<Command<'a>, AllocError>
    ensures { IfOk result (IsCommand run_app) }
{
    Command::new(alloc, "run")
        .about("Run a script of events and print what each comes to")
        .arg(flag(
            alloc,
            "hex",
            "Print each frame that is put, as a line of hex",
        ))?
        .arg(needed(
            alloc,
            "FILE",
            "The script: one event a line, or - for standard input",
        ))
}

fn socket_command<'a>(alloc: Global) -> Result<Command<'a>, AllocError>
    ensures { IfOk result (IsCommand socket_app) }
{
    Command::new(alloc, "socket")
        .about("Run a script over a Unix socket, both ends in this process")
        .arg(needed(
            alloc,
            "FILE",
            "The script: one event a line, or - for standard input",
        ))?
        .arg(needed(
            alloc,
            "SOCK",
            "Where the socket is made, and removed at the end",
        ))
}

/// The program with one more command, where there is memory for both.
fn with_command<'a>(
    program: Result<Command<'a>, AllocError>,
    command: Result<Command<'a>, AllocError>,
) -> Result<Command<'a>, AllocError>
    ensures { (a b : App) → IfOk program.entry (IsCommand a) → IfOk command.entry (IsCommand b)
        → IfOk result (IsCommand (with_subcommand a b.top)) }
{
    program?.subcommand(command?)
}

fn program<'a>(alloc: Global) -> Result<Command<'a>, AllocError>
    ensures { IfOk result IsProgram }
{
    // First, since the program's contract has the list of minors that this one gives.
    let serve = serve_command(alloc)?;
    let program = Ok(
        Command::new(alloc, "fuseworld")
            .version(VERSION)
            .about("A FUSE 7.31 kernel and its server, run by a script or before others")
            .after_help("Without a command, the script is read from standard input."),
    );
    let program = with_command(program, run_command(alloc));
    let program = with_command(program, socket_command(alloc));
    let program = with_command(program, draw_command(alloc));
    let program = with_command(program, frame_command(alloc));
    let program = with_command(program, reply_command(alloc));
    let program = with_command(program, decode_command(alloc));
    let program = with_command(program, check_command(alloc));
    let program = with_command(program, vectors_command(alloc));
    let program = with_command(program, Ok(serve));
    let program = with_command(program, drive_command(alloc));
    let program = with_command(program, kernel_command(alloc));
    with_command(program, server_command(alloc))
}

/// What a command of this name asks for.
fn named_task<'a>(name: &str, matches: &ArgMatches<'a>) -> Task<'a>
    ensures { AsksAt name.now (rows_of (found_of matches.now)) result }
{
    if name == "run" {
        let file = text(matches, "FILE");
        let hex = is_set(matches, "hex");
        return Task::Run { file, hex };
    }
    if name == "socket" {
        let file = text(matches, "FILE");
        let path = text(matches, "SOCK");
        return Task::Socket { file, path };
    }
    if name == "draw" {
        let file = text(matches, "FILE");
        let around = number(matches, "around", 0);
        return Task::Draw { file, around };
    }
    if name == "serve" {
        return Task::Serve(serve_task(matches));
    }
    if name == "drive" {
        return Task::Drive(drive_task(matches));
    }
    if let Some(task) = side_task(name, matches) {
        return Task::Side(task);
    }
    match frame_task(name, matches) {
        Some(task) => Task::OnFrame(task),
        None => Task::Input,
    }
}

/// What the matches of the program ask for.
fn asked_task<'a>(matches: &ArgMatches<'a>) -> Task<'a>
    ensures { AsksFor (subcommand_rows_of matches.now) result }
{
    match matches.subcommand() {
        Some((name, inner)) => named_task(name, inner),
        None => Task::Input,
    }
}

/// What the words ask for: the program's name, and then a command or nothing.
///
/// # Errors
///
/// Where the words are no command line, or ask for help or the version; or where memory runs out.
pub fn read_task<'a>(alloc: Global, words: &'a [String]) -> Result<Task<'a>, Error>
    ensures { (minors : _) × AreMinors minors
        × ReadsTask (program_app minors) (map string_bytes words.entry.now) result }
{
    let matches = program(alloc)?.try_get_matches_from(words)?;
    Ok(asked_task(&matches))
}
