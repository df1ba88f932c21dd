//! The commands `kernel` and `server`: what their words ask for.

ghost use Rattle.std.specs.Prelude.{◌≡◌, IfOk, IfNone, IfSome, codes, false};
ghost use Rattle.clap.specs.Words.{found_of, rows_of};
ghost use Rattle.fw_tasks.specs.Commands.{IsCommand, side_app};
ghost use Rattle.fw_tasks.specs.Tasks.{AsksSide, is_side};

use crate::arguments::flag;
use crate::values::is_set;
use clap::{ArgMatches, Command};
use fw_sides::Form;
use std::alloc::{AllocError, Global};

/// One side, by itself.
#[derive(Clone, Copy)]
pub enum SideTask {
    Kernel(Form),
    Server(Form),
}

/// The command of one side.
fn side_command<'a>(alloc: Global, name: &'a str, about: &'a str) -> Result<Command<'a>, AllocError>
    ensures { IfOk result (IsCommand (side_app name.entry.now)) }
{
    let json = flag(alloc, "json", "Print one JSON object for each line");
    Command::new(alloc, name).about(about).arg(json)
}

/// The command `kernel`.
pub fn kernel_command<'a>(alloc: Global) -> Result<Command<'a>, AllocError>
    ensures { IfOk result (IsCommand (side_app (codes "kernel"))) }
{
    side_command(
        alloc,
        "kernel",
        "Be the kernel alone: do what each line of standard input says, and print what it comes to",
    )
}

/// The command `server`.
pub fn server_command<'a>(alloc: Global) -> Result<Command<'a>, AllocError>
    ensures { IfOk result (IsCommand (side_app (codes "server"))) }
{
    side_command(
        alloc,
        "server",
        "Be the server alone: do what each line of standard input says, and print what it comes to",
    )
}

/// What the words after `kernel` or `server` ask for, if the name is one of these.
pub fn side_task(name: &str, matches: &ArgMatches<'_>) -> Option<SideTask>
    ensures asked { IfSome result (AsksSide name.now (rows_of (found_of matches.now))) }
    ensures other { IfNone result (is_side name.now ≡ false) }
{
    if name != "kernel" && name != "server" {
        return None;
    }
    let form = if is_set(matches, "json") {
        Form::Json
    } else {
        Form::Words
    };
    if name == "kernel" {
        Some(SideTask::Kernel(form))
    } else {
        Some(SideTask::Server(form))
    }
}
