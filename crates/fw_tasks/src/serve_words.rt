//! What the words after `serve` ask for.

ghost use Rattle.std.specs.Prelude.{◌≡◌, IfOk, codes};
ghost use Rattle.clap.specs.Words.{found_of, rows_of};
ghost use Rattle.fw_tasks.specs.Arguments.{IsArgument, choice};
ghost use Rattle.fw_tasks.specs.Commands.{AreMinors, IsCommand, serve_app};
ghost use Rattle.fw_tasks.specs.Tasks.{AsksServe, minor_of};

use crate::arguments::{LONGEST, file_argument, flag, option, optional, time_argument};
use crate::serve_task::ServeTask;
use crate::values::{is_set, number, text_or_none};
use clap::builder::ValueParser;
use clap::{Arg, ArgMatches, Command};
use fuse_spec::{Minor, Validity};
use fw_serve::Mount;
use std::alloc::{AllocError, Global};

/// The minors that are spoken.
static MINORS: [&str; 2] = ["15", "31"];

/// The option that names a minor.
fn minor_argument<'a>(alloc: Global) -> Arg<'a>
    ensures { (minors : _) × AreMinors minors × IsArgument (choice (codes "minor") minors (codes "31")) result }
{
    option(
        alloc,
        "minor",
        "MINOR",
        "31",
        "The minor version of FUSE 7 that is spoken",
    )
    .value_parser(ValueParser::Names(&MINORS))
}

/// The command `serve`.
pub fn serve_command<'a>(alloc: Global) -> Result<Command<'a>, AllocError>
    ensures { IfOk result (λ command. (minors : _) × AreMinors minors × IsCommand (serve_app minors) command) }
{
    Command::new(alloc, "serve")
        .about("Serve a file system in memory to a FUSE kernel on standard input and output")
        .arg(time_argument(
            alloc,
            "found",
            0,
            "1000",
            "For how many milliseconds a name is valid",
        ))?
        .arg(time_argument(
            alloc,
            "missing",
            0,
            "0",
            "For how many milliseconds it is valid that there is no such name",
        ))?
        .arg(minor_argument(alloc))?
        .arg(flag(
            alloc,
            "show",
            "Print the nodes that are held at the end, on standard error",
        ))?
        .arg(flag(
            alloc,
            "trace",
            "Print each frame in words, on standard error",
        ))?
        .arg(flag(
            alloc,
            "check",
            "Print each fault in what goes over the device, on standard error",
        ))?
        .arg(file_argument(alloc))?
        .arg(optional(
            alloc,
            "SOCK",
            "Where a socket is made, for one connection in the place of standard input and output",
        ))
}

/// The minor that the words name.
fn minor(matches: &ArgMatches<'_>) -> Minor
    ensures { result ≡ minor_of (rows_of (found_of matches.now)) }
{
    match text_or_none(matches, "minor") {
        Some(text) if text == "15" => Minor::M15,
        _ => Minor::M31,
    }
}

/// What the words after `serve` ask for.
pub fn serve_task<'a>(matches: &ArgMatches<'a>) -> ServeTask<'a>
    ensures { AsksServe (rows_of (found_of matches.now)) result }
{
    let found_ms = number(matches, "found", 1000).min(LONGEST);
    let missing_ms = number(matches, "missing", 0).min(LONGEST);
    let mount = Mount {
        validity: Validity {
            found_ms,
            missing_ms,
        },
        minor: minor(matches),
        shows_nodes: is_set(matches, "show"),
    };
    ServeTask {
        mount,
        is_traced: is_set(matches, "trace"),
        is_checked: is_set(matches, "check"),
        capture: text_or_none(matches, "capture"),
        socket: text_or_none(matches, "SOCK"),
    }
}
