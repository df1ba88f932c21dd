//! The command `check`: what its words ask for.

ghost use Rattle.std.specs.Prelude.{◌≡◌, IfOk, codes};
ghost use Rattle.clap.specs.Words.{found_of, rows_of};
ghost use Rattle.fw_tasks.specs.Arguments.{IsArgument, number};
ghost use Rattle.fw_tasks.specs.Commands.{IsCommand, check_app, last_node};
ghost use Rattle.fw_tasks.specs.Tasks as words;

use crate::arguments::{capture_argument, flag, option};
use crate::values::{is_set, number, text_or_none};
use clap::builder::ValueParser;
use clap::{Arg, ArgMatches, Command};
use std::alloc::{AllocError, Global};

/// One run of `check`.
#[derive(Clone, Copy)]
pub struct CheckTask<'a> {
    /// The capture, if it is not on standard input.
    pub file: Option<&'a str>,
    /// The server alone is judged.
    pub server: bool,
    /// The kernel alone is judged.
    pub kernel: bool,
    /// A JSON object a line is printed.
    pub json: bool,
    /// The node whose life is printed; 0 for none.
    pub node: u64,
    /// A table of opcodes is printed.
    pub summary: bool,
    /// A warning counts as a fault.
    pub strict: bool,
    /// The session is joined in its middle.
    pub joined: bool,
}

/// The option that asks for the life of a node.
fn node_argument<'a>(alloc: Global) -> Arg<'a>
    ensures { IsArgument (number (codes "node") 0 last_node (codes "0")) result }
{
    option(
        alloc,
        "node",
        "N",
        "0",
        "Print what gives, names and forgets this node, in place of faults; 0 for none",
    )
    .value_parser(ValueParser::Unsigned(0, u64::MAX))
}

/// The command `check`.
pub fn check_command<'a>(alloc: Global) -> Result<Command<'a>, AllocError>
    ensures { IfOk result (IsCommand check_app) }
{
    Command::new(alloc, "check")
        .about("Judge a capture: which rule of the protocol is broken, in which line, and by whom")
        .arg(flag(alloc, "server", "Print and count the server's faults alone"))?
        .arg(flag(alloc, "kernel", "Print and count the kernel's faults alone"))?
        .arg(flag(alloc, "json", "Print one JSON object for each line"))?
        .arg(node_argument(alloc))?
        .arg(flag(
            alloc,
            "summary",
            "Print a table of the opcodes that were read, in place of faults",
        ))?
        .arg(flag(
            alloc,
            "strict",
            "Let the exit status count a warning as a fault",
        ))?
        .arg(flag(
            alloc,
            "joined",
            "Judge a session from its middle on: print and count what is certain alone",
        ))?
        .arg(capture_argument(alloc))
}

/// What the words after `check` ask for.
pub fn check_task<'a>(matches: &ArgMatches<'a>) -> CheckTask<'a>
    ensures { words.AsksCheck (rows_of (found_of matches.now)) result }
{
    CheckTask {
        file: text_or_none(matches, "FILE"),
        server: is_set(matches, "server"),
        kernel: is_set(matches, "kernel"),
        json: is_set(matches, "json"),
        node: number(matches, "node", 0),
        summary: is_set(matches, "summary"),
        strict: is_set(matches, "strict"),
        joined: is_set(matches, "joined"),
    }
}
