//! The command `draw`: its words.

ghost use Rattle.std.specs.Prelude.{IfOk, codes};
ghost use Rattle.fw_tasks.specs.Arguments.{IsArgument, number};
ghost use Rattle.fw_tasks.specs.Commands.{IsCommand, draw_app, last_line};

use crate::arguments::{needed, option};
use clap::builder::ValueParser;
use clap::{Arg, Command};
use std::alloc::{AllocError, Global};

/// The option that asks for the frames around a line.
fn around_argument<'a>(alloc: Global) -> Arg<'a>
    ensures { IsArgument (number (codes "around") 0 last_line (codes "0")) result }
{
    option(
        alloc,
        "around",
        "LINE",
        "0",
        "FILE is a capture: print the frames around this line; 0 for none",
    )
    .value_parser(ValueParser::Unsigned(0, u64::MAX))
}

/// The command `draw`.
pub fn draw_command<'a>(alloc: Global) -> Result<Command<'a>, AllocError>
    ensures { IfOk result (IsCommand draw_app) }
{
    Command::new(alloc, "draw")
        .about("Run a script of events and print the run as a picture, in SVG")
        .arg(around_argument(alloc))?
        .arg(needed(
            alloc,
            "FILE",
            "The script: one event a line, or - for standard input",
        ))
}
