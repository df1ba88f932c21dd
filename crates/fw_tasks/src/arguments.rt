//! Arguments that several commands have.

ghost use Rattle.std.specs.Prelude.{codes};
ghost use Rattle.fw_tasks.specs.Arguments.{IsArgument, flag, needed, number, option, option_or_none};
ghost use Rattle.fw_tasks.specs.Commands.{longest};
ghost use Rattle.clap.specs.Words.{new_rule};

use clap::builder::ValueParser;
use clap::{Arg, ArgAction};
use std::alloc::Global;

/// The longest time that an option takes, in milliseconds: a day.
pub const LONGEST: u64 = 86_400_000;

/// An option without a value.
pub fn flag<'a>(alloc: Global, name: &'a str, help: &'a str) -> Arg<'a>
    ensures { IsArgument (flag name.entry.now) result }
{
    Arg::new(alloc, name)
        .long(name)
        .action(ArgAction::SetTrue)
        .help(help)
}

/// An argument that has to be given.
pub fn needed<'a>(alloc: Global, name: &'a str, help: &'a str) -> Arg<'a>
    ensures { IsArgument (needed name.entry.now) result }
{
    Arg::new(alloc, name).required(true).help(help)
}

/// An argument that may be left out.
pub fn optional<'a>(alloc: Global, name: &'a str, help: &'a str) -> Arg<'a>
    ensures { IsArgument (new_rule name.entry.now) result }
{
    Arg::new(alloc, name).help(help)
}

/// An option with a value.
pub fn option<'a>(
    alloc: Global,
    name: &'a str,
    value_name: &'a str,
    by_default: &'a str,
    help: &'a str,
) -> Arg<'a>
    ensures { IsArgument (option name.entry.now by_default.entry.now) result }
{
    Arg::new(alloc, name)
        .long(name)
        .value_name(value_name)
        .default_value(by_default)
        .help(help)
}

/// An option that takes milliseconds, from `least` to a day.
pub fn time_argument<'a>(
    alloc: Global,
    name: &'a str,
    least: u64,
    by_default: &'a str,
    help: &'a str,
) -> Arg<'a>
    ensures { IsArgument (number name.entry.now least longest by_default.entry.now) result }
{
    option(alloc, name, "MS", by_default, help).value_parser(ValueParser::Unsigned(least, LONGEST))
}

/// The option that names the file of a capture.
pub fn file_argument<'a>(alloc: Global) -> Arg<'a>
    ensures { IsArgument (option_or_none (codes "capture")) result }
{
    Arg::new(alloc, "capture")
        .long("capture")
        .value_name("FILE")
        .help("Write what goes over the device to this file, as `check` reads it")
}

/// The argument that is a capture.
pub fn capture_argument<'a>(alloc: Global) -> Arg<'a>
    ensures { IsArgument (new_rule (codes "FILE")) result }
{
    optional(
        alloc,
        "FILE",
        "The capture: `>` and a request, or `<` and a reply, in hex, a line each",
    )
}
