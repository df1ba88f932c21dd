//! The command `drive`: what its words ask for, and which of them go together.

ghost use Rattle.std.specs.Prelude.{◌≡◌, IfOk, codes, false, is_none, unwrap_or};
ghost use Rattle.clap.specs.Words.{app_of, first_of, found_of, rows_of, with_rule, new_rule};
ghost use Rattle.clap.specs.declared.builder.command.Command.TheViews.{out-Command as fields_of};
ghost use Rattle.fw_tasks.specs.Arguments.{IsArgument, flag, needed, number, option, option_or_none};
ghost use Rattle.fw_tasks.specs.Commands.{IsCommand, drive_app, last_node};
ghost use Rattle.fw_tasks.specs.DriveWords as words;
ghost use Rattle.fw_tasks.specs.DriveWords.{go_together};
ghost use Rattle.fw_tasks.specs.Values.{is_set};
ghost use Rattle.fw_tasks.specs.Tasks.{AsksDrive, form_of};

use crate::arguments::{file_argument, flag, needed, option, optional, time_argument};
use crate::values::{is_set, number, text, text_or_none};
use clap::builder::ValueParser;
use clap::{Arg, ArgMatches, Command};
use fw_drive::Form;
use std::alloc::{AllocError, Global};

/// One run of `drive`.
#[derive(Clone, Copy)]
pub struct DriveTask<'a> {
    pub file: &'a str,
    /// The socket on which the server listens; without it the server is on standard input and output.
    pub socket: Option<&'a str>,
    pub form: Form,
    pub opens_directories: bool,
    pub is_traced: bool,
    /// Whether each line is printed as a JSON object.
    pub is_json: bool,
    /// Whether what goes over the device is judged, and each fault printed.
    pub is_checked: bool,
    /// The file to which a capture is written, if one is asked for.
    pub capture: Option<&'a str>,
    pub wait_ms: u64,
    /// The further flags of INIT, in hex.
    pub offer: &'a str,
    /// Whether lines are chosen, in the place of a script.
    pub is_random: bool,
    /// Whether calls are chosen too that Linux would not send.
    pub is_any: bool,
    /// Whether the tree is looked over at the end alone.
    pub is_quick: bool,
    pub seed: u64,
    /// How many lines are chosen.
    pub events: u64,
    /// Whether the exit status is 0 also where something was found.
    pub is_report_only: bool,
    /// Whether the orders of calls are printed, and nothing is driven.
    pub is_orders: bool,
    /// Whether it is printed how many orders there are.
    pub is_numbered: bool,
    /// The order that is printed, from 1; 0 for all.
    pub nth: u64,
}

/// The option for further flags of INIT.
fn offer_argument<'a>(alloc: Global) -> Arg<'a>
    ensures { IsArgument (option (codes "offer") (codes "0")) result }
{
    option(alloc, "offer", "HEX", "0", "Further flags that INIT offers")
}

/// An option that takes any number.
fn number_argument<'a>(
    alloc: Global,
    name: &'a str,
    value_name: &'a str,
    by_default: &'a str,
    help: &'a str,
) -> Arg<'a>
    ensures { IsArgument (number name.entry.now 0 last_node by_default.entry.now) result }
{
    option(alloc, name, value_name, by_default, help).value_parser(ValueParser::Unsigned(
        0,
        u64::MAX,
    ))
}

/// The arguments of what is found, and where it goes.
fn with_findings<'a>(alloc: Global, command: Command<'a>) -> Result<Command<'a>, AllocError>
    ensures { IfOk result (λ all. (fields_of command.entry).has_globals ≡ false
        → IsCommand (with_rule (with_rule (with_rule (app_of command.entry) (flag (codes "check")))
        (flag (codes "report-only"))) (option_or_none (codes "capture"))) all) }
{
    command
        .arg(flag(
            alloc,
            "check",
            "Print each fault in what goes over the device, among the lines",
        ))?
        .arg(flag(
            alloc,
            "report-only",
            "Exit with status 0 also where the server was wrong",
        ))?
        .arg(file_argument(alloc))
}

/// The arguments of lines that are chosen.
fn with_draws<'a>(alloc: Global, command: Command<'a>) -> Result<Command<'a>, AllocError>
    ensures { IfOk result (λ all. (fields_of command.entry).has_globals ≡ false
        → IsCommand (with_rule (with_rule (with_rule (with_rule (with_rule (app_of command.entry) (flag (codes "random")))
        (flag (codes "any"))) (flag (codes "quick"))) (number (codes "seed") 0 last_node (codes "1")))
        (number (codes "events") 0 last_node (codes "400"))) all) }
{
    command
        .arg(flag(
            alloc,
            "random",
            "Choose the events by a seed, in the place of FILE, and print them as a script",
        ))?
        .arg(flag(
            alloc,
            "any",
            "Choose also what Linux would not send, as CREATE of a name that is there",
        ))?
        .arg(flag(
            alloc,
            "quick",
            "With --random: look over the tree at the end alone",
        ))?
        .arg(number_argument(alloc, "seed", "N", "1", "The seed of --random"))?
        .arg(number_argument(
            alloc,
            "events",
            "N",
            "400",
            "How many events --random chooses",
        ))
}

/// The arguments.
fn with_places<'a>(alloc: Global, command: Command<'a>) -> Result<Command<'a>, AllocError>
    ensures { IfOk result (λ both. (fields_of command.entry).has_globals ≡ false
        → IsCommand (with_rule (with_rule (app_of command.entry) (needed (codes "FILE"))) (new_rule (codes "SOCK"))) both) }
{
    command
        .arg(needed(
            alloc,
            "FILE",
            "The script: the kernel's events, or calls, one a line",
        ))?
        .arg(optional(
            alloc,
            "SOCK",
            "The socket on which the server listens, in the place of standard input and output",
        ))
}

/// The arguments of orders.
fn with_orders<'a>(alloc: Global, command: Command<'a>) -> Result<Command<'a>, AllocError>
    ensures { IfOk result (λ all. (fields_of command.entry).has_globals ≡ false
        → IsCommand (with_rule (with_rule (with_rule (app_of command.entry) (flag (codes "orders")))
        (flag (codes "number"))) (number (codes "nth") 0 last_node (codes "0"))) all) }
{
    command
        .arg(flag(
            alloc,
            "orders",
            "Print every order of the messages of the calls in FILE, each as a script",
        ))?
        .arg(flag(alloc, "number", "With --orders: print how many there are"))?
        .arg(number_argument(
            alloc,
            "nth",
            "K",
            "0",
            "With --orders: print this one, from 1; 0 for all",
        ))
}

/// The command `drive`.
pub fn drive_command<'a>(alloc: Global) -> Result<Command<'a>, AllocError>
    ensures { IfOk result (IsCommand drive_app) }
{
    let command = Command::new(alloc, "drive")
        .about(
            "Drive a FUSE server by a script of the kernel's events, and print what each comes to",
        )
        .arg(flag(
            alloc,
            "calls",
            "The script has calls, and each is carried to its answer",
        ))?
        .arg(flag(
            alloc,
            "beside",
            "The same, and compare each answer with that of the server of this program",
        ))?
        .arg(flag(
            alloc,
            "no-opendir",
            "Do not open a directory before it is listed",
        ))?
        .arg(flag(
            alloc,
            "trace",
            "Print each frame in words, on standard error",
        ))?
        .arg(flag(alloc, "json", "Print a JSON object for each line"))?
        .arg(time_argument(
            alloc,
            "wait",
            1,
            "10000",
            "For how many milliseconds a reply is waited for, over SOCK",
        ))?
        .arg(offer_argument(alloc))?;
    let command = with_draws(alloc, with_findings(alloc, command)?)?;
    with_places(alloc, with_orders(alloc, command)?)
}

/// What the script has in its lines.
fn form(matches: &ArgMatches<'_>) -> Form
    ensures { let rows = rows_of (found_of matches.now) in
        result ≡ form_of (is_set (codes "calls") rows) (is_set (codes "beside") rows) }
{
    match (is_set(matches, "calls"), is_set(matches, "beside")) {
        (_, true) => Form::CallsBeside,
        (true, false) => Form::Calls,
        (false, false) => Form::Events,
    }
}

/// The further flags of INIT.
fn offer<'a>(matches: &ArgMatches<'a>) -> &'a str
    ensures { result.now ≡ unwrap_or (first_of (codes "offer") (rows_of (found_of matches.now))) (codes "0") }
{
    match text_or_none(matches, "offer") {
        Some(text) => text,
        None => "0",
    }
}

/// What the words after `drive` ask for.
pub fn drive_task<'a>(matches: &ArgMatches<'a>) -> DriveTask<'a>
    ensures { AsksDrive (rows_of (found_of matches.now)) result }
{
    DriveTask {
        file: text(matches, "FILE"),
        socket: text_or_none(matches, "SOCK"),
        form: form(matches),
        opens_directories: !is_set(matches, "no-opendir"),
        is_traced: is_set(matches, "trace"),
        is_json: is_set(matches, "json"),
        is_checked: is_set(matches, "check") || is_set(matches, "random"),
        capture: text_or_none(matches, "capture"),
        wait_ms: number(matches, "wait", 10_000),
        offer: offer(matches),
        is_random: is_set(matches, "random"),
        is_any: is_set(matches, "any"),
        is_quick: is_set(matches, "quick"),
        seed: number(matches, "seed", 1),
        events: number(matches, "events", 400),
        is_report_only: is_set(matches, "report-only"),
        is_orders: is_set(matches, "orders"),
        is_numbered: is_set(matches, "number"),
        nth: number(matches, "nth", 0),
    }
}

/// Which words of a command line do not go together, where some do not: what is said of them.
pub fn misfit(asked: DriveTask<'_>) -> Option<&'static str>
    ensures { is_none result ≡ go_together asked.entry }
{
    if asked.is_orders && drives(asked) {
        Some("--orders goes with FILE, --number and --nth alone")
    } else if !asked.is_orders && (asked.is_numbered || asked.nth != 0) {
        Some("--number and --nth go with --orders")
    } else if asked.is_random && !matches!(asked.form, Form::Events) {
        Some("--random goes without --calls and --beside")
    } else if chooses(asked) && !asked.is_random {
        Some("--any and --quick go with --random")
    } else {
        None
    }
}

/// Whether a word says what is printed of a run.
fn says(asked: DriveTask<'_>) -> bool
    ensures { result ≡ words.says asked.entry }
{
    asked.is_traced || asked.is_json || asked.is_checked || asked.capture.is_some()
}

/// Whether a word says which events are chosen, or when the tree is looked over.
fn chooses(asked: DriveTask<'_>) -> bool
    ensures { result ≡ words.chooses asked.entry }
{
    asked.is_any || asked.is_quick
}

/// Whether a word says how a server is driven.
fn drives(asked: DriveTask<'_>) -> bool
    ensures { result ≡ words.drives asked.entry }
{
    asked.socket.is_some()
        || !matches!(asked.form, Form::Events)
        || !asked.opens_directories
        || says(asked)
        || chooses(asked)
        || asked.is_report_only
}
