//! The commands on frames: what their words ask for.

ghost use Rattle.std.specs.Prelude.{◌≡◌, IfOk, IfNone, IfSome, codes, false};
ghost use Rattle.clap.specs.Words.{found_of, rows_of};
ghost use Rattle.fw_tasks.specs.Arguments.{IsArgument, needed, number};
ghost use Rattle.fw_tasks.specs.Commands.{IsCommand, frame_app, reply_app, decode_app, longest_reply, vectors_app};
ghost use Rattle.fw_tasks.specs.Tasks.{AsksFrame, is_frame_command};

use crate::arguments::{capture_argument, flag, needed, option};
use crate::check_words::{CheckTask, check_task};
use crate::values::{is_set, number, text, text_or_none};
use clap::builder::ValueParser;
use clap::{Arg, ArgMatches, Command};
use std::alloc::{AllocError, Global};

/// The most bytes that a reply may have behind its header.
const LONGEST_REPLY: u64 = 16_777_200;

/// One run of a command on frames.
#[derive(Clone, Copy)]
pub enum FrameTask<'a> {
    /// One request frame, with its fields under `words`.
    Frame {
        hex: &'a str,
        words: bool,
    },
    /// One request frame of any opcode, in words.
    AnyFrame {
        hex: &'a str,
    },
    /// One reply frame to a request of the opcode that has a name.
    Reply {
        name: &'a str,
        hex: &'a str,
    },
    /// The same of any opcode, where so many bytes were asked for.
    AnyReply {
        name: &'a str,
        asked: u32,
        hex: &'a str,
    },
    /// The capture in a file, or on standard input.
    Decode {
        file: Option<&'a str>,
    },
    /// The same, judged.
    Check(CheckTask<'a>),
    /// Frames of each kind with the codec's verdicts.
    Vectors,
    /// And then of every opcode, with whether each has the shape of its row.
    AllVectors,
}

/// The argument that is a frame.
fn hex_argument<'a>(alloc: Global) -> Arg<'a>
    ensures { IsArgument (needed (codes "HEX")) result }
{
    needed(
        alloc,
        "HEX",
        "The frame's bytes, two lower-case hex digits each",
    )
}

/// The option that says how many bytes a request asked for.
fn asked_argument<'a>(alloc: Global) -> Arg<'a>
    ensures { IsArgument (number (codes "asked") 0 longest_reply (codes "16777200")) result }
{
    option(
        alloc,
        "asked",
        "N",
        "16777200",
        "With --any: how many bytes the request asked for, as READ or READDIR do",
    )
    .value_parser(ValueParser::Unsigned(0, LONGEST_REPLY))
}

/// The command `frame`.
pub fn frame_command<'a>(alloc: Global) -> Result<Command<'a>, AllocError>
    ensures { IfOk result (IsCommand frame_app) }
{
    Command::new(alloc, "frame")
        .about("Read one request frame and print its opcode, unique, node and length")
        .arg(flag(alloc, "words", "Print the request's fields as well"))?
        .arg(flag(
            alloc,
            "any",
            "Read a request of any opcode of FUSE 7.45, where INIT agreed on no flag, and print it in words",
        ))?
        .arg(hex_argument(alloc))
}

/// The command `reply`.
pub fn reply_command<'a>(alloc: Global) -> Result<Command<'a>, AllocError>
    ensures { IfOk result (IsCommand reply_app) }
{
    Command::new(alloc, "reply")
        .about(
            "Read one reply frame and print its opcode, unique, error and length, and what it says",
        )
        .arg(flag(
            alloc,
            "any",
            "Read a reply to any opcode of FUSE 7.45, where INIT agreed on no flag",
        ))?
        .arg(asked_argument(alloc))?
        .arg(needed(alloc, "OPNAME", "The opcode of the request, as LOOKUP"))?
        .arg(hex_argument(alloc))
}

/// The command `decode`.
pub fn decode_command<'a>(alloc: Global) -> Result<Command<'a>, AllocError>
    ensures { IfOk result (IsCommand decode_app) }
{
    Command::new(alloc, "decode")
        .about("Print the frames of a capture in words, and the faults in each")
        .arg(capture_argument(alloc))
}

/// The command `vectors`.
pub fn vectors_command<'a>(alloc: Global) -> Result<Command<'a>, AllocError>
    ensures { IfOk result (IsCommand vectors_app) }
{
    let all = flag(
        alloc,
        "all",
        "Print also frames of every opcode of FUSE 7.45, with whether they have its shape",
    );
    Command::new(alloc, "vectors")
        .about("Print frames of each kind with what the codec says of them, a JSON object a line")
        .arg(all)
}

/// What the words after `frame` ask for.
fn one_frame_task<'a>(matches: &ArgMatches<'a>) -> FrameTask<'a>
    ensures { AsksFrame (codes "frame") (rows_of (found_of matches.now)) result }
{
    let hex = text(matches, "HEX");
    if is_set(matches, "any") {
        return FrameTask::AnyFrame { hex };
    }
    let words = is_set(matches, "words");
    FrameTask::Frame { hex, words }
}

/// What the words after `reply` ask for.
fn one_reply_task<'a>(matches: &ArgMatches<'a>) -> FrameTask<'a>
    ensures { AsksFrame (codes "reply") (rows_of (found_of matches.now)) result }
{
    let name = text(matches, "OPNAME");
    let hex = text(matches, "HEX");
    if is_set(matches, "any") {
        let asked = number(matches, "asked", LONGEST_REPLY).min(LONGEST_REPLY) as u32;
        return FrameTask::AnyReply { name, asked, hex };
    }
    FrameTask::Reply { name, hex }
}

/// What the words after `vectors` ask for.
fn vectors_task<'a>(matches: &ArgMatches<'_>) -> FrameTask<'a>
    ensures { AsksFrame (codes "vectors") (rows_of (found_of matches.now)) result }
{
    if is_set(matches, "all") {
        FrameTask::AllVectors
    } else {
        FrameTask::Vectors
    }
}

/// What the words after the name of a command on frames ask for, if it is one.
pub fn frame_task<'a>(name: &str, matches: &ArgMatches<'a>) -> Option<FrameTask<'a>>
    ensures asked { IfSome result (AsksFrame name.now (rows_of (found_of matches.now))) }
    ensures other { IfNone result (is_frame_command name.now ≡ false) }
{
    if name == "vectors" {
        return Some(vectors_task(matches));
    }
    if name == "decode" {
        let file = text_or_none(matches, "FILE");
        return Some(FrameTask::Decode { file });
    }
    if name == "check" {
        return Some(FrameTask::Check(check_task(matches)));
    }
    if name == "frame" {
        return Some(one_frame_task(matches));
    }
    if name == "reply" {
        return Some(one_reply_task(matches));
    }
    None
}
