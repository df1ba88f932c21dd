//! What is printed of what a server did wrong.

ghost use Rattle.std.specs.Prelude.{◌++◌, OnErr, OnOk, codes, decimal};
ghost use Rattle.std.specs.Io.KnownBytes.{Appends};
ghost use Rattle.fuse_text.specs.Outputs.{AppendsSome};
ghost use Rattle.fw_script.specs.Records.{kind_word};
ghost use Rattle.fw_drive.specs.Faults.{fault_words, file_words, files_words, generations_words, head_words, node_words};
ghost use Rattle.fw_drive.specs.Faults.{request_words, right_words, size_words};
ghost use Rattle.fw_drive.specs.Notes.{note_text, wrong};

use crate::fault::{BodySize, Fault, GivenFile, HeadFault, RequestName, RightSize};
use crate::printing::{print_between, print_counted};
use crate::request_words::print_named;
use fuse_spec::Kind;
use fuse_text::{OutputRefused, write_number, write_text};
use fw_script::word_of_kind;
use std::alloc::Allocator;
use std::io::Write;

/// Prints the length that a frame says, and the one that it has.
fn print_lengths<W: Write>(out: &mut W, said: u64, len: u64) -> Result<(), OutputRefused>
    ensures ok { OnOk result (Appends (W.contents out.old) (W.contents out.new)
        (codes "len " ++ decimal said ++ codes " of " ++ decimal len ++ codes " bytes")) }
    ensures refused { OnErr result (AppendsSome (W.contents out.old) (W.contents out.new)
        (codes "len " ++ decimal said ++ codes " of " ++ decimal len ++ codes " bytes")) }
{
    print_counted(out, b"len ", said)?;
    print_between(out, b" of ", len, b" bytes")
}

/// Prints why a frame is no reply by its head.
fn print_head<W: Write>(out: &mut W, why: HeadFault) -> Result<(), OutputRefused>
    ensures ok { OnOk result (Appends (W.contents out.old) (W.contents out.new) (head_words why)) }
    ensures refused { OnErr result (AppendsSome (W.contents out.old) (W.contents out.new) (head_words why)) }
{
    match why {
        HeadFault::Short { len } => print_between(out, b"", len, b" bytes"),
        HeadFault::Length { said, len } => print_lengths(out, said, len),
        HeadFault::Positive { error } => print_counted(out, b"error ", error),
        HeadFault::Low { error } => print_counted(out, b"error -", error),
        HeadFault::OfOpendir { unique } => print_counted(out, b"unique ", unique),
    }
}

/// Prints that a frame is no reply by its head, and why.
fn print_headless<W: Write>(out: &mut W, why: HeadFault) -> Result<(), OutputRefused>
    ensures ok { OnOk result (Appends (W.contents out.old) (W.contents out.new)
        (codes "no reply's head: " ++ head_words why)) }
    ensures refused { OnErr result (AppendsSome (W.contents out.old) (W.contents out.new)
        (codes "no reply's head: " ++ head_words why)) }
{
    write_text(out, b"no reply's head: ")?;
    print_head(out, why)
}

/// Prints how many bytes of a body are right.
fn print_right<W: Write>(out: &mut W, right: RightSize) -> Result<(), OutputRefused>
    ensures ok { OnOk result (Appends (W.contents out.old) (W.contents out.new) (right_words right)) }
    ensures refused { OnErr result (AppendsSome (W.contents out.old) (W.contents out.new) (right_words right)) }
{
    match right {
        RightSize::Exactly(len) => print_between(out, b", ", len, b" are right"),
        RightSize::AtMost(len) => print_between(out, b", at most ", len, b" are right"),
        RightSize::Any => Ok(()),
    }
}

/// Prints how many bytes a body has, and how many are right.
fn print_known_size<W: Write>(out: &mut W, size: BodySize) -> Result<(), OutputRefused>
    ensures ok { OnOk result (Appends (W.contents out.old) (W.contents out.new)
        (codes ": " ++ decimal size.len ++ codes " bytes" ++ right_words size.right)) }
    ensures refused { OnErr result (AppendsSome (W.contents out.old) (W.contents out.new)
        (codes ": " ++ decimal size.len ++ codes " bytes" ++ right_words size.right)) }
{
    print_between(out, b": ", size.len, b" bytes")?;
    print_right(out, size.right)
}

/// Prints how many bytes a body has, where that is known, and how many are right.
fn print_size<W: Write>(out: &mut W, size: Option<BodySize>) -> Result<(), OutputRefused>
    ensures ok { OnOk result (Appends (W.contents out.old) (W.contents out.new) (size_words size)) }
    ensures refused { OnErr result (AppendsSome (W.contents out.old) (W.contents out.new) (size_words size)) }
{
    match size {
        Some(size) => print_known_size(out, size),
        None => Ok(()),
    }
}

/// Prints that a body is not that of a reply to its request.
fn print_body<W: Write>(
    out: &mut W,
    request: RequestName,
    size: Option<BodySize>,
) -> Result<(), OutputRefused>
    ensures ok { OnOk result (Appends (W.contents out.old) (W.contents out.new)
        (codes "body is not its request's: " ++ request_words request ++ size_words size)) }
    ensures refused { OnErr result (AppendsSome (W.contents out.old) (W.contents out.new)
        (codes "body is not its request's: " ++ request_words request ++ size_words size)) }
{
    print_named(out, b"body is not its request's: ", request)?;
    print_size(out, size)
}

/// Prints the generation that a node is given under, and the one before.
fn print_generations<W: Write>(out: &mut W, given: u64, before: u64) -> Result<(), OutputRefused>
    ensures ok { OnOk result (Appends (W.contents out.old) (W.contents out.new) (generations_words given before)) }
    ensures refused { OnErr result (AppendsSome (W.contents out.old) (W.contents out.new) (generations_words given before)) }
{
    print_between(out, b": ", given, b", before ")?;
    write_number(out, before)
}

/// Prints the kind of a file.
fn print_kind<W: Write>(out: &mut W, kind: Kind) -> Result<(), OutputRefused>
    ensures ok { OnOk result (Appends (W.contents out.old) (W.contents out.new) (kind_word kind)) }
    ensures refused { OnErr result (AppendsSome (W.contents out.old) (W.contents out.new) (kind_word kind)) }
{
    write_text(out, word_of_kind(kind).as_bytes())
}

/// Prints a file.
fn print_file<W: Write>(out: &mut W, file: GivenFile) -> Result<(), OutputRefused>
    ensures ok { OnOk result (Appends (W.contents out.old) (W.contents out.new) (file_words file)) }
    ensures refused { OnErr result (AppendsSome (W.contents out.old) (W.contents out.new) (file_words file)) }
{
    print_kind(out, file.kind)?;
    print_counted(out, b" ", file.ino)
}

/// Prints the file that a node is given for.
fn print_given<W: Write>(out: &mut W, file: GivenFile) -> Result<(), OutputRefused>
    ensures ok { OnOk result (Appends (W.contents out.old) (W.contents out.new) (codes ": " ++ file_words file)) }
    ensures refused { OnErr result (AppendsSome (W.contents out.old) (W.contents out.new) (codes ": " ++ file_words file)) }
{
    write_text(out, b": ")?;
    print_file(out, file)
}

/// Prints the file that a node was given for before.
fn print_before<W: Write>(out: &mut W, file: GivenFile) -> Result<(), OutputRefused>
    ensures ok { OnOk result (Appends (W.contents out.old) (W.contents out.new) (codes ", before " ++ file_words file)) }
    ensures refused { OnErr result (AppendsSome (W.contents out.old) (W.contents out.new)
        (codes ", before " ++ file_words file)) }
{
    write_text(out, b", before ")?;
    print_file(out, file)
}

/// Prints the file that a node is given for, and the one before.
fn print_files<W: Write>(
    out: &mut W,
    given: GivenFile,
    before: GivenFile,
) -> Result<(), OutputRefused>
    ensures ok { OnOk result (Appends (W.contents out.old) (W.contents out.new) (files_words given before)) }
    ensures refused { OnErr result (AppendsSome (W.contents out.old) (W.contents out.new) (files_words given before)) }
{
    print_given(out, given)?;
    print_before(out, before)
}

/// Prints a node, what is wrong with it, and the request whose reply gives it.
fn print_node<W: Write>(
    out: &mut W,
    node: u64,
    words: &[u8],
    request: RequestName,
) -> Result<(), OutputRefused>
    ensures ok { OnOk result (Appends (W.contents out.old) (W.contents out.new) (node_words node words.now request)) }
    ensures refused { OnErr result (AppendsSome (W.contents out.old) (W.contents out.new)
        (node_words node words.now request)) }
{
    print_counted(out, b"node ", node)?;
    print_named(out, words, request)
}

/// Prints that a node is given under another generation.
fn print_two_generations<W: Write>(
    out: &mut W,
    node: u64,
    request: RequestName,
    given: u64,
    before: u64,
) -> Result<(), OutputRefused>
    ensures ok { OnOk result (Appends (W.contents out.old) (W.contents out.new)
        (node_words node (codes " under two generations: ") request ++ generations_words given before)) }
    ensures refused { OnErr result (AppendsSome (W.contents out.old) (W.contents out.new)
        (node_words node (codes " under two generations: ") request ++ generations_words given before)) }
{
    print_node(out, node, b" under two generations: ", request)?;
    print_generations(out, given, before)
}

/// Prints that a node is given for another file.
fn print_two_files<W: Write>(
    out: &mut W,
    node: u64,
    request: RequestName,
    given: GivenFile,
    before: GivenFile,
) -> Result<(), OutputRefused>
    ensures ok { OnOk result (Appends (W.contents out.old) (W.contents out.new)
        (node_words node (codes " given for two files at once: ") request ++ files_words given before)) }
    ensures refused { OnErr result (AppendsSome (W.contents out.old) (W.contents out.new)
        (node_words node (codes " given for two files at once: ") request ++ files_words given before)) }
{
    print_node(out, node, b" given for two files at once: ", request)?;
    print_files(out, given, before)
}

/// Prints what a server did wrong, in words.
fn print_fault_words<W: Write>(out: &mut W, fault: Fault) -> Result<(), OutputRefused>
    ensures ok { OnOk result (Appends (W.contents out.old) (W.contents out.new) (fault_words fault)) }
    ensures refused { OnErr result (AppendsSome (W.contents out.old) (W.contents out.new) (fault_words fault)) }
{
    match fault {
        Fault::NoReply(why) => print_headless(out, why),
        Fault::ToNothing { unique } => print_counted(out, b"reply to nothing: ", unique),
        Fault::Second(request) => print_named(out, b"second reply: ", request),
        Fault::Body { request, size } => print_body(out, request, size),
        Fault::Root(request) => print_named(out, b"the root given for a name: ", request),
        Fault::TwoGenerations {
            node,
            request,
            given,
            before,
        } => print_two_generations(out, node, request, given, before),
        Fault::TwoFiles {
            node,
            request,
            given,
            before,
        } => print_two_files(out, node, request, given, before),
    }
}

/// Prints what a server did wrong.
pub(crate) fn print_fault<A: Allocator, W: Write>(
    out: &mut W,
    fault: Fault,
) -> Result<(), OutputRefused>
    ensures ok { OnOk result (Appends (W.contents out.old) (W.contents out.new) (note_text {A = A} (wrong fault))) }
    ensures refused { OnErr result (AppendsSome (W.contents out.old) (W.contents out.new) (note_text {A = A} (wrong fault))) }
{
    print_fault_words(out, fault)?;
    write_text(out, b"\n")
}
