//! What is printed of the requests that were sent.

ghost use Rattle.std.specs.Prelude.{◌≡◌, ◌++◌, OnErr, OnOk, codes, decimal};
ghost use Rattle.std.specs.Io.KnownBytes.{Appends};
ghost use Rattle.fuse_text.specs.Outputs.{AppendsSome};
ghost use Rattle.fw_drive.specs.Faults.{asks_word, more_words, request_words, serves_words, unanswered_words};

use crate::fault::{Asks, CallName, RequestName, Unanswered};
use crate::printing::{print_between, print_counted};
use fuse_text::{OutputRefused, write_number, write_text};
use std::io::Write;

/// The name of what a request asks.
fn name_of(asks: Asks) -> &'static str
    ensures { result.now ≡ asks_word asks }
{
    match asks {
        Asks::Kernel(opcode) => opcode.name(),
        Asks::Opendir => "OPENDIR",
        Asks::Releasedir => "RELEASEDIR",
    }
}

/// Prints what a request asks.
fn print_asks<W: Write>(out: &mut W, asks: Asks) -> Result<(), OutputRefused>
    ensures ok { OnOk result (Appends (W.contents out.old) (W.contents out.new) (asks_word asks)) }
    ensures refused { OnErr result (AppendsSome (W.contents out.old) (W.contents out.new) (asks_word asks)) }
{
    write_text(out, name_of(asks).as_bytes())
}

/// Prints what a request asks, and its number.
fn print_asked<W: Write>(out: &mut W, asks: Asks, unique: u64) -> Result<(), OutputRefused>
    ensures ok { OnOk result (Appends (W.contents out.old) (W.contents out.new)
        (asks_word asks ++ (codes " " ++ decimal unique))) }
    ensures refused { OnErr result (AppendsSome (W.contents out.old) (W.contents out.new)
        (asks_word asks ++ (codes " " ++ decimal unique))) }
{
    print_asks(out, asks)?;
    print_counted(out, b" ", unique)
}

/// Prints a call, and the line that began it.
fn print_call<W: Write>(out: &mut W, name: CallName) -> Result<(), OutputRefused>
    ensures ok { OnOk result (Appends (W.contents out.old) (W.contents out.new)
        (codes " of call " ++ decimal name.call ++ codes ", line " ++ decimal name.line)) }
    ensures refused { OnErr result (AppendsSome (W.contents out.old) (W.contents out.new)
        (codes " of call " ++ decimal name.call ++ codes ", line " ++ decimal name.line)) }
{
    print_between(out, b" of call ", name.call, b", line ")?;
    write_number(out, name.line)
}

/// Prints the call that a request serves, if that is known.
fn print_serves<W: Write>(out: &mut W, serves: Option<CallName>) -> Result<(), OutputRefused>
    ensures ok { OnOk result (Appends (W.contents out.old) (W.contents out.new) (serves_words serves)) }
    ensures refused { OnErr result (AppendsSome (W.contents out.old) (W.contents out.new) (serves_words serves)) }
{
    match serves {
        Some(name) => print_call(out, name),
        None => Ok(()),
    }
}

/// Prints a request.
fn print_request<W: Write>(out: &mut W, request: RequestName) -> Result<(), OutputRefused>
    ensures ok { OnOk result (Appends (W.contents out.old) (W.contents out.new) (request_words request)) }
    ensures refused { OnErr result (AppendsSome (W.contents out.old) (W.contents out.new) (request_words request)) }
{
    print_asked(out, request.asks, request.unique)?;
    print_serves(out, request.serves)
}

/// Prints words and a request.
pub(crate) fn print_named<W: Write>(
    out: &mut W,
    words: &[u8],
    request: RequestName,
) -> Result<(), OutputRefused>
    ensures ok { OnOk result (Appends (W.contents out.old) (W.contents out.new) (words.now ++ request_words request)) }
    ensures refused { OnErr result (AppendsSome (W.contents out.old) (W.contents out.new)
        (words.now ++ request_words request)) }
{
    write_text(out, words)?;
    print_request(out, request)
}

/// Prints how many more requests wait, if any does.
fn print_more<W: Write>(out: &mut W, more: Option<u64>) -> Result<(), OutputRefused>
    ensures ok { OnOk result (Appends (W.contents out.old) (W.contents out.new) (more_words more)) }
    ensures refused { OnErr result (AppendsSome (W.contents out.old) (W.contents out.new) (more_words more)) }
{
    match more {
        Some(more) => print_between(out, b" and ", more, b" more"),
        None => Ok(()),
    }
}

/// Prints the first request that waits, and how many more do.
fn print_first<W: Write>(out: &mut W, waits: Unanswered) -> Result<(), OutputRefused>
    ensures ok { OnOk result (Appends (W.contents out.old) (W.contents out.new)
        (codes ": " ++ request_words waits.first ++ more_words waits.more)) }
    ensures refused { OnErr result (AppendsSome (W.contents out.old) (W.contents out.new)
        (codes ": " ++ request_words waits.first ++ more_words waits.more)) }
{
    print_named(out, b": ", waits.first)?;
    print_more(out, waits.more)
}

/// Prints what waits for a reply, if anything does.
fn print_unanswered<W: Write>(out: &mut W, waits: Option<Unanswered>) -> Result<(), OutputRefused>
    ensures ok { OnOk result (Appends (W.contents out.old) (W.contents out.new) (unanswered_words waits)) }
    ensures refused { OnErr result (AppendsSome (W.contents out.old) (W.contents out.new) (unanswered_words waits)) }
{
    match waits {
        Some(waits) => print_first(out, waits),
        None => Ok(()),
    }
}

/// Prints that no reply came, and what waits for one.
fn print_waiting<W: Write>(out: &mut W, waits: Option<Unanswered>) -> Result<(), OutputRefused>
    ensures ok { OnOk result (Appends (W.contents out.old) (W.contents out.new) (codes "no reply" ++ unanswered_words waits)) }
    ensures refused { OnErr result (AppendsSome (W.contents out.old) (W.contents out.new)
        (codes "no reply" ++ unanswered_words waits)) }
{
    write_text(out, b"no reply")?;
    print_unanswered(out, waits)
}

/// Prints the line that no reply came, and what waits for one.
pub(crate) fn print_no_reply<W: Write>(
    out: &mut W,
    waits: Option<Unanswered>,
) -> Result<(), OutputRefused>
    ensures ok { OnOk result (Appends (W.contents out.old) (W.contents out.new)
        (codes "no reply" ++ unanswered_words waits ++ codes "\n")) }
    ensures refused { OnErr result (AppendsSome (W.contents out.old) (W.contents out.new)
        (codes "no reply" ++ unanswered_words waits ++ codes "\n")) }
{
    print_waiting(out, waits)?;
    write_text(out, b"\n")
}
