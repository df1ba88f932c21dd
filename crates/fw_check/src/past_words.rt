//! What the lines before say of what an act is about, in words.

ghost use Rattle.std.specs.Prelude.{◌≡◌, ◌++◌, OnOk, codes};
ghost use Rattle.fw_check.specs.FaultWords as words;
ghost use Rattle.fw_check.specs.FaultWords.{said};

use crate::past::{Past, PastDeed, Trace, last_of, topic_of};
use crate::text::{put, put_said};
use fuse_protocol::Opcode;
use fuse_sessions::Act;
use std::alloc::{AllocError, Allocator};

/// The name of a request, if it is known.
fn request_word(opcode: Option<Opcode>) -> &'static str
    ensures { result.now ≡ words.request_word opcode }
{
    match opcode {
        Some(opcode) => opcode.name(),
        None => "request",
    }
}

/// That a request was read.
fn put_read<A: Allocator>(text: &mut Vec<u8, A>, opcode: Option<Opcode>) -> Result<(), AllocError>
    ensures { OnOk result (text.new.items ≡ text.old.items ++ (words.request_word opcode ++ codes " read")) }
{
    put(text, request_word(opcode).as_bytes())?;
    put(text, b" read")
}

/// What was done.
fn put_deed<A: Allocator>(text: &mut Vec<u8, A>, deed: PastDeed) -> Result<(), AllocError>
    ensures { OnOk result (text.new.items ≡ text.old.items ++ words.deed_words deed) }
{
    match deed {
        PastDeed::Read { opcode, .. } => put_read(text, opcode),
        PastDeed::Answered { .. } => put(text, b"answered"),
        PastDeed::Given { .. } => put(text, b"given"),
        PastDeed::Forgotten { .. } => put(text, b"forgotten"),
        PastDeed::Opened(_) => put(text, b"opened"),
        PastDeed::Released(_) => put(text, b"released"),
    }
}

/// A comma, a word and a number.
fn put_more<A: Allocator>(text: &mut Vec<u8, A>, word: &[u8], number: u64) -> Result<(), AllocError>
    ensures { OnOk result (text.new.items ≡ text.old.items ++ (codes "," ++ said word.now number)) }
{
    put(text, b",")?;
    put_said(text, word, number)
}

/// An inode number, and how often a node was counted.
fn put_given<A: Allocator>(text: &mut Vec<u8, A>, ino: u64, count: u64) -> Result<(), AllocError>
    ensures { OnOk result (text.new.items
        ≡ text.old.items ++ (codes "," ++ said (codes "inode") ino ++ words.count_words count)) }
{
    put_more(text, b"inode", ino)?;
    put_more(text, b"count", count)
}

/// Of which file a deed's node was, and how often it was counted then.
fn put_node<A: Allocator>(
    text: &mut Vec<u8, A>,
    deed: PastDeed,
    count: u64,
) -> Result<(), AllocError>
    ensures { OnOk result (text.new.items ≡ text.old.items ++ words.node_words deed count) }
{
    match deed {
        PastDeed::Given { ino, .. } => put_given(text, ino, count),
        PastDeed::Forgotten { .. } => put_more(text, b"count", count),
        _ => Ok(()),
    }
}

/// What was done, and in which line.
fn put_trace<A: Allocator>(text: &mut Vec<u8, A>, trace: Option<Trace>) -> Result<(), AllocError>
    ensures { OnOk result (text.new.items ≡ text.old.items ++ words.trace_words trace) }
{
    let Some(trace) = trace else {
        return Ok(());
    };
    put(text, b"; ")?;
    put_deed(text, trace.deed)?;
    put_said(text, b"at line", trace.line)?;
    put_node(text, trace.deed, trace.count)
}

/// What began last of what an act is about, and what ended last.
pub(crate) fn put_past<A: Allocator>(
    text: &mut Vec<u8, A>,
    past: &Past<A>,
    act: Act,
) -> Result<(), AllocError>
    ensures { OnOk result (text.new.items ≡ text.old.items ++ words.past_words past.now.items act) }
{
    let topic = topic_of(act);
    put_trace(text, last_of(false, topic, past))?;
    put_trace(text, last_of(true, topic, past))
}
