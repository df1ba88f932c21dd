//! The life of one node: what gives it, names it and forgets it.

ghost use Rattle.std.specs.Prelude.{◌≡◌, ◌++◌, IfSome, List, OnOk};
ghost use Rattle.fuse_judge.specs.Transfers.{HasSeenFrom};
ghost use Rattle.fuse_sessions.specs.declared.known.Known.{Known};
ghost use Rattle.fuse_sessions.specs.Counts.{most_count};
ghost use Rattle.fuse_sessions.specs.Sessions.{Session};
ghost use Rattle.fw_check.specs.Life as words;

use crate::fault_line::put_number_of_line;
use crate::text::{put, put_counted, put_number, put_said};
use fk_fields::u64_at;
use fuse_judge::SessionJudge;
use fuse_protocol::Opcode;
use fuse_sessions::{Act, Asked, Transfer};
use std::alloc::{AllocError, Allocator};

/// Whose the acts of a transfer are.
#[derive(Clone, Copy, Debug, PartialEq, Eq)]
pub(crate) enum Doer {
    Unknown,
    /// The request of this opcode, if it is known, under this number: its own, or its reply's.
    Request(Option<Opcode>, u64),
}

/// What an act does to the node.
#[derive(Clone, Copy, Debug, PartialEq, Eq)]
pub(crate) enum Deed {
    Nothing,
    Gives,
    Names,
    /// So many lookups of it.
    Forgets(u64),
}

/// The length of a whole header.
const HEADER: usize = 16;

/// The opcode of a request that waits.
fn opcode_asked(asked: Option<Asked>) -> Option<Opcode>
    ensures { result ≡ words.opcode_asked asked }
{
    match asked {
        Some(asked) => asked.opcode,
        None => None,
    }
}

/// Whose the acts of the next transfer are, at its first.
fn doer_of<A: Allocator + Copy>(judge: &SessionJudge<A>, transfer: Transfer<'_>) -> Doer
    ensures { (start : Known) (transfers : List Transfer) (s : Session) → HasSeenFrom start transfers s judge.now
        → result ≡ words.doer_of s transfer.entry }
{
    match transfer {
        Transfer::Written(bytes, _) => {
            if bytes.len() < HEADER {
                return Doer::Unknown;
            }
            let unique = u64_at(bytes, 8);
            Doer::Request(opcode_asked(judge.waiting(unique)), unique)
        }
        _ => Doer::Unknown,
    }
}

/// The same, if the life of a node is asked for.
pub(crate) fn first_doer<A: Allocator + Copy>(
    node: Option<u64>,
    judge: &SessionJudge<A>,
    transfer: Transfer<'_>,
) -> Doer
    ensures { (start : Known) (transfers : List Transfer) (s : Session) → HasSeenFrom start transfers s judge.now
        → result ≡ words.doer_for node s transfer.entry }
{
    match node {
        Some(_) => doer_of(judge, transfer),
        None => Doer::Unknown,
    }
}

/// Whose the acts are from this one on.
fn doer_after(doer: Doer, act: Act) -> Doer
    ensures { result ≡ words.doer_after doer act }
{
    match act {
        Act::Read { opcode, unique } => Doer::Request(opcode, unique),
        _ => doer,
    }
}

/// A deed, if it is of the node.
fn of_node(node: u64, other: u64, deed: Deed) -> Deed
    ensures { result ≡ words.of_node node other deed }
{
    if node == other { deed } else { Deed::Nothing }
}

/// What an act does to the node.
fn deed_of(node: u64, act: Act) -> Deed
    ensures { result ≡ words.deed_of node act }
{
    match act {
        Act::Gives { nodeid, .. } => of_node(node, nodeid, Deed::Gives),
        Act::Names(nodeid) => of_node(node, nodeid, Deed::Names),
        Act::Forgets(nodeid, lookups) => of_node(node, nodeid, Deed::Forgets(lookups)),
        _ => Deed::Nothing,
    }
}

/// How often the node is counted after a deed; `None` past 64 bits.
fn count_after(count: u64, deed: Deed) -> Option<u64>
    ensures { IfSome result (λ n. n ≡ words.count_after count deed) }
{
    match deed {
        Deed::Gives => count.checked_add(1),
        Deed::Forgets(lookups) => Some(count.saturating_sub(lookups)),
        Deed::Nothing | Deed::Names => Some(count),
    }
}

/// Puts whose an act is.
fn put_doer<A: Allocator>(text: &mut Vec<u8, A>, doer: Doer) -> Result<(), AllocError>
    ensures { OnOk result (text.new.items ≡ text.old.items ++ words.doer_words doer) }
{
    match doer {
        Doer::Unknown => put(text, b"a frame"),
        Doer::Request(None, unique) => put_counted(text, b"request", unique),
        Doer::Request(Some(opcode), unique) => put_counted(text, opcode.name().as_bytes(), unique),
    }
}

/// Puts a word, the node and a colon.
fn put_node<A: Allocator>(text: &mut Vec<u8, A>, word: &[u8], node: u64) -> Result<(), AllocError>
    ensures { OnOk result (text.new.items ≡ text.old.items ++ words.node_words word.now node) }
{
    put(text, word)?;
    put_number(text, node)?;
    put(text, b":")
}

/// Puts what is done to the node.
fn put_deed<A: Allocator>(text: &mut Vec<u8, A>, node: u64, deed: Deed) -> Result<(), AllocError>
    ensures { OnOk result (text.new.items ≡ text.old.items ++ words.deed_words node deed) }
{
    match deed {
        Deed::Nothing => Ok(()),
        Deed::Gives => put_node(text, b" gives node ", node),
        Deed::Names => put_node(text, b" names node ", node),
        Deed::Forgets(lookups) => {
            put_node(text, b" forgets node ", node)?;
            put_said(text, b"lookups", lookups)
        }
    }
}

/// Puts the line of a deed, and how often the node is counted after it.
fn put_life_line<A: Allocator>(
    text: &mut Vec<u8, A>,
    number: u64,
    doer: Doer,
    node: u64,
    count: u64,
    deed: Deed,
) -> Result<(), AllocError>
    ensures { OnOk result (text.new.items ≡ text.old.items ++ words.life_line number doer node count deed) }
{
    put_number_of_line(text, number)?;
    put_doer(text, doer)?;
    put_deed(text, node, deed)?;
    put_said(text, b"count", count)?;
    put(text, b"\n")
}

/// Puts the line of a deed, if there is one.
fn put_life_text<A: Allocator>(
    text: &mut Vec<u8, A>,
    number: u64,
    doer: Doer,
    node: u64,
    count: u64,
    deed: Deed,
) -> Result<(), AllocError>
    ensures { OnOk result (text.new.items ≡ text.old.items ++ words.life_text number doer node count deed) }
{
    match deed {
        Deed::Nothing => Ok(()),
        _ => put_life_line(text, number, doer, node, count, deed),
    }
}

/// Puts a line for each act of a transfer that gives the node, names it or forgets it, which is counted so often before. The first acts are
/// of this doer.
///
/// # Errors
///
/// Out of memory, or a count past 64 bits.
pub(crate) fn put_life<A: Allocator>(
    text: &mut Vec<u8, A>,
    number: u64,
    node: u64,
    count: u64,
    first: Doer,
    acts: &[Act],
) -> Result<(), AllocError>
    ensures { OnOk result ((s : Session) (t : Transfer) → most_count s node ≡ count → first ≡ words.doer_of s t
        → text.new.items ≡ text.old.items ++ words.life_lines number node (words.doer_of s t) s acts.now) }
{
    let mut doer = first;
    let mut counted = count;
    for act in acts {
        doer = doer_after(doer, *act);
        let deed = deed_of(node, *act);
        match count_after(counted, deed) {
            Some(later) => counted = later,
            None => return Err(AllocError),
        }
        put_life_text(text, number, doer, node, counted, deed)?;
    }
    Ok(())
}
