//! What the lines before say of a request, a node or an open file.

ghost use Rattle.std.specs.Prelude.{◌≡◌, [], ◌∷◌, ◌++◌, List, OnOk};
ghost use Rattle.fuse_sessions.specs.Sessions.{Session};
ghost use Rattle.fuse_sessions.specs.Waiting.{same_open};
ghost use Rattle.fw_check.specs.Past as words;
ghost use Rattle.fw_check.specs.Standing.{Stands};

use crate::file_key::key_of;
use crate::standing::{Standing, count_of_node};
use fuse_protocol::Opcode;
use fuse_sessions::{Act, OpenFile};
use std::alloc::{AllocError, Allocator};
use std::collections::VecDeque;

/// So many traces are remembered.
const REMEMBERED: usize = 4096;

/// What an act did that later faults may be about.
#[derive(Clone, Copy)]
pub(crate) enum PastDeed {
    /// A request was read; `None` is an opcode by which it is not judged.
    Read { opcode: Option<Opcode>, unique: u64 },
    /// A reply to it was written.
    Answered { unique: u64 },
    /// An entry gave a node, of the file with this inode number.
    Given { nodeid: u64, ino: u64 },
    Forgotten { nodeid: u64 },
    Opened(OpenFile),
    Released(OpenFile),
}

/// A deed and its line.
#[derive(Clone, Copy)]
pub(crate) struct Trace {
    pub(crate) line: u64,
    pub(crate) deed: PastDeed,
    /// How often the node was counted then, at most; 0 where the deed is of no node.
    pub(crate) count: u64,
}

/// What an act is about.
#[derive(Clone, Copy)]
pub(crate) enum Topic {
    Nothing,
    Request(u64),
    Node(u64),
    File(OpenFile),
}

/// The last traces of the lines before, in the order they came.
pub(crate) type Past<A> = VecDeque<Trace, A>;

/// What an act did that later faults may be about.
fn past_deed(act: Act) -> Option<PastDeed>
    ensures { result ≡ words.past_deed act }
{
    match act {
        Act::Read { opcode, unique } => Some(PastDeed::Read { opcode, unique }),
        Act::Replies { unique, .. } => Some(PastDeed::Answered { unique }),
        Act::Gives { nodeid, file, .. } => Some(PastDeed::Given {
            nodeid,
            ino: file.ino,
        }),
        Act::Forgets(nodeid, _) => Some(PastDeed::Forgotten { nodeid }),
        Act::Opens(file) => Some(PastDeed::Opened(file)),
        Act::Releases(file) => Some(PastDeed::Released(file)),
        _ => None,
    }
}

/// How often a deed's node is counted at most, by what stands behind it.
fn count_then<A: Allocator + Copy>(standing: &Standing<A>, deed: PastDeed) -> u64
    ensures { (s : Session) → Stands s standing.now.nodes.entries standing.now.files.entries
        → result ≡ words.count_then s deed }
{
    match deed {
        PastDeed::Given { nodeid, .. } => count_of_node(standing, Some(nodeid)),
        PastDeed::Forgotten { nodeid } => count_of_node(standing, Some(nodeid)),
        _ => 0,
    }
}

/// Writes down the trace of an act, if it has one, by what stands behind it.
///
/// # Errors
///
/// Out of memory.
pub(crate) fn note_trace<A: Allocator + Copy>(
    traces: &mut Vec<Trace, A>,
    standing: &Standing<A>,
    number: u64,
    act: Act,
) -> Result<(), AllocError>
    ensures { OnOk result ((s : Session) → Stands (s ++ act ∷ []) standing.now.nodes.entries standing.now.files.entries
        → traces.new.items ≡ traces.old.items ++ words.trace_of number s act) }
{
    if let Some(deed) = past_deed(act) {
        traces.push(Trace {
            line: number,
            deed,
            count: count_then(standing, deed),
        })?;
    }
    Ok(())
}

/// Remembers a trace. The oldest goes where there are too many.
///
/// # Errors
///
/// Out of memory.
fn remember_one<A: Allocator>(past: &mut Past<A>, trace: Trace) -> Result<(), AllocError>
    ensures { OnOk result ((all : List Trace) → past.old.items ≡ words.remembered all
        → past.new.items ≡ words.remembered (all ++ trace ∷ [])) }
{
    if past.len() >= REMEMBERED {
        let _oldest = past.pop_front();
    }
    past.push_back(trace)?;
    Ok(())
}

/// Remembers the traces of a line.
///
/// # Errors
///
/// Out of memory.
pub(crate) fn remember<A: Allocator>(past: &mut Past<A>, traces: &[Trace]) -> Result<(), AllocError>
    ensures { OnOk result ((all : List Trace) → past.old.items ≡ words.remembered all
        → past.new.items ≡ words.remembered (all ++ traces.now)) }
{
    for trace in traces {
        remember_one(past, *trace)?;
    }
    Ok(())
}

/// What an act is about.
pub(crate) fn topic_of(act: Act) -> Topic
    ensures { result ≡ words.topic_of act }
{
    match act {
        Act::Read { unique, .. }
        | Act::Takes { unique, .. }
        | Act::Replies { unique, .. }
        | Act::Interrupted(unique) => Topic::Request(unique),
        Act::Resent { original, .. }
        | Act::Interrupts { original, .. }
        | Act::RepliesToInterrupt { original, .. } => Topic::Request(original),
        Act::Names(nodeid)
        | Act::Forgets(nodeid, _)
        | Act::Gives { nodeid, .. }
        | Act::Describes { nodeid, .. }
        | Act::Missing { nodeid, .. } => Topic::Node(nodeid),
        Act::Uses(file) | Act::Releases(file) | Act::Opens(file) => Topic::File(file),
        _ => Topic::Nothing,
    }
}

/// Whether two open files are the same.
fn is_same(file: OpenFile, other: OpenFile) -> bool
    ensures { result ≡ same_open file other }
{
    key_of(file) == key_of(other)
}

/// Whether a deed begins what an act is about, or ends it.
fn is_about(is_end: bool, topic: Topic, deed: PastDeed) -> bool
    ensures { result ≡ words.is_about is_end topic deed }
{
    match (is_end, topic, deed) {
        (false, Topic::Request(unique), PastDeed::Read { unique: other, .. })
        | (true, Topic::Request(unique), PastDeed::Answered { unique: other }) => other == unique,
        (false, Topic::Node(nodeid), PastDeed::Given { nodeid: other, .. })
        | (true, Topic::Node(nodeid), PastDeed::Forgotten { nodeid: other }) => other == nodeid,
        (false, Topic::File(file), PastDeed::Opened(other))
        | (true, Topic::File(file), PastDeed::Released(other)) => is_same(other, file),
        _ => false,
    }
}

/// The last trace of what begins what an act is about, or of what ends it. The newest is looked at first.
pub(crate) fn last_of<A: Allocator>(is_end: bool, topic: Topic, past: &Past<A>) -> Option<Trace>
    ensures { result ≡ words.last_of is_end topic past.now.items }
{
    for newer in 0..past.len() {
        let trace = past[past.len() - 1 - newer];
        if is_about(is_end, topic, trace.deed) {
            return Some(trace);
        }
    }
    None
}
