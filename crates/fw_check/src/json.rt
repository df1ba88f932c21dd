//! The objects of `--json`.

ghost use Rattle.std.specs.Prelude.{◌≡◌, ◌++◌, OnOk, codes};
ghost use Rattle.fuse_protocol.specs.Table.{name_of};
ghost use Rattle.fuse_sessions.specs.declared.act.Act.TheVariants.{Read};
ghost use Rattle.fw_check.specs.Json as words;
ghost use Rattle.fw_check.specs.Unjudged.{unjudged_fields, unjudged_object};

use crate::counts::Counts;
use crate::past::{Past, PastDeed, Trace, last_of, topic_of};
use crate::remains::Remains;
use crate::text::{put, put_number, put_wide};
use crate::unjudged::unjudged_words;
use crate::words::{fault_words, party_word};
use fuse_protocol::{Opcode, Unjudged};
use fuse_sessions::{Act, Fault, Party};
use std::alloc::{AllocError, Allocator};

/// A key behind another.
fn put_key<A: Allocator>(text: &mut Vec<u8, A>, key: &[u8]) -> Result<(), AllocError>
    ensures { OnOk result (text.new.items ≡ text.old.items ++ words.key_text key.now) }
{
    put(text, b",\"")?;
    put(text, key)?;
    put(text, b"\":")
}

/// A key and a number.
pub(crate) fn put_field<A: Allocator>(
    text: &mut Vec<u8, A>,
    key: &[u8],
    number: u64,
) -> Result<(), AllocError>
    ensures { OnOk result (text.new.items ≡ text.old.items ++ words.number_field key.now number) }
{
    put_key(text, key)?;
    put_number(text, number)
}

/// A key and a number, or null.
pub(crate) fn put_option_field<A: Allocator>(
    text: &mut Vec<u8, A>,
    key: &[u8],
    number: Option<u64>,
) -> Result<(), AllocError>
    ensures { OnOk result (text.new.items ≡ text.old.items ++ words.option_field key.now number) }
{
    put_key(text, key)?;
    match number {
        Some(number) => put_number(text, number),
        None => put(text, b"null"),
    }
}

/// A key and a larger number.
fn put_wide_field<A: Allocator>(
    text: &mut Vec<u8, A>,
    key: &[u8],
    number: u128,
) -> Result<(), AllocError>
    ensures { OnOk result (text.new.items ≡ text.old.items ++ words.number_field key.now number) }
{
    put_key(text, key)?;
    put_wide(text, number)
}

/// A text between quotes.
fn put_quoted<A: Allocator>(text: &mut Vec<u8, A>, value: &[u8]) -> Result<(), AllocError>
    ensures { OnOk result (text.new.items ≡ text.old.items ++ (codes "\"" ++ value.now ++ codes "\"")) }
{
    put(text, b"\"")?;
    put(text, value)?;
    put(text, b"\"")
}

/// A key and a text, which has no byte that JSON escapes.
pub(crate) fn put_text_field<A: Allocator>(
    text: &mut Vec<u8, A>,
    key: &[u8],
    value: &str,
) -> Result<(), AllocError>
    ensures { OnOk result (text.new.items ≡ text.old.items ++ words.text_field key.now value.now) }
{
    put_key(text, key)?;
    put_quoted(text, value.as_bytes())
}

/// A node, and a key and a number.
fn put_node<A: Allocator>(
    text: &mut Vec<u8, A>,
    node: u64,
    key: &[u8],
    number: u64,
) -> Result<(), AllocError>
    ensures { OnOk result (text.new.items ≡ text.old.items ++ words.node_fields node key.now number) }
{
    put_field(text, b"nodeid", node)?;
    put_field(text, key, number)
}

/// A request: its opcode, if it is known, and its number.
fn put_read<A: Allocator>(
    text: &mut Vec<u8, A>,
    opcode: Option<Opcode>,
    unique: u64,
) -> Result<(), AllocError>
    ensures { OnOk result (text.new.items ≡ text.old.items ++ words.act_fields (Read opcode unique)) }
{
    let Some(opcode) = opcode else {
        return put_field(text, b"unique", unique);
    };
    put_text_field(text, b"opcode", opcode.name())?;
    put_field(text, b"unique", unique)
}

/// A number, and that of the request which it is about.
fn put_original<A: Allocator>(
    text: &mut Vec<u8, A>,
    unique: u64,
    original: u64,
) -> Result<(), AllocError>
    ensures { OnOk result (text.new.items ≡ text.old.items
        ++ (words.number_field (codes "unique") unique ++ words.number_field (codes "original") original)) }
{
    put_field(text, b"unique", unique)?;
    put_field(text, b"original", original)
}

/// A node that is given, its generation and its inode number.
fn put_gift<A: Allocator>(
    text: &mut Vec<u8, A>,
    node: u64,
    generation: u64,
    ino: u64,
) -> Result<(), AllocError>
    ensures { OnOk result (text.new.items ≡ text.old.items
        ++ (words.node_fields node (codes "generation") generation ++ words.number_field (codes "ino") ino)) }
{
    put_node(text, node, b"generation", generation)?;
    put_field(text, b"ino", ino)
}

/// What an act is about.
fn put_act<A: Allocator>(text: &mut Vec<u8, A>, act: Act) -> Result<(), AllocError>
    ensures { OnOk result (text.new.items ≡ text.old.items ++ words.act_fields act) }
{
    match act {
        Act::Begins(opcode) => put_text_field(text, b"opcode", opcode.name()),
        Act::Read { opcode, unique } => put_read(text, opcode, unique),
        Act::Interrupts { unique, original } | Act::Resent { unique, original } => {
            put_original(text, unique, original)
        }
        Act::Names(node) => put_field(text, b"nodeid", node),
        Act::Forgets(node, lookups) => put_node(text, node, b"lookups", lookups),
        Act::Uses(file) | Act::Releases(file) | Act::Opens(file) => {
            put_node(text, file.nodeid, b"fh", file.fh)
        }
        Act::Writes(size) => put_field(text, b"bytes", size),
        Act::Takes { unique, .. } | Act::Replies { unique, .. } | Act::Interrupted(unique) => {
            put_field(text, b"unique", unique)
        }
        Act::RepliesToInterrupt { original, .. } => put_field(text, b"original", original),
        Act::Gives { nodeid, file, .. } => put_gift(text, nodeid, file.generation, file.ino),
        Act::Describes { nodeid, ino, .. } => put_node(text, nodeid, b"ino", ino),
        Act::Missing { nodeid, errno } => put_node(text, nodeid, b"error", u64::from(errno)),
        _ => Ok(()),
    }
}

/// A request that was read at a line.
fn put_read_at<A: Allocator>(
    text: &mut Vec<u8, A>,
    line: u64,
    opcode: Option<Opcode>,
) -> Result<(), AllocError>
    ensures { OnOk result (text.new.items ≡ text.old.items
        ++ (words.number_field (codes "read_line") line ++ words.opcode_field opcode)) }
{
    put_field(text, b"read_line", line)?;
    match opcode {
        Some(opcode) => put_text_field(text, b"read_opcode", opcode.name()),
        None => Ok(()),
    }
}

/// A node that was given at a line, the inode number of its file, and how often it was counted then.
fn put_given_at<A: Allocator>(
    text: &mut Vec<u8, A>,
    line: u64,
    ino: u64,
    count: u64,
) -> Result<(), AllocError>
    ensures { OnOk result (text.new.items ≡ text.old.items ++ (words.number_field (codes "given_line") line
        ++ words.number_field (codes "given_ino") ino ++ words.number_field (codes "given_count") count)) }
{
    put_field(text, b"given_line", line)?;
    put_field(text, b"given_ino", ino)?;
    put_field(text, b"given_count", count)
}

/// A node that was forgotten at a line, and how often it was counted then.
fn put_forgotten_at<A: Allocator>(
    text: &mut Vec<u8, A>,
    line: u64,
    count: u64,
) -> Result<(), AllocError>
    ensures { OnOk result (text.new.items ≡ text.old.items
        ++ (words.number_field (codes "forgotten_line") line ++ words.number_field (codes "forgotten_count") count)) }
{
    put_field(text, b"forgotten_line", line)?;
    put_field(text, b"forgotten_count", count)
}

/// What was done at a line, and how often its node was counted then.
fn put_deed<A: Allocator>(
    text: &mut Vec<u8, A>,
    line: u64,
    deed: PastDeed,
    count: u64,
) -> Result<(), AllocError>
    ensures { OnOk result (text.new.items ≡ text.old.items ++ words.deed_fields line deed count) }
{
    match deed {
        PastDeed::Read { opcode, .. } => put_read_at(text, line, opcode),
        PastDeed::Answered { .. } => put_field(text, b"answered_line", line),
        PastDeed::Given { ino, .. } => put_given_at(text, line, ino, count),
        PastDeed::Forgotten { .. } => put_forgotten_at(text, line, count),
        PastDeed::Opened(_) => put_field(text, b"opened_line", line),
        PastDeed::Released(_) => put_field(text, b"released_line", line),
    }
}

/// The same, of a trace.
fn put_trace<A: Allocator>(text: &mut Vec<u8, A>, trace: Option<Trace>) -> Result<(), AllocError>
    ensures { OnOk result (text.new.items ≡ text.old.items ++ words.trace_fields trace) }
{
    match trace {
        Some(trace) => put_deed(text, trace.line, trace.deed, trace.count),
        None => Ok(()),
    }
}

/// What began last of what an act is about, and what ended last.
fn put_past<A: Allocator>(text: &mut Vec<u8, A>, past: &Past<A>, act: Act) -> Result<(), AllocError>
    ensures { OnOk result (text.new.items ≡ text.old.items ++ words.past_fields past.now.items act) }
{
    let topic = topic_of(act);
    put_trace(text, last_of(false, topic, past))?;
    put_trace(text, last_of(true, topic, past))
}

/// What the object of a fault begins with, or that of a warning.
fn event_text(party: Party) -> &'static [u8]
    ensures { result.now ≡ words.event_text party }
{
    match party {
        Party::Nobody => b"{\"event\":\"warning\"",
        _ => b"{\"event\":\"fault\"",
    }
}

/// Whose fault it is, if it is one.
fn put_party<A: Allocator>(text: &mut Vec<u8, A>, party: Party) -> Result<(), AllocError>
    ensures { OnOk result (text.new.items ≡ text.old.items ++ words.party_field party) }
{
    match party {
        Party::Nobody => Ok(()),
        _ => put_text_field(text, b"party", party_word(party)),
    }
}

/// Whose fault it is, and the rule that is broken.
fn put_rule<A: Allocator>(text: &mut Vec<u8, A>, fault: Fault) -> Result<(), AllocError>
    ensures { OnOk result (text.new.items ≡ text.old.items ++ words.rule_fields fault) }
{
    put_party(text, fault.party())?;
    put_text_field(text, b"rule", fault_words(fault))
}

/// The object of a fault, with what is remembered of the lines before.
pub(crate) fn put_fault_object<A: Allocator>(
    text: &mut Vec<u8, A>,
    number: u64,
    past: &Past<A>,
    act: Act,
    fault: Fault,
) -> Result<(), AllocError>
    ensures { OnOk result (text.new.items ≡ text.old.items ++ words.fault_object number past.now.items act fault) }
{
    put(text, event_text(fault.party()))?;
    put_field(text, b"line", number)?;
    put_rule(text, fault)?;
    put_act(text, act)?;
    put_past(text, past, act)?;
    put(text, b"}\n")
}

/// From which line on a session is not judged any more, and why.
fn put_unjudged_fields<A: Allocator>(
    text: &mut Vec<u8, A>,
    number: u64,
    why: Unjudged,
) -> Result<(), AllocError>
    ensures { OnOk result (text.new.items ≡ text.old.items ++ unjudged_fields number why) }
{
    put_field(text, b"line", number)?;
    put_text_field(text, b"why", unjudged_words(why))
}

/// The object of that.
pub(crate) fn put_unjudged_object<A: Allocator>(
    text: &mut Vec<u8, A>,
    number: u64,
    why: Unjudged,
) -> Result<(), AllocError>
    ensures { OnOk result (text.new.items ≡ text.old.items ++ unjudged_object number why) }
{
    put(text, b"{\"event\":\"unjudged\"")?;
    put_unjudged_fields(text, number, why)?;
    put(text, b"}\n")
}

/// The counts of transfers.
fn put_transfers<A: Allocator>(text: &mut Vec<u8, A>, counts: Counts) -> Result<(), AllocError>
    ensures { OnOk result (text.new.items ≡ text.old.items ++ words.transfers_fields counts) }
{
    put_field(text, b"requests", counts.requests)?;
    put_field(text, b"replies", counts.replies)?;
    put_field(text, b"notifications", counts.notifications)?;
    put_field(text, b"refused", counts.refused)
}

/// The counts of requests that wait and of lookups.
fn put_lookups<A: Allocator>(
    text: &mut Vec<u8, A>,
    remains: Remains,
    counts: Counts,
) -> Result<(), AllocError>
    ensures { OnOk result (text.new.items ≡ text.old.items ++ words.lookups_fields remains counts) }
{
    put_field(text, b"unanswered", remains.unanswered)?;
    put_field(text, b"entries", counts.entries)?;
    put_wide_field(text, b"forgotten", counts.forgotten)
}

/// The counts of nodes that are counted and of files that are open.
fn put_standing<A: Allocator>(text: &mut Vec<u8, A>, remains: Remains) -> Result<(), AllocError>
    ensures { OnOk result (text.new.items ≡ text.old.items ++ words.standing_fields remains) }
{
    put_field(text, b"nodes", remains.nodes)?;
    put_field(text, b"open", remains.files)
}

/// The counts of faults.
fn put_parties<A: Allocator>(text: &mut Vec<u8, A>, counts: Counts) -> Result<(), AllocError>
    ensures { OnOk result (text.new.items ≡ text.old.items ++ words.parties_fields counts) }
{
    put_field(text, b"kernel", counts.kernel)?;
    put_field(text, b"server", counts.server)?;
    put_field(text, b"device", counts.device)?;
    put_field(text, b"warnings", counts.warnings)
}

/// The counts.
fn put_counts<A: Allocator>(
    text: &mut Vec<u8, A>,
    remains: Remains,
    counts: Counts,
) -> Result<(), AllocError>
    ensures { OnOk result (text.new.items ≡ text.old.items ++ words.counts_fields remains counts) }
{
    put_transfers(text, counts)?;
    put_lookups(text, remains, counts)?;
    put_standing(text, remains)?;
    put_parties(text, counts)
}

/// The object of the counts.
pub(crate) fn put_counts_object<A: Allocator>(
    text: &mut Vec<u8, A>,
    remains: Remains,
    counts: Counts,
) -> Result<(), AllocError>
    ensures { OnOk result (text.new.items ≡ text.old.items ++ words.counts_object remains counts) }
{
    put(text, b"{\"event\":\"counts\"")?;
    put_counts(text, remains, counts)?;
    put(text, b"}\n")
}
