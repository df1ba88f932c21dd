//! What the table of opcodes is made of: requests that wait, counts by opcode, and how long replies took.

ghost use Rattle.std.specs.Prelude.{◌≡◌, OnOk};
ghost use Rattle.std.specs.Map.{lookup};
ghost use Rattle.std.specs.BTreeMap.{insert_entry};
ghost use Rattle.std.specs.Ordering.{nat_cmp};
ghost use Rattle.fw_check.specs.Summary as words;
ghost use Rattle.fw_check.specs.Summary.{exchanges_of};

use crate::heads::{ReplyHead, code_in, reply_head, waiting_number};
use fuse_sessions::Transfer;
use std::alloc::{AllocError, Allocator, Global};
use std::collections::BTreeMap;

/// A request that waits for its reply.
#[derive(Clone, Copy, Debug, PartialEq, Eq)]
pub(crate) struct WaitingRequest {
    /// The number of its opcode, or 0 where that is not known.
    pub(crate) code: u32,
    /// When it was read, in nanoseconds, if its line has a time.
    pub(crate) time: Option<u64>,
}

/// How many requests of an opcode were read, and how many replies they had.
#[derive(Clone, Copy, Debug, PartialEq, Eq)]
pub(crate) struct OpcodeCounts {
    pub(crate) requests: u64,
    pub(crate) replies: u64,
    /// Replies with an error.
    pub(crate) errors: u64,
}

/// How long the reply to a request of an opcode took.
#[derive(Clone, Copy, Debug, PartialEq, Eq)]
pub(crate) struct ReplyTime {
    pub(crate) code: u32,
    pub(crate) nanoseconds: u64,
}

/// What the table of opcodes is made of.
#[derive(Drop)]
pub(crate) struct Exchanges<A: Allocator = Global> {
    /// The requests that wait, by number.
    pub(crate) waiting: BTreeMap<u64, WaitingRequest, A>,
    /// The counts of each opcode that was read, by its number.
    pub(crate) counts: BTreeMap<u32, OpcodeCounts, A>,
    /// A time for each reply whose line and whose request's line have one.
    pub(crate) times: Vec<ReplyTime, A>,
}

/// The counts of an opcode that was not read.
const NO_COUNTS: OpcodeCounts = OpcodeCounts {
    requests: 0,
    replies: 0,
    errors: 0,
};

/// Nothing was read.
pub(crate) fn nothing_exchanged<A: Allocator + Copy>(alloc: A) -> Exchanges<A>
    ensures { exchanges_of result ≡ words.nothing_exchanged }
{
    Exchanges {
        waiting: BTreeMap::new(alloc),
        counts: BTreeMap::new(alloc),
        times: Vec::new(alloc),
    }
}

/// The counts of an opcode.
pub(crate) fn counts_of<A: Allocator>(
    counts: &BTreeMap<u32, OpcodeCounts, A>,
    code: u32,
) -> OpcodeCounts
    ensures { result ≡ words.counts_at code counts.now.entries }
{
    counts.get(&code).copied().unwrap_or(NO_COUNTS)
}

/// Puts counts in the place of an opcode's.
fn put_counts<A: Allocator + Copy>(
    counts: &mut BTreeMap<u32, OpcodeCounts, A>,
    code: u32,
    later: OpcodeCounts,
) -> Result<(), AllocError>
    ensures { OnOk result (counts.new.entries ≡ insert_entry nat_cmp counts.old.entries code later) }
{
    match counts.insert(code, later) {
        Ok(_) => Ok(()),
        Err(_) => Err(AllocError),
    }
}

/// Counts a request of an opcode.
///
/// # Errors
///
/// Out of memory, or the count is full.
fn count_request<A: Allocator + Copy>(
    counts: &mut BTreeMap<u32, OpcodeCounts, A>,
    code: u32,
) -> Result<(), AllocError>
    ensures { OnOk result (counts.new.entries ≡ words.with_request code counts.old.entries) }
{
    let before = counts_of(counts, code);
    let Some(requests) = before.requests.checked_add(1) else {
        return Err(AllocError);
    };
    let later = OpcodeCounts {
        requests,
        replies: before.replies,
        errors: before.errors,
    };
    put_counts(counts, code, later)
}

/// Counts a reply to a request of an opcode.
///
/// # Errors
///
/// Out of memory, or a count is full.
fn count_reply<A: Allocator + Copy>(
    counts: &mut BTreeMap<u32, OpcodeCounts, A>,
    code: u32,
    is_error: bool,
) -> Result<(), AllocError>
    ensures { OnOk result (counts.new.entries ≡ words.with_reply code is_error counts.old.entries) }
{
    let before = counts_of(counts, code);
    let Some(replies) = before.replies.checked_add(1) else {
        return Err(AllocError);
    };
    let Some(errors) = before.errors.checked_add(u64::from(is_error)) else {
        return Err(AllocError);
    };
    let later = OpcodeCounts {
        requests: before.requests,
        replies,
        errors,
    };
    put_counts(counts, code, later)
}

/// How long a reply took; `None` where a line has no time. A reply before its request took no time.
fn time_between(from: Option<u64>, to: Option<u64>) -> Option<u64>
    ensures { result ≡ words.time_between from to }
{
    match (from, to) {
        (Some(from), Some(to)) => Some(to.saturating_sub(from)),
        _ => None,
    }
}

/// Writes down how long a reply took, if that is known.
fn note_time<A: Allocator>(
    times: &mut Vec<ReplyTime, A>,
    code: u32,
    time: Option<u64>,
) -> Result<(), AllocError>
    ensures { OnOk result (times.new.items ≡ words.with_time code time times.old.items) }
{
    match time {
        Some(nanoseconds) => {
            times.push(ReplyTime { code, nanoseconds })?;
            Ok(())
        }
        None => Ok(()),
    }
}

/// Writes down a request that was read.
fn note_request<A: Allocator + Copy>(
    exchanges: &mut Exchanges<A>,
    bytes: &[u8],
    time: Option<u64>,
) -> Result<(), AllocError>
    ensures { OnOk result (exchanges_of exchanges.new ≡ words.after_request (exchanges_of exchanges.old) bytes.now time) }
{
    let code = code_in(bytes);
    count_request(&mut exchanges.counts, code)?;
    let Some(unique) = waiting_number(bytes) else {
        return Ok(());
    };
    match exchanges
        .waiting
        .insert(unique, WaitingRequest { code, time })
    {
        Ok(_) => Ok(()),
        Err(_) => Err(AllocError),
    }
}

/// Writes down the reply that a request had waited for.
fn note_reply<A: Allocator + Copy>(
    exchanges: &mut Exchanges<A>,
    request: WaitingRequest,
    is_error: bool,
    time: Option<u64>,
) -> Result<(), AllocError>
    ensures { OnOk result (exchanges_of exchanges.new
        ≡ words.after_reply (exchanges_of exchanges.old) request is_error time) }
{
    count_reply(&mut exchanges.counts, request.code, is_error)?;
    let took = time_between(request.time, time);
    note_time(&mut exchanges.times, request.code, took)
}

/// Writes down a reply: the request under its number waits no more.
fn note_written<A: Allocator + Copy>(
    exchanges: &mut Exchanges<A>,
    head: ReplyHead,
    time: Option<u64>,
) -> Result<(), AllocError>
    ensures { OnOk result (exchanges_of exchanges.new ≡ words.after_head (exchanges_of exchanges.old) head time) }
{
    match exchanges.waiting.remove(&head.unique) {
        Some(request) => note_reply(exchanges, request, head.is_error, time),
        None => Ok(()),
    }
}

/// Writes down a transfer, at its time.
fn note_transfer<A: Allocator + Copy>(
    exchanges: &mut Exchanges<A>,
    transfer: Transfer<'_>,
    time: Option<u64>,
) -> Result<(), AllocError>
    ensures { OnOk result (exchanges_of exchanges.new ≡ words.after_transfer (exchanges_of exchanges.old) transfer.entry time) }
{
    match transfer {
        Transfer::Request(bytes) => note_request(exchanges, bytes, time),
        Transfer::Written(bytes, taken) => match reply_head(bytes, taken) {
            Some(head) => note_written(exchanges, head, time),
            None => Ok(()),
        },
        _ => Ok(()),
    }
}

/// The same, if the table is asked for.
///
/// # Errors
///
/// Out of memory, or a count is full.
pub(crate) fn note_exchange<A: Allocator + Copy>(
    is_summary: bool,
    exchanges: &mut Exchanges<A>,
    transfer: Transfer<'_>,
    time: Option<u64>,
) -> Result<(), AllocError>
    ensures { OnOk result (exchanges_of exchanges.new
        ≡ words.after_asked is_summary (exchanges_of exchanges.old) transfer.entry time) }
{
    if is_summary {
        note_transfer(exchanges, transfer, time)
    } else {
        Ok(())
    }
}
