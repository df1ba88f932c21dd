//! Replies that are written.

ghost use Rattle.std.specs.Prelude.{◌≡◌, ◌≤◌, ◌↔◌, ◌++◌, ℕ, IsTrue, OnOk, Some, None, length, flat_map, if◌then◌else◌, []};
ghost use Rattle.std.specs.Option.{option_map};
ghost use Rattle.fuse_replies.specs.Replies.{IsFrame};
ghost use Rattle.fuse_replies.specs.Records.{entry_records_in};
ghost use Rattle.fuse_replies.specs.Record.{entry_record_content};
ghost use Rattle.fuse_sessions.specs.Frames as frames;
ghost use Rattle.fuse_sessions.specs.Waiting as waiting_words;
ghost use Rattle.name_sessions.specs.NameSessions.{NameSession, waits};
ghost use Rattle.name_sessions.specs.ReplyNames as words;
ghost use Rattle.name_judge.specs.Kept.{name_of, asked_of};
ghost use Rattle.name_judge.specs.Seen.{AreRight};

use crate::kept::{KeptName, Waiting};
use crate::tables::Tables;
use fk_fields::{u32_at, u64_at};
use fuse_protocol::MAX_FRAME;
use fuse_replies::{EntryRecord, EntryRecords};
use fuse_sessions::Taken;
use std::alloc::{AllocError, Allocator};

/// -511, the lowest error.
const LOWEST: u32 = u32::MAX - 510;

/// Whether a frame has a whole header, and is as long as that says.
fn is_frame(bytes: &[u8]) -> bool
    ensures { IsTrue result ↔ IsFrame bytes.now }
{
    bytes.len() >= 16 && bytes.len() <= MAX_FRAME && u32_at(bytes, 0) as usize == bytes.len()
}

/// Whether a frame has a good header.
pub(crate) fn has_head(bytes: &[u8]) -> bool
    ensures head { IsTrue result ↔ frames.IsHead bytes.now }
    ensures frame { IsTrue result → IsFrame bytes.now }
{
    if !is_frame(bytes) {
        return false;
    }
    let error = u32_at(bytes, 4);
    u64_at(bytes, 8) == 0 || error == 0 || error >= LOWEST
}

/// Whether the device finds a request for what is written, which it ends.
fn reaches(taken: Taken) -> bool
    ensures { result ≡ waiting_words.reaches taken }
{
    !matches!(taken, Taken::NoEntry)
}

/// Whether the device accepts a reply without an error.
fn is_done(bytes: &[u8], taken: Taken) -> bool
    requires { IsFrame bytes.now }
    ensures { result ≡ words.is_done bytes.now taken }
{
    match taken {
        Taken::Accepted => u32_at(bytes, 4) == 0,
        _ => false,
    }
}

/// Whether a reply is a negative entry.
fn is_negative_entry(bytes: &[u8]) -> bool
    ensures { result ≡ words.is_negative_entry bytes.now }
{
    bytes.len() >= 24 && u64_at(bytes, 16) == 0
}

/// A name is taken away, where there is one.
fn lose_some<A: Allocator + Copy>(tables: &mut Tables<A>, removed: &Option<KeptName<A>>)
    ensures { (s : NameSession) → AreRight s tables.old
        → AreRight (s ++ words.losing (option_map name_of removed.now)) tables.new }
{
    match removed {
        Some(name) => tables.lose(name),
        None => {}
    }
}

/// A name gets a file, where there is one.
fn give_some<A: Allocator + Copy>(
    tables: &mut Tables<A>,
    made: Option<KeptName<A>>,
) -> Result<(), AllocError>
    ensures { OnOk result ((s : NameSession) → AreRight s tables.old
        → AreRight (s ++ words.giving (option_map name_of made)) tables.new) }
{
    match made {
        Some(name) => tables.give(name),
        None => Ok(()),
    }
}

/// One name is taken away and another gets a file, unless the reply is a negative entry.
fn change<A: Allocator + Copy>(
    tables: &mut Tables<A>,
    removed: &Option<KeptName<A>>,
    made: Option<KeptName<A>>,
    bytes: &[u8],
) -> Result<(), AllocError>
    ensures { OnOk result ((s : NameSession) → AreRight s tables.old
        → AreRight (s ++ words.changed_acts (option_map name_of removed.now) (option_map name_of made) bytes.now) tables.new) }
{
    if is_negative_entry(bytes) {
        return Ok(());
    }
    lose_some(tables, removed);
    give_some(tables, made)
}

/// A record of a listing gives its name a file, or does not.
fn see_record<A: Allocator + Copy>(
    tables: &mut Tables<A>,
    parent: u64,
    listed: &EntryRecord<'_>,
) -> Result<(), AllocError>
    ensures { OnOk result ((s : NameSession) → AreRight s tables.old
        → AreRight (s ++ words.record_acts parent (entry_record_content listed.now)) tables.new) }
{
    if listed.entry.nodeid == 0 {
        return Ok(());
    }
    tables.give_bytes(parent, listed.record.name)
}

/// The records of a listing give their names files.
fn see_records<A: Allocator + Copy>(
    tables: &mut Tables<A>,
    parent: u64,
    records: EntryRecords<'_>,
) -> Result<(), AllocError>
    ensures { OnOk result ((s : NameSession) → AreRight s tables.old
        → AreRight (s ++ flat_map (words.record_acts parent) (entry_records_in records.entry)) tables.new) }
{
    let mut left = records;
    'records: while let Some(record) = left.next() {
        see_record(tables, parent, &record)?;
    }
    Ok(())
}

/// A directory is listed, or none is.
fn see_listed<A: Allocator + Copy>(
    tables: &mut Tables<A>,
    listed: Option<u64>,
    bytes: &[u8],
) -> Result<(), AllocError>
    requires { 16 ≤ length bytes.now }
    ensures { OnOk result ((s : NameSession) → AreRight s tables.old
        → AreRight (s ++ words.listed_acts listed bytes.now) tables.new) }
{
    match listed {
        None => Ok(()),
        Some(parent) => see_records(tables, parent, EntryRecords::over(&bytes[16..])),
    }
}

/// A request is done.
fn see_done<A: Allocator + Copy>(
    tables: &mut Tables<A>,
    asked: Waiting<A>,
    bytes: &[u8],
) -> Result<(), AllocError>
    requires { 16 ≤ length bytes.now }
    ensures { OnOk result ((s : NameSession) → AreRight s tables.old
        → AreRight (s ++ words.done_acts (asked_of asked) bytes.now) tables.new) }
{
    let Waiting {
        removed,
        made,
        listed,
    } = asked;
    change(tables, &removed, made, bytes)?;
    see_listed(tables, listed, bytes)
}

/// A reply to what waited says something, or nothing.
fn see_said<A: Allocator + Copy>(
    tables: &mut Tables<A>,
    asked: Option<Waiting<A>>,
    bytes: &[u8],
    taken: Taken,
) -> Result<(), AllocError>
    requires { IsFrame bytes.now }
    ensures { OnOk result ((s : NameSession) → AreRight s tables.old
        → AreRight (s ++ words.said_acts (option_map asked_of asked) bytes.now taken) tables.new) }
{
    match asked {
        Some(asked) if is_done(bytes, taken) => see_done(tables, asked, bytes),
        _ => Ok(()),
    }
}

/// The server writes under a good header.
///
/// # Errors
///
/// Out of memory.
pub(crate) fn see_written<A: Allocator + Copy>(
    tables: &mut Tables<A>,
    bytes: &[u8],
    taken: Taken,
) -> Result<(), AllocError>
    requires { IsFrame bytes.now }
    ensures { OnOk result ((s : NameSession) → AreRight s tables.old
        → AreRight (s ++ words.written_acts (waits s (frames.number_in bytes.now)) bytes.now taken) tables.new) }
{
    let unique = u64_at(bytes, 8);
    if unique == 0 || !reaches(taken) {
        return Ok(());
    }
    let asked = tables.end(unique);
    see_said(tables, asked, bytes, taken)
}
