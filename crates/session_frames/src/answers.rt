//! The acts of what an accepted reply says.

ghost use Rattle.std.specs.Prelude.{◌≡◌, ◌++◌, OnOk};
ghost use Rattle.fuse_replies.specs.Replies.{answer_content};
ghost use Rattle.fuse_sessions.specs.ReplyActs as words;
ghost use Rattle.fuse_sessions.specs.Warnings as warnings;

use crate::entries::{is_opened, kind_of, write_entry, write_records};
use crate::listings::{write_listing, write_offsets};
use crate::writing::write;
use fuse_protocol::Opcode;
use fuse_replies::Answer;
use fuse_sessions::{Act, Asked, Fault, OpenFile, OpenKind};
use std::alloc::{AllocError, Allocator};

const ENOENT: u32 = 2;

const ENOSYS: u32 = 38;

const ESTALE: u32 = 116;

/// Whether an error says that a node is not there.
fn is_missing(errno: u32) -> bool
    ensures { result ≡ warnings.is_missing errno }
{
    errno == ENOENT || errno == ESTALE
}

/// Whether a request is about a node itself, or what is open of it, and has no name.
fn is_of_node(opcode: Opcode) -> bool
    ensures { result ≡ warnings.is_of_node opcode }
{
    matches!(
        opcode,
        Opcode::Getattr
            | Opcode::Setattr
            | Opcode::Readlink
            | Opcode::Open
            | Opcode::Read
            | Opcode::Write
            | Opcode::Fsync
            | Opcode::Flush
            | Opcode::Opendir
            | Opcode::Readdir
            | Opcode::Readdirplus
            | Opcode::Fsyncdir
            | Opcode::Access
            | Opcode::Fallocate
            | Opcode::Lseek
            | Opcode::Statx
    )
}

/// A file is open from now on.
fn write_opening<A: Allocator + Copy>(
    acts: &mut Vec<Act, A>,
    opcode: Opcode,
    nodeid: u64,
    fh: u64,
) -> Result<(), AllocError>
    ensures { OnOk result (acts.new.items ≡ acts.old.items ++ words.opening opcode nodeid fh) }
{
    let kind = match opcode {
        Opcode::Open | Opcode::Create | Opcode::Tmpfile => OpenKind::File,
        Opcode::Opendir => OpenKind::Directory,
        _ => return Ok(()),
    };
    write(acts, Act::Opens(OpenFile { kind, nodeid, fh }))
}

/// The server opens none.
fn write_opening_none<A: Allocator + Copy>(
    acts: &mut Vec<Act, A>,
    opcode: Opcode,
) -> Result<(), AllocError>
    ensures { OnOk result (acts.new.items ≡ acts.old.items ++ words.opening_none opcode) }
{
    match opcode {
        Opcode::Open => write(acts, Act::OpensNone(OpenKind::File)),
        Opcode::Opendir => write(acts, Act::OpensNone(OpenKind::Directory)),
        _ => Ok(()),
    }
}

/// What an error says, besides that the request failed.
fn write_failed<A: Allocator + Copy>(
    acts: &mut Vec<Act, A>,
    opcode: Opcode,
    nodeid: u64,
    errno: u32,
) -> Result<(), AllocError>
    ensures { OnOk result (acts.new.items ≡ acts.old.items ++ words.failed_acts opcode nodeid errno) }
{
    if errno == ENOSYS {
        write_opening_none(acts, opcode)?;
    }
    if is_of_node(opcode) && is_missing(errno) {
        return write(acts, Act::Missing { nodeid, errno });
    }
    Ok(())
}

/// So many bytes were written or copied, of so many at most.
fn write_counting<A: Allocator + Copy>(
    acts: &mut Vec<Act, A>,
    opcode: Opcode,
    said: u64,
    most: u64,
) -> Result<(), AllocError>
    ensures { OnOk result (acts.new.items ≡ acts.old.items ++ words.counting opcode said most) }
{
    match opcode {
        Opcode::Write | Opcode::CopyFileRange | Opcode::CopyFileRange64 if most < said => {
            write(acts, Act::Faulty(Fault::MoreThanWasAsked))
        }
        _ => Ok(()),
    }
}

/// The acts of what an accepted reply says to a request of an opcode.
///
/// # Errors
///
/// Out of memory.
pub(crate) fn write_answer<A: Allocator + Copy>(
    acts: &mut Vec<Act, A>,
    opcode: Opcode,
    asked: &Asked,
    answer: &Answer<'_>,
) -> Result<(), AllocError>
    ensures { OnOk result (acts.new.items
        ≡ acts.old.items ++ words.answer_acts opcode asked.now (answer_content answer.now)) }
{
    match answer {
        Answer::Failed(errno) => write_failed(acts, opcode, asked.nodeid, *errno),
        Answer::Entry(entry) => write_entry(acts, true, opcode, asked, entry),
        Answer::Attributes(valid) => {
            let describes = Act::Describes {
                nodeid: asked.nodeid,
                kind: kind_of(&valid.attributes),
                ino: valid.attributes.ino,
            };
            write(acts, describes)
        }
        Answer::Opened(opened) => write_opening(acts, opcode, asked.nodeid, opened.handle),
        Answer::Created(entry, opened) => {
            write_entry(acts, true, opcode, asked, entry)?;
            if is_opened(asked, entry) {
                write_opening(acts, opcode, entry.nodeid, opened.handle)
            } else {
                Ok(())
            }
        }
        Answer::Number(number) => write_counting(acts, opcode, *number, asked.writes),
        Answer::Records(records) => write_listing(acts, asked.lists_from, *records),
        Answer::EntryRecords(records) => {
            let offsets = write_records(acts, true, asked, *records)?;
            write_offsets(acts, asked.lists_from, offsets)
        }
        Answer::Init(init) => write(acts, Act::Agrees(init.max_write)),
        Answer::Done | Answer::Bytes(_) => Ok(()),
    }
}
