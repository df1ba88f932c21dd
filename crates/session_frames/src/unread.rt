//! The acts of a request that is not read by a row.

ghost use Rattle.std.specs.Prelude.{◌≡◌, ◌≤◌, ◌++◌, OnOk, length};
ghost use Rattle.fuse_sessions.specs.UnreadRequests as words;

use crate::writing::write;
use fk_fields::{u32_at, u64_at};
use fuse_protocol::InitRequest;
use fuse_sessions::{Act, Asked, Fault};
use std::alloc::{AllocError, Allocator};

/// How many bytes `struct fuse_in_header` has.
const HEADER: usize = 40;

/// The last minor of protocol 7 that the table of opcodes knows, and its last opcode.
const LAST_MINOR: u32 = 45;

/// The last opcode of that minor.
const LAST_OPCODE: u32 = 53;

/// Of what is asked nothing is known.
const fn unjudged() -> Asked
    ensures { result ≡ words.unjudged }
{
    Asked {
        opcode: None,
        asked: 0,
        writes: 0,
        lists_from: 0,
        makes: 0,
        is_dots: false,
        nodeid: 0,
        other: 0,
        uses: None,
        copies_to: None,
    }
}

/// Whether the kernel speaks a later minor.
fn is_later(offered: Option<InitRequest>) -> bool
    ensures { result ≡ words.is_later offered }
{
    match offered {
        Some(offered) => LAST_MINOR < offered.minor,
        None => false,
    }
}

/// Whether no reply to a request of this opcode ends anything: FORGET, INTERRUPT, NOTIFY_REPLY, BATCH_FORGET.
fn takes_no_reply(opcode: u32) -> bool
    ensures { result ≡ words.takes_no_reply opcode }
{
    opcode == 2 || opcode == 36 || opcode == 41 || opcode == 42
}

/// A request with a whole header is malformed, unless the kernel may know its opcode.
fn write_malformed<A: Allocator + Copy>(
    acts: &mut Vec<Act, A>,
    offered: Option<InitRequest>,
    bytes: &[u8],
) -> Result<(), AllocError>
    requires { 40 ≤ length bytes.now }
    ensures { OnOk result (acts.new.items ≡ acts.old.items ++ words.malformed offered bytes.now) }
{
    let may_be_known = is_later(offered)
        && LAST_OPCODE < u32_at(bytes, 4)
        && u32_at(bytes, 0) as usize == bytes.len();
    if may_be_known {
        Ok(())
    } else {
        write(acts, Act::Faulty(Fault::MalformedRequest))
    }
}

/// A request with a whole header waits for its reply.
fn write_asking_unread<A: Allocator + Copy>(
    acts: &mut Vec<Act, A>,
    bytes: &[u8],
) -> Result<(), AllocError>
    requires { 40 ≤ length bytes.now }
    ensures { OnOk result (acts.new.items ≡ acts.old.items ++ words.asking_unread bytes.now) }
{
    if takes_no_reply(u32_at(bytes, 4)) {
        return Ok(());
    }
    let unique = u64_at(bytes, 8);
    write(
        acts,
        Act::Read {
            opcode: None,
            unique,
        },
    )?;
    write(
        acts,
        Act::Asks {
            unique,
            asked: unjudged(),
        },
    )
}

/// The acts of a request that is not read by a row.
///
/// # Errors
///
/// Out of memory.
pub(crate) fn write_unread<A: Allocator + Copy>(
    acts: &mut Vec<Act, A>,
    offered: Option<InitRequest>,
    bytes: &[u8],
) -> Result<(), AllocError>
    ensures { OnOk result (acts.new.items ≡ acts.old.items ++ words.unread_acts offered bytes.now) }
{
    write(acts, Act::Arrives)?;
    if bytes.len() < HEADER {
        return write(acts, Act::Faulty(Fault::MalformedRequest));
    }
    write_malformed(acts, offered, bytes)?;
    write_asking_unread(acts, bytes)
}
