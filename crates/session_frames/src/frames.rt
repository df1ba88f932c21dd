//! The acts of a transfer.

ghost use Rattle.std.specs.Prelude.{◌≡◌, ℕ, [], OnOk};
ghost use Rattle.std.specs.Option.{option_copied};
ghost use Rattle.fuse_sessions.specs.Frames as words;
ghost use Rattle.fuse_sessions.specs.Sessions.{Session};
ghost use Rattle.fuse_sessions.specs.Waiting.{waits};
ghost use Rattle.session_frames.specs.Numbers.{IsReplyNumber};

use crate::init::learn_request;
use crate::replies::write_written;
use crate::requests::write_request;
use crate::unread::write_unread;
use crate::writing::write;
use fk_fields::u64_at;
use fuse_protocol::read_request;
use fuse_sessions::{Act, Asked, Known, Transfer};
use std::alloc::{AllocError, Allocator};

/// A request that was read.
fn write_read<A: Allocator + Copy>(
    acts: &mut Vec<Act, A>,
    known: &Known,
    bytes: &[u8],
) -> Result<(), AllocError>
    requires { acts.old.items ≡ [] }
    ensures { OnOk result (words.AreRequestActs known.now bytes.now acts.new.items) }
{
    let read = read_request(known.agreed, bytes);
    match &read {
        Ok(request) => write_request(acts, known.has_resent, request),
        Err(_) => write_unread(acts, known.offered, bytes),
    }
}

/// The number under which a transfer replies: that of a frame that is written, and else 0.
pub fn reply_number(transfer: Transfer<'_>) -> u64
    ensures { IsReplyNumber transfer.entry result }
{
    match transfer {
        Transfer::Written(bytes, _) if bytes.len() >= 16 => u64_at(bytes, 8),
        _ => 0,
    }
}

/// The acts of a transfer whose frames can be read, by what waits under its number. What is known changes with it.
#[inline(always)]
fn write_read_transfer<A: Allocator + Copy>(
    acts: &mut Vec<Act, A>,
    known: &mut Known,
    asked: Option<&Asked>,
    transfer: Transfer<'_>,
) -> Result<(), AllocError>
    requires { acts.old.items ≡ [] }
    ensures { OnOk result ((s : Session) (n : ℕ) → IsReplyNumber transfer.entry n → waits s n ≡ option_copied asked.entry
        → words.AreReadActs known.old s transfer.entry acts.new.items known.new) }
{
    match transfer {
        Transfer::Request(bytes) => {
            write_read(acts, known, bytes)?;
            learn_request(known, bytes);
            Ok(())
        }
        Transfer::Written(bytes, taken) => write_written(acts, known, asked, bytes, taken),
        Transfer::SeveralReaders => write(acts, Act::SeveralReaders),
        Transfer::SeveralWriters => write(acts, Act::SeveralWriters),
        Transfer::Ended => write(acts, Act::Ends),
    }
}

/// The acts of a transfer, by what waits under its number, in place of what the vector had: none once INIT agreed on frames
/// that cannot be read. What is known changes with the transfer.
///
/// # Errors
///
/// Out of memory. What is known may then be wrong.
#[inline(always)]
pub fn write_transfer<A: Allocator + Copy>(
    acts: &mut Vec<Act, A>,
    known: &mut Known,
    asked: Option<&Asked>,
    transfer: Transfer<'_>,
) -> Result<(), AllocError>
    ensures { OnOk result ((s : Session) (n : ℕ) → IsReplyNumber transfer.entry n → waits s n ≡ option_copied asked.entry
        → words.AreActs known.old s transfer.entry acts.new.items known.new) }
{
    acts.clear();
    if known.unjudged.is_some() {
        return Ok(());
    }
    write_read_transfer(acts, known, asked, transfer)
}
