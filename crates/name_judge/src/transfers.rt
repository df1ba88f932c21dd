//! Transfers, while names are certain.

ghost use Rattle.std.specs.Prelude.{◌≡◌, IfOk, false};
ghost use Rattle.name_sessions.specs.NameFrames.{AreNameActs, AreRequestActs, AreWrittenActs};
ghost use Rattle.name_sessions.specs.NameSessions.{NameSession, is_unsure};
ghost use Rattle.name_judge.specs.Seen.{AreRight, IsVerdict};

use crate::replies::{has_head, see_written};
use crate::requests::see_request;
use crate::tables::Tables;
use fuse_protocol::{Agreed, read_request};
use fuse_sessions::{Taken, Transfer};
use std::alloc::{AllocError, Allocator};

/// A request is read. Returns whether it is a fault, or `None` where it is not known what it does.
fn see_read<A: Allocator + Copy>(
    tables: &mut Tables<A>,
    agreed: Agreed,
    bytes: &[u8],
) -> Result<Option<bool>, AllocError>
    ensures { IfOk result (λ verdict. (s : NameSession) → AreRight s tables.old → is_unsure s ≡ false
        → IsVerdict (AreRequestActs agreed bytes.now) s tables.new verdict) }
{
    let read = read_request(agreed, bytes);
    match &read {
        Ok(request) => {
            let fault = see_request(tables, request)?;
            Ok(Some(fault))
        }
        Err(_) => Ok(None),
    }
}

/// The server writes. That is no fault.
fn see_write<A: Allocator + Copy>(
    tables: &mut Tables<A>,
    bytes: &[u8],
    taken: Taken,
) -> Result<Option<bool>, AllocError>
    ensures { IfOk result (λ verdict. (s : NameSession) → AreRight s tables.old → is_unsure s ≡ false
        → IsVerdict (AreWrittenActs s bytes.now taken) s tables.new verdict) }
{
    if !has_head(bytes) {
        return Ok(Some(false));
    }
    see_written(tables, bytes, taken)?;
    Ok(Some(false))
}

/// A transfer goes over the device. Returns whether it is a fault, or `None` where nothing is certain from here on.
///
/// # Errors
///
/// Out of memory.
pub(crate) fn see_transfer<A: Allocator + Copy>(
    tables: &mut Tables<A>,
    agreed: Agreed,
    transfer: Transfer<'_>,
) -> Result<Option<bool>, AllocError>
    ensures { IfOk result (λ verdict. (s : NameSession) → AreRight s tables.old → is_unsure s ≡ false
        → IsVerdict (AreNameActs agreed s transfer.entry) s tables.new verdict) }
{
    match transfer {
        Transfer::Request(bytes) => see_read(tables, agreed, bytes),
        Transfer::Written(bytes, taken) => see_write(tables, bytes, taken),
        Transfer::SeveralReaders | Transfer::SeveralWriters => Ok(None),
        Transfer::Ended => Ok(Some(false)),
    }
}
