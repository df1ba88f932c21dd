//! The acts of a request.

ghost use Rattle.std.specs.Prelude.{◌≡◌, ◌≤◌, ◌&&◌, [], ◌∷◌, ◌++◌, OnOk, Some, nat_le};
ghost use Rattle.fuse_protocol.specs.Requests.{request_message};
ghost use Rattle.fuse_protocol.specs.Pairs.{pairs_in};
ghost use Rattle.fuse_sessions.specs.declared.act.Act.TheVariants.{Read};
ghost use Rattle.fuse_sessions.specs.RequestActs as words;
ghost use Rattle.fuse_sessions.specs.RequestActs.{resend_bit};

use crate::asked::{asked_of, bytes_written, or_none};
use crate::writing::write;
use fuse_protocol::{Opcode, OpenHandle, Pairs, Request};
use fuse_sessions::{Act, OpenFile, OpenKind};
use std::alloc::{AllocError, Allocator};

/// FUSE_UNIQUE_RESEND: the bit of a request's number that is read once more.
const RESEND_BIT: u64 = 1 << 63;

/// A node is named where it is one.
fn write_naming<A: Allocator + Copy>(acts: &mut Vec<Act, A>, node: u64) -> Result<(), AllocError>
    ensures { OnOk result (acts.new.items ≡ acts.old.items ++ words.naming node) }
{
    if node == 0 {
        return Ok(());
    }
    write(acts, Act::Names(node))
}

/// An open file is used.
fn write_using<A: Allocator + Copy>(
    acts: &mut Vec<Act, A>,
    file: Option<OpenFile>,
) -> Result<(), AllocError>
    ensures { OnOk result (acts.new.items ≡ acts.old.items ++ words.using file) }
{
    match file {
        None => Ok(()),
        Some(file) => write(acts, Act::Uses(file)),
    }
}

/// An open file is released.
fn write_releasing<A: Allocator + Copy>(
    acts: &mut Vec<Act, A>,
    opcode: Opcode,
    nodeid: u64,
    handle: OpenHandle,
) -> Result<(), AllocError>
    ensures { OnOk result (acts.new.items ≡ acts.old.items ++ words.releasing opcode nodeid handle) }
{
    let kind = match opcode {
        Opcode::Release => OpenKind::File,
        Opcode::Releasedir => OpenKind::Directory,
        _ => return Ok(()),
    };
    match (kind, handle) {
        (OpenKind::File, OpenHandle::File(fh)) | (OpenKind::Directory, OpenHandle::Directory(fh)) =>
            { write(acts, Act::Releases(OpenFile { kind, nodeid, fh })) }
        _ => Ok(()),
    }
}

/// A WRITE has so many bytes.
fn write_writing<A: Allocator + Copy>(
    acts: &mut Vec<Act, A>,
    request: &Request<'_>,
) -> Result<(), AllocError>
    ensures { OnOk result (acts.new.items
        ≡ acts.old.items ++ words.writing request.now.head.opcode (request_message request.now)) }
{
    match request.head.opcode {
        Opcode::Write => write(acts, Act::Writes(bytes_written(request))),
        _ => Ok(()),
    }
}

/// A request of an opcode is read under a number.
fn write_number<A: Allocator + Copy>(
    acts: &mut Vec<Act, A>,
    opcode: Opcode,
    unique: u64,
) -> Result<(), AllocError>
    ensures { OnOk result (acts.new.items ≡ acts.old.items ++ Read (Some opcode) unique ∷ []) }
{
    let read = Act::Read {
        opcode: Some(opcode),
        unique,
    };
    write(acts, read)
}

/// A request that takes a reply.
fn write_asking<A: Allocator + Copy>(
    acts: &mut Vec<Act, A>,
    request: &Request<'_>,
) -> Result<(), AllocError>
    ensures { OnOk result (acts.new.items ≡ acts.old.items ++ words.asking request.now.head.opcode
        (request_message request.now) (words.asked_of request.now.head.opcode (request_message request.now))) }
{
    let opcode = request.head.opcode;
    let unique = request.head.unique;
    let asked = asked_of(request);
    write_number(acts, opcode, unique)?;
    write_naming(acts, asked.nodeid)?;
    write_naming(acts, asked.other)?;
    write_using(acts, asked.uses)?;
    write_using(acts, asked.copies_to)?;
    write_releasing(acts, opcode, request.head.nodeid, request.handle)?;
    write_writing(acts, request)?;
    write(acts, Act::Asks { unique, asked })
}

/// Lookups are forgotten, pair after pair.
fn write_forgets<A: Allocator + Copy>(
    acts: &mut Vec<Act, A>,
    pairs: Pairs<'_>,
) -> Result<(), AllocError>
    ensures { OnOk result (acts.new.items ≡ acts.old.items ++ words.forgets_in (pairs_in pairs.entry)) }
{
    let mut left = pairs;
    'pairs: while let Some((nodeid, lookups)) = left.next() {
        write(acts, Act::Forgets(nodeid, lookups))?;
    }
    Ok(())
}

/// A request that is read once more.
fn write_resent<A: Allocator + Copy>(
    acts: &mut Vec<Act, A>,
    request: &Request<'_>,
) -> Result<(), AllocError>
    requires { resend_bit ≤ request.now.head.unique }
    ensures { OnOk result (acts.new.items
        ≡ acts.old.items ++ words.resent request.now.head.opcode (request_message request.now)) }
{
    let unique = request.head.unique;
    let resent = Act::Resent {
        unique,
        original: unique - RESEND_BIT,
    };
    let asked = asked_of(request);
    write(acts, resent)?;
    write(acts, Act::Asks { unique, asked })
}

/// What a request does, once it has come.
fn write_doing<A: Allocator + Copy>(
    acts: &mut Vec<Act, A>,
    has_resent: bool,
    request: &Request<'_>,
) -> Result<(), AllocError>
    ensures { OnOk result (acts.new.items ≡ acts.old.items
        ++ words.doing (has_resent && nat_le resend_bit request.now.head.unique) request.now.head.opcode
        (request_message request.now)) }
{
    let opcode = request.head.opcode;
    let unique = request.head.unique;
    match opcode {
        Opcode::Interrupt => {
            let original = or_none(request.interrupted());
            write(acts, Act::Interrupts { unique, original })
        }
        Opcode::NotifyReply => Ok(()),
        Opcode::Forget => {
            write_number(acts, opcode, unique)?;
            let lookups = or_none(request.forgotten());
            write(acts, Act::Forgets(request.head.nodeid, lookups))
        }
        Opcode::BatchForget => {
            write_number(acts, opcode, unique)?;
            write_forgets(acts, request.pairs())
        }
        _ if has_resent && unique >= RESEND_BIT => write_resent(acts, request),
        _ => write_asking(acts, request),
    }
}

/// The acts of a request, where requests were asked for once more, or not.
///
/// # Errors
///
/// Out of memory.
pub(crate) fn write_request<A: Allocator + Copy>(
    acts: &mut Vec<Act, A>,
    has_resent: bool,
    request: &Request<'_>,
) -> Result<(), AllocError>
    ensures { OnOk result (acts.new.items
        ≡ acts.old.items ++ words.request_acts has_resent request.now.head.opcode (request_message request.now)) }
{
    write(acts, Act::Arrives)?;
    write(acts, Act::Begins(request.head.opcode))?;
    write_doing(acts, has_resent, request)
}
