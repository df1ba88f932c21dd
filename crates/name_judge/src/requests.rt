//! Requests that are read.

ghost use Rattle.std.specs.Prelude.{◌≡◌, ◌++◌, IfOk, Some, slice_get, OnOk, false};
ghost use Rattle.std.specs.Option.{option_copied, option_map};
ghost use Rattle.fuse_protocol.specs.declared.opcode.Opcode.TheVariants as op;
ghost use Rattle.fuse_protocol.specs.Names.{names_in};
ghost use Rattle.fuse_protocol.specs.Requests.{request_message};
ghost use Rattle.name_sessions.specs.NameFrames.{has_fault};
ghost use Rattle.name_sessions.specs.NameSessions.{NameSession, is_unsure};
ghost use Rattle.name_sessions.specs.RequestNames as words;
ghost use Rattle.name_judge.specs.Kept.{name_of, asked_of};
ghost use Rattle.name_judge.specs.Seen.{AreRight};

use crate::kept::{KeptName, Waiting, keep};
use crate::tables::Tables;
use fuse_protocol::{Opcode, Request, RequestNames};
use std::alloc::{AllocError, Allocator};

/// FUSE_UNIQUE_RESEND: the bit of a request's number that is read once more.
const RESEND_BIT: u64 = 1 << 63;

/// RENAME_EXCHANGE and RENAME_WHITEOUT, which leave a file at the old name.
const LEAVING: u64 = 2 | 4;

/// The first name.
fn first<'a>(names: RequestNames<'a>) -> Option<&'a [u8]>
    ensures { option_copied result ≡ slice_get (names_in names.entry) 0 }
{
    match names {
        RequestNames::None => None,
        RequestNames::One(name) | RequestNames::Two(name, _) => Some(name),
    }
}

/// The second name.
fn second<'a>(names: RequestNames<'a>) -> Option<&'a [u8]>
    ensures { option_copied result ≡ slice_get (names_in names.entry) 1 }
{
    match names {
        RequestNames::Two(_, name) => Some(name),
        _ => None,
    }
}

/// A copy of a name in a directory, where there is one.
fn keep_some<A: Allocator + Copy>(
    alloc: A,
    parent: u64,
    bytes: Option<&[u8]>,
) -> Result<Option<KeptName<A>>, AllocError>
    ensures { IfOk result (λ kept. option_map name_of kept ≡ words.name_in parent (option_copied bytes.entry)) }
{
    match bytes {
        None => Ok(None),
        Some(bytes) => Ok(Some(keep(alloc, parent, bytes)?)),
    }
}

/// A copy of the first name.
fn keep_first<A: Allocator + Copy>(
    alloc: A,
    request: &Request<'_>,
) -> Result<Option<KeptName<A>>, AllocError>
    ensures { IfOk result (λ kept. option_map name_of kept ≡ words.first_name (request_message request.now)) }
{
    keep_some(alloc, request.head.nodeid, first(request.names))
}

/// A copy of the second name.
fn keep_second<A: Allocator + Copy>(
    alloc: A,
    request: &Request<'_>,
) -> Result<Option<KeptName<A>>, AllocError>
    ensures { IfOk result (λ kept. option_map name_of kept ≡ words.second_name (request_message request.now)) }
{
    let parent = match request.node {
        Some(node) => node,
        None => 0,
    };
    keep_some(alloc, parent, second(request.names))
}

/// Whether a RENAME2 leaves a file at the old name.
fn leaves_a_file(request: &Request<'_>) -> bool
    requires { request.now.head.opcode ≡ op.Rename2 }
    ensures { result ≡ words.leaves_a_file (request_message request.now) }
{
    match request.flags() {
        Some(flags) => flags & LEAVING != 0,
        None => false,
    }
}

/// One name gets a file.
fn making<A: Allocator>(made: Option<KeptName<A>>) -> Option<Waiting<A>>
    ensures { option_map asked_of result ≡ words.making (option_map name_of made) }
{
    Some(Waiting {
        removed: None,
        made,
        listed: None,
    })
}

/// What a RENAME asks of names.
fn renaming<A: Allocator + Copy>(
    alloc: A,
    request: &Request<'_>,
) -> Result<Option<Waiting<A>>, AllocError>
    ensures { IfOk result (λ row. option_map asked_of row
        ≡ words.renaming (words.first_name (request_message request.now)) (words.second_name (request_message request.now))) }
{
    let removed = keep_first(alloc, request)?;
    let made = keep_second(alloc, request)?;
    Ok(Some(Waiting {
        removed,
        made,
        listed: None,
    }))
}

/// What a request asks of names, if anything.
fn names_asked<A: Allocator + Copy>(
    alloc: A,
    request: &Request<'_>,
) -> Result<Option<Waiting<A>>, AllocError>
    ensures { IfOk result (λ row. option_map asked_of row
        ≡ words.names_asked request.now.head.opcode (request_message request.now)) }
{
    match request.head.opcode {
        Opcode::Lookup
        | Opcode::Mknod
        | Opcode::Mkdir
        | Opcode::Symlink
        | Opcode::Link
        | Opcode::Create => Ok(making(keep_first(alloc, request)?)),
        Opcode::Unlink | Opcode::Rmdir => Ok(Some(Waiting {
            removed: keep_first(alloc, request)?,
            made: None,
            listed: None,
        })),
        Opcode::Rename => renaming(alloc, request),
        Opcode::Rename2 if leaves_a_file(request) => Ok(making(keep_second(alloc, request)?)),
        Opcode::Rename2 => renaming(alloc, request),
        Opcode::Readdirplus => Ok(Some(Waiting {
            removed: None,
            made: None,
            listed: Some(request.head.nodeid),
        })),
        _ => Ok(None),
    }
}

/// Whether a request takes its first name away, or gives it to another file.
fn is_removal(opcode: Opcode) -> bool
    ensures { result ≡ words.is_removal opcode }
{
    matches!(
        opcode,
        Opcode::Unlink | Opcode::Rmdir | Opcode::Rename | Opcode::Rename2
    )
}

/// Whether a request takes a name away of which the kernel has no file.
fn removes_what_is_not_given<A: Allocator + Copy>(tables: &Tables<A>, request: &Request<'_>) -> bool
    ensures { (s : NameSession) → AreRight s tables.now → is_unsure s ≡ false
        → result ≡ has_fault s (words.removal (words.removed_name request.now.head.opcode (request_message request.now))) }
{
    if !is_removal(request.head.opcode) {
        return false;
    }
    match first(request.names) {
        Some(name) => !tables.is_given(request.head.nodeid, name),
        None => false,
    }
}

/// A request begins: one that is read once more waits no longer under its first number, and another is judged. Returns
/// whether it is a fault.
fn begin<A: Allocator + Copy>(tables: &mut Tables<A>, request: &Request<'_>) -> bool
    ensures right { (s : NameSession) → AreRight s tables.old
        → AreRight (s ++ words.beginning request.now.head.opcode (request_message request.now)) tables.new }
    ensures fault { (s : NameSession) → AreRight s tables.old → is_unsure s ≡ false
        → result ≡ has_fault s (words.beginning request.now.head.opcode (request_message request.now)) }
{
    let unique = request.head.unique;
    if unique >= RESEND_BIT {
        let _before = tables.end(unique - RESEND_BIT);
        return false;
    }
    removes_what_is_not_given(tables, request)
}

/// A request waits under a number, or what waited under it does so no more.
fn wait<A: Allocator + Copy>(
    tables: &mut Tables<A>,
    unique: u64,
    asked: Option<Waiting<A>>,
) -> Result<(), AllocError>
    ensures { OnOk result ((s : NameSession) → AreRight s tables.old
        → AreRight (s ++ words.waiting unique (option_map asked_of asked)) tables.new) }
{
    match asked {
        Some(asked) => tables.ask(unique, asked),
        None => {
            let _before = tables.end(unique);
            Ok(())
        }
    }
}

/// Whether a request takes no reply.
fn takes_no_reply(opcode: Opcode) -> bool
    ensures { result ≡ words.takes_no_reply opcode }
{
    matches!(
        opcode,
        Opcode::Forget | Opcode::BatchForget | Opcode::Interrupt | Opcode::NotifyReply
    )
}

/// A request is read. Returns whether it is a fault.
///
/// # Errors
///
/// Out of memory.
pub(crate) fn see_request<A: Allocator + Copy>(
    tables: &mut Tables<A>,
    request: &Request<'_>,
) -> Result<bool, AllocError>
    ensures right { OnOk result ((s : NameSession) → AreRight s tables.old
        → AreRight (s ++ words.request_acts request.now.head.opcode (request_message request.now)) tables.new) }
    ensures fault { IfOk result (λ fault. (s : NameSession) → AreRight s tables.old → is_unsure s ≡ false
        → fault ≡ has_fault s (words.request_acts request.now.head.opcode (request_message request.now))) }
{
    if takes_no_reply(request.head.opcode) {
        return Ok(false);
    }
    let asked = names_asked(tables.alloc, request)?;
    let fault = begin(tables, request);
    wait(tables, request.head.unique, asked)?;
    Ok(fault)
}
