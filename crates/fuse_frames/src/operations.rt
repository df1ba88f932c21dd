//! The operation that a request asks, and the request that asks an operation.

ghost use Rattle.std.specs.Prelude.{◌≡◌, IfSome, IfNone};
ghost use Rattle.fk_wire.specs.Requests.{request_content};
ghost use Rattle.fuse_frames.specs.RequestTies.{asked_opcode, body_asking, body_in, request_content_of};
ghost use Rattle.fuse_frames.specs.RequestTies.{RequestAsks, AsksNothing, IsTransfer};

use fk_wire::{Opcode, RequestBody};
use fuse_spec::{Opened, Operation};

/// The operation that the body of a request of a node asks, its names or bytes borrowed from the frame. INIT, RELEASE,
/// INTERRUPT and forgets ask none (linux/fuse.h, enum fuse_opcode).
pub fn operation_asked<'a>(nodeid: u64, body: &RequestBody<'a>) -> Option<Operation<&'a [u8]>>
    ensures some { IfSome result (RequestAsks (body_in nodeid (request_content body.now))) }
    ensures none { IfNone result (AsksNothing (body_in nodeid (request_content body.now))) }
{
    let (directory, node) = (nodeid, nodeid);
    Some(match *body {
        RequestBody::Lookup { name } => Operation::Lookup { directory, name },
        RequestBody::Getattr => Operation::Getattr { node },
        RequestBody::Mkdir { name } => Operation::Mkdir { directory, name },
        RequestBody::Create { name } => Operation::Create { directory, name },
        RequestBody::Unlink { name } => Operation::Unlink { directory, name },
        RequestBody::Rmdir { name } => Operation::Rmdir { directory, name },
        RequestBody::Rename { newdir, old, new } => Operation::Rename {
            directory,
            old,
            newdir,
            new,
        },
        RequestBody::Link { oldnodeid, name } => Operation::Link {
            node: oldnodeid,
            directory,
            name,
        },
        RequestBody::Open => Operation::Open { node },
        RequestBody::Readdir { offset, size } => Operation::Readdir {
            directory,
            after: offset,
            size,
        },
        RequestBody::Readdirplus { offset, size } => Operation::Readdirplus {
            directory,
            after: offset,
            size,
        },
        RequestBody::Read { .. } | RequestBody::Write { .. } => return transfer_asked(nodeid, body),
        RequestBody::Init { .. }
        | RequestBody::Release { .. }
        | RequestBody::Interrupt { .. }
        | RequestBody::Forget { .. }
        | RequestBody::BatchForget { .. } => return None,
    })
}

/// The opcode of the request that asks an operation.
pub fn opcode_asked(operation: &Operation<&[u8]>) -> Opcode
    ensures { result ≡ asked_opcode (body_asking operation.now) }
{
    body_of(operation).opcode()
}

/// The READ or WRITE that a body asks, if it asks one.
fn transfer_asked<'a>(nodeid: u64, body: &RequestBody<'a>) -> Option<Operation<&'a [u8]>>
    ensures some { IfSome result (RequestAsks (body_in nodeid (request_content body.now))) }
    ensures none { IfNone result (IsTransfer (request_content body.now) → ⊥) }
{
    match *body {
        RequestBody::Read { fh, offset, size } => Some(Operation::Read {
            opened: Opened { nodeid, fh },
            offset,
            size,
        }),
        RequestBody::Write { fh, offset, bytes } => Some(Operation::Write {
            opened: Opened { nodeid, fh },
            offset,
            bytes,
        }),
        _ => None,
    }
}

/// The body of the request that asks an operation.
pub(crate) fn body_of<'a>(operation: &Operation<&'a [u8]>) -> RequestBody<'a>
    ensures { request_content result ≡ request_content_of (body_asking operation.now) }
{
    match *operation {
        Operation::Lookup { name, .. } => RequestBody::Lookup { name },
        Operation::Getattr { .. } => RequestBody::Getattr,
        Operation::Mkdir { name, .. } => RequestBody::Mkdir { name },
        Operation::Create { name, .. } => RequestBody::Create { name },
        Operation::Unlink { name, .. } => RequestBody::Unlink { name },
        Operation::Rmdir { name, .. } => RequestBody::Rmdir { name },
        Operation::Rename {
            old,
            newdir,
            new,
            ..
        } => RequestBody::Rename { newdir, old, new },
        Operation::Link { node, name, .. } => RequestBody::Link {
            oldnodeid: node,
            name,
        },
        Operation::Open { .. } => RequestBody::Open,
        Operation::Readdir { after, size, .. } => RequestBody::Readdir {
            offset: after,
            size,
        },
        Operation::Readdirplus { after, size, .. } => RequestBody::Readdirplus {
            offset: after,
            size,
        },
        Operation::Read {
            opened: Opened { fh, .. },
            offset,
            size,
        } => RequestBody::Read { fh, offset, size },
        Operation::Write {
            opened: Opened { fh, .. },
            offset,
            bytes,
        } => RequestBody::Write { fh, offset, bytes },
    }
}
