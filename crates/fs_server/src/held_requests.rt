//! What is held for a request.

ghost use Rattle.std.specs.Prelude.{◌≡◌, true, IfOk};
ghost use Rattle.fk_wire.specs.Requests.{request_content};
ghost use Rattle.fuse_spec.specs.Kernel.Messages.{asks};
ghost use Rattle.fs_files.specs.Values.{asked_of, nodes_named, held_operation_of};
ghost use Rattle.fs_server.specs.Taking.{request_body_of, generations_of, held_for, holds_request};

use fk_wire::{Request, RequestBody};
use fs_files::{HeldBody, HeldOperation, HeldRequest, Named, Nodes};
use fs_nodes::NodeStore;
use fuse_frames::operation_asked;
use fuse_spec::Opened;
use std::alloc::{AllocError, Allocator};

/// What is held for a request: the nodes that it names have the generations of this time.
pub(crate) fn held_request<A: Allocator + Copy, S: NodeStore>(
    alloc: A,
    nodes: &Nodes<S>,
    request: &Request<'_>,
) -> Result<HeldRequest<A>, AllocError>
    requires { holds_request request.now.nodeid (request_content request.now.body) ≡ true }
    ensures { IfOk result (λ held. held ≡ held_for nodes.now.table request.now.nodeid
        (request_content request.now.body)) }
{
    let body = held_body(alloc, request.nodeid, &request.body)?;
    let named = named_nodes(nodes, &body);
    Ok(HeldRequest::new(body, named))
}

/// What a request asks, as it is held.
fn held_body<A: Allocator + Copy>(
    alloc: A,
    nodeid: u64,
    body: &RequestBody<'_>,
) -> Result<HeldBody<A>, AllocError>
    requires { holds_request nodeid (request_content body.now) ≡ true }
    ensures { IfOk result (λ held. asked_of held ≡ request_body_of nodeid (request_content body.now)) }
{
    if let Some(operation) = operation_asked(nodeid, body) {
        let operation = operation.to_owned(alloc)?;
        return Ok(HeldBody::Asks { operation });
    }
    match body {
        RequestBody::Init { flags, .. } => Ok(HeldBody::Init { flags: *flags }),
        RequestBody::Release { fh } => Ok(HeldBody::Release {
            opened: Opened { nodeid, fh: *fh },
        }),
        _ => unreachable!(),
    }
}

/// The nodes that a request names, with their generations.
fn named_nodes<A: Allocator, S: NodeStore>(nodes: &Nodes<S>, body: &HeldBody<A>) -> Named
    ensures { nodes_named result ≡ generations_of nodes.now.table (asked_of body.now) }
{
    match body {
        HeldBody::Init { .. } => Named::Nothing,
        HeldBody::Asks { operation } => nodes_of_operation(nodes, operation),
        HeldBody::Release { opened } => Named::One(nodes.named(opened.nodeid)),
    }
}

/// The nodes that an operation names, with their generations.
fn nodes_of_operation<A: Allocator, S: NodeStore>(
    nodes: &Nodes<S>,
    operation: &HeldOperation<A>,
) -> Named
    ensures { nodes_named result ≡ generations_of nodes.now.table (asks (held_operation_of operation.now)) }
{
    let node = nodes.named(operation.header_node());
    match operation.body_node() {
        Some(other) => Named::Two(node, nodes.named(other)),
        None => Named::One(node),
    }
}
