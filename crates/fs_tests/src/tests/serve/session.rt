//! A session of seven requests, refused at each send in turn, and ended at each.

use crate::tests::are_nodes;
use fk_wire::{InitFlags, Request, RequestBody, write_request};
use fs_serve::serve;
use fs_server::Server;
use fuse_device::{DeviceEnd, ListDevice};
use fuse_spec::{Minor, NodeCount, WriteResult};
use std::alloc::{AllocError, Allocator, Global};
use std::process::Abort;
use std::test::Fail;

/// The nodes that a server holds: each nodeid with its generation and its lookup count.
type Nodes = &'static [(u64, u64, u64)];

/// What the requests of the session ask, under the uniques 2, 4, 6 and so on, each with the node that it is about.
fn asked() -> [(u64, RequestBody<'static>); 7] {
    [
        (
            0,
            RequestBody::Init {
                major: 7,
                minor: 31,
                flags: InitFlags::DO_READDIRPLUS,
            },
        ),
        (1, RequestBody::Mkdir { name: b"a" }),
        (1, RequestBody::Lookup { name: b"a" }),
        (2, RequestBody::Create { name: b"f" }),
        (3, RequestBody::Getattr),
        (
            2,
            RequestBody::Readdirplus {
                offset: 0,
                size: 4096,
            },
        ),
        (1, RequestBody::Lookup { name: b"none" }),
    ]
}

/// The nodes at the end where every reply is accepted: MKDIR and LOOKUP give the directory, CREATE and READDIRPLUS the
/// file.
const ACCEPTED: Nodes = &[(2, 1, 2), (3, 2, 2)];

/// The nodes at the end where one send is refused. What a refused MKDIR or CREATE gave is dropped, and the name is then
/// given under a new generation; under node 3 the GETATTR behind a refused CREATE finds none.
const REFUSED: [Nodes; 7] = [
    ACCEPTED,
    &[(2, 2, 1), (3, 3, 2)],
    &[(2, 1, 1), (3, 2, 2)],
    &[(2, 1, 2), (3, 3, 1)],
    ACCEPTED,
    &[(2, 1, 2), (3, 2, 1)],
    ACCEPTED,
];

/// The nodes at the end where the device ends at one send: what that reply gave stays counted, and nothing follows.
const ENDED: [Nodes; 7] = [
    &[],
    &[(2, 1, 1)],
    &[(2, 1, 2)],
    &[(2, 1, 2), (3, 2, 1)],
    &[(2, 1, 2), (3, 2, 1)],
    ACCEPTED,
    ACCEPTED,
];

/// The frames of requests, under the uniques 2, 4, 6 and so on.
pub fn frames_of(
    alloc: Global,
    requests: &[(u64, RequestBody<'static>)],
) -> Result<Vec<Vec<u8>>, Fail> {
    let mut frames = Vec::new(alloc);
    let mut unique = 0u64;
    for (nodeid, body) in requests {
        unique = unique.wrapping_add(2);
        let request = Request {
            unique,
            nodeid: *nodeid,
            body: *body,
        };
        let mut frame = Vec::new(alloc);
        write_request(&mut frame, &request)?;
        frames.push(frame)?;
    }
    Ok(frames)
}

/// The frames of the session.
pub fn session(alloc: Global) -> Result<Vec<Vec<u8>>, Fail> {
    frames_of(alloc, &asked())
}

/// Lends frames.
pub fn lent<'a>(alloc: Global, frames: &'a [Vec<u8>]) -> Result<Vec<&'a [u8]>, AllocError> {
    let mut slices = Vec::new(alloc);
    for frame in frames {
        slices.push(frame.as_slice())?;
    }
    Ok(slices)
}

/// A server at its mount, whose found names are valid for a second.
pub fn mounted<A: Allocator + Copy>(heap: A) -> Result<Server<A>, AllocError> {
    let mut server = Server::new(heap)?;
    server.remount(1000, 0, Minor::M31);
    Ok(server)
}

/// How serving ended, and the nodes that are left.
type Served<A> = (Option<DeviceEnd>, Vec<NodeCount, A>);

/// Serves a device by a server.
fn serve_by<A: Allocator + Copy>(
    heap: A,
    server: &mut Server<A>,
    device: &mut ListDevice<'_>,
) -> Result<Served<A>, AllocError> {
    let end = serve(heap, server, device)?;
    let nodes = server.nodes(heap)?;
    Ok((end, nodes))
}

/// Serves a device by a server of its own.
pub fn serve_device<A: Allocator + Copy>(
    heap: A,
    device: &mut ListDevice<'_>,
) -> Result<Served<A>, AllocError> {
    let mut server = mounted(heap)?;
    let served = serve_by(heap, &mut server, device);
    server.end();
    served
}

/// Whether serving these frames, with another result at a send, ends so, after so many sends, and with these nodes.
fn is_served_so(
    alloc: Global,
    frames: &[Vec<u8>],
    (send, at_send): (u64, Result<WriteResult, DeviceEnd>),
    wanted: (DeviceEnd, u64, Nodes),
) -> Result<bool, AllocError> {
    let slices = lent(alloc, frames)?;
    let mut device = ListDevice::new(alloc, &slices);
    device.answer_send(send, at_send);
    let served = serve_device(alloc, &mut device);
    let sends = device.sends();
    drop(device);
    let (end, nodes) = served?;
    Ok(end == Some(wanted.0) && sends == wanted.1 && are_nodes(&nodes, wanted.2))
}

/// Asserts how serving the session ends, after how many sends, and with which nodes.
fn check_session(
    rt: &impl Abort,
    alloc: Global,
    at_send: (u64, Result<WriteResult, DeviceEnd>),
    wanted: (DeviceEnd, u64, Nodes),
) -> Result<(), Fail> {
    let frames = session(alloc)?;
    let is_right = is_served_so(alloc, &frames, at_send, wanted);
    drop(frames);
    assert!(rt; is_right?, "send {}", at_send.0);
    Ok(())
}

#[test]
fn all_replies_are_accepted(rt: HostRuntime) -> Result<(), Fail> {
    let accepted = (0, Ok(WriteResult::Accepted));
    check_session(&rt, rt.alloc(), accepted, (DeviceEnd::Ended, 7, ACCEPTED))
}

#[test]
fn each_send_is_refused(rt: HostRuntime) -> Result<(), Fail> {
    for result_of_send in [WriteResult::NoEntry, WriteResult::Invalid] {
        let mut send = 0u64;
        for wanted in REFUSED {
            send = send.wrapping_add(1);
            let refused = (send, Ok(result_of_send));
            check_session(&rt, rt.alloc(), refused, (DeviceEnd::Ended, 7, wanted))?;
        }
    }
    Ok(())
}

#[test]
fn the_device_ends_at_each_send(rt: HostRuntime) -> Result<(), Fail> {
    for end_at_send in [DeviceEnd::Ended, DeviceEnd::Failed] {
        let mut send = 0u64;
        for wanted in ENDED {
            send = send.wrapping_add(1);
            let ended = (send, Err(end_at_send));
            check_session(&rt, rt.alloc(), ended, (end_at_send, send, wanted))?;
        }
    }
    Ok(())
}
