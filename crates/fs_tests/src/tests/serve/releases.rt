//! A RELEASE is served while no memory is to be had.

use crate::tests::serve::session::{frames_of, lent, mounted};
use fail_at::FailAt;
use fk_wire::{InitFlags, RequestBody};
use fs_nodes::NodeStore;
use fs_serve::serve;
use fs_server::{Server, ServerFault, ServerOf};
use fuse_device::{DeviceEnd, ListDevice};
use fuse_spec::{Opened, WriteResult};
use std::alloc::{AllocError, Global};
use std::process::Abort;
use std::test::Fail;

/// A server whose memory can be refused.
type Refusable<'a> = Server<&'a FailAt<Global>>;

/// What is asked first: the file `f` is made and opened, under the node 2 and the file handle 1, and loses its name.
const OPENED: [(u64, RequestBody<'static>); 3] = [
    (
        0,
        RequestBody::Init {
            major: 7,
            minor: 31,
            flags: InitFlags::DO_READDIRPLUS,
        },
    ),
    (1, RequestBody::Create { name: b"f" }),
    (1, RequestBody::Unlink { name: b"f" }),
];

const RELEASE: (u64, RequestBody<'static>) = (2, RequestBody::Release { fh: 1 });

const READ: (u64, RequestBody<'static>) = (
    2,
    RequestBody::Read {
        fh: 1,
        offset: 0,
        size: 1,
    },
);

const ACCEPTED: Result<WriteResult, DeviceEnd> = Ok(WriteResult::Accepted);

/// The replies under the unique 2 that have no body: without an error, also to a READ of no bytes, with EIO, and with
/// EBADF (linux/fuse.h, struct fuse_out_header).
const DONE: [u8; 16] = [16, 0, 0, 0, 0, 0, 0, 0, 2, 0, 0, 0, 0, 0, 0, 0];

const EIO: [u8; 16] = [16, 0, 0, 0, 0xfb, 0xff, 0xff, 0xff, 2, 0, 0, 0, 0, 0, 0, 0];

const EBADF: [u8; 16] = [16, 0, 0, 0, 0xf7, 0xff, 0xff, 0xff, 2, 0, 0, 0, 0, 0, 0, 0];

/// The memory of a server, and memory for what is no part of it.
#[derive(Clone, Copy)]
struct Session<'a> {
    alloc: Global,
    heap: &'a FailAt<Global>,
    ample: &'a FailAt<Global>,
}

impl<'a> Session<'a> {
    fn new(alloc: Global, heap: &'a FailAt<Global>, ample: &'a FailAt<Global>) -> Session<'a> {
        Session { alloc, heap, ample }
    }

    /// What the server sends while it serves these frames, before a device that says this to the first send.
    fn sent_of(
        &self,
        server: &mut Refusable<'a>,
        frames: &[&[u8]],
        at_send: Result<WriteResult, DeviceEnd>,
    ) -> Result<Vec<u8>, AllocError> {
        let mut device = ListDevice::new(self.alloc, frames);
        device.answer_send(1, at_send);
        let end = serve(self.ample, server, &mut device);
        let sent = device.sent().to_vec(self.alloc);
        drop(device);
        let _end = end?;
        sent
    }

    /// The same while it serves these requests, under the uniques 2, 4, 6 and so on.
    fn sent_by(
        &self,
        server: &mut Refusable<'a>,
        requests: &[(u64, RequestBody<'static>)],
        at_send: Result<WriteResult, DeviceEnd>,
    ) -> Result<Vec<u8>, Fail> {
        let frames = frames_of(self.alloc, requests)?;
        let slices = lent(self.alloc, &frames)?;
        Ok(self.sent_of(server, &slices, at_send)?)
    }

    /// Whether a request has this reply while no memory is to be had, and none is asked for.
    fn takes_none(
        &self,
        server: &mut Refusable<'a>,
        request: (u64, RequestBody<'static>),
        reply: [u8; 16],
    ) -> Result<bool, Fail> {
        self.heap.refuse(1);
        let sent = self.sent_by(server, &[request], ACCEPTED)?;
        let takes_none = self.heap.left() == 1;
        self.heap.refuse(0);
        Ok(takes_none && sent.as_slice() == reply.as_slice())
    }

    /// Whether a step has its reply.
    fn replies(&self, server: &mut Refusable<'a>, step: &Step) -> Result<bool, Fail> {
        if step.is_refused {
            return self.takes_none(server, step.request, step.reply);
        }
        let sent = self.sent_by(server, &[step.request], ACCEPTED)?;
        Ok(sent.as_slice() == step.reply.as_slice())
    }

    /// Whether a READ under the file handle has this reply.
    fn reads(&self, server: &mut Refusable<'a>, reply: [u8; 16]) -> Result<bool, Fail> {
        let sent = self.sent_by(server, &[READ], ACCEPTED)?;
        Ok(sent.as_slice() == reply.as_slice())
    }
}

/// What is asked of the open file, and the reply: with no memory to be had, or with ample memory.
struct Step {
    name: &'static str,
    is_refused: bool,
    request: (u64, RequestBody<'static>),
    reply: [u8; 16],
}

/// A file is closed once: another RELEASE finds no file handle, and one of another node finds no node.
const STEPS: [Step; 5] = [
    Step {
        name: "of another node",
        is_refused: true,
        request: (9, RequestBody::Release { fh: 1 }),
        reply: EIO,
    },
    Step {
        name: "open",
        is_refused: false,
        request: READ,
        reply: DONE,
    },
    Step {
        name: "released",
        is_refused: true,
        request: RELEASE,
        reply: DONE,
    },
    Step {
        name: "closed",
        is_refused: false,
        request: READ,
        reply: EBADF,
    },
    Step {
        name: "released again",
        is_refused: true,
        request: RELEASE,
        reply: EBADF,
    },
];

/// A file is closed while each request for memory is refused.
fn check_without_memory<'a>(
    rt: &impl Abort,
    session: Session<'a>,
    server: &mut Refusable<'a>,
) -> Result<(), Fail> {
    let _opened = session.sent_by(server, &OPENED, ACCEPTED)?;
    for step in &STEPS {
        assert!(rt; session.replies(server, step)?, "{}", step.name);
    }
    Ok(())
}

/// The file is closed, whatever the device says to the reply.
fn check_result<'a>(
    rt: &impl Abort,
    session: Session<'a>,
    server: &mut Refusable<'a>,
    at_send: Result<WriteResult, DeviceEnd>,
) -> Result<(), Fail> {
    let _opened = session.sent_by(server, &OPENED, ACCEPTED)?;
    let _sent = session.sent_by(server, &[RELEASE], at_send)?;
    assert!(rt; session.reads(server, EBADF)?, "closed");
    Ok(())
}

/// A RELEASE is not done under a unique that is held, and done after an abort too. It is a step of a server over any nodes:
/// each method that is called of one over a slab takes some six seconds more to check.
fn releases_at_once<S: NodeStore>(
    rt: &impl Abort,
    server: &mut ServerOf<S>,
    read: &[u8],
) -> Result<(), Fail> {
    let opened = Opened { nodeid: 2, fh: 1 };
    let _held = server.take(read)?;
    assert!(rt; server.release(2, opened) == Err(ServerFault::RepeatedUnique));
    server.connection_lost();
    assert!(rt; server.release(4, opened) == Ok(0));
    assert!(rt; server.release(6, opened) == Ok(9));
    Ok(())
}

/// The same of a server that is asked a READ.
fn check_at_once<'a>(
    rt: &impl Abort,
    session: Session<'a>,
    server: &mut Refusable<'a>,
) -> Result<(), Fail> {
    let _opened = session.sent_by(server, &OPENED, ACCEPTED)?;
    let frames = frames_of(session.alloc, &[READ])?;
    let read = frames.first().expect(rt, "the frame of READ");
    releases_at_once(rt, server, read)
}

#[test]
fn a_release_takes_no_memory(rt: HostRuntime) -> Result<(), Fail> {
    let heap = FailAt::new(rt.alloc());
    let ample = FailAt::new(rt.alloc());
    let session = Session::new(rt.alloc(), &heap, &ample);
    let mut server = mounted(session.heap)?;
    let checked = check_without_memory(&rt, session, &mut server);
    server.end();
    checked
}

#[test]
fn a_release_with_each_result(rt: HostRuntime) -> Result<(), Fail> {
    let heap = FailAt::new(rt.alloc());
    let session = Session::new(rt.alloc(), &heap, &heap);
    for at_send in [
        Ok(WriteResult::NoEntry),
        Ok(WriteResult::Invalid),
        Err(DeviceEnd::Ended),
    ] {
        let mut server = mounted(session.heap)?;
        let checked = check_result(&rt, session, &mut server, at_send);
        server.end();
        checked?;
    }
    Ok(())
}

#[test]
fn a_release_at_once(rt: HostRuntime) -> Result<(), Fail> {
    let heap = FailAt::new(rt.alloc());
    let session = Session::new(rt.alloc(), &heap, &heap);
    let mut server = mounted(session.heap)?;
    let checked = check_at_once(&rt, session, &mut server);
    server.end();
    checked
}
