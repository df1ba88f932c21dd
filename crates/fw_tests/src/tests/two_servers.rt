//! A kernel over each of two servers, by the callers' calls: that they succeed where there is memory.

use callers::{Served, answer, ask, mount, reply, serve};
use fk_kernel::{Answer, Call, Kernel};
use fs_server::Server;
use fuse_frames::RequestFrame;
use fuse_spec::{Attributes, Kind, Minor, Refusal};
use std::alloc::{AllocError, Global};
use std::process::Abort;
use std::test::Fail;

/// What replies to a kernel.
trait Replies: Sized {
    /// Whether a reply to a frame is appended.
    fn replies(&mut self, frame: &[u8], buffer: &mut Vec<u8>) -> bool;

    fn end(self);
}

/// The server whose files are one empty directory.
#[derive(Drop)]
struct EmptyDirectory;

impl Replies for EmptyDirectory {
    fn replies(&mut self, frame: &[u8], buffer: &mut Vec<u8>) -> bool {
        answer(frame, buffer).is_ok()
    }

    fn end(self) {}
}

impl Replies for Server {
    fn replies(&mut self, frame: &[u8], buffer: &mut Vec<u8>) -> bool {
        serve(self, frame, buffer) == Served::Replied
    }

    fn end(self) {
        Server::end(self);
    }
}

/// What a call is answered.
#[derive(Clone, Copy)]
enum Told {
    Done,
    Errno(u32),
    Attributes(Attributes),
    /// This many names.
    Names(usize),
}

/// A step, and what it must give.
#[derive(Clone, Copy)]
enum Row {
    /// The kernel mounts, and its INIT has a reply that answers no call.
    Mounts,
    /// A call, the number under which it is answered, and its answer.
    Asks(Call<'static>, u64, Told),
    /// Bytes that are no reply.
    Unawaited(&'static [u8]),
    /// Bytes that are no request.
    Unserved(&'static [u8]),
}

static EMPTY: [Row; 4] = [
    Row::Mounts,
    Row::Unawaited(b"no reply"),
    Row::Asks(
        Call::Stat { path: b"/" },
        1,
        Told::Attributes(Attributes {
            kind: Kind::Directory,
            ino: 1,
            size: 0,
            nlink: 1,
        }),
    ),
    Row::Asks(Call::Mkdir { path: b"/a" }, 2, Told::Errno(38)),
];

static FILES: [Row; 5] = [
    Row::Mounts,
    Row::Asks(Call::Mkdir { path: b"/a" }, 1, Told::Done),
    Row::Unserved(b"no request"),
    Row::Asks(Call::Mkdir { path: b"/b" }, 2, Told::Done),
    Row::Asks(
        Call::ListPlus {
            path: b"/",
            after: 0,
        },
        3,
        Told::Names(2),
    ),
];

/// Whether a frame is read and has a reply, which then stands in the buffer alone.
fn is_replied<S: Replies>(
    server: &mut S,
    read: &Result<RequestFrame, Refusal>,
    buffer: &mut Vec<u8>,
) -> bool {
    buffer.clear();
    match read {
        Ok(frame) => server.replies(frame.bytes(), buffer),
        Err(_) => false,
    }
}

fn answers_none(kernel: &mut Kernel, bytes: &[u8]) -> bool {
    matches!(reply(kernel, bytes), Ok(None))
}

fn is_told(answer: &Answer, told: Told) -> bool {
    match (answer, told) {
        (Answer::Done, Told::Done) => true,
        (Answer::Failed { errno: given }, Told::Errno(errno)) => *given == errno,
        (Answer::Attributes(given), Told::Attributes(attributes)) => *given == attributes,
        (Answer::Listing(names), Told::Names(count)) => names.len() == count,
        _ => false,
    }
}

fn answers(kernel: &mut Kernel, bytes: &[u8], number: u64, told: Told) -> bool {
    match reply(kernel, bytes) {
        Ok(Some((given, answer))) => given == number && is_told(&answer, told),
        Ok(None) | Err(_) => false,
    }
}

fn mounts<S: Replies>(kernel: &mut Kernel, server: &mut S, buffer: &mut Vec<u8>) -> bool {
    let init = mount(kernel);
    is_replied(server, &init, buffer) && answers_none(kernel, buffer)
}

fn asks<S: Replies>(
    kernel: &mut Kernel,
    server: &mut S,
    buffer: &mut Vec<u8>,
    call: Call<'_>,
    number: u64,
    told: Told,
) -> bool {
    let request = ask(kernel, &call);
    is_replied(server, &request, buffer) && answers(kernel, buffer, number, told)
}

fn holds<S: Replies>(kernel: &mut Kernel, server: &mut S, buffer: &mut Vec<u8>, row: Row) -> bool {
    match row {
        Row::Mounts => mounts(kernel, server, buffer),
        Row::Asks(call, number, told) => asks(kernel, server, buffer, call, number, told),
        Row::Unawaited(bytes) => answers_none(kernel, bytes),
        Row::Unserved(bytes) => !server.replies(bytes, buffer),
    }
}

fn check<S: Replies>(
    rt: &impl Abort,
    kernel: &mut Kernel,
    server: &mut S,
    buffer: &mut Vec<u8>,
    rows: &[Row],
    name: &str,
) {
    for (place, row) in rows.iter().enumerate() {
        assert!(rt; holds(kernel, server, buffer, *row), "{name} row {place}");
    }
}

/// Tries the rows on a new kernel over a server, and ends both.
fn run<S: Replies>(rt: &impl Abort, alloc: Global, server: S, rows: &[Row], name: &str) {
    let mut kernel = Kernel::new(alloc);
    let mut server = server;
    let mut buffer = Vec::new(alloc);
    check(rt, &mut kernel, &mut server, &mut buffer, rows, name);
    kernel.end();
    server.end();
}

#[test]
fn kernel_over_the_empty_directory(rt: HostRuntime) -> Result<(), Fail> {
    run(&rt, rt.alloc(), EmptyDirectory, &EMPTY, "empty directory");
    Ok(())
}

/// A server that is mounted.
fn mounted(alloc: Global) -> Result<Server, AllocError> {
    let mut server = Server::new(alloc)?;
    server.remount(1000, 0, Minor::M31);
    Ok(server)
}

#[test]
fn kernel_over_the_server(rt: HostRuntime) -> Result<(), Fail> {
    let server = mounted(rt.alloc())?;
    run(&rt, rt.alloc(), server, &FILES, "files");
    Ok(())
}
