//! What a request asks, as far as others are judged by it.

ghost use Rattle.std.specs.Prelude.{◌≡◌};
ghost use Rattle.fuse_protocol.specs.Requests.{request_message};
ghost use Rattle.fuse_sessions.specs.RequestActs as words;

use fuse_protocol::{Opcode, OpenHandle, Request, RequestNames};
use fuse_sessions::{Asked, OpenFile, OpenKind};

/// The number, or 0.
pub(crate) fn or_none(number: Option<u64>) -> u64
    ensures { result ≡ words.or_none number }
{
    match number {
        Some(number) => number,
        None => 0,
    }
}

/// The node that a request names, if it is about one.
fn node_named(opcode: Opcode, node: u64) -> u64
    ensures { result ≡ words.node_named opcode node }
{
    match opcode {
        Opcode::Init | Opcode::Destroy => 0,
        _ => node,
    }
}

/// The open file of a handle.
fn file_of_handle(node: u64, handle: OpenHandle) -> Option<OpenFile>
    ensures { result ≡ words.file_of_handle node handle }
{
    match handle {
        OpenHandle::None => None,
        OpenHandle::Directory(fh) => Some(OpenFile {
            kind: OpenKind::Directory,
            nodeid: node,
            fh,
        }),
        OpenHandle::File(fh) | OpenHandle::TwoFiles(fh, _) => Some(OpenFile {
            kind: OpenKind::File,
            nodeid: node,
            fh,
        }),
    }
}

/// The open file that a request uses.
fn file_used(opcode: Opcode, node: u64, handle: OpenHandle) -> Option<OpenFile>
    ensures { result ≡ words.file_used opcode node handle }
{
    match opcode {
        Opcode::Release | Opcode::Releasedir => None,
        Opcode::Setupmapping if handle == OpenHandle::File(u64::MAX) => None,
        _ => file_of_handle(node, handle),
    }
}

/// The open file to which a range is copied.
fn file_copied_to(other: u64, handle: OpenHandle) -> Option<OpenFile>
    ensures { result ≡ words.file_copied_to other handle }
{
    match handle {
        OpenHandle::TwoFiles(_, fh) => Some(OpenFile {
            kind: OpenKind::File,
            nodeid: other,
            fh,
        }),
        _ => None,
    }
}

/// How many bytes a request writes or copies, at most.
pub(crate) fn bytes_written(request: &Request<'_>) -> u64
    ensures { result ≡ words.bytes_written request.now.head.opcode (request_message request.now) }
{
    match request.head.opcode {
        Opcode::Write | Opcode::CopyFileRange | Opcode::CopyFileRange64 => or_none(request.size()),
        _ => 0,
    }
}

/// The offset from which a request lists a directory, or 0.
fn listed_from(request: &Request<'_>) -> u64
    ensures { result ≡ words.listed_from request.now.head.opcode (request_message request.now) }
{
    match request.head.opcode {
        Opcode::Readdir | Opcode::Readdirplus => or_none(request.offset()),
        _ => 0,
    }
}

/// The kind of file that a request makes, as the type's bits of a mode, or 0.
fn kind_made(request: &Request<'_>) -> u64
    ensures { result ≡ words.kind_made request.now.head.opcode (request_message request.now) }
{
    match request.head.opcode {
        Opcode::Mkdir => 0o040000,
        Opcode::Symlink => 0o120000,
        Opcode::Create | Opcode::Tmpfile => 0o100000,
        Opcode::Mknod => or_none(request.mode()) & 0o170000,
        _ => 0,
    }
}

/// Whether a request is a LOOKUP of a name.
fn looks_up(request: &Request<'_>, name: &[u8]) -> bool
    ensures { result ≡ words.looks_up name.now request.now.head.opcode (request_message request.now) }
{
    match (request.head.opcode, request.names) {
        (Opcode::Lookup, RequestNames::One(looked)) => looked == name,
        (Opcode::Lookup, RequestNames::Two(first, second)) => first == name || second == name,
        _ => false,
    }
}

/// What a request asks.
#[inline(always)]
pub(crate) fn asked_of(request: &Request<'_>) -> Asked
    ensures { result ≡ words.asked_of request.now.head.opcode (request_message request.now) }
{
    let opcode = request.head.opcode;
    let nodeid = request.head.nodeid;
    let is_dot = looks_up(request, b".");
    let other = or_none(request.node);
    Asked {
        opcode: Some(opcode),
        asked: request.head.asked,
        writes: bytes_written(request),
        lists_from: listed_from(request),
        makes: kind_made(request),
        is_dots: is_dot || looks_up(request, b".."),
        nodeid: if is_dot {
            0
        } else {
            node_named(opcode, nodeid)
        },
        other,
        uses: file_used(opcode, nodeid, request.handle),
        copies_to: file_copied_to(other, request.handle),
    }
}
