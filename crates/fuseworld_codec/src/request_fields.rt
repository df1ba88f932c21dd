//! A request that was read, in the struct that crosses to C.

ghost use Rattle.std.specs.Prelude.{◌≡◌, ◌+◌, ◌-◌, length};
ghost use Rattle.std.specs.Int.RustNames.{bit_and};
ghost use Rattle.fk_wire.specs.Fields.{ReadsAs};
ghost use Rattle.fk_wire.specs.Requests.{known_flags, opcode_of, request_body, request_content, request_message};
ghost use Rattle.fuseworld_codec.specs.RequestStructs.{HasPlaces, IsRequestStruct, counted, request_head};

use crate::layout::FlatRequest;
use bitflags::Flags;
use fk_wire::{InitFlags, Request, RequestBody};

/// The known bits.
pub(crate) fn known_bits(flags: InitFlags) -> u32
    ensures { result ≡ bit_and flags.0 known_flags }
{
    flags.bits() & 0x42001
}

/// A struct of this opcode, with the request's unique and node, that says nothing more.
fn plain(opcode: u32, request: &Request<'_>) -> FlatRequest
    ensures { result ≡ request_head opcode request.now.unique request.now.nodeid }
{
    FlatRequest {
        unique: request.unique,
        nodeid: request.nodeid,
        fh: 0,
        offset: 0,
        nlookup: 0,
        newdir: 0,
        oldnodeid: 0,
        interrupted: 0,
        name_offset: 0,
        name_length: 0,
        newname_offset: 0,
        newname_length: 0,
        data_offset: 0,
        data_length: 0,
        opcode,
        size: 0,
        major: 0,
        minor: 0,
        flags: 0,
        padding: 0,
    }
}

/// The struct of a request whose name stands at a place of its frame.
fn with_name(opcode: u32, request: &Request<'_>, place: usize, name: &[u8]) -> FlatRequest
    ensures { result ≡ record (request_head opcode request.now.unique request.now.nodeid) {
      name_offset = place;
      name_length = length name.now;
    } }
{
    FlatRequest {
        name_offset: place,
        name_length: name.len(),
        ..plain(opcode, request)
    }
}

/// The struct of a request whose data stand from a place of its frame to the end.
fn with_data(opcode: u32, request: &Request<'_>, place: usize, len: usize) -> FlatRequest
    ensures { result ≡ record (request_head opcode request.now.unique request.now.nodeid) {
      data_offset = place;
      data_length = len;
    } }
{
    FlatRequest {
        data_offset: place,
        data_length: len,
        ..plain(opcode, request)
    }
}

/// The struct of a request about this many bytes from an offset of an open file or a directory.
fn with_range(opcode: u32, request: &Request<'_>, fh: u64, offset: u64, size: u32) -> FlatRequest
    ensures { result ≡ record (request_head opcode request.now.unique request.now.nodeid) {
      fh = fh;
      offset = offset;
      size = size;
    } }
{
    FlatRequest {
        fh,
        offset,
        size,
        ..plain(opcode, request)
    }
}

/// The struct of a RENAME, whose names follow each other.
fn with_names(request: &Request<'_>, newdir: u64, old: &[u8], new: &[u8]) -> FlatRequest
    ensures { result ≡ record (request_head 12 request.now.unique request.now.nodeid) {
      newdir = newdir;
      name_offset = 48;
      name_length = length old.now;
      newname_offset = 48 + (length old.now + 1);
      newname_length = length new.now;
    } }
{
    FlatRequest {
        newdir,
        newname_offset: 48 + (old.len() + 1),
        newname_length: new.len(),
        ..with_name(12, request, 48, old)
    }
}

/// The struct of an INIT.
fn with_version(request: &Request<'_>, major: u32, minor: u32, flags: u32) -> FlatRequest
    ensures { result ≡ record (request_head 26 request.now.unique request.now.nodeid) {
      major = major;
      minor = minor;
      flags = flags;
    } }
{
    FlatRequest {
        major,
        minor,
        flags,
        ..plain(26, request)
    }
}

/// The struct of a request whose frame the bytes are.
#[tactic(auto, using(crate::proofs::Places::flat_places, fk_wire::proofs::Masks::and_again))]
pub(crate) fn flat_of(request: &Request<'_>, frame: &[u8]) -> FlatRequest
    requires { ReadsAs 40 (request_body (request_content request.now.body)) frame.now }
    ensures says { IsRequestStruct result frame.now (request_message request.now) }
    ensures places { HasPlaces result frame.now }
    ensures others { result ≡ counted (opcode_of (request_content request.now.body)) result }
{
    match request.body {
        RequestBody::Lookup { name } => with_name(1, request, 40, name),
        RequestBody::Forget { nlookup } => FlatRequest {
            nlookup,
            ..plain(2, request)
        },
        RequestBody::Getattr => plain(3, request),
        RequestBody::Mkdir { name } => with_name(9, request, 48, name),
        RequestBody::Unlink { name } => with_name(10, request, 40, name),
        RequestBody::Rmdir { name } => with_name(11, request, 40, name),
        RequestBody::Rename { newdir, old, new } => with_names(request, newdir, old, new),
        RequestBody::Link { oldnodeid, name } => FlatRequest {
            oldnodeid,
            ..with_name(13, request, 48, name)
        },
        RequestBody::Open => plain(14, request),
        RequestBody::Read { fh, offset, size } => with_range(15, request, fh, offset, size),
        RequestBody::Write { fh, offset, bytes } => FlatRequest {
            fh,
            offset,
            ..with_data(16, request, 80, bytes.len())
        },
        RequestBody::Release { fh } => with_range(18, request, fh, 0, 0),
        RequestBody::Init {
            major,
            minor,
            flags,
        } => with_version(request, major, minor, known_bits(flags)),
        RequestBody::Readdir { offset, size } => with_range(28, request, 0, offset, size),
        RequestBody::Readdirplus { offset, size } => with_range(44, request, 0, offset, size),
        RequestBody::Create { name } => with_name(35, request, 56, name),
        RequestBody::Interrupt { unique } => FlatRequest {
            interrupted: unique,
            ..plain(36, request)
        },
        RequestBody::BatchForget { .. } => with_data(42, request, 48, frame.len() - 48),
    }
}
