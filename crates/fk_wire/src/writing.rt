//! Requests as frames.

ghost use Rattle.std.specs.Prelude.{◌≡◌, ◌≢◌, ◌≤◌, ◌+◌, ◌++◌, ◌∷◌, [], List, ℕ, OnOk};
ghost use Rattle.std.specs.Prelude.{OnErr, IfErr, IfOk, IsOk, vec_len, vec_capacity};
ghost use Rattle.fk_wire.specs.Fields.{u64, sizes, spellings};
ghost use Rattle.fk_wire.specs.Faults.{HasSpelling, RefusalIs, RefusalIsAt};
ghost use Rattle.fk_wire.specs.Pairs.{forget_ones};
ghost use Rattle.fk_wire.specs.Requests.{RequestMessage, Written, WrittenAt, SpellsAt, header};
ghost use Rattle.fk_wire.specs.Requests.{request_content, request_message, request_body};
ghost use Rattle.fk_wire.specs.declared.fault.WireFault.TheVariants.{Memory as MemoryFault};
ghost use Rattle.fk_wire.specs.declared.opcode.Minor.{Minor};

use crate::bodies::{body_size, has_names, put_body};
use crate::fault::WireFault;
use crate::limits::MAX_FRAME;
use crate::opcode::{Minor, is_known, is_node_of, served_minor};
use crate::request::Request;
use crate::room::{put_bytes, put_two_u64};
use byteorder::{ByteOrder, LittleEndian};
use std::alloc::Allocator;

fn put_header<A: Allocator>(out: &mut Vec<u8, A>, len: u32, code: u32, unique: u64, nodeid: u64)
    requires { vec_len out.old + 40 ≤ vec_capacity out.old }
    ensures items { out.new.items ≡ out.old.items ++ spellings (header len code unique (u64 nodeid)) }
    ensures len { vec_len out.new ≡ vec_len out.old + 40 }
    ensures capacity { vec_capacity out.old ≤ vec_capacity out.new }
{
    let mut buf = [0u8; 40];
    LittleEndian::write_u32(&mut buf, len);
    LittleEndian::write_u32(&mut buf[4..], code);
    LittleEndian::write_u64(&mut buf[8..], unique);
    LittleEndian::write_u64(&mut buf[16..], nodeid);
    put_bytes(out, &buf);
}

/// Appends one pair of a node id and how many lookups of it are forgotten (`struct fuse_forget_one`).
///
/// # Errors
///
/// `Memory` alone. The vector is as before.
#[tactic(auto, using(std::proofs::Common::append_assoc))]
pub fn put_pair<A: Allocator>(
    out: &mut Vec<u8, A>,
    nodeid: u64,
    nlookup: u64,
) -> Result<(), WireFault>
    ensures ok { OnOk result (out.new.items ≡ out.old.items ++ spellings (forget_ones ((nodeid, nlookup) ∷ []))) }
    ensures err { OnErr result (out.new.items ≡ out.old.items) }
    ensures fault { IfErr result (λ f. f ≡ MemoryFault) }
    ensures room { vec_len out.old + 16 ≤ vec_capacity out.old → result ≢ Err MemoryFault }
{
    out.reserve(16).map_err(|_| WireFault::Memory)?;
    put_two_u64(out, nodeid, nlookup);
    Ok(())
}

/// How long the frame of a request is, which has a spelling at the minor version.
///
/// # Errors
///
/// The first of `Opcode`, `Body` and `Name` that applies.
pub fn request_size(minor: Minor, request: &Request<'_>) -> Result<usize, WireFault>
    ensures size { IfOk result (λ n. n ≡ 40 + sizes (request_body (request_content request.now.body))) }
    ensures spelled { IfOk result (λ _. HasSpelling minor (request_message request.now)) }
    ensures some { HasSpelling minor (request_message request.now) → IsOk result }
    ensures fault { IfErr result (RefusalIsAt minor (request_message request.now)) }
    ensures memory { IfErr result (λ f. f ≢ MemoryFault) }
{
    let opcode = request.body.opcode();
    if !is_known(minor, opcode) {
        return Err(WireFault::Opcode);
    }
    if !is_node_of(opcode, request.nodeid) {
        return Err(WireFault::Body);
    }
    let size = body_size(&request.body);
    if size > MAX_FRAME - 40 {
        return Err(WireFault::Body);
    }
    if !has_names(&request.body) {
        return Err(WireFault::Name);
    }
    Ok(40 + size)
}

/// Appends the frame of a request, of 7.31.
///
/// # Errors
///
/// The first of `Opcode`, `Body`, `Name` and `Memory` that applies. The vector is as before.
pub fn write_request<A: Allocator>(
    out: &mut Vec<u8, A>,
    request: &Request<'_>,
) -> Result<(), WireFault>
    ensures ok { OnOk result ((frame : List ℕ) × Written (request_message request.now) frame
        × (out.new.items ≡ out.old.items ++ frame)) }
    ensures err { OnErr result (out.new.items ≡ out.old.items) }
    ensures fault { IfErr result (RefusalIs (request_message request.now)) }
    // Where the vector has room, memory does not run out.
    ensures room { vec_len out.old + (40 + sizes (request_body
        (request_content request.now.body))) ≤ vec_capacity out.old → result ≢ Err MemoryFault }
{
    write_request_at(served_minor(), out, request)
}

/// Appends the frame of a request of a minor version, as `write_request` does.
///
/// # Errors
///
/// As `write_request`; `Opcode` also for a request whose opcode the version does not know.
pub fn write_request_at<A: Allocator>(
    minor: Minor,
    out: &mut Vec<u8, A>,
    request: &Request<'_>,
) -> Result<(), WireFault>
    ensures ok { OnOk result ((frame : List ℕ) × WrittenAt minor (request_message request.now) frame
        × (out.new.items ≡ out.old.items ++ frame)) }
    ensures err { OnErr result (out.new.items ≡ out.old.items) }
    ensures fault { IfErr result (RefusalIsAt minor (request_message request.now)) }
    ensures room { vec_len out.old + (40 + sizes (request_body
        (request_content request.now.body))) ≤ vec_capacity out.old → result ≢ Err MemoryFault }
{
    let size = request_size(minor, request)?;
    out.reserve(size).map_err(|_| WireFault::Memory)?;
    put_header(
        out,
        size as u32,
        request.body.opcode().code(),
        request.unique,
        request.nodeid,
    );
    put_body(out, &request.body);
    Ok(())
}

/// Every frame in which a request is written spells that request.
pub fn written_is_spelled()
    ensures { (minor : Minor) (m : RequestMessage) (bytes : List ℕ) → WrittenAt minor m bytes → SpellsAt minor bytes m }
{}
