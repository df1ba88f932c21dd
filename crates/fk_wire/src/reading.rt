//! Frames as requests.

ghost use Rattle.std.specs.Prelude.{◌≡◌, ◌≢◌, ◌≤◌, ◌<◌, length, IfOk, IfErr, IsOkAnd, List, ℕ};
ghost use Rattle.fk_wire.specs.Fields.{number_at};
ghost use Rattle.fk_wire.specs.Requests.{RequestMessage, Spells, SpellsAt, max_frame, request_message};
ghost use Rattle.fk_wire.specs.Opcodes.{has_node};
ghost use Rattle.fk_wire.specs.declared.opcode.Minor.{Minor};
ghost use Rattle.fk_wire.specs.Requests.{decoded};
ghost use Rattle.fk_wire.specs.Faults.{NodeReads};
ghost use Rattle.fk_wire.specs.Faults.{FaultIs, FaultIsAt, HasLength, IsHeadFault};

use crate::bodies::body_of;
use crate::fault::WireFault;
use crate::limits::MAX_FRAME;
use crate::opcode::{Minor, Opcode, is_about_node, opcode_at, served_minor};
use crate::request::Request;
use fk_fields::{u32_at, u64_at};

// The reader is inlined into its callers: a request that is taken apart at once is then never laid out
// in memory.

/// The node in the header of a frame under this opcode. It is 0 where the field is free.
fn nodeid_at(opcode: Opcode, bytes: &[u8]) -> u64
    requires { 40 ≤ length bytes.now }
    ensures { NodeReads (has_node opcode) bytes.now result }
{
    let nodeid = u64_at(bytes, 16);
    if is_about_node(opcode) { nodeid } else { 0 }
}

/// The fault of a frame with fewer bytes than its header has, or more than a frame may have.
#[cold]
fn size_fault(minor: Minor, bytes: &[u8]) -> WireFault
    requires { 40 ≤ length bytes.now → max_frame < length bytes.now }
    ensures { FaultIsAt minor bytes.now result }
{
    if bytes.len() < 40 {
        return WireFault::Short;
    }
    if u32_at(bytes, 0) as usize != bytes.len() {
        return WireFault::Length;
    }
    match opcode_at(minor, u32_at(bytes, 4)) {
        Some(_) => WireFault::Body,
        None => WireFault::Opcode,
    }
}

/// The request that a frame spells, without its contract's clause on what else it may spell.
#[inline(always)]
fn request_of(minor: Minor, bytes: &[u8]) -> Result<Request<'_>, WireFault>
    ensures ok { IfOk result (λ r. SpellsAt minor bytes.now (request_message r)) }
    ensures fault { IfErr result (FaultIsAt minor bytes.now) }
{
    if bytes.len() < 40 || bytes.len() > MAX_FRAME {
        return Err(size_fault(minor, bytes));
    }
    if u32_at(bytes, 0) as usize != bytes.len() {
        return Err(WireFault::Length);
    }
    let unique = u64_at(bytes, 8);
    let Some(opcode) = opcode_at(minor, u32_at(bytes, 4)) else {
        return Err(WireFault::Opcode);
    };
    let nodeid = nodeid_at(opcode, bytes);
    match body_of(opcode, bytes) {
        Ok(body) => Ok(Request {
            unique,
            nodeid,
            body,
        }),
        Err(fault) => Err(fault),
    }
}

/// Reads a request frame, of 7.31: up to 4,176 bytes. Copies no name and no data, and takes no memory.
///
/// # Errors
///
/// The first of `Short`, `Length`, `Opcode`, `Body` and `Name` that applies.
#[inline(always)]
pub fn read_request(bytes: &[u8]) -> Result<Request<'_>, WireFault>
    // What is read is spelled so.
    ensures ok { IfOk result (λ r. Spells bytes.now (request_message r)) }
    // What is spelled so is read.
    ensures only { (m : RequestMessage) → Spells bytes.now m → IsOkAnd result (λ r. request_message r ≡ m) }
    // Else the fault is the first that applies.
    ensures fault { IfErr result (FaultIs bytes.now) }
{
    read_request_at(served_minor(), bytes)
}

/// Reads a request frame of a minor version, as `read_request` does.
///
/// # Errors
///
/// As `read_request`; `Opcode` also for an opcode that the version does not know.
#[inline(always)]
pub fn read_request_at(minor: Minor, bytes: &[u8]) -> Result<Request<'_>, WireFault>
    ensures ok { IfOk result (λ r. SpellsAt minor bytes.now (request_message r)) }
    ensures only { (m : RequestMessage) → SpellsAt minor bytes.now m → IsOkAnd result (λ r. request_message r ≡ m) }
    ensures fault { IfErr result (FaultIsAt minor bytes.now) }
{
    request_of(minor, bytes)
}

/// Reads the opcode, known or not, and the unique number of a request frame: `struct fuse_in_header`.
///
/// # Errors
///
/// `Short`, or else `Length`.
pub fn read_request_head(bytes: &[u8]) -> Result<(u32, u64), WireFault>
    ensures ok { IfOk result (λ head. HasLength bytes.now × (head.0 ≡ number_at 4 4 bytes.now)
        × (head.1 ≡ number_at 8 8 bytes.now)) }
    ensures fault { (minor : Minor) → IfErr result (λ f. FaultIsAt minor bytes.now f × IsHeadFault f) }
{
    if bytes.len() < 40 {
        return Err(WireFault::Short);
    }
    if u32_at(bytes, 0) as usize != bytes.len() {
        return Err(WireFault::Length);
    }
    Ok((u32_at(bytes, 4), u64_at(bytes, 8)))
}

/// Every frame that spells a request spells one alone: the one that it decodes to.
pub fn spelled_is_decoded()
    ensures { (minor : Minor) (bytes : List ℕ) (m : RequestMessage) → SpellsAt minor bytes m → decoded bytes ≡ m }
{}
