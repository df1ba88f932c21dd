//! Frames that are read.

ghost use Rattle.std.specs.Prelude.{◌≡◌, ◌≢◌, IfOk, IfErr, IsOkAnd};
ghost use Rattle.fk_wire.specs.Requests.{RequestMessage, SpellsAt, opcode_of};
ghost use Rattle.fk_wire.specs.Faults.{FaultIsAt};
ghost use Rattle.fk_wire.specs.declared.opcode.Minor.{Minor};
ghost use Rattle.fuseworld_codec.specs.RequestStructs.{HasPlaces, IsRequestStruct, counted};
ghost use Rattle.fuseworld_codec.specs.Status.{AnswersFault, IsNoMinor, minor_number_of};

use crate::layout::FlatRequest;
use crate::request_fields::flat_of;
use crate::status::{DONE, MINOR, minor_of};
use fk_wire::{Minor, WireFault, read_request_at};

/// The request that a frame spells.
#[tactic(auto, using(crate::proofs::Places::body_reads))]
fn flat_request(version: Minor, bytes: &[u8]) -> Result<FlatRequest, WireFault>
    ensures ok { IfOk result (λ r. (m : RequestMessage) × SpellsAt version bytes.now m × IsRequestStruct r bytes.now m) }
    ensures only { (m : RequestMessage) → SpellsAt version bytes.now m
        → IsOkAnd result (λ r. IsRequestStruct r bytes.now m) }
    ensures places { IfOk result (λ r. HasPlaces r bytes.now) }
    ensures others { (m : RequestMessage) → SpellsAt version bytes.now m
        → IsOkAnd result (λ r. r ≡ counted (opcode_of m.content) r) }
    ensures fault { IfErr result (FaultIsAt version bytes.now) }
{
    match read_request_at(version, bytes) {
        Ok(request) => Ok(flat_of(&request, bytes)),
        Err(fault) => Err(fault),
    }
}

/// Reads a request frame of a minor version into `out`.
///
/// # Errors
///
/// The number of the first of `Short`, `Length`, `Opcode`, `Body` and `Name` that applies, or 8 where the
/// minor version is neither 15 nor 31. Then `out` stays as it was.
#[unsafe(no_mangle)]
pub extern "C" fn fuseworld_read_request(minor: u32, bytes: &[u8], out: &mut FlatRequest) -> u32
    // What is read is spelled so.
    ensures ok { (v : Minor) → minor_number_of v ≡ minor → result ≡ 0
        → (m : RequestMessage) × SpellsAt v bytes.now m × IsRequestStruct out.new bytes.now m }
    // What is spelled so is read.
    ensures only { (v : Minor) → minor_number_of v ≡ minor → (m : RequestMessage) → SpellsAt v bytes.now m
        → (result ≡ 0) × IsRequestStruct out.new bytes.now m }
    // Its names and data lie within the frame, and the fields that do not count are 0.
    ensures places { result ≡ 0 → HasPlaces out.new bytes.now }
    ensures others { (v : Minor) → minor_number_of v ≡ minor → (m : RequestMessage) → SpellsAt v bytes.now m
        → out.new ≡ counted (opcode_of m.content) out.new }
    // Else the answer is the first fault that applies, and the struct is as it was.
    ensures fault { (v : Minor) → minor_number_of v ≡ minor → result ≢ 0 → AnswersFault result (FaultIsAt v bytes.now) }
    ensures minor { IsNoMinor minor → result ≡ 8 }
    ensures kept { result ≢ 0 → out.new ≡ out.old }
{
    let Some(version) = minor_of(minor) else {
        return MINOR;
    };
    match flat_request(version, bytes) {
        Ok(request) => {
            *out = request;
            DONE
        }
        Err(fault) => fault.number() as u32,
    }
}
