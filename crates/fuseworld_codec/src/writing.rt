//! Request frames that are written.

ghost use Rattle.std.specs.Prelude.{◌≡◌, ◌≢◌, ◌≤◌, ◌<◌, ◌+◌, ◌↔◌, drop, length, take};
ghost use Rattle.fk_wire.specs.Fields.{sizes};
ghost use Rattle.fk_wire.specs.Faults.{HasSpelling, RefusalIsAt};
ghost use Rattle.fk_wire.specs.Opcodes.{code_of};
ghost use Rattle.fk_wire.specs.Requests.{RequestMessage, WrittenAt, opcode_of, request_body, request_content};
ghost use Rattle.fk_wire.specs.Requests.{request_message};
ghost use Rattle.fk_wire.specs.declared.opcode.Minor.{Minor};
ghost use Rattle.fk_wire.specs.declared.opcode.Opcode.{Opcode};
ghost use Rattle.fuseworld_codec.specs.RequestStructs.{HasPlaces, IsRequestStruct, counted};
ghost use Rattle.fuseworld_codec.specs.Status.{AnswersFault, IsNoMinor, IsNoOpcode, minor_number_of};

use crate::layout::FlatRequest;
use crate::request_bytes::put_request;
use crate::request_message::request_of;
use crate::status::{DONE, MINOR, ROOM, minor_of};
use fk_wire::{Minor, Request, request_size};

/// Writes the frame of a request, of this opcode's number, at the beginning of a buffer.
fn write_message(
    version: Minor,
    code: u32,
    request: &Request<'_>,
    buffer: &mut [u8],
    wanted: &mut usize,
) -> u32
    requires { code ≡ code_of (opcode_of (request_content request.now.body)) }
    ensures ok { result ≡ 0 → WrittenAt version (request_message request.now) (take wanted.new buffer.new)
        × (drop wanted.new buffer.new ≡ drop wanted.new buffer.old) }
    ensures wanted { result ≡ 0 → wanted.new ≡ 40 + sizes (request_body (request_content request.now.body)) }
    ensures room { result ≡ 9 → (wanted.new ≡ 40 + sizes (request_body (request_content request.now.body)))
        × (length buffer.old < wanted.new) }
    ensures spelled { result ≡ 9 → HasSpelling version (request_message request.now) }
    ensures done { HasSpelling version (request_message request.now)
        → 40 + sizes (request_body (request_content request.now.body)) ≤ length buffer.old → result ≡ 0 }
    ensures status { (result ≢ 7) × (result ≢ 10) }
    ensures fault { result ≢ 0 → result ≢ 9 → AnswersFault result (RefusalIsAt version (request_message request.now)) }
    ensures within { result ≡ 0 → wanted.new ≤ length buffer.old }
    ensures none { result ≢ 0 → result ≢ 9 → wanted.new ≡ 0 }
    ensures kept { result ≢ 0 → buffer.new ≡ buffer.old }
{
    let size = match request_size(version, request) {
        Ok(size) => size,
        Err(fault) => {
            *wanted = 0;
            return fault.number() as u32;
        }
    };
    *wanted = size;
    if buffer.len() < size {
        return ROOM;
    }
    put_request(&mut buffer[..size], version, code, request);
    DONE
}

/// Writes the request that a struct says, at a minor version, at the beginning of `buffer`.
///
/// The frame has `wanted` bytes, and behind it the buffer stays as it was. The names and the data of the
/// struct lie in `bytes`.
///
/// # Errors
///
/// 8 where the minor version is neither 15 nor 31; 10 where a name or the data lead beyond the bytes; the
/// number of the first of `Opcode`, `Body` and `Name` that applies; 9 where the buffer has fewer bytes than
/// `wanted`. Then the buffer stays as it was, and but for 9 `wanted` is 0.
#[unsafe(no_mangle)]
pub extern "C" fn fuseworld_write_request(
    minor: u32,
    request: &FlatRequest,
    bytes: &[u8],
    buffer: &mut [u8],
    wanted: &mut usize,
) -> u32
    // What is written is the one spelling of the request that the struct says.
    ensures ok { (v : Minor) → minor_number_of v ≡ minor → result ≡ 0 → (m : RequestMessage)
        × IsRequestStruct request.now bytes.now m × WrittenAt v m (take wanted.new buffer.new)
        × (drop wanted.new buffer.new ≡ drop wanted.new buffer.old) }
    // What has a spelling is written where the buffer has room for it.
    ensures done { (v : Minor) → minor_number_of v ≡ minor → (m : RequestMessage)
        → IsRequestStruct request.now bytes.now m → HasPlaces (counted (opcode_of m.content) request.now) bytes.now
        → HasSpelling v m → 40 + sizes (request_body m.content) ≤ length buffer.old → result ≡ 0 }
    // Too small a buffer for a request that has a spelling: this many bytes are needed.
    ensures room { (v : Minor) → minor_number_of v ≡ minor → result ≡ 9 → (m : RequestMessage)
        × IsRequestStruct request.now bytes.now m × HasSpelling v m
        × (wanted.new ≡ 40 + sizes (request_body m.content)) × (length buffer.old < wanted.new) }
    // Else the answer is the first fault that applies.
    ensures fault { (v : Minor) → minor_number_of v ≡ minor → result ≢ 0 → result ≢ 9 → (m : RequestMessage)
        → IsRequestStruct request.now bytes.now m → HasPlaces (counted (opcode_of m.content) request.now) bytes.now
        → AnswersFault result (RefusalIsAt v m) }
    // A name or the data that count lead beyond the bytes.
    ensures place { (v : Minor) (o : Opcode) → minor_number_of v ≡ minor → code_of o ≡ request.now.opcode
        → (result ≡ 10) ↔ (HasPlaces (counted o request.now) bytes.now → ⊥) }
    // The data are no pairs.
    ensures body { (v : Minor) (o : Opcode) → minor_number_of v ≡ minor → code_of o ≡ request.now.opcode
        → HasPlaces (counted o request.now) bytes.now
        → ((m : RequestMessage) → IsRequestStruct request.now bytes.now m → ⊥) → result ≡ 5 }
    ensures status { result ≢ 7 }
    ensures unknown { (v : Minor) → minor_number_of v ≡ minor → IsNoOpcode request.now.opcode → result ≡ 3 }
    ensures minor { IsNoMinor minor → result ≡ 8 }
    ensures within { result ≡ 0 → wanted.new ≤ length buffer.old }
    ensures none { result ≢ 0 → result ≢ 9 → wanted.new ≡ 0 }
    ensures kept { result ≢ 0 → buffer.new ≡ buffer.old }
{
    *wanted = 0;
    let Some(version) = minor_of(minor) else {
        return MINOR;
    };
    match request_of(request, bytes) {
        Ok(message) => write_message(version, request.opcode, &message, buffer, wanted),
        Err(status) => status,
    }
}
