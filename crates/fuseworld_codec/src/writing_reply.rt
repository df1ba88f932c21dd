//! Reply frames that are written.

ghost use Rattle.std.specs.Prelude.{◌≡◌, ◌≢◌, ◌⊎◌, ◌≤◌, ◌<◌, ◌+◌, ◌↔◌, List, None, drop, length, take};
ghost use Rattle.fk_wire.specs.Fields.{sizes};
ghost use Rattle.fk_wire.specs.Dirents.{DirentPlusContent, direntpluses};
ghost use Rattle.fk_wire.specs.Opcodes.{code_of};
ghost use Rattle.fk_wire.specs.Replies.{GoesWith, IsAlone, IsErrorNumber, ReplyMessage, WrittenReplyAt, plus_reply};
ghost use Rattle.fk_wire.specs.Replies.{reply_body, reply_content, reply_kind, reply_message};
ghost use Rattle.fk_wire.specs.ReplyFaults.{ReplyRefusalIsAt};
ghost use Rattle.fk_wire.specs.declared.opcode.Minor.{Minor};
ghost use Rattle.fk_wire.specs.declared.opcode.Opcode.{Opcode};
ghost use Rattle.fuseworld_codec.specs.ReplyStructs.{HasReplySpelling, IsReplyStruct, LeadsBeyond};
ghost use Rattle.fuseworld_codec.specs.Status.{AnswersFault, IsNoMinor, minor_number_of};

use crate::layout::FlatReply;
use crate::reply_bytes::put_reply;
use crate::reply_checks::{frame_size, is_error_number};
use crate::reply_message::reply_of;
use crate::status::{DONE, ERROR_RANGE, MINOR, OPCODE, ROOM, minor_of};
use fk_wire::{Minor, Reply, opcode_of_code};

/// Writes the frame of a reply at the beginning of a buffer. Pairs of an entry and a record take `len` bytes in it.
#[tactic(auto, using(fk_wire::proofs::ReplyNames::names_hold))]
fn write_message(
    version: Minor,
    reply: &Reply<'_>,
    len: usize,
    buffer: &mut [u8],
    wanted: &mut usize,
) -> u32
    requires alone { IsAlone (reply_message reply.now) }
    requires pairs { (ps : List DirentPlusContent) → reply_content reply.now.body ≡ plus_reply ps
        → sizes (direntpluses ps) ≡ len }
    ensures ok { result ≡ 0 → WrittenReplyAt version (reply_message reply.now) (take wanted.new buffer.new)
        × (drop wanted.new buffer.new ≡ drop wanted.new buffer.old) }
    ensures room { result ≡ 9 → (wanted.new ≡ 16 + sizes (reply_body (reply_content reply.now.body)))
        × (length buffer.old < wanted.new) }
    ensures spelled { result ≡ 9 → HasReplySpelling version (reply_message reply.now) }
    ensures done { HasReplySpelling version (reply_message reply.now)
        → 16 + sizes (reply_body (reply_content reply.now.body)) ≤ length buffer.old → result ≡ 0 }
    ensures fault { result ≢ 0 → result ≢ 9
        → AnswersFault result (ReplyRefusalIsAt version (reply_message reply.now)) }
    ensures within { result ≡ 0 → wanted.new ≤ length buffer.old }
    ensures none { result ≢ 0 → result ≢ 9 → wanted.new ≡ 0 }
    ensures kept { result ≢ 0 → buffer.new ≡ buffer.old }
    ensures status { (result ≢ 7) × (result ≢ 10) }
{
    let size = match frame_size(version, reply, len) {
        Ok(size) => size,
        Err(fault) => {
            *wanted = 0;
            return fault.number() as u32;
        }
    };
    *wanted = size;
    if buffer.len() < size {
        return ROOM;
    }
    put_reply(&mut buffer[..size], version, reply);
    DONE
}

/// Writes the reply to a request of its opcode that a struct says, at a minor version, at the beginning of
/// `buffer`.
///
/// The frame has `wanted` bytes, and behind it the buffer stays as it was. The data of the struct lie in
/// `bytes`.
///
/// # Errors
///
/// 8 where the minor version is neither 15 nor 31; 6 where the error is out of range; 3 where the opcode is not
/// known or has no replies; 10 where the data lead beyond the bytes; 5 where a number is out of range, the
/// records are none or the frame is too long; 9 where the buffer has fewer bytes than `wanted`. Then the buffer
/// stays as it was, and but for 9 `wanted` is 0.
#[unsafe(no_mangle)]
pub extern "C" fn fuseworld_write_reply(
    minor: u32,
    reply: &FlatReply,
    bytes: &[u8],
    buffer: &mut [u8],
    wanted: &mut usize,
) -> u32
    // What is written is the one spelling of a reply to the opcode that the struct says.
    ensures ok { (v : Minor) (o : Opcode) → minor_number_of v ≡ minor → code_of o ≡ reply.now.opcode → result ≡ 0
        → (t : ReplyMessage) × GoesWith v o t × IsReplyStruct reply.now bytes.now t
        × WrittenReplyAt v t (take wanted.new buffer.new)
        × (drop wanted.new buffer.new ≡ drop wanted.new buffer.old) }
    // What has a spelling is written where the buffer has room for it.
    ensures done { (v : Minor) (o : Opcode) → minor_number_of v ≡ minor → code_of o ≡ reply.now.opcode
        → (t : ReplyMessage) → GoesWith v o t → IsReplyStruct reply.now bytes.now t
        → (LeadsBeyond o reply.now bytes.now → ⊥) → HasReplySpelling v t
        → 16 + sizes (reply_body t.content) ≤ length buffer.old → result ≡ 0 }
    // Too small a buffer for a reply that has a spelling: this many bytes are needed.
    ensures room { (v : Minor) (o : Opcode) → minor_number_of v ≡ minor → code_of o ≡ reply.now.opcode → result ≡ 9
        → (t : ReplyMessage) × GoesWith v o t × IsReplyStruct reply.now bytes.now t × HasReplySpelling v t
        × (wanted.new ≡ 16 + sizes (reply_body t.content)) × (length buffer.old < wanted.new) }
    // Else there is no such reply, or the answer is the first fault that applies.
    ensures fault { (v : Minor) (o : Opcode) → minor_number_of v ≡ minor → code_of o ≡ reply.now.opcode → result ≢ 0
        → result ≢ 9 → IsErrorNumber reply.now.error → (LeadsBeyond o reply.now bytes.now → ⊥)
        → ((t : ReplyMessage) → GoesWith v o t → IsReplyStruct reply.now bytes.now t → ⊥)
        ⊎ ((t : ReplyMessage) × GoesWith v o t × IsReplyStruct reply.now bytes.now t
        × AnswersFault result (ReplyRefusalIsAt v t)) }
    ensures error { (v : Minor) → minor_number_of v ≡ minor → (IsErrorNumber reply.now.error → ⊥) → result ≡ 6 }
    // The data count, and lead beyond the bytes.
    ensures place { (v : Minor) (o : Opcode) → minor_number_of v ≡ minor → code_of o ≡ reply.now.opcode
        → IsErrorNumber reply.now.error → reply_kind v o ≢ None
        → (result ≡ 10) ↔ LeadsBeyond o reply.now bytes.now }
    // The data are no records.
    ensures body { (v : Minor) (o : Opcode) → minor_number_of v ≡ minor → code_of o ≡ reply.now.opcode
        → IsErrorNumber reply.now.error → reply_kind v o ≢ None → (LeadsBeyond o reply.now bytes.now → ⊥)
        → ((t : ReplyMessage) → GoesWith v o t → IsReplyStruct reply.now bytes.now t → ⊥) → result ≡ 5 }
    ensures status { result ≢ 7 }
    ensures unknown { (v : Minor) → minor_number_of v ≡ minor → IsErrorNumber reply.now.error
        → ((o : Opcode) → code_of o ≡ reply.now.opcode → reply_kind v o ≡ None) → result ≡ 3 }
    ensures minor { IsNoMinor minor → result ≡ 8 }
    ensures within { result ≡ 0 → wanted.new ≤ length buffer.old }
    ensures none { result ≢ 0 → result ≢ 9 → wanted.new ≡ 0 }
    ensures kept { result ≢ 0 → buffer.new ≡ buffer.old }
{
    *wanted = 0;
    let Some(version) = minor_of(minor) else {
        return MINOR;
    };
    if !is_error_number(reply.error) {
        return ERROR_RANGE;
    }
    let Some(opcode) = opcode_of_code(reply.opcode) else {
        return OPCODE;
    };
    match reply_of(version, opcode, reply, bytes) {
        Ok(message) => write_message(version, &message, reply.data_length, buffer, wanted),
        Err(status) => status,
    }
}
