//! Reply frames that are read.

ghost use Rattle.std.specs.Prelude.{◌≡◌, ◌≢◌, IfOk, IfErr, IsOkAnd};
ghost use Rattle.fk_wire.specs.Opcodes.{code_of};
ghost use Rattle.fk_wire.specs.Replies.{ReplyMessage, SpellsReplyAt};
ghost use Rattle.fk_wire.specs.ReplyFaults.{ReplyFaultIsAt};
ghost use Rattle.fk_wire.specs.declared.opcode.Minor.{Minor};
ghost use Rattle.fk_wire.specs.declared.opcode.Opcode.{Opcode};
ghost use Rattle.fuseworld_codec.specs.ReplyStructs.{HasReplyPlace, IsReplyStruct, counted_reply};
ghost use Rattle.fuseworld_codec.specs.Status.{AnswersFault, IsNoMinor, IsNoOpcode, minor_number_of};

use crate::layout::FlatReply;
use crate::reply_fields::flat_of;
use crate::status::{DONE, MINOR, minor_of};
use fk_wire::{Minor, Opcode, WireFault, opcode_of_code, read_reply_at};

/// The opcode of a number. For a number of none it is FORGET, which has no replies either.
#[tactic(auto, using(fk_wire::proofs::OneRequest::same_code))]
fn replied_opcode(code: u32) -> Opcode
    ensures known { (o : Opcode) → code_of o ≡ code → result ≡ o }
    ensures unknown { IsNoOpcode code → result ≡ Opcode.Forget }
{
    match opcode_of_code(code) {
        Some(opcode) => opcode,
        None => Opcode::Forget,
    }
}

/// The reply that a frame spells.
#[tactic(auto, using(crate::proofs::Places::reply_body_reads, fk_wire::proofs::OneRequest::within))]
fn flat_reply(
    version: Minor,
    opcode: Opcode,
    code: u32,
    bytes: &[u8],
) -> Result<FlatReply, WireFault>
    ensures ok { IfOk result (λ r. (t : ReplyMessage) × SpellsReplyAt version opcode bytes.now t
        × IsReplyStruct r bytes.now t) }
    ensures only { (t : ReplyMessage) → SpellsReplyAt version opcode bytes.now t
        → IsOkAnd result (λ r. IsReplyStruct r bytes.now t) }
    ensures code { IfOk result (λ r. r.opcode ≡ code) }
    ensures place { IfOk result (λ r. HasReplyPlace r bytes.now) }
    ensures others { (t : ReplyMessage) → SpellsReplyAt version opcode bytes.now t
        → IsOkAnd result (λ r. r ≡ counted_reply t.content r) }
    ensures fault { IfErr result (ReplyFaultIsAt version opcode bytes.now) }
{
    match read_reply_at(version, opcode, bytes) {
        Ok(reply) => Ok(flat_of(code, &reply, bytes)),
        Err(fault) => Err(fault),
    }
}

/// Reads the frame of a reply to a request of this opcode, at a minor version, into `out`.
///
/// # Errors
///
/// The number of the first of `Short`, `Length`, `ErrorRange`, `Opcode`, `Body` and `Name` that applies, or
/// 8 where the minor version is neither 15 nor 31. Then `out` stays as it was.
#[unsafe(no_mangle)]
#[tactic(auto, using(crate::proofs::Places::no_reply_to_forget))]
pub extern "C" fn fuseworld_read_reply(
    minor: u32,
    opcode: u32,
    bytes: &[u8],
    out: &mut FlatReply,
) -> u32
    // What is read is spelled so.
    ensures ok { (v : Minor) (o : Opcode) → minor_number_of v ≡ minor → code_of o ≡ opcode → result ≡ 0
        → (t : ReplyMessage) × SpellsReplyAt v o bytes.now t × IsReplyStruct out.new bytes.now t }
    // What is spelled so is read.
    ensures only { (v : Minor) (o : Opcode) → minor_number_of v ≡ minor → code_of o ≡ opcode → (t : ReplyMessage)
        → SpellsReplyAt v o bytes.now t → (result ≡ 0) × IsReplyStruct out.new bytes.now t }
    // Its data lie within the frame, and the fields that do not count are 0.
    ensures place { result ≡ 0 → HasReplyPlace out.new bytes.now }
    ensures others { (v : Minor) (o : Opcode) → minor_number_of v ≡ minor → code_of o ≡ opcode → (t : ReplyMessage)
        → SpellsReplyAt v o bytes.now t → out.new ≡ counted_reply t.content out.new }
    // Else the answer is the first fault that applies, and the struct is as it was.
    ensures fault { (v : Minor) (o : Opcode) → minor_number_of v ≡ minor → code_of o ≡ opcode → result ≢ 0
        → AnswersFault result (ReplyFaultIsAt v o bytes.now) }
    // An opcode that is not known has no replies, as FORGET has none.
    ensures unknown { (v : Minor) → minor_number_of v ≡ minor → IsNoOpcode opcode
        → AnswersFault result (ReplyFaultIsAt v Opcode.Forget bytes.now) }
    ensures minor { IsNoMinor minor → result ≡ 8 }
    ensures opcode { result ≡ 0 → out.new.opcode ≡ opcode }
    ensures kept { result ≢ 0 → out.new ≡ out.old }
{
    let Some(version) = minor_of(minor) else {
        return MINOR;
    };
    match flat_reply(version, replied_opcode(opcode), opcode, bytes) {
        Ok(reply) => {
            *out = reply;
            DONE
        }
        Err(fault) => fault.number() as u32,
    }
}
