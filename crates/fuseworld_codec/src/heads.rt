//! The heads of frames.

ghost use Rattle.std.specs.Prelude.{◌≡◌, ◌≢◌};
ghost use Rattle.fk_wire.specs.Fields.{number_at};
ghost use Rattle.fk_wire.specs.Faults.{HasLength, FaultIsAt, IsHeadFault};
ghost use Rattle.fk_wire.specs.ReplyFaults.{IsReplyHead, IsReplyHeadFault, ReplyFaultIsAt};
ghost use Rattle.fk_wire.specs.declared.opcode.Minor.{Minor};
ghost use Rattle.fk_wire.specs.declared.opcode.Opcode.{Opcode};
ghost use Rattle.fuseworld_codec.specs.Status.{AnswersFault};

use crate::layout::{ReplyHead, RequestHead};
use crate::status::DONE;
use fk_wire::{read_reply_head, read_request_head};

/// Reads the head of a request frame into `out`. The answer is 0, or the number of `Short` or `Length`, and
/// then `out` stays as it was.
#[unsafe(no_mangle)]
pub extern "C" fn fuseworld_read_request_head(bytes: &[u8], out: &mut RequestHead) -> u32
    ensures ok { result ≡ 0 → HasLength bytes.now × (out.new.opcode ≡ number_at 4 4 bytes.now)
        × (out.new.unique ≡ number_at 8 8 bytes.now) }
    ensures fault { (m : Minor) → result ≢ 0 → AnswersFault result (λ f. FaultIsAt m bytes.now f × IsHeadFault f) }
    ensures padding { result ≡ 0 → out.new.padding ≡ 0 }
    ensures kept { result ≢ 0 → out.new ≡ out.old }
{
    match read_request_head(bytes) {
        Ok((opcode, unique)) => {
            *out = RequestHead {
                unique,
                opcode,
                padding: 0,
            };
            DONE
        }
        Err(fault) => fault.number() as u32,
    }
}

/// Reads the head of a reply frame into `out`. The answer is 0, or the number of `Short`, `Length` or
/// `ErrorRange`, and then `out` stays as it was.
#[unsafe(no_mangle)]
pub extern "C" fn fuseworld_read_reply_head(bytes: &[u8], out: &mut ReplyHead) -> u32
    ensures ok { result ≡ 0 → IsReplyHead bytes.now (record { error = out.new.error; unique = out.new.unique }) }
    ensures fault { (m : Minor) (o : Opcode) → result ≢ 0
        → AnswersFault result (λ f. ReplyFaultIsAt m o bytes.now f × IsReplyHeadFault f) }
    ensures padding { result ≡ 0 → out.new.padding ≡ 0 }
    ensures kept { result ≢ 0 → out.new ≡ out.old }
{
    match read_reply_head(bytes) {
        Ok((error, unique)) => {
            *out = ReplyHead {
                unique,
                error,
                padding: 0,
            };
            DONE
        }
        Err(fault) => fault.number() as u32,
    }
}
