//! What the codec of eighteen opcodes reads, the reader of all opcodes reads too, and says the same of it.
//!
//! Both readers are exact over definitions of their own: `fk_wire` over fields in a row, `fuse_protocol`
//! over a table. Here the two are held against each other, for agreements under which the codec's frames
//! may come (`Carries`): names of 255 bytes, a minor version from 12 on, and no extensions.
#![tactic(auto)]

ghost use Rattle.std.specs.Prelude.{◌≤◌, ◌+◌, List, ℕ, length, IfOk, IfErr, IsErr, IsOkAnd};
ghost use Rattle.fk_wire.specs.declared.opcode.Minor.{Minor};
ghost use Rattle.fk_wire.specs.Requests.{SpellsAt};
ghost use Rattle.fk_wire.specs.Requests.{RequestMessage as CodecMessage, request_message as codec_message};
ghost use Rattle.fk_wire.specs.declared.opcode.Opcode.{Opcode as CodecOpcode};
ghost use Rattle.fk_wire.specs.Replies.{SpellsReplyAt};
ghost use Rattle.fk_wire.specs.Replies.{ReplyMessage as CodecReply};
ghost use Rattle.fuse_protocol.specs.declared.agreed.Agreed.{Agreed};
ghost use Rattle.fuse_protocol.specs.declared.fault.ShapeFault.{ShapeFault};
ghost use Rattle.fuse_protocol.specs.Faults.{FaultIs};
ghost use Rattle.fuse_protocol.specs.Requests.{request_message};
ghost use Rattle.protocol_law.specs.Law.{Carries, IsReadAlike, AreAlike};
ghost use Rattle.protocol_law.specs.ReplyLaw.{IsRepliedAlike};

use fk_wire::{Minor, Request as CodecRequest, WireFault, read_request_at};
use fuse_protocol::{Agreed, Request, ShapeFault, read_request};

/// What the codec spells is a request of the table's row that says the same; so what is none, the codec
/// does not spell.
pub fn spelled_is_read_alike()
    ensures alike { (minor : Minor) (agreed : Agreed) (bytes : List ℕ) (m : CodecMessage) → Carries agreed
        → SpellsAt minor bytes m → IsReadAlike agreed bytes m }
    ensures refused { (minor : Minor) (agreed : Agreed) (bytes : List ℕ) (f : ShapeFault) (m : CodecMessage)
        → Carries agreed → FaultIs agreed bytes f → SpellsAt minor bytes m → ⊥ }
{}

/// What the codec spells as a reply is a reply of the table's row that says the same: the error, the node and
/// the attributes of each entry, handles, counts, data and records. The table also looks at how many bytes
/// were asked for, which the codec does not know.
pub fn spelled_reply_is_read_alike()
    ensures { (minor : Minor) (agreed : Agreed) (o : CodecOpcode) (asked : ℕ) (bytes : List ℕ) (t : CodecReply)
        → Carries agreed → length bytes ≤ asked + 16 → SpellsReplyAt minor o bytes t
        → IsRepliedAlike agreed o asked bytes t }
{}

/// Reads a frame twice, as the codec does and by the table.
pub fn read_twice<'a>(
    minor: Minor,
    agreed: Agreed,
    bytes: &'a [u8],
) -> (
    Result<CodecRequest<'a>, WireFault>,
    Result<Request<'a>, ShapeFault>,
)
    requires { Carries agreed }
    // What the codec reads the table reads, and says the same.
    ensures alike { IfOk result.0 (λ m. IsOkAnd result.1 (λ r.
        AreAlike (codec_message m) r.head.opcode (request_message r))) }
    // What the table refuses the codec refuses.
    ensures refused { IfErr result.1 (λ f. IsErr result.0) }
{
    (read_request_at(minor, bytes), read_request(agreed, bytes))
}
