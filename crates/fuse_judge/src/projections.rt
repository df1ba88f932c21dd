//! What an opcode says.

ghost use Rattle.std.specs.Prelude.{◌≡◌};
ghost use Rattle.fuse_sessions.specs.Numbers as words;

use fuse_protocol::Opcode;

/// Whether a request of an opcode is a FORGET or a BATCH_FORGET.
pub(crate) fn is_forget(opcode: Option<Opcode>) -> bool
    ensures { result ≡ words.is_forget opcode }
{
    matches!(opcode, Some(Opcode::Forget | Opcode::BatchForget))
}
