//! Opcodes by their names.

ghost use Rattle.std.specs.Prelude.{◌≡◌, ◌≢◌, MatchOption};
ghost use Rattle.fk_wire.specs.Opcodes.{name_of};
ghost use Rattle.fk_wire.specs.declared.opcode.Opcode.{Opcode};

use fk_wire::Opcode;

/// The opcode of a name in capitals, as `BATCH_FORGET`, if there is one.
pub fn opcode_of_name(name: &str) -> Option<Opcode>
    ensures { MatchOption result ((o : Opcode) → name_of o ≢ name.now) (λ o. name_of o ≡ name.now) }
{
    match name {
        "LOOKUP" => Some(Opcode::Lookup),
        "FORGET" => Some(Opcode::Forget),
        "GETATTR" => Some(Opcode::Getattr),
        "MKDIR" => Some(Opcode::Mkdir),
        "UNLINK" => Some(Opcode::Unlink),
        "RMDIR" => Some(Opcode::Rmdir),
        "RENAME" => Some(Opcode::Rename),
        "LINK" => Some(Opcode::Link),
        "OPEN" => Some(Opcode::Open),
        "READ" => Some(Opcode::Read),
        "WRITE" => Some(Opcode::Write),
        "RELEASE" => Some(Opcode::Release),
        "INIT" => Some(Opcode::Init),
        "READDIR" => Some(Opcode::Readdir),
        "CREATE" => Some(Opcode::Create),
        "INTERRUPT" => Some(Opcode::Interrupt),
        "BATCH_FORGET" => Some(Opcode::BatchForget),
        "READDIRPLUS" => Some(Opcode::Readdirplus),
        _ => None,
    }
}
