//! Opcodes by their names.

ghost use Rattle.std.specs.Prelude.{◌≡◌, ◌≢◌, MatchOption};
ghost use Rattle.fuse_protocol.specs.Table.{name_of};
ghost use Rattle.fuse_protocol.specs.declared.opcode.Opcode.{Opcode};

use fuse_protocol::{Opcode, opcode_of_code};

/// The highest number of an opcode: COPY_FILE_RANGE_64's.
const HIGHEST: u32 = 53;

/// The opcode of a name in capitals, as `BATCH_FORGET`, if there is one.
pub fn any_opcode_of_name(name: &str) -> Option<Opcode>
    ensures { MatchOption result ((o : Opcode) → name_of o ≢ name.now) (λ o. name_of o ≡ name.now) }
{
    for code in 0..HIGHEST + 1 {
        if let Some(opcode) = opcode_of_code(code) {
            if opcode.name() == name {
                return Some(opcode);
            }
        }
    }
    None
}
