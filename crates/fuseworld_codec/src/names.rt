//! The names of opcodes and faults, and the version.

ghost use Rattle.std.specs.Prelude.{◌≡◌, ◌≤◌, ◌<◌, MatchOption, codes, length};
ghost use Rattle.fk_wire.specs.Opcodes.{code_of, name_of};
ghost use Rattle.fk_wire.specs.WireFaults.{fault_name, fault_number};
ghost use Rattle.fk_wire.specs.declared.fault.WireFault.{WireFault};
ghost use Rattle.fk_wire.specs.declared.opcode.Opcode.{Opcode};
ghost use Rattle.fuseworld_codec.specs.Status.{HasText, IsNoOpcode};

use fk_wire::{WireFault, opcode_of_code};

/// The version of fuseworld.
const VERSION: &str = "1.0.0";

/// Puts a text and a NUL byte at the beginning of a buffer that has room for both.
fn put_text(buffer: &mut [u8], text: &[u8]) -> usize
    ensures { (result ≡ length text.now) × HasText text.now buffer.old buffer.new }
{
    let len = text.len();
    if len < buffer.len() {
        buffer[..len].copy_from_slice(text);
        buffer[len] = 0;
    }
    len
}

/// Puts the name of an opcode and a NUL byte at the beginning of a buffer that has room for both, and answers
/// with the name's length, or 0 for a number of no opcode.
#[unsafe(no_mangle)]
#[tactic(auto, using(fk_wire::proofs::OneRequest::same_code))]
pub extern "C" fn fuseworld_opcode_name(opcode: u32, buffer: &mut [u8]) -> usize
    ensures known { (o : Opcode) → code_of o ≡ opcode
        → (result ≡ length (name_of o)) × HasText (name_of o) buffer.old buffer.new }
    ensures unknown { IsNoOpcode opcode → (result ≡ 0) × (buffer.new ≡ buffer.old) }
{
    match opcode_of_code(opcode) {
        Some(known) => put_text(buffer, known.name().as_bytes()),
        None => 0,
    }
}

/// The fault of a number, but for `Memory`, which no call here answers.
fn fault_of(number: u32) -> Option<WireFault>
    ensures { MatchOption result (1 ≤ number → 6 < number) (λ f. (fault_number f ≡ number) × (number ≤ 6)) }
{
    match number {
        1 => Some(WireFault::Short),
        2 => Some(WireFault::Length),
        3 => Some(WireFault::Opcode),
        4 => Some(WireFault::Name),
        5 => Some(WireFault::Body),
        6 => Some(WireFault::ErrorRange),
        _ => None,
    }
}

/// Puts the name of a fault, 1 to 6, and a NUL byte at the beginning of a buffer that has room for both, and
/// answers with the name's length, or 0 for another number.
#[unsafe(no_mangle)]
pub extern "C" fn fuseworld_fault_name(fault: u32, buffer: &mut [u8]) -> usize
    ensures known { 1 ≤ fault → fault ≤ 6 → (f : WireFault) × (fault_number f ≡ fault)
        × (result ≡ length (fault_name f)) × HasText (fault_name f) buffer.old buffer.new }
    ensures unknown { (1 ≤ fault → 6 < fault) → (result ≡ 0) × (buffer.new ≡ buffer.old) }
{
    match fault_of(fault) {
        Some(known) => put_text(buffer, known.name().as_bytes()),
        None => 0,
    }
}

/// Puts the version and a NUL byte at the beginning of a buffer that has room for both, and answers with the
/// version's length.
#[unsafe(no_mangle)]
pub extern "C" fn fuseworld_version(buffer: &mut [u8]) -> usize
    ensures { (result ≡ 5) × HasText (codes "1.0.0") buffer.old buffer.new }
{
    put_text(buffer, VERSION.as_bytes())
}
