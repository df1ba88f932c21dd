//! What a call answers with: 0, a fault's number, or a number of this library's own.

ghost use Rattle.std.specs.Prelude.{◌≡◌, ◌≢◌, MatchOption};
ghost use Rattle.fk_wire.specs.declared.opcode.Minor.{Minor};
ghost use Rattle.fuseworld_codec.specs.Status.{minor_number_of};

use fk_wire::Minor;

/// The call did what it says.
pub(crate) const DONE: u32 = 0;
/// The opcode is not known, or has no replies: the fault `Opcode`.
pub(crate) const OPCODE: u32 = 3;
/// A name breaks the rules of names: the fault `Name`.
pub(crate) const NAME: u32 = 4;
/// The body is not of its kind: the fault `Body`.
pub(crate) const BODY: u32 = 5;
/// The error of a reply is out of range: the fault `ErrorRange`.
pub(crate) const ERROR_RANGE: u32 = 6;
/// The minor version is neither 15 nor 31.
pub(crate) const MINOR: u32 = 8;
/// The buffer is too small for the frame.
pub(crate) const ROOM: u32 = 9;
/// An offset and its length lead beyond the caller's bytes.
pub(crate) const PLACE: u32 = 10;
/// No record or pair is left.
pub(crate) const END: u32 = 11;

/// The minor version of a number, if it is one.
pub(crate) fn minor_of(number: u32) -> Option<Minor>
    ensures { MatchOption result ((m : Minor) → minor_number_of m ≢ number) (λ m. minor_number_of m ≡ number) }
{
    match number {
        15 => Some(Minor::M15),
        31 => Some(Minor::M31),
        _ => None,
    }
}
