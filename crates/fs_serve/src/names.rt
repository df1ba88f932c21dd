//! Names that are too long.

ghost use Rattle.std.specs.Prelude.{◌≡◌, ◌≢◌, ◌↔◌, ◌≤◌, ◌<◌, ◌++◌, ◌∷◌, [], ℕ, false, length, slice_index, IsTrue, List, MatchOption, drop};
ghost use Rattle.fk_wire.specs.Fields.{number_at};
ghost use Rattle.fk_wire.specs.Opcodes.{shape_of};
ghost use Rattle.fs_serve.specs.LongNames.{AreLongNames, AreTwoNames, EndsInLongName, EndsInLongNames, HasLongNames, HasTwoNames, IsNameOfAnyLength, IsNameTooLong};

use fk_wire::{MAX_FRAME, Opcode, opcode_of_code, read_request_head};

/// The longest name.
const LONGEST_NAME: usize = 255;

/// Whether bytes are `.` or `..`.
fn are_dots(bytes: &[u8]) -> bool
    ensures { (result ≡ false) ↔ ((bytes.now ≢ 46 ∷ []) × (bytes.now ≢ 46 ∷ 46 ∷ [])) }
{
    matches!(bytes, [b'.'] | [b'.', b'.'])
}

/// Whether bytes are a name, if their length is one of a name.
fn is_name_of_any_length(bytes: &[u8]) -> bool
    ensures { IsTrue result ↔ IsNameOfAnyLength bytes.now }
{
    !bytes.is_empty() && !are_dots(bytes) && bytes.iter().all(|b| *b != 0 && *b != b'/')
}

/// The bytes in front of a NUL byte at the end.
fn before_last(bytes: &[u8]) -> Option<&[u8]>
    ensures { MatchOption result ((name : List ℕ) → bytes.now ≢ name ++ 0 ∷ []) (λ name. bytes.now ≡ name.now ++ 0 ∷ []) }
{
    match bytes {
        [name @ .., 0] => Some(name),
        _ => None,
    }
}

/// Whether bytes are a name that is too long, and a NUL byte.
fn ends_in_long_name(bytes: &[u8]) -> bool
    ensures { IsTrue result ↔ EndsInLongName bytes.now }
{
    match before_last(bytes) {
        Some(name) => name.len() > LONGEST_NAME && is_name_of_any_length(name),
        None => false,
    }
}

/// Where the first NUL byte is, or the length where there is none.
fn first_nul(bytes: &[u8]) -> usize
    ensures within { result ≤ length bytes.now }
    ensures before { (k : ℕ) → k < result → slice_index bytes.now k ≢ 0 }
    ensures at { result < length bytes.now → slice_index bytes.now result ≡ 0 }
{
    let mut end = 0;
    'bytes: while end < bytes.len() && bytes[end] != 0 {
        end += 1;
    }
    end
}

/// What stands from a place on.
fn rest_from(frame: &[u8], place: usize) -> &[u8]
    ensures { result.now ≡ drop place frame.now }
{
    &frame[place.min(frame.len())..]
}

/// The bytes in front of the first NUL byte, and those between it and one at the end.
fn between_nuls(bytes: &[u8]) -> Option<(&[u8], &[u8])>
    ensures { MatchOption result (HasTwoNames bytes.now → ⊥) (λ names. AreTwoNames bytes.now names.0.now names.1.now) }
{
    let end = first_nul(bytes);
    if end == bytes.len() {
        return None;
    }
    match before_last(rest_from(bytes, end + 1)) {
        Some(new) => Some((&bytes[..end], new)),
        None => None,
    }
}

/// Whether two are names, if their lengths are those of names, and one of them is too long.
fn are_long_names(old: &[u8], new: &[u8]) -> bool
    ensures { IsTrue result ↔ AreLongNames old.now new.now }
{
    (old.len() > LONGEST_NAME || new.len() > LONGEST_NAME)
        && is_name_of_any_length(old)
        && is_name_of_any_length(new)
}

/// Whether bytes are two names, each with a NUL byte, of which one is too long.
fn ends_in_long_names(bytes: &[u8]) -> bool
    ensures { IsTrue result ↔ EndsInLongNames bytes.now }
{
    match between_nuls(bytes) {
        Some((old, new)) => are_long_names(old, new),
        None => false,
    }
}

/// Whether a frame of this opcode ends in names of which one is too long.
fn has_long_names(opcode: Opcode, frame: &[u8]) -> bool
    ensures { IsTrue result ↔ HasLongNames (shape_of opcode) frame.now }
{
    match opcode {
        Opcode::Lookup | Opcode::Unlink | Opcode::Rmdir => ends_in_long_name(rest_from(frame, 40)),
        Opcode::Mkdir | Opcode::Link => ends_in_long_name(rest_from(frame, 48)),
        Opcode::Create => ends_in_long_name(rest_from(frame, 56)),
        Opcode::Rename => ends_in_long_names(rest_from(frame, 48)),
        _ => false,
    }
}

/// The unique of a frame of which nothing is wrong but that a name is too long.
pub(crate) fn unique_of_long_name(frame: &[u8]) -> Option<u64>
    ensures { MatchOption result (IsNameTooLong frame.now → ⊥)
        (λ unique. IsNameTooLong frame.now × (unique ≡ number_at 8 8 frame.now)) }
{
    let (code, unique) = match read_request_head(frame) {
        Ok(head) => head,
        Err(_) => return None,
    };
    let Some(opcode) = opcode_of_code(code) else {
        return None;
    };
    if frame.len() <= MAX_FRAME && has_long_names(opcode, frame) {
        Some(unique)
    } else {
        None
    }
}
