//! Acts, written one after another.

ghost use Rattle.std.specs.Prelude.{◌≡◌, [], ◌∷◌, ◌++◌, OnOk};

use fuse_sessions::Act;
use std::alloc::{AllocError, Allocator};

/// Writes an act.
///
/// # Errors
///
/// Out of memory.
#[inline(always)]
pub(crate) fn write<A: Allocator + Copy>(acts: &mut Vec<Act, A>, act: Act) -> Result<(), AllocError>
    ensures { OnOk result (acts.new.items ≡ acts.old.items ++ act ∷ []) }
{
    if acts.len() == acts.capacity() {
        acts.reserve(1)?;
    }
    acts.push_reserved(act);
    Ok(())
}
