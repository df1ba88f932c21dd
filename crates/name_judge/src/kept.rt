//! Names that are kept.

ghost use Rattle.std.specs.Prelude.{◌≡◌, IfOk};
ghost use Rattle.name_judge.specs.Kept.{name_of};

use std::alloc::{AllocError, Allocator};

/// A name, with a copy of its bytes.
#[derive(Drop)]
pub struct KeptName<A: Allocator> {
    pub parent: u64,
    pub bytes: Vec<u8, A>,
}

/// What a request that waits asks of names: it takes one away, one gets a file, a directory is listed.
#[derive(Drop)]
pub struct Waiting<A: Allocator> {
    pub removed: Option<KeptName<A>>,
    pub made: Option<KeptName<A>>,
    pub listed: Option<u64>,
}

/// A copy of a name.
///
/// # Errors
///
/// Out of memory.
pub(crate) fn keep<A: Allocator + Copy>(
    alloc: A,
    parent: u64,
    bytes: &[u8],
) -> Result<KeptName<A>, AllocError>
    ensures { IfOk result (λ kept. name_of kept ≡ (parent, bytes.now)) }
{
    let bytes = bytes.to_vec(alloc)?;
    Ok(KeptName { parent, bytes })
}
