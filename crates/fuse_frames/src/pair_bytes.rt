//! Pairs as they stand in a BATCH_FORGET.

ghost use Rattle.std.specs.Prelude.{◌≡◌, ◌≤◌, IfOk, OnOk, length};
ghost use Rattle.fuse_spec.specs.Values.Numbers.{max_forgets};
ghost use Rattle.fk_wire.specs.Fields.{InRange, spellings};
ghost use Rattle.fk_wire.specs.Pairs.{forget_ones};

use fk_wire::put_pair;
use std::alloc::{AllocError, Allocator};

/// The bytes of pairs, each a node and how many lookups of it are forgotten.
pub(crate) fn pair_bytes<A: Allocator>(
    alloc: A,
    pairs: &[(u64, u64)],
) -> Result<Vec<u8, A>, AllocError>
    requires { length pairs.now ≤ max_forgets }
    ensures items { IfOk result (λ bytes. bytes.items ≡ spellings (forget_ones pairs.now)) }
    ensures fits { OnOk result (InRange (forget_ones pairs.now)) }
{
    let mut bytes = Vec::with_capacity(alloc, 16 * pairs.len())?;
    for (node, count) in pairs {
        let put = put_pair(&mut bytes, *node, *count);
        if put.is_err() {
            return Err(AllocError);
        }
    }
    Ok(bytes)
}
