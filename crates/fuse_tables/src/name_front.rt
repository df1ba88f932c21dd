//! What ordered maps compare of a name first.

ghost use Rattle.std.specs.Prelude.{◌≡◌};
ghost use Rattle.fuse_tables.specs.NameFronts.{front_of};

/// The number of a name's first eight bytes, of which the first counts most. Most names differ in it.
pub(crate) fn front_of(name: &[u8]) -> u64
    ensures { result ≡ front_of name.now }
{
    let mut front = 0_u64;
    for byte in &name[..8_usize.min(name.len())] {
        front = front.wrapping_mul(256).wrapping_add(*byte as u64);
    }
    front
}
