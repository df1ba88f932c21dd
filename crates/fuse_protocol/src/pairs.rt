//! Pairs of numbers, as a frame has them.

ghost use Rattle.std.specs.Prelude.{◌≡◌, ◌≤◌, ◌/◌, length};

use fk_fields::u64_at;

/// Pairs of numbers, 16 bytes each: those of `struct fuse_forget_one`, a node and how many lookups of it
/// are taken back, or of `struct fuse_removemapping_one`. An iterator over a slice of the frame, which
/// takes no memory.
#[derive(Clone, Copy, Debug)]
pub struct Pairs<'a> {
    bytes: &'a [u8],
    place: usize,
    ghost within: { place ≤ length bytes.now },
}

impl<'a> Pairs<'a> {
    ghost use Rattle.fuse_protocol.specs.Pairs.{pairs_in, pairs_from};

    /// The pairs that the bytes have, 16 bytes each. What is left over is passed over.
    pub fn over(bytes: &'a [u8]) -> Pairs<'a>
        ensures { pairs_in result ≡ pairs_from (length bytes.now / 16) 0 bytes.now }
    {
        Pairs { bytes, place: 0 }
    }
}

impl<'a> Iterator for Pairs<'a> {
    type Item = (u64, u64);

    ghost use Rattle.std.specs.Iterator.{YieldsFirst, item_count};
    ghost use Rattle.fuse_protocol.specs.Pairs.{pairs_in};

    ghost next_gives = { YieldsFirst pairs_in };

    ghost remaining = { item_count pairs_in };

    fn next(&mut self) -> Option<(u64, u64)> {
        if self.bytes.len() - self.place < 16 {
            return None;
        }
        let pair = (
            u64_at(self.bytes, self.place),
            u64_at(self.bytes, self.place + 8),
        );
        self.place += 16;
        Some(pair)
    }
}
