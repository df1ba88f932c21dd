//! A list of nodes, as a frame has it.

ghost use Rattle.std.specs.Prelude.{◌≡◌, ◌≤◌, ◌/◌, ◌-◌, length};

use fk_fields::u64_at;

/// Nodes, 8 bytes each: an iterator over a slice of the frame, which takes no memory.
#[derive(Clone, Copy, Debug)]
pub struct NodeIds<'a> {
    bytes: &'a [u8],
    place: usize,
    ghost within: { place ≤ length bytes.now },
}

impl<'a> NodeIds<'a> {
    ghost use Rattle.fuse_replies.specs.NodeIds.{node_ids_in, node_ids_from};

    /// The nodes that stand from a place to the end.
    pub(crate) fn from_place(bytes: &'a [u8], place: usize) -> NodeIds<'a>
        requires { place ≤ length bytes.now }
        ensures { node_ids_in result ≡ node_ids_from ((length bytes.now - place) / 8) place bytes.now }
    {
        NodeIds { bytes, place }
    }
}

impl<'a> Iterator for NodeIds<'a> {
    type Item = u64;

    ghost use Rattle.std.specs.Iterator.{YieldsFirst, item_count};
    ghost use Rattle.fuse_replies.specs.NodeIds.{node_ids_in};

    ghost next_gives = { YieldsFirst node_ids_in };

    ghost remaining = { item_count node_ids_in };

    fn next(&mut self) -> Option<u64> {
        if self.bytes.len() - self.place < 8 {
            return None;
        }
        let nodeid = u64_at(self.bytes, self.place);
        self.place += 8;
        Some(nodeid)
    }
}
