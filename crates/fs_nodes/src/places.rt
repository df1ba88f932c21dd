//! Nodeids and places: the nodeid at place 0 is 2, since 1 is the root.
ghost use Rattle.std.specs.Prelude.{◌≡◌};
ghost use Rattle.fs_nodes.specs.Slots.{slot_of};

/// The nodeid at place 0.
pub(crate) const FIRST: u64 = 2;

/// The place of a nodeid.
pub(crate) fn place_of_node(id: u64) -> Option<usize>
    ensures { result ≡ slot_of id }
{
    if id < FIRST {
        return None;
    }
    Some((id - FIRST) as usize)
}
