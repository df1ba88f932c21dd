//! Where a path leads, by the names that the kernel has cached.

ghost use Rattle.std.specs.Prelude.{◌≡◌, map, option_map};
ghost use Rattle.fw_expand.specs.Walks.{walked};
ghost use Rattle.fw_expand.specs.Walks as walks;

use fw_drive::KernelView;

/// The node of the root.
const ROOT: u64 = 1;

/// The node to which a cached name leads; an empty one leads to none.
fn node_at<V: KernelView>(kernel: &V, directory: u64, name: &[u8]) -> Option<u64>
    ensures { result ≡ walks.node_at (V.leads kernel.now) directory name.now }
{
    if name.is_empty() {
        return None;
    }
    kernel.cached_name(directory, name)?.target
}

/// Where names lead, one after another, from the root: the directory of the last, it, and its node.
pub(crate) fn walk<'a, V: KernelView>(
    kernel: &V,
    names: &[&'a [u8]],
) -> Option<(u64, &'a [u8], u64)>
    ensures { option_map (λ place. (place.0, place.1.now, place.2)) result
        ≡ walked (V.leads kernel.now) (map (λ name. name.now) names.now) }
{
    let mut directory = 0;
    let mut last: &'a [u8] = b"".as_slice();
    let mut node = ROOT;
    for name in names {
        let next = node_at(kernel, node, name)?;
        directory = node;
        last = name;
        node = next;
    }
    Some((directory, last, node))
}
