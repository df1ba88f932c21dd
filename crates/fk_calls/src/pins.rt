//! Which nodes are in use.

ghost use Rattle.std.specs.Prelude.{◌≡◌, ◌||◌, nat_eq};
ghost use Rattle.std.specs.List.{list_any};
ghost use Rattle.fuse_spec.specs.Kernel.Kernel.{nodes_of_state};
ghost use Rattle.fuse_spec.specs.Values.Maps.{values};
ghost use Rattle.fk_dentry.specs.CachedNames.{names_the_node};
ghost use Rattle.fk_calls.specs.Pins.{pins};

use fk_dentry::Bindings;
use fk_opens::OpenFiles;
use fk_syscalls::CallState;
use fuse_tables::Table;
use std::alloc::Allocator;

/// Whether one of the calls stands on the node or names it.
fn is_named<A: Allocator + Copy>(calls: &[(u64, CallState<A>)], node: u64) -> bool
    ensures { result ≡ list_any (λ state. list_any (nat_eq node) (nodes_of_state state)) (values calls.now) }
{
    for call in calls {
        if call.1.names_node(node) {
            return true;
        }
    }
    false
}

/// Whether an unanswered call stands on the node or names it, an open file is of it, or the RELEASE of one is
/// unanswered.
fn is_pinned<A: Allocator + Copy>(
    calls: &Table<CallState<A>, A>,
    opens: &OpenFiles<A>,
    is_releasing: bool,
    node: u64,
) -> bool
    ensures { result ≡ pins calls.now.entries opens.now.entries is_releasing node }
{
    if is_named(calls.rows(), node) {
        return true;
    }
    if opens.is_open(node) {
        return true;
    }
    is_releasing
}

/// Whether a node is pinned, or a cached name, valid or not, names it.
pub fn is_node_in_use<A: Allocator + Copy>(
    calls: &Table<CallState<A>, A>,
    opens: &OpenFiles<A>,
    is_releasing: bool,
    names: &Bindings<A>,
    node: u64,
) -> bool
    ensures { result ≡ (pins calls.now.entries opens.now.entries is_releasing node
        || names_the_node node names.now.names) }
{
    is_pinned(calls, opens, is_releasing, node) || names.names_node(node)
}
