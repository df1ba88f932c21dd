//! That no counter is past its end, for the proofs of events.

ghost use Rattle.std.specs.Prelude.{◌≡◌, false};
ghost use Rattle.fuse_spec.specs.World.Steps.{is_past};
ghost use Rattle.fuse_spec.specs.World.Worlds.{World as WorldState};

use fk_kernel::KernelOf;
use fk_lookup_count::CountTable;
use fk_queues::QueueTable;
use fs_nodes::NodeStore;
use fs_server::ServerOf;
use fuse_spec::Purpose;

/// No counter of a world with this kernel and this server is past its end.
pub(super) fn lemma_in_range<Q: QueueTable<Purpose>, C: CountTable<Heap = Q::Heap>, S: NodeStore>(
    kernel: &KernelOf<Q, C>,
    server: &ServerOf<S>,
)
    ensures { (world : WorldState) → world.kernel ≡ kernel.now → world.server ≡ server.now → is_past world ≡ false }
{
    kernel.lemma_in_range();
    kernel.lemma_counts_in_range();
    server.lemma_in_range();
}
