//! Room in the queues, made before anything changes.

ghost use Rattle.std.specs.Prelude.{◌≡◌, ◌≤◌, ◌<◌, ◌+◌, ◌^◌, length, OnOk, IfErr};
ghost use Rattle.fk_queues.specs.Room.{KeepsRoom};

use fk_lookup_count::CountTable;
use fk_nodes::CountedNodes;
use fk_queues::QueueTable;
use fuse_spec::{Opened, Purpose, Refusal};
use fuse_tables::Table;

/// Makes room to queue one request, beside the RELEASE of each closed file.
///
/// # Errors
///
/// `NoMemory`. The queues are as before.
#[inline(always)]
pub(crate) fn reserve_request<Q: QueueTable<Purpose>>(
    queues: &mut Q,
    closing: &Table<Opened, Q::Heap>,
) -> Result<(), Refusal>
    ensures state { Q.state queues.new ≡ Q.state queues.old }
    ensures kept { KeepsRoom (Q.room queues.old) (Q.room queues.new) }
    ensures room { OnOk result (length closing.now.entries + 1 ≤ (Q.room queues.new).requests) }
    ensures refusal { IfErr result (λ refusal. refusal ≡ Refusal.NoMemory) }
{
    closing.lemma_sound();
    match queues.reserve(closing.len() + 1, 0) {
        Ok(()) => Ok(()),
        Err(_) => Err(Refusal::NoMemory),
    }
}

/// Makes room to queue a forget of each counted node, and this many more.
///
/// # Errors
///
/// `NoMemory`. The queues are as before.
#[inline(always)]
pub(crate) fn reserve_forgets<Q: QueueTable<Purpose>, C: CountTable>(
    queues: &mut Q,
    nodes: &CountedNodes<C>,
    more: usize,
) -> Result<(), Refusal>
    requires { more < 2 ^ 63 }
    ensures state { Q.state queues.new ≡ Q.state queues.old }
    ensures kept { KeepsRoom (Q.room queues.old) (Q.room queues.new) }
    ensures room { OnOk result (length nodes.now + more ≤ (Q.room queues.new).forgets) }
    ensures refusal { IfErr result (λ refusal. refusal ≡ Refusal.NoMemory) }
{
    match queues.reserve(0, nodes.node_count() + more) {
        Ok(()) => Ok(()),
        Err(_) => Err(Refusal::NoMemory),
    }
}
