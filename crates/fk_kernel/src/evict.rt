//! How a node is evicted.

ghost use Rattle.std.specs.Prelude.{◌≡◌, Some, None, OnOk, OnErr, IfOk, IfErr};
ghost use Rattle.fuse_spec.specs.Kernel.Kernel.{evicted};
ghost use Rattle.fuse_spec.specs.Values.Maps.{get};
ghost use Rattle.fuse_spec.specs.declared.Counted.{Counted};
ghost use Rattle.fk_kernel.specs.Refused.{evict_refusal};

use crate::kernel::KernelOf;
use fk_calls::is_node_in_use;
use fk_lookup_count::CountTable;
use fk_queues::QueueTable;
use fuse_spec::{Purpose, Refusal};

impl<Q: QueueTable<Purpose>, C: CountTable<Heap = Q::Heap>> KernelOf<Q, C> {
    /// Why a node cannot be evicted: `NotReady` where the mount is not live, `NoSuch` where the node is not counted,
    /// `Busy` where it is pinned or a cached name, valid or not, names it.
    pub fn evict_refusal(&self, node: u64) -> Option<Refusal>
        ensures { result ≡ evict_refusal self.now node }
    {
        if !self.is_live() {
            return Some(Refusal::NotReady);
        }
        if self.nodes.generation_of(node).is_none() {
            return Some(Refusal::NoSuch);
        }
        let is_releasing = self.queues.is_releasing(node);
        if is_node_in_use(&self.calls, &self.opens, is_releasing, &self.names, node) {
            return Some(Refusal::Busy);
        }
        None
    }

    /// Evicts a node and queues the forget of its whole count, which is given (libfuse, low-level: forget). Takes no
    /// memory.
    ///
    /// # Errors
    ///
    /// As `evict_refusal`. The kernel is as before.
    pub fn evict(&mut self, node: u64) -> Result<u64, Refusal>
        ensures err { OnErr result (self.new ≡ self.old) }
        ensures refusal { IfErr result (λ refusal. evict_refusal self.old node ≡ Some refusal) }
        ensures judged { OnOk result (evict_refusal self.old node ≡ None) }
        ensures evicted { IfOk result (λ count. (counted : Counted) × (get self.old.nodes node ≡ Some counted)
            × (counted.count ≡ count) × (self.new ≡ evicted self.old node counted)) }
    {
        if let Some(refusal) = self.evict_refusal(node) {
            return Err(refusal);
        }
        match self.nodes.evict(node) {
            Some(count) => {
                self.queues.forget(node, count);
                Ok(count)
            }
            // It never comes to this: `evict_refusal` found the node counted.
            None => Err(Refusal::NoSuch),
        }
    }
}
