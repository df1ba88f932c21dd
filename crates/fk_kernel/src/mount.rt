//! How a kernel is mounted.

ghost use Rattle.std.specs.Prelude.{◌≡◌, None, OnOk, OnErr, IfErr};
ghost use Rattle.fuse_spec.specs.Kernel.Kernel.{kernel_mounted};
ghost use Rattle.fuse_spec.specs.Kernel.Refusals.{is_busy, or_no_memory};
ghost use Rattle.fk_kernel.specs.Refused.{mount_refusal};

use crate::kernel::KernelOf;
use fk_lookup_count::CountTable;
use fk_queues::{KernelQueues, QueueTable};
use fuse_spec::{Minor, Phase, Purpose, Refusal};
use std::mem::replace;

impl<Q: QueueTable<Purpose>, C: CountTable<Heap = Q::Heap>> KernelOf<Q, C> {
    /// Whether a live mount has unanswered calls or open files.
    fn is_busy(&self) -> bool
        ensures { result ≡ is_busy self.now }
    {
        self.is_live() && (self.calls.len() != 0 || self.opens.len() != 0)
    }

    /// Mounts anew: everything of the old mount is abandoned, without forgets, and INIT is queued. Until it is answered
    /// nothing is used beyond what 7.15 has (this project's rule).
    ///
    /// # Errors
    ///
    /// `Busy` where a live mount has unanswered calls or open files; then `NoMemory`. The kernel is as before.
    pub fn mount(&mut self) -> Result<(), Refusal>
        ensures err { OnErr result (self.new ≡ self.old) }
        ensures refusal { IfErr result (λ refusal. refusal ≡ or_no_memory (mount_refusal self.old)) }
        ensures judged { OnOk result (mount_refusal self.old ≡ None) }
        ensures mounted { OnOk result (self.new ≡ kernel_mounted self.old) }
        ensures answers { OnOk result (self.new.vfs.answers ≡ self.old.vfs.answers) }
    {
        if self.is_busy() {
            return Err(Refusal::Busy);
        }
        let mut queues = KernelQueues::new(self.alloc);
        if queues.reserve(1, 0).is_err() {
            queues.end();
            return Err(Refusal::NoMemory);
        }
        let _init = queues.enqueue(Purpose::Init);
        replace(&mut self.queues, queues).end();
        self.calls.clear();
        self.opens.clear();
        self.closing.clear();
        self.names.clear();
        self.nodes.clear();
        self.phase = Phase::Starting;
        self.minor = Minor::M15;
        self.lists_files = false;
        Ok(())
    }
}
