//! How a mount is aborted.

ghost use Rattle.std.specs.Prelude.{◌≡◌, Some, None, OnOk, OnErr, IfErr};
ghost use Rattle.fuse_spec.specs.Kernel.Kernel.{kernel_aborted};
ghost use Rattle.fk_kernel.specs.Refused.{abort_refusal};

use crate::kernel::KernelOf;
use fk_calls::answer_all;
use fk_lookup_count::CountTable;
use fk_queues::QueueTable;
use fuse_spec::{Phase, Purpose, Refusal};

impl<Q: QueueTable<Purpose>, C: CountTable<Heap = Q::Heap>> KernelOf<Q, C> {
    /// Aborts the mount (fuse.rst). Each unanswered call is answered ECONNABORTED, and cached names, nodes, open files
    /// and all that is queued are abandoned. Takes no memory: the answers have their room since the calls began.
    ///
    /// # Errors
    ///
    /// `NotReady` where the mount is not live. The kernel is as before.
    pub fn abort(&mut self) -> Result<(), Refusal>
        ensures err { OnErr result (self.new ≡ self.old) }
        ensures refusal { IfErr result (λ refusal. abort_refusal self.old ≡ Some refusal) }
        ensures judged { OnOk result (abort_refusal self.old ≡ None) }
        ensures aborted { OnOk result (self.new ≡ kernel_aborted self.old) }
    {
        if !self.is_live() {
            return Err(Refusal::NotReady);
        }
        self.abandon_all();
        Ok(())
    }

    /// The mount is over: each unanswered call is answered ECONNABORTED, and all else is abandoned. Takes no memory.
    pub(crate) fn abandon_all(&mut self)
        ensures { self.new ≡ kernel_aborted self.old }
    {
        answer_all(self.calls.rows(), &mut self.answers);
        self.calls.clear();
        self.opens.clear();
        self.closing.clear();
        self.names.clear();
        self.nodes.clear();
        self.queues.abort();
        self.phase = Phase::Aborted;
    }
}
