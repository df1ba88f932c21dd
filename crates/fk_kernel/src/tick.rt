//! How time passes.

ghost use Rattle.std.specs.Prelude.{◌≡◌, ◌+◌, Some, None, OnOk, OnErr, IfOk, IfErr};
ghost use Rattle.fuse_spec.specs.Calls.Vfs.{later};
ghost use Rattle.fk_kernel.specs.Refused.{tick_refusal};

use crate::kernel::KernelOf;
use fk_lookup_count::CountTable;
use fk_queues::QueueTable;
use fuse_spec::limits::CLOCK_END;
use fuse_spec::{Purpose, Refusal};

impl<Q: QueueTable<Purpose>, C: CountTable<Heap = Q::Heap>> KernelOf<Q, C> {
    /// The clock goes on this many milliseconds. Gives the new time. Takes no memory.
    ///
    /// # Errors
    ///
    /// `BadTime` where the time would reach 2^53. The kernel is as before.
    pub fn tick(&mut self, ms: u64) -> Result<u64, Refusal>
        ensures err { OnErr result (self.new ≡ self.old) }
        ensures refusal { IfErr result (λ refusal. tick_refusal self.old ms ≡ Some refusal) }
        ensures judged { OnOk result (tick_refusal self.old ms ≡ None) }
        ensures time { IfOk result (λ time. time ≡ self.old.vfs.clock + ms) }
        ensures ticked { OnOk result (self.new ≡ record self.old { vfs = later self.old.vfs ms }) }
    {
        if CLOCK_END - self.clock <= ms {
            return Err(Refusal::BadTime);
        }
        self.clock += ms;
        Ok(self.clock)
    }
}
