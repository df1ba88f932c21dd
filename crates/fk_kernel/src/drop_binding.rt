//! How a cached name is dropped.

ghost use Rattle.std.specs.Prelude.{◌≡◌, Some, None, OnOk, OnErr, IfErr};
ghost use Rattle.fuse_spec.specs.Values.Maps.{remove_name};
ghost use Rattle.fk_kernel.specs.Refused.{drop_refusal};

use crate::kernel::KernelOf;
use fk_lookup_count::CountTable;
use fk_queues::QueueTable;
use fuse_spec::{Purpose, Refusal};

impl<Q: QueueTable<Purpose>, C: CountTable<Heap = Q::Heap>> KernelOf<Q, C> {
    /// Drops a cached name, valid or not. Takes no memory.
    ///
    /// # Errors
    ///
    /// `NotReady` where the mount is not live, `NoSuch` where no such name is cached. The kernel is as before.
    pub fn drop_binding(&mut self, directory: u64, name: &[u8]) -> Result<(), Refusal>
        ensures err { OnErr result (self.new ≡ self.old) }
        ensures refusal { IfErr result (λ refusal. drop_refusal self.old directory name.now ≡ Some refusal) }
        ensures judged { OnOk result (drop_refusal self.old directory name.now ≡ None) }
        ensures dropped { OnOk result
            (self.new ≡ record self.old {
              vfs = record self.old.vfs {
                names = remove_name self.old.vfs.names
                    (directory, name.now);
              };
            }) }
    {
        if !self.is_live() {
            return Err(Refusal::NotReady);
        }
        if !self.names.remove(directory, name) {
            return Err(Refusal::NoSuch);
        }
        Ok(())
    }
}
