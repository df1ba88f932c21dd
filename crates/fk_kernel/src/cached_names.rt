//! What is cached.

ghost use Rattle.std.specs.Prelude.{◌≡◌, [], IsSome, MatchOption};
ghost use Rattle.fuse_spec.specs.Values.Maps.{get_name};

use crate::kernel::KernelOf;
use fk_lookup_count::CountTable;
use fk_queues::QueueTable;
use fuse_spec::{Dentry, Purpose};

impl<Q: QueueTable<Purpose>, C: CountTable<Heap = Q::Heap>> KernelOf<Q, C> {
    /// What a cached name leads to, valid or not.
    pub fn cached_name(&self, directory: u64, name: &[u8]) -> Option<Dentry>
        ensures { result ≡ get_name self.now.vfs.names (directory, name.now) }
    {
        self.names.bound(directory, name)
    }

    /// A cached name, valid or not, if there is one: its directory, and it.
    pub fn first_cached_name(&self) -> Option<(u64, &[u8])>
        ensures { MatchOption result (self.now.vfs.names ≡ [])
            (λ n. IsSome (get_name self.now.vfs.names (n.0, n.1.now))) }
    {
        self.names.first()
    }
}
