//! What the source of a script's lines may ask the kernel that runs them.

ghost use Rattle.std.specs.Prelude.{◌≡◌, ℕ, IfOk, List, Option, option_map};
ghost use Rattle.fuse_spec.specs.declared.Dentry.{Dentry as DentryOf};

use fuse_spec::Dentry;
use std::alloc::AllocError;

/// What the source of a script's lines may ask the kernel that runs them.
pub trait KernelView {
    // what a name in a directory leads to, where it is cached
    ghost leads: { Self → (directory : ℕ) → (name : List ℕ) → Option DentryOf };

    // This cached name, by its directory and itself, may be dropped, or none may.
    ghost drops: { Self → Option (ℕ × List ℕ) → Type 0 };

    // the first node that may be evicted
    ghost evicts: { Self → Option ℕ };

    /// What a cached name leads to, valid or not.
    fn cached_name(&self, directory: u64, name: &[u8]) -> Option<Dentry>
        ensures { result ≡ leads self.now directory name.now };

    /// A cached name that may be dropped, if there is one: its directory, and it.
    fn first_cached_name(&self) -> Option<(u64, &[u8])>
        ensures { drops self.now (option_map (λ name. (name.0, name.1.now)) result) };

    /// The node that may be evicted, if there is one; of several the one with the lowest number.
    ///
    /// # Errors
    ///
    /// Out of memory.
    fn first_evictable(&self) -> Result<Option<u64>, AllocError>
        ensures { IfOk result (λ node. node ≡ evicts self.now) };

    /// The offset of the last name in the answer to the newest call. None where it lists none, or has not come.
    fn listed_to(&self) -> Option<u64>;
}
