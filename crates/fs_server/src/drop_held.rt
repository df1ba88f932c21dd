//! Held requests are dropped.

ghost use Rattle.std.specs.Prelude.{◌≡◌};
ghost use Rattle.fuse_spec.specs.Values.Maps.{remove};

use crate::server::ServerOf;
use fs_nodes::NodeStore;

impl<S: NodeStore> ServerOf<S> {
    /// Drops the request that is held under a unique, if there is one: it is not performed, and has no reply of the
    /// server's. It is for one that cannot be performed because memory is out, and is answered so by who serves. No
    /// memory is taken. (this project's rule)
    pub fn drop_held(&mut self, unique: u64)
        ensures { self.new ≡ record self.old { held = remove self.old.held unique } }
    {
        let _dropped = self.held.remove(unique);
    }
}
