//! The end of a mount's connection.

ghost use Rattle.std.specs.Prelude.{◌≡◌};
ghost use Rattle.fuse_spec.specs.Server.Copies.{connection_lost};

use crate::server::ServerOf;
use fs_nodes::NodeStore;

impl<S: NodeStore> ServerOf<S> {
    /// The mount is aborted: kept replies and copies go, and what is held stays until the next mount. No memory is
    /// taken.
    pub fn connection_lost(&mut self)
        ensures { self.new ≡ connection_lost self.old }
    {
        self.kept.clear();
        self.copies.clear();
        self.is_aborted = true;
    }
}
