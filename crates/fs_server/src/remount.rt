//! A server's next mount.

ghost use Rattle.std.specs.Prelude.{◌≡◌, ◌≤◌};
ghost use Rattle.fuse_spec.specs.Server.Copies.{remounted};
ghost use Rattle.fuse_spec.specs.Values.Numbers.{max_validity};

use crate::server::ServerOf;
use fs_nodes::NodeStore;
use fuse_spec::{Minor, Validity};

impl<S: NodeStore> ServerOf<S> {
    /// A new mount: the nodes, file handles, held requests, kept replies and copies go, and so do nameless files; the
    /// tree stays, and generations, file handles and copy numbers go on. Validities are in milliseconds; the minor is
    /// the one in use.
    pub fn remount(&mut self, found_ms: u64, missing_ms: u64, minor: Minor)
        requires found { found_ms ≤ max_validity }
        requires missing { missing_ms ≤ max_validity }
        ensures { self.new ≡ remounted self.old (record { found_ms = found_ms; missing_ms = missing_ms }) minor }
    {
        self.files.clear();
        self.held.clear();
        self.kept.clear();
        self.copies.clear();
        self.is_aborted = false;
        self.minor = minor;
        self.validity = Validity {
            found_ms,
            missing_ms,
        };
    }
}
