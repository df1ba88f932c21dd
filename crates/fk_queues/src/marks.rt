//! How far a request has come.
ghost use Rattle.std.specs.Prelude.{◌≡◌};
ghost use Rattle.fuse_spec.specs.Kernel.Queues.{is_unread};

use fuse_spec::Mark;

/// Whether a request with this mark was not read yet.
pub(crate) fn is_unread(mark: Mark) -> bool
    ensures { result ≡ is_unread mark }
{
    matches!(mark, Mark::Unread | Mark::Flagged)
}
