//! Where a mount stands.

ghost use Rattle.std.specs.Prelude.{◌≡◌};
ghost use Rattle.fuse_spec.specs.Kernel.Kernel.{is_live, is_aborted};
ghost use Rattle.fuse_spec.specs.Kernel.Refusals.{is_ready};

use fuse_spec::Phase;

/// Whether a mount that stands so is live.
pub(crate) fn is_phase_live(phase: Phase) -> bool
    ensures { result ≡ is_live phase }
{
    matches!(phase, Phase::Starting | Phase::Ready)
}

/// Whether calls may begin in a mount that stands so.
pub(crate) fn is_phase_ready(phase: Phase) -> bool
    ensures { result ≡ is_ready phase }
{
    matches!(phase, Phase::Ready | Phase::Aborted)
}

/// Whether a mount that stands so was aborted.
pub(crate) fn is_phase_aborted(phase: Phase) -> bool
    ensures { result ≡ is_aborted phase }
{
    matches!(phase, Phase::Aborted)
}
