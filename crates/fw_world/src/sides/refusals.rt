//! Which refusal an event has where memory ran out for it.

ghost use Rattle.std.specs.Prelude.{◌≡◌};
ghost use Rattle.fuse_spec.specs.Kernel.Refusals.{or_no_memory};

use fuse_spec::Refusal;

/// The refusal that kernel or server would give, or else out of memory, which is judged last.
pub(super) fn refusal_or_no_memory(judged: Option<Refusal>) -> Refusal
    ensures { result ≡ or_no_memory judged }
{
    judged.unwrap_or(Refusal::NoMemory)
}
