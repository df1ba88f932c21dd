//! Which verdicts are kept.

ghost use Rattle.std.specs.Prelude.{◌≡◌};
ghost use Rattle.joined_judge.specs.Judging as words;

use fuse_sessions::Fault;
use joined_sessions::is_certain;
use std::alloc::Allocator;

/// A verdict without a fault that is not certain.
fn certain_verdict(verdict: Option<Fault>) -> Option<Fault>
    ensures { result ≡ words.certain_verdict verdict }
{
    match verdict {
        Some(fault) => if is_certain(fault) { verdict } else { None },
        None => None,
    }
}

/// Leaves out of these the faults that are not certain.
fn keep_in(verdicts: &mut [Option<Fault>])
    ensures { verdicts.new ≡ words.certain_verdicts verdicts.old }
{
    for verdict in verdicts.iter_mut() {
        *verdict = certain_verdict(*verdict);
    }
}

/// Leaves out the faults that are not certain.
pub(crate) fn keep_certain<A: Allocator>(verdicts: &mut Vec<Option<Fault>, A>)
    ensures { verdicts.new.items ≡ words.certain_verdicts verdicts.old.items }
{
    keep_in(verdicts.as_mut_slice());
}
