//! Which faults are asked for.

ghost use Rattle.std.specs.Prelude.{◌≡◌};
ghost use Rattle.fw_check.specs.Asked as words;

use crate::tallies::is_of;
use fuse_sessions::{Fault, Party};
use std::alloc::Allocator;

/// A verdict without a fault that is not asked for.
fn asked_verdict(only: Option<Party>, verdict: Option<Fault>) -> Option<Fault>
    ensures { result ≡ words.asked_verdict only verdict }
{
    match only {
        None => verdict,
        Some(party) => if is_of(party, verdict) { verdict } else { None },
    }
}

/// Leaves out of these the faults that are not asked for.
fn keep_in(only: Option<Party>, verdicts: &mut [Option<Fault>])
    ensures { verdicts.new ≡ words.asked_verdicts only verdicts.old }
{
    for verdict in verdicts.iter_mut() {
        *verdict = asked_verdict(only, *verdict);
    }
}

/// Leaves out the faults that are not asked for.
pub(crate) fn keep_asked<A: Allocator>(only: Option<Party>, verdicts: &mut Vec<Option<Fault>, A>)
    ensures { verdicts.new.items ≡ words.asked_verdicts only verdicts.old.items }
{
    keep_in(only, verdicts.as_mut_slice());
}
