//! The exit status of a run that was judged.

ghost use Rattle.std.specs.Prelude.{◌≡◌, ◌<◌, ◌+◌, ◌⊎◌};

use fuse_text::FAULTS;
use fw_judged::FaultCounts;

/// The exit status of a run whose faults were counted: 6 where somebody broke a rule, and it ended well else.
pub fn status_with(status: u8, faults: FaultCounts) -> u8
    ensures fault { status ≡ 0 → 0 < faults.kernel + faults.server + faults.device → result ≡ 6 }
    ensures other { (status ≡ 0 → faults.kernel + faults.server + faults.device ≡ 0) → result ≡ status }
    ensures either { (result ≡ status) ⊎ ((status ≡ 0) × (result ≡ 6)) }
{
    if status == 0 && faults.has_fault() {
        FAULTS
    } else {
        status
    }
}

/// The same of a run whose answers were compared: 6 also where one is another than in the world beside.
pub fn status_beside(status: u8, faults: FaultCounts, differs: bool) -> u8
    ensures { (result ≡ status) ⊎ ((status ≡ 0) × (result ≡ 6)) }
{
    if status == 0 && differs {
        FAULTS
    } else {
        status_with(status, faults)
    }
}
