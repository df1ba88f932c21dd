//! The counts of faults.

ghost use Rattle.std.specs.Prelude.{◌≡◌, ◌+◌, ◌<◌, ◌↔◌, ◌++◌, [], List, Option, IfSome, IsTrue};
ghost use Rattle.fuse_sessions.specs.declared.fault.Fault.{Fault};
ghost use Rattle.fw_judged.specs.Judged.{AreCounted};

use fuse_sessions::{Fault, Party};
use fw_check::faults_after;

/// How many faults each party has, and how many warnings there are.
#[derive(Clone, Copy, Debug, PartialEq, Eq)]
pub struct FaultCounts {
    pub kernel: u64,
    pub server: u64,
    pub device: u64,
    pub warnings: u64,
}

impl FaultCounts {
    /// The counts of nothing.
    pub(crate) fn new() -> Self
        ensures { AreCounted [] result }
    {
        FaultCounts {
            kernel: 0,
            server: 0,
            device: 0,
            warnings: 0,
        }
    }

    /// The counts with more verdicts; `None` past 64 bits.
    pub(crate) fn after(self, verdicts: &[Option<Fault>]) -> Option<FaultCounts>
        ensures { IfSome result (λ more. (before : List (Option Fault)) → AreCounted before self
            → AreCounted (before ++ verdicts.now) more) }
    {
        Some(FaultCounts {
            kernel: faults_after(self.kernel, Party::Kernel, verdicts)?,
            server: faults_after(self.server, Party::Server, verdicts)?,
            device: faults_after(self.device, Party::Device, verdicts)?,
            warnings: faults_after(self.warnings, Party::Nobody, verdicts)?,
        })
    }

    /// Whether somebody broke a rule. A warning is nobody's fault.
    pub fn has_fault(self) -> bool
        ensures { IsTrue result ↔ (0 < self.kernel + self.server + self.device) }
    {
        self.kernel > 0 || self.server > 0 || self.device > 0
    }
}
