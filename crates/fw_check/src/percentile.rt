//! How long replies took, by rank.

ghost use Rattle.std.specs.Prelude.{◌≡◌, ◌≤◌, ◌<◌, ℕ, List, Some, length};
ghost use Rattle.std.specs.List.Sorted.{IsNonDecreasing, IsPermutation};
ghost use Rattle.fw_check.specs.Summary as words;

/// Times of replies by rank.
#[derive(Clone, Copy, Debug, PartialEq, Eq)]
pub(crate) struct Percentiles {
    /// The smallest time such that half of the times or more are no longer.
    pub(crate) median: Option<u64>,
    /// The same of 90 of 100.
    pub(crate) p90: Option<u64>,
    /// The longest.
    pub(crate) max: Option<u64>,
}

/// The percentiles of no times.
const NO_PERCENTILES: Percentiles = Percentiles {
    median: None,
    p90: None,
    max: None,
};

/// The time in ascending times than which so many are no longer, itself one of them.
fn at_rank(times: &[u64], rank: usize) -> u64
    requires sorted { IsNonDecreasing times.now }
    requires within { rank ≤ length times.now }
    requires some { 0 < rank }
    ensures { (all : List ℕ) → IsPermutation all times.now → words.at_rank rank all ≡ Some result }
{
    times[rank - 1]
}

/// The median, the 90th percentile and the longest of times, which are put in order.
pub(crate) fn percentiles_of(times: &mut [u64]) -> Percentiles
    ensures { result ≡ words.percentiles_of times.old }
{
    if times.is_empty() {
        return NO_PERCENTILES;
    }
    times.sort_unstable();
    let count = times.len();
    Percentiles {
        median: Some(at_rank(times, count - count / 2)),
        p90: Some(at_rank(times, count - count / 10)),
        max: Some(at_rank(times, count)),
    }
}
