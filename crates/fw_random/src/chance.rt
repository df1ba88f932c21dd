//! Numbers that a seed chooses.

ghost use Rattle.std.specs.Prelude.{◌≡◌, length, nat_eq, slice_get, unwrap_or};
ghost use Rattle.rand_pcg.specs.Pcg.{pcg32};
ghost use Rattle.fw_random.specs.Chances.{chosen_below, of_seed};

use rand_core::utils::NextWord;
use rand_pcg::Pcg32;

/// The stream of numbers, of those that a seed has.
const STREAM: u64 = 731;

/// What chooses numbers. One seed chooses one list of them.
#[derive(Drop)]
pub(crate) struct Chance {
    generator: Pcg32,
}

impl Chance {
    pub(crate) fn new(seed: u64) -> Self
        ensures { result.generator ≡ of_seed seed }
    {
        Chance {
            generator: Pcg32::new(seed, STREAM),
        }
    }

    /// A number below another one, and 0 below 0.
    pub(crate) fn below(&mut self, end: u64) -> u64
        ensures number { result ≡ chosen_below end self.old.generator }
        ensures behind { self.new.generator ≡ (pcg32 self.old.generator).1 }
    {
        let word = u64::from(self.generator.next_word());
        if end == 0 { 0 } else { word % end }
    }

    /// Whether one of so many numbers comes, which are all as likely.
    pub(crate) fn is_one_in(&mut self, count: u64) -> bool
        ensures number { result ≡ nat_eq (chosen_below count self.old.generator) 0 }
        ensures behind { self.new.generator ≡ (pcg32 self.old.generator).1 }
    {
        self.below(count) == 0
    }

    /// One of some numbers, or 0 of none.
    pub(crate) fn one_of(&mut self, numbers: &[u64]) -> u64
        ensures number { result ≡ unwrap_or (slice_get numbers.now (chosen_below (length numbers.now) self.old.generator)) 0 }
        ensures behind { self.new.generator ≡ (pcg32 self.old.generator).1 }
    {
        let place = self.below(numbers.len() as u64) as usize;
        match numbers.get(place) {
            Some(number) => *number,
            None => 0,
        }
    }
}
