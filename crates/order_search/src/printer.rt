//! What takes the orders that are found.

ghost use Rattle.std.specs.Prelude.{◌++◌, ◌∷◌, [], ℕ, List, OnOk};

use thiserror::Error;

/// An order is not printed.
#[derive(Clone, Copy, Debug, PartialEq, Eq, Error)]
#[error("an order is not printed")]
pub struct NotPrinted;

/// What takes orders, each with its number from 1.
pub trait Printer {
    // From the one state to the other these were printed, in turn, and nothing else.
    ghost prints: { (old new : Self) → List (ℕ × List ℕ) → Type 0 };

    /// Prints an order's script.
    ///
    /// # Errors
    ///
    /// Where it is not printed whole.
    fn print(&mut self, number: u64, script: &[u8]) -> Result<(), NotPrinted>
        ensures { OnOk result (prints self.old self.new ((number, script.now) ∷ [])) };

    ghost stays: { (printer : Self) → prints printer printer [] };

    ghost goes_on: { (first mid last : Self) (orders more : List (ℕ × List ℕ)) →
        prints first mid orders → prints mid last more → prints first last (orders ++ more) };
}
