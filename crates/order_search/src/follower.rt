//! What follows choices from their beginning.

ghost use Rattle.std.specs.Prelude.{ℕ, IfOk, List};

use crate::choice::{Choice, Standing};
use std::alloc::Allocator;
use thiserror::Error;

/// Why choices are not followed.
#[derive(Clone, Copy, Debug, PartialEq, Eq, Error)]
pub enum NotFollowed {
    #[error("too many messages")]
    TooLong,
    #[error("out of memory")]
    NoMemory,
}

/// What follows choices from the beginning of a file, each time anew.
pub trait Follower {
    ghost use Rattle.order_search.specs.declared.choice.Choice.{Choice};
    ghost use Rattle.order_search.specs.declared.choice.Standing.{Standing};

    // These choices lead there, and what they do has this script.
    ghost leads: { Self → List Choice → Standing → List ℕ → Type 0 };

    /// Follows choices. Their script comes in place of what the buffer has.
    ///
    /// # Errors
    ///
    /// Where memory runs out, or there are too many messages.
    fn follow<A: Allocator>(
        &self,
        choices: &[Choice],
        script: &mut Vec<u8, A>,
    ) -> Result<Standing, NotFollowed>
        ensures { IfOk result (λ standing. leads self.now choices.now standing script.new.items) };
}
