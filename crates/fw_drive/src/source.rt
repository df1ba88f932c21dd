//! Where lines come from, one at a time.

ghost use Rattle.std.specs.Prelude.{◌++◌, ◌∷◌, [], ℕ, IfOk, List, MatchBool};
ghost use Rattle.std.specs.Io.KnownBytes.{Keeps as KeepsContents};

use crate::view::KernelView;
use fuse_spec::Refusal;
use std::alloc::Allocator;
use std::io::Write;
use thiserror::Error;

/// Why a source gives no line where it is not at its end.
#[derive(Clone, Copy, Debug, PartialEq, Eq, Error)]
pub enum NoLine {
    #[error("the source cannot be read")]
    CannotRead,
    #[error("out of memory")]
    NoMemory,
    #[error("the output refused")]
    OutputRefused,
    /// A world that the source asks refuses what it cannot go on without.
    #[error("refused")]
    Refused(Refusal),
}

/// What the kernel has just then.
#[derive(Clone, Copy, Debug, PartialEq, Eq)]
pub struct Standing {
    /// How many calls wait for their answers.
    pub calls: usize,
    /// How many pending requests may be read: none while an INTERRUPT is queued.
    pub pending: u64,
    /// Whether an INTERRUPT is queued.
    pub is_interrupting: bool,
    /// Whether a forget may be read.
    pub is_forgetting: bool,
    /// The number that the next call gets.
    pub next_call: u64,
}

/// What gives the lines of a script one at a time, each once the one before was run, beside an output.
pub trait LineSource<O: Write> {
    // From the one state to the other these lines were given, in turn, and no other.
    ghost gives: { (old new : Self) → List (List ℕ) → Type 0 };

    // It has no more lines.
    ghost is_over: { Self → Type 0 };

    /// Gives the next line, without a line feed, in place of what the buffer has. It may depend on what the kernel has that
    /// is to run it. Says whether there was one.
    ///
    /// # Errors
    ///
    /// Where it cannot say what the next line is.
    fn next_line<A: Allocator, V: KernelView>(
        &mut self,
        standing: Standing,
        kernel: &V,
        out: &mut O,
        line: &mut Vec<u8, A>,
    ) -> Result<bool, NoLine>
        ensures silent { KeepsContents (O.contents out.old) (O.contents out.new) }
        ensures given { IfOk result (λ is_given. MatchBool is_given (gives self.old self.new (line.new.items ∷ []))
            (gives self.old self.new [] × is_over self.new)) };

    ghost stays: { (source : Self) → gives source source [] };

    ghost goes_on: { (first mid last : Self) (lines more : List (List ℕ)) →
        gives first mid lines → gives mid last more → gives first last (lines ++ more) };
}
