//! What a call asks, as far as a right server may answer it otherwise than the world beside.

ghost use Rattle.std.specs.Prelude.{◌≡◌, ◌≢◌, ◌↔◌, ◌++◌, ◌∷◌, ℕ, List, IsTrue, MatchOption};
ghost use Rattle.fuse_spec.specs.Calls.Answers.{failed};
ghost use Rattle.fuse_spec.specs.Values.Numbers.{eexist, eisdir, enotempty};
ghost use Rattle.fk_syscalls.specs.Values.{answer_of};

use fw_world::{Answer, Call};
use std::alloc::{AllocError, Allocator};

/// EEXIST, EISDIR and ENOTEMPTY (errno.h).
const EEXIST: u32 = 17;

const EISDIR: u32 = 21;

const ENOTEMPTY: u32 = 39;

/// What the call asks that waits for its answer.
#[derive(Drop)]
pub(crate) enum Asked<A: Allocator> {
    /// A new file at a path.
    Create(Vec<u8, A>),
    /// What is at one path is moved to that of a directory above it.
    MoveAbove,
    /// Anything else.
    Other,
}

/// What stands behind the path of a directory, where a path begins with that.
fn rest_behind<'a>(path: &'a [u8], directory: &[u8]) -> Option<&'a [u8]>
    ensures { MatchOption result ((rest : List ℕ) → path.now ≢ directory.now ++ rest)
        (λ rest. path.now ≡ directory.now ++ rest.now) }
{
    path.strip_prefix(directory)
}

/// Whether a text begins with a slash.
fn begins_with_slash(text: &[u8]) -> bool
    ensures { IsTrue result ↔ ((rest : List ℕ) × (text.now ≡ 47 ∷ rest)) }
{
    match text {
        [first, ..] => *first == b'/',
        [] => false,
    }
}

/// Whether a path leads to a file below that of another.
fn is_below(path: &[u8], directory: &[u8]) -> bool
    ensures { IsTrue result ↔ ((rest : List ℕ) × (path.now ≡ directory.now ++ 47 ∷ rest)) }
{
    match rest_behind(path, directory) {
        Some(rest) => begins_with_slash(rest),
        None => false,
    }
}

impl<A: Allocator> Asked<A> {
    /// What a call asks.
    ///
    /// # Errors
    ///
    /// Out of memory for the path.
    pub(crate) fn by(alloc: A, call: &Call<'_>) -> Result<Self, AllocError> {
        match *call {
            Call::Create { path } => {
                let mut copy = Vec::new(alloc);
                copy.extend_from_slice(path)?;
                Ok(Asked::Create(copy))
            }
            Call::Rename { old, new } if is_below(old, new) => Ok(Asked::MoveAbove),
            _ => Ok(Asked::Other),
        }
    }
}

/// Whether an answer is this error.
fn is_errno<A: Allocator>(answer: &Answer<A>, wanted: u32) -> bool
    ensures { IsTrue result ↔ (answer_of answer.now ≡ failed wanted) }
{
    match answer {
        Answer::Failed { errno } => *errno == wanted,
        _ => false,
    }
}

/// Whether a server refuses with ENOTEMPTY what is moved onto a directory above it, and the world beside with EISDIR: it
/// looks first at which kind of file is replaced, Linux at where that is.
pub(crate) fn is_refused_as_above<A: Allocator>(answer: &Answer<A>, here: &Answer<A>) -> bool
    ensures { IsTrue result ↔ ((answer_of answer.now ≡ failed enotempty) × (answer_of here.now ≡ failed eisdir)) }
{
    is_errno(answer, ENOTEMPTY) && is_errno(here, EISDIR)
}

/// Whether the world beside refuses a new file as its name is there, and a server does not.
pub(crate) fn is_made_otherwise<A: Allocator>(answer: &Answer<A>, here: &Answer<A>) -> bool
    ensures { IsTrue result ↔ ((answer_of here.now ≡ failed eexist) × (answer_of answer.now ≢ failed eexist)) }
{
    is_errno(here, EEXIST) && !is_errno(answer, EEXIST)
}
