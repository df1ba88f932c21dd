//! Walks along cached names.

ghost use Rattle.std.specs.Prelude.{◌≡◌, IfSome, MatchOption};
ghost use Rattle.fuse_spec.specs.Calls.Walks.{go, missing};
ghost use Rattle.fk_syscalls.specs.Words.{words_from, AreWords};
ghost use Rattle.fk_syscalls.specs.Walks.{known, stop_at};

use crate::words::word_at;
use fk_dentry::{Bindings, Found};
use std::alloc::Allocator;

/// Where cached names leave a walk: at a node, with the words from a place on still to be walked, if some are.
#[derive(Clone, Copy)]
pub(crate) struct Stop {
    pub node: u64,
    pub at: Option<usize>,
}

/// Walks from a node along the words from a place on, as far as cached names lead at this time. None where one leads
/// to no file.
pub(crate) fn walk<A: Allocator + Copy>(
    names: &Bindings<A>,
    clock: u64,
    from: u64,
    words: &[u8],
    at: Option<usize>,
) -> Option<Stop>
    requires { AreWords words.now at }
    ensures stop { MatchOption result (go (known names.now.names clock) from (words_from words.now at) ≡ missing)
        (λ stop. go (known names.now.names clock) from (words_from words.now at)
        ≡ stop_at stop.node (words_from words.now stop.at)) }
    ensures left { IfSome result (λ stop. AreWords words.now stop.at) }
{
    let mut stop = Stop { node: from, at };
    while let Some(place) = stop.at {
        let (name, next) = word_at(words, place);
        match names.find(stop.node, name, clock) {
            Found::Node(node) => stop = Stop { node, at: next },
            Found::Missing => return None,
            Found::Unknown => return Some(stop),
        }
    }
    Some(stop)
}
