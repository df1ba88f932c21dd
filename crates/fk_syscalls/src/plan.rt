//! What a call's walks are for.

ghost use Rattle.std.specs.Prelude.{◌≡◌, IfOk, nat_eq};
ghost use Rattle.std.specs.List.{list_any};
ghost use Rattle.fuse_spec.specs.Calls.Walks.{files_of_plan};
ghost use Rattle.fk_syscalls.specs.Plans.{plan_of, IsSoundPlan};

use fuse_spec::{NoOpenFile, Operation};
use std::alloc::{AllocError, Allocator};

/// The operation at the end of a call's walks, on no open file. A node that it names is one to which an earlier walk
/// has led, or is none: then it is the one to which the last walk leads. `S` holds a name: borrowed from the call, or
/// owned.
pub(crate) type FinalOperation<S> = Operation<S, Option<u64>, NoOpenFile>;

/// What a call's walk is for: an operation at its end, or a second walk, along the words from a place on. `S` holds
/// words or a name: borrowed from the call, or owned.
#[derive(Drop)]
pub(crate) enum Plan<S> {
    Last(FinalOperation<S>),
    Rename {
        old: S,
        words: S,
        at: Option<usize>,
        new: S,
    },
    Link {
        words: S,
        at: Option<usize>,
        name: S,
    },
}

impl Plan<&[u8]> {
    /// The plan with a copy of its words and names.
    pub(crate) fn to_owned<A: Allocator + Copy>(
        self,
        alloc: A,
    ) -> Result<Plan<Vec<u8, A>>, AllocError>
        requires { IsSoundPlan (λ s. s.now) self }
        ensures same { IfOk result (λ plan. plan_of (λ s. s.items) plan ≡ plan_of (λ s. s.now) self.entry) }
        ensures sound { IfOk result (λ plan. IsSoundPlan (λ s. s.items) plan) }
    {
        Ok(match self {
            Plan::Last(operation) => Plan::Last(operation.to_owned(alloc)?),
            Plan::Rename {
                old,
                words,
                at,
                new,
            } => Plan::Rename {
                old: old.to_vec(alloc)?,
                words: words.to_vec(alloc)?,
                at,
                new: new.to_vec(alloc)?,
            },
            Plan::Link { words, at, name } => Plan::Link {
                words: words.to_vec(alloc)?,
                at,
                name: name.to_vec(alloc)?,
            },
        })
    }
}

impl<A: Allocator> Plan<Vec<u8, A>> {
    /// Whether the node is one that the first walk has led to.
    pub(crate) fn names_node(&self, node: u64) -> bool
        ensures { result ≡ list_any (nat_eq node) (files_of_plan (plan_of (λ s. s.items) self.now)) }
    {
        match self {
            Plan::Last(operation) => operation.names_node(node),
            Plan::Rename { .. } | Plan::Link { .. } => false,
        }
    }
}
