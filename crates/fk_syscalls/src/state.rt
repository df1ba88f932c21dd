//! Unanswered calls.

ghost use Rattle.std.specs.Prelude.{◌≡◌, ℕ, List, IfOk, is_some, nat_eq};
ghost use Rattle.std.specs.List.{list_any};
ghost use Rattle.fuse_spec.specs.Kernel.Kernel.{nodes_of_state};
ghost use Rattle.fuse_spec.specs.Files.Operations as op;
ghost use Rattle.fuse_spec.specs.Calls.Paths.{Name};
ghost use Rattle.fuse_spec.specs.Calls.Vfs.{Vfs, walking, using, asked, walks_on};
ghost use Rattle.fuse_spec.specs.Calls.Walks.{WalkPlan, last, go, arrived};
ghost use Rattle.fk_syscalls.specs.Words.{words_from, AreWords};
ghost use Rattle.fk_syscalls.specs.Plans.{plan_of, IsSoundFinal, IsSoundPlan};
ghost use Rattle.fk_syscalls.specs.States.{walking_at, IsSoundLentCall, IsWalking, StandsAt, used_by, HasCachedNames};
ghost use Rattle.fk_syscalls.specs.NewNames.{with_new_name};
ghost use Rattle.fk_syscalls.specs.Walks.{known};
ghost use Rattle.fk_syscalls.specs.Values.{AsksWord, comes_to};
ghost use Rattle.fuse_spec.specs.Files.Operations.{operation_of};

use crate::new_name::{NewName, walk_past};
use crate::plan::{FinalOperation, Plan};
use crate::walk::walk;
use crate::words::{next_place, word_at};
use fk_dentry::Bindings;
use fuse_spec::errno::ENOENT;
use fuse_spec::{Opened, Operation};
use std::alloc::{AllocError, Allocator, Global};
use std::marker::Model;

/// The root's node.
pub(crate) const ROOT: u64 = 1;

/// What a call waits for: the end of its walks, or bytes of an open file.
#[derive(Drop)]
pub(crate) enum WaitsFor<A: Allocator> {
    Walks(Plan<Vec<u8, A>>),
    Reads {
        open_call: u64,
        fh: u64,
        offset: u64,
        size: u32,
    },
    Writes {
        open_call: u64,
        fh: u64,
        offset: u64,
        bytes: Vec<u8, A>,
    },
}

/// An unanswered call. It stands at a node, and asks for the next word of its walk; or, where no word is left, for its
/// operation.
#[derive(Drop)]
pub struct CallState<A: Allocator = Global> {
    node: u64,
    words: Vec<u8, A>,
    /// Where in `words` the walk stands, if a word is left.
    at: Option<usize>,
    waits_for: WaitsFor<A>,
}

impl<A: Allocator> Model for CallState<A> {
    ghost use Rattle.std.specs.Coded.{codes};
    ghost use Rattle.fuse_spec.specs.Calls.Vfs.{CallState as State};
    ghost use Rattle.fuse_spec.specs.declared.Opened.{Opened};
    ghost use Rattle.fk_syscalls.specs.Words.{words_from};
    ghost use Rattle.fk_syscalls.specs.States.{state_of, IsSoundCall};

    ghost Value = { State Opened };

    ghost coded = { Prim.hlevel (codes) };

    ghost view = { λ s. state_of s.node (words_from s.words.items s.at) s.waits_for };

    ghost invariant = { λ s. IsSoundCall s.words.items s.at s.waits_for };
}

/// Where a step leaves a call.
#[derive(Drop)]
pub enum Next<A: Allocator = Global> {
    /// It asks anew.
    Ask(CallState<A>),
    /// It is answered by an error number.
    Answer { errno: u32 },
}

/// The second walk of a call, from the root, as far as the cached names lead. Takes no memory.
fn second_walk<A: Allocator + Copy>(
    names: &Bindings<A>,
    clock: u64,
    words: Vec<u8, A>,
    at: Option<usize>,
    operation: FinalOperation<Vec<u8, A>>,
) -> Next<A>
    requires words { AreWords words.items at }
    requires sound { IsSoundFinal (λ s. s.items) operation }
    ensures { (c : Vfs Opened) (call : ℕ) → HasCachedNames c names.now.names clock
        → walks_on c call c.root (words_from words.items at) (last (operation_of (λ s. s.items) operation))
        ≡ comes_to c call result }
{
    match walk(names, clock, ROOT, &words, at) {
        Some(stop) => Next::Ask(CallState {
            node: stop.node,
            words,
            at: stop.at,
            waits_for: WaitsFor::Walks(Plan::Last(operation)),
        }),
        None => Next::Answer { errno: ENOENT },
    }
}

/// The first walk has come to a node: the call asks its operation there, or sets out on its second walk.
#[inline(always)]
fn walk_finished<A: Allocator + Copy>(
    names: &Bindings<A>,
    clock: u64,
    node: u64,
    words: Vec<u8, A>,
    plan: Plan<Vec<u8, A>>,
) -> Next<A>
    requires { IsSoundPlan (λ s. s.items) plan }
    ensures { (c : Vfs Opened) (call from : ℕ) (walked : List Name) → HasCachedNames c names.now.names clock
        → go (known names.now.names clock) from walked ≡ arrived node
        → walks_on c call from walked (plan_of (λ s. s.items) plan) ≡ comes_to c call result }
{
    match plan {
        Plan::Last(operation) => Next::Ask(CallState {
            node,
            words,
            at: None,
            waits_for: WaitsFor::Walks(Plan::Last(operation)),
        }),
        Plan::Rename {
            old,
            words,
            at,
            new,
        } => {
            let operation = Operation::Rename {
                directory: Some(node),
                old,
                newdir: None,
                new,
            };
            second_walk(names, clock, words, at, operation)
        }
        Plan::Link { words, at, name } => {
            let operation = Operation::Link {
                node: Some(node),
                directory: None,
                name,
            };
            second_walk(names, clock, words, at, operation)
        }
    }
}

/// The open file of a node and a file handle.
fn opened(nodeid: u64, fh: u64) -> Opened
    ensures { result ≡ record { nodeid = nodeid; fh = fh } }
{
    Opened { nodeid, fh }
}

impl<A: Allocator + Copy> CallState<A> {
    /// A call at a node, with a copy of the words that are left.
    #[inline(always)]
    pub(crate) fn new(
        alloc: A,
        node: u64,
        words: &[u8],
        at: Option<usize>,
        plan: Plan<&[u8]>,
    ) -> Result<Self, AllocError>
        requires { IsSoundLentCall words.now at plan }
        ensures { IfOk result (λ state. state ≡ walking_at node (words_from words.now at)
            (plan_of (λ s. s.now) plan.entry)) }
    {
        let plan = plan.to_owned(alloc)?;
        match at {
            Some(place) => Ok(CallState {
                node,
                words: words[place..].to_vec(alloc)?,
                at: Some(0),
                waits_for: WaitsFor::Walks(plan),
            }),
            None => Ok(CallState {
                node,
                words: Vec::new(alloc),
                at: None,
                waits_for: WaitsFor::Walks(plan),
            }),
        }
    }

    /// A call that reads bytes of an open file.
    pub(crate) fn reads(alloc: A, open_call: u64, opened: Opened, offset: u64, size: u32) -> Self
        ensures { result ≡ using open_call (op.read opened offset size) }
    {
        let Opened { nodeid, fh } = opened;
        CallState {
            node: nodeid,
            words: Vec::new(alloc),
            at: None,
            waits_for: WaitsFor::Reads {
                open_call,
                fh,
                offset,
                size,
            },
        }
    }

    /// A call that puts a copy of these bytes into an open file.
    pub(crate) fn writes(
        alloc: A,
        open_call: u64,
        opened: Opened,
        offset: u64,
        bytes: &[u8],
    ) -> Result<Self, AllocError>
        ensures { IfOk result (λ state. state ≡ using open_call (op.write opened offset bytes.now)) }
    {
        let Opened { nodeid, fh } = opened;
        let bytes = bytes.to_vec(alloc)?;
        Ok(CallState {
            node: nodeid,
            words: Vec::new(alloc),
            at: None,
            waits_for: WaitsFor::Writes {
                open_call,
                fh,
                offset,
                bytes,
            },
        })
    }

    /// The word that it asked for leads to this node. It walks on as far as the cached names lead at this time, in
    /// milliseconds. Takes no memory.
    #[inline(always)]
    pub fn advance(self, names: &Bindings<A>, clock: u64, node: u64) -> Next<A>
        requires { IsWalking self }
        ensures { (c : Vfs Opened) (call directory : ℕ) (word : Name) (words : List Name) (plan : WalkPlan ℕ)
            → HasCachedNames c names.now.names clock → self ≡ walking directory word words plan
            → walks_on c call node words plan ≡ comes_to c call result }
    {
        let CallState {
            node: _,
            words,
            at,
            waits_for,
        } = self;
        let WaitsFor::Walks(plan) = waits_for else {
            // It never comes to this: only a walk has a word left.
            return Next::Answer { errno: ENOENT };
        };
        let next = next_place(&words, at);
        let Some(stop) = walk(names, clock, node, &words, next) else {
            return Next::Answer { errno: ENOENT };
        };
        if stop.at.is_some() {
            return Next::Ask(CallState {
                node: stop.node,
                words,
                at: stop.at,
                waits_for: WaitsFor::Walks(plan),
            });
        }
        walk_finished(names, clock, stop.node, words, plan)
    }

    /// Whether it would ask anew, were the word that it asked for bound so and found.
    pub fn would_ask(&self, names: &Bindings<A>, clock: u64, new: &NewName<'_>) -> bool
        requires { IsWalking self.now }
        ensures { (c : Vfs Opened) (call directory : ℕ) (word : Name) (words : List Name) (plan : WalkPlan ℕ)
            → HasCachedNames c (with_new_name names.now.names new.now) clock → self.now ≡ walking directory word words plan
            → is_some (walks_on c call new.now.node words plan).operation ≡ result }
    {
        let WaitsFor::Walks(plan) = &self.waits_for else {
            return false;
        };
        let next = next_place(&self.words, self.at);
        let Some(stop) = walk_past(names, new, clock, new.node, &self.words, next) else {
            return false;
        };
        if stop.at.is_some() {
            return true;
        }
        match plan {
            Plan::Last(_) => true,
            Plan::Rename { words, at, .. } => {
                walk_past(names, new, clock, ROOT, words, *at).is_some()
            }
            Plan::Link { words, at, .. } => {
                walk_past(names, new, clock, ROOT, words, *at).is_some()
            }
        }
    }

    /// The operation that it asks.
    #[inline(always)]
    pub fn asks(&self) -> Operation<&[u8]>
        ensures operation { operation_of (λ s. s.now) result ≡ asked self.now }
        ensures stands { StandsAt (operation_of (λ s. s.now) result) self.now }
        ensures word { AsksWord result }
    {
        match &self.waits_for {
            WaitsFor::Walks(plan) => {
                if let Some(place) = self.at {
                    let (name, _) = word_at(&self.words, place);
                    return Operation::Lookup {
                        directory: self.node,
                        name,
                    };
                }
                let Plan::Last(operation) = plan else {
                    // It never comes to this: a second walk follows the first at once.
                    return Operation::Getattr { node: self.node };
                };
                operation.at(self.node)
            }
            WaitsFor::Reads {
                fh,
                offset,
                size,
                ..
            } => Operation::Read {
                opened: opened(self.node, *fh),
                offset: *offset,
                size: *size,
            },
            WaitsFor::Writes {
                fh,
                offset,
                bytes,
                ..
            } => Operation::Write {
                opened: opened(self.node, *fh),
                offset: *offset,
                bytes,
            },
        }
    }

    /// Whether it stands on the node or names it.
    pub fn names_node(&self, node: u64) -> bool
        ensures { result ≡ list_any (nat_eq node) (nodes_of_state self.now) }
    {
        if self.node == node {
            return true;
        }
        match &self.waits_for {
            WaitsFor::Walks(plan) => plan.names_node(node),
            WaitsFor::Reads { .. } | WaitsFor::Writes { .. } => false,
        }
    }

    /// The open file that it reads or writes, by its number.
    pub fn open_call(&self) -> Option<u64>
        ensures { result ≡ used_by self.now }
    {
        match &self.waits_for {
            WaitsFor::Walks(_) => None,
            WaitsFor::Reads { open_call, .. } | WaitsFor::Writes { open_call, .. } => Some(
                *open_call,
            ),
        }
    }
}
