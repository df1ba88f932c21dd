//! What a request asks.

ghost use Rattle.std.specs.Prelude.{◌≡◌, ◌∷◌, [], flat_map, nat_eq, option_to_list};
ghost use Rattle.std.specs.List.{list_any};

use crate::Opened;
use std::alloc::{AllocError, Allocator};

/// No open file: what an operation at the end of a walk names in the place of one.
#[derive(Clone, Copy, Drop)]
pub enum NoOpenFile {}

/// One operation of a call, by its opcode (linux/fuse.h, enum fuse_opcode). `S` holds a name or bytes: borrowed from a
/// call or from a frame, or owned. `N` names a file, by its nodeid where nothing else is said, and `O` an open file.
#[derive(Debug, Drop)]
pub enum Operation<S, N = u64, O = Opened> {
    Lookup {
        directory: N,
        name: S,
    },
    Getattr {
        node: N,
    },
    Mkdir {
        directory: N,
        name: S,
    },
    Create {
        directory: N,
        name: S,
    },
    Unlink {
        directory: N,
        name: S,
    },
    Rmdir {
        directory: N,
        name: S,
    },
    Rename {
        directory: N,
        old: S,
        newdir: N,
        new: S,
    },
    /// One more name, in a directory, for a node.
    Link {
        node: N,
        directory: N,
        name: S,
    },
    Open {
        node: N,
    },
    /// The names behind an offset, in at most this many bytes.
    Readdir {
        directory: N,
        after: u64,
        size: u32,
    },
    /// The names behind an offset, each with its file, in at most this many bytes.
    Readdirplus {
        directory: N,
        after: u64,
        size: u32,
    },
    Read {
        opened: O,
        offset: u64,
        size: u32,
    },
    Write {
        opened: O,
        offset: u64,
        bytes: S,
    },
}

impl<S> Operation<S> {
    ghost use Rattle.std.specs.Prelude.{◌≡◌};
    ghost use Rattle.fuse_spec.specs.Files.Operations.{body_node, header_node};
    ghost use Rattle.fuse_spec.specs.Files.OwnedOperations.{IsEntryPlace};

    /// The node of the request's header: of a name its directory.
    #[inline(always)]
    pub fn header_node(&self) -> u64
        ensures { result ≡ header_node self.now }
    {
        match self {
            Operation::Lookup { directory, .. }
            | Operation::Mkdir { directory, .. }
            | Operation::Create { directory, .. }
            | Operation::Unlink { directory, .. }
            | Operation::Rmdir { directory, .. }
            | Operation::Rename { directory, .. }
            | Operation::Link { directory, .. }
            | Operation::Readdir { directory, .. }
            | Operation::Readdirplus { directory, .. } => *directory,
            Operation::Getattr { node } | Operation::Open { node } => *node,
            Operation::Read { opened, .. } | Operation::Write { opened, .. } => opened.nodeid,
        }
    }

    /// The node that the request's body names besides: of a RENAME the directory of the new name, of a LINK the file
    /// that gets one more name.
    pub fn body_node(&self) -> Option<u64>
        ensures { result ≡ body_node self.now }
    {
        match self {
            Operation::Rename { newdir, .. } => Some(*newdir),
            Operation::Link { node, .. } => Some(*node),
            _ => None,
        }
    }

    /// The directory and the name that the entry of a reply is of, where the reply to the operation has one.
    #[inline(always)]
    pub fn entry_place(&self) -> Option<(u64, &S)>
        ensures { IsEntryPlace self.now result }
    {
        match self {
            Operation::Lookup { directory, name }
            | Operation::Mkdir { directory, name }
            | Operation::Create { directory, name }
            | Operation::Link {
                directory,
                name,
                ..
            } => Some((*directory, name)),
            _ => None,
        }
    }
}

impl<'a, N: Copy, O: Copy> Operation<&'a [u8], N, O> {
    ghost use Rattle.std.specs.Prelude.{◌≡◌, true, IfOk};
    ghost use Rattle.fuse_spec.specs.Files.Operations.{operation_of};
    ghost use Rattle.fuse_spec.specs.Files.OwnedOperations.{has_more, is_bare};

    /// The operation with a copy of its names and bytes.
    ///
    /// # Errors
    ///
    /// Out of memory.
    pub fn to_owned<A: Allocator + Copy>(
        &self,
        alloc: A,
    ) -> Result<Operation<Vec<u8, A>, N, O>, AllocError>
        ensures { IfOk result (λ owned. operation_of (λ s. s.items) owned ≡ operation_of (λ s. s.now) self.now) }
    {
        match *self {
            Operation::Lookup { directory, name } => {
                let name = name.to_vec(alloc)?;
                Ok(Operation::Lookup { directory, name })
            }
            Operation::Mkdir { directory, name } => {
                let name = name.to_vec(alloc)?;
                Ok(Operation::Mkdir { directory, name })
            }
            Operation::Create { directory, name } => {
                let name = name.to_vec(alloc)?;
                Ok(Operation::Create { directory, name })
            }
            Operation::Unlink { directory, name } => {
                let name = name.to_vec(alloc)?;
                Ok(Operation::Unlink { directory, name })
            }
            Operation::Rmdir { directory, name } => {
                let name = name.to_vec(alloc)?;
                Ok(Operation::Rmdir { directory, name })
            }
            Operation::Rename { .. } | Operation::Link { .. } | Operation::Write { .. } => {
                self.to_owned_with_more(alloc)
            }
            _ => Ok(self.to_owned_bare()),
        }
    }

    /// As `to_owned`, for an operation on two files, or with bytes to write.
    fn to_owned_with_more<A: Allocator + Copy>(
        &self,
        alloc: A,
    ) -> Result<Operation<Vec<u8, A>, N, O>, AllocError>
        requires { has_more self.now ≡ true }
        ensures { IfOk result (λ owned. operation_of (λ s. s.items) owned ≡ operation_of (λ s. s.now) self.now) }
    {
        match *self {
            Operation::Rename {
                directory,
                old,
                newdir,
                new,
            } => Ok(Operation::Rename {
                directory,
                old: old.to_vec(alloc)?,
                newdir,
                new: new.to_vec(alloc)?,
            }),
            Operation::Link {
                node,
                directory,
                name,
            } => Ok(Operation::Link {
                node,
                directory,
                name: name.to_vec(alloc)?,
            }),
            Operation::Write {
                opened,
                offset,
                bytes,
            } => Ok(Operation::Write {
                opened,
                offset,
                bytes: bytes.to_vec(alloc)?,
            }),
            _ => unreachable!(),
        }
    }

    /// As `to_owned`, for an operation with no name and no bytes.
    fn to_owned_bare<A: Allocator>(&self) -> Operation<Vec<u8, A>, N, O>
        requires { is_bare self.now ≡ true }
        ensures { operation_of (λ s. s.items) result ≡ operation_of (λ s. s.now) self.now }
    {
        match *self {
            Operation::Getattr { node } => Operation::Getattr { node },
            Operation::Open { node } => Operation::Open { node },
            Operation::Readdir {
                directory,
                after,
                size,
            } => Operation::Readdir {
                directory,
                after,
                size,
            },
            Operation::Readdirplus {
                directory,
                after,
                size,
            } => Operation::Readdirplus {
                directory,
                after,
                size,
            },
            Operation::Read {
                opened,
                offset,
                size,
            } => Operation::Read {
                opened,
                offset,
                size,
            },
            _ => unreachable!(),
        }
    }
}

impl<A: Allocator> Operation<Vec<u8, A>, Option<u64>, NoOpenFile> {
    ghost use Rattle.std.specs.Prelude.{◌≡◌, true};
    ghost use Rattle.fuse_spec.specs.Calls.Walks.{operation_at};
    ghost use Rattle.fuse_spec.specs.Files.Operations.{operation_of};
    ghost use Rattle.fuse_spec.specs.Files.OwnedOperations.{has_more};

    /// The operation that is asked once the last walk has led to a node. Its names are borrowed.
    pub fn at(&self, node: u64) -> Operation<&[u8]>
        ensures { operation_of (λ s. s.now) result ≡ operation_at (operation_of (λ s. s.items) self.now) node }
    {
        let directory = self.first_named().unwrap_or(node);
        match self {
            Operation::Lookup { name, .. } => Operation::Lookup { directory, name },
            Operation::Getattr { .. } => Operation::Getattr { node: directory },
            Operation::Mkdir { name, .. } => Operation::Mkdir { directory, name },
            Operation::Create { name, .. } => Operation::Create { directory, name },
            Operation::Unlink { name, .. } => Operation::Unlink { directory, name },
            Operation::Rmdir { name, .. } => Operation::Rmdir { directory, name },
            Operation::Rename { .. } | Operation::Link { .. } => self.at_two(node),
            Operation::Open { .. } => Operation::Open { node: directory },
            Operation::Readdir { after, size, .. } => Operation::Readdir {
                directory,
                after: *after,
                size: *size,
            },
            Operation::Readdirplus { after, size, .. } => Operation::Readdirplus {
                directory,
                after: *after,
                size: *size,
            },
            Operation::Read { opened, .. } | Operation::Write { opened, .. } => match *opened {},
        }
    }

    /// As `at`, for an operation on two files.
    fn at_two(&self, node: u64) -> Operation<&[u8]>
        requires { has_more self.now ≡ true }
        ensures { operation_of (λ s. s.now) result ≡ operation_at (operation_of (λ s. s.items) self.now) node }
    {
        match self {
            Operation::Rename {
                directory,
                old,
                newdir,
                new,
            } => Operation::Rename {
                directory: directory.unwrap_or(node),
                old,
                newdir: newdir.unwrap_or(node),
                new,
            },
            Operation::Link {
                node: linked,
                directory,
                name,
            } => Operation::Link {
                node: linked.unwrap_or(node),
                directory: directory.unwrap_or(node),
                name,
            },
            Operation::Write { opened, .. } => match *opened {},
            _ => unreachable!(),
        }
    }
}

impl<S> Operation<S, Option<u64>, NoOpenFile> {
    ghost use Rattle.std.specs.Prelude.{◌≡◌, ℕ, List, nat_eq};
    ghost use Rattle.std.specs.List.{list_any};
    ghost use Rattle.fuse_spec.specs.Calls.Walks.{files_of_plan, last};
    ghost use Rattle.fuse_spec.specs.Files.Operations.{operation_of};
    ghost use Rattle.fuse_spec.specs.Files.OwnedOperations.{first_named};

    /// Whether an earlier walk has led to the node.
    pub fn names_node(&self, node: u64) -> bool
        ensures { (bytes_of : S → List ℕ) → result
            ≡ list_any (nat_eq node) (files_of_plan (last (operation_of bytes_of self.now))) }
    {
        match self {
            Operation::Rename {
                directory,
                newdir,
                ..
            } => is_named(*directory, *newdir, node),
            Operation::Link {
                node: linked,
                directory,
                ..
            } => is_named(*directory, *linked, node),
            _ => is_named(self.first_named(), None, node),
        }
    }

    /// The file of the request's header, if an earlier walk has led to it.
    fn first_named(&self) -> Option<u64>
        ensures { result ≡ first_named self.now }
    {
        match self {
            Operation::Lookup { directory, .. }
            | Operation::Mkdir { directory, .. }
            | Operation::Create { directory, .. }
            | Operation::Unlink { directory, .. }
            | Operation::Rmdir { directory, .. }
            | Operation::Rename { directory, .. }
            | Operation::Link { directory, .. }
            | Operation::Readdir { directory, .. }
            | Operation::Readdirplus { directory, .. } => *directory,
            Operation::Getattr { node } | Operation::Open { node } => *node,
            Operation::Read { opened, .. } | Operation::Write { opened, .. } => match *opened {},
        }
    }
}

/// Whether one of two files, where there are two, is this node.
fn is_named(first: Option<u64>, second: Option<u64>, node: u64) -> bool
    ensures { result ≡ list_any (nat_eq node) (flat_map option_to_list (first ∷ second ∷ [])) }
{
    match (first, second) {
        (None, None) => false,
        (Some(one), None) | (None, Some(one)) => one == node,
        (Some(one), Some(other)) => one == node || other == node,
    }
}
