//! What an operation needs before it is done: that nothing refuses it, and the numbers that it allocates.

ghost use Rattle.std.specs.Prelude.{◌≡◌, ◌∷◌, [], None, option_to_list};
ghost use Rattle.fuse_spec.specs.declared.Validity.{Validity as ValidityValue};
ghost use Rattle.fuse_spec.specs.Files.FileOperations.{refusal, reply_by, reply_unrefused, tree_after, tree_unrefused};
ghost use Rattle.fuse_spec.specs.Files.Operations.{lookup, rename};
ghost use Rattle.fuse_spec.specs.Files.Trees.{file_at};
ghost use Rattle.fs_tree.specs.Outcomes.{RefusesWith};
ghost use Rattle.fs_files.specs.Plans.{AllocatesNumbers};
ghost use Rattle.fs_files.specs.Values.{on_files};

use crate::held::HeldOperation;
use crate::nodes::Nodes;
use arrayvec::ArrayVec;
use fs_nodes::NodeStore;
use fs_tree::{MOST_LISTED, Tree, TreeError};
use fuse_spec::Operation;
use std::alloc::Allocator;

/// How many inodes, cookies and file handles an operation allocates, and the files to which its reply gives nodes, in
/// order.
#[derive(Drop)]
pub(crate) struct Needs {
    pub(crate) inodes: u64,
    pub(crate) cookies: u64,
    pub(crate) opens: u64,
    pub(crate) files: ArrayVec<u64, MOST_LISTED>,
}

/// What an operation needs that allocates nothing.
pub(crate) fn no_numbers() -> Needs
    ensures { result ≡ record { inodes = 0; cookies = 0; opens = 0; files = record { items = [] } } }
{
    Needs {
        inodes: 0,
        cookies: 0,
        opens: 0,
        files: ArrayVec::new(),
    }
}

/// The list of one file.
fn one_file(file: u64) -> ArrayVec<u64, MOST_LISTED>
    ensures { result.items ≡ file ∷ [] }
{
    let mut files = ArrayVec::new();
    files.push(file);
    files
}

/// Whether an operation is refused.
#[inline(always)]
pub(crate) fn may_do<A: Allocator + Copy, S: NodeStore>(
    tree: &Tree<A>,
    nodes: &Nodes<S>,
    operation: &HeldOperation<A>,
) -> Result<(), TreeError>
    ensures { RefusesWith (refusal tree.now (on_files nodes.now.table operation.now)) result }
{
    let file = nodes.file_of(operation.header_node());
    match operation {
        Operation::Lookup { .. } | Operation::Readdir { .. } => tree.may_lookup(file),
        Operation::Readdirplus { .. } => tree.may_lookup(file),
        Operation::Getattr { .. } | Operation::Read { .. } => Ok(()),
        Operation::Mkdir { name, .. } => tree.may_create(file, name),
        Operation::Create { name, .. } => tree.may_create(file, name),
        Operation::Unlink { name, .. } => tree.may_unlink(file, name),
        Operation::Rmdir { name, .. } => tree.may_rmdir(file, name),
        Operation::Rename {
            old,
            newdir,
            new,
            ..
        } => may_rename(tree, file, old, nodes.file_of(*newdir), new),
        Operation::Link { node, name, .. } => tree.may_link(nodes.file_of(*node), file, name),
        Operation::Open { .. } => tree.open(file),
        Operation::Write { offset, bytes, .. } => tree.may_write(file, *offset, bytes),
    }
}

/// Whether a RENAME is refused.
#[inline(always)]
fn may_rename<A: Allocator + Copy>(
    tree: &Tree<A>,
    directory: u64,
    old: &[u8],
    new_directory: u64,
    new: &[u8],
) -> Result<(), TreeError>
    ensures { RefusesWith (refusal tree.now (rename directory old.now new_directory new.now)) result }
{
    match tree.may_rename(directory, old, new_directory, new) {
        Ok(_) => Ok(()),
        Err(error) => Err(error),
    }
}

/// What an operation allocates: nothing if it is refused.
pub(crate) fn needs_of<A: Allocator + Copy, S: NodeStore>(
    tree: &Tree<A>,
    nodes: &Nodes<S>,
    operation: &HeldOperation<A>,
) -> Needs
    ensures { (v : ValidityValue) → AllocatesNumbers tree.now (tree_after tree.now (on_files nodes.now.table operation.now))
        (reply_by v tree.now (on_files nodes.now.table operation.now)) result }
{
    if may_do(tree, nodes, operation).is_err() {
        return no_numbers();
    }
    unrefused_needs(tree, nodes, operation)
}

/// What an operation allocates that nothing refuses.
fn unrefused_needs<A: Allocator + Copy, S: NodeStore>(
    tree: &Tree<A>,
    nodes: &Nodes<S>,
    operation: &HeldOperation<A>,
) -> Needs
    requires unrefused { refusal tree.now (on_files nodes.now.table operation.now) ≡ None }
    ensures { (v : ValidityValue) → AllocatesNumbers tree.now (tree_unrefused tree.now (on_files nodes.now.table operation.now))
        (reply_unrefused v tree.now (on_files nodes.now.table operation.now)) result }
{
    match operation {
        Operation::Lookup { directory, name } => {
            needs_of_lookup(tree, nodes.file_of(*directory), name)
        }
        Operation::Mkdir { .. } => needs_of_inode(tree.next_inode(), 0),
        Operation::Create { .. } => needs_of_inode(tree.next_inode(), 1),
        Operation::Rename {
            directory,
            old,
            newdir,
            new,
        } => {
            let from = nodes.file_of(*directory);
            needs_of_rename(tree, from, old, nodes.file_of(*newdir), new)
        }
        Operation::Link { node, .. } => needs_of_link(nodes.file_of(*node)),
        Operation::Open { .. } => Needs {
            opens: 1,
            ..no_numbers()
        },
        Operation::Readdirplus {
            directory,
            after,
            size,
        } => Needs {
            files: tree.files_listed(nodes.file_of(*directory), *after, *size),
            ..no_numbers()
        },
        Operation::Getattr { .. }
        | Operation::Unlink { .. }
        | Operation::Rmdir { .. }
        | Operation::Readdir { .. } => no_numbers(),
        Operation::Read { .. } | Operation::Write { .. } => no_numbers(),
    }
}

/// What a LOOKUP allocates.
fn needs_of_lookup<A: Allocator + Copy>(tree: &Tree<A>, directory: u64, name: &[u8]) -> Needs
    requires { refusal tree.now (lookup directory name.now) ≡ None }
    ensures { result ≡ record {
      inodes = 0;
      cookies = 0;
      opens = 0;
      files = record { items = option_to_list (file_at tree.now directory name.now) };
    } }
{
    match tree.lookup(directory, name) {
        Ok(Some(file)) => Needs {
            files: one_file(file),
            ..no_numbers()
        },
        _ => no_numbers(),
    }
}

/// What a MKDIR or a CREATE allocates.
fn needs_of_inode(inode: u64, opens: u64) -> Needs
    ensures { result ≡ record { inodes = 1; cookies = 1; opens = opens; files = record { items = inode ∷ [] } } }
{
    Needs {
        inodes: 1,
        cookies: 1,
        opens,
        files: one_file(inode),
    }
}

/// What a LINK allocates.
fn needs_of_link(file: u64) -> Needs
    ensures { result ≡ record { inodes = 0; cookies = 1; opens = 0; files = record { items = file ∷ [] } } }
{
    Needs {
        cookies: 1,
        files: one_file(file),
        ..no_numbers()
    }
}

/// What a RENAME allocates: nothing, if it is onto another name of the same file.
fn needs_of_rename<A: Allocator + Copy>(
    tree: &Tree<A>,
    directory: u64,
    old: &[u8],
    new_directory: u64,
    new: &[u8],
) -> Needs
    requires unrefused { refusal tree.now (rename directory old.now new_directory new.now) ≡ None }
    ensures { (v : ValidityValue) → AllocatesNumbers tree.now (tree_unrefused tree.now
        (rename directory old.now new_directory new.now))
        (reply_unrefused v tree.now (rename directory old.now new_directory new.now)) result }
{
    if tree.are_same(directory, old, new_directory, new) {
        return no_numbers();
    }
    Needs {
        cookies: 1,
        ..no_numbers()
    }
}
