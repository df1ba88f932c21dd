//! Which file a request may leave without a name and without a holder.

ghost use Rattle.std.specs.Prelude.{◌≡◌, None};
ghost use Rattle.fuse_spec.specs.declared.Minor.{Minor as MinorValue};
ghost use Rattle.fuse_spec.specs.declared.Validity.{Validity as ValidityValue};
ghost use Rattle.fs_tree.specs.Outcomes.{unlinked_by};
ghost use Rattle.fs_files.specs.Bounds.{AreNamed, AreNamedBut};
ghost use Rattle.fs_files.specs.Performing.{handles_said, unlinked_or_released, tree_said};
ghost use Rattle.fs_files.specs.Values.{asked_of, on_files, server_at};

use crate::files::Files;
use crate::held::{HeldBody, HeldOperation, HeldRequest};
use crate::nodes::Nodes;
use fs_nodes::NodeStore;
use fs_tree::Tree;
use fuse_spec::Operation;
use std::alloc::Allocator;

impl<S: NodeStore> Files<S> {
    /// The file from which a held request takes a name for good or a file handle, if it is performed. Every other file
    /// that nothing holds keeps a name.
    #[inline(always)]
    pub fn unlinked_or_released(&self, held: &HeldRequest<S::Heap>) -> Option<u64>
        ensures file { (v : ValidityValue) (m : MinorValue) → result
            ≡ unlinked_or_released (server_at m self.now v) held.now.body }
        ensures others { (v : ValidityValue) (m : MinorValue) → AreNamed self.now.tree self.now.nodes self.now.handles
            → AreNamedBut result (tree_said (server_at m self.now v) held.now) self.now.nodes
            (handles_said (server_at m self.now v) held.now) }
    {
        self.tree.lemma_shaped();
        self.unlinked_or_released_by(held.body())
    }

    /// The file from which what a request asks takes a name for good or a file handle.
    #[inline(always)]
    fn unlinked_or_released_by(&self, body: &HeldBody<S::Heap>) -> Option<u64>
        ensures { (v : ValidityValue) (m : MinorValue) → result
            ≡ unlinked_or_released (server_at m self.now v) (asked_of body.now) }
    {
        match body {
            HeldBody::Asks { operation } => unlinked_by(&self.tree, &self.known.nodes, operation),
            HeldBody::Release { opened } => self.known.handles.file_of(opened.fh),
            HeldBody::Init { .. } => None,
        }
    }
}

/// The file that an operation takes a name from for good.
#[inline(always)]
fn unlinked_by<A: Allocator + Copy, S: NodeStore>(
    tree: &Tree<A>,
    nodes: &Nodes<S>,
    operation: &HeldOperation<A>,
) -> Option<u64>
    ensures { result ≡ unlinked_by tree.now (on_files nodes.now.table operation.now) }
{
    match operation {
        Operation::Unlink { directory, name } | Operation::Rmdir { directory, name } => {
            tree.file_at(nodes.file_of(*directory), name)
        }
        Operation::Rename { newdir, new, .. } => tree.file_at(nodes.file_of(*newdir), new),
        _ => None,
    }
}
