//! Numbers that a held request needs: inodes, cookies, file handles, generations, counts.

ghost use Rattle.std.specs.Prelude.{◌≡◌, ◌≤◌, ◌<◌, ◌+◌, ◌⊎◌, ℕ, List, true, false, length, nat_le};
ghost use Rattle.fuse_spec.specs.Kernel.Messages.{asks};
ghost use Rattle.fuse_spec.specs.Server.Nodes.{count_overflows};
ghost use Rattle.fuse_spec.specs.Values.Numbers.{counter_end};
ghost use Rattle.fuse_spec.specs.declared.Minor.{Minor as MinorValue};
ghost use Rattle.fuse_spec.specs.declared.Validity.{Validity as ValidityValue};
ghost use Rattle.fs_files.specs.Bounds.{AreHeldBelow};
ghost use Rattle.fs_files.specs.Giving.{generations_after};
ghost use Rattle.fs_files.specs.Performing.{said, body_reply, tree_by, tree_said};
ghost use Rattle.fs_files.specs.Plans.{AllocatesNumbers, HasNumbers, LacksNumber};
ghost use Rattle.fs_files.specs.Values.{held_operation_of, server_at};

use crate::answering::are_held;
use crate::files::Files;
use crate::held::{HeldBody, HeldOperation, HeldRequest};
use crate::plan::{Needs, needs_of, no_numbers};
use fs_nodes::NodeStore;

impl<S: NodeStore> Files<S> {
    /// Whether the counters have the numbers that performing a held request allocates. Where its reply is lost it
    /// allocates only those of the tree.
    #[inline(always)]
    pub fn has_numbers(&self, held: &HeldRequest<S::Heap>, is_lost: bool) -> bool
        requires { AreHeldBelow self.now.nodes }
        ensures has { (v : ValidityValue) (m : MinorValue) → result ≡ true
            → HasNumbers (tree_said (server_at m self.now v) held.now) self.now.nodes self.now.handles is_lost
            (said (server_at m self.now v) held.now) }
        ensures lacks { (v : ValidityValue) (m : MinorValue) → result ≡ false
            → LacksNumber (tree_said (server_at m self.now v) held.now) self.now.nodes self.now.handles is_lost
            (said (server_at m self.now v) held.now) }
    {
        self.has_numbers_for_any() || self.has_numbers_planned(held, is_lost)
    }

    /// As `has_numbers`, by what performing the request allocates.
    fn has_numbers_planned(&self, held: &HeldRequest<S::Heap>, is_lost: bool) -> bool
        requires { AreHeldBelow self.now.nodes }
        ensures has { (v : ValidityValue) (m : MinorValue) → result ≡ true
            → HasNumbers (tree_said (server_at m self.now v) held.now) self.now.nodes self.now.handles is_lost
            (said (server_at m self.now v) held.now) }
        ensures lacks { (v : ValidityValue) (m : MinorValue) → result ≡ false
            → LacksNumber (tree_said (server_at m self.now v) held.now) self.now.nodes self.now.handles is_lost
            (said (server_at m self.now v) held.now) }
    {
        let needs = self.needs_for(held);
        needs.inodes <= self.tree.inodes_left()
            && needs.cookies <= self.tree.cookies_left()
            && (is_lost || (self.can_give_nodes(&needs.files) && self.can_open(needs.opens)))
    }

    /// Whether each counter has as many numbers left as any request allocates, so that its needs need not be known.
    #[inline(always)]
    fn has_numbers_for_any(&self) -> bool
        ensures inodes { result ≡ true → self.now.tree.next_inode < counter_end }
        ensures cookies { result ≡ true → self.now.tree.next_cookie < counter_end }
        ensures numbers { result ≡ true → self.now.handles.next_fh < counter_end }
        ensures nodes { result ≡ true → (files : List ℕ) → length files ≤ 32
            → (generations_after self.now.nodes files ≤ counter_end) × (count_overflows self.now.nodes files ≡ false) }
    {
        self.tree.inodes_left() > 0
            && self.tree.cookies_left() > 0
            && self.known.handles.numbers_left() > 0
            && self.known.nodes.can_give_any()
    }

    /// What performing a held request allocates.
    fn needs_for(&self, held: &HeldRequest<S::Heap>) -> Needs
        ensures { (v : ValidityValue) (m : MinorValue) → AllocatesNumbers self.now.tree
            (tree_said (server_at m self.now v) held.now) (said (server_at m self.now v) held.now) result }
    {
        if held.is_marked() || !are_held(&self.known.nodes, held.named()) {
            return no_numbers();
        }
        match held.body() {
            HeldBody::Asks { operation } => self.needs_asked(operation),
            HeldBody::Init { .. } => no_numbers(),
            HeldBody::Release { .. } => no_numbers(),
        }
    }

    /// What an operation allocates: nothing under a file handle that is none of its node's file.
    fn needs_asked(&self, operation: &HeldOperation<S::Heap>) -> Needs
        ensures { (v : ValidityValue) (m : MinorValue) → AllocatesNumbers self.now.tree
            (tree_by (server_at m self.now v) (asks (held_operation_of operation.now)))
            (body_reply (server_at m self.now v) (asks (held_operation_of operation.now))) result }
    {
        if !self.is_open_for(operation) {
            return no_numbers();
        }
        needs_of(&self.tree, &self.known.nodes, operation)
    }

    /// Whether these files can be given nodes, one after another: the generations are enough, and no node's count
    /// ends.
    fn can_give_nodes(&self, files: &[u64]) -> bool
        requires { AreHeldBelow self.now.nodes }
        ensures can { result ≡ true → (generations_after self.now.nodes files.now ≤ counter_end)
            × (count_overflows self.now.nodes files.now ≡ false) }
        ensures cannot { result ≡ false → (counter_end < generations_after self.now.nodes files.now)
            ⊎ (count_overflows self.now.nodes files.now ≡ true) }
    {
        let nodes = &self.known.nodes;
        nodes.new_among(files) as u64 <= nodes.generations_left() && !nodes.count_overflows(files)
    }

    /// Whether this many file handles are left.
    fn can_open(&self, opens: u64) -> bool
        ensures { result ≡ nat_le (self.now.handles.next_fh + opens) counter_end }
    {
        opens <= self.known.handles.numbers_left()
    }
}
