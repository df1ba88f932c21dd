//! Held requests are performed on the tree.

ghost use Rattle.std.specs.Prelude.{◌≡◌, ◌≤◌, true, IfOk, OnErr, OnOk};
ghost use Rattle.fuse_spec.specs.Kernel.Messages.{asks, release};
ghost use Rattle.fuse_spec.specs.Server.Memory.{held_takes_memory, operation_takes_memory};
ghost use Rattle.fuse_spec.specs.Server.Nodes.{is_open, file_of};
ghost use Rattle.fuse_spec.specs.Values.Numbers.{counter_end, max_validity};
ghost use Rattle.fuse_spec.specs.Server.Performs.{is_open_for, is_still_held};
ghost use Rattle.fuse_spec.specs.declared.Validity.{Validity as ValidityValue};
ghost use Rattle.fs_files.specs.Performing.{ComesTo, handles_by, handles_said, said, body_reply, tree_said, tree_by};
ghost use Rattle.fs_files.specs.Replies.{IsRepliable, outcome_len, outcome_reply};
ghost use Rattle.fs_files.specs.Values.{held_operation_of, reply_room_for, server_at, server_of, nodes_named};

use crate::files::Files;
use crate::held::{HeldBody, HeldOperation, HeldRequest, Named};
use crate::nodes::Nodes;
use crate::operating::operate;
use crate::plan::may_do;
use crate::replies::{Outcome, agreement};
use fs_nodes::NodeStore;
use fuse_frames::Reply;
use fuse_spec::errno::{EBADF, EINTR, EIO};
use fuse_spec::{Minor, Opened, Operation, Validity};
use std::alloc::{AllocError, Allocator};

impl<S: NodeStore> Files<S> {
    /// What a held request results in, on the tree as it is now; an INIT is answered this minor.
    ///
    /// # Errors
    ///
    /// Out of memory. Nothing changes.
    #[inline(always)]
    pub fn answer(
        &mut self,
        held: &HeldRequest<S::Heap>,
        validity: Validity,
        minor: Minor,
    ) -> Result<Outcome<S::Heap>, AllocError>
        requires inodes { (tree_said (server_at minor self.old validity) held.now).next_inode ≤ counter_end }
        requires cookies { (tree_said (server_at minor self.old validity) held.now).next_cookie ≤ counter_end }
        requires day { validity.missing_ms ≤ max_validity }
        ensures err { OnErr result (self.new ≡ self.old) }
        ensures memory { OnErr result (held_takes_memory held.now ≡ true) }
        ensures says { IfOk result (λ outcome. outcome_reply validity.found_ms outcome
            ≡ said (server_at minor self.old validity) held.now) }
        ensures repliable { IfOk result (λ outcome. IsRepliable self.new.tree outcome) }
        ensures short { IfOk result (λ outcome. outcome_len outcome ≤ reply_room_for held.now.body) }
        ensures tree { OnOk result (self.new.tree ≡ tree_said (server_at minor self.old validity) held.now) }
        ensures handles { OnOk result (self.new.handles ≡ handles_said (server_at minor self.old validity) held.now) }
        ensures nodes { self.new.nodes ≡ self.old.nodes }
        ensures node_room { self.new.node_room ≡ self.old.node_room }
        ensures open_room { self.old.open_room ≤ self.new.open_room }
    {
        if held.is_marked() {
            return Ok(failure(EINTR));
        }
        if !are_held(&self.known.nodes, held.named()) {
            return Ok(failure(EIO));
        }
        match held.body() {
            HeldBody::Init { flags } => Ok(Outcome::Reply {
                reply: agreement(minor, *flags),
            }),
            HeldBody::Asks { operation } => self.ask(operation, validity),
            HeldBody::Release { opened } => Ok(self.release(*opened)),
        }
    }

    /// An operation.
    #[inline(always)]
    fn ask(
        &mut self,
        operation: &HeldOperation<S::Heap>,
        validity: Validity,
    ) -> Result<Outcome<S::Heap>, AllocError>
        requires inodes { (tree_by (server_of self.old validity)
            (asks (held_operation_of operation.now))).next_inode ≤ counter_end }
        requires cookies { (tree_by (server_of self.old validity)
            (asks (held_operation_of operation.now))).next_cookie ≤ counter_end }
        requires day { validity.missing_ms ≤ max_validity }
        ensures err { OnErr result (self.new ≡ self.old) }
        ensures memory { OnErr result (operation_takes_memory (held_operation_of operation.now) ≡ true) }
        ensures ok { IfOk result (λ outcome. ComesTo (server_of self.old validity)
            (asks (held_operation_of operation.now)) outcome self.new.tree) }
        ensures handles { self.new.handles ≡ self.old.handles }
        ensures nodes { self.new.nodes ≡ self.old.nodes }
        ensures node_room { self.new.node_room ≡ self.old.node_room }
        ensures open_room { self.old.open_room ≤ self.new.open_room }
    {
        if !self.is_open_for(operation) {
            return Ok(failure(EBADF));
        }
        if let Err(error) = may_do(&self.tree, &self.known.nodes, operation) {
            return Ok(failure(error.errno() as u32));
        }
        self.tree.lemma_shaped();
        let alloc = self.alloc;
        operate(
            &mut self.tree,
            &self.known.nodes,
            operation,
            validity,
            alloc,
        )
    }

    /// Whether the file handle that a READ or WRITE names is one of its node's file.
    pub(crate) fn is_open_for(&self, operation: &HeldOperation<S::Heap>) -> bool
        ensures { (v : ValidityValue) → result ≡ is_open_for (server_of self.now v) (held_operation_of operation.now) }
    {
        match operation {
            Operation::Read { opened, .. } | Operation::Write { opened, .. } => {
                self.is_open(*opened)
            }
            _ => true,
        }
    }

    /// Whether a file handle is one of its node's file.
    pub(crate) fn is_open(&self, opened: Opened) -> bool
        ensures { result ≡ is_open self.now.handles opened.fh (file_of self.now.nodes opened.nodeid) }
    {
        match self.known.handles.file_of(opened.fh) {
            Some(file) => file == self.known.nodes.file_of(opened.nodeid),
            None => false,
        }
    }

    /// A RELEASE of a node that is held: one use of the file handle is taken back, where it is one of the node's file.
    /// No memory is taken.
    pub fn release(&mut self, opened: Opened) -> Outcome<S::Heap>
        ensures says { (v : ValidityValue) → outcome_reply v.found_ms result
            ≡ body_reply (server_of self.old v) (release opened) }
        ensures repliable { IsRepliable self.new.tree result }
        ensures short { outcome_len result ≤ 0 }
        ensures handles { (v : ValidityValue) → self.new.handles ≡ handles_by (server_of self.old v) (release opened) }
        ensures tree { self.new.tree ≡ self.old.tree }
        ensures nodes { self.new.nodes ≡ self.old.nodes }
        ensures node_room { self.new.node_room ≡ self.old.node_room }
        ensures open_room { self.old.open_room ≤ self.new.open_room }
    {
        if !self.is_open(opened) {
            return failure(EBADF);
        }
        self.known.handles.take_back(opened.fh);
        Outcome::Reply { reply: Reply::Done }
    }
}

/// Whether each of these nodes is still held under its generation.
#[inline(always)]
pub(crate) fn are_held<S: NodeStore>(nodes: &Nodes<S>, named: Named) -> bool
    ensures { result ≡ is_still_held nodes.now.table (nodes_named named) }
{
    match named {
        Named::Nothing => true,
        Named::One(node) => nodes.is_held(node),
        Named::Two(node, other) => nodes.is_held(node) && nodes.is_held(other),
    }
}

/// An error, from 1 to 511, in place of an outcome.
fn failure<A: Allocator>(errno: u32) -> Outcome<A>
    ensures { result ≡ Outcome.Reply (Reply.Failed errno) }
{
    Outcome::Reply {
        reply: Reply::Failed { errno },
    }
}
