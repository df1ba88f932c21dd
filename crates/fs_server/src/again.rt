//! More copies of kept replies are sent.

ghost use Rattle.std.specs.Prelude.{◌≡◌, ◌⊎◌, ◌&&◌, false, OnErr, IfOk, IfErr, IfSome, IfNone, is_some};
ghost use Rattle.std.specs.List.{list_all};
ghost use Rattle.fuse_spec.specs.Values.Maps.{get};
ghost use Rattle.fuse_spec.specs.Server.Nodes.{count_overflows, is_held};
ghost use Rattle.fuse_spec.specs.Server.Copies.{handles_counted, rows_counted};
ghost use Rattle.fuse_spec.specs.Files.Operations.{files_in_reply, opens_in_reply};
ghost use Rattle.fuse_spec.specs.Values.Numbers.{counter_end};
ghost use Rattle.fuse_spec.specs.declared.Entry.{Entry as ReplyEntry};
ghost use Rattle.fuse_spec.specs.declared.Refusal.TheVariants.{NoMemory};
ghost use Rattle.fs_files.specs.Bounds.{AreHeldBelow, AreUsed};
ghost use Rattle.fs_files.specs.Giving.{files_of};
ghost use Rattle.fs_files.specs.Replies.{sent_wire};
ghost use Rattle.fs_server.specs.Effects.{CanSendAgain, RefusesAgain, SendsAgain};

use crate::replies::SentCopy;
use crate::server::ServerOf;
use fs_files::{
    Files, ListingBuffers, NamedNode, SentReply, body_len, copied, file_entries, framed,
    name_count, opened,
};
use fs_nodes::NodeStore;
use fuse_frames::{ReplyBuffer, Sent};
use fuse_spec::limits::COUNTER_END;
use fuse_spec::{Entry, Refusal};
use std::alloc::AllocError;
use std::mem::replace;

impl<S: NodeStore> ServerOf<S> {
    /// Why no copy of a kept reply can be sent, out of memory aside: `NoCopy` where no reply is kept under the unique,
    /// or a node or file handle that it names is no longer held, the node under the same generation; `Exhausted` where
    /// a node's lookups would reach the end of counters, or no copy number is left.
    pub fn again_refusal(&self, unique: u64) -> Option<Refusal>
        ensures refuses { IfSome result (RefusesAgain self.now unique) }
        ensures none { IfNone result (CanSendAgain self.now unique) }
    {
        let Some(kept) = self.kept.get(unique) else {
            return Some(Refusal::NoCopy);
        };
        let reply = kept.reply();
        if !is_current(&self.files, reply) {
            return Some(Refusal::NoCopy);
        }
        if self.files.nodes().counts_out_again(file_entries(reply)) {
            return Some(Refusal::Exhausted);
        }
        if self.next_copy >= COUNTER_END {
            return Some(Refusal::Exhausted);
        }
        None
    }

    /// Sends one more copy of a kept reply, and counts once more each node and the file handle that it names.
    ///
    /// # Errors
    ///
    /// `NoCopy` where no reply is kept under the unique, or a node or file handle that it names is no longer held, the
    /// node under the same generation; `Exhausted` where a node's lookups would reach the end of counters, or no copy
    /// number is left; then `NoMemory`. The server is as before.
    pub fn again(&mut self, unique: u64) -> Result<Sent<S::Heap>, Refusal>
        ensures err { OnErr result (self.new ≡ self.old) }
        ensures refusal { IfErr result (λ refusal. RefusesAgain self.old unique refusal ⊎ (refusal ≡ NoMemory)) }
        ensures memory { IfErr result (λ refusal. refusal ≡ NoMemory → CanSendAgain self.old unique) }
        ensures sent { IfOk result (λ copy. SendsAgain self.old unique copy self.new) }
    {
        if let Some(refusal) = self.again_refusal(unique) {
            return Err(refusal);
        }
        match self.send_again(unique) {
            Ok(copy) => Ok(copy),
            Err(AllocError) => Err(Refusal::NoMemory),
        }
    }

    /// Sends one more copy of a kept reply that can be sent.
    fn send_again(&mut self, unique: u64) -> Result<Sent<S::Heap>, AllocError>
        requires { CanSendAgain self.old unique }
        ensures err { OnErr result (self.new ≡ self.old) }
        ensures sent { IfOk result (λ copy. SendsAgain self.old unique copy self.new) }
    {
        self.copies.reserve(1)?;
        let room = replace(&mut self.spare, Vec::new(self.alloc));
        let Some(kept) = self.kept.get(unique) else {
            unreachable!();
        };
        let reply = kept.reply();
        let len = body_len(reply);
        let room = ReplyBuffer::new(room, len)?;
        let spare = ListingBuffers::new(self.alloc, len, name_count(reply))?;
        let number = self.next_copy;
        let copy = Sent::new(number, framed(reply, room, unique));
        let sent = SentCopy::new(unique, copied(reply, spare), kept.first());
        count_again(&mut self.files, reply);
        self.copies.put(number, sent);
        self.next_copy = number + 1;
        Ok(copy)
    }
}

/// Whether each node and file handle that a reply names is still held, the node under the same generation.
fn is_current<S: NodeStore>(files: &Files<S>, reply: &SentReply<S::Heap>) -> bool
    ensures { result ≡ (list_all (λ (g : ReplyEntry). is_held files.now.nodes g.nodeid g.generation)
        (files_in_reply (sent_wire reply.now)) && list_all (λ fh. is_some (get files.now.handles.handles fh))
        (opens_in_reply (sent_wire reply.now))) }
{
    let has_handle = match opened(reply) {
        Some(fh) => files.has_handle(fh),
        None => true,
    };
    are_held(files, file_entries(reply)) && has_handle
}

/// Whether the node of each entry is held under the entry's generation.
fn are_held<S: NodeStore>(files: &Files<S>, entries: &[Entry]) -> bool
    ensures { result ≡ list_all (λ (g : ReplyEntry). is_held files.now.nodes g.nodeid g.generation) entries.now }
{
    entries.iter().all(|entry| {
        files.nodes().is_held(NamedNode {
            nodeid: entry.nodeid,
            generation: entry.generation,
        })
    })
}

/// Counts once more each node and the file handle that a reply names.
fn count_again<S: NodeStore>(files: &mut Files<S>, reply: &SentReply<S::Heap>)
    requires counts { count_overflows files.old.nodes (files_of files.old.nodes (files_in_reply (sent_wire reply.now)))
        ≡ false }
    requires used { AreUsed counter_end files.old.handles }
    ensures tree { files.new.tree ≡ files.old.tree }
    ensures nodes { files.new.nodes ≡ rows_counted files.old.nodes (files_in_reply (sent_wire reply.now)) }
    ensures handles { files.new.handles ≡ handles_counted files.old.handles (opens_in_reply (sent_wire reply.now)) }
    ensures below { AreHeldBelow files.new.nodes }
{
    count_nodes_again(files, file_entries(reply));
    if let Some(fh) = opened(reply) {
        files.count_handle_again(fh);
    }
}

/// Counts the node of each entry once more.
fn count_nodes_again<S: NodeStore>(files: &mut Files<S>, entries: &[Entry])
    requires { count_overflows files.old.nodes (files_of files.old.nodes entries.now) ≡ false }
    ensures tree { files.new.tree ≡ files.old.tree }
    ensures nodes { files.new.nodes ≡ rows_counted files.old.nodes entries.now }
    ensures handles { files.new.handles ≡ files.old.handles }
    ensures below { AreHeldBelow files.new.nodes }
{
    for entry in entries {
        files.lemma_sound();
        files.count_again(entry.nodeid);
    }
}
