//! Held requests are performed.

ghost use Rattle.std.specs.Prelude.{◌≡◌, ◌⊎◌, ◌+◌, ◌<◌, ◌≤◌, true, false, OnOk, OnErr, IfOk, IfErr, IfSome, IfNone};
ghost use Rattle.fuse_spec.specs.declared.Refusal.TheVariants.{NoMemory};
ghost use Rattle.fuse_spec.specs.Server.Memory.{performing_takes_memory};
ghost use Rattle.fuse_spec.specs.Values.Maps.{get};
ghost use Rattle.fs_files.specs.Replies.{HasSpare};
ghost use Rattle.fs_files.specs.Values.{names_for, reply_room_for};
ghost use Rattle.fs_server.specs.Effects.{PerformsHeld, RefusesHeld};
ghost use Rattle.fs_server.specs.Steps.{CanPerform};

use crate::replies::{KeptReply, SentCopy};
use crate::server::{Done, ServerOf};
use fs_files::{Files, HeldRequest, ListingBuffers, copied, errno, framed};
use fs_nodes::NodeStore;
use fuse_frames::{ReplyBuffer, Sent};
use fuse_spec::Refusal;
use fuse_spec::limits::COUNTER_END;
use fuse_tables::RisingTable;
use std::alloc::{AllocError, Allocator};
use std::mem::replace;

impl<S: NodeStore> ServerOf<S> {
    /// Why a held request cannot be performed, out of memory aside: `NoSuch` where none is held under the unique,
    /// `Exhausted` where a counter from which it allocates is at its end, or the lookups of a node that its reply gives
    /// would come to it.
    #[inline(always)]
    pub fn perform_refusal(&self, unique: u64) -> Option<Refusal>
        ensures refuses { IfSome result (RefusesHeld self.now unique) }
        ensures none { IfNone result (CanPerform self.now unique) }
    {
        let Some(held) = self.held.get(unique) else {
            return Some(Refusal::NoSuch);
        };
        if !self.is_aborted && self.next_copy >= COUNTER_END {
            return Some(Refusal::Exhausted);
        }
        if !self.files.has_numbers(held, self.is_aborted) {
            return Some(Refusal::Exhausted);
        }
        None
    }

    /// Performs a held request, and gives the first copy of its reply. A request that an INTERRUPT marked is answered
    /// EINTR, one whose node is gone EIO. After an abort a request is performed, but no node and no file handle is
    /// given, and no copy is sent.
    ///
    /// # Errors
    ///
    /// `NoSuch` where no request is held under the unique, `Exhausted` where a counter is at its end or the lookups of
    /// a node would come to it; then `NoMemory`. The server is as before.
    pub fn perform(&mut self, unique: u64) -> Result<Done<S::Heap>, Refusal>
        ensures err { OnErr result (self.new ≡ self.old) }
        ensures refusal { IfErr result (λ refusal. RefusesHeld self.old unique refusal ⊎ (refusal ≡ NoMemory)) }
        ensures memory { IfErr result (λ refusal. refusal ≡ NoMemory → CanPerform self.old unique
            × (performing_takes_memory self.old (get self.old.held unique) ≡ true)) }
        ensures performed { IfOk result (λ done. PerformsHeld self.old unique done.errno done.sent self.new) }
    {
        if let Some(refusal) = self.perform_refusal(unique) {
            return Err(refusal);
        }
        let done = if self.is_aborted {
            self.perform_lost(unique)
        } else {
            self.perform_live(unique)
        };
        match done {
            Ok(done) => Ok(done),
            Err(AllocError) => Err(Refusal::NoMemory),
        }
    }

    /// Performs a held request after an abort.
    fn perform_lost(&mut self, unique: u64) -> Result<Done<S::Heap>, AllocError>
        requires aborted { self.old.aborted ≡ true }
        requires can { CanPerform self.old unique }
        ensures err { OnErr result (self.new ≡ self.old) }
        ensures memory { OnErr result (performing_takes_memory self.old (get self.old.held unique) ≡ true) }
        ensures performed { IfOk result (λ done. PerformsHeld self.old unique done.errno done.sent self.new) }
    {
        let Some(held) = self.held.get(unique) else {
            unreachable!();
        };
        let file = self.files.unlinked_or_released(held);
        let outcome = self.files.answer(held, self.validity, self.minor)?;
        self.files.discard_unheld(file);
        let _lost = self.held.remove(unique);
        Ok(Done {
            errno: outcome.errno(),
            sent: None,
        })
    }

    /// Performs a held request while the mount is not aborted.
    fn perform_live(&mut self, unique: u64) -> Result<Done<S::Heap>, AllocError>
        requires serving { self.old.aborted ≡ false }
        requires can { CanPerform self.old unique }
        ensures err { OnErr result (self.new ≡ self.old) }
        ensures performed { IfOk result (λ done. PerformsHeld self.old unique done.errno done.sent self.new) }
    {
        reserve_reply(&mut self.kept, &mut self.copies, &mut self.files)?;
        let room = replace(&mut self.spare, Vec::new(self.alloc));
        let Some(held) = self.held.get(unique) else {
            unreachable!();
        };
        let memory = memory_for(self.alloc, room, held)?;
        let file = self.files.unlinked_or_released(held);
        let outcome = self.files.answer(held, self.validity, self.minor)?;
        let ReplyBuffers {
            room,
            spare,
            spare_copy,
        } = memory;
        let number = self.next_copy;
        let reply = self
            .files
            .give_numbers(outcome, self.validity.found_ms, spare);
        self.files.discard_unheld(file);
        let errno = errno(&reply);
        let copy = Sent::new(number, framed(&reply, room, unique));
        let sent = SentCopy::new(unique, copied(&reply, spare_copy), number);
        self.copies.put(number, sent);
        self.kept.put(unique, KeptReply::new(reply, number));
        let _held = self.held.remove(unique);
        self.next_copy = number + 1;
        Ok(Done {
            errno,
            sent: Some(copy),
        })
    }
}

/// Memory for a reply: for its frame, for what it lists, and for its copy's list.
#[derive(Drop)]
struct ReplyBuffers<A: Allocator> {
    room: ReplyBuffer<A>,
    spare: ListingBuffers<A>,
    spare_copy: ListingBuffers<A>,
}

/// Takes the memory for the reply to a held request.
fn memory_for<A: Allocator + Copy>(
    alloc: A,
    room: Vec<u8, A>,
    held: &HeldRequest<A>,
) -> Result<ReplyBuffers<A>, AllocError>
    ensures room { IfOk result (λ memory. 16 + reply_room_for held.now.body ≤ memory.room) }
    ensures spare { IfOk result (λ memory. HasSpare memory.spare 0 (names_for held.now.body)) }
    ensures spare_copy { IfOk result (λ memory.
        HasSpare memory.spare_copy (reply_room_for held.now.body) (names_for held.now.body)) }
{
    let len = held.reply_len();
    let names = held.reply_names();
    Ok(ReplyBuffers {
        room: ReplyBuffer::new(room, len)?,
        spare: ListingBuffers::new(alloc, 0, names)?,
        spare_copy: ListingBuffers::new(alloc, len, names)?,
    })
}

/// Makes room for one more kept reply, for its first copy, and for what it gives.
fn reserve_reply<S: NodeStore>(
    kept: &mut RisingTable<KeptReply<S::Heap>, S::Heap>,
    copies: &mut RisingTable<SentCopy<S::Heap>, S::Heap>,
    files: &mut Files<S>,
) -> Result<(), AllocError>
    ensures kept { kept.new.entries ≡ kept.old.entries }
    ensures copies { copies.new.entries ≡ copies.old.entries }
    ensures tree { files.new.tree ≡ files.old.tree }
    ensures nodes { files.new.nodes ≡ files.old.nodes }
    ensures handles { files.new.handles ≡ files.old.handles }
    ensures kept_room { OnOk result (0 < kept.new.room) }
    ensures copy_room { OnOk result (0 < copies.new.room) }
    ensures node_room { OnOk result (32 ≤ files.new.node_room) }
    ensures open_room { OnOk result (0 < files.new.open_room) }
{
    kept.reserve(1)?;
    copies.reserve(1)?;
    files.reserve()
}
