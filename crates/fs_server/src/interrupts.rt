//! INTERRUPTs are taken.

ghost use Rattle.std.specs.Prelude.{◌≡◌, ◌<◌, true, false, None, Some, OnErr, IfErr, IfOk};
ghost use Rattle.fuse_spec.specs.Values.Maps.{get, put};
ghost use Rattle.fuse_spec.specs.Kernel.Messages.{interrupt as asked};
ghost use Rattle.fuse_spec.specs.Server.Server.{HeldRequest as HeldState};
ghost use Rattle.fuse_spec.specs.Server.Taking.{taking};
ghost use Rattle.fuse_spec.specs.Values.Numbers.{counter_end};
ghost use Rattle.fuse_spec.specs.declared.Taken.TheVariants.{Again as AgainWord};
ghost use Rattle.fs_server.specs.declared.server.ServerFault.TheVariants.{Memory as MemoryFault};
ghost use Rattle.fs_server.specs.Interrupts.{AsksAgain, Interrupts};
ghost use Rattle.fs_server.specs.Taking.{is_answered_now};

use crate::replies::SentCopy;
use crate::server::{ServerFault, ServerOf, Taken};
use fs_files::framed;
use fs_nodes::NodeStore;
use fuse_frames::{Reply, ReplyBuffer, Sent};
use fuse_spec::Taken as TakenWord;
use fuse_spec::errno::EAGAIN;
use std::alloc::Allocator;
use std::mem::replace;

impl<S: NodeStore> ServerOf<S> {
    /// Takes an INTERRUPT: it marks a request that is held, is ignored while the request's reply is kept, and else is
    /// answered EAGAIN.
    ///
    /// # Errors
    ///
    /// `Memory` where it is answered; the server is as before.
    pub(crate) fn interrupt(
        &mut self,
        unique: u64,
        original: u64,
    ) -> Result<Taken<S::Heap>, ServerFault>
        requires { is_answered_now self.old (asked original) ≡ true → self.old.next_copy < counter_end }
        ensures refused { OnErr result (self.new ≡ self.old) }
        ensures fault { IfErr result (λ fault. fault ≡ MemoryFault) }
        ensures answered { OnErr result ((taking self.old unique (asked original)).word ≡ AgainWord) }
        ensures effect { IfOk result (λ taken. Interrupts self.old unique original taken self.new) }
    {
        if self.held.get(original).is_some() {
            self.mark(original);
            return Ok(taken_as(unique, TakenWord::Marked));
        }
        if self.kept.get(original).is_some() {
            return Ok(taken_as(unique, TakenWord::Ignored));
        }
        self.ask_again(unique)
    }

    /// Marks a request that is held.
    fn mark(&mut self, original: u64)
        ensures { (h : HeldState) → get self.old.held original ≡ Some h
            → self.new ≡ record self.old { held = put self.old.held original (record h { marked = true }) } }
    {
        let Some(held) = self.held.remove(original) else {
            return;
        };
        let mut held = held;
        held.mark();
        self.held.put(original, held);
    }

    /// Answers an INTERRUPT with EAGAIN. The reply is not kept.
    fn ask_again(&mut self, unique: u64) -> Result<Taken<S::Heap>, ServerFault>
        requires { self.old.next_copy < counter_end }
        ensures refused { OnErr result (self.new ≡ self.old) }
        ensures fault { IfErr result (λ fault. fault ≡ MemoryFault) }
        ensures sent { IfOk result (λ taken. AsksAgain self.old unique taken self.new) }
    {
        let number = self.next_copy;
        let Ok(()) = self.copies.reserve(1) else {
            return Err(ServerFault::Memory);
        };
        let room = replace(&mut self.spare, Vec::new(self.alloc));
        let Ok(room) = ReplyBuffer::new(room, 0) else {
            return Err(ServerFault::Memory);
        };
        let reply = Reply::Failed { errno: EAGAIN };
        let sent = Sent::new(number, framed(&reply, room, unique));
        self.copies
            .put(number, SentCopy::new(unique, reply, number));
        self.next_copy = number + 1;
        Ok(Taken {
            unique,
            word: TakenWord::Again,
            sent: Some(sent),
        })
    }
}

/// What became of a request to which no reply is sent at once.
pub(crate) fn taken_as<A: Allocator>(unique: u64, word: TakenWord) -> Taken<A>
    ensures { result ≡ record { unique = unique; word = word; sent = None } }
{
    Taken {
        unique,
        word,
        sent: None,
    }
}
