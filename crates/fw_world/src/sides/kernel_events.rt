//! The events of the kernel's side: those of the kernel alone, reads, and the write of a reply.

ghost use Rattle.std.specs.Prelude.{◌≡◌, ◌<◌, ◌++◌, ◌∷◌, [], List, ℕ, OnErr, IfOk, IfErr};
ghost use Rattle.std.specs.VecDeque.{deque_len, deque_capacity};
ghost use Rattle.fuse_spec.specs.World.Events as event;
ghost use Rattle.fuse_spec.specs.World.Steps.{Happens, IsRefused, RefusedWith};
ghost use Rattle.fuse_spec.specs.World.Worlds.{World as WorldState};
ghost use Rattle.fuse_frames.specs.RequestTies.{IsRequestFrame};
ghost use Rattle.fw_world.specs.Acts.{IsAlone};
ghost use Rattle.fw_world.specs.Frames.{IsShown};
ghost use Rattle.fw_world.specs.Steps.{IsStep};
ghost use Rattle.fw_world.specs.Values.{event_of, outcome_of, read_of};

use super::SidesOf;
use super::counters::lemma_in_range;
use super::refusals::refusal_or_no_memory;
use crate::event::{Event, Outcome};
use crate::kernel_alone::act_alone;
use crate::tables::Tables;
use fk_kernel::Pick;
use fuse_frames::RequestFrame;
use fuse_spec::{Refusal, ReplyResult};
use fuse_tables::take_at;
use std::alloc::Allocator;
use std::collections::VecDeque;

impl<T: Tables> SidesOf<T> {
    /// An event of the kernel alone.
    pub(super) fn alone(&mut self, event: &Event<'_>) -> Result<Outcome, Refusal>
        requires { IsAlone event.now }
        ensures { IsStep self.old (event_of event.now) result self.new }
    {
        let acted = act_alone(&mut self.kernel, event);
        lemma_in_range(&self.kernel, &self.server);
        acted
    }

    pub(super) fn read(&mut self, pick: Pick) -> Result<Outcome, Refusal>
        ensures { IsStep self.old (read_of pick) result self.new }
    {
        lemma_in_range(&self.kernel, &self.server);
        if self.requests.reserve(1).is_err() {
            return Err(refusal_or_no_memory(self.kernel.read_refusal(pick)));
        }
        let frame = self.kernel.read(pick)?;
        lemma_in_range(&self.kernel, &self.server);
        Ok(put_read(&mut self.requests, frame))
    }

    pub(super) fn write(&mut self, place: u64) -> Result<Outcome, Refusal>
        ensures { IsStep self.old (event.write place) result self.new }
    {
        let place = place as usize;
        if place >= self.replies.len() {
            return Err(Refusal::NoSuch);
        }
        let copy = &self.replies[place];
        if self.results.reserve(1).is_err() {
            lemma_in_range(&self.kernel, &self.server);
            return Err(refusal_or_no_memory(self.kernel.write_refusal(copy.bytes())));
        }
        let number = copy.number();
        let unique = copy.unique();
        let written = match self.kernel.write(copy.bytes()) {
            Ok(written) => written,
            Err(refusal) => {
                lemma_in_range(&self.kernel, &self.server);
                return Err(refusal);
            }
        };
        let copy = take_at(&mut self.replies, place);
        self.server.reuse(copy);
        lemma_in_range(&self.kernel, &self.server);
        self.results.push_back_reserved(ReplyResult {
            number,
            unique,
            result: written,
        });
        Ok(Outcome::Written {
            unique,
            result: written,
        })
    }
}

/// Puts the frame of a request that was read onto its link, which has room, and gives what was read.
#[inline(always)]
fn put_read<A: Allocator>(
    requests: &mut VecDeque<RequestFrame<A>, A>,
    frame: RequestFrame<A>,
) -> Outcome
    requires { deque_len requests.old < deque_capacity requests.old }
    ensures items { requests.new.items ≡ requests.old.items ++ frame ∷ [] }
    ensures outcome { outcome_of result ≡ event.is_read frame.unique }
    ensures frame { (bytes : List ℕ) × IsRequestFrame bytes frame }
    ensures shows { (world : WorldState) → world.requests ≡ requests.new.items → IsShown world result }
{
    let (unique, opcode) = frame.head();
    let len = frame.bytes().len();
    requests.push_back_reserved(frame);
    Outcome::Read {
        unique,
        opcode,
        len,
    }
}
