//! A world whose two sides talk over a link of bytes.

ghost use Rattle.std.specs.Prelude.{◌≡◌, ◌≤◌, [], false, true, Err, IfErr, IfOk, IfNone, None};
ghost use Rattle.std.specs.Prelude.{IfSome, OnErr, option_map, slice_get, vec_capacity};
ghost use Rattle.std.specs.Result.{result_ok};
ghost use Rattle.fuse_spec.specs.World.Events.{abort, aborted};
ghost use Rattle.fuse_spec.specs.Claim.Counts.{Protocol};
ghost use Rattle.fuse_spec.specs.Reference.Plain.{Plain, first_plain};
ghost use Rattle.fuse_spec.specs.World.Steps.{Happens, RefusedWith};
ghost use Rattle.fuse_spec.specs.declared.Refusal.TheVariants.{LinkLost};
ghost use Rattle.fuse_spec.specs.Claim.Alike.{Alike};
ghost use Rattle.fuse_spec.specs.Claim.Runs.{plain_handed_out};
ghost use Rattle.world_sessions.specs.KernelRules.{SessionGoesOn};
ghost use Rattle.world_sessions.specs.WorldTransfers.{mounts_at};
ghost use Rattle.fk_syscalls.specs.Values.{answer_of};
ghost use Rattle.fw_link.specs.Carrying.{IsEmpty};
ghost use Rattle.fuse_theorem.specs.SoundWorlds.{IsSoundWorld};
ghost use Rattle.fw_world.specs.Frames.{IsFrameOf, IsLastPut, IsShown, IsShownAfter};
ghost use Rattle.fk_lookup_count.specs.CountedNodes.{listed_counts};
ghost use Rattle.fs_nodes.specs.Rows.{listed_nodes};
ghost use Rattle.fw_world.specs.ListedNodes.{AreListed};
ghost use Rattle.fw_world.specs.OverLinks.{StepsOver, session_of};
ghost use Rattle.fw_world.specs.Runs.{call_collected};
ghost use Rattle.fw_world.specs.Sends.{IsLostOn, IsOut, IsSent, LosesIn};
ghost use Rattle.fw_world.specs.Values.{event_of, outcome_of};

mod lists;

use crate::envelopes::{RESULT_LEN, send};
use crate::event::{Event, Outcome};
use crate::sides::SidesOf;
use crate::tables::{Maps, Tables};
use fk_kernel::Answer;
use fuse_spec::{NodeCount, Refusal};
use fw_link::{Carrier, Link};
use std::alloc::{AllocError, Global};

/// Aborts the mount of a world on whose links something is.
fn abort_after_loss<T: Tables>(world: &mut SidesOf<T>)
    requires { (world.old.requests ≡ []) × (world.old.replies ≡ []) × (world.old.results ≡ []) → ⊥ }
    ensures { Happens world.old abort aborted world.new }
{
    world.lemma_protocol();
    let _aborted = world.step(&Event::Abort);
}

/// A world whose two sides talk over a link of bytes, over any tables: each frame that an event sends goes over it in
/// that event. Once the link is lost every event is refused.
#[derive(Drop)]
pub struct SessionOf<T: Tables, L: Link + Drop> {
    world: SidesOf<T>,
    last: Option<Outcome>,
    link: L,
    carrier: Carrier<T::Heap>,
    frame: Vec<u8, T::Heap>,
    is_lost: bool,
    ghost room: { 16 ≤ vec_capacity frame },
    ghost empty: { is_lost ≡ false → IsEmpty carrier },
}

/// The session of the program, whose tables are maps and slabs, in memory that an allocator gives.
pub type Session<L, A = Global> = SessionOf<Maps<A>, L>;

impl<T: Tables, L: Link + Drop> SessionOf<T, L> {
    ghost use Rattle.fuse_spec.specs.World.Worlds.{first_world};

    /// A session before its first mount, over a link with nothing outstanding.
    ///
    /// # Errors
    ///
    /// `NoMemory`. The link is handed back.
    pub fn new(alloc: T::Heap, link: L) -> Result<Self, L>
        ensures first { IfOk result (λ session. session.world ≡ first_world) }
        ensures refines { IfOk result (λ session. Alike session.world first_plain) }
        ensures link { IfOk result (λ session. (session.link ≡ link) × (session.is_lost ≡ false)) }
        ensures last { IfOk result (λ session. session.last ≡ None) }
        ensures back { IfErr result (λ back. back ≡ link) }
    {
        let Ok(carrier) = Carrier::new(alloc) else {
            return Err(link);
        };
        let Ok(frame) = Vec::with_capacity(alloc, RESULT_LEN) else {
            return Err(link);
        };
        // Last, so that no world is dropped here.
        let Ok(world) = SidesOf::new(alloc) else {
            return Err(link);
        };
        Ok(SessionOf {
            world,
            last: None,
            link,
            carrier,
            frame,
            is_lost: false,
        })
    }

    /// Ends the session, and drops its link.
    pub fn end(self) {
        let SessionOf {
            world,
            last: _,
            link,
            carrier,
            frame,
            is_lost: _,
        } = self;
        world.end();
        drop(link);
        drop(carrier);
        drop(frame);
    }

    /// One event. A refused one changes nothing, but that no frame is the last put.
    ///
    /// # Errors
    ///
    /// `LinkLost`, once the link is lost, and else those of the world.
    pub fn step(&mut self, event: &Event<'_>) -> Result<Outcome, Refusal>
        ensures err { OnErr result ((self.new.world ≡ self.old.world) × (self.new.link ≡ self.old.link)
            × (self.new.is_lost ≡ self.old.is_lost)) }
        ensures too_late { self.old.is_lost ≡ true → result ≡ Err LinkLost }
        ensures refusal { self.old.is_lost ≡ false →
            IfErr result (RefusedWith self.old.world (event_of event.now)) }
        ensures accepted { IfOk result (λ _. self.old.is_lost ≡ false) }
        ensures happens { IfOk result (λ outcome. self.new.is_lost ≡ false →
            Happens self.old.world (event_of event.now) (outcome_of outcome) self.new.world) }
        // The envelope of the event, if it has one, was put on the link and got at the other end, and nothing else.
        ensures sent { IfOk result (λ outcome. self.new.is_lost ≡ false →
            IsSent self.new.world (outcome_of outcome) (L.carries self.old.link self.new.link)) }
        // Or it was lost, and the mount was aborted. If what was got is a beginning of what was put, the link has
        // failed.
        ensures lost { IfOk result (λ outcome. self.new.is_lost ≡ true →
            LosesIn self.old.world (event_of event.now) (outcome_of outcome) self.new.world
            (L.carries self.old.link self.new.link) (L.failed self.old.link) (L.failed self.new.link)) }
        ensures shows { IfOk result (λ outcome. self.new.is_lost ≡ false → IsShown self.new.world outcome) }
        ensures shown_after { IfOk result (IsShownAfter self.old.world (event_of event.now)) }
        ensures last { self.new.last ≡ result_ok result }
        ensures not_failed { self.new.is_lost ≡ false → L.failed self.new.link ≡ L.failed self.old.link }
        ensures lost_before { IfErr result (λ refusal. refusal ≡ LinkLost → self.old.is_lost ≡ true) }
        ensures refines { IfOk result (λ outcome. StepsOver self.old.world (event_of event.now) (outcome_of outcome)
            (session_of self.new.world self.new.is_lost)) }
        ensures session { SessionGoesOn (mounts_at (event_of event.now)) self.old.world self.new.world }
    {
        self.world.lemma_protocol();
        self.last = None;
        if self.is_lost {
            return Err(Refusal::LinkLost);
        }
        let outcome = match self.world.step(event) {
            Ok(outcome) => outcome,
            Err(refusal) => return Err(refusal),
        };
        self.carry(&outcome);
        self.last = Some(outcome);
        Ok(outcome)
    }

    /// Sends the envelope of an event with this outcome. Where it is lost the mount is aborted.
    fn carry(&mut self, outcome: &Outcome)
        requires open { self.old.is_lost ≡ false }
        requires out { IsOut self.old.world (outcome_of outcome.now) }
        ensures same { self.new.is_lost ≡ false → self.new.world ≡ self.old.world }
        ensures last { self.new.last ≡ self.old.last }
        ensures sent { self.new.is_lost ≡ false →
            IsSent self.old.world (outcome_of outcome.now) (L.carries self.old.link self.new.link) }
        ensures not_failed { self.new.is_lost ≡ false → L.failed self.new.link ≡ L.failed self.old.link }
        ensures lost { self.new.is_lost ≡ true →
            IsLostOn self.old.world (outcome_of outcome.now) (L.carries self.old.link self.new.link)
            (L.failed self.old.link) (L.failed self.new.link) }
        ensures aborts { self.new.is_lost ≡ true → Happens self.old.world abort aborted self.new.world }
    {
        let sent = send(
            &self.world,
            outcome,
            &mut self.frame,
            &mut self.link,
            &mut self.carrier,
        );
        if sent.is_err() {
            self.is_lost = true;
            abort_after_loss(&mut self.world);
        }
    }

    /// Whether the link is lost.
    pub fn is_lost(&self) -> bool
        ensures { result ≡ self.now.is_lost }
    {
        self.is_lost
    }

    /// Collects, once, the answer of the lowest answered call.
    pub fn collect(&mut self) -> Option<(u64, Answer<T::Heap>)>
        ensures answer { option_map (λ r. (r.0, answer_of r.1)) result
            ≡ slice_get self.old.world.kernel.vfs.answers 0 }
        ensures none { IfNone result (self.new.world ≡ self.old.world) }
        ensures taken { IfSome result (λ r. self.new.world ≡ call_collected self.old.world r.0) }
        ensures link { (self.new.link ≡ self.old.link) × (self.new.is_lost ≡ self.old.is_lost) }
        ensures last { self.new.last ≡ self.old.last }
        ensures refines { IfSome result (λ r. (p : Plain) → Alike self.old.world p →
            Alike self.new.world (plain_handed_out p r.0)) }
        ensures session { SessionGoesOn 0 self.old.world self.new.world }
    {
        self.world.collect()
    }

    /// A call without effect, for a caller's proof: what every event keeps is true of the session's world, it is alike
    /// to some plain world, and the reference protocol holds of it.
    pub fn lemma_protocol(&self)
        ensures sound { IsSoundWorld self.now.world }
        ensures refines { (p : Plain) × Alike self.now.world p }
        ensures keeps { Protocol self.now.world }
    {
        self.world.lemma_protocol();
    }

    /// The request or reply frame that the last step put on its link, as that of a world; none once it was lost there.
    pub fn last_put(&self) -> Option<&[u8]>
        ensures { IsLastPut self.now.world self.now.last (option_map (λ bytes. bytes.now) result) }
    {
        match &self.last {
            Some(outcome) => self.world.frame_of(outcome),
            None => None,
        }
    }

    /// The frame that an event with this outcome put on its link, as that of a world.
    pub fn frame_of(&self, outcome: &Outcome) -> Option<&[u8]>
        ensures { IsFrameOf self.now.world outcome.now (option_map (λ bytes. bytes.now) result) }
    {
        self.world.frame_of(outcome)
    }

    /// The nodes that the kernel counts, as those of a world.
    ///
    /// # Errors
    ///
    /// Where there is no memory for the list.
    pub fn kernel_nodes(&self) -> Result<Vec<NodeCount, T::Heap>, AllocError>
        ensures nodes { IfOk result (λ nodes. nodes.items ≡ listed_counts self.now.world.kernel.nodes) }
        ensures listed { IfOk result (λ nodes. AreListed nodes.items) }
    {
        self.world.kernel_nodes()
    }

    /// The nodes that the server holds, as those of a world.
    ///
    /// # Errors
    ///
    /// Where there is no memory for the list.
    pub fn server_nodes(&self) -> Result<Vec<NodeCount, T::Heap>, AllocError>
        ensures nodes { IfOk result (λ nodes. nodes.items ≡ listed_nodes self.now.world.server.nodes.rows) }
        ensures listed { IfOk result (λ nodes. AreListed nodes.items) }
    {
        self.world.server_nodes()
    }
}
