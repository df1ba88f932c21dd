//! Both sides and the links between them.

ghost use Rattle.std.specs.Prelude.{◌≡◌, OnErr};
ghost use Rattle.std.specs.Prelude.{IfOk, IfErr, IfNone, IfSome, length, option_map, slice_get};
ghost use Rattle.fuse_spec.specs.World.Events as event;
ghost use Rattle.fuse_spec.specs.World.Steps.{Happens, IsRefused, RefusedWith};
ghost use Rattle.fuse_spec.specs.World.Worlds.{World as WorldState, first_world};
ghost use Rattle.fuse_spec.specs.Claim.Counts.{Protocol};
ghost use Rattle.fuse_spec.specs.Reference.Plain.{Plain, first_plain};
ghost use Rattle.fuse_spec.specs.Claim.Alike.{Alike};
ghost use Rattle.fuse_spec.specs.Claim.Runs.{plain_handed_out};
ghost use Rattle.fuse_spec.specs.declared.Refusal.TheVariants.{NoMemory};
ghost use Rattle.fuse_theorem.specs.SoundWorlds.{IsSoundWorld};
ghost use Rattle.world_sessions.specs.KernelRules.{SessionGoesOn};
ghost use Rattle.world_sessions.specs.WorldTransfers.{mounts_at};
ghost use Rattle.fk_syscalls.specs.Values.{answer_of};
ghost use Rattle.fw_world.specs.Frames.{IsFrameOf, IsShown};
ghost use Rattle.fk_lookup_count.specs.CountedNodes.{listed_counts};
ghost use Rattle.fs_nodes.specs.Rows.{listed_nodes};
ghost use Rattle.fw_world.specs.ListedNodes.{AreListed};
ghost use Rattle.fw_world.specs.Steps.{IsStep};
ghost use Rattle.fw_world.specs.Runs.{StepsAs, call_collected};
ghost use Rattle.fw_world.specs.Values.{event_of, outcome_of};

mod counters;
mod kernel_events;
mod last_sent;
mod refusals;
mod server_events;

use crate::event::{Event, Outcome};
use crate::links::clear_links;
use crate::tables::Tables;
use fk_kernel::{Answer, KernelOf};
use fs_server::ServerOf;
use fuse_frames::{RequestFrame, Sent};
use fuse_spec::limits::MAX_VALIDITY;
use fuse_spec::{Minor, NodeCount, Refusal, ReplyResult, Taken};
use std::alloc::AllocError;
use std::collections::VecDeque;
use std::marker::Model;

/// One kernel, one server, and the links of requests, of replies and of the results of replies between them, over any
/// tables.
#[derive(Drop)]
pub struct SidesOf<T: Tables> {
    kernel: KernelOf<T::Queues, T::Counts>,
    server: ServerOf<T::Nodes>,
    requests: VecDeque<RequestFrame<T::Heap>, T::Heap>,
    replies: VecDeque<Sent<T::Heap>, T::Heap>,
    results: VecDeque<ReplyResult, T::Heap>,
}

impl<T: Tables> Model for SidesOf<T> {
    ghost use Rattle.std.specs.Coded.{codes};
    ghost use Rattle.fuse_spec.specs.World.Worlds.{World as WorldState};
    ghost use Rattle.fuse_theorem.specs.SoundWorlds.{IsSoundWorld};

    ghost Value = { WorldState };

    ghost coded = { Prim.hlevel (codes) };

    ghost view = { λ w. record {
      kernel = w.kernel;
      server = w.server;
      requests = w.requests.items;
      replies = w.replies.items;
      results = w.results.items;
    } };

    ghost invariant = { λ w. IsSoundWorld (record {
      kernel = w.kernel;
      server = w.server;
      requests = w.requests.items;
      replies = w.replies.items;
      results = w.results.items;
    }) };
}

impl<T: Tables> SidesOf<T> {
    /// Both sides before the first mount, with a tree of the root alone.
    ///
    /// # Errors
    ///
    /// `NoMemory`.
    pub fn new(alloc: T::Heap) -> Result<Self, Refusal>
        ensures first { IfOk result (λ world. world ≡ first_world) }
        ensures refines { IfOk result (λ world. Alike world first_plain) }
        ensures refusal { IfErr result (λ refusal. refusal ≡ NoMemory) }
    {
        let Ok(server) = ServerOf::new(alloc) else {
            return Err(Refusal::NoMemory);
        };
        Ok(SidesOf {
            kernel: KernelOf::new(alloc),
            server,
            requests: VecDeque::new(alloc),
            replies: VecDeque::new(alloc),
            results: VecDeque::new(alloc),
        })
    }

    /// Ends both sides. It is a drop, whose parts are so proved in one crate, and not in each that has a world.
    pub fn end(self) {
        let SidesOf {
            kernel,
            server,
            requests,
            replies,
            results,
        } = self;
        kernel.end();
        server.end();
        drop(requests);
        drop(replies);
        drop(results);
    }

    /// One event. A refused one changes nothing.
    ///
    /// # Errors
    ///
    /// Each event has its refusals in the order in which `Steps.antt` of the definitions judges them. `NoMemory` is the
    /// last of them: nothing else refuses the event, and `Settle`, `Interrupt`, `Tick`, `DropName`, `Evict` and `Abort`
    /// never get it.
    pub fn step(&mut self, event: &Event<'_>) -> Result<Outcome, Refusal>
        ensures step { IsStep self.old (event_of event.now) result self.new }
        ensures refines { IfOk result (λ outcome. StepsAs self.old (event_of event.now) (outcome_of outcome) self.new) }
        ensures session { SessionGoesOn (mounts_at (event_of event.now)) self.old self.new }
    {
        self.lemma_protocol();
        self.dispatch(event)
    }

    /// Runs one event, by its kind.
    fn dispatch(&mut self, event: &Event<'_>) -> Result<Outcome, Refusal>
        ensures { IsStep self.old (event_of event.now) result self.new }
    {
        match event {
            Event::Mount {
                found_ms,
                missing_ms,
                minor,
            } => self.mount(*found_ms, *missing_ms, *minor),
            Event::Read(pick) => self.read(*pick),
            Event::Take(place) => self.take(*place),
            Event::Do(unique) => self.perform(*unique),
            Event::Again(unique) => self.again(*unique),
            Event::Write(place) => self.write(*place),
            Event::Settle(place) => self.settle(*place),
            Event::Abort => self.abort(),
            Event::Call(_)
            | Event::Interrupt { .. }
            | Event::Tick(_)
            | Event::DropName { .. }
            | Event::Evict(_) => self.alone(event),
        }
    }

    /// Collects, once, the answer of the lowest answered call.
    pub fn collect(&mut self) -> Option<(u64, Answer<T::Heap>)>
        ensures answer { option_map (λ r. (r.0, answer_of r.1)) result ≡ slice_get self.old.kernel.vfs.answers 0 }
        ensures none { IfNone result (self.new ≡ self.old) }
        ensures taken { IfSome result (λ r. self.new ≡ call_collected self.old r.0) }
        ensures refines { IfSome result (λ r. (p : Plain) → Alike self.old p
            → Alike self.new (plain_handed_out p r.0)) }
        ensures session { SessionGoesOn 0 self.old self.new }
    {
        self.lemma_protocol();
        self.kernel.collect()
    }

    /// How many answers wait to be collected.
    pub fn answered(&self) -> usize
        ensures { result ≡ length self.now.kernel.vfs.answers }
    {
        self.kernel.answered()
    }

    /// How many calls are unanswered.
    pub(crate) fn unanswered(&self) -> usize
        ensures { result ≡ length self.now.kernel.vfs.calls }
    {
        self.kernel.unanswered()
    }

    /// A call without effect, for a caller's proof: what every event keeps is true of the world, it is alike to some
    /// plain world, and the reference protocol holds of it.
    pub fn lemma_protocol(&self)
        ensures sound { IsSoundWorld self.now }
        ensures refines { (p : Plain) × Alike self.now p }
        ensures keeps { Protocol self.now }
    {
        // A field is touched so that the type's invariant is at hand.
        let _ = &self.kernel;
    }

    /// The frame that an event with this outcome put, while nothing else was put on its link: of `Read` the request's,
    /// of `Done`, of `SentAgain` and of `Taken` with the word `Again` the reply's. Other events put none.
    pub fn frame_of(&self, outcome: &Outcome) -> Option<&[u8]>
        ensures { IsFrameOf self.now outcome.now (option_map (λ bytes. bytes.now) result) }
    {
        match outcome {
            Outcome::Read { .. } => self.last_request(),
            Outcome::Taken {
                word: Taken::Again,
                ..
            }
            | Outcome::Done { .. }
            | Outcome::SentAgain { .. } => match self.last_copy() {
                Some((_, frame)) => Some(frame),
                None => None,
            },
            _ => None,
        }
    }

    /// The nodes that the kernel counts, in rising id and without the root.
    ///
    /// # Errors
    ///
    /// Where there is no memory for the list.
    pub fn kernel_nodes(&self) -> Result<Vec<NodeCount, T::Heap>, AllocError>
        ensures nodes { IfOk result (λ nodes. nodes.items ≡ listed_counts self.now.kernel.nodes) }
        ensures listed { IfOk result (λ nodes. AreListed nodes.items) }
    {
        self.lemma_protocol();
        self.kernel.lemma_counts_in_range();
        self.kernel.nodes(*self.requests.allocator())
    }

    /// The nodes that the server holds, in rising id and without the root.
    ///
    /// # Errors
    ///
    /// Where there is no memory for the list.
    pub fn server_nodes(&self) -> Result<Vec<NodeCount, T::Heap>, AllocError>
        ensures nodes { IfOk result (λ nodes. nodes.items ≡ listed_nodes self.now.server.nodes.rows) }
        ensures listed { IfOk result (λ nodes. AreListed nodes.items) }
    {
        self.lemma_protocol();
        self.server.lemma_sound();
        self.server.nodes(*self.requests.allocator())
    }

    fn mount(&mut self, found_ms: u64, missing_ms: u64, minor: Minor) -> Result<Outcome, Refusal>
        ensures { IsStep self.old (event.mount found_ms missing_ms minor) result self.new }
    {
        if found_ms > MAX_VALIDITY || missing_ms > MAX_VALIDITY {
            return Err(Refusal::BadTime);
        }
        if let Err(refusal) = self.kernel.mount() {
            return Err(refusal);
        }
        self.server.remount(found_ms, missing_ms, minor);
        clear_links(&mut self.requests, &mut self.replies, &mut self.results);
        Ok(Outcome::Mounted)
    }

    fn abort(&mut self) -> Result<Outcome, Refusal>
        ensures { IsStep self.old event.abort result self.new }
    {
        if let Err(refusal) = self.kernel.abort() {
            return Err(refusal);
        }
        self.server.connection_lost();
        clear_links(&mut self.requests, &mut self.replies, &mut self.results);
        Ok(Outcome::Aborted)
    }
}
