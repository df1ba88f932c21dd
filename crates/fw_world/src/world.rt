//! The world.

ghost use Rattle.std.specs.Prelude.{◌≡◌, OnErr, None};
ghost use Rattle.std.specs.Prelude.{IfOk, IfErr, IfNone, IfSome, length, option_map, slice_get};
ghost use Rattle.std.specs.Result.{result_ok};
ghost use Rattle.fuse_spec.specs.World.Steps.{Happens, RefusedWith};
ghost use Rattle.fuse_spec.specs.World.Worlds.{first_world};
ghost use Rattle.fuse_spec.specs.Claim.Counts.{Protocol};
ghost use Rattle.fuse_spec.specs.Reference.Plain.{Plain, first_plain};
ghost use Rattle.fuse_spec.specs.Claim.Alike.{Alike};
ghost use Rattle.fuse_spec.specs.Claim.Runs.{plain_handed_out};
ghost use Rattle.fuse_spec.specs.declared.Refusal.TheVariants.{NoMemory};
ghost use Rattle.fuse_theorem.specs.SoundWorlds.{IsSoundWorld};
ghost use Rattle.world_sessions.specs.KernelRules.{SessionGoesOn};
ghost use Rattle.world_sessions.specs.WorldTransfers.{mounts_at};
ghost use Rattle.fk_syscalls.specs.Values.{answer_of};
ghost use Rattle.fw_world.specs.Frames.{IsFrameOf, IsLastPut, IsShown};
ghost use Rattle.fk_lookup_count.specs.CountedNodes.{listed_counts};
ghost use Rattle.fs_nodes.specs.Rows.{listed_nodes};
ghost use Rattle.fw_world.specs.ListedNodes.{AreListed};
ghost use Rattle.fw_world.specs.Runs.{StepsAs, call_collected};
ghost use Rattle.fw_world.specs.Steps.{IsStep};
ghost use Rattle.fw_world.specs.Values.{event_of, outcome_of};

use crate::event::{Event, Outcome};
use crate::sides::SidesOf;
use crate::tables::{Lists, Maps, Tables};
use fk_kernel::Answer;
use fuse_spec::{NodeCount, Refusal};
use std::alloc::{AllocError, Global};

/// One kernel, one server and the links between them, with what the last step came to, over any tables.
#[derive(Drop)]
pub struct WorldOf<T: Tables> {
    pub(crate) sides: SidesOf<T>,
    last: Option<Outcome>,
}

/// The world of the program, whose tables are maps and slabs.
pub type World = WorldIn<Global>;

/// That world in memory that an allocator gives.
pub type WorldIn<A = Global> = WorldOf<Maps<A>>;

/// The same world over plain lists, to hold the other one against.
pub type ListWorld = ListWorldIn<Global>;

/// That world in memory that an allocator gives.
pub type ListWorldIn<A = Global> = WorldOf<Lists<A>>;

impl<T: Tables> WorldOf<T> {
    /// A world before its first mount, whose tree is the root alone.
    ///
    /// # Errors
    ///
    /// `NoMemory`.
    pub fn new(alloc: T::Heap) -> Result<Self, Refusal>
        ensures first { IfOk result (λ world. world.sides ≡ first_world) }
        ensures last { IfOk result (λ world. world.last ≡ None) }
        ensures refines { IfOk result (λ world. Alike world.sides first_plain) }
        ensures refusal { IfErr result (λ refusal. refusal ≡ NoMemory) }
    {
        let sides = SidesOf::new(alloc)?;
        Ok(WorldOf { sides, last: None })
    }

    /// Ends the world. It is a drop, whose parts are so proved in one crate, and not in each that has a world.
    pub fn end(self) {
        let WorldOf { sides, last: _ } = self;
        sides.end();
    }

    /// One event. A refused one changes nothing, but that no frame is the last put.
    ///
    /// # Errors
    ///
    /// Each event has its refusals in the order in which `Steps.antt` of the definitions judges them. `NoMemory` is the
    /// last of them: nothing else refuses the event, and `Settle`, `Interrupt`, `Tick`, `DropName`, `Evict` and `Abort`
    /// never get it; nor does `Take` of what is neither held nor answered, nor `Do` after an abort of what makes nothing.
    pub fn step(&mut self, event: &Event<'_>) -> Result<Outcome, Refusal>
        ensures step { IsStep self.old.sides (event_of event.now) result self.new.sides }
        ensures last { self.new.last ≡ result_ok result }
        ensures refines { IfOk result (λ outcome. StepsAs self.old.sides (event_of event.now)
            (outcome_of outcome) self.new.sides) }
        ensures session { SessionGoesOn (mounts_at (event_of event.now)) self.old.sides self.new.sides }
    {
        let result = self.sides.step(event);
        self.last = match result {
            Ok(outcome) => Some(outcome),
            Err(_) => None,
        };
        result
    }

    /// Collects, once, the answer of the lowest answered call.
    pub fn collect(&mut self) -> Option<(u64, Answer<T::Heap>)>
        ensures answer { option_map (λ r. (r.0, answer_of r.1)) result
            ≡ slice_get self.old.sides.kernel.vfs.answers 0 }
        ensures none { IfNone result (self.new.sides ≡ self.old.sides) }
        ensures taken { IfSome result (λ r. self.new.sides ≡ call_collected self.old.sides r.0) }
        ensures last { self.new.last ≡ self.old.last }
        ensures refines { IfSome result (λ r. (p : Plain) → Alike self.old.sides p
            → Alike self.new.sides (plain_handed_out p r.0)) }
        ensures session { SessionGoesOn 0 self.old.sides self.new.sides }
    {
        self.sides.collect()
    }

    /// How many answers wait to be collected.
    pub fn answered(&self) -> usize
        ensures { result ≡ length self.now.sides.kernel.vfs.answers }
    {
        self.sides.answered()
    }

    /// A call without effect, for a caller's proof: what every event keeps is true of the world, it is alike to some
    /// plain world, and the reference protocol holds of it.
    pub fn lemma_protocol(&self)
        ensures sound { IsSoundWorld self.now.sides }
        ensures refines { (p : Plain) × Alike self.now.sides p }
        ensures keeps { Protocol self.now.sides }
    {
        self.sides.lemma_protocol();
    }

    /// The request or reply frame that the last step put on a link; none after a refused step, or one that put none.
    pub fn last_put(&self) -> Option<&[u8]>
        ensures { IsLastPut self.now.sides self.now.last (option_map (λ bytes. bytes.now) result) }
    {
        match &self.last {
            Some(outcome) => self.sides.frame_of(outcome),
            None => None,
        }
    }

    /// The frame that an event with this outcome put, while nothing else was put on its link: of `Read` the request's,
    /// of `Done`, of `SentAgain` and of `Taken` with the word `Again` the reply's. Other events put none.
    pub fn frame_of(&self, outcome: &Outcome) -> Option<&[u8]>
        ensures { IsFrameOf self.now.sides outcome.now (option_map (λ bytes. bytes.now) result) }
    {
        self.sides.frame_of(outcome)
    }

    /// The nodes that the kernel counts, in rising id and without the root.
    ///
    /// # Errors
    ///
    /// Where there is no memory for the list.
    pub fn kernel_nodes(&self) -> Result<Vec<NodeCount, T::Heap>, AllocError>
        ensures nodes { IfOk result (λ nodes. nodes.items ≡ listed_counts self.now.sides.kernel.nodes) }
        ensures listed { IfOk result (λ nodes. AreListed nodes.items) }
    {
        self.sides.kernel_nodes()
    }

    /// The nodes that the server holds, in rising id and without the root.
    ///
    /// # Errors
    ///
    /// Where there is no memory for the list.
    pub fn server_nodes(&self) -> Result<Vec<NodeCount, T::Heap>, AllocError>
        ensures nodes { IfOk result (λ nodes. nodes.items ≡ listed_nodes self.now.sides.server.nodes.rows) }
        ensures listed { IfOk result (λ nodes. AreListed nodes.items) }
    {
        self.sides.server_nodes()
    }
}
