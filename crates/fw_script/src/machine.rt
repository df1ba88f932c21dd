//! What runs the events of a script: a world, or a session over a link.

ghost use Rattle.std.specs.Prelude.{◌≡◌, ◌++◌, List, IfOk, OnErr, OnOk, option_map};
ghost use Rattle.fw_script.specs.Scripts.{Machine as MachineBy, session_machine, world_machine};
ghost use Rattle.fw_world.specs.declared.record.Record.{Record as RecordValue};

use fuse_spec::NodeCount;
use fw_link::Link;
use fw_world::{Event, Outcome, Record, SessionOf, SidesOf, Tables, WorldOf, run};
use std::alloc::{AllocError, Allocator};
use std::slice::from_ref;

/// The nodes of one side.
pub(crate) type Nodes<A> = Vec<NodeCount, A>;

/// What runs events.
pub(crate) trait Machine<A: Allocator> {
    /// What contracts see of it.
    type State;

    ghost state: { Self → Self.State };

    ghost acts: { MachineBy Self.State A };

    /// Runs one event, and appends its records. Where memory runs out for them it has not run.
    fn run(&mut self, event: &Event<'_>, records: &mut Vec<Record<A>, A>) -> Result<(), AllocError>
        ensures ran { OnOk result ((added : List (RecordValue A)) × (records.new.items ≡ records.old.items ++ added)
            × acts.runs (state self.old) event.now added (state self.new)) }
        ensures err { OnErr result (state self.new ≡ state self.old) };

    fn frame_of(&self, outcome: &Outcome) -> Option<&[u8]>
        ensures { acts.puts (state self.now) outcome.now (option_map (λ bytes. bytes.now) result) };

    fn kernel_nodes(&self) -> Result<Nodes<A>, AllocError>
        ensures { IfOk result (λ nodes. nodes.items ≡ acts.counted (state self.now)) };

    fn server_nodes(&self) -> Result<Nodes<A>, AllocError>
        ensures { IfOk result (λ nodes. nodes.items ≡ acts.held (state self.now)) };
}

impl<T: Tables> Machine<T::Heap> for WorldOf<T> {
    type State = SidesOf<T>;

    ghost state = { λ world. world.sides };

    ghost acts = { world_machine T.Heap };

    fn run(
        &mut self,
        event: &Event<'_>,
        records: &mut Vec<Record<T::Heap>, T::Heap>,
    ) -> Result<(), AllocError> {
        self.lemma_protocol();
        match run(self, from_ref(event), records) {
            Ok(()) => Ok(()),
            Err(_) => Err(AllocError),
        }
    }

    fn frame_of(&self, outcome: &Outcome) -> Option<&[u8]> {
        WorldOf::frame_of(self, outcome)
    }

    fn kernel_nodes(&self) -> Result<Nodes<T::Heap>, AllocError> {
        WorldOf::kernel_nodes(self)
    }

    fn server_nodes(&self) -> Result<Nodes<T::Heap>, AllocError> {
        WorldOf::server_nodes(self)
    }
}

impl<T: Tables, L: Link + Drop> Machine<T::Heap> for SessionOf<T, L> {
    type State = (SidesOf<T>, bool, L);

    ghost state = { λ session. (session.world, session.is_lost, session.link) };

    ghost acts = { session_machine T.Heap L L.carries L.failed };

    fn run(
        &mut self,
        event: &Event<'_>,
        records: &mut Vec<Record<T::Heap>, T::Heap>,
    ) -> Result<(), AllocError> {
        match SessionOf::run(self, from_ref(event), records) {
            Ok(()) => Ok(()),
            Err(_) => Err(AllocError),
        }
    }

    fn frame_of(&self, outcome: &Outcome) -> Option<&[u8]> {
        SessionOf::frame_of(self, outcome)
    }

    fn kernel_nodes(&self) -> Result<Nodes<T::Heap>, AllocError> {
        SessionOf::kernel_nodes(self)
    }

    fn server_nodes(&self) -> Result<Nodes<T::Heap>, AllocError> {
        SessionOf::server_nodes(self)
    }
}
