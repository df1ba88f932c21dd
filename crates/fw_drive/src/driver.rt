//! A kernel and its connection to a server.

ghost use Rattle.std.specs.Prelude.{◌≡◌, IfNone, IfOk, IfSome, List, OnErr, option_map, slice_get};
ghost use Rattle.fuse_spec.specs.Values.Maps.{remove};
ghost use Rattle.fuse_device.specs.Transfers.{Transfer};
ghost use Rattle.fk_syscalls.specs.Values.{answer_of};
ghost use Rattle.fk_drive.specs.Driving.{Turn, first_driven, idle};
ghost use Rattle.fk_drive.specs.Notings.{HasNoted};
ghost use Rattle.fk_drive_frames.specs.declared.filling.FreeFields.{FreeFields as Fields};
ghost use Rattle.fk_lookup_count.specs.CountedNodes.{listed_counts};
ghost use Rattle.fw_world.specs.Acts.{Acts};
ghost use Rattle.fw_drive.specs.Moves.{Moves, sends, writes};
ghost use Rattle.fw_drive.specs.Runs.{Keeps, at};
ghost use Rattle.fw_drive.specs.Views as views;
ghost use Rattle.fuse_spec.specs.Kernel.Kernel.{is_live as is_live_phase};

use crate::source::Standing;
use crate::view::KernelView;
use fk_drive::{
    Connection, DriveEnd, FreeFields, NotSent, Notes as FrameNotes, Written, send_next, write_next,
};
use fk_kernel::{Answer, KernelOf, Listing, Pick};
use fk_lookup_count::CountTable;
use fk_queues::QueueTable;
use fuse_device::Device;
use fuse_frames::RequestFrame;
use fuse_spec::{Dentry, NodeCount, Purpose, Refusal};
use fw_world::{Event, Outcome, Tables, act_alone};
use std::alloc::{AllocError, Allocator};
use std::marker::Model;

/// A kernel, its connection to a server, and what is said in fields that are free.
#[derive(Drop)]
pub(crate) struct Driver<T: Tables> {
    alloc: T::Heap,
    kernel: KernelOf<T::Queues, T::Counts>,
    connection: Connection<T::Heap>,
    free_fields: FreeFields,
    /// The number that the next call gets: the kernel numbers calls from 1 on, and a new mount goes on.
    next_call: u64,
    /// The offset of the last name in the answer to the newest call.
    listed_to: Option<u64>,
}

/// The offset of the last of the names that a directory lists.
fn last_offset<A: Allocator>(names: &Listing<A>) -> Option<u64>
    ensures { result ≡ views.last_offset names.now }
{
    let mut offset = None;
    for listed in names.iter() {
        offset = Some(listed.offset);
    }
    offset
}

/// The offset of the last name that an answer lists.
fn listed_to<A: Allocator>(answer: &Answer<A>) -> Option<u64>
    ensures { result ≡ views.listed_to (answer_of answer.now) }
{
    match answer {
        Answer::Listing(names) => last_offset(names),
        _ => None,
    }
}

/// The first of these nodes that may be evicted.
fn first_unused<Q: QueueTable<Purpose>, C: CountTable<Heap = Q::Heap>>(
    kernel: &KernelOf<Q, C>,
    nodes: &[NodeCount],
) -> Option<u64>
    ensures { result ≡ views.first_unused kernel.now nodes.now }
{
    for node in nodes {
        if kernel.evict_refusal(node.nodeid).is_none() {
            return Some(node.nodeid);
        }
    }
    None
}

// What is driven, between requests.
impl<T: Tables> Model for Driver<T> {
    ghost use Rattle.std.specs.Coded.{codes};
    ghost use Rattle.fk_drive.specs.Driven.{driven};
    ghost use Rattle.fk_drive.specs.Driving.{Driven, idle};

    ghost Value = { Driven };

    ghost coded = { Prim.hlevel (codes) };

    ghost view = { λ d. driven d.kernel d.connection idle };
}

impl<T: Tables> Driver<T> {
    /// A kernel before its first mount. OPENDIR goes before what lists a directory if it `asks`.
    pub(crate) fn new(alloc: T::Heap, asks: bool, free_fields: FreeFields) -> Self
        ensures { result ≡ first_driven asks }
    {
        Driver {
            alloc,
            kernel: KernelOf::new(alloc),
            connection: Connection::new(alloc, asks),
            free_fields,
            next_call: 1,
            listed_to: None,
        }
    }

    /// Ends the kernel and its connection.
    pub(crate) fn end(self) {
        let Driver {
            alloc: _,
            kernel,
            connection,
            free_fields: _,
            next_call: _,
            listed_to: _,
        } = self;
        kernel.end();
        drop(connection);
    }

    /// OPEN is sent with these flags from now on.
    pub(crate) fn open_with(&mut self, flags: u32)
        ensures { Keeps self.old self.new }
    {
        self.free_fields.open_flags = flags;
    }

    /// An event happens that moves the kernel without its server. Any other is refused.
    ///
    /// # Errors
    ///
    /// As the kernel refuses it. Nothing is then changed.
    pub(crate) fn act(&mut self, event: &Event<'_>) -> Result<Outcome, Refusal>
        ensures does { IfOk result (λ outcome. Acts self.old.kernel event.now outcome self.new.kernel) }
        ensures err { OnErr result (self.new.kernel ≡ self.old.kernel) }
        ensures same { self.new ≡ record self.old { kernel = self.new.kernel } }
    {
        if matches!(event, Event::Call(_)) {
            self.listed_to = None;
        }
        match act_alone(&mut self.kernel, event) {
            Ok(outcome) => {
                if let Outcome::Begun { call } = outcome {
                    self.next_call = call.saturating_add(1);
                }
                Ok(outcome)
            }
            Err(refusal) => Err(refusal),
        }
    }

    /// The answer of the lowest call that has one. It is collected then.
    pub(crate) fn collect(&mut self) -> Option<(u64, Answer<T::Heap>)>
        ensures first { option_map (λ given. (given.0, answer_of given.1)) result
            ≡ slice_get self.old.kernel.vfs.answers 0 }
        ensures some { IfSome result (λ given. self.new.kernel ≡ record self.old.kernel {
          vfs = record self.old.kernel.vfs { answers = remove self.old.kernel.vfs.answers given.0 };
        }) }
        ensures none { IfNone result (self.new.kernel ≡ self.old.kernel) }
        ensures same { self.new ≡ record self.old { kernel = self.new.kernel } }
    {
        let collected = self.kernel.collect();
        if let Some((_, answer)) = &collected {
            self.listed_to = listed_to(answer);
        }
        collected
    }

    /// Reads a request from the kernel, and sends it. What is not for the kernel is noted as it comes.
    ///
    /// # Errors
    ///
    /// As the kernel refuses it, or the run came to its end.
    pub(crate) fn send<D: Device, N: FrameNotes<O>, O>(
        &mut self,
        device: &mut D,
        notes: &mut N,
        out: &mut O,
        pick: Pick,
    ) -> Result<RequestFrame<T::Heap>, NotSent>
        ensures moves { (fields : Fields) × (turn : Turn) × (log : List Transfer) × D.logs device.old device.new log
            × Moves {A = T.Heap} (at self.old idle) (sends pick fields result) log (at self.new turn) }
        ensures noted { HasNoted N.notes notes.old notes.new out.old out.new }
    {
        let free_fields = self.free_fields;
        send_next(
            &mut self.kernel,
            &mut self.connection,
            device,
            notes,
            out,
            pick,
            free_fields,
        )
    }

    /// Writes the next frame of the server to the kernel. Where RELEASEDIR goes behind it, its reply is awaited. What is not
    /// for the kernel is noted as it comes. `Err` of the inner result is why the kernel refuses: the frame then waits.
    ///
    /// # Errors
    ///
    /// The run came to its end before there was one.
    pub(crate) fn receive<D: Device, N: FrameNotes<O>, O>(
        &mut self,
        device: &mut D,
        notes: &mut N,
        out: &mut O,
    ) -> Result<Result<Written<T::Heap>, Refusal>, DriveEnd>
        ensures moves { (turn : Turn) × (log : List Transfer) × D.logs device.old device.new log
            × Moves {A = T.Heap} (at self.old idle) (writes result) log (at self.new turn) }
        ensures noted { HasNoted N.notes notes.old notes.new out.old out.new }
    {
        write_next(&mut self.kernel, &mut self.connection, device, notes, out)
    }

    /// The number of the request that serves a call, if there is one.
    pub(crate) fn request_for(&self, call: u64) -> Option<u64> {
        self.kernel.request_for(call)
    }

    /// Whether a call waits for its answer.
    pub(crate) fn is_asking(&self) -> bool {
        self.kernel.unanswered() != 0
    }

    /// What the kernel has just then.
    pub(crate) fn standing(&self) -> Standing {
        let mut pending = 0;
        for place in 0..u64::MAX {
            if self.kernel.read_refusal(Pick::Pending(place)).is_some() {
                break;
            }
            pending = place + 1;
        }
        Standing {
            calls: self.kernel.unanswered(),
            pending,
            is_interrupting: self.kernel.read_refusal(Pick::Interrupt).is_none(),
            is_forgetting: self.kernel.read_refusal(Pick::Forgets(1)).is_none(),
            next_call: self.next_call,
        }
    }

    /// The nodes that the kernel counts, in rising id.
    pub(crate) fn nodes(&self) -> Result<Vec<NodeCount, T::Heap>, AllocError>
        ensures { IfOk result (λ nodes. nodes.items ≡ listed_counts self.now.kernel.nodes) }
    {
        self.kernel.nodes(self.alloc)
    }
}

impl<T: Tables> Driver<T> {
    /// Whether the kernel is mounted, and the connection is not aborted.
    fn is_live(&self) -> bool
        ensures { result ≡ is_live_phase self.now.kernel.phase }
    {
        !matches!(self.kernel.evict_refusal(0), Some(Refusal::NotReady))
    }
}

impl<T: Tables> KernelView for Driver<T> {
    ghost use Rattle.fuse_spec.specs.Values.Maps.{get_name};
    ghost use Rattle.fw_drive.specs.Views.{IsDroppable, first_evictable};

    ghost leads = { λ driver directory name. get_name driver.kernel.vfs.names (directory, name) };

    ghost drops = { λ driver name. IsDroppable driver.kernel name };

    ghost evicts = { λ driver. first_evictable driver.kernel };

    fn cached_name(&self, directory: u64, name: &[u8]) -> Option<Dentry> {
        self.kernel.cached_name(directory, name)
    }

    fn first_cached_name(&self) -> Option<(u64, &[u8])> {
        if !self.is_live() {
            return None;
        }
        self.kernel.first_cached_name()
    }

    fn first_evictable(&self) -> Result<Option<u64>, AllocError> {
        let nodes = self.kernel.nodes(self.alloc)?;
        Ok(first_unused(&self.kernel, nodes.as_slice()))
    }

    fn listed_to(&self) -> Option<u64> {
        self.listed_to
    }
}
