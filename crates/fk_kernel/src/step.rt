//! One event of the kernel.

ghost use Rattle.std.specs.Prelude.{◌≡◌, IfErr, IfOk, OnErr};
ghost use Rattle.fk_kernel.specs.KernelSteps.{KernelDoes, KernelRefuses};

use crate::kernel::KernelOf;
use crate::read::Pick;
use fk_lookup_count::CountTable;
use fk_queues::QueueTable;
use fk_syscalls::Call;
use fuse_frames::RequestFrame;
use fuse_spec::{IntrEffect, Purpose, Refusal, WriteResult};
use std::alloc::{Allocator, Global};

/// One event of the kernel. Paths, names and bytes are borrowed.
#[derive(Clone, Copy, Debug)]
pub enum KernelEvent<'a> {
    /// The kernel mounts, and queues INIT.
    Mount,
    /// A system call begins.
    Call(Call<'a>),
    /// A request is read.
    Read(Pick),
    /// These bytes are written as a reply. They may be any.
    Write(&'a [u8]),
    /// An unanswered call is signalled, fatally or not.
    Interrupt { call: u64, fatal: bool },
    /// This many milliseconds pass.
    Tick(u64),
    /// The kernel forgets the name of a directory, which is a node.
    DropName { directory: u64, name: &'a [u8] },
    /// The kernel evicts a node, and its whole lookup count is to be forgotten.
    Evict(u64),
    /// The connection is aborted: every unanswered call is answered ECONNABORTED.
    Abort,
}

/// What an accepted event of the kernel came to. Answers of calls are collected from the kernel itself.
#[derive(Drop)]
pub enum KernelStep<A: Allocator = Global> {
    Mounted,
    Begun { call: u64 },
    /// The frame that was read, which goes to the server.
    Read(RequestFrame<A>),
    /// What the writer of a reply gets.
    Written(WriteResult),
    /// What the signal did to the call's request.
    Interrupted { call: u64, effect: IntrEffect },
    /// The time since the kernel began, in milliseconds.
    Now { clock: u64 },
    Dropped,
    /// The lookup count that is to be forgotten.
    Evicted { node: u64, count: u64 },
    Aborted,
}

impl<Q: QueueTable<Purpose>, C: CountTable<Heap = Q::Heap>> KernelOf<Q, C> {
    /// One event happens to the kernel.
    ///
    /// # Errors
    ///
    /// As the event's own call refuses it: out of memory last. The kernel is as before.
    pub fn step(&mut self, event: &KernelEvent<'_>) -> Result<KernelStep<Q::Heap>, Refusal>
        ensures does { IfOk result (λ step. KernelDoes self.old event.now step self.new) }
        ensures refused { IfErr result (KernelRefuses self.old event.now) }
        ensures err { OnErr result (self.new ≡ self.old) }
    {
        match *event {
            KernelEvent::Mount => {
                self.mount()?;
                Ok(KernelStep::Mounted)
            }
            KernelEvent::Call(call) => {
                let call = self.begin(&call)?;
                Ok(KernelStep::Begun { call })
            }
            KernelEvent::Read(pick) => Ok(KernelStep::Read(self.read(pick)?)),
            KernelEvent::Write(bytes) => Ok(KernelStep::Written(self.write(bytes)?)),
            KernelEvent::Interrupt { call, fatal } => {
                let effect = self.interrupt(call, fatal)?;
                Ok(KernelStep::Interrupted { call, effect })
            }
            KernelEvent::Tick(ms) => {
                let clock = self.tick(ms)?;
                Ok(KernelStep::Now { clock })
            }
            KernelEvent::DropName { directory, name } => {
                self.drop_binding(directory, name)?;
                Ok(KernelStep::Dropped)
            }
            KernelEvent::Evict(node) => {
                let count = self.evict(node)?;
                Ok(KernelStep::Evicted { node, count })
            }
            KernelEvent::Abort => {
                self.abort()?;
                Ok(KernelStep::Aborted)
            }
        }
    }
}
