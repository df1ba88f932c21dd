//! One event of the server.

ghost use Rattle.std.specs.Prelude.{◌≡◌, IfErr, IfOk, OnErr};
ghost use Rattle.fs_server.specs.ServerSteps.{ServerDoes, ServerRefuses};

use crate::server::{Done, ServerFault, ServerOf, Taken};
use fs_nodes::NodeStore;
use fuse_frames::Sent;
use fuse_spec::limits::MAX_VALIDITY;
use fuse_spec::{Minor, Refusal, WriteResult};
use std::alloc::{Allocator, Global};

/// One event of the server. Bytes are borrowed.
#[derive(Clone, Copy, Debug)]
pub enum ServerEvent<'a> {
    /// A kernel mounts the server, which speaks this minor, with these validities of found and of missing names, in
    /// milliseconds.
    Mount {
        found_ms: u64,
        missing_ms: u64,
        minor: Minor,
    },
    /// These bytes are taken as a request. They may be any.
    Take(&'a [u8]),
    /// The request that is held under a unique is performed.
    Do(u64),
    /// One more copy of the reply that is kept under a unique is sent.
    Again(u64),
    /// The server gets what the writer of a copy got.
    Settle {
        copy: u64,
        result: WriteResult,
    },
    /// The connection is aborted.
    Abort,
}

/// What an accepted event of the server came to.
#[derive(Drop)]
pub enum ServerStep<A: Allocator = Global> {
    Mounted,
    Taken(Taken<A>),
    Done { unique: u64, done: Done<A> },
    SentAgain(Sent<A>),
    Settled { copy: u64, result: WriteResult },
    Aborted,
}

/// Why an event of the server is refused. The server is then as before.
#[derive(Clone, Copy, Debug, PartialEq, Eq)]
pub enum ServerRefused {
    Event(Refusal),
    /// The bytes that were to be taken are at fault. The reply says so to the kernel, where the fault has one.
    Frame {
        fault: ServerFault,
        reply: Option<[u8; 16]>,
    },
}

impl<S: NodeStore> ServerOf<S> {
    /// One event happens to the server.
    ///
    /// # Errors
    ///
    /// `BadTime` for a mount with a validity of more than a day, and else as the event's own call refuses it: out of memory
    /// last. The server is as before.
    pub fn step(&mut self, event: &ServerEvent<'_>) -> Result<ServerStep<S::Heap>, ServerRefused>
        ensures does { IfOk result (λ step. ServerDoes self.old event.now step self.new) }
        ensures refused { IfErr result (ServerRefuses self.old event.now) }
        ensures err { OnErr result (self.new ≡ self.old) }
    {
        match *event {
            ServerEvent::Mount {
                found_ms,
                missing_ms,
                minor,
            } => self.step_mount(found_ms, missing_ms, minor),
            ServerEvent::Take(bytes) => self.step_take(bytes),
            ServerEvent::Do(unique) => match self.perform(unique) {
                Ok(done) => Ok(ServerStep::Done { unique, done }),
                Err(refusal) => Err(ServerRefused::Event(refusal)),
            },
            ServerEvent::Again(unique) => match self.again(unique) {
                Ok(sent) => Ok(ServerStep::SentAgain(sent)),
                Err(refusal) => Err(ServerRefused::Event(refusal)),
            },
            ServerEvent::Settle { copy, result } => match self.settle(copy, result) {
                Ok(()) => Ok(ServerStep::Settled { copy, result }),
                Err(refusal) => Err(ServerRefused::Event(refusal)),
            },
            ServerEvent::Abort => {
                self.connection_lost();
                Ok(ServerStep::Aborted)
            }
        }
    }

    /// A kernel mounts the server, where its validities are at most a day each.
    fn step_mount(
        &mut self,
        found_ms: u64,
        missing_ms: u64,
        minor: Minor,
    ) -> Result<ServerStep<S::Heap>, ServerRefused>
        ensures does { IfOk result (λ step.
            ServerDoes self.old (ServerEvent.Mount found_ms missing_ms minor) step self.new) }
        ensures refused { IfErr result (ServerRefuses self.old (ServerEvent.Mount found_ms missing_ms minor)) }
        ensures err { OnErr result (self.new ≡ self.old) }
    {
        if found_ms > MAX_VALIDITY || missing_ms > MAX_VALIDITY {
            return Err(ServerRefused::Event(Refusal::BadTime));
        }
        self.remount(found_ms, missing_ms, minor);
        Ok(ServerStep::Mounted)
    }

    /// Bytes are taken as a request.
    fn step_take(&mut self, bytes: &[u8]) -> Result<ServerStep<S::Heap>, ServerRefused>
        ensures does { IfOk result (λ step. ServerDoes self.old (ServerEvent.Take bytes.entry) step self.new) }
        ensures refused { IfErr result (ServerRefuses self.old (ServerEvent.Take bytes.entry)) }
        ensures err { OnErr result (self.new ≡ self.old) }
    {
        match self.take(bytes) {
            Ok(taken) => Ok(ServerStep::Taken(taken)),
            Err(fault) => Err(ServerRefused::Frame {
                fault,
                reply: self.fault_reply(bytes, fault),
            }),
        }
    }
}
