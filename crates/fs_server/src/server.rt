//! The server: its state, and what is true of it.

ghost use Rattle.std.specs.Prelude.{◌≡◌, false, IfOk};
ghost use Rattle.fuse_spec.specs.World.Worlds.{first_server};
ghost use Rattle.fs_nodes.specs.Rows.{listed_nodes};
ghost use Rattle.fs_nodes.specs.Sound.{IsSoundNodeTable};
ghost use Rattle.fs_files.specs.Bounds.{AreNamed};
ghost use Rattle.fs_server.specs.Sound.{AreApart};
ghost use Rattle.fuse_spec.specs.Server.Refusals.{is_server_past_end};

use crate::replies::{KeptReply, SentCopy};
use fs_files::{Files, HeldRequest};
use fs_nodes::{ListNodes, NodeStore, NodeTable};
use fuse_frames::Sent;
use fuse_spec::{Minor, NodeCount, Validity};
use fuse_tables::RisingTable;
use std::alloc::{AllocError, Allocator, Global};
use std::marker::Model;
use thiserror::Error;

/// What is wrong with a request frame: the first that applies.
#[derive(Clone, Copy, Debug, PartialEq, Eq, Error)]
pub enum ServerFault {
    #[error("the frame is no request")]
    Wire = 1,
    #[error("the request names a node that is not held")]
    UnknownNode = 2,
    #[error("more lookups are forgotten than the node has")]
    TooManyForgets = 3,
    #[error("a request under this unique is held, or its reply is kept")]
    RepeatedUnique = 4,
    #[error("a counter is at its end")]
    Exhausted = 5,
    #[error("out of memory")]
    Memory = 6,
}

/// What performing a request came to: the reply's error, and its first copy. After an abort there is no copy.
#[derive(Drop)]
pub struct Done<A: Allocator = Global> {
    pub errno: u32,
    pub sent: Option<Sent<A>>,
}

/// What became of a request that was taken, and the copy of a reply that was sent at once: that to an INTERRUPT of a
/// request that is not known.
#[derive(Drop)]
pub struct Taken<A: Allocator = Global> {
    pub unique: u64,
    pub word: fuse_spec::Taken,
    pub sent: Option<Sent<A>>,
}

/// The most bytes of memory that are kept for the next frame.
const MOST_SPARE: usize = 256;

/// The server's half of the protocol, over any table of held nodes.
#[derive(Drop)]
pub struct ServerOf<S: NodeStore> {
    pub(crate) alloc: S::Heap,
    pub(crate) files: Files<S>,
    pub(crate) held: RisingTable<HeldRequest<S::Heap>, S::Heap>,
    pub(crate) kept: RisingTable<KeptReply<S::Heap>, S::Heap>,
    pub(crate) copies: RisingTable<SentCopy<S::Heap>, S::Heap>,
    pub(crate) next_copy: u64,
    pub(crate) validity: Validity,
    pub(crate) minor: Minor,
    pub(crate) is_aborted: bool,
    /// The memory of a frame that was given back.
    pub(crate) spare: Vec<u8, S::Heap>,
}

/// The server of the program.
pub type Server<A = Global> = ServerOf<NodeTable<A>>;

/// The server whose nodes stand in a plain list.
pub type ListServer<A = Global> = ServerOf<ListNodes<A>>;

impl<S: NodeStore> Model for ServerOf<S> {
    ghost use Rattle.std.specs.Coded.{codes};
    ghost use Rattle.fuse_spec.specs.Server.Server.{Server as ServerState};
    ghost use Rattle.fs_server.specs.Values.{server_with};
    ghost use Rattle.fs_server.specs.Sound.{IsSoundServer};

    ghost Value = { ServerState };

    ghost coded = { Prim.hlevel (codes) };

    ghost view = { λ s. server_with s.files s.held.entries s.kept.entries s.copies.entries s.next_copy
        s.validity s.minor s.is_aborted };

    ghost invariant = { λ s. IsSoundServer s.files s.held.entries s.kept.entries s.copies.entries s.next_copy
        s.validity };
}

impl<S: NodeStore> ServerOf<S> {
    /// A server before its first mount: its tree is the root alone.
    ///
    /// # Errors
    ///
    /// Out of memory.
    pub fn new(alloc: S::Heap) -> Result<Self, AllocError>
        ensures { IfOk result (λ server. server ≡ first_server) }
    {
        let files = Files::new(alloc)?;
        Ok(ServerOf {
            alloc,
            files,
            held: RisingTable::new(alloc),
            kept: RisingTable::new(alloc),
            copies: RisingTable::new(alloc),
            next_copy: 1,
            validity: Validity {
                found_ms: 0,
                missing_ms: 0,
            },
            minor: Minor::M31,
            is_aborted: false,
            spare: Vec::new(alloc),
        })
    }

    /// Gives back the frame of a reply that has reached the kernel: the next reply is written into its memory. That of a
    /// long frame goes.
    pub fn reuse(&mut self, copy: Sent<S::Heap>)
        ensures { self.new ≡ self.old }
    {
        let room = copy.into_bytes();
        if room.capacity() <= MOST_SPARE {
            self.spare = room;
        }
    }

    /// No counter has given a number past its end, 2^62.
    pub fn lemma_in_range(&self)
        ensures { is_server_past_end self.now ≡ false }
    {
        self.files.lemma_in_range();
    }

    /// After each call a file without a name is that of a node or of a file handle. Each held node has a generation,
    /// and each file handle and copy a number, that was given before the coming one. What a call gives is the coming
    /// one, and none goes back, so no pair of nodeid and generation and no file handle is given twice (libfuse's
    /// low-level notes ask this of a server).
    pub fn lemma_sound(&self)
        ensures named { AreNamed self.now.tree self.now.nodes self.now.handles }
        ensures nodes { IsSoundNodeTable self.now.nodes }
        ensures apart { AreApart self.now.held self.now.kept self.now.copies self.now.next_copy }
    {
        self.files.lemma_sound();
    }

    /// Whether the mount was aborted: then no copy is sent until the next one.
    pub fn is_aborted(&self) -> bool
        ensures { result ≡ self.now.aborted }
    {
        self.is_aborted
    }

    /// The minor in use since the last mount.
    pub fn minor(&self) -> Minor
        ensures { result ≡ self.now.minor }
    {
        self.minor
    }

    /// The held nodes but the root, in rising nodeid, each with its generation and its lookup count.
    ///
    /// # Errors
    ///
    /// Out of memory.
    pub fn nodes(&self, alloc: S::Heap) -> Result<Vec<NodeCount, S::Heap>, AllocError>
        ensures { IfOk result (λ nodes. nodes.items ≡ listed_nodes self.now.nodes.rows) }
    {
        self.files.nodes().nodes(alloc)
    }
}

impl<S: NodeStore> ServerOf<S> {
    /// Ends the server. It is a drop, whose parts are so proved in one crate, and not in each that has a server.
    pub fn end(self) {
        self.files.end();
    }
}
