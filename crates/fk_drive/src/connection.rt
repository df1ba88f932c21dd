//! What is kept of a kernel's connection to a server.

ghost use Rattle.std.specs.Prelude.{◌≡◌};

use fk_drive_frames::FIRST_OPENDIR_UNIQUE;
use fuse_spec::Opened;
use std::alloc::Allocator;

/// A directory that OPENDIR opened, and the number of the READDIR or READDIRPLUS for which it did.
#[derive(Clone, Copy, Debug, PartialEq, Eq)]
pub struct Directory {
    pub unique: u64,
    pub opened: Opened,
}

/// What is kept of a connection: the frames that wait for the kernel, in order, and what OPENDIR gave.
#[derive(Drop)]
pub struct Connection<A: Allocator + Copy> {
    pub(crate) alloc: A,
    pub(crate) waiting: Vec<Vec<u8, A>, A>,
    pub(crate) next: u64,
    pub(crate) asks: bool,
    pub(crate) directories: Vec<Directory, A>,
    /// Where frames are received; zeroed once.
    pub(crate) room: Vec<u8, A>,
}

impl<A: Allocator + Copy> Connection<A> {
    ghost use Rattle.fk_drive.specs.Driving.{first_driven};
    ghost use Rattle.fk_drive.specs.Driven.{driven};
    ghost use Rattle.fk_drive.specs.Driving.{idle};
    ghost use Rattle.fuse_spec.specs.World.Worlds.{first_kernel};

    /// A new connection, on which OPENDIR goes before what lists a directory, if it `asks`.
    pub fn new(alloc: A, asks: bool) -> Self
        ensures { driven first_kernel result idle ≡ first_driven asks }
    {
        Connection {
            alloc,
            waiting: Vec::new(alloc),
            next: FIRST_OPENDIR_UNIQUE,
            asks,
            directories: Vec::new(alloc),
            room: Vec::new(alloc),
        }
    }
}
