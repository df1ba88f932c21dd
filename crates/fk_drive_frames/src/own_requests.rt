//! The frames of OPENDIR and RELEASEDIR.

ghost use Rattle.std.specs.Prelude.{◌<◌, ◌^◌};
ghost use Rattle.fk_drive_frames.specs.OwnRequests.{IsOpendir, IsReleasedir};

use byteorder::{ByteOrder, LittleEndian};
use fuse_spec::Opened;

/// The first number of requests that are not the kernel's, 2^62.
pub const FIRST_OPENDIR_UNIQUE: u64 = 4_611_686_018_427_387_904;

/// Where these numbers end, 2^63: from then on none is asked.
pub const OPENDIR_UNIQUES_END: u64 = 9_223_372_036_854_775_808;

/// O_DIRECTORY, of open(2).
const O_DIRECTORY: u32 = 0x1_0000;

/// OPENDIR of a node under a number: a `struct fuse_open_in` behind its header.
#[tactic(auto, unfolding(fk_fields::specs::Fields::bytes_of))]
pub fn opendir(unique: u64, node: u64) -> [u8; 48]
    ensures { IsOpendir result unique node }
{
    let mut frame = [0u8; 48];
    LittleEndian::write_u32(&mut frame, 48);
    LittleEndian::write_u32(&mut frame[4..], 27);
    LittleEndian::write_u64(&mut frame[8..], unique);
    LittleEndian::write_u64(&mut frame[16..], node);
    LittleEndian::write_u32(&mut frame[40..], O_DIRECTORY);
    frame
}

/// RELEASEDIR of a directory under a number: a `struct fuse_release_in` behind its header.
#[tactic(auto, unfolding(fk_fields::specs::Fields::bytes_of))]
pub fn releasedir(unique: u64, opened: Opened) -> [u8; 64]
    ensures { IsReleasedir result unique opened }
{
    let mut frame = [0u8; 64];
    LittleEndian::write_u32(&mut frame, 64);
    LittleEndian::write_u32(&mut frame[4..], 29);
    LittleEndian::write_u64(&mut frame[8..], unique);
    LittleEndian::write_u64(&mut frame[16..], opened.nodeid);
    LittleEndian::write_u64(&mut frame[40..], opened.fh);
    LittleEndian::write_u32(&mut frame[48..], O_DIRECTORY);
    frame
}
