//! Copies of the names that a directory's list has.

ghost use Rattle.std.specs.Prelude.{◌≡◌, map, IfOk};
ghost use Rattle.fk_syscalls.specs.Listings.{listed_dirent};
ghost use Rattle.fk_wire.specs.Records.{dirent_content, records_in};
ghost use Rattle.fuse_frames.specs.ReplyTies.{dirent_read};
ghost use Rattle.fk_nodes.specs.ListedFiles.{pairs_left_in};

use fk_syscalls::{ListedName, Listing};
use fk_wire::{Dirent, Records, RecordsPlus};
use fuse_frames::kind_of_type;
use std::alloc::{AllocError, Allocator};

/// The name that a record lists.
#[inline(always)]
fn name_of_dirent(dirent: Dirent<'_>) -> ListedName<'_>
    ensures { listed_dirent result ≡ dirent_read (dirent_content dirent.entry) }
{
    ListedName {
        ino: dirent.ino,
        offset: dirent.off,
        kind: kind_of_type(dirent.kind),
        name: dirent.name,
    }
}

/// A copy of the names of a list without their files.
///
/// # Errors
///
/// Out of memory.
pub fn names_of_dirents<A: Allocator + Copy>(
    alloc: A,
    records: Records<'_>,
) -> Result<Listing<A>, AllocError>
    ensures { IfOk result (λ names. names ≡ map dirent_read (records_in records.entry)) }
{
    // A record has at least 32 bytes, and its name is a part of it, so no push has to make room.
    let len = records.byte_len();
    let mut names = Listing::with_capacity(alloc, len / 32, len)?;
    for record in records {
        names.push(name_of_dirent(record))?;
    }
    Ok(names)
}

/// A copy of the names of a list with their files.
///
/// # Errors
///
/// Out of memory.
pub fn names_of_direntpluses<A: Allocator + Copy>(
    alloc: A,
    pairs: RecordsPlus<'_>,
) -> Result<Listing<A>, AllocError>
    ensures { IfOk result (λ names. names ≡ map (λ pair. pair.dirent) (pairs_left_in pairs.entry)) }
{
    // Names of up to 16 bytes have room; longer ones make the text grow.
    let count = pairs.count_left();
    let mut names = Listing::with_capacity(alloc, count, 16 * count)?;
    for pair in pairs {
        names.push(name_of_dirent(pair.dirent))?;
    }
    Ok(names)
}
