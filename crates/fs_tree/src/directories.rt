//! The directories that have names, by inode.

ghost use Rattle.std.specs.Prelude.{◌≡◌, ℕ, ◌++◌, ◌∷◌, [], not, filter, nat_eq, cond, IsSome, OnErr, OnOk};
ghost use Rattle.std.specs.Map.{lookup};
ghost use Rattle.fuse_spec.specs.Files.Trees.{same_name};
ghost use Rattle.fs_tree.specs.Stored.{AreBefore, entries_in};

use crate::entries::{Entries, Link};
use indexmap::IndexMap;
use std::alloc::{AllocError, Allocator};
use std::hash::{BuildHasherDefault, FoldHasher};

/// The names in each directory that has any. A hash map serves here, since no caller picks the keys: the server
/// allocates inodes itself, in rising order.
pub(crate) type Directories<A> = IndexMap<u64, Entries<A>, BuildHasherDefault<FoldHasher>, A>;

/// Sees to it that a directory is there, with no names if it is new.
pub(crate) fn open<A: Allocator + Copy>(
    directories: &mut Directories<A>,
    directory: u64,
    alloc: A,
) -> Result<(), AllocError>
    ensures there { OnOk result (IsSome (lookup (nat_eq directory) directories.new.entries)) }
    ensures same { (k : ℕ) → entries_in directories.new.entries k ≡ entries_in directories.old.entries k }
{
    if directories.get(&directory).is_some() {
        return Ok(());
    }
    let _none = directories.insert(directory, Entries::new(alloc))?;
    Ok(())
}

/// Takes a name away in a directory that is there, and puts it anew, last. Where memory is refused nothing changes.
pub(crate) fn put_last_in<A: Allocator + Copy>(
    directories: &mut Directories<A>,
    directory: u64,
    name: Vec<u8, A>,
    link: Link,
) -> Result<(), AllocError>
    requires there { IsSome (lookup (nat_eq directory) directories.old.entries) }
    requires last { AreBefore link.cookie (entries_in directories.old.entries directory) }
    ensures ok { OnOk result ((k : ℕ) → entries_in directories.new.entries k
        ≡ cond (nat_eq directory k) (filter (λ e. not (same_name e.name name.items))
        (entries_in directories.old.entries k) ++ record {
          name = name.items;
          file = link.file;
          cookie = link.cookie;
        } ∷ []) (entries_in directories.old.entries k)) }
    ensures unchanged { OnErr result ((k : ℕ) → entries_in directories.new.entries k
        ≡ entries_in directories.old.entries k) }
{
    match directories.get_mut(&directory) {
        Some(entries) => entries.put_last(name, link),
        None => Err(AllocError),
    }
}

/// Takes the name in a directory away.
pub(crate) fn remove_from<A: Allocator + Copy>(
    directories: &mut Directories<A>,
    directory: u64,
    name: &[u8],
)
    ensures { (k : ℕ) → entries_in directories.new.entries k
        ≡ cond (nat_eq directory k) (filter (λ e. not (same_name e.name name.now))
        (entries_in directories.old.entries k)) (entries_in directories.old.entries k) }
{
    if let Some(entries) = directories.get_mut(&directory) {
        entries.remove(name);
    }
}

/// Lets a directory without names go.
pub(crate) fn close<A: Allocator + Copy>(directories: &mut Directories<A>, directory: u64)
    ensures { (k : ℕ) → entries_in directories.new.entries k ≡ entries_in directories.old.entries k }
{
    let Some(entries) = directories.get(&directory) else {
        return;
    };
    if entries.is_empty() {
        let _entries = directories.swap_remove(&directory);
    }
}

/// Lets all directories without names go.
pub(crate) fn close_empty<A: Allocator + Copy>(directories: &mut Directories<A>)
    ensures { (k : ℕ) → entries_in directories.new.entries k ≡ entries_in directories.old.entries k }
{
    let _len = directories.len();
    directories.retain(|_, entries| !entries.is_empty());
}
