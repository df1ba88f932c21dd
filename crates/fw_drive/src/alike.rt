//! Whether two servers answer a call alike.

use fk_kernel::{Answer, ListedName, Listing};
use fuse_spec::{Attributes, Kind};
use std::alloc::Allocator;

/// What the names begin with under which libfuse keeps files that were removed while they were open.
const HIDDEN: &[u8] = b".fuse_hidden";

/// Whether a name is of no file that a call made: of the directory itself or the one above, which not each server lists, or
/// of one that libfuse keeps, as it was removed while it was open.
fn is_own(name: &[u8]) -> bool {
    matches!(name, b"." | b"..") || name.strip_prefix(HIDDEN).is_some()
}

/// Whether two kinds in listings may be one: a server need not say it (readdir(3)).
fn may_be_same(one: Kind, other: Kind) -> bool {
    one == other || one == Kind::Other || other == Kind::Other
}

/// How many names there are of files that calls made.
fn count_names<A: Allocator>(names: &Listing<A>) -> usize {
    let mut count = 0_usize;
    for listed in names.iter() {
        if !is_own(listed.name) {
            count = count.saturating_add(1);
        }
    }
    count
}

/// Whether a list has a name, of a file of this kind as far as that is said.
fn lists<A: Allocator>(names: &Listing<A>, wanted: &ListedName<'_>) -> bool {
    names.iter().any(|listed| listed.name == wanted.name && may_be_same(listed.kind, wanted.kind))
}

/// Whether two lists have the same names in any order.
fn have_same_names<A: Allocator>(one: &Listing<A>, other: &Listing<A>) -> bool {
    count_names(one) == count_names(other)
        && one
            .iter()
            .all(|listed| is_own(listed.name) || lists(other, &listed))
}

/// Whether two files have the same kind, and the same size where it is no directory's.
fn have_same_attributes(one: Attributes, other: Attributes) -> bool {
    one.kind == other.kind && (one.kind == Kind::Directory || one.size == other.size)
}

/// Whether two answers say the same: the same kind of file, size, names, bytes or error. Inode numbers, offsets, numbers
/// of links, the sizes of directories and the order of names are each server's own.
pub(crate) fn are_alike<A: Allocator>(one: &Answer<A>, other: &Answer<A>) -> bool {
    match (one, other) {
        (Answer::Done, Answer::Done) => true,
        (Answer::Attributes(one), Answer::Attributes(other)) => have_same_attributes(*one, *other),
        (Answer::Listing(one), Answer::Listing(other)) => have_same_names(one, other),
        (Answer::Content(one), Answer::Content(other)) => one.as_slice() == other.as_slice(),
        (Answer::Written { size: one }, Answer::Written { size: other }) => one == other,
        (Answer::Failed { errno: one }, Answer::Failed { errno: other }) => one == other,
        _ => false,
    }
}
