//! The names that were given.

ghost use Rattle.std.specs.Prelude.{◌≡◌, ℕ, List, OnOk, true, false, if◌then◌else◌, nat_eq, Some};
ghost use Rattle.std.specs.Cmp.Lexicographic.{pointwise};
ghost use Rattle.name_sessions.specs.Names.{Name, same_name};
ghost use Rattle.name_judge.specs.Kept.{name_of};
ghost use Rattle.name_judge.specs.Given.{holds, has_bytes};

use crate::kept::KeptName;
use std::alloc::{AllocError, Allocator};
use std::collections::{BTreeMap, BTreeSet};

/// The bytes of names in one directory.
pub(crate) type Names<A> = BTreeSet<Vec<u8, A>, A>;

/// The names in each directory that has any.
pub(crate) type Given<A> = BTreeMap<u64, Names<A>, A>;

/// Whether a name was given.
pub(crate) fn is_given<A: Allocator>(given: &Given<A>, parent: u64, bytes: &[u8]) -> bool
    ensures { result ≡ holds given.now.entries (parent, bytes.now) }
{
    match given.get(&parent) {
        Some(names) => names.contains(bytes),
        None => false,
    }
}

/// Puts bytes among others.
fn put_bytes<A: Allocator + Copy>(names: &mut Names<A>, bytes: Vec<u8, A>) -> Result<(), AllocError>
    ensures { OnOk result ((bs : List ℕ) → has_bytes (Some names.new) bs
        ≡ (if pointwise nat_eq bytes.items bs then true else has_bytes (Some names.old) bs)) }
{
    let _new = names.insert(bytes)?;
    Ok(())
}

/// Takes bytes away from others.
fn take_bytes<A: Allocator>(names: &mut Names<A>, bytes: &[u8])
    ensures { (bs : List ℕ) → has_bytes (Some names.new) bs
        ≡ (if pointwise nat_eq bytes.now bs then false else has_bytes (Some names.old) bs) }
{
    let _was = names.remove(bytes);
}

/// A name is given.
///
/// # Errors
///
/// Out of memory.
pub(crate) fn give<A: Allocator + Copy>(
    given: &mut Given<A>,
    alloc: A,
    name: KeptName<A>,
) -> Result<(), AllocError>
    ensures { OnOk result ((n : Name) → holds given.new.entries n
        ≡ (if same_name (name_of name) n then true else holds given.old.entries n)) }
{
    if let Some(names) = given.get_mut(&name.parent) {
        return put_bytes(names, name.bytes);
    }
    let mut names = BTreeSet::new(alloc);
    put_bytes(&mut names, name.bytes)?;
    let _none = given.insert(name.parent, names)?;
    Ok(())
}

/// A name is taken away.
pub(crate) fn lose<A: Allocator>(given: &mut Given<A>, name: &KeptName<A>)
    ensures { (n : Name) → holds given.new.entries n
        ≡ (if same_name (name_of name.now) n then false else holds given.old.entries n) }
{
    if let Some(names) = given.get_mut(&name.parent) {
        take_bytes(names, &name.bytes);
    }
}

/// The names of a directory are taken away.
pub(crate) fn leave<A: Allocator>(given: &mut Given<A>, node: u64)
    ensures { (n : Name) → holds given.new.entries n
        ≡ (if nat_eq node n.0 then false else holds given.old.entries n) }
{
    let _names = given.remove(&node);
}
