//! The directories of the names that lead to a file, by file.

ghost use Rattle.std.specs.Prelude.{◌≡◌, ℕ, ◌++◌, ◌∷◌, [], not, filter, length, nat_eq, cond, slice_get, option_map, IsSome, OnErr, OnOk};
ghost use Rattle.std.specs.Map.{lookup};
ghost use Rattle.fs_tree.specs.Stored.{AreKeysBelow, parents_in};

use indexmap::IndexMap;
use std::alloc::{AllocError, Allocator};
use std::collections::BTreeMap;
use std::hash::{BuildHasherDefault, FoldHasher};
use std::marker::Model;

/// The directories of the names that lead to a file, by the cookies of the names.
///
/// Nearly every file has one name. It stands here, and takes no memory of its own. A name that comes while there is
/// another stands in a map, and stays there when the first one goes.
#[derive(Drop)]
pub(crate) struct Parents<A: Allocator> {
    /// Its cookie and its directory.
    first: Option<(u64, u64)>,
    later: BTreeMap<u64, u64, A>,
}

impl<A: Allocator> Model for Parents<A> {
    ghost use Rattle.std.specs.Prelude.{List, ℕ, ◌++◌, option_to_list};

    ghost Value = { List (ℕ × ℕ) };

    ghost view = { λ p. option_to_list p.first ++ p.later.entries };
}

/// The directories of each file that has names. A hash map serves here, since no caller picks the keys: the server
/// allocates inodes itself, in rising order.
pub(crate) type ParentsByFile<A> = IndexMap<u64, Parents<A>, BuildHasherDefault<FoldHasher>, A>;

impl<A: Allocator + Copy> Parents<A> {
    fn new(alloc: A) -> Self
        ensures { result ≡ [] }
    {
        Parents {
            first: None,
            later: BTreeMap::new(alloc),
        }
    }

    /// How many names lead to the file.
    pub(crate) fn len(&self) -> usize
        ensures { result ≡ length self.now }
    {
        let later = self.later.len();
        match self.first {
            Some(_) => later + 1,
            None => later,
        }
    }

    /// The directory of the first name.
    pub(crate) fn first(&self) -> Option<u64>
        ensures { result ≡ option_map (λ e. e.1) (slice_get self.now 0) }
    {
        if let Some((_, directory)) = self.first {
            return Some(directory);
        }
        match self.later.first_key_value() {
            Some((_, directory)) => Some(*directory),
            None => None,
        }
    }

    /// Puts a name last. Where memory is refused nothing changes.
    fn put_last(&mut self, cookie: u64, directory: u64) -> Result<(), AllocError>
        requires { AreKeysBelow cookie self.old }
        ensures ok { OnOk result (self.new ≡ self.old ++ (cookie, directory) ∷ []) }
        ensures unchanged { OnErr result (self.new ≡ self.old) }
    {
        if self.first.is_none() && self.later.is_empty() {
            self.first = Some((cookie, directory));
            return Ok(());
        }
        let _none = self.later.insert(cookie, directory)?;
        Ok(())
    }

    /// Takes a name away.
    fn remove(&mut self, cookie: u64)
        ensures { self.new ≡ filter (λ e. not (nat_eq e.0 cookie)) self.old }
    {
        let _len = self.later.len();
        let _directory = self.later.remove(&cookie);
        if let Some((first, _)) = self.first {
            if first == cookie {
                self.first = None;
            }
        }
    }
}

/// Sees to it that a file is there, with no names if it is new.
pub(crate) fn open<A: Allocator + Copy>(
    parents: &mut ParentsByFile<A>,
    file: u64,
    alloc: A,
) -> Result<(), AllocError>
    ensures there { OnOk result (IsSome (lookup (nat_eq file) parents.new.entries)) }
    ensures same { (k : ℕ) → parents_in parents.new.entries k ≡ parents_in parents.old.entries k }
{
    if parents.get(&file).is_some() {
        return Ok(());
    }
    let _none = parents.insert(file, Parents::new(alloc))?;
    Ok(())
}

/// Puts a name of a file that is there, last. Where memory is refused nothing changes.
pub(crate) fn put_last_in<A: Allocator + Copy>(
    parents: &mut ParentsByFile<A>,
    file: u64,
    cookie: u64,
    directory: u64,
) -> Result<(), AllocError>
    requires there { IsSome (lookup (nat_eq file) parents.old.entries) }
    requires last { AreKeysBelow cookie (parents_in parents.old.entries file) }
    ensures ok { OnOk result ((k : ℕ) → parents_in parents.new.entries k
        ≡ cond (nat_eq file k) (parents_in parents.old.entries k ++ (cookie, directory) ∷ [])
        (parents_in parents.old.entries k)) }
    ensures unchanged { OnErr result ((k : ℕ) → parents_in parents.new.entries k ≡ parents_in parents.old.entries k) }
{
    match parents.get_mut(&file) {
        Some(of_file) => of_file.put_last(cookie, directory),
        None => Err(AllocError),
    }
}

/// Takes a name of a file away.
pub(crate) fn remove_from<A: Allocator + Copy>(
    parents: &mut ParentsByFile<A>,
    file: u64,
    cookie: u64,
)
    ensures { (k : ℕ) → parents_in parents.new.entries k
        ≡ cond (nat_eq file k) (filter (λ e. not (nat_eq e.0 cookie)) (parents_in parents.old.entries k))
        (parents_in parents.old.entries k) }
{
    if let Some(of_file) = parents.get_mut(&file) {
        of_file.remove(cookie);
    }
}

/// Lets a file without names go.
pub(crate) fn close<A: Allocator + Copy>(parents: &mut ParentsByFile<A>, file: u64)
    ensures { (k : ℕ) → parents_in parents.new.entries k ≡ parents_in parents.old.entries k }
{
    let Some(of_file) = parents.get(&file) else {
        return;
    };
    if of_file.len() == 0 {
        let _parents = parents.swap_remove(&file);
    }
}
