//! The cached names.
ghost use Rattle.std.specs.Prelude.{◌≡◌, ◌≢◌, ℕ, [], None, MatchOption, OnErr, OnOk, IfOk, IfSome, IsOk, IsSome, is_some, vec_len};
ghost use Rattle.fuse_spec.specs.Values.Maps.{Place, get_name, put_name, remove_name};
ghost use Rattle.fuse_spec.specs.Calls.Vfs.{valid_at};
ghost use Rattle.fk_dentry.specs.CachedNames.{HasRoom, found_by, names_the_node, restored};

use crate::found::Found;
use crate::key::DentryKey;
use crate::node_counts::NodeCounts;
use crate::rows::{Rows, add, bind, first_bound, slot, take_out};
use fuse_spec::Dentry;
use std::alloc::{AllocError, Allocator, Global};
use std::collections::BTreeMap;
use std::marker::Model;

/// The cached names: each name of a directory that is bound, with the node to which it leads, if any, and the time
/// in milliseconds from which it is valid no more.
///
/// A dentry whose time has passed says nothing, but it stays until it is replaced or removed. Only `reserve` and `bind`
/// take memory.
///
/// What each call costs, for `n` names, whatever they are:
///
/// | Call | Time |
/// |---|---|
/// | `find`, `bound`, `names_node`, `remove` | log `n` steps |
/// | `put`, `reserve`, `bind`, `restore` | log `n` steps, on the whole of many calls: at times one moves all counts of nodes |
/// | `first`, `clear` | `n` steps |
#[derive(Drop)]
pub struct Bindings<A: Allocator = Global> {
    rows: Rows<A>,
    nodes: NodeCounts<A>,
    alloc: A,
}

impl<A: Allocator> Model for Bindings<A> {
    ghost use Rattle.fk_dentry.specs.Counts.{mentions_of, total_in};
    ghost use Rattle.std.specs.Coded.{codes};
    ghost use Rattle.fk_dentry.specs.CachedNames.{NamesInForce, names_code};
    ghost use Rattle.fk_dentry.specs.Rows.{slots_of, bound_names, IsNameTable};

    ghost Value = { NamesInForce };

    ghost coded = { names_code };

    ghost view = { λ b. record { names = bound_names (slots_of b.rows.entries); slots = slots_of b.rows.entries } };

    ghost invariant = { λ b. IsNameTable (slots_of b.rows.entries) (mentions_of b.nodes.counts.entries)
        (total_in b.nodes.counts.entries) b.nodes.most };
}

impl<A: Allocator + Copy> Bindings<A> {
    /// No names.
    pub fn new(alloc: A) -> Self
        ensures { result.names ≡ [] }
    {
        Bindings {
            rows: BTreeMap::new(alloc),
            nodes: NodeCounts::new(alloc),
            alloc,
        }
    }

    /// What a name leads to at a time in milliseconds: only before its end.
    pub fn find(&self, directory: u64, name: &[u8], now: u64) -> Found
        ensures { result ≡ found_by (valid_at now (get_name self.now.names (directory, name.now))) }
    {
        match self.bound(directory, name) {
            Some(dentry) if now < dentry.until => match dentry.target {
                None => Found::Missing,
                Some(node) => Found::Node(node),
            },
            _ => Found::Unknown,
        }
    }

    /// What a name is bound to, also after its end.
    pub fn bound(&self, directory: u64, name: &[u8]) -> Option<Dentry>
        ensures { result ≡ get_name self.now.names (directory, name.now) }
    {
        slot(&self.rows, directory, name)?
    }

    /// A name that is bound, if one is: its directory, and it. It may be past its end.
    pub fn first(&self) -> Option<(u64, &[u8])>
        ensures { MatchOption result (self.now.names ≡ []) (λ n. IsSome (get_name self.now.names (n.0, n.1.now))) }
    {
        first_bound(&self.rows)
    }

    /// Makes room for a name: from then on a `put` of it takes no memory, until it is removed or all are cleared.
    ///
    /// # Errors
    ///
    /// Out of memory: the name had no room. Nothing changed.
    pub fn reserve(&mut self, directory: u64, name: &[u8]) -> Result<(), AllocError>
        ensures names { self.new.names ≡ self.old.names }
        ensures room { OnOk result (HasRoom self.new (directory, name.now)) }
        ensures kept { (other : Place) → HasRoom self.old other → HasRoom self.new other }
        ensures succeeds { HasRoom self.old (directory, name.now) → IsOk result }
    {
        if slot(&self.rows, directory, name).is_some() {
            return Ok(());
        }
        self.nodes.reserve(self.rows.len() + 1)?;
        let name = name.to_vec(self.alloc)?;
        add(&mut self.rows, DentryKey::new(directory, name), None)?;
        Ok(())
    }

    /// Binds a name that has room to a node or to none, until a time in milliseconds. It replaces what was bound.
    pub fn put(&mut self, directory: u64, name: &[u8], target: Option<u64>, until: u64)
        requires { HasRoom self.old (directory, name.now) }
        ensures names { self.new.names ≡ put_name self.old.names (directory, name.now)
            (record { target = target; until = until }) }
        ensures kept { (other : Place) → HasRoom self.old other → HasRoom self.new other }
    {
        let _was = self.set(directory, name, Dentry { target, until });
    }

    /// `reserve` and `put` with one search where the name has room. Gives what the name was bound to.
    ///
    /// # Errors
    ///
    /// Out of memory: the name had no room. Nothing changed.
    pub fn bind(
        &mut self,
        directory: u64,
        name: &[u8],
        target: Option<u64>,
        until: u64,
    ) -> Result<Option<Dentry>, AllocError>
        ensures was { IfOk result (λ was. was ≡ get_name self.old.names (directory, name.now)) }
        ensures names { OnOk result (self.new.names ≡ put_name self.old.names (directory, name.now)
            (record { target = target; until = until })) }
        ensures undone { IfOk result (λ was. restored self.new.names (directory, name.now) was ≡ self.old.names) }
        ensures room { OnOk result (HasRoom self.new (directory, name.now)) }
        ensures unchanged { OnErr result (self.new.names ≡ self.old.names) }
        ensures kept { (other : Place) → HasRoom self.old other → HasRoom self.new other }
        ensures succeeds { HasRoom self.old (directory, name.now) → IsOk result }
    {
        let dentry = Dentry { target, until };
        if let Some(was) = self.set(directory, name, dentry) {
            return Ok(was);
        }
        self.bind_new(directory, name, dentry)?;
        Ok(None)
    }

    /// Undoes `bind`, which gave this dentry, or none.
    pub fn restore(&mut self, directory: u64, name: &[u8], was: Option<Dentry>)
        requires { HasRoom self.old (directory, name.now) }
        ensures names { self.new.names ≡ restored self.old.names (directory, name.now) was }
        ensures kept { (other : Place) → other ≢ (directory, name.now) → HasRoom self.old other
            → HasRoom self.new other }
    {
        match was {
            Some(dentry) => self.put(directory, name, dentry.target, dentry.until),
            None => {
                let _dentry = self.take_out(directory, name);
            }
        }
    }

    /// Binds a name if it has room, and gives what stood there.
    fn set(&mut self, directory: u64, name: &[u8], dentry: Dentry) -> Option<Option<Dentry>>
        ensures stood { result ≡ get_name self.old.slots (directory, name.now) }
        ensures was { IfSome result (λ was. was ≡ get_name self.old.names (directory, name.now)) }
        ensures names { IsSome result → self.new.names ≡ put_name self.old.names (directory, name.now) dentry }
        ensures undone { IfSome result (λ was. restored self.new.names (directory, name.now) was ≡ self.old.names) }
        ensures absent { result ≡ None → self.new ≡ self.old }
        ensures kept { (other : Place) → HasRoom self.old other → HasRoom self.new other }
    {
        let stood = bind(&mut self.rows, directory, name, dentry)?;
        self.nodes.replace(directory, stood, dentry.target);
        Some(stood)
    }

    /// Binds a name that has no room.
    fn bind_new(&mut self, directory: u64, name: &[u8], dentry: Dentry) -> Result<(), AllocError>
        requires { get_name self.old.slots (directory, name.now) ≡ None }
        ensures unbound { OnOk result (get_name self.old.names (directory, name.now) ≡ None) }
        ensures names { OnOk result (self.new.names ≡ put_name self.old.names (directory, name.now) dentry) }
        ensures undone { OnOk result (remove_name self.new.names (directory, name.now) ≡ self.old.names) }
        ensures room { OnOk result (HasRoom self.new (directory, name.now)) }
        ensures unchanged { OnErr result (self.new.names ≡ self.old.names) }
        ensures kept { (other : Place) → HasRoom self.old other → HasRoom self.new other }
    {
        self.nodes.reserve(self.rows.len() + 1)?;
        let name = name.to_vec(self.alloc)?;
        add(
            &mut self.rows,
            DentryKey::new(directory, name),
            Some(dentry),
        )?;
        self.nodes.enter(directory, dentry.target);
        Ok(())
    }

    /// Removes the dentry of a name and its room. Says whether it was bound, also after its end.
    pub fn remove(&mut self, directory: u64, name: &[u8]) -> bool
        ensures bound { result ≡ is_some (get_name self.old.names (directory, name.now)) }
        ensures names { self.new.names ≡ remove_name self.old.names (directory, name.now) }
        ensures kept { (other : Place) → other ≢ (directory, name.now) → HasRoom self.old other
            → HasRoom self.new other }
    {
        self.take_out(directory, name).is_some()
    }

    fn take_out(&mut self, directory: u64, name: &[u8]) -> Option<Dentry>
        ensures bound { result ≡ get_name self.old.names (directory, name.now) }
        ensures names { self.new.names ≡ remove_name self.old.names (directory, name.now) }
        ensures kept { (other : Place) → other ≢ (directory, name.now) → HasRoom self.old other
            → HasRoom self.new other }
    {
        let dentry = take_out(&mut self.rows, directory, name);
        self.nodes.leave(directory, dentry);
        dentry
    }

    /// Removes all dentries, and their room.
    pub fn clear(&mut self)
        ensures { self.new.names ≡ [] }
    {
        self.rows.clear();
        self.nodes.clear();
    }

    /// Whether a dentry names the node, as its directory or as its target, also after its end.
    pub fn names_node(&self, id: u64) -> bool
        ensures { result ≡ names_the_node id self.now.names }
    {
        self.nodes.contains(id)
    }
}
