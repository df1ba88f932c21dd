//! How many dentries name each node.
ghost use Rattle.std.specs.Prelude.{◌≡◌, ◌≢◌, ℕ, ◌+◌, ◌*◌, ◌<◌, ◌≤◌, Some, [], cond, length, nat_eq, nat_lt, OnOk, IsTrue};
ghost use Rattle.fuse_spec.specs.Values.Maps.{get};
ghost use Rattle.fk_dentry.specs.Counts.{mentions_of, total_in};
ghost use Rattle.fk_dentry.specs.Named.{times, named, named_by};

use fuse_spec::Dentry;
use fuse_tables::RisingTable;
use std::alloc::{AllocError, Allocator};

/// How many dentries name each node that one names, as their directory or as their target. A count that falls to 0 goes,
/// and its room comes back.
#[derive(Drop)]
pub(crate) struct NodeCounts<A: Allocator> {
    pub counts: RisingTable<u64, A>,
    /// How high the sum of the counts can rise with no memory.
    pub most: usize,
    ghost used: { (id : ℕ) → get counts.entries id ≢ Some 0 },
    ghost fits: { most ≤ length counts.entries + counts.room },
}

impl<A: Allocator + Copy> NodeCounts<A> {
    pub fn new(alloc: A) -> Self
        ensures { result.counts.entries ≡ [] }
    {
        NodeCounts {
            counts: RisingTable::new(alloc),
            most: 0,
        }
    }

    /// Makes room for the counts of this many names, each of which names two nodes at most.
    ///
    /// # Errors
    ///
    /// Out of memory. The counts are as before.
    pub fn reserve(&mut self, names: usize) -> Result<(), AllocError>
        ensures counts { self.new.counts.entries ≡ self.old.counts.entries }
        ensures room { OnOk result (2 * names ≤ self.new.most) }
        ensures kept { self.old.most ≤ self.new.most }
    {
        let Some(most) = names.checked_mul(2) else {
            return Err(AllocError);
        };
        if most <= self.most {
            return Ok(());
        }
        self.counts.reserve(most.saturating_sub(self.counts.len()))?;
        self.most = most;
        Ok(())
    }

    /// Whether a dentry names the node.
    pub fn contains(&self, id: u64) -> bool
        ensures { result ≡ nat_lt 0 (mentions_of self.now.counts.entries id) }
    {
        self.counts.get(id).is_some()
    }

    #[inline(always)]
    fn add(&mut self, id: u64)
        requires { total_in self.old.counts.entries < self.old.most }
        ensures count { (q : ℕ) → mentions_of self.new.counts.entries q
            ≡ mentions_of self.old.counts.entries q + cond (nat_eq q id) 1 0 }
        ensures total { total_in self.new.counts.entries ≡ total_in self.old.counts.entries + 1 }
        ensures most { self.new.most ≡ self.old.most }
    {
        if let Some(count) = self.counts.get_mut(id) {
            *count += 1;
            return;
        }
        self.counts.put(id, 1);
    }

    fn remove(&mut self, id: u64)
        requires { 0 < mentions_of self.old.counts.entries id }
        ensures count { (q : ℕ) → mentions_of self.new.counts.entries q + cond (nat_eq q id) 1 0
            ≡ mentions_of self.old.counts.entries q }
        ensures total { total_in self.new.counts.entries + 1 ≡ total_in self.old.counts.entries }
        ensures most { self.new.most ≡ self.old.most }
    {
        let Some(count) = self.counts.get_mut(id) else {
            // Ruled out: a dentry names the node.
            return;
        };
        if *count > 1 {
            *count -= 1;
            return;
        }
        let _last = self.counts.remove(id);
    }

    /// A dentry replaces another, if there was one.
    pub fn replace(&mut self, directory: u64, old: Option<Dentry>, target: Option<u64>)
        requires named { (q : ℕ) → times q (named_by directory old) ≤ mentions_of self.old.counts.entries q }
        requires room { total_in self.old.counts.entries + 2 ≤ self.old.most + length (named_by directory old) }
        ensures count { (q : ℕ) → mentions_of self.new.counts.entries q + times q (named_by directory old)
            ≡ mentions_of self.old.counts.entries q + times q (named directory target) }
        ensures total { total_in self.new.counts.entries + length (named_by directory old)
            ≡ total_in self.old.counts.entries + length (named directory target) }
        ensures most { self.new.most ≡ self.old.most }
    {
        if names_the_same(old, target) {
            return;
        }
        self.leave(directory, old);
        self.enter(directory, target);
    }

    /// A dentry is new.
    pub fn enter(&mut self, directory: u64, target: Option<u64>)
        requires { total_in self.old.counts.entries + 2 ≤ self.old.most }
        ensures count { (q : ℕ) → mentions_of self.new.counts.entries q
            ≡ mentions_of self.old.counts.entries q + times q (named directory target) }
        ensures total { total_in self.new.counts.entries
            ≡ total_in self.old.counts.entries + length (named directory target) }
        ensures most { self.new.most ≡ self.old.most }
    {
        self.add(directory);
        let Some(id) = target else {
            return;
        };
        self.add(id);
    }

    /// A dentry is gone, if there was one.
    #[inline(always)]
    pub fn leave(&mut self, directory: u64, dentry: Option<Dentry>)
        requires { (q : ℕ) → times q (named_by directory dentry) ≤ mentions_of self.old.counts.entries q }
        ensures count { (q : ℕ) → mentions_of self.new.counts.entries q + times q (named_by directory dentry)
            ≡ mentions_of self.old.counts.entries q }
        ensures total { total_in self.new.counts.entries + length (named_by directory dentry)
            ≡ total_in self.old.counts.entries }
        ensures most { self.new.most ≡ self.old.most }
    {
        let Some(dentry) = dentry else {
            return;
        };
        self.remove(directory);
        let Some(id) = dentry.target else {
            return;
        };
        self.remove(id);
    }

    /// No dentry is left.
    pub fn clear(&mut self)
        ensures { self.new.counts.entries ≡ [] }
    {
        self.counts.clear();
        // No name has room from here on.
        self.most = 0;
    }
}

/// Whether there is a dentry, with this target.
fn names_the_same(dentry: Option<Dentry>, target: Option<u64>) -> bool
    ensures { IsTrue result → (directory : ℕ) → named_by directory dentry ≡ named directory target }
{
    let Some(dentry) = dentry else {
        return false;
    };
    dentry.target == target
}
