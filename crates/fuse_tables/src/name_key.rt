//! Names as keys of an ordered map.

ghost use Rattle.std.specs.Prelude.{◌≡◌, IsTrue};
ghost use Rattle.std.specs.declared.cmp.Ordering.TheVariants.{Equal};
ghost use Rattle.std.specs.Ordering.{nat_cmp};
ghost use Rattle.std.specs.Cmp.Lexicographic.{slice_cmp};
ghost use Rattle.fuse_tables.specs.NameFronts.{front_of};

use crate::name_front::front_of;
use std::alloc::{Allocator, Global};
use std::cmp::Ordering;
use std::collections::btree_map::Comparable;
use std::marker::Model;

/// A name as a key. Keys stand in the order of the number of the name's first eight bytes, so that most differ without a
/// look at the name, and then of all its bytes.
#[derive(Drop)]
pub struct NameKey<A: Allocator = Global> {
    front: u64,
    name: Vec<u8, A>,
}

impl<A: Allocator> Model for NameKey<A> {
    ghost use Rattle.std.specs.Prelude.{◌≡◌, ℕ, List};
    ghost use Rattle.std.specs.Coded.{coded_list, coded_ℕ};
    ghost use Rattle.fuse_tables.specs.NameFronts.{front_of};

    ghost Value = { List ℕ };

    ghost coded = { coded_list coded_ℕ };

    ghost view = { λ k. k.name.items };

    ghost invariant = { λ k. k.front ≡ front_of k.name.items };
}

impl<A: Allocator> NameKey<A> {
    ghost use Rattle.fuse_tables.specs.NameKeys.{name_sought};

    /// The key of a name, which it keeps.
    pub fn new(name: Vec<u8, A>) -> Self
        ensures { result ≡ name.items }
    {
        let front = front_of(name.as_slice());
        NameKey { front, name }
    }

    /// The bytes of the name.
    #[inline(always)]
    pub fn name(&self) -> &[u8]
        ensures { result.now ≡ self.now }
    {
        self.name.as_slice()
    }

    /// The same name, borrowed.
    #[inline(always)]
    pub fn lent(&self) -> LentName<'_>
        ensures { name_sought result ≡ self.now }
    {
        LentName {
            front: self.front,
            name: self.name.as_slice(),
        }
    }

    #[inline(always)]
    fn front(&self) -> u64
        ensures { result ≡ front_of self.now }
    {
        self.front
    }
}

impl<A: Allocator> PartialEq for NameKey<A> {
    ghost use Rattle.std.specs.Cmp.{eq_by_cmp_equiv, partial_equiv_from_equiv};
    ghost use Rattle.std.specs.Ordering.{eq_by_cmp};
    ghost use Rattle.fuse_tables.specs.NameKeys.{name_cmp, name_total};

    ghost eq = { eq_by_cmp name_cmp };

    ghost laws = { partial_equiv_from_equiv (eq_by_cmp_equiv name_total) };

    fn eq(&self, other: &Self) -> bool {
        self.cmp(other).is_eq()
    }
}

impl<A: Allocator> Eq for NameKey<A> {
    ghost use Rattle.std.specs.Cmp.{eq_by_cmp_equiv};
    ghost use Rattle.fuse_tables.specs.NameKeys.{name_total};

    ghost laws = { eq_by_cmp_equiv name_total };
}

impl<A: Allocator> PartialOrd for NameKey<A> {
    ghost use Rattle.std.specs.Prelude.{Some};
    ghost use Rattle.std.specs.Cmp.{partial_order_from_total};
    ghost use Rattle.fuse_tables.specs.NameKeys.{name_cmp, name_total};

    ghost partial_cmp = { λ x y. Some (name_cmp x y) };

    ghost laws = { partial_order_from_total name_total };

    fn partial_cmp(&self, other: &Self) -> Option<Ordering> {
        Some(self.cmp(other))
    }
}

impl<A: Allocator> Ord for NameKey<A> {
    ghost use Rattle.std.specs.Prelude.{refl};
    ghost use Rattle.fuse_tables.specs.NameKeys.{name_cmp, name_total};

    ghost cmp = { name_cmp };

    ghost total = { name_total };

    ghost matches_partial_cmp = { λ x y. refl };

    ghost matches_eq = { λ x y. refl };

    fn cmp(&self, other: &Self) -> Ordering {
        self.lent().compare(other)
    }
}

/// A name, borrowed, so that a look-up copies none.
#[derive(Clone, Copy)]
pub struct LentName<'a> {
    front: u64,
    name: &'a [u8],
    ghost is_front: { front ≡ front_of name.now },
}

impl<'a> LentName<'a> {
    ghost use Rattle.fuse_tables.specs.NameKeys.{name_sought};

    /// What finds the key of a name in a map.
    #[inline(always)]
    pub fn of(name: &'a [u8]) -> LentName<'a>
        ensures { name_sought result ≡ name.now }
    {
        LentName {
            front: front_of(name),
            name,
        }
    }
}

impl<'a, A: Allocator> Comparable<NameKey<A>> for LentName<'a> {
    ghost use Rattle.std.specs.BTreeMap.Comparable.{le_lt_trans};
    ghost use Rattle.fuse_tables.specs.NameKeys.{name_cmp, name_sought, name_total};

    ghost compare = { λ q k. name_cmp (name_sought q) k };

    ghost respects_cmp = { λ q x y. name_total.congr (name_sought q) x y };

    ghost below_greater = { λ q x y. le_lt_trans name_total (name_sought q) x y };

    #[inline(always)]
    fn compare(&self, key: &NameKey<A>) -> Ordering {
        if self.front != key.front() {
            return self.front.cmp(&key.front());
        }
        compare_behind(self.name, key.name())
    }
}

/// The order of two names whose first eight bytes make one number. A call of its own, so that the loop of a search stays
/// small, which mostly comes here at its end alone.
#[inline(never)]
fn compare_behind<'a>(left: &'a [u8], right: &'a [u8]) -> Ordering
    requires { front_of left.now ≡ front_of right.now }
    ensures { result ≡ slice_cmp nat_cmp left.now right.now }
{
    if are_within_front(left, right) {
        return Ordering::Equal;
    }
    left.cmp(&right)
}

/// Whether two names are of one length, and no longer than the eight bytes of a front.
#[inline(always)]
fn are_within_front(left: &[u8], right: &[u8]) -> bool
    ensures { IsTrue result → front_of left.now ≡ front_of right.now → slice_cmp nat_cmp left.now right.now ≡ Equal }
{
    let len = left.len();
    len == right.len() && len <= 8
}
