//! Names of directories as keys of an ordered map.
ghost use Rattle.std.specs.Prelude.{◌≡◌};
ghost use Rattle.fk_dentry.specs.Keys.{sought};

use fuse_tables::{LentName, NameKey};
use std::alloc::Allocator;
use std::cmp::Ordering;
use std::collections::btree_map::Comparable;
use std::marker::Model;

/// A name of a directory. Keys stand in the order of the directories, and then of the names.
#[derive(Drop)]
pub(crate) struct DentryKey<A: Allocator> {
    directory: u64,
    name: NameKey<A>,
}

impl<A: Allocator> Model for DentryKey<A> {
    ghost use Rattle.fuse_spec.specs.Values.Maps.{Place};
    ghost use Rattle.fk_dentry.specs.CachedNames.{place_code};

    ghost Value = { Place };

    ghost coded = { place_code };

    ghost view = { λ k. (k.directory, k.name) };
}

impl<A: Allocator> DentryKey<A> {
    pub(crate) fn new(directory: u64, name: Vec<u8, A>) -> Self
        ensures { result ≡ (directory, name.items) }
    {
        let name = NameKey::new(name);
        DentryKey { directory, name }
    }

    #[inline(always)]
    pub(crate) fn directory(&self) -> u64
        ensures { result ≡ self.now.0 }
    {
        self.directory
    }

    #[inline(always)]
    pub(crate) fn name(&self) -> &[u8]
        ensures { result.now ≡ self.now.1 }
    {
        self.name.name()
    }

    #[inline(always)]
    fn name_key(&self) -> &NameKey<A>
        ensures { result.now ≡ self.now.1 }
    {
        &self.name
    }
}

impl<A: Allocator> PartialEq for DentryKey<A> {
    ghost use Rattle.std.specs.Cmp.{eq_by_cmp_equiv, partial_equiv_from_equiv};
    ghost use Rattle.std.specs.Ordering.{eq_by_cmp};
    ghost use Rattle.fk_dentry.specs.Keys.{key_cmp, key_total};

    ghost eq = { eq_by_cmp key_cmp };

    ghost laws = { partial_equiv_from_equiv (eq_by_cmp_equiv key_total) };

    fn eq(&self, other: &Self) -> bool {
        self.cmp(other).is_eq()
    }
}

impl<A: Allocator> Eq for DentryKey<A> {
    ghost use Rattle.std.specs.Cmp.{eq_by_cmp_equiv};
    ghost use Rattle.fk_dentry.specs.Keys.{key_total};

    ghost laws = { eq_by_cmp_equiv key_total };
}

impl<A: Allocator> PartialOrd for DentryKey<A> {
    ghost use Rattle.std.specs.Prelude.{Some};
    ghost use Rattle.std.specs.Cmp.{partial_order_from_total};
    ghost use Rattle.fk_dentry.specs.Keys.{key_cmp, key_total};

    ghost partial_cmp = { λ x y. Some (key_cmp x y) };

    ghost laws = { partial_order_from_total key_total };

    fn partial_cmp(&self, other: &Self) -> Option<Ordering> {
        Some(self.cmp(other))
    }
}

impl<A: Allocator> Ord for DentryKey<A> {
    ghost use Rattle.std.specs.Prelude.{refl};
    ghost use Rattle.fk_dentry.specs.Keys.{key_cmp, key_total};

    ghost cmp = { key_cmp };

    ghost total = { key_total };

    ghost matches_partial_cmp = { λ x y. refl };

    ghost matches_eq = { λ x y. refl };

    fn cmp(&self, other: &Self) -> Ordering {
        let lent = LentKey {
            directory: self.directory,
            name: self.name.lent(),
        };
        lent.compare(other)
    }
}

/// A name of a directory, borrowed, so that a look-up copies no name.
#[derive(Clone, Copy)]
pub(crate) struct LentKey<'a> {
    directory: u64,
    name: LentName<'a>,
}

impl<'a> LentKey<'a> {
    #[inline(always)]
    pub(crate) fn of(directory: u64, name: &'a [u8]) -> LentKey<'a>
        ensures { sought result ≡ (directory, name.now) }
    {
        let name = LentName::of(name);
        LentKey { directory, name }
    }
}

impl<'a, A: Allocator> Comparable<DentryKey<A>> for LentKey<'a> {
    ghost use Rattle.std.specs.BTreeMap.Comparable.{le_lt_trans};
    ghost use Rattle.fk_dentry.specs.Keys.{key_cmp, key_total, sought};

    ghost compare = { λ q k. key_cmp (sought q) k };

    ghost respects_cmp = { λ q x y. key_total.congr (sought q) x y };

    ghost below_greater = { λ q x y. le_lt_trans key_total (sought q) x y };

    #[inline(always)]
    fn compare(&self, key: &DentryKey<A>) -> Ordering {
        if self.directory != key.directory() {
            return self.directory.cmp(&key.directory());
        }
        self.name.compare(key.name_key())
    }
}
