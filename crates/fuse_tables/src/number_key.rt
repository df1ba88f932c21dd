//! Numbers as keys of an ordered map.

ghost use Rattle.std.specs.Prelude.{◌≡◌, ◌≤◌};
ghost use Rattle.std.specs.Ordering.{nat_cmp};

use std::cmp::Ordering;
use std::marker::Model;

/// A number as a key, in the order of numbers. A search passes the keys below the one sought, and stops at the first that
/// isn't: so a comparison asks first whether the key sought is above, which takes half the steps of `u64`'s.
#[derive(Drop)]
pub struct NumberKey(pub u64);

impl Model for NumberKey {
    ghost use Rattle.std.specs.Prelude.{ℕ};
    ghost use Rattle.std.specs.Coded.{coded_ℕ};

    ghost Value = { ℕ };

    ghost coded = { coded_ℕ };

    ghost view = { λ k. k.0 };
}

impl PartialEq for NumberKey {
    ghost use Rattle.std.specs.Cmp.{eq_by_cmp_equiv, nat_cmp_total, partial_equiv_from_equiv};
    ghost use Rattle.std.specs.Ordering.{eq_by_cmp, nat_cmp};

    ghost eq = { eq_by_cmp nat_cmp };

    ghost laws = { partial_equiv_from_equiv (eq_by_cmp_equiv nat_cmp_total) };

    fn eq(&self, other: &Self) -> bool {
        self.cmp(other).is_eq()
    }
}

impl Eq for NumberKey {
    ghost use Rattle.std.specs.Cmp.{eq_by_cmp_equiv, nat_cmp_total};

    ghost laws = { eq_by_cmp_equiv nat_cmp_total };
}

impl PartialOrd for NumberKey {
    ghost use Rattle.std.specs.Prelude.{Some};
    ghost use Rattle.std.specs.Cmp.{nat_cmp_total, partial_order_from_total};
    ghost use Rattle.std.specs.Ordering.{nat_cmp};

    ghost partial_cmp = { λ x y. Some (nat_cmp x y) };

    ghost laws = { partial_order_from_total nat_cmp_total };

    fn partial_cmp(&self, other: &Self) -> Option<Ordering> {
        Some(self.cmp(other))
    }
}

impl Ord for NumberKey {
    ghost use Rattle.std.specs.Prelude.{refl};
    ghost use Rattle.std.specs.Cmp.{nat_cmp_total};
    ghost use Rattle.std.specs.Ordering.{nat_cmp};

    ghost cmp = { nat_cmp };

    ghost total = { nat_cmp_total };

    ghost matches_partial_cmp = { λ x y. refl };

    ghost matches_eq = { λ x y. refl };

    #[inline(always)]
    fn cmp(&self, other: &Self) -> Ordering {
        if self.0 > other.0 {
            return Ordering::Greater;
        }
        equal_or_less(self.0, other.0)
    }
}

/// A call of its own, so that LLVM doesn't make the two questions of `cmp` into one that it answers each time.
#[inline(never)]
fn equal_or_less(left: u64, right: u64) -> Ordering
    requires { left ≤ right }
    ensures { result ≡ nat_cmp left right }
{
    if left == right {
        Ordering::Equal
    } else {
        Ordering::Less
    }
}
