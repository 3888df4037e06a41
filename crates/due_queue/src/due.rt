//! Items with numbers.

ghost use Rattle.std.specs.Ordering.{nat_cmp, as_partial_cmp};
ghost use Rattle.std.specs.Cmp.{partial_order_from_own_ties};
ghost use Rattle.std.specs.Cmp.Rules.{comparing};
ghost use Rattle.std.specs.Prelude.{nat_eq};
ghost use Rattle.std.proofs.Common.{rules, refl};

use std::cmp::Ordering;

/// An item with a number. It is compared by its number alone, and the greatest is that of the least
/// number, as a heap gives the greatest first.
#[derive(Clone, Copy, Debug)]
pub struct Due<T> {
    pub item: T,
    pub number: u64,
}

impl<T> PartialEq for Due<T> {
    ghost eq = { λ x y. nat_eq x.number y.number };

    ghost laws = { Prim.search (comparing, rules) };

    fn eq(&self, other: &Due<T>) -> bool {
        self.number == other.number
    }
}

impl<T> Eq for Due<T> {
    ghost laws = { Prim.search (comparing, rules) };
}

impl<T> PartialOrd for Due<T> {
    ghost partial_cmp = { as_partial_cmp (λ x y. nat_cmp y.number x.number) };

    ghost laws = { partial_order_from_own_ties (Prim.search (comparing, rules)) (Prim.search (comparing, rules)) };

    fn partial_cmp(&self, other: &Due<T>) -> Option<Ordering> {
        Some(self.cmp(other))
    }
}

impl<T> Ord for Due<T> {
    ghost cmp = { λ x y. nat_cmp y.number x.number };

    ghost total = { Prim.search (comparing, rules) };

    ghost matches_partial_cmp = { λ x y. refl };

    ghost matches_eq = { Prim.search (comparing, rules) };

    fn cmp(&self, other: &Due<T>) -> Ordering {
        other.number.cmp(&self.number)
    }
}
