//! Sets of positions, while an automaton is built.

ghost use Rattle.std.specs.Prelude.{◌≡◌, ℕ, ◌<◌, ◌==◌, ◌&&◌, ◌||◌, true, false, IfOk};
ghost use Rattle.dfa_build.specs.PositionSet.{has, numbers};

use rpq_base::Memory;
use std::alloc::Global;

/// A set of positions below 64: the position p is a member where bit p is set.
#[derive(Clone, Copy, Debug, PartialEq, Eq)]
pub struct PositionSet {
    bits: u64,
}

impl PositionSet {
    /// The set without members.
    pub const fn empty() -> PositionSet
        ensures { (p : ℕ) → has result p ≡ false }
    {
        PositionSet { bits: 0 }
    }

    /// The set with these bits.
    pub const fn from_bits(bits: u64) -> PositionSet
        ensures { result.bits ≡ bits }
    {
        PositionSet { bits }
    }

    /// The bits of the set.
    pub const fn bits(self) -> u64
        ensures { result ≡ self.bits }
    {
        self.bits
    }

    /// The set of this position alone.
    pub fn of(position: u32) -> PositionSet
        requires { position < 64 }
        ensures { (p : ℕ) → has result p ≡ (p == position) }
    {
        PositionSet {
            bits: 1 << position,
        }
    }

    /// Whether the position is a member.
    pub fn contains(self, position: u32) -> bool
        requires { position < 64 }
        ensures { result ≡ has self position }
    {
        (self.bits >> position) & 1 == 1
    }

    /// The members of both sets.
    pub fn union(self, other: PositionSet) -> PositionSet
        ensures { (p : ℕ) → has result p ≡ (has self p || has other p) }
    {
        PositionSet {
            bits: self.bits | other.bits,
        }
    }

    /// The members of this set, and those of the other one too where they are wanted.
    pub fn union_if(self, other: PositionSet, wanted: bool) -> PositionSet
        ensures { (p : ℕ) → has result p ≡ (has self p || (wanted && has other p)) }
    {
        if wanted { self.union(other) } else { self }
    }

    /// The members of this set that are in the other one too.
    pub fn intersection(self, other: PositionSet) -> PositionSet
        ensures { (p : ℕ) → has result p ≡ (has self p && has other p) }
    {
        PositionSet {
            bits: self.bits & other.bits,
        }
    }

    /// Whether the set has no members.
    pub fn is_empty(self) -> bool
        ensures empty { result ≡ true → (p : ℕ) → has self p ≡ false }
        ensures some { result ≡ false → (p : ℕ) × (has self p ≡ true) }
    {
        self.bits == 0
    }

    /// The members, rising.
    #[tactic(auto, unfolding(crate::specs::PositionSet::numbers))]
    pub fn list(self, alloc: Global) -> Result<Vec<u32>, Memory>
        ensures { IfOk result (λ list. list.items ≡ numbers (has self)) }
    {
        Ok(
            (0..64)
                .filter(|position| self.contains(*position))
                .collect(alloc)?,
        )
    }
}
