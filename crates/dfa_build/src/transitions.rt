//! What the subset construction reads off a position automaton: its labels, and sets of
//! positions.

ghost use Rattle.std.specs.Prelude.{◌≡◌, ℕ, ◌<◌, ◌≤◌, ◌↔◌, [], length, map, All, Contains, IsTrue, Some, slice_index_or, IfOk};
ghost use Rattle.std.specs.List.{slice_get};
ghost use Rattle.std.specs.List.Sorted.{IsStrictlySortedBy};
ghost use Rattle.rpq_base.specs.declared.data.Label.{Label};
ghost use Rattle.rpq_base.specs.Order.{label_cmp};
ghost use Rattle.dfa_build.specs.PositionSet.{has};
ghost use Rattle.dfa_build.specs.Positions.{ArePositions};
ghost use Rattle.dfa_build.specs.StateSets.{set_at, AreSetsOf};

use crate::automaton::Positions;
use crate::position_set::PositionSet;
use rpq_base::{Label, Memory, TryClone};
use std::alloc::Global;
use std::collections::BTreeSet;

/// The labels of a position automaton, and its sets of positions.
#[derive(Drop)]
pub struct PositionSets {
    /// The labels, sorted, each once.
    pub labels: Vec<Label>,
    /// For each label the positions with it.
    pub masks: Vec<PositionSet>,
    /// For each position those that may stand right after it.
    pub follow: Vec<PositionSet>,
    pub first: PositionSet,
    pub last: PositionSet,
}

impl PositionSets {
    /// The sets of the position automaton.
    pub fn of(alloc: Global, positions: &Positions) -> Result<PositionSets, Memory>
        requires { ArePositions positions.now }
        ensures sets { IfOk result (λ sets.
            AreSetsOf positions.now sets.labels.items sets.first sets.last
            sets.follow.items sets.masks.items) }
        ensures sorted { IfOk result (λ sets. IsStrictlySortedBy label_cmp sets.labels.items) }
        ensures few { IfOk result (λ sets. length sets.labels.items ≤ length positions.now.atoms) }
    {
        let labels = distinct(alloc, &positions.atoms)?;
        let masks = masks_of(alloc, &positions.atoms, &labels)?;
        Ok(PositionSets {
            follow: sets_of(alloc, &positions.follow)?,
            first: set_of(&positions.first),
            last: set_of(&positions.last),
            labels,
            masks,
        })
    }
}

/// The labels, sorted, each once.
fn distinct(alloc: Global, labels: &[Label]) -> Result<Vec<Label>, Memory>
    ensures sorted { IfOk result (λ distinct. IsStrictlySortedBy label_cmp distinct.items) }
    ensures members { IfOk result (λ distinct. (label : Label) →
        Contains distinct.items label ↔ Contains labels.now label) }
    ensures few { IfOk result (λ distinct. length distinct.items ≤ length labels.now) }
{
    let mut found = BTreeSet::new(alloc);
    for label in labels {
        found.insert(label.copy()?)?;
    }
    in_order(alloc, found)
}

/// The labels of the set, in order.
fn in_order(alloc: Global, found: BTreeSet<Label>) -> Result<Vec<Label>, Memory>
    ensures labels { IfOk result (λ labels. labels.items ≡ found.keys) }
    ensures sorted { IfOk result (λ labels. IsStrictlySortedBy label_cmp labels.items) }
{
    Ok(found.into_iter().collect(alloc)?)
}

/// The set of these positions.
fn set_of(places: &[u32]) -> PositionSet
    requires { All (λ place. place < 64) places.now }
    ensures { (position : ℕ) → IsTrue (has result position) ↔ Contains places.now position }
{
    let mut set = PositionSet::empty();
    for place in places {
        set = set.union(PositionSet::of(*place));
    }
    set
}

/// The sets of the positions of each row.
fn sets_of(alloc: Global, rows: &[Vec<u32>]) -> Result<Vec<PositionSet>, Memory>
    requires { All (λ row. All (λ place. place < 64) row) (map (λ row. row.items) rows.now) }
    ensures length { IfOk result (λ sets. length sets.items ≡ length rows.now) }
    ensures members { IfOk result (λ sets. (place position : ℕ) → place < length rows.now →
        IsTrue (has (set_at sets.items place) position)
        ↔ Contains (slice_index_or (map (λ row. row.items) rows.now) place []) position) }
{
    let mut sets = Vec::with_capacity(alloc, rows.len())?;
    for row in rows {
        sets.push(set_of(row))?;
    }
    Ok(sets)
}

/// The positions with this label.
fn positions_of(atoms: &[Label], label: &Label) -> PositionSet
    requires { length atoms.now ≤ 64 }
    ensures { (position : ℕ) →
        IsTrue (has result position) ↔ (slice_get atoms.now position ≡ Some label.now) }
{
    let mut set = PositionSet::empty();
    for (place, atom) in atoms.iter().enumerate() {
        set = set.union_if(PositionSet::of(place as u32), atom == label);
    }
    set
}

/// For each label the positions with it.
fn masks_of(alloc: Global, atoms: &[Label], labels: &[Label]) -> Result<Vec<PositionSet>, Memory>
    requires { length atoms.now ≤ 64 }
    ensures length { IfOk result (λ masks. length masks.items ≡ length labels.now) }
    ensures members { IfOk result (λ masks. (place position : ℕ) → place < length labels.now →
        IsTrue (has (set_at masks.items place) position)
        ↔ (slice_get atoms.now position ≡ slice_get labels.now place)) }
{
    let mut masks = Vec::with_capacity(alloc, labels.len())?;
    for label in labels {
        masks.push(positions_of(atoms, label))?;
    }
    Ok(masks)
}
