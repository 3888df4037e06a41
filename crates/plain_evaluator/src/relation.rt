//! Relations between vertices, as lists of pairs: made of edges, united and composed.

ghost use Rattle.std.specs.Prelude.{◌≡◌, ◌∷◌, ◌⊎◌, [], true, IfOk, OnOk, Contains};
ghost use Rattle.std.specs.List.Sorted.{IsStrictlySortedBy};
ghost use Rattle.rpq_base.specs.Order.{pair_cmp};
ghost use Rattle.rpq_base.specs.declared.data.Label.{Label};
ghost use Rattle.rpq_base.specs.declared.data.Pair.{Pair};
ghost use Rattle.rpq_model.specs.declared.mode.Mode.TheVariants.{Arbitrary};
ghost use Rattle.rpq_model.specs.Answers.{IsJoinedBy};
ghost use Rattle.rpq_model.specs.Relations.{values, between, Adds, AreExactly, IsLedOn, IsComposed};

use rpq_base::{Edge, Label, Memory, Name, Pair, TryClone};
use std::alloc::Global;
use std::collections::BTreeSet;

/// The pair of copies of these names.
pub(crate) fn pair_of(from: &Name, to: &Name) -> Result<Pair, Memory>
    ensures { IfOk result (λ pair. pair ≡ between from.now to.now) }
{
    Ok(Pair {
        from: from.copy()?,
        to: to.copy()?,
    })
}

/// The pairs of the set, in order.
pub(crate) fn in_order(alloc: Global, found: BTreeSet<Pair>) -> Result<Vec<Pair>, Memory>
    ensures pairs { IfOk result (λ pairs. pairs.items ≡ found.keys) }
    ensures sorted { IfOk result (λ pairs. IsStrictlySortedBy pair_cmp pairs.items) }
{
    Ok(found.into_iter().collect(alloc)?)
}

/// The pairs that an edge with this label joins.
pub(crate) fn joined_by_label(
    alloc: Global,
    label: &Label,
    edges: &[&Edge],
) -> Result<Vec<Pair>, Memory>
    ensures { IfOk result (λ pairs. AreExactly
        (IsJoinedBy (values edges.now) (λ word. word ≡ label.now ∷ []) Arbitrary)
        pairs.items) }
{
    let mut found = BTreeSet::new(alloc);
    for edge in edges {
        if edge.label == *label {
            found.insert(pair_of(&edge.from, &edge.to)?)?;
        }
    }
    in_order(alloc, found)
}

/// Adds copies of the pairs.
pub(crate) fn add_all(found: &mut BTreeSet<Pair>, pairs: &[Pair]) -> Result<(), Memory>
    ensures { OnOk result (Adds found.old.keys found.new.keys (Contains pairs.now)) }
{
    for pair in pairs {
        found.insert(pair.copy()?)?;
    }
    Ok(())
}

/// Adds copies of the pairs, if they are wanted.
fn add_if(found: &mut BTreeSet<Pair>, wanted: bool, pairs: &[Pair]) -> Result<(), Memory>
    ensures { OnOk result (Adds found.old.keys found.new.keys (λ pair.
        (wanted ≡ true) × Contains pairs.now pair)) }
{
    if wanted {
        add_all(found, pairs)
    } else {
        Ok(())
    }
}

/// Adds the pairs that the first and, after it, one of the others lead to.
fn add_longer(found: &mut BTreeSet<Pair>, first: &Pair, pairs: &[Pair]) -> Result<(), Memory>
    ensures { OnOk result (Adds found.old.keys found.new.keys (IsLedOn first.now pairs.now)) }
{
    for pair in pairs {
        if pair.from == first.to {
            found.insert(pair_of(&first.from, &pair.to)?)?;
        }
    }
    Ok(())
}

/// Adds the pairs that one of the first pairs and, after it, one of the second lead to.
pub(crate) fn add_composed(
    found: &mut BTreeSet<Pair>,
    firsts: &[Pair],
    seconds: &[Pair],
) -> Result<(), Memory>
    ensures { OnOk result (Adds found.old.keys found.new.keys (IsComposed firsts.now seconds.now)) }
{
    for first in firsts {
        add_longer(found, first, seconds)?;
    }
    Ok(())
}

/// The pairs of both lists.
pub(crate) fn union(alloc: Global, pairs: &[Pair], others: &[Pair]) -> Result<Vec<Pair>, Memory>
    ensures { IfOk result (λ all.
        AreExactly (λ pair. Contains pairs.now pair ⊎ Contains others.now pair) all.items) }
{
    let mut found = BTreeSet::new(alloc);
    add_all(&mut found, pairs)?;
    add_all(&mut found, others)?;
    in_order(alloc, found)
}

/// The pairs that one of the first pairs and, after it, one of the second lead to, with the first
/// alone where the second may be left out, and the second alone where the first may.
pub(crate) fn composition(
    alloc: Global,
    firsts: &[Pair],
    seconds: &[Pair],
    no_first: bool,
    no_second: bool,
) -> Result<Vec<Pair>, Memory>
    ensures { IfOk result (λ all. AreExactly (λ pair.
        (IsComposed firsts.now seconds.now pair ⊎ ((no_second ≡ true) × Contains firsts.now pair))
        ⊎ ((no_first ≡ true) × Contains seconds.now pair)) all.items) }
{
    let mut found = BTreeSet::new(alloc);
    add_composed(&mut found, firsts, seconds)?;
    add_if(&mut found, no_second, firsts)?;
    add_if(&mut found, no_first, seconds)?;
    in_order(alloc, found)
}
