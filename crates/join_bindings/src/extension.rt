//! What is bound so far, extended by an atom.

ghost use Rattle.std.specs.Prelude.{◌<◌, ◌↔◌, ◌⊎◌, List, ℕ, length, Some, All, Contains, IfOk};
ghost use Rattle.std.specs.Prelude.{OnOk};
ghost use Rattle.join_bindings.specs.Bindings.{IsPairOf};
ghost use Rattle.join_file.specs.declared.data.JoinAtom.{JoinAtom};
ghost use Rattle.join_bindings.specs.Partial.{Bound, Agrees, Covers, Closes, ClosesAll, atoms_at};
ghost use Rattle.join_bindings.specs.Partial.{IsMetIn, AreMet};
ghost use Rattle.join_bindings.specs.Overlaps.{Narrows};
ghost use Rattle.join_file.specs.Sound.{IsAtomWithin};

use crate::pairs::PairEnds;
use crate::partial::PartialBinding;
use crate::query_pairs::QueryPairs;
use join_file::JoinAtom;
use rpq_base::Memory;
use std::alloc::Global;

/// Adds what is bound once the atom takes the pair, if it can.
fn add_pair(
    out: &mut Vec<PartialBinding>,
    alloc: Global,
    bound: &PartialBinding,
    atom: &JoinAtom,
    ends: &PairEnds,
) -> Result<(), Memory>
    requires { IsAtomWithin (length bound.now) atom.now }
    ensures covers { OnOk result ((names : List (List ℕ)) → Covers out.new.items names
        ↔ (Covers out.old.items names
        ⊎ (Agrees bound.now names × IsPairOf names atom.now ends.now))) }
    ensures closes { OnOk result ((more : Bound) → Contains out.new.items more →
        Contains out.old.items more ⊎ Closes bound.now atom.now more) }
{
    if let Some(more) = bound.with_ends(alloc, atom, ends.from, ends.to)? {
        out.push(more)?;
    }
    Ok(())
}

/// Adds what is bound once the atom takes one of the pairs of its query. What meets no binding of
/// all these atoms may lack.
fn extend(
    out: &mut Vec<PartialBinding>,
    alloc: Global,
    sets: &QueryPairs,
    atoms: &[&JoinAtom],
    atom: &JoinAtom,
    bound: &PartialBinding,
) -> Result<(), Memory>
    requires within { IsAtomWithin (length bound.now) atom.now }
    requires below { atom.now.query < length sets.now }
    ensures covers { OnOk result ((names : List (List ℕ)) →
        Narrows sets.now (atoms_at atoms.now) names (Covers out.old.items names
        ⊎ (Agrees bound.now names × IsMetIn sets.now names atom.now))
        (Covers out.new.items names)) }
    ensures closes { OnOk result ((more : Bound) → Contains out.new.items more →
        Contains out.old.items more ⊎ Closes bound.now atom.now more) }
{
    let from = bound.so_far(&atom.from);
    let to = bound.so_far(&atom.to);
    let found = sets.fitting(alloc, atoms, atom, from, to)?;
    for ends in &found {
        add_pair(out, alloc, bound, atom, ends)?;
    }
    Ok(())
}

/// All of these extended by the atom, but for what meets no binding of all these atoms.
fn extended(
    alloc: Global,
    sets: &QueryPairs,
    atoms: &[&JoinAtom],
    atom: &JoinAtom,
    partials: &[PartialBinding],
) -> Result<Vec<PartialBinding>, Memory>
    requires within { All (λ bound. IsAtomWithin (length bound) atom.now) partials.now }
    requires below { atom.now.query < length sets.now }
    ensures covers { IfOk result (λ all. (names : List (List ℕ)) →
        Narrows sets.now (atoms_at atoms.now) names
        (Covers partials.now names × IsMetIn sets.now names atom.now)
        (Covers all.items names)) }
    ensures closes { IfOk result (λ all. (more : Bound) → Contains all.items more →
        (bound : Bound) × Contains partials.now bound × Closes bound atom.now more) }
{
    let mut all = Vec::new(alloc);
    for bound in partials {
        extend(&mut all, alloc, sets, atoms, atom, bound)?;
    }
    Ok(all)
}

/// What is bound once the atoms are taken, one after another, each by a pair of its query.
///
/// The atoms should stand in an order in which each, after the first, shares a variable with one
/// before it, as far as there is such an order: then each look-up knows an end.
pub(crate) fn taken(
    alloc: Global,
    sets: &QueryPairs,
    atoms: &[&JoinAtom],
    bound: PartialBinding,
) -> Result<Vec<PartialBinding>, Memory>
    requires within { (atom : JoinAtom) → Contains (atoms_at atoms.now) atom →
        IsAtomWithin (length bound) atom }
    requires below { (atom : JoinAtom) → Contains (atoms_at atoms.now) atom →
        atom.query < length sets.now }
    ensures covers { IfOk result (λ all. (names : List (List ℕ)) → Covers all.items names
        ↔ (Agrees bound names × AreMet sets.now names (atoms_at atoms.now))) }
    ensures closes { IfOk result (λ all. (more : Bound) → Contains all.items more →
        ClosesAll bound (atoms_at atoms.now) more) }
{
    let mut all = Vec::new(alloc);
    all.push(bound)?;
    for atom in atoms {
        all = extended(alloc, sets, atoms, *atom, &all)?;
    }
    Ok(all)
}
