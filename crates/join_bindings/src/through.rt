//! The bindings that meet an atom by a pair.

ghost use Rattle.std.specs.Prelude.{◌<◌, ◌↔◌, List, ℕ, length, All, Contains, IfOk};
ghost use Rattle.join_bindings.specs.Partial.{Covers, IsFull, IsThrough};
ghost use Rattle.join_file.specs.Sound.{IsAtomWithin, Mentions};

use crate::binding::Binding;
use crate::extension::taken;
use crate::partial::PartialBinding;
use crate::plan::planned;
use crate::query_pairs::QueryPairs;
use join_file::{JoinAtom, JoinDef};
use rpq_base::{Memory, Pair};
use std::alloc::Global;

/// The bindings of these, in which nothing is open.
fn closed(alloc: Global, partials: &[PartialBinding]) -> Result<Vec<Binding>, Memory>
    requires { All IsFull partials.now }
    ensures { IfOk result (λ found. (names : List (List ℕ)) →
        Contains found.items names ↔ Covers partials.now names) }
{
    let mut found = Vec::new(alloc);
    for bound in partials {
        found.push(bound.closed(alloc)?)?;
    }
    Ok(found)
}

/// The bindings of a join that meet this atom by this pair, and the other atoms by pairs of their
/// queries. One that meets the atom and others by the pair is given once.
pub(crate) fn through(
    alloc: Global,
    sets: &QueryPairs,
    def: &JoinDef,
    atom: &JoinAtom,
    pair: &Pair,
) -> Result<Vec<Binding>, Memory>
    requires within { All (IsAtomWithin def.now.variables) def.now.atoms }
    requires below { All (λ atom. atom.query < length sets.now) def.now.atoms }
    requires all { (number : ℕ) → number < def.now.variables →
        (each : _) × Contains def.now.atoms each × Mentions each number }
    requires own { IsAtomWithin def.now.variables atom.now }
    ensures { IfOk result (λ found. (names : List (List ℕ)) → Contains found.items names
        ↔ IsThrough sets.now def.now atom.now pair.now names) }
{
    let blank = PartialBinding::unbound(alloc, def.variables)?;
    match blank.with_ends(alloc, atom, &pair.from, &pair.to)? {
        Some(bound) => {
            let plan = planned(alloc, &def.atoms, atom)?;
            closed(alloc, &taken(alloc, sets, &plan, bound)?)
        }
        None => Ok(Vec::new(alloc)),
    }
}
