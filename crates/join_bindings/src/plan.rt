//! The order in which the search takes the atoms of a join.

ghost use Rattle.std.specs.Prelude.{◌≡◌, ◌<◌, ◌↔◌, ◌∷◌, [], length, get_or, Contains, IfOk};
ghost use Rattle.std.specs.Borrow.{Bor};
ghost use Rattle.std.specs.List.{list_any};
ghost use Rattle.join_file.specs.declared.data.JoinAtom.{JoinAtom};
ghost use Rattle.join_bindings.specs.Partial.{atoms_at};
ghost use Rattle.join_bindings.specs.Turn.{is_variable, mentions, is_known, open_end, open_ends};
ghost use Rattle.join_bindings.specs.Turn.{IsNext, AreInTurn};

use join_file::{JoinAtom, Term};
use rpq_base::Memory;
use std::alloc::Global;

/// Whether the term is the variable with this number.
fn is_variable(term: &Term, number: u32) -> bool
    ensures { result ≡ is_variable number term.now }
{
    match term {
        Term::Variable(other) => *other == number,
        Term::Vertex(_) => false,
    }
}

/// Whether an end of the atom is the variable with this number.
fn mentions(atom: &JoinAtom, number: u32) -> bool
    ensures { result ≡ mentions number atom.now }
{
    is_variable(&atom.from, number) || is_variable(&atom.to, number)
}

/// Whether the term is a vertex, or a variable of the first atom or of the plan.
fn is_known(first: &JoinAtom, plan: &[&JoinAtom], term: &Term) -> bool
    ensures { result ≡ is_known (first.now ∷ atoms_at plan.now) term.now }
{
    match term {
        Term::Vertex(_) => true,
        Term::Variable(number) => mentions(first, *number) || any_mentions(plan, *number),
    }
}

/// Whether an end of one of the atoms is the variable with this number.
fn any_mentions(plan: &[&JoinAtom], number: u32) -> bool
    ensures { result ≡ list_any (λ atom. mentions number atom.now) plan.now }
{
    plan.iter().any(|atom| mentions(*atom, number))
}

/// One where the term isn't known.
fn open_end(first: &JoinAtom, plan: &[&JoinAtom], term: &Term) -> usize
    ensures { result ≡ open_end (first.now ∷ atoms_at plan.now) term.now }
{
    if is_known(first, plan, term) { 0 } else { 1 }
}

/// How many ends of the atom aren't known once the first atom and the plan are taken.
fn open_ends(first: &JoinAtom, plan: &[&JoinAtom], atom: &JoinAtom) -> usize
    ensures { result ≡ open_ends (first.now ∷ atoms_at plan.now) atom.now }
{
    open_end(first, plan, &atom.from) + open_end(first, plan, &atom.to)
}

/// The place of an atom among those that are left which has the fewest open ends.
fn next_place(first: &JoinAtom, plan: &[&JoinAtom], left: &[&JoinAtom]) -> usize
    requires { 0 < length left.now }
    ensures within { result < length left.now }
    ensures least { (atom : Bor JoinAtom) → get_or left.now result atom ≡ atom →
        IsNext (first.now ∷ atoms_at plan.now) atom.now (atoms_at left.now) }
{
    let mut best = 0;
    for place in 1..left.len() {
        if open_ends(first, plan, left[place]) < open_ends(first, plan, left[best]) {
            best = place;
        }
    }
    best
}

/// The atoms by reference, in their order.
fn references<'a>(alloc: Global, atoms: &'a [JoinAtom]) -> Result<Vec<&'a JoinAtom>, Memory>
    ensures { IfOk result (λ plan. atoms_at plan.items ≡ atoms.now) }
{
    let mut plan = Vec::new(alloc);
    for atom in atoms {
        plan.push(atom)?;
    }
    Ok(plan)
}

/// The atoms in the order in which the search takes them behind the first: next is always one with
/// the fewest open ends, so one with both ends known is a look-up, and one with neither waits until
/// there is no other.
pub(crate) fn planned<'a>(
    alloc: Global,
    atoms: &'a [JoinAtom],
    first: &JoinAtom,
) -> Result<Vec<&'a JoinAtom>, Memory>
    ensures members { IfOk result (λ plan. (atom : JoinAtom) →
        Contains (atoms_at plan.items) atom ↔ Contains atoms.now atom) }
    ensures turn { IfOk result (λ plan. AreInTurn (first.now ∷ []) (atoms_at plan.items) []) }
{
    let mut left = references(alloc, atoms)?;
    let mut plan = Vec::new(alloc);
    while !left.is_empty() {
        let next = next_place(first, &plan, &left);
        plan.push(left.remove(next))?;
    }
    Ok(plan)
}
