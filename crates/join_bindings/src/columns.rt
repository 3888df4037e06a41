//! The columns of queries, and which of them share vertices that a search can begin with.

ghost use Rattle.std.specs.Prelude.{◌≡◌, true};
ghost use Rattle.join_bindings.specs.Overlaps.{term_at, IsColumnOf};
ghost use Rattle.join_bindings.specs.Partial.{atoms_at};

use join_file::{JoinAtom, JoinDef, Term};
use rpq_base::Memory;
use std::alloc::Global;

/// A side of a pair, or of an atom.
#[derive(Clone, Copy, Debug, PartialEq, Eq)]
pub(crate) enum Side {
    Source,
    Target,
}

/// What stands at one side of the pairs of a query.
#[derive(Clone, Copy, Debug, PartialEq, Eq)]
pub(crate) struct Column {
    pub(crate) query: u32,
    pub(crate) side: Side,
}

/// Two columns.
#[derive(Clone, Copy, Debug, PartialEq, Eq)]
pub(crate) struct Columns {
    pub(crate) first: Column,
    pub(crate) second: Column,
}

/// The term at a side of the atom.
fn term_at(atom: &JoinAtom, side: Side) -> &Term
    ensures { result.now ≡ term_at side atom.now }
{
    match side {
        Side::Source => &atom.from,
        Side::Target => &atom.to,
    }
}

/// Whether both are the same variable.
fn same_variable(first: &Term, second: &Term) -> bool
    ensures { result ≡ true → first.now ≡ second.now }
{
    match (first, second) {
        (Term::Variable(one), Term::Variable(other)) => *one == *other,
        _ => false,
    }
}

/// Whether the atom's pairs have this variable in this column.
fn has_in(atom: &JoinAtom, term: &Term, column: Column) -> bool
    ensures query { result ≡ true → atom.now.query ≡ column.query }
    ensures term { result ≡ true → term_at column.side atom.now ≡ term.now }
{
    atom.query == column.query && same_variable(term_at(atom, column.side), term)
}

impl Column {
    /// Whether the pairs of one of the atoms have this variable in the column.
    fn is_of(self, atoms: &[&JoinAtom], term: &Term) -> bool
        ensures { result ≡ true → IsColumnOf (atoms_at atoms.now) term.now self }
    {
        for atom in atoms {
            if has_in(*atom, term, self) {
                return true;
            }
        }
        false
    }
}

impl Columns {
    /// Whether the pairs of the atoms have this variable in both columns.
    pub(crate) fn are_of(self, atoms: &[&JoinAtom], term: &Term) -> bool
        ensures first { result ≡ true → IsColumnOf (atoms_at atoms.now) term.now self.first }
        ensures second { result ≡ true → IsColumnOf (atoms_at atoms.now) term.now self.second }
    {
        self.first.is_of(atoms, term) && self.second.is_of(atoms, term)
    }
}

/// Whether a term of the other atom is the same variable.
fn mentions(other: &JoinAtom, term: &Term) -> bool {
    same_variable(&other.from, term) || same_variable(&other.to, term)
}

/// Whether the term is a vertex, or a variable of another of the atoms.
fn is_shared(atoms: &[JoinAtom], atom: &JoinAtom, term: &Term) -> bool {
    match term {
        Term::Vertex(_) => true,
        Term::Variable(_) => atoms
            .iter()
            .any(|other| *other != *atom && mentions(other, term)),
    }
}

/// Adds these columns, if they aren't there.
fn add_columns(all: &mut Vec<Columns>, first: Column, second: Column) -> Result<(), Memory> {
    let columns = Columns { first, second };
    if !all.iter().any(|each| *each == columns) {
        all.push(columns)?;
    }
    Ok(())
}

/// Adds the columns of the two atoms at these sides, if they have the same variable there.
fn add_sides(
    all: &mut Vec<Columns>,
    atom: &JoinAtom,
    side: Side,
    other: &JoinAtom,
    other_side: Side,
) -> Result<(), Memory> {
    if same_variable(term_at(atom, side), term_at(other, other_side)) {
        let first = Column {
            query: atom.query,
            side,
        };
        let second = Column {
            query: other.query,
            side: other_side,
        };
        add_columns(all, first, second)?;
    }
    Ok(())
}

/// Adds the columns in which the two atoms have the same variable.
fn add_both(all: &mut Vec<Columns>, atom: &JoinAtom, other: &JoinAtom) -> Result<(), Memory> {
    add_sides(all, atom, Side::Source, other, Side::Source)?;
    add_sides(all, atom, Side::Source, other, Side::Target)?;
    add_sides(all, atom, Side::Target, other, Side::Source)?;
    add_sides(all, atom, Side::Target, other, Side::Target)
}

/// Adds the columns in which the atom and another one have the same variable.
fn add_by_atom(all: &mut Vec<Columns>, atoms: &[JoinAtom], atom: &JoinAtom) -> Result<(), Memory> {
    for other in atoms {
        if *other != *atom {
            add_both(all, atom, other)?;
        }
    }
    Ok(())
}

/// Adds the columns of a join. A search goes from one end of an atom to the other, and on to a
/// second atom, only where both ends are shared.
fn add_by_join(all: &mut Vec<Columns>, atoms: &[JoinAtom]) -> Result<(), Memory> {
    for atom in atoms {
        if is_shared(atoms, atom, &atom.from) && is_shared(atoms, atom, &atom.to) {
            add_by_atom(all, atoms, atom)?;
        }
    }
    Ok(())
}

/// The columns whose common vertices the searches of these joins use.
pub(crate) fn columns_of(alloc: Global, defs: &[JoinDef]) -> Result<Vec<Columns>, Memory> {
    let mut all = Vec::new(alloc);
    for def in defs {
        add_by_join(&mut all, &def.atoms)?;
    }
    Ok(all)
}
