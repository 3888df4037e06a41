//! The atoms of a line, with their queries and their variables.

ghost use Rattle.std.specs.Prelude.{◌≡◌, ◌≢◌, ◌<◌, ◌≤◌, ◌+◌, ◌*◌, length, IfOk, IfErr, IfSome};
ghost use Rattle.std.specs.Prelude.{is_some};
ghost use Rattle.std.specs.List.{list_all, position};
ghost use Rattle.rpq_base.specs.Same.{same_name};
ghost use Rattle.join_file.specs.JoinLine.{named, is_known_query, numbered};
ghost use Rattle.join_file.specs.JoinLine.{term_of, atom_of, AtomsRead, none_read};
ghost use Rattle.join_file.specs.JoinLine.{with_atoms, atoms_of};

use crate::data::{JoinAtom, Term};
use crate::fault::JoinFileFaultKind;
use crate::line::{AtomText, variable_name};
use rpq_base::{Memory, Name, NameFault};
use rpq_model::{QueryDef, find_query, place_named};
use std::alloc::Global;
use std::marker::Model;

/// The atoms of a line so far, and the variables seen in them, in the order of first sight.
#[derive(Drop)]
pub(crate) struct AtomsRead {
    pub(crate) atoms: Vec<JoinAtom>,
    pub(crate) seen: Vec<Name>,
}

impl Model for AtomsRead {
    ghost use Rattle.join_file.specs.JoinLine.{AtomsRead as ReadOf};

    ghost Value = { ReadOf };

    ghost view = { λ read. record { atoms = read.atoms.items; seen = read.seen.items } };
}

/// Whether the query of the atom is known.
fn is_known_query(queries: &[QueryDef], text: &AtomText) -> bool
    ensures { result ≡ is_known_query queries.now text.now }
{
    place_named(queries, text.query).is_some()
}

/// The name that a field is.
#[tactic(auto, unfolding(crate::specs::JoinLine::named))]
fn read_name(alloc: Global, field: &[u8]) -> Result<Name, JoinFileFaultKind>
    ensures ok { IfOk result (λ name. named field.now ≡ Ok name) }
    ensures err { IfErr result (λ kind. kind ≢ JoinFileFaultKind.Memory →
        named field.now ≡ Err kind) }
{
    match Name::new(alloc, field) {
        Ok(name) => Ok(name),
        Err(NameFault::Length(_) | NameFault::Byte(_)) => Err(JoinFileFaultKind::BadName),
        Err(NameFault::Memory) => Err(JoinFileFaultKind::Memory),
    }
}

/// The place of the name among these.
fn place_in(seen: &[Name], name: &Name) -> Option<usize>
    ensures exact { result ≡ position (λ other. same_name other name.now) seen.now }
    ensures within { IfSome result (λ place. place < length seen.now) }
{
    seen.iter().position(|other| *other == *name)
}

/// The number of the variable with this name; a new one gets the next number.
fn number_of(seen: &mut Vec<Name>, name: Name) -> Result<u32, Memory>
    requires { length seen.old.items < 8 }
    ensures number { IfOk result (λ number.
        numbered seen.old.items name ≡ (number, seen.new.items)) }
    ensures few { length seen.new.items ≤ length seen.old.items + 1 }
{
    if let Some(place) = place_in(seen, &name) {
        return Ok(place as u32);
    }
    let number = seen.len() as u32;
    seen.push(name)?;
    Ok(number)
}

/// The term that a field is.
#[tactic(auto, unfolding(crate::specs::JoinLine::term_of))]
fn read_term(alloc: Global, seen: &mut Vec<Name>, field: &[u8]) -> Result<Term, JoinFileFaultKind>
    requires { length seen.old.items < 8 }
    ensures ok { IfOk result (λ term.
        term_of seen.old.items field.now ≡ Ok (term, seen.new.items)) }
    ensures err { IfErr result (λ kind. kind ≢ JoinFileFaultKind.Memory →
        term_of seen.old.items field.now ≡ Err kind) }
    ensures few { length seen.new.items ≤ length seen.old.items + 1 }
{
    match variable_name(field) {
        Some(name) => {
            let name = read_name(alloc, name)?;
            Ok(Term::Variable(number_of(seen, name)?))
        }
        None => Ok(Term::Vertex(read_name(alloc, field)?)),
    }
}

/// The atom of these fields.
#[tactic(auto, unfolding(crate::specs::JoinLine::atom_of))]
fn read_atom(
    alloc: Global,
    queries: &[QueryDef],
    seen: &mut Vec<Name>,
    text: &AtomText,
) -> Result<JoinAtom, JoinFileFaultKind>
    requires queries { length queries.now ≤ 64 }
    requires few { length seen.old.items < 7 }
    ensures ok { IfOk result (λ atom.
        atom_of queries.now seen.old.items text.now ≡ Ok (atom, seen.new.items)) }
    ensures err { IfErr result (λ kind. kind ≢ JoinFileFaultKind.Memory →
        atom_of queries.now seen.old.items text.now ≡ Err kind) }
    ensures few { length seen.new.items ≤ length seen.old.items + 2 }
{
    let query = find_query(queries, text.query, JoinFileFaultKind::UnknownQuery)?;
    let from = read_term(alloc, seen, text.from)?;
    let to = read_term(alloc, seen, text.to)?;
    Ok(JoinAtom { query, from, to })
}

/// All these atoms.
fn read_all(
    alloc: Global,
    queries: &[QueryDef],
    texts: &[AtomText],
) -> Result<AtomsRead, JoinFileFaultKind>
    requires queries { length queries.now ≤ 64 }
    requires few { length texts.now ≤ 4 }
    ensures ok { IfOk result (λ read.
        with_atoms queries.now none_read texts.now ≡ Ok read) }
    ensures err { IfErr result (λ kind. kind ≢ JoinFileFaultKind.Memory →
        with_atoms queries.now none_read texts.now ≡ Err kind) }
    ensures few { IfOk result (λ read. length read.seen ≤ 8) }
{
    let mut atoms = Vec::new(alloc);
    let mut seen = Vec::new(alloc);
    for text in texts {
        let atom = read_atom(alloc, queries, &mut seen, text)?;
        atoms.push(atom)?;
    }
    Ok(AtomsRead { atoms, seen })
}

/// The atoms of a line, where the queries of all are known.
#[tactic(auto, unfolding(crate::specs::JoinLine::atoms_of))]
pub(crate) fn read_atoms(
    alloc: Global,
    queries: &[QueryDef],
    texts: &[AtomText],
) -> Result<AtomsRead, JoinFileFaultKind>
    requires queries { length queries.now ≤ 64 }
    requires few { length texts.now ≤ 4 }
    ensures ok { IfOk result (λ read. atoms_of queries.now texts.now ≡ Ok read) }
    ensures err { IfErr result (λ kind. kind ≢ JoinFileFaultKind.Memory →
        atoms_of queries.now texts.now ≡ Err kind) }
    ensures few { IfOk result (λ read. length read.seen ≤ 8) }
{
    if !all_known(queries, texts) {
        return Err(JoinFileFaultKind::UnknownQuery);
    }
    let read = read_all(alloc, queries, texts)?;
    Ok(read)
}

/// Whether the queries of all atoms are known.
fn all_known(queries: &[QueryDef], texts: &[AtomText]) -> bool
    ensures { result ≡ list_all (is_known_query queries.now) texts.now }
{
    texts.iter().all(|text| is_known_query(queries, text))
}
