//! Lines of a joins file.

ghost use Rattle.std.specs.Prelude.{◌≡◌, ◌≢◌, ◌<◌, ◌≤◌, ◌+◌, ◌*◌, ◌++◌, true, map, length, IfOk};
ghost use Rattle.std.specs.Prelude.{IfErr, OnOk};
ghost use Rattle.std.specs.Prelude.{bytes_eq, codes, is_some, false};
ghost use Rattle.std.specs.List.{list_any};
ghost use Rattle.std.specs.Option.{option_map};
ghost use Rattle.rpq_base.specs.Names.{is_name};
ghost use Rattle.join_file.specs.JoinLine.{variable_name, is_bare, has_bare, has_variable};
ghost use Rattle.join_file.specs.JoinLine.{atom_texts, is_count, are_sound, checked_text};
ghost use Rattle.join_file.specs.JoinLine.{text_of_fields, is_some_variable};

use crate::fault::JoinFileFaultKind;
use rpq_base::{Memory, Name, NameFault};
use std::alloc::Global;
use std::marker::Model;

/// The fields of an atom.
#[derive(Drop)]
pub(crate) struct AtomText<'a> {
    pub(crate) query: &'a [u8],
    pub(crate) from: &'a [u8],
    pub(crate) to: &'a [u8],
}

impl<'a> Model for AtomText<'a> {
    ghost use Rattle.join_file.specs.JoinLine.{AtomText as AtomOf};

    ghost Value = { AtomOf };

    ghost view = { λ text. record {
      query = text.query.now;
      from = text.from.now;
      to = text.to.now;
    } };
}

/// The parts of a line: the name, and the atoms.
#[derive(Drop)]
pub(crate) struct JoinLineText<'a> {
    pub(crate) name: Name,
    pub(crate) atoms: Vec<AtomText<'a>>,
}

impl<'a> Model for JoinLineText<'a> {
    ghost use Rattle.join_file.specs.JoinLine.{LineText as LineOf};

    ghost Value = { LineOf };

    ghost view = { λ text. record { name = text.name; atoms = text.atoms.items } };
}

/// What stands behind the `?` of a variable; none where the field doesn't begin with it.
#[tactic(auto, unfolding(crate::specs::JoinLine::variable_name))]
pub(crate) fn variable_name(field: &[u8]) -> Option<&[u8]>
    ensures { option_map (λ name. name.now) result ≡ variable_name field.now }
{
    match field {
        [b'?', name @ ..] => Some(name),
        _ => None,
    }
}

/// Whether the field is a variable.
fn is_variable(field: &[u8]) -> bool
    ensures { result ≡ is_some_variable field.now }
{
    variable_name(field).is_some()
}

/// Whether the field is a variable without a name.
fn is_bare(field: &[u8]) -> bool
    ensures { result ≡ is_bare field.now }
{
    match variable_name(field) {
        Some(name) => name.is_empty(),
        None => false,
    }
}

/// Whether an end of the atom is a variable without a name.
fn has_bare(atom: &AtomText) -> bool
    ensures { result ≡ has_bare atom.now }
{
    is_bare(atom.from) || is_bare(atom.to)
}

/// Whether an end of the atom is a variable.
fn has_variable(atom: &AtomText) -> bool
    ensures { result ≡ has_variable atom.now }
{
    is_variable(atom.from) || is_variable(atom.to)
}

/// Whether no variable is without a name, and there is one.
#[tactic(auto, unfolding(crate::specs::JoinLine::are_sound))]
fn are_sound(atoms: &[AtomText]) -> bool
    ensures { result ≡ are_sound atoms.now }
{
    !any_bare(atoms) && any_variable(atoms)
}

/// Whether an end of one of the atoms is a variable without a name.
fn any_bare(atoms: &[AtomText]) -> bool
    ensures { result ≡ list_any has_bare atoms.now }
{
    atoms.iter().any(|atom| has_bare(atom))
}

/// Whether an end of one of the atoms is a variable.
fn any_variable(atoms: &[AtomText]) -> bool
    ensures { result ≡ list_any has_variable atoms.now }
{
    atoms.iter().any(|atom| has_variable(atom))
}

/// Whether so many fields are one to four atoms.
#[tactic(auto, unfolding(crate::specs::JoinLine::is_count))]
fn is_count(count: usize) -> bool
    ensures test { result ≡ is_count count }
    ensures few { result ≡ true → count ≤ 12 }
{
    count == 3 || count == 6 || count == 9 || count == 12
}

/// The atoms that the fields are, three for each.
fn atom_texts<'a>(alloc: Global, fields: &[&'a [u8]]) -> Result<Vec<AtomText<'a>>, Memory>
    ensures atoms { IfOk result (λ atoms.
        atoms.items ≡ atom_texts (map (λ field. field.now) fields.now)) }
    ensures few { IfOk result (λ atoms. 3 * length atoms.items ≤ length fields.now) }
{
    let mut atoms = Vec::new(alloc);
    push_atoms(&mut atoms, fields)?;
    Ok(atoms)
}

/// Adds the atoms that the fields are.
#[tactic(auto, unfolding(crate::specs::JoinLine::atom_texts))]
fn push_atoms<'a>(atoms: &mut Vec<AtomText<'a>>, fields: &[&'a [u8]]) -> Result<(), Memory>
    ensures atoms { OnOk result (atoms.new.items
        ≡ atoms.old.items ++ atom_texts (map (λ field. field.now) fields.now)) }
    ensures few { OnOk result
        (3 * length atoms.new.items ≤ 3 * length atoms.old.items + length fields.now) }
{
    match fields {
        [query, from, to, rest @ ..] => {
            atoms.push(AtomText {
                query: *query,
                from: *from,
                to: *to,
            })?;
            push_atoms(atoms, rest)
        }
        _ => Ok(()),
    }
}

/// The name of a join that a field is; another field spoils the form of its line.
fn read_join_name(alloc: Global, field: &[u8]) -> Result<Name, JoinFileFaultKind>
    ensures name { IfOk result (λ name. name ≡ field.now) }
    ensures valid { OnOk result (is_name field.now ≡ true) }
    ensures fault { IfErr result (λ kind. kind ≢ JoinFileFaultKind.Memory →
        (kind ≡ JoinFileFaultKind.Shape) × (is_name field.now ≡ false)) }
{
    match Name::new(alloc, field) {
        Ok(name) => Ok(name),
        Err(NameFault::Length(_) | NameFault::Byte(_)) => Err(JoinFileFaultKind::Shape),
        Err(NameFault::Memory) => Err(JoinFileFaultKind::Memory),
    }
}

/// The parts of a line with these atoms, if they are sound.
#[tactic(auto, unfolding(crate::specs::JoinLine::checked_text))]
fn checked_text(name: Name, atoms: Vec<AtomText>) -> Result<JoinLineText, JoinFileFaultKind>
    ensures ok { IfOk result (λ text. checked_text name atoms.entry.items ≡ Ok text) }
    ensures err { IfErr result (λ kind. checked_text name atoms.entry.items ≡ Err kind) }
    ensures atoms { IfOk result (λ text. text.atoms ≡ atoms.entry.items) }
{
    if are_sound(&atoms) {
        Ok(JoinLineText { name, atoms })
    } else {
        Err(JoinFileFaultKind::Shape)
    }
}

/// The parts of a line with these fields.
#[tactic(auto, unfolding(crate::specs::JoinLine::text_of_fields))]
pub(crate) fn read_text<'a>(
    alloc: Global,
    fields: &[&'a [u8]],
) -> Result<JoinLineText<'a>, JoinFileFaultKind>
    ensures ok { IfOk result (λ text.
        text_of_fields (map (λ field. field.now) fields.now) ≡ Ok text) }
    ensures err { IfErr result (λ kind. kind ≢ JoinFileFaultKind.Memory →
        text_of_fields (map (λ field. field.now) fields.now) ≡ Err kind) }
    ensures few { IfOk result (λ text. length text.atoms ≤ 4) }
{
    match fields {
        [word, name, rest @ ..] => {
            if !is_join(word) || !is_count(rest.len()) {
                return Err(JoinFileFaultKind::Shape);
            }
            let name = read_join_name(alloc, name)?;
            checked_text(name, atom_texts(alloc, rest)?)
        }
        _ => Err(JoinFileFaultKind::Shape),
    }
}

/// Whether the field is the word of a line.
fn is_join(field: &[u8]) -> bool
    ensures { result ≡ bytes_eq field.now (codes "join") }
{
    field == b"join".as_slice()
}
