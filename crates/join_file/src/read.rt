//! Reading a joins file.

ghost use Rattle.std.specs.Prelude.{◌≡◌, ◌≢◌, ◌+◌, ◌<◌, ◌≤◌, ◌^◌, map, length, All, IfOk, IfErr};
ghost use Rattle.std.specs.Prelude.{OnOk};
ghost use Rattle.std.specs.List.{list_any};
ghost use Rattle.rpq_base.specs.Same.{same_name};
ghost use Rattle.join_file.specs.declared.fault.JoinFileFaultKind.{JoinFileFaultKind};
ghost use Rattle.join_file.specs.Sound.{IsSound};
ghost use Rattle.join_file.specs.JoinLine.{placed, join_of_fields};
ghost use Rattle.join_file.specs.JoinsFile.{after_line, joins};

use crate::atoms::read_atoms;
use crate::data::JoinDef;
use crate::fault::{JoinFileFault, JoinFileFaultKind};
use crate::line::read_text;
use rpq_base::{Name, TryClone};
use rpq_model::QueryDef;
use std::alloc::Global;
use std::marker::Model;
use text_parts::{TextReader, fields, is_blank_line, is_comment, read_lines};

/// The most joins of a file.
const MAX_JOINS: usize = 32;

/// The joins of the lines so far.
#[derive(Drop)]
struct JoinsSoFar {
    joins: Vec<JoinDef>,
}

impl Model for JoinsSoFar {
    ghost use Rattle.std.specs.Prelude.{List};
    ghost use Rattle.join_file.specs.Joins.{JoinValue};

    ghost Value = { List JoinValue };

    ghost view = { λ found. found.joins.items };
}

/// What reads a joins file: the queries that its atoms may name.
#[derive(Drop)]
struct JoinReader<'a> {
    alloc: Global,
    queries: &'a [QueryDef],
}

impl<'a> TextReader for JoinReader<'a> {
    type Progress = JoinsSoFar;

    type Fault = JoinFileFault;

    ghost use Rattle.join_file.specs.JoinsFile.{line_step};

    ghost can_read = { λ reader. length reader.queries.now ≤ 64 };

    ghost step = { λ reader. line_step reader.queries.now };

    ghost told = { λ fault. fault.kind ≢ JoinFileFaultKind.Memory };

    fn with_line(
        &self,
        number: u64,
        before: JoinsSoFar,
        line: &[u8],
    ) -> Result<JoinsSoFar, JoinFileFault> {
        let JoinsSoFar { mut joins } = before;
        match take_line(self.alloc, self.queries, &mut joins, line) {
            Ok(()) => Ok(JoinsSoFar { joins }),
            Err(kind) => Err(JoinFileFault { line: number, kind }),
        }
    }
}

/// The joins of a joins file with these bytes, or the first fault. An atom's query is told by its
/// place among these.
///
/// The lines are gone through from the first on, up to the first that has a fault, and of its
/// faults the first in the order of [`JoinFileFaultKind`] is told. Blank lines and comments count as
/// lines.
/// Where memory runs out the fault is `Memory`, at the line that was read then.
#[tactic(auto, unfolding(crate::specs::JoinsFile::joins))]
pub fn read_joins(
    alloc: Global,
    bytes: &[u8],
    queries: &[QueryDef],
) -> Result<Vec<JoinDef>, JoinFileFault>
    requires bytes { length bytes.now < 2 ^ 24 + 1 }
    requires queries { length queries.now ≤ 64 }
    ensures joins { IfOk result (λ found. joins queries.now bytes.now ≡ Ok found.items) }
    ensures fault { IfErr result (λ fault. fault.kind ≢ JoinFileFaultKind.Memory →
        joins queries.now bytes.now ≡ Err fault) }
    ensures few { IfOk result (λ found. length found.items ≤ 32) }
    ensures sound { IfOk result (λ found. All (IsSound (length queries.now)) found.items) }
    ensures variables { IfOk result (λ found. All (λ join. 0 < join.variables) found.items) }
{
    let reader = JoinReader { alloc, queries };
    let none = JoinsSoFar {
        joins: Vec::new(alloc),
    };
    let (found, _) = read_lines(&reader, none, bytes)?;
    Ok(found.joins)
}

/// Puts the join of the line, if it gives one, behind those before it.
#[tactic(auto, unfolding(crate::specs::JoinsFile::after_line))]
fn take_line(
    alloc: Global,
    queries: &[QueryDef],
    joins: &mut Vec<JoinDef>,
    line: &[u8],
) -> Result<(), JoinFileFaultKind>
    requires { length queries.now ≤ 64 }
    ensures ok { OnOk result
        (after_line queries.now joins.old.items line.now ≡ Ok joins.new.items) }
    ensures err { IfErr result (λ kind. kind ≢ JoinFileFaultKind.Memory →
        after_line queries.now joins.old.items line.now ≡ Err kind) }
{
    if is_blank_line(line) || is_comment(line) {
        return Ok(());
    }
    let fields = fields(alloc, line)?;
    let join = read_join(alloc, queries, joins, &fields)?;
    joins.push(join)?;
    Ok(())
}

/// The join of a line with these fields, which follows these.
#[tactic(auto, unfolding(crate::specs::JoinLine::join_of_fields))]
fn read_join(
    alloc: Global,
    queries: &[QueryDef],
    before: &[JoinDef],
    fields: &[&[u8]],
) -> Result<JoinDef, JoinFileFaultKind>
    requires { length queries.now ≤ 64 }
    ensures ok { IfOk result (λ join. join_of_fields queries.now before.now
        (map (λ field. field.now) fields.now) ≡ Ok join) }
    ensures err { IfErr result (λ kind. kind ≢ JoinFileFaultKind.Memory →
        join_of_fields queries.now before.now (map (λ field. field.now) fields.now) ≡ Err kind) }
{
    let text = read_text(alloc, fields)?;
    check_place(before, &text.name)?;
    let read = read_atoms(alloc, queries, &text.atoms)?;
    Ok(JoinDef {
        name: text.name,
        variables: read.seen.len() as u32,
        atoms: read.atoms,
    })
}

/// Whether one more join may follow these, and have this name.
#[tactic(auto, unfolding(crate::specs::JoinLine::placed))]
fn check_place(before: &[JoinDef], name: &Name) -> Result<(), JoinFileFaultKind>
    ensures ok { OnOk result (placed before.now name.now ≡ Ok name.now) }
    ensures err { IfErr result (λ kind. kind ≢ JoinFileFaultKind.Memory →
        placed before.now name.now ≡ Err kind) }
{
    if is_taken(before, name) {
        return Err(JoinFileFaultKind::Twice(name.copy()?));
    }
    if before.len() >= MAX_JOINS {
        return Err(JoinFileFaultKind::TooMany);
    }
    Ok(())
}

/// Whether one of these joins has the name.
fn is_taken(before: &[JoinDef], name: &Name) -> bool
    ensures { result ≡ list_any (λ join. same_name join.name name.now) before.now }
{
    before.iter().any(|join| join.name == *name)
}
