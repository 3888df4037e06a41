//! The query of a query line.

ghost use Rattle.std.specs.Prelude.{◌≡◌, ◌≢◌, ◌+◌, ◌^◌, ◌<◌, ◌≤◌, ◌⊎◌, Some, None, IfOk, OnOk};
ghost use Rattle.std.specs.Prelude.{IfErr, IfSome, IfNone, IsNone, MatchResult, Ok, Err, length};
ghost use Rattle.rpq_base.specs.declared.data.TheConstants.{MAX_TIME as GREATEST};
ghost use Rattle.std.specs.List.{list_any};
ghost use Rattle.rpq_base.specs.Same.{same_name};
ghost use Rattle.rpq_base.specs.Names.{IsName};
ghost use Rattle.query_file.specs.Compiled.{IsCompiled};
ghost use Rattle.query_file.specs.QueryLine.{length_of};
ghost use Rattle.query_file.specs.InOrder.{IsTaken, IsFirstInOrder, IsLineInOrder};
ghost use Rattle.query_file.specs.Takes.{defs};
ghost use Rattle.query_file.specs.Places.{HasNoPlace, IsDefinitionOf, IsRefusedBy};
ghost use Rattle.path_syntax.specs.Expression.{expression};
ghost use Rattle.path_syntax.specs.Faults.{IsOutcomeOf};
ghost use Rattle.path_syntax.specs.Size.{nodes};
ghost use Rattle.path_syntax.specs.declared.read.BadExpr.{BadExpr};
ghost use Rattle.dfa_table.specs.Runs.{Accepts};
ghost use Rattle.containment_test.specs.Verdict.{IsVerdict};
ghost use Rattle.containment_test.specs.declared.verdict.Verdict.TheVariants.{Yes};
ghost use Rattle.rpq_model.specs.declared.mode.Mode.{Mode as ModeOf};

use crate::automaton::automaton_of;
use crate::compiled::Compiled;
use crate::fault::QueryKind;
use crate::line_text::line_text;
use containment_test::{Verdict, contained};
use dfa_table::Dfa;
use path_syntax::{BadExpr, Expr, read_expr, read_two_way};
use rpq_base::{MAX_TIME, Name, NameFault, TryClone};
use rpq_model::{Mode, QueryDef, Window};
use std::alloc::Global;
use text_parts::read_number;

/// The most queries that a file has.
const MAX_QUERIES: usize = 64;

/// The query of a line that follows these queries, with its automaton and its verdict, or its first
/// fault.
pub fn read_query(
    alloc: Global,
    inverses: bool,
    line: &[u8],
    before: &[Compiled],
) -> Result<Compiled, QueryKind>
    requires { length line.now < 2 ^ 24 + 1 }
    ensures ok { IfOk result (λ found.
        IsLineInOrder inverses (defs before.now) line.now found.def) }
    ensures compiled { IfOk result (λ found. IsCompiled found) }
    ensures err { IfErr result (λ kind. kind ≢ QueryKind.Memory →
        IsFirstInOrder inverses (defs before.now) line.now kind) }
    ensures room { OnOk result (length before.now < 64) }
{
    let def = read_definition(alloc, inverses, line, before)?;
    let dfa = automaton_of(alloc, &def.expr)?;
    let verdict = accepted_verdict(alloc, def.mode, &dfa)?;
    Ok(Compiled { def, dfa, verdict })
}

/// The verdict on the words that the automaton accepts. A query of this mode that takes simple
/// paths is refused by another than `Yes`.
fn accepted_verdict(alloc: Global, mode: Mode, dfa: &Dfa) -> Result<Verdict, QueryKind>
    ensures verdict { IfOk result (λ verdict. IsVerdict (Accepts dfa.now) verdict) }
    ensures accepted { IfOk result (λ verdict. mode ≡ ModeOf.Simple → verdict ≡ Yes) }
    ensures refused { IfErr result (λ kind. kind ≢ QueryKind.Memory →
        IsRefusedBy (Accepts dfa.now) mode kind) }
{
    match contained(alloc, dfa)? {
        Verdict::No { p, q, w } if mode == Mode::Simple => Err(QueryKind::NotContained { p, q, w }),
        verdict => Ok(verdict),
    }
}

/// The query that a line defines which follows these queries, whatever its mode and its automaton.
fn read_definition(
    alloc: Global,
    inverses: bool,
    line: &[u8],
    before: &[Compiled],
) -> Result<QueryDef, QueryKind>
    requires { length line.now < 2 ^ 24 + 1 }
    ensures ok { IfOk result (λ def.
        IsDefinitionOf inverses (defs before.now) line.now def) }
    ensures small { IfOk result (λ def. nodes def.expr < 2 ^ 32) }
    ensures err { IfErr result (λ kind. kind ≢ QueryKind.Memory →
        IsFirstInOrder inverses (defs before.now) line.now kind) }
    ensures room { OnOk result (length before.now < 64) }
{
    let Some(text) = line_text(line) else {
        return Err(QueryKind::Shape);
    };
    let name = read_name(alloc, text.name)?;
    let Some(window) = read_window(text.size, text.slide) else {
        return Err(QueryKind::Number);
    };
    check_place(&name, before)?;
    let expr = read_expression(alloc, inverses, text.expr)?;
    Ok(QueryDef {
        name,
        window,
        mode: text.mode,
        expr,
    })
}

/// The expression of these bytes, or its first fault. A `^` before a label takes it backwards where
/// inverses are read.
fn read_expression(alloc: Global, inverses: bool, bytes: &[u8]) -> Result<Expr, BadExpr>
    requires { length bytes.now < 2 ^ 24 + 1 }
    ensures outcome { MatchResult result
        (λ found. IsOutcomeOf inverses bytes.now (Ok (expression found)))
        (λ fault. fault ≢ BadExpr.Memory → IsOutcomeOf inverses bytes.now (Err fault)) }
    ensures small { IfOk result (λ found. nodes (expression found) < 2 ^ 32) }
{
    if inverses {
        read_two_way(alloc, bytes)
    } else {
        read_expr(alloc, bytes)
    }
}

/// The name that a field is; another field spoils the form of its line.
fn read_name(alloc: Global, field: &[u8]) -> Result<Name, QueryKind>
    ensures name { IfOk result (λ name. name ≡ field.now) }
    ensures valid { OnOk result (IsName field.now) }
    ensures fault { IfErr result (λ kind. kind ≢ QueryKind.Memory →
        (kind ≡ QueryKind.Shape) × (IsName field.now → ⊥)) }
{
    match Name::new(alloc, field) {
        Ok(name) => Ok(name),
        Err(NameFault::Length(_) | NameFault::Byte(_)) => Err(QueryKind::Shape),
        Err(NameFault::Memory) => Err(QueryKind::Memory),
    }
}

/// The window of the two lengths of time that these fields write.
fn read_window(size: &[u8], slide: &[u8]) -> Option<Window>
    ensures size { IfSome result (λ window. length_of size.now ≡ Some window.size) }
    ensures slide { IfSome result (λ window. length_of slide.now ≡ Some window.slide) }
    ensures none { IfNone result
        (IsNone (length_of size.now) ⊎ IsNone (length_of slide.now)) }
{
    let size = read_length(size)?;
    let slide = read_length(slide)?;
    Some(Window { size, slide })
}

/// The length of time that a field writes.
#[tactic(auto, unfolding(crate::specs::QueryLine::length_of))]
fn read_length(field: &[u8]) -> Option<u64>
    ensures value { result ≡ length_of field.now }
    ensures within { IfSome result (λ length. (1 ≤ length) × (length ≤ GREATEST)) }
{
    match read_number(field, MAX_TIME) {
        Ok(0) | Err(_) => None,
        Ok(length) => Some(length),
    }
}

/// Whether one more query may follow these, and have this name.
fn check_place(name: &Name, before: &[Compiled]) -> Result<(), QueryKind>
    ensures new { OnOk result (IsTaken (defs before.now) name.now → ⊥) }
    ensures room { OnOk result (length before.now < 64) }
    ensures fault { IfErr result (HasNoPlace (defs before.now) name.now) }
{
    if is_taken(name, before) {
        return Err(QueryKind::Twice(name.copy()?));
    }
    if before.len() >= MAX_QUERIES {
        return Err(QueryKind::TooMany);
    }
    Ok(())
}

/// Whether one of these queries has the name.
fn is_taken(name: &Name, before: &[Compiled]) -> bool
    ensures { result ≡ list_any (λ each. same_name each.def.name name.now) before.now }
{
    before.iter().any(|each| each.def.name == *name)
}
