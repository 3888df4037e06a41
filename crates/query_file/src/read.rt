//! Reading a queries file.

ghost use Rattle.std.specs.Prelude.{◌≡◌, ◌≢◌, ◌+◌, ◌<◌, ◌≤◌, ◌^◌, Ok, Err, map, length, All, List};
ghost use Rattle.std.specs.Prelude.{IfOk, IfErr, OnOk, Result, IsTrue, ◌↔◌, ◌⊎◌};
ghost use Rattle.std.specs.Prelude.{MatchResult};
ghost use Rattle.text_parts.specs.Lines.{lines};
ghost use Rattle.containment_laws.specs.Accepted.{IsAccepted};
ghost use Rattle.rpq_model.specs.Query.{Query};
ghost use Rattle.query_file.specs.declared.fault.QueryKind.{QueryKind};
ghost use Rattle.query_file.specs.declared.fault.QueryFault.{QueryFault as FaultOf};
ghost use Rattle.query_file.specs.Queries.{Queries, TwoWayQueries, QueriesOf};
ghost use Rattle.query_file.specs.Queries.{IsPassedOver, IsQueryLine};
ghost use Rattle.query_file.specs.QueryLine.{IsFirstFault};
ghost use Rattle.query_file.specs.Takes.{defs, Takes};
ghost use Rattle.query_file.specs.Compiled.{IsCompiled};

use crate::compiled::Compiled;
use crate::fault::{QueryFault, QueryKind};
use crate::query::read_query;
use std::alloc::Global;
use text_parts::{is_blank_line, is_comment, split_line, without_return};

/// The queries of a queries file with these bytes, each with its automaton and its verdict, or the
/// first fault.
///
/// The lines are gone through from the first on, up to the first that has a fault, and of its
/// faults the first in the order of [`QueryKind`] is told. Blank lines and comments count as lines.
/// A file without a query line has the fault `NoQuery`, with the number of its lines. Where memory
/// runs out the fault is `Memory`, at the line that was read then. No label is taken backwards.
pub fn read_queries(alloc: Global, bytes: &[u8]) -> Result<Vec<Compiled>, QueryFault>
    requires { length bytes.now < 2 ^ 24 + 1 }
    ensures queries { IfOk result (λ found.
        Queries bytes.now (Ok (map (λ each. each.def) found.items))) }
    ensures fault { IfErr result (λ fault. fault.kind ≢ QueryKind.Memory →
        Queries bytes.now (Err fault)) }
    // Whatever the file gives is answered, unless memory runs out.
    ensures exact { (outcome : Result (List Query) FaultOf) → Queries bytes.now outcome →
        MatchResult result (λ found. outcome ≡ Ok (map (λ each. each.def) found.items))
        (λ fault. (fault.kind ≡ QueryKind.Memory) ⊎ (outcome ≡ Err fault)) }
    ensures memory { IfErr result (λ fault. fault.kind ≡ QueryKind.Memory →
        (1 ≤ fault.line) × (fault.line ≤ length (lines bytes.now))) }
    ensures few { IfOk result (λ found. (1 ≤ length found.items) × (length found.items ≤ 64)) }
    ensures compiled { IfOk result (λ found. All IsCompiled found.items) }
    ensures accepted { IfOk result (λ found. All (λ each. IsAccepted each.def) found.items) }
{
    read_lines(alloc, false, bytes)
}

/// The queries of a queries file, as [`read_queries`] reads it, where a `^` before a label takes it
/// backwards.
///
/// A label and its inverse are two labels: of two with one name the plain one comes first, and a
/// query that takes simple paths is taken or refused for its words of both.
pub fn read_two_way_queries(alloc: Global, bytes: &[u8]) -> Result<Vec<Compiled>, QueryFault>
    requires { length bytes.now < 2 ^ 24 + 1 }
    ensures queries { IfOk result (λ found.
        TwoWayQueries bytes.now (Ok (map (λ each. each.def) found.items))) }
    ensures fault { IfErr result (λ fault. fault.kind ≢ QueryKind.Memory →
        TwoWayQueries bytes.now (Err fault)) }
    // Whatever the file gives is answered, unless memory runs out.
    ensures exact { (outcome : Result (List Query) FaultOf) → TwoWayQueries bytes.now outcome →
        MatchResult result (λ found. outcome ≡ Ok (map (λ each. each.def) found.items))
        (λ fault. (fault.kind ≡ QueryKind.Memory) ⊎ (outcome ≡ Err fault)) }
    ensures memory { IfErr result (λ fault. fault.kind ≡ QueryKind.Memory →
        (1 ≤ fault.line) × (fault.line ≤ length (lines bytes.now))) }
    ensures few { IfOk result (λ found. (1 ≤ length found.items) × (length found.items ≤ 64)) }
    ensures compiled { IfOk result (λ found. All IsCompiled found.items) }
    ensures accepted { IfOk result (λ found. All (λ each. IsAccepted each.def) found.items) }
{
    read_lines(alloc, true, bytes)
}

/// The queries of the lines of these bytes, or their first fault.
fn read_lines(alloc: Global, inverses: bool, bytes: &[u8]) -> Result<Vec<Compiled>, QueryFault>
    requires { length bytes.now < 2 ^ 24 + 1 }
    ensures queries { IfOk result (λ found.
        QueriesOf inverses bytes.now (Ok (map (λ each. each.def) found.items))) }
    ensures fault { IfErr result (λ fault. fault.kind ≢ QueryKind.Memory →
        QueriesOf inverses bytes.now (Err fault)) }
    ensures exact { (outcome : Result (List Query) FaultOf) →
        QueriesOf inverses bytes.now outcome →
        MatchResult result (λ found. outcome ≡ Ok (map (λ each. each.def) found.items))
        (λ fault. (fault.kind ≡ QueryKind.Memory) ⊎ (outcome ≡ Err fault)) }
    ensures memory { IfErr result (λ fault. fault.kind ≡ QueryKind.Memory →
        (1 ≤ fault.line) × (fault.line ≤ length (lines bytes.now))) }
    ensures few { IfOk result (λ found. (1 ≤ length found.items) × (length found.items ≤ 64)) }
    ensures compiled { IfOk result (λ found. All IsCompiled found.items) }
    ensures accepted { IfOk result (λ found. All (λ each. IsAccepted each.def) found.items) }
{
    let mut queries = Vec::new(alloc);
    let mut rest = bytes;
    let mut count = 0;
    while let Some((line, after)) = split_line(rest) {
        count += 1;
        let taken = take_line(alloc, inverses, without_return(line), &mut queries);
        if let Err(kind) = taken {
            return Err(QueryFault { line: count, kind });
        }
        rest = after;
    }
    if queries.is_empty() {
        return Err(QueryFault {
            line: count,
            kind: QueryKind::NoQuery,
        });
    }
    Ok(queries)
}

/// Puts the query of the line, if it gives one, behind those before it.
fn take_line(
    alloc: Global,
    inverses: bool,
    line: &[u8],
    queries: &mut Vec<Compiled>,
) -> Result<(), QueryKind>
    requires { length line.now < 2 ^ 24 + 1 }
    ensures ok { OnOk result
        (Takes inverses (defs queries.old.items) line.now (defs queries.new.items)) }
    ensures err { IfErr result (λ kind. kind ≢ QueryKind.Memory →
        IsQueryLine line.now × IsFirstFault inverses (defs queries.old.items) line.now kind) }
    ensures few { length queries.old.items ≤ 64 → OnOk result (length queries.new.items ≤ 64) }
    ensures compiled { All IsCompiled queries.old.items →
        OnOk result (All IsCompiled queries.new.items) }
{
    if is_passed_over(line) {
        return Ok(());
    }
    let query = read_query(alloc, inverses, line, queries)?;
    queries.push(query)?;
    Ok(())
}

/// Whether the line gives nothing: it is blank or a comment.
fn is_passed_over(line: &[u8]) -> bool
    ensures { IsTrue result ↔ IsPassedOver line.now }
{
    is_blank_line(line) || is_comment(line)
}
