//! Paths of entries, and marks of edges.

ghost use Rattle.std.specs.Prelude.{◌≡◌};

use crate::queries::queries_of;
use anyhow::ensure;
use case_lines::{Fields, Output, decoded, entries_of, parts};
use path_witness::{Mark, Marks, ShownPath, cut_loops};
use plain_checks::is_shown;
use rpq_base::{Act, Edge, Entry, Label, Name, Pair, TryClone};
use std::alloc::Global;
use std::random::RandomSource;
use std::sync::Arc;
use text_parts::read_number;

/// The name of the next field.
fn name_of(alloc: Global, fields: &mut Fields) -> anyhow::Result<Name> {
    Ok(Name::new(alloc, &decoded(alloc, fields.next())?)?)
}

/// The edge of the next three fields.
fn edge_of(alloc: Global, fields: &mut Fields) -> anyhow::Result<Edge> {
    let from = name_of(alloc, fields)?;
    let name = name_of(alloc, fields)?;
    let to = name_of(alloc, fields)?;
    let label = Label { name, back: false };
    Ok(Edge { from, label, to })
}

/// What the first query knows of an edge after each tuple.
pub fn answer_marks<R: RandomSource>(
    rt: &R,
    alloc: Global,
    out: &mut Output,
    mut fields: Fields,
) -> anyhow::Result<()> {
    let queries = queries_of(alloc, fields.next())?;
    let edge = edge_of(alloc, &mut fields)?;
    let entries = entries_of(alloc, fields.rest())?;
    let mut marks = Marks::new(rt, alloc, Arc::new(alloc, queries)?)?;
    put_marks(out, &mut marks, &entries, &edge)
}

/// What the first query knows of the edge after each of the entries.
fn put_marks(
    out: &mut Output,
    marks: &mut Marks,
    entries: &[Entry],
    edge: &Edge,
) -> anyhow::Result<()>
    requires { marks.old.taken ≡ 0 }
{
    for entry in entries {
        marks.take(entry)?;
        put_mark(out, marks.find(0, edge))?;
    }
    Ok(())
}

fn put_mark(out: &mut Output, mark: Option<Mark>) -> anyhow::Result<()> {
    match mark {
        Some(mark) => {
            out.put(" ")?;
            out.put_shown(&mark.position)?;
            out.put("@")?;
            out.put_shown(&mark.deadline)?;
        }
        None => out.put(" -")?,
    }
    out.put(";")
}

/// Whether some positions show of the first query that a pair is an answer until a time.
pub fn answer_shown(alloc: Global, out: &mut Output, mut fields: Fields) -> anyhow::Result<()> {
    let queries = queries_of(alloc, fields.next())?;
    let from = name_of(alloc, &mut fields)?;
    let to = name_of(alloc, &mut fields)?;
    let until = fields.number();
    let positions = positions_of(alloc, fields.next())?;
    let entries = entries_of(alloc, fields.rest())?;
    ensure!(!queries.is_empty(), "no query");
    let shown = ShownPath { until, positions };
    let pair = Pair { from, to };
    out.put_sign(is_shown(alloc, &queries[0], &entries, &pair, &shown)?)
}

/// The positions that a field lists.
fn positions_of(alloc: Global, text: &[u8]) -> anyhow::Result<Vec<u64>> {
    let mut positions = Vec::new(alloc);
    for part in &parts(alloc, text, b';')? {
        positions.push(read_number(part, u64::MAX).unwrap_or(0))?;
    }
    Ok(positions)
}

/// The edges of some tuples without the loops of their path.
pub fn answer_cut(alloc: Global, out: &mut Output, fields: Fields) -> anyhow::Result<()> {
    let mut edges = Vec::new(alloc);
    for entry in &entries_of(alloc, fields.rest())? {
        if let Act::Insert { edge, .. } = &entry.tuple.act {
            edges.push(edge.copy()?)?;
        }
    }
    for edge in &cut_loops(alloc, &edges)? {
        put_edge(out, edge)?;
    }
    Ok(())
}

fn put_edge(out: &mut Output, edge: &Edge) -> anyhow::Result<()> {
    out.put(" ")?;
    out.put_bytes(edge.from.as_bytes())?;
    out.put("/")?;
    out.put_bytes(edge.label.name.as_bytes())?;
    out.put("/")?;
    out.put_bytes(edge.to.as_bytes())
}
