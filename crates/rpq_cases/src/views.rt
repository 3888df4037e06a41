//! Views from scratch, and what they answer.

ghost use Rattle.std.specs.Prelude.{◌<◌, length};

use crate::queries::query_of;
use crate::texts::name_of;
use answer_rows::{Rows, Target};
use answer_view::View;
use anyhow::ensure;
use case_lines::{Fields, Output, entries_of};
use plain_checks::plain_view;
use rpq_base::{Entry, Name, Pair};
use rpq_model::QueryDef;
use std::alloc::Global;
use std::slice::from_ref;
use std::sync::Arc;

/// What the view of a query answers about a pair after each tuple.
pub fn answer_view(alloc: Global, out: &mut Output, mut fields: Fields) -> anyhow::Result<()> {
    let query = query_of(alloc, &mut fields)?;
    put_views_of(alloc, out, from_ref(&query), fields)
}

/// Puts what the views of the query answer that a request asks in the rest of its fields.
fn put_views_of(
    alloc: Global,
    out: &mut Output,
    query: &[QueryDef],
    mut fields: Fields,
) -> anyhow::Result<()> {
    let pair = pair_of(alloc, &mut fields)?;
    let entries = entries_of(alloc, fields.rest())?;
    put_views(alloc, out, query, &entries, &pair)
}

/// The pair of the next two fields.
fn pair_of(alloc: Global, fields: &mut Fields) -> anyhow::Result<Pair> {
    let from = name_of(alloc, fields.next())?;
    let to = name_of(alloc, fields.next())?;
    Ok(Pair { from, to })
}

fn put_views(
    alloc: Global,
    out: &mut Output,
    query: &[QueryDef],
    entries: &[Entry],
    pair: &Pair,
) -> anyhow::Result<()> {
    for count in 1..=entries.len() {
        let view = view_over(alloc, query, &entries[..count])?;
        put_view(alloc, out, &*view, pair)?;
    }
    Ok(())
}

/// The view of one query over the entries. It promises nothing, since what it answers is compared
/// from outside.
fn view_over(alloc: Global, query: &[QueryDef], entries: &[Entry]) -> anyhow::Result<Arc<View>> {
    ensure!(query.len() == 1, "not one query");
    ensure!(entries.len() < 1 << 30, "too many tuples");
    Ok(plain_view(alloc, query, entries)?)
}

/// Puts what the view answers about a pair.
fn put_view(alloc: Global, out: &mut Output, view: &View, pair: &Pair) -> anyhow::Result<()> {
    ensure!(view.queries() > 0, "no query");
    put_pair(out, view, pair)?;
    put_targets(out, view.row(0, &pair.from).unwrap_or(&[]))?;
    put_sources(alloc, out, view.rows(0), &pair.to)
}

/// Puts the position, the clock, the number of answers, and whether the pair is one up to when.
fn put_pair(out: &mut Output, view: &View, pair: &Pair) -> anyhow::Result<()>
    requires { 0 < length view.now.rows }
{
    out.put(" ")?;
    out.put_shown(&view.position())?;
    out.put(" ")?;
    out.put_shown(&view.clock())?;
    out.put(" ")?;
    out.put_shown(&view.count(0))?;
    out.put(" ")?;
    out.put_sign(view.holds(0, &pair.from, &pair.to))?;
    put_until(out, view.until(0, &pair.from, &pair.to))
}

fn put_until(out: &mut Output, until: Option<u64>) -> anyhow::Result<()> {
    match until {
        Some(until) => out.put_shown(&until),
        None => out.put("-"),
    }
}

/// Puts the targets of a source with their ends.
fn put_targets(out: &mut Output, targets: &[Target]) -> anyhow::Result<()> {
    out.put("|")?;
    for target in targets {
        out.put(" ")?;
        out.put_bytes(target.to.as_bytes())?;
        out.put("@")?;
        out.put_shown(&target.until)?;
    }
    Ok(())
}

/// Puts the number of the sources of a vertex, and the lines that they are written in.
fn put_sources(alloc: Global, out: &mut Output, rows: &Rows, to: &Name) -> anyhow::Result<()> {
    let mut text = Vec::new(alloc);
    rows.push_sources(to, &mut text)?;
    out.put("| ")?;
    out.put_shown(&rows.count_sources(to))?;
    out.put(" ")?;
    out.put_bytes(&text)?;
    out.put(";")
}
