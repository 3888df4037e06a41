//! Queries over entries.

ghost use Rattle.rpq_base.specs.declared.data.TheConstants.{MAX_TIME};

use crate::expressions::read;
use anyhow::ensure;
use case_lines::{Fields, Output, entries_of, put_events, put_pair};
use plain_evaluator::{changes, plain_answers, plain_rows};
use rpq_base::{Act, Edge, Entry, Event, MAX_TIME, Memory, Name, Pair, copy_all};
use rpq_model::{Ended, Live, Mode, QueryDef, Window, clock, live_entries};
use std::alloc::Global;

/// The window of the next two fields.
fn window_of(fields: &mut Fields) -> anyhow::Result<Window> {
    let size = fields.number();
    let slide = fields.number();
    ensure!(size > 0 && size <= MAX_TIME, "no size");
    ensure!(slide > 0 && slide <= MAX_TIME, "no slide");
    Ok(Window { size, slide })
}

/// The query of the next four fields.
pub fn query_of(alloc: Global, fields: &mut Fields) -> anyhow::Result<QueryDef> {
    let window = window_of(fields)?;
    let mode = match fields.next() {
        b"simple" => Mode::Simple,
        _ => Mode::Arbitrary,
    };
    let expr = read(alloc, fields.next())?;
    Ok(QueryDef {
        name: Name::new(alloc, b"q")?,
        window,
        mode,
        expr,
    })
}

/// A query, and the entries that it is asked about.
#[derive(Drop)]
struct QueryOverEntries {
    query: QueryDef,
    entries: Vec<Entry>,
}

/// The query of the next four fields, and the entries of the rest.
fn asked_by(alloc: Global, mut fields: Fields) -> anyhow::Result<QueryOverEntries> {
    let query = query_of(alloc, &mut fields)?;
    let entries = entries_of(alloc, fields.rest())?;
    Ok(QueryOverEntries { query, entries })
}

/// A copy of both.
fn copied(alloc: Global, asked: &QueryOverEntries) -> Result<QueryOverEntries, Memory> {
    let query = asked.query.copy(alloc)?;
    let entries = copy_all(alloc, &asked.entries)?;
    Ok(QueryOverEntries { query, entries })
}

/// The answers of a query after each tuple, by copies of both.
pub fn answer_answers(alloc: Global, out: &mut Output, fields: Fields) -> anyhow::Result<()> {
    let asked = asked_by(alloc, fields)?;
    let copy = copied(alloc, &asked)?;
    put_answers(alloc, out, &copy.query, &copy.entries)
}

fn put_answers(
    alloc: Global,
    out: &mut Output,
    query: &QueryDef,
    entries: &[Entry],
) -> anyhow::Result<()> {
    for count in 1..=entries.len() {
        put_answers_over(alloc, out, query, &entries[..count])?;
    }
    Ok(())
}

/// Puts the answers over all of the entries.
fn put_answers_over(
    alloc: Global,
    out: &mut Output,
    query: &QueryDef,
    entries: &[Entry],
) -> anyhow::Result<()> {
    let pairs = plain_answers(alloc, query, entries)?;
    put_pairs(out, &pairs)
}

fn put_pairs(out: &mut Output, pairs: &[Pair]) -> anyhow::Result<()> {
    for pair in pairs {
        out.put(" ")?;
        put_pair(out, pair)?;
    }
    out.put(";")
}

/// The answers of a query with their ends, after each tuple.
pub fn answer_rows(alloc: Global, out: &mut Output, fields: Fields) -> anyhow::Result<()> {
    let asked = asked_by(alloc, fields)?;
    put_rows(alloc, out, &asked.query, &asked.entries)
}

fn put_rows(
    alloc: Global,
    out: &mut Output,
    query: &QueryDef,
    entries: &[Entry],
) -> anyhow::Result<()> {
    for count in 1..=entries.len() {
        put_rows_over(alloc, out, query, &entries[..count])?;
    }
    Ok(())
}

/// Puts the answers over all of the entries with their ends.
fn put_rows_over(
    alloc: Global,
    out: &mut Output,
    query: &QueryDef,
    entries: &[Entry],
) -> anyhow::Result<()> {
    let rows = plain_rows(alloc, query, entries)?;
    put_ended(out, &rows)
}

fn put_ended(out: &mut Output, rows: &[Ended]) -> anyhow::Result<()> {
    for row in rows {
        out.put(" ")?;
        put_pair(out, &row.pair)?;
        out.put("@")?;
        out.put_shown(&row.until)?;
    }
    out.put(";")
}

/// What each tuple changes of the answers of a query.
pub fn answer_events(alloc: Global, out: &mut Output, fields: Fields) -> anyhow::Result<()> {
    let asked = asked_by(alloc, fields)?;
    put_all_events(alloc, out, &asked.query, &asked.entries)
}

fn put_all_events(
    alloc: Global,
    out: &mut Output,
    query: &QueryDef,
    entries: &[Entry],
) -> anyhow::Result<()> {
    for count in 0..entries.len() {
        let events = events_between(alloc, query, &entries[..count], &entries[..count + 1])?;
        put_copies(alloc, out, &events)?;
    }
    Ok(())
}

/// What leads from the answers over some entries to those over others.
fn events_between(
    alloc: Global,
    query: &QueryDef,
    before: &[Entry],
    after: &[Entry],
) -> Result<Vec<Event>, Memory> {
    let old = plain_answers(alloc, query, before)?;
    let new = plain_answers(alloc, query, after)?;
    changes(alloc, 7, &old, &new)
}

fn put_copies(alloc: Global, out: &mut Output, events: &[Event]) -> anyhow::Result<()> {
    let copies = copy_all(alloc, events)?;
    put_events(out, &copies)
}

/// The entries that are live at a clock.
pub fn answer_live(alloc: Global, out: &mut Output, mut fields: Fields) -> anyhow::Result<()> {
    let window = window_of(&mut fields)?;
    let now = fields.number();
    let entries = entries_of(alloc, fields.rest())?;
    let live = live_entries(alloc, window, now, &entries)?;
    put_live(out, &live)
}

/// Puts the place of each entry, and its edge.
fn put_live(out: &mut Output, live: &[Live]) -> anyhow::Result<()> {
    for each in live {
        out.put(" ")?;
        out.put_shown(&each.place)?;
        out.put(":")?;
        put_act(out, each.entry)?;
    }
    Ok(())
}

/// Puts the edge that an entry inserts or deletes.
fn put_act(out: &mut Output, entry: &Entry) -> anyhow::Result<()> {
    match &entry.tuple.act {
        Act::Insert { edge, .. } => put_edge(out, edge),
        Act::Delete(edge) => put_edge(out, edge),
        Act::Tick => Ok(()),
    }
}

fn put_edge(out: &mut Output, edge: &Edge) -> anyhow::Result<()> {
    out.put_bytes(edge.from.as_bytes())?;
    out.put("/")?;
    out.put_bytes(edge.label.name.as_bytes())?;
    out.put("/")?;
    out.put_bytes(edge.to.as_bytes())
}

/// The clock of a history.
pub fn answer_clock(alloc: Global, out: &mut Output, fields: Fields) -> anyhow::Result<()> {
    let entries = entries_of(alloc, fields.rest())?;
    out.put_shown(&clock(&entries))
}
