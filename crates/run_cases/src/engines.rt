//! The engine.

use answer_rows::{Rows, changes};
use answer_view::View;
use anyhow::{anyhow, ensure};
use case_lines::{Fields, Output, decoded, entries_of, put_events, put_pair};
use path_engine::Engine;
use query_file::read_queries;
use rpq_base::{Entry, Event, Workers};
use rpq_io::{Context, Gate, Who};
use std::alloc::Global;
use std::random::RandomSource;
use std::sync::Arc;
use std::thread::Threads;

/// The most queries of a file.
const MAX_QUERIES: u32 = 64;

/// A gate at which each change and each view gets as many workers as it may have, however small it
/// is.
#[derive(Clone, Copy)]
struct EagerGate;

impl Gate for EagerGate {
    fn pass(&self, _who: Who) {}

    fn trees_per_worker(&self) -> usize {
        1
    }

    fn replied(&self, _session: u32, _position: u64) {}
}

/// The number of workers of the next field.
fn workers_of(fields: &mut Fields) -> anyhow::Result<Workers> {
    let number = fields.number().min(u32::MAX as u64) as u32;
    match Workers::new(number) {
        Some(workers) => Ok(workers),
        None => Err(anyhow!("no workers")),
    }
}

/// A new engine for the queries of the next field.
fn engine_of<R: RandomSource>(
    rt: &R,
    alloc: Global,
    fields: &mut Fields,
) -> anyhow::Result<Engine> {
    let queries = read_queries(alloc, &decoded(alloc, fields.next())?)?;
    Ok(Engine::new(rt, alloc, queries)?)
}

/// How an engine is to take the tuples of a request.
#[derive(Clone, Copy)]
pub enum Way {
    /// One after another. What each changes is put.
    Each,
    /// All at once, as a front. What each changes is put.
    Front,
    /// One after another. Then the engine shows its answers, is rebuilt over all but the last, and
    /// takes the last once more. What that changes is put.
    Rebuilt,
}

/// What tuples change of the answers of some queries, for an engine that takes them in this way,
/// and then its position and the answers with their ends.
pub fn answer_engine<R: RandomSource + Threads + Sync>(
    rt: &R,
    alloc: Global,
    out: &mut Output,
    way: Way,
    fields: Fields,
) -> anyhow::Result<()> {
    let mut fields = fields;
    let workers = workers_of(&mut fields)?;
    let mut engine = engine_of(rt, alloc, &mut fields)?;
    let gate = &EagerGate;
    let context = Context { rt, alloc, gate };
    take(&context, out, &mut engine, fields.rest(), workers, way)
}

/// Has an engine take tuples in this way, and puts what they change, and its end.
fn take<R: Threads + Sync>(
    context: &Context<'_, R, EagerGate>,
    out: &mut Output,
    engine: &mut Engine,
    tuples: &[u8],
    workers: Workers,
    way: Way,
) -> anyhow::Result<()> {
    let entries = entries_of(context.alloc, tuples)?;
    match way {
        Way::Each => feed_each(context, out, engine, &entries, workers)?,
        Way::Front => feed_front(context, out, engine, &entries, workers)?,
        Way::Rebuilt => feed_again(context, out, engine, &entries, workers)?,
    }
    put_end(context, out, engine, entries.len() as u64, workers)
}

/// Feeds entries to an engine one after another, and puts what each changes.
fn feed_each<R: Threads + Sync>(
    context: &Context<'_, R, EagerGate>,
    out: &mut Output,
    engine: &mut Engine,
    entries: &[Entry],
    workers: Workers,
) -> anyhow::Result<()> {
    for entry in entries {
        put_events(out, &events_of(context, engine, entry, workers)?)?;
    }
    Ok(())
}

/// Feeds an entry to an engine. The events of the entry.
fn events_of<R: Threads + Sync>(
    context: &Context<'_, R, EagerGate>,
    engine: &mut Engine,
    entry: &Entry,
    workers: Workers,
) -> anyhow::Result<Vec<Event>> {
    ensure!(engine.position() < 1 << 30, "too many tuples");
    match engine.feed(context, entry, workers) {
        Ok(events) => Ok(events),
        Err(_) => Err(anyhow!("out of memory")),
    }
}

/// Feeds entries to an engine as one front, and puts what each changes.
fn feed_front<R: Threads + Sync>(
    context: &Context<'_, R, EagerGate>,
    out: &mut Output,
    engine: &mut Engine,
    entries: &[Entry],
    workers: Workers,
) -> anyhow::Result<()> {
    for own in &events_of_all(context, engine, entries, workers)? {
        put_events(out, own)?;
    }
    Ok(())
}

/// Feeds entries to an engine as one front. The events of each entry.
fn events_of_all<R: Threads + Sync>(
    context: &Context<'_, R, EagerGate>,
    engine: &mut Engine,
    entries: &[Entry],
    workers: Workers,
) -> anyhow::Result<Vec<Vec<Event>>> {
    ensure!(engine.position() < 1 << 20, "too many tuples before");
    ensure!(entries.len() < 1 << 20, "too many tuples");
    match engine.feed_front(context, entries, workers) {
        Ok(events) => Ok(events),
        Err(_) => Err(anyhow!("out of memory")),
    }
}

/// Feeds entries to an engine one after another, rebuilds it over all but the last, feeds the last
/// to it once more, and puts what that changes.
fn feed_again<R: Threads + Sync>(
    context: &Context<'_, R, EagerGate>,
    out: &mut Output,
    engine: &mut Engine,
    entries: &[Entry],
    workers: Workers,
) -> anyhow::Result<()> {
    feed_each(
        context,
        &mut Output::new(context.alloc),
        engine,
        entries,
        workers,
    )?;
    let (before, last) = entries.split_at(entries.len().saturating_sub(1));
    rebuild(context, engine, before, workers)?;
    feed_each(context, out, engine, last, workers)
}

/// Shows the answers of an engine, and rebuilds it over these entries.
fn rebuild<R: Threads + Sync>(
    context: &Context<'_, R, EagerGate>,
    engine: &mut Engine,
    entries: &[Entry],
    workers: Workers,
) -> anyhow::Result<()> {
    ensure!(entries.len() < 1 << 30, "too many tuples");
    let position = engine.position();
    let _shown = shown(context, engine, position, workers)?;
    engine.rebuild(context, entries, workers)?;
    Ok(())
}

/// What an engine shows at this position of the history, with rows that its workers brought up to
/// date.
fn shown<R: Threads + Sync>(
    context: &Context<'_, R, EagerGate>,
    engine: &mut Engine,
    position: u64,
    workers: Workers,
) -> anyhow::Result<Arc<View>> {
    ensure!(!engine.is_spent(), "spent");
    engine.refresh(context, workers);
    Ok(engine.view(position)?)
}

/// Puts how many entries an engine was fed, and the answers at this position with their ends.
fn put_end<R: Threads + Sync>(
    context: &Context<'_, R, EagerGate>,
    out: &mut Output,
    engine: &mut Engine,
    position: u64,
    workers: Workers,
) -> anyhow::Result<()> {
    out.put(" ")?;
    out.put_shown(&engine.position())?;
    let view = shown(context, engine, position, workers)?;
    put_view(context.alloc, out, &view)
}

/// Puts the answers of each query, `|` before each.
fn put_view(alloc: Global, out: &mut Output, view: &View) -> anyhow::Result<()> {
    for query in 0..MAX_QUERIES {
        if (query as usize) < view.queries() {
            out.put("|")?;
            put_rows(alloc, out, view.rows(query))?;
        }
    }
    Ok(())
}

/// Puts each pair of some rows with its end: the pairs are what changes from no rows.
fn put_rows(alloc: Global, out: &mut Output, rows: &Rows) -> anyhow::Result<()> {
    for event in &changes(alloc, 0, &Rows::new(alloc), rows)? {
        out.put(" ")?;
        put_pair(out, &event.pair)?;
        if let Some(until) = rows.until(&event.pair.from, &event.pair.to) {
            out.put("@")?;
            out.put_shown(&until)?;
        }
    }
    Ok(())
}
