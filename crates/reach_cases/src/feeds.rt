//! Engines that are fed entries and their inverses.

ghost use Rattle.std.specs.Prelude.{[]};
ghost use Rattle.path_engine.specs.Engine.{StandsFor};

use anyhow::{anyhow, ensure};
use case_lines::{Fields, Output, decoded, entries_of, put_events};
use engine_feed::feed_entries;
use path_engine::Engine;
use query_file::read_two_way_queries;
use rpq_base::{Entry, Workers};
use run_context::{Context, OpenGate};
use std::alloc::Global;
use std::random::RandomSource;
use std::thread::Threads;

/// The most tuples of a request.
const MAX_TUPLES: usize = 1_000;

/// What each tuple changes of the answers of some queries that may take edges backwards.
pub fn answer_both<R: RandomSource + Threads + Sync>(
    rt: &R,
    alloc: Global,
    out: &mut Output,
    mut fields: Fields,
) -> anyhow::Result<()> {
    let queries = read_two_way_queries(alloc, &decoded(alloc, fields.next())?)?;
    let mut engine = Engine::new(rt, alloc, queries)?;
    let entries = entries_of(alloc, fields.rest())?;
    put_feed(rt, alloc, out, &mut engine, &entries)
}

/// Feeds the entries to a new engine as one front, both ways, and puts what each changes.
fn put_feed<R: Threads + Sync>(
    rt: &R,
    alloc: Global,
    out: &mut Output,
    engine: &mut Engine,
    entries: &[Entry],
) -> anyhow::Result<()>
    requires { StandsFor engine.old [] }
{
    ensure!(engine.position() < 1 << 20, "too many tuples before");
    ensure!(entries.len() <= MAX_TUPLES, "too many tuples");
    let context = Context {
        rt,
        alloc,
        gate: &OpenGate,
    };
    let Some(workers) = Workers::new(2) else {
        return Err(anyhow!("no workers"));
    };
    let fed = feed_entries(engine, &context, true, entries, workers)?;
    for events in &fed.into_events(alloc, engine.names())? {
        put_events(out, &events.to_events(alloc)?)?;
    }
    Ok(())
}
