//! Tuples of a request, and the pairs and the events of an answer.

use crate::fields::{decoded, parts};
use crate::output::Output;
use rpq_base::{Entry, Event, Pair};
use std::alloc::Global;
use tuple_text::read_tuple;

/// The entries of stream 1 that tuples are. A line that is faulty is an error.
pub fn entries_of(alloc: Global, tuples: &[u8]) -> anyhow::Result<Vec<Entry>> {
    let mut entries = Vec::new(alloc);
    for line in &parts(alloc, tuples, b';')? {
        if let Some(tuple) = read_tuple(alloc, &decoded(alloc, line)?)? {
            entries.push(Entry { stream: 1, tuple })?;
        }
    }
    Ok(entries)
}

/// Puts a pair as `SOURCE>TARGET`.
pub fn put_pair(out: &mut Output, pair: &Pair) -> anyhow::Result<()> {
    out.put_bytes(pair.from.as_bytes())?;
    out.put(">")?;
    out.put_bytes(pair.to.as_bytes())
}

/// Puts the events of one tuple: for each a space, its sign, its query's number, `:` and its pair;
/// and `;` behind them.
pub fn put_events(out: &mut Output, events: &[Event]) -> anyhow::Result<()> {
    for event in events {
        out.put(if event.added { " +" } else { " -" })?;
        out.put_shown(&event.query)?;
        out.put(":")?;
        put_pair(out, &event.pair)?;
    }
    out.put(";")
}
