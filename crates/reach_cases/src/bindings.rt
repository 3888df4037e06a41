//! Bindings of joins over one query, entry by entry.

ghost use Rattle.std.specs.Prelude.{◌≡◌, [], ◌∷◌, length, OnOk};
ghost use Rattle.join_bindings.specs.State.{MayCome, ArePut};

use crate::queries::queries_of;
use anyhow::anyhow;
use case_lines::{Fields, Output, decoded, entries_of};
use join_bindings::{Joins, events_lead_on, join_text};
use join_file::{JoinDef, read_joins};
use plain_evaluator::{changes, plain_answers};
use rpq_base::{Entry, Event};
use rpq_model::QueryDef;
use std::alloc::Global;
use std::random::RandomSource;
use std::sync::Arc;

/// What each tuple changes of the bindings of some joins over one query.
pub fn answer_bindings<R: RandomSource>(
    rt: &R,
    alloc: Global,
    out: &mut Output,
    mut fields: Fields,
) -> anyhow::Result<()> {
    let queries = queries_of(alloc, fields.next())?;
    if queries.len() != 1 {
        return Err(anyhow!("not one query"));
    }
    let text = decoded(alloc, fields.next())?;
    let defs = Arc::new(alloc, read_joins(alloc, &text, &queries)?)?;
    let joins = Joins::new(rt, alloc, Arc::try_clone(&defs)?, 1)?;
    let entries = entries_of(alloc, fields.rest())?;
    apply_each(alloc, out, &queries[0], joins, &defs, &entries)
}

/// Applies what each entry changes of the query's answers to new joins, and puts the changes of
/// their bindings.
fn apply_each(
    alloc: Global,
    out: &mut Output,
    query: &QueryDef,
    mut joins: Joins,
    defs: &[JoinDef],
    entries: &[Entry],
) -> anyhow::Result<()>
    requires defs { joins.joins ≡ defs.now }
    requires blank { joins.pairs ≡ [] ∷ [] }
{
    events_lead_on(); // called for its clause
    let mut old = plain_answers(alloc, query, &entries[..0])?;
    if !old.is_empty() {
        return Err(anyhow!("an answer over no entry"));
    }
    for count in 0..entries.len() {
        let new = plain_answers(alloc, query, &entries[..count + 1])?;
        let events = changes(alloc, 0, &old, &new)?;
        put_changes(alloc, out, &mut joins, defs, &events)?;
        old = new;
    }
    Ok(())
}

/// Applies events, and puts the changes of bindings.
fn put_changes(
    alloc: Global,
    out: &mut Output,
    joins: &mut Joins,
    defs: &[JoinDef],
    events: &[Event],
) -> anyhow::Result<()>
    requires come { MayCome joins.old.pairs events.now }
    requires defs { joins.old.joins ≡ defs.now }
    ensures put { OnOk result (ArePut joins.old.pairs joins.new.pairs events.now) }
    ensures many { length joins.new.pairs ≡ length joins.old.pairs }
    ensures joins { joins.new.joins ≡ joins.old.joins }
{
    let Ok(found) = joins.apply(events) else {
        return Err(anyhow!("out of memory"));
    };
    out.put_bytes(&join_text(alloc, &found, defs)?)?;
    out.put(";")
}
