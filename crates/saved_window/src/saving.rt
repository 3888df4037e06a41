//! What is saved of a history.

ghost use Rattle.std.specs.Prelude.{◌≡◌, ◌==◌, ◌≤◌, map, length, All, IfOk, OnOk};
ghost use Rattle.std.specs.List.{list_any};
ghost use Rattle.rpq_base.specs.Plain.{IsPlain, IsPlainTuple};
ghost use Rattle.rpq_base.specs.declared.data.TheConstants.{MAX_TIME};
ghost use Rattle.rpq_model.specs.Live.{placed_entry};
ghost use Rattle.saved_window.specs.Reach.{tuples_of};
ghost use Rattle.saved_window.specs.Saved.{kept_tuples, with_clock, saved};

use crate::reach::furthest;
use rpq_base::{Act, Entry, Memory, TryClone, Tuple};
use rpq_model::{Live, QueryDef, clock, live_entries};
use std::alloc::Global;

/// What a later run needs of a history: the tuples of its entries that are live for at least one of
/// the queries, in order, and then a tick at its clock, where it isn't empty and none of these has
/// that time. The only error is [`Memory`].
///
/// The entries are gone through once, as by [`live_entries`], for the window that reaches back
/// furthest. The tuples are copied.
pub fn saved(alloc: Global, queries: &[QueryDef], entries: &[Entry]) -> Result<Vec<Tuple>, Memory>
    ensures ok { IfOk result (λ tuples. tuples.items ≡ saved queries.now entries.now) }
    ensures few { IfOk result (λ tuples. length tuples.items ≤ length entries.now) }
    ensures plain { All IsPlain entries.now →
        IfOk result (λ tuples. All IsPlainTuple tuples.items) }
{
    if entries.is_empty() {
        return Ok(Vec::new(alloc));
    }
    let now = clock(entries);
    let mut tuples = kept(alloc, queries, now, entries)?;
    add_clock(&mut tuples, now)?;
    Ok(tuples)
}

/// The tuples of the entries that are live at a clock for one of the queries: those that are live
/// for the one whose window reaches back furthest.
fn kept(
    alloc: Global,
    queries: &[QueryDef],
    now: u64,
    entries: &[Entry],
) -> Result<Vec<Tuple>, Memory>
    ensures { IfOk result (λ tuples. tuples.items ≡ kept_tuples queries.now now entries.now) }
{
    match furthest(queries, now) {
        Some(window) => {
            let live = live_entries(alloc, window, now, entries)?;
            tuples_of(alloc, &live)
        }
        None => Ok(Vec::new(alloc)),
    }
}

/// Copies of the tuples of live entries, in their order.
fn tuples_of(alloc: Global, live: &[Live<'_>]) -> Result<Vec<Tuple>, Memory>
    ensures { IfOk result (λ tuples. tuples.items ≡ tuples_of (map placed_entry live.now)) }
{
    let mut tuples = Vec::new(alloc);
    for each in live {
        tuples.push(each.entry.tuple.copy()?)?;
    }
    Ok(tuples)
}

/// Adds a tick at the clock behind the tuples, where none of them has that time.
fn add_clock(tuples: &mut Vec<Tuple>, now: u64) -> Result<(), Memory>
    requires { now ≤ MAX_TIME }
    ensures { OnOk result (tuples.new.items ≡ with_clock now tuples.old.items) }
{
    if !has_time(tuples, now) {
        tuples.push(Tuple {
            time: now,
            act: Act::Tick,
        })?;
    }
    Ok(())
}

/// Whether a tuple has this time.
fn has_time(tuples: &[Tuple], now: u64) -> bool
    ensures { result ≡ list_any (λ tuple. tuple.time == now) tuples.now }
{
    tuples.iter().any(|tuple| tuple.time == now)
}
