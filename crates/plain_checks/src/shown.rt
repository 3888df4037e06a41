//! Whether what is shown is a path that shows an answer.

ghost use Rattle.std.specs.Prelude.{◌≡◌, ◌↔◌, map, IfOk, IfSome, IfNone, IsTrue};
ghost use Rattle.std.specs.List.{list_any};
ghost use Rattle.rpq_model.specs.Ends.{IsUntil};
ghost use Rattle.rpq_model.specs.Live.{placed_entry};
ghost use Rattle.rpq_model.specs.Query.{path_query};
ghost use Rattle.rpq_model.specs.Window.{Placed};
ghost use Rattle.rpq_model.specs.WindowLaws.{IsTupleDeadline};
ghost use Rattle.plain_checks.specs.PathTests.{IsPathAt, IsAt, HasNoPathAt, is_row_of};
ghost use Rattle.path_witness.specs.Shows.{IsLeastDeadline, Shows};

use crate::path_test::fits;
use path_witness::ShownPath;
use plain_evaluator::{deadline_of, plain_rows};
use rpq_base::{Entry, Memory, Pair, Tuple};
use rpq_model::{Ended, Live, QueryDef, Window, clock, inserted_edges, live_entries, own_end};
use std::alloc::Global;

/// The live entry with this position.
fn entry_at<'a>(live: &[Live<'a>], position: u64) -> Option<Live<'a>>
    ensures some { IfSome result (λ found.
        IsAt (map placed_entry live.now) position (placed_entry found)) }
    ensures none { IfNone result ((each : Placed) →
        IsAt (map placed_entry live.now) position each → ⊥) }
{
    let place = position.checked_sub(1)?;
    for index in 0..live.len() {
        let each = &live[index];
        if each.place as u64 == place {
            let Live { place, entry } = each;
            return Some(Live {
                place: *place,
                entry,
            });
        }
    }
    None
}

/// The live entries with these positions, in their order, or none where one of them is missing.
fn path_at<'a>(
    alloc: Global,
    live: &[Live<'a>],
    positions: &[u64],
) -> Result<Option<Vec<Live<'a>>>, Memory>
    ensures some { IfOk result (λ found. IfSome found (λ path.
        IsPathAt (map placed_entry live.now) positions.now (map placed_entry path.items))) }
    ensures none { IfOk result (λ found. IfNone found
        (HasNoPathAt (map placed_entry live.now) positions.now)) }
{
    let mut path = Vec::new(alloc);
    for index in 0..positions.len() {
        match entry_at(live, positions[index]) {
            Some(each) => path.push(each)?,
            None => return Ok(None),
        }
    }
    Ok(Some(path))
}

/// The deadline in the window of the insert that this tuple is.
fn tuple_deadline(window: Window, tuple: &Tuple) -> u64
    ensures { IsTupleDeadline window tuple.now result }
{
    deadline_of(window, tuple.time, own_end(&tuple.act))
}

/// Whether this is the least of the deadlines of the entries.
fn is_least<'a>(window: Window, path: &[Live<'a>], until: u64) -> bool
    ensures { IsTrue result ↔ IsLeastDeadline window (map placed_entry path.now) until }
{
    let mut met = false;
    for each in path {
        let entry = each.entry;
        let deadline = tuple_deadline(window, &entry.tuple);
        if deadline < until {
            return false;
        }
        met |= deadline == until;
    }
    met
}

/// Whether one of the rows is that of the pair with this end.
fn has_row(rows: &[Ended], pair: &Pair, until: u64) -> bool
    ensures { result ≡ list_any (is_row_of pair.now until) rows.now }
{
    rows.iter()
        .any(|row| row.pair == *pair && row.until == until)
}

/// Whether the pair is an answer until this time.
fn ends_at(
    alloc: Global,
    query: &QueryDef,
    entries: &[Entry],
    pair: &Pair,
    until: u64,
) -> Result<bool, Memory>
    ensures { IfOk result (λ yes.
        IsTrue yes ↔ IsUntil (path_query query.now) entries.now pair.now until) }
{
    let rows = plain_rows(alloc, query, entries)?;
    Ok(has_row(&rows, pair, until))
}

/// Whether what is shown is a path for the pair over the history of these entries, as `Shows` of
/// `specs/` has it: its entries are in the query's window and form a path that the query takes, and
/// its least deadline is the end of the answer. The only error is [`Memory`].
///
/// This is a check by the definitions alone, from scratch: it looks each position up among all live
/// entries, compares each two vertices of a simple path, and costs what [`plain_rows`] costs.
pub fn is_shown(
    alloc: Global,
    query: &QueryDef,
    entries: &[Entry],
    pair: &Pair,
    shown: &ShownPath,
) -> Result<bool, Memory>
    ensures { IfOk result (λ yes. IsTrue yes ↔ Shows query.now entries.now pair.now shown.now) }
{
    let live = live_entries(alloc, query.window, clock(entries), entries)?;
    let Some(path) = path_at(alloc, &live, &shown.positions)? else {
        return Ok(false);
    };
    let edges = inserted_edges(alloc, &path)?;
    let is_path = fits(alloc, query, pair, &edges)?;
    let is_least = is_least(query.window, &path, shown.until);
    let ends = ends_at(alloc, query, entries, pair, shown.until)?;
    Ok(is_path & is_least & ends)
}
