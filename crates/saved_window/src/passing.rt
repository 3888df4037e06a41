//! The first entries of a history, which every window has passed.

ghost use Rattle.std.specs.Prelude.{◌≡◌, ◌≤◌, length, drop, nat_le, IfOk};
ghost use Rattle.std.specs.List.{position};
ghost use Rattle.rpq_model.specs.Window.{clock as clock_of};
ghost use Rattle.saved_window.specs.Saved.{kept_tuples, saved};

use crate::reach::{first_time, furthest};
use rpq_base::{Entry, Memory};
use rpq_model::{QueryDef, clock, live_entries};
use std::alloc::Global;

/// How many first entries have times that the window of no query reaches any more. Of the entries
/// behind them the same is saved as of all. It looks at the times alone, and takes no memory.
pub fn passed(queries: &[QueryDef], entries: &[Entry]) -> usize
    ensures there { result ≤ length entries.now }
    ensures saves { saved queries.now (drop result entries.now) ≡ saved queries.now entries.now }
{
    let now = clock(entries);
    match furthest(queries, now) {
        Some(window) => first_from(first_time(window, now), entries).unwrap_or(0),
        None => 0,
    }
}

/// The place of the first entry that has at least this time, if one has.
fn first_from(time: u64, entries: &[Entry]) -> Option<usize>
    ensures { result ≡ position (λ entry. nat_le time entry.tuple.time) entries.now }
{
    entries.iter().position(|entry| time <= entry.tuple.time)
}

/// How many entries some query still sees. The only error is [`Memory`].
pub fn seen_count(alloc: Global, queries: &[QueryDef], entries: &[Entry]) -> Result<usize, Memory>
    ensures { IfOk result (λ count.
        count ≡ length (kept_tuples queries.now (clock_of entries.now) entries.now)) }
{
    let now = clock(entries);
    match furthest(queries, now) {
        Some(window) => Ok(live_entries(alloc, window, now, entries)?.len()),
        None => Ok(0),
    }
}
