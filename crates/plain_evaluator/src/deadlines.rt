//! Deadlines of inserts, and those of the live entries.

ghost use Rattle.std.specs.Prelude.{◌≤◌, IfOk};
ghost use Rattle.rpq_base.specs.declared.data.TheConstants.{MAX_TIME};
ghost use Rattle.rpq_model.specs.WindowLaws.{IsDeadline, IsDeadlineOf};
ghost use Rattle.plain_evaluator.specs.Lasting.{AreDeadlines};

use rpq_base::{Entry, MAX_TIME, Memory};
use rpq_model::{Window, live_entries, own_end};
use std::alloc::Global;
use std::collections::BTreeSet;

/// The deadline of an edge of this time: the least multiple of the slide that is at least the time
/// and the size of the window together. The edge is in the window at the clocks below it.
fn deadline(window: Window, time: u64) -> u64
    requires { time ≤ MAX_TIME }
    ensures { IsDeadline window time result }
{
    (time + window.size).next_multiple_of(window.slide)
}

/// The deadline of an insert of this time, with this end of its own if it has one: that of its
/// time, or its end where that is less. The edge is seen at the clocks below it.
pub fn deadline_of(window: Window, time: u64, until: Option<u64>) -> u64
    requires { time ≤ MAX_TIME }
    ensures { IsDeadlineOf window time until result }
{
    let deadline = deadline(window, time);
    match until {
        Some(end) => deadline.min(end),
        None => deadline,
    }
}

/// The deadlines of the entries that are live at a clock, rising, each once.
pub(crate) fn deadlines_at(
    alloc: Global,
    window: Window,
    now: u64,
    entries: &[Entry],
) -> Result<Vec<u64>, Memory>
    ensures { IfOk result (λ deadlines. AreDeadlines window now entries.now deadlines.items) }
{
    let mut found = BTreeSet::new(alloc);
    let live = live_entries(alloc, window, now, entries)?;
    for each in &live {
        let entry = each.entry;
        found.insert(deadline_of(window, entry.tuple.time, own_end(&entry.tuple.act)))?;
    }
    Ok(found.into_iter().collect(alloc)?)
}
