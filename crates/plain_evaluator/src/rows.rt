//! The answers of a query with their ends from scratch, from deadline to deadline.

ghost use Rattle.std.specs.Prelude.{◌≡◌, map, IfOk, OnOk};
ghost use Rattle.std.specs.BTreeMap.{IsOrdered};
ghost use Rattle.rpq_base.specs.Order.{pair_cmp};
ghost use Rattle.rpq_model.specs.Ends.{AreEndedAnswers};
ghost use Rattle.rpq_model.specs.Query.{path_query};
ghost use Rattle.plain_evaluator.specs.Lasting.{GivesEnd, row_of};

use crate::deadlines::deadlines_at;
use crate::plain::answers_at;
use rpq_base::{Entry, Memory, Pair};
use rpq_model::{Ended, QueryDef, clock};
use std::alloc::Global;
use std::collections::BTreeMap;

/// Gives each of the pairs this end, in the place of one that it has.
fn put_ends(ends: &mut BTreeMap<Pair, u64>, pairs: Vec<Pair>, until: u64) -> Result<(), Memory>
    ensures { OnOk result (GivesEnd pairs.items until ends.old ends.new) }
{
    for pair in pairs {
        ends.insert(pair, until)?;
    }
    Ok(())
}

/// The pairs with their ends, in order.
fn in_rows(alloc: Global, ends: BTreeMap<Pair, u64>) -> Result<Vec<Ended>, Memory>
    ensures sorted { IsOrdered pair_cmp ends }
    ensures rows { IfOk result (λ rows. rows.items ≡ map row_of ends.entries) }
{
    let rows = ends.into_iter().map(|(pair, until)| Ended { pair, until });
    Ok(rows.collect(alloc)?)
}

/// The answers of the query over the history of these entries, from scratch, each with its end: the
/// least time such that it is no answer once a tick at it has followed. Sorted by source and then
/// target, each once. An end may be above the greatest time of a tuple. The only error is
/// [`Memory`].
///
/// For each distinct deadline of a live entry the history is gone through and the query evaluated
/// once, as by [`plain_answers`](crate::plain_answers): from one deadline to the next the answers
/// stay as they are.
pub fn plain_rows(alloc: Global, query: &QueryDef, entries: &[Entry]) -> Result<Vec<Ended>, Memory>
    ensures { IfOk result (λ rows.
        AreEndedAnswers (path_query query.now) entries.now rows.items) }
{
    // Opens the window, whose invariant says that its slide is at least 1.
    let _slide = query.window.slide;
    let mut now = clock(entries);
    let deadlines = deadlines_at(alloc, query.window, now, entries)?;
    let mut ends = BTreeMap::new(alloc);
    for deadline in &deadlines {
        // These are answers at each clock below this deadline.
        let pairs = answers_at(alloc, query, now, entries)?;
        put_ends(&mut ends, pairs, *deadline)?;
        now = *deadline;
    }
    in_rows(alloc, ends)
}
