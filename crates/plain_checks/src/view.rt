//! Views from scratch.

ghost use Rattle.std.specs.Prelude.{◌≤◌, ◌^◌, IfOk, length};
ghost use Rattle.rpq_model.specs.Query.{path_query};
ghost use Rattle.answer_view.specs.View.{AreRowsOf, IsViewOf};

use answer_rows::Rows;
use answer_view::View;
use plain_evaluator::plain_rows;
use rpq_base::{Entry, Memory};
use rpq_model::{QueryDef, clock};
use std::alloc::Global;
use std::sync::Arc;

/// The rows of the query's answers over the history of these entries.
fn rows_of(alloc: Global, query: &QueryDef, entries: &[Entry]) -> Result<Rows, Memory>
    ensures { IfOk result (λ rows. AreRowsOf (path_query query.now) entries.now rows) }
{
    let answers = plain_rows(alloc, query, entries)?;
    let mut rows = Rows::new(alloc);
    for each in &answers {
        rows.put(&each.pair.from, &each.pair.to, each.until)?;
    }
    // Its contract says that the rows are in order.
    let _count = rows.count();
    Ok(rows)
}

/// The view of the queries over the history of these entries, from scratch. The only error is
/// [`Memory`].
///
/// For each query it takes what [`plain_rows`] takes.
pub fn plain_view(
    alloc: Global,
    queries: &[QueryDef],
    entries: &[Entry],
) -> Result<Arc<View>, Memory>
    requires some { 1 ≤ length queries.now }
    requires few { length queries.now ≤ 64 }
    requires short { length entries.now ≤ 2 ^ 30 }
    ensures { IfOk result (λ view. IsViewOf queries.now entries.now view.value) }
{
    let mut rows = Vec::with_capacity(alloc, queries.len())?;
    for query in queries {
        rows.push(rows_of(alloc, query, entries)?)?;
    }
    View::new(alloc, entries.len() as u64, clock(entries), rows)
}
