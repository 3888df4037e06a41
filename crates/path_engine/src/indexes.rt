//! The indexes of all queries.

ghost use Rattle.std.specs.Prelude.{[], IfOk};
ghost use Rattle.std.specs.List.{AllZip};
ghost use Rattle.query_index.specs.Index.{IsIndexFor};

use query_file::Compiled;
use query_index::QueryIndex;
use rpq_base::Memory;
use std::alloc::Global;

/// The indexes of the queries over the empty history.
pub(crate) fn indexes_of(alloc: Global, queries: &[Compiled]) -> Result<Vec<QueryIndex>, Memory>
    ensures { IfOk result (λ indexes.
        AllZip (λ query index. IsIndexFor query [] 0 [] index) queries.now indexes.items) }
{
    let mut indexes = Vec::with_capacity(alloc, queries.len())?;
    for query in queries {
        indexes.push(QueryIndex::new(alloc, query)?)?;
    }
    Ok(indexes)
}
