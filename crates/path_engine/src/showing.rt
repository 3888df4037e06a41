//! The answers of each query with their ends, as rows.

ghost use Rattle.std.specs.Prelude.{◌≡◌, ℕ, List, length, IfOk};
ghost use Rattle.std.specs.List.{AllZip};
ghost use Rattle.rpq_base.specs.declared.data.Entry.{Entry as EntryTaken};
ghost use Rattle.rpq_model.specs.Query.{path_query};
ghost use Rattle.answer_view.specs.View.{AreRowsOf};
ghost use Rattle.query_index.specs.Answering.{HasHistory};
ghost use Rattle.query_index.specs.Index.{IsIndexFor};
ghost use Rattle.path_engine.specs.Showing.{StandStill};

use answer_rows::Rows;
use name_table::Names;
use query_file::Compiled;
use query_index::QueryIndex;
use rpq_base::Memory;
use std::alloc::Global;

/// The answers of each query.
pub(crate) fn rows_of_each(
    alloc: Global,
    queries: &[Compiled],
    indexes: &mut [QueryIndex],
    names: &Names,
    named: u32,
) -> Result<Vec<Rows>, Memory>
    requires named { named ≡ length names.now }
    requires as_many { length indexes.old ≡ length queries.now }
    requires indexes { AllZip (λ query index. HasHistory query names.now index)
        queries.now indexes.old }
    ensures kept { StandStill queries.now names.now indexes.old indexes.new }
    ensures rows { IfOk result (λ rows. (history : List EntryTaken) (fed : ℕ) →
        AllZip (λ query index. IsIndexFor query history fed names.now index)
        queries.now indexes.old →
        AllZip (λ query own. AreRowsOf (path_query query.def) history own)
        queries.now rows.items) }
{
    let mut rows = Vec::with_capacity(alloc, queries.len())?;
    for (place, index) in indexes.iter_mut().enumerate() {
        let query = &queries[place];
        let own = index.rows(alloc, query, names, named)?;
        rows.push(own)?;
    }
    Ok(rows)
}
