//! The labels of all queries, with the numbers that they have in the queries' automata.

ghost use Rattle.std.specs.Prelude.{◌≡◌, All, IfNone, IfOk, IfSome, None, OnOk, Some};
ghost use Rattle.path_engine.specs.Labels.{AddsRows, IsStrange, IsTableOf, row_at, row_for};

use query_file::Compiled;
use rpq_base::{Label, Memory, TryClone};
use std::alloc::Global;
use std::collections::BTreeMap;

/// A row for each label that the automaton of some query has: for each query the number of the
/// label in its automaton, or none.
pub(crate) type LabelTable = BTreeMap<Label, Vec<Option<u32>>>;

/// The table of these queries. It takes 8 bytes for each label and query.
pub(crate) fn table_of(alloc: Global, queries: &[Compiled]) -> Result<LabelTable, Memory>
    ensures { IfOk result (IsTableOf queries.now) }
{
    let mut table = BTreeMap::new(alloc);
    for query in queries {
        add_labels(alloc, &mut table, queries, query.dfa.labels())?;
    }
    Ok(table)
}

/// Adds the rows of these labels, each of which some query's automaton has.
fn add_labels(
    alloc: Global,
    table: &mut LabelTable,
    queries: &[Compiled],
    labels: &[Label],
) -> Result<(), Memory>
    requires { All (λ label. IsStrange queries.now label → ⊥) labels.now }
    ensures { OnOk result (AddsRows queries.now labels.now table.old table.new) }
{
    for label in labels {
        let key = label.copy()?;
        let row = row_of(alloc, queries, label)?;
        table.insert(key, row)?;
    }
    Ok(())
}

/// The row of a label.
fn row_of(alloc: Global, queries: &[Compiled], label: &Label) -> Result<Vec<Option<u32>>, Memory>
    ensures { IfOk result (λ row. row.items ≡ row_for queries.now label.now) }
{
    let mut row = Vec::with_capacity(alloc, queries.len())?;
    for query in queries {
        row.push(query.dfa.label_number(label))?;
    }
    Ok(row)
}

/// The row that the table has of a label, by one search.
pub(crate) fn numbers_of<'a>(table: &'a LabelTable, label: &Label) -> Option<&'a [Option<u32>]>
    ensures some { IfSome result (λ row. row_at table.now label.now ≡ Some row.now) }
    ensures none { IfNone result (row_at table.now label.now ≡ None) }
{
    match table.get(label) {
        Some(row) => Some(row.as_slice()),
        None => None,
    }
}
