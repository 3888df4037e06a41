//! The marks of each edge.

ghost use Rattle.std.specs.Prelude.{◌≡◌, List, None, Some, IfOk, OnOk, OnErr, slice_get};
ghost use Rattle.std.specs.Map.{lookup};
ghost use Rattle.std.specs.Option.{option_map};
ghost use Rattle.rpq_base.specs.Same.{same_edge};
ghost use Rattle.path_witness.specs.declared.mark.Mark.{Mark as MarkMade};
ghost use Rattle.path_witness.specs.Marks.{kept_mark};
ghost use Rattle.path_witness.specs.Taking.{AreRaised, GivesMarks, LeavesOut, lasts};

use crate::edge_key::{KeptEdge, SearchKey};
use crate::mark::{Mark, raised};
use due_queue::room_to_keep;
use indexmap::IndexMap;
use rpq_base::{Edge, KeyedHash, Memory, TryClone, Tuple};
use rpq_model::QueryDef;
use std::alloc::Global;
use std::marker::Model;

/// The marks of an edge, one for each query. Contracts see it as the list of them.
#[derive(Drop)]
pub(crate) struct EdgeMarks {
    marks: Vec<Mark>,
}

impl Model for EdgeMarks {
    ghost use Rattle.std.specs.Prelude.{List};
    ghost use Rattle.path_witness.specs.declared.mark.Mark.{Mark};

    ghost Value = { List Mark };

    ghost view = { λ row. row.marks.items };
}

/// The marks of each edge of which an entry may be live.
pub(crate) type MarkRows = IndexMap<KeptEdge, EdgeMarks, KeyedHash>;

impl EdgeMarks {
    /// The mark for the query with this number.
    fn get(&self, query: usize) -> Option<Mark>
        ensures { result ≡ slice_get self.now query }
    {
        self.marks.get(query).copied()
    }

    /// Whether one of the marks has a deadline above the clock.
    fn lasts(&self, now: u64) -> bool
        ensures { result ≡ lasts now self.now }
    {
        self.marks.iter().any(|mark| now < mark.deadline)
    }

    /// For each query the better of the mark before, where there are any, and that of this position
    /// for the tuple.
    fn raised(
        alloc: Global,
        queries: &[QueryDef],
        position: u64,
        tuple: &Tuple,
        before: Option<&EdgeMarks>,
    ) -> Result<EdgeMarks, Memory>
        ensures { IfOk result (λ row. AreRaised queries.now position tuple.now
            (option_map (λ marks. marks.now) before.entry) row) }
    {
        let mut marks = Vec::new(alloc);
        for number in 0..queries.len() {
            let old = match before {
                Some(row) => row.get(number),
                None => None,
            };
            let query = &queries[number];
            marks.push(raised(query.window, position, tuple, old))?;
        }
        Ok(EdgeMarks { marks })
    }
}

/// The mark that is kept for the edge and the query with this number.
pub(crate) fn kept_mark(rows: &MarkRows, edge: &Edge, query: usize) -> Option<Mark>
    ensures { result ≡ kept_mark rows.now.entries edge.now query }
{
    rows.get(SearchKey { edge })?.get(query)
}

/// Takes an insert of the edge into account, with its position. The only error is [`Memory`], after
/// which the rows are as before.
pub(crate) fn raise(
    alloc: Global,
    rows: &mut MarkRows,
    queries: &[QueryDef],
    edge: &Edge,
    position: u64,
    tuple: &Tuple,
) -> Result<(), Memory>
    ensures raised { OnOk result ((marks : List MarkMade)
        × AreRaised queries.now position tuple.now
        (lookup (same_edge edge.now) rows.old.entries) marks
        × GivesMarks rows.old.entries rows.new.entries edge.now (Some marks)) }
    ensures unchanged { OnErr result (rows.new.entries ≡ rows.old.entries) }
{
    let before = rows.get(SearchKey { edge });
    let row = EdgeMarks::raised(alloc, queries, position, tuple, before)?;
    let key = KeptEdge { edge: edge.copy()? };
    rows.insert(key, row)?;
    Ok(())
}

/// Takes a delete of the edge into account.
pub(crate) fn remove(rows: &mut MarkRows, edge: &Edge)
    ensures { GivesMarks rows.old.entries rows.new.entries edge.now None }
{
    let _ = rows.swap_remove(SearchKey { edge });
}

/// Forgets the edges all of whose marks have deadlines at most the clock.
fn forget_past(rows: &mut MarkRows, now: u64)
    ensures { LeavesOut now rows.old.entries rows.new.entries }
{
    if rows.len() > 0 {
        rows.retain(|_, row| row.lasts(now));
    }
}

/// Gives the memory back that the rows need no more.
fn give_back(rows: &mut MarkRows)
    ensures { rows.new.entries ≡ rows.old.entries }
{
    if let Some(room) = room_to_keep(rows.len(), rows.capacity()) {
        rows.shrink_to(room);
    }
}

/// Forgets the edges all of whose marks have deadlines at most the clock, and gives the memory back
/// that is needed no more.
pub(crate) fn forget(rows: &mut MarkRows, now: u64)
    ensures { LeavesOut now rows.old.entries rows.new.entries }
{
    forget_past(rows, now);
    give_back(rows);
}
