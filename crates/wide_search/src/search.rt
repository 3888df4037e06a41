//! The searches from the states of a vertex.

ghost use Rattle.std.specs.Prelude.{◌≡◌, ℕ, ◌<◌, [], length, OnOk, Some, true};
ghost use Rattle.edge_store.specs.Edges.{value_of};
ghost use Rattle.wide_search.specs.Ready.{AreFirst, AreSearched, IsSearched, IsSound};
ghost use Rattle.wide_search.specs.Spans.{HasRaised};
ghost use Rattle.place_table.specs.Table.{TableValue, tree_in};
ghost use Rattle.wide_search.specs.Counts.{CountsPlaces, CountsWide};
ghost use Rattle.wide_search.specs.Lifts.{ReportsLifts};
ghost use Rattle.wide_search.specs.Shares.{HasNoOthers};
ghost use Rattle.wide_search.specs.Widths.{is_pending};

use crate::batch::Batch;
use crate::graph::Graph;
use crate::room::Room;
use crate::settling::settle;
use delta_tree::NodeId;
use edge_store::Steps;
use place_table::{Gain, PlaceTable};
use rpq_base::Memory;
use std::sync::ledger::Ledger;

/// Makes the list that of the first gains from a state: each root of the share that stands there
/// gains up to its value there and that of the edge, if this is more than the edge had before. With
/// the state 0 the root of the vertex alone stands there.
fn find_first(
    gains: &mut Vec<Gain>,
    table: &PlaceTable,
    graph: &Graph<'_>,
    state: u32,
    value: u64,
) -> Result<(), Memory>
    requires count { 0 < graph.now.share.count }
    requires others { HasNoOthers graph.now.share table.now }
    ensures { OnOk result (AreFirst graph.now table.now state value gains.new.items) }
{
    table.has_trees(); // called for its clauses
    gains.clear();
    if state > 0 {
        let from = NodeId {
            vertex: graph.edge.from,
            state,
        };
        return table.gains_at(from, graph.before, value, gains);
    }
    if !graph.share.owns(graph.edge.from) {
        return Ok(());
    }
    gains.push(Gain {
        root: graph.edge.from,
        cap: value,
        before: graph.before,
    })?;
    Ok(())
}

/// Takes the edge that was raised on at one more state.
pub(crate) fn search_from<L: Ledger>(
    room: &mut Room,
    table: &mut PlaceTable,
    graph: &Graph<'_>,
    state: u32,
    value: u64,
    steps: &mut Steps<L>,
) -> Result<(), Memory>
    requires count { 0 < graph.now.share.count }
    requires raised { HasRaised graph.now }
    requires value { value_of graph.now.store.now graph.now.edge ≡ Some value }
    requires pending { is_pending graph.now.pending.now state ≡ true }
    requires sound { IsSound graph.now table.old }
    ensures searched { OnOk result (IsSearched graph.now state value table.old table.new) }
    ensures lifts { OnOk result ((first : TableValue) →
        ReportsLifts first table.old room.old.lifts.items →
        ReportsLifts first table.new room.new.lifts.items) }
    ensures counted { OnOk result (CountsPlaces graph.now.store.now (tree_in table.old)
        (tree_in table.new) steps.old steps.new) }
{
    if state >= graph.dfa.states() {
        return Ok(());
    }
    let Some(next) = graph.dfa.step(state, graph.edge.label) else {
        return Ok(());
    };
    find_first(&mut room.gains, table, graph, state, value)?;
    let high = room.gains.len();
    if high == 0 {
        return Ok(());
    }
    room.batches.clear();
    table.begin_search();
    room.batches.push(Batch {
        width: value,
        edge: graph.edge,
        before: state,
        state: next,
        low: 0,
        high,
    })?;
    settle(room, table, graph, steps)
}

/// Takes the edge that was raised on at one state after another.
pub(crate) fn search_states<L: Ledger>(
    room: &mut Room,
    table: &mut PlaceTable,
    graph: &Graph<'_>,
    value: u64,
    steps: &mut Steps<L>,
) -> Result<(), Memory>
    requires count { 0 < graph.now.share.count }
    requires raised { HasRaised graph.now }
    requires value { value_of graph.now.store.now graph.now.edge ≡ Some value }
    requires sound { IsSound graph.now table.old }
    ensures searched { OnOk result (AreSearched graph.now [] table.old table.new) }
    ensures lifts { OnOk result ((first : TableValue) →
        ReportsLifts first table.old room.old.lifts.items →
        ReportsLifts first table.new room.new.lifts.items) }
    ensures counted { OnOk result (CountsWide graph.now.store.now (tree_in table.old)
        (tree_in table.new) (length graph.now.pending.now) steps.old steps.new) }
{
    for place in 0..graph.pending.len() {
        let rest = Graph {
            store: graph.store,
            dfa: graph.dfa,
            edge: graph.edge,
            before: graph.before,
            pending: &graph.pending[place..],
            share: graph.share,
        };
        search_from(room, table, &rest, graph.pending[place], value, steps)?;
    }
    Ok(())
}
