//! The search after the raise of an edge.

ghost use Rattle.std.specs.Prelude.{◌≡◌, ◌≢◌, ℕ, ◌<◌, None, OnOk, IsSome};
ghost use Rattle.edge_store.specs.Edges.{value_of};
ghost use Rattle.dfa_table.specs.DfaValue.{step_of};
ghost use Rattle.delta_tree.specs.declared.node.NodeId.{NodeId as NodeIdMade};
ghost use Rattle.delta_tree.specs.Nodes.{node_id};
ghost use Rattle.tree_insert.specs.Trees.{IsRaised};
ghost use Rattle.place_table.specs.Table.{node_at};
ghost use Rattle.wide_search.specs.Counts.{CountsSearches};
ghost use Rattle.wide_search.specs.Lifts.{RaisesTrees, ReportsLifts};
ghost use Rattle.wide_search.specs.Shares.{HasShare};
ghost use Rattle.wide_search.specs.Widths.{lowered};

use crate::graph::Graph;
use crate::lifts::Lift;
use crate::room::Room;
use crate::search::search_states;
use crate::share::Share;
use dfa_table::Dfa;
use edge_store::{EdgeId, EdgeStore, Steps};
use place_table::PlaceTable;
use rpq_base::Memory;
use std::alloc::Global;
use std::marker::Model;
use std::sync::ledger::Ledger;

/// An edge that was raised, with the value that it had before, or that came in, with none.
#[derive(Clone, Copy, Debug, PartialEq, Eq)]
pub struct Raised {
    pub edge: EdgeId,
    pub before: Option<u64>,
}

/// The room of searches in a table. It can be used for one raise after another, so that a search
/// that touches few places takes no memory.
#[derive(Drop)]
pub struct WideSearch {
    states: Vec<u32>,
    room: Room,
}

impl Model for WideSearch {
    ghost use Rattle.wide_search.specs.Lifts.{WideValue};

    ghost Value = { WideValue };

    ghost view = { λ search. record { lifts = search.room.lifts.items } };
}

impl WideSearch {
    /// Room that takes no memory yet.
    pub fn new(alloc: Global) -> WideSearch {
        WideSearch {
            states: Vec::new(alloc),
            room: Room::new(alloc),
        }
    }

    /// What the last raise changed: each root that has a new node or a higher value at a place. The
    /// first lift of a root at a place has the value that was there before the raise.
    pub fn lifts(&self) -> &[Lift]
        ensures { result.now ≡ self.now.lifts }
    {
        &self.room.lifts
    }

    /// Makes the trees of a share of the roots optimal that were so before the edge was raised, or
    /// came in. The table has no others. The only error is [`Memory`].
    pub fn raise<L: Ledger>(
        &mut self,
        table: &mut PlaceTable,
        store: &EdgeStore,
        dfa: &Dfa,
        raised: Raised,
        share: Share,
        steps: &mut Steps<L>,
    ) -> Result<(), Memory>
        requires count { 0 < share.count }
        requires raised { IsRaised (lowered (value_of store.now) raised.edge raised.before)
            (value_of store.now) raised.edge × IsSome (value_of store.now raised.edge) }
        requires trees { HasShare share (lowered (value_of store.now) raised.edge raised.before)
            (step_of dfa.now) table.old }
        ensures trees { OnOk result
            (HasShare share (value_of store.now) (step_of dfa.now) table.new) }
        ensures rises { OnOk result (RaisesTrees table.old table.new) }
        ensures only { OnOk result ((root : ℕ) → root ≢ raised.edge.from →
            ((state : ℕ) → node_at table.old root (node_id raised.edge.from state) ≡ None) →
            (id : NodeIdMade) → node_at table.new root id ≡ node_at table.old root id) }
        ensures lifts { OnOk result (ReportsLifts table.old table.new self.new.lifts) }
        ensures counted { OnOk result (CountsSearches store.now table.old table.new
            raised.edge.from steps.old steps.new) }
    {
        let Some(value) = store.value(raised.edge) else {
            return Ok(());
        };
        table.has_trees(); // called for its clauses
        table.states_at(raised.edge.from, &mut self.states)?;
        self.states.push(0)?; // the root of the vertex stands there with the state 0
        let graph = Graph {
            store,
            dfa,
            edge: raised.edge,
            before: raised.before,
            pending: &self.states,
            share,
        };
        self.room.lifts.clear();
        search_states(&mut self.room, table, &graph, value, steps)?;
        table.has_trees(); // called for its clauses
        Ok(())
    }
}
