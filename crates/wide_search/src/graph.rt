//! What a search goes along.

ghost use Rattle.std.specs.Prelude.{◌≡◌, Some};
ghost use Rattle.edge_store.specs.Edges.{value_of};
ghost use Rattle.wide_search.specs.Widths.{is_pending, widths};

use crate::share::Share;
use dfa_table::Dfa;
use edge_store::{EdgeId, EdgeStore};

/// The edges of a store with the steps of an automaton, for the roots of a share. The edge that was
/// raised counts with its value before, or not at all, at the states that are still to be searched.
#[derive(Clone, Copy)]
pub(crate) struct Graph<'a> {
    pub(crate) store: &'a EdgeStore,
    pub(crate) dfa: &'a Dfa,
    pub(crate) edge: EdgeId,
    pub(crate) before: Option<u64>,
    pub(crate) pending: &'a [u32],
    pub(crate) share: Share,
}

/// Whether the state is one of those that are still to be searched.
fn is_pending(pending: &[u32], state: u32) -> bool
    ensures { result ≡ is_pending pending.now state }
{
    for each in pending {
        if *each == state {
            return true;
        }
    }
    false
}

/// The width of an edge of this value at a state.
pub(crate) fn width_of(graph: &Graph<'_>, state: u32, edge: EdgeId, value: u64) -> Option<u64>
    requires { value_of graph.now.store.now edge ≡ Some value }
    ensures { result ≡ widths (value_of graph.now.store.now) graph.now.edge graph.now.before
        graph.now.pending.now state edge }
{
    if edge == graph.edge && is_pending(graph.pending, state) {
        return graph.before;
    }
    Some(value)
}
