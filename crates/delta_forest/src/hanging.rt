//! The roots whose trees hang by an edge that is to be removed.
//!
//! A node that hangs by the edge is held where the edge ends, and its parent is the root or held
//! where the edge leaves. So both ends have the same roots, and those of the one end are asked that
//! has fewer.

ghost use Rattle.std.specs.Prelude.{◌≡◌, ◌↔◌, IsTrue, OnOk};
ghost use Rattle.dfa_table.specs.DfaValue.{step_of};
ghost use Rattle.delta_forest.specs.Candidates.{Adds, AddsHanging, IsHungAt, IsHungBy, IsHungOver, IsHungRoot, IsRemovedAt, IsRemovedFrom};

use crate::steps::{has_step, step_from};
use delta_tree::NodeId;
use dfa_table::Dfa;
use edge_store::EdgeId;
use rpq_base::Memory;
use source_index::Holders;
use source_table::SourceTable;

/// Whether the tree of the root hangs there by the edge.
fn hangs(sources: &SourceTable, root: u32, id: NodeId, edge: EdgeId) -> bool
    ensures { IsTrue result ↔ IsHungAt sources.now edge id root }
{
    match sources.get(root) {
        Some(source) => source.hangs_by(id.vertex, id.state, edge),
        None => false,
    }
}

/// Adds the root, where its tree hangs there by the edge.
fn add_if_hung(
    sources: &SourceTable,
    edge: EdgeId,
    id: NodeId,
    root: u32,
    roots: &mut Vec<u32>,
) -> Result<(), Memory>
    ensures { OnOk result (Adds roots.old.items roots.new.items
        (λ each. (each ≡ root) × IsHungAt sources.now edge id each)) }
{
    if hangs(sources, root, id, edge) {
        roots.push(root)?;
        return Ok(());
    }
    Ok(())
}

/// Adds those of the roots held at the place whose trees hang at the other one by the edge.
fn add_hung(
    sources: &SourceTable,
    holders: &Holders,
    edge: EdgeId,
    place: NodeId,
    id: NodeId,
    roots: &mut Vec<u32>,
) -> Result<(), Memory>
    ensures { OnOk result (Adds roots.old.items roots.new.items
        (IsHungBy sources.now holders.now edge place id)) }
{
    for root in holders.at(place) {
        add_if_hung(sources, edge, id, *root, roots)?;
    }
    Ok(())
}

/// Adds the vertex that the edge leaves, where its tree hangs by the edge with the state that
/// follows the start.
fn add_hung_root(
    sources: &SourceTable,
    dfa: &Dfa,
    edge: EdgeId,
    roots: &mut Vec<u32>,
) -> Result<(), Memory>
    ensures { OnOk result (Adds roots.old.items roots.new.items
        (IsHungRoot sources.now (step_of dfa.now) edge)) }
{
    match step_from(dfa, 0, edge.label) {
        Some(next) => {
            let id = NodeId {
                vertex: edge.to,
                state: next,
            };
            add_if_hung(sources, edge, id, edge.from, roots)
        }
        None => Ok(()),
    }
}

/// Adds the roots that are held where the edge leaves, with this state, where their trees hang by
/// the edge with the state that follows.
fn add_hung_over(
    sources: &SourceTable,
    holders: &Holders,
    dfa: &Dfa,
    edge: EdgeId,
    state: u32,
    roots: &mut Vec<u32>,
) -> Result<(), Memory>
    ensures { OnOk result (Adds roots.old.items roots.new.items
        (IsHungOver sources.now holders.now (step_of dfa.now) edge state)) }
{
    match step_from(dfa, state, edge.label) {
        Some(next) => {
            let place = NodeId {
                vertex: edge.from,
                state,
            };
            let id = NodeId {
                vertex: edge.to,
                state: next,
            };
            add_hung(sources, holders, edge, place, id, roots)
        }
        None => Ok(()),
    }
}

/// How many roots are asked where the edge leaves: its vertex itself, and those that are held there
/// with a state with a step by it.
fn count_where_it_leaves(holders: &Holders, dfa: &Dfa, edge: EdgeId) -> usize {
    let mut count: usize = 1;
    for state in holders.states_at(edge.from) {
        if has_step(dfa, *state, edge.label) {
            let place = NodeId {
                vertex: edge.from,
                state: *state,
            };
            count = count.saturating_add(holders.at(place).len());
        }
    }
    count
}

/// How many are asked where it ends: those that are held there.
fn count_where_it_ends(holders: &Holders, edge: EdgeId) -> usize {
    let mut count: usize = 0;
    for state in holders.states_at(edge.to) {
        let place = NodeId {
            vertex: edge.to,
            state: *state,
        };
        count = count.saturating_add(holders.at(place).len());
    }
    count
}

/// Adds those whose trees hang by the edge, by what is held where it leaves: the vertex that it
/// leaves, and with each state with which a node stands there those that are held there.
fn add_where_it_leaves(
    sources: &SourceTable,
    holders: &Holders,
    dfa: &Dfa,
    edge: EdgeId,
    roots: &mut Vec<u32>,
) -> Result<(), Memory>
    ensures { OnOk result (Adds roots.old.items roots.new.items
        (IsRemovedFrom sources.now holders.now (step_of dfa.now) edge)) }
{
    add_hung_root(sources, dfa, edge, roots)?;
    for state in holders.states_at(edge.from) {
        add_hung_over(sources, holders, dfa, edge, *state, roots)?;
    }
    Ok(())
}

/// Adds those whose trees hang by the edge, by what is held where it ends: with each state with
/// which a node stands there those whose trees hang there by it.
fn add_where_it_ends(
    sources: &SourceTable,
    holders: &Holders,
    edge: EdgeId,
    roots: &mut Vec<u32>,
) -> Result<(), Memory>
    ensures { OnOk result (Adds roots.old.items roots.new.items
        (IsRemovedAt sources.now holders.now edge)) }
{
    for state in holders.states_at(edge.to) {
        let place = NodeId {
            vertex: edge.to,
            state: *state,
        };
        add_hung(sources, holders, edge, place, place, roots)?;
    }
    Ok(())
}

/// Adds those whose trees hang by the edge. This asks each root that is held at one end of it, at
/// the end that has fewer, by one look-up in the tree of the root. To count them first takes a
/// look-up for each state with which a node stands at either end.
pub(crate) fn add_hanging(
    sources: &SourceTable,
    holders: &Holders,
    dfa: &Dfa,
    edge: EdgeId,
    roots: &mut Vec<u32>,
) -> Result<(), Memory>
    ensures { OnOk result (AddsHanging sources.now holders.now (step_of dfa.now) edge
        roots.old.items roots.new.items) }
{
    let leaving = count_where_it_leaves(holders, dfa, edge);
    let ending = count_where_it_ends(holders, edge);
    if leaving < ending {
        return add_where_it_leaves(sources, holders, dfa, edge, roots);
    }
    add_where_it_ends(sources, holders, edge, roots)
}
