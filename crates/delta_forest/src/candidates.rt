//! The roots whose trees a change may touch.

ghost use Rattle.std.specs.Prelude.{◌≡◌, ◌+◌, ◌^◌, ◌<◌, ℕ, [], Contains, OnOk};
ghost use Rattle.edge_store.specs.Edges.{Edges};
ghost use Rattle.dfa_table.specs.DfaValue.{step_of};
ghost use Rattle.delta_forest.specs.Changes.{RaisesSmall};
ghost use Rattle.delta_forest.specs.Keeping.{IsKept};
ghost use Rattle.delta_forest.specs.Candidates.{Adds, AddsSource, AreCandidates, AreInOrder, AreRaised, AreRemoved, AreTaken, IsHeldBy, IsHeldBySome, StartsBy};

use crate::hanging::add_hanging;
use crate::index::Index;
use crate::steps::has_step;
use delta_tree::NodeId;
use dfa_table::Dfa;
use edge_store::EdgeId;
use rpq_base::Memory;
use source_index::{Dues, Holders};
use source_table::SourceTable;
use source_tree::{Change, SourceTree};
use std::alloc::Global;

/// Puts the roots in order, each once.
fn put_in_order(roots: &mut Vec<u32>)
    ensures { AreInOrder (Contains roots.old.items) roots.new.items }
{
    // fewer than two are in order
    if roots.len() > 1 {
        roots.sort_unstable();
        roots.dedup();
    }
}

/// A new source for the root, where it has none.
fn add_source(alloc: Global, sources: &mut SourceTable, root: u32) -> Result<(), Memory>
    requires { root + 1 < 2 ^ 32 }
    ensures { OnOk result (AddsSource sources.old sources.new root) }
{
    if sources.get(root).is_some() {
        return Ok(());
    }
    let source = SourceTree::new(alloc, root)?;
    sources.add(source)?;
    Ok(())
}

/// Adds the roots that are held where the edge leaves, with this state, if there is a step by it.
fn add_held_at(
    holders: &Holders,
    dfa: &Dfa,
    edge: EdgeId,
    state: u32,
    roots: &mut Vec<u32>,
) -> Result<(), Memory>
    ensures { OnOk result (Adds roots.old.items roots.new.items
        (IsHeldBy holders.now (step_of dfa.now) edge state)) }
{
    if has_step(dfa, state, edge.label) {
        let place = NodeId {
            vertex: edge.from,
            state,
        };
        roots.extend_from_slice(holders.at(place))?;
    }
    Ok(())
}

/// Adds the roots that are held where the edge leaves, with a state with a step by it. This goes
/// through the states with which a node stands there.
fn add_held(holders: &Holders, dfa: &Dfa, edge: EdgeId, roots: &mut Vec<u32>) -> Result<(), Memory>
    ensures { OnOk result (Adds roots.old.items roots.new.items
        (IsHeldBySome holders.now (step_of dfa.now) edge)) }
{
    for state in holders.states_at(edge.from) {
        add_held_at(holders, dfa, edge, *state, roots)?;
    }
    Ok(())
}

/// Adds the vertex that the edge leaves, with a new source where it has none, if the automaton has
/// a step by the edge from its start.
fn add_start(
    alloc: Global,
    sources: &mut SourceTable,
    dfa: &Dfa,
    edge: EdgeId,
    roots: &mut Vec<u32>,
) -> Result<(), Memory>
    requires { edge.from + 1 < 2 ^ 32 }
    ensures { OnOk result (StartsBy sources.old sources.new (step_of dfa.now) edge
        roots.old.items roots.new.items) }
{
    if has_step(dfa, 0, edge.label) {
        add_source(alloc, sources, edge.from)?;
        roots.push(edge.from)?;
        return Ok(());
    }
    Ok(())
}

/// Adds those that the raise of an edge may touch.
fn add_raised(
    alloc: Global,
    sources: &mut SourceTable,
    holders: &Holders,
    dfa: &Dfa,
    edge: EdgeId,
    roots: &mut Vec<u32>,
) -> Result<(), Memory>
    requires none { roots.old.items ≡ [] }
    requires small { edge.from + 1 < 2 ^ 32 }
    ensures { OnOk result (AreRaised sources.old sources.new holders.now (step_of dfa.now) edge
        roots.new.items) }
{
    add_start(alloc, sources, dfa, edge, roots)?;
    add_held(holders, dfa, edge, roots)?;
    put_in_order(roots);
    Ok(())
}

/// Adds those that its removal may touch.
fn add_removed(
    sources: &SourceTable,
    holders: &Holders,
    dfa: &Dfa,
    edge: EdgeId,
    roots: &mut Vec<u32>,
) -> Result<(), Memory>
    requires { roots.old.items ≡ [] }
    ensures { OnOk result
        (AreRemoved sources.now holders.now (step_of dfa.now) edge roots.new.items) }
{
    add_hanging(sources, holders, dfa, edge, roots)?;
    put_in_order(roots);
    Ok(())
}

/// Adds those whose numbers are at most the clock, which they lose.
fn add_expired(dues: &mut Dues, now: u64, roots: &mut Vec<u32>) -> Result<(), Memory>
    ensures { OnOk result (AreTaken dues.old dues.new now roots.new.items) }
{
    while let Some(root) = dues.take(now) {
        roots.push(root)?;
    }
    put_in_order(roots);
    Ok(())
}

/// Makes the list that of the roots whose trees the change may touch, in order, each once, in the
/// room that it has. A vertex that the change may give nodes and that has no source gets one.
pub(crate) fn find_candidates(
    alloc: Global,
    index: &mut Index,
    dfa: &Dfa,
    change: Change,
    roots: &mut Vec<u32>,
) -> Result<(), Memory>
    requires { RaisesSmall change }
    ensures { (store : Edges) (calls : ℕ) → IsKept dfa.now store calls index.old →
        OnOk result (AreCandidates change (step_of dfa.now) index.old index.new roots.new.items) }
{
    roots.clear();
    match change {
        Change::Raise { edge, .. } => {
            add_raised(alloc, &mut index.sources, &index.holders, dfa, edge, roots)
        }
        Change::Remove(edge) => add_removed(&index.sources, &index.holders, dfa, edge, roots),
        Change::Expire(now) => add_expired(&mut index.dues, now, roots),
    }
}
