//! The call after the removal of an edge.

ghost use Rattle.std.specs.Prelude.{◌≡◌, map, IfOk, OnErr, OnOk, None};
ghost use Rattle.edge_store.specs.Edges.{value_of};
ghost use Rattle.dfa_table.specs.DfaValue.{step_of};
ghost use Rattle.delta_tree.specs.declared.node.NodeId.{NodeId};
ghost use Rattle.delta_tree.specs.Nodes.{IsTree, node_of};
ghost use Rattle.delta_tree.specs.Changes.{AreBelow, AreShifts, Cuts, IsSameBeside, shift_ids};
ghost use Rattle.tree_insert.specs.Trees.{HasOwnWays, IsLater, IsOptimal};
ghost use Rattle.tree_delete.specs.Removal.{CountsFound, Repairs, ReportsCut};
ghost use Rattle.tree_delete.specs.Removal.{WasOptimalWith, with_after};

use crate::below::nodes_below;
use crate::entries::best_entries;
use delta_tree::{NodeId, PathTree, Shift};
use dfa_table::Dfa;
use edge_store::{EdgeId, EdgeStore, Steps};
use rpq_base::Memory;
use std::alloc::Global;
use std::sync::ledger::Ledger;
use tree_insert::Search;

/// Cuts the nodes on whose path the edge stands, with a step for each of them and for each edge that
/// leaves it. The only error is [`Memory`], after which the tree is as before.
fn cut_found<T: PathTree, L: Ledger>(
    alloc: Global,
    tree: &mut T,
    store: &EdgeStore,
    dfa: &Dfa,
    edge: EdgeId,
    steps: &mut Steps<L>,
) -> Result<Vec<Shift>, Memory>
    requires tree { IsTree (T.tree tree.old) }
    requires before { WasOptimalWith (value_of store.now) (step_of dfa.now) (T.tree tree.old) edge }
    ensures below { IfOk result
        (λ shifts. AreBelow (T.tree tree.old) edge (shift_ids shifts.items)) }
    ensures shifts { IfOk result
        (λ shifts. AreShifts (T.tree tree.old) (T.tree tree.new) shifts.items) }
    ensures cut { OnOk result (Cuts (T.tree tree.old) (T.tree tree.new) edge) }
    ensures beside { IsSameBeside (T.tree tree.old) (T.tree tree.new)
        × (T.beside tree.new ≡ T.beside tree.old) }
    ensures counted { IfOk result (λ shifts.
        CountsFound store.now (shift_ids shifts.items) steps.old steps.new) }
    ensures unchanged { OnErr result (T.tree tree.new ≡ T.tree tree.old) }
{
    let ids = nodes_below(alloc, tree, store, dfa, edge, steps)?;
    tree.cut_nodes(edge, &ids)
}

/// Cuts the nodes on whose path the edge stands. Where memory runs out all nodes go, so that none
/// stays on a path by this edge.
fn cut<T: PathTree, L: Ledger>(
    alloc: Global,
    tree: &mut T,
    store: &EdgeStore,
    dfa: &Dfa,
    edge: EdgeId,
    steps: &mut Steps<L>,
) -> Result<Vec<Shift>, Memory>
    requires tree { IsTree (T.tree tree.old) }
    requires before { WasOptimalWith (value_of store.now) (step_of dfa.now) (T.tree tree.old) edge }
    ensures below { IfOk result
        (λ shifts. AreBelow (T.tree tree.old) edge (shift_ids shifts.items)) }
    ensures shifts { IfOk result
        (λ shifts. AreShifts (T.tree tree.old) (T.tree tree.new) shifts.items) }
    ensures cut { OnOk result (Cuts (T.tree tree.old) (T.tree tree.new) edge) }
    ensures beside { IsSameBeside (T.tree tree.old) (T.tree tree.new)
        × (T.beside tree.new ≡ T.beside tree.old) }
    ensures counted { IfOk result (λ shifts.
        CountsFound store.now (shift_ids shifts.items) steps.old steps.new) }
    ensures empty { OnErr result ((id : NodeId) → node_of (T.tree tree.new) id ≡ None) }
{
    match cut_found(alloc, tree, store, dfa, edge, steps) {
        Ok(shifts) => Ok(shifts),
        Err(memory) => {
            tree.cut_all();
            Err(memory)
        }
    }
}

/// Gives each place the value that it has in the tree now.
fn tell_values<T: PathTree>(tree: &T, shifts: &mut Vec<Shift>)
    ensures { shifts.new.items ≡ map (with_after (T.tree tree.now)) shifts.old.items }
{
    for shift in shifts.iter_mut() {
        shift.after = tree.value_of(shift.id.vertex, shift.id.state);
    }
}

/// Makes a tree optimal that was so before the edge left the store, in the room of a search.
///
/// The nodes on whose path the edge stood are found from one another, along the edges that leave
/// them, and cut. For each of them the best way from a node that stayed is sought among the edges
/// that end at its vertex; from there a search puts back those that other paths reach. Answers the
/// places of the nodes that were cut, with the values before and after, also of those that came
/// back with the value that they had. The only error is [`Memory`], after which the paths of the
/// tree are paths of the store, but nodes may be missing.
pub fn tree_remove_with<T: PathTree, L: Ledger>(
    search: &mut Search,
    alloc: Global,
    tree: &mut T,
    store: &EdgeStore,
    dfa: &Dfa,
    edge: EdgeId,
    steps: &mut Steps<L>,
) -> Result<Vec<Shift>, Memory>
    requires before { WasOptimalWith (value_of store.now) (step_of dfa.now) (T.tree tree.old) edge }
    ensures optimal { OnOk result
        (IsOptimal (value_of store.now) (step_of dfa.now) (T.tree tree.new)) }
    ensures paths { HasOwnWays (value_of store.now) (step_of dfa.now) (T.tree tree.new) }
    ensures later { IsLater (T.tree tree.old) (T.tree tree.new) }
    ensures beside { T.beside tree.new ≡ T.beside tree.old }
    ensures repairs { OnOk result
        (Repairs store.now (T.tree tree.old) (T.tree tree.new) edge steps.old steps.new) }
    ensures cut { IfOk result
        (λ shifts. ReportsCut (T.tree tree.old) (T.tree tree.new) edge shifts.items) }
{
    let root = NodeId {
        vertex: tree.root(),
        state: 0,
    };
    let mut shifts = cut(alloc, tree, store, dfa, edge, steps)?;
    let tries = best_entries(alloc, tree, store, dfa, root, &shifts, steps)?;
    search.relax(tree, store, dfa, &tries, steps)?;
    tell_values(tree, &mut shifts);
    Ok(shifts)
}

/// Makes a tree optimal that was so before the edge left the store, as [`tree_remove_with`] does,
/// for a caller that keeps no room of a search and asks for no places.
pub fn tree_remove<T: PathTree, L: Ledger>(
    alloc: Global,
    tree: &mut T,
    store: &EdgeStore,
    dfa: &Dfa,
    edge: EdgeId,
    steps: &mut Steps<L>,
) -> Result<(), Memory>
    requires before { WasOptimalWith (value_of store.now) (step_of dfa.now) (T.tree tree.old) edge }
    ensures optimal { OnOk result
        (IsOptimal (value_of store.now) (step_of dfa.now) (T.tree tree.new)) }
    ensures paths { HasOwnWays (value_of store.now) (step_of dfa.now) (T.tree tree.new) }
    ensures later { IsLater (T.tree tree.old) (T.tree tree.new) }
    ensures beside { T.beside tree.new ≡ T.beside tree.old }
    ensures repairs { OnOk result
        (Repairs store.now (T.tree tree.old) (T.tree tree.new) edge steps.old steps.new) }
{
    let mut search = Search::new(alloc);
    tree_remove_with(&mut search, alloc, tree, store, dfa, edge, steps)?;
    Ok(())
}
