//! The nodes below an edge, found from one another along the edges that leave them.

ghost use Rattle.std.specs.Prelude.{◌≡◌, ◌+◌, ◌<◌, ◌++◌, length, IfOk, IfSome, OnOk};
ghost use Rattle.edge_store.specs.Edges.{GivesOuts, outs_of, value_of};
ghost use Rattle.dfa_table.specs.DfaValue.{step_of};
ghost use Rattle.delta_tree.specs.declared.node.NodeId.{NodeId as NodeIdMade};
ghost use Rattle.delta_tree.specs.Nodes.{IsTree};
ghost use Rattle.delta_tree.specs.Changes.{AreBelow};
ghost use Rattle.tree_delete.specs.Below.{AreWithin, child_of, children, nodes_in, onwards, starts};
ghost use Rattle.tree_delete.specs.Removal.{CountsFound, WasOptimalWith};

use delta_tree::{NodeId, PathTree};
use dfa_table::Dfa;
use edge_store::{EdgeId, EdgeStore, Steps};
use rpq_base::Memory;
use std::alloc::Global;
use std::sync::ledger::Ledger;

/// The node that hangs below `from` by the edge, where there is one.
fn child<T: PathTree>(tree: &T, dfa: &Dfa, from: NodeId, edge: EdgeId) -> Option<NodeId>
    requires { from.state < length dfa.now.rows }
    ensures child { result ≡ child_of (step_of dfa.now) (T.tree tree.now) from edge }
    ensures within { IfSome result (λ (id : NodeIdMade). id.state < length dfa.now.rows) }
{
    let id = NodeId {
        vertex: edge.to,
        state: dfa.step(from.state, edge.label)?,
    };
    if tree.hangs_below(id, from, edge) {
        Some(id)
    } else {
        None
    }
}

/// Adds the node that hangs below `from` by the edge, where there is one.
fn add_child<T: PathTree>(
    tree: &T,
    dfa: &Dfa,
    from: NodeId,
    edge: EdgeId,
    ids: &mut Vec<NodeId>,
) -> Result<(), Memory>
    requires { from.state < length dfa.now.rows }
    ensures added { OnOk result (ids.new.items ≡ ids.old.items
        ++ nodes_in (child_of (step_of dfa.now) (T.tree tree.now) from edge)) }
    ensures within { OnOk result (AreWithin dfa.now ids.old.items → AreWithin dfa.now ids.new.items) }
{
    if let Some(id) = child(tree, dfa, from, edge) {
        ids.push(id)?;
    }
    Ok(())
}

/// The nodes that hang by the edge. There is one at most for each state of the automaton.
fn hanging<T: PathTree>(
    alloc: Global,
    tree: &T,
    dfa: &Dfa,
    edge: EdgeId,
) -> Result<Vec<NodeId>, Memory>
    ensures found { IfOk result (λ ids. ids.items
        ≡ children (step_of dfa.now) (T.tree tree.now) (starts edge (length dfa.now.rows))) }
    ensures within { IfOk result (λ ids. AreWithin dfa.now ids.items) }
{
    let mut ids = Vec::new(alloc);
    for state in 0..dfa.states() {
        let from = NodeId {
            vertex: edge.from,
            state,
        };
        add_child(tree, dfa, from, edge, &mut ids)?;
    }
    Ok(ids)
}

/// Adds the nodes that hang below `from`, with a step for each edge that leaves its vertex.
fn add_children<T: PathTree, L: Ledger>(
    tree: &T,
    store: &EdgeStore,
    dfa: &Dfa,
    from: NodeId,
    ids: &mut Vec<NodeId>,
    steps: &mut Steps<L>,
) -> Result<(), Memory>
    requires { from.state < length dfa.now.rows }
    ensures added { OnOk result (ids.new.items ≡ ids.old.items
        ++ children (step_of dfa.now) (T.tree tree.now) (onwards store.now from)) }
    ensures within { OnOk result (AreWithin dfa.now ids.old.items → AreWithin dfa.now ids.new.items) }
    ensures counted { OnOk result (steps.new ≡ steps.old + length (outs_of store.now from.vertex)) }
    ensures walk { GivesOuts store.now from.vertex }
{
    let outs = store.outs(from.vertex);
    for k in 0..outs.len() {
        let each = outs.at(k, steps);
        let edge = EdgeId {
            from: from.vertex,
            label: each.label,
            to: each.to,
        };
        add_child(tree, dfa, from, edge, ids)?;
    }
    Ok(())
}

/// The nodes on whose path the edge stands, each once. Each is found from its parent, so this costs
/// a step for each of them, one for each edge that leaves it, and a look-up for each state.
pub(crate) fn nodes_below<T: PathTree, L: Ledger>(
    alloc: Global,
    tree: &T,
    store: &EdgeStore,
    dfa: &Dfa,
    edge: EdgeId,
    steps: &mut Steps<L>,
) -> Result<Vec<NodeId>, Memory>
    requires tree { IsTree (T.tree tree.now) }
    requires before { WasOptimalWith (value_of store.now) (step_of dfa.now) (T.tree tree.now) edge }
    ensures below { IfOk result (λ ids. AreBelow (T.tree tree.now) edge ids.items) }
    ensures counted { IfOk result (λ ids. CountsFound store.now ids.items steps.old steps.new) }
{
    let mut ids = hanging(alloc, tree, dfa, edge)?;
    let mut place = 0;
    while place < ids.len() {
        steps.tick();
        let from = ids[place];
        add_children(tree, store, dfa, from, &mut ids, steps)?;
        place += 1;
    }
    Ok(ids)
}
