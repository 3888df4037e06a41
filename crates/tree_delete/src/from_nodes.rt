//! The best entry of a node that was cut, looked for from the nodes of its tree.

ghost use Rattle.std.specs.Prelude.{◌≡◌, ℕ, ◌+◌, ◌<◌, length, IfSome};
ghost use Rattle.edge_store.specs.declared.edge.EdgeId.{EdgeId};
ghost use Rattle.edge_store.specs.Edges.{value_of};
ghost use Rattle.dfa_table.specs.DfaValue.{step_of};
ghost use Rattle.delta_tree.specs.Nodes.{GivesNodes, root_id};
ghost use Rattle.tree_insert.specs.Best.{IsAtLeast};
ghost use Rattle.tree_delete.specs.Entries.{CanEnter, IsEntry, value_in};

use crate::entries::entry_from;
use crate::entry::{TreeEntry, better};
use delta_tree::{NodeId, PathTree};
use dfa_table::Dfa;
use edge_store::{EdgeId, EdgeStore, Steps};
use std::sync::ledger::Ledger;

/// The entry by the edge from the state, where the edge is there and its step leads to the node.
fn entry_along<T: PathTree>(
    tree: &T,
    store: &EdgeStore,
    dfa: &Dfa,
    root: NodeId,
    id: NodeId,
    edge: EdgeId,
    before: u32,
) -> Option<TreeEntry>
    requires root { root ≡ root_id (T.tree tree.now) }
    requires state { before < length dfa.now.rows }
    requires ends { edge.to ≡ id.vertex }
    ensures entry { IfSome result
        (IsEntry (value_of store.now) (step_of dfa.now) (T.tree tree.now) id) }
    ensures most { (number : ℕ) →
        CanEnter (value_of store.now) (step_of dfa.now) (T.tree tree.now) id edge before number →
        IsAtLeast number (value_in result) }
{
    if dfa.step(before, edge.label) != Some(id.state) {
        return None;
    }
    let value = store.value(edge)?;
    entry_from(tree, dfa, root, id, edge, value, before)
}

/// The best entry from the place, by one look-up for each label that leads from it to the node.
fn best_from<T: PathTree>(
    tree: &T,
    store: &EdgeStore,
    dfa: &Dfa,
    root: NodeId,
    id: NodeId,
    from: NodeId,
) -> Option<TreeEntry>
    requires { root ≡ root_id (T.tree tree.now) }
    ensures entry { IfSome result
        (IsEntry (value_of store.now) (step_of dfa.now) (T.tree tree.now) id) }
    ensures most { (edge : EdgeId) (number : ℕ) → edge.from ≡ from.vertex →
        CanEnter (value_of store.now) (step_of dfa.now) (T.tree tree.now) id edge from.state
        number → IsAtLeast number (value_in result) }
{
    if from.state >= dfa.states() {
        return None;
    }
    let mut best = None;
    for label in 0..dfa.labels().len() as u32 {
        let edge = EdgeId {
            from: from.vertex,
            label,
            to: id.vertex,
        };
        let entry = entry_along(tree, store, dfa, root, id, edge, from.state);
        best = better(best, entry);
    }
    best
}

/// The best entry of a node from the root and the nodes of the tree, of which there are so many,
/// with a step for each of them.
pub(crate) fn best_from_nodes<T: PathTree, L: Ledger>(
    tree: &T,
    nodes: usize,
    store: &EdgeStore,
    dfa: &Dfa,
    root: NodeId,
    id: NodeId,
    steps: &mut Steps<L>,
) -> Option<TreeEntry>
    requires root { root ≡ root_id (T.tree tree.now) }
    requires count { nodes ≡ length (T.tree tree.now).nodes }
    requires walk { T.can_be_walked tree.now × GivesNodes (T.tree tree.now) }
    ensures entry { IfSome result
        (IsEntry (value_of store.now) (step_of dfa.now) (T.tree tree.now) id) }
    ensures most { (edge : EdgeId) (before number : ℕ) →
        CanEnter (value_of store.now) (step_of dfa.now) (T.tree tree.now) id edge before number →
        IsAtLeast number (value_in result) }
    ensures counted { steps.new ≡ steps.old + length (T.tree tree.now).nodes + 1 }
{
    steps.tick();
    let mut best = best_from(tree, store, dfa, root, id, root);
    for k in 0..nodes {
        steps.tick();
        let entry = best_from(tree, store, dfa, root, id, tree.node_at(k));
        best = better(best, entry);
    }
    best
}
