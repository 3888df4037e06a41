//! The best entries of the nodes that were cut.

ghost use Rattle.std.specs.Prelude.{◌≡◌, ℕ, ◌+◌, ◌<◌, ◌≤◌, ◌++◌, length, All, IfOk, IfSome};
ghost use Rattle.std.specs.Prelude.{IsSome, OnOk, Some};
ghost use Rattle.edge_store.specs.declared.edge.EdgeId.{EdgeId};
ghost use Rattle.edge_store.specs.Edges.{ins_of, value_of};
ghost use Rattle.dfa_table.specs.DfaValue.{step_of};
ghost use Rattle.delta_tree.specs.Nodes.{GivesNodes, node_id, root_id};
ghost use Rattle.delta_tree.specs.Changes.{Carries, shift_ids};
ghost use Rattle.tree_insert.specs.Best.{IsAtLeast};
ghost use Rattle.tree_insert.specs.Trees.{IsValid};
ghost use Rattle.tree_delete.specs.Entries.{CanEnter, HasEntries, IsEntry, IsEntryBy};
ghost use Rattle.tree_delete.specs.Entries.{count_ins, steps_in, value_in};

use crate::entry::{TreeEntry, better};
use crate::from_nodes::best_from_nodes;
use delta_tree::{NodeId, PathTree, Shift, Try};
use dfa_table::Dfa;
use edge_store::{EdgeId, EdgeStore, Steps};
use rpq_base::Memory;
use std::alloc::Global;
use std::sync::ledger::Ledger;
use tree_insert::greatest_from;

/// The entry by an edge of this value from the state, where there is one.
pub(crate) fn entry_from<T: PathTree>(
    tree: &T,
    dfa: &Dfa,
    root: NodeId,
    id: NodeId,
    edge: EdgeId,
    value: u64,
    before: u32,
) -> Option<TreeEntry>
    requires root { root ≡ root_id (T.tree tree.now) }
    requires state { before < length dfa.now.rows }
    ensures entry { IfSome result (IsEntryBy (step_of dfa.now) (T.tree tree.now) id edge value) }
    ensures most { (number : ℕ) → number ≤ value →
        Carries (T.tree tree.now) (node_id edge.from before) number →
        step_of dfa.now before edge.label ≡ Some id.state → IsAtLeast number (value_in result) }
{
    if dfa.step(before, edge.label) != Some(id.state) {
        return None;
    }
    let from = NodeId {
        vertex: edge.from,
        state: before,
    };
    let most = greatest_from(tree, root, from)?;
    Some(TreeEntry {
        step: Try { from, edge, to: id },
        value: most.min(value),
    })
}

/// The best entry by an edge of this value, from the states whose step leads to the place.
fn entry_by<T: PathTree>(
    tree: &T,
    dfa: &Dfa,
    root: NodeId,
    id: NodeId,
    edge: EdgeId,
    value: u64,
) -> Option<TreeEntry>
    requires { root ≡ root_id (T.tree tree.now) }
    ensures entry { IfSome result (IsEntryBy (step_of dfa.now) (T.tree tree.now) id edge value) }
    ensures most { (before number : ℕ) → number ≤ value →
        Carries (T.tree tree.now) (node_id edge.from before) number →
        step_of dfa.now before edge.label ≡ Some id.state → IsAtLeast number (value_in result) }
{
    let mut best = None;
    let states = dfa.before(id.state, edge.label);
    for before in states {
        best = better(best, entry_from(tree, dfa, root, id, edge, value, *before));
    }
    best
}

/// The best entry of a node by the edges that end at its vertex, with a step for each edge.
fn best_by_edges<T: PathTree, L: Ledger>(
    tree: &T,
    store: &EdgeStore,
    dfa: &Dfa,
    root: NodeId,
    id: NodeId,
    steps: &mut Steps<L>,
) -> Option<TreeEntry>
    requires { root ≡ root_id (T.tree tree.now) }
    ensures entry { IfSome result
        (IsEntry (value_of store.now) (step_of dfa.now) (T.tree tree.now) id) }
    ensures most { (edge : EdgeId) (before number : ℕ) →
        CanEnter (value_of store.now) (step_of dfa.now) (T.tree tree.now) id edge before number →
        IsAtLeast number (value_in result) }
    ensures counted { steps.new ≡ steps.old + length (ins_of store.now id.vertex) }
{
    let mut best = None;
    let ins = store.ins(id.vertex);
    for k in 0..ins.len() {
        let each = ins.at(k, steps);
        let edge = EdgeId {
            from: each.from,
            label: each.label,
            to: id.vertex,
        };
        best = better(best, entry_by(tree, dfa, root, id, edge, each.value));
    }
    best
}

/// The number of nodes of the tree, where a walk over them, with a look-up for each label, ends
/// sooner than one over this many edges.
fn few_nodes<T: PathTree>(tree: &T, dfa: &Dfa, edges: usize) -> Option<usize>
    ensures few { IfSome result (λ count. count < edges) }
    ensures count { IfSome result (λ count. count ≡ length (T.tree tree.now).nodes) }
    ensures walk { IsSome result → T.can_be_walked tree.now × GivesNodes (T.tree tree.now) }
{
    let nodes = tree.walk_len()?;
    if nodes < edges && nodes.saturating_mul(dfa.labels().len()) < edges {
        Some(nodes)
    } else {
        None
    }
}

/// The best entry of a node, from the nodes of the tree or by the edges that end at its vertex,
/// whichever are fewer. It takes at most a step for each of these edges.
fn best_entry<T: PathTree, L: Ledger>(
    tree: &T,
    store: &EdgeStore,
    dfa: &Dfa,
    root: NodeId,
    id: NodeId,
    steps: &mut Steps<L>,
) -> Option<TreeEntry>
    requires { root ≡ root_id (T.tree tree.now) }
    ensures entry { IfSome result
        (IsEntry (value_of store.now) (step_of dfa.now) (T.tree tree.now) id) }
    ensures most { (edge : EdgeId) (before number : ℕ) →
        CanEnter (value_of store.now) (step_of dfa.now) (T.tree tree.now) id edge before number →
        IsAtLeast number (value_in result) }
    ensures counted { steps.new ≤ steps.old + length (ins_of store.now id.vertex) }
{
    match few_nodes(tree, dfa, store.ins(id.vertex).len()) {
        Some(nodes) => best_from_nodes(tree, nodes, store, dfa, root, id, steps),
        None => best_by_edges(tree, store, dfa, root, id, steps),
    }
}

/// Adds the step of the entry, where there is one.
fn add(tries: &mut Vec<Try>, entry: Option<TreeEntry>) -> Result<(), Memory>
    ensures { OnOk result (tries.new.items ≡ tries.old.items ++ steps_in entry) }
{
    if let Some(entry) = entry {
        tries.push(entry.step)?;
    }
    Ok(())
}

/// The best entries of the nodes that were cut, for each that has one.
pub(crate) fn best_entries<T: PathTree, L: Ledger>(
    alloc: Global,
    tree: &T,
    store: &EdgeStore,
    dfa: &Dfa,
    root: NodeId,
    cut: &[Shift],
    steps: &mut Steps<L>,
) -> Result<Vec<Try>, Memory>
    requires { root ≡ root_id (T.tree tree.now) }
    ensures valid { IfOk result (λ tries.
        All (IsValid (value_of store.now) (step_of dfa.now) (T.tree tree.now)) tries.items) }
    ensures best { IfOk result (λ tries.
        HasEntries (value_of store.now) (step_of dfa.now) (T.tree tree.now) (shift_ids cut.now)
        tries.items) }
    ensures counted { steps.new ≤ steps.old + count_ins store.now (shift_ids cut.now) }
{
    let mut tries = Vec::with_capacity(alloc, cut.len())?;
    for shift in cut {
        add(
            &mut tries,
            best_entry(tree, store, dfa, root, shift.id, steps),
        )?;
    }
    Ok(tries)
}
