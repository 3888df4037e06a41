//! Tries that are let wait.

ghost use Rattle.std.specs.Prelude.{◌≡◌, ℕ, ◌^◌, ◌-◌, ◌<◌, ◌≤◌, min, length, All, Contains};
ghost use Rattle.std.specs.Prelude.{IfSome, OnOk, Some};
ghost use Rattle.std.specs.Bool.{OnTrue, OnFalse};
ghost use Rattle.edge_store.specs.Edges.{value_of};
ghost use Rattle.dfa_table.specs.DfaValue.{step_of};
ghost use Rattle.delta_tree.specs.declared.node.Try.{Try};
ghost use Rattle.delta_tree.specs.Nodes.{IsTree, Joins, node_id, root_id};
ghost use Rattle.delta_tree.specs.Changes.{Carries};
ghost use Rattle.tree_insert.specs.Best.{IsAtLeast};
ghost use Rattle.tree_insert.specs.Trees.{CoversStates, Gives, IsValid};
ghost use Rattle.tree_insert.specs.Waiting.{Gains, target_of};
ghost use Rattle.tree_insert.specs.UnderWay.{IsBetween, IsBy, IsOfTry, IsOpen, IsOut, IsServed};
ghost use Rattle.tree_insert.specs.UnderWay.{IsServedBy};

use crate::search::Search;
use crate::waiting::{Rise, Waiting};
use delta_tree::{NodeId, PathTree, Try};
use dfa_table::Dfa;
use edge_store::{EdgeId, EdgeStore, Out};
use rpq_base::Memory;

/// Whether there is no value, or a lower one.
pub(crate) fn is_below(kept: Option<u64>, value: u64) -> bool
    ensures yes { OnTrue result (IsAtLeast value kept → ⊥) }
    ensures no { OnFalse result (IsAtLeast value kept) }
{
    match kept {
        Some(kept) => kept < value,
        None => true,
    }
}

/// The greatest value that a try from this place can give: any from the root, that of a node, and
/// none where neither stands there.
pub fn greatest_from<T: PathTree>(tree: &T, root: NodeId, id: NodeId) -> Option<u64>
    requires { root ≡ root_id (T.tree tree.now) }
    ensures carries { IfSome result (λ value. Carries (T.tree tree.now) id value) }
    ensures most { (number : ℕ) → number < 2 ^ 64 → Carries (T.tree tree.now) id number →
        IsAtLeast number result }
{
    if id == root {
        return Some(u64::MAX);
    }
    tree.value_of(id.vertex, id.state)
}

/// Lets the try wait, unless its target has as high a value already.
pub(crate) fn offer<T: PathTree>(
    search: &mut Search,
    tree: &T,
    waiting: Waiting,
) -> Result<(), Memory>
    requires { waiting.value ≤ search.old.level }
    ensures gains { Gains search.old search.new (λ each. each ≡ waiting) }
    ensures served { OnOk result
        (IsServed (T.tree tree.now) search.new.waiting (target_of waiting) waiting.value) }
{
    let kept = tree.value_of(waiting.edge.to, waiting.state);
    if is_below(kept, waiting.value) {
        search.push(waiting)?;
    }
    Ok(())
}

/// Offers the try by an edge of this value from the state to the other, where the root or a node
/// stands at its source.
fn offer_between<T: PathTree>(
    search: &mut Search,
    tree: &T,
    root: NodeId,
    before: u32,
    edge: EdgeId,
    value: u64,
    state: u32,
) -> Result<(), Memory>
    requires root { root ≡ root_id (T.tree tree.now) }
    requires level { search.old.level ≡ 2 ^ 64 - 1 }
    ensures gains { Gains search.old search.new
        (IsBetween (T.tree tree.now) before edge value state) }
    ensures served { OnOk result ((number : ℕ) → number ≤ value →
        Carries (T.tree tree.now) (node_id edge.from before) number →
        IsServed (T.tree tree.now) search.new.waiting (node_id edge.to state) number) }
{
    let from = NodeId {
        vertex: edge.from,
        state: before,
    };
    let Some(most) = greatest_from(tree, root, from) else {
        return Ok(());
    };
    let waiting = Waiting {
        value: most.min(value),
        edge,
        before,
        state,
    };
    offer(search, tree, waiting)
}

/// Offers a try.
fn offer_try<T: PathTree>(
    search: &mut Search,
    tree: &T,
    store: &EdgeStore,
    root: NodeId,
    step: Try,
) -> Result<(), Memory>
    requires root { root ≡ root_id (T.tree tree.now) }
    requires level { search.old.level ≡ 2 ^ 64 - 1 }
    ensures gains { Gains search.old search.new
        (IsOfTry (value_of store.now) (T.tree tree.now) step) }
    ensures served { OnOk result (Joins step.from step.edge step.to → (number : ℕ) →
        Gives (value_of store.now) (T.tree tree.now) step number →
        IsServed (T.tree tree.now) search.new.waiting step.to number) }
{
    let Some(value) = store.value(step.edge) else {
        return Ok(());
    };
    let before = step.from.state;
    let state = step.to.state;
    offer_between(search, tree, root, before, step.edge, value, state)
}

/// Offers all tries of a list.
pub(crate) fn offer_tries<T: PathTree>(
    search: &mut Search,
    tree: &T,
    store: &EdgeStore,
    dfa: &Dfa,
    tries: &[Try],
) -> Result<(), Memory>
    requires level { search.old.level ≡ 2 ^ 64 - 1 }
    requires valid { All (IsValid (value_of store.now) (step_of dfa.now) (T.tree tree.now))
        tries.now }
    ensures tree { IsTree (T.tree tree.now) }
    ensures gains { Gains search.old search.new
        (IsOpen (value_of store.now) dfa.now (T.tree tree.now)) }
    ensures served { OnOk result ((step : Try) (number : ℕ) → Contains tries.now step →
        Gives (value_of store.now) (T.tree tree.now) step number →
        IsServed (T.tree tree.now) search.new.waiting step.to number) }
{
    let root = NodeId {
        vertex: tree.root(),
        state: 0,
    };
    let states = dfa.states();
    for step in tries {
        let step = *step;
        prove!(step.to.state < states);
        offer_try(search, tree, store, root, step)?;
    }
    Ok(())
}

/// Offers the try by an edge of this value from the state, where the automaton has the state and a
/// step from it.
fn offer_step<T: PathTree>(
    search: &mut Search,
    tree: &T,
    dfa: &Dfa,
    root: NodeId,
    before: u32,
    edge: EdgeId,
    value: u64,
) -> Result<(), Memory>
    requires root { root ≡ root_id (T.tree tree.now) }
    requires level { search.old.level ≡ 2 ^ 64 - 1 }
    ensures gains { Gains search.old search.new (IsBy dfa.now (T.tree tree.now) edge value) }
    ensures served { OnOk result
        (IsServedBy dfa.now (T.tree tree.now) search.new.waiting edge value before) }
{
    if before >= dfa.states() {
        return Ok(());
    }
    let Some(state) = dfa.step(before, edge.label) else {
        return Ok(());
    };
    offer_between(search, tree, root, before, edge, value, state)
}

/// Offers the try by an edge of this value from the root, where the edge leaves it.
fn offer_from_root<T: PathTree>(
    search: &mut Search,
    tree: &T,
    dfa: &Dfa,
    root: NodeId,
    edge: EdgeId,
    value: u64,
) -> Result<(), Memory>
    requires root { root ≡ root_id (T.tree tree.now) }
    requires level { search.old.level ≡ 2 ^ 64 - 1 }
    ensures gains { Gains search.old search.new (IsBy dfa.now (T.tree tree.now) edge value) }
    ensures served { OnOk result (edge.from ≡ (T.tree tree.now).root →
        IsServedBy dfa.now (T.tree tree.now) search.new.waiting edge value 0) }
{
    if edge.from != root.vertex {
        return Ok(());
    }
    offer_step(search, tree, dfa, root, 0, edge, value)
}

/// Offers the tries by an edge of this value from these states.
fn offer_from_states<T: PathTree>(
    search: &mut Search,
    tree: &T,
    dfa: &Dfa,
    root: NodeId,
    states: &[u32],
    edge: EdgeId,
    value: u64,
) -> Result<(), Memory>
    requires root { root ≡ root_id (T.tree tree.now) }
    requires level { search.old.level ≡ 2 ^ 64 - 1 }
    ensures gains { Gains search.old search.new (IsBy dfa.now (T.tree tree.now) edge value) }
    ensures served { OnOk result ((before : ℕ) → Contains states.now before →
        IsServedBy dfa.now (T.tree tree.now) search.new.waiting edge value before) }
{
    for before in states {
        offer_step(search, tree, dfa, root, *before, edge, value)?;
    }
    Ok(())
}

/// Offers the tries by the edge from the root and from these states, among which are those of all
/// nodes that stand where the edge leaves.
pub(crate) fn offer_edge<T: PathTree>(
    search: &mut Search,
    tree: &T,
    store: &EdgeStore,
    dfa: &Dfa,
    edge: EdgeId,
    states: &[u32],
) -> Result<(), Memory>
    requires level { search.old.level ≡ 2 ^ 64 - 1 }
    requires covers { CoversStates (T.tree tree.now) edge.from states.now }
    ensures tree { IsTree (T.tree tree.now) }
    ensures gains { Gains search.old search.new
        (IsOpen (value_of store.now) dfa.now (T.tree tree.now)) }
    ensures served { OnOk result ((before number state : ℕ) →
        IsAtLeast number (value_of store.now edge) →
        Carries (T.tree tree.now) (node_id edge.from before) number →
        step_of dfa.now before edge.label ≡ Some state →
        IsServed (T.tree tree.now) search.new.waiting (node_id edge.to state) number) }
{
    let root = NodeId {
        vertex: tree.root(),
        state: 0,
    };
    let Some(value) = store.value(edge) else {
        return Ok(());
    };
    offer_from_root(search, tree, dfa, root, edge, value)?;
    offer_from_states(search, tree, dfa, root, states, edge, value)
}

/// Offers the try by an edge that leaves a node that rose. An edge whose value isn't above the one
/// that the node had before could give as much then already.
pub(crate) fn offer_out<T: PathTree>(
    search: &mut Search,
    tree: &T,
    dfa: &Dfa,
    rise: Rise,
    out: Out,
) -> Result<(), Memory>
    requires state { rise.id.state < length dfa.now.rows }
    requires level { rise.value ≤ search.old.level }
    ensures gains { Gains search.old search.new (IsOut dfa.now rise.id rise.value out) }
    ensures served { OnOk result ((number state : ℕ) → number ≤ rise.value → number ≤ out.value →
        (IsAtLeast number rise.before → ⊥) → step_of dfa.now rise.id.state out.label ≡ Some state →
        IsServed (T.tree tree.now) search.new.waiting (node_id out.to state) number) }
{
    if !is_below(rise.before, out.value) {
        return Ok(());
    }
    let Some(state) = dfa.step(rise.id.state, out.label) else {
        return Ok(());
    };
    let edge = EdgeId {
        from: rise.id.vertex,
        label: out.label,
        to: out.to,
    };
    let waiting = Waiting {
        value: rise.value.min(out.value),
        edge,
        before: rise.id.state,
        state,
    };
    offer(search, tree, waiting)
}
