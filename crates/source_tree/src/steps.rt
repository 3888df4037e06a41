//! What each change does to the tree.

ghost use Rattle.std.specs.Prelude.{◌≡◌, ◌^◌, ◌<◌, ℕ, All, Contains, IfOk, OnOk};
ghost use Rattle.delta_tree.specs.Changes.{AreBelow, AreShifts, shift_ids};
ghost use Rattle.tree_insert.specs.Trees.{CoversStates, IsLater, IsRisen, Keeps, WasOptimal};
ghost use Rattle.tree_delete.specs.Removal.{KeepsApart, WasOptimalWith};
ghost use Rattle.source_tree.specs.Product.{ProductValue, AreFinals, AreHeld, IsOptimalOn, steps_of, values_of};
ghost use Rattle.source_tree.specs.Searching.{IsBlankFor};
ghost use Rattle.source_tree.specs.Taking.{KeepsNodes, WasOptimalBefore};
ghost use Rattle.source_tree.specs.Telling.{HasChanged, Tells};
ghost use Rattle.source_tree.specs.declared.change.Change.TheVariants.{Raise, Remove, Expire};

use crate::change::Change;
use crate::product::ProductGraph;
use crate::report::{ChangeReport, report_search, report_shifts};
use delta_tree::{NodeId, Shift, Tree};
use edge_store::{EdgeId, Steps};
use rpq_base::Memory;
use std::alloc::Global;
use std::marker::Brand;
use std::sync::ledger::{Blank, Ledger};
use tree_delete::tree_remove_with;
use tree_insert::Search;

/// Adds the state of the node, where it is one of the vertex.
fn add_if_there(states: &mut Vec<u32>, id: NodeId, vertex: u32) -> Result<(), Memory>
    ensures kept { OnOk result ((state : ℕ) →
        Contains states.old.items state → Contains states.new.items state) }
    ensures added { OnOk result (id.vertex ≡ vertex → Contains states.new.items id.state) }
{
    if id.vertex == vertex {
        states.push(id.state)?;
    }
    Ok(())
}

/// The states with which nodes of the tree stand at the vertex, found by going through its nodes.
fn own_states(alloc: Global, tree: &Tree, vertex: u32) -> Result<Vec<u32>, Memory>
    ensures { IfOk result (λ states. CoversStates tree.now vertex states.items) }
{
    let mut states = Vec::new(alloc);
    for k in 0..tree.len() {
        add_if_there(&mut states, tree.node_at(k), vertex)?;
    }
    Ok(states)
}

/// The search after the raise of an edge, whose steps nobody asks for. It begins at the states with
/// which some tree has a node where the edge leaves, or, where the tree's own nodes are fewer than
/// these, at the states of its own.
fn search_raised<L: Ledger>(
    alloc: Global,
    search: &mut Search,
    tree: &mut Tree,
    product: &ProductGraph<'_>,
    edge: EdgeId,
    blank: Blank,
) -> Result<(), Memory>
    requires blank { IsBlankFor blank.name blank.parts L.name L.parts }
    requires puts { tree.old.puts < 2 ^ 126 }
    requires before { WasOptimal (values_of product.now) (steps_of product.now) tree.old edge }
    requires held { AreHeld product.now.holders tree.old }
    ensures optimal { OnOk result (IsOptimalOn product.now tree.new) }
    ensures keeps { Keeps tree.old tree.new }
    ensures later { IsLater tree.old tree.new }
    ensures risen { OnOk result (All (IsRisen tree.old tree.new) (shift_ids search.new.shifts)) }
    ensures shifts { OnOk result (AreShifts tree.old tree.new search.new.shifts) }
{
    let mut steps: Steps<L> = Steps::new(blank);
    let held = product.states_at(edge.from);
    if tree.len() < held.len() {
        let own = own_states(alloc, tree, edge.from)?;
        return search.raise(tree, product.store, product.dfa, edge, &own, &mut steps);
    }
    search.raise(tree, product.store, product.dfa, edge, held, &mut steps)
}

/// Makes the tree optimal after the raise of an edge. The search has the shifts.
fn raise_edge(
    alloc: Global,
    search: &mut Search,
    tree: &mut Tree,
    product: &ProductGraph<'_>,
    edge: EdgeId,
) -> Result<(), Memory>
    requires puts { tree.old.puts < 2 ^ 126 }
    requires before { WasOptimal (values_of product.now) (steps_of product.now) tree.old edge }
    requires held { AreHeld product.now.holders tree.old }
    ensures changed { OnOk result ((value : ℕ) → HasChanged (Raise edge value) product.now
        tree.old tree.new search.new.shifts) }
    ensures later { IsLater tree.old tree.new }
{
    search_raised::<Brand>(alloc, search, tree, product, edge, Blank::new(1))
}

/// The search after the removal of an edge, whose steps nobody asks for.
fn search_removed<L: Ledger>(
    alloc: Global,
    search: &mut Search,
    tree: &mut Tree,
    product: &ProductGraph<'_>,
    edge: EdgeId,
    blank: Blank,
) -> Result<Vec<Shift>, Memory>
    requires blank { IsBlankFor blank.name blank.parts L.name L.parts }
    requires puts { tree.old.puts < 2 ^ 126 }
    requires before { WasOptimalWith (values_of product.now) (steps_of product.now) tree.old edge }
    ensures optimal { OnOk result (IsOptimalOn product.now tree.new) }
    ensures keeps { OnOk result (KeepsApart tree.old tree.new edge) }
    ensures later { IsLater tree.old tree.new }
    ensures cut { IfOk result (λ shifts. AreBelow tree.old edge (shift_ids shifts.items)) }
    ensures shifts { IfOk result (λ shifts. AreShifts tree.old tree.new shifts.items) }
{
    let mut steps: Steps<L> = Steps::new(blank);
    tree_remove_with(
        search,
        alloc,
        tree,
        product.store,
        product.dfa,
        edge,
        &mut steps,
    )
}

/// Makes the tree optimal after the removal of an edge, and answers the shifts.
fn remove_edge(
    alloc: Global,
    search: &mut Search,
    tree: &mut Tree,
    product: &ProductGraph<'_>,
    edge: EdgeId,
) -> Result<Vec<Shift>, Memory>
    requires puts { tree.old.puts < 2 ^ 126 }
    requires before { WasOptimalWith (values_of product.now) (steps_of product.now) tree.old edge }
    ensures changed { IfOk result (λ shifts. HasChanged (Remove edge) product.now
        tree.old tree.new shifts.items) }
    ensures later { IsLater tree.old tree.new }
{
    search_removed::<Brand>(alloc, search, tree, product, edge, Blank::new(1))
}

/// Takes the nodes out whose value is at most this number. The search has the shifts.
fn expire(search: &mut Search, tree: &mut Tree, now: u64) -> Result<(), Memory>
    ensures changed { OnOk result ((product : ProductValue) →
        WasOptimalBefore (Expire now) product tree.old →
        HasChanged (Expire now) product tree.old tree.new search.new.shifts) }
    ensures later { IsLater tree.old tree.new }
{
    search.expire(tree, now)
}

/// Makes the tree optimal after a change of the store, and reports what this did to it.
pub(crate) fn change_tree(
    alloc: Global,
    search: &mut Search,
    tree: &mut Tree,
    product: &ProductGraph<'_>,
    change: Change,
    report: &mut ChangeReport,
) -> Result<(), Memory>
    requires puts { tree.old.puts < 2 ^ 126 }
    requires before { WasOptimalBefore change product.now tree.old }
    requires finals { AreFinals product.now.dfa product.now.finals }
    requires held { AreHeld product.now.holders tree.old }
    ensures optimal { OnOk result (IsOptimalOn product.now tree.new) }
    ensures keeps { OnOk result (KeepsNodes change tree.old tree.new) }
    ensures tells { OnOk result (Tells change product.now.finals tree.old tree.new
        report.new.moved.items report.new.log.items report.new.touched) }
    ensures later { IsLater tree.old tree.new }
{
    match change {
        Change::Raise { edge, .. } => {
            raise_edge(alloc, search, tree, product, edge)?;
            report_search(tree, product, search, report)
        }
        Change::Remove(edge) => {
            let mut shifts = remove_edge(alloc, search, tree, product, edge)?;
            report_shifts(tree, product, &mut shifts, report)
        }
        Change::Expire(now) => {
            expire(search, tree, now)?;
            report_search(tree, product, search, report)
        }
    }
}
