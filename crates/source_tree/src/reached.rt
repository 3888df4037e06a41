//! The list of the vertices that have an end.

ghost use Rattle.std.specs.Prelude.{◌≡◌, ◌↔◌, ◌^◌, ◌<◌, ℕ, List, Contains, IsTrue, IfOk, OnOk};
ghost use Rattle.delta_tree.specs.Nodes.{TreeValue};
ghost use Rattle.source_tree.specs.Ends.{AreReached};
ghost use Rattle.source_tree.specs.Listing.{AddsValue, HaveValues, order_of};

use crate::change::Reached;
use delta_tree::{NodeId, Tree};
use rpq_base::Memory;
use std::alloc::Global;

/// Whether the state is one of the final ones. An automaton has few of them, so they are gone
/// through: a set of them would cost more for a small tree than all its nodes.
fn is_among(finals: &[u32], state: u32) -> bool
    ensures { IsTrue result ↔ Contains finals.now state }
{
    finals.contains(&state)
}

/// A vertex with a value.
fn with_value(vertex: u32, value: u64) -> Reached
    ensures made { result ≡ record { vertex = vertex; value = value } }
    ensures fits { value < 2 ^ 64 }
{
    Reached { vertex, value }
}

/// Adds the value of the place, where there is one.
fn add_value(tree: &Tree, id: NodeId, reached: &mut Vec<Reached>) -> Result<(), Memory>
    ensures { OnOk result (AddsValue tree.now id reached.old.items reached.new.items) }
{
    if let Some(value) = tree.value_of(id.vertex, id.state) {
        reached.push(with_value(id.vertex, value))?;
    }
    Ok(())
}

/// The values of the nodes with a final state, each with its vertex.
pub(crate) fn list_values(
    alloc: Global,
    tree: &Tree,
    finals: &[u32],
) -> Result<Vec<Reached>, Memory>
    ensures { IfOk result (λ reached. HaveValues finals.now tree.now reached.items) }
{
    let mut reached = Vec::new(alloc);
    for k in 0..tree.len() {
        let id = tree.node_at(k);
        if is_among(finals, id.state) {
            add_value(tree, id, &mut reached)?;
        }
    }
    Ok(reached)
}

/// A number that rises with the vertex, and for one vertex as the value falls.
fn order_of(each: &Reached) -> u128
    ensures { result ≡ order_of each.now }
{
    u128::from(each.vertex) * (1 << 64) + u128::from(u64::MAX - each.value)
}

/// Keeps the greatest value of each vertex, and puts the vertices in order.
pub(crate) fn keep_greatest(reached: &mut Vec<Reached>)
    ensures { (finals : List ℕ) (tree : TreeValue) → HaveValues finals tree reached.old.items →
        AreReached finals tree reached.new.items }
{
    reached.sort_unstable_by_key(|each| order_of(each));
    reached.dedup_by_key(|each| each.vertex);
}
