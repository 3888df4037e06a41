//! The nodes of a tree, and the order in which they leave it.

ghost use Rattle.std.specs.Prelude.{◌≡◌, ◌<◌, ◌≤◌, cond, None, Some, Contains, IfOk, IsOk, OnOk, OnErr, option_map};
ghost use Rattle.std.specs.Option.{MatchOption};
ghost use Rattle.due_queue.specs.Queue.{due};
ghost use Rattle.delta_tree.specs.declared.node.NodeId.{NodeId};
ghost use Rattle.delta_tree.specs.Nodes.{Node, same_node, node_in};
ghost use Rattle.delta_tree.specs.Changes.{living, is_enough};
ghost use Rattle.delta_tree.specs.Dues.{IsDueIn, IsDueWith, IsNoted, KeepsDues, pending};
ghost use Rattle.delta_tree.specs.Losses.{loss, losses, with_loss};
ghost use Rattle.delta_tree.specs.Spots.{IsSpot};

use crate::node::{Node, NodeId, Shift};
use crate::node_map::{NodeMap, Spot};
use due_queue::DueQueue;
use rpq_base::Memory;
use std::alloc::Global;

/// Whether there is a value, and it is at least this number.
pub(crate) fn is_enough(kept: Option<u64>, number: u64) -> bool
    ensures { result ≡ is_enough kept number }
{
    match kept {
        Some(kept) => number <= kept,
        None => false,
    }
}

/// Puts a node, whose value is at least the one that it has, at the spot where it was found or as a
/// new one. The only error is [`Memory`], after which nothing has changed.
pub(crate) fn set_node(
    nodes: &mut NodeMap,
    dues: &mut DueQueue<NodeId>,
    spot: Option<Spot>,
    id: NodeId,
    node: Node,
) -> Result<(), Memory>
    requires spot { MatchOption spot (node_in nodes.old id ≡ None) (IsSpot nodes.old id) }
    requires noted { IsNoted nodes.old dues.old.items }
    requires raises { (old : Node) →
        node_in nodes.old id ≡ Some old → old.value ≤ node.value }
    ensures nodes { OnOk result ((each : NodeId) → node_in nodes.new each
        ≡ cond (same_node id each) (Some node) (node_in nodes.old each)) }
    ensures noted { OnOk result (IsNoted nodes.new dues.new.items) }
    ensures unchanged { OnErr result (nodes.new ≡ nodes.old) }
    ensures noted_before { OnErr result (dues.new.items ≡ dues.old.items) }
{
    match spot {
        // A node that is raised stays where it is noted.
        Some(spot) => nodes.set_at(spot.place, node),
        None => {
            let value = node.value;
            dues.reserve()?;
            nodes.push(id, node)?;
            dues.note_reserved(id, value);
        }
    }
    Ok(())
}

/// Takes the node out where its value is at most `now`, and else notes it with its value. Answers
/// the value of the one that it took out.
pub(crate) fn drop_or_note(
    nodes: &mut NodeMap,
    dues: &mut DueQueue<NodeId>,
    id: NodeId,
    now: u64,
) -> Option<u64>
    requires room { 0 < dues.old.room }
    ensures nodes { (each : NodeId) → node_in nodes.new each
        ≡ cond (same_node id each)
        (living now (node_in nodes.old id)) (node_in nodes.old each) }
    ensures pending { pending now dues.new.items ≡ pending now dues.old.items }
    ensures kept { KeepsDues dues.old.items dues.new.items }
    ensures noted { (node : Node) → node_in nodes.new id ≡ Some node →
        Contains dues.new.items (due id node.value) }
    ensures dropped { MatchOption result (IsDueIn nodes.old now id → ⊥)
        (IsDueWith nodes.old now id) }
{
    match nodes.find(id) {
        Some(spot) if spot.value > now => {
            dues.note_reserved(id, spot.value);
            None
        }
        Some(spot) => {
            nodes.remove_at(spot.place);
            dues.give_back();
            Some(spot.value)
        }
        None => None,
    }
}

/// Adds the loss of a node of this value, where one was lost, unless memory ran out before.
pub(crate) fn add_loss(
    before: Result<(), Memory>,
    lost: Option<u64>,
    shifts: &mut Vec<Shift>,
    id: NodeId,
) -> Result<(), Memory>
    ensures before { OnOk result (IsOk before) }
    ensures added { OnOk result (shifts.new.items ≡ with_loss shifts.old.items id lost) }
{
    before?;
    if let Some(value) = lost {
        shifts.push(loss(id, Some(value)))?;
    }
    Ok(())
}

/// That no node of this value stands there any more.
fn loss(id: NodeId, before: Option<u64>) -> Shift
    ensures { result ≡ loss id before }
{
    Shift {
        id,
        before,
        after: None,
    }
}

/// That what stands there doesn't any more.
fn loss_of(nodes: &NodeMap, id: NodeId) -> Shift
    ensures { result ≡ loss id (option_map (λ (node : Node). node.value) (node_in nodes.now id)) }
{
    loss(id, nodes.value_of(id))
}

/// That none of these nodes stands there any more.
pub(crate) fn losses(alloc: Global, nodes: &NodeMap, ids: &[NodeId]) -> Result<Vec<Shift>, Memory>
    ensures { IfOk result (λ shifts. shifts.items ≡ losses nodes.now ids.now) }
{
    Ok(ids.iter().map(|id| loss_of(nodes, *id)).collect(alloc)?)
}
