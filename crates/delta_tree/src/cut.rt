//! Nodes that are taken out of a tree.

ghost use Rattle.std.specs.Prelude.{◌≡◌, ◌≤◌, ◌⊎◌, cond, length, None};
ghost use Rattle.std.specs.List.{list_any};
ghost use Rattle.delta_tree.specs.declared.node.NodeId.{NodeId};
ghost use Rattle.delta_tree.specs.Nodes.{same_node, node_in};
ghost use Rattle.delta_tree.specs.Dues.{IsNoted, IsOneEach, IsLeftAlone};

use crate::node::NodeId;
use crate::node_map::NodeMap;
use due_queue::DueQueue;

/// Takes these nodes out.
pub(crate) fn take_out(nodes: &mut NodeMap, ids: &[NodeId])
    ensures { (id : NodeId) → node_in nodes.new id
        ≡ cond (list_any (same_node id) ids.now) None (node_in nodes.old id) }
{
    for id in ids {
        nodes.remove(*id);
    }
}

/// Gives the memory back that dues of nodes need no more. Where the dues are more than four times
/// as many as the nodes, it notes each node anew, and nothing else. A look at all dues so leaves at
/// most a quarter of them, and all looks together cost no more than the notes of the nodes did.
pub(crate) fn forget_cut(dues: &mut DueQueue<NodeId>, nodes: &NodeMap)
    requires { IsNoted nodes.now dues.old.items }
    ensures noted { IsNoted nodes.now dues.new.items }
    ensures few { IsOneEach nodes.now dues.new.items ⊎ IsLeftAlone nodes.now dues.old.items
        dues.new.items }
{
    if dues.has_outgrown(nodes.len()) {
        note_anew(dues, nodes);
    }
    dues.give_back();
}

/// Notes each node with its value, once, in the room of the dues that were noted before.
fn note_anew(dues: &mut DueQueue<NodeId>, nodes: &NodeMap)
    requires { length nodes.now ≤ length dues.old.items }
    ensures noted { IsNoted nodes.now dues.new.items }
    ensures each { length dues.new.items ≡ length nodes.now }
{
    dues.forget_all();
    for place in 0..nodes.len() {
        let (id, value) = nodes.at(place);
        dues.note_in_room(id, value);
    }
}
