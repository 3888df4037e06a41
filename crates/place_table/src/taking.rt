//! Nodes of one root that are taken out.

ghost use Rattle.std.specs.Prelude.{◌≡◌, ◌<◌, cond, length, slice_get, None, Some};
ghost use Rattle.std.specs.List.{list_any};
ghost use Rattle.delta_tree.specs.declared.node.NodeId.{NodeId as NodeIdMade};
ghost use Rattle.delta_tree.specs.Nodes.{same_node};
ghost use Rattle.place_table.specs.Kept.{Placed, PutsAt, kept_at};
ghost use Rattle.place_table.specs.Links.{KeepsKept, placed_ids};

use crate::places::Places;
use delta_tree::NodeId;

/// Takes the nodes of the root at these places out.
pub(crate) fn take_out(places: &mut Places, root: u32, ids: &[NodeId])
    ensures own { (id : NodeIdMade) → kept_at places.new root id
        ≡ cond (list_any (same_node id) ids.now) None (kept_at places.old root id) }
    ensures others { KeepsKept places.old places.new root }
{
    for id in ids {
        places.take(root, *id);
    }
}

/// Takes all nodes of the root out. This goes over all places.
pub(crate) fn take_all(places: &mut Places, root: u32)
    ensures own { (id : NodeIdMade) → kept_at places.new root id ≡ None }
    ensures others { KeepsKept places.old places.new root }
{
    for number in 0..places.len() {
        take_here(places, number, root);
    }
}

/// Takes the node of the root out, where it has one at the place of this number.
fn take_here(places: &mut Places, number: usize, root: u32)
    requires { number < length places.old }
    ensures taken { (place : Placed) → slice_get places.old number ≡ Some place →
        PutsAt places.old places.new root place.id None }
    ensures ids { placed_ids places.new ≡ placed_ids places.old }
{
    let id = places.at(number).id();
    if places.get(root, id).is_some() {
        places.take(root, id);
    }
}
