//! The nodes of one root, and the paths to them.

ghost use Rattle.std.specs.Prelude.{◌≡◌, ◌↔◌, [], None, Some, is_some, option_map, IfOk, IfSome};
ghost use Rattle.std.specs.Prelude.{IsSome, IsTrue, OnOk};
ghost use Rattle.delta_tree.specs.declared.node.Node.{Node};
ghost use Rattle.delta_tree.specs.Paths.{HangsBelow, IsPathTo, LeadsUp};
ghost use Rattle.place_table.specs.Links.{link_of};
ghost use Rattle.place_table.specs.Table.{ArePlacesOf, node_at, tree_in};

use crate::link::Link;
use crate::table::{PlaceTable, edge_of};
use delta_tree::NodeId;
use edge_store::EdgeId;
use rpq_base::Memory;

impl PlaceTable {
    /// By what the root's node at the place hangs.
    fn link_at(&self, root: u32, id: NodeId) -> Option<Link>
        ensures { result ≡ option_map (λ (node : Node). link_of node) (node_at self.now root id) }
    {
        match self.places.get(root, id) {
            Some(kept) => Some(Link {
                parent: NodeId {
                    vertex: kept.from,
                    state: kept.before,
                },
                edge: edge_of(kept, id),
            }),
            None => None,
        }
    }

    /// Whether the root has a node at the place.
    fn has_node(&self, root: u32, id: NodeId) -> bool
        ensures { result ≡ is_some (node_at self.now root id) }
    {
        self.places.get(root, id).is_some()
    }

    /// Whether the root's node at the place hangs below the parent by the edge.
    pub fn hangs_below(&self, root: u32, id: NodeId, parent: NodeId, edge: EdgeId) -> bool
        ensures { IsTrue result ↔ HangsBelow (tree_in self.now root) parent edge id }
    {
        match self.link_at(root, id) {
            Some(link) => link.edge == edge && link.parent == parent,
            None => false,
        }
    }

    /// The edges of the path from the root to its node at the place, or none where it has none
    /// there. This costs a look-up for each edge.
    pub fn path_to(&self, root: u32, id: NodeId) -> Result<Option<Vec<EdgeId>>, Memory>
        ensures none { IfOk result (λ found. (found ≡ None) ↔ (node_at self.now root id ≡ None)) }
        ensures path { IfOk result (λ found. IfSome found (λ path.
            IsPathTo (tree_in self.now root) id path.items)) }
    {
        if !self.has_node(root, id) {
            return Ok(None);
        }
        let mut path = self.way_up(root, id)?;
        path.reverse();
        Ok(Some(path))
    }

    /// The parent edges from a node of the root up to this, that of the node first.
    fn way_up(&self, root: u32, id: NodeId) -> Result<Vec<EdgeId>, Memory>
        requires { IsSome (node_at self.now root id) }
        ensures { IfOk result (λ up. LeadsUp (tree_in self.now root) id up.items) }
    {
        self.has_trees(); // called for its clause
        let mut up = Vec::new(self.alloc);
        let mut at = id;
        while let Some(link) = self.link_at(root, at) {
            up.push(link.edge)?;
            at = link.parent;
        }
        Ok(up)
    }

    /// Makes the list that of the places at which the root has a node. This goes over all places.
    pub fn places_of(&self, root: u32, ids: &mut Vec<NodeId>) -> Result<(), Memory>
        ensures { OnOk result (ArePlacesOf self.now root ids.new.items) }
    {
        ids.clear();
        self.places.add_ids_of(root, ids)
    }
}
