//! The nodes of a tree by their places.
//!
//! A search goes through the places, and a step is judged by the value that it finds there; so
//! these lie together, four nodes in a line of a cache, apart from the rest of each node, which is
//! read where a path is followed or cut.

ghost use Rattle.std.specs.Prelude.{◌≡◌, ◌<◌, [], length, cond, is_some, slice_get, None, Some, OnOk, OnErr, option_map};
ghost use Rattle.std.specs.Option.{MatchOption};
ghost use Rattle.std.specs.List.{IsDistinct, list_any};
ghost use Rattle.std.specs.Map.{keys_of};
ghost use Rattle.delta_tree.specs.declared.node.NodeId.{NodeId};
ghost use Rattle.delta_tree.specs.declared.node_map.Spot.{Spot as SpotMade};
ghost use Rattle.delta_tree.specs.Nodes.{Node, same_node, node_in};
ghost use Rattle.delta_tree.specs.Paths.{hangs_by};
ghost use Rattle.delta_tree.specs.Spots.{IsSpot, link_of, rest_of};

use crate::node::{Link, Node, NodeId};
use crate::stamp::Stamp;
use edge_store::EdgeId;
use rpq_base::Memory;
use small_map::{SmallMap, give_back, make_room};
use std::alloc::Global;
use std::marker::Model;

/// What a node has beside its value.
#[derive(Drop)]
struct Rest {
    parent: NodeId,
    edge: EdgeId,
    stamp: Stamp,
}

/// What a node has beside its value.
fn rest_of(node: Node) -> Rest
    ensures { result ≡ rest_of node }
{
    Rest {
        parent: node.parent,
        edge: node.edge,
        stamp: node.stamp,
    }
}

/// By what the node with this rest hangs.
fn link_of(rest: &Rest) -> Link
    ensures parent { result.parent ≡ rest.now.parent }
    ensures edge { result.edge ≡ rest.now.edge }
{
    Link {
        parent: rest.parent,
        edge: rest.edge,
    }
}

/// Where a node was found among the others, with its value.
#[derive(Clone, Copy, Debug, PartialEq, Eq)]
pub(crate) struct Spot {
    pub(crate) place: usize,
    pub(crate) value: u64,
}

/// The value that was found.
pub(crate) fn value_at(spot: Option<Spot>) -> Option<u64>
    ensures { result ≡ option_map (λ (spot : SpotMade). spot.value) spot }
{
    match spot {
        Some(spot) => Some(spot.value),
        None => None,
    }
}

/// Nodes by their places. Contracts see the list of the places with their nodes, in which each
/// place stands once.
#[derive(Drop)]
pub(crate) struct NodeMap {
    values: SmallMap<NodeId, u64>,
    /// Those of the nodes, in the same order.
    rests: Vec<Rest>,
}

impl Model for NodeMap {
    ghost use Rattle.std.specs.Prelude.{List};
    ghost use Rattle.delta_tree.specs.declared.node.NodeId.{NodeId};
    ghost use Rattle.delta_tree.specs.Nodes.{Node};
    ghost use Rattle.delta_tree.specs.Spots.{ArePaired, joined};

    ghost Value = { List (NodeId × Node) };

    ghost view = { λ map. joined map.values map.rests.items };

    ghost invariant = { λ map. ArePaired map.values map.rests.items };
}

impl NodeMap {
    /// No nodes, which take no memory.
    pub(crate) fn new(alloc: Global) -> NodeMap
        ensures { result ≡ [] }
    {
        NodeMap {
            values: SmallMap::new(alloc),
            rests: Vec::new(alloc),
        }
    }

    /// The number of nodes.
    pub(crate) fn len(&self) -> usize
        ensures count { result ≡ length self.now }
        ensures once { IsDistinct same_node (keys_of self.now) }
    {
        self.values.len()
    }

    /// The place of the node that stands here.
    pub(crate) fn id_at(&self, place: usize) -> NodeId
        requires { place < length self.now }
        ensures { slice_get (keys_of self.now) place ≡ Some result }
    {
        self.values.at(place).0
    }

    /// The place and the value of the node that stands here.
    pub(crate) fn at(&self, place: usize) -> (NodeId, u64)
        requires { place < length self.now }
        ensures { (node : Node) × (slice_get self.now place ≡ Some (result.0, node))
            × (node.value ≡ result.1) }
    {
        self.values.at(place)
    }

    /// Where the node of this place stands, with its value.
    pub(crate) fn find(&self, id: NodeId) -> Option<Spot>
        ensures spot { MatchOption result (node_in self.now id ≡ None) (IsSpot self.now id) }
        ensures value { option_map (λ (spot : SpotMade). spot.value) result
            ≡ option_map (λ (node : Node). node.value) (node_in self.now id) }
    {
        match self.values.place_of(&id) {
            Some(place) => Some(Spot {
                place,
                value: self.values.at(place).1,
            }),
            None => None,
        }
    }

    /// The value of the node of this place.
    pub(crate) fn value_of(&self, id: NodeId) -> Option<u64>
        ensures { result ≡ option_map (λ (node : Node). node.value) (node_in self.now id) }
    {
        value_at(self.find(id))
    }

    /// By what the node of this place hangs.
    pub(crate) fn get(&self, id: NodeId) -> Option<Link>
        ensures { result ≡ option_map link_of (node_in self.now id) }
    {
        match self.values.place_of(&id) {
            Some(place) => Some(link_of(&self.rests[place])),
            None => None,
        }
    }

    /// Whether a node stands at this place.
    pub(crate) fn contains(&self, id: NodeId) -> bool
        ensures { result ≡ is_some (node_in self.now id) }
    {
        self.values.place_of(&id).is_some()
    }

    /// Puts another node into the place of the one that stands here.
    pub(crate) fn set_at(&mut self, place: usize, node: Node)
        requires { place < length self.old }
        ensures { (id : NodeId) (old : Node) → slice_get self.old place ≡ Some (id, old) →
            (each : NodeId) → node_in self.new each
            ≡ cond (same_node id each) (Some node) (node_in self.old each) }
    {
        self.values.set_at(place, node.value);
        self.rests[place] = rest_of(node);
    }

    /// Puts a node where none stands. The only error is [`Memory`], after which nothing has
    /// changed.
    pub(crate) fn push(&mut self, id: NodeId, node: Node) -> Result<(), Memory>
        requires { node_in self.old id ≡ None }
        ensures put { OnOk result ((each : NodeId) → node_in self.new each
            ≡ cond (same_node id each) (Some node) (node_in self.old each)) }
        ensures unchanged { OnErr result (self.new ≡ self.old) }
    {
        make_room(&mut self.rests)?;
        self.values.push(id, node.value)?;
        self.rests.push_reserved(rest_of(node));
        Ok(())
    }

    /// Takes the node out that stands here.
    pub(crate) fn remove_at(&mut self, place: usize)
        requires { place < length self.old }
        ensures { (id : NodeId) (old : Node) → slice_get self.old place ≡ Some (id, old) →
            (each : NodeId) → node_in self.new each
            ≡ cond (same_node id each) None (node_in self.old each) }
    {
        self.values.remove_at(place);
        self.rests.swap_remove(place);
        give_back(&mut self.rests);
    }

    /// Takes the node of this place out, where one stands.
    pub(crate) fn remove(&mut self, id: NodeId)
        ensures { (each : NodeId) → node_in self.new each
            ≡ cond (same_node id each) None (node_in self.old each) }
    {
        if let Some(spot) = self.find(id) {
            self.remove_at(spot.place);
        }
    }

    /// Whether a node hangs by this edge.
    pub(crate) fn has_edge(&self, edge: EdgeId) -> bool
        ensures { result ≡ list_any (hangs_by edge) self.now }
    {
        for place in 0..self.len() {
            if self.hangs_at(place, edge) {
                return true;
            }
        }
        false
    }

    /// Whether the node that stands here hangs by this edge. Where its vertex is another, its edge
    /// isn't read.
    fn hangs_at(&self, place: usize, edge: EdgeId) -> bool
        requires { place < length self.now }
        ensures { (each : NodeId × Node) → slice_get self.now place ≡ Some each →
            result ≡ hangs_by edge each }
    {
        self.values.at(place).0.vertex == edge.to && self.rests[place].edge == edge
    }
}
