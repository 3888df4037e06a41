//! A tree of nodes below a root.

ghost use Rattle.std.specs.Prelude.{◌≡◌, ◌+◌, ◌<◌, ◌↔◌, [], length, slice_get, Contains};
ghost use Rattle.std.specs.Prelude.{option_map};
ghost use Rattle.std.specs.Prelude.{IfOk, IfNone, IfSome, IsSome, IsTrue, OnErr, OnOk, None, Some};
ghost use Rattle.std.specs.Option.{MatchOption};
ghost use Rattle.delta_tree.specs.Nodes.{IsTree, GivesNodes};
ghost use Rattle.delta_tree.specs.Nodes.{node_id, node_of, value_of, ids_of};
ghost use Rattle.delta_tree.specs.Paths.{IsPathTo, LeadsUp, IsBelow, HangsBy, HangsBelow};
ghost use Rattle.delta_tree.specs.declared.node.NodeId.{NodeId};
ghost use Rattle.delta_tree.specs.Changes.{CanHang, Raises, Puts, put_node, Expires};
ghost use Rattle.delta_tree.specs.Changes.{IsSameBeside, Cuts, AreBelow, AreDue, IsFloor};
ghost use Rattle.delta_tree.specs.Changes.{AreShifts, HasAsMuch, Lifts, shift_ids};
ghost use Rattle.delta_tree.specs.declared.node.Shift.{Shift as ShiftMade};
ghost use Rattle.delta_tree.specs.declared.node_map.Spot.{Spot as SpotMade};
ghost use Rattle.delta_tree.specs.Losses.{losses};
ghost use Rattle.delta_tree.specs.Spots.{IsSpot};

use crate::cut::{forget_cut, take_out};
use crate::node::{Node, NodeId, Shift, Try};
use crate::node_map::{NodeMap, Spot, value_at};
use crate::nodes::{add_loss, drop_or_note, is_enough, losses, set_node};
use crate::stamp::PutCount;
use due_queue::DueQueue;
use edge_store::EdgeId;
use indexmap::IndexSet;
use rpq_base::Memory;
use std::alloc::Global;
use std::marker::Model;

/// A root vertex, and nodes that hang below it, each with a value.
#[derive(Drop)]
pub struct Tree {
    alloc: Global,
    root: u32,
    puts: PutCount,
    nodes: NodeMap,
    /// Each node with a value that it has or had, for the order in which they leave.
    dues: DueQueue<NodeId>,
}

impl Model for Tree {
    ghost use Rattle.delta_tree.specs.Nodes.{TreeValue};

    ghost Value = { TreeValue };

    ghost use Rattle.delta_tree.specs.Dues.{IsKept};

    ghost view = { λ tree. record {
      root = tree.root;
      nodes = tree.nodes;
      puts = tree.puts;
    } };

    ghost invariant = { λ tree. IsKept (record {
      root = tree.root;
      nodes = tree.nodes;
      puts = tree.puts;
    }) tree.dues.items };
}

impl Tree {
    /// A root without nodes. It takes memory with the first node.
    pub fn new(alloc: Global, root: u32) -> Result<Tree, Memory>
        ensures root { IfOk result (λ tree. tree.root ≡ root) }
        ensures empty { IfOk result (λ tree. tree.nodes ≡ []) }
        ensures puts { IfOk result (λ tree. tree.puts ≡ 0) }
    {
        Ok(Tree {
            alloc,
            root,
            puts: PutCount::new(),
            nodes: NodeMap::new(alloc),
            dues: DueQueue::new(alloc),
        })
    }

    /// The vertex of the root.
    pub fn root(&self) -> u32
        ensures root { result ≡ self.now.root }
        ensures tree { IsTree self.now }
    {
        self.root
    }

    /// The value of the node of this vertex with this state, or none where there is no such node,
    /// by one look-up.
    pub fn value_of(&self, v: u32, s: u32) -> Option<u64>
        ensures { result ≡ value_of self.now (node_id v s) }
    {
        let id = NodeId {
            vertex: v,
            state: s,
        };
        self.nodes.value_of(id)
    }

    /// The number of nodes, without the root. A walk over them goes from place 0 to below it.
    pub fn len(&self) -> usize
        ensures count { result ≡ length self.now.nodes }
        ensures walk { GivesNodes self.now }
    {
        self.nodes.len()
    }

    /// The node at this place.
    pub fn node_at(&self, k: usize) -> NodeId
        requires { k < length self.now.nodes }
        ensures { slice_get (ids_of self.now) k ≡ Some result }
    {
        self.nodes.id_at(k)
    }

    /// Hangs `step.to` below `step.from` by the edge, with this value; where it stands already, it
    /// leaves the place at which it hung. The value is at most that of `step.from` and above that
    /// of `step.to`. Its stamp is the number of puts made before. The only error is [`Memory`],
    /// after which nothing has changed.
    pub fn put(&mut self, step: Try, value: u64) -> Result<(), Memory>
        requires hangs { CanHang self.old step value }
        requires raises { Raises self.old step.to value }
        ensures node { OnOk result (Puts self.old self.new step.to (put_node self.old step value)) }
        ensures counted { OnOk result (self.new.puts ≡ self.old.puts + 1) }
        ensures root { self.new.root ≡ self.old.root }
        ensures unchanged { OnErr result (self.new ≡ self.old) }
    {
        self.put_at(self.find(step.to), step, value)
    }

    /// Hangs `step.to` below `step.from` by the edge, as [`Tree::put`] does, where this gives it a
    /// greater value than it has, and answers its values before and after; none where it has as
    /// much already. The only error is [`Memory`], after which nothing has changed.
    pub fn raise(&mut self, step: Try, value: u64) -> Result<Option<Shift>, Memory>
        requires hangs { CanHang self.old step value }
        ensures lifts { (shift : ShiftMade) → result ≡ Ok (Some shift) →
            Lifts self.old self.new step value shift }
        ensures stays { result ≡ Ok None → HasAsMuch self.old self.new step.to value }
        ensures root { self.new.root ≡ self.old.root }
        ensures unchanged { OnErr result (self.new ≡ self.old) }
    {
        let spot = self.find(step.to);
        let before = value_at(spot);
        if is_enough(before, value) {
            return Ok(None);
        }
        self.put_at(spot, step, value)?;
        Ok(Some(Shift {
            id: step.to,
            before,
            after: Some(value),
        }))
    }

    /// Where the node of this place stands, with its value.
    fn find(&self, id: NodeId) -> Option<Spot>
        ensures spot { MatchOption result (node_of self.now id ≡ None) (IsSpot self.now.nodes id) }
        ensures value { option_map (λ (spot : SpotMade). spot.value) result ≡ value_of self.now id }
    {
        self.nodes.find(id)
    }

    /// [`Tree::put`], where the target of the step stands at this spot, or nowhere.
    fn put_at(&mut self, spot: Option<Spot>, step: Try, value: u64) -> Result<(), Memory>
        requires spot { MatchOption spot (node_of self.old step.to ≡ None)
            (IsSpot self.old.nodes step.to) }
        requires hangs { CanHang self.old step value }
        requires raises { Raises self.old step.to value }
        ensures node { OnOk result (Puts self.old self.new step.to (put_node self.old step value)) }
        ensures counted { OnOk result (self.new.puts ≡ self.old.puts + 1) }
        ensures root { self.new.root ≡ self.old.root }
        ensures unchanged { OnErr result (self.new ≡ self.old) }
    {
        let node = Node {
            value,
            parent: step.from,
            edge: step.edge,
            stamp: self.puts.stamp(),
        };
        set_node(&mut self.nodes, &mut self.dues, spot, step.to, node)?;
        self.puts.add_one();
        Ok(())
    }

    /// Takes exactly the nodes out whose value is at most `now`. Where none is, this is one
    /// comparison, and else a step in a heap for each of them and for each raised node whose value
    /// before was at most `now`.
    pub fn expire(&mut self, now: u64)
        ensures gone { Expires self.old self.new now }
        ensures beside { IsSameBeside self.old self.new }
    {
        while let Some(next) = self.dues.next_due(now) {
            drop_or_note(&mut self.nodes, &mut self.dues, next.item, now);
        }
    }

    /// Takes exactly the nodes out whose value is at most `now`, as [`Tree::expire`] does, and
    /// makes the list that of their places, in the memory that it has. The only error is
    /// [`Memory`], after which they are out too.
    pub fn cut_due(&mut self, now: u64, shifts: &mut Vec<Shift>) -> Result<(), Memory>
        ensures due { OnOk result (AreDue self.old now (shift_ids shifts.new.items)) }
        ensures shifts { OnOk result (AreShifts self.old self.new shifts.new.items) }
        ensures gone { Expires self.old self.new now }
        ensures beside { IsSameBeside self.old self.new }
    {
        shifts.clear();
        // Where memory for the list is lacking, the nodes go all the same.
        let mut outcome = Ok(());
        while let Some(next) = self.dues.next_due(now) {
            let lost = drop_or_note(&mut self.nodes, &mut self.dues, next.item, now);
            outcome = add_loss(outcome, lost, shifts, next.item);
        }
        outcome
    }

    /// A number that no node's value is below, or none where there is no node, by one look at the
    /// heap: the least value that a node has, or had before it was raised.
    pub fn least(&self) -> Option<u64>
        ensures none { IfNone result (self.now.nodes ≡ []) }
        ensures floor { IfSome result (IsFloor self.now) }
    {
        self.dues.first_due()
    }

    /// Whether the node of this vertex with this state hangs by the edge, by one look-up.
    pub fn hangs_by(&self, v: u32, s: u32, edge: EdgeId) -> bool
        ensures { IsTrue result ↔ HangsBy self.now edge (node_id v s) }
    {
        let id = NodeId {
            vertex: v,
            state: s,
        };
        match self.nodes.get(id) {
            Some(link) => link.edge == edge,
            None => false,
        }
    }

    /// Whether the node of this place hangs below the parent by the edge, by one look-up.
    pub fn hangs_below(&self, id: NodeId, parent: NodeId, edge: EdgeId) -> bool
        ensures { IsTrue result ↔ HangsBelow self.now parent edge id }
    {
        match self.nodes.get(id) {
            Some(link) => link.edge == edge && link.parent == parent,
            None => false,
        }
    }

    /// The edges of the path from the root to the node of this vertex with this state, or none
    /// where there is no such node. This costs a look-up for each edge.
    pub fn path_to(&self, v: u32, s: u32) -> Result<Option<Vec<EdgeId>>, Memory>
        ensures none { IfOk result (λ found.
            (found ≡ None) ↔ (node_of self.now (node_id v s) ≡ None)) }
        ensures path { IfOk result (λ found. IfSome found (λ path.
            IsPathTo self.now (node_id v s) path.items)) }
    {
        let id = NodeId {
            vertex: v,
            state: s,
        };
        if !self.nodes.contains(id) {
            return Ok(None);
        }
        let mut path = self.way_up(id)?;
        path.reverse();
        Ok(Some(path))
    }

    /// The parent edges from a node up to the root, that of the node first.
    fn way_up(&self, id: NodeId) -> Result<Vec<EdgeId>, Memory>
        requires { IsSome (node_of self.now id) }
        ensures { IfOk result (λ up. LeadsUp self.now id up.items) }
    {
        let mut up = Vec::new(self.alloc);
        let mut at = id;
        while let Some(link) = self.nodes.get(at) {
            up.push(link.edge)?;
            at = link.parent;
        }
        Ok(up)
    }

    /// Takes exactly the nodes out on whose path from the root the edge stands, and answers them.
    /// The only error is [`Memory`], after which nothing has changed. This costs a step for each
    /// node of the tree, and where a node hangs by this edge, one for each edge of their paths;
    /// whoever knows which nodes these are calls [`Tree::cut_nodes`].
    pub fn cut_below(&mut self, edge: EdgeId) -> Result<Vec<NodeId>, Memory>
        ensures cut { IfOk result (λ cut. AreBelow self.old edge cut.items) }
        ensures gone { OnOk result (Cuts self.old self.new edge) }
        ensures beside { IsSameBeside self.old self.new }
        ensures unchanged { OnErr result (self.new ≡ self.old) }
    {
        let ids = self.below(edge)?;
        self.take(edge, &ids);
        Ok(ids)
    }

    /// Takes these nodes out, which are exactly those on whose path from the root the edge stands,
    /// and answers their places with the values that they had. This costs a look-up for each of
    /// them, however many others there are. The only error is [`Memory`], after which nothing has
    /// changed.
    pub fn cut_nodes(&mut self, edge: EdgeId, ids: &[NodeId]) -> Result<Vec<Shift>, Memory>
        requires { AreBelow self.old edge ids.now }
        ensures places { IfOk result (λ shifts. shift_ids shifts.items ≡ ids.now) }
        ensures shifts { IfOk result (λ shifts. AreShifts self.old self.new shifts.items) }
        ensures gone { OnOk result (Cuts self.old self.new edge) }
        ensures beside { IsSameBeside self.old self.new }
        ensures unchanged { OnErr result (self.new ≡ self.old) }
    {
        let shifts = self.losses(ids)?;
        self.take(edge, ids);
        Ok(shifts)
    }

    /// That none of these nodes stands there any more.
    fn losses(&self, ids: &[NodeId]) -> Result<Vec<Shift>, Memory>
        ensures { IfOk result (λ shifts. shifts.items ≡ losses self.now.nodes ids.now) }
    {
        losses(self.alloc, &self.nodes, ids)
    }

    /// Takes these nodes out, which are those on whose path from the root the edge stands.
    fn take(&mut self, edge: EdgeId, ids: &[NodeId])
        requires { AreBelow self.old edge ids.now }
        ensures gone { Cuts self.old self.new edge }
        ensures beside { IsSameBeside self.old self.new }
    {
        if ids.is_empty() {
            return;
        }
        take_out(&mut self.nodes, ids);
        forget_cut(&mut self.dues, &self.nodes);
    }

    /// The nodes on whose path from the root the edge stands.
    fn below(&self, edge: EdgeId) -> Result<Vec<NodeId>, Memory>
        ensures { IfOk result (λ ids. AreBelow self.now edge ids.items) }
    {
        if !self.nodes.has_edge(edge) {
            return Ok(Vec::new(self.alloc));
        }
        let below = self.set_below(edge)?;
        Ok(Vec::from_slice(self.alloc, below.as_slice())?)
    }

    /// The same nodes as a set.
    fn set_below(&self, edge: EdgeId) -> Result<IndexSet<NodeId>, Memory>
        ensures { IfOk result (λ ids. (id : NodeId) →
            Contains ids.keys id ↔ IsBelow self.now edge id) }
    {
        let mut below = IndexSet::new(self.alloc);
        for place in 0..self.nodes.len() {
            let id = self.nodes.id_at(place);
            if self.is_below(id, edge) {
                below.insert(id)?;
            }
        }
        Ok(below)
    }

    /// Whether the edge stands on the path from the root to the node of this place.
    fn is_below(&self, id: NodeId, edge: EdgeId) -> bool
        ensures { IsTrue result ↔ IsBelow self.now edge id }
    {
        let mut at = id;
        while let Some(link) = self.nodes.get(at) {
            if link.edge == edge {
                return true;
            }
            at = link.parent;
        }
        false
    }
}
