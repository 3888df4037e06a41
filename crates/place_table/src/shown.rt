//! The tree that is shown, as searches and removals see it.

ghost use Rattle.std.specs.Prelude.{◌≡◌, IfOk, None, ⊤};
ghost use Rattle.delta_tree.specs.declared.node.NodeId.{NodeId as NodeIdMade};
ghost use Rattle.delta_tree.specs.Changes.{AreBelow, Cuts};
ghost use Rattle.delta_tree.specs.Losses.{loss, losses};
ghost use Rattle.place_table.specs.Links.{IsSameBesideShown, nodes_beside};
ghost use Rattle.place_table.specs.Table.{node_at, tree_in, value_at};

use crate::table::PlaceTable;
use crate::taking::{take_all, take_out};
use delta_tree::{NodeId, PathTree, Shift, Try};
use edge_store::EdgeId;
use rpq_base::Memory;
use std::alloc::Global;

impl PlaceTable {
    /// The root whose tree is shown.
    pub fn shown(&self) -> u32
        ensures { result ≡ self.now.root }
    {
        self.root
    }

    /// That none of these nodes of the tree that is shown stands there any more.
    fn losses(&self, ids: &[NodeId]) -> Result<Vec<Shift>, Memory>
        ensures { IfOk result (λ shifts.
            shifts.items ≡ losses (tree_in self.now self.now.root).nodes ids.now) }
    {
        losses(self.alloc, self, ids)
    }

    /// Takes these nodes of the tree that is shown out, which are exactly those on whose path the
    /// edge stands.
    fn take(&mut self, edge: EdgeId, ids: &[NodeId])
        requires { AreBelow (tree_in self.old self.old.root) edge ids.now }
        ensures gone { Cuts (tree_in self.old self.old.root) (tree_in self.new self.new.root) edge }
        ensures beside { IsSameBesideShown self.old self.new }
    {
        take_out(&mut self.places, self.root, ids);
    }

    /// Takes all nodes of the tree that is shown out.
    fn take_shown(&mut self)
        ensures empty { (id : NodeIdMade) → node_at self.new self.new.root id ≡ None }
        ensures beside { IsSameBesideShown self.old self.new }
    {
        take_all(&mut self.places, self.root);
    }
}

/// That what stands there in the tree that is shown doesn't any more.
fn loss_of(table: &PlaceTable, id: NodeId) -> Shift
    ensures { result ≡ loss id (value_at table.now table.now.root id) }
{
    Shift {
        id,
        before: table.value_at(table.shown(), id),
        after: None,
    }
}

/// That none of these nodes of the tree that is shown stands there any more.
fn losses(alloc: Global, table: &PlaceTable, ids: &[NodeId]) -> Result<Vec<Shift>, Memory>
    ensures { IfOk result (λ shifts.
        shifts.items ≡ losses (tree_in table.now table.now.root).nodes ids.now) }
{
    Ok(ids.iter().map(|id| loss_of(table, *id)).collect(alloc)?)
}

/// Beside it are the nodes of all other roots. A walk would go over all places, so none is offered.
impl PathTree for PlaceTable {
    ghost tree = { λ table. tree_in table table.root };

    ghost beside = { λ table root id. nodes_beside table root id };

    ghost can_be_walked = { λ table. ⊤ };

    fn root(&self) -> u32 {
        self.has_trees(); // called for its clause
        self.shown()
    }

    fn value_of(&self, v: u32, s: u32) -> Option<u64> {
        let id = NodeId {
            vertex: v,
            state: s,
        };
        self.value_at(self.shown(), id)
    }

    fn hangs_below(&self, id: NodeId, parent: NodeId, edge: EdgeId) -> bool {
        PlaceTable::hangs_below(self, self.shown(), id, parent, edge)
    }

    fn raise(&mut self, step: Try, value: u64) -> Result<Option<Shift>, Memory> {
        self.lift(self.shown(), step, value)
    }

    fn cut_nodes(&mut self, edge: EdgeId, ids: &[NodeId]) -> Result<Vec<Shift>, Memory> {
        let shifts = self.losses(ids)?;
        self.take(edge, ids);
        Ok(shifts)
    }

    fn cut_all(&mut self) {
        self.take_shown();
    }

    fn walk_len(&self) -> Option<usize> {
        None
    }

    fn node_at(&self, k: usize) -> NodeId {
        match self.places.id_behind(self.root, k) {
            Some(id) => id,
            None => unreachable!(),
        }
    }
}
