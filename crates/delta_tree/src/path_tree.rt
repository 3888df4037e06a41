//! What searches and removals need of a tree.

ghost use Rattle.std.specs.Prelude.{◌≡◌, ℕ, ◌<◌, ◌↔◌, length, slice_get, Option, None, Some, Ok};
ghost use Rattle.std.specs.Prelude.{IfOk, IfSome, IsSome, IsTrue, OnErr, OnOk};
ghost use Rattle.delta_tree.specs.declared.node.NodeId.{NodeId};
ghost use Rattle.delta_tree.specs.declared.node.Shift.{Shift as ShiftMade};
ghost use Rattle.delta_tree.specs.Nodes.{Node, TreeValue, IsTree, GivesNodes};
ghost use Rattle.delta_tree.specs.Nodes.{node_id, node_of, value_of, ids_of};
ghost use Rattle.delta_tree.specs.Paths.{HangsBelow};
ghost use Rattle.delta_tree.specs.Changes.{AreBelow, AreShifts, CanHang, Cuts, HasAsMuch};
ghost use Rattle.delta_tree.specs.Changes.{IsSameBeside, Lifts, shift_ids};

use crate::node::{NodeId, Shift, Try};
use edge_store::EdgeId;
use rpq_base::Memory;

/// A root vertex, and nodes that hang below it, each with a value: a tree by itself, or one that is
/// kept with those of other roots.
///
/// Contracts see the `tree`, and what there is `beside` it, which no call changes: the nodes of
/// other roots, by root and place. A tree that `can_be_walked` gives its nodes one after another.
pub trait PathTree {
    ghost tree: { Self → TreeValue };

    ghost beside: { Self → ℕ → NodeId → Option Node };

    ghost can_be_walked: { Self → Type 0 };

    /// The vertex of the root.
    fn root(&self) -> u32
        ensures root { result ≡ (tree self.now).root }
        ensures tree { IsTree (tree self.now) };

    /// The value of the node of this vertex with this state, or none where there is no such node.
    fn value_of(&self, v: u32, s: u32) -> Option<u64>
        ensures { result ≡ value_of (tree self.now) (node_id v s) };

    /// Whether the node of this place hangs below the parent by the edge.
    fn hangs_below(&self, id: NodeId, parent: NodeId, edge: EdgeId) -> bool
        ensures { IsTrue result ↔ HangsBelow (tree self.now) parent edge id };

    /// Hangs `step.to` below `step.from` by the edge, with this value, where this gives it a
    /// greater value than it has, and answers its values before and after; none where it has as
    /// much already. The only error is [`Memory`], after which nothing has changed.
    fn raise(&mut self, step: Try, value: u64) -> Result<Option<Shift>, Memory>
        requires hangs { CanHang (tree self.old) step value }
        ensures lifts { (shift : ShiftMade) → result ≡ Ok (Some shift) →
            Lifts (tree self.old) (tree self.new) step value shift }
        ensures stays { result ≡ Ok None →
            HasAsMuch (tree self.old) (tree self.new) step.to value }
        ensures root { (tree self.new).root ≡ (tree self.old).root }
        ensures unchanged { OnErr result (tree self.new ≡ tree self.old) }
        ensures beside { beside self.new ≡ beside self.old };

    /// Takes these nodes out, which are exactly those on whose path from the root the edge stands,
    /// and answers their places with the values that they had. The only error is [`Memory`], after
    /// which nothing has changed.
    fn cut_nodes(&mut self, edge: EdgeId, ids: &[NodeId]) -> Result<Vec<Shift>, Memory>
        requires { AreBelow (tree self.old) edge ids.now }
        ensures places { IfOk result (λ shifts. shift_ids shifts.items ≡ ids.now) }
        ensures shifts { IfOk result
            (λ shifts. AreShifts (tree self.old) (tree self.new) shifts.items) }
        ensures gone { OnOk result (Cuts (tree self.old) (tree self.new) edge) }
        ensures same { IsSameBeside (tree self.old) (tree self.new) }
        ensures unchanged { OnErr result (tree self.new ≡ tree self.old) }
        ensures beside { beside self.new ≡ beside self.old };

    /// Takes all nodes out.
    fn cut_all(&mut self)
        ensures empty { (id : NodeId) → node_of (tree self.new) id ≡ None }
        ensures same { IsSameBeside (tree self.old) (tree self.new) }
        ensures beside { beside self.new ≡ beside self.old };

    /// The number of nodes, where they can be walked, from place 0 to below this number.
    fn walk_len(&self) -> Option<usize>
        ensures count { IfSome result (λ count. count ≡ length (tree self.now).nodes) }
        ensures walk { IsSome result → can_be_walked self.now × GivesNodes (tree self.now) };

    /// The node at this place of a walk.
    fn node_at(&self, k: usize) -> NodeId
        requires walk { can_be_walked self.now }
        requires within { k < length (tree self.now).nodes }
        ensures { slice_get (ids_of (tree self.now)) k ≡ Some result };
}
