//! A tree by itself, as searches and removals see it.

ghost use Rattle.std.specs.Prelude.{ℕ, Option, None, ⊤};
ghost use Rattle.delta_tree.specs.declared.node.NodeId.{NodeId};
ghost use Rattle.delta_tree.specs.Nodes.{Node};

use crate::node::{NodeId, Shift, Try};
use crate::path_tree::PathTree;
use crate::tree::Tree;
use edge_store::EdgeId;
use rpq_base::Memory;

/// Nothing is beside it, and a walk goes over its nodes.
impl PathTree for Tree {
    ghost tree = { λ tree. tree };

    ghost beside = { λ tree root id. None };

    ghost can_be_walked = { λ tree. ⊤ };

    fn root(&self) -> u32 {
        Tree::root(self)
    }

    fn value_of(&self, v: u32, s: u32) -> Option<u64> {
        Tree::value_of(self, v, s)
    }

    fn hangs_below(&self, id: NodeId, parent: NodeId, edge: EdgeId) -> bool {
        Tree::hangs_below(self, id, parent, edge)
    }

    fn raise(&mut self, step: Try, value: u64) -> Result<Option<Shift>, Memory> {
        Tree::raise(self, step, value)
    }

    fn cut_nodes(&mut self, edge: EdgeId, ids: &[NodeId]) -> Result<Vec<Shift>, Memory> {
        Tree::cut_nodes(self, edge, ids)
    }

    fn cut_all(&mut self) {
        Tree::root(self); // called for its clause
        self.expire(u64::MAX);
    }

    fn walk_len(&self) -> Option<usize> {
        Some(self.len())
    }

    fn node_at(&self, k: usize) -> NodeId {
        Tree::node_at(self, k)
    }
}
