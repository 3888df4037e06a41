//! Nodes of a tree, and steps by which they come in.

use crate::stamp::Stamp;
use edge_store::EdgeId;

/// Where a node stands: at a vertex, with the state to which the path from the root leads the
/// automaton. The root of a tree stands at its vertex with the state 0; no node has this state.
#[derive(Clone, Copy, Debug, PartialEq, Eq, PartialOrd, Ord, Hash)]
pub struct NodeId {
    pub vertex: u32,
    pub state: u32,
}

/// A step by which a node may hang below another: the edge goes from the vertex of `from` to that
/// of `to`.
#[derive(Clone, Copy, Debug, PartialEq, Eq)]
pub struct Try {
    pub from: NodeId,
    pub edge: EdgeId,
    pub to: NodeId,
}

/// A place whose node changed: the value of the node that stood there before, and of the one that
/// stands there after; none where no node does.
#[derive(Clone, Copy, Debug, PartialEq, Eq)]
pub struct Shift {
    pub id: NodeId,
    pub before: Option<u64>,
    pub after: Option<u64>,
}

/// Steps that wait to be taken.
#[derive(Debug, Drop)]
pub struct Pending {
    pub tries: Vec<Try>,
}

/// What a tree keeps of a node: its value, the node below which it hangs and the edge by which it
/// does, and as its stamp the number of puts that were made before it got these.
#[derive(Drop)]
pub struct Node {
    pub value: u64,
    pub parent: NodeId,
    pub edge: EdgeId,
    pub stamp: Stamp,
}

/// By what a node hangs: the node below which it does, and the edge.
#[derive(Clone, Copy, Debug, PartialEq, Eq)]
pub struct Link {
    pub parent: NodeId,
    pub edge: EdgeId,
}
