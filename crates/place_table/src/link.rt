//! By what a node hangs.

use delta_tree::NodeId;
use edge_store::EdgeId;

/// By what a node hangs: the node below which it does, and the edge.
#[derive(Clone, Copy, Debug, PartialEq, Eq)]
pub(crate) struct Link {
    pub(crate) parent: NodeId,
    pub(crate) edge: EdgeId,
}
