//! Tries that wait.

ghost use Rattle.std.specs.Prelude.{◌≡◌};
ghost use Rattle.tree_insert.specs.Waiting.{try_of};

use delta_tree::{NodeId, Try};
use edge_store::EdgeId;

/// A try with the value that it would give its target. The greatest value comes first.
///
/// Source and target stand at the ends of the edge, so their states alone are kept.
#[derive(Clone, Copy, Debug, PartialEq, Eq, PartialOrd, Ord)]
pub(crate) struct Waiting {
    pub(crate) value: u64,
    pub(crate) edge: EdgeId,
    pub(crate) before: u32,
    pub(crate) state: u32,
}

impl Waiting {
    /// The step that it takes.
    pub(crate) fn step(self) -> Try
        ensures { result ≡ try_of self }
    {
        let from = NodeId {
            vertex: self.edge.from,
            state: self.before,
        };
        let to = NodeId {
            vertex: self.edge.to,
            state: self.state,
        };
        Try {
            from,
            edge: self.edge,
            to,
        }
    }
}

/// A node that got a value, with the value that it had before.
#[derive(Clone, Copy)]
pub(crate) struct Rise {
    pub(crate) id: NodeId,
    pub(crate) before: Option<u64>,
    pub(crate) value: u64,
}
