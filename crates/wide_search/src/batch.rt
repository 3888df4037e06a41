//! Gains that wait.

ghost use Rattle.std.specs.Prelude.{◌≡◌};
ghost use Rattle.wide_search.specs.Batches.{try_of};

use delta_tree::{NodeId, Try};
use edge_store::EdgeId;

/// Gains that wait to be taken on by an edge, from place `low` to before `high` of a list, and the
/// width up to which this edge can take them. The greatest width comes first.
///
/// Source and target stand at the ends of the edge, so their states alone are kept.
#[derive(Clone, Copy, Debug, PartialEq, Eq, PartialOrd, Ord)]
pub(crate) struct Batch {
    pub(crate) width: u64,
    pub(crate) edge: EdgeId,
    pub(crate) before: u32,
    pub(crate) state: u32,
    pub(crate) low: usize,
    pub(crate) high: usize,
}

impl Batch {
    /// The step that it takes.
    pub(crate) fn step(self) -> Try
        ensures { result ≡ try_of self }
    {
        let from = NodeId {
            vertex: self.edge.from,
            state: self.before,
        };
        let to = NodeId {
            vertex: self.edge.to,
            state: self.state,
        };
        Try {
            from,
            edge: self.edge,
            to,
        }
    }
}
