//! A root at a place.

use delta_tree::NodeId;

/// A root at a place.
#[derive(Clone, Copy, Debug, PartialEq, Eq)]
pub(crate) struct Spot {
    pub(crate) root: u32,
    pub(crate) id: NodeId,
}
