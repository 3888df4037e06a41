//! What roots gain and lose.

use delta_tree::NodeId;

/// A root that gains: up to what value, and the value that it had before, or none.
#[derive(Clone, Copy, Debug, PartialEq, Eq)]
pub struct Gain {
    pub root: u32,
    pub cap: u64,
    pub before: Option<u64>,
}

/// A root that lost its node at a place, with the value that this had.
#[derive(Clone, Copy, Debug, PartialEq, Eq)]
pub struct Lost {
    pub root: u32,
    pub id: NodeId,
    pub before: u64,
}
