//! Changes of a store of edges, and of ends.

ghost use Rattle.std.specs.Prelude.{◌≡◌};
ghost use Rattle.source_tree.specs.Ends.{is_gain};

use edge_store::EdgeId;

/// A change of a store of edges with values.
#[derive(Clone, Copy, Debug, PartialEq, Eq)]
pub enum Change {
    /// The value of the edge becomes the greater of its own and this one; an edge that the store
    /// hasn't got comes in.
    Raise { edge: EdgeId, value: u64 },
    /// The edge goes.
    Remove(EdgeId),
    /// The edges whose value is at most this number go.
    Expire(u64),
}

/// What becomes of an end that comes or goes.
#[derive(Clone, Copy, Debug, PartialEq, Eq)]
pub enum Outcome {
    /// It was there before, and isn't after.
    Lost,
    /// It wasn't there before, and is after.
    Gained,
}

impl Outcome {
    /// Whether the end comes.
    pub fn is_gain(self) -> bool
        ensures { result ≡ is_gain self }
    {
        match self {
            Self::Lost => false,
            Self::Gained => true,
        }
    }
}

/// An end that comes or goes: that of a vertex, as seen from a root.
#[derive(Clone, Copy, Debug, PartialEq, Eq)]
pub struct EndChange {
    pub root: u32,
    pub vertex: u32,
    pub outcome: Outcome,
}

/// A vertex that a root reaches, with its end.
#[derive(Clone, Copy, Debug, PartialEq, Eq)]
pub struct Reached {
    pub vertex: u32,
    pub value: u64,
}
