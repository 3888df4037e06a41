//! Edges, as a store takes and gives them.

ghost use Rattle.std.specs.Prelude.{◌≡◌};
ghost use Rattle.edge_store.specs.Edges.{out_half, in_half};

/// An edge: the numbers of the vertex that it leaves, of its label, and of the vertex at which it
/// ends.
#[derive(Clone, Copy, Debug, PartialEq, Eq, PartialOrd, Ord, Hash)]
pub struct EdgeId {
    pub from: u32,
    pub label: u32,
    pub to: u32,
}

impl EdgeId {
    /// The edge as the vertex that it leaves sees it.
    pub fn out_half(self) -> HalfEdge
        ensures { result ≡ out_half self }
    {
        HalfEdge {
            label: self.label,
            far: self.to,
        }
    }

    /// The edge as the vertex at which it ends sees it.
    pub fn in_half(self) -> HalfEdge
        ensures { result ≡ in_half self }
    {
        HalfEdge {
            label: self.label,
            far: self.from,
        }
    }
}

/// An edge as one of its vertices sees it: its label, and the vertex at the far end.
#[derive(Clone, Copy, Debug, Default, PartialEq, Eq, Hash)]
pub struct HalfEdge {
    pub label: u32,
    pub far: u32,
}

/// An edge that leaves a vertex, with its value.
#[derive(Clone, Copy, Debug, PartialEq, Eq)]
pub struct Out {
    pub label: u32,
    pub to: u32,
    pub value: u64,
}

/// An edge that ends at a vertex, with its value.
#[derive(Clone, Copy, Debug, PartialEq, Eq)]
pub struct In {
    pub label: u32,
    pub from: u32,
    pub value: u64,
}

/// What a raise did to an edge: its value before, where it had one, and its value after.
#[derive(Clone, Copy, Debug, PartialEq, Eq)]
pub struct Raised {
    pub before: Option<u64>,
    pub after: u64,
}
