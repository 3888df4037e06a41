//! Edges as the keys of a hashed map.

ghost use Rattle.std.specs.Prelude.{◌≡◌, fold};
ghost use Rattle.path_witness.specs.Keys.{edge_input};

use indexmap::Equivalent;
use rpq_base::Edge;
use std::hash::{Hash, Hasher};
use std::marker::Model;

/// Feeds the parts of an edge to a hasher, with a byte between them that no name has.
fn feed<H: Hasher>(edge: &Edge, state: &mut H)
    ensures { state.new ≡ fold H.write state.old (edge_input edge.now) }
{
    state.write(edge.from.as_bytes());
    state.write(b" ");
    state.write(edge.label.name.as_bytes());
    state.write(b" ");
    state.write(edge.to.as_bytes());
}

/// An edge that is a key. Contracts see it as the edge.
#[derive(Drop)]
pub(crate) struct KeptEdge {
    pub(crate) edge: Edge,
}

impl Model for KeptEdge {
    ghost use Rattle.rpq_base.specs.declared.data.Edge.{Edge};

    ghost Value = { Edge };

    ghost view = { λ kept. kept.edge };
}

impl PartialEq for KeptEdge {
    ghost use Rattle.rpq_base.specs.Same.{same_edge};
    ghost use Rattle.path_witness.specs.Keys.{edges_per};

    ghost eq = { same_edge };

    ghost laws = { edges_per };

    fn eq(&self, other: &KeptEdge) -> bool {
        self.edge == other.edge
    }
}

impl Eq for KeptEdge {
    ghost use Rattle.path_witness.specs.Keys.{edges_equivalence};

    ghost laws = { edges_equivalence };
}

impl Hash for KeptEdge {
    ghost use Rattle.path_witness.specs.Keys.{same_input};
    ghost use Rattle.path_witness.specs.Keys.{edge_input};

    ghost hash_input = { edge_input };

    ghost respects_eq = { same_input };

    fn hash<H: Hasher>(&self, state: &mut H) {
        feed(&self.edge, state);
    }
}

/// An edge that is looked up among keys.
#[derive(Clone, Copy)]
pub(crate) struct SearchKey<'a> {
    pub(crate) edge: &'a Edge,
}

impl<'a> PartialEq for SearchKey<'a> {
    ghost use Rattle.rpq_base.specs.Same.{same_edge};
    ghost use Rattle.std.specs.Cmp.{on_per};
    ghost use Rattle.path_witness.specs.Keys.{edges_per};

    ghost eq = { λ x y. same_edge x.edge.now y.edge.now };

    ghost laws = { on_per (λ sought. sought.edge.now) edges_per };

    fn eq(&self, other: &SearchKey<'a>) -> bool {
        *self.edge == *other.edge
    }
}

impl<'a> Eq for SearchKey<'a> {
    ghost use Rattle.std.specs.Cmp.{on_equiv};
    ghost use Rattle.path_witness.specs.Keys.{edges_equivalence};

    ghost laws = { on_equiv (λ sought. sought.edge.now) edges_equivalence };
}

impl<'a> Hash for SearchKey<'a> {
    ghost use Rattle.path_witness.specs.Keys.{same_input};
    ghost use Rattle.path_witness.specs.Keys.{edge_input};

    ghost hash_input = { λ sought. edge_input sought.edge.now };

    ghost respects_eq = { λ x y. same_input x.edge.now y.edge.now };

    fn hash<H: Hasher>(&self, state: &mut H) {
        feed(self.edge, state);
    }
}

impl<'a> Equivalent<KeptEdge> for SearchKey<'a> {
    ghost use Rattle.rpq_base.specs.Same.{same_edge};
    ghost use Rattle.path_witness.specs.Keys.{same_input, same_as_other};

    ghost equivalent = { λ sought kept. same_edge sought.edge.now kept };

    ghost respects_hash = { λ sought kept. same_input sought.edge.now kept };

    ghost respects_eq = { λ sought x y. same_as_other sought.edge.now x y };

    fn equivalent(&self, key: &KeptEdge) -> bool {
        *self.edge == key.edge
    }
}
