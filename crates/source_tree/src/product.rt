//! What the trees of best paths stand on.

ghost use Rattle.std.specs.Prelude.{◌≡◌, ◌≢◌, ◌↔◌, ℕ, [], Contains, IsTrue};
ghost use Rattle.delta_tree.specs.Nodes.{node_id};
ghost use Rattle.source_index.specs.Holders.{roots_at};
ghost use Rattle.source_tree.specs.Product.{AreFinals};

use dfa_table::Dfa;
use edge_store::EdgeStore;
use source_index::Holders;
use std::marker::Model;

/// The product graph of a store of edges and an automaton: its vertices are the vertices of the
/// store with the states of the automaton, and a tree of best paths is one of its trees.
///
/// Contracts see it as `ProductValue` of `specs/`.
#[derive(Drop)]
pub struct ProductGraph<'a> {
    pub store: &'a EdgeStore,
    pub dfa: &'a Dfa,
    /// The final states with which a node can stand.
    pub finals: &'a [u32],
    /// The roots of the trees that have a node at a place, as they were before the change.
    pub holders: &'a Holders,
}

impl<'a> Model for ProductGraph<'a> {
    ghost use Rattle.source_tree.specs.Product.{ProductValue, product_of};

    ghost Value = { ProductValue };

    ghost view = { λ product. product_of
        product.store.now product.dfa.now product.finals.now product.holders.now };
}

impl<'a> ProductGraph<'a> {
    /// The final states with which a node can stand.
    pub(crate) fn final_states(&self) -> &[u32]
        ensures { result.now ≡ self.now.finals }
    {
        self.finals
    }

    /// Whether the state is final, by one index into a table.
    pub(crate) fn is_final(&self, state: u32) -> bool
        requires { AreFinals self.now.dfa self.now.finals }
        ensures { IsTrue result ↔ Contains self.now.finals state }
    {
        if state >= self.dfa.states() {
            return false;
        }
        self.dfa.is_final(state)
    }

    /// The states with which some tree had a node at the vertex before the change.
    pub(crate) fn states_at(&self, vertex: u32) -> &[u32]
        ensures { (state : ℕ) → Contains result.now state
            ↔ (roots_at self.now.holders (node_id vertex state) ≢ []) }
    {
        self.holders.states_at(vertex)
    }
}
