//! The roots of the trees that have a node at a place.

ghost use Rattle.std.specs.Prelude.{◌≡◌, ◌≢◌, ◌↔◌, ℕ, [], nat_eq, slice_get, Some, Contains, IfSome, OnSome, OnOk, OnErr};
ghost use Rattle.std.specs.List.{IsDistinct};
ghost use Rattle.delta_tree.specs.Nodes.{node_id};
ghost use Rattle.source_index.specs.Holders.{AddsHolder, DropsHolder, HoldsSame, roots_at, vertex_at};
ghost use Rattle.source_index.specs.Vertex.{IsRising, RootsByState};

use crate::memory::give_back;
use crate::vertex::VertexRoots;
use delta_tree::NodeId;
use indexmap::IndexMap;
use rpq_base::Memory;
use std::alloc::Global;
use std::marker::Model;

/// For each vertex with a state the set of the roots whose trees have a node there, by the vertex
/// and then by the state.
#[derive(Drop)]
pub struct Holders {
    alloc: Global,
    vertices: IndexMap<u32, VertexRoots>,
}

impl Model for Holders {
    ghost use Rattle.source_index.specs.Holders.{HoldersValue};

    ghost Value = { HoldersValue };

    ghost view = { λ holders. holders.vertices.entries };
}

/// Takes the root out of the set of the place. Answers the index of the vertex where this has no
/// root then.
fn take_out(vertices: &mut IndexMap<u32, VertexRoots>, id: NodeId, root: u32) -> Option<usize>
    ensures dropped { DropsHolder vertices.old.entries vertices.new.entries id root }
    ensures bare { OnSome result (vertex_at vertices.new.entries id.vertex ≡ []) }
    ensures at { IfSome result (λ index. (places : RootsByState)
        × (slice_get vertices.new.entries index ≡ Some (id.vertex, places))) }
{
    let index = vertices.get_index_of(&id.vertex)?;
    let places = vertices.get_index_mut(index)?;
    places.remove(id.state, root);
    if places.is_empty() {
        return Some(index);
    }
    None
}

impl Holders {
    /// No root is held. Takes no memory.
    pub fn new(alloc: Global) -> Holders
        ensures { result ≡ [] }
    {
        Holders {
            alloc,
            vertices: IndexMap::new(alloc),
        }
    }

    /// The roots that are held at the place, each once, by one look-up of the vertex and a binary
    /// search among its states.
    pub fn at(&self, id: NodeId) -> &[u32]
        ensures roots { result.now ≡ roots_at self.now id }
        ensures once { IsDistinct nat_eq result.now }
    {
        match self.vertices.get(&id.vertex) {
            Some(places) => places.at(id.state),
            None => &[],
        }
    }

    /// The states with which some root is held at the vertex, in rising order, by one look-up.
    pub fn states_at(&self, vertex: u32) -> &[u32]
        ensures exact { (state : ℕ) →
            Contains result.now state ↔ (roots_at self.now (node_id vertex state) ≢ []) }
        ensures rising { IsRising result.now }
    {
        match self.vertices.get(&vertex) {
            Some(places) => places.states(),
            None => &[],
        }
    }

    /// Holds the root at the place. The only error is [`Memory`], after which the same roots are
    /// held as before.
    pub fn add(&mut self, id: NodeId, root: u32) -> Result<(), Memory>
        ensures added { OnOk result (AddsHolder self.old self.new id root) }
        ensures unchanged { OnErr result (HoldsSame self.old self.new) }
    {
        let alloc = self.alloc;
        let places = self.vertices.entry(id.vertex)?.or_insert_with(
            ||
                ensures { result ≡ [] }
            { VertexRoots::new(alloc) },
        );
        places.add(id.state, root)
    }

    /// Holds the root at the place no more. A place without roots is forgotten, and a vertex
    /// without places. Memory is given back where most of it isn't used any more.
    pub fn drop(&mut self, id: NodeId, root: u32)
        ensures { DropsHolder self.old self.new id root }
    {
        if let Some(index) = take_out(&mut self.vertices, id, root) {
            self.vertices.swap_remove_index(index);
            give_back(&mut self.vertices);
        }
    }

    /// Holds no root any more.
    pub fn clear(&mut self)
        ensures { self.new ≡ [] }
    {
        self.vertices.clear();
    }
}
