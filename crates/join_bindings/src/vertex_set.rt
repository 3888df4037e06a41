//! Sets of vertices.

ghost use Rattle.std.specs.Prelude.{◌≡◌, ◌↔◌, ◌⊎◌, [], ℕ, List, true, not, Contains, IfOk, OnOk};
ghost use Rattle.rpq_base.specs.Same.{same_name};

use crate::vertex::Vertex;
use indexmap::IndexSet;
use rpq_base::{KeyedHash, Memory, Name};
use std::alloc::Global;
use std::marker::Model;

/// The most vertices that are found by going through them.
const FEW: usize = 8;

/// Some vertices: a few in a list, many by their hashes. Most vertices stand in pairs with a few
/// others alone, and a list of these takes a fifth of the memory.
///
/// Contracts see the list of them.
#[derive(Drop)]
pub(crate) struct VertexSet {
    few: Vec<Vertex>,
    many: Option<Box<IndexSet<Vertex, KeyedHash>>>,
}

impl Model for VertexSet {
    ghost use Rattle.std.specs.Prelude.{List, ℕ};
    ghost use Rattle.std.specs.Option.{option_map_or};

    ghost Value = { List (List ℕ) };

    ghost view = { λ set. option_map_or (λ many. many.value.keys) set.many set.few.items };
}

/// Whether the vertex is among these.
fn is_among(few: &[Vertex], name: &Name) -> bool
    ensures { (result ≡ true) ↔ Contains few.now name.now }
{
    few.iter().any(|each| *name == *each.name())
}

/// Makes room for one more vertex, in an empty list for one alone.
fn make_room(few: &mut Vec<Vertex>) -> Result<(), Memory>
    ensures { few.new.items ≡ few.old.items }
{
    if few.len() == few.capacity() {
        few.reserve_exact(few.len().max(1))?;
    }
    Ok(())
}

/// Puts the vertex behind these, if it isn't among them.
fn put_among(few: &mut Vec<Vertex>, name: &Name) -> Result<(), Memory>
    ensures { OnOk result ((other : List ℕ) → Contains few.new.items other
        ↔ (Contains few.old.items other ⊎ (name.now ≡ other))) }
{
    if is_among(few, name) {
        return Ok(());
    }
    make_room(few)?;
    few.push(Vertex::of(name)?)?;
    Ok(())
}

/// Takes the vertex out of these.
fn take_out(few: &mut Vec<Vertex>, name: &Name)
    ensures { (other : List ℕ) → Contains few.new.items other
        ↔ (Contains few.old.items other × (name.now ≡ other → ⊥)) }
{
    few.retain(|each| differs(name, each));
}

/// Whether the vertex has another name.
fn differs(name: &Name, vertex: &Vertex) -> bool
    ensures { result ≡ not (same_name name.now vertex.now) }
{
    *name != *vertex.name()
}

/// Puts the vertex to those that are found by their hashes.
fn insert(many: &mut IndexSet<Vertex, KeyedHash>, name: &Name) -> Result<(), Memory>
    ensures { OnOk result ((other : List ℕ) → Contains many.new.keys other
        ↔ (Contains many.old.keys other ⊎ (name.now ≡ other))) }
{
    many.insert(Vertex::of(name)?)?;
    Ok(())
}

/// These vertices, found by their hashes.
fn hashed(
    alloc: Global,
    hash: KeyedHash,
    few: &[Vertex],
) -> Result<IndexSet<Vertex, KeyedHash>, Memory>
    ensures { IfOk result (λ many. (other : List ℕ) →
        Contains many.keys other ↔ Contains few.now other) }
{
    let mut many = IndexSet::with_hasher(alloc, hash);
    for vertex in few {
        insert(&mut many, vertex.name())?;
    }
    Ok(many)
}

impl VertexSet {
    /// No vertices, which take no memory.
    pub(crate) fn new(alloc: Global) -> VertexSet
        ensures { result ≡ [] }
    {
        VertexSet {
            few: Vec::new(alloc),
            many: None,
        }
    }

    /// The vertices.
    pub(crate) fn list(&self) -> &[Vertex]
        ensures { result.now ≡ self.now }
    {
        match &self.many {
            Some(many) => many.as_slice(),
            None => &self.few,
        }
    }

    /// Whether there are none.
    pub(crate) fn is_empty(&self) -> bool
        ensures { (result ≡ true) ↔ (self.now ≡ []) }
    {
        self.list().is_empty()
    }

    /// Whether the vertex is there, by one look-up or by going through a few.
    pub(crate) fn contains(&self, name: &Name) -> bool
        ensures { (result ≡ true) ↔ Contains self.now name.now }
    {
        match &self.many {
            Some(many) => many.contains(name.as_bytes()),
            None => is_among(&self.few, name),
        }
    }

    /// Puts the vertex in.
    pub(crate) fn add(&mut self, alloc: Global, hash: KeyedHash, name: &Name) -> Result<(), Memory>
        ensures { OnOk result ((other : List ℕ) → Contains self.new other
            ↔ (Contains self.old other ⊎ (name.now ≡ other))) }
    {
        match &mut self.many {
            Some(many) => insert(many, name),
            None if self.few.len() < FEW => put_among(&mut self.few, name),
            None => {
                let mut many = hashed(alloc, hash, &self.few)?;
                insert(&mut many, name)?;
                self.many = Some(Box::new(alloc, many)?);
                self.few = Vec::new(alloc);
                Ok(())
            }
        }
    }

    /// Takes the vertex out. Another one may come into its place.
    pub(crate) fn remove(&mut self, name: &Name)
        ensures { (other : List ℕ) → Contains self.new other
            ↔ (Contains self.old other × (name.now ≡ other → ⊥)) }
    {
        match &mut self.many {
            Some(many) => {
                many.swap_remove(name.as_bytes());
            }
            None => take_out(&mut self.few, name),
        }
    }
}
