//! For each vertex some others.

ghost use Rattle.std.specs.Prelude.{◌≡◌, ◌<◌, ◌↔◌, [], ℕ, List, true, length, Contains, OnOk, IfOk};
ghost use Rattle.std.specs.Prelude.{IfSome};
ghost use Rattle.std.specs.Prelude.{None, Some, slice_get, if◌then◌else◌};
ghost use Rattle.std.specs.Option.{option_map_or};
ghost use Rattle.rpq_base.specs.Same.{same_name};
ghost use Rattle.join_bindings.specs.Pairs.{Rows as RowsValue, row_of, AddsTo, TakesFrom, Sets};

use crate::vertex::Vertex;
use crate::vertex_set::VertexSet;
use indexmap::IndexMap;
use rpq_base::{KeyedHash, Memory, Name};
use std::alloc::Global;
use std::marker::Model;

/// For each vertex some others, its row. A vertex without others takes no room.
///
/// Contracts see the list of the rows, each with its vertex.
#[derive(Drop)]
pub(crate) struct VertexRows {
    alloc: Global,
    rows: IndexMap<Vertex, VertexSet, KeyedHash>,
}

impl Model for VertexRows {
    ghost use Rattle.rpq_base.specs.Same.{same_name};
    ghost use Rattle.std.specs.List.{IsDistinct};
    ghost use Rattle.std.specs.Map.{keys_of};
    ghost use Rattle.join_bindings.specs.Pairs.{Rows as RowsValue};

    ghost Value = { RowsValue };

    ghost view = { λ rows. rows.rows.entries };

    ghost invariant = { λ rows. IsDistinct same_name (keys_of rows.rows.entries) };
}

impl VertexRows {
    /// No rows.
    pub(crate) fn new(alloc: Global, hash: KeyedHash) -> VertexRows
        ensures { result ≡ [] }
    {
        VertexRows {
            alloc,
            rows: IndexMap::with_hasher(alloc, hash),
        }
    }

    /// The number of rows.
    pub(crate) fn len(&self) -> usize
        ensures { result ≡ length self.now }
    {
        self.rows.len()
    }

    /// The vertex at this place, and its row.
    pub(crate) fn at(&self, place: usize) -> (&Name, &[Vertex])
        requires { place < length self.now }
        ensures { slice_get self.now place ≡ Some (result.0.now, result.1.now) }
    {
        match self.rows.get_index(place) {
            Some((vertex, row)) => (vertex.name(), row.list()),
            None => unreachable!(),
        }
    }

    /// The row of the vertex.
    pub(crate) fn row(&self, vertex: &Name) -> &[Vertex]
        ensures { result.now ≡ row_of self.now vertex.now }
    {
        match self.rows.get(vertex.as_bytes()) {
            Some(row) => row.list(),
            None => &[],
        }
    }

    /// Whether the vertex has no others, by one look-up.
    pub(crate) fn is_bare(&self, vertex: &Name) -> bool
        ensures { (result ≡ true) ↔ (row_of self.now vertex.now ≡ []) }
    {
        self.row(vertex).is_empty()
    }

    /// Whether the row of the vertex has the other one, by two look-ups.
    pub(crate) fn has(&self, vertex: &Name, other: &Name) -> bool
        ensures { (result ≡ true) ↔ Contains (row_of self.now vertex.now) other.now }
    {
        match self.rows.get(vertex.as_bytes()) {
            Some(row) => row.contains(other),
            None => false,
        }
    }

    /// Takes the row of the vertex out. It is put back, if need be, by [`VertexRows::put`]: so a
    /// row is changed while nothing borrows it.
    fn take(&mut self, vertex: &Name) -> Option<(Vertex, VertexSet)>
        ensures key { IfSome result (λ taken. taken.0 ≡ vertex.now) }
        ensures row { option_map_or (λ taken. taken.1) result [] ≡ row_of self.old vertex.now }
        ensures rest { (other : List ℕ) → row_of self.new other
            ≡ (if same_name vertex.now other then [] else row_of self.old other) }
    {
        self.rows.swap_remove_entry(vertex.as_bytes())
    }

    /// Puts the row of the vertex in.
    fn put(&mut self, vertex: Vertex, row: VertexSet) -> Result<(), Memory>
        ensures { OnOk result ((other : List ℕ) → row_of self.new other
            ≡ (if same_name vertex other then row else row_of self.old other)) }
    {
        self.rows.insert(vertex, row)?;
        Ok(())
    }

    /// The row of the vertex, taken out, or an empty one.
    fn take_or_new(&mut self, vertex: &Name) -> Result<(Vertex, VertexSet), Memory>
        ensures key { IfOk result (λ taken. taken.0 ≡ vertex.now) }
        ensures row { IfOk result (λ taken. taken.1 ≡ row_of self.old vertex.now) }
        ensures rest { (other : List ℕ) → row_of self.new other
            ≡ (if same_name vertex.now other then [] else row_of self.old other) }
    {
        match self.take(vertex) {
            Some(taken) => Ok(taken),
            None => Ok((Vertex::of(vertex)?, VertexSet::new(self.alloc))),
        }
    }

    /// Puts the other vertex into the row of the vertex.
    fn add(&mut self, vertex: &Name, other: &Name) -> Result<(), Memory>
        ensures { OnOk result (AddsTo self.old self.new vertex.now other.now) }
    {
        let (key, mut row) = self.take_or_new(vertex)?;
        row.add(self.alloc, *self.rows.hasher(), other)?;
        self.put(key, row)
    }

    /// Takes the other vertex out of the row of the vertex.
    fn remove(&mut self, vertex: &Name, other: &Name) -> Result<(), Memory>
        ensures { OnOk result (TakesFrom self.old self.new vertex.now other.now) }
    {
        if let Some((key, mut row)) = self.take(vertex) {
            row.remove(other);
            if !row.is_empty() {
                self.put(key, row)?;
            }
        }
        Ok(())
    }

    /// Puts the other vertex into the row of the vertex, or takes it out.
    pub(crate) fn set(&mut self, vertex: &Name, other: &Name, added: bool) -> Result<(), Memory>
        ensures { OnOk result (Sets self.old self.new vertex.now other.now added) }
    {
        if added {
            self.add(vertex, other)?;
        } else {
            self.remove(vertex, other)?;
        }
        // Each vertex has one row.
        let _ = &self.rows;
        Ok(())
    }
}
