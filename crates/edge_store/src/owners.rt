//! The vertices to which rows were given.

use due_queue::give_back;
use rpq_base::Memory;
use std::alloc::Global;

/// For each row the vertex to which it was given, the place that was looked at last for a row
/// without edges, after the clock algorithm of page replacement, and how many rows are without
/// edges.
///
/// Whoever uses what it says has to see that the vertex has the row, and that the row has no edges:
/// no contract binds it. A wrong number of rows costs time or room alone.
#[derive(Drop)]
pub(crate) struct Owners {
    vertices: Vec<u32>,
    hand: usize,
    /// How many rows have no edges.
    bare: usize,
}

impl Owners {
    /// No rows. Takes no memory.
    pub(crate) fn new(alloc: Global) -> Owners {
        Owners {
            vertices: Vec::new(alloc),
            hand: 0,
            bare: 0,
        }
    }

    /// The vertex to which the row at this place was given.
    pub(crate) fn get(&self, at: usize) -> Option<u32> {
        self.vertices.get(at).copied()
    }

    /// The next place, after the last one the first.
    pub(crate) fn next_place(&mut self) -> usize {
        let next = self.hand.wrapping_add(1);
        self.hand = if next < self.vertices.len() { next } else { 0 };
        self.hand
    }

    /// Whether some row has no edges.
    pub(crate) fn has_bare(&self) -> bool {
        self.bare > 0
    }

    /// A row has this many edges now, where it had that many before.
    pub(crate) fn note_edges(&mut self, before: usize, after: usize) {
        if before == 0 && after > 0 {
            self.bare = self.bare.saturating_sub(1);
        }
        if before > 0 && after == 0 {
            self.bare = self.bare.saturating_add(1);
        }
    }

    /// The row at this place, behind all others and without edges, is given to the vertex.
    pub(crate) fn add(&mut self, at: usize, vertex: u32) -> Result<(), Memory> {
        self.vertices.truncate(at);
        self.vertices.push(vertex)?;
        self.bare = self.bare.saturating_add(1);
        Ok(())
    }

    /// The row at this place is given to another vertex.
    pub(crate) fn set(&mut self, at: usize, vertex: u32) {
        if let Some(owner) = self.vertices.get_mut(at) {
            *owner = vertex;
        }
    }

    /// Only so many rows are left. Those behind them had no edges.
    pub(crate) fn keep(&mut self, count: usize) {
        let gone = self.vertices.len().saturating_sub(count);
        self.bare = self.bare.saturating_sub(gone);
        self.vertices.truncate(count);
        give_back(&mut self.vertices);
    }

    /// There are no rows any more.
    pub(crate) fn clear(&mut self) {
        self.vertices.clear();
        self.bare = 0;
    }
}
