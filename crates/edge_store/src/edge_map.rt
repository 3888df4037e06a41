//! The edges of one vertex that are found by hash, where it has such edges.

ghost use Rattle.std.specs.Prelude.{◌≡◌, ◌<◌, ◌≤◌, ◌^◌, ◌⊎◌, [], true, max, length, cond, is_some, OnOk, None, Some, slice_get};
ghost use Rattle.std.specs.Map.{lookup};
ghost use Rattle.indexmap.specs.IndexMap.{insert_entry, swap_remove_entry};
ghost use Rattle.edge_store.specs.declared.edge.HalfEdge.{HalfEdge};
ghost use Rattle.edge_store.specs.Edges.{AreAtMostWithin, same_half};

use crate::edge::HalfEdge;
use crate::edge_table::EdgeTable;
use rpq_base::Memory;
use std::alloc::Global;
use std::marker::Model;

/// Edges of a vertex with their values. The table is made with the first room and goes with the
/// last edge, since nearly all vertices have too few edges to need it.
///
/// Contracts see it as a row.
#[derive(Drop)]
pub(crate) struct EdgeMap {
    table: Option<Box<EdgeTable>>,
}

impl Model for EdgeMap {
    ghost use Rattle.edge_store.specs.Row.{RowValue};

    ghost Value = { RowValue };

    ghost use Rattle.std.specs.Prelude.{[]};
    ghost use Rattle.std.specs.Option.{option_map_or};

    ghost view = { λ edges. record {
      entries = option_map_or (λ table. table.value.entries) edges.table [];
      room = option_map_or (λ table. table.value.room) edges.table 0;
    } };
}

impl EdgeMap {
    /// No edges.
    pub(crate) fn new() -> EdgeMap
        ensures { result.entries ≡ [] }
    {
        EdgeMap { table: None }
    }

    /// The value of an edge.
    pub(crate) fn get(&self, half: HalfEdge) -> Option<u64>
        ensures { result ≡ lookup (same_half half) self.now.entries }
    {
        match &self.table {
            Some(table) => table.get(half),
            None => None,
        }
    }

    /// Whether the edge has a value.
    pub(crate) fn contains(&self, half: HalfEdge) -> bool
        ensures { result ≡ is_some (lookup (same_half half) self.now.entries) }
    {
        self.get(half).is_some()
    }

    /// The number of edges.
    pub(crate) fn len(&self) -> usize
        ensures count { result ≡ length self.now.entries }
        ensures small { result < 2 ^ 63 }
    {
        match &self.table {
            Some(table) => table.len(),
            None => 0,
        }
    }

    /// The edge at this place.
    pub(crate) fn at(&self, place: usize) -> (HalfEdge, u64)
        requires { place < length self.now.entries }
        ensures { slice_get self.now.entries place ≡ Some result }
    {
        match &self.table {
            Some(table) => table.at(place),
            None => unreachable!(),
        }
    }

    /// From this place on the first one whose edge may have a value above the number.
    pub(crate) fn next_above(&self, place: usize, number: u64) -> usize
        ensures onward { place ≤ result }
        ensures within { result ≤ max place (length self.now.entries) }
        ensures skipped { AreAtMostWithin number self.now.entries place result }
        ensures small { length self.now.entries < 2 ^ 63 }
    {
        match &self.table {
            Some(table) => table.next_above(place, number),
            None => place,
        }
    }

    /// Room for one more edge.
    pub(crate) fn reserve(&mut self, alloc: Global) -> Result<(), Memory>
        ensures same { self.new.entries ≡ self.old.entries }
        ensures ok { OnOk result (0 < self.new.room) }
    {
        match &mut self.table {
            Some(table) => table.reserve()?,
            None => {
                let mut table = EdgeTable::new(alloc);
                table.reserve()?;
                self.table = Some(Box::new(alloc, table)?);
            }
        }
        Ok(())
    }

    /// Puts the value of an edge that is there, or for which there is room.
    pub(crate) fn put(&mut self, half: HalfEdge, value: u64)
        requires { (is_some (lookup (same_half half) self.old.entries) ≡ true)
            ⊎ (0 < self.old.room) }
        ensures entries { self.new.entries ≡ insert_entry same_half self.old.entries half value }
        ensures update { (other : HalfEdge) → lookup (same_half other) self.new.entries
            ≡ cond (same_half half other) (Some value) (lookup (same_half other) self.old.entries) }
    {
        match &mut self.table {
            Some(table) => table.put(half, value),
            None => unreachable!(),
        }
    }

    /// Takes an edge out. The last edge comes into its place.
    pub(crate) fn take(&mut self, half: HalfEdge) -> Option<u64>
        ensures value { result ≡ lookup (same_half half) self.old.entries }
        ensures entries { self.new.entries ≡ swap_remove_entry (same_half half) self.old.entries }
        ensures rest { (other : HalfEdge) → lookup (same_half other) self.new.entries
            ≡ cond (same_half half other) None (lookup (same_half other) self.old.entries) }
    {
        match &mut self.table {
            Some(table) => table.take(half),
            None => None,
        }
    }

    /// Gives the memory back where no edges are left.
    pub(crate) fn give_back(&mut self)
        ensures { self.new.entries ≡ self.old.entries }
    {
        if self.len() == 0 {
            self.table = None;
        }
    }
}
