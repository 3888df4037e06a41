//! Edges of one vertex that are found by hash, with bounds on their values.

ghost use Rattle.std.specs.Prelude.{◌≡◌, ◌<◌, ◌≤◌, ◌^◌, ◌⊎◌, [], true, max, length, cond, is_some, slice_get, slice_index, OnOk, None, Some};
ghost use Rattle.std.specs.List.{position_or_len};
ghost use Rattle.std.specs.Map.{keys_of, values_of, lookup};
ghost use Rattle.indexmap.specs.IndexMap.{insert_entry, spare, swap_remove_entry};
ghost use Rattle.edge_store.specs.declared.edge.HalfEdge.{HalfEdge};
ghost use Rattle.edge_store.specs.Edges.{AreAtMostWithin, same_half};

use crate::blocks::{BLOCK, next_block, raise};
use crate::edge::HalfEdge;
use indexmap::IndexMap;
use rpq_base::Memory;
use std::alloc::Global;
use std::marker::Model;

/// Edges of a vertex with their values, and for each block of 32 places a number that no value
/// there is above. A walk that wants values above another number leaves out whole blocks by it.
///
/// A bound is raised with the values, and isn't lowered before the last edge of its block is gone.
///
/// Contracts see it as a row.
#[derive(Drop)]
pub(crate) struct EdgeTable {
    map: IndexMap<HalfEdge, u64>,
    bounds: Vec<u64>,
}

impl Model for EdgeTable {
    ghost use Rattle.edge_store.specs.Row.{RowValue};

    ghost Value = { RowValue };

    ghost use Rattle.std.specs.Prelude.{◌-◌, min, vec_len, vec_capacity};
    ghost use Rattle.std.specs.Map.{values_of};
    ghost use Rattle.indexmap.specs.IndexMap.{spare};
    ghost use Rattle.edge_store.specs.Blocks.{AreBounds};

    ghost view = { λ table. record {
      entries = table.map.entries;
      room = min (spare table.map) (vec_capacity table.bounds - vec_len table.bounds);
    } };

    ghost invariant = { λ table. AreBounds (values_of table.map.entries) table.bounds.items };
}

impl EdgeTable {
    /// No edges. Takes no memory.
    pub(crate) fn new(alloc: Global) -> EdgeTable
        ensures { result.entries ≡ [] }
    {
        EdgeTable {
            map: IndexMap::new(alloc),
            bounds: Vec::new(alloc),
        }
    }

    /// The value of an edge.
    pub(crate) fn get(&self, half: HalfEdge) -> Option<u64>
        ensures { result ≡ lookup (same_half half) self.now.entries }
    {
        self.map.get(&half).copied()
    }

    /// The number of edges.
    pub(crate) fn len(&self) -> usize
        ensures count { result ≡ length self.now.entries }
        ensures small { result < 2 ^ 63 }
    {
        self.map.len()
    }

    /// The edge at this place.
    pub(crate) fn at(&self, place: usize) -> (HalfEdge, u64)
        requires { place < length self.now.entries }
        ensures { slice_get self.now.entries place ≡ Some result }
    {
        entry_at(&self.map, place)
    }

    /// From this place on the first one whose edge may have a value above the number. It costs a
    /// step for each block that has none.
    pub(crate) fn next_above(&self, place: usize, number: u64) -> usize
        ensures onward { place ≤ result }
        ensures within { result ≤ max place (length self.now.entries) }
        ensures skipped { AreAtMostWithin number self.now.entries place result }
        ensures small { length self.now.entries < 2 ^ 63 }
    {
        let block = next_block(&self.bounds, place / BLOCK, number);
        let len = self.map.len();
        place.max(len.min(block * BLOCK))
    }

    /// Room for one more edge.
    pub(crate) fn reserve(&mut self) -> Result<(), Memory>
        ensures same { self.new.entries ≡ self.old.entries }
        ensures ok { OnOk result (0 < self.new.room) }
    {
        self.map.reserve(1)?;
        self.bounds.reserve(1)?;
        Ok(())
    }

    /// Puts the value of an edge that is there, or for which there is room.
    pub(crate) fn put(&mut self, half: HalfEdge, value: u64)
        requires { (is_some (lookup (same_half half) self.old.entries) ≡ true)
            ⊎ (0 < self.old.room) }
        ensures entries { self.new.entries ≡ insert_entry same_half self.old.entries half value }
        ensures update { (other : HalfEdge) → lookup (same_half other) self.new.entries
            ≡ cond (same_half half other) (Some value) (lookup (same_half other) self.old.entries) }
    {
        let place = put_in(&mut self.map, half, value);
        raise(&mut self.bounds, place / BLOCK, value);
    }

    /// Takes an edge out. The last edge comes into its place.
    pub(crate) fn take(&mut self, half: HalfEdge) -> Option<u64>
        ensures value { result ≡ lookup (same_half half) self.old.entries }
        ensures entries { self.new.entries ≡ swap_remove_entry (same_half half) self.old.entries }
        ensures rest { (other : HalfEdge) → lookup (same_half other) self.new.entries
            ≡ cond (same_half half other) None (lookup (same_half other) self.old.entries) }
    {
        let (place, _, value) = self.map.swap_remove_full(&half)?;
        raise(&mut self.bounds, place / BLOCK, value_at(&self.map, place));
        self.bounds.truncate(self.map.len().div_ceil(BLOCK));
        Some(value)
    }
}

/// The edge of the map at this place.
fn entry_at(map: &IndexMap<HalfEdge, u64>, place: usize) -> (HalfEdge, u64)
    requires { place < length map.now.entries }
    ensures { slice_get map.now.entries place ≡ Some result }
{
    match map.get_index(place) {
        Some((half, value)) => (*half, *value),
        None => unreachable!(),
    }
}

/// The value of the edge at this place, and 0 behind the last one.
fn value_at(map: &IndexMap<HalfEdge, u64>, place: usize) -> u64
    ensures { result ≡ slice_index (values_of map.now.entries) place }
{
    match map.get_index(place) {
        Some((_, value)) => *value,
        None => 0,
    }
}

/// Puts the value of an edge that is there, or for which there is room, and answers its place.
fn put_in(map: &mut IndexMap<HalfEdge, u64>, half: HalfEdge, value: u64) -> usize
    requires { (is_some (lookup (same_half half) map.old.entries) ≡ true) ⊎ (0 < spare map.old) }
    ensures entries { map.new.entries ≡ insert_entry same_half map.old.entries half value }
    ensures place { result ≡ position_or_len (same_half half) (keys_of map.old.entries) }
    ensures update { (other : HalfEdge) → lookup (same_half other) map.new.entries
        ≡ cond (same_half half other) (Some value) (lookup (same_half other) map.old.entries) }
{
    match map.insert_full(half, value) {
        Ok((place, _)) => place,
        // The edge is there or has room, so it isn't refused.
        Err(_) => unreachable!(),
    }
}
