//! The edges of one vertex, on one side.

ghost use Rattle.std.specs.Prelude.{◌≡◌, ◌<◌, ◌≤◌, [], max, length, cond, IfSome, OnOk, None, Some, slice_get, slice_set};
ghost use Rattle.std.specs.List.{IsDistinct, position};
ghost use Rattle.std.specs.Map.{keys_of, lookup};
ghost use Rattle.edge_store.specs.declared.edge.HalfEdge.{HalfEdge};
ghost use Rattle.edge_store.specs.Edges.{AreAtMost, AreAtMostWithin, same_half};
ghost use Rattle.edge_store.specs.Row.{Takes};

use crate::edge::HalfEdge;
use crate::edge_map::EdgeMap;
use rpq_base::Memory;
use smallvec::SmallVec;
use std::alloc::Global;
use std::marker::Model;

/// The most edges that stand in the list of a row.
const FEW: usize = 16;

/// The edges of a vertex with their values. The first ones stand in a list and are found by going
/// through it, which is faster than a hash; the others stand in a map. Most rows stay very short:
/// a list of two edges takes no memory of its own.
///
/// Contracts see it as all edges in the order of a walk, and the number of edges for which there is
/// room.
#[derive(Drop)]
pub(crate) struct EdgeRow {
    few: SmallVec<(HalfEdge, u64), 2>,
    more: EdgeMap,
    /// The greatest value that was put since the row had no edge.
    most: u64,
}

impl Model for EdgeRow {
    ghost use Rattle.edge_store.specs.Row.{RowValue};

    ghost Value = { RowValue };

    ghost use Rattle.std.specs.Prelude.{◌++◌};
    ghost use Rattle.edge_store.specs.Row.{IsRow, room_of};

    ghost view = { λ row. record {
      entries = row.few.items ++ row.more.entries;
      room = room_of row.few.items row.few.capacity row.more.room;
    } };

    ghost invariant = { λ row. IsRow row.few.items row.more.entries row.most };
}

/// The place of an edge among those of a list.
fn place(few: &[(HalfEdge, u64)], half: HalfEdge) -> Option<usize>
    ensures place { result ≡ position (λ entry. same_half half entry.0) few.now }
    ensures within { IfSome result (λ at. at < length few.now) }
{
    few.iter().position(|entry| half == entry.0)
}

/// Puts another entry at this place of a list.
fn set(few: &mut SmallVec<(HalfEdge, u64), 2>, at: usize, entry: (HalfEdge, u64))
    requires { at < length few.old.items }
    ensures { few.new.items ≡ slice_set few.old.items at entry }
{
    if let Some(there) = few.get_mut(at) {
        *there = entry;
    }
}

impl EdgeRow {
    /// A row without edges, which takes no memory.
    pub(crate) fn new(alloc: Global) -> EdgeRow
        ensures { result.entries ≡ [] }
    {
        EdgeRow {
            few: SmallVec::new(alloc),
            more: EdgeMap::new(),
            most: 0,
        }
    }

    /// The value of an edge.
    pub(crate) fn get(&self, half: HalfEdge) -> Option<u64>
        ensures { result ≡ lookup (same_half half) self.now.entries }
    {
        match place(self.few.as_slice(), half) {
            Some(at) => Some(self.few.as_slice()[at].1),
            None => self.more.get(half),
        }
    }

    /// The number of edges.
    pub(crate) fn len(&self) -> usize
        ensures { result ≡ length self.now.entries }
    {
        self.few.len() + self.more.len()
    }

    /// No edge stands at two places. This is for contracts alone, and does nothing.
    pub(crate) fn once(&self)
        ensures { IsDistinct same_half (keys_of self.now.entries) }
    {
        let _ = &self.few;
    }

    /// A number that no edge has a value above.
    pub(crate) fn most(&self) -> u64
        ensures { AreAtMost result self.now.entries }
    {
        self.most
    }

    /// The edge at this place.
    pub(crate) fn at(&self, place: usize) -> (HalfEdge, u64)
        requires { place < length self.now.entries }
        ensures { slice_get self.now.entries place ≡ Some result }
    {
        let few = self.few.len();
        if place < few {
            return self.few.as_slice()[place];
        }
        self.more.at(place - few)
    }

    /// From this place on the first one whose edge may have a value above the number. Those of the
    /// list all may.
    pub(crate) fn next_above(&self, place: usize, number: u64) -> usize
        ensures onward { place ≤ result }
        ensures within { result ≤ max place (length self.now.entries) }
        ensures skipped { AreAtMostWithin number self.now.entries place result }
    {
        let few = self.few.len();
        if place < few {
            return place;
        }
        few + self.more.next_above(place - few, number)
    }

    /// Room for one more edge.
    pub(crate) fn reserve(&mut self, alloc: Global) -> Result<(), Memory>
        ensures same { self.new.entries ≡ self.old.entries }
        ensures ok { OnOk result (0 < self.new.room) }
    {
        if self.few.len() < FEW {
            self.few.reserve(1)?;
        } else {
            self.more.reserve(alloc)?;
        }
        Ok(())
    }

    /// Puts the value of an edge that is there, or for which there is room.
    pub(crate) fn put(&mut self, half: HalfEdge, value: u64)
        requires { Takes self.old half }
        ensures { (other : HalfEdge) → lookup (same_half other) self.new.entries
            ≡ cond (same_half half other) (Some value) (lookup (same_half other) self.old.entries) }
    {
        self.most = self.most.max(value);
        if let Some(at) = place(self.few.as_slice(), half) {
            set(&mut self.few, at, (half, value));
            return;
        }
        // The edge is new, so there is room for it.
        if self.few.len() < FEW && !self.more.contains(half) {
            self.few.push_reserved((half, value));
            return;
        }
        self.more.put(half, value);
    }

    /// Takes an edge out. The last edge of its list or map comes into its place, and memory that
    /// holds no edge any more is given back, but for that of the first places.
    pub(crate) fn take(&mut self, half: HalfEdge) -> Option<u64>
        ensures value { result ≡ lookup (same_half half) self.old.entries }
        ensures rest { (other : HalfEdge) → lookup (same_half other) self.new.entries
            ≡ cond (same_half half other) None (lookup (same_half other) self.old.entries) }
    {
        let value = self.take_out(half);
        self.lower_most();
        self.give_back();
        value
    }

    /// Takes an edge out, and keeps all memory.
    fn take_out(&mut self, half: HalfEdge) -> Option<u64>
        ensures value { result ≡ lookup (same_half half) self.old.entries }
        ensures rest { (other : HalfEdge) → lookup (same_half other) self.new.entries
            ≡ cond (same_half half other) None (lookup (same_half other) self.old.entries) }
    {
        match place(self.few.as_slice(), half) {
            Some(at) => Some(self.few.swap_remove(at).1),
            None => self.more.take(half),
        }
    }

    /// A row without edges has no value, so its bound is as low as can be.
    fn lower_most(&mut self)
        ensures { self.new.entries ≡ self.old.entries }
    {
        if self.len() == 0 {
            self.most = 0;
        }
    }

    /// Gives the memory back of a map without edges, and of a list without edges that grew.
    fn give_back(&mut self)
        ensures { self.new.entries ≡ self.old.entries }
    {
        if self.few.is_empty() {
            self.few.shrink_to_fit();
        }
        self.more.give_back();
    }
}
