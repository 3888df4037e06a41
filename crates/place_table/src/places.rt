//! All places, each found by its vertex and state.

ghost use Rattle.std.specs.Prelude.{◌≡◌, ◌<◌, ◌++◌, ◌⊎◌, ◌↔◌, ℕ, [], length, nat_eq, slice_get};
ghost use Rattle.std.specs.Prelude.{IfOk, IfSome, IsTrue, None, Some, Ok, OnOk, OnErr, Contains};
ghost use Rattle.std.specs.List.{IsDistinct};
ghost use Rattle.std.specs.Option.{MatchOption};
ghost use Rattle.std.specs.Map.{keys_of, lookup};
ghost use Rattle.delta_tree.specs.Nodes.{node_id, same_node};
ghost use Rattle.place_table.specs.Reading.{HasRoots};
ghost use Rattle.delta_tree.specs.declared.node.Shift.{Shift as ShiftMade};
ghost use Rattle.place_table.specs.Kept.{AreHinted, IsAbsent, IsThere, KeepSame, PutsAt, kept_at};
ghost use Rattle.place_table.specs.Kept.{kept_nodes, hint_of, with_kept};
ghost use Rattle.place_table.specs.Links.{placed_ids};
ghost use Rattle.place_table.specs.Raises.{HasEnough, RaisesAt};

use crate::hints::Hints;
use crate::place::{Kept, Place};
use crate::spot::Spot;
use delta_tree::{NodeId, Shift};
use rpq_base::Memory;
use std::alloc::Global;
use std::marker::Model;

/// All places. One that no root reaches any more is used again for another.
#[derive(Drop)]
pub(crate) struct Places {
    alloc: Global,
    hints: Hints,
    places: Vec<Place>,
    /// Numbers of places that no root reached when they were noted.
    free: Vec<u32>,
}

impl Model for Places {
    ghost use Rattle.std.specs.Prelude.{List};
    ghost use Rattle.place_table.specs.Kept.{AreHinted, Placed};

    ghost Value = { List Placed };

    ghost view = { λ all. all.places.items };

    ghost invariant = { λ all. AreHinted all.hints all.places.items };
}

/// The place's number, where it is one of these.
fn locate(hints: &Hints, places: &[Place], id: NodeId) -> Option<usize>
    requires { AreHinted hints.now places.now }
    ensures { MatchOption result (IsAbsent places.now id) (IsThere places.now id) }
{
    let number = hints.get(id)? as usize;
    if number >= places.len() || places[number].id() != id {
        return None;
    }
    Some(number)
}

/// A new place behind the others.
fn add(
    alloc: Global,
    hints: &mut Hints,
    places: &mut Vec<Place>,
    id: NodeId,
) -> Result<usize, Memory>
    requires hinted { AreHinted hints.old places.old.items }
    requires absent { IsAbsent places.old.items id }
    ensures hinted { AreHinted hints.new places.new.items }
    ensures same { KeepSame places.old.items places.new.items }
    ensures there { IfOk result (IsThere places.new.items id) }
{
    let at = places.len();
    let Ok(number) = u32::try_from(at) else {
        return Err(Memory);
    };
    hints.set(id, number)?;
    places.push(Place::new(alloc, id))?;
    Ok(at)
}

/// Makes the place of this number another one, if no root reaches it.
fn reuse(
    hints: &mut Hints,
    places: &mut Vec<Place>,
    number: u32,
    id: NodeId,
) -> Result<Option<usize>, Memory>
    requires hinted { AreHinted hints.old places.old.items }
    requires absent { IsAbsent places.old.items id }
    ensures hinted { AreHinted hints.new places.new.items }
    ensures same { KeepSame places.old.items places.new.items }
    ensures there { IfOk result (λ found. IfSome found (IsThere places.new.items id)) }
    ensures none { result ≡ Ok None → IsAbsent places.new.items id }
{
    let at = number as usize;
    if at >= places.len() || places[at].len() > 0 {
        return Ok(None);
    }
    hints.set(id, number)?;
    places[at].rename(id);
    Ok(Some(at))
}

/// Whether some root reaches the place.
fn has_roots(hints: &Hints, places: &[Place], id: NodeId) -> bool
    requires { AreHinted hints.now places.now }
    ensures { IsTrue result ↔ HasRoots places.now id }
{
    match locate(hints, places, id) {
        Some(number) => places[number].len() > 0,
        None => false,
    }
}

/// Adds the state of the place, where some root reaches it.
fn add_state(
    hints: &Hints,
    places: &[Place],
    id: NodeId,
    states: &mut Vec<u32>,
) -> Result<(), Memory>
    requires { AreHinted hints.now places.now }
    ensures { OnOk result ((state : ℕ) → Contains states.new.items state
        ↔ (Contains states.old.items state ⊎ ((state ≡ id.state) × HasRoots places.now id))) }
{
    if has_roots(hints, places, id) {
        states.push(id.state)?;
    }
    Ok(())
}

/// Adds the states with which some root reaches the vertex.
fn collect_states(
    hints: &Hints,
    places: &[Place],
    vertex: u32,
    states: &mut Vec<u32>,
) -> Result<(), Memory>
    requires hinted { AreHinted hints.now places.now }
    requires none { states.old.items ≡ [] }
    ensures { OnOk result ((state : ℕ) → Contains states.new.items state
        ↔ HasRoots places.now (node_id vertex state)) }
{
    for k in 0..hints.len(vertex) {
        let state = hints.state_at(vertex, k);
        add_state(hints, places, NodeId { vertex, state }, states)?;
    }
    Ok(())
}

/// Adds the place, where the root has a node there.
fn add_id(place: &Place, root: u32, ids: &mut Vec<NodeId>) -> Result<(), Memory>
    ensures { OnOk result (ids.new.items ≡ ids.old.items
        ++ keys_of (with_kept place.now.id (lookup (nat_eq root) place.now.nodes) [])) }
{
    match place.get(root) {
        Some(_) => ids.push(place.id())?,
        None => {}
    }
    Ok(())
}

/// Adds the places at which the root has a node.
fn list_ids(places: &[Place], root: u32, ids: &mut Vec<NodeId>) -> Result<(), Memory>
    ensures { OnOk result (ids.new.items
        ≡ ids.old.items ++ keys_of (kept_nodes places.now root)) }
{
    for k in 0..places.len() {
        let place = &places[k];
        add_id(place, root, ids)?;
    }
    Ok(())
}

/// The place of the node that comes behind so many others of the root.
fn id_behind(places: &[Place], root: u32, others: usize) -> Option<NodeId>
    ensures { result ≡ slice_get (keys_of (kept_nodes places.now root)) others }
{
    let mut left = others;
    for place in places {
        if place.get(root).is_none() {
            continue;
        }
        if left == 0 {
            return Some(place.id());
        }
        left -= 1;
    }
    None
}

impl Places {
    /// No places, which take no memory.
    pub(crate) fn new(alloc: Global) -> Places
        ensures { result ≡ [] }
    {
        Places {
            alloc,
            hints: Hints::new(alloc),
            places: Vec::new(alloc),
            free: Vec::new(alloc),
        }
    }

    /// The number at which to look for the place. It may be that of another place, or of none.
    pub(crate) fn hint(&self, id: NodeId) -> Option<usize> {
        Some(self.hints.get(id)? as usize)
    }

    /// The place of this vertex with this state, where it is one.
    pub(crate) fn find(&self, id: NodeId) -> Option<usize>
        ensures { MatchOption result (IsAbsent self.now id) (IsThere self.now id) }
    {
        locate(&self.hints, &self.places, id)
    }

    /// The place of this number.
    pub(crate) fn at(&self, number: usize) -> &Place
        requires { number < length self.now }
        ensures place { slice_get self.now number ≡ Some result.now }
        ensures kept { (root : ℕ) → kept_at self.now root result.now.id
            ≡ lookup (nat_eq root) result.now.nodes }
    {
        &self.places[number]
    }

    /// What is kept of the node of a root at a place.
    pub(crate) fn get(&self, root: u32, id: NodeId) -> Option<Kept>
        ensures { result ≡ kept_at self.now root id }
    {
        match locate(&self.hints, &self.places, id) {
            Some(number) => self.places[number].get(root),
            None => None,
        }
    }

    /// The number of places.
    pub(crate) fn len(&self) -> usize
        ensures { result ≡ length self.now }
    {
        self.places.len()
    }

    /// Adds the places at which the root has a node.
    pub(crate) fn add_ids_of(&self, root: u32, ids: &mut Vec<NodeId>) -> Result<(), Memory>
        requires { ids.old.items ≡ [] }
        ensures ids { OnOk result (ids.new.items ≡ keys_of (kept_nodes self.now root)) }
        ensures once { IsDistinct same_node (keys_of (kept_nodes self.now root)) }
    {
        list_ids(&self.places, root, ids)
    }

    /// The place of the root's node that comes behind so many others. This goes over the places up
    /// to it.
    pub(crate) fn id_behind(&self, root: u32, others: usize) -> Option<NodeId>
        ensures { result ≡ slice_get (keys_of (kept_nodes self.now root)) others }
    {
        id_behind(&self.places, root, others)
    }

    /// Adds the states with which some root reaches the vertex.
    pub(crate) fn add_states(&self, vertex: u32, states: &mut Vec<u32>) -> Result<(), Memory>
        requires { states.old.items ≡ [] }
        ensures { OnOk result ((state : ℕ) → Contains states.new.items state
            ↔ HasRoots self.now (node_id vertex state)) }
    {
        collect_states(&self.hints, &self.places, vertex, states)
    }

    /// The number of the place, which is made where it isn't one yet.
    pub(crate) fn make(&mut self, id: NodeId) -> Result<usize, Memory>
        ensures same { KeepSame self.old self.new }
        ensures there { IfOk result (IsThere self.new id) }
    {
        if let Some(number) = locate(&self.hints, &self.places, id) {
            return Ok(number);
        }
        if let Some(number) = self.free.pop() {
            if let Some(at) = reuse(&mut self.hints, &mut self.places, number, id)? {
                return Ok(at);
            }
        }
        add(self.alloc, &mut self.hints, &mut self.places, id)
    }

    /// Keeps this of a root's node at the place of this number where that has a lesser value, or
    /// where the root has none there, and answers the values before and after; none where it has as
    /// much already. The only error is [`Memory`], after which nothing has changed.
    pub(crate) fn raise_at(
        &mut self,
        number: usize,
        spot: Spot,
        kept: Kept,
    ) -> Result<Option<Shift>, Memory>
        requires { IsThere self.old spot.id number }
        ensures raises { (shift : ShiftMade) → result ≡ Ok (Some shift) →
            RaisesAt self.old self.new spot kept shift }
        ensures stays { result ≡ Ok None →
            KeepSame self.old self.new × HasEnough (kept_at self.old spot.root spot.id) kept.value }
        ensures there { IsThere self.new spot.id number }
        ensures same { OnErr result (KeepSame self.old self.new) }
    {
        self.places[number].raise(spot.root, kept)
    }

    /// Takes the node of a root at a place out, where there is one.
    pub(crate) fn take(&mut self, root: u32, id: NodeId)
        ensures taken { PutsAt self.old self.new root id None }
        ensures ids { placed_ids self.new ≡ placed_ids self.old }
    {
        if let Some(number) = self.find(id) {
            self.take_at(number, root, id);
        }
    }

    /// [`Places::take`], where this is the number of the place.
    fn take_at(&mut self, number: usize, root: u32, id: NodeId)
        requires { IsThere self.old id number }
        ensures taken { PutsAt self.old self.new root id None }
        ensures ids { placed_ids self.new ≡ placed_ids self.old }
    {
        self.places[number].take(root);
        if self.places[number].len() == 0 {
            note_free(&mut self.free, number);
        }
    }
}

/// Notes that the place of this number is free. Where memory for that is lacking, it waits for its
/// own vertex and state to come again.
fn note_free(free: &mut Vec<u32>, number: usize) {
    if let Ok(number) = u32::try_from(number) {
        let _ = free.push(number);
    }
}
