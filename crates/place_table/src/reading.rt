//! What stands at one place, or at one vertex.

ghost use Rattle.std.specs.Prelude.{◌≡◌, ◌↔◌, ◌++◌, [], nat_eq, OnOk, List, Contains};
ghost use Rattle.std.specs.List.{IsDistinct, cons_option, filter_map};
ghost use Rattle.std.specs.Map.{keys_of};
ghost use Rattle.std.specs.List.Sorted.{IsStrictlySortedBy};
ghost use Rattle.std.specs.Ordering.{nat_cmp};
ghost use Rattle.place_table.specs.declared.gain.Gain.{Gain as GainMade};
ghost use Rattle.place_table.specs.Table.{AreGainsAt, AreRootsBy, AreStates, is_above};
ghost use Rattle.place_table.specs.Reading.{AreSorted, gain_of, root_by};

use crate::gain::Gain;
use crate::place::{Kept, Place};
use crate::table::{PlaceTable, edge_of};
use delta_tree::NodeId;
use edge_store::EdgeId;
use rpq_base::Memory;

impl PlaceTable {
    /// Makes the list that of the states with which some root has a node at the vertex, in rising
    /// order. This costs a look-up for each state that some root had there.
    pub fn states_at(&self, vertex: u32, states: &mut Vec<u32>) -> Result<(), Memory>
        ensures states { OnOk result (AreStates self.now vertex states.new.items) }
        ensures rising { OnOk result (IsStrictlySortedBy nat_cmp states.new.items) }
    {
        states.clear();
        self.places.add_states(vertex, states)?;
        put_in_order(states);
        Ok(())
    }

    /// Adds a gain for each root whose value at the place is above `above`: up to that value or
    /// `most`, whichever is less.
    pub fn gains_at(
        &self,
        id: NodeId,
        above: Option<u64>,
        most: u64,
        gains: &mut Vec<Gain>,
    ) -> Result<(), Memory>
        ensures { OnOk result ((added : List GainMade) ×
            (gains.new.items ≡ gains.old.items ++ added)
            × AreGainsAt self.now id above most added) }
    {
        match self.places.find(id) {
            Some(number) => add_gains(self.places.at(number), above, most, gains),
            None => Ok(()),
        }
    }

    /// Makes the list that of the roots whose node at the place hangs by the edge.
    pub fn roots_by(&self, id: NodeId, edge: EdgeId, roots: &mut Vec<u32>) -> Result<(), Memory>
        ensures { OnOk result (AreRootsBy self.now id edge roots.new.items) }
    {
        roots.clear();
        match self.places.find(id) {
            Some(number) => add_roots(self.places.at(number), edge, roots),
            None => Ok(()),
        }
    }
}

/// Puts the numbers in order, each once.
fn put_in_order(numbers: &mut Vec<u32>)
    ensures { AreSorted numbers.old.items numbers.new.items }
{
    numbers.sort_unstable();
    numbers.dedup();
}

/// Adds the item, where there is one.
fn push_some<T: Copy>(items: &mut Vec<T>, item: Option<T>) -> Result<(), Memory>
    ensures { OnOk result (items.new.items ≡ items.old.items ++ cons_option item []) }
{
    if let Some(item) = item {
        items.push(item)?;
    }
    Ok(())
}

/// Whether the value is greater than the number, where there is one.
fn is_above(number: Option<u64>, value: u64) -> bool
    ensures { result ≡ is_above number value }
{
    match number {
        Some(number) => number < value,
        None => true,
    }
}

/// The gain of a root of whose node this is kept, where its value is above the number.
fn gain_of(above: Option<u64>, most: u64, entry: (u32, Kept)) -> Option<Gain>
    ensures { result ≡ gain_of above most entry }
{
    if is_above(above, entry.1.value) {
        return Some(Gain {
            root: entry.0,
            cap: entry.1.value.min(most),
            before: above,
        });
    }
    None
}

/// The root of whose node at the place this is kept, where the node hangs by the edge.
fn root_by(edge: EdgeId, id: NodeId, entry: (u32, Kept)) -> Option<u32>
    ensures { result ≡ root_by edge id entry }
{
    if edge_of(entry.1, id) == edge {
        return Some(entry.0);
    }
    None
}

/// Adds the gains of the roots of a place.
fn add_gains(
    place: &Place,
    above: Option<u64>,
    most: u64,
    gains: &mut Vec<Gain>,
) -> Result<(), Memory>
    ensures added { OnOk result (gains.new.items
        ≡ gains.old.items ++ filter_map (gain_of above most) place.now.nodes) }
    ensures once { IsDistinct nat_eq (keys_of place.now.nodes) }
{
    for k in 0..place.len() {
        push_some(gains, gain_of(above, most, place.at(k)))?;
    }
    Ok(())
}

/// Adds the roots of a place whose nodes hang by the edge.
fn add_roots(place: &Place, edge: EdgeId, roots: &mut Vec<u32>) -> Result<(), Memory>
    ensures added { OnOk result (roots.new.items
        ≡ roots.old.items ++ filter_map (root_by edge place.now.id) place.now.nodes) }
    ensures once { IsDistinct nat_eq (keys_of place.now.nodes) }
{
    for k in 0..place.len() {
        push_some(roots, root_by(edge, place.id(), place.at(k)))?;
    }
    Ok(())
}
