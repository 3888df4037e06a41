//! The states of one vertex, each with a number.

ghost use Rattle.std.specs.Prelude.{◌≡◌, ◌<◌, ◌↔◌, ℕ, [], IsTrue, cond, length, nat_eq, slice_get};
ghost use Rattle.std.specs.Prelude.{None, Some, OnOk, OnErr, slice_set};
ghost use Rattle.std.specs.Map.{lookup};
ghost use Rattle.place_table.specs.Rows.{AreRising, IsSplit, state_in};

use rpq_base::Memory;
use smallvec::SmallVec;
use std::alloc::Global;
use std::marker::Model;

/// States, each with a number, in the order of the states. A look-up halves them. Two of them take
/// no memory beside the row.
#[derive(Drop)]
pub(crate) struct HintRow {
    hints: SmallVec<(u32, u32), 2>,
}

impl Model for HintRow {
    ghost use Rattle.std.specs.Prelude.{ℕ, List};
    ghost use Rattle.place_table.specs.Rows.{AreRising};

    ghost Value = { List (ℕ × ℕ) };

    ghost view = { λ row. row.hints.items };

    ghost invariant = { λ row. AreRising row.hints.items };
}

impl HintRow {
    /// No state has a number.
    pub(crate) fn new(alloc: Global) -> HintRow
        ensures { result ≡ [] }
    {
        HintRow {
            hints: SmallVec::new(alloc),
        }
    }

    /// How many states have one.
    pub(crate) fn len(&self) -> usize
        ensures { result ≡ length self.now }
    {
        self.hints.len()
    }

    /// The state at this place, and its number.
    pub(crate) fn at(&self, place: usize) -> (u32, u32)
        requires { place < length self.now }
        ensures { slice_get self.now place ≡ Some result }
    {
        self.hints.as_slice()[place]
    }

    /// The number of the state.
    pub(crate) fn get(&self, state: u32) -> Option<u32>
        ensures { result ≡ lookup (nat_eq state) self.now }
    {
        find(self.hints.as_slice(), state)
    }

    /// Gives the state this number. The only error is [`Memory`], after which nothing has changed.
    pub(crate) fn set(&mut self, state: u32, number: u32) -> Result<(), Memory>
        ensures set { OnOk result ((each : ℕ) → lookup (nat_eq each) self.new
            ≡ cond (nat_eq state each) (Some number) (lookup (nat_eq each) self.old)) }
        ensures unchanged { OnErr result (self.new ≡ self.old) }
    {
        put(&mut self.hints, state, number)
    }
}

/// How many of the states are below this one.
fn count_below(hints: &[(u32, u32)], state: u32) -> usize
    requires { AreRising hints.now }
    ensures { IsSplit hints.now state result }
{
    let mut low = 0;
    let mut high = hints.len();
    while low < high {
        let middle = low + (high - low) / 2;
        if hints[middle].0 < state {
            low = middle + 1;
        } else {
            high = middle;
        }
    }
    low
}

/// Whether this state stands at the place.
fn stands_at(hints: &[(u32, u32)], place: usize, state: u32) -> bool
    ensures { IsTrue result ↔ ((place < length hints.now) × (state_in hints.now place ≡ state)) }
{
    place < hints.len() && hints[place].0 == state
}

/// The number of the state.
fn find(hints: &[(u32, u32)], state: u32) -> Option<u32>
    requires { AreRising hints.now }
    ensures { result ≡ lookup (nat_eq state) hints.now }
{
    let place = count_below(hints, state);
    if stands_at(hints, place, state) {
        return Some(hints[place].1);
    }
    None
}

/// Puts another entry at this place.
fn set_at(hints: &mut SmallVec<(u32, u32), 2>, place: usize, hint: (u32, u32))
    requires { place < length hints.old.items }
    ensures { hints.new.items ≡ slice_set hints.old.items place hint }
{
    if let Some(there) = hints.get_mut(place) {
        *there = hint;
    }
}

/// Gives the state this number.
fn put(hints: &mut SmallVec<(u32, u32), 2>, state: u32, number: u32) -> Result<(), Memory>
    requires { AreRising hints.old.items }
    ensures rising { AreRising hints.new.items }
    ensures set { OnOk result ((each : ℕ) → lookup (nat_eq each) hints.new.items
        ≡ cond (nat_eq state each) (Some number) (lookup (nat_eq each) hints.old.items)) }
    ensures unchanged { OnErr result (hints.new.items ≡ hints.old.items) }
{
    let place = count_below(hints.as_slice(), state);
    if stands_at(hints.as_slice(), place, state) {
        set_at(hints, place, (state, number));
        return Ok(());
    }
    hints.insert(place, (state, number))?;
    Ok(())
}
