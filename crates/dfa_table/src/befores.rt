//! For each label and state the states whose step by the label leads to the state.

ghost use Rattle.std.specs.Prelude.{◌≡◌, ℕ, ◌++◌, ◌∷◌, ◌<◌, ◌≤◌, ◌^◌, [], length, map, IfOk, None, OnOk, slice_index_or};
ghost use Rattle.dfa_table.specs.Befores.{AddsAt, AreBefores, AreEmpty, AreListed, StayWithin};
ghost use Rattle.dfa_table.specs.Befores.{list_at, step_in};

use rpq_base::Memory;
use std::alloc::Global;
use std::marker::Model;

/// A list of states that grows. Contracts see it as this list.
#[derive(Drop)]
struct StateList {
    states: Vec<u32>,
}

impl Model for StateList {
    ghost use Rattle.std.specs.Prelude.{List, ℕ};

    ghost Value = { List ℕ };

    ghost view = { λ growing. growing.states.items };
}

impl StateList {
    /// No states. Takes no memory.
    fn new(alloc: Global) -> StateList
        ensures { result ≡ [] }
    {
        StateList {
            states: Vec::new(alloc),
        }
    }

    /// Adds the state at the end.
    fn add(&mut self, state: u32) -> Result<(), Memory>
        ensures { OnOk result (self.new ≡ self.old ++ state ∷ []) }
    {
        self.states.push(state)?;
        Ok(())
    }

    /// The states.
    fn states(&self) -> &[u32]
        ensures { result.now ≡ self.now }
    {
        &self.states
    }
}

/// For each state those whose step by one label leads to it. Contracts see it as these lists.
///
/// It takes eight bytes for each state, and four for each step by the label.
#[derive(Debug, Drop)]
pub(crate) struct Befores {
    /// For each list where it starts, and at last where the last one ends.
    starts: Vec<usize>,
    /// The lists, one after another.
    states: Vec<u32>,
}

impl Model for Befores {
    ghost use Rattle.std.specs.Prelude.{List, ℕ};
    ghost use Rattle.dfa_table.specs.Befores.{AreStarts, parts_of};

    ghost Value = { List (List ℕ) };

    ghost view = { λ befores. parts_of befores.starts.items befores.states.items };

    ghost invariant = { λ befores. AreStarts befores.starts.items befores.states.items };
}

impl Befores {
    /// The list of the state, or none where the state isn't there.
    fn list(&self, state: u32) -> &[u32]
        ensures { result.now ≡ list_at self.now state }
    {
        let place = state as usize;
        if place + 1 >= self.starts.len() {
            return &[];
        }
        let start = self.starts[place];
        let end = self.starts[place + 1];
        &self.states[start..end]
    }
}

/// The lists, one after another.
fn join_lists(alloc: Global, lists: &[StateList]) -> Result<Befores, Memory>
    ensures { IfOk result (λ befores. befores ≡ lists.now) }
{
    let mut starts = Vec::new(alloc);
    let mut states = Vec::new(alloc);
    starts.push(0)?;
    for list in lists {
        states.extend_from_slice(list.states())?;
        starts.push(states.len())?;
    }
    Ok(Befores { starts, states })
}

/// This many empty lists.
fn empty_lists(alloc: Global, count: usize) -> Result<Vec<StateList>, Memory>
    ensures { IfOk result (λ lists. AreEmpty count lists.items) }
{
    let mut lists = Vec::with_capacity(alloc, count)?;
    for _ in 0..count {
        lists.push(StateList::new(alloc))?;
    }
    Ok(lists)
}

/// Adds the state to the list of the target.
fn add_before(lists: &mut [StateList], target: u32, state: u32) -> Result<(), Memory>
    requires { target < length lists.old }
    ensures { OnOk result (AddsAt target state lists.old lists.new) }
{
    lists[target as usize].add(state)
}

/// The step by the label in its row, or none where the row is too short.
fn step_by(row: &[Option<u32>], label: usize) -> Option<u32>
    ensures { result ≡ slice_index_or row.now label None }
{
    match row.get(label) {
        Some(step) => *step,
        None => None,
    }
}

/// The state that the step of the state by the label leads to.
fn step_at(rows: &[Vec<Option<u32>>], state: usize, label: usize) -> Option<u32>
    requires { state < length rows.now }
    ensures { result ≡ step_in (map (λ row. row.items) rows.now) state label }
{
    step_by(&rows[state], label)
}

/// Adds each state to the list of the one that its step by the label leads to. The lists are empty
/// at first.
fn list_befores(
    rows: &[Vec<Option<u32>>],
    label: usize,
    lists: &mut [StateList],
) -> Result<(), Memory>
    requires few { length rows.now ≤ 513 }
    requires within { StayWithin (map (λ row. row.items) rows.now) }
    requires empty { AreEmpty (length rows.now) lists.old }
    ensures { OnOk result
        (AreListed (map (λ row. row.items) rows.now) label (length rows.now) lists.new) }
{
    for state in 0..rows.len() {
        if let Some(next) = step_at(rows, state, label) {
            add_before(lists, next, state as u32)?;
        }
    }
    Ok(())
}

/// The states before each state by the label, by way of these lists, which are empty at first.
fn gather(
    alloc: Global,
    rows: &[Vec<Option<u32>>],
    label: usize,
    lists: &mut [StateList],
) -> Result<Befores, Memory>
    requires few { length rows.now ≤ 513 }
    requires within { StayWithin (map (λ row. row.items) rows.now) }
    requires empty { AreEmpty (length rows.now) lists.old }
    ensures { IfOk result (λ befores.
        AreListed (map (λ row. row.items) rows.now) label (length rows.now) befores) }
{
    list_befores(rows, label, lists)?;
    join_lists(alloc, lists)
}

/// The states before each state by the label.
fn by_label(alloc: Global, rows: &[Vec<Option<u32>>], label: usize) -> Result<Befores, Memory>
    requires few { length rows.now ≤ 513 }
    requires within { StayWithin (map (λ row. row.items) rows.now) }
    ensures { IfOk result (λ befores.
        AreListed (map (λ row. row.items) rows.now) label (length rows.now) befores) }
{
    let mut lists = empty_lists(alloc, rows.len())?;
    gather(alloc, rows, label, &mut lists)
}

/// The states before each state by each of the labels. It goes once through the rows for each
/// label. The only error is [`Memory`].
pub(crate) fn find_befores(
    alloc: Global,
    rows: &[Vec<Option<u32>>],
    labels: usize,
) -> Result<Vec<Befores>, Memory>
    requires few { length rows.now ≤ 513 }
    requires within { StayWithin (map (λ row. row.items) rows.now) }
    ensures { IfOk result (λ befores.
        AreBefores (map (λ row. row.items) rows.now) labels befores.items) }
{
    let mut befores = Vec::with_capacity(alloc, labels)?;
    for label in 0..labels {
        befores.push(by_label(alloc, rows, label)?)?;
    }
    Ok(befores)
}

/// The list of the label and the state, or none where one of them isn't there.
pub(crate) fn list_by(befores: &[Befores], label: u32, state: u32) -> &[u32]
    ensures { result.now ≡ list_at (slice_index_or befores.now label []) state }
{
    match befores.get(label as usize) {
        Some(found) => found.list(state),
        None => &[],
    }
}
