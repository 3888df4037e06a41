//! The table of a deterministic automaton.

ghost use Rattle.std.specs.Prelude.{◌≡◌, ℕ, ◌<◌, ◌*◌, ◌^◌, ◌≤◌, ◌↔◌, map, length, AllPairs, Contains, IfOk, IfSome, Some};
ghost use Rattle.std.specs.List.{flat_map, position};
ghost use Rattle.std.specs.List.Sorted.{IsStrictlySortedBy};
ghost use Rattle.rpq_base.specs.Order.{label_cmp};
ghost use Rattle.rpq_base.specs.Same.{same_label};
ghost use Rattle.dfa_table.specs.DfaValue.{IsDfa, value_of, step_of, place_of, is_final};

use crate::befores::{Befores, find_befores, list_by};
use rpq_base::{Label, Memory};
use std::alloc::Global;
use std::marker::Model;

/// A deterministic automaton: states from 0, labels in their order, for each state and label at
/// most one step, and which states are final.
///
/// State 0 is the start; no step leads to it, and it isn't final. There are at most 513 states.
/// Contracts see it as a `DfaValue` of `specs/`.
#[derive(Debug, Drop)]
pub struct Dfa {
    labels: Vec<Label>,
    /// The rows of all states, one after another.
    steps: Vec<Option<u32>>,
    finals: Vec<bool>,
    /// For each label the states before each state.
    befores: Vec<Befores>,
}

impl Model for Dfa {
    ghost use Rattle.dfa_table.specs.DfaValue.{DfaValue};

    ghost Value = { DfaValue };

    ghost use Rattle.dfa_table.specs.Table.{value_of_table, IsTable};

    ghost view = { λ dfa. value_of_table dfa.labels.items dfa.steps.items dfa.finals.items };

    ghost invariant = { λ dfa.
        IsTable dfa.labels.items dfa.steps.items dfa.finals.items dfa.befores.items };
}

/// The rows, each of this width, one after another.
fn join_rows(
    alloc: Global,
    rows: &[Vec<Option<u32>>],
    width: usize,
) -> Result<Vec<Option<u32>>, Memory>
    requires few { length rows.now ≤ 513 }
    requires narrow { width < 2 ^ 32 }
    ensures { IfOk result (λ steps. steps.items ≡ flat_map (λ row. row.items) rows.now) }
{
    let mut steps = Vec::with_capacity(alloc, rows.len() * width)?;
    for row in rows {
        steps.extend_from_slice(row)?;
    }
    Ok(steps)
}

/// The index of the label among sorted ones, by binary search.
fn find_label(labels: &[Label], label: &Label) -> Option<usize>
    requires { IsStrictlySortedBy label_cmp labels.now }
    ensures place { result ≡ position (λ each. same_label each label.now) labels.now }
    ensures within { IfSome result (λ place. place < length labels.now) }
{
    labels.binary_search(label).ok()
}

impl Dfa {
    /// The automaton with these labels, rows and finals. A row has a place for each label, with
    /// the state that the step leads to. The only error is [`Memory`].
    pub fn new(
        alloc: Global,
        labels: Vec<Label>,
        rows: Vec<Vec<Option<u32>>>,
        finals: Vec<bool>,
    ) -> Result<Dfa, Memory>
        requires { IsDfa (value_of labels.items (map (λ row. row.items) rows.items) finals.items) }
        ensures { IfOk result (λ dfa.
            dfa ≡ value_of labels.items (map (λ row. row.items) rows.items) finals.items) }
    {
        let steps = join_rows(alloc, &rows, labels.len())?;
        let befores = find_befores(alloc, &rows, labels.len())?;
        Ok(Dfa {
            labels,
            steps,
            finals,
            befores,
        })
    }

    /// The number of states.
    pub fn states(&self) -> u32
        ensures number { result ≡ length self.now.rows }
        ensures valid { IsDfa self.now }
    {
        self.finals.len() as u32
    }

    /// The labels in their order: the label of number k stands at place k, from 0.
    pub fn labels(&self) -> &[Label]
        ensures labels { result.now ≡ self.now.labels }
        ensures valid { IsDfa self.now }
    {
        &self.labels
    }

    /// The number of the label, or none where the automaton lacks it, by binary search.
    pub fn label_number(&self, label: &Label) -> Option<u32>
        ensures number { result ≡ place_of self.now label.now }
        ensures within { IfSome result (λ number. number < length self.now.labels) }
    {
        match find_label(&self.labels, label) {
            Some(place) => Some(place as u32),
            None => None,
        }
    }

    /// The state that a step from the state with the label of this number leads to, which is
    /// never the start. A label number that the automaton lacks has no step. This is one index
    /// into a table.
    pub fn step(&self, state: u32, label: u32) -> Option<u32>
        requires { state < length self.now.rows }
        ensures step { result ≡ step_of self.now state label }
        ensures within { IfSome result (λ next. (0 < next) × (next < length self.now.rows)) }
    {
        let width = self.labels.len();
        if label as usize >= width {
            return None;
        }
        self.steps[state as usize * width + label as usize]
    }

    /// The states from which a step by the label of this number leads to the state, in order, each
    /// once. None where the automaton lacks the state or the label. It takes no memory, and looks
    /// at no other state.
    pub fn before(&self, state: u32, label: u32) -> &[u32]
        ensures before { (each : ℕ) → Contains result.now each
            ↔ ((each < length self.now.rows) × (step_of self.now each label ≡ Some state)) }
        ensures rising { AllPairs ◌<◌ result.now }
    {
        list_by(&self.befores, label, state)
    }

    /// Whether the state is final.
    pub fn is_final(&self, state: u32) -> bool
        requires { state < length self.now.rows }
        ensures { result ≡ is_final self.now state }
    {
        self.finals[state as usize]
    }
}
