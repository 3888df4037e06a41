//! Copies of automata.

ghost use Rattle.std.specs.Prelude.{◌≡◌, ◌<◌, length, map, slice_index_or, [], IfOk};

use dfa_table::Dfa;
use rpq_base::{Memory, copy_all};
use std::alloc::Global;

/// An equal automaton.
pub(crate) fn copy_of(alloc: Global, dfa: &Dfa) -> Result<Dfa, Memory>
    ensures { IfOk result (λ copy. copy ≡ dfa.now) }
{
    let labels = copy_all(alloc, dfa.labels())?;
    let rows = rows_of(alloc, dfa)?;
    let finals = finals_of(alloc, dfa)?;
    Dfa::new(alloc, labels, rows, finals)
}

/// The rows of the states.
fn rows_of(alloc: Global, dfa: &Dfa) -> Result<Vec<Vec<Option<u32>>>, Memory>
    ensures { IfOk result (λ rows. map (λ row. row.items) rows.items ≡ dfa.now.rows) }
{
    let mut rows = Vec::new(alloc);
    for state in 0..dfa.states() {
        rows.push(row_of(alloc, dfa, state)?)?;
    }
    Ok(rows)
}

/// The row of a state.
fn row_of(alloc: Global, dfa: &Dfa, state: u32) -> Result<Vec<Option<u32>>, Memory>
    requires { state < length dfa.now.rows }
    ensures { IfOk result (λ row. row.items ≡ slice_index_or dfa.now.rows state []) }
{
    let mut row = Vec::new(alloc);
    for label in 0..dfa.labels().len() {
        row.push(dfa.step(state, label as u32))?;
    }
    Ok(row)
}

/// Which states are final.
fn finals_of(alloc: Global, dfa: &Dfa) -> Result<Vec<bool>, Memory>
    ensures { IfOk result (λ finals. finals.items ≡ dfa.now.finals) }
{
    let mut finals = Vec::new(alloc);
    for state in 0..dfa.states() {
        finals.push(dfa.is_final(state))?;
    }
    Ok(finals)
}
