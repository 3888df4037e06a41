//! The labels that can't be left out after a state.

ghost use Rattle.std.specs.Prelude.{◌<◌, length, IfOk};
ghost use Rattle.containment_test.specs.Needed.{AreNeeded, NeedsAtMost};

use rpq_base::Memory;
use state_pairs::PairTable;
use std::alloc::Global;

/// A label that can't be left out after a state, by its number, and the state that it leads to:
/// that one accepts a word that the other doesn't.
#[derive(Clone, Copy)]
pub struct NeededLabel {
    pub label: u32,
    pub next: u32,
}

/// The least label that can't be left out after the state.
fn least_needed(pairs: &PairTable<'_>, state: u32) -> Option<NeededLabel>
    requires { state < length pairs.now.rows }
    ensures { NeedsAtMost pairs.now state result }
{
    let dfa = pairs.dfa();
    for label in 0..dfa.labels().len() as u32 {
        if let Some(next) = dfa.step(state, label) {
            if pairs.has_extra_word(Some(state), next) {
                return Some(NeededLabel { label, next });
            }
        }
    }
    None
}

/// For each state the least label that can't be left out after it.
pub fn all_needed(alloc: Global, pairs: &PairTable<'_>) -> Result<Vec<Option<NeededLabel>>, Memory>
    ensures { IfOk result (λ list. AreNeeded pairs.now list.items) }
{
    let states = pairs.dfa().states();
    let mut list = Vec::with_capacity(alloc, states as usize)?;
    for state in 0..states {
        list.push(least_needed(pairs, state))?;
    }
    Ok(list)
}
