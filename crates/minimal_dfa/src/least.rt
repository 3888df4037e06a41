//! The least automaton.

ghost use Rattle.std.specs.Prelude.{◌≡◌, ◌+◌, ◌<◌, ◌↔◌, All, List, ℕ, length, false, slice_index_or, IfOk};
ghost use Rattle.rpq_base.specs.declared.data.Label.{Label};
ghost use Rattle.dfa_table.specs.DfaValue.{is_final};
ghost use Rattle.dfa_table.specs.Runs.{Accepts};
ghost use Rattle.minimal_dfa.specs.Classes.{state_at};
ghost use Rattle.minimal_dfa.specs.Least.{IsLeast};

use crate::classes::find_classes;
use dfa_table::Dfa;
use dfa_table::discovery::DiscoveryFault;
use rpq_base::{Memory, copy_all};
use state_pairs::PairTable;
use std::alloc::Global;

/// For the start and the state of each node whether it is final.
fn finals_of(alloc: Global, dfa: &Dfa, nodes: &[u64]) -> Result<Vec<bool>, Memory>
    requires { All (λ node. node < length dfa.now.rows) nodes.now }
    ensures length { IfOk result (λ finals. length finals.items ≡ length nodes.now + 1) }
    ensures each { IfOk result (λ finals. (number : ℕ) → number < length nodes.now + 1 →
        slice_index_or finals.items number false ≡ is_final dfa.now (state_at nodes.now number)) }
{
    let mut finals = Vec::with_capacity(alloc, nodes.len() + 1)?;
    // the number of states is at least 1: there is a start
    dfa.states();
    finals.push(dfa.is_final(0))?;
    for node in nodes {
        finals.push(dfa.is_final(*node as u32))?;
    }
    Ok(finals)
}

/// The least automaton that accepts the words that this one accepts, which must be at least one.
///
/// Every state of it is reached and reaches a final one, and any two states other than the start
/// are told apart by a word. The start stays a state of its own and is counted. The labels are
/// kept, and the states are numbered in the order of discovery. The only error is [`Memory`].
///
/// It makes a table of the pairs of states, in time and memory in proportion to the pairs and the
/// labels, and looks up the state of each step among those before it. Source: E. F. Moore,
/// Gedanken-experiments on sequential machines, 1956.
pub fn minimize(alloc: Global, dfa: &Dfa) -> Result<Dfa, Memory>
    requires { (word : List Label) × Accepts dfa.now word }
    ensures words { IfOk result (λ least.
        (word : List Label) → Accepts least word ↔ Accepts dfa.now word) }
    ensures labels { IfOk result (λ least. least.labels ≡ dfa.now.labels) }
    ensures least { IfOk result IsLeast }
{
    let pairs = PairTable::new(alloc, dfa)?;
    let found = match find_classes(alloc, &pairs) {
        Ok(found) => found,
        Err(DiscoveryFault::Memory(memory)) => return Err(memory),
        // the classes are never too many
        Err(DiscoveryFault::Full) => unreachable!(),
    };
    let finals = finals_of(alloc, dfa, &found.nodes)?;
    let labels = copy_all(alloc, dfa.labels())?;
    Ok(Dfa::new(alloc, labels, found.rows, finals)?)
}
