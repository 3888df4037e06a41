//! The subset construction.

ghost use Rattle.std.specs.Prelude.{◌≡◌, ◌≢◌, ℕ, ◌+◌, List, length, IfOk, OnOk};
ghost use Rattle.rpq_base.specs.declared.data.Label.{Label};
ghost use Rattle.dfa_build.specs.Positions.{ArePositions};
ghost use Rattle.dfa_build.specs.Subset.{ReachAll, HasManySets, IsAutomatonOf};

use crate::automaton::Positions;
use crate::fault::BuildFault;
use crate::state_sets::{finals_of, find_states};
use crate::transitions::PositionSets;
use dfa_table::Dfa;
use std::alloc::Global;

/// The deterministic automaton that accepts the words that the position automaton accepts.
///
/// Its states are a start and one for each nonempty set of positions that nonempty words reach.
/// The start is state 0; the sets are numbered in the order in which they are found, by rising
/// state and, within a state, by rising label. The start isn't final. For each of at most 512
/// sets the construction goes once through the positions and once through the labels, and looks
/// each set that it meets up among those that it has, one after another. Source: M. O. Rabin and
/// D. Scott, Finite automata and their decision problems, 1959.
pub fn subset(alloc: Global, positions: &Positions) -> Result<Dfa, BuildFault>
    requires { ArePositions positions.now }
    ensures automaton { IfOk result (IsAutomatonOf positions.now) }
    ensures states { IfOk result (λ dfa.
        (words : List (List Label)) × ReachAll positions.now words
        × (length dfa.rows ≡ length words + 1)) }
    ensures many { result ≡ Err BuildFault.TooManyStates → HasManySets positions.now }
    ensures few { OnOk result (HasManySets positions.now → ⊥) }
    ensures atoms { (n : ℕ) → result ≢ Err (BuildFault.TooManyLabels n) }
{
    let of_positions = PositionSets::of(alloc, positions)?;
    let states = find_states(alloc, &of_positions)?;
    let finals = finals_of(alloc, &states.nodes, of_positions.last)?;
    Ok(Dfa::new(alloc, of_positions.labels, states.rows, finals)?)
}
