//! The steps of the automaton by the labels of edges.

ghost use Rattle.std.specs.Prelude.{◌≡◌, ◌↔◌, IsSome, IsTrue};
ghost use Rattle.dfa_table.specs.DfaValue.{step_of};

use dfa_table::Dfa;

/// The state to which the automaton steps by the label from the state, or none where it has no
/// such step. It has none from a state that it hasn't got.
pub(crate) fn step_from(dfa: &Dfa, state: u32, label: u32) -> Option<u32>
    ensures { result ≡ step_of dfa.now state label }
{
    if state >= dfa.states() {
        return None;
    }
    dfa.step(state, label)
}

/// Whether the automaton has a step by the label from the state.
pub(crate) fn has_step(dfa: &Dfa, state: u32, label: u32) -> bool
    ensures { IsTrue result ↔ IsSome (step_of dfa.now state label) }
{
    step_from(dfa, state, label).is_some()
}
