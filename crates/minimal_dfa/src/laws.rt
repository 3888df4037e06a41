//! Laws of least automata. The functions do nothing: their contracts are the laws.

ghost use Rattle.minimal_dfa.specs.Laws.{OneLeast, LeastHasFewest};

/// Of the least automata over one list of labels that accept the same words there is one.
pub fn one_least()
    ensures { OneLeast }
{}

/// No automaton that accepts the same words has fewer states.
pub fn least_has_fewest()
    ensures { LeastHasFewest }
{}
