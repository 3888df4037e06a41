//! Laws of the definitions. The functions do nothing: their contracts are the laws.

ghost use Rattle.dfa_build.specs.Laws.{MarkedSpellsWords, OneAutomaton, OnePositionAutomaton};

/// The words of an expression are those that the words of its marked expression spell.
pub fn marked_spells_words()
    ensures { MarkedSpellsWords }
{}

/// An expression has one position automaton: what [`positions`](crate::positions) answers is one
/// function of it.
pub fn one_position_automaton()
    ensures { OnePositionAutomaton }
{}

/// A position automaton has one automaton: what [`subset`](crate::subset) answers is one function
/// of it.
pub fn one_automaton()
    ensures { OneAutomaton }
{}
