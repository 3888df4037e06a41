//! Deterministic automata over labels, as tables.
//!
//! A [`Dfa`] has states from 0, labels in their order, and for each state and label at most one
//! step. State 0 is the start: no step leads to it and it isn't final, so the empty word is never
//! accepted. The contract for the layers above: each look-up answers exactly what the value says
//! that contracts see, within its range, and takes no memory; a step is one index into a flat
//! table, and so is the list of the states from which a label leads to a state. `specs/Runs`
//! defines the state that a word leads to, by labels and by their numbers, and the words that are
//! accepted; `specs/Order` the order in which a search from the start discovers the states.
//! [`discovery::discover`] is such a search, for whoever builds an automaton: it numbers the nodes
//! of any graph in that order, up to a limit, and makes the rows.
#![tactic(auto)]

mod befores;
mod dfa;
pub mod discovery;
mod laws;

pub use dfa::Dfa;
pub use laws::{
    accepted_words_pass, labels_have_places, one_numbering, runs_go_by_numbers, runs_join,
    runs_stay_within, start_is_apart,
};
