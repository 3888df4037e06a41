//! Automata from expressions: the position automaton of an expression, and the deterministic one
//! that the subset construction makes of it.
//!
//! The contract for the layers above: [`positions`] answers Glushkov's automaton, which accepts
//! exactly the nonempty words of an expression's language, and [`subset`] a deterministic
//! automaton that accepts the words that such a one accepts. So both together accept the nonempty
//! words of the expression. An expression of more than 64 labels and one whose words reach more
//! than 512 nonempty sets of positions are refused, each by its name.
#![tactic(auto)]

mod automaton;
mod construction;
mod fault;
mod laws;
mod position_set;
mod state_sets;
mod subset_construction;
mod transitions;

pub use automaton::Positions;
pub use construction::positions;
pub use fault::BuildFault;
pub use laws::{marked_spells_words, one_automaton, one_position_automaton};
pub use subset_construction::subset;
