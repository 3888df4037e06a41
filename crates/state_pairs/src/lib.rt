//! Least words in graphs whose edges have labels, and the pairs of states of an automaton.
//!
//! [`levels`] finds for each node of a [`Graph`] the least length of a word that leads from it to
//! a goal, and [`least_word`] the least of these words. [`PairTable`] stands on them: it tells of
//! two states of an automaton whether one accepts a word that the other doesn't, and the least
//! such word. The contracts speak of words alone: `specs/Goals` defines those that lead to a goal,
//! and `specs/Pairs` those that one state accepts beside another. A table holds a level for each
//! pair of states; to make it takes time and memory in proportion to the pairs and the labels.
#![tactic(auto)]

mod goals;
mod laws;
mod pairs;
mod search;
mod sources;

pub use goals::Graph;
pub use laws::{one_least_extra, one_list_of_levels};
pub use pairs::PairTable;
pub use search::{least_word, levels};
