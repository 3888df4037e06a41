//! The least automaton of a language.
//!
//! [`minimize`] makes it from any automaton of the language: the one whose states are all reached
//! and reach a final one, and are told apart by words. `specs/Least` says so; the laws say that
//! over one list of labels a language has one such automaton ([`one_least`]), and that no other
//! has fewer states ([`least_has_fewest`]). Two states are told apart by the table of pairs of
//! `state_pairs`; the least state of each class of states that accept the same words stands for
//! all of them, and the walk of `dfa_table` numbers these in the order of discovery. The contract
//! for the layer above: the same words, the same labels, and least.
#![tactic(auto)]

mod classes;
mod laws;
mod least;

pub use laws::{least_has_fewest, one_least};
pub use least::minimize;
