//! The test of containment: whether simple and arbitrary paths give the same answers.
//!
//! A language has the property of containment where from each of its words a part may be left out,
//! if what stays isn't empty. A path that comes back to a vertex can then do without the way
//! between, so each answer of an arbitrary path is one of a simple path too, unless the path leads
//! back to where it began. [`contained`] decides of an automaton whether its language has the
//! property, and answers the least three words that show it where it hasn't. `specs/Containment`
//! defines both, of a language as a set of words; the laws say that a language has one verdict
//! ([`one_verdict`]), on which the empty word has no bearing ([`empty_word_is_no_matter`]), and
//! that the middle one of the least words is one label ([`second_is_one_label`]). The search goes
//! through the table of pairs of `state_pairs`.
#![tactic(auto)]

mod decision;
mod front;
mod laws;
mod needed;
mod verdict;

pub use decision::contained;
pub use laws::{empty_word_is_no_matter, one_verdict, second_is_one_label};
pub use verdict::Verdict;
