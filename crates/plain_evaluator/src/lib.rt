//! The answers of queries from scratch, by the definitions alone: the second opinion of tests.
//!
//! [`plain_answers`] computes the answers of any query with no automaton: in polynomial time where
//! it takes all paths, and in exponential time where it takes the simple ones; [`plain_rows`]
//! computes the end of each of them too, from the deadlines of entries ([`deadline_of`]), and
//! [`changes`] the events from one list of answers to another.
#![tactic(auto)]

mod closure;
mod deadlines;
mod distinct;
mod events;
mod plain;
mod relation;
mod rows;
mod simple;

pub use deadlines::deadline_of;
pub use events::changes;
pub use plain::plain_answers;
pub use rows::plain_rows;
