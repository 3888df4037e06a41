//! The queries file: its queries, each with its automaton and its verdict, or its first fault.
//!
//! A file is read line by line. Blank lines and comments give nothing and are counted; every other
//! line is `query NAME window SIZE slide SLIDE MODE EXPR`, where MODE is `arbitrary:` or `simple:`
//! and all that follows its colon is the expression. The contract for the layer above:
//! [`read_queries`] answers exactly what `specs/Queries` says that the bytes give, unless memory
//! runs out: the queries in their order, or the first line that has a fault, with the first of its
//! faults in the order of [`QueryKind`]. Each query comes with the least automaton that accepts the
//! nonempty words of its expression, and with the verdict whether its language has the property of
//! containment; [`Compiled`] keeps that they are these. A query that takes simple paths is accepted
//! exactly where its language has the property, since there simple paths do what all paths do.
//! [`read_two_way_queries`] does the same where a `^` before a label takes it backwards.
//!
//! Each line is gone through a fixed number of times, and its name compared with those before it,
//! of which there are at most 64; the automata cost what their making costs in the crates below.
//! The laws say that a file has one outcome, and say what it is once more, by its parts.
#![tactic(auto)]

mod automaton;
mod compiled;
mod fault;
mod first_field;
mod laws;
mod line_text;
mod query;
mod read;
mod word_text;

pub use compiled::{Compiled, copied_definitions};
pub use fault::{QueryFault, QueryKind};
pub use laws::{
    faults_in_order, line_examples, one_first_field, one_outcome, one_two_way_outcome,
    queries_by_parts, two_way_examples,
};
pub use read::{read_queries, read_two_way_queries};
